//! Tests of `hub`, by its public calls alone.
#![tactic(auto)]

#[cfg(test)]
mod board;
#[cfg(test)]
pub mod callers;
#[cfg(test)]
mod documents;
#[cfg(test)]
mod publishing;
#[cfg(test)]
mod rows;
#[cfg(test)]
mod seats;
#[cfg(test)]
mod stores;
#[cfg(test)]
mod threads;
