//! Tests of `composers`, by its public calls alone.
#![tactic(auto)]

pub mod callers;
#[cfg(test)]
mod halves;
#[cfg(test)]
mod made;
#[cfg(test)]
mod places;
#[cfg(test)]
mod workers;
