//! Tests of `flusher`, of `lives` and of `turns`, by their public calls alone.
//!
//! `callers` has the callers that open `lib.rt` of `lives` and of `turns`, proved.
#![tactic(auto)]

#[cfg(test)]
pub mod callers;
#[cfg(test)]
mod committing;
#[cfg(test)]
mod composing;
#[cfg(test)]
mod freeing;
#[cfg(test)]
mod jobs;
#[cfg(test)]
mod rows;
#[cfg(test)]
mod runs;
#[cfg(test)]
mod seats;
#[cfg(test)]
mod shows;
#[cfg(test)]
mod threads;
#[cfg(test)]
mod upkeep;
