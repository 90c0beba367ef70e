//! Tests of `world`, by its public calls alone: schedules of whole commands that a `World` runs (steps, and deleting: of
//! documents that are deleted and created again), and schedules that a
//! `Follower` runs. What the rule of acceptance says of a command that is no retry is told to the latter: here it takes a source's
//! next number, as the next revision.
//!
//! `callers` has the caller that opens `lib.rt` of world, proved.
#![tactic(auto)]

#[cfg(test)]
pub mod callers;
#[cfg(test)]
mod deleting;
#[cfg(test)]
mod lists;
#[cfg(test)]
mod rows;
#[cfg(test)]
mod steps;
