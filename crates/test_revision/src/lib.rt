//! Tests of `revision`, by its public calls alone. They stand apart from that crate so that it is proved once. Which revision
//! and which text comes of a command, what it weighs and how wide its entry is, is worked out by hand from docs/ACCEPTANCE.md
//! and docs/FORMATS.md.
//!
//! `callers` has the callers that open `lib.rt` of revision and of history, proved.
#![tactic(auto)]

#[cfg(test)]
mod adopting;
#[cfg(test)]
mod asking;
#[cfg(test)]
mod batches;
#[cfg(test)]
pub mod callers;
#[cfg(test)]
mod copies;
#[cfg(test)]
mod creations;
#[cfg(test)]
mod deleting;
#[cfg(test)]
mod drawn;
#[cfg(test)]
mod edits;
#[cfg(test)]
mod limits;
#[cfg(test)]
mod names;
#[cfg(test)]
mod past;
#[cfg(test)]
mod steps;
