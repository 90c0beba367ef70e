//! Tests of the crates of deltas, over their public calls: what the rows of the program `test_rows` can't say.
//!
//! `callers` has the callers that open each crate's `lib.rt`, proved.
#![tactic(auto)]

#[cfg(test)]
pub mod callers;
#[cfg(test)]
mod tests;
