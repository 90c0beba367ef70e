//! Tests of sessions over a state alone. They call public functions only.
//!
//! `callers` has the caller that opens `lib.rt` of session, proved.
#![tactic(auto)]

pub mod callers;
#[cfg(test)]
mod tests;
