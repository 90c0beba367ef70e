//! Tests of a store served over connections on this machine, by public calls alone.
//!
//! `callers` has the callers that open `lib.rt` of hub_desk, sockets and server_threads, proved, and `lives` one of the law over all lives.
#![tactic(auto)]

#[cfg(test)]
pub mod callers;
#[cfg(test)]
pub mod lives;
#[cfg(test)]
mod tests;
