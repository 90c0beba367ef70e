//! A log that one owner makes longer, while anybody may have seen a prefix of it.
//!
//! The log stands in the proofs alone. Its `Owner` has the only right to make it longer, so what the owner knows of it is all of it: to
//! append never fails. A `Front` is a token of no bytes with a prefix of the log. It can be copied, and goes to other threads; of two
//! fronts of one log the shorter begins the longer, which `meets` shows.
#![tactic(auto)]

mod front;
mod law;
mod link;
mod owner;

pub use front::Front;
pub use law::Shows;
pub use link::Link;
pub use owner::Owner;
