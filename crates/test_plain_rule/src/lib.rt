//! The rule of acceptance as a plain program, and drawn commands that it answers, for tests of the crates that answer by that rule.
//!
//! A `Rule` keeps each text of plain letters and each delta from the beginning on, unit by unit. It is written from docs/ACCEPTANCE.md,
//! and not from the definitions that the crates are proved by. `Draws` draws commands: most of them come near to what the rule takes, so
//! that each of its answers comes often.
//!
//! It stands on `refusal` alone. Only crates of tests use it. Of it no more is proved than that it is safe.
#![tactic(auto)]

mod draws;
mod letters;
mod rule;

pub use draws::Draws;
pub use letters::Mark;
pub use rule::{Action, Command, Limits, REFUSALS, Reply, Rule};
