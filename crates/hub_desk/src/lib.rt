//! A session's desk at a hub.
//!
//! A `HubDesk` submits each command to the hub by its seat, waits until the ticket is settled, and tells its viewer of the token that
//! it is given. The ticket and that token are both of the run's one order: so the ticket's order, in which the command has its place, is a
//! prefix of what is published, and the desk answers without a look at the state. What it shows is read through the viewer, which waits for
//! nobody. Commands of lines that were sent ahead are submitted one after another, under one hold of the board's lock, and then one wait,
//! for the last ticket, serves for all of them. It answers a command with `StoreFailed` only by a token that the hub alone makes, and keeps
//! that. Each command finds the order: what it is answered by begins with what the desk has shown and what its earlier commands found, so a
//! refusal, too, is by the run's one order. `specs/AtHub.antt` says what passes between it and a session, `specs/Standing.antt` when a
//! command stands in a state, and `laws` what that is good for.
//!
//! `Counters` counts what desks answered, where they are given one.
//!
//! It is a crate of its own, so that `session` stands on nothing of stores and threads.
//!
//! A caller, with its contract, which `test_server_threads` proves:
//!
//! ```text
//! ghost use Rattle.std.specs.Prelude.{IfErr, IfOk};
//! ghost use Rattle.hub_desk.specs.AtHub.{Acknowledges, Refuses};
//!
//! use hub_desk::HubDesk;
//! use published::Life;
//! use refusal::Refusal;
//! use revision::Command;
//! use session::{Desk, Reply};
//! use std::alloc::Global;
//! use std::sync::Wait;
//!
//! /// Answers a command at a hub once it is settled: what the desk shows from then on has it.
//! pub fn answer<D, L: Life, R: Wait>(
//!     alloc: Global,
//!     desk: &mut HubDesk<'_, D, L, R>,
//!     command: &Command,
//! ) -> Result<Reply, Refusal>
//!     ensures ok { IfOk result (λ reply. Acknowledges L.start desk.old command.now reply desk.new) }
//!     ensures err { IfErr result (λ e. Refuses L.start desk.old command.now e desk.new) }
//! {
//!     desk.ask(alloc, command)
//! }
//! ```
#![tactic(auto)]

mod counters;
mod desk;
pub mod laws;

pub use counters::Counters;
pub use desk::HubDesk;
