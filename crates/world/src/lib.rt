//! Every schedule: what holds of the server over all of its lives, whatever happens in between.
//!
//! A world is what a history of the server has made: the one order of the commands that were taken with the state after them, how
//! far it is taken off, shown and settled, the tickets that are out, all acknowledgements since the world began, and the two
//! lengths of the order that a crash may leave (specs/World.antt). Events are the steps of the board, of the device and of the
//! view, and crashes and openings (specs/Event.antt). Each makes a world of a world, and one that isn't possible changes nothing,
//! so every list of events is a schedule (specs/Step.antt). What the board does stands apart, in specs/Progress.antt, in words that
//! the board itself can be promised by.
//!
//! `laws::every_schedule` promises of every list of events: no acknowledged edit is missing, none is taken twice, none changes its
//! revision, and what was shown and acknowledged at any moment is a prefix of what is shown and acknowledged at any later one
//! (specs/Law.antt). The crate stands on the rule of acceptance, `revision`.
//!
//! A `Progress` is what stands behind the server's lock. Each of its calls is promised by the definition of the same step: what it does
//! to the order, the state and the counts, and which ticket it gives. A `World` is a plain program over a board that steps a whole
//! world, event by event (specs/Stepping.antt). A `Follower` is a plainer one, which goes through a schedule of one source's commands
//! to one document, with what the rule of acceptance says told to it; `laws::follower_follows` ties it to worlds.
//!
//! A caller, with its contract, which `test_world` proves as it stands:
//!
//! ```text
//! ghost use Rattle.std.specs.Prelude.{IfOk};
//! ghost use Rattle.world.specs.Law.{AcksStay, TakenOnce};
//!
//! use refusal::Refusal;
//! use revision::Limits;
//! use std::alloc::Global;
//! use world::{Event, World, laws};
//!
//! /// A world after these events, whichever they are: no acknowledged edit is missing of it, and none is taken twice.
//! pub fn lived(alloc: Global, limits: Limits, events: &[Event]) -> Result<World, Refusal>
//!     ensures stay { IfOk result (λ world. AcksStay world) }
//!     ensures once { IfOk result (λ world. TakenOnce world) }
//! {
//!     laws::every_schedule();
//!     let mut world = World::new(alloc, limits);
//!     for event in events {
//!         world.step(alloc, *event)?;
//!     }
//!     Ok(world)
//! }
//! ```
//!
//! # What the law doesn't cover
//!
//! - A refusal has no ticket, so it waits for nothing: that a number is old, or that a document exists, may rest on an edit that
//!   isn't settled yet and that a crash loses.
//! - A `World` begins without documents, and opens a store with the floors that its documents have where nothing is composed. A
//!   `Follower` is told whether floors may be picked.
//! - The law is one of definitions. That what the server does is the events of a world, in some order, isn't promised here.
#![tactic(auto)]

mod entry;
mod follower;
pub mod laws;
mod progress;
mod sent;
mod stepping;
mod ticket;

pub use entry::Entry;
pub use follower::{Follower, Happening, Place, Waiting};
pub use laws::every_schedule;
pub use progress::Progress;
pub use stepping::{Event, Outcome, World};
pub use ticket::{Ack, Ticket};
