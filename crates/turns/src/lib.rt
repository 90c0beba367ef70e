//! The turns of the flusher's thread: each takes a batch of what sessions have ordered, writes it with the board unlocked, and settles it.
//!
//! `flush_turn` makes one turn, by the calls of a `Flusher` and of a `Hub`, and `flush_all` one after another until the hub is ended.
//! `Upkeep` is what a turn leaves to the next: the documents that are to be looked at, and the ends of the channels to the composers
//! (`composers`), to which a turn hands out jobs and from which it takes back what came of them. Where a channel is full or empty a turn
//! continues. `compose_workers` runs the composers, in threads beside this one.
//!
//! Other threads change the board between a turn's steps, so a turn says nothing of it but what the writer counts: before and after each turn
//! what is published is settled, and what was taken off the board is published, committed or held (`IsAt`, specs/Counting.antt). It says of its
//! flusher, by `Writes` of specs/Writing.antt, that no batch that it was given is dropped, none that was published is taken back, and what a crash
//! leaves of them; and by `IsTurnFailed` why it fails the board. The rest stands in the types of what it passes: a run is one that a board took
//! off, a receipt is of a batch that the store has committed, and a board settles only by one. A `Run` and a `Written` aren't `Drop`: each run is
//! given to the flusher, and each batch that is written is settled. What a turn answers with, and what `flush_all` does, are tokens that the hub
//! alone makes: that it settled, that it was told of a failure, that it was ended and nothing is left to take. A refusal without such a token is
//! `NoMemory`, after which the next turn continues.
//!
//! A caller, with its contract, which `test_flusher` proves:
//!
//! ```text
//! ghost use Rattle.std.specs.Prelude.{◌≡◌, ◌++◌, List, OnOk};
//! ghost use Rattle.revision.specs.Command.{Taken};
//! ghost use Rattle.revision.specs.State.{fold};
//! ghost use Rattle.recovery.specs.Found.{commands_of};
//! ghost use Rattle.recovery.specs.Open.{state_of};
//! ghost use Rattle.flusher.specs.Holding.{store_of, told_of};
//! ghost use Rattle.turns.specs.Counting.{IsAt};
//!
//! use disk::Disk;
//! use flusher::{Flusher, OpenGate};
//! use hub::{Failed, Hub, Idle, Writer};
//! use published::Life;
//! use std::alloc::Global;
//! use std::sync::Wait;
//! use turns::flush_all;
//!
//! /// Writes all that is ordered until the hub is ended, and puts no milestones. Nothing that was published is taken back. At Ok the store
//! /// holds exactly what is published, and the hub's token says that it was ended; at Err the hub was told of the failure.
//! pub fn flush_to_the_end<D: Disk, L: Life, R: Wait>(
//!     rt: &R,
//!     alloc: Global,
//!     flusher: &mut Flusher<D, L>,
//!     hub: &Hub<D, L>,
//!     writer: &mut Writer<L>,
//! ) -> Result<Idle<L>, Failed<L>>
//!     requires at { IsAt writer.old flusher.old }
//!     ensures at { IsAt writer.new flusher.new }
//!     ensures stays { (more : List (List Taken)) × (told_of flusher.new ≡ told_of flusher.old ++ more) }
//!     ensures holds { OnOk result (state_of (store_of flusher.new)
//!         ≡ fold L.start (commands_of (told_of flusher.new))) }
//! {
//!     let ended = flush_all(rt, alloc, flusher, hub, writer, 0, None, &mut OpenGate);
//!     flusher.kept();
//!     ended
//! }
//! ```
#![tactic(auto)]

mod exchange;
mod queue;
mod turn;
mod turn_error;
mod turned;
mod upkeep;

pub use composers::{Composers, HalfGate, OpenHalves, Worker, channels, compose_workers};
pub use turn::{flush_all, flush_turn};
pub use turn_error::TurnError;
pub use turned::Turned;
pub use upkeep::Upkeep;
