//! One thread's runs over a board and a flusher. No program makes them: what `richd` runs is `turns`, and these are what the laws of
//! `world` are tied to.
//!
//! `turn` takes a run off a board of the same thread, writes it and settles it: specs/Run.antt says by `RunGoes` which batches a crash at
//! any moment of it leaves.
//!
//! # One thread's run
//!
//! `drive` makes calls one after another (submit a command, make a turn, acknowledge a ticket, put a milestone, retire a segment) and
//! gives an answer for each. Its contract says of the whole run:
//!
//! - `any_moment`, `holds`: each content that a crash may leave at any moment since the run began is found, whichever cell of a document
//!   is used, as a state that agrees with the first commands of the board's order up to the end of a batch; once it has returned, with no
//!   fewer commands than are settled then.
//! - `acknowledged`: each ticket whose acknowledgement gave a token asks for no more than is settled then. So a crash loses nothing
//!   that was acknowledged.
//! - `answered`, `whole`: each answer is what specs/Driving.antt says by `Gives` of its call, of the board, the tickets and the store; a
//!   run that isn't stopped answers all. A run stops out of memory, at a fault of the device, and where a turn is refused, by `Stops`
//!   of the same file; the call at which it stops gives no ticket and settles nothing, and leaves what `IsUnanswered` says.
//! - `fails`: it stops with `Fault` exactly when the store has failed.
//!
//! What a crash leaves is said of a store that is open as `IsOpen` of recovery says, which `Store::open` gives for an honest device. A
//! turn that publishes a batch before its commit can't be written: a publish shows what was accepted by the receipt of its commit.
//!
//! # A run as events
//!
//! A run is a list of a world's events: specs/Schedule.antt says which, and `laws::run_is_a_schedule` that they make just the run's board,
//! tickets and acknowledgements. The law over all lives of a server is one of `server_threads`.
//!
//! A caller, with its contract, which `test_flusher` proves:
//!
//! ```text
//! ghost use Rattle.std.specs.Prelude.{◌≡◌, None, false};
//! ghost use Rattle.disk.specs.Crash.{LeavesOnly};
//! ghost use Rattle.world.specs.World.{takens};
//! ghost use Rattle.recovery.specs.Open.{IsOpen, device_of, has_failed};
//! ghost use Rattle.flusher.specs.Holding.{store_of};
//! ghost use Rattle.flusher.specs.Standing.{IsCalm, standing};
//! ghost use Rattle.lives.specs.Run.{IsFirst, batches_of};
//!
//! use disk::Disk;
//! use flusher::Flusher;
//! use hub::{Board, Seat};
//! use lives::{Call, Driven, drive};
//! use published::Life;
//! use revision::Command;
//! use std::alloc::Global;
//! use std::sync::Wait;
//!
//! /// Submits a command, writes it, and asks for its acknowledgement. A crash at any moment leaves first commands of the board's order,
//! /// no fewer than were settled before; and unless something stopped it, more can be saved.
//! pub fn save<D: Disk, L: Life, R: Wait>(
//!     rt: &R,
//!     alloc: Global,
//!     flusher: &mut Flusher<D, L>,
//!     board: &mut Board<D, L>,
//!     seat: &mut Seat<L>,
//!     command: Command,
//! ) -> Driven<D, L>
//!     requires calm { IsCalm L.start (standing board.old flusher.old) }
//!     requires works { (has_failed (store_of flusher.old) ≡ false) × (board.old.failed ≡ false) }
//!     ensures any_moment { IsOpen (store_of flusher.old)
//!         → LeavesOnly ⟦<D as Disk>⟧
//!         (IsFirst board.old.progress.settled L.start (takens board.new.progress.order)
//!         (batches_of (standing board.new flusher.new)))
//!         (device_of (store_of flusher.old)) (device_of (store_of flusher.new)) }
//!     ensures calm { result.stopped ≡ None → IsCalm L.start (standing board.new flusher.new) }
//! {
//!     let calls = [Call::Submit(command), Call::Turn, Call::Ack(0)];
//!     drive(rt, alloc, flusher, board, seat, &calls)
//! }
//! ```
#![tactic(auto)]

mod calls;
mod driving;
pub mod laws;
mod turning;

pub use calls::{Answer, Call};
pub use driving::{Driven, drive};
pub use turning::turn;
