//! The ring of slots that the journal's records go into.
//!
//! A slot holds nothing, or a segment: a number, and an area of records. To the layer above the crate promises which slot
//! is opened next and under which number, that a body is appended behind the newest segment's, and what a crash at any
//! moment of a call leaves of the table of slots. It knows bytes alone: what a body means is up to the layer above. It
//! stands on `journal` and `disk`.
//!
//! A caller, with its contract, which `test_store` proves as it stands:
//!
//! ```text
//! ghost use Rattle.std.specs.Prelude.{◌≡◌, ◌≤◌, [], ◌∷◌, Option, List, length};
//! ghost use Rattle.disk.specs.Crash.{LeavesOnly};
//! ghost use Rattle.segments.specs.Slot.{Segment};
//! ghost use Rattle.segments.specs.Ring.{Fits, IsLeftByAppend, end_of};
//!
//! use disk::Disk;
//! use journal::Record;
//! use refusal::Refusal;
//! use segments::Ring;
//! use std::alloc::Global;
//!
//! /// Appends one byte. A crash at any moment leaves the table before, with a slot opened for it, or with it.
//! pub fn append_byte<D: Disk>(alloc: Global, ring: &mut Ring, disk: &mut D, byte: u8) -> Result<(), Refusal>
//!     requires within { end_of ring.old ≤ length (D.seen disk.old) }
//!     ensures any_moment { (table : List (Option Segment)) → D.unsynced disk.old ≡ []
//!         → Fits (D.seen disk.old) ring.old table
//!         → LeavesOnly ⟦<D as Disk>⟧ (IsLeftByAppend (D.seen disk.old) ring.old table (byte ∷ [])) disk.old disk.new }
//! {
//!     let record = Record::of_body(alloc, &[byte])?;
//!     ring.append(disk, &record)
//! }
//! ```
#![tactic(auto)]

pub mod laws;
mod numbers;
mod order;
mod reading;
mod ring;
mod room;

pub use reading::RecoveredSegment;
pub use ring::{RecoveredRing, Ring};
