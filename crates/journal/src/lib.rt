//! How what was taken is kept in the journal.
//!
//! To the layer above the crate promises: a batch of commands that were taken has one spelling, which is read back, and
//! so has a delta; an area holds the bodies that were appended to it, and a crash at any moment of an append leaves them
//! with the new one or without. It stands on `revision` for what a command that was taken is, on `delta` and on `disk`.
//!
//! A caller, with its contract, which is proved as it stands:
//!
//! ```text
//! ghost use Rattle.std.specs.Prelude.{◌+◌, ◌≤◌, ◌<◌, ◌^◌, ℕ, List, [], ◌∷◌, ◌++◌, length, OnOk};
//! ghost use Rattle.journal.specs.Area.{Stands};
//! ghost use Rattle.journal.specs.BatchSpelling as spelling;
//! ghost use Rattle.journal.specs.BatchSpelling.{batch_width};
//!
//! use disk::Disk;
//! use journal::{Area, Record};
//! use refusal::Refusal;
//! use revision::Taken;
//! use std::alloc::Global;
//!
//! /// Appends a batch to an area. At Ok the area holds its spelling behind what it held.
//! pub fn keep<D: Disk>(
//!     alloc: Global,
//!     area: &mut Area,
//!     disk: &mut D,
//!     batch: &[Taken],
//! ) -> Result<(), Refusal>
//!     requires some { 1 ≤ length batch.now }
//!     requires short { length batch.now < 2 ^ 32 }
//!     requires body { batch_width batch.now < 2 ^ 32 }
//!     requires within { area.old.at + area.old.size ≤ length (D.seen disk.old) }
//!     ensures { OnOk result ((bodies : List (List ℕ)) → Stands (D.seen disk.old) area.old bodies
//!         → Stands (D.seen disk.new) area.new (bodies ++ spelling.batch batch.now ∷ [])) }
//! {
//!     let record = Record::of_batch(alloc, batch)?;
//!     area.append(disk, &record)?;
//!     Ok(())
//! }
//! ```
#![tactic(auto)]

mod area;
mod batch;
mod gate;
pub mod laws;
mod pending;
mod record;
mod scan;

pub use area::{AppendError, Area};
pub use batch::{
    batch_len, decode_batch, encode_batch, read_delta, read_number32, read_number64, read_text16,
    write_delta, write_number32, write_number64, write_text16,
};
pub use gate::{CLOSED, OPEN, write_gated};
pub use record::Record;
pub use scan::{Scan, ScanError};
