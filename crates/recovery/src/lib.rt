//! The store: how a device is formatted, opened and written.
//!
//! A device has a superblock that names the store's shape, two cells for each document, where each may hold the document at
//! a revision, and the slots of the journal's ring. To the layer above the crate promises which state the content of a device
//! represents, by the newer or the older cell of each document, and what a crash at any moment of a call leaves of it. It
//! stands on `segments`, `milestone`, `journal` and `disk`, and on `document` for documents that are given beside a batch; crate
//! `history` says, over values alone, what the parts of a store represent.
//!
//! A caller, with its contract, which is proved as it stands:
//!
//! ```text
//! ghost use Rattle.std.specs.Prelude.{◌≡◌, ◌≤◌, ◌<◌, ◌^◌, false, length, OnOk};
//! ghost use Rattle.disk.specs.Crash.{LeavesOnly};
//! ghost use Rattle.recovery.specs.Open.{FitsSlot, IsOpen, IsWithOrWithout, device_of, state_of, has_failed};
//!
//! use disk::Disk;
//! use recovery::{Receipt, Store};
//! use refusal::Refusal;
//! use revision::Batch;
//! use std::alloc::Global;
//!
//! /// Commits a batch whose documents aren't at hand. A crash at any moment leaves the state without it or with it, and at Ok the store is open.
//! pub fn commit_batch<D: Disk>(
//!     alloc: Global,
//!     store: &mut Store<D>,
//!     batch: &Batch,
//! ) -> Result<Receipt<D>, Refusal>
//!     requires some { 1 ≤ length batch.now }
//!     requires short { length batch.now < 2 ^ 32 }
//!     requires fits { FitsSlot (state_of store.old) batch.now }
//!     ensures any_moment { has_failed store.old ≡ false → IsOpen store.old
//!         → LeavesOnly ⟦<D as Disk>⟧ (IsWithOrWithout (state_of store.old) batch.now) (device_of store.old) (device_of store.new) }
//!     ensures done { OnOk result (IsOpen store.old → IsOpen store.new) }
//! {
//!     store.commit(alloc, batch, &[])
//! }
//! ```
#![tactic(auto)]

mod composed;
mod due;
mod formatting;
mod freeing;
mod group;
mod jobs;
pub mod laws;
mod marks;
mod milestone_jobs;
mod milestones;
mod reading;
mod receipt;
mod retiring;
mod rounds;
mod run;
mod shape;
mod store;
mod superblock;

pub use formatting::{format_device, format_with};
pub use history::Pick;
pub use reading::{OldStore, read_old};
pub use receipt::Receipt;
pub use run::{RunError, StoreStep};
pub use shape::Shape;
pub use store::{OpenFault, Store};
