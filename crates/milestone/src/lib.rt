//! Milestones: a document at a revision with its sources there, how they are made, and the two cells of a device that hold them.
//!
//! A `Milestone` is what a cell holds, a document of a name and a revision that can be (specs/Milestone.antt). It is made of a `Job`,
//! which stands apart from the store: units, and deltas that lead in turn from them to a content, which the maker gives as the
//! document's at that revision (specs/Job.antt). The layer above makes a job. `compose_job` needs nothing of the store, so any thread
//! may call it. Its answer holds the job, and `Job::is_same` tells whether it is the one that was given. The crate promises that the
//! milestone is what the job's deltas make, and that nothing but memory refuses it.
//!
//! `Cells` are the two cells of a document as they are known in memory: they are read together, the older one is closed, and a
//! milestone is put where one is closed. How a cell spells a milestone in a `Format` stands in specs/CellSpelling.antt; the second format is
//! written, and either one is read, what two cells hold in
//! specs/OneCell.antt, and what a crash at any moment of a call leaves of them in specs/Cells.antt. Milestones of many documents are put by three
//! steps, each made for all of them before one sync (specs/Together.antt). The crate stands on `history`, whose cells it holds, on `revision` and `compose`, and on `journal` and `disk`.
//!
//! A caller, with its contract, which `test_store` proves as it stands:
//!
//! ```text
//! ghost use Rattle.std.specs.Prelude.{◌≡◌, length, IfOk, IfErr};
//! ghost use Rattle.compose.specs.Many.{applied};
//! ghost use Rattle.milestone.specs.Job.{units_of_job};
//!
//! use milestone::{Job, ComposeError, compose_job};
//! use std::alloc::Global;
//!
//! /// How many units a document has at the revision of a job. Refused as out of memory alone, and then the job comes back.
//! pub fn length_of(alloc: Global, job: Job) -> Result<u64, ComposeError>
//!     ensures length { IfOk result (λ len. len ≡ length (applied (units_of_job job) job.deltas)) }
//!     ensures back { IfErr result (λ back. back.job ≡ job) }
//! {
//!     match compose_job(alloc, job) {
//!         Ok(composed) => Ok(composed.milestone().document().len16()),
//!         Err(back) => Err(back),
//!     }
//! }
//! ```
#![tactic(auto)]

mod cell;
mod cells;
mod composing;
mod content;
mod format;
mod job;
pub mod laws;
mod milestone;
mod part;
mod reading;
mod together;
mod writing;

pub use cell::write_open;
pub use cells::{Cells, ReadCells};
pub use composing::{ComposeError, Composed, compose_job, join_parts};
pub use format::Format;
pub use job::Job;
pub use milestone::{Milestone, MilestoneParts};
pub use part::{Part, PartDone, PartError, compose_part};
