//! The flusher, which commits what a board has ordered, batch by batch, and then publishes it to readers.
//!
//! A `Flusher` holds the store, what publishes its batches, and at most one run that is to be written. `write` commits it as a batch and
//! publishes it, between the moments of a `Gate`; what was stopped continues in the next call. What it gives is a `Written`, which isn't `Drop`: it
//! has to be settled, at a hub or on a board of the same thread. `start` makes a flusher and its board over a store, where nothing is
//! under way, as `IsCalm` of specs/Standing.antt says. The crate `lives` says what runs of one thread over both keep.
//! Between any two of its calls the type of a `Flusher` keeps from which moment on no crash takes a batch back, as `Lasts` of specs/Lasting.antt
//! says: its commit had ended then. `lasts` tells it.
//!
//! Where the journal is full, a write frees its oldest segment first, by milestones of that segment's documents; `commit_held` frees nothing.
//! `job_due` tells to which revision a milestone of a document is due. `milestone_job` and `put_milestones` let another thread compose it, and
//! `give_up_job` drops a job that wasn't composed.
#![tactic(auto)]

mod begun;
mod flusher;
mod gate;
pub mod laws;
mod starting;
mod upkeep;
mod written;

pub use flusher::Flusher;
pub use gate::{Gate, Moment, OpenGate};
pub use hub::{Board, Hub, Seat, Ticket};
pub use published::Told;
pub use starting::{StartError, start};
pub use view::Viewer;
pub use written::Written;
