//! The threads that compose milestones beside the thread that writes.
//!
//! `Composers` are the ends of two channels, of 64 places each: by one the thread that writes hands out jobs, by the other it takes back what
//! came of them. `compose_workers` runs two composers until the ends of that thread are gone. Each takes a job, composes its two halves at
//! the same time, one in a new thread and one in its own, and joins them. The rule of the channels says nothing: what is known of a job, and
//! of what came of it, stands in their types, so nothing depends on which message arrives, when, or in which order.
//!
//! The crate promises that what comes of a job by its halves is what `compose_job` makes of it, and that nothing but memory refuses it. It
//! stands on `milestone` and on the channels of `crossbeam_channel`.
//!
//! A caller, with its contract, which `test_composers` proves:
//!
//! ```text
//! ghost use Rattle.std.specs.Prelude.{◌≡◌, length, IfOk};
//! ghost use Rattle.compose.specs.Many.{applied};
//! ghost use Rattle.milestone.specs.Job.{units_of_job};
//!
//! use composers::{OpenHalves, compose_by_halves};
//! use milestone::{Job, ComposeError};
//! use std::alloc::Global;
//! use std::thread::Threads;
//!
//! /// How many units a document has at the revision of a job, whose halves two threads compose. Refused as out of memory alone.
//! pub fn length_by_halves<R: Threads>(rt: &R, alloc: Global, job: Job) -> Result<u64, ComposeError>
//!     ensures length { IfOk result (λ len. len ≡ length (applied (units_of_job job) job.deltas)) }
//! {
//!     match compose_by_halves(rt, alloc, job, &OpenHalves) {
//!         Ok(composed) => Ok(composed.milestone().document().len16()),
//!         Err(back) => Err(back),
//!     }
//! }
//! ```
#![tactic(auto)]

mod channel;
mod composer;

pub use channel::{Composers, Done, Worker, channels};
pub use composer::{HalfGate, OpenHalves, compose_by_halves, compose_workers};
