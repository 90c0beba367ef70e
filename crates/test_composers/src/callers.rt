//! The caller that stands at the head of `composers`, proved as it stands there.
ghost use Rattle.std.specs.Prelude.{◌≡◌, length, IfOk};
ghost use Rattle.compose.specs.Many.{applied};
ghost use Rattle.milestone.specs.Job.{units_of_job};

use composers::{OpenHalves, compose_by_halves};
use milestone::{ComposeError, Job};
use std::alloc::Global;
use std::thread::Threads;

/// How many units a document has at the revision of a job, whose halves two threads compose. Refused as out of memory alone.
pub fn length_by_halves<R: Threads>(rt: &R, alloc: Global, job: Job) -> Result<u64, ComposeError>
    ensures length { IfOk result (λ len. len ≡ length (applied (units_of_job job) job.deltas)) }
{
    match compose_by_halves(rt, alloc, job, &OpenHalves) {
        Ok(composed) => Ok(composed.milestone().document().len16()),
        Err(back) => Err(back),
    }
}
