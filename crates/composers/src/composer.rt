//! What a composer does.
ghost use Rattle.std.specs.Prelude.{◌≡◌, IfOk, IfErr};

use crate::channel::Worker;
use milestone::{ComposeError, Composed, Job, Part, PartDone, PartError, compose_part, join_parts};
use refusal::Refusal;
use std::alloc::{AllocError, Global};
use std::sync::Wait;
use std::thread::{Threads, join};

/// Where a half of a job may be held before it is composed: 0 is the first one, 1 the second.
pub trait HalfGate {
    /// Is passed by the thread of a half before it composes that.
    fn pass(&self, half: u8);
}

/// A gate that lets each half pass at once.
pub struct OpenHalves;

impl HalfGate for OpenHalves {
    fn pass(&self, _half: u8) {}
}

/// Does a job by its two halves, as `compose_job` does it: the two are composed at the same time, one of them in a new thread where the
/// system gives one. Refused as out of memory alone, and then the job comes back.
pub fn compose_by_halves<R: Threads, G: HalfGate + Sync>(
    rt: &R,
    alloc: Global,
    job: Job,
    gate: &G,
) -> Result<Composed, ComposeError>
    ensures done { IfOk result (λ composed. composed ≡ job) }
    ensures back { IfErr result (λ back. back.job ≡ job) }
    ensures only { IfErr result (λ back. back.refusal ≡ Refusal.NoMemory) }
{
    let (first, second) = match job.halves(alloc) {
        Ok(halves) => halves,
        Err(no_memory) => {
            return Err(ComposeError {
                job,
                refusal: no_memory.into(),
            });
        }
    };
    match both_done(rt, alloc, first, second, gate) {
        Ok((first, second)) => join_parts(alloc, job, first, second),
        Err(no_memory) => Err(ComposeError {
            job,
            refusal: no_memory.into(),
        }),
    }
}

// Composes two parts in two threads. Refused as out of memory alone.
fn both_done<R: Threads, G: HalfGate + Sync>(
    rt: &R,
    alloc: Global,
    first: Part,
    second: Part,
    gate: &G,
) -> Result<(PartDone, PartDone), AllocError>
    ensures first { IfOk result (λ done. done.0 ≡ first) }
    ensures second { IfOk result (λ done. done.1 ≡ second) }
{
    let (one, other) = join(
        rt,
        move || -> Result<PartDone, PartError>
            ensures done { IfOk result (λ done. done ≡ first) }
        {
            gate.pass(0);
            compose_part(alloc, first)
        },
        move || -> Result<PartDone, PartError>
            ensures done { IfOk result (λ done. done ≡ second) }
        {
            gate.pass(1);
            compose_part(alloc, second)
        },
    );
    match one {
        Ok(one) => match other {
            Ok(other) => Ok((one, other)),
            Err(_) => Err(AllocError),
        },
        Err(_) => Err(AllocError),
    }
}

// One composer: does each job that comes, and hands on what came of it, until the thread that writes has gone.
fn compose_jobs<R: Threads + Wait, G: HalfGate + Sync>(
    rt: &R,
    alloc: Global,
    mut worker: Worker,
    gate: &G,
) {
    for _ in rt.forever() {
        let Some(job) = worker.next(rt) else {
            return;
        };
        let done = compose_by_halves(rt, alloc, job, gate);
        if worker.hand_on(rt, done).is_err() {
            return;
        }
    }
}

/// Two composers: each does job after job and hands on what came of it, or the job where there was no memory for it. It returns
/// once the thread that writes has let go of its ends and both have noticed it. Where the system gives no thread there is one composer.
pub fn compose_workers<R: Threads + Wait + Sync, G: HalfGate + Sync>(
    rt: &R,
    alloc: Global,
    first: Worker,
    second: Worker,
    gate: &G,
) {
    join(
        rt,
        move || compose_jobs(rt, alloc, first, gate),
        move || compose_jobs(rt, alloc, second, gate),
    );
}
