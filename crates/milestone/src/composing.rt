//! A milestone is made of a job.
ghost use Rattle.std.specs.Prelude.{◌≡◌, ◌⊎◌, ◌↔◌, IsTrue, IfOk, OnOk, IfErr};
ghost use Rattle.delta.specs.Gaps.{counted, apply};
ghost use Rattle.document.specs.Outcome.{IsAccepted};
ghost use Rattle.compose.specs.Many.{applied};
ghost use Rattle.milestone.specs.Halves.{AreHalves};
ghost use Rattle.milestone.specs.Job.{units_of_job, cell_of_job};

use crate::job::{Job, same_deltas};
use crate::milestone::Milestone;
use crate::part::{PartDone, one_for};
use delta::Delta;
use document::Document;
use refusal::Refusal;
use std::alloc::{AllocError, Global};
use std::marker::Model;

/// A finished job and its milestone. Its value in contracts is the job, since the milestone follows from it.
#[derive(Drop)]
pub struct Composed {
    job: Job,
    milestone: Milestone,
}

impl Model for Composed {
    ghost use Rattle.std.specs.Prelude.{◌≡◌};
    ghost use Rattle.milestone.specs.Job as spec;

    ghost Value = { spec.Job };

    ghost coded = { spec.job_code };

    ghost view = { λ c. c.job };

    ghost invariant = { λ c. c.milestone ≡ spec.cell_of_job c.job };
}

/// A job that wasn't done, unchanged, and why.
#[derive(Drop)]
pub struct ComposeError {
    pub job: Job,
    pub refusal: Refusal,
}

impl Composed {
    /// The job that was done.
    pub fn job(&self) -> &Job
        ensures { result.now ≡ self.now }
    {
        &self.job
    }

    /// The milestone that came of it.
    pub fn milestone(&self) -> &Milestone
        ensures { result.now ≡ cell_of_job self.now }
    {
        &self.milestone
    }
}

/// Does a job: composes its deltas into one, applies that to its units, and makes the milestone of it. Refused as out of memory alone, and then the job
/// comes back.
pub fn compose_job(alloc: Global, job: Job) -> Result<Composed, ComposeError>
    ensures done { IfOk result (λ composed. composed ≡ job) }
    ensures back { IfErr result (λ back. back.job ≡ job) }
    ensures only { IfErr result (λ back. back.refusal ≡ Refusal.NoMemory) }
{
    match milestone_of(alloc, &job) {
        Ok(milestone) => Ok(Composed { job, milestone }),
        Err(no_memory) => Err(ComposeError {
            job,
            refusal: no_memory.into(),
        }),
    }
}

/// Makes the milestone of a job of its two halves, each composed by itself: applies the one delta of the first to the units
/// of the job, and then that of the second. Refused as `Stranger` exactly when the two aren't the first and the second half of this job, in
/// this order, else as out of memory alone; and then the job comes back.
pub fn join_parts(
    alloc: Global,
    job: Job,
    first: PartDone,
    second: PartDone,
) -> Result<Composed, ComposeError>
    ensures done { IfOk result (λ composed. composed ≡ job) }
    ensures halves { OnOk result (AreHalves job first second) }
    ensures stranger { IfErr result (λ back. back.refusal ≡ Refusal.Stranger ↔ (¬ AreHalves job first second)) }
    ensures back { IfErr result (λ back. back.job ≡ job) }
    ensures only { IfErr result (λ back. (back.refusal ≡ Refusal.Stranger) ⊎ (back.refusal ≡ Refusal.NoMemory)) }
{
    if !are_halves(&job, &first, &second) {
        return Err(ComposeError {
            job,
            refusal: Refusal::Stranger,
        });
    }
    match milestone_by_halves(alloc, &job, &first, &second) {
        Ok(milestone) => Ok(Composed { job, milestone }),
        Err(no_memory) => Err(ComposeError {
            job,
            refusal: no_memory.into(),
        }),
    }
}

// whether they are the first and the second half of the job
fn are_halves(job: &Job, first: &PartDone, second: &PartDone) -> bool
    ensures { IsTrue result ↔ AreHalves job.now first.now second.now }
{
    let deltas = job.deltas();
    let (one, other) = deltas.split_at(deltas.len() / 2);
    if !same_deltas(first.deltas(), one) {
        return false;
    }
    same_deltas(second.deltas(), other)
}

// The milestone that comes of a job. Refused as out of memory alone.
fn milestone_of(alloc: Global, job: &Job) -> Result<Milestone, AllocError>
    ensures milestone { IfOk result (λ milestone. milestone ≡ cell_of_job job.now) }
{
    let document = content_of(alloc, job)?;
    milestone_with(alloc, job, document)
}

// The same of its halves.
fn milestone_by_halves(
    alloc: Global,
    job: &Job,
    first: &PartDone,
    second: &PartDone,
) -> Result<Milestone, AllocError>
    requires { AreHalves job.now first.now second.now }
    ensures milestone { IfOk result (λ milestone. milestone ≡ cell_of_job job.now) }
{
    let document = content_by_halves(alloc, job, first, second)?;
    milestone_with(alloc, job, document)
}

// The milestone of a job with its content. Refused as out of memory alone.
fn milestone_with(alloc: Global, job: &Job, document: Document) -> Result<Milestone, AllocError>
    requires { document ≡ applied (units_of_job job.now) job.now.deltas }
    ensures milestone { IfOk result (λ milestone. milestone ≡ cell_of_job job.now) }
{
    let name = job.name().copy(alloc)?;
    let sources = job.sources().copy(alloc)?;
    let live = job.is_live();
    Ok(Milestone::new(name, job.revision(), document, live, sources))
}

// What a job's deltas make of its units, by the one delta for all. Refused as out of memory alone.
#[tactic(auto, using(crate::proofs::InTurn::job_part))]
fn content_of(alloc: Global, job: &Job) -> Result<Document, AllocError>
    ensures content { IfOk result (λ document. document ≡ applied (units_of_job job.now) job.now.deltas) }
{
    let one = one_for(alloc, job.deltas())?;
    let mut document = base_of_job(alloc, job)?;
    apply_one(alloc, &mut document, &one)?;
    Ok(document)
}

// The same by the one delta for each half, in turn.
fn content_by_halves(
    alloc: Global,
    job: &Job,
    first: &PartDone,
    second: &PartDone,
) -> Result<Document, AllocError>
    requires { AreHalves job.now first.now second.now }
    ensures content { IfOk result (λ document. document ≡ applied (units_of_job job.now) job.now.deltas) }
{
    job.facts();
    let mut document = base_of_job(alloc, job)?;
    apply_one(alloc, &mut document, first.one())?;
    apply_one(alloc, &mut document, second.one())?;
    Ok(document)
}

// What the base of a job makes of the empty document. Refused as out of memory alone.
fn base_of_job(alloc: Global, job: &Job) -> Result<Document, AllocError>
    ensures units { IfOk result (λ document. document ≡ units_of_job job.now) }
{
    match Document::from_delta(alloc, job.base()) {
        Ok(document) => Ok(document),
        Err(refusal) => Err(refusal.as_alloc_error()),
    }
}

// Applies a delta that the document accepts. Refused as out of memory alone.
fn apply_one(alloc: Global, document: &mut Document, one: &Delta) -> Result<(), AllocError>
    requires { IsAccepted document.old (counted one.now) }
    ensures made { OnOk result (document.new ≡ apply document.old (counted one.now)) }
{
    match document.apply(alloc, one) {
        Ok(()) => Ok(()),
        Err(refusal) => Err(refusal.as_alloc_error()),
    }
}
