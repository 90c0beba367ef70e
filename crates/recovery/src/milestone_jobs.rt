//! Handing out the jobs of milestones.
ghost use Rattle.std.specs.Prelude.{List, ◌≡◌, ◌≢◌, ◌⊎◌, ◌≤◌, true, Some, None, slice_get, Contains, OnOk, OnErr, IfOk, IfErr, IfSome, IsErrOf, [], ◌∷◌};
ghost use Rattle.refusal.specs.Refusal.{IsOneOf};
ghost use Rattle.refusal.specs.declared.Refusal.{Refusal as Why};
ghost use Rattle.delta.specs.Element.{Element};
ghost use Rattle.delta.specs.Operation.{Operation};
ghost use Rattle.delta.specs.Gaps.{End};
ghost use Rattle.delta.specs.Normal.{nf};
ghost use Rattle.revision.specs.Past.{is_content, content_at, sources_at};
ghost use Rattle.revision.specs.Pending.{record_of};
ghost use Rattle.revision.specs.Replay.{IsReplay};
ghost use Rattle.revision.specs.State.{are_sources, revision_of};
ghost use Rattle.history.specs.Cell.{cell_of};
ghost use Rattle.milestone.specs.Job.{KeepLengths, units_of_job, cell_of_job};
ghost use Rattle.recovery.specs.Cells.{highest_known};
ghost use Rattle.recovery.specs.Faults.{FailsAtFaults};
ghost use Rattle.recovery.specs.Jobs.{IsJobTo, IsMadeOf, KeepsLimits, no_job_of, no_job_for, without_job};
ghost use Rattle.recovery.specs.Milestones.{IsHandedOut, IsRefusedWhereDue};
ghost use Rattle.recovery.specs.Open.{IsOpen, IsUnchanged, state_of, known_cells, kept_jobs};
ghost use Rattle.recovery.specs.Unwritten.{IsUnchangedButJobs};

use crate::store::Store;
use disk::Disk;
use milestone::{Cells, Job};
use refusal::Refusal;
use revision::{DocState, Replay};
use std::alloc::{AllocError, Global};

impl<D: Disk> Store<D> {
    /// What a milestone of a document at a revision is made of: what the document held at the nearest revision that is at hand, the edits
    /// after that up to the revision, and the document's sources there; to the newest revision it is what the document holds, and no edit.
    /// The edits after it are copied and not applied, so that a job can be composed in another thread; where no document is kept above the
    /// floor, those up to the floor are applied here. The store keeps a copy of the job, of each document the last one.
    ///
    /// `NoDocument` comes where there is none of this number, `Future` where it hasn't reached the revision, and `TooOld` where
    /// the revision is 0, below the floor, or below that of an open cell of the document. `NoMemory` comes in place of no
    /// other refusal. After a refusal the store is unchanged.
    pub fn milestone_job(
        &mut self,
        alloc: Global,
        document: u32,
        revision: u64,
    ) -> Result<Job, Refusal>
        // When each refusal comes.
        ensures faults { FailsAtFaults result self.old self.new }
        ensures due { IsRefusedWhereDue document revision result self.old }

        // What it gives.
        ensures given { IfOk result (λ job. IsHandedOut document revision job self.old self.new) }

        // Nothing but the kept jobs changes, and after a refusal nothing at all.
        ensures same { IsUnchangedButJobs self.old self.new }
        ensures untouched { OnErr result (IsUnchanged self.old self.new) }
        ensures open { IsOpen self.old → IsOpen self.new }
    {
        if self.failed {
            return Err(Refusal::Fault);
        }
        let job = self.job_to(alloc, document, revision)?;
        let copy = job.copy(alloc)?;
        self.jobs.keep(copy)?;
        Ok(job)
    }

    /// Drops the copy of a job, where this very job is still the one that is kept of its document: what comes of it isn't put any more, and
    /// another one may be due. It takes no memory.
    pub fn give_up_job(&mut self, job: &Job)
        ensures kept { Contains (kept_jobs self.old) job.now
            → kept_jobs self.new ≡ without_job job.now.document (kept_jobs self.old) }
        ensures other { (¬ Contains (kept_jobs self.old) job.now) → kept_jobs self.new ≡ kept_jobs self.old }
        ensures same { IsUnchangedButJobs self.old self.new }
        ensures open { IsOpen self.old → IsOpen self.new }
    {
        if self.jobs.is_kept(job) {
            self.drop_job(job.document_number());
        }
    }

    // Drops the copy of the job of a document, where one is kept. It takes no memory.
    pub(crate) fn drop_job(&mut self, document: u32)
        ensures jobs { kept_jobs self.new ≡ without_job document (kept_jobs self.old) }
        ensures same { IsUnchangedButJobs self.old self.new }
        ensures open { IsOpen self.old → IsOpen self.new }
    {
        self.jobs.forget(document);
    }

    // The job, or why there is none.
    pub(crate) fn job_to(&self, alloc: Global, document: u32, revision: u64) -> Result<Job, Refusal>
        ensures job { IfOk result (λ job. IsJobTo (state_of self.now).documents document revision job) }
        ensures made { IfOk result (λ job. IsMadeOf (state_of self.now).documents document revision job) }
        ensures keeps { IfOk result (λ job. KeepsLimits (state_of self.now).limits job) }
        ensures given { OnOk result
            (no_job_for (slice_get (state_of self.now).documents document)
            (highest_known (known_cells self.now) document) revision ≡ None) }
        ensures refused { (why : Why)
            → no_job_for (slice_get (state_of self.now).documents document)
            (highest_known (known_cells self.now) document) revision ≡ Some why → IsErrOf result why }
        ensures refusal { IfErr result (λ e. e ≢ Refusal.NoMemory
            → no_job_for (slice_get (state_of self.now).documents document)
            (highest_known (known_cells self.now) document) revision ≡ Some e) }
        ensures no_fault { ¬ IsErrOf result Refusal.Fault }
        ensures only { IfErr result (λ e. (IsOneOf e (Refusal.NoDocument ∷ Refusal.Future ∷ Refusal.TooOld ∷ []))
            ⊎ (e ≡ Refusal.NoMemory)) }
    {
        self.state.facts();
        let Some(found) = self.state.documents().get(document as usize) else {
            return Err(Refusal::NoDocument);
        };
        if let Some(refusal) = why_none(found, highest_of(&self.cells, document), revision) {
            return Err(refusal);
        }
        let job = job_of(alloc, document, found, revision)?;
        Ok(job)
    }
}

// Why a document is given no job to a revision; `highest` is the highest revision of its open cells.
fn why_none(found: &DocState, highest: u64, revision: u64) -> Option<Refusal>
    ensures is { result ≡ no_job_of (record_of found.now) highest revision }
    ensures only { IfSome result (λ e. (e ≡ Refusal.Future) ⊎ (e ≡ Refusal.TooOld)) }
{
    if found.revision() < revision {
        Some(Refusal::Future)
    } else if revision == 0 || revision < found.floor() || revision < highest {
        Some(Refusal::TooOld)
    } else {
        None
    }
}

// The highest revision of a document's open cells, 0 where none is open.
pub(crate) fn highest_of(cells: &[Cells], document: u32) -> u64
    ensures { result ≡ highest_known cells.now document }
{
    match cells.get(document as usize) {
        Some(known) => known.highest(),
        None => 0,
    }
}

// The job of a document to a revision that it holds. Refused as out of memory alone.
fn job_of(alloc: Global, document: u32, found: &DocState, revision: u64) -> Result<Job, AllocError>
    requires first { 1 ≤ revision }
    requires held { found.now.past.past.floor ≤ revision }
    requires there { revision ≤ revision_of (record_of found.now) }
    requires sources { are_sources revision (sources_at found.now.past.past revision).entries ≡ true }
    requires content { is_content (content_at found.now.past.past revision) ≡ true }
    requires lengths { (units : List Element) (deltas : List (List Operation))
        → IsReplay found.now.past.past revision units deltas → KeepLengths (nf (End units)) deltas }
    ensures document { IfOk result (λ job. job.document ≡ document) }
    ensures is { IfOk result (λ job. cell_of_job job ≡ cell_of (record_of found.now) revision) }
    ensures made { IfOk result (λ job. IsReplay found.now.past.past revision (units_of_job job) job.deltas) }
{
    let Replay {
        document: from,
        deltas,
        sources,
    } = found.replay_to(alloc, revision)?;
    let base = from.as_delta(alloc)?.share(alloc)?;
    let name = found.name().copy(alloc)?;
    found.facts();
    let live = found.is_live();
    Ok(Job::new(document, name, revision, base, deltas, live, sources))
}
