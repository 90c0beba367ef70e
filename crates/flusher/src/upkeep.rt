//! What a flusher does for its store between batches: milestones, and the retirement of what nothing needs any more.
ghost use Rattle.std.specs.Prelude.{◌≡◌, ◌≢◌, ◌⊎◌, ◌↔◌, ◌≤◌, [], false, length, take, slice_get, Contains, OnOk, OnErr, IfOk, IfErr, IsErrOf, ◌∷◌};
ghost use Rattle.refusal.specs.Refusal.{IsOneOf};
ghost use Rattle.refusal.specs.declared.Refusal.TheVariants.{StillNeeded, Stranger, NoMemory, Fault};
ghost use Rattle.recovery.specs.declared.run.StoreStep.TheVariants.{Milestone, Retire};
ghost use Rattle.recovery.specs.Due.{job_due_for};
ghost use Rattle.recovery.specs.Faults.{FailsAtFaults};
ghost use Rattle.recovery.specs.Jobs.{last_job, without_job};
ghost use Rattle.recovery.specs.Milestones.{IsHandedOut, IsRefusedWhereDue, IsUnput};
ghost use Rattle.recovery.specs.Open.{IsOpen, IsPutNow, IsUnchanged, state_of, has_failed, known_cells, kept_jobs};
ghost use Rattle.recovery.specs.PutJobs.{ArePut, CostsTogether};
ghost use Rattle.recovery.specs.Cells.{highest_known};
ghost use Rattle.recovery.specs.Unwritten.{IsUnchangedButJobs};
ghost use Rattle.recovery.specs.Run.{IsTaken, IsWhy};
ghost use Rattle.flusher.specs.Holding.{store_of};
ghost use Rattle.flusher.specs.Upkeep.{KeepsUp};

use crate::flusher::Flusher;
use disk::Disk;
use milestone::{Composed, Job};
use published::Life;
use refusal::Refusal;
use std::alloc::Global;

impl<D: Disk, L: Life> Flusher<D, L> {
    /// Puts a milestone of the document of this number at a revision, as `Store::put_document` does: hands out its job, composes it here,
    /// and puts what came of it. Where memory runs out, the document's job is dropped. What is held, and what is published, stays. No program calls
    /// it: composers compose.
    pub fn put_document(
        &mut self,
        alloc: Global,
        document: u32,
        revision: u64,
    ) -> Result<(), Refusal>
        ensures faults { FailsAtFaults result (store_of self.old) (store_of self.new) }
        ensures keeps { KeepsUp self.old self.new }
        ensures due { IsRefusedWhereDue document revision result (store_of self.old) }
        ensures put { OnOk result (IsTaken (Milestone document revision) (store_of self.old) (store_of self.new)) }
        ensures dropped { OnOk result (kept_jobs (store_of self.new)
            ≡ without_job document (kept_jobs (store_of self.old))) }
        ensures left { IfErr result (λ e. IsUnput document revision e (store_of self.old) (store_of self.new)) }
    {
        self.store.put_document(alloc, document, revision)
    }

    /// The revision to which a job of a document is due, as `Store::job_due` tells it. It takes no memory.
    pub fn job_due(&self, document: u32, every: u64) -> Option<u64>
        requires { 1 ≤ every }
        ensures due { result
            ≡ job_due_for every (slice_get (state_of (store_of self.now)).documents document)
            (highest_known (known_cells (store_of self.now)) document)
            (last_job document (kept_jobs (store_of self.now))) }
    {
        self.store.job_due(document, every)
    }

    /// The job of a milestone of a document at a revision, as `Store::milestone_job` gives it: it can be composed in another thread, and
    /// is put by `put_milestones`. What is held, and what is published, stays.
    pub fn milestone_job(
        &mut self,
        alloc: Global,
        document: u32,
        revision: u64,
    ) -> Result<Job, Refusal>
        ensures faults { FailsAtFaults result (store_of self.old) (store_of self.new) }
        ensures keeps { KeepsUp self.old self.new }
        ensures due { IsRefusedWhereDue document revision result (store_of self.old) }
        ensures given { IfOk result (λ job. IsHandedOut document revision job (store_of self.old) (store_of self.new)) }
        ensures same { IsUnchangedButJobs (store_of self.old) (store_of self.new) }
        ensures untouched { OnErr result (IsUnchanged (store_of self.old) (store_of self.new)) }
    {
        self.store.milestone_job(alloc, document, revision)
    }

    /// Drops the copy of a job, where this very job is still kept, as `Store::give_up_job` does: another one may be due. It takes no memory.
    /// What is held, and what is published, stays.
    pub fn give_up_job(&mut self, job: &Job)
        ensures keeps { KeepsUp self.old self.new }
        ensures kept { Contains (kept_jobs (store_of self.old)) job.now
            → kept_jobs (store_of self.new) ≡ without_job job.now.document (kept_jobs (store_of self.old)) }
        ensures other { (¬ Contains (kept_jobs (store_of self.old)) job.now)
            → kept_jobs (store_of self.new) ≡ kept_jobs (store_of self.old) }
        ensures same { IsUnchangedButJobs (store_of self.old) (store_of self.new) }
    {
        self.store.give_up_job(job);
    }

    /// Puts the milestone that came of a job, as `Store::put_milestone` does. What is held, and what is published, stays.
    pub fn put_milestone(&mut self, alloc: Global, composed: &Composed) -> Result<(), Refusal>
        ensures faults { FailsAtFaults result (store_of self.old) (store_of self.new) }
        ensures keeps { KeepsUp self.old self.new }
        ensures done { OnOk result ((is_open : IsOpen (store_of self.old))
            → IsPutNow is_open.cells is_open.table composed.now (store_of self.new)) }
        ensures dropped { OnOk result (kept_jobs (store_of self.new)
            ≡ without_job composed.now.document (kept_jobs (store_of self.old))) }
        ensures untouched { (IsErrOf result Stranger) ⊎ (IsErrOf result NoMemory)
            → IsUnchanged (store_of self.old) (store_of self.new) }
        ensures jobs { OnErr result (kept_jobs (store_of self.new) ≡ kept_jobs (store_of self.old)) }
        ensures stranger { has_failed (store_of self.old) ≡ false
            → (IsErrOf result Stranger ↔ (¬ Contains (kept_jobs (store_of self.old)) composed.now)) }
        ensures only { IfErr result (λ e. IsOneOf e (Stranger ∷ NoMemory ∷ Fault ∷ [])) }
    {
        self.store.put_milestone(alloc, composed)
    }

    /// Puts the milestones of composed jobs as one step, as `Store::put_milestones` does, and returns how many of them it took, from the first on. What is held,
    /// and what is published, stays.
    pub fn put_milestones(&mut self, alloc: Global, composed: &[Composed]) -> Result<usize, Refusal>
        ensures faults { FailsAtFaults result (store_of self.old) (store_of self.new) }
        ensures keeps { KeepsUp self.old self.new }
        ensures count { IfOk result (λ count. (count ≤ length composed.now) × (composed.now ≢ [] → 1 ≤ count)) }
        ensures put { IfOk result (λ count. ArePut (take count composed.now) (store_of self.old) (store_of self.new)) }
        ensures untouched { IsErrOf result NoMemory → IsUnchanged (store_of self.old) (store_of self.new) }
        ensures jobs { OnErr result (kept_jobs (store_of self.new) ≡ kept_jobs (store_of self.old)) }
        ensures costs { CostsTogether composed.now (store_of self.old) (store_of self.new) }
        ensures only { IfErr result (λ e. (e ≡ NoMemory) ⊎ (e ≡ Fault)) }
    {
        self.store.put_milestones(alloc, composed)
    }

    /// Retires the oldest segment of the store, as `Store::retire` does. It takes no memory. What is held, and what is published, stays.
    pub fn retire(&mut self) -> Result<(), Refusal>
        ensures faults { FailsAtFaults result (store_of self.old) (store_of self.new) }
        ensures keeps { KeepsUp self.old self.new }
        ensures retired { OnOk result (IsTaken Retire (store_of self.old) (store_of self.new)) }
        ensures needed { IfErr result (λ e. e ≢ Fault → IsWhy Retire e (store_of self.old)) }
        ensures untouched { IsErrOf result StillNeeded → IsUnchanged (store_of self.old) (store_of self.new) }
        ensures only { IfErr result (λ e. (e ≡ StillNeeded) ⊎ (e ≡ Fault)) }
    {
        self.store.retire()
    }
}
