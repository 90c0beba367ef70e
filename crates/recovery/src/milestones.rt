//! Putting a milestone of a job, or of a document.
ghost use Rattle.std.specs.Prelude.{◌≡◌, ◌≢◌, ◌⊎◌, ◌↔◌, ◌+◌, ◌≤◌, false, length, Contains, OnOk, OnErr, IfErr, IsErrOf, [], ◌∷◌};
ghost use Rattle.disk.specs.Crash.{LeavesOnly};
ghost use Rattle.refusal.specs.Refusal.{IsOneOf};
ghost use Rattle.recovery.specs.Faults.{FailsAtFaults};
ghost use Rattle.recovery.specs.Found.{FoundAs};
ghost use Rattle.recovery.specs.Goes.{Goes};
ghost use Rattle.recovery.specs.Jobs.{without_job};
ghost use Rattle.recovery.specs.Milestones.{IsRefusedWhereDue, IsUnput, LeavesOthers};
ghost use Rattle.recovery.specs.Open.{IsOpen, IsUnchanged, IsPutNow, device_of, ring_of, state_of, known_marks, has_failed, kept_jobs};
ghost use Rattle.recovery.specs.Run.{IsTaken};
ghost use Rattle.recovery.specs.declared.run.StoreStep.TheVariants.{Milestone};
ghost use Rattle.recovery.specs.steps.AtOnce.{IsUnputAtOnce};

use crate::store::Store;
use disk::Disk;
use milestone::{Composed, compose_job};
use refusal::Refusal;
use std::alloc::Global;

impl<D: Disk> Store<D> {
    /// Puts the milestone that comes of a job into a cell of its document: over the older one where both are open, which is closed
    /// first. `Stranger` comes exactly when the job isn't the one that the store keeps of its document, and makes no call of the
    /// device; nor does `NoMemory`. Once it is Ok, the cell is open, and the kept copy of the job is dropped. After a `Fault` the
    /// store has failed. The documents stay.
    pub fn put_milestone(&mut self, alloc: Global, composed: &Composed) -> Result<(), Refusal>
        // When each refusal comes.
        ensures faults { FailsAtFaults result self.old self.new }
        ensures stranger { has_failed self.old ≡ false
            → (IsErrOf result Refusal.Stranger ↔ (¬ Contains (kept_jobs self.old) composed.now)) }
        ensures only { IfErr result (λ e. IsOneOf e (Refusal.Stranger ∷ Refusal.NoMemory ∷ Refusal.Fault ∷ [])) }

        // What each answer leaves.
        ensures state { state_of self.new ≡ state_of self.old }
        ensures untouched { (IsErrOf result Refusal.Stranger) ⊎ (IsErrOf result Refusal.NoMemory)
            → IsUnchanged self.old self.new }
        ensures dropped { OnOk result (kept_jobs self.new ≡ without_job composed.now.document (kept_jobs self.old)) }
        ensures jobs { OnErr result (kept_jobs self.new ≡ kept_jobs self.old) }

        ensures ring { ring_of self.new ≡ ring_of self.old }
        ensures marks { known_marks self.new ≡ known_marks self.old }

        // A crash at any moment leaves the state; once it is Ok, the cell of the job is open.
        ensures any_moment { has_failed self.old ≡ false → IsOpen self.old
            → LeavesOnly ⟦<D as Disk>⟧ (λ content. FoundAs content (state_of self.old)) (device_of self.old)
            (device_of self.new) }
        ensures done { OnOk result ((is_open : IsOpen self.old)
            → IsPutNow is_open.cells is_open.table composed.now self.new) }
        ensures kept { IfErr result (λ e. e ≢ Refusal.Fault → IsOpen self.old → IsOpen self.new) }

        // Six calls of the device at most.
        ensures calls { length (D.past (device_of self.new)) ≤ length (D.past (device_of self.old)) + 6 }
    {
        if self.failed {
            return Err(Refusal::Fault);
        }
        let job = composed.job();
        if !self.jobs.is_kept(job) {
            return Err(Refusal::Stranger);
        }
        let document = job.document_number();
        let milestone = composed.milestone();
        if let Err(refusal) = milestone.content(alloc) {
            return Err(refusal);
        }
        match self.cells[document as usize].replace_older(alloc, &mut self.device, milestone) {
            Ok(()) => {
                self.jobs.forget(document);
                self.state.prune_one(alloc, document);
                Ok(())
            }
            Err(refusal) => {
                self.failed = refusal == Refusal::Fault;
                Err(refusal)
            }
        }
    }
    /// Puts a milestone of a document at a revision: hands out its job, composes it here, and puts what came of it. The refusals are
    /// those of `milestone_job`, which come exactly when it returns them, and `NoMemory` and `Fault` while it is composed and put.
    /// The documents stay. Where memory runs out, the document's job is dropped, so that another one may be due.
    pub fn put_document(
        &mut self,
        alloc: Global,
        document: u32,
        revision: u64,
    ) -> Result<(), Refusal>
        // When each refusal comes.
        ensures faults { FailsAtFaults result self.old self.new }
        ensures due { IsRefusedWhereDue document revision result self.old }

        // What each answer leaves. Once it is Ok, nothing spoke against the milestone, and the cell of the document at the revision is open.
        ensures taken { OnOk result (IsTaken (Milestone document revision) self.old self.new) }
        ensures dropped { OnOk result (kept_jobs self.new ≡ without_job document (kept_jobs self.old)) }
        ensures left { IfErr result (λ e. IsUnput document revision e self.old self.new) }
        ensures stays { LeavesOthers document self.old self.new }

        // A crash at any moment leaves the state.
        ensures goes { Goes (λ content. FoundAs content (state_of self.old)) self.old self.new }

        // Six calls of the device at most.
        ensures calls { length (D.past (device_of self.new)) ≤ length (D.past (device_of self.old)) + 6 }
    {
        match self.put_at_once(alloc, document, revision) {
            Ok(()) => Ok(()),
            Err(refusal) => {
                if refusal != Refusal::NoMemory {
                    return Err(refusal);
                }
                self.drop_job(document);
                Err(refusal)
            }
        }
    }

    // Hands out the job of a document, composes it here, and puts what came of it. Where memory runs out, the job may stay kept.
    fn put_at_once(&mut self, alloc: Global, document: u32, revision: u64) -> Result<(), Refusal>
        ensures faults { FailsAtFaults result self.old self.new }
        ensures due { IsRefusedWhereDue document revision result self.old }
        ensures taken { OnOk result (IsTaken (Milestone document revision) self.old self.new) }
        ensures dropped { OnOk result (kept_jobs self.new ≡ without_job document (kept_jobs self.old)) }
        ensures left { IfErr result (λ e. IsUnputAtOnce document revision e self.old self.new) }
        ensures stays { LeavesOthers document self.old self.new }
        ensures goes { Goes (λ content. FoundAs content (state_of self.old)) self.old self.new }
        ensures calls { length (D.past (device_of self.new)) ≤ length (D.past (device_of self.old)) + 6 }
    {
        let job = match self.milestone_job(alloc, document, revision) {
            Ok(job) => job,
            Err(refusal) => return Err(refusal),
        };
        let composed = match compose_job(alloc, job) {
            Ok(composed) => composed,
            Err(back) => return Err(back.refusal),
        };
        if let Err(refusal) = self.put_milestone(alloc, &composed) {
            return Err(refusal);
        }
        Ok(())
    }
}
