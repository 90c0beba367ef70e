//! Whole runs of a store, for tests: no program makes one.
ghost use Rattle.std.specs.Prelude.{◌≡◌, ◌≢◌, ◌⊎◌, ◌↔◌, ◌+◌, ◌*◌, ◌<◌, ◌≤◌, ℕ, List, [], true, false, length, take, All, OnOk, OnErr, IfErr, IsErrOf};
ghost use Rattle.disk.specs.Device.{Rose};
ghost use Rattle.disk.specs.Crash.{LeavesOnly, MayLeaveNow};
ghost use Rattle.refusal.specs.declared.Refusal.TheVariants.{JournalFull, Stranger, NoMemory, Fault};
ghost use Rattle.revision.specs.State.{all_grow, fold};
ghost use Rattle.recovery.specs.Open.{IsOpen, IsUnchanged, IsWithOrWithout, device_of, state_of, has_failed, has_room, kept_jobs};
ghost use Rattle.recovery.specs.Faults.{FailsAtFaults};
ghost use Rattle.recovery.specs.Begun.{IsBegun, IsLeftBy, jobs_behind, jobs_after};
ghost use Rattle.recovery.specs.Run.{CanTake, IsOfStep, IsTaken, AreTaken, IsWhy, IsStopped, IsAfterSome, IsKeptFrom, state_after, batch_of, batch_at};

use crate::store::Store;
use disk::Disk;
use refusal::Refusal;
use revision::Batch;
use std::alloc::Global;

/// A step of a run.
#[derive(Drop)]
pub enum StoreStep {
    /// Commit this batch.
    Commit(Batch),
    /// Put a milestone of the document of this number, in order of creation, at this revision.
    Milestone(u32, u64),
    /// Retire the oldest segment.
    Retire,
}

/// Where a run stopped, counted from 0, and why.
#[derive(Clone, Copy, Debug, PartialEq, Eq)]
pub struct RunError {
    pub at: usize,
    pub refusal: Refusal,
}

impl<D: Disk> Store<D> {
    /// Takes steps in order. It stops at the first that is refused, and says where.
    pub fn run(&mut self, alloc: Global, steps: &[StoreStep]) -> Result<(), RunError>
        requires { All (CanTake (state_of self.old)) steps.now }

        // How far it came, and what the store then holds.
        ensures state { OnOk result (state_of self.new ≡ state_after (state_of self.old) steps.now) }
        ensures stopped { IfErr result (λ stop. (stop.at < length steps.now)
            × (state_of self.new ≡ state_after (state_of self.old) (take stop.at steps.now))) }
        ensures taken { OnOk result (AreTaken steps.now self.old self.new) }
        ensures done { OnOk result (IsOpen self.old → IsOpen self.new) }
        ensures kept { IfErr result (λ stop. stop.refusal ≢ Fault → IsOpen self.old → IsOpen self.new) }

        // A store that had failed takes no step.
        ensures failed_before { has_failed self.old ≡ true → OnOk result (steps.now ≡ [])
            × IfErr result (λ stop. (stop.at ≡ 0) × (stop.refusal ≡ Fault)) × IsUnchanged self.old self.new }

        // Of the kept jobs a milestone drops its document's, and no other step drops one.
        ensures jobs { OnOk result (kept_jobs self.new ≡ jobs_after steps.now (kept_jobs self.old)) }

        // What comes after the step at which it stopped was not begun.
        ensures begun { IfErr result (λ stop. IsBegun steps.now stop.at stop.refusal self.old self.new) }

        // Why it stopped: by the store that the steps before led to, and by the one that it left.
        ensures refused { IfErr result (λ stop. IsStopped steps.now stop.at stop.refusal self.old self.new) }
        ensures full { IfErr result (λ stop. stop.refusal ≡ JournalFull
            → has_room self.new (batch_at steps.now stop.at) ≡ false) }
        ensures stranger { IfErr result (λ stop. stop.refusal ≡ Stranger
            → all_grow (state_of self.new) (batch_at steps.now stop.at) ≡ false) }
        ensures fault { IfErr result (λ stop. stop.refusal ≡ Fault → has_failed self.old ≡ false
            → Rose (D.faults (device_of self.old)) (D.faults (device_of self.new))) }
        ensures no_fault { IfErr result (λ stop. stop.refusal ≢ Fault
            → D.faults (device_of self.new) ≡ D.faults (device_of self.old)) }
        ensures good { OnOk result (D.faults (device_of self.new) ≡ D.faults (device_of self.old)) }
        ensures only { IfErr result (λ stop. IsOfStep stop.refusal) }

        // Eight calls of the device at most for each step.
        ensures calls { length (D.past (device_of self.new))
            ≤ length (D.past (device_of self.old)) + 8 * length steps.now }
        ensures works { OnOk result (has_failed self.old ≡ false → has_failed self.new ≡ false) }
        ensures fails { IfErr result (λ stop. has_failed self.old ≡ false
            → (has_failed self.new ≡ true ↔ stop.refusal ≡ Fault)) }
        ensures honest { D.honest (device_of self.new) ↔ D.honest (device_of self.old) }

        // A crash at any moment of the run leaves the state after some of its first steps.
        ensures any_moment { has_failed self.old ≡ false → IsOpen self.old
            → LeavesOnly ⟦<D as Disk>⟧ (IsAfterSome 0 (state_of self.old) steps.now) (device_of self.old)
            (device_of self.new) }
        // From where a step was taken on, a crash at any moment of the rest of the run leaves no fewer steps than those up to it.
        ensures since { OnOk result (has_failed self.old ≡ false → IsOpen self.old
            → (count : ℕ) → count ≤ length steps.now → IsKeptFrom count steps.now self.old self.new) }
        ensures since_before { IfErr result (λ stop. has_failed self.old ≡ false → IsOpen self.old
            → (count : ℕ) → count ≤ stop.at → IsKeptFrom count steps.now self.old self.new) }
        // Once it has returned, a crash leaves no fewer steps than those that were answered with Ok.
        ensures acknowledged { OnOk result (has_failed self.old ≡ false → IsOpen self.old
            → (content : List ℕ) → MayLeaveNow ⟦<D as Disk>⟧ (device_of self.new) content
            → IsAfterSome (length steps.now) (state_of self.old) steps.now content) }
        ensures acknowledged_before { IfErr result (λ stop. has_failed self.old ≡ false → IsOpen self.old
            → (content : List ℕ) → MayLeaveNow ⟦<D as Disk>⟧ (device_of self.new) content
            → IsAfterSome stop.at (state_of self.old) steps.now content) }
    {
        for (at, step) in steps.iter().enumerate() {
            if let Err(refusal) = self.take_step(alloc, step) {
                return Err(RunError { at, refusal });
            }
        }
        Ok(())
    }

    // Takes one step.
    fn take_step(&mut self, alloc: Global, step: &StoreStep) -> Result<(), Refusal>
        requires { CanTake (state_of self.old) step.now }

        ensures faults { FailsAtFaults result self.old self.new }
        ensures full { IsErrOf result JournalFull → has_room self.new (batch_of step.now) ≡ false }
        ensures stranger { IsErrOf result Stranger → all_grow (state_of self.new) (batch_of step.now) ≡ false }
        ensures only { IfErr result (λ e. IsOfStep e) }
        ensures refused { IfErr result (λ e. e ≢ NoMemory → e ≢ Fault → IsWhy step.now e self.old) }
        ensures untouched { IfErr result (λ e. e ≢ NoMemory → e ≢ Fault → IsUnchanged self.old self.new) }

        ensures left { IfErr result (λ e. IsLeftBy step.now e self.old self.new) }
        ensures calls { length (D.past (device_of self.new)) ≤ length (D.past (device_of self.old)) + 8 }

        ensures taken { OnOk result (IsTaken step.now self.old self.new) }
        ensures jobs { OnOk result (kept_jobs self.new ≡ jobs_behind step.now (kept_jobs self.old)) }
        ensures state { OnOk result (state_of self.new ≡ fold (state_of self.old) (batch_of step.now)) }
        ensures same_state { OnErr result (state_of self.new ≡ state_of self.old) }

        ensures any_moment { has_failed self.old ≡ false → IsOpen self.old
            → LeavesOnly ⟦<D as Disk>⟧ (IsWithOrWithout (state_of self.old) (batch_of step.now)) (device_of self.old)
            (device_of self.new) }
        ensures done { OnOk result (IsOpen self.old → IsOpen self.new) }
        ensures kept { IfErr result (λ e. e ≢ Fault → IsOpen self.old → IsOpen self.new) }
    {
        match step {
            StoreStep::Commit(batch) => {
                if let Err(refusal) = self.commit(alloc, batch, &[]) {
                    return Err(refusal);
                }
                Ok(())
            }
            StoreStep::Milestone(document, revision) => {
                self.put_document(alloc, *document, *revision)
            }
            StoreStep::Retire => self.retire(),
        }
    }
}
