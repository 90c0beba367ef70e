//! Retiring the oldest segment of a store.
ghost use Rattle.std.specs.Prelude.{◌≡◌, ◌+◌, ◌≤◌, ◌<◌, ℕ, true, false, length, OnOk, IfErr};
ghost use Rattle.disk.specs.Counted.{syncs_of};
ghost use Rattle.segments.specs.Ring.{IsSameButOldest};
ghost use Rattle.recovery.specs.Faults.{FailsAtFaults};
ghost use Rattle.recovery.specs.Found.{FoundAs};
ghost use Rattle.recovery.specs.Goes.{Goes};
ghost use Rattle.recovery.specs.Marks.{greatest_marked};
ghost use Rattle.recovery.specs.Cells.{lowest_known};
ghost use Rattle.recovery.specs.Open.{device_of, ring_of, state_of};
ghost use Rattle.recovery.specs.Retiring.{IsRefusedWhereNeeded, IsRetiredFrom, IsUnretired, LeavesDocuments};

use crate::marks::Mark;
use crate::store::Store;
use disk::Disk;
use milestone::Cells;
use refusal::Refusal;

impl<D: Disk> Store<D> {
    /// Retires the oldest segment: closes its slot, which is free from then on. `StillNeeded` comes exactly when fewer than two slots
    /// are open, or the oldest segment has an entry of a document without an open cell, or with an open cell below that entry's
    /// revision; it makes no call of the device. After a `Fault` the slot may be open or not, and the store has failed. It takes no
    /// memory, and the documents stay.
    pub fn retire(&mut self) -> Result<(), Refusal>
        // When each refusal comes.
        ensures faults { FailsAtFaults result self.old self.new }
        ensures needed { IsRefusedWhereNeeded result self.old }

        // What each answer leaves.
        ensures retired { OnOk result (IsRetiredFrom self.old self.new) }
        ensures left { IfErr result (λ e. IsUnretired e self.old self.new) }
        ensures stays { LeavesDocuments self.old self.new }
        ensures outside { IsSameButOldest (ring_of self.old) (D.seen (device_of self.old))
            (D.seen (device_of self.new)) }

        // A crash at any moment leaves the state.
        ensures goes { Goes (λ content. FoundAs content (state_of self.old)) self.old self.new }

        // Two calls of the device at most. A call that fails is counted as a sync too.
        ensures calls { length (D.past (device_of self.new)) ≤ length (D.past (device_of self.old)) + 2 }
        ensures syncs { syncs_of ⟦<D as Disk>⟧ (device_of self.new)
            ≤ syncs_of ⟦<D as Disk>⟧ (device_of self.old) + 2 }
    {
        if self.failed {
            return Err(Refusal::Fault);
        }
        let Some(oldest) = self.ring.oldest_number() else {
            return Err(Refusal::StillNeeded);
        };
        if !are_covered(&self.cells, self.marks.all(), oldest) {
            return Err(Refusal::StillNeeded);
        }
        match self.ring.retire_oldest(&mut self.device) {
            Ok(()) => {
                self.marks.forget(oldest);
                Ok(())
            }
            Err(refusal) => {
                self.failed = refusal == Refusal::Fault;
                Err(refusal)
            }
        }
    }
}

// Whether no mark of a segment is above the lowest revision of its document's open cells, which is 0 where none is open.
fn are_covered(cells: &[Cells], marks: &[Mark], segment: u64) -> bool
    ensures covered { result ≡ true → (document : ℕ)
        → greatest_marked segment document marks.now ≤ lowest_known cells.now document }
    ensures needed { result ≡ false → (document : ℕ)
        × (lowest_known cells.now document < greatest_marked segment document marks.now) }
{
    for mark in marks {
        if mark.segment == segment && lowest_of(cells, mark.document) < mark.revision {
            return false;
        }
    }
    true
}

// The lowest revision of a document's open cells, 0 where none is open.
fn lowest_of(cells: &[Cells], document: u32) -> u64
    ensures { result ≡ lowest_known cells.now document }
{
    match cells.get(document as usize) {
        Some(known) => known.lowest(),
        None => 0,
    }
}
