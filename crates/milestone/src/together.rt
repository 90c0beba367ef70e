//! Milestones of many documents put as one step: what each of its three steps writes to the cells of one document. No step syncs: a caller makes
//! a step for each document, each once, and then one sync for all of them.
ghost use Rattle.std.specs.Prelude.{◌≡◌, ◌+◌, ◌*◌, ◌≤◌, ℕ, true, false, Some, length, OnOk, OnErr, IfOk};
ghost use Rattle.disk.specs.Calls.{CountsFaults};
ghost use Rattle.disk.specs.Crash.{LeavesOnly, history_of};
ghost use Rattle.history.specs.Cell.{Cell, Pair, freed};
ghost use Rattle.milestone.specs.Revisions.{freed_of, with_revision};
ghost use Rattle.milestone.specs.Cells.{place_of, size_of, revisions_of, with_cell, HasClosed, Fits, FitsNow, SameCells};
ghost use Rattle.milestone.specs.Together.{IsLeftByStep, IsFreedOr, IsPutOr, closed_gate, HasRoom, framed_body, IsReady, StandApart, WriteWithin, WritesWithin};

use crate::cell::write_one;
use crate::cells::Cells;
use crate::milestone::Milestone;
use crate::writing::framed;
use disk::{Disk, Fault};
use journal::{CLOSED, OPEN};
use std::alloc::{AllocError, Global};

impl Cells {
    /// What stands behind the gate of a cell that holds this milestone.
    pub fn spelled(&self, alloc: Global, milestone: &Milestone) -> Result<Vec<u8>, AllocError>
        requires room { HasRoom self.now milestone.now }

        ensures bytes { IfOk result (λ v. v.items ≡ framed_body self.now milestone.now) }
    {
        framed(alloc, self.number, milestone)
    }

    /// Whether both cells are open, so that the first step closes one.
    pub fn are_both_open(&self) -> bool
        ensures closed { result ≡ false → HasClosed (revisions_of self.now) }
        ensures both { result ≡ true → ¬ HasClosed (revisions_of self.now) }
    {
        match (self.first, self.second) {
            (None, _) => false,
            (Some(_), None) => false,
            (Some(_), Some(_)) => true,
        }
    }

    /// The first step: closes the gate of the older one of two open cells. Where not both are open it makes no call of the device, and
    /// nothing changes. After an `Err` the cell may be open or not, and the cells are known as they were.
    pub fn write_closed<D: Disk>(&mut self, disk: &mut D) -> Result<(), Fault>
        requires end { place_of self.old + 2 * size_of self.old ≤ length (D.seen disk.old) }

        ensures err { OnErr result (self.new ≡ self.old) }
        ensures same { SameCells self.old self.new }
        ensures revisions { OnOk result (revisions_of self.new ≡ freed_of (revisions_of self.old)) }
        ensures untouched { HasClosed (revisions_of self.old) → (disk.new ≡ disk.old) × (self.new ≡ self.old) }

        // Whatever the cells held: a crash at any moment leaves that, or that without the older cell.
        ensures any_moment { (pair : Pair) → StandApart ⟦<D as Disk>⟧ self.old pair disk.old
            → LeavesOnly ⟦<D as Disk>⟧ (IsLeftByStep (history_of ⟦<D as Disk>⟧ disk.old).now self.old (IsFreedOr pair))
            disk.old disk.new }
        ensures done { OnOk result ((pair : Pair) → Fits (D.seen disk.old) self.old pair
            → FitsNow (D.seen disk.old) self.old (D.seen disk.new) self.new (freed pair)) }
        ensures within { WritesWithin ⟦<D as Disk>⟧ self.old 1 disk.old disk.new }
        ensures faults { CountsFaults ⟦<D as Disk>⟧ result disk.old disk.new }
    {
        let (Some(first), Some(second)) = (self.first, self.second) else {
            return Ok(());
        };
        if second < first {
            write_one(disk, self.place + self.size, &[CLOSED])?;
            self.second = None;
        } else {
            write_one(disk, self.place, &[CLOSED])?;
            self.first = None;
        }
        Ok(())
    }

    /// The second step: writes these bytes behind the gate of the closed cell, of the first one where both are, and nothing behind them. Where
    /// both are open it makes no call of the device.
    pub fn write_body<D: Disk>(&self, disk: &mut D, bytes: &[u8]) -> Result<(), Fault>
        requires end { place_of self.now + 2 * size_of self.now ≤ length (D.seen disk.old) }
        requires short { 1 + length bytes.now ≤ size_of self.now }

        // Whatever the cells held they hold, at any moment and after an Err too.
        ensures any_moment { (pair : Pair) → StandApart ⟦<D as Disk>⟧ self.now pair disk.old
            → LeavesOnly ⟦<D as Disk>⟧ (IsLeftByStep (history_of ⟦<D as Disk>⟧ disk.old).now self.now (λ left. left ≡ pair))
            disk.old disk.new }
        ensures done { (pair : Pair) → Fits (D.seen disk.old) self.now pair
            → FitsNow (D.seen disk.old) self.now (D.seen disk.new) self.now pair }
        ensures ready { OnOk result ((cell : Cell) → HasRoom self.now cell → bytes.now ≡ framed_body self.now cell
            → IsReady self.now cell (D.seen disk.new)) }
        ensures untouched { ¬ HasClosed (revisions_of self.now) → disk.new ≡ disk.old }
        ensures within { WritesWithin ⟦<D as Disk>⟧ self.now 1 disk.old disk.new }
        ensures narrow { (gate : ℕ) → closed_gate self.now ≡ Some gate
            → WriteWithin ⟦<D as Disk>⟧ (gate + 1) (length bytes.now) 1 disk.old disk.new }
        ensures faults { CountsFaults ⟦<D as Disk>⟧ result disk.old disk.new }
    {
        let Some(gate) = self.closed_gate() else {
            return Ok(());
        };
        write_one(disk, gate + 1, bytes)?;
        Ok(())
    }

    /// The third step: opens the gate of the closed cell, of the first one where both are, before a spelling of this revision. Where both are
    /// open it makes no call of the device, and nothing changes. After an `Err` the cell may be open or not, and the cells are known as they
    /// were.
    pub fn write_opened<D: Disk>(&mut self, disk: &mut D, revision: u64) -> Result<(), Fault>
        requires end { place_of self.old + 2 * size_of self.old ≤ length (D.seen disk.old) }

        ensures err { OnErr result (self.new ≡ self.old) }
        ensures same { SameCells self.old self.new }
        ensures revisions { OnOk result (HasClosed (revisions_of self.old)
            → revisions_of self.new ≡ with_revision revision (revisions_of self.old)) }
        ensures untouched { ¬ HasClosed (revisions_of self.old) → (disk.new ≡ disk.old) × (self.new ≡ self.old) }

        // Whatever the cells held: a crash at any moment leaves that, or that with the cell whose spelling stands behind the gate.
        ensures any_moment { (pair : Pair) (cell : Cell) → StandApart ⟦<D as Disk>⟧ self.old pair disk.old
            → IsReady self.old cell (D.seen disk.old)
            → LeavesOnly ⟦<D as Disk>⟧ (IsLeftByStep (history_of ⟦<D as Disk>⟧ disk.old).now self.old (IsPutOr cell pair))
            disk.old disk.new }
        ensures done { OnOk result ((pair : Pair) (cell : Cell) → HasClosed (revisions_of self.old) → cell.revision ≡ revision
            → Fits (D.seen disk.old) self.old pair → IsReady self.old cell (D.seen disk.old)
            → FitsNow (D.seen disk.old) self.old (D.seen disk.new) self.new (with_cell cell pair)) }
        ensures within { WritesWithin ⟦<D as Disk>⟧ self.old 1 disk.old disk.new }
        ensures faults { CountsFaults ⟦<D as Disk>⟧ result disk.old disk.new }
    {
        let Some(gate) = self.closed_gate() else {
            return Ok(());
        };
        write_one(disk, gate, &[OPEN])?;
        self.note(revision);
        Ok(())
    }

    // Where the gate of the closed cell stands, of the first one where both are.
    fn closed_gate(&self) -> Option<u64>
        ensures { result ≡ closed_gate self.now }
    {
        match (self.first, self.second) {
            (None, _) => Some(self.place),
            (Some(_), None) => Some(self.place + self.size),
            (Some(_), Some(_)) => None,
        }
    }

    // Notes that the closed cell is open, at this revision.
    fn note(&mut self, revision: u64)
        ensures same { SameCells self.old self.new }
        ensures revisions { HasClosed (revisions_of self.old)
            → revisions_of self.new ≡ with_revision revision (revisions_of self.old) }
    {
        if self.first.is_none() {
            self.first = Some(revision);
        } else {
            self.second = Some(revision);
        }
    }
}
