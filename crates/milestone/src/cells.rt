//! The two cells of a document, as they are known in memory.
ghost use Rattle.std.specs.Prelude.{◌≡◌, ◌⊎◌, ◌+◌, ◌*◌, ◌≤◌, ◌<◌, ◌^◌, List, ℕ, [], Some, None, length, OnOk, OnErr, IsErrOf, IfOk, IfErr, ◌∷◌};
ghost use Rattle.refusal.specs.Refusal.{IsOneOf};
ghost use Rattle.disk.specs.Calls.{HasOnlyRead, HasOnlyWritten, CountsFaultsAs};
ghost use Rattle.milestone.specs.Revisions.{revision_in};

use crate::cell::{close, read_cell};
use crate::format::Format;
use crate::milestone::Milestone;
use crate::writing::framed;
use disk::Disk;
use journal::write_gated;
use refusal::Refusal;
use std::alloc::Global;

/// The two cells of a document, one behind the other on a device: where the first one begins, how many bytes each has, the
/// document's number in order of creation, and the revision of each cell that is open.
#[derive(Debug, Drop)]
pub struct Cells {
    pub(crate) place: u64,
    pub(crate) size: u64,
    pub(crate) number: u32,
    pub(crate) first: Option<u64>,
    pub(crate) second: Option<u64>,
    ghost size_low: { 256 ≤ size },
    ghost size_high: { size ≤ 16777216 },
    ghost end: { place + 2 * size < 2 ^ 62 },
}

/// What was read of the two cells of a document.
#[derive(Drop)]
pub struct ReadCells {
    /// The cells, whose next calls go on from what was read.
    pub cells: Cells,
    /// What the first cell holds, None where its gate is closed.
    pub first: Option<Milestone>,
    /// What the second cell holds, None where its gate is closed.
    pub second: Option<Milestone>,
}

// The revision of what a cell holds.
fn revision_of(cell: &Option<Milestone>) -> Option<u64>
    ensures { result ≡ revision_in cell.now }
{
    match cell {
        Some(milestone) => Some(milestone.revision()),
        None => None,
    }
}

impl Cells {
    ghost use Rattle.disk.specs.Crash.{LeavesOnly};
    ghost use Rattle.history.specs.Cell.{Pair, freed, lowest};
    ghost use Rattle.journal.specs.Area.{frame};
    ghost use Rattle.milestone.specs.CellSpelling.{cell_body, IsCell};
    ghost use Rattle.milestone.specs.OneCell.{HoldsPairIn};
    ghost use Rattle.milestone.specs.Revisions.{lowest_of, highest_of, freed_of, with_revision};
    ghost use Rattle.milestone.specs.Cells.{place_of, size_of, number_of, revisions_of, with_cell, HasClosed, FitsIn, Fits, FitsNow, SameCells, IsLeftByFreeing, IsLeftByPut, IsLeftByReplacing};
    ghost use Rattle.milestone.specs.ReadCells.{pair_of, IsReadAs};

    /// Reads the two cells of the document of this number in a format. Each has `size` bytes, 256 to 16,777,216, and the first begins at
    /// `place`. Of a closed cell the gate alone counts. `Damaged` comes exactly when they hold no pair: an open cell's body isn't
    /// spelled as a milestone of this document, or passes the cell's end. The device stays as it is.
    pub fn read_both<D: Disk>(
        alloc: Global,
        disk: &mut D,
        format: Format,
        place: u64,
        size: u64,
        number: u32,
    ) -> Result<ReadCells, Refusal>
        requires low { 256 ≤ size }
        requires high { size ≤ 16777216 }
        requires end { place + 2 * size < 2 ^ 62 }
        requires within { place + 2 * size ≤ length (D.seen disk.old) }

        ensures found { IfOk result (λ read. D.honest disk.new
            → FitsIn format (D.seen disk.old) read.cells (pair_of read)) }
        ensures known { IfOk result (λ read. IsReadAs place size number read) }
        ensures damaged { IfErr result (λ e. e ≡ Refusal.Damaged → D.honest disk.new
            → (pair : Pair) → ¬ HoldsPairIn format place size number (D.seen disk.old) pair) }
        ensures only { IfErr result (λ e. IsOneOf e (Refusal.Damaged ∷ Refusal.NoMemory ∷ Refusal.Fault ∷ [])) }
        ensures only_read { HasOnlyRead ⟦<D as Disk>⟧ disk.old disk.new }
        ensures faults { CountsFaultsAs ⟦<D as Disk>⟧ Refusal.Fault result disk.old disk.new }
    {
        let first = read_cell(alloc, disk, format, place, size, number)?;
        let second = read_cell(alloc, disk, format, place + size, size, number)?;
        let cells = Cells {
            place,
            size,
            number,
            first: revision_of(&first),
            second: revision_of(&second),
        };
        Ok(ReadCells {
            cells,
            first,
            second,
        })
    }

    /// The lowest revision of the open cells, 0 where none is open.
    pub fn lowest(&self) -> u64
        ensures lowest { result ≡ lowest_of (revisions_of self.now) }
        ensures of_pair { (content : List ℕ) (pair : Pair) → Fits content self.now pair → result ≡ lowest pair }
    {
        match (self.first, self.second) {
            (None, None) => 0,
            (None, Some(second)) => second,
            (Some(first), None) => first,
            (Some(first), Some(second)) => first.min(second),
        }
    }

    /// The highest revision of the open cells, 0 where none is open.
    pub fn highest(&self) -> u64
        ensures { result ≡ highest_of (revisions_of self.now) }
    {
        match (self.first, self.second) {
            (None, None) => 0,
            (None, Some(second)) => second,
            (Some(first), None) => first,
            (Some(first), Some(second)) => first.max(second),
        }
    }

    /// Closes the older one of two open cells: the one of the lower revision, of two of one revision the first. Where not both
    /// are open it makes no call of the device, and nothing changes. After a `Fault` the cell may be open or not, and the cells
    /// are known as they were.
    pub fn free_older<D: Disk>(&mut self, disk: &mut D) -> Result<(), Refusal>
        requires within { place_of self.old + 2 * size_of self.old ≤ length (D.seen disk.old) }

        ensures only { IfErr result (λ e. e ≡ Refusal.Fault) }
        ensures err { OnErr result (self.new ≡ self.old) }
        ensures same { SameCells self.old self.new }
        ensures revisions { OnOk result (revisions_of self.new ≡ freed_of (revisions_of self.old)) }
        ensures untouched { HasClosed (revisions_of self.old) → (disk.new ≡ disk.old) × (self.new ≡ self.old) }

        // Whatever the cells held: a crash at any moment leaves that, or that without the older cell.
        ensures any_moment { (pair : Pair) → D.unsynced disk.old ≡ [] → Fits (D.seen disk.old) self.old pair
            → LeavesOnly ⟦<D as Disk>⟧ (IsLeftByFreeing (D.seen disk.old) self.old pair) disk.old disk.new }
        ensures done { OnOk result ((pair : Pair) → Fits (D.seen disk.old) self.old pair
            → FitsNow (D.seen disk.old) self.old (D.seen disk.new) self.new (freed pair)) }
        ensures synced { OnOk result (D.unsynced disk.old ≡ [] → D.unsynced disk.new ≡ []) }

        // Two calls of the device at most.
        ensures calls { length (D.past disk.new) ≤ length (D.past disk.old) + 2 }
        ensures only_written { HasOnlyWritten ⟦<D as Disk>⟧ disk.old disk.new }
        ensures faults { CountsFaultsAs ⟦<D as Disk>⟧ Refusal.Fault result disk.old disk.new }
    {
        let (Some(first), Some(second)) = (self.first, self.second) else {
            return Ok(());
        };
        if second < first {
            close(disk, self.place + self.size)?;
            self.second = None;
        } else {
            close(disk, self.place)?;
            self.first = None;
        }
        Ok(())
    }

    /// Puts a milestone into the cell that is closed, the first one where both are. `NoMemory` comes before any call of the
    /// device. After a `Fault` the cell may be open or not, and the cells are known as they were.
    pub fn put<D: Disk>(
        &mut self,
        alloc: Global,
        disk: &mut D,
        milestone: &Milestone,
    ) -> Result<(), Refusal>
        requires within { place_of self.old + 2 * size_of self.old ≤ length (D.seen disk.old) }
        requires closed { HasClosed (revisions_of self.old) }
        requires is { IsCell (number_of self.old) milestone.now }
        requires fits { 5 + length (cell_body (number_of self.old) milestone.now) ≤ size_of self.old }

        ensures only { IfErr result (λ e. (e ≡ Refusal.NoMemory) ⊎ (e ≡ Refusal.Fault)) }
        ensures untouched { IsErrOf result Refusal.NoMemory → disk.new ≡ disk.old }
        ensures err { OnErr result (self.new ≡ self.old) }
        ensures same { SameCells self.old self.new }
        ensures revisions { OnOk result (revisions_of self.new
            ≡ with_revision milestone.now.revision (revisions_of self.old)) }

        // Whatever the cells held: a crash at any moment leaves that, or that with the milestone.
        ensures any_moment { (pair : Pair) → D.unsynced disk.old ≡ [] → Fits (D.seen disk.old) self.old pair
            → LeavesOnly ⟦<D as Disk>⟧ (IsLeftByPut (D.seen disk.old) self.old pair milestone.now) disk.old disk.new }
        ensures done { OnOk result ((pair : Pair) → Fits (D.seen disk.old) self.old pair
            → FitsNow (D.seen disk.old) self.old (D.seen disk.new) self.new (with_cell milestone.now pair)) }
        ensures synced { OnOk result (D.unsynced disk.new ≡ []) }

        // Four calls of the device at most.
        ensures calls { length (D.past disk.new) ≤ length (D.past disk.old) + 4 }
        ensures only_written { HasOnlyWritten ⟦<D as Disk>⟧ disk.old disk.new }
        ensures faults { CountsFaultsAs ⟦<D as Disk>⟧ Refusal.Fault result disk.old disk.new }
    {
        let bytes = framed(alloc, self.number, milestone)?;
        self.put_spelled(disk, milestone, &bytes)?;
        Ok(())
    }

    /// Puts a milestone where one cell is closed, and where both are open over the older one, which is closed first. `NoMemory`
    /// comes before any call of the device, and leaves the cells unchanged. After a `Fault` each of the two cells may be open
    /// or not, but for the newer one of two that were open, which stays.
    pub fn replace_older<D: Disk>(
        &mut self,
        alloc: Global,
        disk: &mut D,
        milestone: &Milestone,
    ) -> Result<(), Refusal>
        requires within { place_of self.old + 2 * size_of self.old ≤ length (D.seen disk.old) }
        requires is { IsCell (number_of self.old) milestone.now }
        requires fits { 5 + length (cell_body (number_of self.old) milestone.now) ≤ size_of self.old }

        ensures only { IfErr result (λ e. (e ≡ Refusal.NoMemory) ⊎ (e ≡ Refusal.Fault)) }
        ensures untouched { IsErrOf result Refusal.NoMemory → (disk.new ≡ disk.old) × (self.new ≡ self.old) }
        ensures same { SameCells self.old self.new }
        ensures revisions { OnOk result (revisions_of self.new
            ≡ with_revision milestone.now.revision (freed_of (revisions_of self.old))) }

        // Whatever the cells held: a crash at any moment leaves that, or that without the older cell, or with the milestone there.
        ensures any_moment { (pair : Pair) → D.unsynced disk.old ≡ [] → Fits (D.seen disk.old) self.old pair
            → LeavesOnly ⟦<D as Disk>⟧ (IsLeftByReplacing (D.seen disk.old) self.old pair milestone.now) disk.old
            disk.new }
        ensures done { OnOk result ((pair : Pair) → Fits (D.seen disk.old) self.old pair
            → FitsNow (D.seen disk.old) self.old (D.seen disk.new) self.new (with_cell milestone.now (freed pair))) }
        ensures synced { OnOk result (D.unsynced disk.new ≡ []) }

        // Six calls of the device at most.
        ensures calls { length (D.past disk.new) ≤ length (D.past disk.old) + 6 }
        ensures only_written { HasOnlyWritten ⟦<D as Disk>⟧ disk.old disk.new }
        ensures faults { CountsFaultsAs ⟦<D as Disk>⟧ Refusal.Fault result disk.old disk.new }
    {
        let bytes = framed(alloc, self.number, milestone)?;
        self.free_older(disk)?;
        self.put_spelled(disk, milestone, &bytes)?;
        Ok(())
    }

    // Puts a milestone, whose spelling these bytes are, into the cell that is closed, the first one where both are.
    fn put_spelled<D: Disk>(
        &mut self,
        disk: &mut D,
        milestone: &Milestone,
        bytes: &[u8],
    ) -> Result<(), Refusal>
        requires within { place_of self.old + 2 * size_of self.old ≤ length (D.seen disk.old) }
        requires closed { HasClosed (revisions_of self.old) }
        requires is { IsCell (number_of self.old) milestone.now }
        requires fits { 5 + length (cell_body (number_of self.old) milestone.now) ≤ size_of self.old }
        requires spelled { bytes.now ≡ frame (cell_body (number_of self.old) milestone.now) }

        ensures only { IfErr result (λ e. e ≡ Refusal.Fault) }
        ensures err { OnErr result (self.new ≡ self.old) }
        ensures same { SameCells self.old self.new }
        ensures revisions { OnOk result (revisions_of self.new
            ≡ with_revision milestone.now.revision (revisions_of self.old)) }
        ensures any_moment { (pair : Pair) → D.unsynced disk.old ≡ [] → Fits (D.seen disk.old) self.old pair
            → LeavesOnly ⟦<D as Disk>⟧ (IsLeftByPut (D.seen disk.old) self.old pair milestone.now) disk.old disk.new }
        ensures done { OnOk result ((pair : Pair) → Fits (D.seen disk.old) self.old pair
            → FitsNow (D.seen disk.old) self.old (D.seen disk.new) self.new (with_cell milestone.now pair)) }
        ensures synced { OnOk result (D.unsynced disk.new ≡ []) }
        ensures calls { length (D.past disk.new) ≤ length (D.past disk.old) + 4 }
        ensures only_written { HasOnlyWritten ⟦<D as Disk>⟧ disk.old disk.new }
        ensures faults { CountsFaultsAs ⟦<D as Disk>⟧ Refusal.Fault result disk.old disk.new }
    {
        if self.first.is_none() {
            write_gated(disk, self.place, bytes)?;
            self.first = Some(milestone.revision());
            return Ok(());
        }
        write_gated(disk, self.place + self.size, bytes)?;
        self.second = Some(milestone.revision());
        Ok(())
    }
}
