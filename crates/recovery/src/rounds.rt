//! Milestones of many documents written together: each of the three steps of a put is made for all of them, and then one sync for all.
ghost use Rattle.std.specs.Prelude.{◌≡◌, ◌+◌, ◌*◌, ◌<◌, List, ℕ, [], true, false, length, OnOk};
ghost use Rattle.disk.specs.Calls.{CountsFaults};
ghost use Rattle.disk.specs.Counted.{Costs};
ghost use Rattle.disk.specs.Crash.{LeavesOnly};
ghost use Rattle.history.specs.Cell.{Cell, Pair, freed};
ghost use Rattle.milestone.specs.Cells.{with_cell};
ghost use Rattle.recovery.specs.declared.shape.Shape.{Shape};
ghost use Rattle.recovery.specs.steps.Group.{Each, HaveClosed, HasPlaces, StandTogether, WriteCells, IsLeftTogether, MayBeFreed, MayBePut, MayBeReplaced, MayBeTwice, AreSpelled, AreReady, AreHalf, Stand, part, put_in};

use crate::group::Member;
use disk::{Disk, Fault};
use milestone::Cells;

/// Puts the milestones of all members until both cells of each one's document hold it: each put takes the place of the lower one of two open cells.
/// A crash at any moment leaves each document, whatever it leaves the others, with one of the pairs that it passes through.
pub(crate) fn put_both<D: Disk>(
    device: &mut D,
    cells: &mut [Cells],
    members: &[Member],
) -> Result<(), Fault>
    requires places { HasPlaces members.now cells.old (length (D.seen device.old)) }

    ensures any_moment { (shape : Shape) (held : ℕ → Pair) (put : ℕ → Cell)
        → StandTogether ⟦<D as Disk>⟧ shape members.now held cells.old device.old → AreSpelled shape put members.now
        → LeavesOnly ⟦<D as Disk>⟧ (IsLeftTogether shape (D.seen device.old) (MayBeTwice members.now put held))
        device.old device.new }
    ensures done { OnOk result ((shape : Shape) (held : ℕ → Pair) (put : ℕ → Cell)
        → StandTogether ⟦<D as Disk>⟧ shape members.now held cells.old device.old → AreSpelled shape put members.now
        → Stand (put_in members.now put (put_in members.now put held)) cells.new (D.seen device.new)) }
    ensures synced { OnOk result (D.unsynced device.new ≡ []) }
    ensures writes { WriteCells ⟦<D as Disk>⟧ (6 * length members.now + 6) 6 cells.old cells.new device.old device.new }
    ensures faults { CountsFaults ⟦<D as Disk>⟧ result device.old device.new }
{
    put_each(device, cells, members)?;
    put_each(device, cells, members)
}

/// Puts the milestone of each member once: closes the older cells, writes what stands behind the gates, and opens these.
pub(crate) fn put_each<D: Disk>(
    device: &mut D,
    cells: &mut [Cells],
    members: &[Member],
) -> Result<(), Fault>
    requires places { HasPlaces members.now cells.old (length (D.seen device.old)) }

    ensures any_moment { (shape : Shape) (held : ℕ → Pair) (put : ℕ → Cell)
        → StandTogether ⟦<D as Disk>⟧ shape members.now held cells.old device.old → AreSpelled shape put members.now
        → LeavesOnly ⟦<D as Disk>⟧ (IsLeftTogether shape (D.seen device.old) (MayBeReplaced members.now put held))
        device.old device.new }
    ensures done { OnOk result ((shape : Shape) (held : ℕ → Pair) (put : ℕ → Cell)
        → StandTogether ⟦<D as Disk>⟧ shape members.now held cells.old device.old → AreSpelled shape put members.now
        → Stand (put_in members.now put held) cells.new (D.seen device.new)) }
    ensures synced { OnOk result (D.unsynced device.new ≡ []) }
    ensures writes { WriteCells ⟦<D as Disk>⟧ (3 * length members.now + 3) 3 cells.old cells.new device.old device.new }
    ensures fewer { HaveClosed members.now cells.old
        → Costs ⟦<D as Disk>⟧ (2 * length members.now + 2) 2 device.old device.new }
    ensures faults { CountsFaults ⟦<D as Disk>⟧ result device.old device.new }
{
    close_each(device, cells, members)?;
    write_each(device, cells, members)?;
    open_each(device, cells, members)
}

// Closes the older one of two open cells of each member's document, and syncs. Where no document has two it makes no call of the device.
fn close_each<D: Disk>(device: &mut D, cells: &mut [Cells], members: &[Member]) -> Result<(), Fault>
    requires places { HasPlaces members.now cells.old (length (D.seen device.old)) }

    ensures any_moment { (shape : Shape) (held : ℕ → Pair)
        → StandTogether ⟦<D as Disk>⟧ shape members.now held cells.old device.old
        → LeavesOnly ⟦<D as Disk>⟧ (IsLeftTogether shape (D.seen device.old) (MayBeFreed held)) device.old device.new }
    ensures done { OnOk result ((shape : Shape) (held : ℕ → Pair)
        → StandTogether ⟦<D as Disk>⟧ shape members.now held cells.old device.old
        → Stand (part members.now (λ number. freed (held number)) held) cells.new (D.seen device.new)) }
    ensures synced { OnOk result (D.unsynced device.old ≡ [] → D.unsynced device.new ≡ []) }
    ensures untouched { HaveClosed members.now cells.old → (device.new ≡ device.old) × (cells.new ≡ cells.old) }
    ensures writes { WriteCells ⟦<D as Disk>⟧ (length members.now + 1) 1 cells.old cells.new device.old device.new }
    ensures faults { CountsFaults ⟦<D as Disk>⟧ result device.old device.new }
{
    if !is_one_full(cells, members) {
        return Ok(());
    }
    for member in members {
        cells[member.document as usize].write_closed(device)?;
    }
    device.sync()
}

// Whether both cells of some member's document are open.
fn is_one_full(cells: &[Cells], members: &[Member]) -> bool
    requires inside { Each members.now (λ member. member.document < length cells.now) }

    ensures none { result ≡ false → HaveClosed members.now cells.now }
    ensures some { result ≡ true → ¬ HaveClosed members.now cells.now }
{
    for member in members {
        if cells[member.document as usize].are_both_open() {
            return true;
        }
    }
    false
}

// Writes what stands behind the gate of each member's closed cell, and syncs.
fn write_each<D: Disk>(device: &mut D, cells: &[Cells], members: &[Member]) -> Result<(), Fault>
    requires places { HasPlaces members.now cells.now (length (D.seen device.old)) }

    ensures any_moment { (shape : Shape) (held : ℕ → Pair)
        → StandTogether ⟦<D as Disk>⟧ shape members.now held cells.now device.old
        → LeavesOnly ⟦<D as Disk>⟧ (IsLeftTogether shape (D.seen device.old) (λ number pair. pair ≡ held number))
        device.old device.new }
    ensures done { OnOk result ((shape : Shape) (held : ℕ → Pair)
        → StandTogether ⟦<D as Disk>⟧ shape members.now held cells.now device.old
        → Stand held cells.now (D.seen device.new)) }
    ensures ready { OnOk result ((shape : Shape) (held : ℕ → Pair) (put : ℕ → Cell)
        → StandTogether ⟦<D as Disk>⟧ shape members.now held cells.now device.old → AreSpelled shape put members.now
        → AreReady members.now put cells.now (D.seen device.new)) }
    ensures synced { OnOk result (D.unsynced device.new ≡ []) }
    ensures writes { WriteCells ⟦<D as Disk>⟧ (length members.now + 1) 1 cells.now cells.now device.old device.new }
    ensures faults { CountsFaults ⟦<D as Disk>⟧ result device.old device.new }
{
    for member in members {
        cells[member.document as usize].write_body(device, &member.bytes)?;
    }
    device.sync()
}

// Opens the closed cell of each member's document, behind whose gate its milestone is spelled, and syncs.
fn open_each<D: Disk>(device: &mut D, cells: &mut [Cells], members: &[Member]) -> Result<(), Fault>
    requires places { HasPlaces members.now cells.old (length (D.seen device.old)) }

    ensures any_moment { (shape : Shape) (held : ℕ → Pair) (put : ℕ → Cell)
        → StandTogether ⟦<D as Disk>⟧ shape members.now held cells.old device.old
        → AreSpelled shape put members.now → AreReady members.now put cells.old (D.seen device.old)
        → AreHalf members.now held
        → LeavesOnly ⟦<D as Disk>⟧ (IsLeftTogether shape (D.seen device.old) (MayBePut members.now put held))
        device.old device.new }
    ensures done { OnOk result ((shape : Shape) (held : ℕ → Pair) (put : ℕ → Cell)
        → StandTogether ⟦<D as Disk>⟧ shape members.now held cells.old device.old → AreSpelled shape put members.now
        → AreReady members.now put cells.old (D.seen device.old) → AreHalf members.now held
        → Stand (part members.now (λ number. with_cell (put number) (held number)) held) cells.new (D.seen device.new)) }
    ensures synced { OnOk result (D.unsynced device.new ≡ []) }
    ensures writes { WriteCells ⟦<D as Disk>⟧ (length members.now + 1) 1 cells.old cells.new device.old device.new }
    ensures faults { CountsFaults ⟦<D as Disk>⟧ result device.old device.new }
{
    for member in members {
        cells[member.document as usize].write_opened(device, member.revision)?;
    }
    device.sync()
}
