//! One cell on a device: its gate, and what it holds.
ghost use Rattle.std.specs.Prelude.{◌≡◌, ◌⊎◌, ◌+◌, ◌*◌, ◌≤◌, ◌<◌, ◌^◌, Option, [], ◌∷◌, length, take, drop, Some, OnOk, IfOk, IfErr, IsErrOf};
ghost use Rattle.refusal.specs.Refusal.{IsOneOf};
ghost use Rattle.std.specs.Int.{w32, to_le_bytes};
ghost use Rattle.disk.specs.Calls.{HasOnlyRead, HasOnlyWritten, CountsFaults, CountsFaultsAs};
ghost use Rattle.disk.specs.Crash.{LeavesOnly, history_of};
ghost use Rattle.disk.specs.Device.{overwritten, SameOutside};
ghost use Rattle.history.specs.Cell.{Cell, Pair};
ghost use Rattle.journal.specs.Area.{open_gate};
ghost use Rattle.milestone.specs.CellSpelling.{cell_body, IsCell};
ghost use Rattle.milestone.specs.OneCell.{HoldsCellIn, HoldsPair};
ghost use Rattle.milestone.specs.LeftOutside.{IsLeftOutside};
ghost use Rattle.milestone.specs.Together.{WriteWithin};

use crate::format::Format;
use crate::milestone::Milestone;
use crate::reading::read_body;
use crate::writing::framed;
use disk::{Disk, Fault};
use journal::{CLOSED, OPEN};
use refusal::Refusal;
use std::alloc::Global;

/// Closes the gate of a cell: two calls of the device.
pub(crate) fn close<D: Disk>(disk: &mut D, gate: u64) -> Result<(), Fault>
    requires within { gate < length (D.seen disk.old) }
    requires bound { gate < 2 ^ 62 }

    ensures any_moment { D.unsynced disk.old ≡ []
        → LeavesOnly ⟦<D as Disk>⟧ (SameOutside gate 1 (D.seen disk.old)) disk.old disk.new }
    ensures seen { OnOk result (D.seen disk.new ≡ overwritten (D.seen disk.old) gate (0 ∷ [])) }
    ensures synced { OnOk result (D.unsynced disk.new ≡ []) }
    ensures calls { length (D.past disk.new) ≤ length (D.past disk.old) + 2 }
    ensures only_written { HasOnlyWritten ⟦<D as Disk>⟧ disk.old disk.new }
    ensures faults { CountsFaults ⟦<D as Disk>⟧ result disk.old disk.new }
{
    disk.write_at(gate, &[CLOSED])?;
    disk.sync()?;
    Ok(())
}

/// Writes bytes, and doesn't sync. A crash leaves anything in their range, and outside it what one could have left before.
pub(crate) fn write_one<D: Disk>(disk: &mut D, at: u64, bytes: &[u8]) -> Result<(), Fault>
    requires within { at + length bytes.now ≤ length (D.seen disk.old) }

    ensures any_moment { LeavesOnly ⟦<D as Disk>⟧
        (IsLeftOutside at (length bytes.now) (history_of ⟦<D as Disk>⟧ disk.old).now) disk.old disk.new }
    ensures written { OnOk result (D.seen disk.new ≡ overwritten (D.seen disk.old) at bytes.now) }
    ensures one { WriteWithin ⟦<D as Disk>⟧ at (length bytes.now) 1 disk.old disk.new }
    ensures faults { CountsFaults ⟦<D as Disk>⟧ result disk.old disk.new }
{
    disk.write_at(at, bytes)?;
    Ok(())
}

/// What a cell holds in a format: one read of its gate and of the body's length, and where the gate is open one of the body. `Damaged`
/// comes exactly when it holds nothing that a cell may hold.
pub(crate) fn read_cell<D: Disk>(
    alloc: Global,
    disk: &mut D,
    format: Format,
    at: u64,
    size: u64,
    number: u32,
) -> Result<Option<Milestone>, Refusal>
    requires at { at + size < 2 ^ 62 }
    requires low { 256 ≤ size }
    requires high { size ≤ 16777216 }
    requires within { at + size ≤ length (D.seen disk.old) }

    ensures found { IfOk result (λ cell. D.honest disk.new → HoldsCellIn format at size number (D.seen disk.old) cell) }
    ensures damaged { IfErr result (λ e. e ≡ Refusal.Damaged → D.honest disk.new
        → (cell : Option Cell) → ¬ HoldsCellIn format at size number (D.seen disk.old) cell) }
    ensures only { IfErr result (λ e. IsOneOf e (Refusal.Damaged ∷ Refusal.NoMemory ∷ Refusal.Fault ∷ [])) }
    ensures only_read { HasOnlyRead ⟦<D as Disk>⟧ disk.old disk.new }
    ensures faults { CountsFaultsAs ⟦<D as Disk>⟧ Refusal.Fault result disk.old disk.new }
{
    let mut head = [0u8; 5];
    read_at(disk, at, &mut head)?;
    if head[0] != OPEN {
        return Ok(None);
    }
    let len = body_len(&head[1..]);
    if len > size - 5 {
        return Err(Refusal::Damaged);
    }
    let body = read_range(alloc, disk, at + 5, len)?;
    let Some(milestone) = read_body(alloc, format, number, &body)? else {
        return Err(Refusal::Damaged);
    };
    Ok(Some(milestone))
}

// A body's length, as four bytes spell it.
fn body_len(bytes: &[u8]) -> u64
    requires { length bytes.now ≡ 4 }
    ensures len { bytes.now ≡ to_le_bytes w32 result }
    ensures bound { result < 2 ^ 32 }
{
    u32::from_le_bytes([bytes[0], bytes[1], bytes[2], bytes[3]]) as u64
}

// Fills `out` with the bytes from this place on.
fn read_at<D: Disk>(disk: &mut D, at: u64, out: &mut [u8]) -> Result<(), Refusal>
    requires { at + length out.old ≤ length (D.seen disk.old) }
    ensures bytes { OnOk result (D.honest disk.new → out.new ≡ take (length out.old) (drop at (D.seen disk.old))) }
    ensures only { IfErr result (λ e. e ≡ Refusal.Fault) }
    ensures only_read { HasOnlyRead ⟦<D as Disk>⟧ disk.old disk.new }
    ensures faults { CountsFaultsAs ⟦<D as Disk>⟧ Refusal.Fault result disk.old disk.new }
{
    disk.read(at, out)?;
    Ok(())
}

// The bytes of a range of the device.
fn read_range<D: Disk>(alloc: Global, disk: &mut D, at: u64, len: u64) -> Result<Vec<u8>, Refusal>
    requires { at + len ≤ length (D.seen disk.old) }
    ensures bytes { IfOk result (λ v. D.honest disk.new → v.items ≡ take len (drop at (D.seen disk.old))) }
    ensures only { IfErr result (λ e. (e ≡ Refusal.NoMemory) ⊎ (e ≡ Refusal.Fault)) }
    ensures only_read { HasOnlyRead ⟦<D as Disk>⟧ disk.old disk.new }
    ensures faults { CountsFaultsAs ⟦<D as Disk>⟧ Refusal.Fault result disk.old disk.new }
{
    let mut bytes = vec![in alloc; 0u8; len as usize]?;
    disk.read(at, &mut bytes)?;
    Ok(bytes)
}

/// Writes the first of the two cells of a document with its gate open, on a device where nothing counts yet: the body behind the
/// gate, then the gate, and no sync. `NoMemory` comes before any call of the device. A crash leaves anything in the cell's range, and
/// outside it what one could have left before.
pub fn write_open<D: Disk>(
    alloc: Global,
    disk: &mut D,
    place: u64,
    size: u64,
    number: u32,
    milestone: &Milestone,
) -> Result<(), Refusal>
    requires within { place + 2 * size ≤ length (D.seen disk.old) }
    requires bound { place + 2 * size < 2 ^ 62 }
    requires high { size ≤ 16777216 }
    requires is { IsCell number milestone.now }
    requires fits { 5 + length (cell_body number milestone.now) ≤ size }

    ensures any_moment { LeavesOnly ⟦<D as Disk>⟧
        (IsLeftOutside place size (history_of ⟦<D as Disk>⟧ disk.old).now) disk.old disk.new }
    ensures held { OnOk result ((pair : Pair) → HoldsPair place size number (D.seen disk.old) pair
        → HoldsPair place size number (D.seen disk.new) (Some milestone.now, pair.1)) }
    ensures outside { OnOk result (SameOutside place size (D.seen disk.old) (D.seen disk.new)) }
    ensures untouched { IsErrOf result Refusal.NoMemory → disk.new ≡ disk.old }
    ensures only { IfErr result (λ e. (e ≡ Refusal.NoMemory) ⊎ (e ≡ Refusal.Fault)) }
    ensures only_written { HasOnlyWritten ⟦<D as Disk>⟧ disk.old disk.new }
    ensures faults { CountsFaultsAs ⟦<D as Disk>⟧ Refusal.Fault result disk.old disk.new }
{
    let bytes = framed(alloc, number, milestone)?;
    write_both(disk, place, &bytes)?;
    Ok(())
}

// The bytes behind a gate, and then the gate, which is open.
fn write_both<D: Disk>(disk: &mut D, place: u64, bytes: &[u8]) -> Result<(), Fault>
    requires within { place + 1 + length bytes.now ≤ length (D.seen disk.old) }
    requires bound { place + 1 + length bytes.now < 2 ^ 63 }
    ensures any_moment { LeavesOnly ⟦<D as Disk>⟧
        (IsLeftOutside place (1 + length bytes.now) (history_of ⟦<D as Disk>⟧ disk.old).now) disk.old disk.new }
    ensures written { OnOk result (D.seen disk.new
        ≡ overwritten (overwritten (D.seen disk.old) (place + 1) bytes.now) place (open_gate ∷ [])) }
    ensures only_written { HasOnlyWritten ⟦<D as Disk>⟧ disk.old disk.new }
    ensures faults { CountsFaults ⟦<D as Disk>⟧ result disk.old disk.new }
{
    disk.write_at(place + 1, bytes)?;
    disk.write_at(place, &[OPEN])?;
    Ok(())
}
