//! Formatting a device.
ghost use Rattle.std.specs.Prelude.{◌≡◌, ◌⊎◌, ◌↔◌, ◌+◌, ◌*◌, ◌<◌, ◌≤◌, ◌^◌, ℕ, Some, [], length, true, IsTrue, Err, OnOk, OnErr, IfOk, IfErr, IsErrOf, slice_index, ◌∷◌};
ghost use Rattle.refusal.specs.Refusal.{IsOneOf};
ghost use Rattle.disk.specs.Device.{Rose, SameOutside};
ghost use Rattle.disk.specs.Crash.{LeavesIn, LeavesOnly, history_of};
ghost use Rattle.disk.specs.Calls.{HasOnlyWritten, CountsFaults, CountsFaultsAs};
ghost use Rattle.journal.specs.Area.{open_gate};
ghost use Rattle.history.specs.Cell.{CellKeeps, Pair};
ghost use Rattle.milestone.specs.CellSpelling.{IsCell};
ghost use Rattle.milestone.specs.LeftOutside.{IsLeftOutside};
ghost use Rattle.milestone.specs.OneCell.{HoldsPair};
ghost use Rattle.recovery.specs.Found.{limits_of};
ghost use Rattle.recovery.specs.Shape.{is_in_range, layout_length, cells_place, superblock};
ghost use Rattle.recovery.specs.Layout.{IsClosed, IsFormatted};
ghost use Rattle.recovery.specs.Formatting.{Fits, IsUnformatted, IsEmptyStore, IsUnformattedOrEmpty, IsPrepared, MayBegin, IsBegunStore, IsUnformattedOrBegun, IsPreparedWith, IsOnlySynced, LeavesFromSync};

use crate::shape::Shape;
use crate::superblock::{SUPERBLOCK_LEN, write_superblock};
use disk::{Disk, Fault};
use journal::{CLOSED, OPEN};
use milestone::{Milestone, write_open};
use refusal::Refusal;
use std::alloc::Global;

/// Where the superblock's gate stands.
const SUPERBLOCK_GATE: u64 = 0;

/// Makes a device a store of this shape without documents. Refused with `BadShape` where the device has less than 64
/// bytes; then it syncs and reads, and answers `AlreadyFormatted` where the superblock's gate is open, and `BadShape`
/// where the shape is out of range or the device shorter than its layout. `NoMemory` comes before the first write.
/// After a `Fault` a device that was not formatted still is not, or is the store without documents.
pub fn format_device<D: Disk>(alloc: Global, disk: &mut D, shape: Shape) -> Result<(), Refusal>
    // A crash at any moment leaves a device that is not formatted, or the empty store: on a device that is synced, and
    // on any other one from the call's first sync on.
    ensures any_moment { D.unsynced disk.old ≡ [] → IsUnformatted (D.seen disk.old)
        → LeavesOnly ⟦<D as Disk>⟧ (IsUnformattedOrEmpty shape) disk.old disk.new }
    ensures from_sync { IsUnformatted (D.seen disk.old)
        → LeavesFromSync (IsUnformattedOrEmpty shape) (history_of ⟦<D as Disk>⟧ disk.old)
        (history_of ⟦<D as Disk>⟧ disk.new) }
    ensures done { OnOk result (IsEmptyStore shape (D.seen disk.new)) }
    ensures synced { OnOk result (D.unsynced disk.new ≡ []) }

    // A device that is formatted already stays so, and is refused.
    ensures kept { D.honest disk.new → IsFormatted (D.seen disk.old)
        → IsOnlySynced (history_of ⟦<D as Disk>⟧ disk.old) (history_of ⟦<D as Disk>⟧ disk.new) }
    ensures formatted { D.honest disk.new → IsFormatted (D.seen disk.old)
        → (result ≡ Err Refusal.AlreadyFormatted) ⊎ (result ≡ Err Refusal.Fault) }
    ensures already_formatted { result ≡ Err Refusal.AlreadyFormatted → D.honest disk.new
        → IsFormatted (D.seen disk.old) }

    ensures too_short { length (D.seen disk.old) < 64 → (result ≡ Err Refusal.BadShape) × (disk.new ≡ disk.old) }
    ensures bad_shape { result ≡ Err Refusal.BadShape → ¬ Fits shape (length (D.seen disk.old)) }
    ensures unfit { ¬ Fits shape (length (D.seen disk.old))
        → (result ≡ Err Refusal.BadShape) ⊎ ((result ≡ Err Refusal.AlreadyFormatted) ⊎ (result ≡ Err Refusal.Fault)) }

    // No other refusal comes, and all but `Fault` come before the first write.
    ensures refusals { IfErr result (λ e. IsOneOf e (Refusal.BadShape ∷ Refusal.AlreadyFormatted ∷ Refusal.NoMemory ∷ Refusal.Fault ∷ [])) }
    ensures refused { OnErr result ((result ≡ Err Refusal.Fault)
        ⊎ IsOnlySynced (history_of ⟦<D as Disk>⟧ disk.old) (history_of ⟦<D as Disk>⟧ disk.new)) }

    ensures length { length (D.seen disk.new) ≡ length (D.seen disk.old) }
    ensures honest { D.honest disk.new → D.honest disk.old }
    ensures good { (result ≡ Err Refusal.Fault) ⊎ (D.faults disk.new ≡ D.faults disk.old) }
    ensures failed { result ≡ Err Refusal.Fault → Rose (D.faults disk.old) (D.faults disk.new) }
{
    if disk.len() < SUPERBLOCK_LEN {
        return Err(Refusal::BadShape);
    }
    let is_open = reads_open_gate(disk)?;
    if is_open {
        return Err(Refusal::AlreadyFormatted);
    }
    if !shape.is_in_range() || disk.len() < shape.device_len() {
        return Err(Refusal::BadShape);
    }
    let body = write_superblock(alloc, &shape)?;
    write_all(disk, &shape, &body)?;
    Ok(())
}

/// Makes a device a store of this shape that begins with these documents, the first one with number 0 and so on, each a milestone in its
/// first cell. The refusals are those of `format_device`, in their order, but that `NoMemory` may come between the writes, and leaves the
/// superblock's gate closed. After a `Fault` a device that was not formatted still is not, or is the store with these documents.
pub fn format_with<D: Disk>(
    alloc: Global,
    disk: &mut D,
    shape: Shape,
    milestones: &[Milestone],
) -> Result<(), Refusal>
    requires { is_in_range shape ≡ true → MayBegin shape milestones.now }

    ensures any_moment { D.unsynced disk.old ≡ [] → IsUnformatted (D.seen disk.old)
        → LeavesOnly ⟦<D as Disk>⟧ (IsUnformattedOrBegun shape milestones.now) disk.old disk.new }
    ensures from_sync { IsUnformatted (D.seen disk.old)
        → LeavesFromSync (IsUnformattedOrBegun shape milestones.now) (history_of ⟦<D as Disk>⟧ disk.old)
        (history_of ⟦<D as Disk>⟧ disk.new) }
    ensures done { OnOk result (IsBegunStore shape milestones.now (D.seen disk.new)) }
    ensures synced { OnOk result (D.unsynced disk.new ≡ []) }

    // A device that is formatted already stays so, and is refused.
    ensures kept { D.honest disk.new → IsFormatted (D.seen disk.old)
        → IsOnlySynced (history_of ⟦<D as Disk>⟧ disk.old) (history_of ⟦<D as Disk>⟧ disk.new) }
    ensures formatted { D.honest disk.new → IsFormatted (D.seen disk.old)
        → (result ≡ Err Refusal.AlreadyFormatted) ⊎ (result ≡ Err Refusal.Fault) }
    ensures already_formatted { result ≡ Err Refusal.AlreadyFormatted → D.honest disk.new
        → IsFormatted (D.seen disk.old) }

    ensures too_short { length (D.seen disk.old) < 64 → (result ≡ Err Refusal.BadShape) × (disk.new ≡ disk.old) }
    ensures bad_shape { result ≡ Err Refusal.BadShape → ¬ Fits shape (length (D.seen disk.old)) }
    ensures unfit { ¬ Fits shape (length (D.seen disk.old))
        → (result ≡ Err Refusal.BadShape) ⊎ ((result ≡ Err Refusal.AlreadyFormatted) ⊎ (result ≡ Err Refusal.Fault)) }

    // No other refusal comes, and all but `Fault` and `NoMemory` come before the first write. `NoMemory` leaves the superblock's gate closed.
    ensures refusals { IfErr result (λ e. IsOneOf e (Refusal.BadShape ∷ Refusal.AlreadyFormatted ∷ Refusal.NoMemory ∷ Refusal.Fault ∷ [])) }
    ensures refused { IfErr result (λ e. (e ≡ Refusal.Fault) ⊎ ((e ≡ Refusal.NoMemory)
        ⊎ IsOnlySynced (history_of ⟦<D as Disk>⟧ disk.old) (history_of ⟦<D as Disk>⟧ disk.new))) }
    ensures memory { result ≡ Err Refusal.NoMemory → IsUnformatted (D.seen disk.old) → IsUnformatted (D.seen disk.new) }

    ensures length { length (D.seen disk.new) ≡ length (D.seen disk.old) }
    ensures honest { D.honest disk.new → D.honest disk.old }
    ensures faults { CountsFaultsAs ⟦<D as Disk>⟧ Refusal.Fault result disk.old disk.new }
{
    if disk.len() < SUPERBLOCK_LEN {
        return Err(Refusal::BadShape);
    }
    let is_open = reads_open_gate(disk)?;
    if is_open {
        return Err(Refusal::AlreadyFormatted);
    }
    if !shape.is_in_range() || disk.len() < shape.device_len() {
        return Err(Refusal::BadShape);
    }
    let body = write_superblock(alloc, &shape)?;
    write_with(alloc, disk, &shape, &body, milestones)
}

// Prepares all but the superblock's gate, with each document in its first cell, and opens that gate last, when the rest is synced.
fn write_with<D: Disk>(
    alloc: Global,
    disk: &mut D,
    shape: &Shape,
    behind_gate: &[u8],
    milestones: &[Milestone],
) -> Result<(), Refusal>
    requires fits { Fits shape.now (length (D.seen disk.old)) }
    requires body { behind_gate.now ≡ superblock shape.now }
    requires begins { MayBegin shape.now milestones.now }

    ensures any_moment { D.unsynced disk.old ≡ [] → IsUnformatted (D.seen disk.old)
        → LeavesOnly ⟦<D as Disk>⟧ (IsUnformattedOrBegun shape.now milestones.now) disk.old disk.new }
    ensures done { OnOk result (IsBegunStore shape.now milestones.now (D.seen disk.new)) }
    ensures synced { OnOk result (D.unsynced disk.new ≡ []) }
    ensures memory { IsErrOf result Refusal.NoMemory → D.unsynced disk.old ≡ [] → IsUnformatted (D.seen disk.old)
        → IsUnformatted (D.seen disk.new) }
    ensures only { IfErr result (λ e. (e ≡ Refusal.NoMemory) ⊎ (e ≡ Refusal.Fault)) }
    ensures only_written { HasOnlyWritten ⟦<D as Disk>⟧ disk.old disk.new }
    ensures faults { CountsFaultsAs ⟦<D as Disk>⟧ Refusal.Fault result disk.old disk.new }
{
    prepare(disk, shape, behind_gate)?;
    put_first(alloc, disk, shape, milestones)?;
    open_superblock(disk, shape, milestones)?;
    Ok(())
}

// Puts each document into its first cell, on a device whose gates are all closed, and syncs nothing.
fn put_first<D: Disk>(
    alloc: Global,
    disk: &mut D,
    shape: &Shape,
    milestones: &[Milestone],
) -> Result<(), Refusal>
    requires begins { MayBegin shape.now milestones.now }
    requires in_range { is_in_range shape.now ≡ true }
    requires prepared { IsPrepared shape.now (D.seen disk.old) }

    ensures any_moment { LeavesIn IsUnformatted (history_of ⟦<D as Disk>⟧ disk.old).now
        → LeavesOnly ⟦<D as Disk>⟧ IsUnformatted disk.old disk.new }
    ensures prepared { OnOk result (IsPreparedWith shape.now milestones.now (D.seen disk.new)) }
    ensures only { IfErr result (λ e. (e ≡ Refusal.NoMemory) ⊎ (e ≡ Refusal.Fault)) }
    ensures only_written { HasOnlyWritten ⟦<D as Disk>⟧ disk.old disk.new }
    ensures faults { CountsFaultsAs ⟦<D as Disk>⟧ Refusal.Fault result disk.old disk.new }
{
    for (number, milestone) in milestones.iter().enumerate() {
        put_in_first(alloc, disk, shape, number as u32, milestone)?;
    }
    Ok(())
}

// Puts one document into its first cell, and syncs nothing.
fn put_in_first<D: Disk>(
    alloc: Global,
    disk: &mut D,
    shape: &Shape,
    number: u32,
    milestone: &Milestone,
) -> Result<(), Refusal>
    requires in_range { is_in_range shape.now ≡ true }
    requires within { layout_length shape.now ≤ length (D.seen disk.old) }
    requires number { number < shape.now.docs }
    requires is { IsCell number milestone.now }
    requires keeps { CellKeeps (limits_of shape.now) milestone.now }

    ensures any_moment { LeavesOnly ⟦<D as Disk>⟧ (IsLeftOutside (cells_place shape.now number) shape.now.cell
        (history_of ⟦<D as Disk>⟧ disk.old).now) disk.old disk.new }
    ensures held { OnOk result ((pair : Pair)
        → HoldsPair (cells_place shape.now number) shape.now.cell number (D.seen disk.old) pair
        → HoldsPair (cells_place shape.now number) shape.now.cell number (D.seen disk.new) (Some milestone.now, pair.1)) }
    ensures outside { OnOk result (SameOutside (cells_place shape.now number) shape.now.cell (D.seen disk.old)
        (D.seen disk.new)) }
    ensures only { IfErr result (λ e. (e ≡ Refusal.NoMemory) ⊎ (e ≡ Refusal.Fault)) }
    ensures only_written { HasOnlyWritten ⟦<D as Disk>⟧ disk.old disk.new }
    ensures faults { CountsFaultsAs ⟦<D as Disk>⟧ Refusal.Fault result disk.old disk.new }
{
    let size = u64::from(shape.cell);
    let place = SUPERBLOCK_LEN + u64::from(number) * (2 * size);
    write_open(alloc, disk, place, size, number, milestone)
}

// Syncs what was prepared, opens the superblock's gate, and syncs.
fn open_superblock<D: Disk>(
    disk: &mut D,
    shape: &Shape,
    milestones: &[Milestone],
) -> Result<(), Fault>
    requires in_range { is_in_range shape.now ≡ true }
    requires begins { MayBegin shape.now milestones.now }
    requires prepared { IsPreparedWith shape.now milestones.now (D.seen disk.old) }
    ensures any_moment { LeavesIn IsUnformatted (history_of ⟦<D as Disk>⟧ disk.old).now
        → LeavesOnly ⟦<D as Disk>⟧ (IsUnformattedOrBegun shape.now milestones.now) disk.old disk.new }
    ensures done { OnOk result (IsBegunStore shape.now milestones.now (D.seen disk.new)) }
    ensures synced { OnOk result (D.unsynced disk.new ≡ []) }
    ensures only_written { HasOnlyWritten ⟦<D as Disk>⟧ disk.old disk.new }
    ensures faults { CountsFaults ⟦<D as Disk>⟧ result disk.old disk.new }
{
    let (_, _) = (shape, milestones);
    disk.sync()?;
    disk.write_at(SUPERBLOCK_GATE, &[OPEN])?;
    disk.sync()
}

// Syncs, and reads whether the superblock's gate is open.
fn reads_open_gate<D: Disk>(disk: &mut D) -> Result<bool, Fault>
    requires { 1 ≤ length (D.seen disk.old) }
    ensures is_open { IfOk result (λ b. D.honest disk.new
        → (IsTrue b ↔ (slice_index (D.seen disk.old) 0 ≡ open_gate))) }
    ensures only_synced { IsOnlySynced (history_of ⟦<D as Disk>⟧ disk.old) (history_of ⟦<D as Disk>⟧ disk.new) }
    ensures synced { OnOk result (D.unsynced disk.new ≡ []) }
    ensures honest { D.honest disk.new → D.honest disk.old }
    ensures faults { CountsFaults ⟦<D as Disk>⟧ result disk.old disk.new }
{
    disk.sync()?;
    let mut gate = [0u8];
    disk.read(0, &mut gate)?;
    Ok(gate[0] == OPEN)
}

// Prepares all but the superblock's gate, and opens that last, when the rest is synced.
fn write_all<D: Disk>(disk: &mut D, shape: &Shape, body: &[u8]) -> Result<(), Fault>
    requires fits { Fits shape.now (length (D.seen disk.old)) }
    requires body { body.now ≡ superblock shape.now }
    ensures any_moment { D.unsynced disk.old ≡ [] → IsUnformatted (D.seen disk.old)
        → LeavesOnly ⟦<D as Disk>⟧ (IsUnformattedOrEmpty shape.now) disk.old disk.new }
    ensures done { OnOk result (IsEmptyStore shape.now (D.seen disk.new)) }
    ensures synced { OnOk result (D.unsynced disk.new ≡ []) }
    ensures only_written { HasOnlyWritten ⟦<D as Disk>⟧ disk.old disk.new }
    ensures faults { CountsFaults ⟦<D as Disk>⟧ result disk.old disk.new }
{
    prepare(disk, shape, body)?;
    disk.sync()?;
    disk.write_at(0, &[OPEN])?;
    disk.sync()
}

// Closes the gates of the cells and the slots, and writes the superblock behind its gate.
fn prepare<D: Disk>(disk: &mut D, shape: &Shape, body: &[u8]) -> Result<(), Fault>
    requires fits { Fits shape.now (length (D.seen disk.old)) }
    requires body { body.now ≡ superblock shape.now }
    ensures any_moment { LeavesIn IsUnformatted (history_of ⟦<D as Disk>⟧ disk.old).now
        → LeavesOnly ⟦<D as Disk>⟧ IsUnformatted disk.old disk.new }
    ensures prepared { OnOk result (IsPrepared shape.now (D.seen disk.new)) }
    ensures only_written { HasOnlyWritten ⟦<D as Disk>⟧ disk.old disk.new }
    ensures faults { CountsFaults ⟦<D as Disk>⟧ result disk.old disk.new }
{
    let docs = u64::from(shape.docs);
    let cell = u64::from(shape.cell);
    close_gates(disk, SUPERBLOCK_LEN, cell, 2 * docs)?;
    let slots = SUPERBLOCK_LEN + 2 * docs * cell;
    close_gates(disk, slots, u64::from(shape.slot), u64::from(shape.slots))?;
    disk.write_at(1, body)
}

// Closes the gates of so many parts of one size, which stand one behind another, and opens none.
fn close_gates<D: Disk>(disk: &mut D, at: u64, size: u64, count: u64) -> Result<(), Fault>
    requires behind { 1 ≤ at }
    requires within { at + count * size ≤ length (D.seen disk.old) }
    requires some { 1 ≤ size }
    requires bound { at + count * size < 2 ^ 63 }
    ensures any_moment { LeavesIn IsUnformatted (history_of ⟦<D as Disk>⟧ disk.old).now
        → LeavesOnly ⟦<D as Disk>⟧ IsUnformatted disk.old disk.new }
    ensures closed { OnOk result ((k : ℕ) → k < count → IsClosed (D.seen disk.new) (at + k * size)) }
    ensures others { OnOk result ((place : ℕ) → IsClosed (D.seen disk.old) place → IsClosed (D.seen disk.new) place) }
    ensures only_written { HasOnlyWritten ⟦<D as Disk>⟧ disk.old disk.new }
    ensures faults { CountsFaults ⟦<D as Disk>⟧ result disk.old disk.new }
{
    for k in 0..count {
        disk.write_at(at + k * size, &[CLOSED])?;
    }
    Ok(())
}
