//! Reading what the slots hold.
ghost use Rattle.std.specs.Prelude.{◌≡◌, ◌+◌, ◌-◌, ◌*◌, ◌<◌, ◌≤◌, ◌^◌, Option, Some, None, length, take, drop, OnOk, IfOk, IfErr, [], ◌∷◌};
ghost use Rattle.refusal.specs.Refusal.{IsOneOf};
ghost use Rattle.std.specs.Int.{w64, to_le_bytes};
ghost use Rattle.segments.specs.Slot.{Segment, HoldsSlot};
ghost use Rattle.segments.specs.steps.Reading.{segment_of, KnowsArea, KnowsNext, AreRead, KnowAreas, IsDamaged, number_read, area_read, IsNewestRead};
ghost use Rattle.std.specs.Prelude.{map};
ghost use Rattle.disk.specs.Calls.{HasOnlyRead, CountsFaultsAs};

use crate::numbers::newest;
use disk::Disk;
use journal::{Area, OPEN};
use refusal::Refusal;
use std::alloc::{AllocError, Global};

/// What was read of an open slot: the segment's number, its area, and the bodies of its records.
#[derive(Drop)]
pub struct ReadSegment {
    pub number: u64,
    pub area: Area,
    pub bodies: Vec<Vec<u8>>,
}

/// A segment that was read: its number, and the bodies of its records by their places.
#[derive(Drop)]
pub struct RecoveredSegment {
    pub number: u64,
    pub bodies: Vec<Vec<u8>>,
}

// What a slot holds: one read of its head, and where its gate is open one of its area. `Damaged` comes exactly when it holds
// nothing that a slot may hold.
fn read_slot<D: Disk>(
    alloc: Global,
    disk: &mut D,
    at: u64,
    size: u64,
) -> Result<Option<ReadSegment>, Refusal>
    requires at { at + size < 2 ^ 62 }
    requires low { 256 ≤ size }
    requires high { size ≤ 16777216 }
    requires within { at + size ≤ length (D.seen disk.old) }

    ensures found { IfOk result (λ slot. D.honest disk.new
        → HoldsSlot (take size (drop at (D.seen disk.old))) (segment_of slot)) }
    ensures area { IfOk result (λ slot. KnowsArea at size slot) }
    ensures next { IfOk result (λ slot. D.honest disk.new → KnowsNext slot) }
    ensures damaged { IfErr result (λ e. e ≡ Refusal.Damaged → D.honest disk.new
        → (slot : Option Segment) → ¬ HoldsSlot (take size (drop at (D.seen disk.old))) slot) }
    ensures only { IfErr result (λ e. IsOneOf e (Refusal.Damaged ∷ Refusal.NoMemory ∷ Refusal.Fault ∷ [])) }
    ensures only_read { HasOnlyRead ⟦<D as Disk>⟧ disk.old disk.new }
    ensures faults { CountsFaultsAs ⟦<D as Disk>⟧ Refusal.Fault result disk.old disk.new }
{
    let mut head = [0u8; 9];
    read_at(disk, at, &mut head)?;
    if head[0] != OPEN {
        return Ok(None);
    }
    let number = segment_number(&head[1..]);
    if number == 0 {
        return Err(Refusal::Damaged);
    }
    let scan = Area::scan(alloc, disk, at + 9, size - 9)?;
    Ok(Some(ReadSegment {
        number,
        area: scan.area,
        bodies: scan.bodies,
    }))
}

// Fills `out` with the bytes from this place on.
fn read_at<D: Disk>(disk: &mut D, at: u64, out: &mut [u8]) -> Result<(), Refusal>
    requires { at + length out.old ≤ length (D.seen disk.old) }
    ensures bytes { OnOk result (D.honest disk.new → out.new ≡ take (length out.old) (drop at (D.seen disk.old))) }
    ensures only { IfErr result (λ e. e ≡ Refusal.Fault) }
    ensures only_read { HasOnlyRead ⟦<D as Disk>⟧ disk.old disk.new }
    ensures faults { CountsFaultsAs ⟦<D as Disk>⟧ Refusal.Fault result disk.old disk.new }
{
    disk.read(at, out)?;
    Ok(())
}

// A segment's number, as eight bytes spell it.
fn segment_number(bytes: &[u8]) -> u64
    requires { length bytes.now ≡ 8 }
    ensures { bytes.now ≡ to_le_bytes w64 result }
{
    u64::from_le_bytes([
        bytes[0], bytes[1], bytes[2], bytes[3], bytes[4], bytes[5], bytes[6], bytes[7],
    ])
}

/// What each of so many slots holds.
pub fn read_slots<D: Disk>(
    alloc: Global,
    disk: &mut D,
    at: u64,
    size: u64,
    count: u64,
) -> Result<Vec<Option<ReadSegment>>, Refusal>
    requires low { 256 ≤ size }
    requires high { size ≤ 16777216 }
    requires end { at + count * size < 2 ^ 62 }
    requires within { at + count * size ≤ length (D.seen disk.old) }

    ensures count { IfOk result (λ slots. length slots.items ≡ count) }
    ensures found { IfOk result (λ slots. D.honest disk.new → AreRead at size (D.seen disk.old) slots.items count) }
    ensures areas { IfOk result (λ slots. KnowAreas at size slots.items count) }
    ensures damaged { IfErr result (λ e. e ≡ Refusal.Damaged → D.honest disk.new
        → IsDamaged at size count (D.seen disk.old)) }
    ensures only { IfErr result (λ e. IsOneOf e (Refusal.Damaged ∷ Refusal.NoMemory ∷ Refusal.Fault ∷ [])) }
    ensures only_read { HasOnlyRead ⟦<D as Disk>⟧ disk.old disk.new }
    ensures faults { CountsFaultsAs ⟦<D as Disk>⟧ Refusal.Fault result disk.old disk.new }
{
    let mut slots = Vec::new(alloc);
    for slot in 0..count {
        let read = read_slot(alloc, disk, at + slot * size, size)?;
        slots.push(read)?;
    }
    Ok(slots)
}

/// The number of each slot that is open.
pub fn numbers_of(
    alloc: Global,
    slots: &[Option<ReadSegment>],
) -> Result<Vec<Option<u64>>, AllocError>
    ensures numbers { IfOk result (λ v. v.items ≡ map number_read slots.now) }
{
    let mut numbers = Vec::with_capacity(alloc, slots.len())?;
    for slot in slots {
        let number = match slot {
            Some(read) => Some(read.number),
            None => None,
        };
        numbers.push(number)?;
    }
    Ok(numbers)
}

// The area of the segment that was read of a slot.
fn area_of(slot: &Option<ReadSegment>) -> Option<Area>
    ensures { result ≡ area_read slot.now }
{
    match slot {
        Some(read) => Some(read.area),
        None => None,
    }
}

/// The area of the newest segment.
pub fn newest_area(numbers: &[Option<u64>], slots: &[Option<ReadSegment>]) -> Option<Area>
    requires { numbers.now ≡ map number_read slots.now }
    ensures { IsNewestRead numbers.now slots.now result }
{
    match newest(numbers) {
        Some(slot) => area_of(&slots[slot]),
        None => None,
    }
}
