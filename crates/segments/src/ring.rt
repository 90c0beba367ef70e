//! The ring of slots, as it is known in memory.
ghost use Rattle.std.specs.Prelude.{◌≡◌, ◌↔◌, ℕ, ◌+◌, ◌-◌, ◌*◌, ◌^◌, ◌<◌, ◌≤◌, Option, Some, None, List, [], ◌∷◌, ◌++◌, true, false, length, OnOk, OnErr, IfErr, IfOk, IfSome};
ghost use Rattle.refusal.specs.Refusal.{IsOneOf};
ghost use Rattle.std.specs.Int.{w64, to_le_bytes};
ghost use Rattle.std.specs.Option.{ForSome};
ghost use Rattle.disk.specs.Calls.{HasOnlyRead, HasOnlyWritten, CountsFaultsAs};
ghost use Rattle.disk.specs.Counted.{CostsInAll};

use crate::numbers::{differ, newest, next_slot, oldest_of_two};
use crate::order::in_order;
use crate::reading::{RecoveredSegment, newest_area, numbers_of, read_slots};
use crate::room::has_free;
use disk::Disk;
use journal::{Area, CLOSED, Record, write_gated};
use refusal::Refusal;
use std::alloc::Global;

/// How many bytes of a slot stand before its area: the gate and the segment's number.
const HEAD_LEN: u64 = 9;

/// The slots of a device, one behind another: where the first one lies, how many bytes each has, the number of each that
/// is open, and the area of the newest segment.
#[derive(Debug, Drop)]
pub struct Ring {
    at: u64,
    size: u64,
    numbers: Vec<Option<u64>>,
    newest: Option<Area>,
    ghost size_low: { 256 ≤ size },
    ghost size_high: { size ≤ 16777216 },
    ghost end: { at + length numbers.items * size < 2 ^ 62 },
    ghost newest_begins: { ForSome newest (λ area. at ≤ area.at) },
    ghost newest_ends: { ForSome newest (λ area. area.at + area.size ≤ at + length numbers.items * size) },
}

/// What was read of the slots of a device.
#[derive(Drop)]
pub struct RecoveredRing {
    /// The ring, whose next calls go on behind what was read.
    pub ring: Ring,
    /// The segments in order of their numbers, the oldest one first.
    pub segments: Vec<RecoveredSegment>,
}

impl Ring {
    ghost use Rattle.disk.specs.Crash.{LeavesOnly};
    ghost use Rattle.segments.specs.Slot.{Segment};
    ghost use Rattle.segments.specs.Numbers.{IsFull, IsNewest, IsOldest, number_at, open_count};
    ghost use Rattle.segments.specs.Numbers.{newest_number};
    ghost use Rattle.segments.specs.Table.{slot_place, HoldsTable};
    ghost use Rattle.segments.specs.Ring.{at_of, size_of, known_numbers, end_of, fits_newest, used_bytes, Fits, SamePlaces, IsSameOrOpened, IsLeftByOpening, IsLeftReady, IsLeftByAppend, IsLeftByRetiring, IsSameButOldest};
    ghost use Rattle.segments.specs.RingCalls.{IsRefusedExactly, KeepsSlots, SlotIsOpened, AreaIsReady, BodyIsAppended, OldestIsRetired, CostsByRoom};
    ghost use Rattle.segments.specs.Recovered.{IsReadAs};
    ghost use Rattle.segments.specs.Room.{has_room_for};

    /// Reads `count` slots of `size` bytes, 256 to 16,777,216, where the first lies at `at`. `Damaged` comes exactly when
    /// they hold no table: a record of an open slot's area has the length 0 or passes its end, a segment's number is 0, or
    /// two segments have one number. The device stays as it is.
    pub fn read<D: Disk>(
        alloc: Global,
        disk: &mut D,
        at: u64,
        size: u64,
        count: u64,
    ) -> Result<RecoveredRing, Refusal>
        requires low { 256 ≤ size }
        requires high { size ≤ 16777216 }
        requires end { at + count * size < 2 ^ 62 }
        requires within { at + count * size ≤ length (D.seen disk.old) }

        ensures found { IfOk result (λ read. D.honest disk.new → IsReadAs (D.seen disk.old) read) }
        ensures place { IfOk result (λ read. (at_of read.ring ≡ at)
            × ((size_of read.ring ≡ size) × (length (known_numbers read.ring) ≡ count))) }
        ensures damaged { IfErr result (λ e. e ≡ Refusal.Damaged → D.honest disk.new
            → (table : List (Option Segment)) → length table ≡ count → ¬ HoldsTable at size (D.seen disk.old) table) }
        ensures only { IfErr result (λ e. IsOneOf e (Refusal.Damaged ∷ Refusal.NoMemory ∷ Refusal.Fault ∷ [])) }
        ensures only_read { HasOnlyRead ⟦<D as Disk>⟧ disk.old disk.new }
        ensures faults { CountsFaultsAs ⟦<D as Disk>⟧ Refusal.Fault result disk.old disk.new }
    {
        let slots = read_slots(alloc, disk, at, size, count)?;
        let numbers = numbers_of(alloc, &slots)?;
        if !differ(&numbers) {
            return Err(Refusal::Damaged);
        }
        let newest = newest_area(&numbers, &slots);
        let segments = in_order(alloc, slots)?;
        let ring = Ring {
            at,
            size,
            numbers,
            newest,
        };
        Ok(RecoveredRing { ring, segments })
    }

    /// Opens the next slot: the lowest one whose gate is closed, under the number one above the newest segment's, 1 where
    /// none is open. `JournalFull` comes exactly when no slot is free, and makes no call of the device. After a `Fault`
    /// the slot may be open or not, and the ring is unchanged.
    pub fn open_slot<D: Disk>(&mut self, disk: &mut D) -> Result<(), Refusal>
        requires within { end_of self.old ≤ length (D.seen disk.old) }

        ensures refused { IsRefusedExactly Refusal.JournalFull (IsFull (known_numbers self.old)) result
            self.old self.new disk.old disk.new }
        ensures slots { KeepsSlots result self.old self.new }

        // Whatever the slots held: a crash at any moment leaves that, or that with the next slot open and empty.
        ensures any_moment { (table : List (Option Segment)) → D.unsynced disk.old ≡ []
            → Fits (D.seen disk.old) self.old table
            → LeavesOnly ⟦<D as Disk>⟧ (IsLeftByOpening (D.seen disk.old) self.old table) disk.old disk.new }
        ensures opened { OnOk result (SlotIsOpened ⟦<D as Disk>⟧ self.old self.new disk.old disk.new) }

        // Four calls of the device at most, good or not, and of these two syncs.
        ensures costs { CostsInAll ⟦<D as Disk>⟧ 4 2 disk.old disk.new }
        ensures only_written { HasOnlyWritten ⟦<D as Disk>⟧ disk.old disk.new }
        ensures faults { CountsFaultsAs ⟦<D as Disk>⟧ Refusal.Fault result disk.old disk.new }
    {
        let Some((slot, number)) = next_slot(&self.numbers) else {
            return Err(Refusal::JournalFull);
        };
        let place = self.place(slot);
        write_gated(disk, place, &head(number))?;
        self.numbers[slot] = Some(number);
        self.newest = Some(Area::empty(place + HEAD_LEN, self.size - HEAD_LEN));
        Ok(())
    }

    /// Appends a record: to the newest segment, or, where it doesn't fit there, to one that is opened for it. `JournalFull` comes exactly
    /// where no slot is free and it doesn't fit, and makes no call of the device. After a `Fault` the record may be there or not, and
    /// the ring knows nothing of it: it is not to be used again. It takes no memory.
    pub fn append<D: Disk>(&mut self, disk: &mut D, added: &Record) -> Result<(), Refusal>
        requires within { end_of self.old ≤ length (D.seen disk.old) }
        requires fits { length added.now + 15 ≤ size_of self.old }

        ensures refused { IsRefusedExactly Refusal.JournalFull
            ((fits_newest self.old (length added.now) ≡ false) × IsFull (known_numbers self.old)) result
            self.old self.new disk.old disk.new }
        ensures err { OnErr result (IsSameOrOpened self.old self.new) }
        ensures places { SamePlaces self.old self.new }

        // Whatever the slots held: a crash at any moment leaves the table before, the one that the body is appended to, or
        // that with the body.
        ensures any_moment { (table : List (Option Segment)) → D.unsynced disk.old ≡ []
            → Fits (D.seen disk.old) self.old table
            → LeavesOnly ⟦<D as Disk>⟧ (IsLeftByAppend (D.seen disk.old) self.old table added.now) disk.old disk.new }
        ensures appended { OnOk result
            (BodyIsAppended ⟦<D as Disk>⟧ added.now self.old self.new disk.old disk.new) }

        // Four calls of the device at most, of these two syncs, and as many again where a slot is opened.
        ensures costs { CostsByRoom ⟦<D as Disk>⟧ (fits_newest self.old (length added.now)) disk.old disk.new }
        ensures only_written { HasOnlyWritten ⟦<D as Disk>⟧ disk.old disk.new }
        ensures faults { CountsFaultsAs ⟦<D as Disk>⟧ Refusal.Fault result disk.old disk.new }
    {
        let mut area = self.ready(disk, added.body_len())?;
        area.append(disk, added)?;
        self.newest = Some(area);
        Ok(())
    }

    // The area that a body of so many bytes goes into: the newest segment's, or that of a slot which is opened for it.
    fn ready<D: Disk>(&mut self, disk: &mut D, len: u64) -> Result<Area, Refusal>
        requires within { end_of self.old ≤ length (D.seen disk.old) }
        requires fits { len + 15 ≤ size_of self.old }

        ensures refused { IsRefusedExactly Refusal.JournalFull
            ((fits_newest self.old len ≡ false) × IsFull (known_numbers self.old)) result
            self.old self.new disk.old disk.new }
        ensures slots { KeepsSlots result self.old self.new }
        ensures kept { fits_newest self.old len ≡ true → (disk.new ≡ disk.old) × (self.new ≡ self.old) }

        ensures any_moment { (table : List (Option Segment)) → D.unsynced disk.old ≡ []
            → Fits (D.seen disk.old) self.old table
            → LeavesOnly ⟦<D as Disk>⟧ (IsLeftReady (D.seen disk.old) self.old len table) disk.old disk.new }
        ensures ready { IfOk result (λ area.
            AreaIsReady ⟦<D as Disk>⟧ len area self.old self.new disk.old disk.new) }

        ensures costs { CostsInAll ⟦<D as Disk>⟧ 4 2 disk.old disk.new }
        ensures only_written { HasOnlyWritten ⟦<D as Disk>⟧ disk.old disk.new }
        ensures faults { CountsFaultsAs ⟦<D as Disk>⟧ Refusal.Fault result disk.old disk.new }
    {
        if let Some(area) = self.newest_with_room(len) {
            return Ok(area);
        }
        self.open_slot(disk)?;
        match self.newest_with_room(len) {
            Some(area) => Ok(area),
            None => unreachable!(),
        }
    }

    /// Whether a body of so many bytes finds room: in the newest segment, or in a slot that is free.
    pub fn has_room(&self, len: u64) -> bool
        requires { len < 2 ^ 62 }
        ensures { result ≡ has_room_for self.now len }
    {
        self.newest_with_room(len).is_some() || has_free(&self.numbers)
    }

    /// Whether a body of so many bytes fits into the newest segment. Where it doesn't, or no slot is open, `append` opens a slot.
    pub fn fits_newest(&self, len: u64) -> bool
        requires { len < 2 ^ 62 }
        ensures { result ≡ fits_newest self.now len }
    {
        self.newest_with_room(len).is_some()
    }

    /// The number of the newest segment, None where no slot is open.
    pub fn newest_number(&self) -> Option<u64>
        ensures newest { IfSome result (λ number. (slot : ℕ) × IsNewest (known_numbers self.now) slot number) }
        ensures none { result ≡ None → (slot : ℕ) → number_at (known_numbers self.now) slot ≡ None }
    {
        self.numbers[newest(&self.numbers)?]
    }

    /// How many slots are open.
    pub fn open_count(&self) -> u64
        ensures count { result ≡ open_count (known_numbers self.now) }
        ensures bound { result ≤ length (known_numbers self.now) }
    {
        crate::numbers::count_open(&self.numbers)
    }

    /// The highest number of a segment, 0 where no slot is open.
    pub fn highest_number(&self) -> u64
        ensures { result ≡ newest_number (known_numbers self.now) }
    {
        crate::numbers::highest(&self.numbers)
    }

    /// How many bytes of the slots are in use: of the newest segment those up to the end of its last record, and each other open slot
    /// whole, since nothing is added to it.
    pub fn used(&self) -> u64
        ensures { result ≡ used_bytes self.now }
    {
        match self.newest {
            Some(area) => {
                let others = self.open_count().saturating_sub(1);
                others * self.size + HEAD_LEN + area.used()
            }
            None => 0,
        }
    }

    /// The number of the segment that `retire_oldest` retires, None where fewer than two slots are open.
    pub fn oldest_number(&self) -> Option<u64>
        ensures oldest { IfSome result (λ number. (slot : ℕ) × IsOldest (known_numbers self.now) slot number) }
        ensures few { result ≡ None ↔ (open_count (known_numbers self.now) < 2) }
    {
        self.numbers[oldest_of_two(&self.numbers)?]
    }

    // The newest segment's area, where a body of so many bytes fits into it.
    fn newest_with_room(&self, len: u64) -> Option<Area>
        requires { len < 2 ^ 62 }
        ensures newest { IfSome result (λ area. self.now.newest ≡ Some area) }
        ensures room { IfSome result (λ area. area.next + 6 + len ≤ area.size) }
        ensures fits { IfSome result (λ _. fits_newest self.now len ≡ true) }
        ensures no_room { result ≡ None → fits_newest self.now len ≡ false }
    {
        match self.newest {
            Some(area) if area.has_room(len) => Some(area),
            _ => None,
        }
    }

    /// Retires the oldest segment: its slot is closed, and free from then on. `StillNeeded` comes exactly when fewer than
    /// two slots are open, and makes no call of the device. After a `Fault` the slot may be open or not, and the ring is
    /// unchanged.
    pub fn retire_oldest<D: Disk>(&mut self, disk: &mut D) -> Result<(), Refusal>
        requires within { end_of self.old ≤ length (D.seen disk.old) }

        ensures refused { IsRefusedExactly Refusal.StillNeeded (open_count (known_numbers self.old) < 2) result
            self.old self.new disk.old disk.new }
        ensures slots { KeepsSlots result self.old self.new }

        // Whatever the slots held: a crash at any moment leaves that, or that without the oldest segment.
        ensures any_moment { (table : List (Option Segment)) → D.unsynced disk.old ≡ []
            → Fits (D.seen disk.old) self.old table
            → LeavesOnly ⟦<D as Disk>⟧ (IsLeftByRetiring (D.seen disk.old) self.old table) disk.old disk.new }
        ensures retired { OnOk result (OldestIsRetired ⟦<D as Disk>⟧ self.old self.new disk.old disk.new) }
        ensures outside { IsSameButOldest self.old (D.seen disk.old) (D.seen disk.new) }

        // Two calls of the device at most, good or not.
        ensures costs { CostsInAll ⟦<D as Disk>⟧ 2 2 disk.old disk.new }
        ensures only_written { HasOnlyWritten ⟦<D as Disk>⟧ disk.old disk.new }
        ensures faults { CountsFaultsAs ⟦<D as Disk>⟧ Refusal.Fault result disk.old disk.new }
    {
        let Some(slot) = oldest_of_two(&self.numbers) else {
            return Err(Refusal::StillNeeded);
        };
        let place = self.place(slot);
        disk.write_at(place, &[CLOSED])?;
        disk.sync()?;
        self.numbers[slot] = None;
        Ok(())
    }

    // Where a slot begins.
    fn place(&self, slot: usize) -> u64
        requires { slot < length (known_numbers self.now) }
        ensures place { result ≡ slot_place (at_of self.now) (size_of self.now) slot }
        ensures inside { result + size_of self.now ≤ end_of self.now }
    {
        self.at + slot as u64 * self.size
    }
}

// What stands behind the gate of a slot that is opened: the segment's number, and the closed gate of the first record.
fn head(number: u64) -> [u8; 9]
    ensures { result ≡ to_le_bytes w64 number ++ 0 ∷ [] }
{
    let [a, b, c, d, e, f, g, h] = number.to_le_bytes();
    [a, b, c, d, e, f, g, h, CLOSED]
}
