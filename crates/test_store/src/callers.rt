//! How each layer is called.
ghost use Rattle.std.specs.Prelude.{◌≡◌, ◌+◌, ◌*◌, ◌≤◌, ◌<◌, ◌^◌, ℕ, List, [], ◌∷◌, ◌++◌, Option, length, false, OnOk, IfOk, IfErr, IfSome, IfNone, OnSome};
ghost use Rattle.compose.specs.Many.{applied};
ghost use Rattle.disk.specs.Device.{overwritten};
ghost use Rattle.disk.specs.Calls.{HasOnlyRead};
ghost use Rattle.disk.specs.Crash.{LeavesOnly};
ghost use Rattle.journal.specs.Area.{Stands};
ghost use Rattle.journal.specs.BatchSpelling as spelling;
ghost use Rattle.journal.specs.BatchSpelling.{batch_width};
ghost use Rattle.milestone.specs.CellSpelling.{cell_body, IsCell};
ghost use Rattle.milestone.specs.Job.{units_of_job};
ghost use Rattle.milestone.specs.OneCell.{HoldsPair};
ghost use Rattle.milestone.specs.Cells.{with_cell};
ghost use Rattle.milestone.specs.ReadCells.{pair_of};
ghost use Rattle.segments.specs.Slot.{Segment};
ghost use Rattle.segments.specs.Ring.{Fits, IsLeftByAppend, end_of};
ghost use Rattle.recovery.specs.Open.{FitsSlot, IsOpen, IsWithOrWithout, device_of, state_of, has_failed};

use disk::{Disk, Fault};
use journal::{Area, Record};
use milestone::{Cells, ComposeError, Format, Job, Milestone, ReadCells, compose_job};
use recovery::{Receipt, Store};
use refusal::Refusal;
use revision::{Batch, Taken};
use segments::Ring;
use std::alloc::Global;

/// Puts bytes onto a device so that they last.
pub fn put<D: Disk>(disk: &mut D, at: u64, bytes: &[u8]) -> Result<(), Fault>
    requires { at + length bytes.now ≤ length (D.seen disk.old) }
    ensures seen { OnOk result (D.seen disk.new ≡ overwritten (D.seen disk.old) at bytes.now) }
    ensures synced { OnOk result (D.unsynced disk.new ≡ []) }
{
    disk.write_at(at, bytes)?;
    disk.sync()
}

/// Appends a batch to an area. At Ok the area holds its spelling behind what it held.
pub fn keep<D: Disk>(
    alloc: Global,
    area: &mut Area,
    disk: &mut D,
    batch: &[Taken],
) -> Result<(), Refusal>
    requires some { 1 ≤ length batch.now }
    requires short { length batch.now < 2 ^ 32 }
    requires body { batch_width batch.now < 2 ^ 32 }
    requires within { area.old.at + area.old.size ≤ length (D.seen disk.old) }
    ensures { OnOk result ((bodies : List (List ℕ)) → Stands (D.seen disk.old) area.old bodies
        → Stands (D.seen disk.new) area.new (bodies ++ spelling.batch batch.now ∷ [])) }
{
    let record = Record::of_batch(alloc, batch)?;
    area.append(disk, &record)?;
    Ok(())
}

/// Appends one byte. A crash at any moment leaves the table before, with a slot opened for it, or with it.
pub fn append_byte<D: Disk>(
    alloc: Global,
    ring: &mut Ring,
    disk: &mut D,
    byte: u8,
) -> Result<(), Refusal>
    requires within { end_of ring.old ≤ length (D.seen disk.old) }
    ensures any_moment { (table : List (Option Segment)) → D.unsynced disk.old ≡ []
        → Fits (D.seen disk.old) ring.old table
        → LeavesOnly ⟦<D as Disk>⟧ (IsLeftByAppend (D.seen disk.old) ring.old table (byte ∷ [])) disk.old disk.new }
{
    let record = Record::of_body(alloc, &[byte])?;
    ring.append(disk, &record)
}

/// How many units a document has at the revision of a job. Refused as out of memory alone, and then the job comes back.
pub fn length_of(alloc: Global, job: Job) -> Result<u64, ComposeError>
    ensures length { IfOk result (λ len. len ≡ length (applied (units_of_job job) job.deltas)) }
    ensures back { IfErr result (λ back. back.job ≡ job) }
{
    match compose_job(alloc, job) {
        Ok(composed) => Ok(composed.milestone().document().len16()),
        Err(back) => Err(back),
    }
}

/// Reads the two cells of the document of a number, of 256 to 16,777,216 bytes each, and puts a milestone, as `Composed::milestone`
/// gives it, into one that is closed, the first one where both are. Then it answers what the cells held before. Where both are open it
/// answers None, and has only read.
pub fn put_where_closed<D: Disk>(
    alloc: Global,
    disk: &mut D,
    place: u64,
    size: u64,
    number: u32,
    milestone: &Milestone,
) -> Result<Option<ReadCells>, Refusal>
    requires low { 256 ≤ size }
    requires high { size ≤ 16777216 }
    requires end { place + 2 * size < 2 ^ 62 }
    requires within { place + 2 * size ≤ length (D.seen disk.old) }
    requires is { IsCell number milestone.now }
    requires fits { 5 + length (cell_body number milestone.now) ≤ size }

    ensures before { IfOk result (λ answer. IfSome answer (λ read. D.honest disk.new
        → HoldsPair place size number (D.seen disk.old) (pair_of read))) }
    ensures put { IfOk result (λ answer. IfSome answer (λ read. D.honest disk.new
        → HoldsPair place size number (D.seen disk.new) (with_cell milestone.now (pair_of read)))) }
    ensures synced { IfOk result (λ answer. OnSome answer (D.unsynced disk.new ≡ [])) }
    ensures both { IfOk result (λ answer. IfNone answer (HasOnlyRead ⟦<D as Disk>⟧ disk.old disk.new)) }
{
    let mut read = Cells::read_both(alloc, disk, Format::Two, place, size, number)?;
    if read.first.is_some() && read.second.is_some() {
        return Ok(None);
    }
    read.cells.put(alloc, disk, milestone)?;
    Ok(Some(read))
}

/// Commits a batch whose documents aren't at hand. A crash at any moment leaves the state without it or with it, and at Ok the store is open.
pub fn commit_batch<D: Disk>(
    alloc: Global,
    store: &mut Store<D>,
    batch: &Batch,
) -> Result<Receipt<D>, Refusal>
    requires some { 1 ≤ length batch.now }
    requires short { length batch.now < 2 ^ 32 }
    requires fits { FitsSlot (state_of store.old) batch.now }
    ensures any_moment { has_failed store.old ≡ false → IsOpen store.old
        → LeavesOnly ⟦<D as Disk>⟧ (IsWithOrWithout (state_of store.old) batch.now) (device_of store.old)
        (device_of store.new) }
    ensures done { OnOk result (IsOpen store.old → IsOpen store.new) }
{
    store.commit(alloc, batch, &[])
}
