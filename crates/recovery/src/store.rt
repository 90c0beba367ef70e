//! A store that is open.
ghost use Rattle.std.specs.Prelude.{◌≡◌, ◌≢◌, ◌⊎◌, ◌↔◌, ◌+◌, ◌<◌, ◌≤◌, ◌^◌, List, ℕ, true, false, [], Option, length, OnOk, OnErr, IfOk, IfErr, IsErrOf, IsTrue, ◌∷◌};
ghost use Rattle.refusal.specs.Refusal.{IsOneOf};
ghost use Rattle.disk.specs.Calls.{HasOnlyWritten, CountsFaultsAs};
ghost use Rattle.disk.specs.Crash.{LeavesOnly};
ghost use Rattle.journal.specs.BatchSpelling.{IsBatch, batch as spelled, batch_width};
ghost use Rattle.revision.specs.Made.{AreMade};
ghost use Rattle.revision.specs.State.{fold, all_grow, first_grows};
ghost use Rattle.segments.specs.Slot.{Segment};
ghost use Rattle.segments.specs.Ring.{Fits, SamePlaces, IsLeftByAppend, end_of, size_of, fits_newest};
ghost use Rattle.recovery.specs.steps.Appending.{MayBeAppended, IsBatchAppended, IsAppendRefused};
ghost use Rattle.segments.specs.RingCalls.{CostsByRoom};
ghost use Rattle.segments.specs.Numbers.{IsNewest};
ghost use Rattle.segments.specs.Ring.{known_numbers};
ghost use Rattle.recovery.specs.Marks.{marks_of, room_of, IsNoted};
ghost use Rattle.recovery.specs.Shape.{is_in_range, layout_length};
ghost use Rattle.recovery.specs.Cells.{AreCellsOf};
ghost use Rattle.recovery.specs.Found.{limits_of};
ghost use Rattle.recovery.specs.Jobs.{jobs_of, AllKeep};

use crate::jobs::Jobs;
use crate::marks::Marks;
use crate::reading::read_store;
use crate::receipt::Receipt;
use crate::shape::Shape;
use disk::Disk;
use document::Document;
use history::Pick;
use journal::{Record, batch_len};
use milestone::Cells;
use refusal::Refusal;
use revision::{Batch, PrepareError, PreparedState, State, Taken};
use segments::Ring;
use std::alloc::{AllocError, Global};
use std::mem::replace;

/// Why a device could not be opened. The device comes back.
#[derive(Debug, Drop)]
pub struct OpenFault<D> {
    pub disk: D,
    pub refusal: Refusal,
}

/// A store over a device: the documents that the device represents, and where the next batch goes.
#[derive(Drop)]
pub struct Store<D: Disk> {
    pub(crate) device: D,
    pub(crate) shape: Shape,
    pub(crate) ring: Ring,
    pub(crate) cells: Vec<Cells>,
    pub(crate) marks: Marks,
    pub(crate) jobs: Jobs,
    pub(crate) state: State,
    pub(crate) failed: bool,
    ghost within: { end_of ring ≤ length (D.seen device) },
    ghost slot: { size_of ring ≡ state.limits.width + 19 },
    ghost in_range: { is_in_range shape ≡ true },
    ghost long: { layout_length shape ≤ length (D.seen device) },
    ghost bounded: { state.limits ≡ limits_of shape },
    ghost placed: { AreCellsOf shape cells.items },
    ghost composable: { AllKeep (limits_of shape) (jobs_of jobs) },
}

impl<D: Disk> Store<D> {
    ghost use Rattle.recovery.specs.Commit.{MayBeCommitted, IsCommitted, IsCommitRefused, MustBeRefused};
    ghost use Rattle.recovery.specs.Faults.{FailsAtFaults};
    ghost use Rattle.recovery.specs.Goes.{Goes};
    ghost use Rattle.recovery.specs.Opened.{IsOpenedStore, IsReadDevice, OpeningIsRefused};
    ghost use Rattle.recovery.specs.Filling.{shape_of, open_slots, newest_segment, journal_bytes};
    ghost use Rattle.recovery.specs.Open.{ring_of};
    ghost use Rattle.recovery.specs.Open.{FitsSlot, IsOpen, IsWithOrWithout, device_of, state_of, has_failed, has_room, kept_jobs, fits_newest_segment};

    /// Opens a formatted device, by the newer or the older cell of each document: syncs it, then reads, and writes nothing.
    /// `NotFormatted` comes exactly when the superblock's gate is closed or the device has less than 64 bytes, `OldFormat` exactly
    /// when the device has the first format, `Damaged` exactly when any other formatted device's content represents no state by
    /// that pick, `Fault` exactly when a call of the device failed, and `NoMemory`. The device comes back with the refusal, and
    /// its content is unchanged on every path.
    pub fn open(alloc: Global, disk: D, pick: Pick) -> Result<Store<D>, OpenFault<D>>
        ensures opened { IfOk result (λ store. IsOpenedStore (D.seen disk) pick store) }
        ensures device { IfOk result (λ store. IsReadDevice ⟦<D as Disk>⟧ disk (device_of store)) }
        ensures refused { IfErr result (λ fault.
            OpeningIsRefused ⟦<D as Disk>⟧ pick fault.refusal disk fault.disk) }
    {
        let mut device = disk;
        match read_store(alloc, &mut device, pick) {
            Ok(recovered) => Ok(Store {
                device,
                shape: recovered.shape,
                ring: recovered.ring,
                cells: recovered.cells,
                marks: recovered.marks,
                jobs: Jobs::new(alloc),
                state: recovered.state,
                failed: false,
            }),
            Err(refusal) => Err(OpenFault {
                disk: device,
                refusal,
            }),
        }
    }

    /// The documents that the store holds.
    pub fn state(&self) -> &State
        ensures { result.now ≡ state_of self.now }
    {
        &self.state
    }

    /// Whether a call of the device has failed since the store was opened. Then it has to be opened again.
    pub fn has_failed(&self) -> bool
        ensures { result ≡ has_failed self.now }
    {
        self.failed
    }

    /// The device.
    pub fn device(&self) -> &D
        ensures { result.now ≡ device_of self.now }
    {
        &self.device
    }

    /// The numbers that the store was made with.
    pub fn shape(&self) -> Shape
        ensures shape { result ≡ shape_of self.now }
        ensures in_range { is_in_range result ≡ true }
        ensures limits { (state_of self.now).limits ≡ limits_of result }
    {
        self.shape
    }

    /// How many slots of the journal are open.
    pub fn open_slots(&self) -> u64
        ensures count { result ≡ open_slots self.now }
        ensures bound { result ≤ length (known_numbers (ring_of self.now)) }
    {
        self.ring.open_count()
    }

    /// The number of the newest segment of the journal, 0 where no slot is open.
    pub fn newest_segment(&self) -> u64
        ensures { result ≡ newest_segment self.now }
    {
        self.ring.highest_number()
    }

    /// How many bytes of the journal are in use: of the newest slot those up to the end of its last record, and each other open slot
    /// whole.
    pub fn journal_bytes(&self) -> u64
        ensures { result ≡ journal_bytes self.now }
    {
        self.ring.used()
    }

    /// Gives the device back.
    pub fn close(self) -> D
        ensures { result ≡ device_of self }
    {
        let Store {
            device,
            shape: _,
            ring: _,
            cells: _,
            marks: _,
            jobs: _,
            state: _,
            failed: _,
        } = self;
        device
    }

    /// Writes a batch, and answers with its receipt once it is on the disk: two syncs, and two more where a slot is opened for it.
    /// First comes `JournalFull`, exactly when the batch has more bytes than the newest segment has left and no slot is free. Next
    /// comes `Stranger`, where it doesn't continue the state: for its first command before memory is taken, and for a
    /// later one unless memory runs out before. `NoMemory` comes before any call of the device, and leaves all unchanged. After `Fault`
    /// the store has failed: every later call answers `Fault`, until the device is opened again. The documents change only once
    /// the batch is on the disk, and no refusal changes them.
    ///
    /// The documents that the first of the commands leave may be given: the store takes these over, and makes the others. The receipt
    /// shares the batch, and keeps the moment at which the commit ends.
    pub fn commit(
        &mut self,
        alloc: Global,
        batch: &Batch,
        made: &[Document],
    ) -> Result<Receipt<D>, Refusal>
        requires { MayBeCommitted (state_of self.old) batch.now made.now }

        // What an Ok hands out and leaves. In an open store the cells are those of before, and so are the slots but for the batch, which a
        // slot is opened for exactly when it doesn't fit the newest segment.
        ensures committed { IfOk result (λ receipt. IsCommitted receipt batch.now self.old self.new) }
        // When each refusal comes, and what it leaves.
        ensures refused { IfErr result (λ e. IsCommitRefused e batch.now self.old self.new) }
        ensures must { MustBeRefused result batch.now self.old }
        ensures faults { FailsAtFaults result self.old self.new }

        // A crash at any moment of the call leaves the state before it, or the one with the batch.
        ensures goes { Goes (IsWithOrWithout (state_of self.old) batch.now) self.old self.new }
        // Four calls of the device at most for the record, of these two syncs, and as many for a slot that is opened for it.
        ensures costs { CostsByRoom ⟦<D as Disk>⟧ (fits_newest_segment self.old batch.now) (device_of self.old)
            (device_of self.new) }
    {
        if self.failed {
            return Err(Refusal::Fault);
        }
        if !self.has_room(batch) {
            return Err(Refusal::JournalFull);
        }
        let empty = State::new(alloc, self.state.limits());
        let prepared = match prepare_batch(alloc, replace(&mut self.state, empty), batch, made) {
            Ok(prepared) => prepared,
            Err(unprepared) => {
                self.state = unprepared.state;
                return Err(unprepared.refusal);
            }
        };
        let Ok(shared) = share_batch(&mut self.marks, batch) else {
            self.state = prepared.forget();
            return Err(Refusal::NoMemory);
        };
        match append_batch(alloc, &mut self.ring, &mut self.device, batch) {
            Ok(()) => {
                self.state = prepared.accept();
                self.state.prune(alloc, batch.as_slice());
                mark_batch(&self.ring, &mut self.marks, batch);
                Ok(Receipt::of(shared, &self.state, &self.device))
            }
            Err(refusal) => {
                self.state = prepared.forget();
                self.failed = refusal == Refusal::Fault;
                Err(refusal)
            }
        }
    }

    /// Whether a batch fits a slot in which nothing stands yet, as `commit` wants it.
    pub fn fits(&self, batch: &[Taken]) -> bool
        ensures { IsTrue result ↔ FitsSlot (state_of self.now) batch.now }
    {
        batch_len(batch) <= u64::from(self.state.limits().width()) + 4
    }

    // Whether the batch fits behind what is there.
    pub(crate) fn has_room(&self, batch: &Batch) -> bool
        requires some { 1 ≤ length batch.now }
        requires short { length batch.now < 2 ^ 32 }
        requires fits { FitsSlot (state_of self.now) batch.now }
        ensures room { result ≡ has_room self.now batch.now }
        ensures is_batch { IsBatch batch.now }
    {
        self.ring.has_room(batch_len(batch.as_slice()))
    }
}

// Prepares a batch on the documents of a store.
fn prepare_batch(
    alloc: Global,
    state: State,
    batch: &Batch,
    made: &[Document],
) -> Result<PreparedState, PrepareError>
    requires made { AreMade state batch.now made.now }
    ensures before { IfOk result (λ prepared. prepared.before ≡ state) }
    ensures after { IfOk result (λ prepared. prepared.after ≡ fold state batch.now) }
    ensures grow { OnOk result (all_grow state batch.now ≡ true) }
    ensures unchanged { IfErr result (λ unprepared. unprepared.state ≡ state) }
    ensures stranger { IfErr result (λ unprepared. unprepared.refusal ≡ Refusal.Stranger
        → all_grow state batch.now ≡ false) }
    ensures memory { IfErr result (λ unprepared. unprepared.refusal ≡ Refusal.NoMemory
        → first_grows state batch.now ≡ true) }
    ensures only { IfErr result (λ unprepared. (unprepared.refusal ≡ Refusal.Stranger)
        ⊎ (unprepared.refusal ≡ Refusal.NoMemory)) }
{
    state.prepare(alloc, batch.as_slice(), made)
}

// The batch, shared for the receipt of its commit, and room for its marks. Refused as out of memory alone. The marks stay.
fn share_batch(marks: &mut Marks, batch: &Batch) -> Result<Batch, AllocError>
    ensures shared { IfOk result (λ shared. shared ≡ batch.now) }
    ensures room { OnOk result (length batch.now ≤ room_of marks.new) }
    ensures same { marks_of marks.new ≡ marks_of marks.old }
{
    marks.make_room(batch.as_slice())?;
    let shared = batch.share()?;
    Ok(shared)
}

// Spells the batch into its record, and appends it. `NoMemory` comes before any call of the device.
fn append_batch<D: Disk>(
    alloc: Global,
    ring: &mut Ring,
    disk: &mut D,
    batch: &Batch,
) -> Result<(), Refusal>
    requires { MayBeAppended batch.now (D.seen disk.old) ring.old }

    ensures appended { OnOk result (IsBatchAppended ⟦<D as Disk>⟧ batch.now ring.old ring.new disk.old disk.new) }
    ensures refused { IfErr result
        (λ e. IsAppendRefused ⟦<D as Disk>⟧ e batch.now ring.old ring.new disk.old disk.new) }
    ensures places { SamePlaces ring.old ring.new }

    ensures any_moment { (table : List (Option Segment)) → D.unsynced disk.old ≡ []
        → Fits (D.seen disk.old) ring.old table
        → LeavesOnly ⟦<D as Disk>⟧ (IsLeftByAppend (D.seen disk.old) ring.old table (spelled batch.now)) disk.old
        disk.new }
    ensures costs { CostsByRoom ⟦<D as Disk>⟧ (fits_newest ring.old (batch_width batch.now)) disk.old disk.new }
    ensures only_written { HasOnlyWritten ⟦<D as Disk>⟧ disk.old disk.new }
    ensures faults { CountsFaultsAs ⟦<D as Disk>⟧ Refusal.Fault result disk.old disk.new }
{
    let record = Record::of_batch(alloc, batch.as_slice())?;
    ring.append(disk, &record)
}

// Marks the documents of a batch in the newest segment, which it was appended to. It takes no memory.
fn mark_batch(ring: &Ring, marks: &mut Marks, batch: &Batch)
    requires { length batch.now ≤ room_of marks.old }
    ensures noted { (slot : ℕ) (number : ℕ) → IsNewest (known_numbers ring.now) slot number
        → IsNoted number batch.now (marks_of marks.old) (marks_of marks.new) }
    ensures grows { length (marks_of marks.new) ≤ length (marks_of marks.old) + length batch.now }
{
    if let Some(segment) = ring.newest_number() {
        marks.note(segment, batch.as_slice());
    }
}
