//! Reading the content of a device: the superblock, the batches of the slots, and from its cells on each document.
ghost use Rattle.std.specs.Prelude.{◌≡◌, ◌↔◌, ◌+◌, ◌≤◌, true, List, Option, [], length, IsTrue, OnOk, IfOk, IfErr, ◌∷◌};
ghost use Rattle.refusal.specs.Refusal.{IsOneOf};
ghost use Rattle.disk.specs.Device.{IsSync, IsAtMostOneStep};
ghost use Rattle.disk.specs.Calls.{HasOnlyRead, CountsFaults, CountsFaultsAs};
ghost use Rattle.disk.specs.Crash.{history_of};
ghost use Rattle.revision.specs.State.{State as StateValue};
ghost use Rattle.recovery.specs.declared.shape.Shape.{Shape as ShapeValue};
ghost use Rattle.segments.specs.Slot.{Segment};
ghost use Rattle.segments.specs.Recovered.{IsReadAs as IsRingReadAs};
ghost use Rattle.segments.specs.Ring.{end_of};
ghost use Rattle.recovery.specs.Shape.{is_in_range, layout_length};
ghost use Rattle.recovery.specs.Layout.{IsFormatted, IsOfFormat, NamesIn, HoldsSlots};
ghost use Rattle.history.specs.declared.pick.Pick.TheVariants.{Newer};
ghost use Rattle.milestone.specs.declared.format.Format.TheVariants.{One, Two};
ghost use Rattle.recovery.specs.Formatting.{IsOnlySynced};
ghost use Rattle.recovery.specs.Found.{FoundIn, limits_in};
ghost use Rattle.recovery.specs.steps.Reading.{IsRingOf, IsReadAs};
ghost use Rattle.recovery.specs.steps.Readings.{IsOfItsShape, IsUnreadIn, IsUnread};

mod documents;
mod entries;
mod gates;
mod one_document;

use crate::marks::Marks;
use crate::shape::Shape;
use crate::superblock::{BODY_LEN, LETTERS_LEN, SUPERBLOCK_LEN, has_letters, read_superblock};
use disk::Disk;
use documents::{ReadDocuments, read_documents};
use entries::{Gathered, are_entries_in, gather};
use gates::{is_open, read_at};
use history::Pick;
use milestone::{Cells, Format};
use refusal::Refusal;
use revision::State;
use segments::{RecoveredRing, Ring};
use std::alloc::Global;

/// What was read of a device: its shape, the ring of its slots, the cells of each document number in order, the marks of its
/// segments, and the state that it represents.
#[derive(Drop)]
pub struct RecoveredStore {
    pub shape: Shape,
    pub ring: Ring,
    pub cells: Vec<Cells>,
    pub marks: Marks,
    pub state: State,
}

/// Reads a device after a sync of it, by the newer or the older cell of each document, and writes nothing. `NotFormatted` comes
/// where the superblock's gate is closed or the device has less than 64 bytes, `OldFormat` where it has the first format, and `Damaged`
/// where it is formatted otherwise and its content represents no state by this pick.
pub fn read_store<D: Disk>(
    alloc: Global,
    disk: &mut D,
    pick: Pick,
) -> Result<RecoveredStore, Refusal>
    ensures read { IfOk result (λ recovered. D.honest disk.new → IsReadAs Two (D.seen disk.old) pick recovered) }
    ensures shaped { IfOk result (λ recovered. IsOfItsShape Two (length (D.seen disk.old)) recovered) }
    ensures refused { IsUnread (D.honest disk.new) (D.seen disk.old) pick result }

    // The sync alone moves the device on.
    ensures seen { D.seen disk.new ≡ D.seen disk.old }
    ensures synced { OnOk result (D.unsynced disk.new ≡ []) }
    ensures time { IsAtMostOneStep IsSync (history_of ⟦<D as Disk>⟧ disk.old) (history_of ⟦<D as Disk>⟧ disk.new) }
    ensures honest { D.honest disk.new → D.honest disk.old }
    ensures faults { CountsFaultsAs ⟦<D as Disk>⟧ Refusal.Fault result disk.old disk.new }
{
    if is_synced_as(disk, Format::One)? {
        return Err(Refusal::OldFormat);
    }
    read_content(alloc, disk, Format::Two, pick)
}

/// What was read of a device of the first format.
#[derive(Drop)]
pub struct OldStore {
    /// The numbers that the store was made with.
    pub shape: Shape,
    /// The documents that it represents, within the limits of the first format.
    pub state: State,
}

/// Reads a device of the first format after a sync of it, by the newer cell of each document, and writes nothing. `NotFormatted` comes
/// exactly where the superblock's gate is closed or the device has less than 64 bytes, `NotOld` exactly where it has the second format,
/// and `Damaged` exactly where it is formatted otherwise and its content represents no state.
pub fn read_old<D: Disk>(alloc: Global, disk: &mut D) -> Result<OldStore, Refusal>
    ensures found { IfOk result (λ old. D.honest disk.new → FoundIn One (D.seen disk.old) Newer old.state) }
    ensures only_state { IfOk result (λ old. D.honest disk.new → (state : StateValue)
        → FoundIn One (D.seen disk.old) Newer state → state ≡ old.state) }
    ensures only_shape { IfOk result (λ old. D.honest disk.new → (state : StateValue)
        → (is : FoundIn One (D.seen disk.old) Newer state) → is.shape ≡ old.shape) }
    ensures limits { IfOk result (λ old. old.state.limits ≡ limits_in One old.shape) }
    ensures in_range { IfOk result (λ old. is_in_range old.shape ≡ true) }

    ensures not_formatted { IfErr result (λ e. e ≡ Refusal.NotFormatted → D.honest disk.new
        → ¬ IsFormatted (D.seen disk.old)) }
    ensures not_old { IfErr result (λ e. e ≡ Refusal.NotOld → D.honest disk.new → IsOfFormat Two (D.seen disk.old)) }
    ensures damaged { IfErr result (λ e. e ≡ Refusal.Damaged → D.honest disk.new → IsFormatted (D.seen disk.old)
        × ¬ IsOfFormat Two (D.seen disk.old)
        × ((found : StateValue) → ¬ FoundIn One (D.seen disk.old) Newer found)) }
    ensures only { IfErr result (λ e. IsOneOf e (Refusal.NotFormatted ∷ Refusal.NotOld ∷ Refusal.Damaged ∷ Refusal.NoMemory ∷ Refusal.Fault ∷ [])) }

    // The sync alone moves the device on.
    ensures only_synced { IsOnlySynced (history_of ⟦<D as Disk>⟧ disk.old) (history_of ⟦<D as Disk>⟧ disk.new) }
    ensures synced { OnOk result (D.unsynced disk.new ≡ []) }
    ensures honest { D.honest disk.new → D.honest disk.old }
    ensures faults { CountsFaultsAs ⟦<D as Disk>⟧ Refusal.Fault result disk.old disk.new }
{
    if is_synced_as(disk, Format::Two)? {
        return Err(Refusal::NotOld);
    }
    let RecoveredStore {
        shape,
        ring: _,
        cells: _,
        marks: _,
        state,
    } = read_content(alloc, disk, Format::One, Pick::Newer)?;
    Ok(OldStore { shape, state })
}

// Reads what stands on a device of a format. No call of it moves the device on.
fn read_content<D: Disk>(
    alloc: Global,
    disk: &mut D,
    format: Format,
    pick: Pick,
) -> Result<RecoveredStore, Refusal>
    ensures read { IfOk result (λ recovered. D.honest disk.new → IsReadAs format (D.seen disk.old) pick recovered) }
    ensures shaped { IfOk result (λ recovered. IsOfItsShape format (length (D.seen disk.old)) recovered) }
    ensures refused { IsUnreadIn format (D.honest disk.new) (D.seen disk.old) pick result }
    ensures only_read { HasOnlyRead ⟦<D as Disk>⟧ disk.old disk.new }
    ensures faults { CountsFaultsAs ⟦<D as Disk>⟧ Refusal.Fault result disk.old disk.new }
{
    let shape = read_shape(disk, format)?;
    let RecoveredRing { ring, segments } = read_slots(alloc, disk, &shape)?;
    let Gathered { lists, marks } = gather(alloc, shape.docs, &segments)?;
    if !are_entries_in(format, lists.as_slice()) {
        return Err(Refusal::Damaged);
    }
    let ReadDocuments { state, cells } = read_documents(alloc, disk, format, &shape, pick, lists)?;
    Ok(RecoveredStore {
        shape,
        ring,
        cells,
        marks,
        state,
    })
}

// The ring of the slots, and the segments that they hold.
fn read_slots<D: Disk>(alloc: Global, disk: &mut D, shape: &Shape) -> Result<RecoveredRing, Refusal>
    requires in_range { is_in_range shape.now ≡ true }
    requires within { layout_length shape.now ≤ length (D.seen disk.old) }
    ensures found { IfOk result (λ read. D.honest disk.new → IsRingReadAs (D.seen disk.old) read) }
    ensures place { IfOk result (λ read. IsRingOf shape.now read.ring) }
    ensures within { IfOk result (λ read. end_of read.ring ≤ length (D.seen disk.old)) }
    ensures damaged { IfErr result (λ e. e ≡ Refusal.Damaged → D.honest disk.new
        → (table : List (Option Segment)) → ¬ HoldsSlots (D.seen disk.old) shape.now table) }
    ensures only { IfErr result (λ e. IsOneOf e (Refusal.Damaged ∷ Refusal.NoMemory ∷ Refusal.Fault ∷ [])) }
    ensures only_read { HasOnlyRead ⟦<D as Disk>⟧ disk.old disk.new }
    ensures faults { CountsFaultsAs ⟦<D as Disk>⟧ Refusal.Fault result disk.old disk.new }
{
    let at = SUPERBLOCK_LEN + 2 * u64::from(shape.docs) * u64::from(shape.cell);
    let size = u64::from(shape.slot);
    Ring::read(alloc, disk, at, size, u64::from(shape.slots))
}

// The shape that the superblock names in a format.
fn read_shape<D: Disk>(disk: &mut D, format: Format) -> Result<Shape, Refusal>
    ensures named { IfOk result (λ shape. D.honest disk.new → NamesIn format (D.seen disk.old) shape) }
    ensures in_range { IfOk result (λ shape. is_in_range shape ≡ true) }
    ensures within { IfOk result (λ shape. layout_length shape ≤ length (D.seen disk.old)) }
    ensures not_formatted { IfErr result (λ e. e ≡ Refusal.NotFormatted → D.honest disk.new
        → ¬ IsFormatted (D.seen disk.old)) }
    ensures formatted { IfErr result (λ e. e ≡ Refusal.Damaged → D.honest disk.new → IsFormatted (D.seen disk.old)) }
    ensures damaged { IfErr result (λ e. e ≡ Refusal.Damaged → D.honest disk.new → (shape : ShapeValue)
        → ¬ NamesIn format (D.seen disk.old) shape) }
    ensures only { IfErr result (λ e. IsOneOf e (Refusal.NotFormatted ∷ Refusal.Damaged ∷ Refusal.Fault ∷ [])) }
    ensures only_read { HasOnlyRead ⟦<D as Disk>⟧ disk.old disk.new }
    ensures faults { CountsFaultsAs ⟦<D as Disk>⟧ Refusal.Fault result disk.old disk.new }
{
    if !is_formatted(disk)? {
        return Err(Refusal::NotFormatted);
    }
    let mut body = [0u8; BODY_LEN];
    read_at(disk, 1, &mut body)?;
    let Some(shape) = read_superblock(format, &body) else {
        return Err(Refusal::Damaged);
    };
    if disk.len() < shape.device_len() {
        return Err(Refusal::Damaged);
    }
    Ok(shape)
}

// Whether the device has a superblock, and its gate is open.
fn is_formatted<D: Disk>(disk: &mut D) -> Result<bool, Refusal>
    ensures formatted { IfOk result (λ b. D.honest disk.new → (IsTrue b ↔ IsFormatted (D.seen disk.old))) }
    ensures long { IfOk result (λ b. IsTrue b → 64 ≤ length (D.seen disk.old)) }
    ensures only { IfErr result (λ e. e ≡ Refusal.Fault) }
    ensures only_read { HasOnlyRead ⟦<D as Disk>⟧ disk.old disk.new }
    ensures faults { CountsFaults ⟦<D as Disk>⟧ result disk.old disk.new }
{
    if disk.len() < SUPERBLOCK_LEN {
        return Ok(false);
    }
    is_open(disk, 0)
}

// Whether the superblock's gate is open, and the letters behind it are those of a format.
fn is_of_format<D: Disk>(disk: &mut D, format: Format) -> Result<bool, Refusal>
    ensures letters { IfOk result (λ b. D.honest disk.new → (IsTrue b ↔ IsOfFormat format (D.seen disk.old))) }
    ensures only { IfErr result (λ e. e ≡ Refusal.Fault) }
    ensures only_read { HasOnlyRead ⟦<D as Disk>⟧ disk.old disk.new }
    ensures faults { CountsFaults ⟦<D as Disk>⟧ result disk.old disk.new }
{
    if !is_formatted(disk)? {
        return Ok(false);
    }
    let mut letters = [0u8; LETTERS_LEN];
    read_at(disk, 1, &mut letters)?;
    Ok(has_letters(format, &letters))
}

// The same after a sync, which alone moves the device on.
fn is_synced_as<D: Disk>(disk: &mut D, format: Format) -> Result<bool, Refusal>
    ensures letters { IfOk result (λ b. D.honest disk.new → (IsTrue b ↔ IsOfFormat format (D.seen disk.old))) }
    ensures seen { D.seen disk.new ≡ D.seen disk.old }
    ensures synced { OnOk result (D.unsynced disk.new ≡ []) }
    ensures time { IsAtMostOneStep IsSync (history_of ⟦<D as Disk>⟧ disk.old) (history_of ⟦<D as Disk>⟧ disk.new) }
    ensures only { IfErr result (λ e. e ≡ Refusal.Fault) }
    ensures honest { D.honest disk.new → D.honest disk.old }
    ensures faults { CountsFaultsAs ⟦<D as Disk>⟧ Refusal.Fault result disk.old disk.new }
{
    disk.sync()?;
    is_of_format(disk, format)
}
