//! The documents of a device, read one after the other in order of their numbers.
ghost use Rattle.std.specs.Prelude.{◌≡◌, ◌≤◌, ◌<◌, ◌+◌, ◌*◌, true, List, ℕ, length, OnOk, IfOk, IfErr, [], ◌∷◌};
ghost use Rattle.refusal.specs.Refusal.{IsOneOf};
ghost use Rattle.disk.specs.Calls.{HasOnlyRead, CountsFaultsAs};
ghost use Rattle.revision.specs.Command.{Taken as TakenValue};
ghost use Rattle.revision.specs.State.{State as StateValue};
ghost use Rattle.history.specs.Cell.{Pair, picked};
ghost use Rattle.history.specs.Found.{StandFor};
ghost use Rattle.milestone.specs.OneCell.{HoldsPairIn};
ghost use Rattle.milestone.specs.Cells.{FitsIn};
ghost use Rattle.milestone.specs.ReadCells.{pair_of};
ghost use Rattle.recovery.specs.Shape.{is_in_range, layout_length, cells_place};
ghost use Rattle.recovery.specs.Layout.{HoldsCellsIn};
ghost use Rattle.recovery.specs.Cells.{IsCellsOf, AreCellsOf};
ghost use Rattle.recovery.specs.Found.{limits_in};
ghost use Rattle.recovery.specs.steps.Reading.{lists_of, AreByDocument, IsDocumentRead, IsNext, AreDocumentsRead};

use crate::reading::one_document::{pick_one, read_document};
use crate::shape::Shape;
use crate::superblock::SUPERBLOCK_LEN;
use disk::Disk;
use history::Pick;
use milestone::{Cells, Format, ReadCells};
use refusal::Refusal;
use revision::{State, Taken};
use std::alloc::Global;

/// What was read of the documents: the state that they make, and the cells of each number.
#[derive(Drop)]
pub(super) struct ReadDocuments {
    pub(super) state: State,
    pub(super) cells: Vec<Cells>,
}

/// Reads the cells of each document number, and from the one that is picked on the number's entries. `Damaged` comes exactly when
/// the cells hold no pairs, or these and the entries represent no state.
pub(super) fn read_documents<D: Disk>(
    alloc: Global,
    disk: &mut D,
    format: Format,
    shape: &Shape,
    pick: Pick,
    entries: Vec<Vec<Taken>>,
) -> Result<ReadDocuments, Refusal>
    requires in_range { is_in_range shape.now ≡ true }
    requires within { layout_length shape.now ≤ length (D.seen disk.old) }
    requires count { length entries.items ≡ shape.now.docs }

    ensures found { IfOk result (λ read. D.honest disk.new → (all : List TakenValue)
        → AreByDocument all (lists_of entries.items)
        → AreDocumentsRead format (D.seen disk.old) shape.now pick all read.cells.items read.state) }
    ensures cells { IfOk result (λ read. AreCellsOf shape.now read.cells.items) }
    ensures limits { IfOk result (λ read. read.state.limits ≡ limits_in format shape.now) }
    ensures damaged { IfErr result (λ e. e ≡ Refusal.Damaged → D.honest disk.new
        → (pairs : List Pair) → HoldsCellsIn format (D.seen disk.old) shape.now pairs
        → (all : List TakenValue) → AreByDocument all (lists_of entries.items)
        → (found : StateValue) → ¬ StandFor (limits_in format shape.now) pairs all pick found) }
    ensures only { IfErr result (λ e. IsOneOf e (Refusal.Damaged ∷ Refusal.NoMemory ∷ Refusal.Fault ∷ [])) }
    ensures only_read { HasOnlyRead ⟦<D as Disk>⟧ disk.old disk.new }
    ensures faults { CountsFaultsAs ⟦<D as Disk>⟧ Refusal.Fault result disk.old disk.new }
{
    let mut read = ReadDocuments {
        state: State::new(alloc, shape.limits_in(format)),
        cells: Vec::new(alloc),
    };
    for own in entries {
        read.read_next(alloc, disk, format, shape, pick, own)?;
    }
    Ok(read)
}

impl ReadDocuments {
    // Reads the cells of the next number, and the document from the one that is picked on.
    fn read_next<D: Disk>(
        &mut self,
        alloc: Global,
        disk: &mut D,
        format: Format,
        shape: &Shape,
        pick: Pick,
        entries: Vec<Taken>,
    ) -> Result<(), Refusal>
        requires in_range { is_in_range shape.now ≡ true }
        requires within { layout_length shape.now ≤ length (D.seen disk.old) }
        requires number { length self.old.cells.items < shape.now.docs }

        ensures next { OnOk result (IsNext format (D.honest disk.new) (D.seen disk.old) shape.now pick entries.items
            self.old.cells.items self.old.state self.new.cells.items self.new.state) }
        ensures damaged { IfErr result (λ e. e ≡ Refusal.Damaged → D.honest disk.new → (pair : Pair)
            → HoldsPairIn format (cells_place shape.now (length self.old.cells.items)) shape.now.cell
            (length self.old.cells.items) (D.seen disk.old) pair
            → (after : StateValue)
            → ¬ IsDocumentRead (length self.old.cells.items) (picked pick pair) entries.items self.old.state after) }
        ensures only { IfErr result (λ e. IsOneOf e (Refusal.Damaged ∷ Refusal.NoMemory ∷ Refusal.Fault ∷ [])) }
        ensures only_read { HasOnlyRead ⟦<D as Disk>⟧ disk.old disk.new }
        ensures faults { CountsFaultsAs ⟦<D as Disk>⟧ Refusal.Fault result disk.old disk.new }
    {
        let number = self.cells.len() as u32;
        let ReadCells {
            cells,
            first,
            second,
        } = read_cells(alloc, disk, format, shape, number)?;
        read_document(
            alloc,
            &mut self.state,
            number,
            pick_one(pick, first, second),
            entries,
        )?;
        self.cells.push(cells)?;
        Ok(())
    }
}

// What the two cells of the document of a number hold.
fn read_cells<D: Disk>(
    alloc: Global,
    disk: &mut D,
    format: Format,
    shape: &Shape,
    number: u32,
) -> Result<ReadCells, Refusal>
    requires in_range { is_in_range shape.now ≡ true }
    requires within { layout_length shape.now ≤ length (D.seen disk.old) }
    requires number { number < shape.now.docs }
    ensures found { IfOk result (λ read. D.honest disk.new → FitsIn format (D.seen disk.old) read.cells (pair_of read)) }
    ensures cells { IfOk result (λ read. IsCellsOf shape.now number read.cells) }
    ensures damaged { IfErr result (λ e. e ≡ Refusal.Damaged → D.honest disk.new
        → (pair : Pair) → ¬ HoldsPairIn format (cells_place shape.now number) shape.now.cell number (D.seen disk.old) pair) }
    ensures only { IfErr result (λ e. IsOneOf e (Refusal.Damaged ∷ Refusal.NoMemory ∷ Refusal.Fault ∷ [])) }
    ensures only_read { HasOnlyRead ⟦<D as Disk>⟧ disk.old disk.new }
    ensures faults { CountsFaultsAs ⟦<D as Disk>⟧ Refusal.Fault result disk.old disk.new }
{
    let size = u64::from(shape.cell);
    let place = SUPERBLOCK_LEN + u64::from(number) * (2 * size);
    Cells::read_both(alloc, disk, format, place, size, number)
}
