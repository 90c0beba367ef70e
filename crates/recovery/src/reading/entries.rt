//! The entries of the slots, gathered by their documents, and marked by their segments.
ghost use Rattle.std.specs.Prelude.{◌≡◌, ◌↔◌, ◌⊎◌, ◌≤◌, ◌<◌, List, Option, [], ◌∷◌, ◌++◌, length, map, set, get_or, false, true, IsTrue, OnOk, IfOk, IfErr};
ghost use Rattle.revision.specs.Command.{Taken as TakenValue, edits as spec_edits};
ghost use Rattle.journal.specs.Scan.{items_of};
ghost use Rattle.segments.specs.Slot.{Segment};
ghost use Rattle.segments.specs.Numbers.{NumbersDiffer};
ghost use Rattle.segments.specs.Table.{numbers_of};
ghost use Rattle.segments.specs.Order.{segments_of};
ghost use Rattle.segments.specs.Recovered.{segment_in};
ghost use Rattle.recovery.specs.Found.{SpellBatches, AreEntriesIn, commands_of};
ghost use Rattle.recovery.specs.Marks.{IsNoted, marks_of};
ghost use Rattle.recovery.specs.Marked.{AreMarked, AreBodiesMarked};
ghost use Rattle.recovery.specs.steps.Reading.{lists_of, are_below, all_edit as spec_all_edit, all_lists_edit, AreByDocument, SpellGroups, commands_in, AreAdded};

use crate::marks::Marks;
use journal::decode_batch;
use milestone::Format;
use refusal::Refusal;
use revision::{Step, Taken};
use segments::RecoveredSegment;
use std::alloc::{AllocError, Global};

/// What was gathered: the commands of each document number in order, and the marks of the segments.
#[derive(Drop)]
pub(super) struct Gathered {
    pub(super) lists: Vec<Vec<Taken>>,
    pub(super) marks: Marks,
}

/// The commands that the bodies of all segments spell, one list for each document number below `docs`, and the marks of the
/// segments. Each body is read once. `Damaged` comes exactly when a body spells no batch, or a command is of another number.
pub(super) fn gather(
    alloc: Global,
    docs: u32,
    segments: &[RecoveredSegment],
) -> Result<Gathered, Refusal>
    ensures found { IfOk result (λ gathered. (groups : List (List (List TakenValue)))
        × SpellGroups (map segment_in segments.now) groups
        × AreByDocument (commands_in groups) (lists_of gathered.lists.items)) }
    ensures count { IfOk result (λ gathered. length gathered.lists.items ≡ docs) }
    ensures marked { IfOk result (λ gathered. (table : List (Option Segment)) → NumbersDiffer (numbers_of table)
        → map segment_in segments.now ≡ segments_of table → AreMarked table (marks_of gathered.marks)) }
    ensures damaged { IfErr result (λ e. e ≡ Refusal.Damaged → (groups : List (List (List TakenValue)))
        → SpellGroups (map segment_in segments.now) groups
        → are_below docs (commands_in groups) ≡ false) }
    ensures only { IfErr result (λ e. (e ≡ Refusal.Damaged) ⊎ (e ≡ Refusal.NoMemory)) }
{
    let mut lists = empty_lists(alloc, docs)?;
    let mut marks = Marks::new(alloc);
    for segment in segments {
        add_bodies(
            alloc,
            &mut lists,
            &mut marks,
            segment.number,
            &segment.bodies,
        )?;
    }
    Ok(Gathered { lists, marks })
}

/// Whether a format has all these entries: the first one has neither deletions nor creations of deleted documents.
pub(super) fn are_entries_in(format: Format, lists: &[Vec<Taken>]) -> bool
    ensures { (entries : List TakenValue) → AreByDocument entries (lists_of lists.now)
        → (IsTrue result ↔ AreEntriesIn format entries) }
{
    match format {
        Format::One => lists_edit(lists),
        Format::Two => true,
    }
}

fn lists_edit(lists: &[Vec<Taken>]) -> bool
    ensures { result ≡ all_lists_edit lists.now }
{
    for list in lists {
        if !all_edit(list) {
            return false;
        }
    }
    true
}

fn all_edit(entries: &[Taken]) -> bool
    ensures { result ≡ spec_all_edit entries.now }
{
    for taken in entries {
        if !edits(taken.step()) {
            return false;
        }
    }
    true
}

fn edits(step: Step) -> bool
    ensures { result ≡ spec_edits step }
{
    match step {
        Step::Edits => true,
        Step::Deletes => false,
        Step::Revives => false,
    }
}

// So many lists without a command.
fn empty_lists(alloc: Global, count: u32) -> Result<Vec<Vec<Taken>>, AllocError>
    ensures empty { IfOk result (λ lists. AreByDocument [] (lists_of lists.items)) }
    ensures count { IfOk result (λ lists. length lists.items ≡ count) }
{
    let mut lists = Vec::new(alloc);
    for _ in 0..count {
        lists.push(Vec::new(alloc))?;
    }
    Ok(lists)
}

// Adds the commands that the bodies of a segment spell, and marks them.
fn add_bodies(
    alloc: Global,
    lists: &mut [Vec<Taken>],
    marks: &mut Marks,
    number: u64,
    bodies: &[Vec<u8>],
) -> Result<(), Refusal>
    ensures added { OnOk result ((batches : List (List TakenValue)) × SpellBatches (items_of bodies.now) batches
        × AreAdded (commands_of batches) (lists_of lists.old) (lists_of lists.new)) }
    ensures marked { OnOk result
        (AreBodiesMarked number (items_of bodies.now) (marks_of marks.old) (marks_of marks.new)) }
    ensures damaged { IfErr result (λ e. e ≡ Refusal.Damaged → (batches : List (List TakenValue))
        → SpellBatches (items_of bodies.now) batches
        → are_below (length lists.old) (commands_of batches) ≡ false) }
    ensures only { IfErr result (λ e. (e ≡ Refusal.Damaged) ⊎ (e ≡ Refusal.NoMemory)) }
{
    for body in bodies {
        let Some(batch) = decode_batch(alloc, body)? else {
            return Err(Refusal::Damaged);
        };
        mark_batch(marks, number, &batch)?;
        add_batch(lists, batch)?;
    }
    Ok(())
}

// Marks the commands of a batch that a segment holds. Refused as out of memory alone.
fn mark_batch(marks: &mut Marks, number: u64, batch: &[Taken]) -> Result<(), AllocError>
    ensures noted { OnOk result (IsNoted number batch.now (marks_of marks.old) (marks_of marks.new)) }
{
    marks.make_room(batch)?;
    marks.note(number, batch);
    Ok(())
}

// Adds the commands of a batch.
fn add_batch(lists: &mut [Vec<Taken>], batch: Vec<Taken>) -> Result<(), Refusal>
    ensures added { OnOk result (AreAdded batch.items (lists_of lists.old) (lists_of lists.new)) }
    ensures damaged { IfErr result (λ e. e ≡ Refusal.Damaged → are_below (length lists.old) batch.items ≡ false) }
    ensures only { IfErr result (λ e. (e ≡ Refusal.Damaged) ⊎ (e ≡ Refusal.NoMemory)) }
{
    for taken in batch {
        add_one(lists, taken)?;
    }
    Ok(())
}

// Adds a command to the list of its document.
fn add_one(lists: &mut [Vec<Taken>], taken: Taken) -> Result<(), Refusal>
    ensures added { OnOk result (lists_of lists.new
        ≡ set (lists_of lists.old) taken.document (get_or (lists_of lists.old) taken.document [] ++ taken ∷ [])) }
    ensures below { OnOk result (taken.document < length lists.old) }
    ensures damaged { IfErr result (λ e. e ≡ Refusal.Damaged → length lists.old ≤ taken.document) }
    ensures only { IfErr result (λ e. (e ≡ Refusal.Damaged) ⊎ (e ≡ Refusal.NoMemory)) }
{
    let number = taken.document_number() as usize;
    if number >= lists.len() {
        return Err(Refusal::Damaged);
    }
    lists[number].push(taken)?;
    Ok(())
}
