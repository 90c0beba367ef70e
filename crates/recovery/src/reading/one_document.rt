//! One document, read from its cell on.
ghost use Rattle.std.specs.Prelude.{◌≡◌, ◌⊎◌, true, false, OnOk, IfOk, IfErr};
ghost use Rattle.revision.specs.State.{State as StateValue};
ghost use Rattle.history.specs.Entries.{above};
ghost use Rattle.history.specs.Cell.{picked};
ghost use Rattle.history.specs.Found.{unread};
ghost use Rattle.history.specs.Reading.{entered, enters};
ghost use Rattle.recovery.specs.steps.Reading.{IsDocumentRead};

use history::Pick;
use milestone::{Milestone, MilestoneParts};
use refusal::Refusal;
use revision::{State, Taken};
use std::alloc::Global;

/// Which one of the milestones of a document's two cells is read.
pub(super) fn pick_one(
    pick: Pick,
    first: Option<Milestone>,
    second: Option<Milestone>,
) -> Option<Milestone>
    ensures { result ≡ picked pick (first, second) }
{
    match (first, second) {
        (None, second) => second,
        (first, None) => first,
        (Some(first), Some(second)) => {
            let is_first_newer = second.revision() < first.revision();
            match pick {
                Pick::Newer if is_first_newer => Some(first),
                Pick::Older if !is_first_newer => Some(first),
                _ => Some(second),
            }
        }
    }
}

/// Adds the document of a number, where it has a cell or an entry: the cell's document, and behind that the entries of higher
/// revisions. `Damaged` comes exactly when the document isn't the next one, or can't be added so, unless memory runs out first.
pub(super) fn read_document(
    alloc: Global,
    state: &mut State,
    number: u32,
    cell: Option<Milestone>,
    entries: Vec<Taken>,
) -> Result<(), Refusal>
    ensures read { OnOk result (IsDocumentRead number cell entries.items state.old state.new) }
    ensures damaged { IfErr result (λ e. e ≡ Refusal.Damaged → (after : StateValue)
        → ¬ IsDocumentRead number cell entries.items state.old after) }
    ensures only { IfErr result (λ e. (e ≡ Refusal.Damaged) ⊎ (e ≡ Refusal.NoMemory)) }
{
    if cell.is_none() && entries.is_empty() {
        return Ok(());
    }
    if state.documents().len() as u64 != u64::from(number) {
        return Err(Refusal::Damaged);
    }
    let unread = enter(alloc, state, cell, entries)?;
    match state.absorb_all_owned(alloc, unread) {
        Err(Refusal::Stranger) => Err(Refusal::Damaged),
        other => other,
    }
}

// Adds the document of a cell, where there is one, and gives the entries that are read behind it.
fn enter(
    alloc: Global,
    state: &mut State,
    cell: Option<Milestone>,
    entries: Vec<Taken>,
) -> Result<Vec<Taken>, Refusal>
    ensures left { IfOk result (λ left. left.items ≡ unread cell entries.items) }
    ensures entered { OnOk result (state.new ≡ entered state.old cell) }
    ensures enters { OnOk result (enters state.old cell ≡ true) }
    ensures damaged { IfErr result (λ e. e ≡ Refusal.Damaged → enters state.old cell ≡ false) }
    ensures only { IfErr result (λ e. (e ≡ Refusal.Damaged) ⊎ (e ≡ Refusal.NoMemory)) }
{
    let Some(milestone) = cell else {
        return Ok(entries);
    };
    let MilestoneParts {
        name,
        revision,
        document,
        live,
        sources,
    } = milestone.into_parts();
    match state.adopt(alloc, name, document, live, revision, sources) {
        Ok(()) => Ok(behind(revision, entries)),
        Err(Refusal::Stranger) => Err(Refusal::Damaged),
        Err(refusal) => Err(refusal),
    }
}

// The entries of revisions above this one.
fn behind(revision: u64, entries: Vec<Taken>) -> Vec<Taken>
    ensures { result.items ≡ above revision entries.items }
{
    let mut entries = entries;
    entries.retain(|taken| taken.revision() > revision);
    entries
}
