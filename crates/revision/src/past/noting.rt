//! A change is noted: in the past, in the table of sources, and in the document that comes of it.
ghost use Rattle.std.specs.Prelude.{◌≡◌, ◌+◌, ◌≤◌, ◌<◌, ◌^◌, ◌∷◌, ◌++◌, ◌-◌, true, [], length, IfOk, OnOk, OnErr};
ghost use Rattle.delta.specs.Gaps.{counted, apply};
ghost use Rattle.revision.specs.Past.{own_delta, IsBlankFor, suits as spec_suits, units_after, next_by, prepared_content, prepared_units, prepared_revision};
ghost use Rattle.document.specs.Outcome.{IsAccepted};
ghost use Rattle.revision.specs.Command.{IsDeltaOf};
ghost use Rattle.revision.specs.Name.{is_source_name};
ghost use Rattle.revision.specs.Sources.{with_taken};
ghost use Rattle.revision.specs.State.{stands, next_of};

use super::Past;
use super::source_table::SourceTable;
use crate::rule::{Name, Taken, deletes};
use crate::step::Step;
use delta::{Builder, Delta, Op};
use document::Document;
use std::alloc::{AllocError, Global};

// A change as the past and the sources take it.
#[derive(Drop)]
pub(super) struct Change {
    pub(super) source: Name,
    pub(super) number: u64,
    pub(super) revision: u64,
    pub(super) step: Step,
    pub(super) delta: Delta,
}

// A change of this document: that of a command which was taken on it, where a deletion has the delta that deletes all. Refused as out of
// memory alone.
pub(super) fn change_on(
    alloc: Global,
    document: &Document,
    taken: Taken,
) -> Result<Change, AllocError>
    requires blank { IsBlankFor taken.step document.now }
    requires stands { stands taken.step taken.delta document.now ≡ true }
    requires short { length (units_after document.now taken.step taken.delta) ≤ 2 ^ 29 }
    ensures named { IfOk result (λ change. is_source_name change.source ≡ true) }
    ensures next { IfOk result (λ change. next_by change.source change.number change.step change.delta ≡ next_of taken) }
    ensures revision { IfOk result (λ change. change.revision ≡ taken.revision) }
    ensures last { IfOk result (λ change. change.revision < 2 ^ 53) }
    ensures leads { IfOk result (λ change. apply document.now (counted change.delta)
        ≡ units_after document.now change.step change.delta) }
    ensures accepted { IfOk result (λ change. IsAccepted document.now (counted change.delta)) }
    ensures short { IfOk result (λ change. length (apply document.now (counted change.delta)) ≤ 2 ^ 29) }
{
    let (revision, step) = (taken.revision(), taken.step());
    let (source, number, delta) = taken.into_change();
    let delta = kept_delta(alloc, document, step, delta)?;
    Ok(Change {
        source,
        number,
        revision,
        step,
        delta,
    })
}

// The delta that leads from this document to what stands after a step. Refused as out of memory alone.
fn kept_delta(
    alloc: Global,
    document: &Document,
    step: Step,
    delta: Delta,
) -> Result<Delta, AllocError>
    requires blank { IsBlankFor step document.now }
    requires own { IsDeltaOf step delta }
    requires stands { stands step delta document.now ≡ true }
    requires short { length (units_after document.now step delta) ≤ 2 ^ 29 }
    ensures own { IfOk result (λ kept. own_delta step kept ≡ delta) }
    ensures leads { IfOk result (λ kept. apply document.now (counted kept) ≡ units_after document.now step kept) }
    ensures accepted { IfOk result (λ kept. IsAccepted document.now (counted kept)) }
    ensures short { IfOk result (λ kept. length (apply document.now (counted kept)) ≤ 2 ^ 29) }
{
    if deletes(step) {
        return deleting_all(alloc, document);
    }
    Ok(delta)
}

// the delta that deletes all that stands in a document
fn deleting_all(alloc: Global, document: &Document) -> Result<Delta, AllocError>
    ensures accepted { IfOk result (λ made. IsAccepted document.now (counted made)) }
    ensures empty { IfOk result (λ made. apply document.now (counted made) ≡ []) }
{
    let mut made = Builder::new(alloc);
    match made.push(Op::delete(document.len16())) {
        Ok(()) => Ok(made.finish()),
        Err(refusal) => Err(refusal.as_alloc_error()),
    }
}

// the document after a delta that was taken on it
pub(super) fn after_taken(
    alloc: Global,
    document: &Document,
    taken: &Delta,
) -> Result<Document, AllocError>
    requires { IsAccepted document.now (counted taken.now) }
    ensures document { IfOk result (λ after. after ≡ apply document.now (counted taken.now)) }
{
    match document.after(alloc, taken) {
        Ok(after) => Ok(after),
        Err(refusal) => Err(refusal.as_alloc_error()),
    }
}

// Prepares a change in the past, and gives its source. Refused as out of memory alone, and then the past is unchanged. What lies
// below the floor is let go of, as far as memory goes.
fn add_to(alloc: Global, past: &mut Past, change: Change) -> Result<Name, AllocError>
    requires named { is_source_name change.source ≡ true }
    requires suits { spec_suits (prepared_content past.old).live change.step ≡ true }
    requires leads { apply (prepared_units past.old) (counted change.delta)
        ≡ units_after (prepared_units past.old) change.step change.delta }
    requires accepted { IsAccepted (prepared_units past.old) (counted change.delta) }
    requires short { length (apply (prepared_units past.old) (counted change.delta)) ≤ 2 ^ 29 }
    requires revision { prepared_revision past.old + 1 < 2 ^ 53 }
    ensures past { OnOk result (past.new ≡ record past.old { next = past.old.next ++ next_by change.source change.number change.step change.delta ∷ [] }) }
    ensures source { IfOk result (λ source. source ≡ change.source) }
    ensures named { IfOk result (λ source. is_source_name source ≡ true) }
    ensures unchanged { OnErr result (past.new ≡ past.old) }
{
    past.prune(alloc);
    let source = change.source.copy(alloc)?;
    past.prepare(change.source, change.number, change.step, change.delta)?;
    Ok(source)
}

// Prepares a change in the past and in the table of sources, where its source is looked for first at a place. Refused as out of
// memory alone, and then both are unchanged.
pub(super) fn note(
    alloc: Global,
    past: &mut Past,
    sources: &mut SourceTable,
    change: Change,
    place_hint: usize,
) -> Result<(), AllocError>
    requires named { is_source_name change.source ≡ true }
    requires suits { spec_suits (prepared_content past.old).live change.step ≡ true }
    requires leads { apply (prepared_units past.old) (counted change.delta)
        ≡ units_after (prepared_units past.old) change.step change.delta }
    requires accepted { IsAccepted (prepared_units past.old) (counted change.delta) }
    requires short { length (apply (prepared_units past.old) (counted change.delta)) ≤ 2 ^ 29 }
    requires revision { prepared_revision past.old + 1 < 2 ^ 53 }
    ensures past { OnOk result (past.new ≡ record past.old { next = past.old.next ++ next_by change.source change.number change.step change.delta ∷ [] }) }
    ensures sources { OnOk result (sources.new
        ≡ record sources.old {
          prepared = with_taken change.source change.number change.revision sources.old.prepared;
        }) }
    ensures past_unchanged { OnErr result (past.new ≡ past.old) }
    ensures sources_unchanged { OnErr result (sources.new ≡ sources.old) }
{
    let (number, revision) = (change.number, change.revision);
    let source = add_to(alloc, past, change)?;
    let noted = sources.prepare(alloc, &source, number, revision, place_hint);
    if noted.is_err() {
        past.take_back();
    }
    noted
}

// Prepares a change as `note` does, and in the document that comes of all that is prepared: refused, that is unchanged too.
pub(super) fn note_on(
    alloc: Global,
    past: &mut Past,
    sources: &mut SourceTable,
    next: &mut Document,
    change: Change,
    place_hint: usize,
) -> Result<(), AllocError>
    requires next { next.old ≡ prepared_units past.old }
    requires named { is_source_name change.source ≡ true }
    requires suits { spec_suits (prepared_content past.old).live change.step ≡ true }
    requires leads { apply (prepared_units past.old) (counted change.delta)
        ≡ units_after (prepared_units past.old) change.step change.delta }
    requires accepted { IsAccepted (prepared_units past.old) (counted change.delta) }
    requires short { length (apply (prepared_units past.old) (counted change.delta)) ≤ 2 ^ 29 }
    requires revision { prepared_revision past.old + 1 < 2 ^ 53 }
    ensures next { OnOk result (next.new ≡ units_after next.old change.step change.delta) }
    ensures past { OnOk result (past.new ≡ record past.old { next = past.old.next ++ next_by change.source change.number change.step change.delta ∷ [] }) }
    ensures sources { OnOk result (sources.new
        ≡ record sources.old {
          prepared = with_taken change.source change.number change.revision sources.old.prepared;
        }) }
    ensures next_unchanged { OnErr result (next.new ≡ next.old) }
    ensures past_unchanged { OnErr result (past.new ≡ past.old) }
    ensures sources_unchanged { OnErr result (sources.new ≡ sources.old) }
{
    let (number, revision) = (change.number, change.revision);
    let source = add_to(alloc, past, change)?;
    let noted = sources.prepare_with(
        alloc,
        &source,
        number,
        revision,
        place_hint,
        past.prepared_delta(),
        next,
    );
    if noted.is_err() {
        past.take_back();
    }
    noted
}
