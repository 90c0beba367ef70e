//! Whether two states match.
ghost use Rattle.std.specs.Prelude.{◌≡◌, ◌≢◌, ◌↔◌, ◌-◌, ◌^◌, ◌≤◌, true, false, min, Ok, IfOk, IsTrue};
ghost use Rattle.revision.specs.Past.{newest, sources_at as spec_sources_at};
ghost use Rattle.revision.specs.Pending.{record_of};
ghost use Rattle.inspection.specs.Matching.{DocumentsMatch, Match, PastsMatch, changes_in};

use delta::Delta;
use document::Document;
use revision::{DocState, Limits, Name, Sources, State};
use std::alloc::{AllocError, Global};

/// Whether two states match. Refused as out of memory alone.
pub(crate) fn states_match(alloc: Global, one: &State, other: &State) -> Result<bool, AllocError>
    ensures alike { result ≡ Ok true → Match one.now other.now }
    ensures differ { result ≡ Ok false → ¬ (Match one.now other.now) }
{
    let (documents, others) = (one.documents(), other.documents());
    if !same_limits(one.limits(), other.limits()) {
        return Ok(false);
    }
    if documents.len() != others.len() {
        return Ok(false);
    }
    for number in 0..documents.len() {
        if !documents_match(alloc, &documents[number], &others[number])? {
            return Ok(false);
        }
    }
    Ok(true)
}

/// How many changes the documents of a state hold, above their floors; 2^64 - 1 where it is more.
pub fn changes_in(state: &State) -> u64
    ensures { result ≡ min (changes_in state.now.documents) (2 ^ 64 - 1) }
{
    let mut count = 0u64;
    for document in state.documents() {
        let held = document.revision().saturating_sub(document.floor());
        count = count.saturating_add(held);
    }
    count
}

fn documents_match(alloc: Global, one: &DocState, other: &DocState) -> Result<bool, AllocError>
    ensures alike { result ≡ Ok true → DocumentsMatch (record_of one.now) (record_of other.now) }
    ensures differ { result ≡ Ok false → ¬ (DocumentsMatch (record_of one.now) (record_of other.now)) }
{
    if !same_name(one.name(), other.name()) || one.revision() != other.revision() {
        return Ok(false);
    }
    if one.is_live() != other.is_live() || !same_sources(one.sources(), other.sources()) {
        return Ok(false);
    }
    if !same_units(alloc, one.document(), other.document())? {
        return Ok(false);
    }
    pasts_match(alloc, one, other, one.floor().max(other.floor()))
}

// Whether the pasts of two documents match from a revision on that both hold.
fn pasts_match(
    alloc: Global,
    one: &DocState,
    other: &DocState,
    floor: u64,
) -> Result<bool, AllocError>
    requires held { one.now.past.past.floor ≤ floor }
    requires there { floor ≤ newest one.now.past.past }
    requires held_too { other.now.past.past.floor ≤ floor }
    requires there_too { floor ≤ newest other.now.past.past }
    ensures alike { result ≡ Ok true → PastsMatch floor one.now.past.past other.now.past.past }
    ensures differ { result ≡ Ok false → ¬ (PastsMatch floor one.now.past.past other.now.past.past) }
{
    if !same_deltas(one.since(floor), other.since(floor)) {
        return Ok(false);
    }
    let one_units = one.document_at(alloc, floor)?;
    let other_units = other.document_at(alloc, floor)?;
    if !same_units(alloc, &one_units, &other_units)? {
        return Ok(false);
    }
    let one_sources = sources_at(alloc, one, floor)?;
    let other_sources = sources_at(alloc, other, floor)?;
    Ok(same_sources(&one_sources, &other_sources))
}

// The sources of a document at a revision that it holds.
fn sources_at(alloc: Global, document: &DocState, revision: u64) -> Result<Sources, AllocError>
    requires held { document.now.past.past.floor ≤ revision }
    requires there { revision ≤ newest document.now.past.past }
    ensures sources { IfOk result (λ sources. sources ≡ spec_sources_at document.now.past.past revision) }
{
    let replay = document.replay_to(alloc, revision)?;
    Ok(replay.sources)
}

// Whether the same stands in two documents.
fn same_units(alloc: Global, one: &Document, other: &Document) -> Result<bool, AllocError>
    ensures same { result ≡ Ok true → one.now ≡ other.now }
    ensures differ { result ≡ Ok false → one.now ≢ other.now }
{
    let one = one.as_delta(alloc)?;
    let other = other.as_delta(alloc)?;
    Ok(same_delta(&one, &other))
}

// whether the limits are equal
fn same_limits(one: Limits, other: Limits) -> bool
    ensures { IsTrue result ↔ (one ≡ other) }
{
    one.docs() == other.docs()
        && one.sources() == other.sources()
        && one.weight() == other.weight()
        && one.width() == other.width()
        && one.keep() == other.keep()
        && one.retry() == other.retry()
}

// whether two names are equal
fn same_name(one: &Name, other: &Name) -> bool
    ensures { IsTrue result ↔ (one.now ≡ other.now) }
{
    one == other
}

// whether two have the same sources with the same windows
fn same_sources(one: &Sources, other: &Sources) -> bool
    ensures { IsTrue result ↔ (one.now ≡ other.now) }
{
    one == other
}

// whether two deltas are equal
fn same_delta(one: &Delta, other: &Delta) -> bool
    ensures { IsTrue result ↔ (one.now ≡ other.now) }
{
    one == other
}

// whether they are the same deltas in the same order
fn same_deltas(one: &[Delta], other: &[Delta]) -> bool
    ensures { IsTrue result ↔ (one.now ≡ other.now) }
{
    one == other
}
