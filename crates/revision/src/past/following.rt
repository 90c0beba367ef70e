//! Whether a change follows what is there.
ghost use Rattle.std.specs.Prelude.{◌≡◌, ◌&&◌, ◌+◌, ◌<◌, ◌^◌, ◌-◌, min, true, false, is_some, IfOk, OnOk, OnErr};
ghost use Rattle.revision.specs.Past.{IsBlankFor, suits as spec_suits, units_after};
ghost use Rattle.document.specs.Weight.{weight_of};
ghost use Rattle.revision.specs.Invariants.{IsLimits};
ghost use Rattle.attributes.specs.Map.{get};
ghost use Rattle.revision.specs.State.{begins as spec_begins, comes_next as spec_comes_next, keeps as spec_keeps, stays_light as spec_stays_light, stands};

use super::sources::{Sources, window_in};
use crate::rule::{Limits, Taken, Window, deletes, edits};
use crate::step::Step;
use document::Document;
use refusal::Refusal;
use std::alloc::Global;

/// The last revision, and the last number.
const LAST: u64 = (1 << 53) - 1;

/// Whether a creation begins a document. It takes no memory.
pub(crate) fn begins(alloc: Global, limits: Limits, taken: &Taken) -> bool
    requires { IsLimits limits }
    ensures { result ≡ spec_begins limits taken.now }
{
    if !edits(taken.step()) {
        return false;
    }
    let sources = Sources::new(alloc);
    let document = Document::empty(alloc);
    follows_at(limits, 0, &document, &sources, taken).is_some()
}

// whether a document of this mark is changed so
pub(super) fn suits(live: bool, step: Step) -> bool
    ensures { result ≡ spec_suits live step }
{
    match step {
        Step::Edits => live,
        Step::Deletes => live,
        Step::Revives => !live,
    }
}

// Where a change's source stands or would stand, if the change follows a revision with this document and these sources. The source is
// looked for at the place where it was planned, and searched for only where it isn't there.
pub(super) fn follows_at(
    limits: Limits,
    revision: u64,
    document: &Document,
    sources: &Sources,
    taken: &Taken,
) -> Option<usize>
    requires revision { revision < 2 ^ 53 }
    requires blank { IsBlankFor taken.now.step document.now }
    ensures { is_some result
        ≡ (spec_comes_next limits revision sources.now taken.now
        && spec_keeps limits document.now sources.now taken.now) }
{
    let found = sources.look_up(taken.source(), taken.place_hint());
    let window = &found.window;
    if comes_next(limits, revision, sources, window, taken)
        && keeps(limits, document, sources, window, taken)
    {
        return Some(found.place);
    }
    None
}

// whether a change is the next one after a revision with these sources, where its source has what was found
fn comes_next(
    limits: Limits,
    revision: u64,
    sources: &Sources,
    found: &Option<Window>,
    taken: &Taken,
) -> bool
    requires revision { revision < 2 ^ 53 }
    requires found { found.now ≡ get sources.now taken.now.source }
    ensures { result ≡ spec_comes_next limits revision sources.now taken.now }
{
    let last = window_in(found).number();
    taken.revision() == revision + 1
        && revision != LAST
        && taken.number() >= 1
        && taken.number() - 1 == last
        && taken.number() <= LAST
        && (last != 0 || sources.count() < limits.sources() as usize)
}

// whether a change keeps the limits: what it leaves is no heavier than it may be, and its entry is as short as it has to be
fn keeps(
    limits: Limits,
    document: &Document,
    sources: &Sources,
    found: &Option<Window>,
    taken: &Taken,
) -> bool
    requires blank { IsBlankFor taken.now.step document.now }
    requires found { found.now ≡ get sources.now taken.now.source }
    ensures { result ≡ spec_keeps limits document.now sources.now taken.now }
{
    stays_light(limits, document, sources, found, taken)
        && taken.width() <= u64::from(limits.width())
}

// whether a change's delta is defined on what it has to stand on, parts no pair, and leaves what is no heavier than it may be
fn stays_light(
    limits: Limits,
    document: &Document,
    sources: &Sources,
    found: &Option<Window>,
    taken: &Taken,
) -> bool
    requires blank { IsBlankFor taken.now.step document.now }
    requires found { found.now ≡ get sources.now taken.now.source }
    ensures { result ≡ spec_stays_light limits document.now sources.now taken.now }
{
    let beside = sources.weight_with(limits, found);
    match weigh_after(document, taken) {
        Ok(units) => units.saturating_add(beside) <= u64::from(limits.weight()),
        Err(_) => false,
    }
}

// what a change leaves weighs, where its delta is defined on what it has to stand on, and parts no pair
fn weigh_after(document: &Document, taken: &Taken) -> Result<u64, Refusal>
    requires blank { IsBlankFor taken.now.step document.now }
    ensures stands { OnOk result (stands taken.now.step taken.now.delta document.now ≡ true) }
    ensures weight { IfOk result (λ weight. weight
        ≡ min (weight_of (units_after document.now taken.now.step taken.now.delta)) (2 ^ 64 - 1)) }
    ensures err { OnErr result (stands taken.now.step taken.now.delta document.now ≡ false) }
{
    if deletes(taken.step()) {
        return Ok(0);
    }
    document.weigh(taken.delta())
}
