//! What undoes a change.
ghost use Rattle.std.specs.Prelude.{◌≡◌, IfOk, ◌+◌, ◌≤◌, ◌<◌, ◌^◌, ◌-◌, length, take, drop};
ghost use Rattle.revision.specs.Late.{all_inserted};
ghost use Rattle.delta.specs.Gaps.{counted};
ghost use Rattle.document.specs.Outcome.{IsAccepted};
ghost use Rattle.compose.specs.Many.{applied};
ghost use Rattle.revision.specs.Past.{StandInTurn, newest, deltas_of, undo_of, way_back, way_back_late};

use super::Past;
use super::late::past_all;
use super::replaying::{beginning, document_after};
use compose::invert;
use delta::Delta;
use document::Document;
use std::alloc::{AllocError, Global};

impl Past {
    /// The delta that undoes a revision above the floor, late past what was taken since. Refused as out of memory alone.
    pub fn undo(&self, alloc: Global, revision: u64) -> Result<Delta, AllocError>
        requires held { self.now.past.floor < revision }
        requires there { revision ≤ newest self.now.past }
        ensures undo { IfOk result (λ back. back
            ≡ undo_of self.now.past.floor self.now.past.content.units (deltas_of self.now.past) revision) }
    {
        let before = revision - 1;
        let (from, base) = beginning(self.start, &self.document, self.kept.as_slice(), before);
        let first = (from - self.start) as usize;
        undo_one(
            alloc,
            base,
            &self.deltas.as_slice()[first..self.count],
            (before - from) as usize,
        )
    }
}

// The delta that undoes one of these deltas, which stand in turn on the document: what takes it back, late past all that
// come after it. Refused as out of memory alone, given that all units inserted stay within the bound of 2^48.
fn undo_one(
    alloc: Global,
    base: &Document,
    deltas: &[Delta],
    place: usize,
) -> Result<Delta, AllocError>
    requires stand { StandInTurn base.now deltas.now }
    requires held { place < length deltas.now }
    requires room { length (applied base.now (take place deltas.now)) + all_inserted (drop place deltas.now) ≤ 2 ^ 48 }
    ensures undo { IfOk result (λ back. back
        ≡ way_back_late (applied base.now (take place deltas.now)) (drop place deltas.now)) }
{
    let before = document_after(alloc, base, deltas, place)?;
    let back = taken_back(alloc, &before, &deltas[place])?;
    past_all(alloc, back, &deltas[place + 1..])
}

// what takes a delta back that was taken on the document
fn taken_back(alloc: Global, before: &Document, taken: &Delta) -> Result<Delta, AllocError>
    requires { IsAccepted before.now (counted taken.now) }
    ensures back { IfOk result (λ back. back ≡ way_back before.now taken.now) }
{
    match invert(alloc, taken, before) {
        Ok(back) => Ok(back),
        Err(refusal) => Err(refusal.as_alloc_error()),
    }
}
