//! What is read of a document's past.
ghost use Rattle.std.specs.Prelude.{◌≡◌, ◌≢◌, ◌⊎◌, ◌≤◌, IfOk, IfErr, IsOk, IsErrOf};
ghost use Rattle.revision.specs.Past.{newest};
ghost use Rattle.revision.specs.Pending.{record_of};
ghost use Rattle.revision.specs.Readings.{document_at, taken_since, past_at, read_as};

use super::doc_state::DocState;
use super::state::State;
use crate::rule::Name;
use delta::Delta;
use document::Document;
use refusal::Refusal;
use std::alloc::Global;

impl State {
    /// What stood in a document at a revision. Refused with `NoDocument`, `Deleted` where it is deleted now, `Future` where the revision
    /// is above the newest one, `TooOld` where it is below the floor, which is decided before memory is taken; else as out of memory
    /// alone. specs/Readings.antt states it as `document_at`.
    pub fn at(&self, alloc: Global, name: &Name, revision: u64) -> Result<Document, Refusal>
        ensures document { (result ≡ document_at self.now name.now revision) ⊎ (result ≡ Err Refusal.NoMemory) }
        ensures memory { IsErrOf result Refusal.NoMemory → IsOk (document_at self.now name.now revision) }
    {
        let document = held_at(self, name, revision)?;
        Ok(document.document_at(alloc, revision)?)
    }

    /// The deltas that were taken since a revision, in order. Refused as `at` is, but it takes no memory.
    /// specs/Readings.antt states it as `taken_since`.
    pub fn since(&self, name: &Name, revision: u64) -> Result<&[Delta], Refusal>
        ensures { read_as (λ deltas. deltas.now) result ≡ taken_since self.now name.now revision }
    {
        Ok(held_at(self, name, revision)?.since(revision))
    }
}

// the document of a name, where it isn't deleted and holds a revision
fn held_at<'a>(state: &'a State, name: &Name, revision: u64) -> Result<&'a DocState, Refusal>
    ensures past { read_as (λ found. (record_of found.now).past) result ≡ past_at state.now name.now revision }
    ensures held { IfOk result (λ found. found.now.past.past.floor ≤ revision) }
    ensures there { IfOk result (λ found. revision ≤ newest found.now.past.past) }
    ensures no_memory { IfErr result (λ e. e ≢ Refusal.NoMemory) }
{
    let found = match state.find(name) {
        Some((_, found)) => found,
        None => return Err(Refusal::NoDocument),
    };
    if !found.is_live() {
        return Err(Refusal::Deleted);
    }
    if revision > found.revision() {
        return Err(Refusal::Future);
    }
    if revision < found.floor() {
        return Err(Refusal::TooOld);
    }
    Ok(found)
}
