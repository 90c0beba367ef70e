//! Which documents a past keeps, and which revisions below its floor go.
ghost use Rattle.std.specs.Prelude.{◌≡◌, ◌+◌, ◌≤◌, ◌<◌, false, ℕ, ◌-◌, List, length, drop, IfSome};
ghost use Rattle.delta.specs.Element.{Element};
ghost use Rattle.delta.specs.Operation.{Operation};
ghost use Rattle.revision.specs.Past.{Change, IsKept, AreKept, IsNoted, AreNoted, newest, newest_units, newest_sources};
ghost use Rattle.revision.specs.Sources.{Sources as spec_Sources};

use super::Past;
use super::kept_document::Kept;
use super::replaying::{beginning, sources_after_first};
use super::sources::Sources;
use document::Document;
use std::alloc::Global;

/// The revisions below the floor are let go of once there are so many of them.
const MOST_BELOW: u64 = 512;

/// So many revisions at least lie between two documents that `keep_apart` keeps, and between two with the sources beside them, which
/// cost some 100 bytes for each source.
const APART: u64 = 256;

impl Past {
    /// Keeps a copy of the document at the newest revision, where none is kept, as far as memory goes, and lets go of one that lies near
    /// to others. So the last documents are kept, the denser the newer they are, some eleven besides those of `keep_apart`. Each costs a
    /// count for each of its chunks, and the chunks that the others don't have. What is seen stays as it is.
    pub(crate) fn keep(&mut self, alloc: Global, document: &Document, sources: &Sources)
        requires newest { document.now ≡ newest_units self.old.past }
        requires sources { sources.now ≡ newest_sources self.old.past }
        ensures { self.new ≡ self.old }
    {
        if self.stale || self.since_kept() > 0 {
            self.keep_copy(alloc, document, sources);
            self.thin();
        }
    }

    /// Keeps a copy of the document at the newest revision, once 256 revisions have come since the last that is kept, or where it was
    /// deleted or created again, as far as memory goes. What is seen stays as it is.
    pub(crate) fn keep_apart(&mut self, alloc: Global, document: &Document, sources: &Sources)
        requires newest { document.now ≡ newest_units self.old.past }
        requires sources { sources.now ≡ newest_sources self.old.past }
        ensures { self.new ≡ self.old }
    {
        if self.stale || self.since_kept() >= APART {
            self.keep_copy(alloc, document, sources);
        }
    }

    // So many revisions have come since the last document that is kept.
    fn since_kept(&self) -> u64 {
        let revision = self.start + self.count as u64;
        revision.saturating_sub(last_kept(self.kept.as_slice(), self.start))
    }

    // Lets go of a document that lies near to others, where one does. What is seen stays as it is.
    fn thin(&mut self)
        ensures { self.new ≡ self.old }
    {
        let newest = self.start + self.count as u64;
        if let Some(place) = spare_place(self.kept.as_slice(), self.start, newest) {
            drop(self.kept.remove(place));
        }
    }

    // Keeps a copy of the document at the newest revision, and of the sources beside it, once 256 revisions have come since the last
    // that are kept, or where it was deleted or created again, as far as memory goes. What is seen stays as it is.
    fn keep_copy(&mut self, alloc: Global, document: &Document, sources: &Sources)
        requires newest { document.now ≡ newest_units self.old.past }
        requires sources { sources.now ≡ newest_sources self.old.past }
        ensures { self.new ≡ self.old }
    {
        let revision = self.start + self.count as u64;
        let noted = last_noted(self.kept.as_slice(), self.start);
        let due = self.stale || revision.saturating_sub(noted) >= APART;
        let beside = copy_if_due(alloc, sources, due);
        push_kept(alloc, &mut self.kept, revision, document, beside);
    }

    /// Lets go of the revisions below the floor, once there are 512 of them, up to the last document that is kept from there, as far
    /// as memory goes; and of all of them where the document was deleted or created again. What is seen stays as it is.
    ///
    /// Where it was neither deleted nor created again, with fewer a call costs nothing, and else it applies no delta: the document that is
    /// kept takes the place of the first one, and the changes up to it are noted, from the nearest sources that are kept.
    pub fn prune(&mut self, alloc: Global)
        ensures { self.new ≡ self.old }
    {
        if self.stale {
            self.prune_to_floor(alloc);
            return;
        }
        if self.floor - self.start < MOST_BELOW {
            return;
        }
        let (from, base) = beginning(self.start, &self.document, self.kept.as_slice(), self.floor);
        let gone = (from - self.start) as usize;
        if gone == 0 {
            return;
        }
        let Ok(document) = base.copy(alloc) else {
            return;
        };
        let noted = sources_after_first(
            alloc,
            self.start,
            &self.sources,
            self.kept.as_slice(),
            self.takers.as_slice(),
            self.deltas.as_slice(),
            gone,
        );
        if let Ok(sources) = noted {
            let passed = count_up_to(self.kept.as_slice(), from);
            self.document = document;
            self.sources = sources;
            drop_first(&mut self.takers, gone);
            drop_first(&mut self.deltas, gone);
            drop_first(&mut self.kept, passed);
            self.start = from;
            self.count -= gone;
        }
    }

    // Lets go of all revisions below the floor, as far as memory goes. What is seen stays as it is.
    fn prune_to_floor(&mut self, alloc: Global)
        ensures { self.new ≡ self.old }
    {
        let gone = (self.floor - self.start) as usize;
        let Ok(document) = self.document_at(alloc, self.floor) else {
            return;
        };
        let noted = sources_after_first(
            alloc,
            self.start,
            &self.sources,
            self.kept.as_slice(),
            self.takers.as_slice(),
            self.deltas.as_slice(),
            gone,
        );
        if let Ok(sources) = noted {
            let passed = count_up_to(self.kept.as_slice(), self.floor);
            self.document = document;
            self.sources = sources;
            drop_first(&mut self.takers, gone);
            drop_first(&mut self.deltas, gone);
            drop_first(&mut self.kept, passed);
            self.start = self.floor;
            self.count -= gone;
            self.stale = false;
        }
    }
}

// drops the first `count` of the items
fn drop_first<T: Drop>(items: &mut Vec<T>, count: usize)
    requires { count ≤ length items.old.items }
    ensures { items.new.items ≡ drop count items.old.items }
{
    drop(items.drain(..count));
}

// The revision of the last document that is kept, or the start.
fn last_kept(kept: &[Kept], start: u64) -> u64 {
    match kept.last() {
        Some(last) => last.revision,
        None => start,
    }
}

// The place of the newest document that is kept and is spare. No sources are kept beside it, and those before and after it lie less
// than twice as far apart as the one after it lies back from the newest revision.
fn spare_place(kept: &[Kept], start: u64, newest: u64) -> Option<usize>
    ensures { IfSome result (λ place. place < length kept.now) }
{
    let mut after = newest;
    let mut left = kept.len();
    while left > 0 {
        left -= 1;
        let before = last_kept(&kept[..left], start);
        let apart = after.saturating_sub(before);
        if kept[left].sources.is_none() && apart / 2 < newest.saturating_sub(after) {
            return Some(left);
        }
        after = kept[left].revision;
    }
    None
}

// The last revision at which sources are kept beside the document, or the start.
fn last_noted(kept: &[Kept], start: u64) -> u64 {
    let mut left = kept.len();
    while left > 0 {
        left -= 1;
        if kept[left].sources.is_some() {
            return kept[left].revision;
        }
    }
    start
}

// A copy of the sources, where one is due and as far as memory goes.
fn copy_if_due(alloc: Global, sources: &Sources, due: bool) -> Option<Sources>
    ensures { IfSome result (λ copy. copy ≡ sources.now) }
{
    if !due {
        return None;
    }
    match sources.copy(alloc) {
        Ok(copy) => Some(copy),
        Err(_) => None,
    }
}

// Keeps a copy of a document at a revision, with its sources there where they are given, as far as memory goes.
fn push_kept(
    alloc: Global,
    kept: &mut Vec<Kept>,
    revision: u64,
    document: &Document,
    sources: Option<Sources>,
)
    ensures kept { (start count : ℕ) (units : List Element) (deltas : List (List Operation))
        → AreKept start count units deltas kept.old.items
        → IsKept start count units deltas (record { revision = revision; document = document.now; sources = sources })
        → AreKept start count units deltas kept.new.items }
    ensures noted { (start : ℕ) (first : spec_Sources) (changes : List Change)
        → AreNoted start first changes kept.old.items
        → IsNoted start first changes (record { revision = revision; document = document.now; sources = sources })
        → AreNoted start first changes kept.new.items }
{
    let Ok(document) = document.copy(alloc) else {
        return;
    };
    // where the list can't grow the copy is dropped
    let _ = kept.push(Kept {
        revision,
        document,
        sources,
    });
}

// How many of the first documents that are kept lie no higher than a revision.
fn count_up_to(kept: &[Kept], revision: u64) -> usize
    ensures { result ≤ length kept.now }
{
    for (count, one) in kept.iter().enumerate() {
        if one.revision > revision {
            return count;
        }
    }
    kept.len()
}
