//! A document is added with what stands in it, without the past before.
ghost use Rattle.std.specs.Prelude.{◌≡◌, ◌↔◌, ◌⊎◌, ◌&&◌, false, length, is_none, nat_lt, nat_le, IfErr, OnOk, OnErr, IsErrOf};
ghost use Rattle.revision.specs.Past.{is_content as spec_is_content};
ghost use Rattle.revision.specs.Window.{ascend};
ghost use Rattle.revision.specs.State.{adopts, adopted, find, is_mark_at as spec_is_mark_at, are_sources as spec_are_sources, is_window as spec_is_window, weight_of};

use super::doc_state::DocState;
use super::sources::Sources;
use super::state::State;
use crate::rule::{Limits, Name, Window};
use document::Document;
use refusal::Refusal;
use std::alloc::Global;

/// The last revision, and the last number.
const LAST: u64 = (1 << 53) - 1;

impl State {
    /// Adds a document at a revision with what stands in it and with its sources, and holds no past of it. One that isn't live is
    /// deleted.
    ///
    /// Refused with `Stranger`, which is decided before memory is taken, exactly where one of these holds:
    /// - there are `docs` documents, or one of them has this name;
    /// - a deleted one has text, or revision 1;
    /// - the revision isn't 1 to 2^53 - 1;
    /// - there are more than `sources` sources;
    /// - a source's last number isn't 1 to 2^53 - 1, or its window has no number, or more than there are up to the last;
    /// - the revisions of a window don't ascend strictly, from 1 on and up to the document's;
    /// - the weight with the sources is above the limit.
    ///
    /// Else refused as out of memory alone (`NoMemory`). A refusal leaves the state unchanged, and what was given is dropped.
    pub fn adopt(
        &mut self,
        alloc: Global,
        name: Name,
        document: Document,
        live: bool,
        revision: u64,
        sources: Sources,
    ) -> Result<(), Refusal>
        ensures ok { OnOk result (self.new
            ≡ adopted self.old name (record { units = document; live = live }) revision sources) }
        ensures stranger { IsErrOf result Refusal.Stranger
            ↔ (adopts self.old name (record { units = document; live = live }) revision sources ≡ false) }
        ensures only { IfErr result (λ e. (e ≡ Refusal.Stranger) ⊎ (e ≡ Refusal.NoMemory)) }
        ensures unchanged { OnErr result (self.new ≡ self.old) }
    {
        if !self.may_adopt(&name, &document, live, revision, &sources) {
            return Err(Refusal::Stranger);
        }
        let made = DocState::adopted(alloc, name, document, live, revision, sources)?;
        self.documents.adopt(alloc, made)?;
        self.documents.accept();
        Ok(())
    }

    // whether a document may be added
    fn may_adopt(
        &self,
        name: &Name,
        document: &Document,
        live: bool,
        revision: u64,
        sources: &Sources,
    ) -> bool
        ensures { result
            ≡ adopts self.now name.now (record { units = document.now; live = live }) revision sources.now }
    {
        let limits = self.limits();
        self.has_room_for(name, document, live, revision)
            && 1 <= revision
            && revision <= LAST
            && sources.count() as u64 <= u64::from(limits.sources())
            && are_sources(revision, sources.entries())
            && is_light(limits, document, sources)
    }

    // whether there is room for a document of this name, which is live or deleted as it may be at a revision
    fn has_room_for(&self, name: &Name, document: &Document, live: bool, revision: u64) -> bool
        ensures { result
            ≡ (nat_lt (length self.now.documents) self.now.limits.docs
            && is_none (find name.now 0 self.now.documents)
            && spec_is_content (record { units = document.now; live = live }) && spec_is_mark_at live revision) }
    {
        (self.documents().len() as u64) < u64::from(self.limits().docs())
            && self.find(name).is_none()
            && is_content(document, live)
            && is_mark_at(live, revision)
    }
}

// whether a document may be live or deleted at a revision: it isn't deleted as the first one
fn is_mark_at(live: bool, revision: u64) -> bool
    ensures { result ≡ spec_is_mark_at live revision }
{
    live || revision >= 2
}

// whether nothing stands in a document that is deleted
fn is_content(document: &Document, live: bool) -> bool
    ensures { result ≡ spec_is_content (record { units = document.now; live = live }) }
{
    live || document.len16() == 0
}

// whether each source has what it may have at a revision
fn are_sources(revision: u64, entries: &[(Name, Window)]) -> bool
    ensures { result ≡ spec_are_sources revision entries.now }
{
    for (_, window) in entries {
        if !is_window(revision, window) {
            return false;
        }
    }
    true
}

fn is_window(revision: u64, window: &Window) -> bool
    ensures { result ≡ spec_is_window revision window.now }
{
    let count = window.revisions().len();
    1 <= count
        && count as u64 <= window.number()
        && window.number() <= LAST
        && ascend_to(revision, window.revisions())
}

// whether revisions ascend strictly, from 1 on up to this one
fn ascend_to(last: u64, revisions: &[u64]) -> bool
    ensures { result ≡ ascend 0 last revisions.now }
{
    let mut low = 0;
    for &revision in revisions {
        if !is_between(low, revision, last) {
            return false;
        }
        low = revision;
    }
    true
}

fn is_between(low: u64, revision: u64, last: u64) -> bool
    ensures { result ≡ (nat_lt low revision && nat_le revision last) }
{
    low < revision && revision <= last
}

// whether a document with these sources is no heavier than it may be
fn is_light(limits: Limits, document: &Document, sources: &Sources) -> bool
    ensures { result ≡ nat_le (weight_of limits document.now sources.now) limits.weight }
{
    let beside = sources.weight(limits);
    document.weight().saturating_add(beside) <= u64::from(limits.weight())
}
