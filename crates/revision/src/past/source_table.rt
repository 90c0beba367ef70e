//! The sources of a document, with what is prepared of them.
ghost use Rattle.std.specs.Prelude.{◌≡◌, ◌↔◌, ℕ, List, [], ◌∷◌, true, false, IsTrue, IfOk, OnOk, OnErr, option_copied};
ghost use Rattle.attributes.specs.Map.{empty};
ghost use Rattle.delta.specs.Gaps.{counted, apply};
ghost use Rattle.document.specs.Outcome.{IsAccepted};
ghost use Rattle.revision.specs.Name.{is_source_name};
ghost use Rattle.revision.specs.Sources.{with_taken, with_entry, is_among, EqualBut};
ghost use Rattle.attributes.specs.Map.{get};

use super::replaying::apply_taken;
use super::sources::Sources;
use crate::rule::{Name, Window};
use delta::Delta;
use document::Document;
use std::alloc::{AllocError, Global};
use std::marker::Model;
use std::mem::swap;

/// The sources that are accepted, and those after what is prepared.
///
/// They are kept twice. What is prepared is noted in the second list alone; to accept it the two change places, which takes no
/// memory. `changed` names the sources in which the two may differ, and before the next change is prepared those alone are made
/// equal.
#[derive(Drop)]
pub struct SourceTable {
    accepted: Sources,
    ahead: Sources,
    changed: Vec<Changed>,
    prepared: bool,
}

// A source in which the two lists may differ, seen as its name, with the place at which it is looked for first.
#[derive(Drop)]
struct Changed {
    source: Name,
    place_hint: usize,
}

impl Model for Changed {
    ghost use Rattle.std.specs.Prelude.{List, ℕ};

    ghost Value = { List ℕ };

    ghost view = { λ c. c.source };
}

impl Model for SourceTable {
    ghost use Rattle.std.specs.Prelude.{if◌then◌else◌};
    ghost use Rattle.revision.specs.Sources as spec;

    ghost Value = { spec.Table };

    ghost coded = { spec.table_code };

    ghost view = { λ t. record { accepted = t.accepted; prepared = if t.prepared then t.ahead else t.accepted } };

    ghost invariant = { λ t. spec.EqualBut t.changed.items t.accepted t.ahead };
}

impl SourceTable {
    /// An empty table. Doesn't allocate.
    pub fn new(alloc: Global) -> SourceTable
        ensures { result ≡ record { accepted = empty; prepared = empty } }
    {
        SourceTable {
            accepted: Sources::new(alloc),
            ahead: Sources::new(alloc),
            changed: Vec::new(alloc),
            prepared: false,
        }
    }

    /// These sources, and nothing prepared. Refused as out of memory alone.
    pub fn from_sources(alloc: Global, sources: &Sources) -> Result<SourceTable, AllocError>
        ensures ok { IfOk result (λ table. table ≡ record { accepted = sources.now; prepared = sources.now }) }
    {
        let accepted = sources.copy(alloc)?;
        let ahead = sources.copy(alloc)?;
        Ok(SourceTable {
            accepted,
            ahead,
            changed: Vec::new(alloc),
            prepared: false,
        })
    }

    /// The sources that are accepted.
    pub fn accepted(&self) -> &Sources
        ensures { result.now ≡ self.now.accepted }
    {
        &self.accepted
    }

    /// The sources after what is prepared.
    pub fn prepared(&self) -> &Sources
        ensures { result.now ≡ self.now.prepared }
    {
        if self.prepared {
            &self.ahead
        } else {
            &self.accepted
        }
    }

    /// Prepares a command of a source, whose name has 1 to 32 characters. It is looked for first at the place that it has among the
    /// sources after what is prepared, as far as the caller knows. Refused as out of memory alone, and then nothing more is prepared.
    pub fn prepare(
        &mut self,
        alloc: Global,
        source: &Name,
        number: u64,
        revision: u64,
        place_hint: usize,
    ) -> Result<(), AllocError>
        requires { is_source_name source.now ≡ true }
        ensures ok { OnOk result (self.new
            ≡ record self.old { prepared = with_taken source.now number revision self.old.prepared }) }
        ensures unchanged { OnErr result (self.new ≡ self.old) }
    {
        if !self.prepared {
            align_all(
                alloc,
                self.changed.as_slice(),
                &self.accepted,
                &mut self.ahead,
            )?;
            self.changed.clear();
            self.prepared = true;
        }
        mark(
            alloc,
            &mut self.changed,
            &self.accepted,
            &self.ahead,
            source,
            place_hint,
        )?;
        self.ahead.take(alloc, source, number, revision, place_hint)
    }

    /// Prepares a command of a source as `prepare` does, and applies its delta to a document: both, or neither. Refused as out of
    /// memory alone.
    pub fn prepare_with(
        &mut self,
        alloc: Global,
        source: &Name,
        number: u64,
        revision: u64,
        place_hint: usize,
        delta: &Delta,
        document: &mut Document,
    ) -> Result<(), AllocError>
        requires named { is_source_name source.now ≡ true }
        requires accepted { IsAccepted document.old (counted delta.now) }
        ensures ok { OnOk result (self.new
            ≡ record self.old { prepared = with_taken source.now number revision self.old.prepared }) }
        ensures document { OnOk result (document.new ≡ apply document.old (counted delta.now)) }
        ensures unchanged { OnErr result (self.new ≡ self.old) }
        ensures document_unchanged { OnErr result (document.new ≡ document.old) }
    {
        if !self.prepared {
            align_all(
                alloc,
                self.changed.as_slice(),
                &self.accepted,
                &mut self.ahead,
            )?;
            self.changed.clear();
            self.prepared = true;
        }
        mark(
            alloc,
            &mut self.changed,
            &self.accepted,
            &self.ahead,
            source,
            place_hint,
        )?;
        note_with(
            alloc,
            &mut self.ahead,
            source,
            number,
            revision,
            place_hint,
            delta,
            document,
        )
    }

    /// Accepts what is prepared. It takes no memory, and isn't refused.
    pub fn accept(&mut self)
        ensures { self.new ≡ record { accepted = self.old.prepared; prepared = self.old.prepared } }
    {
        if self.prepared {
            swap(&mut self.accepted, &mut self.ahead);
            self.prepared = false;
        }
    }

    /// Drops what is prepared.
    pub fn forget(&mut self)
        ensures { self.new ≡ record { accepted = self.old.accepted; prepared = self.old.accepted } }
    {
        self.prepared = false;
    }
}

// Adds a source to those in which two lists may differ. Where they differ in it already it is one of them. In both it is looked for
// first at one place. Refused as out of memory alone, and then none is added.
fn mark(
    alloc: Global,
    changed: &mut Vec<Changed>,
    accepted: &Sources,
    ahead: &Sources,
    source: &Name,
    place_hint: usize,
) -> Result<(), AllocError>
    requires { EqualBut changed.old.items accepted.now ahead.now }
    ensures ok { OnOk result ((name : List ℕ) → is_among name changed.new.items ≡ false
        → (is_among name (source.now ∷ []) ≡ false) × (get accepted.now name ≡ get ahead.now name)) }
    ensures unchanged { OnErr result (changed.new.items ≡ changed.old.items) }
{
    if is_same(
        accepted.see_near(source, place_hint),
        ahead.see_near(source, place_hint),
    ) {
        let source = source.copy(alloc)?;
        changed.push(Changed { source, place_hint })?;
    }
    Ok(())
}

fn is_same(one: Option<&Window>, other: Option<&Window>) -> bool
    ensures { IsTrue result ↔ (option_copied one.entry ≡ option_copied other.entry) }
{
    one == other
}

// Notes a command of a source, which is looked for first at one place, and applies its delta to a document: both, or neither. Refused
// as out of memory alone.
fn note_with(
    alloc: Global,
    sources: &mut Sources,
    source: &Name,
    number: u64,
    revision: u64,
    place_hint: usize,
    delta: &Delta,
    document: &mut Document,
) -> Result<(), AllocError>
    requires named { is_source_name source.now ≡ true }
    requires accepted { IsAccepted document.old (counted delta.now) }
    ensures sources { OnOk result (sources.new ≡ with_taken source.now number revision sources.old) }
    ensures document { OnOk result (document.new ≡ apply document.old (counted delta.now)) }
    ensures unchanged { OnErr result (sources.new ≡ sources.old) }
    ensures document_unchanged { OnErr result (document.new ≡ document.old) }
{
    let before = sources.note(alloc, source, number, revision, place_hint)?;
    match apply_taken(alloc, document, delta) {
        Ok(()) => Ok(()),
        Err(refusal) => {
            sources.put_back(source, before, place_hint);
            Err(refusal)
        }
    }
}

// Makes sources equal to others, which they are but for those that are changed. Refused as out of memory alone; they are still
// equal then, but for those.
fn align_all(
    alloc: Global,
    changed: &[Changed],
    accepted: &Sources,
    ahead: &mut Sources,
) -> Result<(), AllocError>
    requires { EqualBut changed.now accepted.now ahead.old }
    ensures ok { OnOk result (ahead.new ≡ accepted.now) }
    ensures still { EqualBut changed.now accepted.now ahead.new }
{
    for one in changed {
        align(alloc, one, accepted, ahead)?;
    }
    Ok(())
}

// Gives a source what it has in other sources. In both it is looked for first at one place. Refused as out of memory alone, and then
// unchanged.
fn align(
    alloc: Global,
    changed: &Changed,
    accepted: &Sources,
    ahead: &mut Sources,
) -> Result<(), AllocError>
    ensures ok { OnOk result (ahead.new ≡ with_entry changed.now (get accepted.now changed.now) ahead.old) }
    ensures unchanged { OnErr result (ahead.new ≡ ahead.old) }
{
    let source = &changed.source;
    match accepted.see_near(source, changed.place_hint) {
        Some(window) => ahead.put_near(alloc, source, window.copy(), changed.place_hint)?,
        None => ahead.remove(source),
    }
    Ok(())
}
