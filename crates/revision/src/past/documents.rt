//! Documents with what is prepared to follow.
ghost use Rattle.std.specs.Prelude.{◌≡◌, ◌↔◌, ◌⊎◌, ◌≤◌, ◌<◌, ◌∷◌, ◌++◌, [], true, false, None, Some, ℕ, List, length, map, take, slice_get, bytes_eq, ◌==◌, ◌&&◌, nat_lt, is_none, is_some, cond, option_map, IfOk, IfErr, IfSome, OnOk, OnErr, IsErrOf};
ghost use Rattle.std.specs.BTreeMap.{get_by_text};
ghost use Rattle.revision.specs.steps.ChangedAt.{changed_at, changed_at_all};
ghost use Rattle.revision.specs.Documents.{unprepared};
ghost use Rattle.revision.specs.steps.DocumentsView.{names_of};
ghost use Rattle.revision.specs.steps.Index.{IsIndex, NoneTwice};
ghost use Rattle.revision.specs.Invariants.{IsLimits};
ghost use Rattle.revision.specs.Made.{AreMade, IsMade, text_of};
ghost use Rattle.revision.specs.Past.{units_after};
ghost use Rattle.revision.specs.Pending.{record_of, with_prepared};
ghost use Rattle.revision.specs.steps.Given.{command_of, IsGiven};
ghost use Rattle.revision.specs.steps.Preparing.{accepted, forgotten, with_next, begun};
ghost use Rattle.revision.specs.State.{begins as spec_begins, has_room, next_of, continues_by_name, record_by_name, grows, grown, all_grow, first_grows, fold, find};

use super::doc_state::DocState;
use super::following::begins;
use super::given::{Given, Handed};
use crate::rule::{Limits, Name, Names, Taken};
use document::Document;
use refusal::Refusal;
use std::alloc::{AllocError, Global};
use std::marker::Model;

/// The documents that are held are the first `count`; the others are creations that are prepared. Nothing is prepared of
/// a document that isn't `touched`. All names are in the index, also those of creations that are prepared.
#[derive(Drop)]
pub(crate) struct Documents {
    limits: Limits,
    documents: Vec<DocState>,
    names: Names,
    count: usize,
    touched: Vec<u32>,
}

impl Model for Documents {
    ghost use Rattle.revision.specs.Documents as spec;

    ghost Value = { spec.PreparedState };

    ghost coded = { spec.prepared_state_code };

    ghost use Rattle.revision.specs.steps.DocumentsView as inner;

    ghost view = { λ d. inner.states_of d };

    ghost invariant = { λ d. inner.AreDocuments d };
}

impl Documents {
    /// No documents, under these limits. Doesn't allocate.
    pub(crate) fn new(alloc: Global, limits: Limits) -> Documents
        ensures { result ≡ unprepared (record { limits = limits; documents = [] }) }
    {
        Documents {
            limits,
            documents: Vec::new(alloc),
            names: Names::new(alloc),
            count: 0,
            touched: Vec::new(alloc),
        }
    }

    /// The limits.
    pub(crate) fn limits(&self) -> Limits
        ensures { result ≡ self.now.before.limits }
    {
        self.limits
    }

    /// The documents that are held.
    pub(crate) fn documents(&self) -> &[DocState]
        ensures documents { map record_of result.now ≡ self.now.before.documents }
        ensures bound { length result.now ≤ 65536 }
    {
        &self.documents.as_slice()[..self.count]
    }

    /// The document that is held by this name, with its number.
    pub(crate) fn find(&self, name: &Name) -> Option<(u32, &DocState)>
        ensures { option_map (λ p. (p.0, record_of p.1.now)) result ≡ find name.now 0 self.now.before.documents }
    {
        match self.names.number(name) {
            Some(number) => {
                if number as usize >= self.count {
                    return None;
                }
                Some((number, &self.documents[number as usize]))
            }
            None => None,
        }
    }

    /// Prepares a command that was taken. Refused with `Stranger` exactly where it doesn't continue what was prepared, which is looked at
    /// only where it isn't known, and before memory is taken; else as out of memory alone (`NoMemory`). A refusal leaves all unchanged.
    pub(crate) fn prepare(&mut self, alloc: Global, given: Given) -> Result<(), Refusal>
        requires given { IsGiven self.old.after given }
        ensures ok { OnOk result (self.new
            ≡ record self.old { after = grown self.old.after (command_of given.entry.command) }) }
        ensures grow { OnOk result (grows self.old.after (command_of given.entry.command) ≡ true) }
        ensures stranger { IsErrOf result Refusal.Stranger
            ↔ (grows self.old.after (command_of given.entry.command) ≡ false) }
        ensures memory { IsErrOf result Refusal.NoMemory
            → grows self.old.after (command_of given.entry.command) ≡ true }
        ensures only { IfErr result (λ e. (e ≡ Refusal.Stranger) ⊎ (e ≡ Refusal.NoMemory)) }
        ensures unchanged { OnErr result (self.new ≡ self.old) }
    {
        let Given {
            command,
            continues,
            made,
        } = given;
        let Some(place_hint) = self.place_for(alloc, command.get(), continues) else {
            return Err(Refusal::Stranger);
        };
        self.prepare_next(alloc, command, place_hint, made)?;
        Ok(())
    }

    // Where a command's source stands or would stand in the document, if the command continues what was prepared, which isn't looked at
    // where it is known. It takes no memory.
    fn place_for(&self, alloc: Global, taken: &Taken, continues: bool) -> Option<usize>
        requires continues { continues ≡ true → grows self.now.after taken.now ≡ true }
        ensures { is_some result ≡ grows self.now.after taken.now }
    {
        if continues {
            return Some(self.place_hint(taken));
        }
        match taken.name() {
            Some(name) => self.place_in_new(alloc, taken, name),
            None => place_in(self.documents.as_slice(), self.limits, taken),
        }
    }

    // a place where a command's source is looked for first
    fn place_hint(&self, taken: &Taken) -> usize {
        match self.documents.get(taken.document_number() as usize) {
            Some(document) => document.place_hint(taken),
            None => 0,
        }
    }

    // the first place, if a creation continues what was prepared
    fn place_in_new(&self, alloc: Global, taken: &Taken, name: &Name) -> Option<usize>
        requires name { taken.now.name ≡ Some name.now }
        ensures { is_some result ≡ grows self.now.after taken.now }
    {
        if self.may_create(alloc, taken, name) {
            Some(0)
        } else {
            None
        }
    }

    // whether a creation continues what was prepared
    fn may_create(&self, alloc: Global, taken: &Taken, name: &Name) -> bool
        requires name { taken.now.name ≡ Some name.now }
        ensures { result ≡ grows self.now.after taken.now }
    {
        if !self.has_room_for(taken.document_number(), name) {
            return false;
        }
        begins(alloc, self.limits, taken)
    }

    // prepares a command that continues what was prepared
    fn prepare_next(
        &mut self,
        alloc: Global,
        command: Handed,
        place_hint: usize,
        made: Option<&Document>,
    ) -> Result<(), AllocError>
        requires continues { grows self.old.after (command_of command) ≡ true }
        requires made { IfSome made (λ document. IsMade self.old.after (command_of command) document.now) }
        ensures ok { OnOk result (self.new
            ≡ record self.old { after = grown self.old.after (command_of command.entry) }) }
        ensures unchanged { OnErr result (self.new ≡ self.old) }
    {
        let taken = command.get();
        match taken.name() {
            Some(name) => self.create(alloc, taken, name, made),
            None => self.change_next(alloc, command.into_owned(alloc)?, place_hint, made),
        }
    }

    // prepares a change of a document that is there, which continues what was prepared
    fn change_next(
        &mut self,
        alloc: Global,
        taken: Taken,
        place_hint: usize,
        made: Option<&Document>,
    ) -> Result<(), AllocError>
        requires name { taken.name ≡ None }
        requires continues { grows self.old.after taken ≡ true }
        requires made { IfSome made (λ document. IsMade self.old.after taken document.now) }
        ensures ok { OnOk result (self.new ≡ record self.old { after = grown self.old.after taken }) }
        ensures unchanged { OnErr result (self.new ≡ self.old) }
    {
        self.touched.push(taken.document_number())?;
        change(
            alloc,
            &mut self.documents,
            self.limits,
            taken,
            place_hint,
            made,
        )?;
        Ok(())
    }

    // prepares a creation that continues what was prepared
    fn create(
        &mut self,
        alloc: Global,
        taken: &Taken,
        name: &Name,
        made: Option<&Document>,
    ) -> Result<(), AllocError>
        requires name { taken.now.name ≡ Some name.now }
        requires continues { grows self.old.after taken.now ≡ true }
        requires made { IfSome made (λ document. IsMade self.old.after taken.now document.now) }
        ensures ok { OnOk result (self.new ≡ record self.old { after = grown self.old.after taken.now }) }
        ensures unchanged { OnErr result (self.new ≡ self.old) }
    {
        let number = taken.document_number();
        let document = begin(alloc, self.limits, taken, name, made)?;
        self.touched.push(number)?;
        push_named(
            alloc,
            &mut self.documents,
            &mut self.names,
            document,
            name,
            number,
        )?;
        Ok(())
    }

    /// Prepares a document that has nothing prepared; there has to be room for it, and its name has to be new. Refused as
    /// out of memory alone, and then all is unchanged.
    pub(crate) fn adopt(&mut self, alloc: Global, document: DocState) -> Result<(), AllocError>
        requires room { length self.old.after.documents < self.old.after.limits.docs }
        requires new { is_none (find document.name 0 self.old.after.documents) ≡ true }
        requires still { document.past.next ≡ [] }
        ensures ok { OnOk result (self.new
            ≡ record self.old {
              after = record self.old.after {
                documents = self.old.after.documents
                    ++ record_of document ∷ [];
              };
            }) }
        ensures unchanged { OnErr result (self.new ≡ self.old) }
    {
        let name = document.name().copy(alloc)?;
        let number = self.documents.len() as u32;
        push_named(
            alloc,
            &mut self.documents,
            &mut self.names,
            document,
            &name,
            number,
        )?;
        Ok(())
    }

    // whether there is room for a new document of this number and name
    fn has_room_for(&self, number: u32, name: &Name) -> bool
        ensures { result ≡ has_room self.now.after number (Some name.now) }
    {
        self.is_next(number) && self.is_new(name)
    }

    fn is_next(&self, number: u32) -> bool
        ensures { result
            ≡ ((number == length self.now.after.documents) && nat_lt (length self.now.after.documents)
            self.now.after.limits.docs) }
    {
        let count = self.documents.len() as u64;
        u64::from(number) == count && count < u64::from(self.limits.docs())
    }

    fn is_new(&self, name: &Name) -> bool
        ensures { result ≡ is_none (find name.now 0 self.now.after.documents) }
    {
        self.names.number(name).is_none()
    }

    /// Prepares commands in order. What it is refused with, and when, `prepare` says of each; then the first of them may be
    /// prepared, but what is held stays as it is. Where the document that a command leaves is given, it is taken over.
    pub(crate) fn prepare_all(
        &mut self,
        alloc: Global,
        batch: &[Taken],
        made: &[Document],
    ) -> Result<(), Refusal>
        requires made { AreMade self.old.after batch.now made.now }
        ensures before { self.new.before ≡ self.old.before }
        ensures ok { OnOk result (self.new.after ≡ fold self.old.after batch.now) }
        ensures grow { OnOk result (all_grow self.old.after batch.now ≡ true) }
        ensures stranger { IsErrOf result Refusal.Stranger → all_grow self.old.after batch.now ≡ false }
        ensures memory { IsErrOf result Refusal.NoMemory → first_grows self.old.after batch.now ≡ true }
        ensures only { IfErr result (λ e. (e ≡ Refusal.Stranger) ⊎ (e ≡ Refusal.NoMemory)) }
    {
        for i in 0..batch.len() {
            self.prepare(alloc, Given::lent(&batch[i], made.get(i)))?;
        }
        Ok(())
    }

    /// Prepares commands in order, as `prepare_all` does; the deltas of those that change a document that is there are moved.
    pub(crate) fn prepare_all_owned(
        &mut self,
        alloc: Global,
        batch: Vec<Taken>,
    ) -> Result<(), Refusal>
        ensures before { self.new.before ≡ self.old.before }
        ensures ok { OnOk result (self.new.after ≡ fold self.old.after batch.items) }
        ensures grow { OnOk result (all_grow self.old.after batch.items ≡ true) }
        ensures stranger { IsErrOf result Refusal.Stranger → all_grow self.old.after batch.items ≡ false }
        ensures memory { IsErrOf result Refusal.NoMemory → first_grows self.old.after batch.items ≡ true }
        ensures only { IfErr result (λ e. (e ≡ Refusal.Stranger) ⊎ (e ≡ Refusal.NoMemory)) }
    {
        for taken in batch {
            self.prepare(alloc, Given::owned(taken))?;
        }
        Ok(())
    }

    /// Accepts what was prepared. It takes no memory, isn't refused, and goes through what was touched alone.
    pub(crate) fn accept(&mut self)
        ensures { self.new ≡ unprepared self.old.after }
    {
        accept_each(&mut self.documents, self.touched.as_slice(), self.limits);
        self.touched.clear();
        self.count = self.documents.len();
    }

    /// Lets go of what lies below a document's floor, where there is one of this number: of the text of one that was deleted or created
    /// again at once, else some hundred revisions at a time. It does so as far as memory goes; what is seen stays unchanged.
    pub(crate) fn prune(&mut self, alloc: Global, number: u32)
        ensures { self.new ≡ self.old }
    {
        prune_one(alloc, &mut self.documents, number as usize);
    }

    /// Lets go so of the documents of these commands.
    pub(crate) fn prune_all(&mut self, alloc: Global, batch: &[Taken])
        ensures { self.new ≡ self.old }
    {
        for taken in batch {
            self.prune(alloc, taken.document_number());
        }
    }

    /// Forgets what was prepared. It takes no memory, isn't refused, and goes through what was touched alone.
    pub(crate) fn forget(&mut self)
        ensures { self.new ≡ unprepared self.old.before }
    {
        drop_creations(&mut self.documents, &mut self.names, self.count);
        forget_each(&mut self.documents, self.touched.as_slice());
        self.touched.clear();
    }
}

// where the source of a change stands or would stand, if that continues a document that is there
fn place_in(documents: &[DocState], limits: Limits, taken: &Taken) -> Option<usize>
    ensures { is_some result
        ≡ continues_by_name limits (slice_get (map (with_prepared limits.keep) documents.now) taken.now.document)
        taken.now None }
{
    match documents.get(taken.document_number() as usize) {
        Some(document) => document.place_for(limits, taken),
        None => None,
    }
}

// prepares a change that continues a document
fn change(
    alloc: Global,
    documents: &mut Vec<DocState>,
    limits: Limits,
    taken: Taken,
    place_hint: usize,
    made: Option<&Document>,
) -> Result<(), AllocError>
    requires limits { IsLimits limits }
    requires continues { continues_by_name limits
        (slice_get (map (with_prepared limits.keep) documents.old.items) taken.document) taken None ≡ true }
    requires made { IfSome made (λ document. document.now
        ≡ text_of (record_by_name limits.keep
        (slice_get (map (with_prepared limits.keep) documents.old.items) taken.document) taken None)) }
    ensures ok { OnOk result (documents.new.items
        ≡ changed_at (with_next (next_of taken)) taken.document documents.old.items) }
    ensures unchanged { OnErr result (documents.new.items ≡ documents.old.items) }
{
    let number = taken.document_number() as usize;
    documents[number].prepare_next(alloc, limits, taken, place_hint, made)?;
    Ok(())
}

// the document that a creation begins, with its first change prepared
fn begin(
    alloc: Global,
    limits: Limits,
    taken: &Taken,
    name: &Name,
    made: Option<&Document>,
) -> Result<DocState, AllocError>
    requires limits { IsLimits limits }
    requires begins { spec_begins limits taken.now ≡ true }
    requires made { IfSome made (λ document. document.now ≡ units_after [] taken.now.step taken.now.delta) }
    ensures ok { IfOk result (λ made. made ≡ begun name.now (next_of taken.now)) }
{
    let mut document = DocState::empty(alloc, name.copy(alloc)?);
    document.prepare_next(alloc, limits, taken.copy(alloc)?, 0, made)?;
    Ok(document)
}

// Adds a document with its name. Refused as out of memory alone, and then both are unchanged.
fn push_named(
    alloc: Global,
    documents: &mut Vec<DocState>,
    names: &mut Names,
    document: DocState,
    name: &Name,
    number: u32,
) -> Result<(), AllocError>
    ensures documents { OnOk result (documents.new.items ≡ documents.old.items ++ document ∷ []) }
    ensures names { OnOk result ((q : List ℕ)
        → get_by_text names.new.map q ≡ cond (bytes_eq name.now q) (Some number) (get_by_text names.old.map q)) }
    ensures documents_unchanged { OnErr result (documents.new.items ≡ documents.old.items) }
    ensures names_unchanged { OnErr result ((q : List ℕ) → get_by_text names.new.map q ≡ get_by_text names.old.map q) }
{
    documents.push(document)?;
    if names.insert(alloc, name, number).is_err() {
        drop(documents.pop());
        return Err(AllocError);
    }
    Ok(())
}

fn accept_each(documents: &mut Vec<DocState>, touched: &[u32], limits: Limits)
    ensures { documents.new.items ≡ changed_at_all (accepted limits.keep) touched.now documents.old.items }
{
    for number in touched {
        accept_one(documents, *number as usize, limits);
    }
}

fn accept_one(documents: &mut Vec<DocState>, number: usize, limits: Limits)
    ensures { documents.new.items ≡ changed_at (accepted limits.keep) number documents.old.items }
{
    if number < documents.len() {
        documents[number].accept(limits);
    }
}

fn prune_one(alloc: Global, documents: &mut Vec<DocState>, number: usize)
    ensures { documents.new.items ≡ documents.old.items }
{
    if number < documents.len() {
        documents[number].prune(alloc);
    }
}

fn forget_each(documents: &mut Vec<DocState>, touched: &[u32])
    ensures { documents.new.items ≡ changed_at_all forgotten touched.now documents.old.items }
{
    for number in touched {
        forget_one(documents, *number as usize);
    }
}

fn forget_one(documents: &mut Vec<DocState>, number: usize)
    ensures { documents.new.items ≡ changed_at forgotten number documents.old.items }
{
    if number < documents.len() {
        documents[number].forget();
    }
}

// takes the last documents away, with their names, so that `count` are left
fn drop_creations(documents: &mut Vec<DocState>, names: &mut Names, count: usize)
    requires some { count ≤ length documents.old.items }
    requires index { IsIndex (get_by_text names.old.map) (names_of documents.old.items) }
    requires once { NoneTwice (names_of documents.old.items) }
    ensures documents { documents.new.items ≡ take count documents.old.items }
    ensures index { IsIndex (get_by_text names.new.map) (names_of documents.new.items) }
    ensures once { NoneTwice (names_of documents.new.items) }
{
    while documents.len() > count {
        if let Some(document) = documents.pop() {
            names.remove(document.name());
        }
    }
}
