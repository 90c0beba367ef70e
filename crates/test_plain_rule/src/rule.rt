//! The state, and the answers to commands.
use crate::letters::{Mark, applied, back, normal, past, width};
use refusal::Refusal;
use std::alloc::Global;

/// How many of a source's last numbers are retries.
const WINDOW: u64 = 16;

/// What an entry has beside its delta and the source's name.
const ENTRY: u64 = 23;

/// How much a store takes: documents, sources of each, the weight of each, the width of an entry, and the revisions that are held below
/// the newest one.
#[derive(Clone, Copy, Drop)]
pub struct Limits {
    pub docs: usize,
    pub sources: usize,
    pub weight: u64,
    pub width: u64,
    pub keep: u64,
}

/// What is asked for, without its operations.
#[derive(Clone, Copy, PartialEq, Eq)]
pub enum Action {
    Create,
    /// An edit that was made on this revision.
    Edit(u64),
    Undo,
    Delete,
}

/// A command. Its delta needn't be normal, and of an undo and a deletion it says nothing.
#[derive(Drop)]
pub struct Command {
    pub doc: &'static str,
    pub source: &'static str,
    pub number: u64,
    pub action: Action,
    pub delta: Vec<Mark>,
}

/// What a command of few plain letters is refused for: no pair of surrogates is parted, and no document comes to its last revision.
pub const REFUSALS: [Refusal; 13] = [
    Refusal::NoDocument,
    Refusal::Exists,
    Refusal::Gap,
    Refusal::OldNumber,
    Refusal::TooManySources,
    Refusal::Future,
    Refusal::TooOld,
    Refusal::PastEnd,
    Refusal::TooHeavy,
    Refusal::TooWide,
    Refusal::NothingToUndo,
    Refusal::TooManyDocuments,
    Refusal::Deleted,
];

/// The revision that a command made, now or before.
#[derive(Clone, Copy, Debug, PartialEq, Eq)]
pub enum Reply {
    Taken(u64),
    Again(u64),
}

/// A source, and the revisions that its numbers made, from 1 on.
#[derive(Drop)]
struct Source {
    name: &'static str,
    made: Vec<u64>,
}

/// A document: at each revision from 0 on the text there, and for each from 1 on the delta that made it, which of a deletion is empty.
#[derive(Drop)]
struct Doc {
    name: &'static str,
    is_live: bool,
    texts: Vec<Vec<u8>>,
    deltas: Vec<Vec<Mark>>,
    floor: u64,
    sources: Vec<Source>,
}

/// Documents, and the rule by which they take commands.
#[derive(Drop)]
pub struct Rule {
    limits: Limits,
    docs: Vec<Doc>,
}

impl Doc {
    fn revision(&self) -> u64 {
        self.deltas.len() as u64
    }

    fn text(&self, revision: u64) -> &[u8] {
        match self.texts.get(revision as usize) {
            Some(text) => text.as_slice(),
            None => &[],
        }
    }

    fn delta(&self, revision: u64) -> &[Mark] {
        match self.deltas.get((revision as usize).saturating_sub(1)) {
            Some(delta) => delta.as_slice(),
            None => &[],
        }
    }

    fn source(&self, name: &str) -> Option<&Source> {
        self.sources.iter().find(|source| source.name == name)
    }

    fn last(&self, source: &str) -> u64 {
        match self.source(source) {
            Some(found) => found.made.len() as u64,
            None => 0,
        }
    }

    // The revision of a number that is a retry.
    fn again(&self, source: &str, number: u64) -> Option<u64> {
        let made = &self.source(source)?.made;
        if number.saturating_add(WINDOW) <= made.len() as u64 {
            return None;
        }
        made.get((number as usize).saturating_sub(1)).copied()
    }

    // What a document of so many letters weighs with one number more of a source.
    fn weight(&self, letters: usize, source: &str) -> u64 {
        let mut weight = 12_u64.saturating_mul(letters as u64);
        for other in &self.sources {
            let numbers = (other.made.len() as u64).min(WINDOW);
            weight = weight
                .saturating_add(56)
                .saturating_add(8_u64.saturating_mul(numbers));
        }
        match self.last(source) {
            0 => weight.saturating_add(64),
            last if last < WINDOW => weight.saturating_add(8),
            _ => weight,
        }
    }

    // A delta past all that were taken since a revision.
    fn late(&self, alloc: Global, delta: &[Mark], base: u64) -> Result<Vec<Mark>, Refusal> {
        let mut late = normal(alloc, delta)?;
        for taken in self.deltas.iter().skip(base as usize) {
            late = past(alloc, taken, &late)?;
        }
        Ok(late)
    }

    // One revision more, which is the floor where it deletes the document or creates it again.
    fn take(
        &mut self,
        alloc: Global,
        source: &'static str,
        made: (Vec<u8>, Vec<Mark>),
        is_live: bool,
        keep: u64,
    ) -> Result<Reply, Refusal> {
        let (text, delta) = made;
        self.texts.push(text)?;
        self.deltas.push(delta)?;
        let revision = self.revision();
        let floor = if is_live == self.is_live {
            revision.saturating_sub(keep)
        } else {
            revision
        };
        self.floor = self.floor.max(floor);
        self.is_live = is_live;
        if self.source(source).is_none() {
            self.sources.push(Source {
                name: source,
                made: Vec::new(alloc),
            })?;
        }
        for found in self.sources.as_mut_slice() {
            if found.name == source {
                found.made.push(revision)?;
            }
        }
        Ok(Reply::Taken(revision))
    }

    // The answer to a command on a document that is there.
    fn decide(
        &mut self,
        alloc: Global,
        command: &Command,
        limits: Limits,
    ) -> Result<Reply, Refusal> {
        if let Some(revision) = self.again(command.source, command.number) {
            return Ok(Reply::Again(revision));
        }
        let last = self.last(command.source);
        self.admit(command, last, limits)?;
        match command.action {
            Action::Delete => self.delete(alloc, command.source, limits),
            Action::Create => {
                let delta = normal(alloc, &command.delta)?;
                self.change(alloc, command.source, delta, ENTRY, limits)
            }
            Action::Edit(base) => {
                let delta = self.late(alloc, &command.delta, base)?;
                self.change(alloc, command.source, delta, ENTRY, limits)
            }
            Action::Undo => {
                let delta = self.undo(alloc, command.source)?;
                self.change(alloc, command.source, delta, ENTRY, limits)
            }
        }
    }

    // What is refused by names, numbers and revisions alone.
    fn admit(&self, command: &Command, last: u64, limits: Limits) -> Result<(), Refusal> {
        let is_creation = command.action == Action::Create;
        if is_creation && self.is_live {
            return Err(Refusal::Exists);
        }
        if command.number <= last {
            return Err(Refusal::OldNumber);
        }
        if command.number.saturating_sub(last) > 1 {
            return Err(Refusal::Gap);
        }
        if !is_creation && !self.is_live {
            return Err(Refusal::Deleted);
        }
        if command.action == Action::Undo && last == 0 {
            return Err(Refusal::NothingToUndo);
        }
        if last == 0 && self.sources.len() >= limits.sources {
            return Err(Refusal::TooManySources);
        }
        match command.action {
            Action::Edit(base) if base > self.revision() => Err(Refusal::Future),
            Action::Edit(base) if base < self.floor => Err(Refusal::TooOld),
            Action::Undo if self.newest_of(command.source) <= self.floor => Err(Refusal::TooOld),
            _ => Ok(()),
        }
    }

    // The last revision that a source made, 0 without one.
    fn newest_of(&self, source: &str) -> u64 {
        match self.source(source) {
            Some(found) => found.made.last().copied().unwrap_or(0),
            None => 0,
        }
    }

    // What takes a source's last change back, past what was taken since.
    fn undo(&self, alloc: Global, source: &str) -> Result<Vec<Mark>, Refusal> {
        let last = self.newest_of(source);
        let before = self.text(last.saturating_sub(1));
        let delta = back(alloc, before, self.delta(last))?;
        self.late(alloc, &delta, last)
    }

    fn delete(
        &mut self,
        alloc: Global,
        source: &'static str,
        limits: Limits,
    ) -> Result<Reply, Refusal> {
        if self.weight(0, source) > limits.weight {
            return Err(Refusal::TooHeavy);
        }
        if ENTRY.saturating_add(source.len() as u64) > limits.width {
            return Err(Refusal::TooWide);
        }
        let nothing = (Vec::new(alloc), Vec::new(alloc));
        self.take(alloc, source, nothing, false, limits.keep)
    }

    // A delta that is to be taken on the newest text, in an entry of so many bytes beside it and the source's name.
    fn change(
        &mut self,
        alloc: Global,
        source: &'static str,
        delta: Vec<Mark>,
        entry: u64,
        limits: Limits,
    ) -> Result<Reply, Refusal> {
        let text = applied(alloc, self.text(self.revision()), &delta)?;
        if self.weight(text.len(), source) > limits.weight {
            return Err(Refusal::TooHeavy);
        }
        let width = width(&delta).saturating_add(entry);
        if width.saturating_add(source.len() as u64) > limits.width {
            return Err(Refusal::TooWide);
        }
        self.take(alloc, source, (text, delta), true, limits.keep)
    }
}

impl Rule {
    /// No document.
    pub fn new(alloc: Global, limits: Limits) -> Rule {
        Rule {
            limits,
            docs: Vec::new(alloc),
        }
    }

    fn doc(&self, name: &str) -> Option<&Doc> {
        self.docs.iter().find(|doc| doc.name == name)
    }

    /// A source's last number on a document, 0 without one.
    pub fn last(&self, doc: &str, source: &str) -> u64 {
        match self.doc(doc) {
            Some(found) => found.last(source),
            None => 0,
        }
    }

    /// A document's newest revision, 0 where it isn't there.
    pub fn revision(&self, doc: &str) -> u64 {
        match self.doc(doc) {
            Some(found) => found.revision(),
            None => 0,
        }
    }

    /// A document's floor, 0 where it isn't there.
    pub fn floor(&self, doc: &str) -> u64 {
        match self.doc(doc) {
            Some(found) => found.floor,
            None => 0,
        }
    }

    /// How many documents there are, deleted ones too.
    pub fn count(&self) -> usize {
        self.docs.len()
    }

    /// The name of the document at a place, which is empty where there is none.
    pub fn name(&self, place: usize) -> &'static str {
        match self.docs.get(place) {
            Some(found) => found.name,
            None => "",
        }
    }

    /// A document's text at a revision.
    pub fn read(&self, doc: &str, revision: u64) -> Result<&[u8], Refusal> {
        let Some(found) = self.doc(doc) else {
            return Err(Refusal::NoDocument);
        };
        if !found.is_live {
            return Err(Refusal::Deleted);
        }
        if revision > found.revision() {
            return Err(Refusal::Future);
        }
        if revision < found.floor {
            return Err(Refusal::TooOld);
        }
        Ok(found.text(revision))
    }

    /// A store that was opened again may hold less of a document's past: the floor rises to this revision. One that isn't held is
    /// refused.
    pub fn raise(&mut self, doc: &str, floor: u64) -> Result<(), Refusal> {
        for found in self.docs.as_mut_slice() {
            if found.name == doc && found.floor <= floor && floor <= found.revision() {
                found.floor = floor;
                return Ok(());
            }
        }
        Err(Refusal::TooOld)
    }

    /// The answer to a command, whose number is 1 or above.
    pub fn decide(&mut self, alloc: Global, command: &Command) -> Result<Reply, Refusal> {
        let limits = self.limits;
        for found in self.docs.as_mut_slice() {
            if found.name == command.doc {
                return found.decide(alloc, command, limits);
            }
        }
        if command.action != Action::Create {
            return Err(Refusal::NoDocument);
        }
        if command.number > 1 {
            return Err(Refusal::Gap);
        }
        if self.docs.len() >= limits.docs {
            return Err(Refusal::TooManyDocuments);
        }
        self.create(alloc, command)
    }

    // A document that isn't there begins with the empty text.
    fn create(&mut self, alloc: Global, command: &Command) -> Result<Reply, Refusal> {
        let mut made = Doc {
            name: command.doc,
            is_live: true,
            texts: Vec::new(alloc),
            deltas: Vec::new(alloc),
            floor: 0,
            sources: Vec::new(alloc),
        };
        made.texts.push(Vec::new(alloc))?;
        let delta = normal(alloc, &command.delta)?;
        let entry = ENTRY
            .saturating_add(2)
            .saturating_add(command.doc.len() as u64);
        let reply = made.change(alloc, command.source, delta, entry, self.limits)?;
        self.docs.push(made)?;
        Ok(reply)
    }
}
