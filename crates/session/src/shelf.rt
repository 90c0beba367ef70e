//! Documents at older revisions, kept for the next one who asks for them.
ghost use Rattle.std.specs.Prelude.{◌≡◌, ◌≤◌, [], length, IfOk, IfSome};
ghost use Rattle.std.specs.Fn.{FnOnceReturnsAt};
ghost use Rattle.std.specs.String.{string_bytes};
ghost use Rattle.revision.specs.Past.{newest};
ghost use Rattle.revision.specs.Pending.{record_of};
ghost use Rattle.revision.specs.Readings.{document_at, past_at, read_as};
ghost use Rattle.revision.specs.State as spec;
ghost use Rattle.session.specs.Shelf.{Fits, IsGiven, IsGivenLook, IsShown};

use document::Document;
use lru::LruCache;
use refusal::Refusal;
use revision::{DocState, Name, State};
use std::alloc::{AllocError, Global};
use std::marker::Model;
use std::num::NonZeroUsize;

/// How many documents are kept at most.
const PLACES: usize = 64;

/// How many bytes those that are kept have together at most, where they are more than one.
const ROOM: u64 = 16 << 20;

/// How many bytes a run of a document takes beside its letters, at most.
const RUN: u64 = 450;

/// The name of a document, and a revision of it.
#[derive(PartialEq, Eq, Hash, Drop)]
struct Key {
    name: String,
    revision: u64,
}

impl Key {
    fn new(alloc: Global, name: &Name, revision: u64) -> Result<Key, AllocError>
        ensures name { IfOk result (λ key. string_bytes key.name ≡ name.now) }
        ensures revision { IfOk result (λ key. key.revision ≡ revision) }
    {
        let name = String::from_str(alloc, name.as_str())?;
        Ok(Key { name, revision })
    }
}

/// The documents at older revisions that were last asked for, each under its name and its revision: 64 at most, and no more than have 16 MiB
/// together, or one that is larger.
#[derive(Drop)]
pub struct Shelf {
    documents: LruCache<Key, Document>,
}

impl Model for Shelf {
    ghost use Rattle.std.specs.Prelude.{◌≡◌, List, map};
    ghost use Rattle.std.specs.String.{string_bytes};
    ghost use Rattle.session.specs.Shelf.{Kept};

    ghost Value = { List Kept };

    ghost view = { λ s. map
        (λ entry. record { name = string_bytes entry.0.name; revision = entry.0.revision; units = entry.1 })
        s.documents.entries };

    ghost invariant = { λ s. s.documents.cap ≡ 64 };
}

/// What came of looking for a document on the shelf. `Shelf::note` takes it afterwards. Its value is the document where it had to
/// be made, and none where it was there.
#[derive(Drop)]
pub struct Look {
    key: Key,
    made: Option<Document>,
}

impl Model for Look {
    ghost use Rattle.std.specs.Prelude.{Option, option_map};
    ghost use Rattle.std.specs.String.{string_bytes};
    ghost use Rattle.session.specs.Shelf.{Kept};

    ghost Value = { Option Kept };

    ghost view = { λ l. option_map
        (λ units. record { name = string_bytes l.key.name; revision = l.key.revision; units = units }) l.made };
}

impl Shelf {
    /// An empty shelf. Refused as out of memory alone.
    pub fn new(alloc: Global) -> Result<Shelf, AllocError>
        ensures empty { IfOk result (λ shelf. shelf ≡ []) }
    {
        let places = NonZeroUsize::new(PLACES).unwrap();
        match LruCache::new(alloc, places) {
            Ok(documents) => Ok(Shelf { documents }),
            Err(_) => Err(AllocError),
        }
    }

    /// How many documents are kept, 64 at most.
    #[allow(clippy::len_without_is_empty)]
    pub fn len(&self) -> usize
        ensures len { result ≡ length self.now }
        ensures bound { length self.now ≤ 64 }
    {
        self.documents.len()
    }

    /// Shows what stood in a document at a revision, and gives the look to be noted. Refused with `NoDocument`, `Deleted` where it is
    /// deleted now, `Future` where the revision is above the newest one, `TooOld` where it is below the floor, and out of memory where the
    /// document can't be made.
    pub fn show<R, F: Drop + FnOnce(&Document) -> R>(
        &self,
        alloc: Global,
        state: &State,
        name: &Name,
        revision: u64,
        show: F,
    ) -> Result<(R, Option<Look>), Refusal>
        requires { F.IsAlwaysCallable show }
        // Over a shelf that fits the state it is what is shown without one.
        ensures shown { Fits state.now self.now → IsShown (λ units answer. FnOnceReturnsAt F.FnOnce show units answer.0)
            (document_at state.now name.now revision) result }
        ensures given { IfOk result (λ shown. IsGivenLook state.now shown.1) }
    {
        let found = held_at(state, name, revision)?;
        let Ok(key) = Key::new(alloc, name, revision) else {
            let document = found.document_at(alloc, revision)?;
            return Ok((show(&document), None));
        };
        if let Some(document) = self.documents.peek(&key) {
            let shown = show(document);
            return Ok((shown, Some(Look { key, made: None })));
        }
        let document = found.document_at(alloc, revision)?;
        let shown = show(&document);
        Ok((
            shown,
            Some(Look {
                key,
                made: Some(document),
            }),
        ))
    }

    /// Notes a look. A document that was made is kept, if there is memory for it, and those that nobody asked for longest give way to it.
    pub fn note(&mut self, look: Look)
        ensures { (state : spec.State) → Fits state self.old → IfSome look (IsGiven state) → Fits state self.new }
    {
        let Look { key, made } = look;
        match made {
            Some(document) => self.keep(key, document),
            None => {
                self.documents.promote(&key);
            }
        }
    }

    // Keeps a document, if there is memory for it, and lets others go for it.
    fn keep(&mut self, key: Key, document: Document)
        ensures { (state : spec.State) → Fits state self.old
            → IsGiven state (record { name = string_bytes key.name; revision = key.revision; units = document }) → Fits state self.new }
    {
        drop(self.documents.put(key, document));
        self.let_go();
    }

    // Lets those go that nobody asked for longest, until the others have room together or one is left.
    fn let_go(&mut self)
        ensures { (state : spec.State) → Fits state self.old → Fits state self.new }
    {
        let mut size = self.size();
        for _ in 1..self.documents.len() {
            if size <= ROOM {
                return;
            }
            if let Some((_, document)) = self.documents.pop_lru() {
                size = size.saturating_sub(size_of(&document));
            }
        }
    }

    // How many bytes those that are kept have together.
    fn size(&self) -> u64 {
        let mut size: u64 = 0;
        for (_, document) in self.documents.iter() {
            size = size.saturating_add(size_of(document));
        }
        size
    }
}

// How many bytes a document has in memory, at most where its letters are of one byte each.
fn size_of(document: &Document) -> u64 {
    let mut runs: u64 = 0;
    for chunk in document.chunks() {
        runs = runs.saturating_add(chunk.runs().len() as u64);
    }
    document.len16().saturating_add(runs.saturating_mul(RUN))
}

// The document of a name, where it isn't deleted and holds a revision.
fn held_at<'a>(state: &'a State, name: &Name, revision: u64) -> Result<&'a DocState, Refusal>
    ensures past { read_as (λ found. (record_of found.now).past) result ≡ past_at state.now name.now revision }
    ensures held { IfOk result (λ found. found.now.past.past.floor ≤ revision) }
    ensures there { IfOk result (λ found. revision ≤ newest found.now.past.past) }
{
    let Some((_, found)) = state.find(name) else {
        return Err(Refusal::NoDocument);
    };
    if !found.is_live() {
        return Err(Refusal::Deleted);
    }
    if revision > found.revision() {
        return Err(Refusal::Future);
    }
    if revision < found.floor() {
        return Err(Refusal::TooOld);
    }
    Ok(found)
}
