//! The calls of a file and their answers, kept where only clauses read them.
ghost use Rattle.std.specs.Prelude.{◌≡◌, ℕ, List, [], ◌∷◌, length};
ghost use Rattle.std.specs.Borrow.{ftrue};
ghost use Rattle.disk.specs.Event.{Event, Opened, Read, FailedRead, Write, FailedWrite, Sync, FailedSync};
ghost use Rattle.disk.specs.Note.{event_of};

use std::marker::{Model, PhantomData};

const OPENED: u64 = 0;

const READ: u64 = 1;

const FAILED_READ: u64 = 2;

const WRITE: u64 = 3;

const FAILED_WRITE: u64 = 4;

const SYNC: u64 = 5;

const FAILED_SYNC: u64 = 6;

/// A list of events, newest first. It takes no memory.
#[derive(Drop)]
pub struct Record {
    marker: PhantomData<u8>,
    pub ghost events: { List Event },
}

impl Model for Record {
    ghost also_owns = { λ _. ftrue };
}

impl Record {
    pub(crate) fn new() -> Record
        ensures { result.events ≡ [] }
    {
        Record {
            marker: PhantomData,
        }
    }

    /// Notes a content of this length, and no clause says which.
    pub(crate) fn note_opened(&mut self, len: u64)
        ensures { (bytes : List ℕ) × ((length bytes ≡ len) × (self.new.events ≡ Opened bytes ∷ self.old.events)) }
    {
        self.note(&[OPENED, 0, len], &[]);
    }

    pub(crate) fn note_read(&mut self, at: u64, bytes: &[u8])
        ensures { self.new.events ≡ Read at bytes.now ∷ self.old.events }
    {
        self.note(&[READ, at, 0], bytes);
    }

    pub(crate) fn note_failed_read(&mut self)
        ensures { self.new.events ≡ FailedRead ∷ self.old.events }
    {
        self.note(&[FAILED_READ, 0, 0], &[]);
    }

    pub(crate) fn note_write(&mut self, at: u64, bytes: &[u8])
        ensures { self.new.events ≡ Write at bytes.now ∷ self.old.events }
    {
        self.note(&[WRITE, at, 0], bytes);
    }

    pub(crate) fn note_failed_write(&mut self, at: u64, count: u64)
        ensures { self.new.events ≡ FailedWrite at count ∷ self.old.events }
    {
        self.note(&[FAILED_WRITE, at, count], &[]);
    }

    pub(crate) fn note_sync(&mut self)
        ensures { self.new.events ≡ Sync ∷ self.old.events }
    {
        self.note(&[SYNC, 0, 0], &[]);
    }

    pub(crate) fn note_failed_sync(&mut self)
        ensures { self.new.events ≡ FailedSync ∷ self.old.events }
    {
        self.note(&[FAILED_SYNC, 0, 0], &[]);
    }

    // Its proof is by hand, since it sets what no memory holds. The numbers are those above, an offset and a count.
    fn note(&mut self, _numbers: &[u64], _bytes: &[u8])
        ensures { self.new.events ≡ event_of _numbers.now _bytes.now ∷ self.old.events }
    {}
}
