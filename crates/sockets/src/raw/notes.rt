//! What a listener and its connections were asked and what came of it, kept where only clauses read it.
ghost use Rattle.std.specs.Prelude.{◌≡◌, List, [], ◌∷◌};
ghost use Rattle.std.specs.Borrow.{ftrue};
ghost use Rattle.sockets.specs.Socket.{Event, Came, AcceptFailed, Read, ReadWaited, InputEnded, ReadFailed, Wrote, WriteWaited, WriteFailed, Closed};
ghost use Rattle.sockets.specs.Note.{event_of};

use std::marker::{Model, PhantomData};

const CAME: u64 = 0;

const ACCEPT_FAILED: u64 = 1;

const READ: u64 = 2;

const READ_WAITED: u64 = 3;

const INPUT_ENDED: u64 = 4;

const READ_FAILED: u64 = 5;

const WROTE: u64 = 6;

const WRITE_WAITED: u64 = 7;

const WRITE_FAILED: u64 = 8;

const CLOSED: u64 = 9;

/// A list of events, newest first. It takes no memory.
#[derive(Drop)]
pub struct SocketNotes {
    marker: PhantomData<u8>,
    pub ghost events: { List Event },
}

impl Model for SocketNotes {
    ghost also_owns = { λ _. ftrue };
}

impl SocketNotes {
    pub(super) fn new() -> SocketNotes
        ensures { result.events ≡ [] }
    {
        SocketNotes {
            marker: PhantomData,
        }
    }

    pub(super) fn note_came(&mut self)
        ensures { self.new.events ≡ Came ∷ self.old.events }
    {
        self.note(&[CAME], &[]);
    }

    pub(super) fn note_accept_failed(&mut self)
        ensures { self.new.events ≡ AcceptFailed ∷ self.old.events }
    {
        self.note(&[ACCEPT_FAILED], &[]);
    }

    pub(super) fn note_read(&mut self, bytes: &[u8])
        ensures { self.new.events ≡ Read bytes.now ∷ self.old.events }
    {
        self.note(&[READ], bytes);
    }

    pub(super) fn note_read_waited(&mut self)
        ensures { self.new.events ≡ ReadWaited ∷ self.old.events }
    {
        self.note(&[READ_WAITED], &[]);
    }

    pub(super) fn note_input_ended(&mut self)
        ensures { self.new.events ≡ InputEnded ∷ self.old.events }
    {
        self.note(&[INPUT_ENDED], &[]);
    }

    pub(super) fn note_read_failed(&mut self)
        ensures { self.new.events ≡ ReadFailed ∷ self.old.events }
    {
        self.note(&[READ_FAILED], &[]);
    }

    pub(super) fn note_wrote(&mut self, bytes: &[u8])
        ensures { self.new.events ≡ Wrote bytes.now ∷ self.old.events }
    {
        self.note(&[WROTE], bytes);
    }

    pub(super) fn note_write_waited(&mut self)
        ensures { self.new.events ≡ WriteWaited ∷ self.old.events }
    {
        self.note(&[WRITE_WAITED], &[]);
    }

    pub(super) fn note_write_failed(&mut self)
        ensures { self.new.events ≡ WriteFailed ∷ self.old.events }
    {
        self.note(&[WRITE_FAILED], &[]);
    }

    pub(super) fn note_closed(&mut self)
        ensures { self.new.events ≡ Closed ∷ self.old.events }
    {
        self.note(&[CLOSED], &[]);
    }

    // Its proof is by hand, since it sets what no memory holds. The number is one of those above.
    fn note(&mut self, _numbers: &[u64], _bytes: &[u8])
        ensures { self.new.events ≡ event_of _numbers.now _bytes.now ∷ self.old.events }
    {}
}
