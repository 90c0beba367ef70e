//! What the system was asked, kept where only clauses read it.
ghost use Rattle.std.specs.Prelude.{◌≡◌, ℕ, List, [], ◌∷◌};
ghost use Rattle.std.specs.Borrow.{ftrue};
ghost use Rattle.disk.specs.Crash.{history_of};
ghost use Rattle.server.specs.Calls.{Call, Closed, Left, call_of};
ghost use Rattle.sockets.specs.Host.{arrivals_of};

use disk::{Disk, FileDisk};
use sockets::HostListener;
use std::marker::{Model, PhantomData};

/// A list of calls, newest first. It takes no memory.
#[derive(Drop)]
pub(crate) struct Notes {
    marker: PhantomData<u8>,
    pub ghost calls: { List Call },
}

impl Model for Notes {
    ghost also_owns = { λ _. ftrue };
}

impl Notes {
    pub(crate) fn new() -> Notes
        ensures { result.calls ≡ [] }
    {
        Notes {
            marker: PhantomData,
        }
    }

    /// Notes a call, by its kind and the name of a file or an address. Its proof is by hand, since it sets what no memory holds.
    pub(crate) fn note(&mut self, _numbers: &[u64], _bytes: &[u8])
        ensures { self.new.calls ≡ call_of _numbers.now _bytes.now ∷ self.old.calls }
    {}

    /// Notes that a file is closed, by its name and what its device tells. Its proof is by hand too.
    pub(crate) fn note_closed(&mut self, _path: &[u8], _disk: &FileDisk)
        ensures { self.new.calls ≡ Closed _path.now (history_of ⟦<FileDisk as Disk>⟧ _disk.now) ∷ self.old.calls }
    {}

    /// Notes that a listener is closed, by its address and what it has noted itself. Its proof is by hand too.
    pub(crate) fn note_left(&mut self, _address: &[u8], _listener: &HostListener)
        ensures { self.new.calls ≡ Left _address.now (arrivals_of _listener.now) ∷ self.old.calls }
    {}
}
