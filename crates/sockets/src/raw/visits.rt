//! The visits of those who have gone, kept where only clauses read them.
ghost use Rattle.std.specs.Prelude.{◌≡◌, List, [], ◌∷◌, ◌++◌};
ghost use Rattle.std.specs.Borrow.{ftrue};
ghost use Rattle.sockets.specs.declared.raw.Visit.{Visit};

use crate::raw::{SocketNotes, Visit};
use std::marker::{Model, PhantomData};

/// A list of visits, in the order in which they ended. It takes no memory.
#[derive(Drop)]
pub struct Visits {
    marker: PhantomData<u8>,
    pub ghost list: { List Visit },
}

impl Model for Visits {
    ghost also_owns = { λ _. ftrue };
}

impl Visits {
    /// Nobody has gone.
    pub(crate) fn new() -> Visits
        ensures { result.list ≡ [] }
    {
        Visits {
            marker: PhantomData,
        }
    }

    /// One visit more has ended.
    pub(crate) fn add(&mut self, visit: Visit)
        ensures { self.new.list ≡ self.old.list ++ visit ∷ [] }
    {
        self.note(&visit.reads, &visit.writes);
    }

    // Its proof is by hand, since it sets what no memory holds.
    fn note(&mut self, _reads: &SocketNotes, _writes: &SocketNotes)
        ensures { self.new.list ≡ self.old.list ++ record { reads = _reads.now; writes = _writes.now } ∷ [] }
    {}
}
