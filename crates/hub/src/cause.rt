//! Why a board is ended.
ghost use Rattle.std.specs.Prelude.{◌≡◌, ◌⊎◌, true, false, List};
ghost use Rattle.recovery.specs.Freed.{IsSpent};
ghost use Rattle.recovery.specs.Open.{IsOpen, has_failed, has_room};
ghost use Rattle.revision.specs.Command.{Taken};

use disk::Disk;
use published::{Life, Log};
use recovery::Store;
use refusal::Refusal;
use std::marker::{Model, PhantomData};
use std::snapshot::Snapshot;

/// Why the store of a life takes no batch any more: its device has failed, or a batch had no room in it and the last segment that there can
/// be was opened. Only who has the life's log of what is published makes one, which is its flusher alone. It can't be copied, and ending a
/// board uses it up. Contracts see it as the refusal.
#[derive(Drop)]
pub struct Cause<L: Life> {
    refusal: Refusal,
    of: PhantomData<L>,
}

impl<L: Life> Model for Cause<L> {
    ghost use Rattle.refusal.specs.declared.Refusal.{Refusal as Why};

    ghost Value = { Why };

    ghost view = { λ c. c.refusal };
}

impl<L: Life> Cause<L> {
    /// The device of this store has failed, by whoever has the life's log.
    pub fn failed<D: Disk>(log: &Log<D, L>, store: &Store<D>) -> Cause<L>
        requires { has_failed store.now ≡ true }
        ensures { result ≡ Refusal.Fault }
    {
        let _ = log;
        let _ = store;
        Cause {
            refusal: Refusal::Fault,
            of: PhantomData,
        }
    }

    /// A batch had no room in the store of this moment, whose last segment was opened, by whoever has the life's log.
    pub fn full<D: Disk>(log: &Log<D, L>, then: &Snapshot<Store<D>>, refusal: Refusal) -> Cause<L>
        requires full { (refusal ≡ Refusal.JournalFull) ⊎ (refusal ≡ Refusal.StillNeeded) }
        requires room { (batch : List Taken) × (has_room then.now.value batch ≡ false) }
        requires last { IsOpen then.now.value → IsSpent then.now.value }
        ensures { result ≡ refusal }
    {
        let _ = log;
        let _ = then;
        Cause {
            refusal,
            of: PhantomData,
        }
    }

    /// The refusal.
    pub fn refusal(&self) -> Refusal
        ensures { result ≡ self.now }
    {
        self.refusal
    }
}
