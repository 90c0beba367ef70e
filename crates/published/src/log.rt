//! The log of a run.
ghost use Rattle.std.specs.Prelude.{◌≡◌, ◌++◌, ◌∷◌, []};
ghost use mathlib.Core.List.{IsPrefix};
ghost use Rattle.revision.specs.State.{fold};
ghost use Rattle.recovery.specs.Found.{commands_of};
ghost use Rattle.recovery.specs.Moment.{IsMomentOf, moment_of};
ghost use Rattle.published.specs.Moments.{AreMoments};

use crate::batch::{AtReceipt, BatchItem, MomentItem, OfReceipt};
use crate::ledgers::Ledgers;
use crate::life::Life;
use crate::moments::Moments;
use crate::order::Order;
use crate::prefix::PublishedPrefix;
use crate::told::Told;
use disk::Disk;
use ownlog::Owner;
use recovery::Receipt;
use std::marker::{Model, PhantomData};
use std::sync::ledger::Blank;
use world::Entry;

/// The empty logs of a run that has no name yet, and its three empty ledgers. Contracts see them as their own names.
pub struct Opened {
    batches: Owner<BatchItem>,
    order: Owner<Entry>,
    moments: Owner<MomentItem>,
    takes: Blank,
    settles: Blank,
    ends: Blank,
}

impl Model for Opened {
    ghost use Rattle.std.specs.Prelude.{◌≡◌, []};
    ghost use Rattle.published.specs.Books.{Books, books_coded};

    ghost Value = { Books };

    ghost coded = { books_coded };

    ghost view = { λ o. record {
      logs = record { published = o.batches.book; ordered = o.order.book; timed = o.moments.book };
      takes = o.takes.name;
      settles = o.settles.name;
      ends = o.ends.name;
    } };

    ghost invariant = { λ o. (o.batches.items ≡ []) × (o.order.items ≡ [])
        × (o.moments.items ≡ []) × (o.takes.parts ≡ 1) × (o.settles.parts ≡ 1) × (o.ends.parts ≡ 1) };
}

impl Opened {
    /// New logs and ledgers. `None` where a word of theirs was changed before it was made, for which there is no room. It takes no memory.
    pub fn new() -> Option<Opened> {
        Some(Opened {
            batches: Owner::open()?,
            order: Owner::open()?,
            moments: Owner::open()?,
            takes: Blank::new(1),
            settles: Blank::new(1),
            ends: Blank::new(1),
        })
    }

    /// The logs as those of a run, and the token of its start, which names no batch. The order has the ledgers. It takes no memory.
    pub fn named<D, L: Life>(self) -> (Log<D, L>, Told<D, L>, Order<L>)
        requires { self ≡ L.book }
        ensures log { result.0 ≡ record { batches = []; moments = [] } }
        ensures told { result.1 ≡ [] }
        ensures order { result.2 ≡ [] }
    {
        let Opened {
            batches,
            order,
            moments,
            takes,
            settles,
            ends,
        } = self;
        let log = Log {
            owner: batches,
            moments,
            of: PhantomData,
        };
        let order = Order {
            owner: order,
            ledgers: Ledgers::of(takes, settles, ends),
            of: PhantomData,
        };
        let prefix = PublishedPrefix {
            batches: 0,
            len: 0,
            log: log.owner.front(),
            order: order.ordered(),
            moments: log.moments(),
        };
        (log, Told::of(prefix), order)
    }
}

/// The log of what a run over a device of this type has published, and beside each batch the moment at which its commit had ended. Only who
/// owns it publishes. Contracts see it as its batches, the oldest first, and their moments. It takes two words of memory, however long it is.
#[derive(Drop)]
pub struct Log<D, L: Life> {
    pub(crate) owner: Owner<BatchItem>,
    pub(crate) moments: Owner<MomentItem>,
    pub(crate) of: PhantomData<(D, L)>,
}

impl<D, L: Life> Model for Log<D, L> {
    ghost use Rattle.std.specs.Prelude.{◌≡◌};
    ghost use Rattle.published.specs.Moments as spec;

    ghost Value = { spec.Log };

    ghost view = { λ l. record { batches = l.owner.items; moments = l.moments.items } };

    ghost invariant = { λ l. (l.owner.book ≡ L.book.logs.published) × (l.moments.book ≡ L.book.logs.timed)
        × spec.AreMoments L.start l.owner.items l.moments.items };
}

impl<D, L: Life> Log<D, L> {
    /// Each token names a prefix of the log. It takes no memory.
    pub fn covers(&mut self, told: &Told<D, L>)
        ensures begins { IsPrefix told.now self.old.batches }
        ensures same { self.new ≡ self.old }
    {
        self.owner.covers(&told.prefix.log);
    }

    /// What each log keeps, for the prover: there is one moment for each batch, at which a store held exactly what the batches up to this
    /// one make of the run's start, and its device was synced. It does nothing.
    pub fn facts(&self)
        ensures { AreMoments L.start self.now.batches self.now.moments }
    {
        let _ = &self.moments;
    }

    // A token of all the moments. It takes no memory.
    pub(crate) fn moments(&self) -> Moments<L>
        ensures { result ≡ self.now.moments }
    {
        Moments {
            front: self.moments.front(),
            of: PhantomData,
        }
    }

    /// The moments of each token are a prefix of those of the log. It takes no memory.
    pub fn covers_moments(&mut self, moments: &Moments<L>)
        ensures begins { IsPrefix moments.now self.old.moments }
        ensures same { self.new ≡ self.old }
    {
        self.moments.covers(&moments.front);
    }
}

impl<D: Disk, L: Life> Log<D, L> {
    // Puts a batch behind the log that was committed after those of the log, with the moment at which its commit had ended. It takes no
    // memory.
    #[tactic(auto, using(crate::proofs::Timed::moments_more))]
    pub(crate) fn put(&mut self, receipt: &Receipt<D>)
        requires { IsMomentOf (fold L.start (commands_of (self.old.batches ++ receipt.now.batch ∷ [])))
            (moment_of ⟦<D as Disk>⟧ receipt.now.at) }
        ensures { self.new ≡ record {
          batches = self.old.batches ++ receipt.now.batch ∷ [];
          moments = self.old.moments ++ moment_of ⟦<D as Disk>⟧ receipt.now.at ∷ [];
        } }
    {
        self.owner.append_as::<Receipt<D>, OfReceipt>(receipt);
        self.moments.append_as::<Receipt<D>, AtReceipt>(receipt);
    }
}
