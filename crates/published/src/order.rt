//! The order of a run, and tokens of it.
ghost use Rattle.std.specs.Prelude.{◌≡◌, ◌++◌, ◌∷◌, [], List};
ghost use mathlib.Core.List.{IsPrefix};
ghost use Rattle.revision.specs.State.{fold};
ghost use Rattle.recovery.specs.Found.{commands_of};
ghost use Rattle.world.specs.World.{takens, Entry as Kept};
ghost use Rattle.published.specs.Order.{IsLegal, WasTaken};

use crate::ledgers::Ledgers;
use crate::life::Life;
use crate::told::Told;
use ownlog::{Front, Owner};
use std::marker::{Model, PhantomData};
use world::Entry;

/// The order of a run: a legal history from the state that its store was opened with. Only who owns it makes it longer. Contracts see it
/// as its entries. It takes a word of memory, however long it is. A new one has the run's ledgers, `C`.
#[derive(Drop)]
pub struct Order<L: Life, C = Ledgers<L>> {
    pub(crate) owner: Owner<Entry>,
    pub(crate) ledgers: C,
    pub(crate) of: PhantomData<L>,
}

impl<L: Life, C> Model for Order<L, C> {
    ghost use Rattle.std.specs.Prelude.{◌≡◌, List};
    ghost use Rattle.world.specs.World as spec;
    ghost use Rattle.published.specs.Order.{IsLegal};

    ghost Value = { List spec.Entry };

    ghost view = { λ o. o.owner.items };

    ghost invariant = { λ o. (o.owner.book ≡ L.book.logs.ordered) × IsLegal L.start o.owner.items };
}

impl<L: Life> Order<L> {
    /// The order, and the ledgers. It takes no memory.
    pub fn without_ledgers(self) -> (Order<L, ()>, Ledgers<L>)
        ensures { result.0 ≡ self }
    {
        let Order {
            owner,
            ledgers,
            of: _,
        } = self;
        let order = Order {
            owner,
            ledgers: (),
            of: PhantomData,
        };
        (order, ledgers)
    }
}

impl<L: Life, C> Order<L, C> {
    /// Puts a command behind the order that the rule of acceptance takes there. It never fails, and takes no memory.
    #[tactic(auto, using(crate::proofs::Orders::legal_more))]
    pub fn put(&mut self, entry: &Entry)
        requires { WasTaken (fold L.start (takens self.old)) entry.now }
        ensures { self.new ≡ self.old ++ entry.now ∷ [] }
    {
        self.owner.append(entry);
    }

    /// What is published begins the order, as a token names it. It takes no memory.
    pub fn covers<D>(&mut self, told: &Told<D, L>)
        ensures begins { IsPrefix (commands_of told.now) (takens self.old) }
        ensures same { self.new ≡ self.old }
    {
        self.holds(&told.ordered());
    }

    /// The entries of a token begin the order. It takes no memory.
    pub fn holds(&mut self, ordered: &Ordered<L>)
        ensures begins { IsPrefix ordered.now self.old }
        ensures same { self.new ≡ self.old }
    {
        self.owner.covers(&ordered.front);
    }

    /// A token of the whole order. It takes no memory.
    pub fn ordered(&self) -> Ordered<L>
        ensures { result ≡ self.now }
    {
        Ordered {
            front: self.owner.front(),
            of: PhantomData,
        }
    }
}

/// A prefix of the run's order that was seen, which is a legal history. Contracts see it as its entries. It takes no memory.
#[derive(Drop)]
pub struct Ordered<L: Life> {
    pub(crate) front: Front<Entry>,
    pub(crate) of: PhantomData<L>,
}

impl<L: Life> Model for Ordered<L> {
    ghost use Rattle.std.specs.Prelude.{◌≡◌, List};
    ghost use Rattle.world.specs.World as spec;
    ghost use Rattle.published.specs.Order.{IsLegal};

    ghost Value = { List spec.Entry };

    ghost view = { λ o. o.front.items };

    ghost invariant = { λ o. (o.front.book ≡ L.book.logs.ordered) × IsLegal L.start o.front.items };
}

impl<L: Life> Ordered<L> {
    /// Another token of the same entries. It takes no memory.
    pub fn copy(&self) -> Ordered<L>
        ensures { result ≡ self.now }
    {
        Ordered {
            front: self.front.copy(),
            of: PhantomData,
        }
    }

    /// What each token of the order keeps, for the prover: it is a legal history from the run's start. It does nothing.
    pub fn facts(&self)
        ensures { IsLegal L.start self.now }
    {
        let _ = &self.front;
    }

    /// Two tokens of one run begin one order. It takes no memory.
    pub fn meets(&self, other: &Ordered<L>)
        ensures { (all : List Kept) × IsPrefix self.now all × IsPrefix other.now all }
    {
        self.front.meets(&other.front);
    }
}
