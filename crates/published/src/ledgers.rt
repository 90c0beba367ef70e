//! How much of a run's order is taken off, how much is settled, and whether all of it is taken off for good.
ghost use Rattle.std.specs.Prelude.{◌≡◌};

use crate::life::Life;
use std::marker::{Model, PhantomData};
use std::sync::ledger::{Blank, Book, Ledger, Share};

/// Names the ledger of what is taken off a run's order. It has one part.
pub struct OfTaken<L> {
    of: PhantomData<L>,
}

impl<L: Life> Ledger for OfTaken<L> {
    ghost name = { L.book.takes };

    ghost parts = { 1 };
}

/// Names the ledger of what is settled of a run's order. It has one part.
pub struct OfSettled<L> {
    of: PhantomData<L>,
}

impl<L: Life> Ledger for OfSettled<L> {
    ghost name = { L.book.settles };

    ghost parts = { 1 };
}

/// Names the ledger of how often it was found that all of a run's order is taken off and nothing comes any more. It has one part.
pub struct OfEnds<L> {
    of: PhantomData<L>,
}

impl<L: Life> Ledger for OfEnds<L> {
    ghost name = { L.book.ends };

    ghost parts = { 1 };
}

/// The books of a run's ledgers.
#[derive(Drop)]
pub struct LedgerBooks<L: Life> {
    pub takes: Book<OfTaken<L>>,
    pub settles: Book<OfSettled<L>>,
    pub ends: Book<OfEnds<L>>,
}

/// All the shares of a run's ledgers.
#[derive(Drop)]
pub struct LedgerShares<L: Life> {
    pub taken: Share<OfTaken<L>>,
    pub settled: Share<OfSettled<L>>,
    pub ended: Share<OfEnds<L>>,
}

/// The ledgers of a run, in which nothing is counted: their books, and all the shares of them. There is one of it in a run, so who has parted
/// it knows that the share of each ledger has what its book has.
#[derive(Drop)]
pub struct Ledgers<L: Life> {
    books: LedgerBooks<L>,
    shares: LedgerShares<L>,
}

impl<L: Life> Model for Ledgers<L> {
    ghost use Rattle.std.specs.Prelude.{◌≡◌};

    ghost Value = { Unit {0} };

    ghost view = { λ l. tt };

    ghost invariant = { λ l. (l.books.takes.total ≡ 0) × (l.books.settles.total ≡ 0) × (l.books.ends.total ≡ 0)
        × (l.shares.taken.parts ≡ 1) × (l.shares.settled.parts ≡ 1) × (l.shares.ended.parts ≡ 1)
        × (l.shares.taken.amount ≡ 0) × (l.shares.settled.amount ≡ 0) × (l.shares.ended.amount ≡ 0) };
}

impl<L: Life> Ledgers<L> {
    // The ledgers of a run by its name.
    pub(crate) fn of(takes: Blank, settles: Blank, ends: Blank) -> Ledgers<L>
        requires takes { (takes.name ≡ L.book.takes) × (takes.parts ≡ 1) }
        requires settles { (settles.name ≡ L.book.settles) × (settles.parts ≡ 1) }
        requires ends { (ends.name ≡ L.book.ends) × (ends.parts ≡ 1) }
    {
        let (takes, taken) = takes.open::<OfTaken<L>>();
        let (settles, settled) = settles.open::<OfSettled<L>>();
        let (ends, ended) = ends.open::<OfEnds<L>>();
        Ledgers {
            books: LedgerBooks {
                takes,
                settles,
                ends,
            },
            shares: LedgerShares {
                taken,
                settled,
                ended,
            },
        }
    }

    /// The books, and the shares. It takes no memory.
    pub fn parted(self) -> (LedgerBooks<L>, LedgerShares<L>)
        ensures totals { (result.0.takes.total ≡ 0) × (result.0.settles.total ≡ 0) × (result.0.ends.total ≡ 0) }
        ensures parts { (result.1.taken.parts ≡ 1) × (result.1.settled.parts ≡ 1) × (result.1.ended.parts ≡ 1) }
        ensures amounts { (result.1.taken.amount ≡ 0) × (result.1.settled.amount ≡ 0) × (result.1.ended.amount ≡ 0) }
    {
        let Ledgers { books, shares } = self;
        (books, shares)
    }

    /// The ledgers again, once nothing is counted in them any more. It takes no memory.
    pub fn joined(books: LedgerBooks<L>, shares: LedgerShares<L>) -> Ledgers<L>
        requires totals { (books.takes.total ≡ 0) × (books.settles.total ≡ 0) × (books.ends.total ≡ 0) }
        requires parts { (shares.taken.parts ≡ 1) × (shares.settled.parts ≡ 1) × (shares.ended.parts ≡ 1) }
        requires amounts { (shares.taken.amount ≡ 0) × (shares.settled.amount ≡ 0) × (shares.ended.amount ≡ 0) }
    {
        Ledgers { books, shares }
    }
}
