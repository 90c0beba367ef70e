//! The owner of a log.
ghost use Rattle.std.specs.Prelude.{◌≡◌, ◌++◌, ◌∷◌, [], IfSome};
ghost use mathlib.Core.List.{IsPrefix};

use crate::front::Front;
use crate::law::{Add, Asks, Begin, Grow, Itself, Law, More, Nothing, Shows, Stay};
use crate::link::Link;
use logbook::{Offer, Pen, Seen, Start, Word};
use std::marker::Model;
use std::snapshot::Snapshot;

/// The right to make a log longer. Contracts see it as the log's own name and all its items. It takes a word of memory.
#[derive(Drop)]
pub struct Owner<T> {
    head: Word<Link<T>, u64, Law>,
    pen: Pen,
    seen: Seen<Link<T>, u64, Law>,
}

impl<T> Model for Owner<T> {
    ghost use Rattle.std.specs.Prelude.{◌≡◌};
    ghost use Rattle.logbook.specs.Pages.{nib, may_write};
    ghost use Rattle.ownlog.specs.Logs as spec;
    ghost use Rattle.ownlog.specs.Rules.{head_of, items_of, last_key};

    ghost Value = { spec.Log T };

    ghost view = { λ o. record { book = o.seen.book; items = items_of o.seen.log } };

    ghost invariant = { λ o. (o.head ≡ head_of o.seen.book) × (o.pen.book ≡ o.seen.book)
        × (o.pen.nib ≡ nib may_write (last_key 2 o.seen.log) 0) };
}

impl<T> Owner<T> {
    /// A new log, without items. `None` where its word was changed before it was made, for which there is no room.
    pub fn open() -> Option<Owner<T>>
        ensures { IfSome result (λ owner. owner.items ≡ []) }
    {
        let (mut seen, mut first, _second) = Seen::open(Start::alone(), 0, 0);
        let head: Word<Link<T>, u64, Law> = Word::tracked(0, &mut first);
        let mut offer: Offer<Link<T>, u64, Law, Nothing> = seen.plain::<Nothing, (), Begin>(&());
        let mut pen = seen.no_pen();
        let found = head.compare_exchange::<Begin, Nothing>(0, 1, &mut seen, &mut offer, &mut pen);
        if found != 0 {
            return None;
        }
        let _word: Word<Link<T>, u64, Law> = Word::tracked(0, &mut pen);
        Some(Owner { head, pen, seen })
    }

    /// Puts an item behind the log. It takes no memory.
    pub fn append(&mut self, item: &T)
        ensures { self.new ≡ record self.old { items = self.old.items ++ item.now ∷ [] } }
    {
        self.append_as::<T, Itself>(item);
    }

    /// Puts the item behind the log that a value is seen as. It takes no memory.
    pub fn append_as<X, M: Shows<X, T>>(&mut self, about: &X)
        ensures { self.new ≡ record self.old { items = self.old.items ++ M.item about.now ∷ [] } }
    {
        let mut seen = self.seen.again();
        let mut offer: Offer<Link<T>, u64, Law, Nothing> = seen.plain::<Nothing, (), Begin>(&());
        let mut pen = seen.no_pen();
        let _ = self
            .head
            .compare_exchange::<Grow, Nothing>(0, 1, &mut seen, &mut offer, &mut pen);
        let _word: Word<Link<T>, u64, Law> = Word::tracked(0, &mut pen);
        let more = More {
            about: Snapshot::of(about),
            pen,
        };
        let mut offer: Offer<Link<T>, u64, Law, Nothing> = self
            .seen
            .plain::<Nothing, More<X>, Asks<M>>(&more);
        let _ = self
            .head
            .compare_exchange::<Add, Nothing>(0, 1, &mut self.seen, &mut offer, &mut self.pen);
        let More { about: _, pen } = more;
        self.pen = pen;
    }

    /// Each token of the log has a prefix of what its owner has. It takes no memory.
    pub fn covers(&mut self, front: &Front<T>)
        requires { front.now.book ≡ self.old.book }
        ensures begins { IsPrefix front.now.items self.old.items }
        ensures same { self.new ≡ self.old }
    {
        let mut both = self.seen.again();
        both.learn(&front.seen);
        let mut offer: Offer<Link<T>, u64, Law, Nothing> = both.plain::<Nothing, (), Begin>(&());
        let _ = self
            .head
            .compare_exchange::<Stay, Nothing>(0, 1, &mut both, &mut offer, &mut self.pen);
    }

    /// A token of the whole log. It takes no memory.
    pub fn front(&self) -> Front<T>
        ensures { result ≡ self.now }
    {
        Front {
            seen: self.seen.again(),
        }
    }
}
