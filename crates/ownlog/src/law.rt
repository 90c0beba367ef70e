//! The rule of the log, and its steps.
use crate::link::Link;
use logbook::{Gain, Pen, Plain, Play, Rule};
use std::marker::PhantomData;
use std::snapshot::Snapshot;

/// The rule of the log: the words of its entries are at home.
pub struct Law;

impl<T> Rule<Link<T>, u64> for Law {
    ghost use Rattle.std.specs.Prelude.{[]};
    ghost use base.Fml.{ftrue};
    ghost use Rattle.ownlog.specs.Rules.{IsChained};

    ghost holds = { IsChained };

    ghost first = { [] };

    ghost hinted = { λ n log. Unit {0} };

    ghost shows = { λ log. [] };

    ghost keeps = { λ names log. ftrue };

    ghost moves = { λ ask before after answer. Unit {0} };
}

/// Callers trade nothing.
pub struct Nothing;

impl<T> Gain<Link<T>, u64> for Nothing {
    ghost use base.Fml.{ftrue};

    ghost after = { λ names about answer. ftrue };
}

/// The first step of all: it gives the pen of the word that the first entry brings home.
pub struct Begin;

impl<T> Play<Link<T>, u64> for Begin {
    ghost use Rattle.ownlog.specs.Rules.{Begins};

    ghost then = { Begins };
}

/// What a step asks for that puts nothing into the log.
impl<T> Plain<(), Link<T>, u64> for Begin {
    ghost use Rattle.std.specs.Prelude.{[], None};

    ghost ask = { λ nothing. record { items = []; next = 0 } };

    ghost state = { λ nothing. None };
}

/// A step that gives the pen of one word more.
pub struct Grow;

impl<T> Play<Link<T>, u64> for Grow {
    ghost use Rattle.ownlog.specs.Rules.{Grows};

    ghost then = { Grows };
}

/// A step that looks, by whoever has the pen.
pub struct Stay;

impl<T> Play<Link<T>, u64> for Stay {
    ghost use Rattle.ownlog.specs.Rules.{Stays};

    ghost then = { Stays };
}

/// The step that puts an item behind the log, by bringing a word home.
pub struct Add;

impl<T> Play<Link<T>, u64> for Add {
    ghost use Rattle.ownlog.specs.Rules.{Adds};

    ghost then = { Adds };
}

/// How a value is seen as an item of a log.
pub trait Shows<X, T> {
    ghost item: { X → T };
}

/// An item is seen as itself.
pub struct Itself;

impl<T> Shows<T, T> for Itself {
    ghost item = { λ item. item };
}

/// A value that is seen as an item, and the pen of the word for the item after it.
pub struct More<X> {
    pub(crate) about: Snapshot<X>,
    pub(crate) pen: Pen,
}

/// What that step asks for, by how the value is seen.
pub struct Asks<M> {
    of: PhantomData<M>,
}

impl<X, T, M: Shows<X, T>> Plain<More<X>, Link<T>, u64> for Asks<M> {
    ghost use Rattle.std.specs.Prelude.{[], ◌∷◌, None};

    ghost ask = { λ more. record { items = M.item more.about.value ∷ []; next = more.pen.nib.key } };

    ghost state = { λ more. None };
}
