//! Tokens of the moments at which batches had been committed.
ghost use Rattle.std.specs.Prelude.{◌≡◌, List};
ghost use mathlib.Core.List.{IsPrefix};
ghost use Rattle.recovery.specs.Moment.{Moment as Point};

use crate::batch::MomentItem;
use crate::life::Life;
use ownlog::Front;
use std::marker::{Model, PhantomData};

/// The first moments of a run that were seen: one for each batch of the token that gave them, `Told::moments`. Contracts see them in order.
/// It takes no memory.
#[derive(Drop)]
pub struct Moments<L: Life> {
    pub(crate) front: Front<MomentItem>,
    pub(crate) of: PhantomData<L>,
}

impl<L: Life> Model for Moments<L> {
    ghost use Rattle.std.specs.Prelude.{◌≡◌, List};
    ghost use Rattle.recovery.specs.Moment as spec;

    ghost Value = { List spec.Moment };

    ghost view = { λ m. m.front.items };

    ghost invariant = { λ m. m.front.book ≡ L.book.logs.timed };
}

impl<L: Life> Moments<L> {
    /// Another token of the same moments. It takes no memory.
    pub fn copy(&self) -> Moments<L>
        ensures { result ≡ self.now }
    {
        Moments {
            front: self.front.copy(),
            of: PhantomData,
        }
    }

    /// The moments of two tokens of one run begin one list. It takes no memory.
    pub fn meets(&self, other: &Moments<L>)
        ensures { (all : List Point) × IsPrefix self.now all × IsPrefix other.now all }
    {
        self.front.meets(&other.front);
    }
}
