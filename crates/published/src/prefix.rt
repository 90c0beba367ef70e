//! A prefix of what was published.
ghost use Rattle.std.specs.Prelude.{◌≡◌, ◌↔◌, length, IsTrue};
ghost use mathlib.Core.List.{IsPrefix};
ghost use Rattle.recovery.specs.Found.{commands_of};
ghost use Rattle.world.specs.World.{takens};
ghost use Rattle.published.specs.Batches.{TellsBegins};
ghost use Rattle.published.specs.Moments.{AreMoments};

use crate::batch::BatchItem;
use crate::life::Life;
use crate::moments::Moments;
use crate::order::Ordered;
use ownlog::Front;
use std::marker::Model;

/// A prefix of what a run has published that was seen, with the moments of its batches. Its commands are a prefix of the run's order. Contracts
/// see it as its batches, the oldest first. It is for what stands over any device, and takes no memory.
#[derive(Drop)]
pub struct PublishedPrefix<L: Life> {
    pub(crate) batches: u64,
    pub(crate) len: u64,
    pub(crate) log: Front<BatchItem>,
    pub(crate) order: Ordered<L>,
    pub(crate) moments: Moments<L>,
}

impl<L: Life> Model for PublishedPrefix<L> {
    ghost use Rattle.std.specs.Prelude.{◌≡◌, ◌≤◌, List, length};
    ghost use mathlib.Core.List.{IsPrefix};
    ghost use Rattle.revision.specs.Command.{Taken};
    ghost use Rattle.recovery.specs.Found.{commands_of};
    ghost use Rattle.world.specs.World.{takens};
    ghost use Rattle.published.specs.Moments.{AreMoments};

    ghost Value = { List (List Taken) };

    ghost view = { λ p. p.log.items };

    ghost invariant = { λ p. (p.log.book ≡ L.book.logs.published) × (p.batches ≡ length p.log.items)
        × (p.len ≡ length (commands_of p.log.items)) × (p.batches ≤ p.len)
        × IsPrefix (commands_of p.log.items) (takens p.order) × AreMoments L.start p.log.items p.moments };
}

impl<L: Life> PublishedPrefix<L> {
    /// How many commands its batches have. It takes no memory.
    pub fn len(&self) -> u64
        ensures { result ≡ length (commands_of self.now) }
    {
        self.len
    }

    /// Another one of the same batches. It takes no memory.
    pub fn copy(&self) -> PublishedPrefix<L>
        ensures { result ≡ self.now }
    {
        PublishedPrefix {
            batches: self.batches,
            len: self.len,
            log: self.log.copy(),
            order: self.order.copy(),
            moments: self.moments.copy(),
        }
    }

    /// Whether the other one begins with this one: of two prefixes of a run one begins the other. It takes no memory.
    pub fn begins(&self, other: &PublishedPrefix<L>) -> bool
        ensures { TellsBegins result self.now other.now }
    {
        self.log.meets(&other.log);
        self.batches <= other.batches
    }

    /// Whether both name the same batches. It takes no memory.
    pub fn is_same(&self, other: &PublishedPrefix<L>) -> bool
        ensures { IsTrue result ↔ (self.now ≡ other.now) }
    {
        self.log.meets(&other.log);
        self.batches == other.batches
    }

    /// A token of the order that has all its commands first. It takes no memory.
    pub fn ordered(&self) -> Ordered<L>
        ensures { IsPrefix (commands_of self.now) (takens result) }
    {
        self.order.copy()
    }

    /// The moments at which the commits of its batches had ended, one for each. It takes no memory.
    pub fn moments(&self) -> Moments<L>
        ensures { AreMoments L.start self.now result }
    {
        self.moments.copy()
    }
}
