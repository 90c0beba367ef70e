//! The token of what was published.
ghost use Rattle.std.specs.Prelude.{◌≡◌, ◌≤◌, ◌<◌, ◌+◌, ◌^◌, ◌∷◌, ◌++◌, [], ◌↔◌, length, IsTrue};
ghost use mathlib.Core.List.{IsPrefix};
ghost use Rattle.revision.specs.State.{fold};
ghost use Rattle.recovery.specs.Found.{commands_of};
ghost use Rattle.recovery.specs.Moment.{IsMomentOf, moment_of};
ghost use Rattle.world.specs.World.{takens};
ghost use Rattle.published.specs.Batches.{IsTheLonger, TellsBegins};
ghost use Rattle.published.specs.Moments.{AreMoments};

use crate::life::Life;
use crate::log::Log;
use crate::moments::Moments;
use crate::order::Ordered;
use crate::prefix::PublishedPrefix;
use disk::Disk;
use recovery::Receipt;
use std::marker::{Model, PhantomData};

/// A token of what a run over a device of this type has published: a prefix of it that was seen. Contracts see it as its batches, the oldest
/// first.
#[derive(Drop)]
pub struct Told<D, L: Life> {
    pub(crate) prefix: PublishedPrefix<L>,
    pub(crate) of: PhantomData<D>,
}

impl<D, L: Life> Model for Told<D, L> {
    ghost use Rattle.std.specs.Prelude.{List};
    ghost use Rattle.revision.specs.Command.{Taken};

    ghost Value = { List (List Taken) };

    ghost view = { λ t. t.prefix };
}

impl<D, L: Life> Told<D, L> {
    /// How many commands its batches have. It takes no memory.
    pub fn len(&self) -> u64
        ensures { result ≡ length (commands_of self.now) }
    {
        self.prefix.len()
    }

    /// Another token of the same batches. It takes no memory.
    pub fn copy(&self) -> Told<D, L>
        ensures { result ≡ self.now }
    {
        Told::of(self.prefix.copy())
    }

    /// Whether the other token begins with this one: of two tokens of a run one begins the other. It takes no memory.
    pub fn begins(&self, other: &Told<D, L>) -> bool
        ensures { TellsBegins result self.now other.now }
    {
        self.prefix.begins(&other.prefix)
    }

    /// Whether both tokens name the same batches. It takes no memory.
    pub fn is_same(&self, other: &Told<D, L>) -> bool
        ensures { IsTrue result ↔ (self.now ≡ other.now) }
    {
        self.prefix.is_same(&other.prefix)
    }

    /// The longer of two tokens, which the other begins. It takes no memory.
    pub fn longer(&self, other: &Told<D, L>) -> Told<D, L>
        ensures { IsTheLonger self.now other.now result }
    {
        if self.begins(other) {
            other.copy()
        } else {
            self.copy()
        }
    }

    /// Becomes the longer of the two. It takes no memory.
    pub fn learn(&mut self, other: &Told<D, L>)
        ensures { IsTheLonger self.old other.now self.new }
    {
        *self = self.longer(other);
    }

    /// All that a token of the order has is published, where that is no more than what is published. It takes no memory.
    pub fn covers(&self, ordered: &Ordered<L>)
        requires { length ordered.now ≤ length (commands_of self.now) }
        ensures { IsPrefix (takens ordered.now) (commands_of self.now) }
    {
        let mine = self.ordered();
        mine.meets(ordered);
    }

    /// What is published begins the order that a token has, where that is no shorter. It takes no memory.
    pub fn begins_order(&self, ordered: &Ordered<L>)
        requires { length (commands_of self.now) ≤ length ordered.now }
        ensures { IsPrefix (commands_of self.now) (takens ordered.now) }
    {
        let mine = self.ordered();
        mine.meets(ordered);
    }

    /// A token of the order that has all its commands first. It takes no memory.
    pub fn ordered(&self) -> Ordered<L>
        ensures { IsPrefix (commands_of self.now) (takens result) }
    {
        self.prefix.ordered()
    }

    /// The moments at which the commits of its batches had ended, one for each: at each a store held exactly what the batches up to this one
    /// make of the run's start, over a device that was synced. It takes no memory.
    pub fn moments(&self) -> Moments<L>
        ensures { AreMoments L.start self.now result }
    {
        self.prefix.moments()
    }

    /// What it has inside, without the device's type.
    pub fn prefix(&self) -> &PublishedPrefix<L>
        ensures { result.now ≡ self.now }
    {
        &self.prefix
    }

    /// The token of a prefix. It takes no memory.
    pub fn of(prefix: PublishedPrefix<L>) -> Told<D, L>
        ensures { result ≡ prefix }
    {
        Told {
            prefix,
            of: PhantomData,
        }
    }
}

impl<D: Disk, L: Life> Told<D, L> {
    /// Publishes a batch that was committed after the batches of this token, which has to be of the whole log, and gives the token that ends
    /// with it. When its commit ended, the store held what the batch makes of what these have made. The batch has to be the next part of the
    /// order, and the log counts fewer than 2^64 commands. It takes no memory.
    pub fn add(&self, log: &mut Log<D, L>, receipt: &Receipt<D>, ordered: &Ordered<L>) -> Told<D, L>
        requires whole { log.old.batches ≡ self.now }
        requires some { 1 ≤ length receipt.now.batch }
        requires few { length (commands_of self.now) + length receipt.now.batch < 2 ^ 64 }
        requires next { IsPrefix (commands_of self.now ++ receipt.now.batch) (takens ordered.now) }
        requires moment { IsMomentOf (fold L.start (commands_of (self.now ++ receipt.now.batch ∷ [])))
            (moment_of ⟦<D as Disk>⟧ receipt.now.at) }
        ensures told { result ≡ self.now ++ receipt.now.batch ∷ [] }
        ensures log { log.new ≡ record {
          batches = self.now ++ receipt.now.batch ∷ [];
          moments = log.old.moments ++ moment_of ⟦<D as Disk>⟧ receipt.now.at ∷ [];
        } }
    {
        log.put(receipt);
        let prefix = PublishedPrefix {
            batches: self.prefix.batches + 1,
            len: self.prefix.len + receipt.batch().as_slice().len() as u64,
            log: log.owner.front(),
            order: ordered.copy(),
            moments: log.moments(),
        };
        Told::of(prefix)
    }
}
