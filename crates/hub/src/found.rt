//! What was found of the order.
ghost use Rattle.std.specs.Prelude.{◌≡◌, []};
ghost use mathlib.Core.List.{IsPrefix};
ghost use Rattle.recovery.specs.Found.{commands_of};
ghost use Rattle.world.specs.World.{takens};
ghost use Rattle.published.specs.Order.{IsLegal};

use published::{Life, Order, Ordered, Told};
use std::marker::Model;

/// A prefix of the order: what the commands of one who submits have found of it, and nothing at first, or what a token has. A hub alone
/// makes it longer. Contracts see it as its entries. It takes no memory.
#[derive(Drop)]
pub struct Found<L: Life> {
    order: Option<Ordered<L>>,
}

impl<L: Life> Model for Found<L> {
    ghost use Rattle.std.specs.Prelude.{List};
    ghost use Rattle.world.specs.World as spec;
    ghost use Rattle.hub.specs.Found.{all_found};

    ghost Value = { List spec.Entry };

    ghost view = { λ f. all_found f.order };
}

impl<L: Life> Found<L> {
    /// Nothing is found yet.
    pub fn new() -> Found<L>
        ensures { result ≡ [] }
    {
        Found { order: None }
    }

    /// What a token of the order has is found.
    pub fn of(ordered: Ordered<L>) -> Found<L>
        ensures { result ≡ ordered }
    {
        Found {
            order: Some(ordered),
        }
    }

    // Finds the whole order, which begins with what was found of it before, and with what was told of it.
    pub(crate) fn find<D>(&mut self, order: &mut Order<L, ()>, told: &Told<D, L>)
        ensures same { order.new ≡ order.old }
        ensures whole { self.new ≡ order.old }
        ensures legal { IsLegal L.start self.new }
        ensures found { IsPrefix self.old self.new }
        ensures begins { IsPrefix (commands_of told.now) (takens self.new) }
    {
        self.begins(order);
        order.covers(told);
        let whole = order.ordered();
        whole.facts();
        self.order = Some(whole);
    }

    // It is a prefix of the order, and of what the token has after it.
    pub(crate) fn join(&self, order: &mut Order<L, ()>, ordered: &mut Ordered<L>)
        ensures same { order.new ≡ order.old }
        ensures found { IsPrefix self.now ordered.new }
        ensures before { IsPrefix ordered.old ordered.new }
    {
        self.begins(order);
        order.holds(ordered);
        *ordered = order.ordered();
    }

    // It begins the order.
    fn begins(&self, order: &mut Order<L, ()>)
        ensures begins { IsPrefix self.now order.old }
        ensures same { order.new ≡ order.old }
    {
        if let Some(found) = &self.order {
            order.holds(found);
        }
    }
}
