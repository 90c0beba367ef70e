//! The visits of those whom a desk has served, and the parts of the ledger that count them.
ghost use Rattle.std.specs.Prelude.{◌≡◌, ◌≤◌, ◌∷◌, ◌++◌, [], true, length};
ghost use Rattle.sockets.specs.Host.{are_unasked, reads_in, writes_in};

use crate::raw::{HostPeer, Visit, Visits};
use std::sync::ledger::{Ledger, Share};

/// A peer's part of the ledger that counts all of them.
#[derive(Drop)]
pub struct PeerPart<G: Ledger> {
    share: Share<G>,
    ghost one: { share.parts ≡ 1 },
    ghost counts: { share.amount ≡ 1 },
}

impl<G: Ledger> PeerPart<G> {
    /// One part, that counts one.
    pub fn new(share: Share<G>) -> PeerPart<G>
        requires { (share.parts ≡ 1) × (share.amount ≡ 1) }
        ensures { result.share ≡ share }
    {
        PeerPart { share }
    }
}

/// A peer that a listener took, with its part.
#[derive(Drop)]
pub struct Guest<G: Ledger> {
    pub peer: HostPeer,
    pub part: PeerPart<G>,
}

/// Visits that have ended, with the part of each.
#[derive(Drop)]
pub struct Guests<G: Ledger> {
    visits: Visits,
    share: Share<G>,
    count: u64,
    ghost parts: { count ≤ share.parts },
    ghost each: { share.amount ≡ length visits.list },
}

impl<G: Ledger> Guests<G> {
    /// Nobody yet.
    pub fn new(share: Share<G>) -> Guests<G>
        requires { share.amount ≡ 0 }
        ensures { result.visits.list ≡ [] }
    {
        Guests {
            visits: Visits::new(),
            share,
            count: 0,
        }
    }

    /// Nobody yet, of the same ledger.
    pub fn none_of_it(&mut self) -> Guests<G>
        ensures none { result.visits.list ≡ [] }
        ensures same { self.new.visits ≡ self.old.visits }
    {
        Guests::new(self.share.empty())
    }

    /// One visit more has ended.
    pub fn add(&mut self, visit: Visit, part: PeerPart<G>)
        ensures { self.new.visits.list ≡ self.old.visits.list ++ visit ∷ [] }
    {
        self.visits.add(visit);
        self.share.merge(part.share);
        self.count = self.count.saturating_add(1);
    }

    /// A peer is closed, which was asked nothing.
    pub fn turn_away(&mut self, peer: Guest<G>)
        requires { are_unasked self.old.visits.list ≡ true }
        ensures { are_unasked self.new.visits.list ≡ true }
    {
        self.add(peer.peer.turn_away(), peer.part);
    }

    /// The visits, their share, and a number of parts that the share has at least.
    pub fn into_parts(self) -> (Visits, Share<G>, u64)
        ensures visits { result.0 ≡ self.visits }
        ensures each { result.1.amount ≡ length self.visits.list }
        ensures parts { result.2 ≤ result.1.parts }
    {
        let Guests {
            visits,
            share,
            count,
        } = self;
        (visits, share, count)
    }
}
