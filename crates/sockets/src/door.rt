//! The count of those who came, and of those who are accounted for.
ghost use Rattle.std.specs.Prelude.{◌≡◌, ◌≤◌, ◌+◌, [], true, length};

use crate::guests::{Guest, Guests, PeerPart};
use crate::raw::{HostPeer, Listen, Visits};
use std::sync::ledger::{Blank, Book, Ledger, Share};

/// Counts the peers that a listener took by a ledger. Each has a part of it. Where all parts have come back, all peers are accounted for. Once
/// it is shut it lets nobody in, and stays shut.
#[derive(Drop)]
pub struct Door<G: Ledger> {
    book: Book<G>,
    share: Share<G>,
    left: u64,
    is_shut: bool,
    ghost parts: { left ≤ share.parts },
}

impl<G: Ledger> Door<G> {
    ghost use Rattle.sockets.specs.Door.{accounted_for, lets_in, taken_in, MayBeShut};

    /// A door by which nobody came yet, and guests of the same ledger: nobody yet.
    pub fn new(blank: Blank) -> (Door<G>, Guests<G>)
        requires name { blank.name ≡ G.name }
        requires parts { blank.parts ≡ G.parts }
        requires all { blank.parts ≡ 18446744073709551615 }
        ensures open { lets_in result.0 ≡ true }
        ensures taken { taken_in result.0 ≡ 0 }
        ensures accounted { accounted_for result.0 ≡ 0 }
        ensures none { result.1.visits.list ≡ [] }
    {
        let (book, mut share) = blank.open::<G>();
        let nobody = Guests::new(share.empty());
        let door = Door {
            book,
            share,
            left: u64::MAX,
            is_shut: false,
        };
        (door, nobody)
    }

    /// Whether one more is let in: the door isn't shut, and there is a part for one more, and one that is left then.
    pub fn is_open(&self) -> bool
        ensures { result ≡ lets_in self.now }
    {
        !self.is_shut && 1 < self.left
    }

    /// Shuts the door: it lets nobody in from now on. The newest call of its listener failed, or it lets nobody in as it is, or nobody came by it.
    pub fn shut<N: Listen>(&mut self, listener: &N)
        requires { MayBeShut (N.arrivals listener.now) self.old }
        ensures shut { self.new.is_shut ≡ true }
        ensures taken { taken_in self.new ≡ taken_in self.old }
        ensures accounted { accounted_for self.new ≡ accounted_for self.old }
    {
        self.is_shut = true;
    }

    /// One more came, who gets a part.
    pub fn take_in(&mut self, peer: HostPeer) -> Guest<G>
        requires { lets_in self.old ≡ true }
        ensures taken { taken_in self.new ≡ taken_in self.old + 1 }
        ensures accounted { accounted_for self.new ≡ accounted_for self.old }
        ensures shut { self.new.is_shut ≡ self.old.is_shut }
    {
        self.book.add(&mut self.share, 1);
        let part = PeerPart::new(self.share.split_off(1, 1));
        self.left -= 1;
        Guest { peer, part }
    }

    /// These are accounted for.
    pub fn account_for(&mut self, guests: Guests<G>) -> Visits
        ensures visits { result ≡ guests.visits }
        ensures taken { taken_in self.new ≡ taken_in self.old }
        ensures accounted { accounted_for self.new ≡ accounted_for self.old + length guests.visits.list }
        ensures shut { self.new.is_shut ≡ self.old.is_shut }
    {
        let (visits, share, count) = guests.into_parts();
        self.share.merge(share);
        self.left = self.left.saturating_add(count);
        visits
    }

    /// Whether all parts have come back.
    pub fn is_whole(&mut self) -> bool
        requires { G.parts ≡ 18446744073709551615 }
        ensures whole { result ≡ true → accounted_for self.old ≡ taken_in self.old }
        ensures shut { self.new.is_shut ≡ self.old.is_shut }
    {
        let none = self.share.empty();
        self.share.merge(none);
        self.book.audit(&mut self.share);
        self.left == u64::MAX
    }
}
