//! What the sessions of all desks share: for how long a peer may be idle, and that they end.
ghost use Rattle.std.specs.Prelude.{◌≡◌, true, IfSome};
ghost use Rattle.sockets.specs.Hall.{IsGuestbookOf};

use crate::door::Door;
use std::marker::PhantomData;
use std::snapshot::Snapshot;
use std::sync::atomic::{AtomicUsize, Ordering};
use std::sync::ledger::Ledger;
use std::sync::{OnceLock, OnceToken, Wait};

/// What all sessions of a listener share.
#[derive(Drop)]
pub struct Hall {
    ended: OnceLock<()>,
    /// For how many seconds a peer may be idle; 0 is for ever.
    idle: u32,
    /// The desk that got no thread, by its place among the desks, or a number above all places.
    without_thread: AtomicUsize,
}

/// Names the ledger by which whoever made a hall counts its guests.
#[derive(Drop)]
pub struct Guestbook<G: Ledger> {
    hall: Snapshot<Hall>,
    ledger: PhantomData<G>,
}

impl Hall {
    /// A hall whose peers may be idle for so many seconds, 0 for ever, and the ledger by which its guests are to be counted.
    pub fn new<G: Ledger>(idle: u32) -> (Hall, Guestbook<G>)
        ensures idle { result.0.idle ≡ idle }
        ensures of { IsGuestbookOf result.0 result.1 }
    {
        let hall = Hall {
            ended: OnceLock::new(),
            idle,
            without_thread: AtomicUsize::new(usize::MAX),
        };
        let guestbook = Guestbook {
            hall: Snapshot::of(&hall),
            ledger: PhantomData,
        };
        (hall, guestbook)
    }

    /// For how many seconds a peer may be idle; 0 is for ever.
    pub fn idle(&self) -> u32
        ensures { result ≡ self.now.idle }
    {
        self.idle
    }

    /// Ends the hall, where a door of the ledger that its guestbook names is shut: then each session ends at its next turn, or where a write
    /// takes no byte.
    pub fn end<G: Ledger>(&self, rt: &impl Wait, guestbook: &Guestbook<G>, door: &Door<G>)
        requires of { IsGuestbookOf self.now guestbook.now }
        requires shut { door.now.is_shut ≡ true }
    {
        drop(self.ended.set(rt, ()));
    }

    /// The token that the hall has ended, where it has.
    pub fn ended(&self) -> Option<OnceToken<'_, ()>>
        ensures { IfSome result (λ token. token.of ≡ self.now.ended.id) }
    {
        self.ended.witness()
    }

    /// Notes that the desk at this place got no thread.
    pub fn turn_away(&self, place: usize) {
        self.without_thread.store(place, Ordering::SeqCst);
    }

    /// Whether the desk at this place got a thread, as far as is noted.
    pub fn has_thread(&self, place: usize) -> bool {
        self.without_thread.load(Ordering::SeqCst) != place
    }
}
