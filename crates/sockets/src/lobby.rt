//! Where connections wait for the thread that serves them.
ghost use Rattle.std.specs.Prelude.{◌≡◌, ◌≤◌, [], true, length};
ghost use Rattle.sockets.specs.Host.{are_unasked};

use crate::guests::{Guest, Guests};
use crate::parting::Parting;
use crate::watch::Peers;
use std::alloc::{AllocError, Global};
use std::collections::VecDeque;
use std::sync::ledger::Ledger;
use std::sync::{Condvar, Mutex, Wait};

/// The connections that wait, how many threads are free to serve one, what became of all, and who was turned away. No more wait than are
/// free, and nobody who was turned away was read from or written to.
#[derive(Drop)]
struct Places<G: Ledger> {
    waiting: VecDeque<Guest<G>>,
    free: usize,
    ended: bool,
    peers: Peers,
    away: Guests<G>,
    ghost served: { length waiting.items ≤ free },
    ghost unasked: { are_unasked away.visits.list ≡ true },
}

impl<G: Ledger> Places<G> {
    // Lets a connection wait where a thread is free for it, and else closes it.
    fn offer(&mut self, peer: Guest<G>) {
        if self.waiting.len() < self.free {
            if let Err(refused) = self.waiting.push_back(peer) {
                self.turn_away(refused.value);
            }
        } else {
            self.turn_away(peer);
        }
    }

    // Closes a connection without a byte.
    fn turn_away(&mut self, peer: Guest<G>) {
        count(&mut self.peers.turned_away);
        self.away.turn_away(peer);
    }

    // Gives the next connection to a thread, which is free no longer.
    fn take(&mut self) -> Option<Guest<G>> {
        if self.ended {
            return None;
        }
        let peer = self.waiting.pop_front()?;
        self.free -= 1;
        self.peers.open = self.peers.open.saturating_add(1);
        Some(peer)
    }

    fn free_one(&mut self) {
        self.free = self.free.saturating_add(1);
    }

    // Frees a thread that has served a connection, which ended so.
    fn leave(&mut self, parting: &Parting<'_>) {
        self.peers.open = self.peers.open.saturating_sub(1);
        match parting {
            Parting::Slow => count(&mut self.peers.slow),
            Parting::Idle => count(&mut self.peers.idle),
            _ => {}
        }
        self.free_one();
    }

    // All that were turned away, with those that wait still.
    fn into_away(self) -> Guests<G>
        ensures { are_unasked result.visits.list ≡ true }
    {
        let Places {
            waiting,
            free: _,
            ended: _,
            peers: _,
            away,
        } = self;
        let mut waiting = waiting;
        let mut away = away;
        while let Some(peer) = waiting.pop_front() {
            away.turn_away(peer);
        }
        away
    }
}

// Counts one more.
fn count(number: &mut u64) {
    *number = number.saturating_add(1);
}

/// Hands connections to the threads that serve them, each to one that is free. A connection for which none is free is closed without a
/// byte.
#[derive(Drop)]
pub struct Lobby<G: Ledger> {
    places: Mutex<Places<G>>,
    changed: Condvar,
}

impl<G: Ledger> Lobby<G> {
    /// A lobby for so many threads at most. None is free yet. Refused as out of memory alone.
    pub fn new(alloc: Global, threads: usize, nobody: Guests<G>) -> Result<Lobby<G>, AllocError>
        requires { nobody.visits.list ≡ [] }
    {
        Ok(Lobby {
            places: Mutex::new(Places {
                waiting: VecDeque::with_capacity(alloc, threads)?,
                free: 0,
                ended: false,
                peers: Peers {
                    open: 0,
                    turned_away: 0,
                    slow: 0,
                    idle: 0,
                },
                away: nobody,
            }),
            changed: Condvar::new(),
        })
    }

    /// Nobody, of the same ledger.
    pub fn nobody(&self, rt: &impl Wait) -> Guests<G>
        ensures { result.visits.list ≡ [] }
    {
        self.places.lock(rt).away.none_of_it()
    }

    /// One more thread is free to serve a connection, which has begun.
    pub fn free_one(&self, rt: &impl Wait) {
        self.places.lock(rt).free_one();
    }

    /// A thread has served a connection, which ended so, and is free to serve another one.
    pub fn leave(&self, rt: &impl Wait, parting: &Parting<'_>) {
        self.places.lock(rt).leave(parting);
    }

    /// What became of the connections so far.
    pub fn peers(&self, rt: &impl Wait) -> Peers {
        self.places.lock(rt).peers
    }

    /// How many threads are free to serve a connection.
    pub fn free(&self, rt: &impl Wait) -> usize {
        self.places.lock(rt).free
    }

    /// Hands a connection to a thread that is free, or closes it where none is.
    pub fn offer(&self, rt: &impl Wait, peer: Guest<G>) {
        self.places.lock(rt).offer(peer);
        self.changed.notify_one();
    }

    /// Closes a connection.
    pub fn turn_away(&self, rt: &impl Wait, peer: Guest<G>) {
        self.places.lock(rt).turn_away(peer);
    }

    /// Waits for a connection, which the calling thread then serves. `None` where the lobby is closed.
    pub fn next(&self, rt: &impl Wait) -> Option<Guest<G>> {
        let mut places = self.changed.wait_while(
            rt,
            self.places.lock(rt),
            |places| places.waiting.is_empty() && !places.ended,
        );
        places.take()
    }

    /// Closes the lobby: no thread gets a further connection.
    pub fn close(&self, rt: &impl Wait) {
        self.places.lock(rt).ended = true;
        self.changed.notify_all();
    }

    /// All that were turned away, with those that wait still. Nothing was read from them, and nothing written to them.
    pub fn into_away(self) -> Guests<G>
        ensures { are_unasked result.visits.list ≡ true }
    {
        let Lobby { places, changed: _ } = self;
        places.into_inner().into_away()
    }
}
