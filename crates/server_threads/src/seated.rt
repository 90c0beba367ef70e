//! What the watch of a server is told of its listener.

use crate::watch::Watch;
use sockets::{ListenerWatch, Peers};
use std::alloc::AllocError;
use std::io;
use std::marker::PhantomData;
use std::sync::atomic::{AtomicBool, Ordering};

/// Tells a server's watch what it is told of the listener, and keeps whether any session got a thread.
#[derive(Drop)]
pub(crate) struct Seated<'a, D, W> {
    watch: &'a W,
    seats: usize,
    is_empty: AtomicBool,
    of: PhantomData<D>,
}

impl<'a, D, W> Seated<'a, D, W> {
    /// Of a server that has so many seats.
    pub(crate) fn new(watch: &'a W, seats: usize) -> Seated<'a, D, W> {
        Seated {
            watch,
            seats,
            is_empty: AtomicBool::new(false),
            of: PhantomData,
        }
    }

    /// Refused where no session got a thread.
    pub(crate) fn served(&self) -> Result<(), AllocError> {
        if self.is_empty.load(Ordering::SeqCst) {
            return Err(AllocError);
        }
        Ok(())
    }
}

impl<D, W: Watch<D>> ListenerWatch for Seated<'_, D, W> {
    fn begun(&self, desks: usize) -> bool {
        if desks == 0 {
            self.is_empty.store(true, Ordering::SeqCst);
            return false;
        }
        self.watch.begun(desks, self.seats)
    }

    fn goes_on(&self, peers: Peers) -> bool {
        self.watch.goes_on(peers)
    }

    fn failed(&self, reason: io::Error) {
        self.watch.listener_failed(reason);
    }
}
