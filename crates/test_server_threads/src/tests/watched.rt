use refusal::Refusal;
use server_threads::Watch;
use std::io;
use std::sync::atomic::{AtomicI32, AtomicUsize, Ordering};

/// Keeps what a server tells its watch.
#[derive(Drop)]
pub struct Seen {
    begins: AtomicUsize,
    failures: AtomicUsize,
    ended_by: AtomicI32,
}

impl Seen {
    /// Nothing is told yet.
    pub fn new() -> Seen {
        Seen {
            begins: AtomicUsize::new(0),
            failures: AtomicUsize::new(0),
            ended_by: AtomicI32::new(0),
        }
    }

    /// How often it was told that sessions have begun.
    pub fn begins(&self) -> usize {
        self.begins.load(Ordering::SeqCst)
    }

    /// How often it was told that the store failed.
    pub fn failures(&self) -> usize {
        self.failures.load(Ordering::SeqCst)
    }

    /// The number of the error that ended the listener.
    pub fn ended_by(&self) -> i32 {
        self.ended_by.load(Ordering::SeqCst)
    }
}

impl<D> Watch<D> for Seen {
    fn begun(&self, sessions: usize, seats: usize) -> bool {
        self.begins.fetch_add(1, Ordering::SeqCst);
        0 < sessions && sessions <= seats
    }

    fn listener_failed(&self, reason: io::Error) {
        self.ended_by
            .store(reason.raw_os_error().unwrap_or(-1), Ordering::SeqCst);
    }

    fn store_failed(&self, _why: Refusal, _device: &D) {
        self.failures.fetch_add(1, Ordering::SeqCst);
    }
}
