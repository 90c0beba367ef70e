use refusal::Refusal;
use server_threads::{Counters, Moment, Peers, Watch};
use std::io;
use std::sync::atomic::{AtomicBool, AtomicU64, Ordering};

/// Keeps what a server tells its watch, and ends it.
#[derive(Drop)]
pub struct Kept {
    has_ended: AtomicBool,
    ends_with_store: bool,
    slow: AtomicU64,
    idle: AtomicU64,
    begun: AtomicU64,
    written: AtomicU64,
    counters: Counters,
}

impl Kept {
    /// Nothing is told yet. It ends the server where the store fails, or not.
    pub fn new(ends_with_store: bool) -> Kept {
        Kept {
            has_ended: AtomicBool::new(false),
            ends_with_store,
            slow: AtomicU64::new(0),
            idle: AtomicU64::new(0),
            begun: AtomicU64::new(0),
            written: AtomicU64::new(0),
            counters: Counters::new(),
        }
    }

    /// Ends the server.
    pub fn end(&self) {
        self.has_ended.store(true, Ordering::SeqCst);
    }

    /// How many connections were closed since they took nothing.
    pub fn slow(&self) -> u64 {
        self.slow.load(Ordering::SeqCst)
    }

    /// How many connections were closed since they were idle.
    pub fn idle(&self) -> u64 {
        self.idle.load(Ordering::SeqCst)
    }

    /// How many batches were begun, and how many were written.
    pub fn batches(&self) -> (u64, u64) {
        (
            self.begun.load(Ordering::SeqCst),
            self.written.load(Ordering::SeqCst),
        )
    }

    /// What the desks answered.
    pub fn answers(&self) -> &Counters {
        &self.counters
    }
}

impl<D> Watch<D> for Kept {
    fn begun(&self, sessions: usize, seats: usize) -> bool {
        0 < sessions && sessions <= seats
    }

    fn goes_on(&self, peers: Peers) -> bool {
        self.slow.store(peers.slow, Ordering::SeqCst);
        self.idle.store(peers.idle, Ordering::SeqCst);
        !self.has_ended.load(Ordering::SeqCst)
    }

    fn listener_failed(&self, _reason: io::Error) {}

    fn store_failed(&self, _why: Refusal, _device: &D) {
        if self.ends_with_store {
            self.end();
        }
    }

    fn writes(&self, at: Moment) {
        let count = match at {
            Moment::BeforeCommit => &self.begun,
            Moment::AfterCommit => &self.written,
        };
        let _before = count.fetch_add(1, Ordering::SeqCst);
    }

    fn counters(&self) -> Option<&Counters> {
        Some(&self.counters)
    }
}
