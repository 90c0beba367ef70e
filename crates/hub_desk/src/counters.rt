//! How many commands were answered, and how.
use refusal::Refusal;
use session::Reply;
use std::array;
use std::sync::atomic::{AtomicU64, Ordering};

/// The numbers of refusals lie below this.
const NUMBERS: usize = 41;

/// Counts the answers to commands, from all desks that have it. No clause says what it counts.
#[derive(Drop)]
pub struct Counters {
    taken: AtomicU64,
    again: AtomicU64,
    refused: [AtomicU64; NUMBERS],
}

impl Counters {
    /// None is counted yet. It takes no memory.
    pub fn new() -> Counters {
        Counters {
            taken: AtomicU64::new(0),
            again: AtomicU64::new(0),
            refused: array::from_fn(|_| AtomicU64::new(0)),
        }
    }

    /// How many were taken.
    pub fn taken(&self) -> u64 {
        self.taken.load(Ordering::SeqCst)
    }

    /// How many were taken before, and were sent again.
    pub fn again(&self) -> u64 {
        self.again.load(Ordering::SeqCst)
    }

    /// How many were refused with the refusal of this number.
    pub fn refused(&self, number: u8) -> u64 {
        match self.refused.get(usize::from(number)) {
            Some(count) => count.load(Ordering::SeqCst),
            None => 0,
        }
    }

    // Counts the answer to a command.
    pub(crate) fn note(&self, answer: &Result<Reply, Refusal>) {
        match answer {
            Ok(Reply::Taken { .. }) => count(&self.taken),
            Ok(Reply::Again { .. }) => count(&self.again),
            Err(refusal) => {
                if let Some(refused) = self.refused.get(usize::from(refusal.number())) {
                    count(refused);
                }
            }
        }
    }
}

// Counts one more.
fn count(number: &AtomicU64) {
    let _before = number.fetch_add(1, Ordering::SeqCst);
}
