//! Who is told of a listener.
use std::io;

/// What became of the connections that a listener took.
#[derive(Clone, Copy, Debug, PartialEq, Eq)]
pub struct Peers {
    /// So many have a session now.
    pub open: usize,
    /// So many were closed without a byte, since no thread was free for them.
    pub turned_away: u64,
    /// So many were closed since they took no byte of what was written to them.
    pub slow: u64,
    /// So many were closed since they were idle.
    pub idle: u64,
}

/// Is told how the serving of those who connect begins, how it goes, and why it ends.
pub trait ListenerWatch {
    /// So many desks have a thread each. Whether to take connections; none is taken where no desk has one.
    fn begun(&self, desks: usize) -> bool;

    /// The listener took a connection, or failed, and this became of those so far. Whether to take further ones; after a `false` the
    /// sessions are ended. A listener whose waiting is limited fails with `WouldBlock` each time, and so asks it in time.
    fn goes_on(&self, peers: Peers) -> bool;

    /// The listener can't work any more, for this reason. No further connection is taken.
    fn failed(&self, reason: io::Error);
}
