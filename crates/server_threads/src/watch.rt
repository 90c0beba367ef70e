//! Who is told what happens while a store is served.
use flusher::Moment;
use hub_desk::Counters;
use refusal::Refusal;
use sockets::Peers;
use std::io;

/// Is called for what happens while a store over a device `D` is served, in the thread where it happens, which waits for it. No clause
/// speaks of it.
pub trait Watch<D>: Sync {
    /// So many of `seats` sessions have a thread each, and the thread that writes is there, so whoever connects is served. Whether to
    /// go on: after a `false` nobody is. It isn't called where no session has a thread, and not over a pair of streams.
    fn begun(&self, sessions: usize, seats: usize) -> bool;

    /// The listener took a connection, or failed, and this became of those so far. Whether to go on: after a `false` no further one is
    /// taken, and the sessions are ended. A listener whose waiting is limited fails with `WouldBlock` each time, and so asks it in time. It
    /// isn't called over a pair of streams.
    fn goes_on(&self, _peers: Peers) -> bool {
        true
    }

    /// The listener can't work any more, for this reason, which ends the serving.
    fn listener_failed(&self, reason: io::Error);

    /// The store failed with this device, for this reason: it takes no further command until it is opened again.
    fn store_failed(&self, why: Refusal, device: &D);

    /// The write of a batch has come to this moment. Where memory ran out after a moment, the write comes to it again.
    fn writes(&self, _at: Moment) {}

    /// What counts the answers that sessions get to their commands, if anything does. It is asked for once, before a session begins.
    fn counters(&self) -> Option<&Counters> {
        None
    }
}
