//! The loop that takes connections.
ghost use Rattle.std.specs.Prelude.{◌≡◌, ◌+◌, ◌∷◌, true, IfSome};
ghost use Rattle.sockets.specs.Socket.{AcceptFailed, Event, came, HasFailedSince};
ghost use Rattle.sockets.specs.Door.{accounted_for, lets_in, taken_in, MayBeShut};

use crate::door::Door;
use crate::guests::Guest;
use crate::lobby::Lobby;
use crate::raw::Listen;
use crate::watch::ListenerWatch;
use std::io::{self, ErrorKind};
use std::sync::Wait;
use std::sync::ledger::Ledger;
use std::thread;
use std::time::{Clock, Duration};

/// How long an error that may pass is waited out, in milliseconds.
const ERROR_WAIT: u64 = 100;

/// How long it is waited out, in milliseconds, that nobody connected in the listener's own time.
const PAUSE_WAIT: u64 = 1;

/// The listener isn't open.
const EBADF: i32 = 9;

/// The call has no place for the peer's address.
const EFAULT: i32 = 14;

/// The listener doesn't listen.
const EINVAL: i32 = 22;

/// The listener is no socket.
const ENOTSOCK: i32 = 88;

/// Takes connections until the listener can't work any more, where there are threads that serve them, and as long as the watch asks for it:
/// then those that have come are closed, and no further one is waited for. Each other error of the listener concerns one connection or may
/// pass: it is waited out, and the next connection is taken then. In the end the door is shut. Answers whether it ended with a call of the
/// listener that failed.
pub fn accept_all<G: Ledger, R: Wait + Clock, N: Listen, W: ListenerWatch>(
    rt: &R,
    lobby: &Lobby<G>,
    door: &mut Door<G>,
    listener: &mut N,
    watch: &W,
) -> bool
    requires { taken_in door.old ≡ 0 }
    // Each connection that came has a part.
    ensures counted { came (N.arrivals listener.new) + taken_in door.old ≡ came (N.arrivals listener.old) + taken_in door.new }
    ensures accounted { accounted_for door.new ≡ accounted_for door.old }
    ensures shut { door.new.is_shut ≡ true }
    ensures failed { result ≡ true → HasFailedSince (N.arrivals listener.old) (N.arrivals listener.new) }
{
    let has_failed = accept_each(rt, lobby, door, listener, watch);
    door.shut(listener);
    has_failed
}

// Takes connections, until the door may be shut. Answers whether it ended with a call of the listener that failed.
fn accept_each<G: Ledger, R: Wait + Clock, N: Listen, W: ListenerWatch>(
    rt: &R,
    lobby: &Lobby<G>,
    door: &mut Door<G>,
    listener: &mut N,
    watch: &W,
) -> bool
    requires { taken_in door.old ≡ 0 }
    ensures counted { came (N.arrivals listener.new) + taken_in door.old ≡ came (N.arrivals listener.old) + taken_in door.new }
    ensures accounted { accounted_for door.new ≡ accounted_for door.old }
    ensures over { MayBeShut (N.arrivals listener.new) door.new }
    ensures failed { result ≡ true → HasFailedSince (N.arrivals listener.old) (N.arrivals listener.new) }
{
    let threads = lobby.free(rt);
    let is_begun = watch.begun(threads);
    if threads == 0 {
        return false;
    }
    let mut is_going = is_begun;
    if !is_going {
        listener.stop_waiting();
    }
    'peers: for _ in rt.forever() {
        if !door.is_open() {
            return false;
        }
        if let Some(reason) = accept_one(rt, lobby, door, listener, is_going) {
            if ends_listener(reason) {
                watch.failed(reason);
                return true;
            }
            if !is_going {
                return true;
            }
            thread::sleep(rt, wait_after(reason));
        }
        if is_going && !watch.goes_on(lobby.peers(rt)) {
            is_going = false;
            listener.stop_waiting();
        }
    }
    unreachable!()
}

// Takes a connection, which gets a part. Answers why the listener failed, where it did.
fn accept_one<G: Ledger, N: Listen>(
    rt: &impl Wait,
    lobby: &Lobby<G>,
    door: &mut Door<G>,
    listener: &mut N,
    is_going: bool,
) -> Option<io::Error>
    requires { lets_in door.old ≡ true }
    ensures counted { came (N.arrivals listener.new) + taken_in door.old ≡ came (N.arrivals listener.old) + taken_in door.new }
    ensures accounted { accounted_for door.new ≡ accounted_for door.old }
    ensures one { (event : Event) × (N.arrivals listener.new ≡ event ∷ N.arrivals listener.old) }
    ensures failed { IfSome result (λ _. N.arrivals listener.new ≡ AcceptFailed ∷ N.arrivals listener.old) }
{
    match listener.accept() {
        Ok(peer) => {
            let_in(rt, lobby, door.take_in(peer), is_going);
            None
        }
        Err(reason) => Some(reason),
    }
}

// Hands a connection to a thread that is free, or closes it: where none is, or where nobody is served any more.
fn let_in<G: Ledger>(rt: &impl Wait, lobby: &Lobby<G>, peer: Guest<G>, is_going: bool) {
    if is_going {
        lobby.offer(rt, peer);
    } else {
        lobby.turn_away(rt, peer);
    }
}

// How long an error is waited out.
fn wait_after(reason: io::Error) -> Duration {
    if reason.kind() == ErrorKind::WouldBlock {
        Duration::from_millis(PAUSE_WAIT)
    } else {
        Duration::from_millis(ERROR_WAIT)
    }
}

// Whether no later call can succeed.
fn ends_listener(reason: io::Error) -> bool {
    matches!(
        reason.raw_os_error(),
        Some(EBADF | EFAULT | EINVAL | ENOTSOCK)
    )
}
