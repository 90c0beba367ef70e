use super::{EBADF, EVERY, formatted, greeted, opened, served_behind};
use std::net::{Net, SocketAddr, TcpListener, TcpStream};
use std::process::Abort;
use std::sync::Wait;
use std::thread::Threads;
use std::time::Clock;

/// The numbers of errors that a listener may give and then work: that a signal cut the call short, that the peer gave its connection up,
/// those of the network that Linux's manual of accept lists, that none waits, of descriptors, buffers and memory, of a rule against it, and
/// of time.
const PASSING: [i32; 17] = [
    4, 103, 100, 71, 92, 112, 64, 113, 95, 101, 11, 24, 23, 105, 12, 1, 110,
];

/// Those of a listener that isn't open, has no place for an address, doesn't listen, or is no socket.
const LASTING: [i32; 4] = [EBADF, 14, 22, 88];

/// A connection is served.
fn comes<R: Abort + AllocGlobal + Net<Stream = TcpStream>>(rt: &R, address: SocketAddr) {
    drop(greeted(rt, address, "ann"));
}

#[test]
fn errors_of_the_listener_that_pass_are_waited_out(rt: HostRuntime) {
    let store = opened(&rt, formatted(&rt));
    let (_store, ended) = served_behind(&rt, store, EVERY, &PASSING, EBADF, |address| {
        comes(&rt, address)
    });
    assert_eq!(&rt; ended, Ok(()));
}

/// A listener that fails with this number ends the serving.
fn ends<
    R: Threads
        + Wait
        + Abort
        + Clock
        + AllocGlobal
        + Net<Listener = TcpListener, Stream = TcpStream>
        + Sync,
>(rt: &R, number: i32) {
    let store = opened(rt, formatted(rt));
    let (_store, ended) = served_behind(rt, store, EVERY, &[], number, |address| {
        comes(rt, address)
    });
    assert_eq!(rt; ended, Ok(()));
}

#[test]
fn a_listener_that_cannot_work_any_more_ends_the_serving(rt: HostRuntime) {
    for number in LASTING {
        ends(&rt, number);
    }
}
