use super::kept::Kept;
use super::places::comes_free;
use super::{FETCH, connect, formatted, greeted, is_closed, is_told, opened, served_kept};
use std::io::{Read, Write};
use std::net::{Net, SocketAddr, TcpStream};
use std::process::Abort;
use std::thread;
use std::time::{Clock, Duration};

/// For how many seconds a peer may be idle.
const IDLE: u32 = 1;

const CREATE: &str = "{\"do\":\"create\",\"doc\":\"d\",\"n\":1,\"ops\":[{\"insert\":\"z\"}]}";

const TAKEN: &str = "{\"doc\":\"d\",\"n\":1,\"ok\":\"taken\",\"rev\":1}";

const SHOWN: &str = "{\"doc\":\"d\",\"ok\":\"doc\",\"ops\":[{\"insert\":\"z\"}],\"rev\":1}";

const SUBSCRIBE: &str = "{\"do\":\"subscribe\",\"doc\":\"d\",\"rev\":1}";

const SUBSCRIBED: &str = "{\"doc\":\"d\",\"ok\":\"subscribed\",\"rev\":1}";

const UNSUBSCRIBE: &str = "{\"do\":\"unsubscribe\",\"doc\":\"d\"}";

const UNSUBSCRIBED: &str = "{\"doc\":\"d\",\"ok\":\"unsubscribed\"}";

const MISSING: &str = "{\"code\":6,\"error\":\"NoDocument\"}";

/// The milliseconds of a clock.
fn now(rt: &(impl Abort + Clock)) -> u128 {
    rt.monotonic().expect(rt, "a time").as_millis()
}

/// A connection that said nothing, one that began a line, and one that was greeted are each closed, no sooner than they may be.
fn silent_ones<R: Abort + AllocGlobal + Clock + Net<Stream = TcpStream>>(
    rt: &R,
    address: SocketAddr,
) {
    let began = now(rt);
    let silent = connect(rt, address).expect(rt, "a connection");
    let half = connect(rt, address).expect(rt, "a connection");
    let mut output = &half;
    output.write_all(b"{\"do\":\"hello\"").expect(rt, "a write");
    let ann = greeted(rt, address, "ann");
    for stream in [&silent, &half, &ann] {
        is_closed(rt, stream);
        assert!(rt; now(rt) >= began.saturating_add(1_000));
    }
}

#[test]
fn idle_connections_are_closed(rt: HostRuntime) {
    let store = opened(&rt, formatted(&rt));
    let kept = Kept::new(false);
    let (_store, ended) = served_kept(&rt, store, IDLE, &kept, |address| {
        silent_ones(&rt, address);
        thread::sleep(&rt, Duration::from_millis(500));
    });
    assert_eq!(&rt; ended, Ok(()));
    assert_eq!(&rt; kept.idle(), 3);
    assert_eq!(&rt; kept.slow(), 0);
}

/// A connection that says no `hello` is closed, however many lines it sends.
fn babbling_one<R: Abort + AllocGlobal + Clock + Net<Stream = TcpStream>>(
    rt: &R,
    address: SocketAddr,
) {
    let stream = connect(rt, address).expect(rt, "a connection");
    let mut replies = [0; 256];
    let mut input = &stream;
    let mut output = &stream;
    for _ in 0..100 {
        let is_sent = output.write_all(b"{}\n").is_ok();
        if !is_sent || !matches!(input.read(&mut replies), Ok(1..)) {
            return;
        }
        thread::sleep(rt, Duration::from_millis(250));
    }
    panic!(rt; "it isn't closed")
}

#[test]
fn lines_before_hello_do_not_count(rt: HostRuntime) {
    let store = opened(&rt, formatted(&rt));
    let kept = Kept::new(false);
    let (_store, ended) = served_kept(&rt, store, IDLE, &kept, |address| {
        babbling_one(&rt, address)
    });
    assert_eq!(&rt; ended, Ok(()));
}

/// One that follows a document is served on, and one that sends a line in time. Once it follows no longer it is closed.
fn busy_ones<R: Abort + AllocGlobal + Clock + Net<Stream = TcpStream>>(
    rt: &R,
    address: SocketAddr,
) {
    let follower = greeted(rt, address, "ann");
    is_told(rt, &follower, CREATE, TAKEN);
    is_told(rt, &follower, SUBSCRIBE, SUBSCRIBED);
    let reader = greeted(rt, address, "bob");
    for _ in 0..6 {
        thread::sleep(rt, Duration::from_millis(400));
        is_told(rt, &reader, FETCH, SHOWN);
    }
    is_told(rt, &follower, FETCH, SHOWN);
    is_told(rt, &follower, UNSUBSCRIBE, UNSUBSCRIBED);
    is_closed(rt, &follower);
    is_closed(rt, &reader);
}

#[test]
fn one_that_follows_or_asks_is_served_on(rt: HostRuntime) {
    let store = opened(&rt, formatted(&rt));
    let kept = Kept::new(false);
    let (_store, ended) = served_kept(&rt, store, IDLE, &kept, |address| {
        busy_ones(&rt, address)
    });
    assert_eq!(&rt; ended, Ok(()));
}

/// All places are taken by silent connections, which are kept open here, and come free.
fn silent_places<R: Abort + AllocGlobal + Clock + Net<Stream = TcpStream>>(
    rt: &R,
    address: SocketAddr,
) {
    let mut streams = Vec::new(rt.alloc());
    for _ in 0..64 {
        streams
            .push(connect(rt, address).expect(rt, "a connection"))
            .expect(rt, "memory");
    }
    comes_free(rt, address);
}

#[test]
fn the_place_of_an_idle_connection_is_free(rt: HostRuntime) {
    let store = opened(&rt, formatted(&rt));
    let kept = Kept::new(false);
    let (_store, ended) = served_kept(&rt, store, IDLE, &kept, |address| {
        silent_places(&rt, address)
    });
    assert_eq!(&rt; ended, Ok(()));
}

/// Where no time is given a silent connection stays.
fn silent_one<R: Abort + AllocGlobal + Clock + Net<Stream = TcpStream>>(
    rt: &R,
    address: SocketAddr,
) {
    let ann = greeted(rt, address, "ann");
    thread::sleep(rt, Duration::from_millis(2_500));
    is_told(rt, &ann, FETCH, MISSING);
}

#[test]
fn without_a_time_none_is_closed(rt: HostRuntime) {
    let store = opened(&rt, formatted(&rt));
    let kept = Kept::new(false);
    let (_store, ended) = served_kept(&rt, store, 0, &kept, |address| silent_one(&rt, address));
    assert_eq!(&rt; ended, Ok(()));
    assert_eq!(&rt; kept.idle(), 0);
}
