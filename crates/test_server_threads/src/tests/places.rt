use super::{EVERY, FETCH, TRIES, connect, formatted, greeted, is_told, opened, served};
use std::io::{Read, Write};
use std::net::{Net, SocketAddr, TcpStream};
use std::process::Abort;
use std::thread;
use std::time::{Clock, Duration};

const HELLO: &[u8] = b"{\"do\":\"hello\",\"source\":\"t\"}\n";

const MISSING: &str = "{\"code\":6,\"error\":\"NoDocument\"}";

/// Whether a new connection is closed without a byte.
fn is_turned_away<R: Net<Stream = TcpStream>>(rt: &R, address: SocketAddr) -> bool {
    let Ok(stream) = connect(rt, address) else {
        return false;
    };
    let mut byte = [0];
    let mut input = &stream;
    matches!(input.read(&mut byte), Ok(0))
}

/// Whether a new connection has its `hello` replied.
fn is_served<R: Net<Stream = TcpStream>>(rt: &R, address: SocketAddr) -> bool {
    let Ok(stream) = connect(rt, address) else {
        return false;
    };
    let mut output = &stream;
    if output.write_all(HELLO).is_err() {
        return false;
    }
    let mut byte = [0];
    let mut input = &stream;
    matches!(input.read(&mut byte), Ok(1))
}

/// Connections of so many sources.
pub fn greeted_all<R: Abort + AllocGlobal + Net<Stream = TcpStream>>(
    rt: &R,
    address: SocketAddr,
    count: u32,
) -> Vec<TcpStream> {
    let mut streams = Vec::new(rt.alloc());
    for i in 0..count {
        let source = format!(in rt.alloc(); "s{i}").expect(rt, "memory");
        streams
            .push(greeted(rt, address, source.as_str()))
            .expect(rt, "memory");
    }
    streams
}

/// Within a while a new connection is served.
pub fn comes_free<R: Abort + Clock + Net<Stream = TcpStream>>(rt: &R, address: SocketAddr) {
    for _ in 0..TRIES {
        if is_served(rt, address) {
            return;
        }
        thread::sleep(rt, Duration::from_millis(1));
    }
    panic!(rt; "no place came free")
}

fn fill<R: Abort + AllocGlobal + Clock + Net<Stream = TcpStream>>(rt: &R, address: SocketAddr) {
    let mut streams = greeted_all(rt, address, 64);
    assert!(rt; is_turned_away(rt, address));
    for stream in &streams {
        is_told(rt, stream, FETCH, MISSING);
    }
    drop(streams.pop());
    comes_free(rt, address);
}

#[test]
fn the_65th_connection_is_closed_without_a_byte(rt: HostRuntime) {
    let store = opened(&rt, formatted(&rt));
    let (_store, ended) = served(&rt, store, EVERY, |address| fill(&rt, address));
    assert_eq!(&rt; ended, Ok(()));
}
