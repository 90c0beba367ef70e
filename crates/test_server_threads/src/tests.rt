mod apart;
mod edits;
mod ending;
mod faults;
mod idle;
mod kept;
mod listening;
mod many;
mod places;
mod streams;
mod watched;

use disk::{Disk, MemDisk};
use kept::Kept;
use recovery::{Pick, Shape, Store, format_device};
use refusal::Refusal;
use server_threads::{Connected, serve_on};
use sockets::HostListener;
use std::io::{self, ErrorKind, Read, Write};
use std::net::{Net, OpenListener, SocketAddr, TcpListener, TcpStream};
use std::os::fd::OwnedFd;
use std::process::Abort;
use std::sync::Wait;
use std::sync::atomic::{AtomicBool, AtomicUsize, Ordering};
use std::thread::{self, Threads};
use std::time::{Clock, Duration};
use watched::Seen;

/// How often something is tried, a millisecond apart.
const TRIES: u32 = 100_000;

/// How long a client waits for bytes, in milliseconds.
const PATIENCE: u64 = 20_000;

const SHAPE: Shape = Shape {
    slots: 4,
    slot: 4_096,
    docs: 4,
    cell: 16_384,
    sources: 80,
    keep: 1_000,
};

/// The bytes of a device of this shape.
const DEVICE: usize = 147_520;

/// How far milestones lie apart where little is written: with 2 some are put while a test runs.
const EVERY: u32 = 2;

const FETCH: &str = "{\"do\":\"fetch\",\"doc\":\"d\"}";

/// The number of the error of a listener that isn't open.
const EBADF: i32 = 9;

/// A listener that first fails with each of these numbers, and with the last one once it is told that the test is over.
#[derive(Drop)]
struct Until<'a, R: Clock> {
    rt: &'a R,
    listener: &'a TcpListener,
    passing: &'a [i32],
    asked: AtomicUsize,
    over: &'a AtomicBool,
    last: i32,
}

impl<'a, R: Clock> OpenListener for Until<'a, R> {
    type Stream = TcpStream;

    fn accept(&self) -> io::Result<(TcpStream, SocketAddr)> {
        let asked = self.asked.fetch_add(1, Ordering::SeqCst);
        if let Some(number) = self.passing.get(asked) {
            return Err(io::Error::from_raw_os_error(*number));
        }
        for _ in 0..TRIES {
            match self.listener.accept() {
                Ok(accepted) => return Ok(accepted),
                Err(error) if error.kind() == ErrorKind::WouldBlock => {}
                Err(error) => return Err(error),
            }
            if self.over.load(Ordering::SeqCst) {
                return Err(io::Error::from_raw_os_error(self.last));
            }
            thread::sleep(self.rt, Duration::from_millis(1));
        }
        Err(io::Error::from_raw_os_error(self.last))
    }
}

/// A device with a store without documents.
fn formatted(rt: &(impl Abort + AllocGlobal)) -> MemDisk {
    let mut disk = MemDisk::new(rt.alloc(), DEVICE).expect(rt, "memory");
    assert_eq!(rt; format_device(rt.alloc(), &mut disk, SHAPE), Ok(()));
    let bytes = disk.bytes().to_vec(rt.alloc()).expect(rt, "memory");
    MemDisk::holding(rt.alloc(), bytes)
}

/// A store over a device that is to open.
fn opened<D: Disk + Drop>(rt: &(impl Abort + AllocGlobal), disk: D) -> Store<D> {
    match Store::open(rt.alloc(), disk, Pick::Newer) {
        Ok(store) => store,
        Err(fault) => panic!(rt; "{}", fault.refusal),
    }
}

/// Serves a store while `clients` runs with the address, and gives the store back with what ended the serving. Milestones lie `every`
/// revisions apart.
fn served<
    R: Threads
        + Wait
        + Abort
        + Clock
        + AllocGlobal
        + Net<Listener = TcpListener, Stream = TcpStream>
        + Sync,
    D: Disk + Send + Drop,
    F: FnOnce(SocketAddr) + Send,
>(rt: &R, store: Store<D>, every: u32, clients: F) -> (Store<D>, Result<(), Refusal>)
    requires { F.IsAlwaysCallable clients }
{
    served_behind(rt, store, every, &[], EBADF, clients)
}

/// The same behind a listener that first fails with each of these numbers, and in the end with the last one. The watch is told of the
/// sessions once and of that end, and of the store once where it failed.
fn served_behind<
    R: Threads
        + Wait
        + Abort
        + Clock
        + AllocGlobal
        + Net<Listener = TcpListener, Stream = TcpStream>
        + Sync,
    D: Disk + Send + Drop,
    F: FnOnce(SocketAddr) + Send,
>(
    rt: &R,
    store: Store<D>,
    every: u32,
    passing: &[i32],
    last: i32,
    clients: F,
) -> (Store<D>, Result<(), Refusal>)
    requires { F.IsAlwaysCallable clients }
{
    let listener = TcpListener::bind(rt, "127.0.0.1:0").expect(rt, "a listener");
    listener
        .set_nonblocking(true)
        .expect(rt, "a listener that doesn't wait");
    let address = listener.local_addr().expect(rt, "an address");
    let over = AtomicBool::new(false);
    let until = HostListener::new(Until {
        rt,
        listener: &listener,
        passing,
        asked: AtomicUsize::new(0),
        over: &over,
        last,
    });
    let seen = Seen::new();
    let (_, ended) = thread::join(
        rt,
        || {
            clients(address);
            over.store(true, Ordering::SeqCst);
        },
        || served_whole(rt, serve_on(rt, rt.alloc(), store, until, every, 0, &seen)),
    );
    assert_eq!(rt; seen.begins(), 1);
    assert_eq!(rt; seen.ended_by(), last);
    assert_eq!(rt; seen.failures(), if ended.1.is_err() { 1 } else { 0 });
    ended
}

/// What serving gave back, where all are accounted for who came.
fn served_whole<N: Drop, D: Disk + Drop>(
    rt: &impl Abort,
    connected: Connected<N, D>,
) -> (Store<D>, Result<(), Refusal>) {
    let Connected {
        store,
        listener: _,
        attendance,
        served,
    } = connected;
    assert!(rt; attendance.is_complete());
    (store, served)
}

/// A listener whose waiting is limited to 100 milliseconds, as a stream's would be.
fn limited_listener<R: Abort + Net<Listener = TcpListener, Stream = TcpStream>>(
    rt: &R,
) -> TcpListener {
    let listener = TcpListener::bind(rt, "127.0.0.1:0").expect(rt, "a listener");
    let stream = TcpStream::from(OwnedFd::from(listener));
    stream
        .set_read_timeout(Some(Duration::from_millis(100)))
        .expect(rt, "a limit");
    TcpListener::from(OwnedFd::from(stream))
}

/// Serves a store while `clients` runs with the address, to peers that may be idle for so many seconds, until the watch ends it: once
/// `clients` is back at the latest.
fn served_kept<
    R: Threads
        + Wait
        + Abort
        + Clock
        + AllocGlobal
        + Net<Listener = TcpListener, Stream = TcpStream>
        + Sync,
    D: Disk + Send + Drop,
    F: FnOnce(SocketAddr) + Send,
>(rt: &R, store: Store<D>, idle: u32, kept: &Kept, clients: F) -> (Store<D>, Result<(), Refusal>)
    requires { F.IsAlwaysCallable clients }
{
    let listener = limited_listener(rt);
    let address = listener.local_addr().expect(rt, "an address");
    let listener = HostListener::new(listener);
    let (_, ended) = thread::join(
        rt,
        || {
            clients(address);
            kept.end();
        },
        || served_whole(
            rt,
            serve_on(rt, rt.alloc(), store, listener, EVERY, idle, kept),
        ),
    );
    ended
}

/// A connection to the address.
fn connect<R: Net<Stream = TcpStream>>(rt: &R, address: SocketAddr) -> io::Result<TcpStream> {
    let stream = TcpStream::connect(rt, address)?;
    stream.set_read_timeout(Some(Duration::from_millis(PATIENCE)))?;
    Ok(stream)
}

/// A connection whose source is greeted.
fn greeted<R: Abort + AllocGlobal + Net<Stream = TcpStream>>(
    rt: &R,
    address: SocketAddr,
    source: &str,
) -> TcpStream {
    let stream = connect(rt, address).expect(rt, "a connection");
    let hello = format!(in rt.alloc(); "{{\"do\":\"hello\",\"source\":\"{source}\"}}");
    is_told(
        rt,
        &stream,
        hello.expect(rt, "memory").as_str(),
        "{\"ok\":\"hello\"}",
    );
    stream
}

/// The next line that comes, without its end. It is to come before the stream ends.
fn line_from(rt: &(impl Abort + AllocGlobal), stream: &TcpStream) -> String {
    let mut bytes = Vec::new(rt.alloc());
    let mut input = stream;
    let mut byte = [0];
    for _ in 0..100_000 {
        let count = input.read(&mut byte).expect(rt, "a read");
        assert_eq!(rt; count, 1);
        if byte[0] == b'\n' {
            break;
        }
        bytes.push(byte[0]).expect(rt, "memory");
    }
    String::from_utf8(bytes).expect(rt, "a text")
}

/// Sends a line.
fn send(rt: &impl Abort, stream: &TcpStream, line: &str) {
    let mut output = stream;
    output.write_all(line.as_bytes()).expect(rt, "a write");
    output.write_all(b"\n").expect(rt, "a write");
}

/// The stream ends, without a byte before.
fn is_closed(rt: &impl Abort, stream: &TcpStream) {
    let mut byte = [0];
    let mut input = stream;
    assert_eq!(rt; input.read(&mut byte).expect(rt, "a read"), 0);
}

/// Sends a line, and this one comes.
fn is_told(rt: &(impl Abort + AllocGlobal), stream: &TcpStream, line: &str, reply: &str) {
    send(rt, stream, line);
    assert_eq!(rt; line_from(rt, stream).as_str(), reply);
}
