use super::kept::Kept;
use super::{FETCH, formatted, greeted, is_closed, is_told, opened, served_kept};
use disk::{FaultDisk, FaultPlan, Left};
use refusal::Refusal;
use std::io::Write;
use std::net::{Net, SocketAddr, TcpStream};
use std::process::Abort;
use std::thread;
use std::time::{Clock, Duration};

const EDIT: &str =
    "{\"base\":1,\"do\":\"edit\",\"doc\":\"d\",\"n\":2,\"ops\":[{\"insert\":\"q\"}]}";

const FAILED: &str = "{\"code\":21,\"error\":\"StoreFailed\"}";

const TAKEN: &str = "{\"doc\":\"d\",\"n\":1,\"ok\":\"taken\",\"rev\":1}";

const AGAIN: &str = "{\"doc\":\"d\",\"n\":1,\"ok\":\"again\",\"rev\":1}";

/// The first creation opens a slot and is appended, by so many calls of the device.
const CREATION: u64 = 8;

/// The letters of the document.
const LETTERS: usize = 1_000;

/// So often a peer asks for the document. The replies are 20 megabytes.
const ASKED: usize = 20_000;

/// Below the time in milliseconds that a write waits for a peer that doesn't read.
const SOON: u128 = 3_000;

/// The creation of a document that has some letters.
fn creation(rt: &(impl Abort + AllocGlobal)) -> String {
    let text = "z".repeat(rt.alloc(), LETTERS).expect(rt, "memory");
    format!(in rt.alloc();
        "{{\"do\":\"create\",\"doc\":\"d\",\"n\":1,\"ops\":[{{\"insert\":\"{text}\"}}]}}"
    ).expect(rt, "memory")
}

/// A device that fails after the creation.
fn failing(rt: &(impl Abort + AllocGlobal)) -> FaultDisk {
    let plan = FaultPlan::stop(u64::MAX, Left::Nothing);
    let closed = opened(rt, FaultDisk::new(formatted(rt), plan)).close();
    let calls = (closed.disk().calls().len() as u64).saturating_add(CREATION);
    FaultDisk::new(formatted(rt), FaultPlan::fail(calls, Left::Nothing))
}

/// A peer that asks for the document so often that the server can't write all replies, and reads none.
fn ask_without_reading<R: Abort + AllocGlobal + Clock + Net<Stream = TcpStream>>(
    rt: &R,
    address: SocketAddr,
) -> TcpStream {
    let stream = greeted(rt, address, "eve");
    let line = format!(in rt.alloc(); "{FETCH}\n").expect(rt, "memory");
    let lines = line.repeat(rt.alloc(), ASKED).expect(rt, "memory");
    stream
        .set_write_timeout(Some(Duration::from_millis(500)))
        .expect(rt, "a limit");
    let mut output = &stream;
    // not all may have room, once the server waits
    let _ = output.write_all(lines.as_bytes());
    thread::sleep(rt, Duration::from_millis(1_000));
    stream
}

/// The store fails at the edit. Each session is closed then: one that was told so, one that waits for a line, and one that doesn't read.
fn fail<R: Abort + AllocGlobal + Clock + Net<Stream = TcpStream>>(rt: &R, address: SocketAddr) {
    let ann = greeted(rt, address, "ann");
    let bob = greeted(rt, address, "bob");
    is_told(rt, &ann, creation(rt).as_str(), TAKEN);
    is_told(rt, &ann, creation(rt).as_str(), AGAIN);
    let eve = ask_without_reading(rt, address);
    is_told(rt, &ann, EDIT, FAILED);
    is_closed(rt, &ann);
    is_closed(rt, &bob);
    drop(eve);
}

/// The milliseconds of a clock.
fn now(rt: &(impl Abort + Clock)) -> u128 {
    rt.monotonic().expect(rt, "a time").as_millis()
}

#[test]
fn a_failed_store_ends_the_server_where_it_is_asked(rt: HostRuntime) {
    let store = opened(&rt, failing(&rt));
    let kept = Kept::new(true);
    let (_store, ended) = served_kept(&rt, store, 0, &kept, |address| fail(&rt, address));
    assert_eq!(&rt; ended, Err(Refusal::Fault));
    assert_eq!(&rt; kept.slow(), 0);
    assert_eq!(&rt; kept.answers().taken(), 1);
    assert_eq!(&rt; kept.answers().again(), 1);
    assert_eq!(&rt; kept.answers().refused(21), 1);
    assert_eq!(&rt; kept.batches(), (2, 1));
}

/// A command is taken, and after that the sessions are served no longer.
fn write_once<R: Abort + AllocGlobal + Clock + Net<Stream = TcpStream>>(
    rt: &R,
    address: SocketAddr,
    kept: &Kept,
) {
    let ann = greeted(rt, address, "ann");
    is_told(rt, &ann, creation(rt).as_str(), TAKEN);
    let _eve = ask_without_reading(rt, address);
    let began = now(rt);
    kept.end();
    is_closed(rt, &ann);
    assert!(rt; now(rt) < began.saturating_add(SOON));
}

#[test]
fn a_watch_ends_the_server_and_what_was_taken_is_kept(rt: HostRuntime) {
    let store = opened(&rt, formatted(&rt));
    let kept = Kept::new(false);
    let (store, ended) = served_kept(&rt, store, 0, &kept, |address| {
        write_once(&rt, address, &kept)
    });
    assert_eq!(&rt; ended, Ok(()));
    let store = opened(&rt, store.close());
    assert_eq!(&rt; store.state().documents().len(), 1);
}
