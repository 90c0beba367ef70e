use super::{greeted, is_told, line_from, opened, send, served};
use disk::{Disk, FileDisk, MemDisk};
use recovery::{Shape, format_device};
use std::fs;
use std::net::{Net, SocketAddr, TcpListener, TcpStream};
use std::process::Abort;
use std::sync::Wait;
use std::thread::{self, Threads};
use std::time::Clock;

/// How many edits each of eight writers makes of the document of all, and of one of its own.
const EDITS: u64 = 1_000;

/// What each writer puts before the documents, once for each edit. It is also the name of its source and of its document.
const LETTERS: [char; 8] = ['A', 'B', 'C', 'D', 'E', 'F', 'G', 'H'];

/// Its journal has 256 KiB, a part of what is written.
const SHAPE: Shape = Shape {
    slots: 4,
    slot: 65_536,
    docs: 16,
    cell: 131_072,
    sources: 80,
    keep: 16_000,
};

/// How far milestones lie apart.
const EVERY: u32 = 256;

/// Creates a document.
fn create(rt: &(impl Abort + AllocGlobal), stream: &TcpStream, document: &str) {
    let line = format!(in rt.alloc();
        "{{\"do\":\"create\",\"doc\":\"{document}\",\"n\":1,\"ops\":[{{\"insert\":\".\"}}]}}"
    ).expect(rt, "memory");
    let reply = format!(in rt.alloc();
        "{{\"doc\":\"{document}\",\"n\":1,\"ok\":\"taken\",\"rev\":1}}"
    ).expect(rt, "memory");
    is_told(rt, stream, line.as_str(), reply.as_str());
}

/// The revision of the reply that comes, which is to say that this command on the document of all was taken.
fn taken(rt: &(impl Abort + AllocGlobal), stream: &TcpStream, number: u64) -> u64 {
    let head = format!(in rt.alloc();
        "{{\"doc\":\"all\",\"n\":{number},\"ok\":\"taken\",\"rev\":"
    ).expect(rt, "memory");
    let reply = line_from(rt, stream);
    let tail = reply
        .as_str()
        .strip_prefix(head.as_str())
        .expect(rt, "it is taken");
    let digits = tail.strip_suffix("}").expect(rt, "an end");
    digits.parse().expect(rt, "a revision")
}

/// Sends two edits at once, one of the writer's document, and one of the other on this revision. Gives the revision of the latter.
fn edit_both(
    rt: &(impl Abort + AllocGlobal),
    stream: &TcpStream,
    letter: char,
    number: u64,
    base: u64,
) -> u64 {
    let next = number.saturating_add(1);
    let lines = format!(in rt.alloc();
        "{{\"base\":{number},\"do\":\"edit\",\"doc\":\"{letter}\",\"n\":{next},\"ops\":[{{\"insert\":\"{letter}\"}}]}}\n{{\"base\":{base},\"do\":\"edit\",\"doc\":\"all\",\"n\":{number},\"ops\":[{{\"insert\":\"{letter}\"}}]}}"
    ).expect(rt, "memory");
    let reply = format!(in rt.alloc();
        "{{\"doc\":\"{letter}\",\"n\":{next},\"ok\":\"taken\",\"rev\":{next}}}"
    ).expect(rt, "memory");
    is_told(rt, stream, lines.as_str(), reply.as_str());
    taken(rt, stream, number)
}

/// All that a writer does. Each edit of the document of all gets a revision above the one before.
fn write_all_of<R: Abort + AllocGlobal + Net<Stream = TcpStream>>(
    rt: &R,
    address: SocketAddr,
    letter: char,
) {
    let source = format!(in rt.alloc(); "{letter}").expect(rt, "memory");
    let stream = greeted(rt, address, source.as_str());
    create(rt, &stream, source.as_str());
    let mut base = 1;
    for number in 1..=EDITS {
        let next = edit_both(rt, &stream, letter, number, base);
        assert!(rt; base < next);
        base = next;
    }
}

/// Two writers, each in a thread of its own.
fn write_two<
    R: Threads
        + Wait
        + Clock
        + Abort
        + AllocGlobal
        + Net<Listener = TcpListener, Stream = TcpStream>
        + Sync,
>(rt: &R, address: SocketAddr, letters: [char; 2]) {
    let [one, other] = letters;
    thread::join(
        rt,
        || write_all_of(rt, address, one),
        || write_all_of(rt, address, other),
    );
}

/// Four writers, each in a thread of its own.
fn write_four<
    R: Threads
        + Wait
        + Clock
        + Abort
        + AllocGlobal
        + Net<Listener = TcpListener, Stream = TcpStream>
        + Sync,
>(rt: &R, address: SocketAddr, letters: [char; 4]) {
    let [a, b, c, d] = letters;
    thread::join(
        rt,
        || write_two(rt, address, [a, b]),
        || write_two(rt, address, [c, d]),
    );
}

/// The eight writers, each in a thread of its own.
fn write_beside<
    R: Threads
        + Wait
        + Clock
        + Abort
        + AllocGlobal
        + Net<Listener = TcpListener, Stream = TcpStream>
        + Sync,
>(rt: &R, address: SocketAddr) {
    thread::join(
        rt,
        || write_four(rt, address, ['A', 'B', 'C', 'D']),
        || write_four(rt, address, ['E', 'F', 'G', 'H']),
    );
}

/// So often a letter stands in a text.
fn count_of(text: &str, letter: char) -> u64 {
    let mut count: u64 = 0;
    for other in text.chars() {
        if other == letter {
            count = count.saturating_add(1);
        }
    }
    count
}

/// A session that creates the document of all, and sees each letter of each writer in it once they have written.
fn all_write<
    R: Threads
        + Wait
        + Clock
        + Abort
        + AllocGlobal
        + Net<Listener = TcpListener, Stream = TcpStream>
        + Sync,
>(rt: &R, address: SocketAddr) {
    let first = greeted(rt, address, "first");
    create(rt, &first, "all");
    write_beside(rt, address);
    send(rt, &first, "{\"do\":\"fetch\",\"doc\":\"all\"}");
    let shown = line_from(rt, &first);
    for letter in LETTERS {
        assert_eq!(rt; count_of(shown.as_str(), letter), EDITS);
    }
}

/// Eight writers over a store: each edit is acknowledged, stands in its documents once, and is there when the store is opened again.
fn eight_write<
    R: Threads
        + Wait
        + Clock
        + Abort
        + AllocGlobal
        + Net<Listener = TcpListener, Stream = TcpStream>
        + Sync,
    D: Disk + Send + Drop,
>(rt: &R, disk: D) {
    let (store, ended) = served(
        rt,
        opened(rt, disk),
        EVERY,
        |address| all_write(rt, address),
    );
    assert_eq!(rt; ended, Ok(()));
    let store = opened(rt, store.close());
    let documents = store.state().documents();
    assert_eq!(rt; documents.len(), 9);
    for document in documents {
        assert_eq!(rt; document.document().len16(), document.revision());
    }
    assert_eq!(rt; documents[0].revision(), 8_001);
}

#[test]
fn eight_write_in_memory(rt: HostRuntime) {
    let mut disk = MemDisk::new(rt.alloc(), SHAPE.device_len() as usize).expect(&rt, "memory");
    assert_eq!(&rt; format_device(rt.alloc(), &mut disk, SHAPE), Ok(()));
    eight_write(&rt, disk);
}

#[test]
fn eight_write_into_a_file(rt: HostRuntime) {
    let path = "eight.store";
    let mut disk = FileDisk::create(&rt, path, SHAPE.device_len()).expect(&rt, "a file");
    assert_eq!(&rt; format_device(rt.alloc(), &mut disk, SHAPE), Ok(()));
    eight_write(&rt, disk);
    assert!(&rt; fs::remove_file(&rt, path).is_ok());
}
