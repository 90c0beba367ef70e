use super::{greeted, is_told, line_from, send, served};
use disk::{Disk, FileDisk, MemDisk};
use recovery::{Pick, Shape, Store, format_device};
use std::fs::{self, File};
use std::net::{Net, SocketAddr, TcpListener, TcpStream};
use std::process::Abort;
use std::rt::Files;
use std::sync::Wait;
use std::thread::Threads;
use std::time::Clock;

/// The last revision of each document.
const LAST: u64 = 201;

const DOCUMENTS: [char; 4] = ['a', 'b', 'c', 'd'];

/// The journal has room for all that is written, so that no milestone is put at a newest revision.
const SHAPE: Shape = Shape {
    slots: 2,
    slot: 131_072,
    docs: 4,
    cell: 16_384,
    sources: 4,
    keep: 1_000,
};

/// How far milestones lie apart.
const EVERY: u32 = 16;

/// A line that creates a document, or puts a letter before what it has.
fn line(rt: &(impl Abort + AllocGlobal), document: char, number: u64) -> String {
    if number == 1 {
        return format!(in rt.alloc();
            "{{\"do\":\"create\",\"doc\":\"{document}\",\"n\":1,\"ops\":[{{\"insert\":\"x\"}}]}}"
        ).expect(rt, "memory");
    }
    let base = number.saturating_sub(1);
    format!(in rt.alloc();
        "{{\"base\":{base},\"do\":\"edit\",\"doc\":\"{document}\",\"n\":{number},\"ops\":[{{\"insert\":\"x\"}}]}}"
    ).expect(rt, "memory")
}

/// The reply to the command of this number, which is taken as the revision of it.
fn taken(rt: &(impl Abort + AllocGlobal), document: char, number: u64) -> String {
    format!(in rt.alloc();
        "{{\"doc\":\"{document}\",\"n\":{number},\"ok\":\"taken\",\"rev\":{number}}}"
    ).expect(rt, "memory")
}

/// A session that writes the documents in turn, and reads the replies once each has its next line.
fn write_in_turn<R: Abort + AllocGlobal + Net<Stream = TcpStream>>(rt: &R, address: SocketAddr) {
    let stream = greeted(rt, address, "ann");
    for number in 1..=LAST {
        for document in DOCUMENTS {
            send(rt, &stream, line(rt, document, number).as_str());
        }
        for document in DOCUMENTS {
            let reply = line_from(rt, &stream);
            assert_eq!(rt; reply.as_str(), taken(rt, document, number).as_str());
        }
    }
}

/// By a pick all is there. A document's floor is the milestone with which it was opened, at a multiple, or 0 where there is none.
fn lie_apart(rt: &(impl Abort + AllocGlobal), bytes: &[u8], pick: Pick) {
    let copy = bytes.to_vec(rt.alloc()).expect(rt, "memory");
    let store = match Store::open(rt.alloc(), MemDisk::holding(rt.alloc(), copy), pick) {
        Ok(store) => store,
        Err(fault) => panic!(rt; "{}", fault.refusal),
    };
    assert_eq!(rt; store.state().documents().len(), 4);
    for document in store.state().documents() {
        assert_eq!(rt; document.revision(), LAST);
        assert_eq!(rt; document.document().len16(), LAST);
        assert_eq!(rt; document.floor() % u64::from(EVERY), 0);
    }
}

/// Four documents are written over a connection; then each milestone stands at a multiple, and both picks show the same.
fn are_written<
    R: Threads
        + Wait
        + Clock
        + Abort
        + AllocGlobal
        + Net<Listener = TcpListener, Stream = TcpStream>
        + Sync,
>(rt: &R, store: Store<MemDisk>) {
    let (store, ended) = served(rt, store, EVERY, |address| write_in_turn(rt, address));
    assert_eq!(rt; ended, Ok(()));
    let disk = store.close();
    lie_apart(rt, disk.bytes(), Pick::Newer);
    lie_apart(rt, disk.bytes(), Pick::Older);
}

#[test]
fn milestones_lie_at_multiples(rt: HostRuntime) {
    let mut disk = MemDisk::new(rt.alloc(), SHAPE.device_len() as usize).expect(&rt, "memory");
    assert_eq!(&rt; format_device(rt.alloc(), &mut disk, SHAPE), Ok(()));
    are_written(&rt, super::opened(&rt, disk));
}

/// The place of the first document's first cell, at whose begin the gate stands, and the gate where it is open.
const GATE: usize = 64;

const OPEN: u8 = 0xa5;

/// So many edits are made at most. The journal has room for them.
const MOST: u64 = 2_000;

/// A session that writes a document until that has a milestone in the file.
fn write_until_put<R: Files<File = File> + Abort + AllocGlobal + Net<Stream = TcpStream>>(
    rt: &R,
    address: SocketAddr,
    path: &str,
) {
    let stream = greeted(rt, address, "ann");
    for number in 1..=MOST {
        let reply = taken(rt, 'a', number);
        is_told(rt, &stream, line(rt, 'a', number).as_str(), reply.as_str());
        let bytes = fs::read(rt, path).expect(rt, "the file");
        if bytes.get(GATE) == Some(&OPEN) {
            return;
        }
    }
    panic!(rt; "no milestone is put");
}

#[test]
fn a_milestone_is_put_beside_edits(rt: HostRuntime) {
    let path = "apart.store";
    let mut disk = FileDisk::create(&rt, path, SHAPE.device_len()).expect(&rt, "a file");
    assert_eq!(&rt; format_device(rt.alloc(), &mut disk, SHAPE), Ok(()));
    let store = super::opened(&rt, disk);
    let (_store, ended) = served(
        &rt,
        store,
        EVERY,
        |address| write_until_put(&rt, address, path),
    );
    assert_eq!(&rt; ended, Ok(()));
    assert!(&rt; fs::remove_file(&rt, path).is_ok());
}
