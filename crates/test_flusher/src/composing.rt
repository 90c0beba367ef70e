//! Composers beside turns: jobs are handed out by multiples, what comes of them is put, and turns retire what they may.
ghost use Rattle.std.specs.Prelude.{◌≡◌};
ghost use Rattle.turns.specs.Counting.{IsAt};
ghost use Rattle.recovery.specs.Open.{state_of};
ghost use Rattle.flusher.specs.Holding.{KeepsBatches};

use crate::rows::SHAPE;
use crate::seats::{started, submitted};
use disk::{Disk, MemDisk};
use flusher::{Flusher, OpenGate};
use hub::{Hub, Writer};
use published::{Life, Opened};
use recovery::{Shape, Store};
use revision::Command;
use std::marker::Brand;
use std::process::Abort;
use std::sync::Wait;
use std::sync::ledger::Blank;
use std::thread::{Threads, join, sleep};
use std::time::{Clock, Duration};
use test_fixtures::{command, new_device, new_store, wide_command, write};
use turns::{Composers, OpenHalves, Upkeep, channels, compose_workers, flush_turn};

/// A device of 16,448 bytes, whose documents keep 64 revisions.
pub const ROOMY: Shape = Shape {
    slots: 2,
    slot: 4_096,
    docs: 2,
    cell: 2_048,
    sources: 4,
    keep: 64,
};

/// So many turns are made at most, a millisecond apart.
pub const TURNS: u64 = 20_000;

// Makes turns in which nothing is to be written, until a milestone of the only document is put. Its revision is 9, and each fourth one is a
// multiple: so the milestone is at 8, where a job for each ninth is due, and none for each eighth.
fn turned<L: Life, R: Wait + Clock + AllocGlobal>(
    rt: &R,
    flusher: &mut Flusher<MemDisk, L>,
    hub: &Hub<MemDisk, L>,
    writer: &mut Writer<L>,
    ends: Composers,
) -> bool
    requires at { IsAt writer.old flusher.old }
{
    let alloc = rt.alloc();
    let mut upkeep = Upkeep::new(alloc, 4, Some(ends), flusher.state());
    for _ in 0..TURNS {
        if flush_turn(rt, alloc, flusher, hub, writer, &mut upkeep, &mut OpenGate).is_err() {
            return false;
        }
        if flusher.job_due(0, 9) == Some(9) {
            return flusher.job_due(0, 8) == None;
        }
        sleep(rt, Duration::from_millis(1));
    }
    false
}

fn composed_beside<L: Life + Send + Sync, R: Threads + Wait + Clock + Abort + AllocGlobal + Sync>(
    rt: &R,
    store: Store<MemDisk>,
    opened: Opened,
    blank: Blank,
) -> MemDisk
    requires book { opened ≡ L.book }
    requires name { blank.name ≡ L.name }
    requires parts { blank.parts ≡ L.parts }
    requires seats { blank.parts ≡ 2 }
    requires begin { state_of store ≡ L.start }
{
    let (mut flusher, hub, mut writer, _closer) = started::<L>(rt, store, opened, blank, 1);
    let (ends, first, second) = channels(rt.alloc()).expect(rt, "memory");
    let (_ended, put) = join(
        rt,
        move || compose_workers(rt, rt.alloc(), first, second, &OpenHalves),
        ||
            requires { IsAt writer flusher }
        { turned(rt, &mut flusher, &hub, &mut writer, ends) },
    );
    assert!(rt; put);
    flusher.end(rt).close()
}

// A store that is opened with a document at revision 9 gets its milestone at once, at the multiple 8, with no command.
#[test]
fn a_document_that_was_opened_gets_a_milestone(rt: HostRuntime) {
    let mut store = new_store(rt.alloc(), ROOMY).expect(&rt, "a store");
    for number in 1..10 {
        assert!(rt; write(rt.alloc(), &mut store, number, 1).is_ok());
    }
    let opened = Opened::new().expect(&rt, "logs");
    let disk = composed_beside::<Brand, _>(&rt, store, opened, Blank::new(2));
    assert!(rt; disk.bytes().get(64).copied() == Some(0xa5));
    assert!(rt; disk.bytes().get(2_112).copied() == Some(0));
}

// Behind the second command, puts both milestones of the only document at revision 2.
fn put_both<L: Life>(
    rt: &(impl Abort + AllocGlobal),
    flusher: &mut Flusher<MemDisk, L>,
    number: u64,
)
    ensures { KeepsBatches flusher.old flusher.new }
{
    if number != 2 {
        return;
    }
    assert!(rt; flusher.put_document(rt.alloc(), 0, 2).is_ok());
    assert!(rt; flusher.put_document(rt.alloc(), 0, 2).is_ok());
}

// Makes a turn for each of these commands, with no composers. After the second both milestones of the only document are put.
fn retired_before<L: Life, R: Wait + Abort + AllocGlobal>(
    rt: &R,
    store: Store<MemDisk>,
    opened: Opened,
    blank: Blank,
    turns: &[Command],
) -> MemDisk
    requires book { opened ≡ L.book }
    requires name { blank.name ≡ L.name }
    requires parts { blank.parts ≡ L.parts }
    requires seats { blank.parts ≡ 2 }
    requires begin { state_of store ≡ L.start }
{
    let alloc = rt.alloc();
    let (mut flusher, hub, mut writer, mut closer) = started::<L>(rt, store, opened, blank, 1);
    let mut seat = hub.seat(rt, &mut closer).expect(rt, "a seat");
    let mut upkeep = Upkeep::new(alloc, 0, None, flusher.state());
    for command in turns {
        let _ticket = submitted(rt, &hub, &mut seat, command);
        let turned = flush_turn(
            rt,
            alloc,
            &mut flusher,
            &hub,
            &mut writer,
            &mut upkeep,
            &mut OpenGate,
        );
        assert!(rt; turned.is_ok());
        put_both(rt, &mut flusher, command.number());
    }
    flusher.end(rt).close()
}

/// A cell with the document "z" at revision 2, the text "x", and the source "a" whose two commands made it.
const CELL: [u8; 67] = [
    0xa5, 62, 0, 0, 0, // its gate and length
    0, 0, 0, 0, 1, 0, b'z', 2, 0, 0, 0, 0, 0, 0, 0, 1, // document 0, its name, revision 2
    1, 0, 0, 0, 1, 1, 0, 0, 0, b'x', 0, 0, 0, 0, // one insert, without attributes
    1, 0, 0, 0, 1, 0, b'a', 2, 0, 0, 0, 0, 0, 0, 0, // one source, its last number
    2, 1, 0, 0, 0, 0, 0, 0, 0, 2, 0, 0, 0, 0, 0, 0, 0, // both numbers, and their revisions
];

/// Segment 1, with the batch in which "a" creates "z" with "x".
const CREATED: [u8; 60] = [
    0xa5, 1, 0, 0, 0, 0, 0, 0, 0, // the slot's gate and number
    0xa5, 45, 0, 0, 0, 1, 0, 0, 0, // the record's gate and length, one entry
    1, 0, 0, 0, 0, 1, 0, 0, 0, 0, 0, 0, 0, // a creation, document 0, revision 1
    1, 0, b'a', 1, 0, 0, 0, 0, 0, 0, 0, 1, 0, b'z', // source a, its number 1, name z
    1, 0, 0, 0, 1, 1, 0, 0, 0, b'x', 0, 0, 0, 0, // one insert, without attributes
    0, // the next record's gate
];

// A segment of this number with a batch in which the command of this number takes three attributes off the letter. It ends with the next
// record's gate.
fn wide_slot(rt: &(impl Abort + AllocGlobal), segment: u8, number: u8) -> Vec<u8> {
    let head = [
        0xa5, segment, 0, 0, 0, 0, 0, 0, 0, // the slot's gate and number
        0xa5, 240, 0, 0, 0, 1, 0, 0, 0, // the record's gate and length, one entry
        2, 0, 0, 0, 0, number, 0, 0, 0, 0, 0, 0, 0, // an edit, document 0, its revision
        1, 0, b'a', number, 0, 0, 0, 0, 0, 0, 0, // source a, its number
        1, 0, 0, 0, 3, 1, 0, 0, 0, 0, 0, 0, 0, 3, 0, 0, 0, // a retain of 1, three names
    ];
    let mut bytes = head.to_vec(rt.alloc()).expect(rt, "memory");
    for letter in [b'a', b'b', b'c'] {
        bytes.extend_from_slice(&[62, 0]).expect(rt, "memory");
        bytes.extend_from_slice(&[letter; 62]).expect(rt, "memory");
        bytes.push(0).expect(rt, "memory");
    }
    bytes.push(0).expect(rt, "memory");
    bytes
}

// Puts bytes over those from a place on.
fn put_at(rt: &impl Abort, bytes: &mut [u8], place: usize, others: &[u8]) {
    for (at, byte) in others.iter().enumerate() {
        match bytes.get_mut(place.saturating_add(at)) {
            Some(old) => *old = *byte,
            None => panic!(rt; "a short device"),
        }
    }
}

// A device where both cells of the document hold it at revision 2, with these slots.
fn device_with(rt: &(impl Abort + AllocGlobal), first: &[u8], second: &[u8]) -> Vec<u8> {
    let device = new_device(rt.alloc(), SHAPE).expect(rt, "a device");
    let mut bytes = device.bytes().to_vec(rt.alloc()).expect(rt, "memory");
    put_at(rt, &mut bytes, 64, &CELL);
    put_at(rt, &mut bytes, 320, &CELL);
    put_at(rt, &mut bytes, 1_088, first);
    put_at(rt, &mut bytes, 1_344, second);
    bytes
}

// A turn for each of the first commands leaves these slots. It gives how many calls of the device were made.
fn fills(rt: &(impl Wait + Abort + AllocGlobal), count: u64, first: &[u8], second: &[u8]) -> usize {
    let alloc = rt.alloc();
    let store = new_store(alloc, SHAPE).expect(rt, "a store");
    let opened = Opened::new().expect(rt, "logs");
    let mut turns = Vec::new(alloc);
    turns
        .push(command(alloc, 1, 1).expect(rt, "a command"))
        .expect(rt, "memory");
    for number in 2..=count {
        turns
            .push(wide_command(alloc, number).expect(rt, "a command"))
            .expect(rt, "memory");
    }
    let disk = retired_before::<Brand, _>(rt, store, opened, Blank::new(2), &turns);
    assert!(rt; disk.bytes() == device_with(rt, first, second).as_slice());
    disk.calls().len()
}

// The create stands in the first slot and an edit that fills the second; both cells stand at revision 2. The next turn retires the first
// slot before it commits (two calls), opens it again (four) and appends (four); the one after it does so with the second slot. With a full
// journal each would put two milestones besides.
#[test]
fn a_turn_retires_before_it_commits(rt: HostRuntime) {
    let second = wide_slot(&rt, 2, 2);
    let third = wide_slot(&rt, 3, 3);
    let fourth = wide_slot(&rt, 4, 4);
    let calls = fills(&rt, 2, &CREATED, &second);
    assert_eq!(rt; fills(&rt, 3, &third, &second), calls.saturating_add(10));
    assert_eq!(rt; fills(&rt, 4, &third, &fourth), calls.saturating_add(20));
}
