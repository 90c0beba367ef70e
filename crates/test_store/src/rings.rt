//! Batches over two slots, byte for byte: shape S of docs/FORMATS.md, whose second batch opens slot 1.
use crate::batches::EDIT;
use crate::running::{is_run, is_run_of, run_steps, step};
use crate::stopping::calls_before;
use crate::stores::{
    SLOT, are_bytes, device_of, differ_by, extend, has_documents, is_opened_as, is_opened_with,
    open_store, part, small_device, with_bytes_at,
};
use disk::{Disk, FaultDisk, FaultPlan, Left};
use recovery::{RunError, Store};
use refusal::Refusal;
use std::process::Abort;

/// What stands before the bodies: the gate of a slot and its number, and the gate of its record and the record's length.
const FIRST_HEAD: [u8; 14] = [0xa5, 1, 0, 0, 0, 0, 0, 0, 0, 0xa5, 96, 0, 0, 0];

const SECOND_HEAD: [u8; 14] = [0xa5, 2, 0, 0, 0, 0, 0, 0, 0, 0xa5, 240, 0, 0, 0];

/// The second batch but for its names: by its third command the source a takes three names off the first letter of d.
const WITHOUT_NAMES: [u8; 45] = [
    1, 0, 0, 0, // one entry
    2, 0, 0, 0, 0, 3, 0, 0, 0, 0, 0, 0, 0, // a change, document 0, revision 3
    1, 0, b'a', 3, 0, 0, 0, 0, 0, 0, 0, // source a, its number 3
    1, 0, 0, 0, 3, 1, 0, 0, 0, 0, 0, 0, 0, // one operation, a retain of 1
    3, 0, 0, 0, // three names
];

// The first batch, of 96 bytes: the source a creates d with z, an entry of 41, and puts x behind it, one of 51.
fn first(rt: &(impl Abort + AllocGlobal)) -> Vec<u8> {
    let mut bytes = [2, 0, 0, 0].to_vec(rt.alloc()).expect(rt, "memory");
    extend(rt, &mut bytes, part(rt, &SLOT, 18, 41));
    extend(rt, &mut bytes, part(rt, &EDIT, 4, 51));
    bytes
}

/// The second one, of 240 bytes, with one entry of 236. Each name has 62 bytes.
pub fn second(rt: &(impl Abort + AllocGlobal)) -> Vec<u8> {
    let mut bytes = WITHOUT_NAMES.to_vec(rt.alloc()).expect(rt, "memory");
    for letter in [b'a', b'b', b'c'] {
        extend(rt, &mut bytes, &[62, 0]);
        extend(rt, &mut bytes, &[letter; 62]);
        extend(rt, &mut bytes, &[0]);
    }
    bytes
}

// What a slot holds: its head, the body, and the closed gate behind it.
fn slot(rt: &(impl Abort + AllocGlobal), head: &[u8], body: &[u8]) -> Vec<u8> {
    let mut bytes = head.to_vec(rt.alloc()).expect(rt, "memory");
    extend(rt, &mut bytes, body);
    extend(rt, &mut bytes, &[0]);
    bytes
}

// A device that holds the first batch.
fn with_first(rt: &(impl Abort + AllocGlobal)) -> Vec<u8> {
    let bytes = slot(rt, &FIRST_HEAD, &first(rt));
    with_bytes_at(rt, small_device(rt).bytes(), 1_088, &bytes)
}

// A run of three batches stops at the third one.
fn is_full_at_third<D: Disk>(rt: &(impl Abort + AllocGlobal), store: &mut Store<D>) {
    let steps = [
        step(rt, store, &first(rt)),
        step(rt, store, &second(rt)),
        step(rt, store, part(rt, &SLOT, 64, 45)),
    ];
    let refusal = Refusal::JournalFull;
    is_run(
        rt,
        run_steps(rt, store, &steps),
        Err(RunError { at: 2, refusal }),
    );
}

// The first batch leaves the next gate at 101 of slot 0's area, the second opens slot 1 and leaves it at 245. Then a batch
// of 45 bytes finds no room, and changes nothing.
#[test]
fn a_second_slot_is_opened_and_filled(rt: HostRuntime) {
    let mut store = open_store(&rt, small_device(&rt));
    is_full_at_third(&rt, &mut store);
    assert!(rt; !store.has_failed());
    has_documents(&rt, store.state(), "d 3 zx\n");
    let disk = store.close();
    let filled = slot(&rt, &SECOND_HEAD, &second(&rt));
    differ_by(&rt, disk.bytes(), &with_first(&rt), 1_344, &filled);
    is_opened_as(&rt, disk.bytes(), "d 3 zx\n");
}

// The segments count by their numbers, whichever slots they lie in.
#[test]
fn slots_are_read_in_order_of_their_numbers(rt: HostRuntime) {
    let newer = slot(&rt, &SECOND_HEAD, &second(&rt));
    let older = slot(&rt, &FIRST_HEAD, &first(&rt));
    let turned = with_bytes_at(&rt, small_device(&rt).bytes(), 1_088, &newer);
    is_opened_with(&rt, &turned, 1_344, &older, "d 3 zx\n");
    // Two segments of one number.
    let bytes = with_first(&rt);
    is_opened_with(&rt, &bytes, 1_344, &FIRST_HEAD, "error 32 Damaged");
    // An open slot without a record, and one without the first batch.
    is_opened_with(&rt, &bytes, 1_344, &[0xa5, 2], "d 2 zx\n");
    is_opened_with(&rt, &turned, 1_344, &[0], "error 32 Damaged");
}

/// A device whose only segment has the number 2^64 - 1, and the first batch.
pub fn with_last_number(rt: &(impl Abort + AllocGlobal)) -> Vec<u8> {
    with_bytes_at(rt, &with_first(rt), 1_089, &[255; 8])
}

// Behind the number 2^64 - 1 there is none: a store opens, but no further slot does.
#[test]
fn no_number_is_behind_the_last(rt: HostRuntime) {
    let bytes = with_last_number(&rt);
    let mut store = open_store(&rt, device_of(&rt, &bytes));
    has_documents(&rt, store.state(), "d 2 zx\n");
    let refusal = Refusal::JournalFull;
    is_run_of(
        &rt,
        &mut store,
        &second(&rt),
        Err(RunError { at: 0, refusal }),
    );
    are_bytes(&rt, store.close().bytes(), &bytes);
}

/// What is left of the unsynced ranges, and whether a gate that was being opened then stands open.
pub const LEFT: [(Left, bool); 6] = [
    (Left::Nothing, false),
    (Left::All, true),
    (Left::FirstHalf, false),
    (Left::Byte(0x00), false),
    (Left::Byte(0xa5), true),
    (Left::Byte(0xff), false),
];

// A stop at a call of the second commit leaves the first batch, with the second one or without it.
fn is_stopped(rt: &(impl Abort + AllocGlobal), call: u64, left: Left, wanted: &str) {
    let bytes = with_first(rt);
    let plan = FaultPlan::stop(calls_before(rt, &bytes).saturating_add(call), left);
    let mut store = open_store(rt, FaultDisk::new(device_of(rt, &bytes), plan));
    let refusal = Refusal::Fault;
    is_run_of(
        rt,
        &mut store,
        &second(rt),
        Err(RunError { at: 0, refusal }),
    );
    let after = store.close().after_crash(rt.alloc()).expect(rt, "memory");
    is_opened_as(rt, after.bytes(), wanted);
}

// The calls are those of a first commit, into slot 1: its head and gate, each synced, then the record and its gate.
#[test]
fn a_stop_in_a_commit_that_opens_a_slot(rt: HostRuntime) {
    for call in 0..8 {
        for (left, opens) in &LEFT {
            let there = call >= 6 && *opens;
            is_stopped(
                &rt,
                call,
                *left,
                if there { "d 3 zx\n" } else { "d 2 zx\n" },
            );
        }
    }
}
