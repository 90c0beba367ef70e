//! Devices that stop or fail in a commit.
use crate::stores::{
    Row, are_bytes, create, device_of, has_documents, is_opened_as, open_store, part, session,
    small_device,
};
use disk::{FaultDisk, FaultPlan, Left};
use recovery::Store;
use std::process::Abort;

/// What is left of the unsynced ranges, and whether a gate that was being opened then stands open. Half of one byte is no
/// byte.
pub const LEFT: [(Left, bool); 7] = [
    (Left::Nothing, false),
    (Left::All, true),
    (Left::FirstHalf, false),
    (Left::Byte(0x00), false),
    (Left::Byte(0x3c), false),
    (Left::Byte(0xa5), true),
    (Left::Byte(0xff), false),
];

/// How many calls it takes to open a device of these bytes.
pub fn calls_before(rt: &(impl Abort + AllocGlobal), bytes: &[u8]) -> u64 {
    open_store(rt, device_of(rt, bytes)).close().calls().len() as u64
}

/// A store over a new device that goes wrong at a call of the first commit, counted from 0.
pub fn store_under_plan(
    rt: &(impl Abort + AllocGlobal),
    call: u64,
    stops: bool,
    left: Left,
) -> Store<FaultDisk> {
    let disk = small_device(rt);
    let call = calls_before(rt, disk.bytes()).saturating_add(call);
    open_store(rt, FaultDisk::new(disk, FaultPlan { call, stops, left }))
}

/// What is asked of a store that fails in the first of them.
const FAILED: [Row; 3] = [
    ("a", "d", "z", "error 34 Fault"),
    ("a", "d", "z", "error 34 Fault"),
    ("a", "e", "y", "error 34 Fault"),
];

// The first commit goes wrong at a call. From then on the store answers nothing.
fn device_that_failed(
    rt: &(impl Abort + AllocGlobal),
    call: u64,
    stops: bool,
    left: Left,
) -> FaultDisk {
    let mut store = store_under_plan(rt, call, stops, left);
    for row in &FAILED {
        create(rt, &mut store, row);
        assert!(rt; store.has_failed(), "at call {call}");
    }
    has_documents(rt, store.state(), "");
    store.close()
}

/// What is asked of a store that has the first document, and of one that has none.
const WITH_FIRST: [Row; 2] = [("a", "d", "z", "again 1"), ("a", "e", "y", "taken 1")];

const WITHOUT: [Row; 2] = [("a", "d", "z", "taken 1"), ("a", "e", "y", "taken 1")];

// These bytes hold the first document or none, and a store works on from there.
fn works_on(rt: &(impl Abort + AllocGlobal), bytes: &[u8], is_there: bool) {
    is_opened_as(rt, bytes, if is_there { "d 1 z\n" } else { "" });
    let rows = if is_there { &WITH_FIRST } else { &WITHOUT };
    session(rt, bytes, rows, "d 1 z\ne 1 y\n");
}

// A stop at a call of the first commit leaves its document or none.
fn is_stopped(rt: &(impl Abort + AllocGlobal), call: u64, left: Left, is_there: bool) {
    let disk = device_that_failed(rt, call, true, left);
    assert!(rt; disk.has_stopped());
    let after = disk.after_crash(rt.alloc()).expect(rt, "memory");
    works_on(rt, after.bytes(), is_there);
}

// The calls of the first commit are, in order:
// 0 and 1: the number of slot 0 and the record's gate are written behind the slot's gate, which is closed, and synced;
// 2 and 3: the slot's gate is opened at 1,088, and synced: the slot is closed, or open and without a record;
// 4 and 5: the record is written behind its gate, which is closed, and synced;
// 6 and 7: the record's gate is opened at 1,097, and synced. Where it stands open, the document is there.
#[test]
fn a_stop_in_the_first_commit(rt: HostRuntime) {
    for call in 0..8 {
        for (left, opens) in &LEFT {
            is_stopped(&rt, call, *left, call >= 6 && *opens);
        }
    }
    let mut store = store_under_plan(&rt, 8, true, Left::Nothing);
    create(&rt, &mut store, &("a", "d", "z", "taken 1"));
}

// Call 6 is the write of the gate at 1,097. A stop in it leaves the gate with this value.
fn is_left_in_the_gate(rt: &(impl Abort + AllocGlobal), byte: u8) {
    let disk = device_that_failed(rt, 6, true, Left::Byte(byte));
    let after = disk.after_crash(rt.alloc()).expect(rt, "memory");
    let gates = part(rt, after.bytes(), 1_088, 11);
    are_bytes(rt, gates, &[0xa5, 1, 0, 0, 0, 0, 0, 0, 0, byte, 45]);
}

#[test]
fn a_stop_in_the_write_of_the_gate(rt: HostRuntime) {
    is_left_in_the_gate(&rt, 0x3c);
    is_left_in_the_gate(&rt, 0xa5);
}

// A call of the first commit fails, and the machine runs on. What a crash then leaves has the document or not, and so
// has the same device, when it is opened again.
fn is_faulty(
    rt: &(impl Abort + AllocGlobal),
    call: u64,
    left: Left,
    is_left: bool,
    is_there: bool,
) {
    let disk = device_that_failed(rt, call, false, left);
    assert!(rt; !disk.has_stopped());
    let after = disk.after_crash(rt.alloc()).expect(rt, "memory");
    works_on(rt, after.bytes(), is_left);
    let store = open_store(rt, disk);
    has_documents(rt, store.state(), if is_there { "d 1 z\n" } else { "" });
}

// Where the last sync fails, the gate is written nevertheless.
#[test]
fn a_fault_in_the_first_commit(rt: HostRuntime) {
    for call in 0..8 {
        for (left, opens) in &LEFT {
            let is_left = call >= 6 && *opens;
            is_faulty(&rt, call, *left, is_left, is_left || call == 7);
        }
    }
}
