//! Retiring the oldest segment of a store: when it is still needed, and what is left of the device.
use crate::batches::EDIT;
use crate::picks::{FIRST, SECOND};
use crate::stores::{
    are_bytes, device_of, differ_by, is_answer, is_opened_as, is_opened_with, open_store,
    small_device, with_bytes_at,
};
use disk::Disk;
use recovery::Store;
use refusal::Refusal;
use std::process::Abort;

// Slot 0 has segment 1 with the edit that makes revision 2 of document 0, and slot 1 has segment 2 without a record.
const SLOT_0: [u8; 14] = [0xa5, 1, 0, 0, 0, 0, 0, 0, 0, 0xa5, 55, 0, 0, 0];

const SLOT_1: [u8; 10] = [0xa5, 2, 0, 0, 0, 0, 0, 0, 0, 0];

// A device with these slots, and what stands at the two cells of document 0.
fn device(rt: &(impl Abort + AllocGlobal), first: &[u8], second: &[u8]) -> Vec<u8> {
    let bytes = with_bytes_at(rt, small_device(rt).bytes(), 64, first);
    let bytes = with_bytes_at(rt, &bytes, 320, second);
    let bytes = with_bytes_at(rt, &bytes, 1_088, &SLOT_0);
    let bytes = with_bytes_at(rt, &bytes, 1_102, &EDIT);
    with_bytes_at(rt, &bytes, 1_344, &SLOT_1)
}

/// Retires the oldest segment.
pub fn retire<D: Disk>(store: &mut Store<D>) -> Result<(), Refusal> {
    store.retire()
}

// The segment is still needed, and nothing is written.
fn is_needed(rt: &(impl Abort + AllocGlobal), bytes: &[u8]) {
    let mut store = open_store(rt, device_of(rt, bytes));
    is_answer(rt, retire(&mut store), Err(Refusal::StillNeeded));
    assert!(rt; !store.has_failed());
    are_bytes(rt, store.close().bytes(), bytes);
}

// It is retired: the gate of its slot alone is closed. The other segment is the only one then, and is needed.
fn is_retired(rt: &(impl Abort + AllocGlobal), bytes: &[u8]) {
    let mut store = open_store(rt, device_of(rt, bytes));
    is_answer(rt, retire(&mut store), Ok(()));
    is_answer(rt, retire(&mut store), Err(Refusal::StillNeeded));
    let device = store.close();
    differ_by(rt, device.bytes(), bytes, 1_088, &[0]);
    is_opened_as(rt, device.bytes(), "d 2 zx\n");
    // A stop within the write leaves any byte there.
    is_opened_with(rt, bytes, 1_088, &[0x3c], "d 2 zx\n");
    is_opened_as(rt, bytes, "d 2 zx\n");
}

#[test]
fn needed_where_a_cell_is_below_its_entries(rt: HostRuntime) {
    // The lower one of two open cells counts, whichever it is.
    is_needed(&rt, &device(&rt, &FIRST, &[0]));
    is_needed(&rt, &device(&rt, &FIRST, &SECOND));
    is_needed(&rt, &device(&rt, &SECOND, &FIRST));
}

#[test]
fn needed_where_it_is_the_only_one(rt: HostRuntime) {
    let bytes = device(&rt, &[0], &SECOND);
    is_needed(&rt, &with_bytes_at(&rt, &bytes, 1_344, &[0]));
}

#[test]
fn retired_where_each_open_cell_has_its_entries(rt: HostRuntime) {
    is_retired(&rt, &device(&rt, &[0], &SECOND));
    is_retired(&rt, &device(&rt, &SECOND, &[0]));
    is_retired(&rt, &device(&rt, &SECOND, &SECOND));
}
