//! A deletion and a creation again, byte for byte: shape S of docs/FORMATS.md, whose journal has the two batches of its examples. The
//! deletion is the third record, behind the gate at 1,207, and the creation again the fourth one.
use crate::jobs::{JobRow, has_jobs};
use crate::milestones::is_put;
use crate::picks::SECOND;
use crate::retiring::retire;
use crate::running::is_run_of;
use crate::stopping::LEFT;
use crate::stores::{
    are_bytes, device_of, differ_by, is_answer, is_opened_as, open_by, open_store, part,
    small_device, with_bytes_at,
};
use crate::third_batch::{GATE, failed_commit, left_by, stop_at, with_two};
use disk::Left;
use recovery::Pick;
use refusal::Refusal;
use std::process::Abort;

/// The batch of the deletion, of 28 bytes.
const DELETION: [u8; 28] = [
    1, 0, 0, 0, // one entry
    3, 0, 0, 0, 0, 3, 0, 0, 0, 0, 0, 0, 0, // a deletion, document 0, revision 3
    1, 0, b'a', 3, 0, 0, 0, 0, 0, 0, 0, // source a, its number 3
];

/// The batch of the creation again, of 42 bytes: with n.
const REVIVAL: [u8; 42] = [
    1, 0, 0, 0, // one entry
    4, 0, 0, 0, 0, 4, 0, 0, 0, 0, 0, 0, 0, // a creation again, document 0, revision 4
    1, 0, b'a', 4, 0, 0, 0, 0, 0, 0, 0, // source a, its number 4
    1, 0, 0, 0, 1, 1, 0, 0, 0, b'n', 0, 0, 0, 0, // one operation, an insert of n
];

/// The cell of the deleted document: 60 bytes behind the gate and the length.
const CELL: [u8; 65] = [
    0xa5, 60, 0, 0, 0, // the gate, and the length of the body
    0, 0, 0, 0, 1, 0, b'd', // document 0, its name
    3, 0, 0, 0, 0, 0, 0, 0, 0, // revision 3, deleted
    0, 0, 0, 0, // no operation
    1, 0, 0, 0, 1, 0, b'a', // one source
    3, 0, 0, 0, 0, 0, 0, 0, 3, // its last number, and how many its window has
    1, 0, 0, 0, 0, 0, 0, 0, 2, 0, 0, 0, 0, 0, 0, 0, 3, 0, 0, 0, 0, 0, 0, 0,
];

// A device of these bytes with one batch more.
fn with_batch(rt: &(impl Abort + AllocGlobal), bytes: &[u8], batch: &[u8]) -> Vec<u8> {
    let mut store = open_store(rt, device_of(rt, bytes));
    is_run_of(rt, &mut store, batch, Ok(()));
    let disk = store.close();
    disk.bytes().to_vec(rt.alloc()).expect(rt, "memory")
}

#[test]
fn both_are_spelled_and_read(rt: HostRuntime) {
    let deleted = with_batch(&rt, &with_two(&rt), &DELETION);
    are_bytes(&rt, part(&rt, &deleted, GATE, 5), &[0xa5, 28, 0, 0, 0]);
    are_bytes(&rt, part(&rt, &deleted, GATE + 5, 28), &DELETION);
    is_opened_as(&rt, &deleted, "d 3 deleted\n");
    let revived = with_batch(&rt, &deleted, &REVIVAL);
    are_bytes(&rt, part(&rt, &revived, GATE + 38, 42), &REVIVAL);
    is_opened_as(&rt, &revived, "d 4 n\n");
}

// A deletion has no delta, a document that is deleted takes no edit, and there is no fifth kind of entry.
#[test]
fn others_are_damage(rt: HostRuntime) {
    let deleted = with_batch(&rt, &with_two(&rt), &DELETION);
    let longer = with_bytes_at(&rt, &deleted, GATE, &[0xa5, 32, 0, 0, 0]);
    is_opened_as(&rt, &longer, "error 32 Damaged");
    let revived = with_batch(&rt, &deleted, &REVIVAL);
    let edited = with_bytes_at(&rt, &revived, GATE + 42, &[2]);
    is_opened_as(&rt, &edited, "error 32 Damaged");
    let other = with_bytes_at(&rt, &revived, GATE + 42, &[5]);
    is_opened_as(&rt, &other, "error 32 Damaged");
}

// The batch is stopped while its gate is opened, which is left as this byte.
fn is_stopped_at_the_gate(rt: &(impl Abort + AllocGlobal), byte: u8, found: &str) {
    let bytes = with_two(rt);
    let plan = stop_at(rt, &bytes, 2, Left::Byte(byte));
    let left = left_by(rt, &failed_commit(rt, &bytes, &DELETION, plan));
    are_bytes(rt, part(rt, &left, GATE, 5), &[byte, 28, 0, 0, 0]);
    is_opened_as(rt, &left, found);
}

#[test]
fn a_deletion_is_stopped_at_its_gate(rt: HostRuntime) {
    is_stopped_at_the_gate(&rt, 0x3c, "d 2 zx\n");
    is_stopped_at_the_gate(&rt, 0xa5, "d 3 deleted\n");
}

// A batch is stopped at each call of its commit, with each thing left: the body is written behind a closed gate, so the document is as
// before unless the gate stands open.
fn is_stopped_everywhere(
    rt: &(impl Abort + AllocGlobal),
    bytes: &[u8],
    batch: &[u8],
    before: &str,
    after: &str,
) {
    for call in 0..4u64 {
        for (left, opens) in &LEFT {
            let plan = stop_at(rt, bytes, call, *left);
            let left = left_by(rt, &failed_commit(rt, bytes, batch, plan));
            is_opened_as(rt, &left, if call >= 2 && *opens { after } else { before });
        }
    }
}

#[test]
fn a_deletion_is_stopped_at_each_call(rt: HostRuntime) {
    is_stopped_everywhere(&rt, &with_two(&rt), &DELETION, "d 2 zx\n", "d 3 deleted\n");
}

#[test]
fn a_creation_again_is_stopped_at_each_call(rt: HostRuntime) {
    let deleted = with_batch(&rt, &with_two(&rt), &DELETION);
    is_stopped_everywhere(&rt, &deleted, &REVIVAL, "d 3 deleted\n", "d 4 n\n");
}

// A deleted document has a milestone, from which it is created again.
#[test]
fn a_deleted_document_has_a_milestone(rt: HostRuntime) {
    let before = with_batch(&rt, &with_two(&rt), &DELETION);
    let mut store = open_store(&rt, device_of(&rt, &before));
    is_put(&rt, &mut store, 3, Ok(()));
    let deleted = store.close();
    differ_by(&rt, deleted.bytes(), &before, 64, &CELL);
    is_opened_as(&rt, deleted.bytes(), "d 3 deleted\n");
    let mut store = open_store(&rt, deleted);
    is_run_of(&rt, &mut store, &REVIVAL, Ok(()));
    is_put(&rt, &mut store, 4, Ok(()));
    let revived = store.close();
    is_opened_as(&rt, revived.bytes(), "d 4 n\n");
    for pick in [Pick::Newer, Pick::Older] {
        let store = open_by(&rt, device_of(&rt, revived.bytes()), pick);
        let documents = store.state().documents();
        assert!(rt; documents.len() == 1 && documents[0].floor() == 4);
    }
    // A cell of a deleted document has no text.
    let full = with_bytes_at(&rt, revived.bytes(), 320 + 5 + 15, &[0]);
    is_opened_as(&rt, &full, "error 32 Damaged");
}

/// A cell of a document that is deleted as revision 2, where the source has a number 1.
const DELETED_SECOND: [u8; 49] = [
    0xa5, 44, 0, 0, 0, // the gate, and the length of the body
    0, 0, 0, 0, 1, 0, b'd', // document 0, its name
    2, 0, 0, 0, 0, 0, 0, 0, 0, // revision 2, deleted
    0, 0, 0, 0, // no operation
    1, 0, 0, 0, 1, 0, b'a', // one source
    1, 0, 0, 0, 0, 0, 0, 0, 1, 1, 0, 0, 0, 0, 0, 0, 0, // its window
];

// A document is deleted as revision 2 or above, since a creation makes the first one.
#[test]
fn a_document_is_not_deleted_by_its_creation(rt: HostRuntime) {
    let second = with_bytes_at(&rt, small_device(&rt).bytes(), 64, &DELETED_SECOND);
    is_opened_as(&rt, &second, "d 2 deleted\n");
    let first = with_bytes_at(&rt, &second, 64 + 5 + 7, &[1]);
    is_opened_as(&rt, &first, "error 32 Damaged");
}

/// Slot 1 is open, and has no record.
const SLOT_1: [u8; 10] = [0xa5, 2, 0, 0, 0, 0, 0, 0, 0, 0];

// A device with these cells of document 0, and slot 1 open behind what slot 0 holds.
fn with_cells(
    rt: &(impl Abort + AllocGlobal),
    bytes: &[u8],
    first: &[u8],
    second: &[u8],
) -> Vec<u8> {
    let bytes = with_bytes_at(rt, bytes, 64, first);
    let bytes = with_bytes_at(rt, &bytes, 320, second);
    with_bytes_at(rt, &bytes, 1_344, &SLOT_1)
}

// The oldest segment of the deleted document is retired, or still needed.
fn is_retired(rt: &(impl Abort + AllocGlobal), bytes: &[u8], wanted: Result<(), Refusal>) {
    let mut store = open_store(rt, device_of(rt, bytes));
    is_answer(rt, retire(&mut store), wanted);
    is_opened_as(rt, store.close().bytes(), "d 3 deleted\n");
}

// A deletion counts like an edit: its segment is needed while an open cell is below it.
#[test]
fn the_segment_of_a_deletion_is_retired(rt: HostRuntime) {
    let deleted = with_batch(&rt, &with_two(&rt), &DELETION);
    let needed = Err(Refusal::StillNeeded);
    is_retired(&rt, &with_cells(&rt, &deleted, &SECOND, &[0]), needed);
    is_retired(&rt, &with_cells(&rt, &deleted, &CELL, &SECOND), needed);
    is_retired(&rt, &with_cells(&rt, &deleted, &SECOND, &CELL), needed);
    is_retired(&rt, &with_cells(&rt, &deleted, &CELL, &[0]), Ok(()));
}

// So does a creation again, whose document has no milestone at the deletion any more.
#[test]
fn the_segment_of_a_creation_again_is_retired(rt: HostRuntime) {
    let deleted = with_batch(&rt, &with_two(&rt), &DELETION);
    let revived = with_batch(&rt, &deleted, &REVIVAL);
    let bytes = with_cells(&rt, &revived, &CELL, &[0]);
    let mut store = open_store(&rt, device_of(&rt, &bytes));
    is_answer(&rt, retire(&mut store), Err(Refusal::StillNeeded));
    has_jobs(&rt, &mut store, &JOBS);
    is_put(&rt, &mut store, 4, Ok(()));
    is_answer(&rt, retire(&mut store), Err(Refusal::StillNeeded));
    is_put(&rt, &mut store, 4, Ok(()));
    is_answer(&rt, retire(&mut store), Ok(()));
    is_opened_as(&rt, store.close().bytes(), "d 4 n\n");
}

const JOBS: [JobRow; 2] = [(0, 3, "error 13 TooOld"), (0, 5, "error 12 Future")];
