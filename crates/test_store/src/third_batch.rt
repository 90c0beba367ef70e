//! A third batch that is stopped or fails, byte for byte: shape S of docs/FORMATS.md, whose journal has the two batches of its
//! examples. The record of the third one is written behind the gate at 1,207.
use crate::batches::EDIT;
use crate::running::is_run_of;
use crate::stopping::calls_before;
use crate::stores::{
    SLOT, answer_text, are_bytes, device_of, differ_by, extend, has_documents, is_opened_as,
    is_text, open_store, part, small_device, with_bytes_at,
};
use delta::{Builder, Delta, Op};
use disk::{Disk, FaultDisk, FaultPlan, Left};
use recovery::RunError;
use refusal::Refusal;
use revision::{Command, Name};
use std::process::Abort;

/// Where the gate of the third record stands.
pub const GATE: usize = 1_207;

/// The first spelling of the third batch, of 56 bytes: behind two units the source a inserts yy.
const INSERTING: [u8; 56] = [
    1, 0, 0, 0, // one entry
    2, 0, 0, 0, 0, 3, 0, 0, 0, 0, 0, 0, 0, // a change, document 0, revision 3
    1, 0, b'a', 3, 0, 0, 0, 0, 0, 0, 0, // source a, its number 3
    2, 0, 0, 0, // two operations
    3, 2, 0, 0, 0, 0, 0, 0, 0, 0, 0, 0, 0, // a retain of 2, no attributes
    1, 2, 0, 0, 0, b'y', b'y', 0, 0, 0, 0, // an insert of yy, no attributes
];

/// The second one, of 41 bytes: it deletes one unit.
const DELETING: [u8; 41] = [
    1, 0, 0, 0, // one entry
    2, 0, 0, 0, 0, 3, 0, 0, 0, 0, 0, 0, 0, // a change, document 0, revision 3
    1, 0, b'a', 3, 0, 0, 0, 0, 0, 0, 0, // source a, its number 3
    1, 0, 0, 0, // one operation
    4, 1, 0, 0, 0, 0, 0, 0, 0, // a delete of 1
];

/// A device of the two batches.
pub fn with_two(rt: &(impl Abort + AllocGlobal)) -> Vec<u8> {
    let mut slot = part(rt, &SLOT, 0, 59)
        .to_vec(rt.alloc())
        .expect(rt, "memory");
    extend(rt, &mut slot, &[0xa5, 55, 0, 0, 0]);
    extend(rt, &mut slot, &EDIT);
    extend(rt, &mut slot, &[0]);
    with_bytes_at(rt, small_device(rt).bytes(), 1_088, &slot)
}

/// A commit onto a device goes wrong at one of its calls: 0 and 1 write and sync the body, 2 and 3 the gate.
pub fn failed_commit(
    rt: &(impl Abort + AllocGlobal),
    bytes: &[u8],
    batch: &[u8],
    plan: FaultPlan,
) -> FaultDisk {
    let mut store = open_store(rt, FaultDisk::new(device_of(rt, bytes), plan));
    let refusal = Refusal::Fault;
    is_run_of(rt, &mut store, batch, Err(RunError { at: 0, refusal }));
    assert!(rt; store.has_failed());
    store.close()
}

/// And this is what a crash then leaves.
pub fn left_by(rt: &(impl Abort + AllocGlobal), disk: &FaultDisk) -> Vec<u8> {
    let after = disk.after_crash(rt.alloc()).expect(rt, "memory");
    after.bytes().to_vec(rt.alloc()).expect(rt, "memory")
}

/// A plan that stops at a call of a commit onto a device.
pub fn stop_at(rt: &(impl Abort + AllocGlobal), bytes: &[u8], call: u64, left: Left) -> FaultPlan {
    FaultPlan::stop(calls_before(rt, bytes).saturating_add(call), left)
}

// The first spelling is stopped while its body is written, and each byte of that write is left as an open gate: the bytes 1,208
// to 1,268.
fn with_a_torn_body(rt: &(impl Abort + AllocGlobal)) -> Vec<u8> {
    let bytes = with_two(rt);
    let plan = stop_at(rt, &bytes, 0, Left::Byte(0xa5));
    let left = left_by(rt, &failed_commit(rt, &bytes, &INSERTING, plan));
    differ_by(rt, &left, &bytes, 1_208, &[0xa5; 61]);
    left
}

// The second spelling is committed onto a device, which stops directly behind that.
fn is_committed_and_stopped(rt: &(impl Abort + AllocGlobal), bytes: &[u8]) -> Vec<u8> {
    let plan = stop_at(rt, bytes, 4, Left::Byte(0xa5));
    let mut store = open_store(rt, FaultDisk::new(device_of(rt, bytes), plan));
    is_run_of(rt, &mut store, &DELETING, Ok(()));
    let mut disk = store.close();
    assert!(rt; disk.sync().is_err() && disk.has_stopped());
    left_by(rt, &disk)
}

// The third record, and behind it the closed gate of the next one: at 156 of the area, which begins at 1,097.
fn third_record(rt: &(impl Abort + AllocGlobal)) -> Vec<u8> {
    let mut bytes = [0xa5, 41, 0, 0, 0].to_vec(rt.alloc()).expect(rt, "memory");
    extend(rt, &mut bytes, &DELETING);
    extend(rt, &mut bytes, &[0]);
    bytes
}

// A torn body is no batch. The next one is written over it, and closes the gate behind itself, at 1,253, where an open one was left.
#[test]
fn a_batch_is_written_over_a_torn_one(rt: HostRuntime) {
    let torn = with_a_torn_body(&rt);
    is_opened_as(&rt, &torn, "d 2 zx\n");
    let left = is_committed_and_stopped(&rt, &torn);
    differ_by(&rt, &left, &torn, GATE, &third_record(&rt));
    are_bytes(&rt, part(&rt, &left, 1_253, 2), &[0, 0xa5]);
    is_opened_as(&rt, &left, "d 3 x\n");
}

// The delta that deletes one unit.
fn delete_one(rt: &(impl Abort + AllocGlobal)) -> Delta {
    let mut builder = Builder::new(rt.alloc());
    assert!(rt; builder.push(Op::delete(1)).is_ok());
    builder.finish()
}

// The command of the second spelling.
fn deletion(rt: &(impl Abort + AllocGlobal)) -> Command {
    let source = Name::source(rt.alloc(), "a").expect(rt, "a source");
    let doc = Name::doc(rt.alloc(), "d").expect(rt, "a document");
    Command::edit(doc, source, 3, 2, delete_one(rt)).expect(rt, "an edit")
}

// The command is sent again to a store of these bytes, and the document is at revision 3 then.
fn is_sent_again(rt: &(impl Abort + AllocGlobal), bytes: &[u8], wanted: &str) {
    let mut store = open_store(rt, device_of(rt, bytes));
    is_text(
        rt,
        answer_text(rt, &mut store, &deletion(rt)).as_str(),
        wanted,
    );
    has_documents(rt, store.state(), "d 3 x\n");
}

// The second spelling is stopped while its gate is opened, which is left as this byte.
fn is_stopped_at_the_gate(rt: &(impl Abort + AllocGlobal), byte: u8, found: &str, answer: &str) {
    let torn = with_a_torn_body(rt);
    let plan = stop_at(rt, &torn, 2, Left::Byte(byte));
    let left = left_by(rt, &failed_commit(rt, &torn, &DELETING, plan));
    are_bytes(rt, part(rt, &left, GATE, 5), &[byte, 41, 0, 0, 0]);
    is_opened_as(rt, &left, found);
    is_sent_again(rt, &left, answer);
}

// A command that was lost is taken when it is sent again, and one that was kept is answered by its revision.
#[test]
fn a_batch_is_stopped_at_its_gate(rt: HostRuntime) {
    is_stopped_at_the_gate(&rt, 0x3c, "d 2 zx\n", "taken 3");
    is_stopped_at_the_gate(&rt, 0xa5, "d 3 x\n", "again 3");
}

// The second spelling fails in its last sync, so a crash may leave its gate unchanged, closed. The gate reads as open, and
// whoever opens the device syncs it first: so from then on a crash leaves the batch.
#[test]
fn a_batch_whose_last_sync_fails_is_found_and_stays(rt: HostRuntime) {
    let torn = with_a_torn_body(&rt);
    let call = calls_before(&rt, &torn).saturating_add(3);
    let disk = failed_commit(&rt, &torn, &DELETING, FaultPlan::fail(call, Left::Nothing));
    are_bytes(&rt, part(&rt, disk.disk().bytes(), GATE, 1), &[0xa5]);
    is_opened_as(&rt, &left_by(&rt, &disk), "d 2 zx\n");
    let store = open_store(&rt, disk);
    has_documents(&rt, store.state(), "d 3 x\n");
    is_opened_as(&rt, &left_by(&rt, &store.close()), "d 3 x\n");
}
