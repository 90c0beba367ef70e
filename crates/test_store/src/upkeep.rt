//! Runs that commit, put milestones and retire: a journal whose oldest segment is given up, and a stop within.
use crate::batches::EDIT;
use crate::running::{is_run, run_steps, step};
use crate::stopping::LEFT;
use crate::stores::{
    SLOT, are_bytes, device_of, extend, has_documents, is_opened_as, open_by, open_store, part,
    small_device,
};
use disk::{Disk, FaultDisk, FaultPlan, Left};
use recovery::{Pick, RunError, Store, StoreStep};
use refusal::Refusal;
use revision::{DocState, Name};
use std::process::Abort;

/// Batch 3 deletes the first unit, by number 3 of the source a.
pub const DELETION: [u8; 41] = [
    1, 0, 0, 0, // one entry
    2, 0, 0, 0, 0, 3, 0, 0, 0, 0, 0, 0, 0, // a change, document 0, revision 3
    1, 0, b'a', 3, 0, 0, 0, 0, 0, 0, 0, // source a, its number 3
    1, 0, 0, 0, 4, 1, 0, 0, 0, 0, 0, 0, 0, // one operation, a delete of 1
];

// Batch 4 but for its names: it takes five names off the unit that is left.
const WITHOUT_NAMES: [u8; 45] = [
    1, 0, 0, 0, //
    2, 0, 0, 0, 0, 4, 0, 0, 0, 0, 0, 0, 0, //
    1, 0, b'a', 4, 0, 0, 0, 0, 0, 0, 0, //
    1, 0, 0, 0, 3, 1, 0, 0, 0, 0, 0, 0, 0, // one operation, a retain of 1
    5, 0, 0, 0, // five names
];

// Batch 5 inserts "q" in front.
const INSERTION: [u8; 42] = [
    1, 0, 0, 0, //
    2, 0, 0, 0, 0, 5, 0, 0, 0, 0, 0, 0, 0, //
    1, 0, b'a', 5, 0, 0, 0, 0, 0, 0, 0, //
    1, 0, 0, 0, 1, 1, 0, 0, 0, b'q', 0, 0, 0, 0, //
];

// Batch 4, of 110 bytes. Each name has ten bytes.
fn removals(rt: &(impl Abort + AllocGlobal)) -> Vec<u8> {
    let mut bytes = WITHOUT_NAMES.to_vec(rt.alloc()).expect(rt, "memory");
    for letter in [b'a', b'b', b'c', b'd', b'e'] {
        extend(rt, &mut bytes, &[10, 0]);
        extend(rt, &mut bytes, &[letter; 10]);
        extend(rt, &mut bytes, &[0]);
    }
    bytes
}

// Runs on a device: three batches fill slot 0 to 156 bytes of its area, and the document is put into its first cell. Batch 4 opens
// slot 1, and the document is put into its second cell. After batch 5 it is put over the first one. Then no open cell is below
// revision 4, and slot 0, which has the first three, is retired.
fn run<D: Disk + Drop>(
    rt: &(impl Abort + AllocGlobal),
    disk: D,
    wanted: Result<(), RunError>,
) -> Store<D> {
    let mut store = open_store(rt, disk);
    let steps = [
        step(rt, &store, part(rt, &SLOT, 14, 45)),
        step(rt, &store, &EDIT),
        step(rt, &store, &DELETION),
        StoreStep::Milestone(0, 3),
        step(rt, &store, &removals(rt)),
        StoreStep::Milestone(0, 4),
        step(rt, &store, &INSERTION),
        StoreStep::Milestone(0, 5),
        StoreStep::Retire,
    ];
    is_run(rt, run_steps(rt, &mut store, &steps), wanted);
    store
}

// The last change of a document is number 5 of its source.
fn is_last_of(rt: &(impl Abort + AllocGlobal), record: &DocState) {
    let source = Name::source(rt.alloc(), "a").expect(rt, "a source");
    let window = record.window(&source);
    assert!(rt; window.number() == 5 && window.last_revision() == 5);
}

// By a pick the document's last change is number 5 of its source.
fn is_last(rt: &(impl Abort + AllocGlobal), bytes: &[u8], pick: Pick) {
    let store = open_by(rt, device_of(rt, bytes), pick);
    has_documents(rt, store.state(), "d 5 qx\n");
    match store.state().documents() {
        [record] => is_last_of(rt, record),
        _ => panic!(rt; "one document"),
    }
}

// By each pick a device of these bytes has all that was committed.
fn is_whole(rt: &(impl Abort + AllocGlobal), bytes: &[u8]) {
    is_opened_as(rt, bytes, "d 5 qx\n");
    is_last(rt, bytes, Pick::Newer);
    is_last(rt, bytes, Pick::Older);
}

// Which byte stands at a place.
fn byte_at(rt: &(impl Abort + AllocGlobal), bytes: &[u8], at: usize) -> u8 {
    *bytes.get(at).expect(rt, "a byte")
}

/// What is left of the device: a place, and what stands there.
const LEFT_BEHIND: [(usize, &[u8]); 7] = [
    // The first cell is at revision 5, the second at 4.
    (64, &[0xa5]),
    (76, &[5]),
    (320, &[0xa5]),
    (332, &[4]),
    // Slot 0 is closed, and slot 1 open, with segment 2 and its two records.
    (1_088, &[0]),
    (1_344, &[0xa5, 2, 0, 0, 0, 0, 0, 0, 0, 0xa5, 110, 0, 0, 0]),
    (1_468, &[0xa5, 42, 0, 0, 0]),
];

#[test]
fn a_run_gives_up_the_oldest_segment(rt: HostRuntime) {
    let store = run(&rt, device_of(&rt, small_device(&rt).bytes()), Ok(()));
    has_documents(&rt, store.state(), "d 5 qx\n");
    let disk = store.close();
    is_whole(&rt, disk.bytes());
    for (at, wanted) in &LEFT_BEHIND {
        are_bytes(&rt, part(&rt, disk.bytes(), *at, wanted.len()), wanted);
    }
}

// The run goes wrong at one of its last calls, counted from the end, in the step of a number. What a crash leaves is whole.
fn bytes_after_stop(
    rt: &(impl Abort + AllocGlobal),
    from_end: u64,
    at: usize,
    left: Left,
) -> Vec<u8> {
    let device = small_device(rt);
    let done = run(rt, device_of(rt, device.bytes()), Ok(())).close();
    let call = (done.calls().len() as u64).saturating_sub(from_end);
    let plan = FaultPlan::stop(call, left);
    let refusal = Refusal::Fault;
    let disk = FaultDisk::new(device_of(rt, device.bytes()), plan);
    let store = run(rt, disk, Err(RunError { at, refusal }));
    assert!(rt; store.has_failed());
    let after = store.close().after_crash(rt.alloc()).expect(rt, "memory");
    is_whole(rt, after.bytes());
    after.bytes().to_vec(rt.alloc()).expect(rt, "memory")
}

// The last put has six calls: its older cell is closed at 64, and synced (8 and 7 from the end); the milestone is written behind that
// gate, and synced (6 and 5); the gate is opened, and synced (4 and 3). The retirement closes slot 0 at 1,088, and syncs (2 and 1).
#[test]
fn a_stop_in_the_last_put_or_in_the_retirement(rt: HostRuntime) {
    for (left, _) in &LEFT {
        for from_end in 1..9 {
            bytes_after_stop(&rt, from_end, if from_end <= 2 { 8 } else { 7 }, *left);
        }
    }
}

// The older cell has been closed, and its milestone isn't written yet.
#[test]
fn the_gate_of_a_closed_cell(rt: HostRuntime) {
    let closed = bytes_after_stop(&rt, 7, 7, Left::All);
    assert_eq!(rt; byte_at(&rt, &closed, 64), 0);
    assert_eq!(rt; byte_at(&rt, &closed, 320), 0xa5);
}

// A stop in the write of a gate leaves it with any value.
#[test]
fn a_stop_in_the_write_of_a_gate(rt: HostRuntime) {
    for byte in [0x3c, 0xa5] {
        let closing = bytes_after_stop(&rt, 8, 7, Left::Byte(byte));
        assert_eq!(rt; byte_at(&rt, &closing, 64), byte);
        let opening = bytes_after_stop(&rt, 4, 7, Left::Byte(byte));
        assert_eq!(rt; byte_at(&rt, &opening, 64), byte);
        let retiring = bytes_after_stop(&rt, 2, 8, Left::Byte(byte));
        assert_eq!(rt; byte_at(&rt, &retiring, 1_088), byte);
    }
}

// A run that ends with a retirement stops at it.
fn is_needed<D: Disk>(rt: &(impl Abort + AllocGlobal), store: &mut Store<D>) {
    let steps = [
        step(rt, store, part(rt, &SLOT, 14, 45)),
        step(rt, store, &EDIT),
        StoreStep::Milestone(0, 2),
        step(rt, store, &DELETION),
        step(rt, store, &removals(rt)),
        StoreStep::Retire,
    ];
    let refusal = Refusal::StillNeeded;
    is_run(
        rt,
        run_steps(rt, store, &steps),
        Err(RunError { at: 5, refusal }),
    );
}

// Where the first milestone is put before batch 3, the oldest segment has an entry above that cell.
#[test]
fn a_segment_above_a_cell_is_still_needed(rt: HostRuntime) {
    let mut store = open_store(&rt, small_device(&rt));
    is_needed(&rt, &mut store);
    assert!(rt; !store.has_failed());
    is_opened_as(&rt, store.close().bytes(), "d 4 x\n");
}

// A run that creates the document, puts a milestone, and retires the oldest segment.
fn stops_at_milestone<D: Disk>(
    rt: &(impl Abort + AllocGlobal),
    store: &mut Store<D>,
    at: (u32, u64),
    wanted: Result<(), RunError>,
) {
    let steps = [
        step(rt, store, part(rt, &SLOT, 14, 45)),
        StoreStep::Milestone(at.0, at.1),
        StoreStep::Retire,
    ];
    is_run(rt, run_steps(rt, store, &steps), wanted);
}

// A run stops at a milestone that can't be.
fn is_refused(rt: &(impl Abort + AllocGlobal), document: u32, revision: u64, refusal: Refusal) {
    let mut store = open_store(rt, small_device(rt));
    stops_at_milestone(
        rt,
        &mut store,
        (document, revision),
        Err(RunError { at: 1, refusal }),
    );
    assert!(rt; !store.has_failed());
    has_documents(rt, store.state(), "d 1 z\n");
}

#[test]
fn a_run_stops_at_a_milestone_that_is_refused(rt: HostRuntime) {
    is_refused(&rt, 1, 1, Refusal::NoDocument);
    is_refused(&rt, 0, 2, Refusal::Future);
    is_refused(&rt, 0, 0, Refusal::TooOld);
}

// A run that puts milestones at revisions 1 and 3, and asks for one between them.
fn stops_between_cells<D: Disk>(rt: &(impl Abort + AllocGlobal), store: &mut Store<D>) {
    let steps = [
        step(rt, store, part(rt, &SLOT, 14, 45)),
        step(rt, store, &EDIT),
        step(rt, store, &DELETION),
        StoreStep::Milestone(0, 1),
        StoreStep::Milestone(0, 3),
        StoreStep::Milestone(0, 2),
    ];
    let refusal = Refusal::TooOld;
    is_run(
        rt,
        run_steps(rt, store, &steps),
        Err(RunError { at: 5, refusal }),
    );
}

// The older of two open cells is still the one at revision 1.
#[test]
fn no_milestone_is_put_between_the_open_cells(rt: HostRuntime) {
    let mut store = open_store(&rt, small_device(&rt));
    stops_between_cells(&rt, &mut store);
    assert!(rt; !store.has_failed());
    let kept = store.close();
    let again = open_by(&rt, device_of(&rt, kept.bytes()), Pick::Older);
    match again.state().documents() {
        [record] => assert!(rt; record.floor() == 1),
        _ => panic!(rt; "one document"),
    }
    is_opened_as(&rt, kept.bytes(), "d 3 x\n");
}

// A run in which slot 0 is retired while one cell alone is open, at the revision of its last batch.
fn retires_by_one_cell<D: Disk>(rt: &(impl Abort + AllocGlobal), store: &mut Store<D>) {
    let steps = [
        step(rt, store, part(rt, &SLOT, 14, 45)),
        step(rt, store, &EDIT),
        step(rt, store, &DELETION),
        StoreStep::Milestone(0, 3),
        step(rt, store, &removals(rt)),
        StoreStep::Retire,
    ];
    is_run(rt, run_steps(rt, store, &steps), Ok(()));
}

#[test]
fn one_cell_is_enough_to_retire(rt: HostRuntime) {
    let mut store = open_store(&rt, small_device(&rt));
    retires_by_one_cell(&rt, &mut store);
    is_opened_as(&rt, store.close().bytes(), "d 4 x\n");
}
