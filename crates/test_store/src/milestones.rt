//! Milestones that are put: which bytes a cell then has, which jobs are refused, and what a stop within leaves.
ghost use Rattle.std.specs.Prelude.{◌≡◌, ◌+◌, ◌≤◌, length};
ghost use Rattle.disk.specs.Memory.{bytes_of};
ghost use Rattle.milestone.specs.CellSpelling.{cell_body, IsCell};
ghost use Rattle.milestone.specs.Cells.{Fits};
ghost use Rattle.milestone.specs.ReadCells.{pair_of, IsReadAs};

use crate::batches::EDIT;
use crate::callers::put_where_closed;
use crate::jobs::{JobRow, has_jobs, job};
use crate::picks::{FIRST, SECOND, written};
use crate::running::is_run_of;
use crate::stopping::{LEFT, calls_before};
use crate::stores::{
    EditRow, Row, change, device_of, differ_by, has_documents, is_answer, is_opened_as, open_by,
    open_store, session, small_device, with_bytes_at,
};
use crate::upkeep::DELETION;
use disk::{Disk, FaultDisk, FaultPlan, Left, MemDisk};
use milestone::{Cells, Composed, Format, Job, Milestone, ReadCells, compose_job};
use recovery::{Pick, Store};
use refusal::Refusal;
use std::process::Abort;

// What comes of a job.
fn composed(rt: &(impl Abort + AllocGlobal), job: Job) -> Composed {
    match compose_job(rt.alloc(), job) {
        Ok(composed) => composed,
        Err(back) => panic!(rt; "{}", back.refusal),
    }
}

// What comes of a job of document 0 to a revision.
fn composed_at<D: Disk>(
    rt: &(impl Abort + AllocGlobal),
    store: &mut Store<D>,
    revision: u64,
) -> Composed {
    composed(rt, job(rt, store, revision))
}

// Puts what came of a job.
fn put<D: Disk>(
    rt: &(impl Abort + AllocGlobal),
    store: &mut Store<D>,
    done: &Composed,
) -> Result<(), Refusal> {
    store.put_milestone(rt.alloc(), done)
}

/// A milestone of document 0 at a revision is put, or refused.
pub fn is_put<D: Disk>(
    rt: &(impl Abort + AllocGlobal),
    store: &mut Store<D>,
    revision: u64,
    wanted: Result<(), Refusal>,
) {
    let done = composed_at(rt, store, revision);
    is_answer(rt, put(rt, store, &done), wanted);
}

const CREATED: [Row; 1] = [("a", "d", "z", "taken 1")];

// A device whose store has created "d" with "z".
fn created(rt: &(impl Abort + AllocGlobal)) -> Vec<u8> {
    let disk = session(rt, small_device(rt).bytes(), &CREATED, "d 1 z\n");
    disk.bytes().to_vec(rt.alloc()).expect(rt, "memory")
}

#[test]
fn the_first_cell_is_put(rt: HostRuntime) {
    let before = created(&rt);
    let mut store = open_store(&rt, device_of(&rt, &before));
    is_put(&rt, &mut store, 1, Ok(()));
    let disk = store.close();
    differ_by(&rt, disk.bytes(), &before, 64, &FIRST);
    is_opened_as(&rt, disk.bytes(), "d 1 z\n");
}

// The milestone of an earlier job is a stranger once a second job is made, which is put. The kept copy is dropped then.
fn second_is_put<D: Disk>(rt: &(impl Abort + AllocGlobal), store: &mut Store<D>, first: &Composed) {
    let second = composed_at(rt, store, 2);
    is_answer(rt, put(rt, store, first), Err(Refusal::Stranger));
    is_answer(rt, put(rt, store, &second), Ok(()));
    is_answer(rt, put(rt, store, &second), Err(Refusal::Stranger));
}

fn first_is_a_stranger<D: Disk>(rt: &(impl Abort + AllocGlobal), store: &mut Store<D>) {
    let first = composed_at(rt, store, 1);
    second_is_put(rt, store, &first);
}

#[test]
fn a_milestone_of_another_job_is_a_stranger(rt: HostRuntime) {
    let before = created(&rt);
    let mut store = open_store(&rt, device_of(&rt, &before));
    change(&rt, &mut store, &(2, 1, "x", "taken 2"));
    first_is_a_stranger(&rt, &mut store);
    assert!(rt; !store.has_failed());
    has_documents(&rt, store.state(), "d 2 xz\n");
}

// A device is opened by a pick, with the floor of its only document.
fn has_floor(rt: &(impl Abort + AllocGlobal), bytes: &[u8], pick: Pick, floor: u64) {
    let store = open_by(rt, device_of(rt, bytes), pick);
    let documents = store.state().documents();
    assert_eq!(rt; documents.len(), 1);
    assert_eq!(rt; documents[0].floor(), floor);
}

const JOBS_BEHIND: [JobRow; 2] = [(0, 1, "error 13 TooOld"), (0, 4, "error 12 Future")];

// A milestone below the newest revision: the cell has the sources of its own revision, and what is behind it is read again.
#[test]
fn a_milestone_of_an_older_revision(rt: HostRuntime) {
    let before = written(&rt);
    let mut store = open_store(&rt, device_of(&rt, &before));
    change(&rt, &mut store, &(3, 2, "q", "taken 3"));
    is_put(&rt, &mut store, 2, Ok(()));
    has_jobs(&rt, &mut store, &JOBS_BEHIND);
    let disk = store.close();
    differ_by(
        &rt,
        disk.bytes().get(..1_000).expect(&rt, "cells"),
        before.get(..1_000).expect(&rt, "cells"),
        64,
        &SECOND,
    );
    is_opened_as(&rt, disk.bytes(), "d 3 qzx\n");
    has_floor(&rt, disk.bytes(), Pick::Newer, 2);
    has_floor(&rt, disk.bytes(), Pick::Older, 2);
}

// A device without milestones whose store has put "x" behind the "z" of "d", and deleted the "z" then.
fn deleted(rt: &(impl Abort + AllocGlobal)) -> Vec<u8> {
    let mut store = open_store(rt, device_of(rt, &created(rt)));
    is_run_of(rt, &mut store, &EDIT, Ok(()));
    is_run_of(rt, &mut store, &DELETION, Ok(()));
    let disk = store.close();
    disk.bytes().to_vec(rt.alloc()).expect(rt, "memory")
}

// The bytes of such a device once a milestone at revision 2 was put. Revision 1 is held until then, and no longer.
fn put_below(rt: &(impl Abort + AllocGlobal), before: &[u8]) -> Vec<u8> {
    let mut store = open_store(rt, device_of(rt, before));
    has_jobs(rt, &mut store, &[(0, 1, "z")]);
    is_put(rt, &mut store, 2, Ok(()));
    has_jobs(rt, &mut store, &JOBS_BEHIND);
    let disk = store.close();
    disk.bytes().to_vec(rt.alloc()).expect(rt, "memory")
}

// A milestone before a deletion: its cell has what is deleted behind it, and the source as of revision 2. Opened by either pick the
// document has lost it.
#[test]
fn a_milestone_before_a_deletion(rt: HostRuntime) {
    let before = deleted(&rt);
    is_opened_as(&rt, &before, "d 3 x\n");
    has_floor(&rt, &before, Pick::Newer, 1);
    let after = put_below(&rt, &before);
    differ_by(&rt, &after, &before, 64, &SECOND);
    is_opened_as(&rt, &after, "d 3 x\n");
    has_floor(&rt, &after, Pick::Newer, 2);
    has_floor(&rt, &after, Pick::Older, 2);
}

// Reads the two cells of document 0, at 64 and 320.
fn cells_of(rt: &(impl Abort + AllocGlobal), disk: &mut MemDisk) -> ReadCells
    requires { 576 ≤ length (bytes_of disk.old) }
    ensures fits { Fits (bytes_of disk.old) result.cells (pair_of result) }
    ensures known { IsReadAs 64 256 0 result }
    ensures same { bytes_of disk.new ≡ bytes_of disk.old }
{
    match Cells::read_both(rt.alloc(), disk, Format::Two, 64, 256, 0) {
        Ok(read) => read,
        Err(refusal) => panic!(rt; "{refusal}"),
    }
}

// A milestone is put into one of these cells, or both are open.
fn is_put_again(
    rt: &(impl Abort + AllocGlobal),
    disk: &mut MemDisk,
    milestone: &Milestone,
    wanted: bool,
)
    requires within { 576 ≤ length (bytes_of disk.old) }
    requires is { IsCell 0 milestone.now }
    requires fits { 5 + length (cell_body 0 milestone.now) ≤ 256 }
{
    match put_where_closed(rt.alloc(), disk, 64, 256, 0, milestone) {
        Ok(answer) => assert_eq!(rt; answer.is_some(), wanted),
        Err(refusal) => panic!(rt; "{refusal}"),
    }
}

// What the first cell holds is put into a cell that is closed, or both are open.
fn first_is_put_again(rt: &(impl Abort + AllocGlobal), disk: &mut MemDisk, wanted: bool) {
    assert!(rt; 576 <= disk.bytes().len());
    let read = cells_of(rt, disk);
    match &read.first {
        Some(milestone) => is_put_again(rt, disk, milestone, wanted),
        None => panic!(rt; "an open cell"),
    }
}

// A milestone that was read of one cell is put into the other one, and nowhere once both are open.
#[test]
fn a_milestone_is_put_where_a_cell_is_closed(rt: HostRuntime) {
    let before = with_bytes_at(&rt, small_device(&rt).bytes(), 64, &FIRST);
    let mut disk = device_of(&rt, &before);
    first_is_put_again(&rt, &mut disk, true);
    differ_by(&rt, disk.bytes(), &before, 320, &FIRST);
    first_is_put_again(&rt, &mut disk, false);
    differ_by(&rt, disk.bytes(), &before, 320, &FIRST);
}

// The document is held from the milestone's revision on, and has three revisions. Two below the newest would be held without it.
const EDITS_BEHIND: [EditRow; 3] = [
    (4, 1, "w", "error 13 TooOld"),
    (4, 4, "w", "error 12 Future"),
    (4, 2, "", "taken 4"),
];

#[test]
fn edits_behind_a_milestone(rt: HostRuntime) {
    let mut store = open_store(&rt, device_of(&rt, &created(&rt)));
    change(&rt, &mut store, &(2, 1, "x", "taken 2"));
    change(&rt, &mut store, &(3, 2, "q", "taken 3"));
    is_put(&rt, &mut store, 2, Ok(()));
    let disk = store.close();
    has_floor(&rt, disk.bytes(), Pick::Newer, 2);
    has_floor(&rt, disk.bytes(), Pick::Older, 2);
    let mut store = open_store(&rt, disk);
    for row in &EDITS_BEHIND {
        change(&rt, &mut store, row);
    }
    has_documents(&rt, store.state(), "d 4 qxz\n");
}

// Both cells are open, and the put goes wrong at a call of it, counted from 0.
fn device_that_stopped(rt: &(impl Abort + AllocGlobal), call: u64, left: Left) -> FaultDisk {
    let disk = device_of(rt, &written(rt));
    let call = calls_before(rt, disk.bytes()).saturating_add(call);
    let plan = FaultPlan {
        call,
        stops: true,
        left,
    };
    let mut store = open_store(rt, FaultDisk::new(disk, plan));
    is_put(rt, &mut store, 2, Err(Refusal::Fault));
    assert!(rt; store.has_failed());
    has_jobs(rt, &mut store, &[(0, 2, "error 34 Fault")]);
    store.close()
}

// The calls of the put are, in order:
// 0 and 1: the older cell is closed at 64, and synced;
// 2 and 3: the milestone is written behind that gate, and synced;
// 4 and 5: the gate is opened, and synced.
// Whichever of them stops, and whatever it leaves, both picks find the document unchanged.
#[test]
fn a_stop_in_a_put(rt: HostRuntime) {
    for call in 0..6 {
        for (left, _) in &LEFT {
            let disk = device_that_stopped(&rt, call, *left);
            let after = disk.after_crash(rt.alloc()).expect(&rt, "memory");
            is_opened_as(&rt, after.bytes(), "d 2 zx\n");
        }
    }
    let before = written(&rt);
    let mut store = open_store(&rt, device_of(&rt, &before));
    is_put(&rt, &mut store, 2, Ok(()));
    let disk = store.close();
    differ_by(&rt, disk.bytes(), &before, 64, &SECOND);
    is_opened_as(&rt, disk.bytes(), "d 2 zx\n");
}
