//! Commits that free the journal where it is full, and milestones that are put as they are due.
use crate::crashes::{is_beginning, leaves_beginning};
use crate::rings::{LEFT, second, with_last_number};
use crate::scripts::{
    Move, Numbers, Script, batch, drawn_document, no_moves, push_change, script_device, take_move,
};
use crate::stopping::calls_before;
use crate::stores::{
    SLOT, are_bytes, batch_of, device_of, is_answer, is_opened_as, open_store, part, with_bytes_at,
};
use disk::{Disk, FaultDisk, FaultPlan, MemDisk};
use journal::decode_batch;
use recovery::Store;
use refusal::Refusal;
use std::process::Abort;

/// A store commits the batch that these bytes spell, and frees the journal for it where it is full.
pub fn commit_freeing<D: Disk>(
    rt: &(impl Abort + AllocGlobal),
    store: &mut Store<D>,
    bytes: &[u8],
) -> Result<(), Refusal> {
    let found = decode_batch(rt.alloc(), bytes).expect(rt, "memory");
    let batch = batch_of(rt, found.expect(rt, "a batch"));
    let commands = batch.as_slice();
    assert!(rt; 1 <= commands.len() && commands.len() <= 9);
    assert!(rt; store.fits(commands));
    match store.commit_freeing(rt.alloc(), &batch, &[]) {
        Ok(_) => Ok(()),
        Err(refusal) => Err(refusal),
    }
}

// And is answered like this.
fn is_freed_for<D: Disk>(
    rt: &(impl Abort + AllocGlobal),
    store: &mut Store<D>,
    bytes: &[u8],
    wanted: Result<(), Refusal>,
) {
    is_answer(rt, commit_freeing(rt, store, bytes), wanted);
}

// Frees the oldest segment.
fn free_oldest<D: Disk>(
    rt: &(impl Abort + AllocGlobal),
    store: &mut Store<D>,
) -> Result<(), Refusal> {
    store.free_oldest(rt.alloc())
}

// The change that was drawn last is committed.
fn feed<D: Disk>(rt: &(impl Abort + AllocGlobal), store: &mut Store<D>, script: &mut Script) {
    let bytes = batch(rt, script, script.moves.len(), 1);
    is_freed_for(rt, store, &bytes, Ok(()));
    script.moves.push(Move::Commit(1)).expect(rt, "memory");
}

// The three slots have 768 bytes, and a record 47 at least.
#[test]
fn a_journal_is_fed_twenty_times_its_size(rt: HostRuntime) {
    let mut store = open_store(&rt, script_device(&rt));
    let mut numbers = Numbers { state: 20 };
    let mut script = no_moves(&rt);
    for _ in 0..330 {
        let document = drawn_document(&mut numbers, &script);
        push_change(&rt, &mut numbers, &mut script, document);
        feed(&rt, &mut store, &mut script);
    }
    assert!(rt; !store.has_failed());
    is_beginning(&rt, store.close().bytes(), &script, 330);
}

// A device on which the next move of a script finds the journal full. A commit makes eight calls at most.
fn full_device(rt: &(impl Abort + AllocGlobal), script: &mut Script) -> MemDisk {
    let mut numbers = Numbers { state: 7 };
    let mut device = script_device(rt);
    for _ in 0..40 {
        let document = drawn_document(&mut numbers, script);
        push_change(rt, &mut numbers, script, document);
        let most = calls_before(rt, device.bytes()).saturating_add(8);
        let mut store = open_store(rt, device_of(rt, device.bytes()));
        feed(rt, &mut store, script);
        let after = store.close();
        if after.calls().len() as u64 > most {
            drop(script.moves.pop());
            return device;
        }
        device = after;
    }
    panic!(rt; "no move finds the journal full")
}

// A store fails in the next move, and answers nothing more.
fn fails_in_next<D: Disk>(rt: &(impl Abort + AllocGlobal), store: &mut Store<D>, script: &Script) {
    let next = batch(rt, script, script.moves.len(), 1);
    for _ in 0..2 {
        is_freed_for(rt, store, &next, Err(Refusal::Fault));
    }
    is_answer(rt, free_oldest(rt, store), Err(Refusal::Fault));
}

// A call of the freeing commit fails, and where it stops each later one.
fn goes_wrong(rt: &(impl Abort + AllocGlobal), bytes: &[u8], script: &Script, plan: FaultPlan) {
    let mut store = open_store(rt, FaultDisk::new(device_of(rt, bytes), plan));
    fails_in_next(rt, &mut store, script);
    let disk = store.close();
    let moves = script.moves.len();
    leaves_beginning(rt, &disk, script, moves);
    is_beginning(rt, disk.disk().bytes(), script, moves);
}

// How many calls the freeing commit ends with.
fn calls_after(rt: &(impl Abort + AllocGlobal), bytes: &[u8], script: &Script) -> u64 {
    let mut store = open_store(rt, device_of(rt, bytes));
    let next = batch(rt, script, script.moves.len(), 1);
    is_freed_for(rt, &mut store, &next, Ok(()));
    store.close().calls().len() as u64
}

#[test]
fn each_call_of_a_freeing_goes_wrong(rt: HostRuntime) {
    let mut script = no_moves(&rt);
    let device = full_device(&rt, &mut script);
    for call in calls_before(&rt, device.bytes())..calls_after(&rt, device.bytes(), &script) {
        for (left, _) in &LEFT {
            goes_wrong(&rt, device.bytes(), &script, FaultPlan::stop(call, *left));
            goes_wrong(&rt, device.bytes(), &script, FaultPlan::fail(call, *left));
        }
    }
}

// The change that was drawn last is committed, with no freeing.
fn take_change<D: Disk>(
    rt: &(impl Abort + AllocGlobal),
    store: &mut Store<D>,
    script: &mut Script,
) {
    let next = Move::Commit(1);
    let moves = script.moves.len();
    is_answer(rt, take_move(rt, store, script, moves, next), Ok(()));
    script.moves.push(next).expect(rt, "memory");
}

// The revision to which a job of document 0 is due, with a milestone at every second revision.
fn due(rt: &impl Abort, store: &Store<MemDisk>, wanted: Option<u64>) {
    assert!(rt; store.job_due(0, 2) == wanted);
}

// Puts the milestone that is due of document 0, and retires what nothing needs any more.
fn put(rt: &(impl Abort + AllocGlobal), store: &mut Store<MemDisk>, revision: u64) {
    is_answer(rt, store.put_document(rt.alloc(), 0, revision), Ok(()));
    for _ in 0..3u8 {
        if store.retire().is_err() {
            return;
        }
    }
}

// Every second revision of the only document is put, so its cells are never four below, and a segment is given up before each
// slot is taken: no plain commit finds the journal full.
#[test]
fn a_milestone_is_put_where_it_is_due(rt: HostRuntime) {
    let mut store = open_store(&rt, script_device(&rt));
    let mut numbers = Numbers { state: 2 };
    let mut script = no_moves(&rt);
    due(&rt, &store, None);
    for revision in 1..101 {
        push_change(&rt, &mut numbers, &mut script, 0);
        take_change(&rt, &mut store, &mut script);
        if revision % 2 == 0 {
            due(&rt, &store, Some(revision));
            put(&rt, &mut store, revision);
        }
        due(&rt, &store, None);
    }
    is_beginning(&rt, store.close().bytes(), &script, 100);
}

// No number is behind that of the only segment, and a second batch doesn't fit it. It is needed, and nothing is written.
#[test]
fn the_only_segment_is_not_freed(rt: HostRuntime) {
    let bytes = with_last_number(&rt);
    let mut store = open_store(&rt, device_of(&rt, &bytes));
    let needed = Err(Refusal::StillNeeded);
    is_answer(&rt, free_oldest(&rt, &mut store), needed);
    is_freed_for(&rt, &mut store, &second(&rt), needed);
    assert!(rt; !store.has_failed());
    let disk = store.close();
    are_bytes(&rt, disk.bytes(), &bytes);
    is_opened_as(&rt, disk.bytes(), "d 2 zx\n");
}

// Of two segments the oldest is freed, but no number is behind that of the newer one, so no slot is opened.
#[test]
fn what_is_freed_may_not_be_enough(rt: HostRuntime) {
    let bytes = with_bytes_at(&rt, &with_last_number(&rt), 1_089, &[254]);
    let mut store = open_store(&rt, device_of(&rt, &bytes));
    is_freed_for(&rt, &mut store, &second(&rt), Ok(()));
    let third = part(&rt, &SLOT, 64, 45);
    is_freed_for(&rt, &mut store, third, Err(Refusal::JournalFull));
    is_freed_for(&rt, &mut store, third, Err(Refusal::StillNeeded));
    let disk = store.close();
    is_opened_as(&rt, disk.bytes(), "d 3 zx\n");
    are_bytes(&rt, part(&rt, disk.bytes(), 1_088, 1), &[0]);
}
