//! The halves of a job, and milestones that are made of them.
use crate::jobs::job;
use crate::stores::{
    EditRow, answer_text, change, create, edit, formatted_device, is_answer, is_text, open_store,
};
use disk::{Disk, MemDisk};
use milestone::{Composed, Job, Part, PartDone, compose_job, compose_part, join_parts};
use recovery::{Shape, Store};
use refusal::Refusal;
use std::process::Abort;

/// A device of 16,448 bytes, whose documents keep 64 revisions.
const ROOMY: Shape = Shape {
    slots: 2,
    slot: 4_096,
    docs: 2,
    cell: 2_048,
    sources: 4,
    keep: 64,
};

const EDITS: [EditRow; 7] = [
    (2, 1, "b", "taken 2"),
    (3, 2, "c", "taken 3"),
    (4, 3, "d", "taken 4"),
    (5, 4, "e", "taken 5"),
    (6, 5, "f", "taken 6"),
    (7, 6, "g", "taken 7"),
    (8, 7, "h", "taken 8"),
];

// A store whose only document was created with a letter and edited seven times.
fn edited(rt: &(impl Abort + AllocGlobal)) -> Store<MemDisk> {
    let mut store = open_store(rt, formatted_device(rt, 16_448, ROOMY));
    create(rt, &mut store, &("a", "d", "a", "taken 1"));
    for row in &EDITS {
        change(rt, &mut store, row);
    }
    store
}

/// The newest revision of a store whose past keeps no document below revision 8: a job to one of these begins at the empty document.
const LONG: u64 = 20;

// A store whose only document was created with a letter and edited up to that revision.
fn edited_long(rt: &(impl Abort + AllocGlobal)) -> Store<MemDisk> {
    let mut store = edited(rt);
    for base in 8..LONG {
        let number = base.saturating_add(1);
        let taken = answer_text(rt, &mut store, &edit(rt, number, base, "x"));
        let wanted = format!(in rt.alloc(); "taken {number}").expect(rt, "memory");
        is_text(rt, taken.as_str(), wanted.as_str());
    }
    store
}

fn halves_of(rt: &(impl Abort + AllocGlobal), job: &Job) -> (Part, Part) {
    job.halves(rt.alloc()).expect(rt, "memory")
}

fn done(rt: &(impl Abort + AllocGlobal), part: Part) -> PartDone {
    match compose_part(rt.alloc(), part) {
        Ok(done) => done,
        Err(_) => panic!(rt; "out of memory"),
    }
}

// What comes of a job by its halves.
fn by_halves(rt: &(impl Abort + AllocGlobal), job: Job) -> Composed {
    let (first, second) = halves_of(rt, &job);
    let first = done(rt, first);
    let second = done(rt, second);
    match join_parts(rt.alloc(), job, first, second) {
        Ok(composed) => composed,
        Err(back) => panic!(rt; "{}", back.refusal),
    }
}

// A job to a revision has so many deltas in its two halves.
fn is_parted(rt: &(impl Abort + AllocGlobal), revision: u64, first: usize, second: usize) {
    let mut store = edited_long(rt);
    let (one, other) = halves_of(rt, &job(rt, &mut store, revision));
    assert_eq!(rt; one.deltas().len(), first);
    assert_eq!(rt; other.deltas().len(), second);
}

#[test]
fn seven_deltas_are_three_and_four(rt: HostRuntime) {
    is_parted(&rt, 7, 3, 4);
}

#[test]
fn one_delta_is_none_and_one(rt: HostRuntime) {
    is_parted(&rt, 1, 0, 1);
}

// To the newest revision a job has no delta.
#[test]
fn no_delta_is_none_and_none(rt: HostRuntime) {
    is_parted(&rt, LONG, 0, 0);
}

#[test]
fn halves_make_what_the_job_makes(rt: HostRuntime) {
    let mut store = edited_long(&rt);
    let one = by_halves(&rt, job(&rt, &mut store, 7));
    let other = job(&rt, &mut store, 7);
    match compose_job(rt.alloc(), other) {
        Ok(whole) => {
            let content = one.milestone().document().as_delta(rt.alloc());
            let wanted = whole.milestone().document().as_delta(rt.alloc());
            assert!(rt; content.expect(&rt, "memory") == wanted.expect(&rt, "memory"));
        }
        Err(back) => panic!(rt; "{}", back.refusal),
    }
}

#[test]
fn exchanged_halves_are_strangers(rt: HostRuntime) {
    let mut store = edited_long(&rt);
    let made = job(&rt, &mut store, 7);
    let (first, second) = halves_of(&rt, &made);
    let first = done(&rt, first);
    let second = done(&rt, second);
    match join_parts(rt.alloc(), made, second, first) {
        Ok(_) => panic!(rt; "joined"),
        Err(back) => {
            assert!(rt; back.refusal == Refusal::Stranger);
            assert_eq!(rt; back.job.revision(), 7);
        }
    }
}

// What comes of a job that was replaced is a stranger, and changes nothing; what comes of the later one is put.
#[test]
fn halves_of_a_replaced_job_are_strangers(rt: HostRuntime) {
    let mut store = edited(&rt);
    let early = by_halves(&rt, job(&rt, &mut store, 4));
    let late = by_halves(&rt, job(&rt, &mut store, 7));
    is_answer(
        &rt,
        store.put_milestone(rt.alloc(), &early),
        Err(Refusal::Stranger),
    );
    is_answer(&rt, store.put_milestone(rt.alloc(), &late), Ok(()));
    is_answer(
        &rt,
        store.put_milestone(rt.alloc(), &late),
        Err(Refusal::Stranger),
    );
    assert!(rt; !store.has_failed());
}

// The bytes of a device and how many calls it had: of a store that was given what came of a job which was replaced, or that wasn't.
fn after_late(rt: &(impl Abort + AllocGlobal), is_given: bool) -> (Vec<u8>, usize) {
    let mut store = edited(rt);
    let early = by_halves(rt, job(rt, &mut store, 4));
    let _later = job(rt, &mut store, 7);
    if is_given {
        let late = store.put_milestone(rt.alloc(), &early);
        is_answer(rt, late, Err(Refusal::Stranger));
    }
    let disk = store.close();
    let bytes = disk.bytes().to_vec(rt.alloc()).expect(rt, "memory");
    (bytes, disk.calls().len())
}

#[test]
fn what_comes_late_changes_no_byte(rt: HostRuntime) {
    let (given, calls) = after_late(&rt, true);
    let (wanted, others) = after_late(&rt, false);
    assert!(rt; given == wanted);
    assert_eq!(rt; calls, others);
}

// A job is due where a multiple is passed, to that multiple. While it is out none is due, and once it is put the next one is.
#[test]
fn a_job_is_due_at_each_multiple(rt: HostRuntime) {
    let mut store = edited(&rt);
    assert!(rt; store.job_due(0, 3) == Some(6));
    assert!(rt; store.job_due(0, 9) == None);
    assert!(rt; store.job_due(1, 3) == None);
    let made = by_halves(&rt, job(&rt, &mut store, 3));
    assert!(rt; store.job_due(0, 3) == None);
    assert!(rt; store.job_due(0, 4) == None);
    is_answer(&rt, store.put_milestone(rt.alloc(), &made), Ok(()));
    assert!(rt; store.job_due(0, 3) == Some(6));
    assert!(rt; store.job_due(0, 4) == Some(8));
}

// A job that is given up is out no more, and what comes of it is a stranger.
#[test]
fn a_job_is_given_up(rt: HostRuntime) {
    let mut store = edited(&rt);
    let made = by_halves(&rt, job(&rt, &mut store, 3));
    store.give_up_job(made.job());
    assert!(rt; store.job_due(0, 3) == Some(6));
    is_answer(
        &rt,
        store.put_milestone(rt.alloc(), &made),
        Err(Refusal::Stranger),
    );
}

// A job that another one has replaced is given up without it.
#[test]
fn a_job_in_its_place_is_not_given_up(rt: HostRuntime) {
    let mut store = edited(&rt);
    let replaced = by_halves(&rt, job(&rt, &mut store, 3));
    let made = by_halves(&rt, job(&rt, &mut store, 6));
    store.give_up_job(replaced.job());
    is_answer(&rt, store.put_milestone(rt.alloc(), &made), Ok(()));
}

/// A device whose documents keep two revisions.
const SHORT: Shape = Shape { keep: 2, ..ROOMY };

// A job to revision 3 is out while its document goes to revision 8, and its floor to 6: a job to the floor is due.
#[test]
fn a_job_below_the_floor_is_out_no_more(rt: HostRuntime) {
    let mut store = open_store(&rt, formatted_device(&rt, 16_448, SHORT));
    create(&rt, &mut store, &("a", "d", "a", "taken 1"));
    for row in &EDITS[..2] {
        change(&rt, &mut store, row);
    }
    let made = by_halves(&rt, job(&rt, &mut store, 3));
    for row in &EDITS[2..4] {
        change(&rt, &mut store, row);
    }
    assert!(rt; store.job_due(0, 4) == None);
    for row in &EDITS[4..] {
        change(&rt, &mut store, row);
    }
    assert!(rt; store.job_due(0, 5) == Some(6));
    assert!(rt; store.job_due(0, 3) == Some(6));
    is_answer(&rt, store.put_milestone(rt.alloc(), &made), Ok(()));
    assert!(rt; store.job_due(0, 3) == Some(6));
}

// The bytes of a device and how many calls it had: of a store that was given what came of a replaced job and of the later one, together or one by one.
fn after_both(rt: &(impl Abort + AllocGlobal), together: bool) -> (Vec<u8>, usize) {
    let mut store = edited(rt);
    let early = by_halves(rt, job(rt, &mut store, 4));
    let late = by_halves(rt, job(rt, &mut store, 7));
    if together {
        let mut both = Vec::new(rt.alloc());
        both.push(early).expect(rt, "memory");
        both.push(late).expect(rt, "memory");
        for _ in 0..2 {
            let taken = store.put_milestones(rt.alloc(), &both);
            assert_eq!(rt; taken.expect(rt, "milestones"), 2);
        }
    } else {
        let first = store.put_milestone(rt.alloc(), &early);
        is_answer(rt, first, Err(Refusal::Stranger));
        is_answer(rt, store.put_milestone(rt.alloc(), &late), Ok(()));
    }
    let disk = store.close();
    let bytes = disk.bytes().to_vec(rt.alloc()).expect(rt, "memory");
    (bytes, disk.calls().len())
}

#[test]
fn what_comes_together_is_put_as_one_by_one(rt: HostRuntime) {
    let (together, calls) = after_both(&rt, true);
    let (wanted, others) = after_both(&rt, false);
    assert!(rt; together == wanted);
    assert_eq!(rt; calls, others);
}
