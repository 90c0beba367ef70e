//! A milestone that another thread may compose: its job is handed out, and what came of it is put.
ghost use Rattle.std.specs.Prelude.{◌≡◌, false};
ghost use Rattle.recovery.specs.Open.{state_of, has_failed};

use crate::rows::Step::{Submit, Turn};
use crate::rows::{Gives, Row, SHAPE, calls_of, is_answered};
use disk::{Disk, MemDisk};
use flusher::{Flusher, start};
use lives::drive;
use milestone::compose_job;
use published::{Life, Opened};
use recovery::Store;
use refusal::Refusal;
use revision::Reply::Taken;
use std::marker::Brand;
use std::process::Abort;
use std::sync::Wait;
use std::sync::ledger::Blank;
use test_fixtures::new_store;

const CREATED: [Row; 2] = [
    (Submit(1), Gives::Ordered(0, Taken { rev: 1 }, 1)),
    (Turn, Gives::Settled(1)),
];

// The job of the document's first revision is composed and put, once.
fn is_put<D: Disk, L: Life>(rt: &(impl Abort + AllocGlobal), flusher: &mut Flusher<D, L>) {
    let alloc = rt.alloc();
    let job = flusher.milestone_job(alloc, 0, 1).expect(rt, "a job");
    match compose_job(alloc, job) {
        Ok(composed) => {
            assert_eq!(rt; flusher.put_milestone(alloc, &composed), Ok(()));
            assert_eq!(rt;
                flusher.put_milestone(alloc, &composed),
                Err(Refusal::Stranger)
            );
        }
        Err(back) => panic!(rt; "{}", back.refusal),
    }
}

fn put_after_the_create<L: Life, R: Wait + Abort + AllocGlobal>(
    rt: &R,
    store: Store<MemDisk>,
    opened: Opened,
    blank: Blank,
) -> MemDisk
    requires book { opened ≡ L.book }
    requires name { blank.name ≡ L.name }
    requires parts { blank.parts ≡ L.parts }
    requires seats { blank.parts ≡ 2 }
    requires begin { state_of store ≡ L.start }
    requires works { has_failed store ≡ false }
{
    let alloc = rt.alloc();
    let (mut flusher, mut board) = match start::<_, L>(alloc, store, opened, blank, 1) {
        Ok(both) => both,
        Err(fault) => panic!(rt; "{}", fault.refusal),
    };
    let mut seat = board.seat().expect(rt, "a seat");
    let calls = calls_of(rt, &CREATED);
    let run = drive(rt, alloc, &mut flusher, &mut board, &mut seat, &calls);
    is_answered(rt, &run, &CREATED, 2, None);
    is_put(rt, &mut flusher);
    flusher.end(rt).close()
}

// The document's first cell is open then.
#[test]
fn what_comes_of_a_job_is_put_once(rt: HostRuntime) {
    let store = new_store(rt.alloc(), SHAPE).expect(&rt, "a store");
    let opened = Opened::new().expect(&rt, "logs");
    let disk = put_after_the_create::<Brand, _>(&rt, store, opened, Blank::new(2));
    assert!(rt; disk.bytes().get(64).copied() == Some(0xa5));
}
