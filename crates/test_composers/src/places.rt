//! The places of the channels, and composers that take jobs from one and hand on what is done by the other.
use crate::made::{edited, job};
use composers::{Composers, Done, OpenHalves, Worker, channels, compose_workers};
use disk::MemDisk;
use recovery::Store;
use std::process::Abort;
use std::sync::Wait;
use std::thread::{Threads, join, sleep};
use std::time::{Clock, Duration};

/// So often what is done is looked for, a millisecond apart.
const LOOKS: u64 = 20_000;

fn made(rt: &(impl Abort + AllocGlobal)) -> (Composers, Worker, Worker) {
    channels(rt.alloc()).expect(rt, "memory")
}

// As many jobs find a place as there are places, and the next one comes back. Nothing has come.
fn fill<R: Wait + Abort + AllocGlobal>(rt: &R, store: &mut Store<MemDisk>) {
    let (mut ends, _first, _second) = made(rt);
    for _ in 0..64u8 {
        assert!(rt; ends.hand_out(rt, job(rt, store, 7)).is_ok());
    }
    match ends.hand_out(rt, job(rt, store, 7)) {
        Ok(()) => panic!(rt; "a place"),
        Err(back) => assert_eq!(rt; back.revision(), 7),
    }
    assert!(rt; ends.take_back(rt).is_none());
}

#[test]
fn a_full_channel_gives_the_job_back(rt: HostRuntime) {
    fill(&rt, &mut edited(&rt));
}

// Hands a job out, and looks for what comes of it. Then the ends are let go of.
fn handed_out<R: Wait + Clock + Abort + AllocGlobal>(
    rt: &R,
    store: &mut Store<MemDisk>,
    mut ends: Composers,
) -> Option<Done> {
    assert!(rt; ends.hand_out(rt, job(rt, store, 7)).is_ok());
    for _ in 0..LOOKS {
        if let Some(done) = ends.take_back(rt) {
            return Some(done);
        }
        sleep(rt, Duration::from_millis(1));
    }
    None
}

fn served<R: Threads + Wait + Clock + Abort + AllocGlobal + Sync>(rt: &R) {
    let mut store = edited(rt);
    let (ends, first, second) = made(rt);
    let (_ended, back) = join(
        rt,
        move || compose_workers(rt, rt.alloc(), first, second, &OpenHalves),
        || handed_out(rt, &mut store, ends),
    );
    match back {
        Some(Ok(composed)) => {
            assert_eq!(rt; composed.job().revision(), 7);
            assert!(rt; store.put_milestone(rt.alloc(), &composed).is_ok());
        }
        Some(Err(back)) => panic!(rt; "{}", back.refusal),
        None => panic!(rt; "nothing came"),
    }
}

// A job comes back composed, and is put; the composers end once the other ends are gone.
#[test]
fn a_job_comes_back_composed(rt: HostRuntime) {
    served(&rt);
}
