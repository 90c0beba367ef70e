//! Composers side by side: each job comes back, and two jobs are composed at the same time, each of them by its two halves.
use crate::made::{edited, job};
use composers::{Composers, HalfGate, OpenHalves, channels, compose_workers};
use std::process::Abort;
use std::sync::Wait;
use std::sync::atomic::{AtomicU64, Ordering};
use std::thread::{Threads, join, sleep};
use std::time::{Clock, Duration};

/// So often something is looked for, a millisecond apart.
const LOOKS: u64 = 20_000;

/// Holds each half until so many have come, and counts those that saw it.
#[derive(Drop)]
struct Together<'a, R> {
    rt: &'a R,
    wanted: u64,
    come: AtomicU64,
    saw: AtomicU64,
}

impl<'a, R: Clock> HalfGate for Together<'a, R> {
    fn pass(&self, _half: u8) {
        self.come.fetch_add(1, Ordering::SeqCst);
        for _ in 0..LOOKS {
            if self.come.load(Ordering::SeqCst) >= self.wanted {
                self.saw.fetch_add(1, Ordering::SeqCst);
                return;
            }
            sleep(self.rt, Duration::from_millis(1));
        }
    }
}

// The revisions of so many jobs that come back composed. Then the ends are let go of.
fn come_back<R: Wait + Clock + Abort + AllocGlobal>(
    rt: &R,
    mut ends: Composers,
    count: usize,
) -> Vec<u64> {
    let mut revisions = Vec::new(rt.alloc());
    for _ in 0..LOOKS {
        match ends.take_back(rt) {
            Some(Ok(composed)) => revisions
                .push(composed.job().revision())
                .expect(rt, "memory"),
            Some(Err(back)) => panic!(rt; "{}", back.refusal),
            None => sleep(rt, Duration::from_millis(1)),
        }
        if revisions.len() >= count {
            return revisions;
        }
    }
    revisions
}

// Jobs to these revisions are handed out before the composers begin, and each comes back.
fn all_come_back<R: Threads + Wait + Clock + Abort + AllocGlobal + Sync, G: HalfGate + Sync>(
    rt: &R,
    revisions: &[u64],
    gate: &G,
) {
    let mut store = edited(rt);
    let (mut ends, first, second) = channels(rt.alloc()).expect(rt, "memory");
    for revision in revisions {
        assert!(rt; ends.hand_out(rt, job(rt, &mut store, *revision)).is_ok());
    }
    let count = revisions.len();
    let (_ended, back) = join(
        rt,
        move || compose_workers(rt, rt.alloc(), first, second, gate),
        move || come_back(rt, ends, count),
    );
    for revision in revisions {
        assert!(rt; back.contains(revision), "{revision}");
    }
}

// Seven jobs are more than one for each composer.
#[test]
fn each_job_comes_back(rt: HostRuntime) {
    all_come_back(&rt, &[1, 2, 3, 4, 5, 6, 7], &OpenHalves);
}

fn meet<R: Threads + Wait + Clock + Abort + AllocGlobal + Sync>(rt: &R, revisions: &[u64]) {
    let gate = Together {
        rt,
        wanted: (revisions.len() as u64).saturating_mul(2),
        come: AtomicU64::new(0),
        saw: AtomicU64::new(0),
    };
    all_come_back(rt, revisions, &gate);
    assert_eq!(rt; gate.saw.load(Ordering::SeqCst), gate.wanted);
}

// The halves of one job wait for each other, and then those of two jobs: one composer, or one that composes half after half, meets neither.
#[test]
fn two_jobs_at_once_by_halves(rt: HostRuntime) {
    meet(&rt, &[7]);
    meet(&rt, &[6, 7]);
}
