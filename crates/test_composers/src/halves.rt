//! Both halves of a job are composed at the same time.
use crate::made::{edited, job};
use composers::{HalfGate, compose_by_halves};
use std::process::Abort;
use std::sync::atomic::{AtomicBool, Ordering};
use std::thread::{Threads, sleep};
use std::time::{Clock, Duration};

/// So often a half looks for the other's flag, a millisecond apart.
const LOOKS: u64 = 2_000;

/// Each half raises its flag, and looks for the other's.
#[derive(Drop)]
struct BothRaised<'a, R> {
    rt: &'a R,
    first: AtomicBool,
    second: AtomicBool,
    first_saw: AtomicBool,
    second_saw: AtomicBool,
}

impl<'a, R: Clock> HalfGate for BothRaised<'a, R> {
    fn pass(&self, half: u8) {
        if half == 0 {
            raise(self.rt, &self.first, &self.second, &self.first_saw);
        } else {
            raise(self.rt, &self.second, &self.first, &self.second_saw);
        }
    }
}

// Raises one flag and looks for the other.
fn raise<R: Clock>(rt: &R, mine: &AtomicBool, other: &AtomicBool, saw: &AtomicBool) {
    mine.store(true, Ordering::SeqCst);
    for _ in 0..LOOKS {
        if other.load(Ordering::SeqCst) {
            saw.store(true, Ordering::SeqCst);
            return;
        }
        sleep(rt, Duration::from_millis(1));
    }
}

fn meet<R: Threads + Clock + Abort + AllocGlobal + Sync>(rt: &R) {
    let gate = BothRaised {
        rt,
        first: AtomicBool::new(false),
        second: AtomicBool::new(false),
        first_saw: AtomicBool::new(false),
        second_saw: AtomicBool::new(false),
    };
    let mut store = edited(rt);
    let made = job(rt, &mut store, 7);
    match compose_by_halves(rt, rt.alloc(), made, &gate) {
        Ok(composed) => assert_eq!(rt; composed.milestone().document().len16(), 7),
        Err(back) => panic!(rt; "{}", back.refusal),
    }
    assert!(rt; gate.first_saw.load(Ordering::SeqCst));
    assert!(rt; gate.second_saw.load(Ordering::SeqCst));
}

// Each half sees the other's flag, which a body that composes one after the other can't meet.
#[test]
fn both_halves_at_once(rt: HostRuntime) {
    meet(&rt);
}
