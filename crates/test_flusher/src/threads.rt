//! The flusher's thread beside one that submits: the board is free while a batch is written.
ghost use Rattle.std.specs.Prelude.{◌≡◌};
ghost use Rattle.turns.specs.Counting.{IsAt};
ghost use Rattle.recovery.specs.Open.{state_of};

use crate::rows::SHAPE;
use crate::seats::{acknowledged, started_to_end, submitted as ordered};
use disk::MemDisk;
use flusher::{Flusher, Gate, Moment};
use hub::{Closer, Hub, Seat, Tally, Writer};
use published::{Life, Opened};
use recovery::Store;
use refusal::Refusal;
use std::alloc::Global;
use std::marker::Brand;
use std::process::Abort;
use std::sync::Wait;
use std::sync::atomic::{AtomicBool, Ordering};
use std::sync::ledger::Blank;
use std::thread::{Threads, join, yield_now};
use test_fixtures::{command, new_store};
use turns::flush_all;

/// So often a thread looks whether the other one has come along.
const LOOKS: u64 = 10_000_000;

/// Holds the flusher before its first commit until the order has a second command.
#[derive(Drop)]
struct UntilSecond<'a, L: Life, R> {
    rt: &'a R,
    hub: &'a Hub<MemDisk, L>,
    reached: &'a AtomicBool,
    saw: bool,
}

impl<'a, L: Life, R: Wait> Gate for UntilSecond<'a, L, R> {
    fn pass(&mut self, at: Moment) {
        if self.saw || at == Moment::AfterCommit {
            return;
        }
        self.reached.store(true, Ordering::SeqCst);
        for _ in 0..LOOKS {
            if self.hub.ordered(self.rt) >= 2 {
                self.saw = true;
                return;
            }
            yield_now();
        }
    }
}

// waits until the flusher has reached its gate
fn wait_for(reached: &AtomicBool) -> bool {
    for _ in 0..LOOKS {
        if reached.load(Ordering::SeqCst) {
            return true;
        }
        yield_now();
    }
    false
}

// Submits the first command, and by another seat the second one, once the flusher is at the gate with the first. Both are acknowledged
// then; the last token's commands are counted.
fn submitted<L: Life, R: Wait + Abort + AllocGlobal>(
    rt: &R,
    hub: &Hub<MemDisk, L>,
    one: &mut Seat<L>,
    other: &mut Seat<L>,
    reached: &AtomicBool,
) -> u64 {
    let alloc = rt.alloc();
    let first = command(alloc, 1, 1).expect(rt, "a command");
    let ticket = ordered(rt, hub, one, &first);
    assert!(rt; wait_for(reached));
    let second = command(alloc, 2, 1).expect(rt, "a command");
    let last = ordered(rt, hub, other, &second);
    let _ = acknowledged(rt, hub, &ticket);
    acknowledged(rt, hub, &last).len()
}

// Submits both, tallies both seats, and then ends the hub.
fn submitted_all<L: Life, R: Wait + Abort + AllocGlobal>(
    rt: &R,
    hub: &Hub<MemDisk, L>,
    rights: (Closer<L>, Tally<L>),
    one: Seat<L>,
    other: Seat<L>,
    reached: &AtomicBool,
) -> u64
    requires none { rights.1.seats ≡ 0 }
    requires two { L.parts ≡ 3 }
{
    let (mut closer, mut tally) = rights;
    let mut one = one;
    let mut other = other;
    let held = submitted(rt, hub, &mut one, &mut other, reached);
    tally.add(one);
    tally.add(other);
    hub.end(rt, &mut closer, &tally);
    held
}

// Writes all that is ordered; whether the order had a second command while the first was
// written.
fn flushed<L: Life, R: Wait>(
    rt: &R,
    alloc: Global,
    flusher: &mut Flusher<MemDisk, L>,
    hub: &Hub<MemDisk, L>,
    writer: &mut Writer<L>,
    reached: &AtomicBool,
) -> Result<bool, Refusal>
    requires at { IsAt writer.old flusher.old }
{
    let mut gate = UntilSecond {
        rt,
        hub,
        reached,
        saw: false,
    };
    match flush_all(rt, alloc, flusher, hub, writer, 1, None, &mut gate) {
        Ok(_idle) => Ok(gate.saw),
        Err(failed) => Err(failed.refusal()),
    }
}

fn beside<L: Life + Send + Sync, R: Threads + Wait + Abort + AllocGlobal + Sync>(
    rt: &R,
    store: Store<MemDisk>,
    opened: Opened,
    blank: Blank,
)
    requires book { opened ≡ L.book }
    requires name { blank.name ≡ L.name }
    requires parts { blank.parts ≡ L.parts }
    requires seats { blank.parts ≡ 3 }
    requires begin { state_of store ≡ L.start }
{
    let alloc = rt.alloc();
    let (mut flusher, hub, mut writer, mut rights) = started_to_end::<L>(
        rt, store, opened, blank, 2,
    );
    let one = hub.seat(rt, &mut rights.0).expect(rt, "a seat");
    let other = hub.seat(rt, &mut rights.0).expect(rt, "a seat");
    let reached = AtomicBool::new(false);
    let (held, saw) = join(
        rt,
        ||
            requires none { rights.1.seats ≡ 0 }
            requires two { L.parts ≡ 3 }
        { submitted_all(rt, &hub, rights, one, other, &reached) },
        ||
            requires { IsAt writer flusher }
        { flushed(rt, alloc, &mut flusher, &hub, &mut writer, &reached) },
    );
    let store = flusher.end(rt);
    assert_eq!(rt; held, 2);
    assert!(rt; matches!(saw, Ok(true)));
    let disk = store.close();
    assert!(rt; disk.bytes().len() == 1_600);
}

// The second command is submitted by another seat while the first one's batch is at the gate, and both are acknowledged.
#[test]
fn second_is_ordered_while_first_is_written(rt: HostRuntime) {
    let store = new_store(rt.alloc(), SHAPE).expect(&rt, "a store");
    let opened = Opened::new().expect(&rt, "logs");
    beside::<Brand, _>(&rt, store, opened, Blank::new(3));
}
