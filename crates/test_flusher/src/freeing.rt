//! A journal that is full: milestones of what its oldest slot holds free that slot for the next batch.
ghost use Rattle.std.specs.Prelude.{◌≡◌, false};
ghost use Rattle.recovery.specs.Open.{has_failed};

use crate::rows::Step::{Ack, Submit, Turn, Wide};
use crate::rows::{Gives, Row, SHAPE, runs, stops};
use disk::{Disk, FaultDisk, FaultPlan, Left, MemDisk};
use recovery::{Pick, Store};
use refusal::Refusal;
use revision::Reply::{Again, Taken};
use revision::{Name, State};
use std::process::Abort;
use std::sync::Wait;
use test_fixtures::{device_of, new_device, open_store};

/// What a stop leaves of the ranges that were written since the last sync, and whether a gate that was being opened then stands open.
const LEFT: [(Left, bool); 6] = [
    (Left::Nothing, false),
    (Left::All, true),
    (Left::FirstHalf, false),
    (Left::Byte(0x00), false),
    (Left::Byte(0xa5), true),
    (Left::Byte(0xff), false),
];

/// The first slot has the create, and the second one an edit that fills it; then comes another such edit.
const EDITS: [Row; 9] = [
    (Submit(1), Gives::Ordered(0, Taken { rev: 1 }, 1)),
    (Turn, Gives::Settled(1)),
    (Ack(0), Gives::Acked(1)),
    (Wide(2), Gives::Ordered(1, Taken { rev: 2 }, 2)),
    (Turn, Gives::Settled(1)),
    (Ack(1), Gives::Acked(2)),
    (Wide(3), Gives::Ordered(2, Taken { rev: 3 }, 3)),
    (Turn, Gives::Settled(1)),
    (Ack(2), Gives::Acked(3)),
];

/// The third edit is sent again, where it wasn't found, and then comes a fourth.
const TAKEN_ANEW: [Row; 6] = [
    (Wide(3), Gives::Ordered(0, Taken { rev: 3 }, 1)),
    (Turn, Gives::Settled(1)),
    (Ack(0), Gives::Acked(1)),
    (Wide(4), Gives::Ordered(1, Taken { rev: 4 }, 2)),
    (Turn, Gives::Settled(1)),
    (Ack(1), Gives::Acked(2)),
];

/// The same, where it was found.
const FOUND: [Row; 6] = [
    (Wide(3), Gives::Ordered(0, Again { rev: 3 }, 0)),
    (Turn, Gives::Settled(0)),
    (Ack(0), Gives::Acked(0)),
    (Wide(4), Gives::Ordered(1, Taken { rev: 4 }, 1)),
    (Turn, Gives::Settled(1)),
    (Ack(1), Gives::Acked(1)),
];

fn is_byte<R: Abort>(rt: &R, bytes: &[u8], at: usize, byte: u8) {
    assert!(rt; at < bytes.len());
    assert_eq!(rt; bytes[at], byte);
}

// The newest revision of the one document. Each revision is an edit of its source that stands there once: its last number is the
// revision, and its text is the one that it was created with.
fn newest(rt: &(impl Abort + AllocGlobal), state: &State) -> u64 {
    assert!(rt; state.documents().len() == 1);
    let document = &state.documents()[0];
    let source = Name::source(rt.alloc(), "a").expect(rt, "a source");
    assert!(rt; document.window(&source).number() == document.revision());
    assert!(rt; document.document().len16() == 1);
    document.revision()
}

// The store of a device by a pick, whose one document stands at this revision.
fn found(rt: &(impl Abort + AllocGlobal), bytes: &[u8], pick: Pick, revision: u64) -> Store<MemDisk>
    ensures { has_failed result ≡ false }
{
    let disk = device_of(rt.alloc(), bytes).expect(rt, "memory");
    let store = open_store(rt.alloc(), disk, pick).expect(rt, "a store");
    assert!(rt; newest(rt, store.state()) == revision);
    store
}

// The edits up to a row, on a device of these bytes: the device then.
fn edited(rt: &(impl Wait + Abort + AllocGlobal), bytes: &[u8], rows: &[Row]) -> MemDisk {
    let disk = device_of(rt.alloc(), bytes).expect(rt, "memory");
    let store = open_store(rt.alloc(), disk, Pick::Newer).expect(rt, "a store");
    runs(rt, store, rows)
}

// By a pick a device has these edits, each once, and a run continues from there.
fn goes_on(rt: &(impl Wait + Abort + AllocGlobal), bytes: &[u8], pick: Pick, revision: u64) {
    let rows = if revision == 3 { &FOUND } else { &TAKEN_ANEW };
    let store = found(rt, bytes, pick, revision);
    let disk = runs(rt, store, rows);
    let _ = found(rt, disk.bytes(), Pick::Newer, 4);
}

// A stop at a call of the third edit's turn leaves the two edits that were acknowledged, or these and the third.
fn is_stopped(
    rt: &(impl Wait + Abort + AllocGlobal),
    bytes: &[u8],
    plan: FaultPlan,
    revision: u64,
) {
    let disk = device_of(rt.alloc(), bytes).expect(rt, "memory");
    let disk = FaultDisk::new(disk, plan);
    let store = open_store(rt.alloc(), disk, Pick::Newer).expect(rt, "a store");
    let disk = stops(rt, store, &EDITS, 7, Some(Refusal::Fault));
    assert!(rt; disk.has_stopped());
    let after = disk.after_crash(rt.alloc()).expect(rt, "memory");
    goes_on(rt, after.bytes(), Pick::Newer, revision);
    goes_on(rt, after.bytes(), Pick::Older, revision);
}

#[test]
fn three_calls_of_one_thread_are_a_run(rt: HostRuntime) {
    let device = new_device(rt.alloc(), SHAPE).expect(&rt, "a device");
    let first = EDITS.get(..3).expect(&rt, "three rows");
    let disk = edited(&rt, device.bytes(), first);
    let _ = found(&rt, disk.bytes(), Pick::Newer, 1);
}

// Both cells and both slots are open then, and slot 0 has the third segment. The third edit's turn makes 18 calls: a milestone is put into
// each of the document's cells (four calls each: no cell is to be closed before), the first slot is closed (two) and opened again (four), and
// the record is appended (four). The last two open the record's gate, and where it stands open the third edit is there.
#[test]
fn a_full_journal_is_freed_for_the_next_batch(rt: HostRuntime) {
    let device = new_device(rt.alloc(), SHAPE).expect(&rt, "a device");
    let before = EDITS.get(..6).expect(&rt, "six rows");
    let first = edited(&rt, device.bytes(), before).calls().len() as u64;
    let disk = edited(&rt, device.bytes(), &EDITS);
    assert_eq!(rt; disk.calls().len() as u64, first.saturating_add(18));
    for at in &[64, 320, 1_088, 1_344] {
        is_byte(&rt, disk.bytes(), *at, 0xa5);
    }
    is_byte(&rt, disk.bytes(), 1_089, 3);
    let _ = found(&rt, disk.bytes(), Pick::Newer, 3);
    let _ = found(&rt, disk.bytes(), Pick::Older, 3);
    for call in 0..18 {
        for (left, opens) in &LEFT {
            let revision = if call >= 16 && *opens { 3 } else { 2 };
            let plan = FaultPlan::stop(first.saturating_add(call), *left);
            is_stopped(&rt, device.bytes(), plan, revision);
        }
    }
}
