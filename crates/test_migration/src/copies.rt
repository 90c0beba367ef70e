//! What a store is copied to, and which copies are refused.
use crate::old::{device_of, old_bytes, opened, with_bytes_at};
use crate::stores::{Ask, LARGER, SHAPE, command, is_same, store_bytes, takes};
use disk::{FaultDisk, FaultPlan, Left, MemDisk};
use migration::{CopyOutcome, Numbered, copy, shape_of};
use recovery::{Pick, Shape, Store};
use refusal::Refusal;
use revision::{Plan, State};
use std::process::Abort;

/// How many bytes a store of the larger numbers has.
const LARGER_LEN: usize = 212_416;

/// The store's numbers with the shortest journal: 5,976 bytes.
const SHORT: Shape = Shape {
    slots: 2,
    slot: 256,
    keep: 1,
    ..SHAPE
};

const SHORT_LEN: usize = 5_976;

// What is left of the range that is open.
const LEFT: [Left; 4] = [Left::Nothing, Left::All, Left::Byte(0xa5), Left::FirstHalf];

// A device that isn't formatted, where all else looks like open gates.
fn unformatted(rt: &(impl Abort + AllocGlobal), len: usize) -> Vec<u8> {
    let mut bytes = vec![in rt.alloc(); 0xa5u8; len].expect(rt, "memory");
    if let Some(gate) = bytes.first_mut() {
        *gate = 0;
    }
    bytes
}

// A copy of a device of these bytes ends so, and leaves the old device alone.
fn copies(
    rt: &(impl Abort + AllocGlobal),
    bytes: &[u8],
    new: &mut MemDisk,
    shape: Shape,
    wanted: Result<(), Refusal>,
) {
    let CopyOutcome { old, made } = copy(rt.alloc(), device_of(rt, bytes), new, shape);
    assert_eq!(rt; made, wanted);
    assert!(rt; old.bytes() == bytes);
}

// The store that is copied.
fn original(rt: &(impl Abort + AllocGlobal)) -> Store<MemDisk> {
    let store = opened(rt, &store_bytes(rt), Pick::Newer);
    store.ok().expect(rt, "the old store")
}

// A device holds these documents, by either pick.
fn has_all(rt: &(impl Abort + AllocGlobal), bytes: &[u8], wanted: &State) {
    for pick in [Pick::Newer, Pick::Older] {
        let store = opened(rt, bytes, pick).ok().expect(rt, "a store");
        is_same(rt, store.state(), wanted);
    }
}

// What a command is answered: whether it was taken before, and as which revision.
fn is_answered(
    rt: &(impl Abort + AllocGlobal),
    state: &State,
    asked: (&str, &str, u64, Ask),
    wanted: Result<(bool, u64), Refusal>,
) {
    let (doc, source, number, ask) = asked;
    let command = command(rt, doc, source, number, ask);
    let found = match state.plan(rt.alloc(), &command) {
        Ok(Plan::Taken(taken)) => Ok((false, taken.revision())),
        Ok(Plan::Again { rev }) => Ok((true, rev)),
        Err(refusal) => Err(refusal),
    };
    assert!(rt; found == wanted, "{doc} {number}");
}

// What the sources are answered behind the copy: each of the last 16 numbers is a retry, the one before isn't held, and the next is taken.
fn goes_on(rt: &(impl Abort + AllocGlobal), store: &mut Store<MemDisk>) {
    let edit = Ask::Edit { base: 33 };
    for number in 2..=17 {
        is_answered(
            rt,
            store.state(),
            ("d", "a", number, edit),
            Ok((true, number)),
        );
    }
    let state = store.state();
    is_answered(rt, state, ("d", "a", 1, edit), Err(Refusal::OldNumber));
    is_answered(rt, state, ("d", "a", 18, edit), Ok((false, 34)));
    is_answered(rt, state, ("d", "a", 19, edit), Err(Refusal::Gap));
    is_answered(rt, state, ("d", "b", 16, edit), Ok((true, 33)));
    is_answered(rt, state, ("d", "b", 1, edit), Ok((true, 18)));
    is_answered(rt, state, ("d", "b", 17, edit), Ok((false, 34)));
    is_answered(rt, state, ("e", "b", 3, edit), Err(Refusal::Deleted));
    is_answered(rt, state, ("e", "b", 3, Ask::Create), Ok((false, 3)));
    is_answered(rt, state, ("f", "b", 2, Ask::Delete), Ok((true, 2)));
    takes(rt, store, &command(rt, "d", "a", 18, edit));
    takes(rt, store, &command(rt, "g", "c", 1, Ask::Create));
}

#[test]
fn a_store_is_copied_to_four_times_its_numbers(rt: HostRuntime) {
    let bytes = store_bytes(&rt);
    let mut new = device_of(&rt, &unformatted(&rt, LARGER_LEN));
    copies(&rt, &bytes, &mut new, LARGER, Ok(()));
    has_all(&rt, new.bytes(), original(&rt).state());
    let mut store = opened(&rt, new.bytes(), Pick::Newer)
        .ok()
        .expect(&rt, "a store");
    goes_on(&rt, &mut store);
    // The numbers of a store are those that it was made with.
    for (bytes, shape) in [(bytes.as_slice(), SHAPE), (new.bytes(), LARGER)] {
        let Numbered { shape: found, .. } = shape_of(rt.alloc(), device_of(&rt, bytes));
        assert!(&rt; found == Ok(shape));
    }
}

// The journal and the revisions that are held may have any numbers, as the store's own.
#[test]
fn a_store_is_copied_to_a_smaller_journal(rt: HostRuntime) {
    let bytes = store_bytes(&rt);
    for shape in [SHAPE, SHORT] {
        let mut new = device_of(&rt, &unformatted(&rt, LARGER_LEN));
        copies(&rt, &bytes, &mut new, shape, Ok(()));
        has_all(&rt, new.bytes(), original(&rt).state());
    }
}

// A device that isn't formatted is refused with this, and stays; a formatted one, and what is wrong with the old store, are told of first.
fn is_too_small(rt: &(impl Abort + AllocGlobal), shape: Shape) {
    let bytes = store_bytes(rt);
    let before = unformatted(rt, LARGER_LEN);
    let mut new = device_of(rt, &before);
    copies(rt, &bytes, &mut new, shape, Err(Refusal::BadShape));
    assert!(rt; new.bytes() == before.as_slice());
    let mut there = device_of(rt, &bytes);
    let formatted = Err(Refusal::AlreadyFormatted);
    copies(rt, &bytes, &mut there, shape, formatted);
    assert!(rt; there.bytes() == bytes.as_slice());
    let mut new = device_of(rt, &before);
    let old = old_bytes(rt);
    copies(rt, &old, &mut new, shape, Err(Refusal::OldFormat));
    assert!(rt; new.calls().is_empty());
}

#[test]
fn other_numbers_are_refused(rt: HostRuntime) {
    is_too_small(&rt, Shape { docs: 2, ..LARGER });
    is_too_small(
        &rt,
        Shape {
            cell: 899,
            ..LARGER
        },
    );
    is_too_small(
        &rt,
        Shape {
            sources: 1,
            ..LARGER
        },
    );
    is_too_small(&rt, Shape { slots: 1, ..LARGER });
    is_too_small(&rt, Shape { slots: 9, ..LARGER });
    is_too_small(&rt, Shape { keep: 0, ..LARGER });
}

#[test]
fn other_old_devices_are_refused(rt: HostRuntime) {
    let bytes = store_bytes(&rt);
    for (place, byte, wanted) in [
        (0, 0x3c, Refusal::NotFormatted),
        (8, b'1', Refusal::OldFormat),
        (8, b'3', Refusal::Damaged),
        (9, 0, Refusal::Damaged),
    ] {
        let changed = with_bytes_at(&rt, &bytes, place, &[byte]);
        let mut new = device_of(&rt, &unformatted(&rt, LARGER_LEN));
        copies(&rt, &changed, &mut new, LARGER, Err(wanted));
        assert!(&rt; new.calls().is_empty());
        let Numbered { shape, .. } = shape_of(rt.alloc(), device_of(&rt, &changed));
        assert!(&rt; shape == Err(wanted));
    }
}

// A device has no store, or these documents by either pick.
fn has_none_or_all(rt: &(impl Abort + AllocGlobal), bytes: &[u8], wanted: &State) {
    match opened(rt, bytes, Pick::Newer) {
        Ok(_) => has_all(rt, bytes, wanted),
        Err(fault) => assert_eq!(rt; fault.refusal, Refusal::NotFormatted),
    }
}

// How many calls a copy makes of the old device, and of the new one.
fn calls(rt: &(impl Abort + AllocGlobal), bytes: &[u8]) -> (u64, u64) {
    let mut new = device_of(rt, &unformatted(rt, SHORT_LEN));
    let CopyOutcome { old, made } = copy(rt.alloc(), device_of(rt, bytes), &mut new, SHORT);
    assert_eq!(rt; made, Ok(()));
    (old.calls().len() as u64, new.calls().len() as u64)
}

// A copy whose new device keeps to a plan, and ends by it.
fn copied(rt: &(impl Abort + AllocGlobal), bytes: &[u8], plan: FaultPlan) -> FaultDisk {
    let mut new = FaultDisk::new(device_of(rt, &unformatted(rt, SHORT_LEN)), plan);
    let made = copy(rt.alloc(), device_of(rt, bytes), &mut new, SHORT).made;
    assert_eq!(rt; made, Err(Refusal::Fault));
    new
}

// It stops at a call, or fails there.
fn ends_at(rt: &(impl Abort + AllocGlobal), bytes: &[u8], call: u64, wanted: &State) {
    for left in LEFT {
        let stopped = copied(rt, bytes, FaultPlan::stop(call, left));
        let after = stopped.after_crash(rt.alloc()).expect(rt, "memory");
        has_none_or_all(rt, after.bytes(), wanted);
        let failed = copied(rt, bytes, FaultPlan::fail(call, left));
        has_none_or_all(rt, failed.disk().bytes(), wanted);
    }
}

#[test]
fn each_call_of_a_copy_stops_or_fails(rt: HostRuntime) {
    let bytes = store_bytes(&rt);
    let old = original(&rt);
    for call in 0..calls(&rt, &bytes).1 {
        ends_at(&rt, &bytes, call, old.state());
    }
}

// It ends there, the old device stays, and the new one has seen no call.
fn ends_at_the_old(rt: &(impl Abort + AllocGlobal), bytes: &[u8], plan: FaultPlan) {
    let old = FaultDisk::new(device_of(rt, bytes), plan);
    let mut new = device_of(rt, &unformatted(rt, SHORT_LEN));
    let CopyOutcome { old, made } = copy(rt.alloc(), old, &mut new, SHORT);
    assert_eq!(rt; made, Err(Refusal::Fault));
    assert!(rt; old.disk().bytes() == bytes && new.calls().is_empty());
}

#[test]
fn each_call_of_the_copied_device_stops_or_fails(rt: HostRuntime) {
    let bytes = store_bytes(&rt);
    let calls = calls(&rt, &bytes).0;
    assert!(&rt; calls > 0);
    for call in 0..calls {
        ends_at_the_old(&rt, &bytes, FaultPlan::stop(call, Left::Nothing));
        ends_at_the_old(&rt, &bytes, FaultPlan::fail(call, Left::Nothing));
    }
}
