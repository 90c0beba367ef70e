//! A migration that stops or fails at each call of the new device, and that fails at each call of the old one.
use crate::old::{LEN, device_of, old_bytes, opened, with_bytes_at};
use crate::rows::has_both;
use disk::{Disk, FaultDisk, FaultPlan, Left};
use migration::migrate;
use recovery::Pick;
use refusal::Refusal;
use std::process::Abort;

/// What is left of the range that is open.
const LEFT: [Left; 6] = [
    Left::Nothing,
    Left::All,
    Left::FirstHalf,
    Left::Byte(0x00),
    Left::Byte(0xa5),
    Left::Byte(0xff),
];

// A device that isn't formatted, where all else looks like open gates.
fn filled(rt: &(impl Abort + AllocGlobal)) -> Vec<u8> {
    with_bytes_at(rt, &[0xa5; LEN], 0, &[0])
}

// A device has no store, or both documents by either pick.
fn has_none_or_both(rt: &(impl Abort + AllocGlobal), bytes: &[u8]) {
    for pick in [Pick::Newer, Pick::Older] {
        match opened(rt, bytes, pick) {
            Ok(store) => has_both(rt, &store),
            Err(fault) => assert_eq!(rt; fault.refusal, Refusal::NotFormatted),
        }
    }
}

// How many calls of the new device it takes.
fn calls(rt: &(impl Abort + AllocGlobal)) -> u64 {
    let mut old = device_of(rt, &old_bytes(rt));
    let mut new = device_of(rt, &filled(rt));
    assert_eq!(rt; migrate(rt.alloc(), &mut old, &mut new), Ok(()));
    new.calls().len() as u64
}

#[test]
fn each_call_of_the_new_device_stops(rt: HostRuntime) {
    for call in 0..calls(&rt) {
        for left in LEFT {
            let mut old = device_of(&rt, &old_bytes(&rt));
            let plan = FaultPlan::stop(call, left);
            let mut new = FaultDisk::new(device_of(&rt, &filled(&rt)), plan);
            let refused = migrate(rt.alloc(), &mut old, &mut new);
            assert_eq!(&rt; refused, Err(Refusal::Fault), "{call}");
            let after = new.after_crash(rt.alloc()).expect(&rt, "memory");
            has_none_or_both(&rt, after.bytes());
        }
    }
}

#[test]
fn each_call_of_the_new_device_fails(rt: HostRuntime) {
    for call in 0..calls(&rt) {
        for left in LEFT {
            let mut old = device_of(&rt, &old_bytes(&rt));
            let plan = FaultPlan::fail(call, left);
            let mut new = FaultDisk::new(device_of(&rt, &filled(&rt)), plan);
            let refused = migrate(rt.alloc(), &mut old, &mut new);
            assert_eq!(&rt; refused, Err(Refusal::Fault), "{call}");
            has_none_or_both(&rt, new.disk().bytes());
        }
    }
}

// How many calls of the old device it takes.
fn calls_of_the_old(rt: &(impl Abort + AllocGlobal)) -> u64 {
    let mut old = device_of(rt, &old_bytes(rt));
    let mut new = device_of(rt, &filled(rt));
    assert_eq!(rt; migrate(rt.alloc(), &mut old, &mut new), Ok(()));
    old.calls().len() as u64
}

// It ends there, the old device stays, and the new one has seen no call.
fn ends_at_the_old_device(rt: &(impl Abort + AllocGlobal), plan: FaultPlan) {
    let bytes = old_bytes(rt);
    let mut old = FaultDisk::new(device_of(rt, &bytes), plan);
    let mut new = device_of(rt, &filled(rt));
    let refused = migrate(rt.alloc(), &mut old, &mut new);
    assert_eq!(rt; refused, Err(Refusal::Fault));
    assert!(rt; old.disk().bytes() == bytes.as_slice() && new.calls().is_empty());
}

#[test]
fn each_call_of_the_old_device_fails_or_stops(rt: HostRuntime) {
    let calls = calls_of_the_old(&rt);
    assert!(&rt; calls > 0);
    for call in 0..calls {
        ends_at_the_old_device(&rt, FaultPlan::fail(call, Left::Nothing));
        ends_at_the_old_device(&rt, FaultPlan::stop(call, Left::Nothing));
    }
}
