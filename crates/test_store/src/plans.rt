//! Devices that fail or stop where a plan says.
use crate::devices::try_out;
use crate::stores::are_bytes;
use disk::{Disk, FaultDisk, FaultPlan, Left, MemDisk};
use std::process::Abort;

/// What is left of a write of `abcd` over `1234`.
const CHOICES: [(Left, &[u8; 4]); 6] = [
    (Left::Nothing, b"1234"),
    (Left::All, b"abcd"),
    (Left::FirstHalf, b"ab34"),
    (Left::Byte(0x00), b"\x00\x00\x00\x00"),
    (Left::Byte(0xa5), b"\xa5\xa5\xa5\xa5"),
    (Left::Byte(0xff), b"\xff\xff\xff\xff"),
];

/// A device of the four bytes `1234` under a plan.
fn under_plan(rt: &(impl Abort + AllocGlobal), plan: FaultPlan) -> FaultDisk {
    let bytes = b"1234".to_vec(rt.alloc()).expect(rt, "memory");
    FaultDisk::new(MemDisk::holding(rt.alloc(), bytes), plan)
}

#[test]
fn a_plan_that_never_comes_changes_nothing(rt: HostRuntime) {
    let disk = MemDisk::new(rt.alloc(), 8).expect(&rt, "memory");
    let mut disk = FaultDisk::new(disk, FaultPlan::stop(5, Left::Nothing));
    try_out(&rt, &mut disk);
    assert!(rt; !disk.has_stopped());
    assert!(rt; disk.sync().is_err());
    assert!(rt; disk.has_stopped());
}

// Whether a write to a device of four bytes went well.
fn is_written(rt: &impl Abort, disk: &mut FaultDisk, at: u64, bytes: &[u8]) -> bool {
    assert!(rt; disk.len() == 4 && at <= 2 && (bytes.len() <= 2 || at == 0 && bytes.len() <= 4));
    disk.write_at(at, bytes).is_ok()
}

// Whether a read of its four bytes went well. Then they are as they are wanted.
fn is_read(rt: &impl Abort, disk: &mut FaultDisk, wanted: &[u8]) -> bool {
    assert_eq!(rt; disk.len(), 4);
    let mut bytes = [0; 4];
    let is_read = disk.read(0, &mut bytes).is_ok();
    if is_read {
        are_bytes(rt, &bytes, wanted);
    }
    is_read
}

// A crash leaves these bytes, and no call.
fn is_left(rt: &(impl Abort + AllocGlobal), disk: &FaultDisk, wanted: &[u8]) {
    let after = disk.after_crash(rt.alloc()).expect(rt, "memory");
    are_bytes(rt, after.bytes(), wanted);
    assert_eq!(rt; after.calls().len(), 0);
}

/// The second call, a write, fails and leaves this.
fn a_failed_write_leaves(rt: &(impl Abort + AllocGlobal), left: Left, expected: &[u8; 4]) {
    let mut disk = under_plan(rt, FaultPlan::fail(1, left));
    disk.sync().expect(rt, "a sync");
    assert!(rt; !is_written(rt, &mut disk, 0, b"abcd"));
    assert_eq!(rt; disk.failures(), 1);
    assert!(rt; is_read(rt, &mut disk, expected));
    disk.sync().expect(rt, "a sync");
}

#[test]
fn a_write_that_fails_leaves_what_was_chosen(rt: HostRuntime) {
    for (left, expected) in &CHOICES {
        a_failed_write_leaves(&rt, *left, *expected);
    }
}

/// A stop at call 1, the write, or at call 2, the sync behind it, leaves this.
fn a_stop_leaves(rt: &(impl Abort + AllocGlobal), call: u64, left: Left, expected: &[u8; 4]) {
    let mut disk = under_plan(rt, FaultPlan::stop(call, left));
    disk.sync().expect(rt, "a sync");
    let is_there = is_written(rt, &mut disk, 0, b"abcd");
    let is_synced = disk.sync().is_ok();
    let is_read = is_read(rt, &mut disk, expected);
    assert!(rt; is_there == (call == 2) && !is_synced && !is_read);
    assert_eq!(rt; disk.failures(), if call == 2 { 2 } else { 3 });
    is_left(rt, &disk, expected);
}

#[test]
fn a_stop_leaves_what_was_chosen(rt: HostRuntime) {
    for (left, expected) in &CHOICES {
        a_stop_leaves(&rt, 1, *left, *expected);
        a_stop_leaves(&rt, 2, *left, *expected);
    }
}

#[test]
fn a_stop_leaves_what_was_synced(rt: HostRuntime) {
    let mut disk = under_plan(&rt, FaultPlan::stop(4, Left::Nothing));
    assert!(rt; is_written(&rt, &mut disk, 0, b"ab"));
    disk.sync().expect(&rt, "a sync");
    assert!(rt; is_written(&rt, &mut disk, 1, b"xy"));
    assert!(rt; is_written(&rt, &mut disk, 2, b"uv"));
    assert!(rt; disk.sync().is_err());
    is_left(&rt, &disk, b"ab34");
}
