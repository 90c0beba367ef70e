//! Each script is stopped at each call of its device.
use crate::going_on::{Differs, each_goes_on, is_good, is_whole};
use crate::runs::{FIRST, NEVER, device_of, formatted, opened, run};
use crate::scripts::{
    DELETED, DELETED_BY_TURNS, FULL_JOURNAL, MILESTONES, RICH_TEXT, Script, THIRD_BATCH,
};
use disk::{Call, FaultDisk, FaultPlan, Left, MemDisk};
use recovery::Pick;
use std::process::Abort;
use std::sync::Wait;

/// What is left of the range that is open.
pub const LEFT: [Left; 6] = [
    Left::Nothing,
    Left::All,
    Left::FirstHalf,
    Left::Byte(0x00),
    Left::Byte(0xa5),
    Left::Byte(0xff),
];

/// What stood on each device before it was formatted: what looks like open gates.
pub const FILL: u8 = 0xa5;

// How many calls it takes to open a device of these bytes.
fn calls_of_opening(rt: &(impl Abort + AllocGlobal), bytes: &[u8]) -> u64 {
    match opened(rt, device_of(rt, bytes, NEVER), Pick::Newer) {
        Ok(store) => store.close().disk().calls().len() as u64,
        Err(fault) => panic!(rt; "{}", fault.refusal),
    }
}

/// The device after a script in which nothing goes wrong, with the calls that it made: those that open it, and then those of the steps.
pub fn device_after(
    rt: &(impl Wait + Abort + AllocGlobal),
    script: &Script,
    bytes: &[u8],
) -> FaultDisk {
    let ended = run(rt, script, device_of(rt, bytes, NEVER), Pick::Newer, FIRST);
    assert_eq!(rt; ended.stopped, None, "{}", script.name);
    let disk = ended.disk;
    let calls = calls_of_opening(rt, bytes).saturating_add(script.calls);
    assert_eq!(rt; disk.disk().calls().len() as u64, calls, "{}", script.name);
    is_good(rt, script, NEVER, is_whole(rt, script, disk.disk().bytes()));
    disk
}

// How many ranges are open.
fn open_ranges(disk: &MemDisk) -> usize {
    let mut open = 0_usize;
    for call in disk.calls() {
        match call {
            Call::Read { .. } => {}
            Call::Write { .. } => open = open.saturating_add(1),
            Call::Sync => open = 0,
        }
    }
    open
}

// A script is stopped at a call, which leaves this of the range that is open; at most one is, so there are no mixtures. By each pick the run
// continues from there. A call after the last one stops nothing.
fn is_stopped(
    rt: &(impl Wait + Abort + AllocGlobal),
    script: &Script,
    bytes: &[u8],
    plan: FaultPlan,
) -> Result<(), Differs> {
    let ended = run(rt, script, device_of(rt, bytes, plan), Pick::Newer, FIRST);
    if ended.disk.has_stopped() != (ended.stopped == Some("Fault")) {
        return Err((Pick::Newer, "another refusal"));
    }
    if open_ranges(ended.disk.disk()) > 1 {
        return Err((Pick::Newer, "two open ranges"));
    }
    let after = ended.disk.after_crash(rt.alloc()).expect(rt, "memory");
    each_goes_on(rt, script, after.bytes(), ended.done)
}

// A script is stopped at each call of its steps and after the last one, in each way.
fn is_stopped_everywhere(rt: &(impl Wait + Abort + AllocGlobal), script: &Script) {
    let bytes = formatted(rt, FILL);
    let calls = device_after(rt, script, &bytes).disk().calls().len() as u64;
    for call in calls.saturating_sub(script.calls)..=calls {
        for left in LEFT {
            let plan = FaultPlan::stop(call, left);
            is_good(rt, script, plan, is_stopped(rt, script, &bytes, plan));
        }
    }
}

#[test]
fn the_third_batch_is_stopped(rt: HostRuntime) {
    is_stopped_everywhere(&rt, &THIRD_BATCH);
}

#[test]
fn milestones_are_stopped(rt: HostRuntime) {
    is_stopped_everywhere(&rt, &MILESTONES);
}

#[test]
fn a_deletion_is_stopped(rt: HostRuntime) {
    is_stopped_everywhere(&rt, &DELETED);
}

#[test]
fn a_deletion_by_turns_is_stopped(rt: HostRuntime) {
    is_stopped_everywhere(&rt, &DELETED_BY_TURNS);
}

#[test]
fn rich_text_is_stopped(rt: HostRuntime) {
    is_stopped_everywhere(&rt, &RICH_TEXT);
}

#[test]
fn a_full_journal_is_stopped(rt: HostRuntime) {
    is_stopped_everywhere(&rt, &FULL_JOURNAL);
}
