//! Each call of the device fails once in each script.
use crate::devices::answers;
use crate::going_on::{Differs, PICKS, each_goes_on, found, goes_on, is_after, is_good};
use crate::runs::{FIRST, NEVER, device_of, formatted, run};
use crate::scripts::{
    DELETE, DELETED, DELETED_BY_TURNS, FULL_JOURNAL, MILESTONES, RICH_TEXT, Script, THIRD_BATCH,
};
use crate::stops::{FILL, LEFT, device_after};
use disk::{Call, FaultPlan, Left};
use recovery::Pick;
use revision::Reply;
use std::process::Abort;
use std::sync::Wait;

// A call fails, and then a crash leaves this of the range that is open: a write's that fails, or that of a sync, which doesn't close it then. By
// each pick the run continues from there; where that is what is read, too, on the device itself, which is opened again.
fn is_faulty(
    rt: &(impl Wait + Abort + AllocGlobal),
    script: &Script,
    bytes: &[u8],
    plan: FaultPlan,
) -> Result<(), Differs> {
    let ended = run(rt, script, device_of(rt, bytes, plan), Pick::Newer, FIRST);
    if ended.stopped != Some("Fault") {
        return Err((Pick::Newer, "another refusal"));
    }
    let after = ended.disk.after_crash(rt.alloc()).expect(rt, "memory");
    if after.bytes() != ended.disk.disk().bytes() {
        return each_goes_on(rt, script, after.bytes(), ended.done);
    }
    let copy = device_of(rt, after.bytes(), NEVER);
    goes_on(rt, script, copy, ended.done, Pick::Older)?;
    goes_on(rt, script, ended.disk, ended.done, Pick::Newer)
}

// Each call of a script fails, those that open the device too; a write or a sync in each way.
fn is_faulty_everywhere(rt: &(impl Wait + Abort + AllocGlobal), script: &Script) {
    let bytes = formatted(rt, FILL);
    let device = device_after(rt, script, &bytes);
    for (call, made) in device.disk().calls().iter().enumerate() {
        for left in LEFT {
            let plan = FaultPlan::fail(call as u64, left);
            if left == Left::Nothing || !matches!(made, Call::Read { .. }) {
                is_good(rt, script, plan, is_faulty(rt, script, &bytes, plan));
            }
        }
    }
}

#[test]
fn the_third_batch_fails(rt: HostRuntime) {
    is_faulty_everywhere(&rt, &THIRD_BATCH);
}

#[test]
fn milestones_fail(rt: HostRuntime) {
    is_faulty_everywhere(&rt, &MILESTONES);
}

#[test]
fn a_deletion_fails(rt: HostRuntime) {
    is_faulty_everywhere(&rt, &DELETED);
}

#[test]
fn a_deletion_by_turns_fails(rt: HostRuntime) {
    is_faulty_everywhere(&rt, &DELETED_BY_TURNS);
}

#[test]
fn rich_text_fails(rt: HostRuntime) {
    is_faulty_everywhere(&rt, &RICH_TEXT);
}

#[test]
fn a_full_journal_fails(rt: HostRuntime) {
    is_faulty_everywhere(&rt, &FULL_JOURNAL);
}

/// The four calls of the third batch's commit, what a failing write leaves, what is found then, and the reply to the same command.
const COMMIT: [(u64, Left, usize, Reply); 11] = [
    (0, Left::Nothing, 2, Reply::Taken { rev: 3 }),
    (0, Left::All, 2, Reply::Taken { rev: 3 }),
    (0, Left::FirstHalf, 2, Reply::Taken { rev: 3 }),
    (0, Left::Byte(0x00), 2, Reply::Taken { rev: 3 }),
    (0, Left::Byte(0x3c), 2, Reply::Taken { rev: 3 }),
    (0, Left::Byte(0xa5), 2, Reply::Taken { rev: 3 }),
    (0, Left::Byte(0xff), 2, Reply::Taken { rev: 3 }),
    (1, Left::Nothing, 2, Reply::Taken { rev: 3 }),
    (2, Left::Byte(0x3c), 2, Reply::Taken { rev: 3 }),
    (2, Left::Byte(0xa5), 3, Reply::Again { rev: 3 }),
    (3, Left::Nothing, 3, Reply::Again { rev: 3 }),
];

// The third batch's commit fails as a row says, and the command is sent again.
fn is_row(
    rt: &(impl Wait + Abort + AllocGlobal),
    bytes: &[u8],
    calls: u64,
    row: &(u64, Left, usize, Reply),
) {
    let call = calls.saturating_sub(4).saturating_add(row.0);
    let plan = FaultPlan::fail(call, row.1);
    let ended = run(
        rt,
        &THIRD_BATCH,
        device_of(rt, bytes, plan),
        Pick::Newer,
        FIRST,
    );
    assert!(rt;
        ended.stopped == Some("Fault") && ended.done == 2,
        "call {call}"
    );
    for pick in PICKS {
        let text = found(rt, ended.disk.disk().bytes(), pick);
        assert!(rt;
            is_after(&THIRD_BATCH, row.2, text.as_str()),
            "call {call}: {text}"
        );
    }
    answers(rt, ended.disk, &[(3, 2, DELETE, Ok(row.3))]);
}

#[test]
fn a_commit_that_fails_is_found_or_not(rt: HostRuntime) {
    let bytes = formatted(&rt, FILL);
    let calls = device_after(&rt, &THIRD_BATCH, &bytes).disk().calls().len() as u64;
    for row in &COMMIT {
        is_row(&rt, &bytes, calls, row);
    }
}
