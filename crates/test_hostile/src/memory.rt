//! Each script once, as it is: where a request for memory is refused within, what was asked is asked again.
//!
//! The gate refuses no request. docs/TESTS.md says how one is refused.
use crate::going_on::{Differs, goes_on, is_good, is_whole};
use crate::runs::{FIRST, NEVER, device_of, formatted, run};
use crate::scripts::{
    DELETED, DELETED_BY_TURNS, FULL_JOURNAL, MILESTONES, RICH_TEXT, Script, THIRD_BATCH,
};
use crate::stops::FILL;
use recovery::Pick;
use std::process::Abort;
use std::sync::Wait;

const SCRIPTS: [Script; 6] = [
    THIRD_BATCH,
    MILESTONES,
    DELETED,
    DELETED_BY_TURNS,
    RICH_TEXT,
    FULL_JOURNAL,
];

// A script comes to its end. Where memory is wanted for the start of a hub, or for the record that the device keeps of its calls, it continues from
// the last command that was sent.
fn ends(rt: &(impl Wait + Abort + AllocGlobal), script: &Script) -> Result<(), Differs> {
    let bytes = formatted(rt, FILL);
    let ended = run(rt, script, device_of(rt, &bytes, NEVER), Pick::Newer, FIRST);
    match ended.stopped {
        None => is_whole(rt, script, ended.disk.disk().bytes()),
        Some("Fault") | Some("NoMemory") => {
            goes_on(rt, script, ended.disk, ended.done, Pick::Newer)
        }
        Some(other) => Err((Pick::Newer, other)),
    }
}

#[test]
fn what_finds_no_memory_is_asked_again(rt: HostRuntime) {
    for script in &SCRIPTS {
        is_good(&rt, script, NEVER, ends(&rt, script));
    }
}
