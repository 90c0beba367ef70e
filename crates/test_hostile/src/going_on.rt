//! What a device holds that a stop or a fault has left, and how a run continues from there.
use crate::runs::{Begin, NEVER, commands_in, device_of, opened, run};
use crate::scripts::{Script, Step};
use algebra::write_delta;
use disk::{Disk, FaultDisk, FaultPlan};
use recovery::{Pick, Store};
use refusal::Refusal;
use revision::{DocState, Name, State};
use std::alloc::Global;
use std::process::Abort;
use std::sync::Wait;

pub const PICKS: [Pick; 2] = [Pick::Newer, Pick::Older];

/// What differs, and by which pick.
pub type Differs = (Pick, &'static str);

// A document as its name, its revision and its operations, or that it is deleted, and the window of the source "a": its last number, and the
// revisions.
fn line_of(alloc: Global, record: &DocState) -> Result<String, Refusal> {
    let name = record.name().as_str();
    let revision = record.revision();
    let text = if record.is_live() {
        write_delta(alloc, &record.document().as_delta(alloc)?)?
    } else {
        String::from_str(alloc, "deleted")?
    };
    let window = record.window(&Name::source(alloc, "a")?);
    let number = window.number();
    let mut line = format!(in alloc; "{name} {revision} {text} {number}")?;
    for made in window.revisions() {
        line.push_str(format!(in alloc; " {made}")?.as_str())?;
    }
    Ok(line)
}

// All documents of a state.
fn lines_of(alloc: Global, state: &State) -> Result<String, Refusal> {
    let mut lines = String::new(alloc);
    for record in state.documents() {
        lines.push_str(line_of(alloc, record)?.as_str())?;
    }
    Ok(lines)
}

/// What bytes are opened as by a pick: the documents.
pub fn read(rt: &(impl Abort + AllocGlobal), bytes: &[u8], pick: Pick) -> Result<String, Refusal> {
    match opened(rt, device_of(rt, bytes, NEVER), pick) {
        Ok(store) => lines_of(rt.alloc(), store.state()),
        Err(fault) => Err(fault.refusal),
    }
}

/// The same. It is asked once more where memory was wanted, for the device's own record of its calls too.
pub fn found(rt: &(impl Abort + AllocGlobal), bytes: &[u8], pick: Pick) -> String {
    match read(rt, bytes, pick) {
        Ok(text) => text,
        Err(_) => read(rt, bytes, pick).expect(rt, "documents"),
    }
}

// How many commands the first steps have.
fn commands_before(script: &Script, count: usize) -> usize {
    let mut commands = 0_usize;
    for (at, step) in script.steps.iter().enumerate() {
        if at < count && commands_in(step) == 1 {
            commands = commands.saturating_add(1);
        }
    }
    commands
}

// The last command that was sent where so many steps were answered and the next one was asked.
fn last_sent(script: &Script, done: usize) -> usize {
    let mut last = 0;
    for (at, step) in script.steps.iter().enumerate() {
        if at <= done && commands_in(step) == 1 {
            last = at;
        }
    }
    last
}

/// Whether a text is the documents after so many commands.
pub fn is_after(script: &Script, commands: usize, text: &str) -> bool {
    match script.documents.get(commands) {
        Some(wanted) => *wanted == text,
        None => false,
    }
}

// Whether each gate stands as it does in the end.
fn has_gates(script: &Script, bytes: &[u8]) -> bool {
    for (place, is_open) in script.gates {
        match bytes.get(*place) {
            Some(byte) if (*byte == 0xa5) == *is_open => {}
            _ => return false,
        }
    }
    true
}

/// Bytes are those of a whole script, by both picks.
pub fn is_whole(
    rt: &(impl Abort + AllocGlobal),
    script: &Script,
    bytes: &[u8],
) -> Result<(), Differs> {
    let last = script.documents.len().saturating_sub(1);
    for pick in PICKS {
        if !is_after(script, last, found(rt, bytes, pick).as_str()) {
            return Err((pick, "another state in the end"));
        }
        if !has_gates(script, bytes) {
            return Err((pick, "another gate in the end"));
        }
    }
    Ok(())
}

/// So many steps were answered, and the next one was asked. By a pick a device holds what the answered ones made, or with the next one; and
/// when the last command is sent again, the script runs from there to its end.
pub fn goes_on(
    rt: &(impl Wait + Abort + AllocGlobal),
    script: &Script,
    disk: FaultDisk,
    done: usize,
    pick: Pick,
) -> Result<(), Differs> {
    let text = found(rt, disk.disk().bytes(), pick);
    let kept = commands_before(script, done);
    let sent = commands_before(script, done.saturating_add(1));
    if !is_after(script, kept, text.as_str()) && !is_after(script, sent, text.as_str()) {
        return Err((pick, "another state"));
    }
    let begin = Begin {
        from: last_sent(script, done),
        is_again: true,
    };
    let ended = run(rt, script, disk, pick, begin);
    match ended.stopped {
        Some(stop) => Err((pick, stop)),
        None => is_whole(rt, script, ended.disk.disk().bytes()),
    }
}

/// The same by each pick, of devices of these bytes.
pub fn each_goes_on(
    rt: &(impl Wait + Abort + AllocGlobal),
    script: &Script,
    bytes: &[u8],
    done: usize,
) -> Result<(), Differs> {
    for pick in PICKS {
        goes_on(rt, script, device_of(rt, bytes, NEVER), done, pick)?;
    }
    Ok(())
}

/// A script over a device that went wrong by this plan has gone as it should.
pub fn is_good(rt: &impl Abort, script: &Script, plan: FaultPlan, found: Result<(), Differs>) {
    assert_eq!(rt; found, Ok(()), "{}, {plan:?}", script.name);
}
