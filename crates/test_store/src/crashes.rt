//! Stores that stop or fail within a script: by either pick they are found as a prefix of it, with all that was answered with Ok.
use crate::rings::LEFT;
use crate::scripts::{Move, Script, script_device, script_of, take_move};
use crate::stopping::calls_before;
use crate::stores::{device_of, is_answer, is_text, line_of, open_by, open_store, push_text};
use disk::{Disk, FaultDisk, FaultPlan, MemDisk};
use recovery::{Pick, Store};
use refusal::Refusal;
use revision::{DocState, Name, State};
use std::process::Abort;

/// Seeds of scripts that give segments up twice, open slots again, and put milestones over open cells.
const SEEDS: [u64; 2] = [5, 6];

// The last number of a source in a document.
fn number_of(rt: &(impl Abort + AllocGlobal), record: &DocState, source: &str) -> u64 {
    let source = Name::source(rt.alloc(), source).expect(rt, "a source");
    record.window(&source).number()
}

// A document as a line of its name, its revision, its text, and the last numbers of the sources a and b.
fn numbered_line(rt: &(impl Abort + AllocGlobal), record: &DocState) -> String {
    let first = number_of(rt, record, "a");
    let second = number_of(rt, record, "b");
    let line = line_of(rt, record);
    format!(in rt.alloc(); "{line} {first} {second}\n").expect(rt, "memory")
}

// The lines of the documents of a state.
fn lines_of(rt: &(impl Abort + AllocGlobal), state: &State) -> String {
    let mut lines = String::new(rt.alloc());
    for record in state.documents() {
        push_text(rt, &mut lines, numbered_line(rt, record).as_str());
    }
    lines
}

// The plain program: the text of a document after the first moves.
fn text_after(
    rt: &(impl Abort + AllocGlobal),
    script: &Script,
    moves: usize,
    document: u8,
) -> String {
    let mut text = Vec::new(rt.alloc());
    for change in &script.changes {
        if change.at < moves && change.document == document {
            if change.replaces {
                drop(text.pop());
            }
            text.push(change.letter).expect(rt, "memory");
        }
    }
    text.reverse();
    String::from_utf8(text).expect(rt, "letters")
}

// Its revision.
fn revision_after(script: &Script, moves: usize, document: u8) -> u8 {
    let mut revision = 0;
    for change in &script.changes {
        if change.at < moves && change.document == document {
            revision = change.revision;
        }
    }
    revision
}

// The last number of a source in it.
fn number_after(script: &Script, moves: usize, document: u8, source: u8) -> u8 {
    let mut number = 0;
    for change in &script.changes {
        if change.at < moves && change.document == document && change.source == source {
            number = change.number;
        }
    }
    number
}

// Its line.
fn push_line(
    rt: &(impl Abort + AllocGlobal),
    lines: &mut String,
    script: &Script,
    moves: usize,
    document: u8,
) {
    let revision = revision_after(script, moves, document);
    let first = number_after(script, moves, document, b'a');
    let second = number_after(script, moves, document, b'b');
    if revision > 0 {
        let text = text_after(rt, script, moves, document);
        let name = char::from(b'd'.saturating_add(document));
        let line = format!(in rt.alloc(); "{name} {revision} {text} {first} {second}\n");
        push_text(rt, lines, line.expect(rt, "memory").as_str());
    }
}

// The lines of all documents after the first moves.
fn lines_after(rt: &(impl Abort + AllocGlobal), script: &Script, moves: usize) -> String {
    let mut lines = String::new(rt.alloc());
    for document in 0..3 {
        push_line(rt, &mut lines, script, moves, document);
    }
    lines
}

// Whether these are the lines after the first moves.
fn is_after(rt: &(impl Abort + AllocGlobal), script: &Script, moves: usize, found: &str) -> bool {
    lines_after(rt, script, moves).as_str() == found
}

/// What a device of these bytes is opened as by a pick.
pub fn lines_by(rt: &(impl Abort + AllocGlobal), bytes: &[u8], pick: Pick) -> String {
    lines_of(rt, open_by(rt, device_of(rt, bytes), pick).state())
}

/// By either pick bytes are the first moves, or these and the next one.
pub fn is_beginning(rt: &(impl Abort + AllocGlobal), bytes: &[u8], script: &Script, moves: usize) {
    let found = lines_by(rt, bytes, Pick::Newer);
    is_text(
        rt,
        lines_by(rt, bytes, Pick::Older).as_str(),
        found.as_str(),
    );
    assert!(rt;
        is_after(rt, script, moves, found.as_str())
            || is_after(rt, script, moves.saturating_add(1), found.as_str()),
        "after {moves} moves: {found}"
    );
}

/// And so is what a crash of a device would leave.
pub fn leaves_beginning(
    rt: &(impl Abort + AllocGlobal),
    disk: &FaultDisk,
    script: &Script,
    moves: usize,
) {
    let after = disk.after_crash(rt.alloc()).expect(rt, "memory");
    is_beginning(rt, after.bytes(), script, moves);
}

// A store takes the moves of a script until a call of its device fails, and says how many it took.
fn taken<D: Disk>(rt: &(impl Abort + AllocGlobal), store: &mut Store<D>, script: &Script) -> usize {
    for (at, next) in script.moves.iter().enumerate() {
        if let Err(refusal) = take_move(rt, store, script, at, *next) {
            assert_eq!(rt; refusal, Refusal::Fault, "at move {at}");
            return at;
        }
    }
    script.moves.len()
}

// A store that has failed in a move answers that move and each other kind by its failure.
fn answers_nothing<D: Disk>(
    rt: &(impl Abort + AllocGlobal),
    store: &mut Store<D>,
    script: &Script,
    at: usize,
) {
    let next = script.moves.get(at).expect(rt, "a move that failed");
    for next in [*next, Move::Milestone(0, 1), Move::Retire] {
        is_answer(
            rt,
            take_move(rt, store, script, at, next),
            Err(Refusal::Fault),
        );
    }
    assert!(rt; store.has_failed());
}

// A call of a script fails, and where it stops each later one. What a crash leaves, and what is there if none comes, is a prefix
// of the script.
fn goes_wrong(rt: &(impl Abort + AllocGlobal), script: &Script, plan: FaultPlan) {
    let mut store = open_store(rt, FaultDisk::new(script_device(rt), plan));
    let moves = taken(rt, &mut store, script);
    answers_nothing(rt, &mut store, script, moves);
    is_text(
        rt,
        lines_of(rt, store.state()).as_str(),
        lines_after(rt, script, moves).as_str(),
    );
    let disk = store.close();
    leaves_beginning(rt, &disk, script, moves);
    if !plan.stops {
        is_beginning(rt, disk.disk().bytes(), script, moves);
    }
}

// A device that has taken a whole script.
fn device_after(rt: &(impl Abort + AllocGlobal), script: &Script) -> MemDisk {
    let mut store = open_store(rt, script_device(rt));
    assert_eq!(rt; taken(rt, &mut store, script), script.moves.len());
    store.close()
}

// How many of the moves of a script are of each kind: commits, milestones and retirements.
fn kinds_of(script: &Script) -> (u8, u8, u8) {
    let (mut commits, mut milestones, mut retirements) = (0_u8, 0_u8, 0_u8);
    for next in &script.moves {
        match next {
            Move::Commit(_) => commits = commits.saturating_add(1),
            Move::Milestone(_, _) => milestones = milestones.saturating_add(1),
            Move::Retire => retirements = retirements.saturating_add(1),
        }
    }
    (commits, milestones, retirements)
}

// Each call of the script of a seed goes wrong, in each way. The script is one that shows something: of seven milestones of three
// documents one at least is put over an open cell, and two segments are retired.
fn goes_wrong_everywhere(rt: &(impl Abort + AllocGlobal), seed: u64, stops: bool) {
    let script = script_of(rt, seed);
    let (commits, milestones, retirements) = kinds_of(&script);
    assert!(rt;
        commits >= 6 && milestones >= 7 && retirements >= 2,
        "{commits} commits, {milestones} milestones and {retirements} retirements"
    );
    let device = device_after(rt, &script);
    is_beginning(rt, device.bytes(), &script, script.moves.len());
    for call in calls_before(rt, script_device(rt).bytes())..device.calls().len() as u64 {
        for (left, _) in &LEFT {
            let left = *left;
            goes_wrong(rt, &script, FaultPlan { call, stops, left });
        }
    }
}

#[test]
fn a_stop_in_a_script(rt: HostRuntime) {
    for seed in SEEDS {
        goes_wrong_everywhere(&rt, seed, true);
    }
}

#[test]
fn a_fault_in_a_script(rt: HostRuntime) {
    for seed in SEEDS {
        goes_wrong_everywhere(&rt, seed, false);
    }
}
