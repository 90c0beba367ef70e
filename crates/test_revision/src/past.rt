//! The past that is held: from the floor on.
use crate::asking::Answer::{Not, Now};
use crate::asking::{Row, What, after, asked, doc, holds, is_made, made, roomy, taken_as};
use crate::steps::{Step, inserted};
use document::Document;
use refusal::Refusal;
use revision::{Name, State};
use std::process::Abort;

const Z: What = What::Create(&[Step::Plain("z")]);

/// A text, and three letters in front of it. Two revisions below the newest one are held, so that the floor is then 2.
const KEPT: [Row; 4] = [
    ("ann", "d", 1, Z, Now(1)),
    ("bob", "d", 1, What::Edit(1, &[Step::Plain("a")]), Now(2)),
    ("bob", "d", 2, What::Edit(2, &[Step::Plain("b")]), Now(3)),
    ("bob", "d", 3, What::Edit(3, &[Step::Plain("c")]), Now(4)),
];

const BEHIND: &[Step] = &[Step::Keep(2), Step::Plain("x")];

/// What is asked at that floor.
const OLDER: [Row; 4] = [
    ("ann", "d", 2, What::Edit(5, BEHIND), Not(Refusal::Future)),
    ("ann", "d", 2, What::Edit(1, BEHIND), Not(Refusal::TooOld)),
    ("ann", "d", 2, What::Undo, Not(Refusal::TooOld)),
    ("ann", "d", 2, What::Edit(2, BEHIND), Now(5)),
];

/// The documents that are held then.
const TEXTS: [(u64, &[Step]); 3] = [
    (3, &[Step::Plain("baz")]),
    (4, &[Step::Plain("cbaz")]),
    (5, &[Step::Plain("cbazx")]),
];

/// The last letter in front is taken back, by what was taken above the floor.
const UNDONE: [Row; 1] = [("bob", "d", 4, What::Undo, Now(6))];

/// How many deltas were taken since a revision of a document.
const SINCE: [(&str, u64, Result<usize, Refusal>); 6] = [
    ("d", 2, Err(Refusal::TooOld)),
    ("d", 3, Ok(2)),
    ("d", 4, Ok(1)),
    ("d", 5, Ok(0)),
    ("d", 6, Err(Refusal::Future)),
    ("e", 3, Err(Refusal::NoDocument)),
];

#[test]
fn a_past_begins_at_its_floor(rt: HostRuntime) {
    let state = after(&rt, roomy(&rt, false), &KEPT);
    holds(&rt, &state, "d 4 2\n");
    let state = after(&rt, state, &OLDER);
    holds(&rt, &state, "d 5 3\n");
    taken_as(&rt, &state, 4, &[Step::Keep(4), Step::Plain("x")]);
    for (revision, steps) in &TEXTS {
        made(&rt, &state, *revision, steps);
        replayed(&rt, &state, *revision, steps);
    }
    for (name, revision, wanted) in &SINCE {
        read(&rt, &state, name, *revision, *wanted);
    }
    let state = after(&rt, state, &UNDONE);
    taken_as(&rt, &state, 5, &[Step::Drop(1)]);
}

// a replay leads from its own document to what these steps make, and its sources are those of that revision
fn replayed(rt: &(impl Abort + AllocGlobal), state: &State, revision: u64, steps: &[Step]) {
    let (_, found) = state.find(&doc(rt, "d")).expect(rt, "d");
    assert!(rt; found.floor() <= revision && revision <= found.revision());
    let replay = found.replay_to(rt.alloc(), revision).expect(rt, "memory");
    let mut document = replay.document.copy(rt.alloc()).expect(rt, "memory");
    for delta in &replay.deltas {
        assert!(rt; document.apply(rt.alloc(), delta).is_ok());
    }
    is_made(rt, &document, steps);
    let mut noted = 0;
    for (_, window) in replay.sources.entries() {
        noted = noted.max(window.last_revision());
    }
    assert_eq!(rt; noted, revision);
}

// so many deltas were taken since a revision, and the document there is held; or both are refused
fn read(
    rt: &(impl Abort + AllocGlobal),
    state: &State,
    name: &str,
    revision: u64,
    wanted: Result<usize, Refusal>,
) {
    let name = doc(rt, name);
    assert_eq!(rt;
        count_since(state, &name, revision),
        wanted,
        "since {revision}"
    );
    let refused = refusal_at(rt, state, &name, revision);
    assert_eq!(rt; refused, wanted.err(), "at {revision}");
}

fn count_since(state: &State, name: &Name, revision: u64) -> Result<usize, Refusal> {
    match state.since(name, revision) {
        Ok(deltas) => Ok(deltas.len()),
        Err(refusal) => Err(refusal),
    }
}

fn refusal_at(rt: &impl AllocGlobal, state: &State, name: &Name, revision: u64) -> Option<Refusal> {
    state.at(rt.alloc(), name, revision).err()
}

const A: &[Step] = &[Step::Plain("a")];

const B: &[Step] = &[Step::Plain("b")];

// 1,100 letters in front, where 16 revisions are held
#[test]
fn a_long_past(rt: HostRuntime) {
    let mut state = after(&rt, roomy(&rt, true), &[("a", "d", 1, Z, Now(1))]);
    for base in 1..1101u64 {
        in_front(&rt, &mut state, base, letter(base));
    }
    holds(&rt, &state, "d 1101 1085\n");
    reads(&rt, &state, 1101, 550);
    reads(&rt, &state, 1085, 542);
    read(&rt, &state, "d", 1084, Err(Refusal::TooOld));
}

fn letter(base: u64) -> &'static [Step] {
    if base % 2 == 1 { A } else { B }
}

// the source's edit of this number, which was made on the revision of the same number
fn in_front(rt: &(impl Abort + AllocGlobal), state: &mut State, base: u64, steps: &'static [Step]) {
    assert!(rt; base < 10_000);
    asked(
        rt,
        state,
        &("b", "d", base, What::Edit(base, steps), Now(base + 1)),
    );
}

// the document at a revision has so many pairs of letters in front
fn reads(rt: &(impl Abort + AllocGlobal), state: &State, revision: u64, pairs: u64) {
    let document = state.at(rt.alloc(), &doc(rt, "d"), revision);
    is_text(rt, &document.expect(rt, "held"), long(rt, pairs).as_str());
}

fn is_text(rt: &(impl Abort + AllocGlobal), document: &Document, wanted: &str) {
    let content = document.as_delta(rt.alloc()).expect(rt, "memory");
    assert!(rt; content == inserted(rt, wanted));
}

fn long(rt: &(impl Abort + AllocGlobal), pairs: u64) -> String {
    let mut text = String::new(rt.alloc());
    for _ in 0..pairs {
        assert!(rt; text.push_str("ba").is_ok());
    }
    assert!(rt; text.push_str("z").is_ok());
    text
}
