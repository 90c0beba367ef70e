//! Copies of a document, and of a state, whole or from some revisions on.
use crate::asking::Answer::{Again, Not, Now};
use crate::asking::{Row, What, after, doc, holds, roomy};
use crate::steps::Step;
use delta::Delta;
use document::Document;
use refusal::Refusal;
use revision::{DocState, Name, State};
use std::process::Abort;

const B: What = What::Edit(2, &[Step::Plain("b")]);

/// A text with two letters in front, and one with a letter behind.
const TWO: [Row; 5] = [
    ("ann", "d", 1, What::Create(&[Step::Plain("z")]), Now(1)),
    ("bob", "d", 1, What::Edit(1, &[Step::Plain("a")]), Now(2)),
    ("bob", "d", 2, B, Now(3)),
    ("ann", "e", 1, What::Create(&[Step::Bold("y")]), Now(1)),
    (
        "bob",
        "e",
        1,
        What::Edit(1, &[Step::Keep(1), Step::Plain("x")]),
        Now(2),
    ),
];

/// The revisions that are held from the floors 2 and 0 on.
const HELD: [(&str, u64); 5] = [("d", 2), ("d", 3), ("e", 0), ("e", 1), ("e", 2)];

/// What is asked at these floors.
const ASKED: [Row; 4] = [
    ("bob", "d", 2, B, Again(3)),
    (
        "bob",
        "d",
        3,
        What::Edit(1, &[Step::Plain("c")]),
        Not(Refusal::TooOld),
    ),
    ("bob", "d", 3, What::Undo, Now(4)),
    ("bob", "e", 2, What::Undo, Now(3)),
];

fn two(rt: &(impl Abort + AllocGlobal)) -> State {
    after(rt, roomy(rt, true), &TWO)
}

fn content_at(rt: &(impl Abort + AllocGlobal), state: &State, name: &Name, revision: u64) -> Delta {
    let document = state.at(rt.alloc(), name, revision).expect(rt, "held");
    content_of(rt, &document)
}

fn content_of(rt: &(impl Abort + AllocGlobal), document: &Document) -> Delta {
    document.as_delta(rt.alloc()).expect(rt, "memory")
}

// two states took the same deltas of a document since a revision
fn are_since(rt: &impl Abort, copy: &State, state: &State, name: &Name, revision: u64) {
    let deltas = copy.since(name, revision).expect(rt, "held");
    assert!(rt; deltas == state.since(name, revision).expect(rt, "held"));
}

// a copy holds the same document as its state at a revision, and the same deltas since then
fn reads_as(rt: &(impl Abort + AllocGlobal), copy: &State, state: &State, held: &(&str, u64)) {
    let name = doc(rt, held.0);
    let content = content_at(rt, copy, &name, held.1);
    assert!(rt; content == content_at(rt, state, &name, held.1));
    are_since(rt, copy, state, &name, held.1);
}

// a document is at a revision, and all its past is held
fn is_held_at(rt: &impl Abort, document: &DocState, revision: u64) {
    assert!(rt; document.revision() == revision && document.floor() == 0);
}

fn all_deltas<'a>(rt: &impl Abort, document: &'a DocState) -> &'a [Delta] {
    assert!(rt; document.floor() == 0);
    document.since(0)
}

fn is_same(rt: &(impl Abort + AllocGlobal), copy: &DocState, document: &DocState) {
    assert!(rt; all_deltas(rt, copy) == all_deltas(rt, document));
    assert!(rt; copy.sources() == document.sources());
    assert!(rt; content_of(rt, copy.document()) == content_of(rt, document.document()));
}

// a document's copy is held from the same revision on, with the same deltas, document and sources
fn is_copied(rt: &(impl Abort + AllocGlobal), document: &DocState, name: &str, revision: u64) {
    let copy = document.copy(rt.alloc()).expect(rt, "memory");
    assert!(rt; copy.name().as_str() == name);
    is_held_at(rt, &copy, revision);
    is_held_at(rt, document, revision);
    is_same(rt, &copy, document);
}

#[test]
fn a_document_is_copied(rt: HostRuntime) {
    let state = two(&rt);
    match state.documents() {
        [first, second] => {
            is_copied(&rt, first, "d", 3);
            is_copied(&rt, second, "e", 2);
        }
        _ => panic!(rt; "two documents"),
    }
}

// a copy reads as its state wherever both are held
fn read_as(rt: &(impl Abort + AllocGlobal), copy: &State, state: &State) {
    for held in &HELD {
        reads_as(rt, copy, state, held);
    }
}

fn copy_from(rt: &(impl Abort + AllocGlobal), state: &State, floors: &[u64]) -> State {
    state.copy_from(rt.alloc(), floors).expect(rt, "memory")
}

/// What is asked of a whole copy.
const ASKED_AGAIN: [Row; 2] = [("bob", "d", 2, B, Again(3)), ("bob", "d", 3, B, Now(4))];

// a whole copy takes what its state doesn't see
fn goes_on(rt: &(impl Abort + AllocGlobal), copy: State) {
    holds(rt, &after(rt, copy, &ASKED_AGAIN), "d 4 0\ne 2 0\n");
}

#[test]
fn a_copy_is_equal(rt: HostRuntime) {
    let state = two(&rt);
    let copy = state.copy(rt.alloc()).expect(&rt, "memory");
    holds(&rt, &copy, "d 3 0\ne 2 0\n");
    read_as(&rt, &copy, &state);
    reads_as(&rt, &copy, &state, &("d", 0));
    reads_as(&rt, &copy, &state, &("d", 1));
    goes_on(&rt, copy);
    holds(&rt, &state, "d 3 0\ne 2 0\n");
}

#[test]
fn a_copy_begins_at_the_floors_that_are_given(rt: HostRuntime) {
    let state = two(&rt);
    let copy = copy_from(&rt, &state, &[2]);
    holds(&rt, &copy, "d 3 2\ne 2 0\n");
    read_as(&rt, &copy, &state);
    holds(&rt, &copy_from(&rt, &copy, &[1, 1]), "d 3 2\ne 2 1\n");
    holds(&rt, &copy_from(&rt, &state, &[9, 9, 9]), "d 3 3\ne 2 2\n");
    after(&rt, copy, &ASKED);
}
