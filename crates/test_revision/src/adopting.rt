//! Documents that are adopted at a revision, without their past.
use crate::asking::Answer::{Again, Not, Now};
use crate::asking::{Answer, Row, What, after, doc, empty, roomy};
use crate::steps::{Step, delta_of};
use document::Document;
use refusal::Refusal;
use revision::{Name, Sources, State, Window};
use std::process::Abort;

const X: What = What::Edit(4, &[Step::Plain("x")]);

/// What is asked of "d", adopted at revision 4, with nothing older held.
const ASKED: &[Row] = &[
    ("ann", "d", 2, X, Again(3)),
    ("ann", "d", 3, What::Edit(3, &[]), Not(Refusal::TooOld)),
    ("ann", "d", 3, What::Undo, Not(Refusal::TooOld)),
    ("ann", "d", 3, X, Now(5)),
    ("ann", "d", 4, What::Undo, Now(6)),
];

/// What comes of adopting a document at a revision, where ann's command 2 made revision 3.
const ADOPTED: [(&str, u64, Result<(), Refusal>); 5] = [
    ("d", 0, Err(Refusal::Stranger)),
    ("d", 2, Err(Refusal::Stranger)),
    ("d", 4, Ok(())),
    ("d", 4, Err(Refusal::Stranger)),
    ("e", 3, Ok(())),
];

fn adopt(
    rt: &(impl Abort + AllocGlobal),
    state: &mut State,
    name: &str,
    revision: u64,
) -> Result<(), Refusal> {
    let delta = delta_of(rt, &[Step::Plain("ab")]);
    let document = Document::from_delta(rt.alloc(), &delta).expect(rt, "a document");
    let mut sources = Sources::new(rt.alloc());
    let ann = Name::source(rt.alloc(), "ann").expect(rt, "a source");
    sources.put(ann, Window::of_one(2, 3)).expect(rt, "memory");
    state.adopt(rt.alloc(), doc(rt, name), document, true, revision, sources)
}

#[test]
fn an_adopted_document_goes_on(rt: HostRuntime) {
    let mut state = roomy(&rt, false);
    for (name, revision, wanted) in &ADOPTED {
        assert_eq!(rt; adopt(&rt, &mut state, *name, *revision), *wanted);
    }
    after(&rt, state, ASKED);
}

/// What is asked of "d", adopted at revision 4 as deleted.
const ASKED_OF_DELETED: &[Row] = &[
    ("ann", "d", 2, X, Again(3)),
    ("ann", "d", 3, X, Not(Refusal::Deleted)),
    ("ann", "d", 3, What::Delete, Not(Refusal::Deleted)),
    ("ann", "d", 3, What::Create(&[Step::Plain("n")]), Now(5)),
];

fn adopt_deleted(
    rt: &(impl Abort + AllocGlobal),
    state: &mut State,
    steps: &[Step],
    revision: u64,
    window: Window,
) -> Result<(), Refusal> {
    let document = Document::from_delta(rt.alloc(), &delta_of(rt, steps)).expect(rt, "a document");
    let mut sources = Sources::new(rt.alloc());
    let ann = Name::source(rt.alloc(), "ann").expect(rt, "a source");
    sources.put(ann, window).expect(rt, "memory");
    state.adopt(rt.alloc(), doc(rt, "d"), document, false, revision, sources)
}

#[test]
fn a_deleted_document_is_adopted_empty(rt: HostRuntime) {
    let mut state = roomy(&rt, false);
    full_is_strange(&rt, &mut state);
    first_is_strange(&rt, &mut state);
    is_adopted_deleted(&rt, &mut state, 4);
    after(&rt, state, ASKED_OF_DELETED);
}

fn full_is_strange(rt: &(impl Abort + AllocGlobal), state: &mut State) {
    let full = adopt_deleted(rt, state, &[Step::Plain("ab")], 4, Window::of_one(2, 3));
    assert_eq!(rt; full, Err(Refusal::Stranger));
}

// a creation makes the first revision
fn first_is_strange(rt: &(impl Abort + AllocGlobal), state: &mut State) {
    let first = adopt_deleted(rt, state, &[], 1, Window::of_one(1, 1));
    assert_eq!(rt; first, Err(Refusal::Stranger));
}

fn is_adopted_deleted(rt: &(impl Abort + AllocGlobal), state: &mut State, revision: u64) {
    let empty = adopt_deleted(rt, state, &[], revision, Window::of_one(2, 3));
    assert_eq!(rt; empty, Ok(()));
}

/// The last revision that a document comes to.
const LAST: u64 = (1 << 53) - 1;

/// What is asked of "d", adopted at that revision.
const ASKED_AT_THE_LAST: &[Row] = &[
    ("ann", "d", 3, What::Delete, Not(Refusal::RevisionsSpent)),
    ("bob", "d", 1, What::Delete, Not(Refusal::RevisionsSpent)),
    ("bob", "d", 2, What::Delete, Not(Refusal::Gap)),
];

/// And where it is deleted there.
const ASKED_OF_DELETED_AT_THE_LAST: &[Row] = &[
    ("ann", "d", 3, What::Delete, Not(Refusal::Deleted)),
    (
        "ann",
        "d",
        3,
        What::Create(&[Step::Keep(1)]),
        Not(Refusal::RevisionsSpent),
    ),
];

#[test]
fn no_revision_comes_after_the_last(rt: HostRuntime) {
    let mut state = roomy(&rt, false);
    assert_eq!(rt; adopt(&rt, &mut state, "d", LAST), Ok(()));
    after(&rt, state, ASKED_AT_THE_LAST);
    let mut state = roomy(&rt, false);
    is_adopted_deleted(&rt, &mut state, LAST);
    after(&rt, state, ASKED_OF_DELETED_AT_THE_LAST);
}

/// The entry of a deletion has 26 bytes where its source's name has three.
#[test]
fn a_deletion_keeps_the_width(rt: HostRuntime) {
    is_answered_within(&rt, 25, Not(Refusal::TooWide));
    is_answered_within(&rt, 26, Now(5));
}

fn is_answered_within(rt: &(impl Abort + AllocGlobal), width: u32, wanted: Answer) {
    let mut state = empty(rt, 20_000, width);
    assert_eq!(rt; adopt(rt, &mut state, "d", 4), Ok(()));
    after(rt, state, &[("ann", "d", 3, What::Delete, wanted)]);
}
