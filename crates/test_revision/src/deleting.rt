//! Deletions, and creations of deleted documents: what is answered, and what stands in the document then.
use crate::asking::Answer::{Again, Not, Now};
use crate::asking::{Row, What, after, asked, doc, empty, holds, made, roomy, taken, wide};
use crate::steps::Step;
use refusal::Refusal;
use revision::{State, Taken};
use std::process::Abort;

const Z: What = What::Create(&[Step::Plain("z")]);

const N: What = What::Create(&[Step::Plain("n")]);

const X: What = What::Edit(1, &[Step::Keep(1), Step::Plain("x")]);

/// A letter in front, as an edit of a revision.
fn edit(base: u64) -> What {
    What::Edit(base, &[Step::Plain("y")])
}

const OF_1: What = What::Edit(1, &[Step::Plain("y")]);

const OF_2: What = What::Edit(2, &[Step::Plain("y")]);

const OF_4: What = What::Edit(4, &[Step::Plain("y")]);

/// A text, a letter behind it, and its deletion; then what another source and the same one ask of it.
const DELETED: [Row; 11] = [
    ("a", "d", 1, Z, Now(1)),
    ("a", "d", 2, X, Now(2)),
    ("a", "d", 3, What::Delete, Now(3)),
    ("b", "d", 1, OF_2, Not(Refusal::Deleted)),
    ("b", "d", 1, What::Undo, Not(Refusal::Deleted)),
    ("b", "d", 1, What::Delete, Not(Refusal::Deleted)),
    ("b", "d", 2, What::Delete, Not(Refusal::Gap)),
    ("a", "d", 3, What::Delete, Again(3)),
    ("a", "d", 2, X, Again(2)),
    ("a", "d", 1, Z, Again(1)),
    ("a", "d", 5, N, Not(Refusal::Gap)),
];

/// It is created again.
const CREATED_AGAIN: [Row; 10] = [
    ("a", "d", 4, N, Now(4)),
    ("b", "d", 1, OF_2, Not(Refusal::TooOld)),
    ("b", "d", 1, OF_4, Now(5)),
    ("a", "d", 3, What::Delete, Again(3)),
    ("a", "d", 1, Z, Again(1)),
    ("a", "d", 5, What::Undo, Not(Refusal::TooOld)),
    ("a", "d", 5, N, Not(Refusal::Exists)),
    ("a", "d", 4, N, Again(4)),
    ("b", "d", 2, What::Delete, Now(6)),
    ("c", "d", 1, N, Now(7)),
];

#[test]
fn a_document_is_deleted_and_created_again(rt: HostRuntime) {
    let state = after(&rt, roomy(&rt, true), &DELETED);
    holds(&rt, &state, "d 3 3\n");
    not_read(&rt, &state);
    let state = after(&rt, state, &CREATED_AGAIN);
    is_created_again(&rt, &state);
    is_created_again(&rt, &state.copy(rt.alloc()).expect(&rt, "memory"));
}

const NEW: [Step; 1] = [Step::Plain("n")];

fn is_created_again(rt: &(impl Abort + AllocGlobal), state: &State) {
    holds(rt, state, "d 7 7\n");
    made(rt, state, 7, &NEW);
}

// nothing of a deleted document is read, at any revision
fn not_read(rt: &(impl Abort + AllocGlobal), state: &State) {
    let name = doc(rt, "d");
    for revision in 0..6u64 {
        let read = state.at(rt.alloc(), &name, revision);
        assert!(rt; read.is_err_and(|e| e == Refusal::Deleted));
        let since = state.since(&name, revision);
        assert!(rt; since.is_err_and(|e| e == Refusal::Deleted));
    }
    let found = state.find(&name);
    assert!(rt; found.is_some_and(|p| !p.1.is_live() && p.1.document().len16() == 0));
}

/// What names nothing, and what counts among the documents.
const BESIDE: [Row; 9] = [
    ("a", "d", 1, What::Delete, Not(Refusal::NoDocument)),
    ("a", "d", 1, Z, Now(1)),
    ("b", "d", 1, What::Delete, Now(2)),
    ("a", "e", 1, Z, Now(1)),
    ("a", "f", 1, Z, Not(Refusal::TooManyDocuments)),
    ("c", "d", 2, N, Not(Refusal::Gap)),
    ("c", "d", 1, N, Now(3)),
    ("e", "d", 1, What::Delete, Now(4)),
    ("f", "d", 1, N, Not(Refusal::TooManySources)),
];

#[test]
fn deleted_documents_count_and_keep_their_sources(rt: HostRuntime) {
    let state = after(&rt, roomy(&rt, true), &BESIDE);
    holds(&rt, &state, "d 4 4\ne 1 0\n");
}

const CREATED: [Row; 1] = [("a", "d", 1, Z, Now(1))];

const CREATED_EMPTY: [Row; 1] = [("a", "d", 1, What::Create(&[]), Now(1))];

const LIGHTER: [Row; 2] = [
    ("a", "d", 2, What::Edit(1, &[]), Not(Refusal::TooHeavy)),
    ("a", "d", 2, What::Delete, Now(2)),
];

/// A creation weighs 76 and is 42 bytes wide, an edit's entry 28 and a deletion's 24.
#[test]
fn a_deletion_weighs_its_sources_alone(rt: HostRuntime) {
    let state = after(&rt, empty(&rt, 76, 237), &CREATED);
    wide(&rt, &state, 2, What::Delete, Ok(24));
    let state = after(&rt, state, &LIGHTER);
    wide(&rt, &state, 3, N, Err(Refusal::TooHeavy));
    let state = after(&rt, empty(&rt, 64, 237), &CREATED_EMPTY);
    wide(&rt, &state, 2, What::Delete, Err(Refusal::TooHeavy));
}

#[test]
fn widths_of_both(rt: HostRuntime) {
    let state = after(&rt, roomy(&rt, true), &DELETED);
    wide(&rt, &state, 4, N, Ok(38));
    is_unnamed(&rt, &taken(&rt, &state, "d", 4, N));
}

fn is_unnamed(rt: &impl Abort, taken: &Taken) {
    assert!(rt; taken.width() == 38 && taken.name().is_none());
}

const RISING: [Row; 7] = [
    ("a", "d", 1, Z, Now(1)),
    ("a", "d", 2, OF_1, Now(2)),
    ("a", "d", 3, What::Delete, Now(3)),
    ("a", "d", 4, N, Now(4)),
    ("a", "d", 5, OF_4, Now(5)),
    ("a", "d", 6, What::Undo, Now(6)),
    ("a", "d", 7, What::Edit(5, &[Step::Plain("y")]), Now(7)),
];

/// A deletion and a creation again in the midst of edits, decided on a state that holds two revisions, so that floors rise.
#[test]
fn floors_rise_to_deletions(rt: HostRuntime) {
    let state = after(&rt, roomy(&rt, false), &RISING);
    holds(&rt, &state, "d 7 5\n");
    made(&rt, &state, 7, &[Step::Plain("yn")]);
    made(&rt, &state, 5, &[Step::Plain("yn")]);
}

/// Many deletions and creations, so that what lies below the floor is let go of each time.
#[test]
fn deleted_again_and_again(rt: HostRuntime) {
    let mut state = after(&rt, roomy(&rt, true), &CREATED);
    for turn in 1..40u64 {
        let revision = 3 * turn;
        is_asked(&rt, &mut state, revision - 1, What::Delete);
        is_asked(&rt, &mut state, revision, N);
        is_asked(&rt, &mut state, revision + 1, edit(revision));
        made(&rt, &state, revision, &[Step::Plain("n")]);
        made(&rt, &state, revision + 1, &[Step::Plain("yn")]);
    }
}

// what makes the revision of its number
fn is_asked(rt: &(impl Abort + AllocGlobal), state: &mut State, number: u64, what: What) {
    asked(rt, state, &("a", "d", number, what, Now(number)));
}

/// Edits with a deletion and a creation again between them, as one batch.
const TURNED: [Row; 4] = [
    ("a", "d", 2, OF_1, Now(2)),
    ("a", "d", 3, What::Delete, Now(3)),
    ("a", "d", 4, N, Now(4)),
    ("a", "d", 5, OF_4, Now(5)),
];

// what is taken of each of these, in order, on a document that was created
fn batch(rt: &(impl Abort + AllocGlobal), rows: &[Row]) -> Vec<Taken> {
    let mut state = after(rt, roomy(rt, true), &CREATED);
    let mut batch = Vec::new(rt.alloc());
    for row in rows {
        push_taken(rt, &mut batch, &state, row);
        asked(rt, &mut state, row);
    }
    batch
}

fn push_taken(rt: &(impl Abort + AllocGlobal), batch: &mut Vec<Taken>, state: &State, row: &Row) {
    let taken = taken(rt, state, row.1, row.2, row.3);
    batch.push(taken).expect(rt, "memory");
}

#[test]
fn a_batch_with_a_deletion_between_edits(rt: HostRuntime) {
    let turned = batch(&rt, &TURNED);
    let state = after(&rt, roomy(&rt, true), &CREATED);
    let state = forgotten(&rt, state, turned.as_slice());
    holds(&rt, &state, "d 1 0\n");
    made(&rt, &state, 1, &[Step::Plain("z")]);
    let mut state = state;
    assert_eq!(rt;
        state.absorb_all(rt.alloc(), turned.as_slice(), &[]),
        Ok(())
    );
    holds(&rt, &state, "d 5 4\n");
    made(&rt, &state, 5, &[Step::Plain("yn")]);
    made(&rt, &state, 4, &[Step::Plain("n")]);
    let rows: [Row; 3] = [
        ("a", "d", 4, N, Again(4)),
        ("a", "d", 6, What::Undo, Now(6)),
        ("a", "d", 7, What::Undo, Now(7)),
    ];
    let state = after(&rt, state, &rows);
    made(&rt, &state, 7, &[Step::Plain("yn")]);
}

// the state after a batch was prepared and forgotten
fn forgotten(rt: &(impl Abort + AllocGlobal), state: State, batch: &[Taken]) -> State {
    match state.prepare(rt.alloc(), batch, &[]) {
        Ok(prepared) => prepared.forget(),
        Err(_) => rt.abort(),
    }
}

const EDITED_SECOND: [Row; 2] = [("a", "d", 1, Z, Now(1)), ("a", "d", 2, OF_1, Now(2))];

const DELETED_SECOND: [Row; 2] = [
    ("a", "d", 1, Z, Now(1)),
    ("a", "d", 2, What::Delete, Now(2)),
];

/// What is taken of one state, edited or deleted by its second command, doesn't suit the mark of the other.
#[test]
fn steps_suit_the_mark(rt: HostRuntime) {
    strange(&rt, &EDITED_SECOND, OF_2, &DELETED_SECOND);
    strange(&rt, &EDITED_SECOND, What::Delete, &DELETED_SECOND);
    strange(&rt, &DELETED_SECOND, N, &EDITED_SECOND);
}

fn strange(rt: &(impl Abort + AllocGlobal), here: &[Row], what: What, there: &[Row]) {
    let third = third_of(rt, here, what);
    is_absorbed(rt, there, &third, Err(Refusal::Stranger));
    is_absorbed(rt, here, &third, Ok(()));
}

// what is taken of the third command behind others
fn third_of(rt: &(impl Abort + AllocGlobal), here: &[Row], what: What) -> Taken {
    taken(rt, &after(rt, roomy(rt, true), here), "d", 3, what)
}

// what is added behind others, or isn't
fn is_absorbed(
    rt: &(impl Abort + AllocGlobal),
    here: &[Row],
    taken: &Taken,
    wanted: Result<(), Refusal>,
) {
    let mut state = after(rt, roomy(rt, true), here);
    assert_eq!(rt; state.absorb(rt.alloc(), taken), wanted);
}
