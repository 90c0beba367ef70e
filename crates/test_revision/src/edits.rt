//! Edits and undos: which revision comes of them, and what stands in the document then.
use crate::asking::Answer::{Again, Not, Now};
use crate::asking::{Row, What, after, asked, holds, made, roomy, small, taken_as};
use crate::steps::Step;
use refusal::Refusal;
use revision::State;
use std::process::Abort;

const Z: What = What::Create(&[Step::Plain("z")]);

/// A text, a letter behind it, the text away, and an edit that was made on the text alone.
const LATE: [Row; 4] = [
    ("a", "d", 1, Z, Now(1)),
    (
        "a",
        "d",
        2,
        What::Edit(1, &[Step::Keep(1), Step::Plain("x")]),
        Now(2),
    ),
    ("a", "d", 3, What::Edit(2, &[Step::Drop(1)]), Now(3)),
    ("b", "d", 1, What::Edit(1, &[Step::Plain("y")]), Now(4)),
];

#[test]
fn an_edit_passes_what_was_taken_since(rt: HostRuntime) {
    let state = after(&rt, roomy(&rt, true), &LATE);
    taken_as(&rt, &state, 3, &[Step::Plain("y")]);
    made(&rt, &state, 4, &[Step::Plain("yx")]);
}

/// What was taken of a text of five letters, another edit of the same revision, and what is taken of that.
const BESIDE: [(&[Step], &[Step], &[Step]); 5] = [
    (
        &[],
        &[Step::Plain("y"), Step::Drop(1)],
        &[Step::Plain("y"), Step::Drop(1)],
    ),
    (&[], &[Step::Keep(5)], &[]),
    (
        &[Step::Plain("a")],
        &[Step::Plain("b"), Step::Keep(5), Step::Plain("c")],
        &[
            Step::Keep(1),
            Step::Plain("b"),
            Step::Keep(5),
            Step::Plain("c"),
        ],
    ),
    (
        &[Step::Drop(3)],
        &[Step::Keep(1), Step::Plain("x"), Step::Drop(4)],
        &[Step::Plain("x"), Step::Drop(2)],
    ),
    (&[Step::Embolden(1)], &[Step::Restyle(1)], &[Step::Slant(1)]),
];

#[test]
fn edits_of_the_same_revision(rt: HostRuntime) {
    for (first, second, wanted) in &BESIDE {
        beside(&rt, first, second, wanted);
    }
}

const FIVE: What = What::Create(&[Step::Plain("vwxyz")]);

fn beside(
    rt: &(impl Abort + AllocGlobal),
    first: &'static [Step],
    second: &'static [Step],
    wanted: &[Step],
) {
    let rows = [
        ("a", "d", 1, FIVE, Now(1)),
        ("a", "d", 2, What::Edit(1, first), Now(2)),
        ("b", "d", 1, What::Edit(1, second), Now(3)),
    ];
    let state = after(rt, roomy(rt, true), &rows);
    taken_as(rt, &state, 2, wanted);
}

/// Edits that speak of the end, and of the midst of a pair.
const ENDS: [Row; 5] = [
    ("a", "d", 1, What::Create(&[Step::Plain("abcd")]), Now(1)),
    ("a", "d", 2, What::Edit(1, &[Step::Keep(5)]), Now(2)),
    (
        "a",
        "d",
        3,
        What::Edit(2, &[Step::Keep(5), Step::Plain("x")]),
        Not(Refusal::PastEnd),
    ),
    (
        "a",
        "e",
        1,
        What::Create(&[Step::Plain("a\u{1F600}b")]),
        Now(1),
    ),
    (
        "a",
        "e",
        2,
        What::Edit(1, &[Step::Keep(2), Step::Plain("x")]),
        Not(Refusal::CutsPair),
    ),
];

#[test]
fn edits_past_the_end_and_within_a_pair(rt: HostRuntime) {
    let state = after(&rt, roomy(&rt, true), &ENDS);
    taken_as(&rt, &state, 1, &[]);
    made(&rt, &state, 2, &[Step::Plain("abcd")]);
    holds(&rt, &state, "d 2 0\ne 1 0\n");
}

const Y: What = What::Edit(1, &[Step::Plain("y")]);

/// Numbers of one source, in order, and what another asks of a document that isn't there.
const NUMBERS: [Row; 11] = [
    ("a", "d", 1, Y, Not(Refusal::NoDocument)),
    ("a", "d", 1, What::Undo, Not(Refusal::NoDocument)),
    ("a", "d", 1, Z, Now(1)),
    ("a", "d", 2, Y, Now(2)),
    ("a", "d", 2, Y, Again(2)),
    ("a", "d", 2, What::Undo, Again(2)),
    ("a", "d", 1, Y, Again(1)),
    ("a", "d", 4, Y, Not(Refusal::Gap)),
    ("a", "d", 4, What::Undo, Not(Refusal::Gap)),
    ("a", "d", 2, Z, Again(2)),
    ("a", "d", 1, Z, Again(1)),
];

#[test]
fn numbers_of_one_source(rt: HostRuntime) {
    let state = after(&rt, small(&rt), &NUMBERS);
    holds(&rt, &state, "d 2 0\n");
}

/// Once 17 numbers of a source are taken its window has the last 16.
const OF_17: [Row; 4] = [
    ("a", "d", 2, Y, Again(2)),
    ("a", "d", 17, Y, Again(17)),
    ("a", "d", 1, Y, Not(Refusal::OldNumber)),
    ("a", "d", 1, Z, Not(Refusal::Exists)),
];

/// Once one more is taken it has the second no longer.
const OF_18: [Row; 4] = [
    ("a", "d", 18, Y, Now(18)),
    ("a", "d", 2, Y, Not(Refusal::OldNumber)),
    ("a", "d", 3, Y, Again(3)),
    ("a", "d", 18, Y, Again(18)),
];

fn is_next(rt: &(impl Abort + AllocGlobal), state: &mut State, number: u64) {
    asked(rt, state, &("a", "d", number, Y, Now(number)));
}

#[test]
fn a_window_has_16_numbers(rt: HostRuntime) {
    let mut state = after(&rt, roomy(&rt, true), &[("a", "d", 1, Z, Now(1))]);
    for number in 2..18u64 {
        is_next(&rt, &mut state, number);
    }
    let state = after(&rt, state, &OF_17);
    after(&rt, state, &OF_18);
}

/// A letter is deleted, another inserted in front, the deletion taken back, and that taken back; at the end the other letter.
const UNDONE: [Row; 7] = [
    ("ann", "d", 1, What::Create(&[Step::Plain("ab")]), Now(1)),
    (
        "ann",
        "d",
        2,
        What::Edit(1, &[Step::Keep(1), Step::Drop(1)]),
        Now(2),
    ),
    ("bob", "d", 1, What::Edit(2, &[Step::Plain("q")]), Now(3)),
    ("ann", "d", 3, What::Undo, Now(4)),
    ("ann", "d", 4, What::Undo, Now(5)),
    ("carl", "d", 1, What::Undo, Not(Refusal::NothingToUndo)),
    ("bob", "d", 2, What::Undo, Now(6)),
];

/// The document at each revision.
const TEXTS: [(u64, &[Step]); 7] = [
    (0, &[]),
    (1, &[Step::Plain("ab")]),
    (2, &[Step::Plain("a")]),
    (3, &[Step::Plain("qa")]),
    (4, &[Step::Plain("qab")]),
    (5, &[Step::Plain("qa")]),
    (6, &[Step::Plain("a")]),
];

/// And the delta behind some of them.
const BACK: [(u64, &[Step]); 3] = [
    (3, &[Step::Keep(2), Step::Plain("b")]),
    (4, &[Step::Keep(2), Step::Drop(1)]),
    (5, &[Step::Drop(1)]),
];

#[test]
fn an_undo_takes_the_last_change_of_its_source_back(rt: HostRuntime) {
    let state = after(&rt, roomy(&rt, true), &UNDONE);
    for row in &TEXTS {
        made(&rt, &state, row.0, row.1);
    }
    for row in &BACK {
        taken_as(&rt, &state, row.0, row.1);
    }
}
