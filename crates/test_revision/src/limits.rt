//! Edits under limits.
use crate::asking::Answer::{Not, Now};
use crate::asking::{Row, What, after, holds, roomy, small, wide};
use crate::steps::Step;
use refusal::Refusal;
use std::process::Abort;

const Z: What = What::Create(&[Step::Plain("z")]);

const Y: What = What::Edit(1, &[Step::Plain("y")]);

/// One source writes: there is room for a second number and three units more, and for no second source.
const HEAVY: [Row; 4] = [
    ("a", "d", 1, Z, Now(1)),
    ("b", "d", 1, Y, Not(Refusal::TooHeavy)),
    (
        "a",
        "d",
        2,
        What::Edit(1, &[Step::Plain("abcd")]),
        Not(Refusal::TooHeavy),
    ),
    ("a", "d", 2, What::Edit(1, &[Step::Plain("abc")]), Now(2)),
];

/// Five units leave no room for a second number, also of an edit that changes nothing.
const FULL: [Row; 2] = [
    ("a", "d", 1, What::Create(&[Step::Plain("abcde")]), Now(1)),
    ("a", "d", 2, What::Edit(1, &[]), Not(Refusal::TooHeavy)),
];

#[test]
fn an_edit_keeps_the_weight(rt: HostRuntime) {
    come_to(&rt, &HEAVY, "d 2 0\n");
    come_to(&rt, &FULL, "d 1 0\n");
}

fn come_to(rt: &(impl Abort + AllocGlobal), rows: &[Row], lines: &str) {
    holds(rt, &after(rt, small(rt), rows), lines);
}

/// Removals of names of ten bytes, and of one more; and how wide the edit's entry is.
const WIDTHS: [(&[Step], Result<u64, Refusal>); 5] = [
    (&[Step::Clear(0, "")], Ok(28)),
    (&[Step::Clear(15, "")], Ok(236)),
    (&[Step::Clear(16, "")], Err(Refusal::TooWide)),
    (&[Step::Clear(14, "removed_14_")], Ok(237)),
    (&[Step::Clear(14, "removed_14__")], Err(Refusal::TooWide)),
];

#[test]
fn an_edit_keeps_the_width(rt: HostRuntime) {
    let state = after(&rt, small(&rt), &[("a", "d", 1, Z, Now(1))]);
    for (steps, wanted) in &WIDTHS {
        wide(&rt, &state, 2, What::Edit(1, steps), *wanted);
    }
}

/// Four sources write, and a fifth may not.
const SOURCES: [Row; 7] = [
    ("a", "d", 1, Z, Now(1)),
    ("b", "d", 1, Y, Now(2)),
    ("c", "d", 1, Y, Now(3)),
    ("e", "d", 1, What::Edit(2, &[]), Now(4)),
    ("f", "d", 1, Y, Not(Refusal::TooManySources)),
    ("f", "d", 1, What::Undo, Not(Refusal::NothingToUndo)),
    ("a", "d", 2, What::Edit(4, &[Step::Drop(1)]), Now(5)),
];

#[test]
fn a_document_has_four_sources(rt: HostRuntime) {
    let state = after(&rt, roomy(&rt, false), &SOURCES);
    holds(&rt, &state, "d 5 3\n");
}
