//! Creations under small limits.
use crate::asking::Answer::{Again, Not, Now};
use crate::asking::{Row, What, after, command, empty, holds, made, small, wide};
use crate::steps::Step;
use refusal::Refusal;
use std::process::Abort;

/// 2^44
const LONGEST: u64 = 17_592_186_044_416;

/// A name of 64 bytes.
const NAME: &str = "n23456789_123456789_123456789_123456789_123456789_123456789_1234";

/// A text of 125 bytes.
const VALUE: &str =
    "v23456789_123456789_123456789_123456789_123456789_123456789_123456789_123456789_123456789_123456789_123456789_123456789_12345";

/// What a document of one source weighs (12 for each unit, each attribute of a unit and each embed's value, besides their
/// bytes, and 64), and how many bytes its creation has in the journal (31, and what its operations have).
const CREATIONS: [(&[Step], u32, u32); 10] = [
    (&[], 64, 31),
    (&[Step::Plain("z")], 76, 41),
    (&[Step::Bold("z")], 92, 48),
    (&[Step::Plain("abcde")], 124, 45),
    (&[Step::Plain("abcdef")], 136, 46),
    (&[Step::Bold("a"), Step::Plain("b")], 104, 58),
    (&[Step::Image("u")], 94, 49),
    (&[Step::Plain("\u{1F600}")], 88, 44),
    (
        &[Step::Plain("\u{e9}"), Step::Linked("xy", "link", "u")],
        134,
        65,
    ),
    (&[Step::Linked("z", NAME, VALUE)], 277, 237),
];

#[test]
fn what_a_creation_weighs_and_how_wide_it_is(rt: HostRuntime) {
    for (steps, weight, bytes) in &CREATIONS {
        let lighter = weight.saturating_sub(1);
        let narrower = bytes.saturating_sub(1);
        within(&rt, *weight, *bytes, steps, Ok(u64::from(*bytes)));
        within(&rt, lighter, *bytes, steps, Err(Refusal::TooHeavy));
        within(&rt, lighter, narrower, steps, Err(Refusal::TooHeavy));
        within(&rt, *weight, narrower, steps, Err(Refusal::TooWide));
    }
}

// how wide the entry of a creation is within these limits
fn within(
    rt: &(impl Abort + AllocGlobal),
    weight: u32,
    width: u32,
    steps: &'static [Step],
    wanted: Result<u64, Refusal>,
) {
    wide(
        rt,
        &empty(rt, weight, width),
        1,
        What::Create(steps),
        wanted,
    );
}

/// Deltas, and whether a command may have them: they stand on at most 2^44 code units, and make as many.
const LENGTHS: [(&[Step], bool); 6] = [
    (&[Step::Embolden(LONGEST)], true),
    (&[Step::Embolden(LONGEST + 1)], false),
    (&[Step::Drop(LONGEST)], true),
    (&[Step::Drop(LONGEST + 1)], false),
    (&[Step::Plain("z"), Step::Embolden(LONGEST - 1)], true),
    (&[Step::Plain("z"), Step::Embolden(LONGEST)], false),
];

#[test]
fn a_command_is_no_longer_than_2_to_the_44(rt: HostRuntime) {
    for (steps, is_taken) in &LENGTHS {
        may_be_asked(&rt, What::Create(steps), *is_taken);
        may_be_asked(&rt, What::Edit(1, steps), *is_taken);
    }
}

fn may_be_asked(rt: &(impl Abort + AllocGlobal), what: What, is_taken: bool) {
    let refused = command(rt, "a", "d", 1, what).err();
    let wanted = if is_taken {
        None
    } else {
        Some(Refusal::BadOps)
    };
    assert_eq!(rt; refused, wanted);
}

const Z: What = What::Create(&[Step::Plain("z")]);

const DROP: What = What::Create(&[Step::Drop(1)]);

/// What is asked for, in order.
const ASKED: [Row; 17] = [
    ("a", "d", 2, Z, Not(Refusal::Gap)),
    ("a", "d", 1, DROP, Not(Refusal::PastEnd)),
    (
        "a",
        "d",
        1,
        What::Create(&[Step::Embolden(1)]),
        Not(Refusal::PastEnd),
    ),
    (
        "a",
        "d",
        1,
        What::Create(&[Step::Keep(1), Step::Plain("z")]),
        Not(Refusal::PastEnd),
    ),
    (
        "a",
        "d",
        1,
        What::Create(&[Step::Plain("abcdef"), Step::Drop(1)]),
        Not(Refusal::PastEnd),
    ),
    (
        "a",
        "d",
        1,
        What::Create(&[Step::Plain("abcdef")]),
        Not(Refusal::TooHeavy),
    ),
    ("a", "d", 1, What::Create(&[Step::Plain("abcde")]), Now(1)),
    ("a", "d", 1, What::Create(&[Step::Plain("abcde")]), Again(1)),
    ("a", "d", 1, DROP, Again(1)),
    ("a", "d", 2, Z, Not(Refusal::Exists)),
    ("b", "d", 1, Z, Not(Refusal::Exists)),
    ("b", "D", 2, Z, Not(Refusal::Gap)),
    (
        "b",
        "D",
        1,
        What::Create(&[Step::Image("u"), Step::Keep(1)]),
        Now(1),
    ),
    ("b", "e", 2, Z, Not(Refusal::Gap)),
    ("b", "e", 1, DROP, Not(Refusal::TooManyDocuments)),
    ("b", "e", 1, Z, Not(Refusal::TooManyDocuments)),
    ("b", "D", 1, Z, Again(1)),
];

#[test]
fn how_creations_are_answered(rt: HostRuntime) {
    let state = after(&rt, small(&rt), &ASKED);
    holds(&rt, &state, "d 1 0\nD 1 0\n");
    made(&rt, &state, 1, &[Step::Plain("abcde")]);
}
