//! Deltas of as many operations as a message may have, and texts in many pieces.
use algebra::Task;
use attributes::Attrs;
use delta::{Builder, Op, OpRef};
use std::process::Abort;

// puts a text behind another one
fn push_text(rt: &impl Abort, text: &mut String, more: &str) {
    assert!(rt; text.push_str(more).is_ok());
}

// a word of so many operations of one text
fn repeated(rt: &(impl Abort + AllocGlobal), ops: &str, count: usize) -> String {
    let mut text = String::new(rt.alloc());
    push_text(rt, &mut text, "{\"ops\":[");
    for i in 0..count {
        push_text(rt, &mut text, if i == 0 { "" } else { "," });
        push_text(rt, &mut text, ops);
    }
    push_text(rt, &mut text, "]}");
    text
}

/// Two words, each a text of operations that stands in it so many times.
type Words = (&'static str, usize, &'static str, usize);

const BOLD: &str = "{\"attributes\":{\"bold\":true},\"retain\":1},{\"retain\":1}";

const BOLD_AND_INSERT: &str = "{\"attributes\":{\"bold\":true},\"retain\":1},{\"insert\":\"b\"}";

const BOLD_AND_DELETE: &str = "{\"attributes\":{\"bold\":true},\"retain\":1},{\"delete\":1}";

const RETAIN_AND_INSERT: &str = "{\"retain\":1},{\"insert\":\"a\"}";

const LETTERS: &str = "{\"insert\":\"x\"},{\"attributes\":{\"italic\":true},\"insert\":\"y\"}";

/// The words of 1,024 operations that don't merge, and the operations that come of them as often.
const UNMERGED: [(&str, Words, &str); 4] = [
    (
        "compose",
        (RETAIN_AND_INSERT, 512, BOLD, 512),
        "{\"attributes\":{\"bold\":true},\"retain\":1},{\"insert\":\"a\"}",
    ),
    (
        "transform",
        (RETAIN_AND_INSERT, 512, BOLD_AND_INSERT, 512),
        "{\"attributes\":{\"bold\":true},\"retain\":1},{\"retain\":1},{\"insert\":\"b\"}",
    ),
    (
        "invert",
        (BOLD_AND_DELETE, 512, LETTERS, 512),
        "{\"attributes\":{\"bold\":null},\"retain\":1},{\"attributes\":{\"italic\":true},\"insert\":\"y\"}",
    ),
    (
        "apply",
        (LETTERS, 512, BOLD, 512),
        "{\"attributes\":{\"bold\":true},\"insert\":\"x\"},{\"attributes\":{\"italic\":true},\"insert\":\"y\"}",
    ),
];

fn task<'a>(call: &str, first: &'a str, second: &'a str) -> Task<'a> {
    match call {
        "compose" => Task::Compose { first, second },
        "transform" => Task::Transform {
            first,
            second,
            priority: true,
        },
        "invert" => Task::Invert {
            delta: first,
            base: second,
        },
        _ => Task::Apply {
            document: first,
            delta: second,
        },
    }
}

// what a call comes to, or the refusal as it is told
fn told(rt: &(impl Abort + AllocGlobal), call: &str, first: &str, second: &str) -> String {
    match task(call, first, second).answer(rt.alloc()) {
        Ok(text) => text,
        Err(refusal) => refusal.to_string(rt.alloc()).expect(rt, "memory"),
    }
}

fn is_told(rt: &(impl Abort + AllocGlobal), call: &str, words: &Words, wanted: &str) {
    let first = repeated(rt, words.0, words.1);
    let second = repeated(rt, words.2, words.3);
    let found = told(rt, call, first.as_str(), second.as_str());
    assert_eq!(rt; found.as_str(), wanted, "{call}");
}

#[test]
fn a_thousand_operations_stay_apart(rt: HostRuntime) {
    for (call, words, made) in &UNMERGED {
        is_told(&rt, call, words, repeated(&rt, made, 512).as_str());
    }
}

const DELETE: &str = "{\"delete\":1}";

/// A word has 1,024 operations at most, and faults are found from left to right.
const COUNTED: [(Words, &str); 4] = [
    (
        (DELETE, 1024, DELETE, 1024),
        "{\"ops\":[{\"delete\":2048}]}",
    ),
    ((DELETE, 1025, DELETE, 1), "error 4 TooManyOps"),
    (("null", 1, DELETE, 1025), "error 3 BadOps"),
    ((DELETE, 1025, "[", 1), "error 4 TooManyOps"),
];

#[test]
fn at_most_1024_operations_are_read(rt: HostRuntime) {
    for (words, wanted) in &COUNTED {
        is_told(&rt, "compose", words, wanted);
    }
}

// ten bytes and seven code units
const PIECE: &str = "ab😀cdé";

fn insert_of(rt: &(impl Abort + AllocGlobal), text: &str) -> Op {
    let text = String::from_str(rt.alloc(), text).expect(rt, "memory");
    Op::text(text, Attrs::new(rt.alloc()))
}

fn push(rt: &impl Abort, builder: &mut Builder, op: Op) {
    assert!(rt; builder.push(op).is_ok());
}

#[test]
fn a_text_is_merged_of_many_pieces(rt: HostRuntime) {
    let mut builder = Builder::new(rt.alloc());
    push(&rt, &mut builder, Op::delete(1));
    for _ in 0..7_000 {
        push(&rt, &mut builder, insert_of(&rt, PIECE));
    }
    let delta = builder.finish();
    assert_eq!(rt; (delta.ops().len(), delta.out_len()), (2, 49_000));
    let OpRef::Text(text, _) = delta.ops()[0].get() else {
        return assert!(rt; false, "no text");
    };
    assert_eq!(rt; text.len(), 70_000);
    assert!(rt;
        text.as_bytes()
            .chunks(10)
            .all(|chunk| chunk == PIECE.as_bytes())
    );
}
