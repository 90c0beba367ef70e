//! The bound of 2^48 code units, which no operation of a message reaches.
use algebra::write_delta;
use attributes::{Attrs, Change, Key, Value};
use compose::compose;
use delta::{Builder, Delta, MAX_LEN, Op};
use refusal::Refusal;
use std::process::Abort;
use xform::{move_past, move_past_all, transform};

/// How many units are retained, whether in bold, the text that is inserted behind them, and how many units are deleted.
type Edit = (u64, bool, &'static str, u64);

/// Two deltas, and what comes of them.
type Row = (Edit, Edit, &'static str);

fn bold(rt: &(impl Abort + AllocGlobal)) -> Change {
    let mut change = Change::new(rt.alloc());
    let key = Key::new(rt.alloc(), "bold").expect(rt, "a name");
    assert!(rt; change.set(key, Some(Value::flag(true))).is_ok());
    change
}

fn kept(rt: &(impl Abort + AllocGlobal), len: u64, is_bold: bool) -> Op {
    let change = if is_bold {
        bold(rt)
    } else {
        Change::new(rt.alloc())
    };
    Op::retain(len, change)
}

fn text(rt: &(impl Abort + AllocGlobal), text: &str) -> Op {
    let text = String::from_str(rt.alloc(), text).expect(rt, "memory");
    Op::text(text, Attrs::new(rt.alloc()))
}

// an operation is taken
fn takes(rt: &impl Abort, builder: &mut Builder, op: Op) {
    assert!(rt; builder.push(op).is_ok());
}

fn delta_of(rt: &(impl Abort + AllocGlobal), edit: &Edit) -> Delta {
    let mut builder = Builder::new(rt.alloc());
    takes(rt, &mut builder, kept(rt, edit.0, edit.1));
    takes(rt, &mut builder, text(rt, edit.2));
    takes(rt, &mut builder, Op::delete(edit.3));
    builder.finish()
}

fn is_written(rt: &(impl Abort + AllocGlobal), delta: &Delta, wanted: &str) {
    let text = write_delta(rt.alloc(), delta).expect(rt, "memory");
    assert_eq!(rt; text.as_str(), wanted);
}

fn is_refused(rt: &(impl Abort + AllocGlobal), refusal: Refusal, wanted: &str) {
    let text = refusal.to_string(rt.alloc()).expect(rt, "memory");
    assert_eq!(rt; text.as_str(), wanted);
}

// the text of a delta, or the refusal, is told as this
fn is_told(rt: &(impl Abort + AllocGlobal), outcome: Result<Delta, Refusal>, wanted: &str) {
    match outcome {
        Ok(delta) => is_written(rt, &delta, wanted),
        Err(refusal) => is_refused(rt, refusal, wanted),
    }
}

const BAD: &str = "error 3 BadOps";

/// With priority, the first delta of each row goes first.
const TRANSFORMED: [Row; 9] = [
    ((0, false, "a", 0), (MAX_LEN, true, "", 0), BAD),
    (
        (0, false, "a", 0),
        (MAX_LEN - 1, true, "", 0),
        "{\"ops\":[{\"retain\":1},{\"attributes\":{\"bold\":true},\"retain\":281474976710655}]}",
    ),
    ((0, false, "a", 0), (MAX_LEN - 1, false, "", 1), BAD),
    (
        (0, false, "a", 0),
        (MAX_LEN - 2, false, "", 1),
        "{\"ops\":[{\"retain\":281474976710655},{\"delete\":1}]}",
    ),
    ((0, false, "a", 0), (MAX_LEN - 1, false, "b", 0), BAD),
    (
        (0, false, "a", 0),
        (MAX_LEN - 2, false, "b", 0),
        "{\"ops\":[{\"retain\":281474976710655},{\"insert\":\"b\"}]}",
    ),
    ((0, false, "a", 0), (1, true, "", MAX_LEN - 1), BAD),
    (
        (MAX_LEN - 1, false, "a", 0),
        (1, true, "", 0),
        "{\"ops\":[{\"attributes\":{\"bold\":true},\"retain\":1}]}",
    ),
    (
        (0, false, "", MAX_LEN),
        (0, false, "", MAX_LEN),
        "{\"ops\":[]}",
    ),
];

/// A last retain counts for nothing, and a cut comes before the bound.
const COMPOSED: [Row; 3] = [
    ((0, false, "", MAX_LEN), (0, false, "", 1), BAD),
    (
        (0, false, "", MAX_LEN),
        (MAX_LEN, false, "", 0),
        "{\"ops\":[{\"delete\":281474976710656}]}",
    ),
    (
        (0, false, "😀", MAX_LEN),
        (1, false, "", MAX_LEN - 1),
        "error 15 CutsPair",
    ),
];

// No clause is kept of what comes of it, so the caller is checked faster.
fn transformed(rt: &impl AllocGlobal, first: &Delta, second: &Delta) -> Result<Delta, Refusal> {
    transform(rt.alloc(), first, second, true)
}

// from a borrowed delta
fn transforms(rt: &(impl Abort + AllocGlobal), row: &Row) {
    let first = delta_of(rt, &row.0);
    let second = delta_of(rt, &row.1);
    is_told(rt, transformed(rt, &first, &second), row.2);
}

// from one that is given away
fn moves(rt: &(impl Abort + AllocGlobal), row: &Row) {
    let first = delta_of(rt, &row.0);
    let moved = move_past(rt.alloc(), &first, delta_of(rt, &row.1));
    is_told(rt, moved, row.2);
}

// and past a list of one
fn moves_past_all(rt: &(impl Abort + AllocGlobal), row: &Row) {
    let first = delta_of(rt, &row.0);
    let copy = delta_of(rt, &row.1).copy(rt.alloc()).expect(rt, "copy");
    is_told(rt, move_past_all(rt.alloc(), &[first], copy), row.2);
}

fn composes(rt: &(impl Abort + AllocGlobal), row: &Row) {
    let first = delta_of(rt, &row.0);
    let second = delta_of(rt, &row.1);
    is_told(rt, compose(rt.alloc(), &first, &second), row.2);
}

#[test]
fn results_keep_the_bound(rt: HostRuntime) {
    for row in &TRANSFORMED {
        transforms(&rt, row);
        moves(&rt, row);
        moves_past_all(&rt, row);
    }
    for row in &COMPOSED {
        composes(&rt, row);
    }
}

// an operation is refused, and the builder makes what it would have made
fn refuses(rt: &impl Abort, builder: &mut Builder, op: Op) {
    assert!(rt; builder.push(op) == Err(Refusal::BadOps));
}

#[test]
fn a_full_builder_refuses(rt: HostRuntime) {
    let mut builder = Builder::new(rt.alloc());
    takes(&rt, &mut builder, Op::delete(MAX_LEN));
    refuses(&rt, &mut builder, Op::delete(1));
    refuses(&rt, &mut builder, Op::delete(u64::MAX));
    refuses(&rt, &mut builder, kept(&rt, 1, false));
    takes(&rt, &mut builder, text(&rt, "a"));
    let delta = builder.finish();
    assert_eq!(rt; (delta.base_len(), delta.out_len()), (MAX_LEN, 1));
    let wanted = "{\"ops\":[{\"insert\":\"a\"},{\"delete\":281474976710656}]}";
    is_told(&rt, Ok(delta), wanted);
}

fn image(rt: &(impl Abort + AllocGlobal)) -> Op {
    let attrs = Attrs::new(rt.alloc());
    Op::embed(rt.alloc(), "image", Value::flag(true), attrs).expect(rt, "image")
}

#[test]
fn a_builder_full_on_both_sides_refuses(rt: HostRuntime) {
    let mut builder = Builder::new(rt.alloc());
    takes(&rt, &mut builder, kept(&rt, MAX_LEN, false));
    refuses(&rt, &mut builder, kept(&rt, 1, false));
    refuses(&rt, &mut builder, kept(&rt, u64::MAX, false));
    refuses(&rt, &mut builder, text(&rt, "a"));
    refuses(&rt, &mut builder, Op::delete(1));
    refuses(&rt, &mut builder, image(&rt));
    takes(&rt, &mut builder, kept(&rt, 0, true));
    assert_eq!(rt; builder.finish().ops().len(), 0);
}
