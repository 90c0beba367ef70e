//! Deltas by what they do, step by step.
use attributes::{Attrs, Change, Key, Value};
use delta::{Builder, Delta, Op};
use std::process::Abort;

/// An operation.
#[derive(Clone, Copy)]
pub enum Step {
    /// Inserts a text without attributes.
    Plain(&'static str),
    /// Inserts a text with `bold` set.
    Bold(&'static str),
    /// Inserts a text with a text at a name.
    Linked(&'static str, &'static str, &'static str),
    /// Inserts an embed of the name `image`.
    Image(&'static str),
    /// Keeps units without a change.
    Keep(u64),
    /// Keeps units and sets `bold`.
    Embolden(u64),
    /// Keeps units and sets `italic`.
    Slant(u64),
    /// Keeps units, removes `bold` and sets `italic`.
    Restyle(u64),
    /// Keeps a unit and removes so many names of ten bytes, at most 16, and this one, where it isn't empty.
    Clear(usize, &'static str),
    /// Deletes units.
    Drop(u64),
}

fn key(rt: &(impl Abort + AllocGlobal), name: &str) -> Key {
    Key::new(rt.alloc(), name).expect(rt, "a name")
}

fn value(rt: &(impl Abort + AllocGlobal), text: &str) -> Value {
    Value::text(rt.alloc(), text).expect(rt, "memory")
}

fn named(rt: &(impl Abort + AllocGlobal), name: &str, value: Value) -> Attrs {
    let mut attrs = Attrs::new(rt.alloc());
    assert!(rt; attrs.set(key(rt, name), value).is_ok());
    attrs
}

// a change with one more name, which is set, or removed
fn also(rt: &(impl Abort + AllocGlobal), change: Change, name: &str, is_set: bool) -> Change {
    let mut change = change;
    let value = if is_set {
        Some(Value::flag(true))
    } else {
        None
    };
    assert!(rt; change.set(key(rt, name), value).is_ok());
    change
}

fn only(rt: &(impl Abort + AllocGlobal), name: &str) -> Change {
    also(rt, Change::new(rt.alloc()), name, true)
}

fn restyled(rt: &(impl Abort + AllocGlobal)) -> Change {
    also(rt, only(rt, "italic"), "bold", false)
}

/// Names of ten bytes.
const REMOVED: [&str; 16] = [
    "removed_00",
    "removed_01",
    "removed_02",
    "removed_03",
    "removed_04",
    "removed_05",
    "removed_06",
    "removed_07",
    "removed_08",
    "removed_09",
    "removed_10",
    "removed_11",
    "removed_12",
    "removed_13",
    "removed_14",
    "removed_15",
];

fn cleared(rt: &(impl Abort + AllocGlobal), count: usize, last: &str) -> Change {
    let mut change = Change::new(rt.alloc());
    for name in REMOVED.iter().take(count) {
        change = also(rt, change, name, false);
    }
    if last.is_empty() {
        return change;
    }
    also(rt, change, last, false)
}

fn text(rt: &(impl Abort + AllocGlobal), text: &str, attrs: Attrs) -> Op {
    Op::text(
        String::from_str(rt.alloc(), text).expect(rt, "memory"),
        attrs,
    )
}

fn image(rt: &(impl Abort + AllocGlobal), url: &str) -> Op {
    Op::embed(rt.alloc(), "image", value(rt, url), Attrs::new(rt.alloc())).expect(rt, "an embed")
}

fn op_of(rt: &(impl Abort + AllocGlobal), step: Step) -> Op {
    match step {
        Step::Plain(plain) => text(rt, plain, Attrs::new(rt.alloc())),
        Step::Bold(bold) => text(rt, bold, named(rt, "bold", Value::flag(true))),
        Step::Linked(linked, name, of) => text(rt, linked, named(rt, name, value(rt, of))),
        Step::Image(url) => image(rt, url),
        Step::Keep(len) => Op::retain(len, Change::new(rt.alloc())),
        Step::Embolden(len) => Op::retain(len, only(rt, "bold")),
        Step::Slant(len) => Op::retain(len, only(rt, "italic")),
        Step::Restyle(len) => Op::retain(len, restyled(rt)),
        Step::Clear(count, last) => Op::retain(1, cleared(rt, count, last)),
        Step::Drop(len) => Op::delete(len),
    }
}

fn push(rt: &impl Abort, builder: &mut Builder, op: Op) {
    assert!(rt; builder.push(op).is_ok());
}

/// The delta of these steps.
pub fn delta_of(rt: &(impl Abort + AllocGlobal), steps: &[Step]) -> Delta {
    let mut builder = Builder::new(rt.alloc());
    for step in steps {
        push(rt, &mut builder, op_of(rt, *step));
    }
    builder.finish()
}

/// The delta that inserts a text.
pub fn inserted(rt: &(impl Abort + AllocGlobal), plain: &str) -> Delta {
    let mut builder = Builder::new(rt.alloc());
    push(rt, &mut builder, text(rt, plain, Attrs::new(rt.alloc())));
    builder.finish()
}
