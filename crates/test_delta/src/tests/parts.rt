//! Calls on single values, with ample memory.
use algebra::Task;
use attributes::{Attrs, Change, Key, Value, ValueRef};
use delta::{Builder, Delta, Op};
use optext::{read_json, read_ops};
use refusal::Refusal;
use std::process::Abort;
use xform::{move_past, move_past_all, transform};

fn delta_of(rt: &(impl Abort + AllocGlobal), ops: &str) -> Delta {
    let value = read_json(rt.alloc(), ops.as_bytes()).expect(rt, "JSON");
    let operations = value.as_array().expect(rt, "an array");
    read_ops(rt.alloc(), operations.as_slice()).expect(rt, "a delta")
}

/// One operation of each kind.
const EACH: &str =
    "[{\"insert\":\"a\",\"attributes\":{\"bold\":true}},{\"insert\":{\"image\":7}},{\"retain\":1,\"attributes\":{\"bold\":null}},{\"delete\":1}]";

fn key(rt: &(impl Abort + AllocGlobal), name: &str) -> Key {
    Key::new(rt.alloc(), name).expect(rt, "a name")
}

fn value(rt: &(impl Abort + AllocGlobal), text: &str) -> Value {
    Value::text(rt.alloc(), text).expect(rt, "memory")
}

fn named(rt: &(impl Abort + AllocGlobal), name: &str, text: &str) -> Attrs {
    let mut attrs = Attrs::new(rt.alloc());
    assert!(rt; attrs.set(key(rt, name), value(rt, text)).is_ok());
    attrs
}

fn removal(rt: &(impl Abort + AllocGlobal), name: &str) -> Change {
    let mut change = Change::new(rt.alloc());
    change.set(key(rt, name), None).expect(rt, "memory");
    change
}

fn copy_of(rt: &(impl Abort + AllocGlobal), delta: &Delta) -> Delta {
    delta.copy(rt.alloc()).expect(rt, "copy")
}

#[test]
fn bytes_that_are_no_text_are_refused(rt: HostRuntime) {
    assert_eq!(rt;
        read_json(rt.alloc(), b"\"\xff\"").err(),
        Some(Refusal::BadLine)
    );
}

#[test]
fn a_delta_comes_apart(rt: HostRuntime) {
    let delta = delta_of(&rt, EACH);
    let copy = copy_of(&rt, &delta);
    let mut builder = Builder::new(rt.alloc());
    for op in delta.into_ops(rt.alloc()).expect(&rt, "operations") {
        assert!(rt; builder.push(op).is_ok());
    }
    assert!(rt; builder.finish() == copy);
}

/// Keeps three units and inserts one.
const LED: &str = "[{\"retain\":3},{\"insert\":\"a\"}]";

fn shared(rt: &(impl Abort + AllocGlobal)) -> Delta {
    delta_of(rt, LED).share(rt.alloc()).expect(rt, "memory")
}

// a delta keeps three units and inserts one
fn is_led(rt: &(impl Abort + AllocGlobal), delta: &Delta) {
    assert!(rt; *delta == delta_of(rt, LED));
}

fn has_ops(rt: &(impl Abort + AllocGlobal), delta: Delta, wanted: &[Op]) {
    let ops = delta.into_ops(rt.alloc()).expect(rt, "operations");
    assert!(rt; ops.as_slice() == wanted);
}

#[test]
fn a_shared_delta_comes_apart(rt: HostRuntime) {
    let delta = shared(&rt);
    let copy = copy_of(&rt, &delta);
    assert!(rt; delta == copy);
    is_led(&rt, &copy);
    has_ops(&rt, delta, copy.ops());
    is_led(&rt, &copy);
}

// a delta moved past two inserted units keeps so many
fn leads_behind_two(rt: &(impl Abort + AllocGlobal), delta: Delta, wanted: Option<u64>) {
    let first = delta_of(rt, "[{\"insert\":\"xy\"}]");
    let moved = move_past(rt.alloc(), &first, delta).expect(rt, "moved");
    assert!(rt; moved.lead() == wanted);
}

#[test]
fn a_shared_delta_is_moved(rt: HostRuntime) {
    let delta = shared(&rt);
    let copy = copy_of(&rt, &delta);
    leads_behind_two(&rt, delta, Some(5));
    assert!(rt; copy.lead() == Some(3));
    is_led(&rt, &copy);
}

/// Three deltas in turn, each made on the document after the one before it, a delta of the document before them all, and
/// what it is after them.
type Past = ([&'static str; 3], &'static str, &'static str);

/// Inserts at the beginning move what stands behind them, and what is inserted there too; what ends before a change stays;
/// and what stood within deleted units comes to where these stood.
const PAST_THREE: [Past; 6] = [
    (
        [
            "[{\"insert\":\"xy\"}]",
            "[{\"insert\":\"xy\"}]",
            "[{\"insert\":\"xy\"}]",
        ],
        LED,
        "[{\"retain\":9},{\"insert\":\"a\"}]",
    ),
    (
        [
            "[{\"insert\":\"xy\"}]",
            "[{\"insert\":\"xy\"}]",
            "[{\"insert\":\"xy\"}]",
        ],
        "[{\"insert\":\"a\"}]",
        "[{\"retain\":6},{\"insert\":\"a\"}]",
    ),
    (
        ["[{\"delete\":1}]", "[{\"delete\":1}]", "[{\"delete\":1}]"],
        LED,
        "[{\"insert\":\"a\"}]",
    ),
    (
        [
            "[{\"insert\":\"xy\"}]",
            "[{\"retain\":4},{\"delete\":2}]",
            "[{\"insert\":\"b\"}]",
        ],
        LED,
        "[{\"retain\":5},{\"insert\":\"a\"}]",
    ),
    (
        [
            "[{\"retain\":9},{\"insert\":\"z\"}]",
            "[{\"insert\":\"b\"}]",
            "[{\"retain\":9},{\"delete\":1}]",
        ],
        LED,
        "[{\"retain\":4},{\"insert\":\"a\"}]",
    ),
    (
        [
            "[{\"insert\":\"x\"}]",
            "[{\"delete\":1}]",
            "[{\"insert\":\"xy\"}]",
        ],
        "[{\"attributes\":{\"bold\":true},\"retain\":1}]",
        "[{\"retain\":2},{\"attributes\":{\"bold\":true},\"retain\":1}]",
    ),
];

fn push(rt: &impl Abort, deltas: &mut Vec<Delta>, delta: Delta) {
    deltas.push(delta).expect(rt, "memory");
}

fn deltas_of(rt: &(impl Abort + AllocGlobal), texts: &[&str]) -> Vec<Delta> {
    let mut deltas = Vec::new(rt.alloc());
    for text in texts {
        push(rt, &mut deltas, delta_of(rt, text));
    }
    deltas
}

fn transformed_in_turn(rt: &(impl Abort + AllocGlobal), firsts: &[Delta], second: Delta) -> Delta {
    let mut after = second;
    for first in firsts {
        after = transform(rt.alloc(), first, &after, true).expect(rt, "in turn");
    }
    after
}

fn moved_past_all(rt: &(impl Abort + AllocGlobal), firsts: &[Delta], second: Delta) -> Delta {
    move_past_all(rt.alloc(), firsts, second).expect(rt, "moved")
}

fn is_moved(rt: &(impl Abort + AllocGlobal), firsts: &[&str], second: &str, after: &str) {
    let firsts = deltas_of(rt, firsts);
    let after = delta_of(rt, after);
    assert!(rt; moved_past_all(rt, &firsts, delta_of(rt, second)) == after);
    assert!(rt; transformed_in_turn(rt, &firsts, delta_of(rt, second)) == after);
}

#[test]
fn a_delta_is_moved_past_many(rt: HostRuntime) {
    for (firsts, second, after) in &PAST_THREE {
        is_moved(&rt, firsts, second, after);
    }
}

// attributes have a color, and their copy is equal
fn have_color(rt: &(impl Abort + AllocGlobal), attrs: &Attrs) {
    assert!(rt; attrs.copy(rt.alloc()).expect(rt, "copy") == *attrs);
    assert!(rt; attrs.get("color").is_some() && attrs.get("bold").is_none());
}

// a change takes a color away, and its copy is equal
fn removes_color(rt: &(impl Abort + AllocGlobal), change: &Change) {
    assert!(rt; change.copy(rt.alloc()).expect(rt, "copy") == *change);
    assert!(rt; change.contains("color") && change.get("bold").is_none() && !change.is_empty());
}

#[test]
fn attributes_are_found_and_copied(rt: HostRuntime) {
    have_color(&rt, &named(&rt, "color", "red"));
    removes_color(&rt, &removal(&rt, "color"));
}

// whether a value is this one
fn is_text(value: &Value, text: &str) -> bool {
    match value.get() {
        ValueRef::Text(found) => found == text,
        ValueRef::Whole(_) | ValueRef::Flag(_) => false,
    }
}

// whether a value and its copy are this one
fn is_kept(rt: &(impl Abort + AllocGlobal), value: &Value, text: &str) -> bool {
    let copy = value.copy(rt.alloc()).expect(rt, "copy");
    is_text(&copy, text) && copy == *value
}

#[test]
fn values_and_names_are_copied(rt: HostRuntime) {
    assert!(rt; is_kept(&rt, &value(&rt, "red"), "red"));
    let seven = Value::whole(7).expect(&rt, "a number");
    assert!(rt; !is_kept(&rt, &seven, "7"));
    let key = key(&rt, "color");
    assert!(rt; key.copy(rt.alloc()).expect(&rt, "copy") == key);
}

fn nothing(rt: &impl AllocGlobal, attrs: Attrs) -> Op {
    Op::text(String::new(rt.alloc()), attrs)
}

// an operation inserts nothing once its color is taken away
fn loses_color(rt: &(impl Abort + AllocGlobal), op: Op, before: &Op) {
    let change = removal(rt, "color");
    let after = op.then(rt.alloc(), &change).expect(rt, "then");
    assert!(rt; after != *before);
    assert!(rt; after == nothing(rt, Attrs::new(rt.alloc())));
}

#[test]
fn an_operation_is_changed(rt: HostRuntime) {
    let op = nothing(&rt, named(&rt, "color", "red"));
    let copy = op.copy(rt.alloc()).expect(&rt, "copy");
    assert!(rt; copy == op);
    loses_color(&rt, op, &copy);
}

#[test]
fn values_are_shown(rt: HostRuntime) {
    let task = Task::Compose {
        first: "x",
        second: "y",
    };
    let shown = format!(in rt.alloc(); "{task:?}").expect(&rt, "memory");
    assert_eq!(rt; shown.as_str(), "Compose { first: \"x\", second: \"y\" }");
    let shown = format!(in rt.alloc(); "{:?}", ValueRef::Whole(-7)).expect(&rt, "memory");
    assert_eq!(rt; shown.as_str(), "Whole(-7)");
}
