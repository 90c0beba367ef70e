//! Deltas by their spelling, byte for byte.
use crate::stores::{are_bytes, extend, with_bytes_at};
use attributes::{Attrs, Change, Key, Value};
use delta::{Builder, Delta, Op};
use journal::{read_delta, write_delta};
use revision::delta_width;
use std::process::Abort;

// ret 1 {bold: null}
const UNBOLD: [u8; 24] = [
    1, 0, 0, 0, // the count
    3, 1, 0, 0, 0, 0, 0, 0, 0, // the tag, the length
    1, 0, 0, 0, 4, 0, b'b', b'o', b'l', b'd', 0, // one name, which is removed
];

// ins "x" {bold: true}, del 2
const BOLD: [u8; 30] = [
    2, 0, 0, 0, // the count
    1, 1, 0, 0, 0, b'x', // the tag, the text
    1, 0, 0, 0, 4, 0, b'b', b'o', b'l', b'd', 2, // one name, true
    4, 2, 0, 0, 0, 0, 0, 0, 0, // the tag, the length
];

// an embed {image: "u"} with {a: -1, b: false}
const IMAGE: [u8; 38] = [
    1, 0, 0, 0, // the count
    2, 5, 0, b'i', b'm', b'a', b'g', b'e', 4, 1, 0, 0, 0, b'u', // the tag, the name, the value
    2, 0, 0, 0, // two names
    1, 0, b'a', 3, 255, 255, 255, 255, 255, 255, 255, 255, // -1
    1, 0, b'b', 1, // false
];

fn delta_of(rt: &(impl Abort + AllocGlobal), op: Op) -> Delta {
    let mut builder = Builder::new(rt.alloc());
    assert!(rt; builder.push(op).is_ok());
    builder.finish()
}

fn key(rt: &(impl Abort + AllocGlobal), name: &str) -> Key {
    Key::new(rt.alloc(), name).expect(rt, "a name")
}

fn unbold(rt: &(impl Abort + AllocGlobal)) -> Delta {
    let mut change = Change::new(rt.alloc());
    assert!(rt; change.set(key(rt, "bold"), None).is_ok());
    delta_of(rt, Op::retain(1, change))
}

fn bold(rt: &(impl Abort + AllocGlobal)) -> Delta {
    let mut attrs = Attrs::new(rt.alloc());
    assert!(rt; attrs.set(key(rt, "bold"), Value::flag(true)).is_ok());
    let text = String::from_str(rt.alloc(), "x").expect(rt, "memory");
    let mut builder = Builder::new(rt.alloc());
    assert!(rt; builder.push(Op::delete(2)).is_ok());
    assert!(rt; builder.push(Op::text(text, attrs)).is_ok());
    builder.finish()
}

fn image(rt: &(impl Abort + AllocGlobal)) -> Delta {
    let minus_one = Value::whole(-1).expect(rt, "a number");
    let mut attrs = Attrs::new(rt.alloc());
    assert!(rt; attrs.set(key(rt, "b"), Value::flag(false)).is_ok());
    assert!(rt; attrs.set(key(rt, "a"), minus_one).is_ok());
    let text = Value::text(rt.alloc(), "u").expect(rt, "memory");
    let op = Op::embed(rt.alloc(), "image", text, attrs).expect(rt, "an embed");
    delta_of(rt, op)
}

/// A delta is written as these bytes.
fn is_written(rt: &(impl Abort + AllocGlobal), delta: &Delta, bytes: &[u8]) {
    assert!(rt; delta_width(delta) < 1 << 32);
    let mut out = Vec::new(rt.alloc());
    write_delta(&mut out, delta).expect(rt, "memory");
    are_bytes(rt, &out, bytes);
}

#[test]
fn deltas_are_written(rt: HostRuntime) {
    is_written(&rt, &unbold(&rt), &UNBOLD);
    is_written(&rt, &bold(&rt), &BOLD);
    is_written(&rt, &image(&rt), &IMAGE);
    assert_eq!(rt; delta_width(&image(&rt)), 38);
}

/// The bytes and two more are read, and what was read is written as the bytes.
fn is_read(rt: &(impl Abort + AllocGlobal), bytes: &[u8]) {
    let longer = with_bytes_at(rt, bytes, bytes.len(), &[7, 9]);
    let found = read_delta(rt.alloc(), &longer).expect(rt, "memory");
    let (delta, rest) = found.expect(rt, "a delta");
    are_bytes(rt, rest, &[7, 9]);
    is_written(rt, &delta, bytes);
}

#[test]
fn deltas_are_read(rt: HostRuntime) {
    is_read(&rt, &[0, 0, 0, 0]);
    is_read(&rt, &UNBOLD);
    is_read(&rt, &BOLD);
    is_read(&rt, &IMAGE);
}

/// What makes bytes no spelling: in words, and the bytes that stand in the place of those from a first to a last one,
/// which is left out.
pub type Splice = (&'static str, usize, usize, &'static [u8]);

/// The bytes with others in the place of some.
pub fn spliced(rt: &(impl Abort + AllocGlobal), bytes: &[u8], row: &Splice) -> Vec<u8> {
    let head = bytes.get(..row.1).expect(rt, "so many bytes");
    let mut all = head.to_vec(rt.alloc()).expect(rt, "memory");
    extend(rt, &mut all, row.3);
    extend(rt, &mut all, bytes.get(row.2..).expect(rt, "so many bytes"));
    all
}

fn is_no_delta(rt: &(impl Abort + AllocGlobal), bytes: &[u8], what: &str) {
    let found = read_delta(rt.alloc(), bytes).expect(rt, "memory");
    assert!(rt; found.is_none(), "{what}");
}

fn spell_no_delta(rt: &(impl Abort + AllocGlobal), bytes: &[u8], rows: &[Splice]) {
    for row in rows {
        is_no_delta(rt, &spliced(rt, bytes, row), row.0);
    }
}

const OTHER_RETAINS: [Splice; 7] = [
    ("a count of 2", 0, 1, &[2]),
    ("another tag", 4, 5, &[5]),
    ("the tag 0", 4, 5, &[0]),
    ("a length of 0", 5, 6, &[0]),
    ("a length above 2^48", 5, 13, &[1, 0, 0, 0, 0, 0, 1, 0]),
    ("a last retain without attributes", 13, 24, &[0, 0, 0, 0]),
    ("a name without a byte", 17, 23, &[0, 0]),
];

const OTHER_INSERTS: [Splice; 7] = [
    ("an empty text", 5, 10, &[0, 0, 0, 0]),
    ("a text that is no UTF-8", 9, 10, &[255]),
    ("null on an insert", 20, 21, &[0]),
    ("another value", 20, 21, &[5]),
    ("a name that is no UTF-8", 16, 17, &[255]),
    ("a delete of length 0", 22, 23, &[0]),
    (
        "the delete before the insert",
        4,
        21,
        &[4, 1, 0, 0, 0, 0, 0, 0, 0],
    ),
];

const OTHER_VALUES: [Splice; 5] = [
    ("a null embed", 12, 18, &[0]),
    ("names out of order", 36, 37, b"A"),
    ("a name twice", 36, 37, b"a"),
    ("the number 2^53", 26, 34, &[0, 0, 0, 0, 0, 0, 32, 0]),
    ("the number -2^53", 26, 34, &[0, 0, 0, 0, 0, 0, 224, 255]),
];

#[test]
fn other_bytes_are_no_delta(rt: HostRuntime) {
    spell_no_delta(&rt, &UNBOLD, &OTHER_RETAINS);
    spell_no_delta(&rt, &BOLD, &OTHER_INSERTS);
    spell_no_delta(&rt, &IMAGE, &OTHER_VALUES);
}

#[test]
fn a_delta_that_is_cut_is_none(rt: HostRuntime) {
    for len in 0..IMAGE.len() {
        is_no_delta(&rt, &IMAGE[..len], "a delta that is cut");
    }
}
