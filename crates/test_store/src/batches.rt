//! Batches by their spelling, byte for byte.
use crate::deltas::{Splice, spliced};
use crate::jobs::inserts;
use crate::stores::{are_bytes, is_text};
use journal::{decode_batch, encode_batch};
use revision::Taken;
use std::process::Abort;

// The source "a" creates the document "d" with the text "z".
const CREATION: [u8; 45] = [
    1, 0, 0, 0, // the count
    1, 0, 0, 0, 0, 1, 0, 0, 0, 0, 0, 0, 0, // the tag, the document, the revision
    1, 0, b'a', 1, 0, 0, 0, 0, 0, 0, 0, // the source and its number
    1, 0, b'd', // the name
    1, 0, 0, 0, 1, 1, 0, 0, 0, b'z', 0, 0, 0, 0, // the delta
];

// A batch of one entry, by the source "a", which inserts "z".
fn is_creation(rt: &impl Abort, batch: &[Taken]) {
    match batch {
        [taken] => {
            is_text(rt, taken.source().as_str(), "a");
            assert!(rt; inserts(taken.delta(), "z"));
        }
        _ => panic!(rt; "one entry"),
    }
}

#[test]
fn a_creation_is_read_and_written(rt: HostRuntime) {
    let found = decode_batch(rt.alloc(), &CREATION).expect(&rt, "memory");
    let batch = found.expect(&rt, "a batch");
    is_creation(&rt, &batch);
    let bytes = encode_batch(rt.alloc(), &batch).expect(&rt, "memory");
    are_bytes(&rt, &bytes, &CREATION);
}

const OTHER_BYTES: [Splice; 14] = [
    ("a count of 0", 0, 1, &[0]),
    ("a count of 0 and nothing behind it", 0, 45, &[0, 0, 0, 0]),
    ("a count of 2^32 - 1", 0, 4, &[255, 255, 255, 255]),
    ("another tag", 4, 5, &[2]),
    ("revision 2", 9, 10, &[2]),
    ("an empty source", 17, 20, &[0, 0]),
    ("number 2", 20, 21, &[2]),
    ("a name with a blank", 30, 31, b" "),
    ("two operations", 31, 32, &[2]),
    ("an empty text", 36, 41, &[0, 0, 0, 0]),
    ("a length of 2^32 - 1", 36, 40, &[255, 255, 255, 255]),
    ("a text that is no UTF-8", 40, 41, &[255]),
    ("a count of attributes", 41, 42, &[1]),
    ("a byte more", 45, 45, &[0]),
];

fn is_no_batch(rt: &(impl Abort + AllocGlobal), bytes: &[u8], what: &str) {
    let found = decode_batch(rt.alloc(), bytes).expect(rt, "memory");
    assert!(rt; found.is_none(), "{what}");
}

#[test]
fn other_bytes_are_no_batch(rt: HostRuntime) {
    for row in &OTHER_BYTES {
        is_no_batch(&rt, &spliced(&rt, &CREATION, row), row.0);
    }
}

#[test]
fn a_batch_that_is_cut_is_none(rt: HostRuntime) {
    for len in 0..CREATION.len() {
        is_no_batch(&rt, &CREATION[..len], "a batch that is cut");
    }
}

// An edit, of document 0 to revision 2, by the number 2 of the source a: it inserts "x" behind one unit.
pub const EDIT: [u8; 55] = [
    1, 0, 0, 0, //
    2, 0, 0, 0, 0, 2, 0, 0, 0, 0, 0, 0, 0, //
    1, 0, b'a', 2, 0, 0, 0, 0, 0, 0, 0, //
    2, 0, 0, 0, //
    3, 1, 0, 0, 0, 0, 0, 0, 0, 0, 0, 0, 0, //
    1, 1, 0, 0, 0, b'x', 0, 0, 0, 0,
];

// An edit is a batch, just from revision 2 on.
#[test]
fn an_edit_makes_no_first_revision(rt: HostRuntime) {
    assert!(rt;
        decode_batch(rt.alloc(), &EDIT)
            .expect(&rt, "memory")
            .is_some()
    );
    let mut first = EDIT;
    first[9] = 1;
    is_no_batch(&rt, &first, "an edit that makes revision 1");
}
