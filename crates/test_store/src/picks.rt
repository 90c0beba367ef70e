//! A document with two open cells and an entry, by each pick.
use crate::batches::EDIT;
use crate::stores::{is_picked_as, small_device, with_bytes_at};
use recovery::Pick;
use std::process::Abort;

// The source "a" created "d" with "z": the cell's gate, the body's length, the body.
pub const FIRST: [u8; 59] = [
    0xa5, 54, 0, 0, 0, // the gate, the length
    0, 0, 0, 0, 1, 0, b'd', 1, 0, 0, 0, 0, 0, 0, 0, 1, // the document, its name, the revision
    1, 0, 0, 0, 1, 1, 0, 0, 0, b'z', 0, 0, 0, 0, // the content
    1, 0, 0, 0, 1, 0, b'a', // the count of sources, a name
    1, 0, 0, 0, 0, 0, 0, 0, 1, 1, 0, 0, 0, 0, 0, 0, 0, // its number, and its window: one revision
];

// It then appended "x". Its window has both numbers.
pub const SECOND: [u8; 68] = [
    0xa5, 63, 0, 0, 0, //
    0, 0, 0, 0, 1, 0, b'd', 2, 0, 0, 0, 0, 0, 0, 0, 1, //
    1, 0, 0, 0, 1, 2, 0, 0, 0, b'z', b'x', 0, 0, 0, 0, //
    1, 0, 0, 0, 1, 0, b'a', //
    2, 0, 0, 0, 0, 0, 0, 0, 2, 1, 0, 0, 0, 0, 0, 0, 0, 2, 0, 0, 0, 0, 0, 0, 0,
];

// The gate and the number of slot 0, and the gate and the length of the record, whose body is the edit.
const SLOT_HEAD: [u8; 14] = [0xa5, 1, 0, 0, 0, 0, 0, 0, 0, 0xa5, 55, 0, 0, 0];

/// The bytes of such a device.
pub fn written(rt: &(impl Abort + AllocGlobal)) -> Vec<u8> {
    let bytes = with_bytes_at(rt, small_device(rt).bytes(), 64, &FIRST);
    let bytes = with_bytes_at(rt, &bytes, 320, &SECOND);
    let bytes = with_bytes_at(rt, &bytes, 1_088, &SLOT_HEAD);
    with_bytes_at(rt, &bytes, 1_102, &EDIT)
}

/// A place, what is written there, and what is opened then by the newer and by the older pick.
const ROWS: [(usize, &[u8], &str, &str); 12] = [
    (33, &[0], "d 2 zx\n", "d 2 zx\n"),
    // One cell is closed, or the slot.
    (64, &[0], "d 2 zx\n", "d 2 zx\n"),
    (320, &[0], "d 2 zx\n", "d 2 zx\n"),
    (1_088, &[0], "d 2 zx\n", "d 1 z\n"),
    // What the newer cell has is seen by the newer pick alone.
    (351, b"y", "d 2 zy\n", "d 2 zx\n"),
    // The entry doesn't follow what the older cell knows of the source.
    (106, &[7], "d 2 zx\n", "error 32 Damaged"),
    // No milestone of this document: a length, a number, a revision of 0, and a source's that is above it.
    (65, &[55], "error 32 Damaged", "error 32 Damaged"),
    (69, &[1], "error 32 Damaged", "error 32 Damaged"),
    (76, &[0], "error 32 Damaged", "error 32 Damaged"),
    (115, &[2], "error 32 Damaged", "error 32 Damaged"),
    // A name with a blank, and a gate that is open over nothing.
    (75, b" ", "error 32 Damaged", "error 32 Damaged"),
    (576, &[0xa5], "error 32 Damaged", "error 32 Damaged"),
];

fn is_row(rt: &(impl Abort + AllocGlobal), row: &(usize, &[u8], &str, &str)) {
    let bytes = with_bytes_at(rt, &written(rt), row.0, row.1);
    is_picked_as(rt, &bytes, Pick::Newer, row.2);
    is_picked_as(rt, &bytes, Pick::Older, row.3);
}

#[test]
fn each_pick_reads_its_cell(rt: HostRuntime) {
    for row in &ROWS {
        is_row(&rt, row);
    }
}
