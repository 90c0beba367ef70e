//! Devices with open cells, byte for byte: shape S of docs/FORMATS.md, whose cells lie at 64, 320, 576 and 832.
use crate::batches::EDIT;
use crate::stores::{
    EditRow, change, device_of, is_opened_as, is_opened_with, is_picked_as, open_store,
    small_device, with_bytes_at,
};
use recovery::Pick;
use std::process::Abort;

/// A cell of document 0: its first revision, by the source a.
const CELL: [u8; 59] = [
    0xa5, 54, 0, 0, 0, // the gate, and the length of the body
    0, 0, 0, 0, // document 0
    1, 0, b'd', // its name
    1, 0, 0, 0, 0, 0, 0, 0, // revision 1
    1, // there is a document
    1, 0, 0, 0, 1, 1, 0, 0, 0, b'z', // one operation, an insert of the text z
    0, 0, 0, 0, // no attributes
    1, 0, 0, 0, // one source
    1, 0, b'a', // its name
    1, 0, 0, 0, 0, 0, 0, 0, // its last number
    1, // one number in its window
    1, 0, 0, 0, 0, 0, 0, 0, // the revision of that one
];

/// A cell of an empty document at revision 1, of two sources.
const TWO_SOURCES: [u8; 69] = [
    0xa5, 64, 0, 0, 0, // the gate, and the length of the body
    0, 0, 0, 0, 1, 0, b'd', // document 0, d
    1, 0, 0, 0, 0, 0, 0, 0, 1, // revision 1
    0, 0, 0, 0, // no operations
    2, 0, 0, 0, // two sources
    1, 0, b'a', 1, 0, 0, 0, 0, 0, 0, 0, 1, 1, 0, 0, 0, 0, 0, 0, 0, //
    1, 0, b'b', 1, 0, 0, 0, 0, 0, 0, 0, 1, 1, 0, 0, 0, 0, 0, 0, 0, //
];

/// A cell of document 0 whose text has five letters. With its source they weigh 124, of the 128 that are allowed.
const LIGHT: [u8; 63] = [
    0xa5, 58, 0, 0, 0, // the gate, and the length of the body
    0, 0, 0, 0, 1, 0, b'd', 1, 0, 0, 0, 0, 0, 0, 0, 1, // document 0, d, revision 1
    1, 0, 0, 0, 1, 5, 0, 0, 0, b'a', b'b', b'c', b'd', b'e', 0, 0, 0, 0, // its text
    1, 0, 0, 0, 1, 0, b'a', 1, 0, 0, 0, 0, 0, 0, 0, 1, 1, 0, 0, 0, 0, 0, 0, 0, // its source
];

/// The same with six letters, which weigh 136.
const HEAVY: [u8; 64] = [
    0xa5, 59, 0, 0, 0, //
    0, 0, 0, 0, 1, 0, b'd', 1, 0, 0, 0, 0, 0, 0, 0, 1, //
    1, 0, 0, 0, 1, 6, 0, 0, 0, b'a', b'b', b'c', b'd', b'e', b'f', 0, 0, 0, 0, //
    1, 0, 0, 0, 1, 0, b'a', 1, 0, 0, 0, 0, 0, 0, 0, 1, 1, 0, 0, 0, 0, 0, 0, 0, //
];

/// Where the superblock has the number of sources that are allowed.
const SOURCES: usize = 25;

/// Where the parts of a cell stand in it.
const NUMBER: usize = 5;

const NAME: usize = 11;

const REVISION: usize = 12;

const MARK: usize = 20;

const TEXT: usize = 30;

const SOURCE_NUMBER: usize = 42;

const COUNT: usize = 50;

const SOURCE_REVISION: usize = 51;

/// The batch that puts x behind the z, as slot 0 holds it: a segment of number 1 with this record alone.
const SLOT_HEAD: [u8; 14] = [0xa5, 1, 0, 0, 0, 0, 0, 0, 0, 0xa5, 55, 0, 0, 0];

const DAMAGED: &str = "error 32 Damaged";

// A small device with a cell at a place, with other bytes at an offset within it.
fn with_cell(
    rt: &(impl Abort + AllocGlobal),
    device: &[u8],
    place: usize,
    at: usize,
    other: &[u8],
) -> Vec<u8> {
    with_bytes_at(rt, device, place, &with_bytes_at(rt, &CELL, at, other))
}

// A formatted small device.
fn empty(rt: &(impl Abort + AllocGlobal)) -> Vec<u8> {
    with_bytes_at(rt, small_device(rt).bytes(), 0, &[0xa5])
}

// A device whose only entry is the edit, of revision 2.
fn with_edit(rt: &(impl Abort + AllocGlobal)) -> Vec<u8> {
    let device = with_bytes_at(rt, &empty(rt), 1_088, &SLOT_HEAD);
    let device = with_bytes_at(rt, &device, 1_102, &EDIT);
    with_bytes_at(rt, &device, 1_157, &[0])
}

/// Where a cell of document 0 has other bytes, and what the device is then opened as.
const ROWS: [(usize, &[u8], &str); 15] = [
    (0, &[0xa5], "d 1 z\n"),
    (0, &[0x3c], ""),
    (1, &[53], DAMAGED),
    (1, &[55], DAMAGED),
    (NUMBER, &[1], DAMAGED),
    (REVISION, &[0], DAMAGED),
    (REVISION, &[0, 0, 0, 0, 0, 0, 32], DAMAGED),
    (
        REVISION,
        &[255, 255, 255, 255, 255, 255, 31],
        "d 9007199254740991 z\n",
    ),
    (MARK, &[0], DAMAGED),
    (MARK, &[2], DAMAGED),
    (SOURCE_NUMBER, &[0], DAMAGED),
    (COUNT, &[0], DAMAGED),
    (COUNT, &[2], DAMAGED),
    (SOURCE_REVISION, &[2], DAMAGED),
    (TEXT, &[0xff], DAMAGED),
];

#[test]
fn a_cell_is_read_as_it_is_spelled(rt: HostRuntime) {
    for (at, other, wanted) in &ROWS {
        is_opened_as(&rt, &with_cell(&rt, &empty(&rt), 64, *at, other), wanted);
    }
}

// Sources stand in the order of their names, each once.
#[test]
fn sources_of_a_cell_are_in_order(rt: HostRuntime) {
    let device = with_bytes_at(&rt, &empty(&rt), 64, &TWO_SOURCES);
    is_opened_as(&rt, &device, "d 1 \n");
    is_opened_as(&rt, &with_bytes_at(&rt, &device, 64 + 31, b"b"), DAMAGED);
    is_opened_as(&rt, &with_bytes_at(&rt, &device, 64 + 31, b"c"), DAMAGED);
}

// Of two open cells the picked one alone has to keep the limit of weight.
#[test]
fn a_cell_keeps_the_limit_of_weight(rt: HostRuntime) {
    let device = empty(&rt);
    is_opened_with(&rt, &device, 64, &LIGHT, "d 1 abcde\n");
    is_opened_with(&rt, &device, 64, &HEAVY, DAMAGED);
    let newer = with_bytes_at(&rt, &CELL, REVISION, &[2]);
    let two = with_bytes_at(&rt, &with_bytes_at(&rt, &device, 64, &HEAVY), 320, &newer);
    is_picked_as(&rt, &two, Pick::Newer, "d 2 z\n");
    is_picked_as(&rt, &two, Pick::Older, DAMAGED);
}

// Two sources alone weigh 128, so the cell is light enough, whatever number of sources is allowed.
#[test]
fn a_cell_keeps_the_limit_of_sources(rt: HostRuntime) {
    let device = with_bytes_at(&rt, &empty(&rt), 64, &TWO_SOURCES);
    is_opened_with(&rt, &device, SOURCES, &[2], "d 1 \n");
    is_opened_with(&rt, &device, SOURCES, &[1], DAMAGED);
}

// What is at or below a cell's revision is passed over. Without the cell the edit is the first entry of a document that was never made.
#[test]
fn entries_behind_a_cell_are_read(rt: HostRuntime) {
    let device = with_edit(&rt);
    is_opened_as(&rt, &device, DAMAGED);
    let cell = with_cell(&rt, &device, 64, 0, &[0xa5]);
    is_opened_as(&rt, &cell, "d 2 zx\n");
    is_opened_as(&rt, &with_cell(&rt, &device, 320, 0, &[0xa5]), "d 2 zx\n");
    // A cell of revision 2 has the edit already.
    is_opened_as(&rt, &with_cell(&rt, &device, 64, REVISION, &[2]), "d 2 z\n");
    // One of revision 3 stands above it.
    is_opened_as(&rt, &with_cell(&rt, &device, 64, REVISION, &[3]), "d 3 z\n");
}

// Of two open cells the newer or the older one is read; of two of one revision cell 0 is the older.
#[test]
fn one_of_two_cells_is_picked(rt: HostRuntime) {
    let first = with_cell(&rt, &empty(&rt), 64, 0, &[0xa5]);
    let newer = with_bytes_at(&rt, &CELL, REVISION, &[2]);
    let newer = with_bytes_at(&rt, &newer, TEXT, b"q");
    let two = with_bytes_at(&rt, &first, 320, &newer);
    is_picked_as(&rt, &two, Pick::Newer, "d 2 q\n");
    is_picked_as(&rt, &two, Pick::Older, "d 1 z\n");
    let turned = with_bytes_at(
        &rt,
        &with_cell(&rt, &empty(&rt), 320, 0, &[0xa5]),
        64,
        &newer,
    );
    is_picked_as(&rt, &turned, Pick::Newer, "d 2 q\n");
    is_picked_as(&rt, &turned, Pick::Older, "d 1 z\n");
    let equal = with_bytes_at(&rt, &two, 64 + REVISION, &[2]);
    is_picked_as(&rt, &equal, Pick::Newer, "d 2 q\n");
    is_picked_as(&rt, &equal, Pick::Older, "d 2 z\n");
}

// Documents have the numbers 0, 1 and so on without a hole, and names that differ.
#[test]
fn cells_of_two_documents(rt: HostRuntime) {
    let second = with_bytes_at(&rt, &CELL, NUMBER, &[1]);
    let device = empty(&rt);
    let named = with_bytes_at(&rt, &second, NAME, b"e");
    is_opened_as(&rt, &with_bytes_at(&rt, &device, 576, &named), DAMAGED);
    let first = with_cell(&rt, &device, 64, 0, &[0xa5]);
    is_opened_as(&rt, &with_bytes_at(&rt, &first, 576, &second), DAMAGED);
    is_opened_as(
        &rt,
        &with_bytes_at(&rt, &first, 576, &named),
        "d 1 z\ne 1 z\n",
    );
}

const SPENT: EditRow = (2, 9_007_199_254_740_991, "x", "error 18 RevisionsSpent");

// A document at the highest revision takes no edit more.
#[test]
fn revisions_are_spent(rt: HostRuntime) {
    let device = with_cell(
        &rt,
        &empty(&rt),
        64,
        REVISION,
        &[255, 255, 255, 255, 255, 255, 31],
    );
    let mut store = open_store(&rt, device_of(&rt, &device));
    change(&rt, &mut store, &SPENT);
}
