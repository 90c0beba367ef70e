//! Devices that are changed at chosen places, byte for byte: most are no store then. `SHAPE` says where cells and slots lie.
use crate::going_on::{PICKS, read};
use crate::runs::{NEVER, device_of, formatted, opened};
use crate::scripts::{CREATE, WIDE, command};
use crate::stores::write;
use disk::FaultDisk;
use recovery::{Pick, Store};
use refusal::Refusal;
use revision::Reply;
use std::alloc::Global;
use std::process::Abort;

/// The first batch: the source "a" creates "d" with "z".
const CREATED: [u8; 45] = [
    1, 0, 0, 0, // one entry
    1, 0, 0, 0, 0, 1, 0, 0, 0, 0, 0, 0, 0, // a creation, document 0, revision 1
    1, 0, b'a', 1, 0, 0, 0, 0, 0, 0, 0, // source a, its number 1
    1, 0, b'd', // name d
    1, 0, 0, 0, 1, 1, 0, 0, 0, b'z', 0, 0, 0, 0, // an insert of z, no attributes
];

/// The second one: after that "a" inserts "x".
const EDITED: [u8; 55] = [
    1, 0, 0, 0, // one entry
    2, 0, 0, 0, 0, 2, 0, 0, 0, 0, 0, 0, 0, // a change, document 0, revision 2
    1, 0, b'a', 2, 0, 0, 0, 0, 0, 0, 0, // source a, its number 2
    2, 0, 0, 0, // two operations
    3, 1, 0, 0, 0, 0, 0, 0, 0, 0, 0, 0, 0, // a retain of 1, no attributes
    1, 1, 0, 0, 0, b'x', 0, 0, 0, 0, // an insert of x, no attributes
];

/// A cell's body: what the first batch makes.
const BODY: [u8; 54] = [
    0, 0, 0, 0, // document 0
    1, 0, b'd', // its name
    1, 0, 0, 0, 0, 0, 0, 0, 1, // revision 1, and that there is a document
    1, 0, 0, 0, 1, 1, 0, 0, 0, b'z', 0, 0, 0, 0, // an insert of z, no attributes
    1, 0, 0, 0, 1, 0, b'a', // one source, a
    1, 0, 0, 0, 0, 0, 0, 0, // its last number
    1, 1, 0, 0, 0, 0, 0, 0, 0, // one number in its window, and the revision of that
];

/// One of a document at revision 3, whose source made revisions 1 and 3 by its numbers 1 and 2.
const BODY_OF_TWO: [u8; 62] = [
    0, 0, 0, 0, 1, 0, b'd', 3, 0, 0, 0, 0, 0, 0, 0, 1, // document 0, d, revision 3
    1, 0, 0, 0, 1, 1, 0, 0, 0, b'z', 0, 0, 0, 0, // an insert of z, no attributes
    1, 0, 0, 0, 1, 0, b'a', 2, 0, 0, 0, 0, 0, 0, 0, // one source, a, and its last number
    2, 1, 0, 0, 0, 0, 0, 0, 0, 3, 0, 0, 0, 0, 0, 0, 0, // two numbers in its window, and their revisions
];

/// An open gate with the number of a segment, and with the length of a record or of a cell's body.
const FIRST: &[u8] = &[0xa5, 1, 0, 0, 0, 0, 0, 0, 0];

const OF_45: &[u8] = &[0xa5, 45, 0, 0, 0];

const OF_54: &[u8] = &[0xa5, 54, 0, 0, 0];

const OF_55: &[u8] = &[0xa5, 55, 0, 0, 0];

const OF_62: &[u8] = &[0xa5, 62, 0, 0, 0];

/// What is written over a device one after the other: a place, and the bytes there.
type Changes = &'static [(usize, &'static [u8])];

/// A device that was just formatted, where so many bytes are left and some are changed, and what it is opened as: its documents, or the
/// refusal.
type Row = (usize, Changes, &'static str);

const WHOLE: usize = 1_600;

const Z: &str = r#"d 1 {"ops":[{"insert":"z"}]} 1 1"#;

/// What damages a device, or doesn't. Each part that is damaged stands once in a row as it should be.
const ROWS: [Row; 37] = [
    (WHOLE, &[], ""),
    (
        WHOLE,
        &[(1_088, FIRST), (1_097, OF_45), (1_102, &CREATED)],
        Z,
    ),
    (
        WHOLE,
        &[
            (1_088, FIRST),
            (1_097, OF_45),
            (1_102, &CREATED),
            (1_147, OF_55),
            (1_152, &EDITED),
        ],
        r#"d 2 {"ops":[{"insert":"zx"}]} 2 1 2"#,
    ),
    (WHOLE, &[(64, OF_54), (69, &BODY)], Z),
    // The shape: slots of 255 bytes, no revisions kept, another letter; and a device that is cut.
    (WHOLE, &[(13, &[255, 0, 0, 0])], "Damaged"),
    (WHOLE, &[(29, &[0, 0, 0, 0])], "Damaged"),
    (WHOLE, &[(8, b"X")], "Damaged"),
    (1_599, &[], "Damaged"),
    (63, &[], "NotFormatted"),
    // The letters of the first format, whatever else is wrong.
    (WHOLE, &[(8, b"1")], "OldFormat"),
    (64, &[(8, b"1"), (29, &[0, 0, 0, 0])], "OldFormat"),
    (63, &[(8, b"1")], "NotFormatted"),
    // Segments: the number 0, one number twice, and the last number, which is one.
    (
        WHOLE,
        &[(1_088, &[0xa5, 0, 0, 0, 0, 0, 0, 0, 0])],
        "Damaged",
    ),
    (WHOLE, &[(1_088, FIRST), (1_344, FIRST)], "Damaged"),
    (WHOLE, &[(1_088, &LAST)], ""),
    // Records of no bytes, of 242, behind which no gate fits, and of 241 zeros.
    (
        WHOLE,
        &[(1_088, FIRST), (1_097, &[0xa5, 0, 0, 0, 0])],
        "Damaged",
    ),
    (
        WHOLE,
        &[(1_088, FIRST), (1_097, &[0xa5, 242, 0, 0, 0])],
        "Damaged",
    ),
    (
        WHOLE,
        &[(1_088, FIRST), (1_097, &[0xa5, 241, 0, 0, 0])],
        "Damaged",
    ),
    // Batches: the first one of 2^32 - 1 operations, and the second one alone.
    (
        WHOLE,
        &[
            (1_088, FIRST),
            (1_097, OF_45),
            (1_102, &CREATED),
            (1_133, &[255, 255, 255, 255]),
        ],
        "Damaged",
    ),
    (
        WHOLE,
        &[(1_088, FIRST), (1_097, OF_55), (1_102, &EDITED)],
        "Damaged",
    ),
    // Cells: of document 1 where that of document 0 lies, at revision 2^53, at the last one, which is one, and "e" as document 1 with no
    // document 0.
    (WHOLE, &[(64, OF_54), (69, &BODY), (69, &[1])], "Damaged"),
    (
        WHOLE,
        &[(64, OF_54), (69, &BODY), (76, &[0, 0, 0, 0, 0, 0, 0x20, 0])],
        "Damaged",
    ),
    (
        WHOLE,
        &[(64, OF_54), (69, &BODY), (76, &SPENT)],
        r#"d 9007199254740991 {"ops":[{"insert":"z"}]} 1 1"#,
    ),
    (
        WHOLE,
        &[(576, OF_54), (581, &BODY), (581, &[1]), (587, b"e")],
        "Damaged",
    ),
    // No document, and windows: of no number, of more than there are up to the last one, with a revision above the cell's, with none.
    (WHOLE, &[(64, OF_54), (69, &BODY), (84, &[0])], "Damaged"),
    (WHOLE, &[(64, OF_54), (69, &BODY), (114, &[0])], "Damaged"),
    (WHOLE, &[(64, OF_54), (69, &BODY), (114, &[2])], "Damaged"),
    (WHOLE, &[(64, OF_54), (69, &BODY), (115, &[2])], "Damaged"),
    (WHOLE, &[(64, OF_54), (69, &BODY), (115, &[0])], "Damaged"),
    // A window of two numbers, and with revisions that don't ascend, with another count, with a lower last number.
    (
        WHOLE,
        &[(64, OF_62), (69, &BODY_OF_TWO)],
        r#"d 3 {"ops":[{"insert":"z"}]} 2 1 3"#,
    ),
    (
        WHOLE,
        &[(64, OF_62), (69, &BODY_OF_TWO), (115, &[3])],
        "Damaged",
    ),
    (
        WHOLE,
        &[(64, OF_62), (69, &BODY_OF_TWO), (114, &[1])],
        "Damaged",
    ),
    (
        WHOLE,
        &[(64, OF_62), (69, &BODY_OF_TWO), (106, &[1])],
        "Damaged",
    ),
    // Gates that aren't open, before what would be damage.
    (WHOLE, &[(0, &[0x3c]), (8, b"X")], "NotFormatted"),
    (
        WHOLE,
        &[
            (64, &[0x3c]),
            (320, &[0x3c]),
            (576, &[0x3c]),
            (832, &[0x3c]),
            (1_088, &[0x3c]),
            (1_344, &[0x3c]),
        ],
        "",
    ),
    (WHOLE, &[(1_088, FIRST), (1_097, &[0x3c, 0, 0, 0, 0])], ""),
    (
        WHOLE,
        &[
            (1_088, FIRST),
            (1_097, OF_45),
            (1_102, &CREATED),
            (1_147, &[0x3c, 0, 0, 0, 0]),
        ],
        Z,
    ),
];

/// The gate of a slot with the last number of a segment.
const LAST: [u8; 9] = [0xa5, 255, 255, 255, 255, 255, 255, 255, 255];

/// The last revision, 2^53 - 1.
const SPENT: [u8; 8] = [255, 255, 255, 255, 255, 255, 31, 0];

// A device that was just formatted, with these changes.
fn changed(rt: &(impl Abort + AllocGlobal), length: usize, changes: Changes) -> Vec<u8> {
    let mut bytes = formatted(rt, 0);
    for (place, others) in changes {
        for (at, byte) in others.iter().enumerate() {
            if let Some(there) = bytes.get_mut(place.saturating_add(at)) {
                *there = *byte;
            }
        }
    }
    bytes.truncate(length);
    bytes
}

// By each pick, opening bytes gives these documents, or this refusal.
fn is_opened_as(rt: &(impl Abort + AllocGlobal), bytes: &[u8], wanted: &str) {
    for pick in PICKS {
        match read(rt, bytes, pick) {
            Ok(text) => assert_eq!(rt; text.as_str(), wanted),
            Err(refusal) => assert_eq!(rt; refusal.name(), wanted),
        }
    }
}

#[test]
fn changed_devices_are_refused_or_opened(rt: HostRuntime) {
    for (length, changes, wanted) in &ROWS {
        is_opened_as(&rt, &changed(&rt, *length, *changes), wanted);
    }
}

/// What is asked of a store: a number, the revision that the command is made on, its operations, and the answer.
pub type Asked = (u64, u64, &'static str, Result<Reply, Refusal>);

/// The first batch finds room in the last segment. After that there is none.
const IN_THE_LAST_SEGMENT: [Asked; 2] = [
    (1, 0, CREATE, Ok(Reply::Taken { rev: 1 })),
    (2, 1, WIDE, Err(Refusal::JournalFull)),
];

const AT_THE_LAST_REVISION: [Asked; 1] = [(
    2,
    9_007_199_254_740_991,
    CREATE,
    Err(Refusal::RevisionsSpent),
)];

const ASKED: [(Changes, &[Asked]); 2] = [
    (&[(1_088, &LAST)], &IN_THE_LAST_SEGMENT),
    (
        &[(64, OF_54), (69, &BODY), (76, &SPENT)],
        &AT_THE_LAST_REVISION,
    ),
];

// A store's answer to a row.
fn answer(alloc: Global, store: &mut Store<FaultDisk>, row: &Asked) -> Result<Reply, Refusal> {
    let command = command(alloc, row.0, row.1, row.2)?;
    write(alloc, store, &command)
}

/// A device is opened, and its store asked: each answer is the row's.
pub fn answers(rt: &(impl Abort + AllocGlobal), disk: FaultDisk, rows: &[Asked]) {
    match opened(rt, disk, Pick::Newer) {
        Ok(store) => {
            let mut store = store;
            for row in rows {
                assert_eq!(rt; answer(rt.alloc(), &mut store, row), row.3);
            }
        }
        Err(fault) => panic!(rt; "{}", fault.refusal),
    }
}

#[test]
fn what_is_spent_is_refused(rt: HostRuntime) {
    for (changes, rows) in &ASKED {
        let bytes = changed(&rt, WHOLE, *changes);
        answers(&rt, device_of(&rt, &bytes, NEVER), *rows);
    }
}
