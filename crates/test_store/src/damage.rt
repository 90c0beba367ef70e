//! Bytes that are no store, and bytes that do not matter.
use crate::batches::EDIT;
use crate::stores::{SLOT, is_opened_with, part, small_device, with_bytes_at};
use std::process::Abort;

/// What damages a device that was just formatted: a place, and what is written there.
const FORMATTED: [(usize, &[u8]); 26] = [
    // The letters.
    (1, b"q"),
    (8, b"X"),
    // Slots of 1 and 1,025, of 255 and 2^24 + 1 bytes.
    (9, &[1]),
    (9, &[1, 4]),
    (13, &[255, 0, 0, 0]),
    (13, &[1, 0, 0, 1]),
    // No documents and 65,537, cells of 255 and 2^24 + 1 bytes.
    (17, &[0]),
    (17, &[1, 0, 1]),
    (21, &[255, 0, 0, 0]),
    (21, &[1, 0, 0, 1]),
    // No sources and 4,097, no revisions and 65,537.
    (25, &[0]),
    (25, &[1, 16]),
    (29, &[0, 0, 0, 0]),
    (29, &[1, 0, 1]),
    // 3 slots, and cells of 257 bytes: the device is too short.
    (9, &[3]),
    (21, &[1]),
    // The gates of the cells and of slot 1.
    (64, &[0xa5]),
    (320, &[0xa5]),
    (576, &[0xa5]),
    (832, &[0xa5]),
    (1_344, &[0xa5]),
    // Segment number 0.
    (1_088, &[0xa5]),
    // A record of no bytes, of 242, behind which no gate fits, of 2^32 - 1, and of 241 zeros.
    (1_088, &[0xa5, 1, 0, 0, 0, 0, 0, 0, 0, 0xa5, 0, 0, 0, 0]),
    (1_088, &[0xa5, 1, 0, 0, 0, 0, 0, 0, 0, 0xa5, 242, 0, 0, 0]),
    (
        1_088,
        &[0xa5, 1, 0, 0, 0, 0, 0, 0, 0, 0xa5, 255, 255, 255, 255],
    ),
    (1_088, &[0xa5, 1, 0, 0, 0, 0, 0, 0, 0, 0xa5, 241, 0, 0, 0]),
];

#[test]
fn a_device_is_damaged(rt: HostRuntime) {
    let disk = small_device(&rt);
    for (at, other) in &FORMATTED {
        is_opened_with(&rt, disk.bytes(), *at, other, "error 32 Damaged");
    }
}

/// What damages two records: a place, and what is written there. The first batch stands at 1,102, the second at 1,152.
const WRITTEN: [(usize, &[u8]); 18] = [
    // Segment number 0.
    (1_089, &[0]),
    // Lengths of 0, 44 and 46, and a second one of 192, behind which no gate fits.
    (1_098, &[0]),
    (1_098, &[44]),
    (1_098, &[46]),
    (1_148, &[192]),
    // No entries, two, a change of a document.
    (1_102, &[0]),
    (1_102, &[2]),
    (1_106, &[2]),
    // Document 1 as the first, document 0 as the second, and the first one's name as the second one's.
    (1_107, &[1]),
    (1_157, &[0]),
    (1_182, b"d"),
    // Revision 2, a source with a blank, number 2.
    (1_111, &[2]),
    (1_121, b" "),
    (1_122, &[2]),
    // 2^32 - 1 operations, an operation of another kind, a text that is no UTF-8, an attribute.
    (1_133, &[255, 255, 255, 255]),
    (1_137, &[2]),
    (1_142, &[255]),
    (1_143, &[1]),
];

/// A small device that holds two records.
fn written(rt: &(impl Abort + AllocGlobal)) -> Vec<u8> {
    with_bytes_at(rt, small_device(rt).bytes(), 1_088, &SLOT)
}

#[test]
fn a_record_is_damaged(rt: HostRuntime) {
    let bytes = written(&rt);
    for (at, other) in &WRITTEN {
        is_opened_with(&rt, &bytes, *at, other, "error 32 Damaged");
    }
    // The first record stands twice.
    is_opened_with(
        &rt,
        &bytes,
        1_147,
        part(&rt, &SLOT, 9, 50),
        "error 32 Damaged",
    );
}

// The second document may be made before the first.
#[test]
fn documents_are_made_in_any_order(rt: HostRuntime) {
    let bytes = with_bytes_at(&rt, &written(&rt), 1_107, &[1]);
    is_opened_with(&rt, &bytes, 1_157, &[0], "e 1 y\nd 1 z\n");
}

// A small device that holds a creation and, behind it, an edit.
fn edited(rt: &(impl Abort + AllocGlobal)) -> Vec<u8> {
    let mut bytes = with_bytes_at(rt, small_device(rt).bytes(), 1_088, part(rt, &SLOT, 0, 59));
    for (at, other) in [(1_147, [0xa5, 55, 0, 0, 0].as_slice()), (1_152, &EDIT)] {
        bytes = with_bytes_at(rt, &bytes, at, other);
    }
    bytes
}

/// What damages the edit: a place, and what is written there. Its batch stands at 1,152.
const EDITED: [(usize, u8); 5] = [
    // Document 1, revisions 1 and 3, and numbers 1 and 3 of its source.
    (1_157, 1),
    (1_161, 1),
    (1_161, 3),
    (1_172, 1),
    (1_172, 3),
];

#[test]
fn an_edit_out_of_turn_is_damage(rt: HostRuntime) {
    let bytes = edited(&rt);
    is_opened_with(&rt, &bytes, 1_161, &[2], "d 2 zx\n");
    for (at, byte) in &EDITED {
        is_opened_with(&rt, &bytes, *at, &[*byte], "error 32 Damaged");
    }
}

/// The places of gates, and what is opened where one is closed.
const GATES: [(usize, &str); 8] = [
    (0, "error 30 NotFormatted"),
    (64, "d 1 z\ne 1 y\n"),
    (832, "d 1 z\ne 1 y\n"),
    (1_088, ""),
    (1_097, ""),
    (1_147, "d 1 z\n"),
    (1_197, "d 1 z\ne 1 y\n"),
    (1_344, "d 1 z\ne 1 y\n"),
];

/// Values of a gate that is closed.
const CLOSED: [u8; 5] = [0x00, 0x01, 0x3c, 0xa4, 0xff];

#[test]
fn all_other_bytes_close_a_gate(rt: HostRuntime) {
    let bytes = written(&rt);
    for (at, lines) in &GATES {
        for byte in CLOSED {
            is_opened_with(&rt, &bytes, *at, &[byte], lines);
        }
    }
}

/// Any segment number but 0 is taken, and what isn't used may be anything.
const UNUSED: [usize; 7] = [33, 63, 65, 1_089, 1_096, 1_198, 1_345];

#[test]
fn other_bytes_change_nothing(rt: HostRuntime) {
    let bytes = written(&rt);
    for at in UNUSED {
        is_opened_with(&rt, &bytes, at, &[0xa5], "d 1 z\ne 1 y\n");
    }
}
