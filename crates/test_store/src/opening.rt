//! Devices that are formatted and opened.
use crate::stores::{
    SMALL, are_bytes, device_of, differ_by, format, is_answer, is_opened_as, is_opened_with, part,
    small_device,
};
use recovery::Shape;
use refusal::Refusal;
use std::process::Abort;

/// The places 0 to 32 of a small device: the gate, the letters, and the six numbers.
const SUPERBLOCK: [u8; 33] = [
    0xa5, b'Q', b'D', b'S', b'T', b'O', b'R', b'E', b'2', 2, 0, 0, 0, 0, 1, 0, 0, 2, 0, 0, 0, 0, 1,
    0, 0, 4, 0, 0, 0, 2, 0, 0, 0,
];

#[test]
fn a_store_begins_without_documents(rt: HostRuntime) {
    let disk = small_device(&rt);
    let bytes = disk.bytes();
    differ_by(&rt, bytes, &[0; 1_600], 0, &SUPERBLOCK);
    is_opened_as(&rt, bytes, "");
    is_opened_as(&rt, &[0; 1_600], "error 30 NotFormatted");
    // The first format, whatever stands behind its letters.
    is_opened_with(&rt, bytes, 8, b"1", "error 38 OldFormat");
    is_opened_with(&rt, bytes, 8, b"1\0\0\0\0", "error 38 OldFormat");
    is_opened_with(&rt, bytes, 8, b"3", "error 32 Damaged");
    // The last byte is missing, and there is one more.
    is_opened_as(&rt, part(&rt, bytes, 0, 1_599), "error 32 Damaged");
    is_opened_with(&rt, bytes, 1_600, &[0xa5], "");
}

// A device of these bytes is not formatted, and stays as it is.
fn is_refused(rt: &(impl Abort + AllocGlobal), bytes: &[u8], shape: Shape, refusal: Refusal) {
    let mut disk = device_of(rt, bytes);
    is_answer(rt, format(rt, &mut disk, shape), Err(refusal));
    are_bytes(rt, disk.bytes(), bytes);
}

#[test]
fn a_store_is_not_formatted_again(rt: HostRuntime) {
    is_refused(
        &rt,
        small_device(&rt).bytes(),
        SMALL,
        Refusal::AlreadyFormatted,
    );
}

/// The smallest shape, but for its documents, is formatted, and then no more.
#[test]
fn a_store_is_formatted_once(rt: HostRuntime) {
    let shape = Shape {
        slots: 2,
        slot: 256,
        docs: 1,
        cell: 256,
        sources: 1,
        keep: 1,
    };
    let disk = crate::stores::formatted_device(&rt, 1_088, shape);
    is_refused(&rt, disk.bytes(), shape, Refusal::AlreadyFormatted);
}

/// Shapes with one number below its range or above it: slots, slot, docs, cell, sources, keep.
const NUMBERS: [[u32; 6]; 12] = [
    [1, 256, 2, 256, 4, 2],
    [1_025, 256, 2, 256, 4, 2],
    [2, 255, 2, 256, 4, 2],
    [2, 16_777_217, 2, 256, 4, 2],
    [2, 256, 0, 256, 4, 2],
    [2, 256, 65_537, 256, 4, 2],
    [2, 256, 2, 255, 4, 2],
    [2, 256, 2, 16_777_217, 4, 2],
    [2, 256, 2, 256, 0, 2],
    [2, 256, 2, 256, 4_097, 2],
    [2, 256, 2, 256, 4, 0],
    [2, 256, 2, 256, 4, 65_537],
];

fn shape_of(numbers: &[u32; 6]) -> Shape {
    let [slots, slot, docs, cell, sources, keep] = *numbers;
    Shape {
        slots,
        slot,
        docs,
        cell,
        sources,
        keep,
    }
}

#[test]
fn what_has_no_shape_is_not_formatted(rt: HostRuntime) {
    is_refused(&rt, &[0; 63], SMALL, Refusal::BadShape);
    is_refused(&rt, &[0; 1_599], SMALL, Refusal::BadShape);
    is_opened_as(&rt, &[0; 63], "error 30 NotFormatted");
    is_opened_as(&rt, &[0xa5; 63], "error 30 NotFormatted");
    for numbers in &NUMBERS {
        is_refused(&rt, &[0; 1_600], shape_of(numbers), Refusal::BadShape);
    }
}
