//! Areas that are read in pieces of 65,536 bytes.
use crate::stores::extend;
use disk::MemDisk;
use journal::{Area, OPEN, Scan, ScanError};
use std::process::Abort;

/// An area: how many bytes it has, and those of the bodies of its records.
type Records = (usize, &'static [u32]);

/// Areas, and how many pieces of each are read. A record takes five bytes more than its body.
const READ: [(Records, usize); 10] = [
    // No record and one, in an area that is mostly empty.
    ((1_048_567, &[]), 1),
    ((1_048_567, &[100]), 1),
    // The second one lies across two pieces.
    ((1_048_567, &[40_000, 40_000]), 2),
    // The length of the second one does.
    ((200_000, &[65_528, 7]), 2),
    // One ends with the first piece, and the gate behind it is read with the next; one ends a byte before.
    ((200_000, &[65_531]), 2),
    ((200_000, &[65_530]), 1),
    // One is longer than three pieces.
    ((1_048_567, &[10, 200_000, 10]), 4),
    // The closed gate is the last byte of the area.
    ((65_536, &[65_530]), 1),
    ((65_537, &[65_531]), 2),
    ((200_006, &[200_000]), 4),
];

/// Areas that end too early: behind a record, within one, and within the length of one.
const DAMAGED: [(Records, usize); 5] = [
    ((65_535, &[65_530]), 1),
    ((65_536, &[65_531]), 1),
    ((1_000_000, &[1_000_000]), 1),
    ((65_538, &[65_528, 7]), 2),
    ((65_536, &[65_528, 7]), 1),
];

// The bytes of an area: open records of bodies whose bytes are open gates too, and closed gates behind them.
fn area_of(rt: &(impl Abort + AllocGlobal), records: &Records) -> Vec<u8> {
    let (size, lengths) = records;
    let mut bytes = Vec::new(rt.alloc());
    for length in *lengths {
        let body = vec![in rt.alloc(); OPEN; *length as usize].expect(rt, "memory");
        extend(rt, &mut bytes, &[OPEN]);
        extend(rt, &mut bytes, &length.to_le_bytes());
        extend(rt, &mut bytes, &body);
    }
    bytes.resize(*size, 0).expect(rt, "memory");
    bytes
}

// What a scan answers, and how many calls of the device it makes.
fn scan(rt: &(impl Abort + AllocGlobal), records: &Records) -> (Result<Scan, ScanError>, usize) {
    let bytes = area_of(rt, records);
    let size = bytes.len() as u64;
    assert!(rt; 0 < size && size < 1 << 32);
    let mut disk = MemDisk::holding(rt.alloc(), bytes);
    let scan = Area::scan(rt.alloc(), &mut disk, 0, size);
    (scan, disk.calls().len())
}

// The bodies are those of the records, and so many pieces are read.
fn is_read(rt: &(impl Abort + AllocGlobal), records: &Records, pieces: usize) {
    let (scan, calls) = scan(rt, records);
    let bodies = scan.expect(rt, "records").bodies;
    let (_, lengths) = records;
    assert_eq!(rt; (bodies.len(), calls), (lengths.len(), pieces));
    for (body, length) in bodies.iter().zip(*lengths) {
        let is_whole = body.len() == *length as usize && body.iter().all(|byte| *byte == OPEN);
        assert!(rt; is_whole);
    }
}

#[test]
fn an_area_is_read_in_pieces(rt: HostRuntime) {
    for (records, pieces) in &READ {
        is_read(&rt, records, *pieces);
    }
}

// It holds no list of records, which is told after so many pieces.
fn is_damaged(rt: &(impl Abort + AllocGlobal), records: &Records, pieces: usize) {
    let (scan, calls) = scan(rt, records);
    assert!(rt; matches!(scan, Err(ScanError::Damaged)) && calls == pieces);
}

#[test]
fn an_area_that_ends_early_is_damaged(rt: HostRuntime) {
    for (records, pieces) in &DAMAGED {
        is_damaged(&rt, records, *pieces);
    }
}
