//! A ring of two slots of 256 bytes, which is filled byte for byte. The area of a slot has 247 bytes.
use crate::stores::{are_bytes, extend, is_answer};
use disk::{Disk, MemDisk};
use journal::Record;
use refusal::Refusal;
use segments::Ring;
use std::process::Abort;

/// What a slot begins with: its gate and its number.
const FIRST: [u8; 9] = [0xa5, 1, 0, 0, 0, 0, 0, 0, 0];

const SECOND: [u8; 9] = [0xa5, 2, 0, 0, 0, 0, 0, 0, 0];

// The ring that a device of 512 bytes holds.
fn ring_of(rt: &(impl Abort + AllocGlobal), disk: &mut MemDisk) -> Ring {
    assert_eq!(rt; disk.len(), 512);
    let read = Ring::read(rt.alloc(), disk, 0, 256, 2);
    read.expect(rt, "a ring").ring
}

// A body of so many letters is appended to the ring that a device of 512 bytes holds.
fn append(rt: &(impl Abort + AllocGlobal), disk: &mut MemDisk, len: u8) -> Result<(), Refusal> {
    assert!(rt; 0 < len && len <= 241 && disk.len() == 512);
    let body = vec![in rt.alloc(); b'b'; usize::from(len)]?;
    let record = Record::of_body(rt.alloc(), &body)?;
    let read = Ring::read(rt.alloc(), disk, 0, 256, 2)?;
    let mut ring = read.ring;
    assert_eq!(rt; disk.len(), 512);
    ring.append(disk, &record)
}

// A record of so many letters.
fn push_record(rt: &(impl Abort + AllocGlobal), bytes: &mut Vec<u8>, len: u8) {
    let body = vec![in rt.alloc(); b'b'; usize::from(len)].expect(rt, "memory");
    extend(rt, bytes, &[0xa5, len, 0, 0, 0]);
    extend(rt, bytes, &body);
}

// The two slots of a device hold records of so many letters, and nothing else.
fn holds(rt: &(impl Abort + AllocGlobal), disk: &MemDisk, first: &[u8], second: &[u8]) {
    let mut bytes = FIRST.to_vec(rt.alloc()).expect(rt, "memory");
    for len in first {
        push_record(rt, &mut bytes, *len);
    }
    bytes.resize(256, 0).expect(rt, "memory");
    if !second.is_empty() {
        extend(rt, &mut bytes, &SECOND);
    }
    for len in second {
        push_record(rt, &mut bytes, *len);
    }
    bytes.resize(512, 0).expect(rt, "memory");
    are_bytes(rt, disk.bytes(), &bytes);
}

// A device whose ring has taken 100 letters.
fn with_a_hundred(rt: &(impl Abort + AllocGlobal)) -> MemDisk {
    let mut disk = MemDisk::new(rt.alloc(), 512).expect(rt, "memory");
    is_answer(rt, append(rt, &mut disk, 100), Ok(()));
    disk
}

// The next gate stands at 105. With the closed gate behind it a body of 136 letters takes 142 bytes: all of the 247.
#[test]
fn a_slot_is_filled(rt: HostRuntime) {
    let mut disk = with_a_hundred(&rt);
    is_answer(&rt, append(&rt, &mut disk, 136), Ok(()));
    holds(&rt, &disk, &[100, 136], &[]);
}

// A body of 137 letters goes into the second slot, and leaves the next gate at 142 there. A body of 99 fits behind that, one more
// doesn't, and as no slot is free another one of 137 is refused, and changes nothing.
#[test]
fn a_body_too_long_by_one_goes_into_the_next_slot(rt: HostRuntime) {
    let mut disk = with_a_hundred(&rt);
    is_answer(&rt, append(&rt, &mut disk, 137), Ok(()));
    holds(&rt, &disk, &[100], &[137]);
    let ring = ring_of(&rt, &mut disk);
    assert!(rt; ring.fits_newest(99) && !ring.fits_newest(100));
    let full = Err(Refusal::JournalFull);
    is_answer(&rt, append(&rt, &mut disk, 137), full);
    holds(&rt, &disk, &[100], &[137]);
}
