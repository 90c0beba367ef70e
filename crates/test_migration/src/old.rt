//! Devices of the first format: 2 slots of 256 bytes, 2 documents, cells of 256 bytes, 4 sources, 2 revisions held.
use disk::MemDisk;
use recovery::{OpenFault, Pick, Store};
use std::process::Abort;

/// How many bytes such a device has.
pub const LEN: usize = 1_600;

/// The gate, the letters, and the six numbers.
const SUPERBLOCK: [u8; 33] = [
    0xa5, b'Q', b'D', b'S', b'T', b'O', b'R', b'E', b'1', 2, 0, 0, 0, 0, 1, 0, 0, 2, 0, 0, 0, 0, 1,
    0, 0, 4, 0, 0, 0, 2, 0, 0, 0,
];

/// Slot 0: the source a created d with z, appended x, and deleted the first unit.
const SLOT: [u8; 166] = [
    0xa5, 1, 0, 0, 0, 0, 0, 0, 0, // the gate of slot 0, and its number
    0xa5, 45, 0, 0, 0, 1, 0, 0, 0, // the first record: one entry
    1, 0, 0, 0, 0, 1, 0, 0, 0, 0, 0, 0, 0, // a creation, document 0, revision 1
    1, 0, b'a', 1, 0, 0, 0, 0, 0, 0, 0, 1, 0, b'd', // source a, its number 1, name d
    1, 0, 0, 0, 1, 1, 0, 0, 0, b'z', 0, 0, 0, 0, // an insert of z
    0xa5, 55, 0, 0, 0, 1, 0, 0, 0, // the second record
    2, 0, 0, 0, 0, 2, 0, 0, 0, 0, 0, 0, 0, // a change, document 0, revision 2
    1, 0, b'a', 2, 0, 0, 0, 0, 0, 0, 0, // source a, its number 2
    2, 0, 0, 0, 3, 1, 0, 0, 0, 0, 0, 0, 0, 0, 0, 0, 0, // a retain of 1
    1, 1, 0, 0, 0, b'x', 0, 0, 0, 0, // an insert of x
    0xa5, 41, 0, 0, 0, 1, 0, 0, 0, // the third record
    2, 0, 0, 0, 0, 3, 0, 0, 0, 0, 0, 0, 0, // a change, document 0, revision 3
    1, 0, b'a', 3, 0, 0, 0, 0, 0, 0, 0, // source a, its number 3
    1, 0, 0, 0, 4, 1, 0, 0, 0, 0, 0, 0, 0, // a delete of 1
    0, // the closed gate behind
];

/// A cell as the first format spells it: document 1, e, at revision 4, y, of the source b, whose last number is 2, with revision 3.
pub const CELL: [u8; 57] = [
    0xa5, 52, 0, 0, 0, // the gate, and the length of the body
    1, 0, 0, 0, 1, 0, b'e', 4, 0, 0, 0, 0, 0, 0, 0, // document 1, its name, the revision
    1, 0, 0, 0, 1, 1, 0, 0, 0, b'y', 0, 0, 0, 0, // its text
    1, 0, 0, 0, 1, 0, b'b', // one source
    2, 0, 0, 0, 0, 0, 0, 0, 3, 0, 0, 0, 0, 0, 0, 0, // its last number, and that one's revision
];

/// The bytes with others from a place on.
pub fn with_bytes_at(
    rt: &(impl Abort + AllocGlobal),
    bytes: &[u8],
    at: usize,
    other: &[u8],
) -> Vec<u8> {
    let mut changed = bytes.to_vec(rt.alloc()).expect(rt, "memory");
    for (i, byte) in other.iter().enumerate() {
        let place = at.saturating_add(i);
        assert!(rt; place < changed.len());
        changed[place] = *byte;
    }
    changed
}

/// A device that holds both documents.
pub fn old_bytes(rt: &(impl Abort + AllocGlobal)) -> Vec<u8> {
    let bytes = with_bytes_at(rt, &[0; LEN], 0, &SUPERBLOCK);
    let bytes = with_bytes_at(rt, &bytes, 1_088, &SLOT);
    with_bytes_at(rt, &bytes, 576, &CELL)
}

/// A device of these bytes.
pub fn device_of(rt: &(impl Abort + AllocGlobal), bytes: &[u8]) -> MemDisk {
    MemDisk::holding(rt.alloc(), bytes.to_vec(rt.alloc()).expect(rt, "memory"))
}

/// What a device is opened as.
pub fn opened(
    rt: &(impl Abort + AllocGlobal),
    bytes: &[u8],
    pick: Pick,
) -> Result<Store<MemDisk>, OpenFault<MemDisk>> {
    Store::open(rt.alloc(), device_of(rt, bytes), pick)
}
