//! What comes of an old device, and which ones are refused.
use crate::old::{CELL, LEN, device_of, old_bytes, opened, with_bytes_at};
use delta::{Builder, Delta, OpRef};
use disk::MemDisk;
use migration::migrate;
use recovery::{Pick, Store};
use refusal::Refusal;
use revision::{Command, DocState, Name, Plan};
use std::process::Abort;

// A delta inserts this text, and nothing else.
fn inserts(delta: &Delta, wanted: &str) -> bool {
    match delta.ops() {
        [op] => match op.get() {
            OpRef::Text(text, attrs) => text == wanted && attrs.entries().is_empty(),
            _ => false,
        },
        _ => false,
    }
}

// A document of this name is at a revision, from which on it is held, and has this text.
fn has_text(rt: &(impl Abort + AllocGlobal), found: &DocState, name: &str, rev: u64, text: &str) {
    assert!(rt; found.name().as_str() == name && found.revision() == rev && found.floor() == rev);
    let delta = found.document().as_delta(rt.alloc()).expect(rt, "memory");
    assert!(rt; inserts(&delta, text), "{name}");
}

/// A store has the documents of the old device.
pub fn has_both(rt: &(impl Abort + AllocGlobal), store: &Store<MemDisk>) {
    match store.state().documents() {
        [d, e] => {
            has_text(rt, d, "d", 3, "x");
            has_text(rt, e, "e", 4, "y");
        }
        _ => panic!(rt; "two documents"),
    }
}

// What a command without effect is answered.
fn is_answered(
    rt: &(impl Abort + AllocGlobal),
    store: &Store<MemDisk>,
    words: (&str, &str, u64, u64),
    wanted: Result<(bool, u64), Refusal>,
) {
    let (doc, source, number, base) = words;
    let name = Name::doc(rt.alloc(), doc).expect(rt, "a name");
    let source = Name::source(rt.alloc(), source).expect(rt, "a source");
    assert!(rt; number >= 1 && number < 1 << 53);
    let nothing = Builder::new(rt.alloc()).finish();
    let command = Command::edit(name, source, number, base, nothing).expect(rt, "an edit");
    let found = match store.state().plan(rt.alloc(), &command) {
        Ok(Plan::Taken(taken)) => Ok((false, taken.revision())),
        Ok(Plan::Again { rev }) => Ok((true, rev)),
        Err(refusal) => Err(refusal),
    };
    assert!(rt; found == wanted, "{doc} {number}");
}

/// The record of a deletion of the document d, and the closed gate behind.
const DELETION: [u8; 34] = [
    0xa5, 28, 0, 0, 0, 1, 0, 0, 0, // one entry
    3, 0, 0, 0, 0, 3, 0, 0, 0, 0, 0, 0, 0, // a deletion, document 0, revision 3
    1, 0, b'a', 3, 0, 0, 0, 0, 0, 0, 0, // source a, its number 3
    0,
];

/// The same of the document e, whose cell is at a later revision, so that the entry would be skipped.
const SKIPPED_DELETION: [u8; 34] = [
    0xa5, 28, 0, 0, 0, 1, 0, 0, 0, // one entry
    3, 1, 0, 0, 0, 3, 0, 0, 0, 0, 0, 0, 0, // a deletion, document 1, revision 3
    1, 0, b'b', 2, 0, 0, 0, 0, 0, 0, 0, // source b, its number 2
    0,
];

/// And its creation again.
const SKIPPED_REVIVAL: [u8; 38] = [
    0xa5, 32, 0, 0, 0, 1, 0, 0, 0, // one entry
    4, 1, 0, 0, 0, 4, 0, 0, 0, 0, 0, 0, 0, // a creation again, document 1, revision 4
    1, 0, b'b', 2, 0, 0, 0, 0, 0, 0, 0, // source b, its number 2
    0, 0, 0, 0, // no operation
    0,
];

/// An edit in its place is skipped.
const SKIPPED_EDIT: [u8; 38] = [
    0xa5, 32, 0, 0, 0, 1, 0, 0, 0, // one entry
    2, 1, 0, 0, 0, 4, 0, 0, 0, 0, 0, 0, 0, // a change, document 1, revision 4
    1, 0, b'b', 2, 0, 0, 0, 0, 0, 0, 0, // source b, its number 2
    0, 0, 0, 0, // no operation
    0,
];

// A device of these bytes is refused, and stays; the new one has seen no call.
fn is_refused(rt: &(impl Abort + AllocGlobal), bytes: &[u8], wanted: Refusal) {
    let mut old = device_of(rt, bytes);
    let mut new = device_of(rt, &[0; LEN]);
    assert_eq!(rt; migrate(rt.alloc(), &mut old, &mut new), Err(wanted));
    assert!(rt; old.bytes() == bytes && new.calls().is_empty());
}

#[test]
fn a_store_is_brought_over(rt: HostRuntime) {
    let bytes = old_bytes(&rt);
    let mut old = device_of(&rt, &bytes);
    let mut new = device_of(&rt, &[0; LEN]);
    assert_eq!(&rt; migrate(rt.alloc(), &mut old, &mut new), Ok(()));
    assert!(&rt; old.bytes() == bytes.as_slice());
    for pick in [Pick::Newer, Pick::Older] {
        let store = opened(&rt, new.bytes(), pick).ok().expect(&rt, "a store");
        has_both(&rt, &store);
        is_answered(&rt, &store, ("d", "a", 3, 3), Ok((true, 3)));
        is_answered(&rt, &store, ("d", "a", 2, 3), Err(Refusal::OldNumber));
        is_answered(&rt, &store, ("d", "a", 4, 3), Ok((false, 4)));
        is_answered(&rt, &store, ("e", "b", 2, 4), Ok((true, 3)));
    }
    // Again onto the same device, and from it.
    let mut again = device_of(&rt, new.bytes());
    let refused = migrate(rt.alloc(), &mut old, &mut again);
    assert_eq!(&rt; refused, Err(Refusal::AlreadyFormatted));
    assert!(&rt; again.bytes() == new.bytes());
    is_refused(&rt, new.bytes(), Refusal::NotOld);
}

#[test]
fn an_old_device_is_not_opened(rt: HostRuntime) {
    let bytes = old_bytes(&rt);
    match opened(&rt, &bytes, Pick::Newer) {
        Ok(_) => panic!(&rt; "it isn't opened"),
        Err(fault) => assert_eq!(&rt; fault.refusal, Refusal::OldFormat),
    }
    // Whatever else is wrong with it.
    match opened(&rt, &with_bytes_at(&rt, &bytes, 9, &[0]), Pick::Newer) {
        Ok(_) => panic!(&rt; "it isn't opened"),
        Err(fault) => assert_eq!(&rt; fault.refusal, Refusal::OldFormat),
    }
}

#[test]
fn other_devices_are_refused(rt: HostRuntime) {
    let bytes = old_bytes(&rt);
    is_refused(
        &rt,
        &with_bytes_at(&rt, &bytes, 0, &[0x3c]),
        Refusal::NotFormatted,
    );
    is_refused(&rt, &with_bytes_at(&rt, &bytes, 8, b"2"), Refusal::NotOld);
    is_refused(&rt, &with_bytes_at(&rt, &bytes, 8, b"3"), Refusal::Damaged);
    is_refused(&rt, &with_bytes_at(&rt, &bytes, 9, &[0]), Refusal::Damaged);
    // A source's revision that is above the cell's, and a cell as the second format has it.
    is_refused(
        &rt,
        &with_bytes_at(&rt, &bytes, 576 + 49, &[5]),
        Refusal::Damaged,
    );
    let longer = with_bytes_at(&rt, &bytes, 576, &[0xa5, 54]);
    is_refused(&rt, &longer, Refusal::Damaged);
    assert_eq!(&rt; CELL.len(), 57);
}

// The first format has no deletion and no creation again, also where it would be skipped. They stand in the third record.
#[test]
fn an_old_device_has_no_deletions(rt: HostRuntime) {
    let bytes = old_bytes(&rt);
    let deleted = with_bytes_at(&rt, &bytes, 1_088 + 119, &DELETION);
    is_refused(&rt, &deleted, Refusal::Damaged);
    let deleted = with_bytes_at(&rt, &bytes, 1_088 + 119, &SKIPPED_DELETION);
    is_refused(&rt, &deleted, Refusal::Damaged);
    let revived = with_bytes_at(&rt, &bytes, 1_088 + 119, &SKIPPED_REVIVAL);
    is_refused(&rt, &revived, Refusal::Damaged);
    let edited = with_bytes_at(&rt, &bytes, 1_088 + 119, &SKIPPED_EDIT);
    let mut old = device_of(&rt, &edited);
    let mut new = device_of(&rt, &[0; LEN]);
    assert_eq!(&rt; migrate(rt.alloc(), &mut old, &mut new), Ok(()));
}

// Bytes of a device that isn't formatted.
fn unformatted(rt: &(impl Abort + AllocGlobal), len: usize) -> Vec<u8> {
    let mut bytes = Vec::new(rt.alloc());
    bytes.resize(len, 0x77).expect(rt, "memory");
    if let Some(gate) = bytes.first_mut() {
        *gate = 0;
    }
    bytes
}

#[test]
fn a_new_device_may_be_too_short(rt: HostRuntime) {
    for len in [63, LEN - 1] {
        let bytes = unformatted(&rt, len);
        let mut old = device_of(&rt, &old_bytes(&rt));
        let mut new = device_of(&rt, &bytes);
        assert_eq!(&rt;
            migrate(rt.alloc(), &mut old, &mut new),
            Err(Refusal::BadShape)
        );
        assert!(&rt; new.bytes() == bytes.as_slice());
    }
}

// A byte of a device.
fn has(rt: &(impl Abort + AllocGlobal), bytes: &[u8], place: usize, wanted: u8) {
    assert!(rt; bytes.get(place) == Some(&wanted), "{place}");
}

#[test]
fn what_the_layout_does_not_name_stays(rt: HostRuntime) {
    let mut old = device_of(&rt, &old_bytes(&rt));
    let mut new = device_of(&rt, &unformatted(&rt, 2_000));
    assert_eq!(&rt; migrate(rt.alloc(), &mut old, &mut new), Ok(()));
    let store = opened(&rt, new.bytes(), Pick::Newer)
        .ok()
        .expect(&rt, "a store");
    has_both(&rt, &store);
    for place in [33, 63, 1_600, 1_999] {
        has(&rt, new.bytes(), place, 0x77);
    }
}
