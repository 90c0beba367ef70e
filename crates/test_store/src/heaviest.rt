//! A document that weighs as much as a store of this shape may hold.
use crate::milestones::is_put;
use crate::stores::{
    answer_text, change, device_of, differ_by, is_opened_as, is_text, open_store, small_device,
    with_bytes_at,
};
use attributes::{Attrs, Key, Value};
use delta::{Builder, Op};
use revision::{Command, Name};
use std::process::Abort;

/// The cell of document 0, whose text is abcd with a bold a.
const HEAVIEST: [u8; 78] = [
    0xa5, 73, 0, 0, 0, // the gate, and the length of the body
    0, 0, 0, 0, // document 0
    1, 0, b'd', // its name
    1, 0, 0, 0, 0, 0, 0, 0, 1, // revision 1, and it is there
    2, 0, 0, 0, // two operations
    1, 1, 0, 0, 0, b'a', // an insert of the text a
    1, 0, 0, 0, 4, 0, b'b', b'o', b'l', b'd', 2, // one attribute, true
    1, 3, 0, 0, 0, b'b', b'c', b'd', // an insert of the text bcd
    0, 0, 0, 0, // no attributes
    1, 0, 0, 0, // one source
    1, 0, b'a', // its name
    1, 0, 0, 0, 0, 0, 0, 0, // its last number
    1, 1, 0, 0, 0, 0, 0, 0, 0, // one number in its window, and its revision
];

// An insert of a text.
fn insert(rt: &(impl Abort + AllocGlobal), text: &str, attrs: Attrs) -> Op {
    let text = String::from_str(rt.alloc(), text).expect(rt, "memory");
    Op::text(text, attrs)
}

// The attribute of a bold text.
fn bold(rt: &(impl Abort + AllocGlobal)) -> Attrs {
    let mut attrs = Attrs::new(rt.alloc());
    let name = Key::new(rt.alloc(), "bold").expect(rt, "a name");
    assert!(rt; attrs.set(name, Value::flag(true)).is_ok());
    attrs
}

// The creation of abcd with a bold a. It weighs 64 for its source, 12 for each unit, and 12 with the 4 bytes of its name for the
// attribute: 128, as cells of 256 bytes hold.
fn heaviest(rt: &(impl Abort + AllocGlobal)) -> Command {
    let mut builder = Builder::new(rt.alloc());
    assert!(rt; builder.push(insert(rt, "a", bold(rt))).is_ok());
    assert!(rt;
        builder
            .push(insert(rt, "bcd", Attrs::new(rt.alloc())))
            .is_ok()
    );
    let source = Name::source(rt.alloc(), "a").expect(rt, "a source");
    let doc = Name::doc(rt.alloc(), "d").expect(rt, "a document");
    Command::create(doc, source, 1, builder.finish()).expect(rt, "a creation")
}

// It is put into a cell and read again, also where the cell stands alone, and takes no unit more.
#[test]
fn the_heaviest_document_has_a_cell(rt: HostRuntime) {
    let mut store = open_store(&rt, small_device(&rt));
    let answer = answer_text(&rt, &mut store, &heaviest(&rt));
    is_text(&rt, answer.as_str(), "taken 1");
    let before = store.close();
    let mut store = open_store(&rt, device_of(&rt, before.bytes()));
    is_put(&rt, &mut store, 1, Ok(()));
    let disk = store.close();
    differ_by(&rt, disk.bytes(), before.bytes(), 64, &HEAVIEST);
    is_opened_as(&rt, disk.bytes(), "d 1 abcd\n");
    let alone = with_bytes_at(&rt, small_device(&rt).bytes(), 64, &HEAVIEST);
    is_opened_as(&rt, &alone, "d 1 abcd\n");
    let mut store = open_store(&rt, device_of(&rt, &alone));
    change(&rt, &mut store, &(2, 1, "x", "error 16 TooHeavy"));
}
