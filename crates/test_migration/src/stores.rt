//! A store of the second format with each kind of document: `d` is live, and its sources `a` and `b` have full windows, `e` is deleted, and `f`
//! is deleted and created again.
use attributes::Attrs;
use delta::{Builder, Delta, Op};
use disk::{Disk, MemDisk};
use recovery::{Pick, Shape, Store, format_device};
use revision::{Batch, Command, DocState, Name, Plan, State};
use std::process::Abort;

/// The numbers of the store: 13,336 bytes.
pub const SHAPE: Shape = Shape {
    slots: 2,
    slot: 3_936,
    docs: 3,
    cell: 900,
    sources: 2,
    keep: 40,
};

/// The same numbers, each four times as much.
pub const LARGER: Shape = Shape {
    slots: 8,
    slot: 15_744,
    docs: 12,
    cell: 3_600,
    sources: 8,
    keep: 160,
};

// Inserts a letter in front.
fn letter(rt: &(impl Abort + AllocGlobal)) -> Delta {
    let mut builder = Builder::new(rt.alloc());
    let text = String::from_str(rt.alloc(), "x").expect(rt, "memory");
    let pushed = builder.push(Op::text(text, Attrs::new(rt.alloc())));
    assert!(rt; pushed.is_ok());
    builder.finish()
}

/// What a source asks for.
#[derive(Clone, Copy)]
pub enum Ask {
    Create,
    Edit { base: u64 },
    Delete,
}

/// The command of a source on a document, of this number.
pub fn command(
    rt: &(impl Abort + AllocGlobal),
    doc: &str,
    source: &str,
    number: u64,
    ask: Ask,
) -> Command {
    let name = Name::doc(rt.alloc(), doc).expect(rt, "a name");
    let source = Name::source(rt.alloc(), source).expect(rt, "a source");
    assert!(rt; number >= 1 && number < 1 << 53);
    match ask {
        Ask::Create => Command::create(name, source, number, letter(rt)).expect(rt, "a creation"),
        Ask::Edit { base } => {
            Command::edit(name, source, number, base, letter(rt)).expect(rt, "an edit")
        }
        Ask::Delete => Command::delete(name, source, number),
    }
}

/// The store takes a command.
pub fn takes<D: Disk>(rt: &(impl Abort + AllocGlobal), store: &mut Store<D>, command: &Command) {
    let planned = store.state().plan(rt.alloc(), command);
    let Ok(Plan::Taken(taken)) = planned else {
        panic!(rt; "it is taken");
    };
    let commands = vec![in rt.alloc(); taken].expect(rt, "memory");
    let batch = Batch::of(rt.alloc(), commands).expect(rt, "memory");
    let entries = batch.as_slice();
    assert!(rt; entries.len() == 1 && store.fits(entries));
    assert!(rt; store.commit(rt.alloc(), &batch, &[]).is_ok());
}

// A source edits a document by the numbers from `first` up to `last`.
fn edits(
    rt: &(impl Abort + AllocGlobal),
    store: &mut Store<MemDisk>,
    doc: &str,
    source: &str,
    numbers: (u64, u64),
) {
    for number in numbers.0..=numbers.1 {
        let base = match store.state().documents() {
            [d, ..] => d.revision(),
            [] => 0,
        };
        takes(
            rt,
            store,
            &command(rt, doc, source, number, Ask::Edit { base }),
        );
    }
}

// A device that was just formatted.
fn formatted(rt: &(impl Abort + AllocGlobal), shape: Shape) -> MemDisk {
    assert!(rt; shape.is_in_range());
    let len = shape.device_len() as usize;
    let mut disk = MemDisk::new(rt.alloc(), len).expect(rt, "memory");
    assert!(rt; format_device(rt.alloc(), &mut disk, shape).is_ok());
    disk
}

/// The bytes of the store.
pub fn store_bytes(rt: &(impl Abort + AllocGlobal)) -> Vec<u8> {
    let disk = formatted(rt, SHAPE);
    let opened = Store::open(rt.alloc(), disk, Pick::Newer);
    let mut store = opened.ok().expect(rt, "a store");
    takes(rt, &mut store, &command(rt, "d", "a", 1, Ask::Create));
    edits(rt, &mut store, "d", "a", (2, 17));
    edits(rt, &mut store, "d", "b", (1, 16));
    for (doc, number, ask) in [
        ("e", 1, Ask::Create),
        ("e", 2, Ask::Delete),
        ("f", 1, Ask::Create),
        ("f", 2, Ask::Delete),
        ("f", 3, Ask::Create),
    ] {
        takes(rt, &mut store, &command(rt, doc, "b", number, ask));
    }
    let device = store.close();
    device.bytes().to_vec(rt.alloc()).expect(rt, "memory")
}

// Two documents hold the same at their newest revisions: a text, a mark, and sources with their windows.
fn is_same_document(rt: &(impl Abort + AllocGlobal), one: &DocState, other: &DocState) {
    assert!(rt; one.name().as_str() == other.name().as_str());
    assert!(rt; one.revision() == other.revision() && one.is_live() == other.is_live());
    let text = one.document().as_delta(rt.alloc()).expect(rt, "memory");
    let copy = other.document().as_delta(rt.alloc()).expect(rt, "memory");
    assert!(rt; text == copy && one.sources() == other.sources());
}

/// Two states hold the same documents, in the same order.
pub fn is_same(rt: &(impl Abort + AllocGlobal), one: &State, other: &State) {
    assert!(rt; one.documents().len() == other.documents().len());
    for (one, other) in one.documents().iter().zip(other.documents()) {
        is_same_document(rt, one, other);
    }
}
