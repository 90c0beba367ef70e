//! Stores on devices in memory. What they are to hold stands in docs/FORMATS.md, and is written out by hand here.
ghost use Rattle.std.specs.Prelude.{◌≡◌, ◌≤◌, ◌<◌, ◌^◌, length};
ghost use Rattle.recovery.specs.Open.{FitsSlot, state_of};

use attributes::Attrs;
use delta::{Builder, Delta, Op, OpRef};
use disk::{Disk, MemDisk};
use recovery::{OpenFault, Pick, Receipt, Shape, Store, format_device};
use refusal::Refusal;
use revision::{Batch, Command, DocState, Name, Plan, State, Taken};
use std::process::Abort;

/// A device of 1,600 bytes: cells at 64, 320, 576 and 832, slots at 1,088 and 1,344.
pub const SMALL: Shape = Shape {
    slots: 2,
    slot: 256,
    docs: 2,
    cell: 256,
    sources: 4,
    keep: 2,
};

/// What stands from place 1,088 on, when the source `a` has created the document `d` with the text `z`, and then the
/// document `e` with the text `y`.
pub const SLOT: [u8; 110] = [
    0xa5, 1, 0, 0, 0, 0, 0, 0, 0, // the gate of slot 0, and its number
    0xa5, 45, 0, 0, 0, // the gate of the first record, and its length
    1, 0, 0, 0, // one entry
    1, 0, 0, 0, 0, 1, 0, 0, 0, 0, 0, 0, 0, // a creation, document 0, revision 1
    1, 0, b'a', 1, 0, 0, 0, 0, 0, 0, 0, // source a, its number 1
    1, 0, b'd', // name d
    1, 0, 0, 0, 1, 1, 0, 0, 0, b'z', // one operation, an insert of the text z
    0, 0, 0, 0, // no attributes
    0xa5, 45, 0, 0, 0, // the gate of the second record, and its length
    1, 0, 0, 0, // one entry
    1, 1, 0, 0, 0, 1, 0, 0, 0, 0, 0, 0, 0, // a creation, document 1, revision 1
    1, 0, b'a', 1, 0, 0, 0, 0, 0, 0, 0, // source a, its number 1
    1, 0, b'e', // name e
    1, 0, 0, 0, 1, 1, 0, 0, 0, b'y', // one operation, an insert of the text y
    0, 0, 0, 0, // no attributes
    0, // the closed gate behind
];

/// A creation that a source asks for: the source, the document's name, the text, and the answer.
pub type Row = (&'static str, &'static str, &'static str, &'static str);

/// So many bytes from a place on.
pub fn part<'a>(rt: &impl Abort, bytes: &'a [u8], at: usize, len: usize) -> &'a [u8] {
    bytes
        .get(at..at.saturating_add(len))
        .expect(rt, "so many bytes")
}

/// Bytes are as they are wanted. One assertion for all, since each is proved.
pub fn are_bytes(rt: &impl Abort, found: &[u8], wanted: &[u8]) {
    assert_eq!(rt; found, wanted);
}

/// A text is as it is wanted.
pub fn is_text(rt: &impl Abort, found: &str, wanted: &str) {
    assert_eq!(rt; found, wanted);
}

/// An answer of a store is as it is wanted.
pub fn is_answer(rt: &impl Abort, found: Result<(), Refusal>, wanted: Result<(), Refusal>) {
    assert_eq!(rt; found, wanted);
}

/// Puts more bytes behind others.
pub fn extend(rt: &(impl Abort + AllocGlobal), bytes: &mut Vec<u8>, more: &[u8]) {
    bytes.extend_from_slice(more).expect(rt, "memory");
}

/// Puts a text behind another one.
pub fn push_text(rt: &(impl Abort + AllocGlobal), text: &mut String, more: &str) {
    text.push_str(more).expect(rt, "memory");
}

/// The bytes with others from a place on, which may reach past their end.
pub fn with_bytes_at(
    rt: &(impl Abort + AllocGlobal),
    bytes: &[u8],
    at: usize,
    other: &[u8],
) -> Vec<u8> {
    let head = bytes.get(..at).expect(rt, "so many bytes");
    let mut all = head.to_vec(rt.alloc()).expect(rt, "memory");
    extend(rt, &mut all, other);
    let end = all.len();
    if let Some(rest) = bytes.get(end..) {
        extend(rt, &mut all, rest);
    }
    all
}

/// Formats a device. No clause is kept of what comes of it, so callers are checked faster.
pub fn format(
    rt: &(impl Abort + AllocGlobal),
    disk: &mut MemDisk,
    shape: Shape,
) -> Result<(), Refusal> {
    format_device(rt.alloc(), disk, shape)
}

/// A device of so many zeros that is formatted.
pub fn formatted_device(rt: &(impl Abort + AllocGlobal), len: usize, shape: Shape) -> MemDisk {
    let mut disk = MemDisk::new(rt.alloc(), len).expect(rt, "memory");
    is_answer(rt, format(rt, &mut disk, shape), Ok(()));
    disk
}

/// A small device that was just formatted.
pub fn small_device(rt: &(impl Abort + AllocGlobal)) -> MemDisk {
    formatted_device(rt, 1_600, SMALL)
}

/// A synced device of these bytes.
pub fn device_of(rt: &(impl Abort + AllocGlobal), bytes: &[u8]) -> MemDisk {
    MemDisk::holding(rt.alloc(), bytes.to_vec(rt.alloc()).expect(rt, "memory"))
}

/// Opens a device. No clause is kept of what comes of it, so callers are checked faster.
fn opened<D: Disk + Drop>(
    rt: &(impl Abort + AllocGlobal),
    disk: D,
    pick: Pick,
) -> Result<Store<D>, OpenFault<D>> {
    Store::open(rt.alloc(), disk, pick)
}

/// A store over a device that is to open by this pick.
pub fn open_by<D: Disk + Drop>(rt: &(impl Abort + AllocGlobal), disk: D, pick: Pick) -> Store<D> {
    match opened(rt, disk, pick) {
        Ok(store) => store,
        Err(fault) => panic!(rt; "{}", fault.refusal),
    }
}

/// A store over a device that is to open by the newer pick.
pub fn open_store<D: Disk + Drop>(rt: &(impl Abort + AllocGlobal), disk: D) -> Store<D> {
    open_by(rt, disk, Pick::Newer)
}

/// The text that a delta inserts.
pub fn text_of(rt: &(impl Abort + AllocGlobal), delta: &Delta) -> String {
    let mut all = String::new(rt.alloc());
    for op in delta.ops() {
        if let OpRef::Text(text, _) = op.get() {
            push_text(rt, &mut all, text);
        }
    }
    all
}

/// A document as its name, its revision and its text, or that it is deleted.
pub fn line_of(rt: &(impl Abort + AllocGlobal), record: &DocState) -> String {
    let delta = record.document().as_delta(rt.alloc()).expect(rt, "memory");
    let text = text_of(rt, &delta);
    let shown = if record.is_live() {
        text.as_str()
    } else {
        "deleted"
    };
    let name = record.name().as_str();
    let revision = record.revision();
    format!(in rt.alloc(); "{name} {revision} {shown}").expect(rt, "memory")
}

/// The documents of a state, each as a line.
pub fn lines_of(rt: &(impl Abort + AllocGlobal), state: &State) -> String {
    let mut lines = String::new(rt.alloc());
    for record in state.documents() {
        push_text(rt, &mut lines, line_of(rt, record).as_str());
        push_text(rt, &mut lines, "\n");
    }
    lines
}

/// A state has these documents.
pub fn has_documents(rt: &(impl Abort + AllocGlobal), state: &State, lines: &str) {
    is_text(rt, lines_of(rt, state).as_str(), lines);
}

/// A device of these bytes is opened by either pick, with these documents or this refusal. Opening it changes nothing.
pub fn is_opened_as(rt: &(impl Abort + AllocGlobal), bytes: &[u8], wanted: &str) {
    is_picked_as(rt, bytes, Pick::Newer, wanted);
    is_picked_as(rt, bytes, Pick::Older, wanted);
}

/// A refusal is told as this.
pub fn is_told_as(rt: &(impl Abort + AllocGlobal), refusal: Refusal, wanted: &str) {
    let text = format!(in rt.alloc(); "{refusal}").expect(rt, "memory");
    is_text(rt, text.as_str(), wanted);
}

// A store has these documents, and gives back the device with these bytes.
fn holds(rt: &(impl Abort + AllocGlobal), store: Store<MemDisk>, bytes: &[u8], wanted: &str) {
    has_documents(rt, store.state(), wanted);
    are_bytes(rt, store.close().bytes(), bytes);
}

/// And by this pick.
pub fn is_picked_as(rt: &(impl Abort + AllocGlobal), bytes: &[u8], pick: Pick, wanted: &str) {
    match opened(rt, device_of(rt, bytes), pick) {
        Ok(store) => holds(rt, store, bytes, wanted),
        Err(fault) => {
            is_told_as(rt, fault.refusal, wanted);
            are_bytes(rt, fault.disk.bytes(), bytes);
        }
    }
}

/// Bytes, when others are written over them from a place on, are opened as this.
pub fn is_opened_with(
    rt: &(impl Abort + AllocGlobal),
    bytes: &[u8],
    at: usize,
    other: &[u8],
    wanted: &str,
) {
    is_opened_as(rt, &with_bytes_at(rt, bytes, at, other), wanted);
}

/// Bytes differ from what was there by others from a place on.
pub fn differ_by(
    rt: &(impl Abort + AllocGlobal),
    bytes: &[u8],
    before: &[u8],
    at: usize,
    other: &[u8],
) {
    are_bytes(rt, bytes, &with_bytes_at(rt, before, at, other));
}

/// The delta that inserts a text.
fn insert_of(rt: &(impl Abort + AllocGlobal), text: &str) -> Delta {
    let text = String::from_str(rt.alloc(), text).expect(rt, "memory");
    let mut builder = Builder::new(rt.alloc());
    assert!(rt; builder.push(Op::text(text, Attrs::new(rt.alloc()))).is_ok());
    builder.finish()
}

/// The source's first command to a document: it makes it.
fn creation(rt: &(impl Abort + AllocGlobal), source: &str, doc: &str, text: &str) -> Command {
    let source = Name::source(rt.alloc(), source).expect(rt, "a source");
    let doc = Name::doc(rt.alloc(), doc).expect(rt, "a document");
    Command::create(doc, source, 1, insert_of(rt, text)).expect(rt, "a creation")
}

/// An edit of the document "d" by the source "a", by a number of 1 to 2^53 - 1, made on a revision: it inserts a text at the
/// beginning.
pub fn edit(rt: &(impl Abort + AllocGlobal), number: u64, base: u64, text: &str) -> Command {
    assert!(rt; 1 <= number && number < 9_007_199_254_740_992);
    let source = Name::source(rt.alloc(), "a").expect(rt, "a source");
    let doc = Name::doc(rt.alloc(), "d").expect(rt, "a document");
    Command::edit(doc, source, number, base, insert_of(rt, text)).expect(rt, "an edit")
}

/// A batch of these commands.
pub fn batch_of(rt: &(impl Abort + AllocGlobal), commands: Vec<Taken>) -> Batch
    ensures { result ≡ commands.items }
{
    match Batch::of(rt.alloc(), commands) {
        Ok(batch) => batch,
        Err(refusal) => panic!(rt; "{refusal}"),
    }
}

// Commits a batch. No clause is kept of what comes of it, so callers are checked faster.
fn commit<D: Disk>(
    rt: &(impl Abort + AllocGlobal),
    store: &mut Store<D>,
    batch: &Batch,
) -> Result<Receipt<D>, Refusal>
    requires some { 1 ≤ length batch.now }
    requires short { length batch.now < 2 ^ 32 }
    requires fits { FitsSlot (state_of store.old) batch.now }
{
    store.commit(rt.alloc(), batch, &[])
}

// Commits what was taken of a command.
fn commit_taken<D: Disk>(
    rt: &(impl Abort + AllocGlobal),
    store: &mut Store<D>,
    taken: Taken,
) -> Result<(), Refusal> {
    let commands = vec![in rt.alloc(); taken].expect(rt, "memory");
    let batch = batch_of(rt, commands);
    assert!(rt; batch.as_slice().len() == 1 && store.fits(batch.as_slice()));
    match commit(rt, store, &batch) {
        Ok(_) => Ok(()),
        Err(refusal) => Err(refusal),
    }
}

// How a command is answered, and which revision it has made. It is committed where it is taken.
fn answer<D: Disk>(
    rt: &(impl Abort + AllocGlobal),
    store: &mut Store<D>,
    command: &Command,
) -> Result<(&'static str, u64), Refusal> {
    match store.state().plan(rt.alloc(), command) {
        Ok(Plan::Taken(taken)) => {
            let rev = taken.revision();
            match commit_taken(rt, store, taken) {
                Ok(()) => Ok(("taken", rev)),
                Err(refusal) => Err(refusal),
            }
        }
        Ok(Plan::Again { rev }) => Ok(("again", rev)),
        Err(refusal) => Err(refusal),
    }
}

/// A command's answer in words.
pub fn answer_text<D: Disk>(
    rt: &(impl Abort + AllocGlobal),
    store: &mut Store<D>,
    command: &Command,
) -> String {
    let text = match answer(rt, store, command) {
        Ok((word, rev)) => format!(in rt.alloc(); "{word} {rev}"),
        Err(refusal) => format!(in rt.alloc(); "{refusal}"),
    };
    text.expect(rt, "memory")
}

/// Asks for a creation, and compares the answer.
pub fn create<D: Disk>(rt: &(impl Abort + AllocGlobal), store: &mut Store<D>, row: &Row) {
    let command = creation(rt, row.0, row.1, row.2);
    is_text(rt, answer_text(rt, store, &command).as_str(), row.3);
}

/// An edit by its number, the revision that it is made on, the text that it inserts, and the answer.
pub type EditRow = (u64, u64, &'static str, &'static str);

/// Asks for an edit of "d" by "a", and compares the answer.
pub fn change<D: Disk>(rt: &(impl Abort + AllocGlobal), store: &mut Store<D>, row: &EditRow) {
    let command = edit(rt, row.0, row.1, row.2);
    is_text(rt, answer_text(rt, store, &command).as_str(), row.3);
}

/// One run: opens a device of these bytes, asks for creations, and closes. The store is to hold these documents then,
/// and so is the device, which comes back.
pub fn session(
    rt: &(impl Abort + AllocGlobal),
    bytes: &[u8],
    rows: &[Row],
    lines: &str,
) -> MemDisk {
    let mut store = open_store(rt, device_of(rt, bytes));
    for row in rows {
        create(rt, &mut store, row);
    }
    has_documents(rt, store.state(), lines);
    let disk = store.close();
    is_opened_as(rt, disk.bytes(), lines);
    disk
}
