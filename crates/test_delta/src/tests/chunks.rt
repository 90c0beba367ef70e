//! Documents of many runs, and the chunks in which they are kept.
use attributes::{Attrs, Change, Key, Value};
use delta::{Builder, Delta, Op};
use document::{Document, Piece};
use refusal::Refusal;
use std::process::Abort;

/// So many runs of one letter each, where no two have equal attributes.
const RUNS: u32 = 10_000;

// the attribute n
fn numbered_attrs(rt: &(impl Abort + AllocGlobal), number: u32) -> Attrs {
    let mut attrs = Attrs::new(rt.alloc());
    let key = Key::new(rt.alloc(), "n").expect(rt, "a name");
    let value = Value::whole(i64::from(number)).expect(rt, "a number");
    assert!(rt; attrs.set(key, value).is_ok());
    attrs
}

// a text with an attribute n
fn run(rt: &(impl Abort + AllocGlobal), text: &str, number: u32) -> Op {
    let text = String::from_str(rt.alloc(), text).expect(rt, "memory");
    Op::text(text, numbered_attrs(rt, number))
}

// puts an operation behind others
fn push(rt: &impl Abort, builder: &mut Builder, op: Op) {
    assert!(rt; builder.push(op).is_ok());
}

// the delta that inserts a letter for each number
fn inserts(rt: &(impl Abort + AllocGlobal), numbers: &[u32]) -> Delta {
    let mut builder = Builder::new(rt.alloc());
    for number in numbers {
        push(rt, &mut builder, run(rt, "x", *number));
    }
    builder.finish()
}

fn push_number(rt: &impl Abort, numbers: &mut Vec<u32>, number: u32) {
    numbers.push(number).expect(rt, "memory");
}

// the numbers of so many letters
fn numbers_of_runs(rt: &(impl Abort + AllocGlobal)) -> Vec<u32> {
    let mut numbers = Vec::new(rt.alloc());
    for number in 0..RUNS {
        push_number(rt, &mut numbers, number);
    }
    numbers
}

// the document that a delta makes
fn document_of(rt: &(impl Abort + AllocGlobal), delta: &Delta) -> Document {
    Document::from_delta(rt.alloc(), delta).expect(rt, "a document")
}

// the document of so many numbered letters
fn numbered(rt: &(impl Abort + AllocGlobal)) -> Document {
    document_of(rt, &inserts(rt, &numbers_of_runs(rt)))
}

fn kept(rt: &(impl Abort + AllocGlobal), len: u64) -> Op {
    Op::retain(len, Change::new(rt.alloc()))
}

// the delta that does something behind so many code units
fn behind(rt: &(impl Abort + AllocGlobal), len: u64, op: Op) -> Delta {
    let mut builder = Builder::new(rt.alloc());
    push(rt, &mut builder, kept(rt, len));
    push(rt, &mut builder, op);
    builder.finish()
}

// a delta is applied
fn apply(rt: &(impl Abort + AllocGlobal), document: &mut Document, delta: &Delta) {
    assert!(rt; document.apply(rt.alloc(), delta).is_ok());
}

// how many runs a document has
fn runs_of(document: &Document) -> usize {
    let mut runs: usize = 0;
    for chunk in document.chunks() {
        runs = runs.saturating_add(chunk.runs().len());
    }
    runs
}

// a document has so many runs, and as many code units
fn has_runs(rt: &impl Abort, document: &Document, runs: usize, len: u64) {
    assert_eq!(rt; (runs_of(document), document.len16()), (runs, len));
}

#[test]
fn letters_are_deleted_from_chunks(rt: HostRuntime) {
    let mut document = numbered(&rt);
    apply(&rt, &mut document, &behind(&rt, 9_999, Op::delete(1)));
    has_runs(&rt, &document, 9_999, 9_999);
    assert!(rt; document.chunks().len() >= 79);
    let mut whole = numbered(&rt);
    has_runs(&rt, &whole, 10_000, 10_000);
    apply(&rt, &mut whole, &behind(&rt, 0, Op::delete(10_000)));
    assert!(rt; whole.chunks().is_empty());
}

// the delta that puts numbered letters behind so many code units
fn puts(rt: &(impl Abort + AllocGlobal), len: u64, first: u32, end: u32) -> Delta {
    let mut builder = Builder::new(rt.alloc());
    push(rt, &mut builder, kept(rt, len));
    for number in first..end {
        push(rt, &mut builder, run(rt, "x", number));
    }
    builder.finish()
}

// five letters, and others put behind so many code units, are so many runs of one chunk
fn is_one_chunk(rt: &(impl Abort + AllocGlobal), len: u64, end: u32, runs: usize) {
    let mut document = document_of(rt, &puts(rt, 0, 0, 5));
    apply(rt, &mut document, &puts(rt, len, 5, end));
    assert_eq!(rt; (document.chunks().len(), runs_of(&document)), (1, runs));
}

#[test]
fn a_chunk_of_few_runs_takes_those_beside_it(rt: HostRuntime) {
    is_one_chunk(&rt, 5, 45, 45);
    is_one_chunk(&rt, 0, 37, 37);
}

// the delta of letters with a pair among them, at this place
fn paired(rt: &(impl Abort + AllocGlobal), place: u32) -> Delta {
    let mut builder = Builder::new(rt.alloc());
    for number in 0..300 {
        push(rt, &mut builder, letter(rt, place, number));
    }
    builder.finish()
}

fn letter(rt: &(impl Abort + AllocGlobal), place: u32, number: u32) -> Op {
    if number == place {
        return run(rt, "😀", number);
    }
    run(rt, "x", number)
}

// whether the last run of the first chunk is a pair alone
fn ends_in_pair(document: &Document) -> bool {
    let Some(chunk) = document.chunks().first() else {
        return false;
    };
    match chunk.runs().last() {
        Some(last) => matches!(last.piece(), Piece::Text("😀", 2, _)),
        None => false,
    }
}

// a delta that parts a pair is refused
fn cuts_pair(rt: &(impl Abort + AllocGlobal), document: &mut Document, delta: &Delta) {
    assert!(rt; document.apply(rt.alloc(), delta) == Err(Refusal::CutsPair));
}

fn content_of(rt: &(impl Abort + AllocGlobal), document: &Document) -> Delta {
    document.as_delta(rt.alloc()).expect(rt, "memory")
}

#[test]
fn a_pair_at_the_end_of_a_chunk_is_not_parted(rt: HostRuntime) {
    let mut document = document_of(&rt, &paired(&rt, 127));
    assert!(rt; ends_in_pair(&document));
    let start = content_of(&rt, &document);
    cuts_pair(&rt, &mut document, &behind(&rt, 128, Op::delete(1)));
    cuts_pair(&rt, &mut document, &behind(&rt, 128, run(&rt, "y", 0)));
    assert!(rt; content_of(&rt, &document) == start);
}

// a letter put in at a drawn place, in a document and in the list of its numbers
fn put_in(
    rt: &(impl Abort + AllocGlobal),
    document: &mut Document,
    numbers: &mut Vec<u32>,
    drawn: u64,
    number: u32,
) {
    let place = drawn % (numbers.len() as u64 + 1);
    apply(rt, document, &behind(rt, place, run(rt, "x", number)));
    assert!(rt; numbers.insert(place as usize, number).is_ok());
}

// a letter taken out at a drawn place, of a document and of the list of its numbers, if it has any
fn take_out(
    rt: &(impl Abort + AllocGlobal),
    document: &mut Document,
    numbers: &mut Vec<u32>,
    drawn: u64,
) {
    if numbers.is_empty() {
        return;
    }
    let place = drawn % numbers.len() as u64;
    apply(rt, document, &behind(rt, place, Op::delete(1)));
    drop(numbers.remove(place as usize));
}

// a letter put in or taken out at a drawn place
fn edit(
    rt: &(impl Abort + AllocGlobal),
    document: &mut Document,
    numbers: &mut Vec<u32>,
    drawn: u64,
    number: u32,
) {
    if drawn % 2 == 0 || numbers.is_empty() {
        put_in(rt, document, numbers, drawn / 2, number);
    } else {
        take_out(rt, document, numbers, drawn / 2);
    }
}

// how many runs the smallest chunk has
fn fewest_runs(document: &Document) -> usize {
    let mut fewest = usize::MAX;
    for chunk in document.chunks() {
        fewest = fewest.min(chunk.runs().len());
    }
    fewest
}

// as many edits as there are runs, whose places are drawn (Knuth's MMIX generator)
fn edit_all(rt: &(impl Abort + AllocGlobal), document: &mut Document, numbers: &mut Vec<u32>) {
    let mut drawn: u64 = 1;
    for number in RUNS..2 * RUNS {
        drawn = drawn
            .wrapping_mul(6_364_136_223_846_793_005)
            .wrapping_add(1_442_695_040_888_963_407);
        edit(rt, document, numbers, drawn >> 33, number);
    }
}

// the chunks of a document of so many runs have 32 to 128 each
fn has_full_chunks(rt: &impl Abort, document: &Document, runs: usize) {
    let chunks = document.chunks().len();
    assert!(rt; runs / 128 <= chunks && chunks <= runs / 32);
    assert!(rt; fewest_runs(document) >= 32);
}

#[test]
fn drawn_edits_leave_chunks_of_32_runs_or_more(rt: HostRuntime) {
    let mut numbers = numbers_of_runs(&rt);
    let mut document = document_of(&rt, &inserts(&rt, &numbers));
    edit_all(&rt, &mut document, &mut numbers);
    assert!(rt; content_of(&rt, &document) == inserts(&rt, &numbers));
    let runs = runs_of(&document);
    assert_eq!(rt; runs, numbers.len());
    has_full_chunks(&rt, &document, runs);
}
