//! Reading the body of a cell: each part of the spelling has one function, which answers what it read and the bytes behind it.
ghost use Rattle.std.specs.Prelude.{◌≡◌, ◌≤◌, ◌<◌, ◌^◌, ◌++◌, ◌∷◌, [], List, ℕ, Bool, true, false, OnOk, OnErr, IfOk, IfErr, IfSome, IfNone};
ghost use Rattle.std.specs.Int.{w32, w64};
ghost use Rattle.std.specs.Ordering.{is_lt};
ghost use Rattle.attributes.specs.Map.{by_bytes, insert};
ghost use Rattle.history.specs.Cell.{Cell};
ghost use Rattle.journal.specs.Spelling as fields;
ghost use Rattle.revision.specs.Name.{is_document_name, is_source_name};
ghost use Rattle.revision.specs.Window.{longest, Window};
ghost use Rattle.revision.specs.Past.{is_content};
ghost use Rattle.milestone.specs.CellSpelling as spelling;
ghost use Rattle.milestone.specs.CellSpelling.{IsCellIn, cell_body_in, spells_mark};
ghost use Rattle.milestone.specs.steps.Reading.{BeginsNone, IsAbove, IsWithin, IsContent, content_bytes, IsCount, AreRevisions, revisions_bytes, IsWindowIn, IsSource, AreSources, sources_bytes};

use crate::format::Format;
use crate::milestone::Milestone;
use crate::writing::{DELETED, LIVE};
use document::Document;
use journal::{read_delta, read_number32, read_number64, read_text16};
use refusal::Refusal;
use revision::{LONGEST, Name, Sources, Window};
use std::alloc::{AllocError, Global};
use std::cmp::Ordering;

/// 2^53 - 1: the last revision and the last number.
const LAST_OF_ALL: u64 = (1 << 53) - 1;

/// Why nothing was read.
#[derive(Clone, Copy, Debug)]
pub(crate) enum CellError {
    /// The bytes are no spelling.
    Malformed,
    /// Memory ran out.
    NoMemory,
}

impl From<AllocError> for CellError {
    ghost use Rattle.milestone.specs.declared.reading.CellError.TheVariants.{NoMemory};

    ghost from_gives = { λ _ e. e ≡ NoMemory };

    fn from(_e: AllocError) -> CellError {
        CellError::NoMemory
    }
}

/// The milestone whose spelling as a cell of the document of this number the bytes are in a format, all of them, or none.
pub(crate) fn read_body(
    alloc: Global,
    format: Format,
    number: u32,
    bytes: &[u8],
) -> Result<Option<Milestone>, AllocError>
    ensures found { IfOk result (λ found. IfSome found (λ m. IsCellIn format number m
        × (bytes.now ≡ cell_body_in format number m))) }
    ensures none { IfOk result (λ found. IfNone found ((cell : Cell) → IsCellIn format number cell
        → bytes.now ≡ cell_body_in format number cell → ⊥)) }
{
    match whole(alloc, format, number, bytes) {
        Ok(milestone) => Ok(Some(milestone)),
        Err(CellError::Malformed) => Ok(None),
        Err(CellError::NoMemory) => Err(AllocError),
    }
}

#[tactic(auto, unfolding(crate::specs::CellSpelling::cell_body_in))]
fn whole(alloc: Global, format: Format, number: u32, bytes: &[u8]) -> Result<Milestone, CellError>
    ensures found { IfOk result (λ m. IsCellIn format number m × (bytes.now ≡ cell_body_in format number m)) }
    ensures none { IfErr result (λ e. e ≡ CellError.Malformed → (cell : Cell) → IsCellIn format number cell
        → bytes.now ≡ cell_body_in format number cell → ⊥) }
{
    let rest = this_number(number, bytes)?;
    let (name, rest) = document_name(alloc, rest)?;
    let (revision, rest) = number_within(LAST_OF_ALL, rest)?;
    let (live, rest) = mark(format, rest)?;
    let (document, rest) = content(alloc, rest)?;
    let (document, live) = marked(document, live)?;
    let (sources, rest) = sources(alloc, format, revision, rest)?;
    if !rest.is_empty() {
        return Err(CellError::Malformed);
    }
    Ok(Milestone::new(name, revision, document, live, sources))
}

// A number of four bytes is below 2^32, and one of eight below 2^64.
fn below_2_to_32(number: u32)
    ensures { number < 2 ^ 32 }
{
    let _ = number;
}

fn below_2_to_64(number: u64)
    ensures { number < 2 ^ 64 }
{
    let _ = number;
}

fn this_number(number: u32, bytes: &[u8]) -> Result<&[u8], CellError>
    ensures found { IfOk result (λ rest. bytes.now ≡ fields.number w32 number ++ rest.now) }
    ensures none { IfErr result (λ e. e ≡ CellError.Malformed → (rest : List ℕ)
        → bytes.now ≡ fields.number w32 number ++ rest → ⊥) }
{
    let Some((read, rest)) = read_number32(bytes) else {
        return Err(CellError::Malformed);
    };
    below_2_to_32(read);
    if read != number {
        return Err(CellError::Malformed);
    }
    Ok(rest)
}

// a number from 1 to this one
fn number_within(high: u64, bytes: &[u8]) -> Result<(u64, &[u8]), CellError>
    ensures found { IfOk result (λ x. IsWithin high x.0 × (bytes.now ≡ fields.number w64 x.0 ++ x.1.now)) }
    ensures none { IfErr result (λ e. e ≡ CellError.Malformed → BeginsNone (fields.number w64) (IsWithin high) bytes.now) }
{
    let Some((number, rest)) = read_number64(bytes) else {
        return Err(CellError::Malformed);
    };
    below_2_to_64(number);
    let within = number >= 1 && number <= high;
    if !within {
        return Err(CellError::Malformed);
    }
    Ok((number, rest))
}

// a number above the one and up to the other
fn number_above(low: u64, high: u64, bytes: &[u8]) -> Result<(u64, &[u8]), CellError>
    ensures found { IfOk result (λ x. IsAbove low high x.0 × (bytes.now ≡ fields.number w64 x.0 ++ x.1.now)) }
    ensures none { IfErr result (λ e. e ≡ CellError.Malformed
        → BeginsNone (fields.number w64) (IsAbove low high) bytes.now) }
{
    let (number, rest) = number_within(high, bytes)?;
    if number <= low {
        return Err(CellError::Malformed);
    }
    Ok((number, rest))
}

// the first byte
fn byte(bytes: &[u8]) -> Option<(u8, &[u8])>
    ensures found { IfSome result (λ x. bytes.now ≡ x.0 ∷ x.1.now) }
    ensures none { IfNone result (bytes.now ≡ []) }
{
    match bytes {
        [first, rest @ ..] => Some((*first, rest)),
        [] => None,
    }
}

// the mark behind the revision in this format: live or deleted
fn mark(format: Format, bytes: &[u8]) -> Result<(bool, &[u8]), CellError>
    ensures found { IfOk result (λ x. (spells_mark format x.0 ≡ true)
        × (bytes.now ≡ spelling.mark format x.0 ++ x.1.now)) }
    ensures none { IfErr result (λ e. e ≡ CellError.Malformed
        → BeginsNone (spelling.mark format) (λ live. spells_mark format live ≡ true) bytes.now) }
{
    match format {
        Format::One => Ok((true, bytes)),
        Format::Two => mark_in_byte(bytes),
    }
}

// the mark as the second format spells it
fn mark_in_byte(bytes: &[u8]) -> Result<(bool, &[u8]), CellError>
    ensures found { IfOk result (λ x. (spells_mark Format.Two x.0 ≡ true)
        × (bytes.now ≡ spelling.mark Format.Two x.0 ++ x.1.now)) }
    ensures none { IfErr result (λ e. e ≡ CellError.Malformed
        → BeginsNone (spelling.mark Format.Two) (λ live. spells_mark Format.Two live ≡ true) bytes.now) }
{
    let Some((read, rest)) = byte(bytes) else {
        return Err(CellError::Malformed);
    };
    let Some(live) = mark_of(read) else {
        return Err(CellError::Malformed);
    };
    Ok((live, rest))
}

// the mark that a byte represents
fn mark_of(byte: u8) -> Option<bool>
    ensures found { IfSome result (λ live. byte ≡ spelling.mark_byte live) }
    ensures none { IfNone result ((live : Bool) → byte ≡ spelling.mark_byte live → ⊥) }
{
    if byte == LIVE {
        return Some(true);
    }
    if byte == DELETED {
        return Some(false);
    }
    None
}

// a document with its mark: nothing stands in one that is deleted
fn marked(document: Document, live: bool) -> Result<(Document, bool), CellError>
    ensures same { IfOk result (λ x. x ≡ (document, live)) }
    ensures content { OnOk result (is_content (record { units = document; live = live }) ≡ true) }
    ensures none { OnErr result (is_content (record { units = document; live = live }) ≡ false) }
    ensures only { IfErr result (λ e. e ≡ CellError.Malformed) }
{
    if !live && document.len16() > 0 {
        return Err(CellError::Malformed);
    }
    Ok((document, live))
}

fn document_name(alloc: Global, bytes: &[u8]) -> Result<(Name, &[u8]), CellError>
    ensures found { IfOk result (λ x. (is_document_name x.0 ≡ true) × (bytes.now ≡ fields.text16 x.0 ++ x.1.now)) }
    ensures none { IfErr result (λ e. e ≡ CellError.Malformed
        → BeginsNone fields.text16 (λ name. is_document_name name ≡ true) bytes.now) }
{
    let Some((text, rest)) = read_text16(bytes) else {
        return Err(CellError::Malformed);
    };
    match Name::doc(alloc, text) {
        Ok(name) => Ok((name, rest)),
        Err(Refusal::BadName) => Err(CellError::Malformed),
        Err(_) => Err(CellError::NoMemory),
    }
}

fn source_name(alloc: Global, bytes: &[u8]) -> Result<(&str, Name, &[u8]), CellError>
    ensures found { IfOk result (λ x. (is_source_name x.1 ≡ true) × (bytes.now ≡ fields.text16 x.1 ++ x.2.now)) }
    ensures same { IfOk result (λ x. x.1 ≡ x.0.now) }
    ensures none { IfErr result (λ e. e ≡ CellError.Malformed
        → BeginsNone fields.text16 (λ name. is_source_name name ≡ true) bytes.now) }
{
    let Some((text, rest)) = read_text16(bytes) else {
        return Err(CellError::Malformed);
    };
    match Name::source(alloc, text) {
        Ok(name) => Ok((text, name, rest)),
        Err(Refusal::BadName) => Err(CellError::Malformed),
        Err(_) => Err(CellError::NoMemory),
    }
}

// a document by the delta that makes it of the empty one
#[tactic(auto, unfolding(crate::specs::steps::Reading::content_bytes))]
fn content(alloc: Global, bytes: &[u8]) -> Result<(Document, &[u8]), CellError>
    ensures found { IfOk result (λ x. IsContent x.0 × (bytes.now ≡ content_bytes x.0 ++ x.1.now)) }
    ensures none { IfErr result (λ e. e ≡ CellError.Malformed → BeginsNone content_bytes IsContent bytes.now) }
{
    let Some((delta, rest)) = read_delta(alloc, bytes)? else {
        return Err(CellError::Malformed);
    };
    match Document::from_delta(alloc, &delta) {
        Ok(document) => Ok((document, rest)),
        Err(Refusal::PastEnd) => Err(CellError::Malformed),
        Err(_) => Err(CellError::NoMemory),
    }
}

fn sources(
    alloc: Global,
    format: Format,
    revision: u64,
    bytes: &[u8],
) -> Result<(Sources, &[u8]), CellError>
    ensures found { IfOk result (λ x. AreSources format revision x.0
        × (bytes.now ≡ sources_bytes format x.0 ++ x.1.now)) }
    ensures none { IfErr result (λ e. e ≡ CellError.Malformed
        → BeginsNone (sources_bytes format) (AreSources format revision) bytes.now) }
{
    let Some((count, rest)) = read_number32(bytes) else {
        return Err(CellError::Malformed);
    };
    below_2_to_32(count);
    let mut sources = Sources::new(alloc);
    let mut last = "";
    let mut rest = rest;
    for _ in 0..count {
        let (text, name, window, after) = source_above(alloc, format, last, revision, rest)?;
        put(&mut sources, name, window)?;
        last = text;
        rest = after;
    }
    Ok((sources, rest))
}

// a source whose name is above the one before it
#[tactic(auto, unfolding(crate::specs::CellSpelling::source))]
fn source_above<'a>(
    alloc: Global,
    format: Format,
    last: &str,
    revision: u64,
    bytes: &'a [u8],
) -> Result<(&'a str, Name, Window, &'a [u8]), CellError>
    ensures found { IfOk result (λ x. IsSource format revision (x.1, x.2)
        × (bytes.now ≡ spelling.source format (x.1, x.2) ++ x.3.now)) }
    ensures same { IfOk result (λ x. x.1 ≡ x.0.now) }
    ensures above { IfOk result (λ x. is_lt (by_bytes last.now x.1) ≡ true) }
    ensures none { IfErr result (λ e. e ≡ CellError.Malformed → (x : List ℕ × Window) (rest : List ℕ)
        → IsSource format revision x
        → is_lt (by_bytes last.now x.0) ≡ true → bytes.now ≡ spelling.source format x ++ rest → ⊥) }
{
    let (text, name, rest) = source_name(alloc, bytes)?;
    let (window, rest) = window(format, revision, rest)?;
    match last.cmp(text) {
        Ordering::Less => Ok((text, name, window, rest)),
        _ => Err(CellError::Malformed),
    }
}

// the window of a source at a revision
fn window(format: Format, revision: u64, bytes: &[u8]) -> Result<(Window, &[u8]), CellError>
    ensures found { IfOk result (λ x. IsWindowIn format revision x.0
        × (bytes.now ≡ spelling.window format x.0 ++ x.1.now)) }
    ensures none { IfErr result (λ e. e ≡ CellError.Malformed
        → BeginsNone (spelling.window format) (IsWindowIn format revision) bytes.now) }
{
    match format {
        Format::One => window_of_one(revision, bytes),
        Format::Two => window_of_more(revision, bytes),
    }
}

// a window of one number, as the first format spells it
#[tactic(auto, unfolding(crate::specs::CellSpelling::window))]
fn window_of_one(revision: u64, bytes: &[u8]) -> Result<(Window, &[u8]), CellError>
    ensures found { IfOk result (λ x. IsWindowIn Format.One revision x.0
        × (bytes.now ≡ spelling.window Format.One x.0 ++ x.1.now)) }
    ensures none { IfErr result (λ e. e ≡ CellError.Malformed
        → BeginsNone (spelling.window Format.One) (IsWindowIn Format.One revision) bytes.now) }
{
    let (number, rest) = number_within(LAST_OF_ALL, bytes)?;
    let (made, rest) = number_within(revision, rest)?;
    Ok((Window::of_one(number, made), rest))
}

// a window of one number or more, as the second format spells it
#[tactic(auto, unfolding(crate::specs::CellSpelling::window))]
fn window_of_more(revision: u64, bytes: &[u8]) -> Result<(Window, &[u8]), CellError>
    ensures found { IfOk result (λ x. IsWindowIn Format.Two revision x.0
        × (bytes.now ≡ spelling.window Format.Two x.0 ++ x.1.now)) }
    ensures none { IfErr result (λ e. e ≡ CellError.Malformed
        → BeginsNone (spelling.window Format.Two) (IsWindowIn Format.Two revision) bytes.now) }
{
    let (number, rest) = number_within(LAST_OF_ALL, bytes)?;
    let (count, rest) = count_within(number, rest)?;
    let (window, rest) = revisions(number, count, revision, rest)?;
    Ok((window, rest))
}

// how many numbers a window with this last number has
fn count_within(number: u64, bytes: &[u8]) -> Result<(u64, &[u8]), CellError>
    ensures found { IfOk result (λ x. IsCount number x.0 × (bytes.now ≡ x.0 ∷ x.1.now)) }
    ensures none { IfErr result (λ e. e ≡ CellError.Malformed → (count : ℕ) (rest : List ℕ)
        → IsCount number count → bytes.now ≡ count ∷ rest → ⊥) }
{
    let Some((count, rest)) = byte(bytes) else {
        return Err(CellError::Malformed);
    };
    let count = u64::from(count);
    let is_count = count >= 1 && count <= LONGEST as u64 && count <= number;
    if !is_count {
        return Err(CellError::Malformed);
    }
    Ok((count, rest))
}

// The window with this last number that has so many revisions, each above the one before it, and the last one up to `high`.
fn revisions(number: u64, count: u64, high: u64, bytes: &[u8]) -> Result<(Window, &[u8]), CellError>
    requires { count ≤ longest }
    ensures number { IfOk result (λ x. x.0.number ≡ number) }
    ensures found { IfOk result (λ x. AreRevisions count high x.0.revisions
        × (bytes.now ≡ revisions_bytes x.0.revisions ++ x.1.now)) }
    ensures none { IfErr result (λ e. e ≡ CellError.Malformed
        → BeginsNone revisions_bytes (AreRevisions count high) bytes.now) }
{
    let mut window = Window::begun(number);
    let mut last = 0;
    let mut rest = bytes;
    for _ in 0..count {
        let (revision, after) = number_above(last, high, rest)?;
        window.add(revision);
        last = revision;
        rest = after;
    }
    Ok((window, rest))
}

fn put(sources: &mut Sources, name: Name, window: Window) -> Result<(), CellError>
    requires { is_source_name name ≡ true }
    ensures ok { OnOk result (sources.new ≡ insert sources.old name window) }
    ensures only { IfErr result (λ e. e ≡ CellError.NoMemory) }
{
    match sources.put(name, window) {
        Ok(()) => Ok(()),
        Err(_) => Err(CellError::NoMemory),
    }
}
