//! Reading: each part of the spelling has one function, which answers what it read and the bytes behind it.
ghost use Rattle.std.specs.Prelude.{◌≡◌, ◌<◌, ◌≤◌, ◌^◌, List, true, length, IfOk, IfErr, IfSome, IfNone};
ghost use Rattle.std.specs.Int.{w16, w32, w64};
ghost use Rattle.revision.specs.Name.{is_source_name, is_document_name};
ghost use Rattle.revision.specs.Command as command;
ghost use Rattle.journal.specs.BatchSpelling as spelling;
ghost use Rattle.journal.specs.steps.Reading.{Gives, part_at, number_at, fixed_at, within_at, byte_at, utf8_at, text_at, name_at};
ghost use Rattle.journal.specs.steps.BatchReading.{creation_at, edit_at, deletion_at, revival_at, entry_behind, entry_at, entries_at, batch_at, whole_at};

mod deltas;
mod normal_form;
mod operations;
mod pairs;
mod values;

use super::read_error::ReadError;
use deltas::delta;
pub use deltas::read_delta;
use refusal::Refusal;
use revision::{Name, Taken};
use std::alloc::{AllocError, Global};
use std::str;

/// The revision that a creation makes.
const FIRST_REVISION: u64 = 1;

/// The number that a source gives to a creation.
const FIRST_NUMBER: u64 = 1;

/// 2^53: revisions and numbers are below it.
const END_OF_NUMBERS: u64 = 1 << 53;

/// The batch that the bytes spell, all of them, or none.
pub fn decode_batch(alloc: Global, bytes: &[u8]) -> Result<Option<Vec<Taken>>, AllocError>
    ensures found { IfOk result (λ found. IfSome found
        (λ batch. spelling.IsBatch batch.items × (bytes.now ≡ spelling.batch batch.items))) }
    ensures none { IfOk result (λ found. IfNone found
        ((batch : List command.Taken) → spelling.IsBatch batch → bytes.now ≡ spelling.batch batch → ⊥)) }
{
    match whole(alloc, bytes) {
        Ok(batch) => Ok(Some(batch)),
        Err(ReadError::Malformed) => Ok(None),
        Err(ReadError::NoMemory) => Err(AllocError),
    }
}

#[tactic(auto, unfolding(crate::specs::steps::BatchReading::whole_at))]
fn whole(alloc: Global, bytes: &[u8]) -> Result<Vec<Taken>, ReadError>
    ensures { Gives (λ batch. batch.items) result (whole_at bytes.now) }
{
    let (batch, rest) = batch_of(alloc, bytes)?;
    if !rest.is_empty() {
        return Err(ReadError::Malformed);
    }
    Ok(batch)
}

#[tactic(auto, unfolding(crate::specs::steps::BatchReading::batch_at))]
fn batch_of(alloc: Global, bytes: &[u8]) -> Result<(Vec<Taken>, &[u8]), ReadError>
    ensures { Gives (λ x. (x.0.items, x.1.now)) result (batch_at bytes.now) }
{
    let (count, rest) = number32(bytes)?;
    if count == 0 {
        return Err(ReadError::Malformed);
    }
    entries(alloc, count, rest)
}

// no entry is spelled in fewer bytes: a deletion by a source whose name has one has just so many
const LEAST_ENTRY: usize = 24;

// So many entries, one behind the other. Room is made for all of them at once, as far as the bytes can hold them.
fn entries(alloc: Global, count: u32, bytes: &[u8]) -> Result<(Vec<Taken>, &[u8]), ReadError>
    ensures { Gives (λ x. (x.0.items, x.1.now)) result (entries_at count bytes.now) }
{
    let mut batch = Vec::with_capacity(alloc, (count as usize).min(bytes.len() / LEAST_ENTRY))?;
    let mut rest = bytes;
    for _ in 0..count {
        let (taken, after) = entry(alloc, rest)?;
        batch.push(taken)?;
        rest = after;
    }
    Ok((batch, rest))
}

#[tactic(auto, unfolding(crate::specs::steps::BatchReading::entry_at))]
fn entry(alloc: Global, bytes: &[u8]) -> Result<(Taken, &[u8]), ReadError>
    ensures { Gives (λ x. (x.0, x.1.now)) result (entry_at bytes.now) }
{
    let (tag, rest) = byte(bytes)?;
    entry_of_tag(alloc, tag, rest)
}

#[tactic(auto, unfolding(crate::specs::steps::BatchReading::entry_behind))]
fn entry_of_tag(alloc: Global, tag: u8, bytes: &[u8]) -> Result<(Taken, &[u8]), ReadError>
    ensures { Gives (λ x. (x.0, x.1.now)) result (entry_behind tag bytes.now) }
{
    match tag {
        1 => creation(alloc, bytes),
        2 => edit(alloc, bytes),
        3 => deletion(alloc, bytes),
        4 => revival(alloc, bytes),
        _ => Err(ReadError::Malformed),
    }
}

#[tactic(auto, unfolding(crate::specs::steps::BatchReading::creation_at))]
fn creation(alloc: Global, bytes: &[u8]) -> Result<(Taken, &[u8]), ReadError>
    ensures { Gives (λ x. (x.0, x.1.now)) result (creation_at bytes.now) }
{
    let (document, rest) = number32(bytes)?;
    let rest = fixed64(FIRST_REVISION, rest)?;
    let (source, rest) = source_name(alloc, rest)?;
    let rest = fixed64(FIRST_NUMBER, rest)?;
    let (name, rest) = document_name(alloc, rest)?;
    let (delta, rest) = delta(alloc, rest)?;
    Ok((Taken::creation(document, name, source, delta), rest))
}

#[tactic(auto, unfolding(crate::specs::steps::BatchReading::edit_at))]
fn edit(alloc: Global, bytes: &[u8]) -> Result<(Taken, &[u8]), ReadError>
    ensures { Gives (λ x. (x.0, x.1.now)) result (edit_at bytes.now) }
{
    let (document, rest) = number32(bytes)?;
    let (revision, rest) = number_within(FIRST_REVISION + 1, rest)?;
    let (source, rest) = source_name(alloc, rest)?;
    let (number, rest) = number_within(0, rest)?;
    let (delta, rest) = delta(alloc, rest)?;
    Ok((Taken::edit(document, revision, source, number, delta), rest))
}

#[tactic(auto, unfolding(crate::specs::steps::BatchReading::deletion_at))]
fn deletion(alloc: Global, bytes: &[u8]) -> Result<(Taken, &[u8]), ReadError>
    ensures { Gives (λ x. (x.0, x.1.now)) result (deletion_at bytes.now) }
{
    let (document, rest) = number32(bytes)?;
    let (revision, rest) = number_within(FIRST_REVISION + 1, rest)?;
    let (source, rest) = source_name(alloc, rest)?;
    let (number, rest) = number_within(0, rest)?;
    let taken = Taken::deletion(alloc, document, revision, source, number);
    Ok((taken, rest))
}

#[tactic(auto, unfolding(crate::specs::steps::BatchReading::revival_at))]
fn revival(alloc: Global, bytes: &[u8]) -> Result<(Taken, &[u8]), ReadError>
    ensures { Gives (λ x. (x.0, x.1.now)) result (revival_at bytes.now) }
{
    let (document, rest) = number32(bytes)?;
    let (revision, rest) = number_within(FIRST_REVISION + 2, rest)?;
    let (source, rest) = source_name(alloc, rest)?;
    let (number, rest) = number_within(0, rest)?;
    let (delta, rest) = delta(alloc, rest)?;
    Ok((
        Taken::revival(document, revision, source, number, delta),
        rest,
    ))
}

#[tactic(auto, unfolding(crate::specs::steps::Reading::name_at))]
fn source_name(alloc: Global, bytes: &[u8]) -> Result<(Name, &[u8]), ReadError>
    ensures read { Gives (λ x. (x.0, x.1.now)) result (name_at is_source_name bytes.now) }
    ensures valid { IfOk result (λ x. is_source_name x.0 ≡ true) }
{
    let (text, rest) = text16(bytes)?;
    match Name::source(alloc, text) {
        Ok(name) => Ok((name, rest)),
        Err(Refusal::NoMemory) => Err(ReadError::NoMemory),
        Err(_) => Err(ReadError::Malformed),
    }
}

#[tactic(auto, unfolding(crate::specs::steps::Reading::name_at))]
fn document_name(alloc: Global, bytes: &[u8]) -> Result<(Name, &[u8]), ReadError>
    ensures read { Gives (λ x. (x.0, x.1.now)) result (name_at is_document_name bytes.now) }
    ensures valid { IfOk result (λ x. is_document_name x.0 ≡ true) }
{
    let (text, rest) = text16(bytes)?;
    match Name::doc(alloc, text) {
        Ok(name) => Ok((name, rest)),
        Err(Refusal::NoMemory) => Err(ReadError::NoMemory),
        Err(_) => Err(ReadError::Malformed),
    }
}

#[tactic(auto, unfolding(crate::specs::steps::Reading::text_at))]
pub(super) fn text16(bytes: &[u8]) -> Result<(&str, &[u8]), ReadError>
    ensures read { Gives (λ x. (x.0.now, x.1.now)) result (text_at w16 bytes.now) }
    ensures only { IfErr result (λ e. e ≡ ReadError.Malformed) }
{
    let (count, rest) = number16(bytes)?;
    let (text, rest) = part(count as usize, rest)?;
    Ok((utf8(text)?, rest))
}

#[tactic(auto, unfolding(crate::specs::steps::Reading::text_at))]
fn text32(bytes: &[u8]) -> Result<(&str, &[u8]), ReadError>
    ensures read { Gives (λ x. (x.0.now, x.1.now)) result (text_at w32 bytes.now) }
    ensures short { IfOk result (λ x. length x.0.now < 2 ^ 32) }
{
    let (count, rest) = number32(bytes)?;
    let (text, rest) = part(count as usize, rest)?;
    Ok((utf8(text)?, rest))
}

#[tactic(auto, unfolding(crate::specs::steps::Reading::utf8_at))]
fn utf8(bytes: &[u8]) -> Result<&str, ReadError>
    ensures read { Gives (λ text. text.now) result (utf8_at bytes.now) }
    ensures same { IfOk result (λ text. text.now ≡ bytes.now) }
    ensures only { IfErr result (λ e. e ≡ ReadError.Malformed) }
{
    match str::from_utf8(bytes) {
        Ok(text) => Ok(text),
        Err(_) => Err(ReadError::Malformed),
    }
}

#[tactic(auto, unfolding(crate::specs::steps::Reading::fixed_at))]
fn fixed64(wanted: u64, bytes: &[u8]) -> Result<&[u8], ReadError>
    ensures { Gives (λ rest. rest.now) result (fixed_at w64 wanted bytes.now) }
{
    let (number, rest) = number64(bytes)?;
    if number != wanted {
        return Err(ReadError::Malformed);
    }
    Ok(rest)
}

// a revision or a number, of at least so much
#[tactic(auto, unfolding(crate::specs::steps::Reading::within_at))]
fn number_within(low: u64, bytes: &[u8]) -> Result<(u64, &[u8]), ReadError>
    ensures read { Gives (λ x. (x.0, x.1.now)) result (within_at w64 low (2 ^ 53) bytes.now) }
    ensures within { IfOk result (λ x. (low ≤ x.0) × (x.0 < 2 ^ 53)) }
{
    let (number, rest) = number64(bytes)?;
    if number < low || number >= END_OF_NUMBERS {
        return Err(ReadError::Malformed);
    }
    Ok((number, rest))
}

#[tactic(auto, unfolding(crate::specs::steps::Reading::number_at))]
fn number16(bytes: &[u8]) -> Result<(u16, &[u8]), ReadError>
    ensures read { Gives (λ x. (x.0, x.1.now)) result (number_at w16 bytes.now) }
    ensures only { IfErr result (λ e. e ≡ ReadError.Malformed) }
{
    let (front, rest) = part(2, bytes)?;
    Ok((u16::from_le_bytes([front[0], front[1]]), rest))
}

#[tactic(auto, unfolding(crate::specs::steps::Reading::number_at))]
pub(super) fn number32(bytes: &[u8]) -> Result<(u32, &[u8]), ReadError>
    ensures read { Gives (λ x. (x.0, x.1.now)) result (number_at w32 bytes.now) }
    ensures only { IfErr result (λ e. e ≡ ReadError.Malformed) }
{
    let (front, rest) = part(4, bytes)?;
    let number = u32::from_le_bytes([front[0], front[1], front[2], front[3]]);
    Ok((number, rest))
}

#[tactic(auto, unfolding(crate::specs::steps::Reading::number_at))]
pub(super) fn number64(bytes: &[u8]) -> Result<(u64, &[u8]), ReadError>
    ensures read { Gives (λ x. (x.0, x.1.now)) result (number_at w64 bytes.now) }
    ensures only { IfErr result (λ e. e ≡ ReadError.Malformed) }
{
    let (front, rest) = part(8, bytes)?;
    let number = u64::from_le_bytes([
        front[0], front[1], front[2], front[3], front[4], front[5], front[6], front[7],
    ]);
    Ok((number, rest))
}

#[tactic(auto, unfolding(crate::specs::steps::Reading::byte_at))]
fn byte(bytes: &[u8]) -> Result<(u8, &[u8]), ReadError>
    ensures { Gives (λ x. (x.0, x.1.now)) result (byte_at bytes.now) }
{
    match bytes {
        [first, rest @ ..] => Ok((*first, rest)),
        [] => Err(ReadError::Malformed),
    }
}

#[tactic(auto, unfolding(crate::specs::steps::Reading::part_at))]
fn part(count: usize, bytes: &[u8]) -> Result<(&[u8], &[u8]), ReadError>
    ensures read { Gives (λ x. (x.0.now, x.1.now)) result (part_at count bytes.now) }
    ensures length { IfOk result (λ x. length x.0.now ≡ count) }
    ensures only { IfErr result (λ e. e ≡ ReadError.Malformed) }
{
    if count > bytes.len() {
        return Err(ReadError::Malformed);
    }
    Ok(bytes.split_at(count))
}
