//! Reading of operations.
ghost use Rattle.std.specs.Prelude.{[]};
ghost use Rattle.journal.specs.steps.Reading.{Gives};
ghost use Rattle.journal.specs.steps.DeltaReading.{attributes_at, text_insert_at, embed_insert_at, retain_at, delete_at, operation_behind, operation_at, operations_at};

use super::pairs::{attributes, change, name};
use super::values::value;
use super::{byte, number64, text32};
use crate::batch::read_error::ReadError;
use attributes::{Attrs, Known};
use delta::Op;
use refusal::Refusal;
use std::alloc::Global;

// no operation is spelled in fewer bytes: a delete has its tag and its length
const LEAST_OPERATION: usize = 9;

/// So many operations, one behind the other. Room is made for all of them at once, as far as the bytes can hold them.
pub(super) fn operations(
    alloc: Global,
    count: u32,
    bytes: &[u8],
) -> Result<(Vec<Op>, &[u8]), ReadError>
    ensures { Gives (λ x. (x.0.items, x.1.now)) result (operations_at count [] bytes.now) }
{
    let mut ops = Vec::with_capacity(alloc, (count as usize).min(bytes.len() / LEAST_OPERATION))?;
    let mut known = Known::new(alloc);
    let mut rest = bytes;
    for _ in 0..count {
        let (op, after) = operation(alloc, rest, &mut known)?;
        ops.push(op)?;
        rest = after;
    }
    Ok((ops, rest))
}

#[tactic(auto, unfolding(crate::specs::steps::DeltaReading::operation_at))]
fn operation<'a>(
    alloc: Global,
    bytes: &'a [u8],
    known: &mut Known,
) -> Result<(Op, &'a [u8]), ReadError>
    ensures { Gives (λ x. (x.0, x.1.now)) result (operation_at bytes.now) }
{
    let (tag, rest) = byte(bytes)?;
    operation_of_tag(alloc, tag, rest, known)
}

#[tactic(auto, unfolding(crate::specs::steps::DeltaReading::operation_behind))]
fn operation_of_tag<'a>(
    alloc: Global,
    tag: u8,
    bytes: &'a [u8],
    known: &mut Known,
) -> Result<(Op, &'a [u8]), ReadError>
    ensures { Gives (λ x. (x.0, x.1.now)) result (operation_behind tag bytes.now) }
{
    match tag {
        1 => text_insert(alloc, bytes, known),
        2 => embed_insert(alloc, bytes, known),
        3 => retain(alloc, bytes),
        4 => delete(bytes),
        _ => Err(ReadError::Malformed),
    }
}

#[tactic(auto, unfolding(crate::specs::steps::DeltaReading::text_insert_at))]
fn text_insert<'a>(
    alloc: Global,
    bytes: &'a [u8],
    known: &mut Known,
) -> Result<(Op, &'a [u8]), ReadError>
    ensures { Gives (λ x. (x.0, x.1.now)) result (text_insert_at bytes.now) }
{
    let (text, rest) = text32(bytes)?;
    let (attrs, rest) = shared_attributes(alloc, rest, known)?;
    let text = String::from_str(alloc, text)?;
    Ok((Op::text(text, attrs), rest))
}

#[tactic(auto, unfolding(crate::specs::steps::DeltaReading::embed_insert_at))]
fn embed_insert<'a>(
    alloc: Global,
    bytes: &'a [u8],
    known: &mut Known,
) -> Result<(Op, &'a [u8]), ReadError>
    ensures { Gives (λ x. (x.0, x.1.now)) result (embed_insert_at bytes.now) }
{
    let (name, rest) = name(bytes)?;
    let (value, rest) = value(alloc, rest)?;
    let (attrs, rest) = shared_attributes(alloc, rest, known)?;
    match Op::embed(alloc, name, value, attrs) {
        Ok(op) => Ok((op, rest)),
        Err(Refusal::NoMemory) => Err(ReadError::NoMemory),
        Err(_) => unreachable!(),
    }
}

// attributes, which stand in memory where equal ones stood lately
fn shared_attributes<'a>(
    alloc: Global,
    bytes: &'a [u8],
    known: &mut Known,
) -> Result<(Attrs, &'a [u8]), ReadError>
    ensures { Gives (λ x. (x.0, x.1.now)) result (attributes_at bytes.now) }
{
    let (attrs, rest) = attributes(alloc, bytes)?;
    let attrs = known.share(alloc, attrs)?;
    Ok((attrs, rest))
}

#[tactic(auto, unfolding(crate::specs::steps::DeltaReading::retain_at))]
fn retain(alloc: Global, bytes: &[u8]) -> Result<(Op, &[u8]), ReadError>
    ensures { Gives (λ x. (x.0, x.1.now)) result (retain_at bytes.now) }
{
    let (len, rest) = number64(bytes)?;
    let (change, rest) = change(alloc, rest)?;
    Ok((Op::retain(len, change), rest))
}

#[tactic(auto, unfolding(crate::specs::steps::DeltaReading::delete_at))]
fn delete(bytes: &[u8]) -> Result<(Op, &[u8]), ReadError>
    ensures { Gives (λ x. (x.0, x.1.now)) result (delete_at bytes.now) }
{
    let (len, rest) = number64(bytes)?;
    Ok((Op::delete(len), rest))
}
