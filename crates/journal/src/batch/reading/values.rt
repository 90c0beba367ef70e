//! Reading of values, and of what a change makes of a name.
ghost use Rattle.journal.specs.steps.Reading.{Gives};
ghost use Rattle.journal.specs.steps.DeltaReading.{whole_at, text_value_at, value_behind, value_at, new_value_behind, new_value_at};

use super::{byte, number64, text32};
use crate::batch::read_error::ReadError;
use attributes::Value;
use std::alloc::Global;

/// A value.
#[tactic(auto, unfolding(crate::specs::steps::DeltaReading::value_at))]
pub(super) fn value(alloc: Global, bytes: &[u8]) -> Result<(Value, &[u8]), ReadError>
    ensures { Gives (λ x. (x.0, x.1.now)) result (value_at bytes.now) }
{
    let (tag, rest) = byte(bytes)?;
    value_of_tag(alloc, tag, rest)
}

/// A new value, or that a name is removed.
#[tactic(auto, unfolding(crate::specs::steps::DeltaReading::new_value_at))]
pub(super) fn new_value(alloc: Global, bytes: &[u8]) -> Result<(Option<Value>, &[u8]), ReadError>
    ensures { Gives (λ x. (x.0, x.1.now)) result (new_value_at bytes.now) }
{
    let (tag, rest) = byte(bytes)?;
    new_value_of_tag(alloc, tag, rest)
}

#[tactic(auto, unfolding(crate::specs::steps::DeltaReading::new_value_behind))]
fn new_value_of_tag(
    alloc: Global,
    tag: u8,
    bytes: &[u8],
) -> Result<(Option<Value>, &[u8]), ReadError>
    ensures { Gives (λ x. (x.0, x.1.now)) result (new_value_behind tag bytes.now) }
{
    if tag == 0 {
        return Ok((None, bytes));
    }
    let (value, rest) = value_of_tag(alloc, tag, bytes)?;
    Ok((Some(value), rest))
}

#[tactic(auto, unfolding(crate::specs::steps::DeltaReading::value_behind))]
fn value_of_tag(alloc: Global, tag: u8, bytes: &[u8]) -> Result<(Value, &[u8]), ReadError>
    ensures { Gives (λ x. (x.0, x.1.now)) result (value_behind tag bytes.now) }
{
    match tag {
        1 => Ok((Value::flag(false), bytes)),
        2 => Ok((Value::flag(true), bytes)),
        3 => whole(bytes),
        4 => text(alloc, bytes),
        _ => Err(ReadError::Malformed),
    }
}

#[tactic(auto, unfolding(crate::specs::steps::DeltaReading::whole_at))]
fn whole(bytes: &[u8]) -> Result<(Value, &[u8]), ReadError>
    ensures { Gives (λ x. (x.0, x.1.now)) result (whole_at bytes.now) }
{
    let (bits, rest) = number64(bytes)?;
    match Value::whole(bits.cast_signed()) {
        Ok(value) => Ok((value, rest)),
        Err(_) => Err(ReadError::Malformed),
    }
}

#[tactic(auto, unfolding(crate::specs::steps::DeltaReading::text_value_at))]
fn text(alloc: Global, bytes: &[u8]) -> Result<(Value, &[u8]), ReadError>
    ensures { Gives (λ x. (x.0, x.1.now)) result (text_value_at bytes.now) }
{
    let (text, rest) = text32(bytes)?;
    match Value::text(alloc, text) {
        Ok(value) => Ok((value, rest)),
        Err(_) => Err(ReadError::NoMemory),
    }
}
