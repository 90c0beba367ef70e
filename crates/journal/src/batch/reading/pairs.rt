//! Reading of names with what stands at each: of attributes, and of changes.
ghost use Rattle.std.specs.Prelude.{◌≡◌, [], IfOk, IfErr, OnOk};
ghost use Rattle.attributes.specs.Attributes.{IsKey};
ghost use Rattle.attributes.specs.Map.{empty, insert};
ghost use Rattle.journal.specs.steps.Reading.{Gives};
ghost use Rattle.journal.specs.steps.DeltaReading.{key_at, key_above, pair_at, pairs_at, value_at, new_value_at, attributes_at, change_at};

use super::values::{new_value, value};
use super::{number32, text16};
use crate::batch::read_error::ReadError;
use attributes::{Attrs, Change, Key, Value};
use refusal::Refusal;
use std::alloc::Global;
use std::cmp::Ordering;

/// The longest name, in bytes.
const MAX_NAME: usize = 64;

/// Attributes.
#[tactic(auto, unfolding(crate::specs::steps::DeltaReading::attributes_at))]
pub(super) fn attributes(alloc: Global, bytes: &[u8]) -> Result<(Attrs, &[u8]), ReadError>
    ensures { Gives (λ x. (x.0, x.1.now)) result (attributes_at bytes.now) }
{
    let (count, rest) = number32(bytes)?;
    attribute_pairs(alloc, count, rest)
}

/// A change.
#[tactic(auto, unfolding(crate::specs::steps::DeltaReading::change_at))]
pub(super) fn change(alloc: Global, bytes: &[u8]) -> Result<(Change, &[u8]), ReadError>
    ensures { Gives (λ x. (x.0, x.1.now)) result (change_at bytes.now) }
{
    let (count, rest) = number32(bytes)?;
    change_pairs(alloc, count, rest)
}

fn attribute_pairs(alloc: Global, count: u32, bytes: &[u8]) -> Result<(Attrs, &[u8]), ReadError>
    ensures { Gives (λ x. (x.0, x.1.now)) result (pairs_at value_at count [] empty bytes.now) }
{
    let mut attrs = Attrs::new(alloc);
    let mut last = "";
    let mut rest = bytes;
    for _ in 0..count {
        let (name, value, after) = attribute_pair(alloc, last, rest)?;
        set_attribute(alloc, &mut attrs, name, value)?;
        last = name;
        rest = after;
    }
    Ok((attrs, rest))
}

fn change_pairs(alloc: Global, count: u32, bytes: &[u8]) -> Result<(Change, &[u8]), ReadError>
    ensures { Gives (λ x. (x.0, x.1.now)) result (pairs_at new_value_at count [] empty bytes.now) }
{
    let mut change = Change::new(alloc);
    let mut last = "";
    let mut rest = bytes;
    for _ in 0..count {
        let (name, value, after) = change_pair(alloc, last, rest)?;
        set_change(alloc, &mut change, name, value)?;
        last = name;
        rest = after;
    }
    Ok((change, rest))
}

#[tactic(auto, unfolding(crate::specs::steps::DeltaReading::pair_at))]
fn attribute_pair<'a>(
    alloc: Global,
    last: &str,
    bytes: &'a [u8],
) -> Result<(&'a str, Value, &'a [u8]), ReadError>
    ensures read { Gives (λ x. ((x.0.now, x.1), x.2.now)) result (pair_at value_at last.now bytes.now) }
    ensures kept { IfOk result (λ x. IsKey x.0.now) }
{
    let (name, rest) = name_above(last, bytes)?;
    let (value, rest) = value(alloc, rest)?;
    Ok((name, value, rest))
}

#[tactic(auto, unfolding(crate::specs::steps::DeltaReading::pair_at))]
fn change_pair<'a>(
    alloc: Global,
    last: &str,
    bytes: &'a [u8],
) -> Result<(&'a str, Option<Value>, &'a [u8]), ReadError>
    ensures read { Gives (λ x. ((x.0.now, x.1), x.2.now)) result (pair_at new_value_at last.now bytes.now) }
    ensures kept { IfOk result (λ x. IsKey x.0.now) }
{
    let (name, rest) = name_above(last, bytes)?;
    let (value, rest) = new_value(alloc, rest)?;
    Ok((name, value, rest))
}

fn set_attribute(
    alloc: Global,
    attrs: &mut Attrs,
    name: &str,
    value: Value,
) -> Result<(), ReadError>
    requires { IsKey name.now }
    ensures ok { OnOk result (attrs.new ≡ insert attrs.old name.now value) }
    ensures only { IfErr result (λ e. e ≡ ReadError.NoMemory) }
{
    let key = key_of(alloc, name)?;
    match attrs.set(key, value) {
        Ok(()) => Ok(()),
        Err(_) => Err(ReadError::NoMemory),
    }
}

fn set_change(
    alloc: Global,
    change: &mut Change,
    name: &str,
    value: Option<Value>,
) -> Result<(), ReadError>
    requires { IsKey name.now }
    ensures ok { OnOk result (change.new ≡ insert change.old name.now value) }
    ensures only { IfErr result (λ e. e ≡ ReadError.NoMemory) }
{
    let key = key_of(alloc, name)?;
    match change.set(key, value) {
        Ok(()) => Ok(()),
        Err(_) => Err(ReadError::NoMemory),
    }
}

fn key_of(alloc: Global, name: &str) -> Result<Key, ReadError>
    requires { IsKey name.now }
    ensures ok { IfOk result (λ key. key ≡ name.now) }
    ensures only { IfErr result (λ e. e ≡ ReadError.NoMemory) }
{
    match Key::new(alloc, name) {
        Ok(key) => Ok(key),
        Err(Refusal::NoMemory) => Err(ReadError::NoMemory),
        Err(_) => unreachable!(),
    }
}

#[tactic(auto, unfolding(crate::specs::steps::DeltaReading::key_above))]
fn name_above<'a>(last: &str, bytes: &'a [u8]) -> Result<(&'a str, &'a [u8]), ReadError>
    ensures read { Gives (λ x. (x.0.now, x.1.now)) result (key_above last.now bytes.now) }
    ensures kept { IfOk result (λ x. IsKey x.0.now) }
{
    let (name, rest) = name(bytes)?;
    match last.cmp(name) {
        Ordering::Less => Ok((name, rest)),
        _ => Err(ReadError::Malformed),
    }
}

/// A name of 1 to 64 bytes.
#[tactic(auto, unfolding(crate::specs::steps::DeltaReading::key_at, crate::specs::steps::Reading::name_at))]
pub(super) fn name(bytes: &[u8]) -> Result<(&str, &[u8]), ReadError>
    ensures read { Gives (λ x. (x.0.now, x.1.now)) result (key_at bytes.now) }
    ensures kept { IfOk result (λ x. IsKey x.0.now) }
{
    let (text, rest) = text16(bytes)?;
    if text.is_empty() || text.len() > MAX_NAME {
        return Err(ReadError::Malformed);
    }
    Ok((text, rest))
}
