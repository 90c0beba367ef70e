//! The deltas that words describe.
ghost use Rattle.std.specs.Prelude.{◌≡◌, option_map};
ghost use Rattle.serde_json.specs.View.{view, items_view};
ghost use Rattle.optext.specs.Answer.{IsAnswer};
ghost use Rattle.algebra.specs.Words as spec;

use delta::Delta;
use optext::{member_count, read_json, read_ops};
use refusal::Refusal;
use serde_json::Value as Json;
use std::alloc::Global;

/// The deltas that two words describe, which are read from left to right, each to its end.
pub(crate) fn read_both(alloc: Global, first: &str, second: &str) -> Result<(Delta, Delta), Refusal>
    ensures { IsAnswer (spec.deltas_in first.now second.now) result }
{
    let first = read_word(alloc, first)?;
    let second = read_word(alloc, second)?;
    Ok((first, second))
}

// the delta that a word describes
fn read_word(alloc: Global, word: &str) -> Result<Delta, Refusal>
    ensures { IsAnswer (spec.delta_in word.now) result }
{
    let value = read_json(alloc, word.as_bytes())?;
    match array_in(&value) {
        Some(operations) => read_ops(alloc, operations),
        None => Err(Refusal::BadMessage),
    }
}

// the array `ops` of an object that has no other member
fn array_in(value: &Json) -> Option<&[Json]>
    ensures { option_map (λ items. items_view items.now) result ≡ spec.array_in (view value.now) }
{
    if member_count(value) != 1 {
        return None;
    }
    let operations = value.get("ops")?.as_array()?;
    Some(operations.as_slice())
}
