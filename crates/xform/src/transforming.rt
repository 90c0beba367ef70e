//! A delta after another delta of the same document.
ghost use Rattle.std.specs.Prelude.{◌≡◌, ◌+◌, ◌<◌, ◌^◌, IfOk, IfErr, OnOk};
ghost use Rattle.delta.specs.Operation.{base_of, out_of};
ghost use Rattle.xform.specs.After.{second_past};
ghost use Rattle.xform.specs.Outcome.{CanTransform, IsTransformRefused};

use crate::stepping::{next_step, push_made};
use delta::{Cursor, Delta, TrimmingBuilder};
use refusal::Refusal;
use std::alloc::Global;

/// The second delta as it is after the first, in normal form. With priority the first goes first: its insert stands
/// first where both insert, and its value where both change a name. Without, the second's do. Linear in the operations
/// of both. Refused as BadOps where the base length or the output length of the result would pass 2^48 UTF-16 code
/// units, and as NoMemory.
pub fn transform(
    alloc: Global,
    first: &Delta,
    second: &Delta,
    priority: bool,
) -> Result<Delta, Refusal>
    ensures delta { IfOk result (λ delta. delta ≡ second_past first.now second.now priority) }
    ensures accepted { OnOk result (CanTransform first.now second.now priority) }
    ensures only { IfErr result (IsTransformRefused first.now second.now priority) }
    // so no two deltas are refused whose lengths sum up to no more than that
    ensures long { result ≡ Err Refusal.BadOps
        → 2 ^ 48 < base_of first.now + out_of first.now + base_of second.now + out_of second.now }
{
    let mut one = Cursor::new(first.ops());
    let mut two = Cursor::new(second.ops());
    let mut out = TrimmingBuilder::new(alloc);
    while let Some((part, rest)) = two.split_first() {
        let step = next_step(alloc, one, part, rest, priority)?;
        push_made(alloc, &mut out, step.made)?;
        one = step.first;
        two = step.second;
    }
    Ok(out.finish())
}
