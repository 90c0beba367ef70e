//! The delta of operations that are in normal form.
ghost use Rattle.std.specs.Prelude.{◌≡◌, [], true, nat_lt};
ghost use Rattle.delta.specs.Operation.{op_len, is_plain};
ghost use Rattle.delta.specs.Normal.{may_precede};
ghost use Rattle.journal.specs.steps.Reading.{Gives};
ghost use Rattle.journal.specs.steps.DeltaReading.{begins_normal, is_normal, delta_of};

use crate::batch::read_error::ReadError;
use delta::{Delta, Op, OpRef};

/// The delta of these operations, where they are in normal form and within the bound.
#[tactic(auto, unfolding(crate::specs::steps::DeltaReading::delta_of))]
pub(super) fn delta_of_ops(ops: Vec<Op>) -> Result<Delta, ReadError>
    ensures { Gives (λ x. x) result (delta_of ops.items) }
{
    if !has_normal_form(ops.as_slice()) {
        return Err(ReadError::Malformed);
    }
    match Delta::from_normal(ops) {
        Ok(delta) => Ok(delta),
        Err(_) => Err(ReadError::Malformed),
    }
}

fn has_normal_form(ops: &[Op]) -> bool
    ensures { result ≡ is_normal ops.now }
{
    for i in 0..ops.len() {
        if !begins_normal_form(&ops[i..]) {
            return false;
        }
    }
    true
}

fn begins_normal_form(ops: &[Op]) -> bool
    ensures { result ≡ begins_normal ops.now }
{
    match ops {
        [first, next, ..] => has_units(first) && may_stand_before(first, next),
        [last] => has_units(last) && !is_plain_retain(last),
        [] => true,
    }
}

fn has_units(op: &Op) -> bool
    ensures { result ≡ nat_lt 0 (op_len op.now) }
{
    op.len16() > 0
}

fn is_plain_retain(op: &Op) -> bool
    ensures { result ≡ is_plain op.now }
{
    match op.plain_len() {
        Some(_) => true,
        None => false,
    }
}

fn may_stand_before(first: &Op, next: &Op) -> bool
    ensures { result ≡ may_precede first.now next.now }
{
    match (first.get(), next.get()) {
        (OpRef::Text(_, attrs), OpRef::Text(_, others)) => *attrs != *others,
        (OpRef::Retain(_, change), OpRef::Retain(_, other)) => *change != *other,
        (OpRef::Delete(_), OpRef::Text(_, _) | OpRef::Embed(_, _, _) | OpRef::Delete(_)) => false,
        _ => true,
    }
}
