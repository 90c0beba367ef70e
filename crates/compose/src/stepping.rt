//! One step along the operations of two deltas.
ghost use Rattle.std.specs.Prelude.{◌≡◌, ◌⊎◌, ◌++◌, [], ◌∷◌, true, false, IfOk, OnOk, IfErr};
ghost use Rattle.std.specs.Option.{option_to_list};
ghost use Rattle.delta.specs.Operation.{is_insert, is_delete, IsBounded};
ghost use Rattle.delta.specs.Gaps.{counted};
ghost use Rattle.delta.specs.Normal.{IsNormal, NoneIsEmpty, settled};
ghost use Rattle.delta.specs.Cursor.{operation_of_part, operations_left};
ghost use Rattle.compose.specs.steps.Stepping.{IsStepOf, CutsBefore, made_in_turn};

use delta::{Builder, Cursor, Op, OpRef, Part};
use refusal::Refusal;
use std::alloc::{AllocError, Global};

/// What a step makes of the first operations of two lists, and what it leaves of both.
#[derive(Drop)]
pub struct Step<'a, 'b> {
    pub made: Option<Op>,
    pub first: Cursor<'a>,
    pub second: Cursor<'b>,
}

/// Adds what a step has made.
pub fn add(out: &mut Builder, made: Option<Op>) -> Result<(), Refusal>
    ensures added { OnOk result (settled (counted out.new) ≡ settled (counted (out.old ++ option_to_list made))) }
    ensures bad { result ≡ Err Refusal.BadOps → ¬ (IsBounded (out.old ++ option_to_list made)) }
    ensures only { IfErr result (λ e. (e ≡ Refusal.BadOps) ⊎ (e ≡ Refusal.NoMemory)) }
{
    match made {
        Some(op) => out.push(op),
        None => Ok(()),
    }
}

/// One step along two lists, the second over what the first leaves. The first list is given by its first operation and the
/// others; it may be the beginning of a longer one.
pub fn next_step<'a, 'b>(
    alloc: Global,
    op: Part<'a>,
    tail: &'a [Op],
    second: Cursor<'b>,
) -> Result<Step<'a, 'b>, Refusal>
    requires first { NoneIsEmpty (operation_of_part op ∷ tail.now) }
    requires second { IsNormal (operations_left second) }
    ensures step { IfOk result (IsStepOf (operation_of_part op.entry ∷ tail.entry.now) (operations_left second.entry)) }
    ensures cut { result ≡ Err Refusal.CutsPair
        → CutsBefore (operation_of_part op.entry ∷ tail.entry.now) (operations_left second.entry) }
    ensures only { IfErr result (λ e. (e ≡ Refusal.CutsPair) ⊎ (e ≡ Refusal.NoMemory)) }
{
    match second.split_first() {
        None => Ok(pass_first(alloc, op, tail, second)?),
        Some((next, rest)) => {
            if op.is_delete() {
                Ok(pass_first(alloc, op, tail, second)?)
            } else if next.is_insert() {
                Ok(pass_second(alloc, op, tail, next, rest)?)
            } else {
                meet(alloc, op, tail, next, rest)
            }
        }
    }
}

// the first list's operation as it is
fn pass_first<'a, 'b>(
    alloc: Global,
    op: Part<'a>,
    tail: &'a [Op],
    second: Cursor<'b>,
) -> Result<Step<'a, 'b>, AllocError>
    requires first { NoneIsEmpty (operation_of_part op ∷ tail.now) }
    requires second { IsNormal (operations_left second) }
    requires alone { (operations_left second ≡ []) ⊎ (is_delete (operation_of_part op) ≡ true) }
    ensures step { IfOk result (IsStepOf (operation_of_part op.entry ∷ tail.entry.now) (operations_left second.entry)) }
{
    Ok(Step {
        made: Some(op.to_op(alloc)?),
        first: Cursor::new(tail),
        second,
    })
}

// the second list's operation, an insert, as it is
fn pass_second<'a, 'b>(
    alloc: Global,
    op: Part<'a>,
    tail: &'a [Op],
    next: Part<'b>,
    rest: &'b [Op],
) -> Result<Step<'a, 'b>, AllocError>
    requires first { NoneIsEmpty (operation_of_part op ∷ tail.now) }
    requires second { IsNormal (operation_of_part next ∷ rest.now) }
    requires inserts { is_insert (operation_of_part next) ≡ true }
    ensures step { IfOk result
        (IsStepOf (operation_of_part op.entry ∷ tail.entry.now) (operation_of_part next.entry ∷ rest.entry.now)) }
{
    Ok(Step {
        made: Some(next.to_op(alloc)?),
        first: Cursor::before(op, tail),
        second: Cursor::new(rest),
    })
}

// what inserts or keeps some units, and what keeps or deletes them then, as far as both go
fn meet<'a, 'b>(
    alloc: Global,
    op: Part<'a>,
    tail: &'a [Op],
    next: Part<'b>,
    rest: &'b [Op],
) -> Result<Step<'a, 'b>, Refusal>
    requires first { NoneIsEmpty (operation_of_part op ∷ tail.now) }
    requires second { IsNormal (operation_of_part next ∷ rest.now) }
    requires stays { is_delete (operation_of_part op) ≡ false }
    requires stands { is_insert (operation_of_part next) ≡ false }
    ensures step { IfOk result
        (IsStepOf (operation_of_part op.entry ∷ tail.entry.now) (operation_of_part next.entry ∷ rest.entry.now)) }
    ensures cut { result ≡ Err Refusal.CutsPair
        → CutsBefore (operation_of_part op.entry ∷ tail.entry.now) (operation_of_part next.entry ∷ rest.entry.now) }
    ensures only { IfErr result (λ e. (e ≡ Refusal.CutsPair) ⊎ (e ≡ Refusal.NoMemory)) }
{
    let len = op.len16().min(next.len16());
    let (part, first) = op.take(len, tail)?;
    Ok(Step {
        made: both(alloc, part, next)?,
        first,
        second: next.past(len, rest),
    })
}

// the second operation after the first, on the same units
fn both(alloc: Global, op: Part<'_>, next: Part<'_>) -> Result<Option<Op>, AllocError>
    ensures made { IfOk result (λ made. option_to_list made
        ≡ made_in_turn (operation_of_part op.entry) (operation_of_part next.entry)) }
{
    match next.get() {
        OpRef::Retain(_, change) => Ok(Some(op.then(alloc, change)?)),
        OpRef::Delete(_) => match op.get() {
            OpRef::Retain(len, _) => Ok(Some(Op::delete(len))),
            _ => Ok(None),
        },
        OpRef::Text(_, _) | OpRef::Embed(_, _, _) => Ok(None),
    }
}
