//! One step along a delta and another of the same document.
ghost use Rattle.std.specs.Prelude.{◌≡◌, ◌⊎◌, ◌+◌, ◌<◌, ◌^◌, ◌++◌, [], ◌∷◌, IfOk, IfErr, OnOk, true, false};
ghost use Rattle.std.specs.Option.{option_to_list};
ghost use Rattle.delta.specs.Operation.{base_of, is_insert, IsBounded};
ghost use Rattle.delta.specs.Gaps.{Gaps, counted, joined};
ghost use Rattle.delta.specs.Normal.{nf, NoneIsEmpty};
ghost use Rattle.delta.specs.Cursor.{operation_of_part, operations_left};
ghost use Rattle.xform.specs.steps.Stepping.{made_of, BeginsWithInsert, IsStepOf, StandsFor};

use attributes::Change;
use delta::{Cursor, Op, OpRef, Part, TrimmingBuilder};
use refusal::Refusal;
use std::alloc::{AllocError, Global};

/// What a step makes, and what it leaves of both lists.
#[derive(Drop)]
pub(crate) struct Step<'a, 'b> {
    pub(crate) made: Option<Op>,
    pub(crate) first: Cursor<'a>,
    pub(crate) second: Cursor<'b>,
}

/// The step past one insert, or past as many units as both have; the second list is given by its first part and the
/// others. An insert goes first, and where both insert, the one with priority.
pub(crate) fn next_step<'a, 'b>(
    alloc: Global,
    first: Cursor<'a>,
    two: Part<'b>,
    rest: &'b [Op],
    priority: bool,
) -> Result<Step<'a, 'b>, AllocError>
    requires first { NoneIsEmpty (operations_left first) }
    requires second { NoneIsEmpty (operation_of_part two ∷ rest.now) }
    ensures step { IfOk result
        (IsStepOf (operations_left first.entry) (operation_of_part two.entry ∷ rest.entry.now) priority) }
{
    let Some((one, others)) = first.split_first() else {
        return pass_second(alloc, first, two, rest, priority);
    };
    let inserts = two.is_insert();
    if one.is_insert() && (priority || !inserts) {
        let second = Cursor::before(two, rest);
        return Ok(pass_first(alloc, one, others, second, priority));
    }
    if inserts {
        return pass_second(alloc, first, two, rest, priority);
    }
    pass_both(alloc, one, others, two, rest, priority)
}

// past an insert of the first list, whose units are kept
fn pass_first<'a, 'b>(
    alloc: Global,
    one: Part<'a>,
    others: &'a [Op],
    second: Cursor<'b>,
    priority: bool,
) -> Step<'a, 'b>
    requires inserts { is_insert (operation_of_part one) ≡ true }
    requires turn { (priority ≡ true) ⊎ ¬ (BeginsWithInsert (operations_left second)) }
    requires second { NoneIsEmpty (operations_left second) }
    ensures { IsStepOf (operation_of_part one.entry ∷ others.entry.now) (operations_left second.entry) priority result }
{
    let kept = Op::retain(one.out_len(), Change::new(alloc));
    Step {
        made: Some(kept),
        first: Cursor::new(others),
        second,
    }
}

// past an insert of the second list, or past any of its operations where nothing is left of the first
fn pass_second<'a, 'b>(
    alloc: Global,
    first: Cursor<'a>,
    two: Part<'b>,
    rest: &'b [Op],
    priority: bool,
) -> Result<Step<'a, 'b>, AllocError>
    requires turn { (operations_left first ≡ []) ⊎ ((is_insert (operation_of_part two) ≡ true)
        × ((priority ≡ false) ⊎ ¬ (BeginsWithInsert (operations_left first)))) }
    requires first { NoneIsEmpty (operations_left first) }
    ensures step { IfOk result
        (IsStepOf (operations_left first.entry) (operation_of_part two.entry ∷ rest.entry.now) priority) }
{
    let copy = two.to_op(alloc)?;
    Ok(Step {
        made: Some(copy),
        first,
        second: Cursor::new(rest),
    })
}

// past as many units as both have, where neither inserts
fn pass_both<'a, 'b>(
    alloc: Global,
    one: Part<'a>,
    others: &'a [Op],
    two: Part<'b>,
    rest: &'b [Op],
    priority: bool,
) -> Result<Step<'a, 'b>, AllocError>
    requires first { is_insert (operation_of_part one) ≡ false }
    requires second { is_insert (operation_of_part two) ≡ false }
    ensures step { IfOk result (IsStepOf
        (operation_of_part one.entry ∷ others.entry.now) (operation_of_part two.entry ∷ rest.entry.now) priority) }
{
    let len = one.len16().min(two.len16());
    let made = made_of(alloc, one, two, len, priority)?;
    Ok(Step {
        made,
        first: one.past(len, others),
        second: two.past(len, rest),
    })
}

// what the second makes of these units after the first: nothing where the first deletes them
fn made_of(
    alloc: Global,
    one: Part<'_>,
    two: Part<'_>,
    len: u64,
    priority: bool,
) -> Result<Option<Op>, AllocError>
    ensures made { IfOk result (λ op.
        option_to_list op ≡ made_of (operation_of_part one.entry) (operation_of_part two.entry) len priority) }
{
    match (one.get(), two.get()) {
        (OpRef::Retain(_, first), OpRef::Retain(_, second)) => {
            let change = attributes::transform(alloc, first, second, priority)?;
            Ok(Some(Op::retain(len, change)))
        }
        (OpRef::Retain(_, _), OpRef::Delete(_)) => Ok(Some(Op::delete(len))),
        _ => Ok(None),
    }
}

/// Adds what a step has made.
pub(crate) fn push_made(
    alloc: Global,
    out: &mut TrimmingBuilder,
    made: Option<Op>,
) -> Result<(), Refusal>
    requires room { base_of out.old + base_of (option_to_list made) < 2 ^ 64 }
    ensures ok { OnOk result (StandsFor out.new (out.old ++ option_to_list made)) }
    ensures bad { result ≡ Err Refusal.BadOps
        → (more : Gaps) → ¬ (IsBounded (nf (joined (counted (out.old ++ option_to_list made)) more))) }
    ensures only { IfErr result (λ e. (e ≡ Refusal.BadOps) ⊎ (e ≡ Refusal.NoMemory)) }
{
    match made {
        Some(op) => out.push(alloc, op),
        None => Ok(()),
    }
}
