//! The second delta over what the first inserts and keeps.
ghost use Rattle.std.specs.Prelude.{◌≡◌, ◌<◌, [], ◌∷◌, IfOk, IfErr};
ghost use Rattle.std.specs.Option.{option_to_list};
ghost use Rattle.delta.specs.Operation.{op_len};
ghost use Rattle.delta.specs.Normal.{IsNormal, NoneIsEmpty};
ghost use Rattle.delta.specs.Cursor.{operation_of_part, operations_left};
ghost use Rattle.compose.specs.steps.PartlyComposed.{ComposesFurther, IsRefusedPartway, EndsWith};
ghost use Rattle.compose.specs.steps.Stepping.{made_in_turn};

use crate::stepping::{add, next_step};
use delta::{Builder, Cursor, Delta, Op, OpRef, Part};
use refusal::Refusal;
use std::alloc::{AllocError, Global};

/// Lays the second list over the operations of the first, and gives what is left of it. What is made is made of copies.
pub fn lay<'b>(
    alloc: Global,
    mut first: Cursor<'_>,
    mut second: Cursor<'b>,
    out: &mut Builder,
) -> Result<Cursor<'b>, Refusal>
    requires first { NoneIsEmpty (operations_left first) }
    requires second { IsNormal (operations_left second) }
    ensures on { IfOk result
        (λ rest. ComposesFurther out.old (operations_left first.entry) (operations_left second.entry) out.new []
        (operations_left rest)) }
    ensures refused { IfErr result
        (IsRefusedPartway out.old (operations_left first.entry) (operations_left second.entry)) }
{
    while let Some((op, tail)) = first.split_first() {
        let step = next_step(alloc, op, tail, second)?;
        add(out, step.made)?;
        first = step.first;
        second = step.second;
    }
    Ok(second)
}

/// Lays the second list over one operation, and gives what is left of it. An operation that the second list doesn't part is
/// moved; of one that it parts, each part is copied once.
pub fn lay_over<'b>(
    alloc: Global,
    op: Op,
    second: Cursor<'b>,
    out: &mut Builder,
) -> Result<Cursor<'b>, Refusal>
    requires first { 0 < op_len op }
    requires second { IsNormal (operations_left second) }
    ensures on { IfOk result
        (λ rest. ComposesFurther out.old (op ∷ []) (operations_left second.entry) out.new [] (operations_left rest)) }
    ensures refused { IfErr result (IsRefusedPartway out.old (op ∷ []) (operations_left second.entry)) }
{
    if op.is_delete() {
        add(out, Some(op))?;
        return Ok(second);
    }
    let second = pass_inserts(alloc, second, out)?;
    match second.split_first() {
        None => {
            add(out, Some(op))?;
            Ok(second)
        }
        Some((next, rest)) => {
            let len = op.len16();
            if next.is_insert() || next.len16() < len {
                let whole = Cursor::before(Part::whole(&op), &[]);
                let rest = lay(alloc, whole, second, out)?;
                return Ok(rest);
            }
            add(out, changed(alloc, op, next)?)?;
            Ok(next.past(len, rest))
        }
    }
}

// the inserts that a list begins with, as they are
fn pass_inserts<'b>(
    alloc: Global,
    mut second: Cursor<'b>,
    out: &mut Builder,
) -> Result<Cursor<'b>, Refusal>
    requires second { IsNormal (operations_left second) }
    ensures on { IfOk result
        (λ rest. ComposesFurther out.old [] (operations_left second.entry) out.new [] (operations_left rest)) }
    ensures second { IfOk result (λ rest. IsNormal (operations_left rest)) }
    ensures refused { IfErr result (IsRefusedPartway out.old [] (operations_left second.entry)) }
{
    while let Some((op, rest)) = second.split_first() {
        if !op.is_insert() {
            return Ok(second);
        }
        add(out, Some(op.to_op(alloc)?))?;
        second = Cursor::new(rest);
    }
    Ok(second)
}

/// The delta of what was made, and of what is left of the second list where the first has ended.
pub fn end(alloc: Global, mut rest: Cursor<'_>, mut out: Builder) -> Result<Delta, Refusal>
    ensures { EndsWith result out (operations_left rest.entry) }
{
    while let Some((op, behind)) = rest.split_first() {
        add(&mut out, Some(op.to_op(alloc)?))?;
        rest = Cursor::new(behind);
    }
    let delta = out.finish();
    delta.facts();
    Ok(delta)
}

// what keeps or deletes all units of an operation, after it; the operation as it is where that changes nothing
fn changed(alloc: Global, op: Op, next: Part<'_>) -> Result<Option<Op>, AllocError>
    ensures made { IfOk result (λ made. option_to_list made ≡ made_in_turn op (operation_of_part next.entry)) }
{
    match next.get() {
        OpRef::Retain(_, change) => {
            if change.is_empty() {
                return Ok(Some(op));
            }
            Ok(Some(op.then(alloc, change)?))
        }
        OpRef::Delete(_) => match op.get() {
            OpRef::Retain(len, _) => Ok(Some(Op::delete(len))),
            _ => Ok(None),
        },
        OpRef::Text(_, _) | OpRef::Embed(_, _, _) => Ok(None),
    }
}
