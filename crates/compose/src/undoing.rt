//! The way back from a delta, over the units of the document before it.
ghost use Rattle.std.specs.Prelude.{◌≡◌, ◌+◌, ◌≤◌, ◌<◌, ◌^◌, ◌++◌, [], ◌∷◌, false, length, IfOk, OnOk};
ghost use Rattle.attributes.specs.Map.{empty};
ghost use Rattle.delta.specs.Operation.{base_of, out_of, op_base, op_out, is_insert, retain};
ghost use Rattle.delta.specs.Gaps.{counted};
ghost use Rattle.delta.specs.Normal.{nf, settled};
ghost use Rattle.document.specs.Pairs.{IsWithinPair};
ghost use Rattle.document.specs.Pieces.{piece_units, IsCounted};
ghost use Rattle.document.specs.steps.Passes.{StopsInPair};
ghost use Rattle.compose.specs.Inverse.{inverse};
ghost use Rattle.compose.specs.steps.SteppingBack.{for_units, TakesBack, IsTakenBack};

use attributes::Change;
use delta::{Builder, Delta, Op, OpRef};
use document::{Cursor, Document, Piece};
use std::alloc::{AllocError, Global};

/// The way back from a delta that is defined on the document and cuts no pair of it. What the delta leaves as it is isn't looked at.
pub fn undo(alloc: Global, document: &Document, delta: &Delta) -> Result<Delta, AllocError>
    requires there { base_of delta.now ≤ length document.now }
    requires whole { ¬ (StopsInPair document.now delta.now) }
    ensures one { IfOk result (λ back. back ≡ nf (inverse (counted delta.now) document.now)) }
{
    let mut left = document.cursor();
    let mut made = Builder::new(alloc);
    let ops = delta.ops();
    for op in ops {
        take_back(alloc, &mut left, op, &mut made)?;
    }
    Ok(made.finish())
}

// takes back what one operation does
fn take_back(
    alloc: Global,
    left: &mut Cursor<'_>,
    op: &Op,
    made: &mut Builder,
) -> Result<(), AllocError>
    requires there { op_base op.now ≤ length left.old }
    requires whole { ¬ (IsWithinPair left.old (op_base op.now)) }
    requires base { base_of made.old + op_out op.now ≤ 2 ^ 48 }
    requires out { out_of made.old + op_base op.now ≤ 2 ^ 48 }
    ensures back { OnOk result (IsTakenBack left.old left.new op.now made.old made.new) }
{
    if op.is_insert() {
        put(made, Op::delete(op.len16()))?;
        return Ok(());
    }
    if let Some(len) = op.plain_len() {
        keep(alloc, left, len, made)?;
        return Ok(());
    }
    bring_back(alloc, left, op, made)?;
    Ok(())
}

// steps over units that stay as they are
fn keep(
    alloc: Global,
    left: &mut Cursor<'_>,
    len: u64,
    made: &mut Builder,
) -> Result<(), AllocError>
    requires there { len ≤ length left.old }
    requires whole { ¬ (IsWithinPair left.old len) }
    requires base { base_of made.old + len ≤ 2 ^ 48 }
    requires out { out_of made.old + len ≤ 2 ^ 48 }
    ensures back { OnOk result (IsTakenBack left.old left.new (retain len empty) made.old made.new) }
{
    match left.skip(len) {
        Ok(()) => {
            put(made, Op::retain(len, Change::new(alloc)))?;
            Ok(())
        }
        Err(_) => unreachable!(),
    }
}

// brings back what an operation changes or deletes, piece by piece
fn bring_back(
    alloc: Global,
    left: &mut Cursor<'_>,
    op: &Op,
    made: &mut Builder,
) -> Result<(), AllocError>
    requires stands { is_insert op.now ≡ false }
    requires there { op_base op.now ≤ length left.old }
    requires whole { ¬ (IsWithinPair left.old (op_base op.now)) }
    requires base { base_of made.old + op_out op.now ≤ 2 ^ 48 }
    requires out { out_of made.old + op_base op.now ≤ 2 ^ 48 }
    ensures back { OnOk result (IsTakenBack left.old left.new op.now made.old made.new) }
{
    let mut len = op.base_len();
    while len > 0 {
        len -= bring_next_back(alloc, left, len, op, made)?;
    }
    Ok(())
}

// brings the next piece back, of at most so many code units, and says how many it has
fn bring_next_back(
    alloc: Global,
    left: &mut Cursor<'_>,
    most: u64,
    op: &Op,
    made: &mut Builder,
) -> Result<u64, AllocError>
    requires stands { is_insert op.now ≡ false }
    requires some { 0 < most }
    requires there { most ≤ length left.old }
    requires whole { ¬ (IsWithinPair left.old most) }
    requires base { base_of made.old + op_out (for_units most op.now) ≤ 2 ^ 48 }
    requires out { out_of made.old + most ≤ 2 ^ 48 }
    ensures back { IfOk result (λ len. IsTakenBack left.old left.new (for_units len op.now) made.old made.new) }
    ensures some { IfOk result (λ len. 0 < len) }
    ensures most { IfOk result (λ len. len ≤ most) }
{
    let piece = match left.next(most) {
        Ok(piece) => piece,
        Err(_) => unreachable!(),
    };
    let back = back_of(alloc, piece, op)?;
    put(made, back)?;
    Ok(piece.units())
}

// the change back, or the units again
fn back_of(alloc: Global, piece: Piece<'_>, op: &Op) -> Result<Op, AllocError>
    requires stands { is_insert op.now ≡ false }
    requires counted { IsCounted piece }
    ensures back { IfOk result (λ back. TakesBack (for_units (length (piece_units piece.entry)) op.now) (piece_units piece.entry) back) }
{
    match op.get() {
        OpRef::Retain(_, change) => {
            let back = attributes::invert(alloc, change, piece.attrs())?;
            Ok(Op::retain(piece.units(), back))
        }
        OpRef::Delete(_) => {
            let back = piece.inserted(alloc)?;
            Ok(back)
        }
        OpRef::Text(_, _) => unreachable!(),
        OpRef::Embed(_, _, _) => unreachable!(),
    }
}

// adds an operation that stays within the bounds
fn put(made: &mut Builder, op: Op) -> Result<(), AllocError>
    requires base { base_of made.old + op_base op ≤ 2 ^ 48 }
    requires out { out_of made.old + op_out op ≤ 2 ^ 48 }
    ensures added { OnOk result (settled (counted made.new) ≡ settled (counted (made.old ++ op ∷ []))) }
    ensures base { OnOk result (base_of made.new ≡ base_of made.old + op_base op) }
    ensures out { OnOk result (out_of made.new ≡ out_of made.old + op_out op) }
{
    match made.push(op) {
        Ok(()) => Ok(()),
        Err(refusal) => Err(refusal.as_alloc_error()),
    }
}
