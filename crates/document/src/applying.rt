//! The two passes of a delta over chunks: whether it parts a pair, and the chunks after it.
ghost use Rattle.std.specs.Prelude.{◌≡◌, ◌+◌, ◌≤◌, ◌<◌, ◌^◌, ◌↔◌, length, IfOk, OnOk, IsTrue};
ghost use Rattle.delta.specs.Operation.{op_base, op_out, base_of, out_of};
ghost use Rattle.delta.specs.Gaps.{counted, apply};
ghost use Rattle.document.specs.Chunks.{units_of_chunks, AreChunks};
ghost use Rattle.document.specs.Pairs.{IsWithinPair};
ghost use Rattle.document.specs.steps.Passes.{StopsInPair, IsOneApplied};
ghost use Rattle.document.specs.Runs.{units_of_runs, AreRuns};

use crate::building::ChunkBuilder;
use crate::chunk::Chunk;
use crate::cursor::Cursor;
use crate::runs::{put_embed, put_text};
use crate::walk::{keep, skip};
use attributes::Change;
use delta::{Op, OpRef};
use std::alloc::{AllocError, Global};

/// Whether an operation ends between the two units of a pair.
pub fn parts_pair(chunks: &[Chunk], ops: &[Op]) -> bool
    requires chunks { AreChunks chunks.now }
    requires there { base_of ops.now ≤ length (units_of_chunks chunks.now) }
    ensures { IsTrue result ↔ StopsInPair (units_of_chunks chunks.now) ops.now }
{
    let mut cursor = Cursor::new(chunks);
    for op in ops {
        if skip(&mut cursor, op.base_len()).is_err() {
            return true;
        }
    }
    false
}

/// The runs after the operations, which leave so many code units behind them as they are.
pub fn built(
    alloc: Global,
    chunks: &[Chunk],
    ops: &[Op],
    behind: u64,
) -> Result<ChunkBuilder, AllocError>
    requires chunks { AreChunks chunks.now }
    requires there { length (units_of_chunks chunks.now) ≡ base_of ops.now + behind }
    requires whole { ¬ (StopsInPair (units_of_chunks chunks.now) ops.now) }
    requires out { out_of ops.now ≤ 2 ^ 48 }
    requires behind { behind ≤ 2 ^ 48 }
    ensures units { IfOk result (λ made. units_of_runs made ≡ apply (units_of_chunks chunks.now) (counted ops.now)) }
    ensures runs { IfOk result (λ made. AreRuns made) }
    ensures bound { IfOk result (λ made. length (units_of_runs made) < 2 ^ 64) }
{
    let mut made = ChunkBuilder::new(alloc);
    let mut cursor = Cursor::new(chunks);
    for op in ops {
        step(alloc, &mut cursor, op, ops, &mut made)?;
    }
    let same = Change::new(alloc);
    keep(alloc, &mut cursor, behind, &same, ops, &mut made)?;
    Ok(made)
}

// one operation, of these
fn step(
    alloc: Global,
    cursor: &mut Cursor<'_>,
    op: &Op,
    ops: &[Op],
    made: &mut ChunkBuilder,
) -> Result<(), AllocError>
    requires there { op_base op.now ≤ length cursor.old }
    requires whole { ¬ (IsWithinPair cursor.old (op_base op.now)) }
    requires bound { length (units_of_runs made.old) + op_out op.now < 2 ^ 64 }
    requires runs { AreRuns made.old }
    ensures done { OnOk result
        (IsOneApplied cursor.old cursor.new op.now (units_of_runs made.old) (units_of_runs made.new)) }
    ensures runs { OnOk result (AreRuns made.new) }
{
    match op.get() {
        OpRef::Text(text, attrs) => {
            put_text(alloc, made, text, op.len16(), attrs.copy(alloc)?, 0)?;
        }
        OpRef::Embed(key, value, attrs) => {
            put_embed(
                alloc,
                made,
                key.copy(alloc)?,
                value.copy(alloc)?,
                attrs.copy(alloc)?,
            )?;
        }
        OpRef::Retain(len, change) => keep(alloc, cursor, len, change, ops, made)?,
        OpRef::Delete(len) => match skip(cursor, len) {
            Ok(()) => {}
            Err(_) => unreachable!(),
        },
    }
    Ok(())
}
