//! Steps over units of runs: past them, or out with a change.
ghost use Rattle.std.specs.Prelude.{◌≡◌, ◌+◌, ◌≤◌, ◌<◌, ◌^◌, ◌++◌, length, IfOk, OnOk, OnErr, IsOkUnless};
ghost use Rattle.attributes.specs.Map.{empty};
ghost use Rattle.document.specs.Pairs.{IsWithinPair};
ghost use Rattle.document.specs.steps.Passes.{IsSteppedOver, IsRetained, with_change};
ghost use Rattle.document.specs.Pieces.{piece_dressed, IsPiece};
ghost use Rattle.document.specs.Runs.{units_of_runs, IsRun, AreRuns};

use crate::building::ChunkBuilder;
use crate::cursor::Cursor;
use crate::joining::joins;
use crate::run::Piece;
use crate::runs::{put_chunks, put_embed, put_run, put_runs, put_text};
use crate::shared::SharedRun;
use attributes::{Attrs, Change, apply};
use delta::Op;
use std::alloc::{AllocError, Global};
use utf16::Cut;

/// Steps over so many code units; refused where that would part a pair.
pub fn skip(cursor: &mut Cursor<'_>, len: u64) -> Result<(), Cut>
    requires { len ≤ length cursor.old }
    ensures passed { OnOk result (IsSteppedOver cursor.old cursor.new len) }
    ensures parted { OnErr result (IsWithinPair cursor.old len) }
    ensures only { IsOkUnless result Cut.InPair }
{
    let mut left = len;
    while left > 0 {
        left -= skip_next(cursor, left)?;
    }
    Ok(())
}

// steps over the next chunks or runs, or a piece of a run, of at most so many code units, and says how many they have; refused
// where that would part a pair
fn skip_next(cursor: &mut Cursor<'_>, most: u64) -> Result<u64, Cut>
    requires some { 0 < most }
    requires there { most ≤ length cursor.old }
    ensures passed { IfOk result (λ len. IsSteppedOver cursor.old cursor.new len) }
    ensures some { IfOk result (λ len. 0 < len) }
    ensures most { IfOk result (λ len. len ≤ most) }
    ensures parted { OnErr result (IsWithinPair cursor.old most) }
    ensures only { IsOkUnless result Cut.InPair }
{
    let (_, units) = cursor.next_chunks(most);
    if units > 0 {
        return Ok(units);
    }
    let (_, units) = cursor.next_runs(most);
    if units > 0 {
        return Ok(units);
    }
    let piece = cursor.next(most)?;
    Ok(piece.units())
}

/// Steps over so many code units, and puts them out with a change of their attributes. The operations that this is a part of tell
/// how much room a text is given.
pub fn keep(
    alloc: Global,
    cursor: &mut Cursor<'_>,
    len: u64,
    change: &Change,
    ops: &[Op],
    out: &mut ChunkBuilder,
) -> Result<(), AllocError>
    requires there { len ≤ length cursor.old }
    requires whole { ¬ (IsWithinPair cursor.old len) }
    requires bound { length (units_of_runs out.old) + len < 2 ^ 64 }
    requires runs { AreRuns out.old }
    ensures kept { OnOk result
        (IsRetained cursor.old cursor.new len change.now (units_of_runs out.old) (units_of_runs out.new)) }
    ensures runs { OnOk result (AreRuns out.new) }
{
    let mut left = len;
    while left > 0 {
        left -= keep_next(alloc, cursor, left, change, ops, out)?;
    }
    Ok(())
}

// steps over the next chunks or runs, or a piece of a run, of at most so many code units, puts them out with a change of their
// attributes, and says how many they have
fn keep_next(
    alloc: Global,
    cursor: &mut Cursor<'_>,
    most: u64,
    change: &Change,
    ops: &[Op],
    out: &mut ChunkBuilder,
) -> Result<u64, AllocError>
    requires some { 0 < most }
    requires there { most ≤ length cursor.old }
    requires whole { ¬ (IsWithinPair cursor.old most) }
    requires bound { length (units_of_runs out.old) + most < 2 ^ 64 }
    requires runs { AreRuns out.old }
    ensures kept { IfOk result (λ len.
        IsRetained cursor.old cursor.new len change.now (units_of_runs out.old) (units_of_runs out.new)) }
    ensures some { IfOk result (λ len. 0 < len) }
    ensures most { IfOk result (λ len. len ≤ most) }
    ensures runs { OnOk result (AreRuns out.new) }
{
    if change.is_empty() {
        let len = keep_plain_next(alloc, cursor, most, change, ops, out)?;
        return Ok(len);
    }
    let len = keep_changed_next(alloc, cursor, most, change, ops, out)?;
    Ok(len)
}

// the same with a change that changes nothing
fn keep_plain_next(
    alloc: Global,
    cursor: &mut Cursor<'_>,
    most: u64,
    change: &Change,
    ops: &[Op],
    out: &mut ChunkBuilder,
) -> Result<u64, AllocError>
    requires plain { change.now ≡ empty }
    requires some { 0 < most }
    requires there { most ≤ length cursor.old }
    requires whole { ¬ (IsWithinPair cursor.old most) }
    requires bound { length (units_of_runs out.old) + most < 2 ^ 64 }
    requires runs { AreRuns out.old }
    ensures kept { IfOk result (λ len.
        IsRetained cursor.old cursor.new len change.now (units_of_runs out.old) (units_of_runs out.new)) }
    ensures some { IfOk result (λ len. 0 < len) }
    ensures most { IfOk result (λ len. len ≤ most) }
    ensures runs { OnOk result (AreRuns out.new) }
{
    let (chunks, units) = cursor.next_chunks(most);
    if units > 0 {
        put_chunks(alloc, out, chunks)?;
        return Ok(units);
    }
    let (runs, units) = cursor.next_runs(most);
    if units > 0 {
        put_runs(alloc, out, runs)?;
        return Ok(units);
    }
    let len = keep_part(alloc, cursor, most, change, ops, out)?;
    Ok(len)
}

// the same run by run
fn keep_changed_next(
    alloc: Global,
    cursor: &mut Cursor<'_>,
    most: u64,
    change: &Change,
    ops: &[Op],
    out: &mut ChunkBuilder,
) -> Result<u64, AllocError>
    requires some { 0 < most }
    requires there { most ≤ length cursor.old }
    requires whole { ¬ (IsWithinPair cursor.old most) }
    requires bound { length (units_of_runs out.old) + most < 2 ^ 64 }
    requires runs { AreRuns out.old }
    ensures kept { IfOk result (λ len.
        IsRetained cursor.old cursor.new len change.now (units_of_runs out.old) (units_of_runs out.new)) }
    ensures some { IfOk result (λ len. 0 < len) }
    ensures most { IfOk result (λ len. len ≤ most) }
    ensures runs { OnOk result (AreRuns out.new) }
{
    if let Some(run) = cursor.next_run(most) {
        keep_run(alloc, run, change, out)?;
        return Ok(run.units());
    }
    let len = keep_part(alloc, cursor, most, change, ops, out)?;
    Ok(len)
}

// puts a whole run out with a change of its attributes; the run itself where that changes nothing
fn keep_run(
    alloc: Global,
    run: &SharedRun,
    change: &Change,
    out: &mut ChunkBuilder,
) -> Result<(), AllocError>
    requires run { IsRun run.now }
    requires bound { length (units_of_runs out.old) + length run.now < 2 ^ 64 }
    requires runs { AreRuns out.old }
    ensures units { OnOk result
        (units_of_runs out.new ≡ units_of_runs out.old ++ with_change change.now run.now) }
    ensures runs { OnOk result (AreRuns out.new) }
{
    let piece = run.piece();
    let attrs = apply(alloc, piece.attrs(), change)?;
    if attrs == *piece.attrs() {
        put_run(alloc, out, run)?;
        return Ok(());
    }
    put(alloc, out, piece, attrs, 0)?;
    Ok(())
}

// steps over a piece of at most so many code units, puts it out with a change of its attributes, and says how many it has; where
// what is left of its text comes into the same run again, the run has room for it from the start
fn keep_part(
    alloc: Global,
    cursor: &mut Cursor<'_>,
    most: u64,
    change: &Change,
    ops: &[Op],
    out: &mut ChunkBuilder,
) -> Result<u64, AllocError>
    requires some { 0 < most }
    requires there { most ≤ length cursor.old }
    requires whole { ¬ (IsWithinPair cursor.old most) }
    requires bound { length (units_of_runs out.old) + most < 2 ^ 64 }
    requires runs { AreRuns out.old }
    ensures kept { IfOk result (λ len.
        IsRetained cursor.old cursor.new len change.now (units_of_runs out.old) (units_of_runs out.new)) }
    ensures some { IfOk result (λ len. 0 < len) }
    ensures most { IfOk result (λ len. len ≤ most) }
    ensures runs { OnOk result (AreRuns out.new) }
{
    let piece = match cursor.next(most) {
        Ok(piece) => piece,
        Err(_) => unreachable!(),
    };
    let attrs = apply(alloc, piece.attrs(), change)?;
    let left = cursor.bytes_begun();
    let more = if left > 0 && joins(ops, piece.attrs()) {
        left
    } else {
        0
    };
    put(alloc, out, piece, attrs, more)?;
    Ok(piece.units())
}

// puts a piece out with other attributes, with room for so many bytes more where it begins a run of text
fn put(
    alloc: Global,
    out: &mut ChunkBuilder,
    piece: Piece<'_>,
    attrs: Attrs,
    more: usize,
) -> Result<(), AllocError>
    requires piece { IsPiece piece }
    requires bound { length (units_of_runs out.old) + length (piece_dressed piece attrs) < 2 ^ 64 }
    requires runs { AreRuns out.old }
    ensures units { OnOk result (units_of_runs out.new ≡ units_of_runs out.old
        ++ piece_dressed piece.entry attrs) }
    ensures runs { OnOk result (AreRuns out.new) }
{
    match piece {
        Piece::Text(text, units, _) => put_text(alloc, out, text, units, attrs, more),
        Piece::Embed(key, value, _) => {
            put_embed(alloc, out, key.copy(alloc)?, value.copy(alloc)?, attrs)
        }
    }
}
