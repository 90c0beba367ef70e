//! Lists of runs that grow at their end.
ghost use Rattle.std.specs.Prelude.{◌≡◌, ◌≢◌, Some, ◌+◌, ◌<◌, ◌≤◌, ◌^◌, ◌++◌, [], ◌∷◌, length, OnOk, OnErr, IfOk, MatchBool};
ghost use Rattle.utf16.specs.Units.{units_of};
ghost use Rattle.delta.specs.Element.{letters, embedded};
ghost use Rattle.document.specs.Chunks.{units_of_chunks, AreChunks};
ghost use Rattle.document.specs.Runs.{units_of_runs, AreRuns, IsRun, IsApart, TakesText, last_attributes, text_attributes};

use crate::building::ChunkBuilder;
use crate::chunk::Chunk;
use crate::run::{Piece, Run};
use crate::shared::SharedRun;
use attributes::{Attrs, Key, Value};
use std::alloc::{AllocError, Global};

/// Puts a text with so many code units at the end: into the last run where that is a text of equal attributes, and else into a run
/// that has room for so many bytes more.
pub fn put_text(
    alloc: Global,
    runs: &mut ChunkBuilder,
    text: &str,
    units: u64,
    attrs: Attrs,
    more: usize,
) -> Result<(), AllocError>
    requires counted { units ≡ length (units_of text.now) }
    requires bound { length (units_of_runs runs.old) + units < 2 ^ 64 }
    requires kept { AreRuns runs.old }
    ensures ok { OnOk result (units_of_runs runs.new ≡ units_of_runs runs.old
        ++ letters (units_of text.now) attrs) }
    ensures kept { OnOk result (AreRuns runs.new) }
{
    if units == 0 {
        return Ok(());
    }
    if runs.merge_last(alloc, text, units, &attrs)? {
        return Ok(());
    }
    let run = Run::text(alloc, text, units, attrs, more)?;
    runs.push(alloc, SharedRun::new(alloc, run)?)?;
    Ok(())
}

/// Puts an embed at the end.
pub fn put_embed(
    alloc: Global,
    runs: &mut ChunkBuilder,
    key: Key,
    value: Value,
    attrs: Attrs,
) -> Result<(), AllocError>
    requires bound { length (units_of_runs runs.old) < 2 ^ 64 }
    requires kept { AreRuns runs.old }
    ensures ok { OnOk result (units_of_runs runs.new ≡ units_of_runs runs.old
        ++ embedded key value attrs ∷ []) }
    ensures kept { OnOk result (AreRuns runs.new) }
{
    let run = Run::embed(key, value, attrs);
    runs.push(alloc, SharedRun::new(alloc, run)?)?;
    Ok(())
}

/// Puts a run at the end: its text into the last run where that is a text of equal attributes, and else the run itself, which
/// takes no memory but its place.
pub fn put_run(alloc: Global, runs: &mut ChunkBuilder, run: &SharedRun) -> Result<(), AllocError>
    requires run { IsRun run.now }
    requires bound { length (units_of_runs runs.old) + length run.now < 2 ^ 64 }
    requires kept { AreRuns runs.old }
    ensures ok { OnOk result (units_of_runs runs.new ≡ units_of_runs runs.old ++ run.now) }
    ensures kept { OnOk result (AreRuns runs.new) }
    ensures last { OnOk result (last_attributes runs.new ≡ text_attributes run.now) }
{
    if merge_run(alloc, runs, run)? {
        return Ok(());
    }
    runs.push(alloc, run.share()?)?;
    Ok(())
}

/// Puts runs at the end; only the first of them may merge with the last one there.
pub fn put_runs(
    alloc: Global,
    runs: &mut ChunkBuilder,
    more: &[SharedRun],
) -> Result<(), AllocError>
    requires some { 0 < length more.now }
    requires few { length more.now ≤ 128 }
    requires more { AreRuns more.now }
    requires bound { length (units_of_runs runs.old) + length (units_of_runs more.now) < 2 ^ 64 }
    requires kept { AreRuns runs.old }
    ensures ok { OnOk result (units_of_runs runs.new ≡ units_of_runs runs.old ++ units_of_runs more.now) }
    ensures kept { OnOk result (AreRuns runs.new) }
    ensures last { OnOk result (last_attributes runs.new ≡ last_attributes more.now) }
{
    let first = &more[0];
    if runs.is_apart(first) {
        runs.extend(alloc, more)?;
        return Ok(());
    }
    put_run(alloc, runs, first)?;
    runs.extend(alloc, &more[1..])?;
    Ok(())
}

/// Puts chunks at the end: as they are, but for the first where that merges with the last run or joins runs that are too few for a
/// chunk.
pub fn put_chunks(
    alloc: Global,
    runs: &mut ChunkBuilder,
    chunks: &[Chunk],
) -> Result<(), AllocError>
    requires some { 0 < length chunks.now }
    requires chunks { AreChunks chunks.now }
    requires bound { length (units_of_runs runs.old) + length (units_of_chunks chunks.now) < 2 ^ 64 }
    requires kept { AreRuns runs.old }
    ensures ok { OnOk result (units_of_runs runs.new ≡ units_of_runs runs.old ++ units_of_chunks chunks.now) }
    ensures kept { OnOk result (AreRuns runs.new) }
{
    let first = &chunks[0];
    if runs.goes_before(first) {
        runs.extend_chunks(alloc, chunks)?;
        return Ok(());
    }
    put_runs(alloc, runs, first.runs())?;
    runs.extend_chunks(alloc, &chunks[1..])?;
    Ok(())
}

// takes a run's text into the last run, where both are texts of equal attributes, and says whether they are
fn merge_run(alloc: Global, runs: &mut ChunkBuilder, run: &SharedRun) -> Result<bool, AllocError>
    requires run { IsRun run.now }
    requires bound { length (units_of_runs runs.old) + length run.now < 2 ^ 64 }
    requires kept { AreRuns runs.old }
    ensures ok { IfOk result (λ yes. MatchBool yes
        ((units_of_runs runs.new ≡ units_of_runs runs.old ++ run.now) × AreRuns runs.new
        × (last_attributes runs.new ≡ text_attributes run.now))
        (IsApart (last_attributes runs.old) (text_attributes run.now) × (runs.new ≡ runs.old))) }
{
    match run.piece() {
        Piece::Text(text, units, attrs) => {
            let merged = runs.merge_last(alloc, text, units, attrs)?;
            Ok(merged)
        }
        Piece::Embed(_, _, _) => Ok(false),
    }
}

/// Takes a text into the last run, where that is a text of equal attributes, and says whether it is.
pub fn merge_into(
    alloc: Global,
    runs: &mut Vec<SharedRun>,
    text: &str,
    units: u64,
    attrs: &Attrs,
) -> Result<bool, AllocError>
    requires counted { units ≡ length (units_of text.now) }
    requires bound { length (units_of_runs runs.old.items) + units < 2 ^ 64 }
    ensures ok { IfOk result (λ yes. MatchBool yes
        (TakesText runs.old.items runs.new.items (letters (units_of text.now) attrs.now) attrs.now)
        ((last_attributes runs.old.items ≢ Some attrs.now) × (runs.new.items ≡ runs.old.items))) }
    ensures err { OnErr result (runs.new.items ≡ runs.old.items) }
{
    let len = runs.len();
    if len == 0 {
        return Ok(false);
    }
    let merged = runs[len - 1].merge(alloc, text, units, attrs)?;
    Ok(merged)
}

/// One more owner of each run.
pub fn share_all(alloc: Global, runs: &[SharedRun]) -> Result<Vec<SharedRun>, AllocError>
    ensures same { IfOk result (λ shared. shared.items ≡ runs.now) }
{
    let mut shared = Vec::with_capacity(alloc, runs.len())?;
    extend(&mut shared, runs)?;
    Ok(shared)
}

/// Puts one more owner of each of these runs at the end.
pub fn extend(shared: &mut Vec<SharedRun>, runs: &[SharedRun]) -> Result<(), AllocError>
    ensures items { OnOk result (shared.new.items ≡ shared.old.items ++ runs.now) }
    ensures most { length shared.new.items ≤ length shared.old.items + length runs.now }
{
    for run in runs {
        shared.push(run.share()?)?;
    }
    Ok(())
}
