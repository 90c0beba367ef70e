//! Chunks in the making.
ghost use Rattle.std.specs.Prelude.{◌≡◌, ◌≢◌, ◌+◌, ◌-◌, ◌<◌, ◌≤◌, ◌^◌, ◌↔◌, ◌++◌, [], ◌∷◌, length, Some, IfOk, IfSome, IfNone, OnOk, IsTrue, MatchBool, MatchResult};
ghost use Rattle.utf16.specs.Units.{units_of};
ghost use Rattle.delta.specs.Element.{letters};
ghost use Rattle.document.specs.Chunks.{runs_of_chunks, IsChunk, AreSized};
ghost use Rattle.document.specs.Runs.{units_of_runs, IsApart, TakesText, last_attributes, first_attributes, text_attributes};

use crate::chunk::Chunk;
use crate::runs::{extend, merge_into, share_all};
use crate::shared::SharedRun;
use attributes::Attrs;
use std::alloc::{AllocError, Global};
use std::marker::Model;
use std::mem;

/// A chunk has at most so many runs.
const MOST: usize = 128;

/// Chunks that are made have so many runs at least, but where there is one alone.
const FEW: usize = 32;

/// Chunks that grow at their end, seen as the list of all runs: chunks that are made, and up to 256 loose runs after them, which
/// become one or two more chunks.
#[derive(Drop)]
pub struct ChunkBuilder {
    made: Vec<Chunk>,
    loose: Vec<SharedRun>,
}

impl Model for ChunkBuilder {
    ghost use Rattle.std.specs.Prelude.{◌≤◌, ◌++◌, length, List};
    ghost use Rattle.std.specs.Coded.{coded_list};
    ghost use Rattle.delta.specs.Element.{Element};
    ghost use Rattle.delta.specs.ElementCode.{element_code};
    ghost use Rattle.document.specs.Chunks.{runs_of_chunks, AreSized};

    ghost Value = { List (List Element) };

    ghost coded = { coded_list (coded_list element_code) };

    ghost view = { λ b. runs_of_chunks b.made.items ++ b.loose.items };

    ghost invariant = { λ b. AreSized b.made.items × (length b.loose.items ≤ 256) };
}

impl ChunkBuilder {
    /// No chunk. It takes no memory.
    pub fn new(alloc: Global) -> Self
        ensures { result ≡ [] }
    {
        ChunkBuilder {
            made: Vec::new(alloc),
            loose: Vec::new(alloc),
        }
    }

    /// Takes a text into the last run, where that is a text of equal attributes, and says whether it is.
    pub fn merge_last(
        &mut self,
        alloc: Global,
        text: &str,
        units: u64,
        attrs: &Attrs,
    ) -> Result<bool, AllocError>
        requires counted { units ≡ length (units_of text.now) }
        requires bound { length (units_of_runs self.old) + units < 2 ^ 64 }
        ensures ok { IfOk result (λ yes. MatchBool yes
            (TakesText self.old self.new (letters (units_of text.now) attrs.now) attrs.now)
            ((last_attributes self.old ≢ Some attrs.now) × (self.new ≡ self.old))) }
    {
        if self.loose.is_empty() && !self.takes(attrs) {
            return Ok(false);
        }
        refill(alloc, &mut self.made, &mut self.loose)?;
        let merged = merge_into(alloc, &mut self.loose, text, units, attrs)?;
        Ok(merged)
    }

    /// Puts a run at the end, whatever the last one is.
    pub fn push(&mut self, alloc: Global, run: SharedRun) -> Result<(), AllocError>
        requires bound { length (units_of_runs self.old) < 2 ^ 64 }
        ensures ok { OnOk result (self.new ≡ self.old ++ run ∷ []) }
    {
        make_room(alloc, &mut self.made, &mut self.loose, 1)?;
        self.loose.push(run)?;
        Ok(())
    }

    /// Puts one more owner of each of these runs at the end, whatever the last one is.
    pub fn extend(&mut self, alloc: Global, runs: &[SharedRun]) -> Result<(), AllocError>
        requires bound { length (units_of_runs self.old) < 2 ^ 64 }
        requires few { length runs.now ≤ 128 }
        ensures ok { OnOk result (self.new ≡ self.old ++ runs.now) }
    {
        make_room(alloc, &mut self.made, &mut self.loose, runs.len())?;
        self.loose.reserve(runs.len())?;
        extend(&mut self.loose, runs)?;
        Ok(())
    }

    /// Whether a chunk may stand at the end as it is: it doesn't merge with the last run, and it and the loose runs before it have
    /// each enough runs for a chunk.
    pub fn goes_before(&self, chunk: &Chunk) -> bool
        ensures { IsTrue result → IsApart (last_attributes self.now) (first_attributes chunk.now) }
    {
        let few = (!self.loose.is_empty() && self.loose.len() < FEW) || chunk.runs().len() < FEW;
        !few && self.is_apart(chunk.first())
    }

    /// Whether a run doesn't merge with the last one.
    pub fn is_apart(&self, run: &SharedRun) -> bool
        ensures { IsTrue result → IsApart (last_attributes self.now) (text_attributes run.now) }
    {
        match self.last() {
            Some(last) => !last.joins(run),
            None => true,
        }
    }

    // whether the last run is a text of these attributes
    fn takes(&self, attrs: &Attrs) -> bool
        ensures { IsTrue result ↔ (last_attributes self.now ≡ Some attrs.now) }
    {
        match self.last() {
            Some(last) => last.takes(attrs),
            None => false,
        }
    }

    // the last run
    fn last(&self) -> Option<&SharedRun>
        ensures some { IfSome result (λ last. last_attributes self.now ≡ text_attributes last.now) }
        ensures none { IfNone result (self.now ≡ []) }
    {
        let loose = self.loose.len();
        if loose > 0 {
            return Some(&self.loose[loose - 1]);
        }
        let made = self.made.len();
        if made > 0 {
            return Some(self.made[made - 1].last());
        }
        None
    }

    /// Puts one more owner of each of these chunks at the end, whatever the last run is.
    pub fn extend_chunks(&mut self, alloc: Global, chunks: &[Chunk]) -> Result<(), AllocError>
        requires sized { AreSized chunks.now }
        requires bound { length (units_of_runs self.old) < 2 ^ 64 }
        ensures ok { OnOk result (self.new ≡ self.old ++ runs_of_chunks chunks.now) }
    {
        if chunks.is_empty() {
            return Ok(());
        }
        close(alloc, &mut self.made, &mut self.loose)?;
        self.made.reserve(chunks.len())?;
        extend_made(&mut self.made, chunks)?;
        Ok(())
    }

    /// The runs of one chunk, or else the same runs once more.
    pub fn into_one(self) -> Result<Vec<SharedRun>, ChunkBuilder>
        ensures { MatchResult result (λ runs. (runs.items ≡ self) × IsChunk runs.items) (λ same. same ≡ self) }
    {
        if self.made.is_empty() && !self.loose.is_empty() && self.loose.len() <= MOST {
            let ChunkBuilder { made: _, loose } = self;
            return Ok(loose);
        }
        Err(self)
    }

    /// The chunks.
    pub fn finish(mut self, alloc: Global) -> Result<Vec<Chunk>, AllocError>
        requires bound { length (units_of_runs self) < 2 ^ 64 }
        ensures runs { IfOk result (λ chunks. runs_of_chunks chunks.items ≡ self) }
        ensures sized { IfOk result (λ chunks. AreSized chunks.items) }
    {
        gather(alloc, &mut self.made, &mut self.loose)?;
        close(alloc, &mut self.made, &mut self.loose)?;
        let ChunkBuilder { made, loose: _ } = self;
        Ok(made)
    }
}

// takes the runs of the last chunk out, where there is no loose run
fn refill(
    alloc: Global,
    made: &mut Vec<Chunk>,
    loose: &mut Vec<SharedRun>,
) -> Result<(), AllocError>
    requires sized { AreSized made.old.items }
    requires few { length loose.old.items ≤ 256 }
    ensures runs { OnOk result (runs_of_chunks made.new.items ++ loose.new.items
        ≡ runs_of_chunks made.old.items ++ loose.old.items) }
    ensures sized { AreSized made.new.items }
    ensures some { OnOk result (0 < length (runs_of_chunks made.old.items ++ loose.old.items)
        → 0 < length loose.new.items) }
    ensures few { length loose.new.items ≤ 256 }
{
    if loose.is_empty() && !made.is_empty() {
        take_back(alloc, made, loose)?;
    }
    Ok(())
}

// takes the runs of the last chunk out, where the loose ones are few
fn gather(
    alloc: Global,
    made: &mut Vec<Chunk>,
    loose: &mut Vec<SharedRun>,
) -> Result<(), AllocError>
    requires sized { AreSized made.old.items }
    requires few { length loose.old.items ≤ 256 }
    ensures runs { OnOk result (runs_of_chunks made.new.items ++ loose.new.items
        ≡ runs_of_chunks made.old.items ++ loose.old.items) }
    ensures sized { AreSized made.new.items }
    ensures few { length loose.new.items ≤ 256 }
{
    if !loose.is_empty() && loose.len() < FEW && !made.is_empty() {
        take_back(alloc, made, loose)?;
    }
    Ok(())
}

// takes the runs of the last chunk out, to the front of the loose ones
fn take_back(
    alloc: Global,
    made: &mut Vec<Chunk>,
    loose: &mut Vec<SharedRun>,
) -> Result<(), AllocError>
    requires some { 0 < length made.old.items }
    requires sized { AreSized made.old.items }
    requires few { length loose.old.items < 32 }
    ensures runs { OnOk result (runs_of_chunks made.new.items ++ loose.new.items
        ≡ runs_of_chunks made.old.items ++ loose.old.items) }
    ensures sized { AreSized made.new.items }
    ensures some { OnOk result (0 < length loose.new.items) }
    ensures few { length loose.new.items ≤ 256 }
{
    let last = match made.pop() {
        Some(last) => last,
        None => unreachable!(),
    };
    let mut runs = share_all(alloc, last.runs())?;
    runs.append(loose)?;
    *loose = runs;
    Ok(())
}

// has place for so many more loose runs
fn make_room(
    alloc: Global,
    made: &mut Vec<Chunk>,
    loose: &mut Vec<SharedRun>,
    more: usize,
) -> Result<(), AllocError>
    requires bound { length (units_of_runs (runs_of_chunks made.old.items ++ loose.old.items)) < 2 ^ 64 }
    requires sized { AreSized made.old.items }
    requires few { length loose.old.items ≤ 256 }
    requires more { more ≤ 128 }
    ensures runs { OnOk result (runs_of_chunks made.new.items ++ loose.new.items
        ≡ runs_of_chunks made.old.items ++ loose.old.items) }
    ensures sized { AreSized made.new.items }
    ensures room { OnOk result (length loose.new.items + more ≤ 256) }
    ensures few { length loose.new.items ≤ 256 }
{
    if loose.len() + more > 2 * MOST {
        close_front(alloc, made, loose)?;
    }
    Ok(())
}

// makes chunks of the loose runs
fn close(alloc: Global, made: &mut Vec<Chunk>, loose: &mut Vec<SharedRun>) -> Result<(), AllocError>
    requires bound { length (units_of_runs (runs_of_chunks made.old.items ++ loose.old.items)) < 2 ^ 64 }
    requires sized { AreSized made.old.items }
    requires few { length loose.old.items ≤ 256 }
    ensures runs { OnOk result (runs_of_chunks made.new.items ≡ runs_of_chunks made.old.items ++ loose.old.items) }
    ensures sized { AreSized made.new.items }
    ensures none { OnOk result (loose.new.items ≡ []) }
    ensures few { length loose.new.items ≤ 256 }
{
    make_room(alloc, made, loose, MOST)?;
    if !loose.is_empty() {
        let runs = mem::replace(loose, Vec::new(alloc));
        made.push(Chunk::new(alloc, runs)?)?;
    }
    Ok(())
}

// makes a chunk of the front half of more than 128 loose runs
fn close_front(
    alloc: Global,
    made: &mut Vec<Chunk>,
    loose: &mut Vec<SharedRun>,
) -> Result<(), AllocError>
    requires bound { length (units_of_runs (runs_of_chunks made.old.items ++ loose.old.items)) < 2 ^ 64 }
    requires sized { AreSized made.old.items }
    requires many { 128 < length loose.old.items }
    requires few { length loose.old.items ≤ 256 }
    ensures runs { OnOk result (runs_of_chunks made.new.items ++ loose.new.items
        ≡ runs_of_chunks made.old.items ++ loose.old.items) }
    ensures sized { AreSized made.new.items }
    ensures some { OnOk result (0 < length loose.new.items) }
    ensures few { length loose.new.items ≤ 256 }
    ensures half { OnOk result (length loose.new.items ≤ 128) }
{
    let back = split_half(alloc, loose)?;
    let front = mem::replace(loose, back);
    made.push(Chunk::new(alloc, front)?)?;
    Ok(())
}

// takes the back half of runs out
fn split_half(alloc: Global, runs: &mut Vec<SharedRun>) -> Result<Vec<SharedRun>, AllocError>
    requires many { 128 < length runs.old.items }
    requires few { length runs.old.items ≤ 256 }
    ensures parts { IfOk result (λ back. runs.new.items ++ back.items ≡ runs.old.items) }
    ensures front { OnOk result (IsChunk runs.new.items) }
    ensures back { IfOk result (λ back. IsChunk back.items) }
    ensures few { length runs.new.items ≤ 256 }
{
    let half = runs.len() / 2;
    let mut back = Vec::with_capacity(alloc, runs.len() - half)?;
    for _ in half..runs.len() {
        match runs.pop() {
            Some(run) => back.push(run)?,
            None => unreachable!(),
        }
    }
    back.reverse();
    Ok(back)
}

/// Puts one more owner of each of these chunks at the end.
pub fn extend_made(made: &mut Vec<Chunk>, chunks: &[Chunk]) -> Result<(), AllocError>
    ensures items { OnOk result (made.new.items ≡ made.old.items ++ chunks.now) }
    ensures sized { AreSized made.old.items → AreSized chunks.now → AreSized made.new.items }
{
    for chunk in chunks {
        made.push(chunk.share()?)?;
    }
    Ok(())
}
