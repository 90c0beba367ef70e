//! A walk over the units of runs, piece by piece.
ghost use Rattle.std.specs.Prelude.{◌≡◌, ◌-◌, ◌^◌, min, ◌≤◌, ◌<◌, ◌++◌, length, IfOk, IfSome, OnOk, OnErr, None, IsOkUnless, take};
ghost use Rattle.document.specs.Pairs.{IsWithinPair};
ghost use Rattle.document.specs.Chunks.{units_of_chunks, AreChunks};
ghost use Rattle.document.specs.Weight.{weight_of};
ghost use Rattle.document.specs.steps.Passes.{IsSteppedOver};
ghost use Rattle.document.specs.Pieces.{piece_units, begun_units, IsPiece, IsBegun};
ghost use Rattle.document.specs.Runs.{units_of_runs, AreRuns, IsRun};

use crate::chunk::Chunk;
use crate::run::Piece;
use crate::shared::SharedRun;
use crate::walk::skip;
use crate::weights::{chunks_weight, runs_weight};
use std::marker::Model;
use utf16::{Cut, split_counted};

/// A place in a document, seen as the units from there on. It is what is left of a run, the runs after it in its chunk, and the
/// chunks after that.
#[derive(Drop)]
pub struct Cursor<'a> {
    begun: Option<Piece<'a>>,
    runs: &'a [SharedRun],
    chunks: &'a [Chunk],
}

impl<'a> Model for Cursor<'a> {
    ghost use Rattle.std.specs.Prelude.{◌++◌, ◌≤◌, length, List};
    ghost use Rattle.std.specs.Coded.{coded_list};
    ghost use Rattle.delta.specs.Element.{Element};
    ghost use Rattle.delta.specs.ElementCode.{element_code};
    ghost use Rattle.document.specs.Pieces.{begun_units, IsBegun};
    ghost use Rattle.document.specs.Chunks.{units_of_chunks, AreChunks};
    ghost use Rattle.document.specs.Runs.{units_of_runs, AreRuns};

    ghost Value = { List Element };

    ghost coded = { coded_list element_code };

    ghost view = { λ c. begun_units c.begun ++ (units_of_runs c.runs.now ++ units_of_chunks c.chunks.now) };

    ghost invariant = { λ c. IsBegun c.begun × AreRuns c.runs.now × (length c.runs.now ≤ 128)
        × AreChunks c.chunks.now };
}

impl<'a> Cursor<'a> {
    /// The start of the chunks.
    pub(crate) fn new(chunks: &'a [Chunk]) -> Self
        requires { AreChunks chunks.now }
        ensures { result ≡ units_of_chunks chunks.now }
    {
        Cursor {
            begun: None,
            runs: &[],
            chunks,
        }
    }

    /// The same place once more, from where another walk continues. It takes no memory.
    pub fn again(&self) -> Self
        ensures { result ≡ self.now }
    {
        Cursor {
            begun: self.begun,
            runs: self.runs,
            chunks: self.chunks,
        }
    }

    /// Steps over so many code units, and looks into none of the chunks and runs that these have as a whole; refused where that would
    /// part a pair, and then the cursor may have moved.
    pub fn skip(&mut self, len: u64) -> Result<(), Cut>
        requires { len ≤ length self.old }
        ensures passed { OnOk result (IsSteppedOver self.old self.new len) }
        ensures parted { OnErr result (IsWithinPair self.old len) }
        ensures only { IsOkUnless result Cut.InPair }
    {
        skip(self, len)?;
        Ok(())
    }

    /// The next piece, of at most so many code units, a run or a part of one, and steps over it; refused where that would part a
    /// pair.
    pub fn next(&mut self, most: u64) -> Result<Piece<'a>, Cut>
        requires some { 0 < most }
        requires there { most ≤ length self.old }
        ensures parts { IfOk result (λ p. piece_units p ++ self.new ≡ self.old) }
        ensures piece { IfOk result (λ p. IsPiece p) }
        ensures most { IfOk result (λ p. length (piece_units p) ≤ most) }
        ensures parted { OnErr result (IsWithinPair self.old most) }
        ensures only { IsOkUnless result Cut.InPair }
    {
        let (whole, runs, chunks) = first(self.begun, self.runs, self.chunks);
        let (piece, left) = cut(whole, most)?;
        self.begun = left;
        self.runs = runs;
        self.chunks = chunks;
        Ok(piece)
    }

    /// The next run, and steps over it, where it stands there as a whole and has at most so many code units.
    pub(crate) fn next_run(&mut self, most: u64) -> Option<&'a SharedRun>
        ensures parts { IfSome result (λ run. run.now ++ self.new ≡ self.old) }
        ensures run { IfSome result (λ run. IsRun run.now) }
        ensures most { IfSome result (λ run. length run.now ≤ most) }
        ensures none { (result ≡ None) → (self.new ≡ self.old) }
    {
        if self.begun.is_some() {
            return None;
        }
        let (runs, chunks) = entered(self.runs, self.chunks);
        if runs.is_empty() {
            return None;
        }
        let run = &runs[0];
        if run.units() > most {
            return None;
        }
        self.runs = &runs[1..];
        self.chunks = chunks;
        Some(run)
    }

    /// The runs up to the chunk's end that stand there as a whole and have at most so many code units together, with that number,
    /// and steps over them.
    pub(crate) fn next_runs(&mut self, most: u64) -> (&'a [SharedRun], u64)
        ensures parts { units_of_runs result.0.now ++ self.new ≡ self.old }
        ensures runs { AreRuns result.0.now }
        ensures few { length result.0.now ≤ 128 }
        ensures units { result.1 ≡ length (units_of_runs result.0.now) }
        ensures none { (result.1 ≡ 0) → (self.new ≡ self.old) }
        ensures most { result.1 ≤ most }
    {
        if self.begun.is_some() {
            return (&[], 0);
        }
        let (runs, chunks) = entered(self.runs, self.chunks);
        let (count, units) = whole_runs(runs, most);
        let (front, back) = runs.split_at(count);
        self.runs = back;
        self.chunks = chunks;
        (front, units)
    }

    /// The chunks that stand there as a whole and have at most so many code units together, with that number, and steps over them.
    pub(crate) fn next_chunks(&mut self, most: u64) -> (&'a [Chunk], u64)
        ensures parts { units_of_chunks result.0.now ++ self.new ≡ self.old }
        ensures chunks { AreChunks result.0.now }
        ensures units { result.1 ≡ length (units_of_chunks result.0.now) }
        ensures none { (result.1 ≡ 0) → (self.new ≡ self.old) }
        ensures most { result.1 ≤ most }
    {
        if self.begun.is_some() || !self.runs.is_empty() {
            return (&[], 0);
        }
        let (count, units) = whole_chunks(self.chunks, most);
        let (front, back) = self.chunks.split_at(count);
        self.chunks = back;
        (front, units)
    }

    /// How many bytes are left of a text that is begun; 0 where none is.
    pub(crate) fn bytes_begun(&self) -> usize {
        match self.begun {
            Some(Piece::Text(text, _, _)) => text.len(),
            Some(Piece::Embed(_, _, _)) => 0,
            None => 0,
        }
    }

    /// The weight of the units from there on, and 2^64 - 1 where that is more.
    pub fn weight(&self) -> u64
        ensures { result ≡ min (weight_of self.now) (2 ^ 64 - 1) }
    {
        let begun = match self.begun {
            Some(piece) => piece.weight(),
            None => 0,
        };
        begun
            .saturating_add(runs_weight(self.runs))
            .saturating_add(chunks_weight(self.chunks))
    }
}

// what is left of the run begun, or the next run, and the runs and chunks after it
fn first<'a>(
    begun: Option<Piece<'a>>,
    runs: &'a [SharedRun],
    chunks: &'a [Chunk],
) -> (Piece<'a>, &'a [SharedRun], &'a [Chunk])
    requires some { 0 < length (begun_units begun ++ (units_of_runs runs.now ++ units_of_chunks chunks.now)) }
    requires begun { IsBegun begun }
    requires runs { AreRuns runs.now }
    requires few { length runs.now ≤ 128 }
    requires chunks { AreChunks chunks.now }
    ensures parts { piece_units result.0 ++ (units_of_runs result.1.now ++ units_of_chunks result.2.now)
        ≡ begun_units begun.entry ++ (units_of_runs runs.now ++ units_of_chunks chunks.now) }
    ensures piece { IsPiece result.0 }
    ensures runs { AreRuns result.1.now }
    ensures few { length result.1.now ≤ 128 }
    ensures chunks { AreChunks result.2.now }
{
    match begun {
        Some(piece) => (piece, runs, chunks),
        None => {
            let (runs, chunks) = entered(runs, chunks);
            (runs[0].piece(), &runs[1..], chunks)
        }
    }
}

// the same place, within a chunk where there is one
fn entered<'a>(runs: &'a [SharedRun], chunks: &'a [Chunk]) -> (&'a [SharedRun], &'a [Chunk])
    requires runs { AreRuns runs.now }
    requires few { length runs.now ≤ 128 }
    requires chunks { AreChunks chunks.now }
    ensures same { units_of_runs result.0.now ++ units_of_chunks result.1.now
        ≡ units_of_runs runs.now ++ units_of_chunks chunks.now }
    ensures some { 0 < length (units_of_runs runs.now ++ units_of_chunks chunks.now) → 0 < length result.0.now }
    ensures runs { AreRuns result.0.now }
    ensures few { length result.0.now ≤ 128 }
    ensures chunks { AreChunks result.1.now }
{
    if runs.is_empty() && !chunks.is_empty() {
        return (chunks[0].runs(), &chunks[1..]);
    }
    (runs, chunks)
}

// how many runs have at most so many code units together, and how many that is
fn whole_runs(runs: &[SharedRun], most: u64) -> (usize, u64)
    ensures within { result.0 ≤ length runs.now }
    ensures units { result.1 ≡ length (units_of_runs (take result.0 runs.now)) }
    ensures most { result.1 ≤ most }
{
    let mut units: u64 = 0;
    for (count, run) in runs.iter().enumerate() {
        if run.units() > most - units {
            return (count, units);
        }
        units += run.units();
    }
    (runs.len(), units)
}

// how many chunks have at most so many code units together, and how many that is
fn whole_chunks(chunks: &[Chunk], most: u64) -> (usize, u64)
    ensures within { result.0 ≤ length chunks.now }
    ensures units { result.1 ≡ length (units_of_chunks (take result.0 chunks.now)) }
    ensures most { result.1 ≤ most }
{
    let mut units: u64 = 0;
    for (count, chunk) in chunks.iter().enumerate() {
        if chunk.len16() > most - units {
            return (count, units);
        }
        units += chunk.len16();
    }
    (chunks.len(), units)
}

// parts a piece after at most so many code units
fn cut<'a>(piece: Piece<'a>, most: u64) -> Result<(Piece<'a>, Option<Piece<'a>>), Cut>
    requires piece { IsPiece piece }
    requires some { 0 < most }
    ensures parts { IfOk result (λ p. piece_units p.0 ++ begun_units p.1 ≡ piece_units piece.entry) }
    ensures front { IfOk result (λ p. IsPiece p.0) }
    ensures back { IfOk result (λ p. IsBegun p.1) }
    ensures most { IfOk result (λ p. length (piece_units p.0) ≤ most) }
    ensures parted { OnErr result (IsWithinPair (piece_units piece.entry) most) }
    ensures only { IsOkUnless result Cut.InPair }
{
    match piece {
        Piece::Text(text, units, attrs) => {
            if units <= most {
                return Ok((piece, None));
            }
            let (front, back) = split_counted(text, units, most)?;
            let left = Piece::Text(back, units - most, attrs);
            Ok((Piece::Text(front, most, attrs), Some(left)))
        }
        Piece::Embed(_, _, _) => Ok((piece, None)),
    }
}
