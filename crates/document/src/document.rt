//! Documents.
ghost use Rattle.std.specs.Prelude.{◌≡◌, ◌⊎◌, ◌+◌, ◌≤◌, ◌<◌, ◌^◌, ◌↔◌, ◌-◌, min, [], ◌++◌, length, IfOk, IfErr, OnOk, OnErr, MatchBool};
ghost use Rattle.document.specs.Pairs.{IsWellFormed};
ghost use Rattle.delta.specs.Gaps.{counted, apply, End};
ghost use Rattle.delta.specs.Normal.{nf};
ghost use Rattle.document.specs.Weight.{weight_of};
ghost use Rattle.document.specs.steps.Passes.{StopsInPair};
ghost use Rattle.document.specs.Chunks.{units_of_chunks, AreChunks};
ghost use Rattle.document.specs.Runs.{units_of_runs, AreRuns};
ghost use Rattle.utf16.specs.Units.{units_of};
ghost use Rattle.delta.specs.Element.{letters};
ghost use Rattle.delta.specs.Operation.{base_of, out_of};
ghost use Rattle.delta.specs.Places.{IsDefined};
ghost use Rattle.document.specs.Places.{Cuts};
ghost use Rattle.document.specs.Making.{document_from};
ghost use Rattle.document.specs.Outcome.{IsAccepted, IsTooLong, IsRefused};

use crate::appending::text_behind;
use crate::applying::{built, parts_pair};
use crate::building::{ChunkBuilder, extend_made};
use crate::chunk::Chunk;
use crate::cursor::Cursor;
use crate::reweighing::weighed;
use crate::weights::{chunks_units, chunks_weight};
use attributes::Attrs;
use delta::{Builder, Delta, MAX_LEN};
use refusal::Refusal;
use std::alloc::{AllocError, Global};
use std::marker::Model;

/// A document of rich text, seen as its list of units: UTF-16 code units and embeds, each with attributes. It has at
/// most 2^48 units. It is kept as chunks of runs, which it shares with the documents that come of it.
#[derive(Drop)]
pub struct Document {
    chunks: Vec<Chunk>,
}

impl Model for Document {
    ghost use Rattle.std.specs.Prelude.{◌≤◌, ◌^◌, List, length};
    ghost use Rattle.std.specs.Coded.{coded_list};
    ghost use Rattle.delta.specs.Element.{Element};
    ghost use Rattle.delta.specs.ElementCode.{element_code};
    ghost use Rattle.document.specs.Chunks.{units_of_chunks, AreChunks};

    ghost Value = { List Element };

    ghost coded = { coded_list element_code };

    ghost view = { λ d. units_of_chunks d.chunks.items };

    ghost invariant = { λ d. (length (units_of_chunks d.chunks.items) ≤ 2 ^ 48) × AreChunks d.chunks.items };
}

impl Document {
    /// The document without a unit. It takes no memory.
    pub fn empty(alloc: Global) -> Self
        ensures { result ≡ [] }
    {
        Document {
            chunks: Vec::new(alloc),
        }
    }

    /// The document that a delta makes of the empty one. Refused as PastEnd exactly where the delta retains or deletes a unit,
    /// since the empty document has none, and as NoMemory. It takes the memory that `apply` takes.
    pub fn from_delta(alloc: Global, delta: &Delta) -> Result<Self, Refusal>
        ensures made { IfOk result (λ document. document ≡ document_from delta.now) }
        ensures past_end { (result ≡ Err Refusal.PastEnd) ↔ (0 < base_of delta.now) }
        ensures only { IfErr result (λ e. (e ≡ Refusal.PastEnd) ⊎ (e ≡ Refusal.NoMemory)) }
    {
        // its operations keep the bound
        delta.facts();
        let mut document = Document::empty(alloc);
        match document.apply(alloc, delta) {
            Ok(()) => Ok(document),
            Err(refusal) => Err(refusal),
        }
    }

    /// Its chunks. Each has 1 to 128 runs, and no run merges with the next one, across chunks too: no two neighbours among all
    /// runs are texts of equal attributes. The document without a unit has no chunk. It takes no memory.
    pub fn chunks(&self) -> &[Chunk]
        ensures units { units_of_chunks result.now ≡ self.now }
        ensures chunks { AreChunks result.now }
    {
        self.chunks.as_slice()
    }

    /// A walk over its units, from the start. It takes no memory.
    pub fn cursor(&self) -> Cursor<'_>
        ensures { result ≡ self.now }
    {
        Cursor::new(self.chunks.as_slice())
    }

    /// How many code units it has; an embed counts as one. Linear in the chunks.
    pub fn len16(&self) -> u64
        ensures len { result ≡ length self.now }
        ensures bounded { length self.now ≤ 2 ^ 48 }
        ensures well_formed { IsWellFormed self.now }
    {
        chunks_units(self.chunks.as_slice())
    }

    /// Its weight: 12 for each unit; for each attribute of each unit, and for each embed's value, 12, the bytes of its
    /// name and the bytes of a text value. 2^64 - 1 where it is more. Linear in the chunks.
    pub fn weight(&self) -> u64
        ensures { result ≡ min (weight_of self.now) (2 ^ 64 - 1) }
    {
        chunks_weight(self.chunks.as_slice())
    }

    /// What its weight would be after a delta: 2^64 - 1 where it would be more. Refused as PastEnd where the delta reaches past
    /// the end, else as CutsPair where it parts a surrogate pair. It makes no document and takes no memory. It goes over the chunks up
    /// to the last that the delta meets, by their lengths, looks into those in which an operation begins or ends, and weighs only
    /// the runs that it deletes from, changes or cuts; only a document that weighs 2^64 - 1 or more is weighed as a whole.
    pub fn weigh(&self, delta: &Delta) -> Result<u64, Refusal>
        ensures ok { IfOk result (λ weight. weight
            ≡ min (weight_of (apply self.now (counted delta.now))) (2 ^ 64 - 1)) }
        ensures past_end { (result ≡ Err Refusal.PastEnd) ↔ ¬ (IsDefined self.now (counted delta.now)) }
        ensures cuts { (result ≡ Err Refusal.CutsPair)
            ↔ (IsDefined self.now (counted delta.now) × Cuts self.now (counted delta.now)) }
        ensures only { IfErr result (λ e. (e ≡ Refusal.PastEnd) ⊎ (e ≡ Refusal.CutsPair)) }
    {
        self.fits(delta)?;
        Ok(weighed(self.chunks.as_slice(), self.weight(), delta.ops()))
    }

    /// An equal document, which shares its chunks with this one: no text or attribute is copied. Linear in the chunks. Refused as
    /// out of memory alone, which also comes where a chunk can have no more owners.
    pub fn copy(&self, alloc: Global) -> Result<Self, AllocError>
        ensures same { IfOk result (λ document. document ≡ self.now) }
    {
        let chunks = share_chunks(alloc, self.chunks.as_slice())?;
        Ok(Document { chunks })
    }

    /// The delta that makes it of the empty document, by inserts alone. Refused as out of memory alone.
    pub fn as_delta(&self, alloc: Global) -> Result<Delta, AllocError>
        ensures delta { IfOk result (λ delta. delta ≡ nf (End self.now)) }
        ensures inserts { IfOk result (λ delta. base_of delta ≡ 0) }
        ensures back { IfOk result (λ delta. apply [] (counted delta) ≡ self.now) }
    {
        let mut builder = Builder::new(alloc);
        let mut cursor = Cursor::new(self.chunks.as_slice());
        let mut left = self.len16();
        while left > 0 {
            let piece = match cursor.next(left) {
                Ok(piece) => piece,
                Err(_) => unreachable!(),
            };
            let op = piece.inserted(alloc)?;
            left -= piece.units();
            if let Err(refusal) = builder.push(op) {
                return Err(refusal.as_alloc_error());
            }
        }
        Ok(builder.finish())
    }

    /// Applies a delta. It is refused as PastEnd where the delta reaches past the end, else as CutsPair where it parts a
    /// surrogate pair, else as BadOps where the document would have more than 2^48 code units, and as NoMemory; the
    /// document is then unchanged. Linear in the chunks, the operations, the runs of the chunks in which an operation begins or ends,
    /// those that it changes, and the texts of the runs that it cuts or changes. The other chunks are shared with the document
    /// before, and so are the other runs; no text is copied more than once, and none of a run that it leaves whole. Where it only
    /// puts a text behind the whole document, no other text is copied.
    pub fn apply(&mut self, alloc: Global, delta: &Delta) -> Result<(), Refusal>
        ensures ok { OnOk result (self.new ≡ apply self.old (counted delta.now)) }
        ensures well_formed { OnOk result (IsWellFormed self.new) }
        ensures err { OnErr result (self.new ≡ self.old) }
        ensures past_end { (result ≡ Err Refusal.PastEnd) ↔ ¬ (IsDefined self.old (counted delta.now)) }
        ensures cuts { (result ≡ Err Refusal.CutsPair)
            ↔ (IsDefined self.old (counted delta.now) × Cuts self.old (counted delta.now)) }
        ensures bad { (result ≡ Err Refusal.BadOps) ↔ IsTooLong self.old (counted delta.now) }
        ensures only { IfErr result (IsRefused self.old (counted delta.now)) }
    {
        let behind = match self.behind(delta) {
            Ok(behind) => behind,
            Err(refused) => return Err(refused),
        };
        if behind == 0
            && let Some((text, units, attrs)) = text_behind(delta.ops())
        {
            self.append(alloc, delta, text, units, attrs)?;
            return Ok(());
        }
        self.remake(alloc, delta, behind)?;
        Ok(())
    }

    /// The document after a delta, beside this one, which stays. The refusals and the cost are those of `apply`.
    pub fn after(&self, alloc: Global, delta: &Delta) -> Result<Self, Refusal>
        ensures ok { IfOk result (λ after. after ≡ apply self.now (counted delta.now)) }
        ensures well_formed { IfOk result (λ after. IsWellFormed after) }
        ensures past_end { (result ≡ Err Refusal.PastEnd) ↔ ¬ (IsDefined self.now (counted delta.now)) }
        ensures cuts { (result ≡ Err Refusal.CutsPair)
            ↔ (IsDefined self.now (counted delta.now) × Cuts self.now (counted delta.now)) }
        ensures bad { (result ≡ Err Refusal.BadOps) ↔ IsTooLong self.now (counted delta.now) }
        ensures only { IfErr result (IsRefused self.now (counted delta.now)) }
    {
        let behind = match self.behind(delta) {
            Ok(behind) => behind,
            Err(refusal) => return Err(refusal),
        };
        match self.remade(alloc, delta, behind) {
            Ok(after) => Ok(after),
            Err(no_memory) => Err(no_memory.into()),
        }
    }

    // the document after a delta that is accepted and leaves so many code units behind it as they are
    fn remade(&self, alloc: Global, delta: &Delta, behind: u64) -> Result<Self, AllocError>
        requires accepted { IsAccepted self.now (counted delta.now) }
        requires behind { length self.now ≡ base_of delta.now + behind }
        ensures ok { IfOk result (λ after. after ≡ apply self.now (counted delta.now)) }
        ensures well_formed { IfOk result (λ after. IsWellFormed after) }
    {
        let made = self.built(alloc, delta, behind)?;
        let chunks = made.finish(alloc)?;
        Ok(Document::of_chunks(chunks))
    }

    // the runs of it
    fn built(&self, alloc: Global, delta: &Delta, behind: u64) -> Result<ChunkBuilder, AllocError>
        requires accepted { IsAccepted self.now (counted delta.now) }
        requires behind { length self.now ≡ base_of delta.now + behind }
        ensures units { IfOk result (λ made. units_of_runs made ≡ apply self.now (counted delta.now)) }
        ensures runs { IfOk result (λ made. AreRuns made) }
        ensures bound { IfOk result (λ made. length (units_of_runs made) ≤ 2 ^ 48) }
    {
        let made = built(alloc, self.chunks.as_slice(), delta.ops(), behind)?;
        Ok(made)
    }

    // applies a delta that is accepted and leaves so many code units behind it as they are. Where the document is one chunk before
    // and after it, the chunk is changed in place
    fn remake(&mut self, alloc: Global, delta: &Delta, behind: u64) -> Result<(), AllocError>
        requires accepted { IsAccepted self.old (counted delta.now) }
        requires behind { length self.old ≡ base_of delta.now + behind }
        ensures ok { OnOk result (self.new ≡ apply self.old (counted delta.now)) }
        ensures well_formed { OnOk result (IsWellFormed self.new) }
        ensures err { OnErr result (self.new ≡ self.old) }
    {
        if self.chunks.len() != 1 {
            *self = self.remade(alloc, delta, behind)?;
            return Ok(());
        }
        let made = self.built(alloc, delta, behind)?;
        match made.into_one() {
            Ok(runs) => {
                self.chunks[0].replace(alloc, runs)?;
                Ok(())
            }
            Err(made) => {
                let chunks = made.finish(alloc)?;
                *self = Document::of_chunks(chunks);
                Ok(())
            }
        }
    }

    // the document of chunks
    fn of_chunks(chunks: Vec<Chunk>) -> Self
        requires chunks { AreChunks chunks.items }
        requires bound { length (units_of_chunks chunks.items) ≤ 2 ^ 48 }
        ensures units { result ≡ units_of_chunks chunks.items }
        ensures well_formed { IsWellFormed result }
    {
        Document { chunks }
    }

    // applies a delta that puts a text behind the document and does nothing else
    fn append(
        &mut self,
        alloc: Global,
        delta: &Delta,
        text: &str,
        units: u64,
        attrs: &Attrs,
    ) -> Result<(), AllocError>
        requires counted { units ≡ length (units_of text.now) }
        requires accepted { IsAccepted self.old (counted delta.now) }
        requires behind { length self.old ≡ base_of delta.now }
        requires puts { apply self.old (counted delta.now) ≡ self.old ++ letters (units_of text.now) attrs.now }
        ensures ok { OnOk result (self.new ≡ apply self.old (counted delta.now)) }
        ensures well_formed { OnOk result (IsWellFormed self.new) }
        ensures err { OnErr result (self.new ≡ self.old) }
    {
        if self.merge_last(alloc, text, units, attrs)? {
            return Ok(());
        }
        self.remake(alloc, delta, 0)?;
        Ok(())
    }

    // puts a text behind the document, where its last run takes the text in, and says whether it does
    fn merge_last(
        &mut self,
        alloc: Global,
        text: &str,
        units: u64,
        attrs: &Attrs,
    ) -> Result<bool, AllocError>
        requires counted { units ≡ length (units_of text.now) }
        requires bound { length self.old + units ≤ 2 ^ 48 }
        ensures ok { IfOk result (λ yes. MatchBool yes (self.new ≡ self.old ++ letters (units_of text.now) attrs.now)
            (self.new ≡ self.old)) }
        ensures well_formed { OnOk result (IsWellFormed self.new) }
        ensures err { OnErr result (self.new ≡ self.old) }
    {
        let len = self.chunks.len();
        if len == 0 {
            return Ok(false);
        }
        let merged = self.chunks[len - 1].merge_last(alloc, text, units, attrs)?;
        Ok(merged)
    }

    // how many code units a delta leaves behind it as they are, where it may be applied
    fn behind(&self, delta: &Delta) -> Result<u64, Refusal>
        ensures accepted { OnOk result (IsAccepted self.now (counted delta.now)) }
        ensures behind { IfOk result (λ behind. length self.now ≡ base_of delta.now + behind) }
        ensures refused { IfErr result (IsRefused self.now (counted delta.now)) }
    {
        let len = self.fits(delta)?;
        let behind = len - delta.base_len();
        if behind + delta.out_len() > MAX_LEN {
            return Err(Refusal::BadOps);
        }
        Ok(behind)
    }

    /// How many code units the document has, where a delta is defined on it and cuts no pair. Refused as PastEnd where the delta
    /// reaches past the end, else as CutsPair where it parts a surrogate pair. It takes no memory. It goes over the chunks up to
    /// the last that the delta meets, and looks only into those in which an operation begins or ends.
    pub fn fits(&self, delta: &Delta) -> Result<u64, Refusal>
        ensures len { IfOk result (λ len. len ≡ length self.now) }
        ensures bounded { length self.now ≤ 2 ^ 48 }
        ensures out { out_of delta.now ≤ 2 ^ 48 }
        ensures there { OnOk result (base_of delta.now ≤ length self.now) }
        ensures defined { OnOk result (IsDefined self.now (counted delta.now)) }
        ensures whole { OnOk result (¬ (Cuts self.now (counted delta.now))) }
        ensures stops { OnOk result (¬ (StopsInPair self.now delta.now)) }
        ensures past_end { (result ≡ Err Refusal.PastEnd) ↔ ¬ (IsDefined self.now (counted delta.now)) }
        ensures cuts { (result ≡ Err Refusal.CutsPair)
            ↔ (IsDefined self.now (counted delta.now) × Cuts self.now (counted delta.now)) }
        ensures only { IfErr result (λ e. (e ≡ Refusal.PastEnd) ⊎ (e ≡ Refusal.CutsPair)) }
    {
        let ops = delta.ops();
        let len = self.len16();
        if delta.base_len() > len {
            return Err(Refusal::PastEnd);
        }
        if parts_pair(self.chunks.as_slice(), ops) {
            return Err(Refusal::CutsPair);
        }
        Ok(len)
    }
}

// one more owner of each chunk
fn share_chunks(alloc: Global, chunks: &[Chunk]) -> Result<Vec<Chunk>, AllocError>
    ensures same { IfOk result (λ shared. shared.items ≡ chunks.now) }
{
    let mut shared = Vec::with_capacity(alloc, chunks.len())?;
    extend_made(&mut shared, chunks)?;
    Ok(shared)
}
