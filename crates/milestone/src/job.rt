//! What a milestone is made of.
ghost use Rattle.std.specs.Prelude.{◌≡◌, ◌≤◌, ◌↔◌, true, [], IsTrue, IfOk};
ghost use Rattle.delta.specs.Operation.{base_of};
ghost use Rattle.delta.specs.Gaps.{counted, apply};
ghost use Rattle.compose.specs.Many.{applied};
ghost use Rattle.revision.specs.Past.{StandInTurn, is_content};
ghost use Rattle.revision.specs.State.{last_of_all, are_sources};
ghost use Rattle.milestone.specs.Job.{KeepLengths, IsJob};

use delta::Delta;
use revision::{Name, Sources};
use std::alloc::{AllocError, Global};
use std::marker::Model;

/// What a milestone is made of: what stood in a document at some revision, as the inserts that make it, the deltas in turn that lead from
/// there to a later one, and the document's mark, live or deleted, and its sources there. It stands apart from the store, so that the
/// deltas can be composed in another thread.
#[derive(Drop)]
pub struct Job {
    document: u32,
    name: Name,
    revision: u64,
    base: Delta,
    deltas: Vec<Delta>,
    live: bool,
    sources: Sources,
}

impl Model for Job {
    ghost use Rattle.milestone.specs.Job as spec;

    ghost Value = { spec.Job };

    ghost coded = { spec.job_code };

    ghost use Rattle.milestone.specs.JobView.{job_of};

    ghost view = { job_of };

    ghost invariant = { λ j. spec.IsJob (job_of j) };
}

impl Job {
    /// A job for the document of this number, counted from 0 in order of creation, at a revision of 1 to 2^53 - 1. The base only inserts.
    /// Each delta is accepted by the document that those before it make of what the base makes of the empty one, the base lengths and the
    /// output lengths of all sum to at most 2^48, they make nothing where the document is deleted, and the sources have numbers of 1 to
    /// 2^53 - 1 and revisions of 1 to this one. It takes no memory.
    pub fn new(
        document: u32,
        name: Name,
        revision: u64,
        base: Delta,
        deltas: Vec<Delta>,
        live: bool,
        sources: Sources,
    ) -> Job
        requires inserts { base_of base ≡ 0 }
        requires stand { StandInTurn (apply [] (counted base)) deltas.items }
        requires lengths { KeepLengths base deltas.items }
        requires content { is_content (record { units = applied (apply [] (counted base)) deltas.items; live = live }) ≡ true }
        requires first { 1 ≤ revision }
        requires last { revision ≤ last_of_all }
        requires sources { are_sources revision sources.entries ≡ true }
        ensures { result
            ≡ record {
              document = document;
              name = name;
              revision = revision;
              base = base;
              deltas = deltas.items;
              live = live;
              sources =
                  sources;
            } }
    {
        name.facts();
        sources.facts();
        Job {
            document,
            name,
            revision,
            base,
            deltas,
            live,
            sources,
        }
    }

    /// The document's number in order of creation.
    pub fn document_number(&self) -> u32
        ensures { result ≡ self.now.document }
    {
        self.document
    }

    /// The document's name.
    pub fn name(&self) -> &Name
        ensures { result.now ≡ self.now.name }
    {
        &self.name
    }

    /// The revision of the milestone that comes of it, 1 to 2^53 - 1.
    pub fn revision(&self) -> u64
        ensures revision { result ≡ self.now.revision }
        ensures job { IsJob self.now }
    {
        self.revision
    }

    /// What each job keeps, for the prover. It does nothing.
    pub fn facts(&self)
        ensures job { IsJob self.now }
    {
        let _ = &self.sources;
    }

    /// The inserts that make what the first delta stands on.
    pub fn base(&self) -> &Delta
        ensures base { result.now ≡ self.now.base }
        ensures job { IsJob self.now }
    {
        &self.base
    }

    /// The deltas that lead from there to the revision.
    pub fn deltas(&self) -> &[Delta]
        ensures deltas { result.now ≡ self.now.deltas }
        ensures job { IsJob self.now }
    {
        self.deltas.as_slice()
    }

    /// Whether the document is live at the revision; else it is deleted.
    pub fn is_live(&self) -> bool
        ensures live { result ≡ self.now.live }
        ensures job { IsJob self.now }
    {
        self.live
    }

    /// The document's sources at the revision.
    pub fn sources(&self) -> &Sources
        ensures { result.now ≡ self.now.sources }
    {
        &self.sources
    }

    /// An equal job. Refused as out of memory alone.
    pub fn copy(&self, alloc: Global) -> Result<Job, AllocError>
        ensures same { IfOk result (λ job. job ≡ self.now) }
    {
        Ok(Job {
            document: self.document,
            name: self.name.copy(alloc)?,
            revision: self.revision,
            base: self.base.copy(alloc)?,
            deltas: copies(alloc, self.deltas())?,
            live: self.live,
            sources: self.sources.copy(alloc)?,
        })
    }

    /// Whether the two are equal in all that they have. Linear in the deltas, and it takes no memory.
    pub fn is_same(&self, other: &Job) -> bool
        ensures { IsTrue result ↔ (self.now ≡ other.now) }
    {
        if self.document_number() != other.document_number() {
            return false;
        }
        if self.revision() != other.revision() {
            return false;
        }
        if self.is_live() != other.is_live() {
            return false;
        }
        if !same_name(self.name(), other.name()) {
            return false;
        }
        if !same_sources(self.sources(), other.sources()) {
            return false;
        }
        if !same_delta(self.base(), other.base()) {
            return false;
        }
        same_deltas(self.deltas(), other.deltas())
    }
}

// whether two names are equal
fn same_name(one: &Name, other: &Name) -> bool
    ensures { IsTrue result ↔ (one.now ≡ other.now) }
{
    one == other
}

// whether two have the same sources with the same
fn same_sources(one: &Sources, other: &Sources) -> bool
    ensures { IsTrue result ↔ (one.now ≡ other.now) }
{
    one == other
}

// whether two deltas are equal
fn same_delta(one: &Delta, other: &Delta) -> bool
    ensures { IsTrue result ↔ (one.now ≡ other.now) }
{
    one == other
}

/// Whether they are the same deltas in the same order.
pub(crate) fn same_deltas(one: &[Delta], other: &[Delta]) -> bool
    ensures { IsTrue result ↔ (one.now ≡ other.now) }
{
    one == other
}

/// Equal deltas. Refused as out of memory alone.
pub(crate) fn copies(alloc: Global, deltas: &[Delta]) -> Result<Vec<Delta>, AllocError>
    ensures same { IfOk result (λ copies. copies.items ≡ deltas.now) }
{
    let mut copies = Vec::new(alloc);
    for delta in deltas {
        copies.push(delta.copy(alloc)?)?;
    }
    Ok(copies)
}
