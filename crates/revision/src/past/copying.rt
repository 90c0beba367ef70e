//! A past, a document and a state are copied, whole or from some revisions on.
ghost use Rattle.std.specs.Prelude.{◌≡◌, [], get_or, IfOk, ◌+◌, ◌<◌, ◌++◌, ◌-◌, OnOk};
ghost use Rattle.revision.specs.Floors.{raised_each};

use super::Past;
use super::doc_state::DocState;
use super::documents::Documents;
use super::kept_document::Kept;
use super::sources::Sources;
use super::state::State;
use crate::rule::Taker;
use delta::Delta;
use std::alloc::{AllocError, Global};

impl Past {
    /// An equal past with nothing prepared. Refused as out of memory alone.
    pub fn copy_held(&self, alloc: Global) -> Result<Past, AllocError>
        ensures same { IfOk result (λ copy. copy ≡ record { past = self.now.past; next = [] }) }
    {
        let document = self.document.copy(alloc)?;
        let sources = self.sources.copy(alloc)?;
        let takers = copies_of_takers(alloc, &self.takers.as_slice()[..self.count])?;
        let deltas = copies_of_deltas(alloc, &self.deltas.as_slice()[..self.count])?;
        let kept = copies_of_kept(alloc, self.kept.as_slice())?;
        Ok(Past {
            start: self.start,
            floor: self.floor,
            document,
            sources,
            takers,
            deltas,
            count: self.count,
            kept,
            live: self.live,
            stale: self.stale,
        })
    }
}

// equal takers, or `NoMemory`
fn copies_of_takers(alloc: Global, takers: &[Taker]) -> Result<Vec<Taker>, AllocError>
    ensures same { IfOk result (λ copies. copies.items ≡ takers.now) }
{
    let mut copies = Vec::with_capacity(alloc, takers.len())?;
    for taker in takers {
        copies.push(copy_of_taker(alloc, taker)?)?;
    }
    Ok(copies)
}

// an equal taker, or `NoMemory`
fn copy_of_taker(alloc: Global, taker: &Taker) -> Result<Taker, AllocError>
    ensures same { IfOk result (λ copy. copy ≡ taker.now) }
{
    Ok(Taker {
        source: taker.source.copy(alloc)?,
        number: taker.number,
        step: taker.step,
    })
}

// equal documents at the same revisions, or `NoMemory`
fn copies_of_kept(alloc: Global, kept: &[Kept]) -> Result<Vec<Kept>, AllocError>
    ensures same { IfOk result (λ copies. copies.items ≡ kept.now) }
{
    let mut copies = Vec::with_capacity(alloc, kept.len())?;
    for one in kept {
        copies.push(copy_of_kept(alloc, one)?)?;
    }
    Ok(copies)
}

// an equal document at the same revision, with equal sources, or `NoMemory`
fn copy_of_kept(alloc: Global, one: &Kept) -> Result<Kept, AllocError>
    ensures same { IfOk result (λ copy. copy ≡ one.now) }
{
    Ok(Kept {
        revision: one.revision,
        document: one.document.copy(alloc)?,
        sources: copy_of_sources(alloc, &one.sources)?,
    })
}

// equal sources where there are some, or `NoMemory`
fn copy_of_sources(alloc: Global, sources: &Option<Sources>) -> Result<Option<Sources>, AllocError>
    ensures same { IfOk result (λ copy. copy ≡ sources.now) }
{
    match sources {
        Some(sources) => Ok(Some(sources.copy(alloc)?)),
        None => Ok(None),
    }
}

// equal deltas, or `NoMemory`
pub(crate) fn copies_of_deltas(alloc: Global, deltas: &[Delta]) -> Result<Vec<Delta>, AllocError>
    ensures same { IfOk result (λ copies. copies.items ≡ deltas.now) }
{
    let mut copies = Vec::with_capacity(alloc, deltas.len())?;
    push_copies(alloc, &mut copies, deltas)?;
    Ok(copies)
}

// Adds copies of these. Refused as out of memory alone.
fn push_copies(alloc: Global, all: &mut Vec<Delta>, deltas: &[Delta]) -> Result<(), AllocError>
    ensures ok { OnOk result (all.new.items ≡ all.old.items ++ deltas.now) }
{
    for delta in deltas {
        all.push(delta.copy(alloc)?)?;
    }
    Ok(())
}

impl DocState {
    /// An equal document with nothing prepared, as is true of each document of a state. Refused as out of memory alone.
    #[tactic(auto, using(crate::proofs::Raising::raised_none))]
    pub fn copy(&self, alloc: Global) -> Result<DocState, AllocError>
        ensures same { IfOk result (λ copy. copy
            ≡ record { name = self.now.name; past = record { past = self.now.past.past; next = [] } }) }
    {
        self.copy_from(alloc, 0)
    }
}

impl State {
    /// An equal state. Refused as out of memory alone.
    pub fn copy(&self, alloc: Global) -> Result<State, AllocError>
        ensures same { IfOk result (λ copy. copy ≡ self.now) }
    {
        self.copy_from(alloc, &[])
    }

    /// The same documents, each held from the revision on that stands at its number in `floors`: from its own floor on where that
    /// is higher or none stands there, and from its newest revision on where that is lower. Refused as out of memory alone.
    pub fn copy_from(&self, alloc: Global, floors: &[u64]) -> Result<State, AllocError>
        ensures same { IfOk result (λ copy. copy
            ≡ record self.now { documents = raised_each floors.now self.now.documents }) }
    {
        let mut copy = Documents::new(alloc, self.limits());
        let documents = self.documents();
        for number in 0..documents.len() {
            let floor = floor_at(floors, number);
            copy.adopt(alloc, documents[number].copy_from(alloc, floor)?)?;
        }
        copy.accept();
        Ok(State { documents: copy })
    }
}

// the floor that stands at a number, 0 where none does
fn floor_at(floors: &[u64], number: usize) -> u64
    ensures { result ≡ get_or floors.now number 0 }
{
    match floors.get(number) {
        Some(floor) => *floor,
        None => 0,
    }
}
