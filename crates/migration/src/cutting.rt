//! A document as a store of the second format begins with it.
ghost use Rattle.std.specs.Prelude.{◌≤◌, ◌<◌, ◌^◌, ℕ, IfOk};
ghost use Rattle.revision.specs.Pending.{record_of};
ghost use Rattle.revision.specs.State.{Limits};
ghost use Rattle.revision.specs.Invariants.{IsState, IsPast};
ghost use Rattle.milestone.specs.CellSpelling.{IsCell};
ghost use Rattle.migration.specs.Migrated.{IsCutTo, AreCut, AreSpelled};

use milestone::Milestone;
use revision::{DocState, State};
use std::alloc::{AllocError, Global};

/// The documents of a state at their newest revisions, live or deleted, each source with its last number alone.
pub(crate) fn cut_all(alloc: Global, state: &State) -> Result<Vec<Milestone>, AllocError>
    requires { state.now.limits.weight < 2 ^ 30 }
    ensures cut { IfOk result (λ start. AreCut state.now start.items) }
    ensures spelled { IfOk result (λ start. AreSpelled start.items) }
    ensures state { IsState state.now }
{
    state.facts();
    let documents = state.documents();
    let mut start = Vec::with_capacity(alloc, documents.len())?;
    for document in documents {
        start.push(cut_document(alloc, document)?)?;
    }
    Ok(start)
}

fn cut_document(alloc: Global, document: &DocState) -> Result<Milestone, AllocError>
    requires { (limits : Limits) × IsPast limits (record_of document.now).past × (limits.weight < 2 ^ 30)
        × (limits.sources ≤ 4096) }
    ensures cut { IfOk result (λ cell. IsCutTo (record_of document.now) cell) }
    ensures spelled { IfOk result (λ cell. (number : ℕ) → number < 2 ^ 32 → IsCell number cell) }
{
    let name = document.name().copy(alloc)?;
    let content = document.document().copy(alloc)?;
    let sources = document.sources().with_last_numbers(alloc)?;
    let cut = Milestone::new(
        name,
        document.revision(),
        content,
        document.is_live(),
        sources,
    );
    match cut.content(alloc) {
        Ok(_) => Ok(cut),
        Err(refusal) => Err(refusal.as_alloc_error()),
    }
}
