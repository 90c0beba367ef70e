//! A document as a store of other numbers begins with it.
ghost use Rattle.std.specs.Prelude.{◌≡◌, ◌≤◌, ◌<◌, ◌^◌, ℕ, IfOk};
ghost use Rattle.revision.specs.Pending.{record_of};
ghost use Rattle.revision.specs.State.{Limits};
ghost use Rattle.revision.specs.Invariants.{IsState, IsPast};
ghost use Rattle.milestone.specs.CellSpelling.{IsCell};
ghost use Rattle.recovery.specs.Open.{newest_cell};
ghost use Rattle.migration.specs.Migrated.{AreSpelled};
ghost use Rattle.migration.specs.Copied.{AreCopied};

use milestone::Milestone;
use revision::{DocState, State};
use std::alloc::{AllocError, Global};

/// The documents of a state at their newest revisions, live or deleted, each source with its whole window.
pub(crate) fn copy_all(alloc: Global, state: &State) -> Result<Vec<Milestone>, AllocError>
    requires { state.now.limits.weight < 2 ^ 30 }
    ensures copied { IfOk result (λ start. AreCopied state.now start.items) }
    ensures spelled { IfOk result (λ start. AreSpelled start.items) }
    ensures state { IsState state.now }
{
    state.facts();
    let documents = state.documents();
    let mut start = Vec::with_capacity(alloc, documents.len())?;
    for document in documents {
        start.push(copy_document(alloc, document)?)?;
    }
    Ok(start)
}

fn copy_document(alloc: Global, document: &DocState) -> Result<Milestone, AllocError>
    requires { (limits : Limits) × IsPast limits (record_of document.now).past × (limits.weight < 2 ^ 30)
        × (limits.sources ≤ 4096) }
    ensures copied { IfOk result (λ cell. cell ≡ newest_cell (record_of document.now)) }
    ensures spelled { IfOk result (λ cell. (number : ℕ) → number < 2 ^ 32 → IsCell number cell) }
{
    let name = document.name().copy(alloc)?;
    let content = document.document().copy(alloc)?;
    let sources = document.sources().copy(alloc)?;
    let copy = Milestone::new(
        name,
        document.revision(),
        content,
        document.is_live(),
        sources,
    );
    match copy.content(alloc) {
        Ok(_) => Ok(copy),
        Err(refusal) => Err(refusal.as_alloc_error()),
    }
}
