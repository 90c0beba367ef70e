//! The documents of a store, as lines of what they hold.
ghost use Rattle.std.specs.Prelude.{◌≡◌, ◌⊎◌, ◌<◌, ◌^◌, true, OnOk, OnErr, IfOk, IfErr, IsErrOf};
ghost use Rattle.std.specs.String.{string_bytes};
ghost use Rattle.std.specs.Io.KnownBytes.{Appends};
ghost use Rattle.revision.specs.Invariants.{IsPast};
ghost use Rattle.revision.specs.Pending.{record_of};
ghost use Rattle.revision.specs.State.{revision_of};
ghost use Rattle.session.specs.Output.{AppendsFront};
ghost use Rattle.inspection.specs.Filled as spec;

use crate::failure::InspectionError;
use crate::weighing::weight_in;
use refusal::Refusal;
use revision::{DocState, Limits, State};
use session::Output;
use std::alloc::{AllocError, Global};

/// Writes one line for each document, in order of creation: name, revision, floor, `live` or `deleted`, its weight and what is left
/// of the limit, how many sources it has and how many more it may have. Ends where a write fails (`Stream`), or with `NoMemory`, and then
/// a prefix of the lines is written.
pub fn documents<O: Output>(
    alloc: Global,
    state: &State,
    output: &mut O,
) -> Result<(), InspectionError>
    ensures told { OnOk result (Appends (O.contents output.old) (O.contents output.new)
        (spec.lines_of state.now.limits state.now.documents)) }
    ensures only { IfErr result (λ e. (e ≡ InspectionError.Stream) ⊎ (e ≡ InspectionError.Refused Refusal.NoMemory)) }
    ensures front { OnErr result (AppendsFront (O.contents output.old) (O.contents output.new)
        (spec.lines_of state.now.limits state.now.documents)) }
    // It is the output that fails where a write fails, and where memory runs out no write has failed.
    ensures cause { IsErrOf result InspectionError.Stream → O.has_failed output.new ≡ true }
    ensures no_memory { IsErrOf result (InspectionError.Refused Refusal.NoMemory)
        → O.has_failed output.new ≡ O.has_failed output.old }
{
    let limits = state.limits();
    for document in state.documents() {
        let line = line_of(alloc, document, limits)?;
        output.put(line.as_bytes())?;
    }
    output.flush()?;
    Ok(())
}

fn line_of(alloc: Global, document: &DocState, limits: Limits) -> Result<String, AllocError>
    requires past { IsPast limits (record_of document.now).past }
    requires light { limits.weight < 2 ^ 32 }
    ensures { IfOk result (λ line. string_bytes line ≡ spec.document_line limits (record_of document.now)) }
{
    let held = held_text(alloc, document)?;
    let weight = used_text(alloc, weight_in(document, limits), limits.weight().into())?;
    let count = document.sources().count() as u64;
    let sources = used_text(alloc, count, limits.sources().into())?;
    line_with(alloc, &held, &weight, &sources)
}

// what a document is: name, revision, floor and mark
fn held_text(alloc: Global, document: &DocState) -> Result<String, AllocError>
    ensures { IfOk result (λ text. string_bytes text
        ≡ spec.held_text (record_of document.now).name (revision_of (record_of document.now))
        (record_of document.now).past.floor (spec.mark_text (record_of document.now))) }
{
    let name = document.name().as_str();
    let mark = mark_of(document);
    held_with(alloc, name, document.revision(), document.floor(), mark)
}

fn mark_of(document: &DocState) -> &'static str
    ensures { result.now ≡ spec.mark_text (record_of document.now) }
{
    if document.is_live() {
        "live"
    } else {
        "deleted"
    }
}

fn held_with(
    alloc: Global,
    name: &str,
    revision: u64,
    floor: u64,
    mark: &str,
) -> Result<String, AllocError>
    ensures { IfOk result (λ text. string_bytes text ≡ spec.held_text name.now revision floor mark.now) }
{
    format!(in alloc; "{name} {revision} {floor} {mark}")
}

// what something comes to, and what is left of its limit
fn used_text(alloc: Global, used: u64, limit: u64) -> Result<String, AllocError>
    ensures { IfOk result (λ text. string_bytes text ≡ spec.used_text used limit) }
{
    let left = limit.saturating_sub(used);
    format!(in alloc; "{used} {left}")
}

fn line_with(alloc: Global, held: &str, weight: &str, sources: &str) -> Result<String, AllocError>
    ensures { IfOk result (λ line. string_bytes line ≡ spec.line_of held.now weight.now sources.now) }
{
    format!(in alloc; "{held} {weight} {sources}\n")
}
