//! The facts of a store, as lines.
ghost use Rattle.std.specs.Prelude.{◌≡◌, ◌⊎◌, true, OnOk, IfOk, IfErr, IsErrOf};
ghost use Rattle.std.specs.String.{string_bytes};
ghost use Rattle.std.specs.Io.KnownBytes.{Appends};
ghost use Rattle.session.specs.Output.{AppendsFront};
ghost use Rattle.inspection.specs.Filled as spec;

use crate::failure::InspectionError;
use disk::Disk;
use recovery::{Shape, Store};
use refusal::Refusal;
use revision::State;
use session::Output;
use std::alloc::{AllocError, Global};

/// Writes a line for each fact of an open store, its name and its value: the format, the six numbers that it was made with, how many
/// documents there are, how many of these are deleted, and how many more there may be, how many slots of the journal are open, and
/// the number of the newest segment, 0 where none is, and how many bytes of the journal are in use. Ends where a write fails (`Stream`), or with `NoMemory`, and then nothing is written.
pub fn info<D: Disk, O: Output>(
    alloc: Global,
    store: &Store<D>,
    output: &mut O,
) -> Result<(), InspectionError>
    ensures told { OnOk result (Appends (O.contents output.old) (O.contents output.new) (spec.info_of store.now)) }
    ensures only { IfErr result (λ e. (e ≡ InspectionError.Stream) ⊎ (e ≡ InspectionError.Refused Refusal.NoMemory)) }
    ensures front { IsErrOf result InspectionError.Stream
        → AppendsFront (O.contents output.old) (O.contents output.new) (spec.info_of store.now) }
    // It is the output that fails where a write fails, and where memory runs out it is unchanged.
    ensures cause { IsErrOf result InspectionError.Stream → O.has_failed output.new ≡ true }
    ensures no_memory { IsErrOf result (InspectionError.Refused Refusal.NoMemory) → output.new ≡ output.old }
{
    let text = info_text(alloc, store)?;
    output.put(text.as_bytes())?;
    output.flush()?;
    Ok(())
}

// All facts of a store.
fn info_text<D: Disk>(alloc: Global, store: &Store<D>) -> Result<String, AllocError>
    ensures { IfOk result (λ text. string_bytes text ≡ spec.info_of store.now) }
{
    let shape = shape_text(alloc, store.shape())?;
    let documents = documents_text(alloc, store.state())?;
    let journal = journal_text(
        alloc,
        store.open_slots(),
        store.newest_segment(),
        store.journal_bytes(),
    )?;
    format!(in alloc; "{shape}{documents}{journal}")
}

// The format, and the numbers that a store was made with.
fn shape_text(alloc: Global, shape: Shape) -> Result<String, AllocError>
    ensures { IfOk result (λ text. string_bytes text ≡ spec.shape_text shape) }
{
    let format = fact(alloc, "format", 2)?;
    let slots = fact(alloc, "slots", shape.slots.into())?;
    let slot = fact(alloc, "slot", shape.slot.into())?;
    let docs = fact(alloc, "docs", shape.docs.into())?;
    let cell = fact(alloc, "cell", shape.cell.into())?;
    let sources = fact(alloc, "sources", shape.sources.into())?;
    let keep = fact(alloc, "keep", shape.keep.into())?;
    format!(in alloc; "{format}{slots}{slot}{docs}{cell}{sources}{keep}")
}

// How many documents there are, are deleted, and may be added.
fn documents_text(alloc: Global, state: &State) -> Result<String, AllocError>
    ensures { IfOk result (λ text. string_bytes text ≡ spec.documents_text state.now) }
{
    let count = state.documents().len() as u64;
    let most = u64::from(state.limits().docs());
    let documents = fact(alloc, "documents", count)?;
    let deleted = fact(alloc, "deleted", deleted_in(state))?;
    let left = fact(alloc, "documents_left", most.saturating_sub(count))?;
    format!(in alloc; "{documents}{deleted}{left}")
}

// How many slots of the journal are open, the number of its newest segment, and how many of its bytes are in use.
fn journal_text(alloc: Global, opened: u64, newest: u64, used: u64) -> Result<String, AllocError>
    ensures { IfOk result (λ text. string_bytes text ≡ spec.journal_text opened newest used) }
{
    let slots = fact(alloc, "slots_open", opened)?;
    let segment = fact(alloc, "newest_segment", newest)?;
    let filled = fact(alloc, "journal_bytes", used)?;
    format!(in alloc; "{slots}{segment}{filled}")
}

// A line with a name and a value.
fn fact(alloc: Global, name: &str, value: u64) -> Result<String, AllocError>
    ensures { IfOk result (λ line. string_bytes line ≡ spec.fact name.now value) }
{
    format!(in alloc; "{name} {value}\n")
}

// How many documents are deleted.
fn deleted_in(state: &State) -> u64
    ensures { result ≡ spec.deleted_in state.now.documents }
{
    let mut count = 0;
    for document in state.documents() {
        if !document.is_live() {
            count += 1;
        }
    }
    count
}
