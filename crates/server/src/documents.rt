//! The documents of a store, as lines.
ghost use Rattle.std.specs.Prelude.{◌≡◌, ◌⊎◌, true, OnOk, OnErr, IfOk, IfErr, IsErrOf};
ghost use Rattle.std.specs.String.{string_bytes};
ghost use Rattle.std.specs.Io.KnownBytes.{Appends};
ghost use Rattle.disk.specs.Crash.{history_of};
ghost use Rattle.disk.specs.Device.{IsSync, IsAtMostOneStep};
ghost use Rattle.recovery.specs.Found.{Found};
ghost use Rattle.revision.specs.Pending.{record_of};
ghost use Rattle.revision.specs.State.{State as StateValue};
ghost use Rattle.session.specs.Output.{AppendsFront};
ghost use Rattle.server.specs.Devices.{IsPrintedOf, dump_text};
ghost use Rattle.server.specs.Dump as spec;

use crate::inspected::Printed;
use algebra::write_delta;
use disk::Disk;
use recovery::{OpenFault, Pick, Store};
use refusal::Refusal;
use revision::{DocState, State};
use serving::ServingError;
use session::Output;
use std::alloc::{AllocError, Global};

/// Opens the store on a device, and writes its documents as `dump` does. Refused as `Store::open` refuses it. The device comes back on every
/// path; it is synced, and nothing is written to it.
pub fn dump_store<D: Disk, O: Output>(
    alloc: Global,
    disk: D,
    pick: Pick,
    output: &mut O,
) -> Printed<D>
    ensures dumped { OnOk result.done (D.honest result.disk → (state : StateValue) → Found (D.seen disk) pick state
        → Appends (O.contents output.old) (O.contents output.new) (spec.dump_of state.documents)) }
    ensures printed { OnOk result.done (IsPrintedOf ⟦<D as Disk>⟧ pick (dump_text ⟦<D as Disk>⟧)
        (O.contents output.old) (O.contents output.new) disk result.disk) }
    ensures time { IsAtMostOneStep IsSync (history_of ⟦<D as Disk>⟧ disk) (history_of ⟦<D as Disk>⟧ result.disk) }
    ensures seen { D.seen result.disk ≡ D.seen disk }
{
    let store = match Store::open(alloc, disk, pick) {
        Ok(store) => store,
        Err(OpenFault { disk, refusal }) => {
            let done = Err(ServingError::Refused(refusal));
            return Printed { disk, done };
        }
    };
    let done = dump(alloc, store.state(), output);
    Printed {
        disk: store.close(),
        done,
    }
}

/// Writes one line for each document, in order of creation: name, revision, floor and operations, or `deleted`. Ends where a write
/// fails (`Stream`), or with `NoMemory`, and then a prefix of the lines is written.
pub fn dump<O: Output>(alloc: Global, state: &State, output: &mut O) -> Result<(), ServingError>
    ensures dumped { OnOk result (Appends (O.contents output.old) (O.contents output.new)
        (spec.dump_of state.now.documents)) }
    ensures only { IfErr result (λ e. (e ≡ ServingError.Stream) ⊎ (e ≡ ServingError.Refused Refusal.NoMemory)) }
    ensures front { OnErr result (AppendsFront (O.contents output.old) (O.contents output.new)
        (spec.dump_of state.now.documents)) }
    // It is the output that fails where a write fails, and where memory runs out no write has failed.
    ensures cause { IsErrOf result ServingError.Stream → O.has_failed output.new ≡ true }
    ensures no_memory { IsErrOf result (ServingError.Refused Refusal.NoMemory)
        → O.has_failed output.new ≡ O.has_failed output.old }
{
    for document in state.documents() {
        let line = line_of(alloc, document)?;
        output.put(line.as_bytes())?;
    }
    output.flush()?;
    Ok(())
}

fn line_of(alloc: Global, document: &DocState) -> Result<String, AllocError>
    ensures ok { IfOk result (λ line. string_bytes line ≡ spec.document_line (record_of document.now)) }
{
    let content = content_text(alloc, document)?;
    let name = document.name().as_str();
    let line = line_with(alloc, name, document.revision(), document.floor(), &content)?;
    Ok(line)
}

// what stands in a document, or that it is deleted
fn content_text(alloc: Global, document: &DocState) -> Result<String, AllocError>
    ensures ok { IfOk result (λ text. string_bytes text ≡ spec.content_text (record_of document.now)) }
{
    if !document.is_live() {
        let text = String::from_str(alloc, "deleted")?;
        return Ok(text);
    }
    let delta = document.document().as_delta(alloc)?;
    let content = write_delta(alloc, &delta)?;
    Ok(content)
}

fn line_with(
    alloc: Global,
    name: &str,
    revision: u64,
    floor: u64,
    content: &str,
) -> Result<String, AllocError>
    ensures { IfOk result (λ line. string_bytes line ≡ spec.line_of name.now revision floor content.now) }
{
    format!(in alloc; "{name} {revision} {floor} {content}\n")
}
