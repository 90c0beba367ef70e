//! Whether both readings of a store agree.
ghost use Rattle.std.specs.Prelude.{◌≡◌, IfOk, IfErr};
ghost use Rattle.disk.specs.Crash.{history_of};
ghost use Rattle.recovery.specs.Found.{Found};
ghost use Rattle.recovery.specs.Opened.{IsReadDevice, OpeningIsRefused};
ghost use Rattle.revision.specs.State.{State as StateValue};
ghost use Rattle.inspection.specs.Checking.{IsFoundSound, CheckIsRefused};
ghost use Rattle.inspection.specs.Matching.{IsSyncedTwice};

use crate::matching::{changes_in, states_match};
use disk::Disk;
use recovery::{OpenFault, Pick, Store};
use refusal::Refusal;
use revision::State;
use std::alloc::Global;

/// A store that is sound. The device comes back.
#[derive(Debug, Drop)]
pub struct Checked<D> {
    pub disk: D,
    /// How many documents it has, live or deleted.
    pub documents: u64,
    /// How many changes they hold, above their floors.
    pub changes: u64,
}

/// Opens a device by the newer cell of each document and then by the older one, and compares the two states. `Damaged` comes where either
/// finds no state, or the states don't match (specs/Matching.antt); the other refusals as `Store::open` tells. The device comes back
/// on every path; it is synced, and nothing is written to it.
pub fn check<D: Disk>(alloc: Global, disk: D) -> Result<Checked<D>, OpenFault<D>>
    ensures sound { IfOk result (λ checked. IsFoundSound ⟦<D as Disk>⟧ checked disk) }
    ensures refused { IfErr result (λ fault. CheckIsRefused ⟦<D as Disk>⟧ fault.refusal disk fault.disk) }

    // Nothing is written: two syncs at most move the device on.
    ensures time { IfOk result (λ checked. IsSyncedTwice (history_of ⟦<D as Disk>⟧ disk)
        (history_of ⟦<D as Disk>⟧ checked.disk)) }
    ensures time_of_fault { IfErr result (λ fault. IsSyncedTwice (history_of ⟦<D as Disk>⟧ disk)
        (history_of ⟦<D as Disk>⟧ fault.disk)) }
    ensures seen { IfOk result (λ checked. D.seen checked.disk ≡ D.seen disk) }
    ensures seen_of_fault { IfErr result (λ fault. D.seen fault.disk ≡ D.seen disk) }
{
    let Reading { disk, state: newer } = read(alloc, disk, Pick::Newer)?;
    let Reading { disk, state: older } = read(alloc, disk, Pick::Older)?;
    match states_match(alloc, &newer, &older) {
        Ok(true) => Ok(Checked {
            disk,
            documents: newer.documents().len() as u64,
            changes: changes_in(&newer),
        }),
        Ok(false) => Err(OpenFault {
            disk,
            refusal: Refusal::Damaged,
        }),
        Err(no_memory) => Err(OpenFault {
            disk,
            refusal: no_memory.into(),
        }),
    }
}

// What a reading finds. The device comes back.
#[derive(Drop)]
struct Reading<D> {
    disk: D,
    state: State,
}

// Reads a device by a pick, and gives it back.
fn read<D: Disk>(alloc: Global, disk: D, pick: Pick) -> Result<Reading<D>, OpenFault<D>>
    ensures found { IfOk result (λ read. D.honest read.disk → Found (D.seen disk) pick read.state) }
    ensures only_state { IfOk result (λ read. D.honest read.disk → (state : StateValue)
        → Found (D.seen disk) pick state → state ≡ read.state) }
    ensures device { IfOk result (λ read. IsReadDevice ⟦<D as Disk>⟧ disk read.disk) }
    ensures refused { IfErr result (λ fault. OpeningIsRefused ⟦<D as Disk>⟧ pick fault.refusal disk fault.disk) }
{
    let store = match Store::open(alloc, disk, pick) {
        Ok(store) => store,
        Err(fault) => return Err(fault),
    };
    match store.state().copy(alloc) {
        Ok(state) => Ok(Reading {
            disk: store.close(),
            state,
        }),
        Err(no_memory) => Err(OpenFault {
            disk: store.close(),
            refusal: no_memory.into(),
        }),
    }
}
