//! A turn of a run: what is taken off is written, published and settled.
ghost use Rattle.std.specs.Prelude.{◌≡◌, ◌⊎◌, ◌↔◌, ◌<◌, true, false, OnOk, OnErr, IfOk, IfErr, IsErrOf};
ghost use Rattle.revision.specs.State.{fold};
ghost use Rattle.world.specs.Progress.{next_run};
ghost use Rattle.world.specs.World.{takens};
ghost use Rattle.hub.specs.Runs.{IsLongest, untaken};
ghost use Rattle.recovery.specs.Open.{state_of, has_failed};
ghost use Rattle.flusher.specs.Flushers.{cap_of};
ghost use Rattle.flusher.specs.Holding.{store_of, told_of};
ghost use Rattle.flusher.specs.Standing.{IsCalm, standing};
ghost use Rattle.lives.specs.Run.{RunGoes};
ghost use Rattle.lives.specs.Driving.{IsRunCommitted, IsTurnRefused, IsUnsettled, turned};

use disk::Disk;
use flusher::{Flusher, OpenGate};
use hub::Board;
use published::Life;
use refusal::Refusal;
use std::alloc::Global;
use std::sync::Wait;

/// A turn: takes off the longest run of commands whose batch fits a slot, writes it, and settles it. Gives how many commands there are
/// in it, which are none where nothing was left to take off. At `NoMemory` the run may be committed, and at any other refusal it isn't.
/// Whatever refused it, nothing is published or settled: the board is unchanged, but that the run may be taken off.
pub fn turn<D: Disk, L: Life, R: Wait>(
    rt: &R,
    alloc: Global,
    flusher: &mut Flusher<D, L>,
    board: &mut Board<D, L>,
) -> Result<usize, Refusal>
    requires calm { IsCalm L.start (standing board.old flusher.old) }
    requires works { has_failed (store_of flusher.old) ≡ false }
    ensures goes { RunGoes L.start (standing board.old flusher.old) (standing board.new flusher.new) }
    ensures calm { OnOk result (IsCalm L.start (standing board.new flusher.new)) }
    ensures works { OnOk result (has_failed (store_of flusher.new) ≡ false) }
    ensures run { IfOk result
        (λ count. IsLongest (cap_of (state_of (store_of flusher.old))) (untaken board.old.progress) count) }
    ensures settled { IfOk result (λ count. board.new ≡ turned board.old count) }
    ensures state { IfOk result (λ count. state_of (store_of flusher.new)
        ≡ fold (state_of (store_of flusher.old)) (takens (next_run board.old.progress count))) }
    ensures committed { IfOk result (λ count. IsRunCommitted (takens (next_run board.old.progress count))
        (store_of flusher.old) (store_of flusher.new)) }
    ensures fails { has_failed (store_of flusher.new) ≡ true ↔ IsErrOf result Refusal.Fault }
    ensures refused { IfErr result (λ e. ((e ≡ Refusal.NoMemory) ⊎ (e ≡ Refusal.Fault))
        ⊎ IsTurnRefused (cap_of (state_of (store_of flusher.old))) board.old (store_of flusher.old) e
        flusher.new) }
    ensures left { OnErr result (IsUnsettled (cap_of (state_of (store_of flusher.old))) board.old
        (store_of flusher.old) board.new (store_of flusher.new)) }
    ensures unsettled { OnErr result ((board.new.progress.settled ≡ board.old.progress.settled)
        × (board.new.told ≡ board.old.told)) }
    ensures unpublished { OnErr result (told_of flusher.new ≡ told_of flusher.old) }
    ensures uncommitted { IsErrOf result Refusal.Fault → state_of (store_of flusher.new)
        ≡ state_of (store_of flusher.old) }
    ensures failed { board.new.failed ≡ board.old.failed }
    ensures order { board.new.progress.order ≡ board.old.progress.order }
{
    let run = board.take(alloc, flusher.cap())?;
    let count = run.len();
    if count == 0 {
        let _nothing = run.nothing();
        return Ok(0);
    }
    flusher.hold(run);
    match flusher.write(rt, alloc, &mut OpenGate)? {
        None => Ok(count),
        Some(both) => {
            both.settle_on(board)?;
            flusher.kept();
            Ok(count)
        }
    }
}
