//! The callers that open `lib.rt` of lives and of turns.
ghost use Rattle.std.specs.Prelude.{◌≡◌, ◌++◌, List, None, false, OnOk};
ghost use Rattle.disk.specs.Crash.{LeavesOnly};
ghost use Rattle.revision.specs.Command.{Taken};
ghost use Rattle.revision.specs.State.{fold};
ghost use Rattle.world.specs.World.{takens};
ghost use Rattle.recovery.specs.Found.{commands_of};
ghost use Rattle.turns.specs.Counting.{IsAt};
ghost use Rattle.recovery.specs.Open.{IsOpen, device_of, state_of, has_failed};
ghost use Rattle.flusher.specs.Holding.{store_of, told_of};
ghost use Rattle.flusher.specs.Standing.{IsCalm, standing};
ghost use Rattle.lives.specs.Run.{IsFirst, batches_of};

use disk::Disk;
use flusher::{Flusher, OpenGate};
use hub::{Board, Failed, Hub, Idle, Seat, Writer};
use lives::{Call, Driven, drive};
use published::Life;
use revision::Command;
use std::alloc::Global;
use std::sync::Wait;
use turns::flush_all;

/// Submits a command, writes it, and asks for its acknowledgement. A crash at any moment leaves first commands of the board's order,
/// no fewer than were settled before; and unless something stopped it, more can be saved.
pub fn save<D: Disk, L: Life, R: Wait>(
    rt: &R,
    alloc: Global,
    flusher: &mut Flusher<D, L>,
    board: &mut Board<D, L>,
    seat: &mut Seat<L>,
    command: Command,
) -> Driven<D, L>
    requires calm { IsCalm L.start (standing board.old flusher.old) }
    requires works { (has_failed (store_of flusher.old) ≡ false) × (board.old.failed ≡ false) }
    ensures any_moment { IsOpen (store_of flusher.old)
        → LeavesOnly ⟦<D as Disk>⟧
        (IsFirst board.old.progress.settled L.start (takens board.new.progress.order)
        (batches_of (standing board.new flusher.new)))
        (device_of (store_of flusher.old)) (device_of (store_of flusher.new)) }
    ensures calm { result.stopped ≡ None → IsCalm L.start (standing board.new flusher.new) }
{
    let calls = [Call::Submit(command), Call::Turn, Call::Ack(0)];
    drive(rt, alloc, flusher, board, seat, &calls)
}

/// Writes all that is ordered until the hub is ended, and puts no milestones. Nothing that was published is taken back. At Ok the store
/// holds exactly what is published, and the hub's token says that it was ended; at Err the hub was told of the failure.
pub fn flush_to_the_end<D: Disk, L: Life, R: Wait>(
    rt: &R,
    alloc: Global,
    flusher: &mut Flusher<D, L>,
    hub: &Hub<D, L>,
    writer: &mut Writer<L>,
) -> Result<Idle<L>, Failed<L>>
    requires at { IsAt writer.old flusher.old }
    ensures at { IsAt writer.new flusher.new }
    ensures stays { (more : List (List Taken)) × (told_of flusher.new ≡ told_of flusher.old ++ more) }
    ensures holds { OnOk result (state_of (store_of flusher.new) ≡ fold L.start (commands_of (told_of flusher.new))) }
{
    let ended = flush_all(rt, alloc, flusher, hub, writer, 0, None, &mut OpenGate);
    flusher.kept();
    ended
}
