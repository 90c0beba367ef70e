//! One thread's run over a board and a flusher: call after call, each with its answer.
ghost use Rattle.std.specs.Prelude.{List, ℕ, ◌≡◌, ◌≢◌, ◌⊎◌, ◌↔◌, ◌<◌, ◌+◌, [], true, false, Some, None, length, slice_get, take, OnOk, OnErr, IfOk, IfErr, IfSome, IsErrOf};
ghost use Rattle.disk.specs.Crash.{LeavesOnly, MayLeaveNow};
ghost use Rattle.refusal.specs.declared.Refusal.{Refusal as Why};
ghost use Rattle.world.specs.Progress.{submitted};
ghost use Rattle.world.specs.World.{entry_of, takens};
ghost use Rattle.recovery.specs.declared.store.Store.{Store};
ghost use Rattle.recovery.specs.declared.run.StoreStep.TheVariants.{Milestone as PutsMilestone, Retire as Retires};
ghost use Rattle.recovery.specs.Begun.{IsLeftByMemory};
ghost use Rattle.recovery.specs.Open.{IsOpen, IsUnchanged, device_of, has_failed};
ghost use Rattle.recovery.specs.Run.{IsTaken, IsWhy};
ghost use Rattle.flusher.specs.Flushers.{cap_of};
ghost use Rattle.flusher.specs.Holding.{store_of};
ghost use Rattle.flusher.specs.Standing.{IsCalm, standing};
ghost use Rattle.flusher.specs.Upkeep.{KeepsUp};
ghost use Rattle.lives.specs.Run.{IsFirst, RunGoes, batches_of};
ghost use Rattle.lives.specs.Driving.{AckGives, Answered, AreHeld, between, Gives, IsAnswered, IsTurnRefused, IsUnanswered, Stops, stop_of};

use crate::calls::{Answer, Call};
use crate::turning::turn;
use disk::Disk;
use flusher::Flusher;
use hub::{Board, Seat, Ticket};
use published::{Life, Told};
use refusal::Refusal;
use revision::Command;
use std::alloc::{AllocError, Global};
use std::sync::Wait;

/// What a run gave.
#[derive(Drop)]
pub struct Driven<D, L: Life> {
    /// An answer for each call up to where the run stopped, in order.
    pub answers: Vec<Answer<D, L>>,
    /// The tickets of the commands that were submitted and not refused, in order.
    pub tickets: Vec<Ticket<L>>,
    /// What stopped the run at the call behind those that were answered, if anything did.
    pub stopped: Option<Refusal>,
}

// Submits a command, and keeps its ticket. Stops as out of memory alone; another refusal is an answer.
fn submit_one<D: Disk, L: Life>(
    alloc: Global,
    board: &mut Board<D, L>,
    seat: &mut Seat<L>,
    tickets: &mut Vec<Ticket<L>>,
    command: &Command,
) -> Result<Answer<D, L>, AllocError>
    requires works { board.old.failed ≡ false }
    ensures gives { (cap : ℕ) (store : Store D ⟦<D as Disk>⟧)
        → IfOk result (λ reply. Gives cap (record { board = board.old; tickets = tickets.old.items; store = store })
        (Call.Submit command.now) reply (record { board = board.new; tickets = tickets.new.items; store = store })) }
    ensures step { OnOk result (board.new.progress ≡ submitted (entry_of command.now) board.old.progress command.now) }
    ensures same { OnErr result ((board.new ≡ board.old) × (tickets.new.items ≡ tickets.old.items)) }
    ensures told { board.new.told ≡ board.old.told }
    ensures failed { board.new.failed ≡ board.old.failed }
    ensures counts { seat.new + length board.old.progress.order ≡ seat.old + length board.new.progress.order }
{
    tickets.reserve(1)?;
    match board.submit(alloc, seat, command) {
        Ok(ticket) => {
            let at = tickets.len();
            tickets.push(ticket)?;
            Ok(Answer::Submitted(at))
        }
        Err(Refusal::NoMemory) => Err(AllocError),
        Err(refusal) => Ok(Answer::Refused(refusal)),
    }
}

// What an acknowledgement gives for the ticket of this place, if there is one.
fn ack_one<D, L: Life>(board: &Board<D, L>, tickets: &[Ticket<L>], at: usize) -> Option<Told<D, L>>
    requires works { board.now.failed ≡ false }
    ensures { AckGives board.now (slice_get tickets.now at) result }
{
    match tickets.get(at) {
        None => None,
        Some(ticket) => match board.ack(ticket) {
            Ok(told) => told,
            Err(_) => None,
        },
    }
}

// What a refusal answers: itself, unless memory ran out or the device failed, at which a run stops.
fn answered<D, L: Life>(refusal: Refusal) -> Result<Answer<D, L>, Refusal>
    ensures answer { IfOk result (λ reply. (reply ≡ Answer.Refused refusal) × (refusal ≢ Refusal.NoMemory)
        × (refusal ≢ Refusal.Fault)) }
    ensures stops { IfErr result (λ e. (e ≡ refusal) × ((e ≡ Refusal.NoMemory) ⊎ (e ≡ Refusal.Fault))) }
{
    if refusal == Refusal::NoMemory {
        return Err(refusal);
    }
    if refusal == Refusal::Fault {
        return Err(refusal);
    }
    Ok(Answer::Refused(refusal))
}

// Puts a milestone. Stops as out of memory and at a fault; another refusal is an answer.
fn put_one<D: Disk, L: Life>(
    alloc: Global,
    flusher: &mut Flusher<D, L>,
    document: u32,
    revision: u64,
) -> Result<Answer<D, L>, Refusal>
    requires works { has_failed (store_of flusher.old) ≡ false }
    ensures keeps { KeepsUp flusher.old flusher.new }
    ensures works { OnOk result (has_failed (store_of flusher.new) ≡ false) }
    ensures answer { IfOk result (λ reply. ((reply ≡ Answer.Put)
        × IsTaken (PutsMilestone document revision) (store_of flusher.old) (store_of flusher.new))
        ⊎ ((refusal : Why) × (reply ≡ Answer.Refused refusal)
        × IsUnchanged (store_of flusher.old) (store_of flusher.new)
        × IsWhy (PutsMilestone document revision) refusal (store_of flusher.old))) }
    ensures fails { has_failed (store_of flusher.new) ≡ true ↔ IsErrOf result Refusal.Fault }
    ensures memory { IsErrOf result Refusal.NoMemory
        → IsLeftByMemory (PutsMilestone document revision) (store_of flusher.old) (store_of flusher.new) }
    ensures only { IfErr result (λ e. (e ≡ Refusal.NoMemory) ⊎ (e ≡ Refusal.Fault)) }
{
    match flusher.put_document(alloc, document, revision) {
        Ok(()) => Ok(Answer::Put),
        Err(refusal) => answered(refusal),
    }
}

// Retires the oldest segment. Stops at a fault alone; that the segment is still needed is an answer.
fn retire_one<D: Disk, L: Life>(flusher: &mut Flusher<D, L>) -> Result<Answer<D, L>, Refusal>
    requires works { has_failed (store_of flusher.old) ≡ false }
    ensures keeps { KeepsUp flusher.old flusher.new }
    ensures works { OnOk result (has_failed (store_of flusher.new) ≡ false) }
    ensures answer { IfOk result (λ reply. ((reply ≡ Answer.Retired)
        × IsTaken Retires (store_of flusher.old) (store_of flusher.new))
        ⊎ ((refusal : Why) × (reply ≡ Answer.Refused refusal)
        × IsUnchanged (store_of flusher.old) (store_of flusher.new) × IsWhy Retires refusal (store_of flusher.old))) }
    ensures fails { has_failed (store_of flusher.new) ≡ true ↔ IsErrOf result Refusal.Fault }
    ensures only { IfErr result (λ e. e ≡ Refusal.Fault) }
{
    match flusher.retire() {
        Ok(()) => Ok(Answer::Retired),
        Err(refusal) => answered(refusal),
    }
}

// A call of a run.
fn call_one<D: Disk, L: Life, R: Wait>(
    rt: &R,
    alloc: Global,
    flusher: &mut Flusher<D, L>,
    board: &mut Board<D, L>,
    seat: &mut Seat<L>,
    tickets: &mut Vec<Ticket<L>>,
    call: &Call,
) -> Result<Answer<D, L>, Refusal>
    requires calm { IsCalm L.start (standing board.old flusher.old) }
    requires works { has_failed (store_of flusher.old) ≡ false }
    requires board_works { board.old.failed ≡ false }
    ensures goes { RunGoes L.start (standing board.old flusher.old) (standing board.new flusher.new) }
    ensures calm { OnOk result (IsCalm L.start (standing board.new flusher.new)) }
    ensures works { OnOk result (has_failed (store_of flusher.new) ≡ false) }
    ensures gives { IfOk result
        (λ reply. Gives (cap_of L.start) (between board.old tickets.old.items flusher.old) call.now reply
        (between board.new tickets.new.items flusher.new)) }
    ensures same { OnErr result (tickets.new.items ≡ tickets.old.items) }
    ensures left { OnErr result
        (IsUnanswered (cap_of L.start) (between board.old tickets.old.items flusher.old) call.now
        (between board.new tickets.new.items flusher.new)) }
    ensures order { OnErr result (board.new.progress.order ≡ board.old.progress.order) }
    ensures failed { board.new.failed ≡ board.old.failed }
    ensures counts { seat.new + length board.old.progress.order ≡ seat.old + length board.new.progress.order }
    ensures fails { has_failed (store_of flusher.new) ≡ true ↔ IsErrOf result Refusal.Fault }
    ensures stops { IfErr result (λ e. ((e ≡ Refusal.NoMemory) ⊎ (e ≡ Refusal.Fault))
        ⊎ ((call.now ≡ Call.Turn)
        × IsTurnRefused (cap_of L.start) board.old (store_of flusher.old) e flusher.new)) }
{
    match call {
        Call::Submit(command) => Ok(submit_one(alloc, board, seat, tickets, command)?),
        Call::Turn => {
            let count = turn(rt, alloc, flusher, board)?;
            Ok(Answer::Turned(count))
        }
        Call::Ack(at) => Ok(Answer::Acked(ack_one(board, tickets, *at))),
        Call::Milestone(document, revision) => put_one(alloc, flusher, *document, *revision),
        Call::Retire => retire_one(flusher),
    }
}

// The calls of a run, one after another, up to where it stops.
fn drive_all<D: Disk, L: Life, R: Wait>(
    rt: &R,
    alloc: Global,
    flusher: &mut Flusher<D, L>,
    board: &mut Board<D, L>,
    seat: &mut Seat<L>,
    answers: &mut Vec<Answer<D, L>>,
    tickets: &mut Vec<Ticket<L>>,
    calls: &[Call],
) -> Result<(), Refusal>
    requires calm { IsCalm L.start (standing board.old flusher.old) }
    requires works { has_failed (store_of flusher.old) ≡ false }
    requires board_works { board.old.failed ≡ false }
    requires nothing { (answers.old.items ≡ []) × (tickets.old.items ≡ []) }
    ensures goes { RunGoes L.start (standing board.old flusher.old) (standing board.new flusher.new) }
    ensures calm { OnOk result (IsCalm L.start (standing board.new flusher.new)) }
    ensures works { OnOk result (has_failed (store_of flusher.new) ≡ false) }
    ensures answered { IsAnswered (cap_of L.start) (between board.old [] flusher.old)
        (between board.new tickets.new.items flusher.new) calls.now answers.new.items }
    ensures stops { IfErr result
        (λ e. Stops (cap_of L.start) (between board.old [] flusher.old) calls.now answers.new.items e
        flusher.new) }
    ensures short { OnErr result (length answers.new.items < length calls.now) }
    ensures whole { OnOk result ((length answers.new.items ≡ length calls.now)
        × Answered (cap_of L.start) (between board.old [] flusher.old) calls.now answers.new.items
        (between board.new tickets.new.items flusher.new)) }
    ensures failed { board.new.failed ≡ board.old.failed }
    ensures counts { seat.new + length board.old.progress.order ≡ seat.old + length board.new.progress.order }
    ensures fails { has_failed (store_of flusher.new) ≡ true ↔ IsErrOf result Refusal.Fault }
{
    for call in calls {
        answers.reserve(1)?;
        let answer = call_one(rt, alloc, flusher, board, seat, tickets, call)?;
        answers.push(answer)?;
    }
    Ok(())
}

// What stopped a run, if anything did.
fn stopped_by(ended: Result<(), Refusal>) -> Option<Refusal>
    ensures { result ≡ stop_of ended }
{
    match ended {
        Ok(()) => None,
        Err(refusal) => Some(refusal),
    }
}

/// One thread's run: makes the calls in order, each with its answer, over a flusher that has nothing under way and its board, where
/// neither the store nor the board has failed. It makes room for each answer before its call. It stops out of memory, at a fault
/// of the device, and where a turn is refused; any other refusal is an answer. The call at which it stops gives no ticket and settles
/// nothing.
///
/// A crash at any moment of the run leaves the first commands of the board's order up to the end of a batch, and one after its return
/// no fewer than are settled then, so no fewer than a ticket asks for whose `Ack` gave a token.
pub fn drive<D: Disk, L: Life, R: Wait>(
    rt: &R,
    alloc: Global,
    flusher: &mut Flusher<D, L>,
    board: &mut Board<D, L>,
    seat: &mut Seat<L>,
    calls: &[Call],
) -> Driven<D, L>
    requires calm { IsCalm L.start (standing board.old flusher.old) }
    requires works { has_failed (store_of flusher.old) ≡ false }
    requires board_works { board.old.failed ≡ false }

    // What a crash leaves: at any moment of the run, and after its return.
    ensures goes { RunGoes L.start (standing board.old flusher.old) (standing board.new flusher.new) }
    ensures any_moment { IsOpen (store_of flusher.old)
        → LeavesOnly ⟦<D as Disk>⟧
        (IsFirst board.old.progress.settled L.start (takens board.new.progress.order)
        (batches_of (standing board.new flusher.new)))
        (device_of (store_of flusher.old)) (device_of (store_of flusher.new)) }
    ensures holds { IsOpen (store_of flusher.old) → (content : List ℕ)
        → MayLeaveNow ⟦<D as Disk>⟧ (device_of (store_of flusher.new)) content
        → IsFirst board.new.progress.settled L.start (takens board.new.progress.order)
        (batches_of (standing board.new flusher.new)) content }
    ensures acknowledged { AreHeld board.new.progress.settled result.tickets.items
        (take (length result.answers.items) calls.now) result.answers.items }

    // What the calls gave.
    ensures answered { IsAnswered (cap_of L.start) (between board.old [] flusher.old)
        (between board.new result.tickets.items flusher.new) calls.now result.answers.items }
    ensures stops { IfSome result.stopped
        (λ refusal. Stops (cap_of L.start) (between board.old [] flusher.old) calls.now result.answers.items refusal
        flusher.new) }
    ensures short { IfSome result.stopped (λ e. length result.answers.items < length calls.now) }
    ensures whole { result.stopped ≡ None → (length result.answers.items ≡ length calls.now)
        × Answered (cap_of L.start) (between board.old [] flusher.old) calls.now result.answers.items
        (between board.new result.tickets.items flusher.new) }
    ensures fails { has_failed (store_of flusher.new) ≡ true ↔ result.stopped ≡ Some Refusal.Fault }
    // The seat counts each command that is taken, and no other seat does.
    ensures counts { seat.new + length board.old.progress.order ≡ seat.old + length board.new.progress.order }

    // The next run may go on from there.
    ensures calm { result.stopped ≡ None → IsCalm L.start (standing board.new flusher.new) }
    ensures works { result.stopped ≡ None → has_failed (store_of flusher.new) ≡ false }
    ensures failed { board.new.failed ≡ board.old.failed }
{
    let mut answers = Vec::new(alloc);
    let mut tickets = Vec::new(alloc);
    let ended = drive_all(
        rt,
        alloc,
        flusher,
        board,
        seat,
        &mut answers,
        &mut tickets,
        calls,
    );
    Driven {
        answers,
        tickets,
        stopped: stopped_by(ended),
    }
}
