//! One turn, and all of them.
ghost use Rattle.std.specs.Prelude.{◌≡◌, ◌≢◌, ◌⊎◌, ◌↔◌, ◌≤◌, [], ◌++◌, true, false, length, OnOk, OnErr, IfOk, IfErr, IfSome, IfNone, IsErrOf};
ghost use Rattle.journal.specs.BatchSpelling.{batch_width};
ghost use Rattle.recovery.specs.Found.{commands_of};
ghost use Rattle.recovery.specs.Open.{state_of, has_failed};
ghost use Rattle.flusher.specs.Flushers.{cap_of};
ghost use Rattle.flusher.specs.Holding.{store_of, told_of, committed_of, waiting_of};
ghost use Rattle.hub.specs.Moves.{ComesOff};
ghost use Rattle.hub.specs.Runs.{counts_taken};
ghost use Rattle.flusher.specs.Writing.{IsFullForGood};
ghost use Rattle.turns.specs.Counting.{IsAt, IsAllPublished};
ghost use Rattle.turns.specs.Writing.{Writes, IsTurnFailed};
ghost use Rattle.turns.specs.Turning.{HasWritten, IsTurn};

use crate::turn_error::{Stop, TurnError, stopped};
use crate::turned::Turned;
use crate::upkeep::Upkeep;
use composers::Composers;
use disk::Disk;
use flusher::{Flusher, Gate};
use hub::{Failed, Hub, Idle, Nothing, Run, Writer};
use published::Life;
use recovery::Store;
use refusal::Refusal;
use std::alloc::Global;
use std::snapshot::Snapshot;
use std::sync::Wait;
use std::thread;

/// Puts the milestones that composers have given back, hands out the jobs that are due, as `upkeep` knows them, and retires the oldest
/// segment while nothing needs it; it waits neither for a place nor for a message. Then takes the longest run of the next commands
/// that makes one batch, writes it while the board is unlocked, and settles it. It answers with the hub's token of that, or with the one
/// that nothing was to be taken.
///
/// At its end, and at each refusal, what is published is settled, and what was taken off the board is published, committed or held, as at its
/// beginning (`IsAt`).
///
/// Refused with `NoMemory` where memory ran out for a batch, and then the next turn continues with the same batch, or with its
/// publishing. A milestone for which it runs out stops no turn: the next one tries again. Each other refusal fails the board, and has the
/// hub's token of that: the device failed, as `Fault`, or the journal is full and can't be freed.
pub fn flush_turn<D: Disk, L: Life, R: Wait, G: Gate>(
    rt: &R,
    alloc: Global,
    flusher: &mut Flusher<D, L>,
    hub: &Hub<D, L>,
    writer: &mut Writer<L>,
    upkeep: &mut Upkeep,
    gate: &mut G,
) -> Result<Turned<D, L>, TurnError<L>>
    requires at { IsAt writer.old flusher.old }
    // What the writer counts is what the flusher has.
    ensures at { IsAt writer.new flusher.new }
    // What a crash leaves, what is published and held after it, and when each refusal comes.
    ensures turn { IsTurn L.start flusher.old result flusher.new }
    // A failure of the device that came before is `Fault` too.
    ensures failed { has_failed (store_of flusher.old) ≡ true → IsErrOf result Refusal.Fault }
{
    match try_turn(rt, alloc, flusher, hub, writer, upkeep, gate) {
        Ok(turned) => Ok(turned),
        Err(stop) => Err(stopped(rt, hub, writer, stop)),
    }
}

// A turn, which leaves it to its caller to stop.
fn try_turn<D: Disk, L: Life, R: Wait, G: Gate>(
    rt: &R,
    alloc: Global,
    flusher: &mut Flusher<D, L>,
    hub: &Hub<D, L>,
    writer: &mut Writer<L>,
    upkeep: &mut Upkeep,
    gate: &mut G,
) -> Result<Turned<D, L>, Stop<L>>
    requires at { IsAt writer.old flusher.old }
    ensures at { IsAt writer.new flusher.new }
    ensures turn { IsTurn L.start flusher.old result flusher.new }
    ensures failed { has_failed (store_of flusher.old) ≡ true → IsErrOf result Refusal.Fault }
{
    flusher.kept();
    if flusher.has_failed() {
        return Err(Stop::by_cause(flusher.failed()));
    }
    if let Err(_) = upkeep.keep_up(rt, alloc, flusher) {
        return Err(Stop::by_cause(flusher.failed()));
    }
    let answer = match fetch_batch(rt, alloc, flusher, hub, writer) {
        Ok(answer) => answer,
        Err(_) => return Err(Stop::no_memory()),
    };
    match answer {
        None => write_held(rt, alloc, flusher, hub, writer, upkeep, gate),
        Some(nothing) => Ok(Turned::Nothing(nothing)),
    }
}

// Takes the next batch and holds it, where none is held. It answers with the token that there was none to take, unless one is held then.
// Refused with `NoMemory` alone; nothing is held then.
#[tactic(auto, using(crate::proofs::Fitting::fits_slot))]
fn fetch_batch<D: Disk, L: Life, R: Wait>(
    rt: &R,
    alloc: Global,
    flusher: &mut Flusher<D, L>,
    hub: &Hub<D, L>,
    writer: &mut Writer<L>,
) -> Result<Option<Nothing<L>>, Refusal>
    requires at { IsAt writer.old flusher.old }
    ensures at { IsAt writer.new flusher.new }
    ensures writes { Writes L.start flusher.old flusher.new }
    ensures held { IfOk result (λ answer. IfNone answer (committed_of flusher.new ++ waiting_of flusher.new ≢ [])) }
    ensures nothing { IfOk result (λ answer. IfSome answer (λ token. (committed_of flusher.new ≡ [])
        × (waiting_of flusher.new ≡ []))) }
    ensures whole { IfOk result (λ answer. IfSome answer (λ token. token
        ≡ cap_of (state_of (store_of flusher.new)))) }
    ensures store { store_of flusher.new ≡ store_of flusher.old }
    ensures told { told_of flusher.new ≡ told_of flusher.old }
    ensures only { IfErr result (λ e. e ≡ Refusal.NoMemory) }
{
    flusher.kept();
    if flusher.holds() {
        return Ok(None);
    }
    let taken = match take_next(rt, alloc, flusher.cap(), hub, writer) {
        Ok(taken) => taken,
        Err(refusal) => return Err(refusal),
    };
    match taken {
        Err(nothing) => Ok(Some(nothing)),
        Ok(run) => {
            flusher.hold(run);
            Ok(None)
        }
    }
}

// The next run whose batch has at most so many bytes, or the token that there is none. Refused with `NoMemory` alone.
fn take_next<D: Disk, L: Life, R: Wait>(
    rt: &R,
    alloc: Global,
    cap: u32,
    hub: &Hub<D, L>,
    writer: &mut Writer<L>,
) -> Result<Result<Run<D, L>, Nothing<L>>, Refusal>
    ensures fits { IfOk result (λ taken. IfOk taken (λ run. (1 ≤ length run.commands)
        × (batch_width run.commands ≤ cap))) }
    ensures next { IfOk result (λ taken. IfOk taken (λ run. ComesOff writer.old cap run writer.new)) }
    ensures none { IfOk result (λ taken. IfErr taken (λ nothing. (nothing ≡ cap)
        × (writer.new ≡ counts_taken writer.old 0))) }
    ensures only { IfErr result (λ e. (e ≡ Refusal.NoMemory) × (writer.new ≡ writer.old)) }
{
    let run = hub.take(rt, alloc, writer, cap)?;
    if run.len() == 0 {
        return Ok(Err(run.nothing()));
    }
    Ok(Ok(run))
}

// Writes the batch that is held, settles it, and notes it for the next turn's milestones.
fn write_held<D: Disk, L: Life, R: Wait, G: Gate>(
    rt: &R,
    alloc: Global,
    flusher: &mut Flusher<D, L>,
    hub: &Hub<D, L>,
    writer: &mut Writer<L>,
    upkeep: &mut Upkeep,
    gate: &mut G,
) -> Result<Turned<D, L>, Stop<L>>
    requires at { IsAt writer.old flusher.old }
    requires works { has_failed (store_of flusher.old) ≡ false }
    requires held { committed_of flusher.old ++ waiting_of flusher.old ≢ [] }
    ensures at { IsAt writer.new flusher.new }
    ensures turn { IsTurn L.start flusher.old result flusher.new }
{
    flusher.kept();
    let then = flusher.snapshot();
    let written = match flusher.write(rt, alloc, gate) {
        Ok(written) => written,
        Err(refusal) => {
            flusher.kept();
            return Err(stop_for(flusher, &then, refusal));
        }
    };
    match written {
        None => unreachable!(),
        Some(both) => {
            flusher.kept();
            let (receipt, settled) = both.settle(rt, hub, writer);
            upkeep.note(&receipt);
            Ok(Turned::Settled(settled))
        }
    }
}

// What stops a turn whose write was refused so.
fn stop_for<D: Disk, L: Life>(
    flusher: &Flusher<D, L>,
    then: &Snapshot<Store<D>>,
    refusal: Refusal,
) -> Stop<L>
    requires full { refusal ≢ Refusal.NoMemory → refusal ≢ Refusal.Fault → IsFullForGood refusal then.now.value flusher.now }
    requires fault { refusal ≡ Refusal.Fault → has_failed (store_of flusher.now) ≡ true }
    ensures { result ≡ refusal }
{
    if refusal == Refusal::NoMemory {
        return Stop::no_memory();
    }
    if refusal == Refusal::Fault {
        return Stop::by_cause(flusher.failed());
    }
    Stop::by_cause(flusher.full(then, refusal))
}

/// Makes turns until the hub is ended and all that was ordered is settled, or until a turn fails the board. After a turn it waits where
/// nothing is to be taken, and where memory ran out it lets other threads run and tries again. A document's job is due where it passes a multiple of
/// `every` revisions; 0 hands out none. At its end it lets go of its ends of the composers' channels, so that they end. It answers with the
/// hub's token of its end, or with the one that the hub was told of a failure.
///
/// A crash at any moment of it leaves a prefix of the batches that were given, with no fewer commands than were published when it
/// began; one after its return no fewer than are published then. Of each turn `flush_turn` says the same.
pub fn flush_all<D: Disk, L: Life, R: Wait, G: Gate>(
    rt: &R,
    alloc: Global,
    flusher: &mut Flusher<D, L>,
    hub: &Hub<D, L>,
    writer: &mut Writer<L>,
    every: u32,
    composers: Option<Composers>,
    gate: &mut G,
) -> Result<Idle<L>, Failed<L>>
    requires at { IsAt writer.old flusher.old }
    ensures at { IsAt writer.new flusher.new }
    ensures written { HasWritten L.start flusher.old flusher.new result }
    // It ends well only where all of the order is published.
    ensures all { OnOk result (IsAllPublished writer.new flusher.new) }
{
    flusher.kept();
    let mut upkeep = Upkeep::new(alloc, every, composers, flusher.state());
    for _ in rt.forever() {
        if let Err(failed) = turn_or_yield(rt, alloc, flusher, hub, writer, &mut upkeep, gate) {
            return Err(failed);
        }
        if !flusher.holds() {
            if let Err(idle) = hub.wait_work(rt, writer) {
                return Ok(idle);
            }
        }
    }
    unreachable!()
}

// Makes a turn. Where memory ran out it lets other threads run. Refused where the turn fails the board.
fn turn_or_yield<D: Disk, L: Life, R: Wait, G: Gate>(
    rt: &R,
    alloc: Global,
    flusher: &mut Flusher<D, L>,
    hub: &Hub<D, L>,
    writer: &mut Writer<L>,
    upkeep: &mut Upkeep,
    gate: &mut G,
) -> Result<(), Failed<L>>
    requires at { IsAt writer.old flusher.old }
    ensures at { IsAt writer.new flusher.new }
    ensures writes { Writes L.start flusher.old flusher.new }
    ensures fails { has_failed (store_of flusher.old) ≡ false
        → (has_failed (store_of flusher.new) ≡ true ↔ IsErrOf result Refusal.Fault) }
    ensures causes { IfErr result (λ e. e ≢ Refusal.Fault → IsTurnFailed flusher.old e flusher.new) }
{
    if let Err(stop) = flush_turn(rt, alloc, flusher, hub, writer, upkeep, gate) {
        if let Some(failed) = stop.into_failed() {
            return Err(failed);
        }
        thread::yield_now();
    }
    Ok(())
}
