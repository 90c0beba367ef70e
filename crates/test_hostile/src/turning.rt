//! Commands that are submitted to a hub, and written by turns of its flusher.
ghost use Rattle.std.specs.Prelude.{◌≡◌, ◌≤◌};
ghost use Rattle.turns.specs.Counting.{IsAt};
ghost use Rattle.recovery.specs.Open.{state_of};
ghost use Rattle.flusher.specs.Holding.{KeepsBatches};

use crate::runs::{Begin, Ended, commands_in, stop_of};
use crate::scripts::{Script, Step, command_of};
use disk::FaultDisk;
use flusher::{Flusher, OpenGate, start};
use hub::{Hub, Seat, Ticket, Writer};
use published::{Life, Opened};
use recovery::Store;
use refusal::Refusal;
use revision::Reply;
use std::marker::Brand;
use std::process::Abort;
use std::sync::Wait;
use std::sync::ledger::Blank;
use turns::{Upkeep, flush_turn};

// A milestone that is due of the only document is composed and put, as composers and a turn do it together. Where memory ran out it is put once
// more. What else keeps it from that, the next turn tells, or the next command asks for it again.
fn put_due<L: Life>(rt: &impl AllocGlobal, flusher: &mut Flusher<FaultDisk, L>, every: u32)
    requires { 1 ≤ every }
    ensures { KeepsBatches flusher.old flusher.new }
{
    let Some(revision) = flusher.job_due(0, u64::from(every)) else {
        return;
    };
    let put = flusher.put_document(rt.alloc(), 0, revision);
    if !matches!(put, Err(Refusal::NoMemory)) {
        return;
    }
    let _ = flusher.put_document(rt.alloc(), 0, revision);
}

// A turn, whose failure is told as its refusal.
fn turn<L: Life, R: Wait + AllocGlobal>(
    rt: &R,
    flusher: &mut Flusher<FaultDisk, L>,
    hub: &Hub<FaultDisk, L>,
    writer: &mut Writer<L>,
    upkeep: &mut Upkeep,
) -> Result<(), Refusal>
    requires at { IsAt writer.old flusher.old }
    ensures at { IsAt writer.new flusher.new }
{
    let alloc = rt.alloc();
    if let Err(stop) = flush_turn(rt, alloc, flusher, hub, writer, upkeep, &mut OpenGate) {
        return match stop.into_failed() {
            Some(failed) => Err(failed.refusal()),
            None => Err(Refusal::NoMemory),
        };
    }
    Ok(())
}

// The command of a step is submitted.
fn ordered<L: Life, R: Wait + AllocGlobal>(
    rt: &R,
    hub: &Hub<FaultDisk, L>,
    seat: &mut Seat<L>,
    number: u64,
    step: &Step,
) -> Result<Ticket<L>, Refusal> {
    let command = command_of(rt.alloc(), number, step)?;
    match hub.submit(rt, rt.alloc(), seat, &command) {
        Ok(ticket) => Ok(ticket),
        Err(not_submitted) => Err(not_submitted.refusal()),
    }
}

// The reply to a command that is settled.
fn acknowledged<L: Life, R: Wait>(
    rt: &R,
    hub: &Hub<FaultDisk, L>,
    ticket: &Ticket<L>,
) -> Result<Option<Reply>, Refusal> {
    match hub.ack(rt, ticket) {
        Ok(Some(_)) => Ok(Some(ticket.reply())),
        Ok(None) => Err(Refusal::BadMessage),
        Err(stopped) => Err(stopped.refusal()),
    }
}

// A command is submitted, written in a turn after the milestone that is due, and acknowledged.
fn send<L: Life, R: Wait + AllocGlobal>(
    rt: &R,
    flusher: &mut Flusher<FaultDisk, L>,
    hub: &Hub<FaultDisk, L>,
    writer: &mut Writer<L>,
    seat: &mut Seat<L>,
    upkeep: &mut Upkeep,
    every: u32,
    number: u64,
    step: &Step,
) -> Result<Option<Reply>, Refusal>
    requires every { 1 ≤ every }
    requires at { IsAt writer.old flusher.old }
    ensures at { IsAt writer.new flusher.new }
{
    let ticket = ordered(rt, hub, seat, number, step)?;
    put_due(rt, flusher, every);
    turn(rt, flusher, hub, writer, upkeep)?;
    acknowledged(rt, hub, &ticket)
}

// The answer to a step. It is asked once more where memory was wanted; where the device failed, it is then answered as failed.
fn asked<L: Life, R: Wait + AllocGlobal>(
    rt: &R,
    flusher: &mut Flusher<FaultDisk, L>,
    hub: &Hub<FaultDisk, L>,
    writer: &mut Writer<L>,
    seat: &mut Seat<L>,
    upkeep: &mut Upkeep,
    every: u32,
    number: u64,
    step: &Step,
    is_again: bool,
) -> Option<&'static str>
    requires every { 1 ≤ every }
    requires at { IsAt writer.old flusher.old }
    ensures at { IsAt writer.new flusher.new }
{
    let found = send(rt, flusher, hub, writer, seat, upkeep, every, number, step);
    if !matches!(found, Err(Refusal::NoMemory | Refusal::Fault)) {
        return stop_of(found, number, is_again);
    }
    let second = send(rt, flusher, hub, writer, seat, upkeep, every, number, step);
    match (found, second) {
        (Err(Refusal::Fault), Err(Refusal::StoreFailed)) => Some("Fault"),
        (Err(Refusal::Fault), _) => Some("another answer after a fault"),
        _ => stop_of(second, number, true),
    }
}

// A last turn, in which nothing is to be written: the oldest segment is retired while nothing needs it. It is made once more where memory was
// wanted.
fn rest<L: Life, R: Wait + AllocGlobal>(
    rt: &R,
    flusher: &mut Flusher<FaultDisk, L>,
    hub: &Hub<FaultDisk, L>,
    writer: &mut Writer<L>,
    upkeep: &mut Upkeep,
) -> Option<&'static str>
    requires at { IsAt writer.old flusher.old }
    ensures at { IsAt writer.new flusher.new }
{
    let mut ended = turn(rt, flusher, hub, writer, upkeep);
    if matches!(ended, Err(Refusal::NoMemory)) {
        ended = turn(rt, flusher, hub, writer, upkeep);
    }
    match ended {
        Ok(()) => None,
        Err(refusal) => Some(refusal.name()),
    }
}

// The steps of a script, up to one that stops it, and a last turn.
fn send_steps<L: Life, R: Wait + AllocGlobal>(
    rt: &R,
    flusher: &mut Flusher<FaultDisk, L>,
    hub: &Hub<FaultDisk, L>,
    writer: &mut Writer<L>,
    seat: &mut Seat<L>,
    every: u32,
    script: &Script,
    begin: Begin,
) -> (usize, Option<&'static str>)
    requires every { 1 ≤ every }
    requires at { IsAt writer.old flusher.old }
{
    let mut upkeep = Upkeep::new(rt.alloc(), 0, None, flusher.state());
    let mut number = 0_u64;
    for (at, step) in script.steps.iter().enumerate() {
        number = number.saturating_add(commands_in(step));
        if at >= begin.from {
            let is_again = begin.may_be_done(at, step);
            let stopped = asked(
                rt,
                flusher,
                hub,
                writer,
                seat,
                &mut upkeep,
                every,
                number,
                step,
                is_again,
            );
            if stopped.is_some() {
                return (at, stopped);
            }
        }
    }
    let stopped = rest(rt, flusher, hub, writer, &mut upkeep);
    (script.steps.len(), stopped)
}

// The life of a hub over a store.
fn lived<L: Life, R: Wait + Abort + AllocGlobal>(
    rt: &R,
    store: Store<FaultDisk>,
    opened: Opened,
    blank: Blank,
    every: u32,
    script: &Script,
    begin: Begin,
) -> Ended
    requires book { opened ≡ L.book }
    requires name { blank.name ≡ L.name }
    requires parts { blank.parts ≡ L.parts }
    requires seats { blank.parts ≡ 2 }
    requires begin { state_of store ≡ L.start }
    requires every { 1 ≤ every }
{
    let (mut flusher, board) = match start::<_, L>(rt.alloc(), store, opened, blank, 1) {
        Ok(both) => both,
        Err(fault) => {
            return Ended {
                done: begin.from,
                stopped: Some(fault.refusal.name()),
                disk: fault.store.close(),
            };
        }
    };
    let (hub, mut writer, mut closer) = Hub::new(board);
    let mut seat = hub.seat(rt, &mut closer).expect(rt, "a seat");
    let (done, stopped) = send_steps(
        rt,
        &mut flusher,
        &hub,
        &mut writer,
        &mut seat,
        every,
        script,
        begin,
    );
    Ended {
        done,
        stopped,
        disk: flusher.end(rt).close(),
    }
}

/// Runs a script by the turns of a hub.
pub fn serve<R: Wait + Abort + AllocGlobal>(
    rt: &R,
    store: Store<FaultDisk>,
    script: &Script,
    every: u32,
    begin: Begin,
) -> Ended
    requires { 1 ≤ every }
{
    let opened = Opened::new().expect(rt, "logs");
    lived::<Brand, R>(rt, store, opened, Blank::new(2), every, script, begin)
}
