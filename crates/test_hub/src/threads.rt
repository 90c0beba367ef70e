//! A hub between threads: one orders commands and waits for each, another writes what was ordered in batches.
ghost use Rattle.std.specs.Prelude.{◌≡◌, ◌+◌, IfOk, length};
ghost use Rattle.hub.specs.Runs.{ComesNext};
ghost use Rattle.recovery.specs.Found.{commands_of};
ghost use Rattle.recovery.specs.Open.{state_of};

use crate::publishing::Publishing;
use crate::rows::{CAP, SHAPE};
use crate::stores::{NEVER, fails_second, store_by};
use disk::FaultDisk;
use hub::{Board, Cause, Closer, Hub, Seat, Tally, Ticket, Writer};
use published::{Life, Opened};
use recovery::{Receipt, Shape, Store};
use refusal::Refusal;
use std::alloc::Global;
use std::marker::Brand;
use std::process::Abort;
use std::sync::Wait;
use std::sync::ledger::Blank;
use std::thread::{Threads, join};
use test_fixtures::command;

// Waits until a ticket is acknowledged, and counts the commands that the token holds.
fn acknowledged<L: Life, R: Wait>(
    rt: &R,
    hub: &Hub<FaultDisk, L>,
    ticket: &Ticket<L>,
) -> Result<u64, Refusal> {
    let told = match hub.wait_ack(rt, ticket) {
        Ok(told) => told,
        Err(stopped) => return Err(stopped.refusal()),
    };
    if told.len() < ticket.length() as u64 {
        return Err(Refusal::Stranger);
    }
    match hub.ack(rt, ticket) {
        Ok(Some(told)) => Ok(told.len()),
        Ok(None) => Err(Refusal::Stranger),
        Err(stopped) => Err(stopped.refusal()),
    }
}

// Submits a command of this number and length, and waits for it.
fn submitted_one<L: Life, R: Wait>(
    rt: &R,
    alloc: Global,
    hub: &Hub<FaultDisk, L>,
    seat: &mut Seat<L>,
    edit: &(u64, u32),
) -> Result<u64, Refusal> {
    let command = command(alloc, edit.0, edit.1)?;
    match hub.submit(rt, alloc, seat, &command) {
        Ok(ticket) => acknowledged(rt, hub, &ticket),
        Err(why) => Err(why.refusal()),
    }
}

// Submits commands of these numbers and lengths, each after the one before was acknowledged, and counts the commands that the last
// token holds.
fn submitted<L: Life, R: Wait>(
    rt: &R,
    alloc: Global,
    hub: &Hub<FaultDisk, L>,
    seat: &mut Seat<L>,
    edits: &[(u64, u32)],
) -> Result<u64, Refusal> {
    let mut held = 0;
    for edit in edits {
        held = submitted_one(rt, alloc, hub, seat, edit)?;
    }
    Ok(held)
}

// Submits them by the only seat, tallies it, and then ends the hub.
fn submitted_all<L: Life, R: Wait>(
    rt: &R,
    alloc: Global,
    hub: &Hub<FaultDisk, L>,
    closer: &mut Closer<L>,
    tally: Tally<L>,
    seat: Seat<L>,
    edits: &[(u64, u32)],
) -> Result<u64, Refusal>
    requires none { tally.seats ≡ 0 }
    requires one { L.parts ≡ 2 }
{
    let mut tally = tally;
    let mut seat = seat;
    let answer = submitted(rt, alloc, hub, &mut seat, edits);
    tally.add(seat);
    hub.end(rt, closer, &tally);
    answer
}

// Commits the next run and publishes it, and gives what publishes back with the receipt; or the cause where the device failed, and none where
// anything else keeps it from that.
fn committed<L: Life, R: Wait>(
    rt: &R,
    alloc: Global,
    hub: &Hub<FaultDisk, L>,
    writer: &mut Writer<L>,
    publishing: Publishing<L>,
) -> Result<(Publishing<L>, Receipt<FaultDisk>), Option<Cause<L>>>
    requires taken { writer.old.taken ≡ length (commands_of publishing) }
    requires settled { writer.old.settled ≡ length (commands_of publishing) }
    ensures next { IfOk result (λ both. ComesNext writer.new both.1.batch both.0) }
    ensures taken { IfOk result (λ both. writer.new.taken ≡ length (commands_of both.0)) }
    ensures settled { IfOk result (λ both. writer.new.settled + length both.1.batch ≡ length (commands_of both.0)) }
{
    let run = match hub.take(rt, alloc, writer, CAP) {
        Ok(run) => run,
        Err(_no_memory) => return Err(None),
    };
    if run.len() == 0 {
        run.nothing();
        return Err(None);
    }
    publishing.write_or_end(alloc, run)
}

// Writes what was ordered until the hub's end, and counts the batches.
fn written<L: Life, R: Wait>(
    rt: &R,
    alloc: Global,
    hub: &Hub<FaultDisk, L>,
    writer: &mut Writer<L>,
    publishing: Publishing<L>,
) -> Result<u64, Option<Cause<L>>>
    requires taken { writer.old.taken ≡ length (commands_of publishing) }
    requires settled { writer.old.settled ≡ length (commands_of publishing) }
{
    let mut publishing = publishing;
    let mut batches: u64 = 0;
    for _ in rt.forever() {
        if let Err(_idle) = hub.wait_work(rt, writer) {
            return Ok(batches);
        }
        match committed(rt, alloc, hub, writer, publishing) {
            Ok((after, receipt)) => {
                publishing = after;
                hub.settle(rt, writer, &receipt, publishing.told().copy());
            }
            Err(cause) => return Err(cause),
        }
        batches = batches.saturating_add(1);
    }
    unreachable!()
}

// And tells the hub where the device failed.
fn written_or_failed<L: Life, R: Wait + Abort>(
    rt: &R,
    alloc: Global,
    hub: &Hub<FaultDisk, L>,
    writer: &mut Writer<L>,
    publishing: Publishing<L>,
) -> Result<u64, Refusal>
    requires taken { writer.old.taken ≡ length (commands_of publishing) }
    requires settled { writer.old.settled ≡ length (commands_of publishing) }
{
    match written(rt, alloc, hub, writer, publishing) {
        Ok(batches) => Ok(batches),
        Err(Some(cause)) => Err(hub.fail(rt, writer, cause).refusal()),
        Err(None) => panic!(rt; "it isn't written"),
    }
}

fn both<L: Life + Send + Sync, R: Threads + Wait + Abort + AllocGlobal + Sync>(
    rt: &R,
    store: Store<FaultDisk>,
    opened: Opened,
    blank: Blank,
    edits: &[(u64, u32)],
) -> (Result<u64, Refusal>, Result<u64, Refusal>)
    requires book { opened ≡ L.book }
    requires name { blank.name ≡ L.name }
    requires parts { blank.parts ≡ L.parts }
    requires seats { blank.parts ≡ 2 }
    requires start { state_of store ≡ L.start }
{
    let alloc = rt.alloc();
    let state = store.state().copy(alloc).expect(rt, "memory");
    let (log, told, order) = opened.named::<_, L>();
    let mut board = Board::new(alloc, &store, state, told.copy(), order, blank, 1);
    let tally = board.tally();
    let publishing = Publishing::new(store, log, told);
    let (hub, mut writer, mut closer) = Hub::new(board);
    let seat = hub.seat(rt, &mut closer).expect(rt, "a seat");
    join(
        rt,
        ||
            requires none { tally.seats ≡ 0 }
            requires one { L.parts ≡ 2 }
        { submitted_all(rt, alloc, &hub, &mut closer, tally, seat, edits) },
        ||
            requires taken { writer.taken ≡ length (commands_of publishing) }
            requires settled { writer.settled ≡ length (commands_of publishing) }
        { written_or_failed(rt, alloc, &hub, &mut writer, publishing) },
    )
}

// Five batches of one command each: an acknowledgement is waited for before the next.
#[test]
fn one_submits_while_the_other_writes(rt: HostRuntime) {
    let shape = Shape { slots: 8, ..SHAPE };
    let store = store_by(&rt, shape, NEVER);
    let opened = Opened::new().expect(&rt, "logs");
    let edits = [(1, 1), (2, 14), (3, 20), (3, 20), (4, 9)];
    let (held, batches) = both::<Brand, _>(&rt, store, opened, Blank::new(2), &edits);
    assert!(rt; held.expect(&rt, "acknowledged") == 4);
    assert!(rt; batches.expect(&rt, "written") == 4);
}

// The device fails at the second commit: who waits is told that the store failed.
#[test]
fn who_waits_is_told_of_a_failure(rt: HostRuntime) {
    let store = store_by(&rt, SHAPE, fails_second(&rt, SHAPE));
    let opened = Opened::new().expect(&rt, "logs");
    let edits = [(1, 1), (2, 199), (3, 199)];
    let (held, batches) = both::<Brand, _>(&rt, store, opened, Blank::new(2), &edits);
    assert!(rt; matches!(held, Err(Refusal::StoreFailed)));
    assert!(rt; matches!(batches, Err(Refusal::Fault)));
}
