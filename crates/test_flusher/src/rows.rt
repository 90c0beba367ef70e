//! Runs of `drive` as rows: what is called, and what comes of it.
ghost use Rattle.std.specs.Prelude.{◌≡◌, false};
ghost use Rattle.recovery.specs.Open.{state_of, has_failed};

use disk::Disk;
use flusher::start;
use hub::Ticket;
use lives::{Answer, Call, Driven, drive};
use published::{Life, Opened};
use recovery::{Shape, Store};
use refusal::Refusal;
use revision::Reply;
use std::alloc::Global;
use std::marker::Brand;
use std::process::Abort;
use std::sync::Wait;
use std::sync::ledger::Blank;
use test_fixtures::{command, wide_command};

/// A device of 1,600 bytes.
pub const SHAPE: Shape = Shape {
    slots: 2,
    slot: 256,
    docs: 2,
    cell: 256,
    sources: 4,
    keep: 2,
};

/// A call of a run.
#[derive(Clone, Copy)]
pub enum Step {
    /// Submits the command of this number, which inserts one letter.
    Submit(u64),
    /// Submits the command of this number, which fills a slot.
    Wide(u64),
    Turn,
    Ack(usize),
    Milestone(u32, u64),
    Retire,
}

/// What a call gives.
#[derive(Clone, Copy, Debug, PartialEq, Eq)]
pub enum Gives {
    /// The place of the ticket, its reply, and how many commands the order has then.
    Ordered(usize, Reply, usize),
    /// So many commands are settled.
    Settled(usize),
    /// It is acknowledged, and so many commands are published.
    Acked(u64),
    /// It isn't acknowledged.
    Waits,
    Put,
    Retired,
    Refused(Refusal),
    /// No call gives this.
    NoTicket,
}

pub type Row = (Step, Gives);

fn call_of(alloc: Global, step: &Step) -> Result<Call, Refusal> {
    match *step {
        Step::Submit(number) => Ok(Call::Submit(command(alloc, number, 1)?)),
        Step::Wide(number) => Ok(Call::Submit(wide_command(alloc, number)?)),
        Step::Turn => Ok(Call::Turn),
        Step::Ack(ticket) => Ok(Call::Ack(ticket)),
        Step::Milestone(document, revision) => Ok(Call::Milestone(document, revision)),
        Step::Retire => Ok(Call::Retire),
    }
}

/// The calls of these rows.
pub fn calls_of(rt: &(impl Abort + AllocGlobal), rows: &[Row]) -> Vec<Call> {
    let mut calls = Vec::new(rt.alloc());
    for row in rows {
        let call = call_of(rt.alloc(), &row.0).expect(rt, "a call");
        assert!(rt; calls.push(call).is_ok());
    }
    calls
}

fn ordered<L: Life>(tickets: &[Ticket<L>], at: usize) -> Gives {
    match tickets.get(at) {
        Some(ticket) => Gives::Ordered(at, ticket.reply(), ticket.length()),
        None => Gives::NoTicket,
    }
}

fn given<D, L: Life>(answer: &Answer<D, L>, tickets: &[Ticket<L>]) -> Gives {
    match answer {
        Answer::Submitted(at) => ordered(tickets, *at),
        Answer::Turned(count) => Gives::Settled(*count),
        Answer::Acked(Some(told)) => Gives::Acked(told.len()),
        Answer::Acked(None) => Gives::Waits,
        Answer::Put => Gives::Put,
        Answer::Retired => Gives::Retired,
        Answer::Refused(refusal) => Gives::Refused(*refusal),
    }
}

/// So many of the rows are answered, and then the run stops by this.
pub fn is_answered<D, L: Life>(
    rt: &impl Abort,
    run: &Driven<D, L>,
    rows: &[Row],
    count: usize,
    stopped: Option<Refusal>,
) {
    assert_eq!(rt; run.answers.len(), count);
    assert_eq!(rt; run.stopped, stopped);
    for (answer, row) in run.answers.iter().zip(rows) {
        assert_eq!(rt; given(answer, &run.tickets), row.1);
    }
}

// A run from a store that was just opened, where so many rows are answered. The device comes back.
fn driven<D: Disk + Drop, L: Life, R: Wait + Abort + AllocGlobal>(
    rt: &R,
    store: Store<D>,
    opened: Opened,
    blank: Blank,
    rows: &[Row],
    count: usize,
    stopped: Option<Refusal>,
) -> D
    requires book { opened ≡ L.book }
    requires name { blank.name ≡ L.name }
    requires parts { blank.parts ≡ L.parts }
    requires seats { blank.parts ≡ 2 }
    requires begin { state_of store ≡ L.start }
    requires works { has_failed store ≡ false }
{
    let alloc = rt.alloc();
    let (mut flusher, mut board) = match start::<_, L>(alloc, store, opened, blank, 1) {
        Ok(both) => both,
        Err(fault) => panic!(rt; "{}", fault.refusal),
    };
    let mut seat = board.seat().expect(rt, "a seat");
    let calls = calls_of(rt, rows);
    let run = drive(rt, alloc, &mut flusher, &mut board, &mut seat, &calls);
    is_answered(rt, &run, rows, count, stopped);
    flusher.end(rt).close()
}

/// All rows are answered so.
pub fn runs<D: Disk + Drop>(
    rt: &(impl Wait + Abort + AllocGlobal),
    store: Store<D>,
    rows: &[Row],
) -> D
    requires { has_failed store ≡ false }
{
    stops(rt, store, rows, rows.len(), None)
}

/// So many rows are answered so, and then the run stops by this.
pub fn stops<D: Disk + Drop, R: Wait + Abort + AllocGlobal>(
    rt: &R,
    store: Store<D>,
    rows: &[Row],
    count: usize,
    stopped: Option<Refusal>,
) -> D
    requires { has_failed store ≡ false }
{
    let opened = Opened::new().expect(rt, "logs");
    driven::<_, Brand, R>(rt, store, opened, Blank::new(2), rows, count, stopped)
}
