//! The hub of a store, and what a session's thread asks of it, where nothing is refused.
ghost use Rattle.std.specs.Prelude.{◌≡◌, ◌+◌, []};
ghost use Rattle.recovery.specs.Open.{state_of};
ghost use Rattle.flusher.specs.Holding.{committed_of, waiting_of};
ghost use Rattle.turns.specs.Counting.{IsAt};

use disk::MemDisk;
use flusher::{Flusher, start};
use hub::{Closer, Hub, Seat, Tally, Ticket, Writer};
use published::{Life, Opened, Told};
use recovery::Store;
use revision::Command;
use std::process::Abort;
use std::sync::Wait;
use std::sync::ledger::Blank;

/// The flusher and the hub of a store, with the rights to the hub.
pub fn started<L: Life>(
    rt: &(impl Abort + AllocGlobal),
    store: Store<MemDisk>,
    opened: Opened,
    blank: Blank,
    seats: u32,
) -> (Flusher<MemDisk, L>, Hub<MemDisk, L>, Writer<L>, Closer<L>)
    requires book { opened ≡ L.book }
    requires name { blank.name ≡ L.name }
    requires parts { blank.parts ≡ L.parts }
    requires seats { blank.parts ≡ seats + 1 }
    requires begin { state_of store ≡ L.start }
    ensures at { IsAt result.2 result.0 }
    ensures nothing { (committed_of result.0 ≡ []) × (waiting_of result.0 ≡ []) }
{
    let (flusher, hub, writer, (closer, _tally)) = started_to_end(rt, store, opened, blank, seats);
    (flusher, hub, writer, closer)
}

/// And with the tally of its seats, by which the hub can be ended.
pub fn started_to_end<L: Life>(
    rt: &(impl Abort + AllocGlobal),
    store: Store<MemDisk>,
    opened: Opened,
    blank: Blank,
    seats: u32,
) -> (
    Flusher<MemDisk, L>,
    Hub<MemDisk, L>,
    Writer<L>,
    (Closer<L>, Tally<L>),
)
    requires book { opened ≡ L.book }
    requires name { blank.name ≡ L.name }
    requires parts { blank.parts ≡ L.parts }
    requires seats { blank.parts ≡ seats + 1 }
    requires begin { state_of store ≡ L.start }
    ensures at { IsAt result.2 result.0 }
    ensures nothing { (committed_of result.0 ≡ []) × (waiting_of result.0 ≡ []) }
    ensures none { result.3.1.seats ≡ 0 }
{
    let (flusher, board) = match start::<_, L>(rt.alloc(), store, opened, blank, seats) {
        Ok(both) => both,
        Err(fault) => panic!(rt; "{}", fault.refusal),
    };
    let mut board = board;
    let tally = board.tally();
    let (hub, writer, closer) = Hub::new(board);
    (flusher, hub, writer, (closer, tally))
}

/// A command that is taken.
pub fn submitted<L: Life, R: Wait + Abort + AllocGlobal>(
    rt: &R,
    hub: &Hub<MemDisk, L>,
    seat: &mut Seat<L>,
    command: &Command,
) -> Ticket<L> {
    match hub.submit(rt, rt.alloc(), seat, command) {
        Ok(ticket) => ticket,
        Err(why) => panic!(rt; "{}", why.refusal()),
    }
}

/// And its acknowledgement.
pub fn acknowledged<L: Life, R: Wait + Abort>(
    rt: &R,
    hub: &Hub<MemDisk, L>,
    ticket: &Ticket<L>,
) -> Told<MemDisk, L> {
    match hub.wait_ack(rt, ticket) {
        Ok(told) => told,
        Err(stopped) => panic!(rt; "{}", stopped.refusal()),
    }
}
