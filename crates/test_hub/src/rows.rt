//! The life of a board as rows: what is done, and what that gives.
use crate::publishing::Publishing;
use disk::FaultDisk;
use hub::{Board, Seat, Ticket};
use published::{Life, Told};
use recovery::{Receipt, Shape, Store};
use refusal::Refusal;
use revision::{Command, Reply, State};
use std::process::Abort;
use test_fixtures::{command, command_behind, wide_command};

/// A device of 263,232 bytes: slots of 256, and cells that have room for texts of 65,536 letters.
pub const SHAPE: Shape = Shape {
    slots: 2,
    slot: 256,
    docs: 2,
    cell: 65_664,
    sources: 4,
    keep: 2,
};

/// A device of 1,600 bytes.
pub const SMALL: Shape = Shape {
    slots: 2,
    slot: 256,
    docs: 2,
    cell: 256,
    sources: 4,
    keep: 2,
};

/// Bytes of a batch at most, so that it finds room in an empty slot.
pub const CAP: u32 = 241;

/// What is done. Tickets, batches and tokens have their places; the token at 0 is the start, and each batch has the next one.
#[derive(Clone, Copy)]
pub enum Step {
    /// Submits the command of this number, with so many letters.
    Submit(u64, u32),
    /// Submits the edit of this number, of one letter behind the first one.
    Behind(u64),
    /// Submits the edit of this number, which fills a slot.
    Wide(u64),
    /// Looks at what the order makes.
    Order,
    /// Takes the next batch, commits it and publishes it.
    Take,
    /// Settles the batch of this place by the token of that one.
    Settle(usize, usize),
    /// Acknowledges the ticket of this place.
    Ack(usize),
    /// Takes the next batch, whose commit the device fails, and fails the board for that.
    Fail,
}

/// What that gives.
#[derive(Clone, Copy, Debug, PartialEq, Eq)]
pub enum Gives {
    /// A ticket with this reply, and how many commands the order has then.
    Ordered(Reply, usize),
    /// One document at this revision, with so many letters.
    Stands(u64, u64),
    /// The batch has so many commands.
    Committed(usize),
    Settled,
    /// A token of so many commands.
    Acked(u64),
    Waits,
    Failed,
    Refused(Refusal),
    /// There is none of this place, or it isn't the newest, or nothing has failed.
    Nothing,
}

pub type Row = (Step, Gives);

/// A board with its one seat, the store of its batches with what is published of it, and what was given out so far.
#[derive(Drop)]
pub struct BoardLife<L: Life> {
    board: Board<FaultDisk, L>,
    seat: Seat<L>,
    publishing: Publishing<L>,
    tickets: Vec<Ticket<L>>,
    batches: Vec<Receipt<FaultDisk>>,
    tokens: Vec<Told<FaultDisk, L>>,
}

impl<L: Life> BoardLife<L> {
    /// A board with a seat, and the store under it with what is published of it.
    pub fn new(
        rt: &(impl Abort + AllocGlobal),
        board: Board<FaultDisk, L>,
        seat: Seat<L>,
        publishing: Publishing<L>,
    ) -> BoardLife<L> {
        let mut tokens = Vec::new(rt.alloc());
        assert!(rt; tokens.push(publishing.told().copy()).is_ok());
        BoardLife {
            board,
            seat,
            publishing,
            tickets: Vec::new(rt.alloc()),
            batches: Vec::new(rt.alloc()),
            tokens,
        }
    }

    /// Gives the store back.
    pub fn into_store(self) -> Store<FaultDisk> {
        let BoardLife {
            board: _,
            seat: _,
            publishing,
            tickets: _,
            batches: _,
            tokens: _,
        } = self;
        publishing.into_store()
    }
}

fn submitted<L: Life>(
    rt: &(impl Abort + AllocGlobal),
    life: &mut BoardLife<L>,
    command: Result<Command, Refusal>,
) -> Gives {
    let command = command.expect(rt, "a command");
    match life.board.submit(rt.alloc(), &mut life.seat, &command) {
        Ok(ticket) => {
            let gives = Gives::Ordered(ticket.reply(), ticket.length());
            assert!(rt; life.tickets.push(ticket).is_ok());
            gives
        }
        Err(refusal) => Gives::Refused(refusal),
    }
}

/// The first document of a state.
pub fn stands(state: &State) -> Gives {
    match state.documents() {
        [document] => Gives::Stands(document.revision(), document.document().len16()),
        _ => Gives::Nothing,
    }
}

fn committed<L: Life>(rt: &(impl Abort + AllocGlobal), life: &mut BoardLife<L>) -> Gives {
    let run = life.board.take(rt.alloc(), CAP).expect(rt, "memory");
    let count = run.len();
    if count == 0 {
        run.nothing();
        return Gives::Committed(0);
    }
    if run.place() as u64 != life.publishing.told().len() {
        life.publishing.give_up(run);
        return Gives::Nothing;
    }
    let (receipt, _made) = life.publishing.write(rt, run);
    assert!(rt; life.tokens.push(life.publishing.told().copy()).is_ok());
    assert!(rt; life.batches.push(receipt).is_ok());
    Gives::Committed(count)
}

fn settled<L: Life>(life: &mut BoardLife<L>, batch: usize, token: usize) -> Gives {
    let Some(receipt) = life.batches.get(batch) else {
        return Gives::Nothing;
    };
    let Some(told) = life.tokens.get(token) else {
        return Gives::Nothing;
    };
    match life.board.settle(receipt, told.copy()) {
        Ok(()) => Gives::Settled,
        Err(refusal) => Gives::Refused(refusal),
    }
}

fn acknowledged<L: Life>(life: &BoardLife<L>, at: usize) -> Gives {
    let Some(ticket) = life.tickets.get(at) else {
        return Gives::Nothing;
    };
    match life.board.ack(ticket) {
        Ok(Some(told)) => Gives::Acked(told.len()),
        Ok(None) => Gives::Waits,
        Err(refusal) => Gives::Refused(refusal),
    }
}

fn failed<L: Life>(rt: &(impl Abort + AllocGlobal), life: &mut BoardLife<L>) -> Gives {
    let run = life.board.take(rt.alloc(), CAP).expect(rt, "memory");
    match life.publishing.fail(rt, run) {
        Some(cause) => {
            life.board.fail(cause);
            Gives::Failed
        }
        None => Gives::Nothing,
    }
}

/// Does a step.
pub fn given<L: Life>(
    rt: &(impl Abort + AllocGlobal),
    life: &mut BoardLife<L>,
    step: &Step,
) -> Gives {
    match *step {
        Step::Submit(number, letters) => {
            submitted(rt, life, command(rt.alloc(), number, letters))
        }
        Step::Behind(number) => submitted(rt, life, command_behind(rt.alloc(), number)),
        Step::Wide(number) => submitted(rt, life, wide_command(rt.alloc(), number)),
        Step::Order => stands(life.board.state()),
        Step::Take => committed(rt, life),
        Step::Settle(batch, token) => settled(life, batch, token),
        Step::Ack(ticket) => acknowledged(life, ticket),
        Step::Fail => failed(rt, life),
    }
}
