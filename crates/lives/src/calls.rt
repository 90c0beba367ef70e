//! One thread's run over a board and a flusher.

use published::{Life, Told};
use refusal::Refusal;
use revision::Command;

/// A call of a run.
#[derive(Drop)]
pub enum Call {
    /// Submits a command.
    Submit(Command),
    /// Takes off the longest run of commands whose batch fits a slot, writes it, and settles it; nothing more is done where there is none.
    Turn,
    /// Acknowledges the ticket of this place, counted from 0 among those that the run was given.
    Ack(usize),
    /// Puts a milestone of the document of this number, in order of creation, at this revision.
    Milestone(u32, u64),
    /// Retires the oldest segment.
    Retire,
}

/// What a call of a run gave.
#[derive(Drop)]
pub enum Answer<D, L: Life> {
    /// The place of the ticket.
    Submitted(usize),
    /// How many commands were settled.
    Turned(usize),
    /// The token of what was published, where the ticket is settled; `None` where it isn't, or there is no such ticket.
    Acked(Option<Told<D, L>>),
    /// The milestone is put.
    Put,
    /// The oldest segment is retired.
    Retired,
    /// The call was refused: what was ordered, written and settled is unchanged.
    Refused(Refusal),
}
