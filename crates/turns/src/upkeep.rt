//! Milestones between turns.
ghost use Rattle.turns.specs.Writing.{IsUpkeep};

use crate::exchange::{Exchange, exchange_with};
use composers::Composers;
use disk::Disk;
use flusher::Flusher;
use published::Life;
use recovery::Receipt;
use refusal::Refusal;
use revision::State;
use std::alloc::Global;
use std::sync::Wait;

/// A store has no more slots.
const MOST_SLOTS: u32 = 1024;

/// What the flusher's thread keeps from turn to turn for the milestones. Without composers none are put, but those that a full journal wants.
#[derive(Drop)]
pub struct Upkeep {
    exchange: Option<Exchange>,
}

impl Upkeep {
    /// A job of a document is due where it passes a multiple of `every` revisions; 0 hands out none. All documents of the state are looked
    /// at in the first turn. Where there is no memory for it, it has no composers.
    pub fn new(alloc: Global, every: u32, composers: Option<Composers>, state: &State) -> Upkeep {
        Upkeep {
            exchange: exchange_with(alloc, every, composers, state),
        }
    }

    // Notes a batch that was settled, whose documents are looked at in the next turn.
    pub(crate) fn note<D>(&mut self, receipt: &Receipt<D>) {
        if let Some(exchange) = &mut self.exchange {
            exchange.note(receipt.batch().as_slice());
        }
    }

    // Puts what the composers have done, hands out the jobs that are due, and retires the oldest segment while it may. A channel without a
    // message or without a place leaves the rest to a later turn, and so does the end of memory. Refused with `Fault` alone.
    pub(crate) fn keep_up<D: Disk, L: Life, R: Wait>(
        &mut self,
        rt: &R,
        alloc: Global,
        flusher: &mut Flusher<D, L>,
    ) -> Result<(), Refusal>
        ensures { IsUpkeep result flusher.old flusher.new }
    {
        if let Err(refusal) = self.compose_on(rt, alloc, flusher) {
            return Err(refusal);
        }
        retire_all(flusher)
    }

    // Puts what the composers have done, and hands out the jobs that are due. Refused with `Fault` alone.
    fn compose_on<D: Disk, L: Life, R: Wait>(
        &mut self,
        rt: &R,
        alloc: Global,
        flusher: &mut Flusher<D, L>,
    ) -> Result<(), Refusal>
        ensures { IsUpkeep result flusher.old flusher.new }
    {
        match &mut self.exchange {
            None => Ok(()),
            Some(exchange) => exchange.compose_on(rt, alloc, flusher),
        }
    }
}

// Retires the oldest segment while nothing needs it. Refused with `Fault` alone.
fn retire_all<D: Disk, L: Life>(flusher: &mut Flusher<D, L>) -> Result<(), Refusal>
    ensures { IsUpkeep result flusher.old flusher.new }
{
    for _ in 0..MOST_SLOTS {
        let more = match retire_one(flusher) {
            Ok(more) => more,
            Err(refusal) => return Err(refusal),
        };
        if !more {
            return Ok(());
        }
    }
    Ok(())
}

// Retires the oldest segment where nothing needs it, and tells whether it did. Refused with `Fault` alone.
#[tactic(auto, using(crate::proofs::Writing::upkeep_fault, crate::proofs::Writing::upkeep_but))]
fn retire_one<D: Disk, L: Life>(flusher: &mut Flusher<D, L>) -> Result<bool, Refusal>
    ensures { IsUpkeep result flusher.old flusher.new }
{
    match flusher.retire() {
        Ok(()) => Ok(true),
        Err(refusal) => {
            if refusal == Refusal::Fault {
                return Err(refusal);
            }
            Ok(false)
        }
    }
}
