//! What a place is told.
ghost use Rattle.std.specs.Prelude.{◌≡◌, ◌↔◌, ◌≤◌, Some, None, Ok, length, OnErr, IsSome};
ghost use Rattle.recovery.specs.Found.{commands_of};
ghost use Rattle.published.specs.Batches.{IsTheLonger};
ghost use Rattle.hub.specs.Moves.{StandsAt};

use crate::seat::Ticket;
use crate::tokens::Stopped;
use published::{Life, Told};

// What those who wait at a place are told: the token of what is published up to what is settled, as far as one of them waited for it, and
// the token that the store has failed. It stands behind a lock of its own.
#[derive(Drop)]
pub(crate) struct Place<D, L: Life> {
    told: Told<D, L>,
    stopped: Option<Stopped<L>>,
}

impl<D, L: Life> Place<D, L> {
    // a place that is told what was published when its hub was made
    pub(crate) fn new(told: Told<D, L>) -> Place<D, L>
        ensures { result ≡ record { told = told; stopped = None } }
    {
        Place {
            told,
            stopped: None,
        }
    }

    // tells it of what is published; what it was told is never taken back by something older
    pub(crate) fn tell(&mut self, told: &Told<D, L>)
        ensures longer { IsTheLonger self.old.told told.now self.new.told }
        ensures stopped { self.new.stopped ≡ self.old.stopped }
    {
        self.told.learn(told);
    }

    // tells it that the store has failed
    pub(crate) fn stop(&mut self, stopped: Stopped<L>)
        ensures { self.new ≡ record self.old { stopped = Some stopped } }
    {
        self.stopped = Some(stopped);
    }

    // What it was told, where that holds a ticket's length; else the token that the store has failed, if it was told of that, and `None`
    // where it wasn't.
    pub(crate) fn ack(&self, ticket: &Ticket<L>) -> Result<Option<Told<D, L>>, Stopped<L>>
        ensures settled { (ticket.now.length ≤ length (commands_of self.now.told)) ↔ (result ≡ Ok (Some self.now.told)) }
        ensures waits { result ≡ Ok None → self.now.stopped ≡ None }
        ensures stopped { OnErr result (IsSome self.now.stopped) }
        ensures stands { StandsAt L.start ticket.now result }
    {
        if ticket.length() as u64 <= self.told.len() {
            ticket.stands(&self.told);
            return Ok(Some(self.told.copy()));
        }
        match &self.stopped {
            Some(stopped) => Err(stopped.copy()),
            None => Ok(None),
        }
    }
}
