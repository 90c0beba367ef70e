//! A plain program that goes through a schedule, step by step, for tests: richd runs it nowhere.
ghost use Rattle.std.specs.Prelude.{◌≡◌, [], OnOk, OnErr};
ghost use Rattle.world.specs.Followed.{begun_followed, made_by, submitted, submitted_numbered, resent, taken_off, written, shown, settled, acknowledged, may_leave, forgotten, stopped, opened, running, followed_step, Adds};

use crate::sent::{LONGEST, is_among_last};
use std::alloc::{AllocError, Global};
use std::marker::Model;

/// A command in the order: its source's number for it, and the revision that came of it.
#[derive(Clone, Copy, Debug, PartialEq, Eq)]
pub struct Place {
    pub number: u64,
    pub revision: u64,
}

/// A ticket: the number of its command, whether that was a retry, the revision that its reply names, and the length of the
/// order that has to be settled before it is acknowledged.
#[derive(Clone, Copy, Debug, PartialEq, Eq)]
pub struct Waiting {
    pub number: u64,
    pub again: bool,
    pub revision: u64,
    pub length: u64,
}

/// An event as it concerns the one source and the one document that are followed.
#[derive(Clone, Copy)]
pub enum Happening {
    /// A command of this number; where it is no retry the rule of acceptance takes it as this revision, or refuses it.
    Submit(u64, Option<u64>),
    /// So many commands are taken off.
    Take(u64),
    /// The batch is written, or not to its end.
    Device(bool),
    Publish,
    Settle,
    /// The ticket of this place is acknowledged.
    Ack(u64),
    /// So many commands are left.
    Crash(u64),
    /// So many commands are left, and the floors that are picked may be or may not.
    Open(u64, bool),
    /// The same as `Submit`, of a command that was sent before.
    Resend(u64, Option<u64>),
}

// The greatest number of a command.
const LAST_NUMBER: u64 = (1 << 53) - 1;

/// One source's commands to one document of a store that began without documents, and what became of them. What the rule of
/// acceptance says of a command that is no retry comes with the event, as does whether floors may be picked: all else is told
/// by numbers and lengths.
#[derive(Drop)]
pub struct Follower {
    order: Vec<Place>,
    tickets: Vec<Waiting>,
    acks: Vec<Waiting>,
    sent: u64,
    taken: u64,
    settled: u64,
    published: u64,
    without: u64,
    with_batch: u64,
    failed: bool,
    crashed: bool,
}

impl Model for Follower {
    ghost use Rattle.world.specs.Followed as spec;

    ghost Value = { spec.Followed };

    ghost view = { λ f. record {
      order = f.order.items;
      tickets = f.tickets.items;
      acks = f.acks.items;
      sent = f.sent;
      taken = f.taken;
      settled = f.settled;
      published = f.published;
      without = f.without;
      with_batch = f.with_batch;
      failed = f.failed;
      crashed = f.crashed;
    } };
}

impl Follower {
    /// A store that was just opened, without documents.
    pub fn new(alloc: Global) -> Follower
        ensures { result ≡ begun_followed }
    {
        Follower {
            order: Vec::new(alloc),
            tickets: Vec::new(alloc),
            acks: Vec::new(alloc),
            sent: 0,
            taken: 0,
            settled: 0,
            published: 0,
            without: 0,
            with_batch: 0,
            failed: false,
            crashed: false,
        }
    }

    /// The tickets that are out, in order.
    pub fn tickets(&self) -> &[Waiting]
        ensures { result.now ≡ self.now.tickets }
    {
        self.tickets.as_slice()
    }

    /// All acknowledgements, in order.
    pub fn acks(&self) -> &[Waiting]
        ensures { result.now ≡ self.now.acks }
    {
        self.acks.as_slice()
    }

    /// The order of the commands that were taken.
    pub fn order(&self) -> &[Place]
        ensures { result.now ≡ self.now.order }
    {
        self.order.as_slice()
    }

    /// The two lengths of the order that a crash may leave.
    pub fn left(&self) -> (u64, u64)
        ensures { result ≡ (self.now.without, self.now.with_batch) }
    {
        (self.without, self.with_batch)
    }

    // The revision that a number made, where it is one of the last of the order, as many as a window has at most.
    fn made_by(&self, number: u64) -> Option<u64>
        ensures { result ≡ made_by number self.now.order }
    {
        let count = self.order.len() as u64;
        if count >= number && count - number >= LONGEST {
            return None;
        }
        let place = number.saturating_sub(1) as usize;
        self.order.as_slice().get(place).map(|place| place.revision)
    }

    // A command comes. One of the last numbers is a retry, and waits for all that is in the order.
    fn submit(&mut self, number: u64, taken_as: Option<u64>) -> Result<(), AllocError>
        ensures ok { OnOk result (self.new ≡ submitted self.old number taken_as) }
        ensures only { OnErr result (Adds self.old (submitted self.old number taken_as)) }
        ensures unchanged { OnErr result (self.new ≡ self.old) }
    {
        let ahead = self.order.len() as u64;
        if let Some(revision) = self.made_by(number) {
            self.tickets.push(Waiting {
                number,
                again: true,
                revision,
                length: ahead,
            })?;
        } else if let Some(revision) = taken_as {
            self.tickets.reserve(1)?;
            self.order.push(Place { number, revision })?;
            let length = self.order.len() as u64;
            self.tickets.push(Waiting {
                number,
                again: false,
                revision,
                length,
            })?;
        }
        self.sent = self.sent.max(number);
        Ok(())
    }

    // A command that may come: its number is one.
    fn submit_numbered(&mut self, number: u64, taken_as: Option<u64>) -> Result<(), AllocError>
        ensures ok { OnOk result (self.new ≡ submitted_numbered self.old number taken_as) }
        ensures only { OnErr result (Adds self.old (submitted_numbered self.old number taken_as)) }
        ensures unchanged { OnErr result (self.new ≡ self.old) }
    {
        if number >= 1 && number <= LAST_NUMBER {
            self.submit(number, taken_as)
        } else {
            Ok(())
        }
    }

    // A command that is sent again: its number is one of the last that were sent.
    fn resend(&mut self, number: u64, taken_as: Option<u64>) -> Result<(), AllocError>
        ensures ok { OnOk result (self.new ≡ resent self.old number taken_as) }
        ensures only { OnErr result (Adds self.old (resent self.old number taken_as)) }
        ensures unchanged { OnErr result (self.new ≡ self.old) }
    {
        if is_among_last(number, self.sent) {
            self.submit_numbered(number, taken_as)
        } else {
            Ok(())
        }
    }

    // So many of the next commands are taken off, at least one, where no batch is being written.
    fn take(&mut self, count: u64)
        ensures { self.new ≡ taken_off self.old count }
    {
        let untaken = (self.order.len() as u64).saturating_sub(self.taken);
        if count > 0 && count <= untaken && self.settled == self.taken {
            self.taken += count;
            self.with_batch = self.taken;
        }
    }

    // The writing of the batch ends: where all is done a crash leaves it.
    fn written(&mut self, done: bool)
        ensures { self.new ≡ written self.old done }
    {
        if self.without < self.taken && !self.failed {
            if done {
                self.without = self.taken;
                self.with_batch = self.taken;
            } else {
                self.failed = true;
            }
        }
    }

    // A batch that is done is shown.
    fn publish(&mut self)
        ensures { self.new ≡ shown self.old }
    {
        if self.published < self.taken && self.without == self.taken {
            self.published = self.taken;
        }
    }

    // A batch that is shown is settled.
    fn settle(&mut self)
        ensures { self.new ≡ settled self.old }
    {
        if self.settled < self.taken && self.published == self.taken {
            self.settled = self.taken;
        }
    }

    // A ticket is acknowledged where its length is settled.
    fn acknowledge(&mut self, place: u64) -> Result<(), AllocError>
        ensures ok { OnOk result (self.new ≡ acknowledged self.old place) }
        ensures only { OnErr result (Adds self.old (acknowledged self.old place)) }
        ensures unchanged { OnErr result (self.new ≡ self.old) }
    {
        if let Some(ticket) = self.tickets.as_slice().get(place as usize) {
            let ticket = *ticket;
            if ticket.length <= self.settled {
                self.acks.push(ticket)?;
            }
        }
        Ok(())
    }

    // Whether a crash may leave so many commands.
    fn may_leave(&self, kept: u64) -> bool
        ensures { result ≡ may_leave self.now kept }
    {
        kept == self.without || kept == self.with_batch
    }

    // So many commands are left, and what memory held is gone.
    fn forget(&mut self, kept: u64)
        ensures { self.new ≡ forgotten self.old kept }
    {
        self.without = kept;
        self.with_batch = kept;
        self.tickets.clear();
        self.failed = false;
    }

    // The machine stops, and so many commands are left.
    fn crash(&mut self, kept: u64)
        ensures { self.new ≡ stopped self.old kept }
    {
        if self.may_leave(kept) {
            self.forget(kept);
            self.crashed = true;
        }
    }

    // The store is opened with so many commands.
    fn open(&mut self, kept: u64, picked: bool)
        ensures { self.new ≡ opened self.old kept picked }
    {
        if self.may_leave(kept) && picked {
            self.forget(kept);
            self.order.truncate(kept as usize);
            self.taken = kept;
            self.settled = kept;
            self.published = kept;
            self.crashed = false;
        }
    }

    // One event of a machine that runs.
    fn run(&mut self, event: Happening) -> Result<(), AllocError>
        ensures ok { OnOk result (self.new ≡ running self.old event) }
        ensures only { OnErr result (Adds self.old (running self.old event)) }
        ensures unchanged { OnErr result (self.new ≡ self.old) }
    {
        match event {
            Happening::Submit(number, taken_as) => self.submit_numbered(number, taken_as)?,
            Happening::Resend(number, taken_as) => self.resend(number, taken_as)?,
            Happening::Take(count) => self.take(count),
            Happening::Device(done) => self.written(done),
            Happening::Publish => self.publish(),
            Happening::Settle => self.settle(),
            Happening::Ack(place) => self.acknowledge(place)?,
            Happening::Crash(kept) => self.crash(kept),
            Happening::Open(kept, picked) => {
                if self.failed {
                    self.open(kept, picked);
                }
            }
        }
        Ok(())
    }

    /// One event. One that isn't possible changes nothing, and from a crash to the next opening only an opening is. It may
    /// fail only where it would add a ticket or an acknowledgement, and then nothing has changed.
    pub fn step(&mut self, event: Happening) -> Result<(), AllocError>
        ensures ok { OnOk result (self.new ≡ followed_step self.old event) }
        ensures only { OnErr result (Adds self.old (followed_step self.old event)) }
        ensures unchanged { OnErr result (self.new ≡ self.old) }
    {
        if !self.crashed {
            return self.run(event);
        }
        if let Happening::Open(kept, picked) = event {
            self.open(kept, picked);
        }
        Ok(())
    }
}
