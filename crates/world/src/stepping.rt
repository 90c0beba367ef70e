//! A plain program that steps a world, for tests: richd runs it nowhere.
ghost use Rattle.std.specs.Prelude.{◌≡◌, ◌<◌, ◌≤◌, ◌+◌, ◌++◌, ◌&&◌, [], true, nat_le, length, take, map, option_to_list, slice_get, if◌then◌else◌, IfOk, OnOk, OnErr};
ghost use Rattle.std.specs.Vec.{vec_len, vec_capacity};
ghost use Rattle.revision.specs.Acceptance.{answer};
ghost use Rattle.revision.specs.Pending.{record_of};
ghost use Rattle.revision.specs.State.{newest_revision, all_grow, fold};
ghost use Rattle.world.specs.Event as spec_event;
ghost use Rattle.world.specs.World.{takens, begun, last_composed as spec_last_composed};
ghost use Rattle.world.specs.Step.{with_command, may_leave, stopped, acknowledged as spec_acknowledged, can_open, opened, running_step, step as spec_step};
ghost use Rattle.world.specs.Stepping.{empty_store, taken_of, outcome_of, event_of, floors_left, are_reached as spec_are_reached};

use crate::entry::Entry;
use crate::progress::Progress;
use crate::sent::{Sent, is_among_last, last_number};
use crate::ticket::{Ack, Ticket};
use refusal::Refusal;
use revision::{Command, DocState, Limits, Plan, State};
use std::alloc::{AllocError, Global};
use std::marker::Model;

/// How the writing of a batch ends.
#[derive(Clone, Copy)]
pub enum Outcome {
    /// All its device calls were good.
    Done,
    /// One of them failed.
    Failed,
    /// It was given up between two of them.
    Stopped,
}

/// What may happen to a server.
#[derive(Clone, Copy)]
pub enum Event<'a> {
    /// A source sends a command.
    Submit(&'a Command),
    /// The next commands, so many, are taken off to be written in one batch.
    Take(usize),
    /// The writing of the batch ends.
    Device(Outcome),
    /// The batch is shown.
    Publish,
    /// The batch is settled.
    Settle,
    /// The ticket of this place is acknowledged.
    Ack(usize),
    /// The document of this number is composed at this revision.
    Compose(usize, u64),
    /// The machine stops, and the device keeps so many commands of the order.
    Crash(usize),
    /// The store is opened with so many commands of the order, each document from a milestone at the revision that stands at its
    /// number, or from none where 0 or nothing stands there. A milestone is possible that was composed.
    Open(usize, &'a [u64]),
    /// A source sends its last command to a document again.
    Resend(&'a Command),
}

/// A world that began with a store without documents: the board, the whole of its order, how much of it is shown, the two lengths of it that
/// a crash may leave, the tickets that are out, all acknowledgements, the commands that were sent, and what was composed.
#[derive(Drop)]
pub struct World {
    limits: Limits,
    board: Progress,
    order: Vec<Entry>,
    published: usize,
    without: usize,
    with_batch: usize,
    tickets: Vec<Ticket>,
    acks: Vec<Ack>,
    sent: Vec<Sent>,
    composed: Vec<(usize, u64)>,
    failed: bool,
    crashed: bool,
}

impl Model for World {
    ghost use Rattle.world.specs.World as spec;
    ghost use Rattle.world.specs.Stepping.{world_of, IsStepped};

    ghost Value = { spec.World };

    ghost view = { world_of };

    ghost invariant = { IsStepped };
}

impl World {
    /// A store that was just formatted and opened.
    pub fn new(alloc: Global, limits: Limits) -> World
        ensures { result ≡ begun (empty_store limits) }
    {
        World {
            limits,
            board: Progress::new(alloc, State::new(alloc, limits)),
            order: Vec::new(alloc),
            published: 0,
            without: 0,
            with_batch: 0,
            tickets: Vec::new(alloc),
            acks: Vec::new(alloc),
            sent: Vec::new(alloc),
            composed: Vec::new(alloc),
            failed: false,
            crashed: false,
        }
    }

    /// The order, the state after it, and how far it is written.
    pub fn board(&self) -> &Progress
        ensures { result.now ≡ self.now.board }
    {
        &self.board
    }

    /// How many commands are shown to readers.
    pub fn published(&self) -> usize
        ensures { result ≡ length self.now.published }
    {
        self.published
    }

    /// The two lengths of the order that a crash may leave.
    pub fn left(&self) -> (usize, usize)
        ensures { result ≡ (self.now.without, self.now.with_batch) }
    {
        (self.without, self.with_batch)
    }

    /// The tickets that are out, in order.
    pub fn tickets(&self) -> &[Ticket]
        ensures { result.now ≡ self.now.tickets }
    {
        self.tickets.as_slice()
    }

    /// All acknowledgements, in order.
    pub fn acks(&self) -> &[Ack]
        ensures { result.now ≡ self.now.acks }
    {
        self.acks.as_slice()
    }

    /// One event. One that isn't possible changes nothing, and from a crash to the next opening only an opening is. It may find
    /// no memory, and then nothing has changed.
    pub fn step(&mut self, alloc: Global, event: Event) -> Result<(), AllocError>
        ensures ok { OnOk result (self.new ≡ spec_step self.old (event_of self.old event.entry)) }
        ensures unchanged { OnErr result (self.new ≡ self.old) }
    {
        if !self.crashed {
            return self.run(alloc, event);
        }
        if let Event::Open(kept, milestones) = event {
            self.open(alloc, kept, milestones)?;
        }
        Ok(())
    }

    // One event of a machine that runs.
    fn run(&mut self, alloc: Global, event: Event) -> Result<(), AllocError>
        ensures ok { OnOk result (self.new ≡ running_step self.old (event_of self.old event.entry)) }
        ensures unchanged { OnErr result (self.new ≡ self.old) }
    {
        match event {
            Event::Submit(command) => self.submit(alloc, command)?,
            Event::Resend(command) => self.resend(alloc, command)?,
            Event::Take(count) => self.take(count),
            Event::Device(outcome) => self.end_writing(outcome),
            Event::Publish => self.publish(),
            Event::Settle => self.settle(),
            Event::Ack(place) => self.acknowledge(place)?,
            Event::Compose(document, revision) => self.compose(alloc, document, revision)?,
            Event::Crash(kept) => self.crash(kept),
            Event::Open(kept, milestones) => {
                if self.failed {
                    self.open(alloc, kept, milestones)?;
                }
            }
        }
        Ok(())
    }

    // A command comes to the board, which may give a ticket for it.
    fn submit(&mut self, alloc: Global, command: &Command) -> Result<(), AllocError>
        ensures ok { OnOk result (self.new ≡ running_step self.old (spec_event.Submit command.now)) }
        ensures unchanged { OnErr result (self.new ≡ self.old) }
    {
        // its number is in range
        command.facts();
        let sent = Sent::of(alloc, command)?;
        let entry = self.taken_of(alloc, command)?;
        self.sent.reserve(1)?;
        self.tickets.reserve(1)?;
        self.order.reserve(1)?;
        match self.board.submit(alloc, command, None) {
            Ok(ticket) => {
                self.tickets.push(ticket)?;
                self.sent.push(sent)?;
                add(&mut self.order, entry);
                Ok(())
            }
            Err(Refusal::NoMemory) => Err(AllocError),
            Err(_) => {
                self.sent.push(sent)?;
                Ok(())
            }
        }
    }

    // What the order keeps of a command where the board will take it.
    fn taken_of(&self, alloc: Global, command: &Command) -> Result<Option<Entry>, AllocError>
        ensures ok { IfOk result (λ entry. option_to_list entry
            ≡ taken_of command.now (answer self.now.board.state command.now)) }
    {
        match self.board.state().plan(alloc, command) {
            Ok(Plan::Taken(taken)) => Ok(Some(Entry::new(command, taken))),
            Ok(Plan::Again { rev: _ }) => Ok(None),
            Err(Refusal::NoMemory) => Err(AllocError),
            Err(_) => Ok(None),
        }
    }

    // The first commands of the order.
    fn first(&self, count: usize) -> &[Entry]
        requires { count ≤ length self.now.board.order }
        ensures { result.now ≡ take count self.now.board.order }
    {
        &self.order.as_slice()[..count]
    }

    // A command comes again where it is its source's last one.
    fn resend(&mut self, alloc: Global, command: &Command) -> Result<(), AllocError>
        ensures ok { OnOk result (self.new ≡ running_step self.old (spec_event.Resend command.now)) }
        ensures unchanged { OnErr result (self.new ≡ self.old) }
    {
        let last = last_number(command.name(), command.source(), self.sent.as_slice());
        if is_among_last(command.number(), last) {
            self.submit(alloc, command)?;
        }
        Ok(())
    }

    // So many of the next commands are taken off, at least one, where no batch is being written.
    fn take(&mut self, count: usize)
        ensures { self.new ≡ running_step self.old (spec_event.Take count) }
    {
        if self.board.settled() == self.board.taken() && self.board.take(count) {
            self.with_batch = self.board.taken();
        }
    }

    // The writing of the batch ends: where all is done a crash leaves it.
    fn end_writing(&mut self, outcome: Outcome)
        ensures { self.new ≡ running_step self.old (spec_event.Device (outcome_of outcome)) }
    {
        let taken = self.board.taken();
        if self.without < taken && !self.failed {
            match outcome {
                Outcome::Done => {
                    self.without = taken;
                    self.with_batch = taken;
                }
                Outcome::Failed => self.failed = true,
                Outcome::Stopped => self.failed = true,
            }
        }
    }

    // A batch that is done is shown.
    fn publish(&mut self)
        ensures { self.new ≡ running_step self.old spec_event.Publish }
    {
        let taken = self.board.taken();
        if self.published < taken && self.without == taken {
            self.published = taken;
        }
    }

    // A batch that is shown is settled.
    fn settle(&mut self)
        ensures { self.new ≡ running_step self.old spec_event.Settle }
    {
        let count = self.board.taken() - self.board.settled();
        self.board.settle(count, self.published);
    }

    // A ticket is acknowledged where its length is settled.
    fn acknowledge(&mut self, place: usize) -> Result<(), AllocError>
        ensures ok { OnOk result (self.new ≡ running_step self.old (spec_event.Ack place)) }
        ensures unchanged { OnErr result (self.new ≡ self.old) }
    {
        if let Some(ticket) = self.tickets.as_slice().get(place) {
            if self.board.acknowledges(ticket) {
                self.acks.push(Ack::of(ticket))?;
            }
        }
        Ok(())
    }

    // A revision of a document is composed that what is surely written has made.
    fn compose(&mut self, alloc: Global, document: usize, revision: u64) -> Result<(), AllocError>
        ensures ok { OnOk result (self.new ≡ running_step self.old (spec_event.Compose document revision)) }
        ensures unchanged { OnErr result (self.new ≡ self.old) }
    {
        let state = folded(alloc, self.limits, self.first(self.without))?;
        if !has_made(&state, document, revision) {
            return Ok(());
        }
        self.composed.push((document, revision))?;
        Ok(())
    }

    // Whether a crash may leave so many commands.
    fn may_leave(&self, kept: usize) -> bool
        ensures { result ≡ may_leave self.now kept }
    {
        kept == self.without || kept == self.with_batch
    }

    // The machine stops, and so many commands are left.
    fn crash(&mut self, kept: usize)
        ensures { self.new ≡ running_step self.old (spec_event.Crash kept) }
    {
        if self.may_leave(kept) {
            self.without = kept;
            self.with_batch = kept;
            self.tickets.clear();
            self.failed = false;
            self.crashed = true;
        }
    }

    // The store is opened with so many commands, each document from its milestone on.
    fn open(&mut self, alloc: Global, kept: usize, milestones: &[u64]) -> Result<(), AllocError>
        ensures ok { OnOk result (self.new ≡ (if can_open self.old kept (floors_left self.old kept milestones.now)
            then opened self.old kept (floors_left self.old kept milestones.now) else self.old)) }
        ensures unchanged { OnErr result (self.new ≡ self.old) }
    {
        // the limits are in their ranges
        self.limits.facts();
        if !self.may_leave(kept) {
            return Ok(());
        }
        let made = folded(alloc, self.limits, self.first(kept))?;
        let state = made.copy_from(alloc, milestones)?;
        if !are_reached(
            self.composed.as_slice(),
            made.documents(),
            state.documents(),
        ) {
            return Ok(());
        }
        self.board.reopen(state, kept);
        self.order.truncate(kept);
        self.published = kept;
        self.without = kept;
        self.with_batch = kept;
        self.tickets.clear();
        self.failed = false;
        self.crashed = false;
        Ok(())
    }
}

// Puts an entry behind the order, if there is one. There is room for it.
fn add(order: &mut Vec<Entry>, entry: Option<Entry>)
    requires { vec_len order.old < vec_capacity order.old }
    ensures { order.new.items ≡ order.old.items ++ option_to_list entry }
{
    if let Some(entry) = entry {
        let _ = order.push(entry);
    }
}

// Whether no document's floor is above both the one that it has without a milestone and what was composed of it.
fn are_reached(composed: &[(usize, u64)], made: &[DocState], held: &[DocState]) -> bool
    ensures { result ≡ spec_are_reached composed.now 0 (map record_of made.now) (map record_of held.now) }
{
    for number in 0..made.len().min(held.len()) {
        if held[number].floor() > made[number].floor().max(last_composed(composed, number)) {
            return false;
        }
    }
    true
}

// The greatest revision that a document was composed at, 0 where it wasn't.
fn last_composed(composed: &[(usize, u64)], document: usize) -> u64
    ensures { result ≡ spec_last_composed document composed.now }
{
    let mut last = 0;
    for (number, revision) in composed {
        if *number == document {
            last = u64::max(last, *revision);
        }
    }
    last
}

// The state that commands make of a store without documents.
fn folded(alloc: Global, limits: Limits, entries: &[Entry]) -> Result<State, AllocError>
    requires grow { all_grow (empty_store limits) (takens entries.now) ≡ true }
    ensures state { IfOk result (λ state. state ≡ fold (empty_store limits) (takens entries.now)) }
{
    let mut state = State::new(alloc, limits);
    for entry in entries {
        if let Err(refusal) = state.absorb(alloc, entry.taken()) {
            return Err(refusal.as_alloc_error());
        }
    }
    Ok(state)
}

// Whether a state has a document of this number at this revision, or beyond.
fn has_made(state: &State, document: usize, revision: u64) -> bool
    ensures { result
        ≡ (nat_le 1 revision && nat_le revision (newest_revision (slice_get state.now.documents document))) }
{
    1 <= revision && revision <= newest(state, document)
}

// The revision of the document of a number, 0 where there is none.
fn newest(state: &State, document: usize) -> u64
    ensures { result ≡ newest_revision (slice_get state.now.documents document) }
{
    match state.documents().get(document) {
        Some(found) => found.revision(),
        None => 0,
    }
}
