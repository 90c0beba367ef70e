//! Schedules of whole commands on an empty store, that `World::step` runs by the rule of acceptance: rows of steps and what is seen behind
//! them. It is worked out by hand.
use crate::steps::Step::{
    Ack, Compose, Crash, Device, Open, Publish, Resend, Settle, Submit, Take,
};
use attributes::Attrs;
use delta::{Builder, Delta, Op};
use refusal::Refusal;
use revision::{Command, Limits, Name, Reply};
use std::process::Abort;
use world::{Event, Outcome, Ticket, World};

/// An event, with its command's number in place of the command.
#[derive(Clone, Copy)]
pub(crate) enum Step {
    Submit(usize),
    Take(usize),
    Device(Outcome),
    Publish,
    Settle,
    Ack(usize),
    Compose(usize, u64),
    Crash(usize),
    Open(usize, &'static [u64]),
    Resend(usize),
}

/// A reply with the length that has to be settled before it is given.
pub(crate) type Said = (Reply, usize);

/// What is seen of a world.
#[derive(Clone, Copy)]
pub(crate) enum Seen {
    Tickets(&'static [Said]),
    Acks(&'static [Said]),
    /// The two lengths of the order that a crash may leave.
    Left(usize, usize),
    Ordered(usize),
    Settled(usize),
    Published(usize),
    /// The command of this number would be refused.
    Refused(usize, Refusal),
    /// The first document is live or deleted, and from this revision on it is held.
    First(bool, u64),
}

pub(crate) type Row = (&'static [Step], Seen);

pub(crate) const TAKEN: Said = (Reply::Taken { rev: 1 }, 1);

const AGAIN: Said = (Reply::Again { rev: 1 }, 1);

pub(crate) const WRITTEN: Step = Device(Outcome::Done);

// A retry waits for its edit. A crash may lose the edit: then it is taken anew.
const WAITING: [Row; 4] = [
    (
        &[Submit(1), Take(1), Resend(1), Ack(1)],
        Seen::Tickets(&[TAKEN, AGAIN]),
    ),
    (&[], Seen::Acks(&[])),
    (
        &[Crash(0), Submit(1), Open(0, &[]), Resend(1)],
        Seen::Tickets(&[TAKEN]),
    ),
    (&[], Seen::Ordered(1)),
];

// An acknowledged edit stays: no crash leaves less. A milestone that wasn't composed opens nothing.
const STAYING: [Row; 5] = [
    (
        &[
            Submit(1),
            Take(1),
            WRITTEN,
            Publish,
            Settle,
            Ack(0),
            Crash(0),
        ],
        Seen::Left(1, 1),
    ),
    (&[], Seen::Acks(&[TAKEN])),
    (
        &[
            Crash(1),
            Open(1, &[1]),
            Resend(1),
            Open(1, &[]),
            Resend(1),
            Ack(0),
        ],
        Seen::Tickets(&[AGAIN]),
    ),
    (&[], Seen::Acks(&[TAKEN, AGAIN])),
    (&[], Seen::Published(1)),
];

// Three revisions are acknowledged, and the third is composed.
const COMPOSED: Row = (
    &[
        Submit(1),
        Submit(2),
        Submit(3),
        Take(3),
        WRITTEN,
        Publish,
        Settle,
        Ack(0),
        Ack(1),
        Ack(2),
        Compose(0, 3),
    ],
    Seen::Acks(&THREE),
);

const THREE: [Said; 3] = [
    TAKEN,
    (Reply::Taken { rev: 2 }, 2),
    (Reply::Taken { rev: 3 }, 3),
];

// A fourth edit of revision 1 is taken then, its batch is given up, and the crash takes it back.
const GIVEN_UP: Row = (
    &[
        Submit(4),
        Take(1),
        Device(Outcome::Stopped),
        Ack(3),
        Crash(3),
    ],
    Seen::Acks(&THREE),
);

// From the milestone on that edit is too old.
const TOO_OLD: [Row; 5] = [
    COMPOSED,
    GIVEN_UP,
    (&[Open(3, &[3]), Resend(4)], Seen::Tickets(&[])),
    (&[], Seen::Refused(4, Refusal::TooOld)),
    (&[], Seen::Acks(&THREE)),
];

// Without a milestone the floor is 1, two revisions below the newest one: it is taken again.
const TAKEN_AGAIN: [Row; 3] = [
    COMPOSED,
    GIVEN_UP,
    (
        &[Open(3, &[]), Resend(4)],
        Seen::Tickets(&[(Reply::Taken { rev: 4 }, 4)]),
    ),
];

// An older number of the window is sent again with its own revision, and waits for all that is in the order.
const OLDER_AGAIN: [Row; 1] = [(
    &[Submit(1), Submit(2), Resend(1)],
    Seen::Tickets(&[
        TAKEN,
        (Reply::Taken { rev: 2 }, 2),
        (Reply::Again { rev: 1 }, 2),
    ]),
)];

// Nothing is settled before it is shown.
const UNSHOWN: [Row; 3] = [
    (
        &[Submit(1), Take(1), Publish, WRITTEN, Settle, Ack(0)],
        Seen::Acks(&[]),
    ),
    (&[], Seen::Settled(0)),
    (&[], Seen::Published(0)),
];

const SCHEDULES: [&[Row]; 6] = [
    &WAITING,
    &STAYING,
    &TOO_OLD,
    &TAKEN_AGAIN,
    &OLDER_AGAIN,
    &UNSHOWN,
];

pub(crate) fn inserted(rt: &(impl Abort + AllocGlobal), plain: &str) -> Delta {
    let mut builder = Builder::new(rt.alloc());
    let text = String::from_str(rt.alloc(), plain).expect(rt, "memory");
    assert!(rt; builder.push(Op::text(text, Attrs::new(rt.alloc()))).is_ok());
    builder.finish()
}

// Source a's first command creates document d, and each other edits its revision 1.
fn command(rt: &(impl Abort + AllocGlobal), number: u64) -> Command {
    assert!(rt; 1 <= number && number < 1 << 53);
    let name = Name::doc(rt.alloc(), "d").expect(rt, "a document");
    let source = Name::source(rt.alloc(), "a").expect(rt, "a source");
    let delta = inserted(rt, "z");
    let made = match number {
        1 => Command::create(name, source, number, delta),
        _ => Command::edit(name, source, number, 1, delta),
    };
    made.expect(rt, "a command")
}

// The command of a number.
fn numbered<'a>(rt: &impl Abort, commands: &'a [Command], number: usize) -> &'a Command {
    let place = number.saturating_sub(1);
    assert!(rt; place < commands.len());
    &commands[place]
}

fn follow(rt: &(impl Abort + AllocGlobal), world: &mut World, commands: &[Command], step: &Step) {
    let event = match *step {
        Submit(number) => Event::Submit(numbered(rt, commands, number)),
        Resend(number) => Event::Resend(numbered(rt, commands, number)),
        Take(count) => Event::Take(count),
        Device(outcome) => Event::Device(outcome),
        Publish => Event::Publish,
        Settle => Event::Settle,
        Ack(ticket) => Event::Ack(ticket),
        Compose(document, revision) => Event::Compose(document, revision),
        Crash(left) => Event::Crash(left),
        Open(left, milestones) => Event::Open(left, milestones),
    };
    assert!(rt; world.step(rt.alloc(), event).is_ok());
}

fn has_tickets(tickets: &[Ticket], wanted: &[Said]) -> bool {
    if tickets.len() != wanted.len() {
        return false;
    }
    for i in 0..wanted.len() {
        if tickets[i].reply() != wanted[i].0 || tickets[i].length() != wanted[i].1 {
            return false;
        }
    }
    true
}

fn has_acks(acks: &[world::Ack], wanted: &[Said]) -> bool {
    if acks.len() != wanted.len() {
        return false;
    }
    for i in 0..wanted.len() {
        if acks[i].reply() != wanted[i].0 || acks[i].length() != wanted[i].1 {
            return false;
        }
    }
    true
}

// A refusal of a command, if it is one.
fn refusal(rt: &(impl Abort + AllocGlobal), world: &World, command: &Command) -> Option<Refusal> {
    world.board().state().plan(rt.alloc(), command).err()
}

fn is_seen(
    rt: &(impl Abort + AllocGlobal),
    world: &World,
    commands: &[Command],
    seen: &Seen,
) -> bool {
    match *seen {
        Seen::Tickets(wanted) => has_tickets(world.tickets(), wanted),
        Seen::Acks(wanted) => has_acks(world.acks(), wanted),
        Seen::Left(without, with_batch) => world.left() == (without, with_batch),
        Seen::Ordered(length) => world.board().ordered() == length,
        Seen::Settled(length) => world.board().settled() == length,
        Seen::Published(length) => world.published() == length,
        Seen::Refused(number, why) => {
            refusal(rt, world, numbered(rt, commands, number)) == Some(why)
        }
        Seen::First(live, floor) => match world.board().state().documents().first() {
            Some(first) => first.is_live() == live && first.floor() == floor,
            None => false,
        },
    }
}

pub(crate) fn go_on(
    rt: &(impl Abort + AllocGlobal),
    world: &mut World,
    commands: &[Command],
    row: &Row,
) {
    for next in row.0 {
        follow(rt, world, commands, next);
    }
    assert!(rt; is_seen(rt, world, commands, &row.1));
}

pub(crate) fn go_on_by_all(
    rt: &(impl Abort + AllocGlobal),
    world: &mut World,
    commands: &[Command],
    rows: &[Row],
) {
    for row in rows {
        go_on(rt, world, commands, row);
    }
}

// In a store each document holds two revisions below its newest one.
#[test]
fn each_step_makes_what_is_seen(rt: HostRuntime) {
    let commands = [
        command(&rt, 1),
        command(&rt, 2),
        command(&rt, 3),
        command(&rt, 4),
    ];
    for rows in &SCHEDULES {
        let mut world = World::new(rt.alloc(), Limits::new(2, 4, 1000, 237, 2));
        go_on_by_all(&rt, &mut world, &commands, rows);
    }
}
