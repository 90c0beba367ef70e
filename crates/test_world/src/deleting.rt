//! Schedules of commands that delete a document and create it again, with crashes in between. It is worked out by hand.
use crate::steps::Step::{
    Ack, Compose, Crash, Device, Open, Publish, Resend, Settle, Submit, Take,
};
use crate::steps::{Row, Said, Seen, TAKEN, WRITTEN, go_on_by_all, inserted};
use refusal::Refusal;
use revision::{Command, Limits, Name, Reply};
use std::process::Abort;
use world::{Outcome, World};

const SECOND: Said = (Reply::Taken { rev: 2 }, 2);

// The deletion, and its retry once it is left.
const THIRD: Said = (Reply::Taken { rev: 3 }, 3);

const THIRD_AGAIN: Said = (Reply::Again { rev: 3 }, 3);

const FOURTH: Said = (Reply::Taken { rev: 4 }, 4);

const FIFTH: Said = (Reply::Taken { rev: 5 }, 5);

// Two revisions are acknowledged, and the second is composed.
const ACKNOWLEDGED: Row = (
    &[
        Submit(1),
        Submit(2),
        Take(2),
        WRITTEN,
        Publish,
        Settle,
        Ack(0),
        Ack(1),
        Compose(0, 2),
    ],
    Seen::Acks(&[TAKEN, SECOND]),
);

// The deletion is taken then, and its batch given up between two device calls: a crash leaves it or not.
const GIVEN_UP: [Row; 4] = [
    ACKNOWLEDGED,
    (
        &[Submit(3), Take(1), Device(Outcome::Stopped), Ack(2)],
        Seen::Left(2, 3),
    ),
    (&[], Seen::First(false, 3)),
    (&[], Seen::Refused(5, Refusal::Deleted)),
];

// A deletion that is lost leaves the document unchanged, and is taken anew.
const LOST: [Row; 4] = [
    (&[Crash(2), Open(2, &[])], Seen::First(true, 0)),
    (&[Resend(3)], Seen::Tickets(&[THIRD])),
    (&[], Seen::First(false, 3)),
    (&[], Seen::Acks(&[TAKEN, SECOND])),
];

// The same from the milestone on.
const LOST_COMPOSED: [Row; 2] = [
    (&[Crash(2), Open(2, &[2])], Seen::First(true, 2)),
    (&[Resend(3)], Seen::Tickets(&[THIRD])),
];

// A deletion that is left is a retry, and with or without the milestone below it the document is held from it on.
const LEFT: [Row; 3] = [
    (&[Crash(3), Open(3, &[])], Seen::First(false, 3)),
    (&[Resend(3)], Seen::Tickets(&[THIRD_AGAIN])),
    (&[], Seen::Refused(5, Refusal::Deleted)),
];

const LEFT_COMPOSED: [Row; 2] = [
    (&[Crash(3), Open(3, &[2])], Seen::First(false, 3)),
    (&[Resend(3)], Seen::Tickets(&[THIRD_AGAIN])),
];

// It is created again as the next revision, and held from there on: nothing below has an edit or an undo. All numbers of before are
// retries, with their revisions, and another source may delete it.
const CREATED_AGAIN: [Row; 12] = [
    (
        &[Submit(1), Submit(2), Submit(3), Submit(4)],
        Seen::Tickets(&[TAKEN, SECOND, THIRD, FOURTH]),
    ),
    (&[], Seen::First(true, 4)),
    (&[], Seen::Refused(5, Refusal::TooOld)),
    (&[Submit(6)], Seen::Ordered(5)),
    (&[], Seen::First(true, 4)),
    (&[], Seen::Refused(7, Refusal::TooOld)),
    (&[], Seen::Refused(8, Refusal::Exists)),
    (
        &[Resend(3), Resend(1)],
        Seen::Tickets(&[
            TAKEN,
            SECOND,
            THIRD,
            FOURTH,
            FIFTH,
            (Reply::Again { rev: 3 }, 5),
            (Reply::Again { rev: 1 }, 5),
        ]),
    ),
    (
        &[Take(5), WRITTEN, Publish, Settle, Ack(3), Ack(5)],
        Seen::Acks(&[FOURTH, (Reply::Again { rev: 3 }, 5)]),
    ),
    (&[Crash(5), Open(5, &[5])], Seen::Settled(5)),
    (&[Open(5, &[])], Seen::First(true, 4)),
    (&[Submit(9)], Seen::Tickets(&[(Reply::Taken { rev: 6 }, 6)])),
];

// A creation again that is lost leaves the deleted document.
const NOT_CREATED_AGAIN: [Row; 4] = [
    (
        &[Submit(1), Submit(2), Submit(3), Take(3), WRITTEN],
        Seen::Left(3, 3),
    ),
    (
        &[Submit(4), Publish, Settle, Take(1), Crash(3), Open(3, &[])],
        Seen::First(false, 3),
    ),
    (&[Resend(4)], Seen::Tickets(&[FOURTH])),
    (&[], Seen::First(true, 4)),
];

const SCHEDULES: [&[&[Row]]; 6] = [
    &[&GIVEN_UP, &LOST],
    &[&GIVEN_UP, &LOST_COMPOSED],
    &[&GIVEN_UP, &LEFT],
    &[&GIVEN_UP, &LEFT_COMPOSED],
    &[&CREATED_AGAIN],
    &[&NOT_CREATED_AGAIN],
];

// A command to document d: of source a, or of b where it isn't hers.
fn command(rt: &(impl Abort + AllocGlobal), own: bool, number: u64, action: &Asked) -> Command {
    let name = Name::doc(rt.alloc(), "d").expect(rt, "a document");
    let source = Name::source(rt.alloc(), if own { "a" } else { "b" }).expect(rt, "a source");
    assert!(rt; 1 <= number && number < 1 << 53);
    match *action {
        Asked::Create => Command::create(name, source, number, inserted(rt, "z")).expect(
            rt,
            "a command",
        ),
        Asked::Edit(base) => Command::edit(name, source, number, base, inserted(rt, "x")).expect(
            rt,
            "a command",
        ),
        Asked::Undo => Command::undo(name, source, number),
        Asked::Delete => Command::delete(name, source, number),
    }
}

/// What a command asks for.
enum Asked {
    Create,
    /// A letter in front, as an edit of this revision.
    Edit(u64),
    Undo,
    Delete,
}

// In a store each document holds 16 revisions below its newest one.
#[test]
fn each_step_of_deletions_makes_what_is_seen(rt: HostRuntime) {
    let commands = [
        command(&rt, true, 1, &Asked::Create),
        command(&rt, true, 2, &Asked::Edit(1)),
        command(&rt, true, 3, &Asked::Delete),
        command(&rt, true, 4, &Asked::Create),
        command(&rt, false, 1, &Asked::Edit(2)),
        command(&rt, false, 1, &Asked::Edit(4)),
        command(&rt, true, 5, &Asked::Undo),
        command(&rt, true, 5, &Asked::Create),
        command(&rt, false, 2, &Asked::Delete),
    ];
    for parts in &SCHEDULES {
        let mut world = World::new(rt.alloc(), Limits::new(2, 4, 1000, 237, 16));
        for rows in *parts {
            go_on_by_all(&rt, &mut world, &commands, rows);
        }
    }
}
