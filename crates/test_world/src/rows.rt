//! Schedules on an empty store, as rows of events and what is seen behind them. It is worked out by hand.
use std::process::Abort;
use world::{Follower, Happening, Waiting};

/// What is seen of a follower.
#[derive(Clone, Copy)]
enum Seen {
    Tickets(&'static [Waiting]),
    Acks(&'static [Waiting]),
    /// The two lengths of the order that a crash may leave.
    Left(u64, u64),
    /// How long the order is.
    Ordered(usize),
}

type Row = (&'static [Happening], Seen);

// A creation is sent and sent again while its batch is being written.
const RETRIED: [Happening; 3] = [
    Happening::Submit(1, Some(1)),
    Happening::Take(1),
    Happening::Resend(1, None),
];

// what follows a crash that lost it, and one that left it
const LOST: [Happening; 3] = [
    Happening::Crash(0),
    Happening::Open(0, true),
    Happening::Resend(1, Some(1)),
];

const LEFT: [Happening; 3] = [
    Happening::Crash(1),
    Happening::Open(1, true),
    Happening::Resend(1, None),
];

// the way of one command to its acknowledgement
const ACKNOWLEDGED: [Happening; 6] = [
    Happening::Submit(1, Some(1)),
    Happening::Take(1),
    Happening::Device(true),
    Happening::Publish,
    Happening::Settle,
    Happening::Ack(0),
];

// A creation's batch is given up between two device calls.
const STOPPED: [Happening; 3] = [
    Happening::Submit(1, Some(1)),
    Happening::Take(1),
    Happening::Device(false),
];

// Three revisions are settled. A fourth is taken, and its batch given up; the crash leaves three.
const GIVEN_UP: [Happening; 12] = [
    Happening::Submit(1, Some(1)),
    Happening::Submit(2, Some(2)),
    Happening::Submit(3, Some(3)),
    Happening::Take(3),
    Happening::Device(true),
    Happening::Publish,
    Happening::Settle,
    Happening::Submit(4, Some(4)),
    Happening::Take(1),
    Happening::Device(false),
    Happening::Ack(3),
    Happening::Crash(3),
];

const TAKEN: Waiting = Waiting {
    number: 1,
    again: false,
    revision: 1,
    length: 1,
};

const AGAIN: Waiting = Waiting {
    number: 1,
    again: true,
    revision: 1,
    length: 1,
};

const BEING_WRITTEN: Row = (&RETRIED, Seen::Tickets(&[TAKEN, AGAIN]));

// A retry waits for its edit.
const WAITING: [Row; 2] = [BEING_WRITTEN, (&[Happening::Ack(1)], Seen::Acks(&[]))];

// A lost edit is taken anew.
const ANEW: [Row; 2] = [BEING_WRITTEN, (&LOST, Seen::Tickets(&[TAKEN]))];

// An edit that is left is a retry.
const THERE: [Row; 2] = [BEING_WRITTEN, (&LEFT, Seen::Tickets(&[AGAIN]))];

// An acknowledged edit stays: no crash leaves less. The acknowledgement is there after the crash, and that of the retry comes behind it.
const STAYING: [Row; 6] = [
    (&ACKNOWLEDGED, Seen::Acks(&[TAKEN])),
    (&[], Seen::Left(1, 1)),
    (&LOST, Seen::Tickets(&[TAKEN, AGAIN])),
    (&LEFT, Seen::Tickets(&[AGAIN])),
    (&[], Seen::Acks(&[TAKEN])),
    (&[Happening::Ack(0)], Seen::Acks(&[TAKEN, AGAIN])),
];

// A batch that was given up needs no crash.
const WITHOUT_CRASH: [Row; 3] = [
    (&STOPPED, Seen::Left(0, 1)),
    (&[Happening::Open(0, true)], Seen::Left(0, 0)),
    (&[Happening::Resend(1, Some(1))], Seen::Tickets(&[TAKEN])),
];

// A revision that was given up is refused.
const REFUSED: [Row; 4] = [
    (&GIVEN_UP, Seen::Acks(&[])),
    (
        &[Happening::Open(3, true), Happening::Resend(4, None)],
        Seen::Tickets(&[]),
    ),
    (&[], Seen::Acks(&[])),
    (&[], Seen::Ordered(3)),
];

// Nothing is settled before it is shown.
const UNSHOWN: [Row; 2] = [
    BEING_WRITTEN,
    (
        &[
            Happening::Device(true),
            Happening::Settle,
            Happening::Ack(0),
        ],
        Seen::Acks(&[]),
    ),
];

const OF_17: [Happening; 17] = [
    Happening::Submit(1, Some(1)),
    Happening::Submit(2, Some(2)),
    Happening::Submit(3, Some(3)),
    Happening::Submit(4, Some(4)),
    Happening::Submit(5, Some(5)),
    Happening::Submit(6, Some(6)),
    Happening::Submit(7, Some(7)),
    Happening::Submit(8, Some(8)),
    Happening::Submit(9, Some(9)),
    Happening::Submit(10, Some(10)),
    Happening::Submit(11, Some(11)),
    Happening::Submit(12, Some(12)),
    Happening::Submit(13, Some(13)),
    Happening::Submit(14, Some(14)),
    Happening::Submit(15, Some(15)),
    Happening::Submit(16, Some(16)),
    Happening::Submit(17, Some(17)),
];

// Of 17 numbers the first is sent again no longer, though the rule would take it. The second is a retry.
const LAST_16: [Row; 4] = [
    (&OF_17, Seen::Ordered(17)),
    (&[Happening::Resend(1, Some(18))], Seen::Ordered(17)),
    (
        &[
            Happening::Take(17),
            Happening::Device(true),
            Happening::Publish,
            Happening::Settle,
            Happening::Resend(2, None),
        ],
        Seen::Acks(&[]),
    ),
    (&[Happening::Ack(17)], Seen::Acks(&[SECOND_AGAIN])),
];

const SECOND_AGAIN: Waiting = Waiting {
    number: 2,
    again: true,
    revision: 2,
    length: 17,
};

const SCHEDULES: [&[Row]; 8] = [
    &WAITING,
    &ANEW,
    &THERE,
    &STAYING,
    &WITHOUT_CRASH,
    &REFUSED,
    &UNSHOWN,
    &LAST_16,
];

fn is_seen(follower: &Follower, seen: Seen) -> bool {
    match seen {
        Seen::Tickets(wanted) => follower.tickets() == wanted,
        Seen::Acks(wanted) => follower.acks() == wanted,
        Seen::Left(without, with_batch) => follower.left() == (without, with_batch),
        Seen::Ordered(length) => follower.order().len() == length,
    }
}

// Continues with the events of a row.
fn go_on(rt: &impl Abort, follower: &mut Follower, row: &Row) {
    for event in row.0 {
        assert!(rt; follower.step(*event).is_ok());
    }
    assert!(rt; is_seen(follower, row.1));
}

#[test]
fn each_event_makes_what_is_seen(rt: HostRuntime) {
    for rows in &SCHEDULES {
        let mut follower = Follower::new(rt.alloc());
        for row in *rows {
            go_on(&rt, &mut follower, row);
        }
    }
}
