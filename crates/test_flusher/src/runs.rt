//! Runs of one thread: turns, acknowledgements and milestones between them.
use crate::rows::Step::{Ack, Milestone, Retire, Submit, Turn};
use crate::rows::{Gives, Row, SHAPE, runs};
use refusal::Refusal;
use revision::Reply::{Again, Taken};
use test_fixtures::new_store;

const FIRST: Gives = Gives::Ordered(0, Taken { rev: 1 }, 1);

/// What a turn has settled is acknowledged, and a retry waits as its command does. A ticket that isn't there is never acknowledged.
const TURNS: [Row; 7] = [
    (Submit(1), FIRST),
    (Submit(1), Gives::Ordered(1, Again { rev: 1 }, 1)),
    (Ack(1), Gives::Waits),
    (Turn, Gives::Settled(1)),
    (Ack(1), Gives::Acked(1)),
    (Ack(2), Gives::Waits),
    (Turn, Gives::Settled(0)),
];

/// There is no document before the create, and one slot alone can't be retired.
const BETWEEN: [Row; 5] = [
    (Milestone(0, 1), Gives::Refused(Refusal::NoDocument)),
    (Submit(1), FIRST),
    (Turn, Gives::Settled(1)),
    (Milestone(0, 1), Gives::Put),
    (Retire, Gives::Refused(Refusal::StillNeeded)),
];

const RUNS: [&[Row]; 2] = [&TURNS, &BETWEEN];

#[test]
fn each_call_gives_its_answer(rt: HostRuntime) {
    for rows in &RUNS {
        let store = new_store(rt.alloc(), SHAPE).expect(&rt, "a store");
        let _ = runs(&rt, store, *rows);
    }
}
