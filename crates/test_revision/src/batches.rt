//! What was taken is added: all of a batch or none.
use crate::asking::Answer::Now;
use crate::asking::{Row, What, after, empty, holds, made, roomy, small, taken};
use crate::steps::Step;
use refusal::Refusal;
use revision::{PreparedState, State, Taken};
use std::process::Abort;

const Z: What = What::Create(&[Step::Plain("z")]);

const NOTHING: What = What::Create(&[]);

const Y: What = What::Edit(1, &[Step::Plain("y")]);

const NONE: &[Row] = &[];

const D: &[Row] = &[("a", "d", 1, Z, Now(1))];

const E: &[Row] = &[("a", "e", 1, Z, Now(1))];

const FIRST: Row = ("a", "d", 1, Z, Now(1));

const SECOND: Row = ("a", "d", 2, Y, Now(2));

const THIRD: Row = ("a", "d", 3, Y, Now(3));

const EDITED: &[Row] = &[("a", "d", 1, Z, Now(1)), ("a", "d", 2, Y, Now(2))];

/// What a state has taken, what another one has taken, and a command that the other one takes then; the first one's lines.
type Strange = (&'static [Row], &'static [Row], Row, &'static str);

const STRANGERS: [Strange; 6] = [
    // the second document comes before the first, and the first one after it
    (NONE, D, ("a", "e", 1, NOTHING, Now(1)), ""),
    (D, NONE, ("a", "e", 1, NOTHING, Now(1)), "d 1 0\n"),
    // the name is there
    (D, E, ("a", "d", 1, NOTHING, Now(1)), "d 1 0\n"),
    // the document isn't there
    (NONE, D, ("a", "d", 2, Y, Now(2)), ""),
    // the revision is there, and one is left out
    (EDITED, D, ("a", "d", 2, Y, Now(2)), "d 2 0\n"),
    (D, EDITED, ("a", "d", 3, Y, Now(3)), "d 1 0\n"),
];

#[test]
fn strangers_are_not_added(rt: HostRuntime) {
    for row in &STRANGERS {
        is_not_added(&rt, row);
    }
}

fn is_not_added(rt: &(impl Abort + AllocGlobal), row: &Strange) {
    let stranger = taken_by(rt, row.1, &row.2);
    is_stranger(rt, after(rt, small(rt), row.0), &stranger, row.3);
}

// what is added for a command where these were taken before
fn taken_by(rt: &(impl Abort + AllocGlobal), before: &[Row], row: &Row) -> Taken {
    let state = after(rt, small(rt), before);
    taken(rt, &state, row.1, row.2, row.3)
}

// The creation that weighs 124 and is 45 bytes wide.
#[test]
fn what_passes_a_limit_is_a_stranger(rt: HostRuntime) {
    let what = What::Create(&[Step::Plain("abcde")]);
    let stranger = taken(&rt, &small(&rt), "d", 1, what);
    is_stranger(&rt, empty(&rt, 123, 237), &stranger, "");
    is_stranger(&rt, empty(&rt, 128, 44), &stranger, "");
}

fn is_stranger(rt: &(impl Abort + AllocGlobal), state: State, taken: &Taken, lines: &str) {
    let mut state = state;
    assert_eq!(rt; state.absorb(rt.alloc(), taken), Err(Refusal::Stranger));
    holds(rt, &state, lines);
}

// the creation of a document, and an edit of it, which is the next one, or comes after that
fn pair(rt: &(impl Abort + AllocGlobal), is_next: bool) -> [Taken; 2] {
    let first = taken_by(rt, NONE, &FIRST);
    let second = if is_next {
        taken_by(rt, D, &SECOND)
    } else {
        taken_by(rt, EDITED, &THIRD)
    };
    [first, second]
}

#[test]
fn a_batch_is_added_as_a_whole(rt: HostRuntime) {
    let mut state = small(&rt);
    is_added(&rt, &mut state, false, Err(Refusal::Stranger));
    holds(&rt, &state, "");
    is_added(&rt, &mut state, true, Ok(()));
    holds(&rt, &state, "d 2 0\n");
}

// what comes of adding both
fn is_added(
    rt: &(impl Abort + AllocGlobal),
    state: &mut State,
    is_next: bool,
    wanted: Result<(), Refusal>,
) {
    let pair = pair(rt, is_next);
    assert_eq!(rt; state.absorb_all(rt.alloc(), &pair, &[]), wanted);
}

#[test]
fn a_prepared_batch_is_accepted_or_forgotten(rt: HostRuntime) {
    let state = prepared(&rt, small(&rt), &pair(&rt, true)).forget();
    holds(&rt, &state, "");
    let state = prepared(&rt, state, &pair(&rt, true)).accept();
    holds(&rt, &state, "d 2 0\n");
    let state = unprepared(&rt, state, &pair(&rt, true));
    holds(&rt, &state, "d 2 0\n");
    let state = unprepared(&rt, small(&rt), &pair(&rt, false));
    holds(&rt, &state, "");
}

fn prepared(rt: &(impl Abort + AllocGlobal), state: State, batch: &[Taken]) -> PreparedState {
    match state.prepare(rt.alloc(), batch, &[]) {
        Ok(prepared) => prepared,
        Err(_) => rt.abort(),
    }
}

// the state after a batch isn't prepared
fn unprepared(rt: &(impl Abort + AllocGlobal), state: State, batch: &[Taken]) -> State {
    match state.prepare(rt.alloc(), batch, &[]) {
        Ok(_) => rt.abort(),
        Err(unprepared) => {
            assert_eq!(rt; unprepared.refusal, Refusal::Stranger);
            unprepared.state
        }
    }
}

/// What is known to continue the state is added without a look.
#[test]
fn what_continues_the_state_is_added(rt: HostRuntime) {
    let edit = taken_by(&rt, D, &SECOND);
    let state = added(&rt, after(&rt, small(&rt), D), &edit);
    holds(&rt, &state, "d 2 0\n");
    made(&rt, &state, 2, &[Step::Plain("yz")]);
}

// the state after a command, which a copy of it took in before
fn added(rt: &(impl Abort + AllocGlobal), state: State, taken: &Taken) -> State {
    let mut state = state;
    let mut other = state.copy(rt.alloc()).expect(rt, "memory");
    match other.absorb(rt.alloc(), taken) {
        Ok(()) => assert_eq!(rt; state.add(rt.alloc(), taken), Ok(())),
        Err(_) => rt.abort(),
    }
    state
}
