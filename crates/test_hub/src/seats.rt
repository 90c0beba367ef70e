//! Seats of a board: so many are given, and then none is left.
ghost use Rattle.std.specs.Prelude.{◌≡◌};
ghost use Rattle.recovery.specs.Open.{state_of};

use crate::rows::SHAPE;
use disk::MemDisk;
use hub::{Board, Seat};
use published::{Life, Opened};
use recovery::Store;
use refusal::Refusal;
use std::marker::Brand;
use std::process::Abort;
use std::sync::ledger::Blank;
use test_fixtures::new_store;

// a seat of the board
fn seat_of<L: Life, R: Abort>(rt: &R, board: &mut Board<MemDisk, L>) -> Seat<L> {
    board.seat().expect(rt, "a seat")
}

// none is left to give
fn none_is_left<L: Life, R: Abort>(rt: &R, board: &mut Board<MemDisk, L>) {
    assert!(rt; matches!(board.seat(), Err(Refusal::NoSeat)));
}

fn two_seats<L: Life, R: Abort + AllocGlobal>(
    rt: &R,
    store: Store<MemDisk>,
    opened: Opened,
    blank: Blank,
)
    requires book { opened ≡ L.book }
    requires name { blank.name ≡ L.name }
    requires parts { blank.parts ≡ L.parts }
    requires seats { blank.parts ≡ 3 }
    requires start { state_of store ≡ L.start }
{
    let state = store.state().copy(rt.alloc()).expect(rt, "memory");
    let (_log, told, order) = opened.named::<MemDisk, L>();
    let mut board = Board::new(rt.alloc(), &store, state, told, order, blank, 2);
    let _ = seat_of(rt, &mut board);
    let _ = seat_of(rt, &mut board);
    none_is_left(rt, &mut board);
}

#[test]
fn seats_are_given_until_none_is_left(rt: HostRuntime) {
    let store = new_store(rt.alloc(), SHAPE).expect(&rt, "a store");
    let opened = Opened::new().expect(&rt, "logs");
    two_seats::<Brand, _>(&rt, store, opened, Blank::new(3));
}
