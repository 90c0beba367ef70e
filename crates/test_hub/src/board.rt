//! A board over a store in memory, as rows: batches that fit their slots, and what is settled.
ghost use Rattle.std.specs.Prelude.{◌≡◌};
ghost use Rattle.recovery.specs.Open.{state_of};

use crate::publishing::Publishing;
use crate::rows::Step::{Ack, Behind, Fail, Order, Settle, Submit, Take, Wide};
use crate::rows::{BoardLife, Gives, Row, SHAPE, SMALL, given, stands};
use crate::stores::{NEVER, fails_second, store_by};
use disk::{Disk, FaultDisk};
use hub::Board;
use published::{Life, Opened};
use recovery::{Pick, Shape, Store};
use refusal::Refusal;
use revision::Reply::{Again, Taken};
use std::marker::Brand;
use std::process::Abort;
use std::sync::ledger::Blank;
use test_fixtures::open_store;

const FIRST: Gives = Gives::Ordered(Taken { rev: 1 }, 1);

const SECOND: Gives = Gives::Ordered(Taken { rev: 2 }, 2);

const STRANGER: Gives = Gives::Refused(Refusal::Stranger);

const FAILED: Gives = Gives::Refused(Refusal::StoreFailed);

/// The entries have 41, 51 and 236 bytes, and a batch has 4 more: two batches fit their slots. Only the next part is settled, and only where
/// what is published ends with it.
const IN_TWO: [Row; 15] = [
    (Submit(1, 1), FIRST),
    (Submit(2, 14), SECOND),
    (Submit(3, 199), Gives::Ordered(Taken { rev: 3 }, 3)),
    (Submit(3, 199), Gives::Ordered(Again { rev: 3 }, 3)),
    (Order, Gives::Stands(3, 214)),
    (Take, Gives::Committed(2)),
    (Take, Gives::Committed(1)),
    (Take, Gives::Committed(0)),
    (Settle(1, 2), STRANGER),
    (Settle(0, 2), STRANGER),
    (Settle(0, 1), Gives::Settled),
    (Settle(0, 1), STRANGER),
    (Ack(3), Gives::Waits),
    (Settle(1, 2), Gives::Settled),
    (Ack(3), Gives::Acked(3)),
];

/// On the small device too: two of 41 and 51 bytes, and then one of 236.
const ON_1600: [Row; 7] = [
    (Submit(1, 1), FIRST),
    (Behind(2), SECOND),
    (Wide(3), Gives::Ordered(Taken { rev: 3 }, 3)),
    (Take, Gives::Committed(2)),
    (Take, Gives::Committed(1)),
    (Take, Gives::Committed(0)),
    (Order, Gives::Stands(3, 2)),
];

/// The create's entry has 41 bytes, the edit's 37 and one a letter, and a batch 4 more: 241 bytes are one batch.
const OF_241: [Row; 4] = [
    (Submit(1, 1), FIRST),
    (Submit(2, 159), SECOND),
    (Take, Gives::Committed(2)),
    (Take, Gives::Committed(0)),
];

/// And 242 are two.
const OF_242: [Row; 5] = [
    (Submit(1, 1), FIRST),
    (Submit(2, 160), SECOND),
    (Take, Gives::Committed(1)),
    (Take, Gives::Committed(1)),
    (Take, Gives::Committed(0)),
];

/// What is settled is acknowledged after a failure, and nothing else.
const FAILING: [Row; 10] = [
    (Submit(1, 1), FIRST),
    (Submit(1, 1), Gives::Ordered(Again { rev: 1 }, 1)),
    (Take, Gives::Committed(1)),
    (Settle(0, 1), Gives::Settled),
    (Submit(2, 14), SECOND),
    (Submit(2, 14), Gives::Ordered(Again { rev: 2 }, 2)),
    (Fail, Gives::Failed),
    (Ack(1), Gives::Acked(1)),
    (Ack(3), FAILED),
    (Submit(3, 1), FAILED),
];

/// Each on its device, with the revision and the letters that the store then has.
const RUNS: [(Shape, &[Row], u64, u64); 4] = [
    (SHAPE, &IN_TWO, 3, 214),
    (SMALL, &ON_1600, 3, 2),
    (SHAPE, &OF_241, 2, 160),
    (SHAPE, &OF_242, 2, 161),
];

// What each row gives, at a board of a store, with one seat and without commands. The store comes back.
fn lived<L: Life, R: Abort + AllocGlobal>(
    rt: &R,
    store: Store<FaultDisk>,
    opened: Opened,
    blank: Blank,
    rows: &[Row],
) -> Store<FaultDisk>
    requires book { opened ≡ L.book }
    requires name { blank.name ≡ L.name }
    requires parts { blank.parts ≡ L.parts }
    requires seats { blank.parts ≡ 2 }
    requires start { state_of store ≡ L.start }
{
    let alloc = rt.alloc();
    let state = store.state().copy(alloc).expect(rt, "memory");
    let (log, told, order) = opened.named::<FaultDisk, L>();
    let mut board = Board::new(alloc, &store, state, told.copy(), order, blank, 1);
    let seat = board.seat().expect(rt, "a seat");
    let mut life = BoardLife::new(rt, board, seat, Publishing::new(store, log, told));
    for row in rows {
        assert_eq!(rt; given(rt, &mut life, &row.0), row.1);
    }
    life.into_store()
}

// A store that is opened again has one document at this revision, with so many letters.
fn is_opened_at(
    rt: &(impl Abort + AllocGlobal),
    store: Store<FaultDisk>,
    revision: u64,
    letters: u64,
) {
    let store = open_store(rt.alloc(), store.close(), Pick::Newer).expect(rt, "a store");
    assert!(rt; stands(store.state()) == Gives::Stands(revision, letters));
}

#[test]
fn each_step_of_a_board_gives_its_answer(rt: HostRuntime) {
    for (shape, rows, revision, letters) in &RUNS {
        let store = store_by(&rt, *shape, NEVER);
        let opened = Opened::new().expect(&rt, "logs");
        let store = lived::<Brand, _>(&rt, store, opened, Blank::new(2), *rows);
        is_opened_at(&rt, store, *revision, *letters);
    }
}

// The device fails at the second commit, which leaves nothing.
#[test]
fn a_failed_board_gives_what_was_settled(rt: HostRuntime) {
    let store = store_by(&rt, SHAPE, fails_second(&rt, SHAPE));
    let opened = Opened::new().expect(&rt, "logs");
    let store = lived::<Brand, _>(&rt, store, opened, Blank::new(2), &FAILING);
    is_opened_at(&rt, store, 1, 1);
}
