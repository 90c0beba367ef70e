//! Runs of a store, one after another.
ghost use Rattle.std.specs.Prelude.{All, IfOk};
ghost use Rattle.recovery.specs.Open.{state_of};
ghost use Rattle.recovery.specs.Run.{CanTake};

use crate::batches::EDIT;
use crate::stores::{
    Row, SLOT, batch_of, differ_by, extend, formatted_device, has_documents, open_store, part,
    push_text, session, small_device,
};
use disk::Disk;
use journal::decode_batch;
use recovery::{RunError, Shape, Store, StoreStep};
use refusal::Refusal;
use std::process::Abort;

/// A device of 12,352 bytes.
const LARGER: Shape = Shape {
    slots: 2,
    slot: 2_048,
    docs: 16,
    cell: 256,
    sources: 4,
    keep: 2,
};

/// What is asked for in each run.
const RUNS: [[Row; 3]; 7] = [
    [
        ("a", "d", "z", "taken 1"),
        ("a", "e", "", "taken 1"),
        ("b", "f", "abcde", "taken 1"),
    ],
    [
        ("b", "one", "1", "taken 1"),
        ("a", "d", "z", "again 1"),
        ("a", "three", "333", "taken 1"),
    ],
    [
        ("c", "D", "z", "taken 1"),
        ("c", "d.d", "a b", "taken 1"),
        ("c", "-", "\u{e9}", "taken 1"),
    ],
    [
        ("d", "_", "\u{1F600}", "taken 1"),
        ("d", "0", "0", "taken 1"),
        ("d", "00", "00", "taken 1"),
    ],
    [
        ("a", "f", "abcde", "error 7 Exists"),
        ("a", "x-2", "\n", "taken 1"),
        ("a", "x-3", "\"", "taken 1"),
    ],
    [
        ("x", "y", "1", "taken 1"),
        ("y", "z", "2", "taken 1"),
        ("z", "x", "3", "taken 1"),
    ],
    [
        ("a", "e", "", "again 1"),
        ("a", "z", "2", "error 7 Exists"),
        ("z", "x", "3", "again 1"),
    ],
];

// The plain program: a line for each creation that is taken.
fn push_taken(rt: &(impl Abort + AllocGlobal), lines: &mut String, row: &Row) {
    let (_, doc, text, answer) = *row;
    if answer == "taken 1" {
        let line = format!(in rt.alloc(); "{doc} 1 {text}\n").expect(rt, "memory");
        push_text(rt, lines, line.as_str());
    }
}

#[test]
fn many_creations_in_many_runs(rt: HostRuntime) {
    let mut disk = formatted_device(&rt, 12_352, LARGER);
    let mut lines = String::new(rt.alloc());
    for run in &RUNS {
        for row in run {
            push_taken(&rt, &mut lines, row);
        }
        disk = session(&rt, disk.bytes(), run, lines.as_str());
    }
}

/// The step that commits the batch which these bytes spell. It fits a slot of the store.
pub fn step<D: Disk>(rt: &(impl Abort + AllocGlobal), store: &Store<D>, bytes: &[u8]) -> StoreStep
    ensures { CanTake (state_of store.now) result }
{
    let found = decode_batch(rt.alloc(), bytes).expect(rt, "memory");
    let batch = batch_of(rt, found.expect(rt, "a batch"));
    let commands = batch.as_slice();
    assert!(rt; 1 <= commands.len() && commands.len() <= 9);
    assert!(rt; store.fits(commands));
    StoreStep::Commit(batch)
}

/// A store takes steps. No clause is kept of what comes of it, so callers are checked faster.
pub fn run_steps<D: Disk>(
    rt: &(impl Abort + AllocGlobal),
    store: &mut Store<D>,
    steps: &[StoreStep],
) -> Result<(), RunError>
    requires { All (CanTake (state_of store.old)) steps.now }
{
    store.run(rt.alloc(), steps)
}

/// A run stops or doesn't, as it is wanted.
pub fn is_run(rt: &impl Abort, found: Result<(), RunError>, wanted: Result<(), RunError>) {
    assert_eq!(rt; found, wanted);
}

/// A run of one step, which commits the batch that these bytes spell, stops at it or doesn't.
pub fn is_run_of<D: Disk>(
    rt: &(impl Abort + AllocGlobal),
    store: &mut Store<D>,
    bytes: &[u8],
    wanted: Result<(), RunError>,
) {
    let steps = [step(rt, store, bytes)];
    is_run(rt, run_steps(rt, store, &steps), wanted);
}

// The batch that creates the document d so many times.
fn repeated(rt: &(impl Abort + AllocGlobal), count: u8) -> Vec<u8> {
    let mut bytes = [count, 0, 0, 0].to_vec(rt.alloc()).expect(rt, "memory");
    for _ in 0..count {
        extend(rt, &mut bytes, part(rt, &SLOT, 18, 41));
    }
    bytes
}

// A run of two steps: the first creates the document d, and the second does so so many times again.
fn is_run_twice<D: Disk>(
    rt: &(impl Abort + AllocGlobal),
    store: &mut Store<D>,
    count: u8,
    wanted: Result<(), RunError>,
) {
    let again = step(rt, store, &repeated(rt, count));
    let steps = [step(rt, store, &repeated(rt, 1)), again];
    is_run(rt, run_steps(rt, store, &steps), wanted);
}

// A run creates the document d, and stops where it is created so many times again; the store works on.
fn is_stopped(rt: &(impl Abort + AllocGlobal), count: u8) {
    let mut store = open_store(rt, small_device(rt));
    let refusal = Refusal::Stranger;
    is_run_twice(rt, &mut store, count, Err(RunError { at: 1, refusal }));
    has_documents(rt, store.state(), "d 1 z\n");
    is_run_of(rt, &mut store, part(rt, &SLOT, 64, 45), Ok(()));
    differ_by(
        rt,
        store.close().bytes(),
        small_device(rt).bytes(),
        1_088,
        &SLOT,
    );
}

// The first record leaves 197 bytes of the area. Four entries are a batch of 168 and need 6 more, five one of 209, which
// would go into a second slot.
#[test]
fn a_run_stops_at_the_first_refusal(rt: HostRuntime) {
    is_stopped(&rt, 1);
    is_stopped(&rt, 4);
    is_stopped(&rt, 5);
}

// Whether the batch that these bytes spell fits a slot of a store.
fn fits<D: Disk>(rt: &(impl Abort + AllocGlobal), store: &Store<D>, bytes: &[u8]) -> bool {
    let found = decode_batch(rt.alloc(), bytes).expect(rt, "memory");
    store.fits(&found.expect(rt, "a batch"))
}

// A batch of 241 bytes fits a slot, one of more doesn't. Five entries are a batch of 209, six one of 250.
#[test]
fn a_batch_fits_a_slot_or_none(rt: HostRuntime) {
    let store = open_store(&rt, small_device(&rt));
    for count in 1..7 {
        assert_eq!(rt; fits(&rt, &store, &repeated(&rt, count)), count < 6);
    }
}

// An edit of a document that isn't there.
#[test]
fn an_edit_of_nothing_is_not_committed(rt: HostRuntime) {
    let mut store = open_store(&rt, small_device(&rt));
    let refusal = Refusal::Stranger;
    is_run_of(&rt, &mut store, &EDIT, Err(RunError { at: 0, refusal }));
}
