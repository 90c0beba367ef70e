//! What readers are shown of a batch that is on the disk: nothing before it is published, and all of it then.
ghost use Rattle.std.specs.Prelude.{◌≡◌, []};
ghost use Rattle.turns.specs.Counting.{IsAt};
ghost use Rattle.recovery.specs.Open.{state_of};
ghost use Rattle.flusher.specs.Holding.{committed_of, waiting_of};

use crate::rows::SHAPE;
use crate::seats::{acknowledged, started, submitted};
use disk::MemDisk;
use flusher::{Flusher, Gate, Moment};
use hub::{Hub, Seat, Writer};
use published::{Life, Opened, Told};
use recovery::Store;
use refusal::Refusal;
use revision::Name;
use std::marker::Brand;
use std::process::Abort;
use std::sync::Wait;
use std::sync::ledger::Blank;
use test_fixtures::{command, new_store, newest};
use view::Viewer;

/// Notes what a reader is shown at each of a write's two moments. Another reader learns what was acknowledged.
#[derive(Drop)]
struct Looks<L: Life> {
    viewer: Viewer<MemDisk, L>,
    learner: Viewer<MemDisk, L>,
    before: Result<u64, Refusal>,
    after: Result<u64, Refusal>,
}

impl<L: Life> Gate for Looks<L> {
    fn pass(&mut self, at: Moment) {
        let shown = self.viewer.read(newest);
        match at {
            Moment::BeforeCommit => self.before = shown,
            Moment::AfterCommit => self.after = shown,
        }
    }
}

/// Takes the one command that was submitted off the board, and holds it.
#[tactic(auto, using(crate::proofs::Fitting::fits_slot))]
pub fn hold_next<L: Life, R: Wait + Abort + AllocGlobal>(
    rt: &R,
    flusher: &mut Flusher<MemDisk, L>,
    hub: &Hub<MemDisk, L>,
    writer: &mut Writer<L>,
)
    requires nothing { (committed_of flusher.old ≡ []) × (waiting_of flusher.old ≡ []) }
    requires at { IsAt writer.old flusher.old }
    ensures at { IsAt writer.new flusher.new }
{
    let run = match hub.take(rt, rt.alloc(), writer, flusher.cap()) {
        Ok(run) => run,
        Err(refusal) => panic!(rt; "{refusal}"),
    };
    if run.len() != 1 || run.place() as u64 != flusher.told().len() {
        panic!(rt; "it isn't the next command");
    }
    flusher.hold(run);
}

// Submits the next command, and writes and settles it: its reader was shown the revision before it until then, and is shown it now.
fn is_shown<L: Life, R: Wait + Abort + AllocGlobal>(
    rt: &R,
    flusher: &mut Flusher<MemDisk, L>,
    hub: &Hub<MemDisk, L>,
    writer: &mut Writer<L>,
    seat: &mut Seat<L>,
    gate: &mut Looks<L>,
    number: u64,
)
    requires nothing { (committed_of flusher.old ≡ []) × (waiting_of flusher.old ≡ []) }
    requires at { IsAt writer.old flusher.old }
    ensures nothing { (committed_of flusher.new ≡ []) × (waiting_of flusher.new ≡ []) }
    ensures at { IsAt writer.new flusher.new }
{
    let alloc = rt.alloc();
    let next = command(alloc, number, 1).expect(rt, "a command");
    let ticket = submitted(rt, hub, seat, &next);
    hold_next(rt, flusher, hub, writer);
    let written = flusher.write(rt, alloc, gate).expect(rt, "written");
    let batch = written.expect(rt, "a batch");
    let _settled = batch.settle(rt, hub, writer);
    let told = acknowledged(rt, hub, &ticket);
    assert!(rt; told.len() == number);
    assert!(rt; gate.before == Ok(number.saturating_sub(1)) && gate.after == gate.before);
    learns(rt, gate, told, number);
}

// Who learns the token shows this revision from then on, and so does a reader that didn't learn it. With a floor of 0 each revision before it can
// be had, with the deltas since.
fn learns<L: Life>(
    rt: &(impl Abort + AllocGlobal),
    gate: &mut Looks<L>,
    told: Told<MemDisk, L>,
    number: u64,
) {
    gate.learner.learn(&told);
    assert!(rt; gate.learner.read(newest) == Ok(number));
    assert!(rt; gate.learner.read(newest) == Ok(number));
    assert!(rt; gate.viewer.read(newest) == Ok(number));
    if number != 2 {
        return;
    }
    let learner = &mut gate.learner;
    let name = Name::doc(rt.alloc(), "z").expect(rt, "a name");
    let document = learner.at(rt.alloc(), &name, 1).expect(rt, "revision 1");
    assert_eq!(rt; document.len16(), 1);
    let deltas = learner.since(rt.alloc(), &name, 1).expect(rt, "its deltas");
    assert_eq!(rt; deltas.len(), 1);
}

fn two_batches<L: Life, R: Wait + Abort + AllocGlobal>(
    rt: &R,
    store: Store<MemDisk>,
    opened: Opened,
    blank: Blank,
)
    requires book { opened ≡ L.book }
    requires name { blank.name ≡ L.name }
    requires parts { blank.parts ≡ L.parts }
    requires seats { blank.parts ≡ 2 }
    requires begin { state_of store ≡ L.start }
{
    let (mut flusher, hub, mut writer, mut closer) = started::<L>(rt, store, opened, blank, 1);
    let mut seat = hub.seat(rt, &mut closer).expect(rt, "a seat");
    let mut gate = Looks {
        viewer: flusher.viewer().expect(rt, "a place"),
        learner: flusher.viewer().expect(rt, "a place"),
        before: Ok(0),
        after: Ok(0),
    };
    is_shown(rt, &mut flusher, &hub, &mut writer, &mut seat, &mut gate, 1);
    is_shown(rt, &mut flusher, &hub, &mut writer, &mut seat, &mut gate, 2);
    let _store = flusher.end(rt);
}

#[test]
fn what_is_committed_is_shown_once_it_is_published(rt: HostRuntime) {
    let store = new_store(rt.alloc(), SHAPE).expect(&rt, "a store");
    let opened = Opened::new().expect(&rt, "logs");
    two_batches::<Brand, _>(&rt, store, opened, Blank::new(2));
}
