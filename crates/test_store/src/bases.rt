//! Where a job begins: at the nearest document that is kept, and never far below its revision.
use crate::jobs::job;
use crate::stores::{answer_text, create, edit, formatted_device, is_text, open_store};
use disk::MemDisk;
use recovery::{Shape, Store};
use std::process::Abort;

/// A device of 163,904 bytes, whose documents keep all revisions of this test.
const LONG: Shape = Shape {
    slots: 2,
    slot: 65_536,
    docs: 1,
    cell: 16_384,
    sources: 4,
    keep: 1_000,
};

/// The newest revision.
const LAST: u64 = 600;

// A store whose only document was created and edited up to the newest revision, a batch each.
fn edited(rt: &(impl Abort + AllocGlobal), shape: Shape) -> Store<MemDisk> {
    let mut store = open_store(rt, formatted_device(rt, 163_904, shape));
    create(rt, &mut store, &("a", "d", "a", "taken 1"));
    for base in 1..LAST {
        let number = base.saturating_add(1);
        let taken = answer_text(rt, &mut store, &edit(rt, number, base, "x"));
        let wanted = format!(in rt.alloc(); "taken {number}").expect(rt, "memory");
        is_text(rt, taken.as_str(), wanted.as_str());
    }
    store
}

/// A job's revision, and how many deltas it has.
type Row = (u64, usize);

fn have_deltas(rt: &(impl Abort + AllocGlobal), store: &mut Store<MemDisk>, rows: &[Row]) {
    for (revision, wanted) in rows {
        let made = job(rt, store, *revision);
        assert_eq!(rt; made.deltas().len(), *wanted, "to {revision}");
    }
}

/// Documents are kept at 256 and at 512, and the last ones are at hand.
const FROM_KEPT: [Row; 8] = [
    (1, 1),
    (255, 255),
    (256, 0),
    (257, 1),
    (512, 0),
    (513, 1),
    (599, 0),
    (600, 0),
];

/// Where 16 revisions are held, the lowest is 584.
const FROM_FLOOR: [Row; 3] = [(584, 0), (585, 1), (599, 0)];

// A job has 255 deltas at most, whatever is held below its revision.
#[test]
fn a_job_begins_at_the_nearest_document(rt: HostRuntime) {
    let mut store = edited(&rt, LONG);
    have_deltas(&rt, &mut store, &FROM_KEPT);
    assert!(rt; job(&rt, &mut store, 511).deltas().len() < 256);
    let mut short = edited(&rt, Shape { keep: 16, ..LONG });
    have_deltas(&rt, &mut short, &FROM_FLOOR);
}
