//! Jobs of milestones: when a store has none, and what comes of one.
use crate::picks::written;
use crate::stopping::store_under_plan;
use crate::stores::{
    EditRow, change, create, device_of, has_documents, is_text, is_told_as, open_by, open_store,
    small_device,
};
use delta::{Delta, OpRef};
use disk::{Disk, Left};
use milestone::{Job, Milestone, compose_job};
use recovery::{Pick, Store};
use refusal::Refusal;
use revision::{Name, Window};
use std::process::Abort;

// Asks for a job.
fn job_of<D: Disk>(
    rt: &(impl Abort + AllocGlobal),
    store: &mut Store<D>,
    document: u32,
    revision: u64,
) -> Result<Job, Refusal> {
    store.milestone_job(rt.alloc(), document, revision)
}

/// A job that a store has.
pub fn job<D: Disk>(rt: &(impl Abort + AllocGlobal), store: &mut Store<D>, revision: u64) -> Job {
    match job_of(rt, store, 0, revision) {
        Ok(job) => job,
        Err(refusal) => panic!(rt; "{refusal} to {revision}"),
    }
}

/// A delta inserts this text without attributes, and does nothing else.
pub fn inserts(delta: &Delta, wanted: &str) -> bool {
    match delta.ops() {
        [op] => match op.get() {
            OpRef::Text(text, attrs) => text == wanted && attrs.entries().is_empty(),
            _ => false,
        },
        _ => false,
    }
}

// The only source is `a`, whose last number made the revision of that number.
fn is_only_source(rt: &impl Abort, sources: &[(Name, Window)], revision: u64) {
    assert_eq!(rt; sources.len(), 1);
    for (name, window) in sources {
        is_text(rt, name.as_str(), "a");
        assert!(rt; window.number() == revision && window.last_revision() == revision);
    }
}

// A milestone of "d" at a revision that is the last one of its only source, `a`, by its command of the same number.
fn is_milestone(rt: &(impl Abort + AllocGlobal), milestone: &Milestone, revision: u64, text: &str) {
    is_text(rt, milestone.name().as_str(), "d");
    assert_eq!(rt; milestone.revision(), revision);
    is_only_source(rt, milestone.sources().entries(), revision);
    let content = milestone.document().as_delta(rt.alloc());
    let content = content.expect(rt, "memory");
    assert!(rt; inserts(&content, text), "at {revision}");
}

// What comes of a job.
fn is_composed_as(rt: &(impl Abort + AllocGlobal), job: Job, revision: u64, text: &str) {
    match compose_job(rt.alloc(), job) {
        Ok(composed) => is_milestone(rt, composed.milestone(), revision, text),
        Err(back) => panic!(rt; "{}", back.refusal),
    }
}

/// A job that is asked for: the document, the revision, and the text of its milestone or the refusal.
pub type JobRow = (u32, u64, &'static str);

// A store has this job, or refuses it.
fn has_job<D: Disk>(rt: &(impl Abort + AllocGlobal), store: &mut Store<D>, row: &JobRow) {
    match job_of(rt, store, row.0, row.1) {
        Ok(job) => is_composed_as(rt, job, row.1, row.2),
        Err(refusal) => is_told_as(rt, refusal, row.2),
    }
}

/// A store has these jobs, or refuses them.
pub fn has_jobs<D: Disk>(rt: &(impl Abort + AllocGlobal), store: &mut Store<D>, rows: &[JobRow]) {
    for row in rows {
        has_job(rt, store, row);
    }
}

/// The source `a` changes what it has created as "d": each edit goes in front.
const EDITS: [EditRow; 2] = [(2, 1, "x", "taken 2"), (3, 2, "q", "taken 3")];

const JOBS: [JobRow; 6] = [
    (0, 2, "xz"),
    (0, 3, "qxz"),
    (0, 1, "z"),
    (0, 0, "error 13 TooOld"),
    (0, 4, "error 12 Future"),
    (1, 1, "error 6 NoDocument"),
];

// Two revisions below the newest are held.
const JOBS_BEHIND: [JobRow; 2] = [(0, 1, "error 13 TooOld"), (0, 2, "xz")];

#[test]
fn a_job_has_the_sources_of_its_revision(rt: HostRuntime) {
    let mut store = open_store(&rt, small_device(&rt));
    has_job(&rt, &mut store, &(0, 1, "error 6 NoDocument"));
    create(&rt, &mut store, &("a", "d", "z", "taken 1"));
    for row in &EDITS {
        change(&rt, &mut store, row);
    }
    has_documents(&rt, store.state(), "d 3 qxz\n");
    has_jobs(&rt, &mut store, &JOBS);
    change(&rt, &mut store, &(4, 3, "", "taken 4"));
    has_jobs(&rt, &mut store, &JOBS_BEHIND);
}

// Both cells of document 0 are open, at revisions 1 and 2. By the older pick revision 1 is held, and lies below the newer cell.
const JOBS_OF_CELLS: [JobRow; 4] = [
    (0, 1, "error 13 TooOld"),
    (0, 3, "error 12 Future"),
    (1, 1, "error 6 NoDocument"),
    (0, 2, "zx"),
];

#[test]
fn no_job_below_an_open_cell(rt: HostRuntime) {
    let disk = device_of(&rt, &written(&rt));
    let mut store = open_by(&rt, disk, Pick::Older);
    has_documents(&rt, store.state(), "d 2 zx\n");
    has_jobs(&rt, &mut store, &JOBS_OF_CELLS);
}

const FAULTS: [JobRow; 2] = [(0, 1, "error 34 Fault"), (0, 0, "error 34 Fault")];

#[test]
fn no_job_after_a_failure(rt: HostRuntime) {
    let mut store = store_under_plan(&rt, 0, false, Left::Nothing);
    has_job(&rt, &mut store, &(0, 1, "error 6 NoDocument"));
    create(&rt, &mut store, &("a", "d", "z", "error 34 Fault"));
    has_jobs(&rt, &mut store, &FAULTS);
}
