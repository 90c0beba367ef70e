//! A store with more room than the small one: a milestone of many edits.
use crate::milestones::is_put;
use crate::stores::{
    answer_text, create, edit, formatted_device, has_documents, is_opened_as, open_store,
};
use disk::Disk;
use recovery::{Shape, Store};
use std::process::Abort;

/// A device of 16,448 bytes, whose documents keep 64 revisions.
const ROOMY: Shape = Shape {
    slots: 2,
    slot: 4_096,
    docs: 2,
    cell: 2_048,
    sources: 4,
    keep: 64,
};

/// "d" with the letter that it was created with, and 40 letters in front of it.
const TYPED: &str = "d 41 xxxxxxxxxxxxxxxxxxxxxxxxxxxxxxxxxxxxxxxxz\n";

// The source `a` types 40 letters, each in an edit of its own.
fn types<D: Disk>(rt: &(impl Abort + AllocGlobal), store: &mut Store<D>) {
    for base in 1_u64..41 {
        let command = edit(rt, base + 1, base, "x");
        let _ = answer_text(rt, store, &command);
    }
}

#[test]
fn a_milestone_of_many_edits_is_put(rt: HostRuntime) {
    let mut store = open_store(&rt, formatted_device(&rt, 16_448, ROOMY));
    create(&rt, &mut store, &("a", "d", "z", "taken 1"));
    types(&rt, &mut store);
    has_documents(&rt, store.state(), TYPED);
    is_put(&rt, &mut store, 30, Ok(()));
    is_opened_as(&rt, store.close().bytes(), TYPED);
}
