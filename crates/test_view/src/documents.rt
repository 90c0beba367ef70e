//! Documents that are given with a batch are shown as those that are made of it.
ghost use Rattle.std.specs.Prelude.{◌≡◌, []};
ghost use Rattle.revision.specs.State.{fold};
ghost use Rattle.recovery.specs.Found.{commands_of};
ghost use Rattle.recovery.specs.Open.{state_of};

use crate::SHAPE;
use crate::writing::{Writing, begun};
use delta::{Delta, OpRef};
use disk::MemDisk;
use published::{Life, Opened};
use recovery::Store;
use revision::Name;
use std::marker::Brand;
use std::process::Abort;
use std::sync::Wait;
use std::sync::ledger::Blank;
use test_fixtures::new_store;
use view::{Publisher, Viewer};

/// What stands in the document at each revision: commands put 3, 2, 1 and 4 letters in front.
const TEXTS: [(u64, &str); 4] = [(1, "xxx"), (2, "xxxxx"), (3, "xxxxxx"), (4, "xxxxxxxxxx")];

// a delta inserts this text, and nothing else
fn inserts(delta: &Delta, wanted: &str) -> bool {
    match delta.ops() {
        [op] => matches!(op.get(), OpRef::Text(text, _) if text == wanted),
        _ => false,
    }
}

// this text stands in the document at a revision
fn has_text<L: Life>(
    rt: &(impl Abort + AllocGlobal),
    viewer: &mut Viewer<MemDisk, L>,
    row: &(u64, &str),
) {
    let alloc = rt.alloc();
    let name = Name::doc(alloc, "z").expect(rt, "a name");
    let (revision, wanted) = row;
    let document = viewer
        .at(alloc, &name, *revision)
        .expect(rt, "it stands there");
    let text = document.as_delta(alloc).expect(rt, "memory");
    assert!(rt; inserts(&text, wanted), "revision {revision}");
}

// A batch of two commands, whose documents are given or not, is published.
fn publishes_two<L: Life, R: Abort + AllocGlobal + Wait>(
    rt: &R,
    writing: &mut Writing<L>,
    publisher: &mut Publisher<MemDisk, L>,
    first: (u64, u32, u32),
    with_documents: bool,
)
    requires none { publisher.old.unpublished ≡ [] }
    requires kept { writing.old ≡ fold L.start (commands_of publisher.old.told) }
    ensures none { publisher.new.unpublished ≡ [] }
    ensures kept { writing.new ≡ fold L.start (commands_of publisher.new.told) }
{
    let (number, count, next) = first;
    writing.order(rt, number, count);
    writing.order(rt, number.saturating_add(1), next);
    writing.hand_on(rt, publisher, with_documents);
    match publisher.publish(rt, rt.alloc()) {
        Ok(Some((receipt, _told))) => assert_eq!(rt; receipt.batch().as_slice().len(), 2),
        Ok(None) => panic!(rt; "nothing was given"),
        Err(_) => panic!(rt; "it isn't published"),
    }
}

// One batch with the documents, and one without.
fn two_of_two<L: Life, R: Abort + AllocGlobal + Wait>(
    rt: &R,
    store: Store<MemDisk>,
    opened: Opened,
    blank: Blank,
)
    requires book { opened ≡ L.book }
    requires name { blank.name ≡ L.name }
    requires parts { blank.parts ≡ L.parts }
    requires seats { blank.parts ≡ 2 }
    requires start { state_of store ≡ L.start }
{
    let (mut publisher, mut writing, _start) = begun::<L, R>(rt, store, opened, blank);
    let mut viewer = publisher.viewer().expect(rt, "a place");
    publishes_two(rt, &mut writing, &mut publisher, (1, 3, 2), true);
    publishes_two(rt, &mut writing, &mut publisher, (3, 1, 4), false);
    viewer.learn(publisher.told());
    for row in &TEXTS {
        has_text(rt, &mut viewer, row);
    }
    publisher.end(rt);
}

#[test]
fn given_documents_are_shown_as_made_ones(rt: HostRuntime) {
    let store = new_store(rt.alloc(), SHAPE).expect(&rt, "a store");
    let opened = Opened::new().expect(&rt, "logs");
    two_of_two::<Brand, _>(&rt, store, opened, Blank::new(2));
}
