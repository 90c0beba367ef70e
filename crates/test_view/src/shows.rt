//! A viewer shows what was published, and nothing else; what it was told of, it shows.
ghost use Rattle.std.specs.Prelude.{◌≡◌, ◌++◌, []};
ghost use Rattle.revision.specs.State.{fold};
ghost use Rattle.recovery.specs.Found.{commands_of};
ghost use Rattle.recovery.specs.Open.{state_of};

use crate::SHAPE;
use crate::writing::{Writing, begun};
use disk::MemDisk;
use published::{Life, Opened, Told};
use recovery::Store;
use refusal::Refusal;
use revision::Name;
use std::alloc::Global;
use std::marker::Brand;
use std::process::Abort;
use std::sync::Wait;
use std::sync::ledger::Blank;
use test_fixtures::{new_store, newest};
use view::{Publisher, Viewer};

fn shows<L: Life, R: Abort>(rt: &R, viewer: &mut Viewer<MemDisk, L>, revision: u64) {
    assert!(rt; viewer.read(newest) == Ok(revision), "revision {revision}");
}

// the view has ended
fn is_over<L: Life, R: Abort>(rt: &R, viewer: &mut Viewer<MemDisk, L>) {
    assert!(rt; viewer.read(newest) == Err(Refusal::StoreFailed));
}

// publishes what was given, and gives the token that ends with it
fn published<L: Life, R: Abort + AllocGlobal + Wait>(
    rt: &R,
    publisher: &mut Publisher<MemDisk, L>,
    length: u64,
) -> Told<MemDisk, L>
    ensures none { publisher.new.unpublished ≡ [] }
    ensures told { publisher.new.told ≡ publisher.old.told ++ publisher.old.unpublished }
{
    match publisher.publish(rt, rt.alloc()) {
        Ok(Some((receipt, told))) => {
            assert_eq!(rt; receipt.batch().as_slice().len(), 1);
            assert_eq!(rt; told.len(), length);
            told
        }
        Ok(None) => panic!(rt; "nothing was given"),
        Err(_) => panic!(rt; "it isn't published"),
    }
}

/// What is asked of the documents that are shown: the units of one at a revision, or how many deltas it has since.
enum Ask {
    At(&'static str, u64),
    Since(&'static str, u64),
}

/// What stands at the revisions, and what was taken since.
const READS: [(Ask, Result<u64, Refusal>); 7] = [
    (Ask::At("z", 1), Ok(3)),
    (Ask::At("z", 2), Ok(5)),
    (Ask::Since("z", 1), Ok(1)),
    (Ask::Since("z", 0), Ok(2)),
    (Ask::At("z", 3), Err(Refusal::Future)),
    (Ask::At("y", 1), Err(Refusal::NoDocument)),
    (Ask::Since("z", 3), Err(Refusal::Future)),
];

fn units<L: Life>(
    alloc: Global,
    viewer: &mut Viewer<MemDisk, L>,
    name: &Name,
    revision: u64,
) -> Result<u64, Refusal> {
    Ok(viewer.at(alloc, name, revision)?.len16())
}

fn deltas<L: Life>(
    alloc: Global,
    viewer: &mut Viewer<MemDisk, L>,
    name: &Name,
    revision: u64,
) -> Result<u64, Refusal> {
    Ok(viewer.since(alloc, name, revision)?.len() as u64)
}

// What is asked is answered so.
fn reads<L: Life>(
    rt: &(impl Abort + AllocGlobal),
    viewer: &mut Viewer<MemDisk, L>,
    row: &(Ask, Result<u64, Refusal>),
) {
    let alloc = rt.alloc();
    let (Ask::At(text, _) | Ask::Since(text, _)) = &row.0;
    let name = Name::doc(alloc, text).expect(rt, "a name");
    let found = match &row.0 {
        Ask::At(_, revision) => units(alloc, viewer, &name, *revision),
        Ask::Since(_, revision) => deltas(alloc, viewer, &name, *revision),
    };
    assert!(rt; found == row.1);
}

// The first batch is shown once it is published.
fn first_batch<L: Life, R: Abort + AllocGlobal + Wait>(
    rt: &R,
    writing: &mut Writing<L>,
    publisher: &mut Publisher<MemDisk, L>,
    viewer: &mut Viewer<MemDisk, L>,
) -> Told<MemDisk, L>
    requires none { publisher.old.unpublished ≡ [] }
    requires kept { writing.old ≡ fold L.start (commands_of publisher.old.told) }
    ensures none { publisher.new.unpublished ≡ [] }
    ensures kept { writing.new ≡ fold L.start (commands_of publisher.new.told) }
{
    writing.give(rt, publisher, 1, 3);
    assert!(rt; publisher.holds());
    shows(rt, viewer, 0);
    let first = published(rt, publisher, 1);
    shows(rt, viewer, 1);
    first
}

// The second batch is given, and then a viewer comes.
fn late_viewer<L: Life, R: Abort + AllocGlobal>(
    rt: &R,
    writing: &mut Writing<L>,
    publisher: &mut Publisher<MemDisk, L>,
    viewer: &mut Viewer<MemDisk, L>,
) -> Viewer<MemDisk, L>
    requires none { publisher.old.unpublished ≡ [] }
    requires kept { writing.old ≡ fold L.start (commands_of publisher.old.told) }
{
    writing.give(rt, publisher, 2, 2);
    shows(rt, viewer, 1);
    publisher.viewer().expect(rt, "a place")
}

// One that is told of both batches shows both.
fn catches_up<L: Life, R: Abort + AllocGlobal>(
    rt: &R,
    late: &mut Viewer<MemDisk, L>,
    first: &Told<MemDisk, L>,
    second: &Told<MemDisk, L>,
) {
    late.learn(second);
    shows(rt, late, 2);
    late.learn(first);
    shows(rt, late, 2);
    for row in &READS {
        reads(rt, late, row);
    }
    assert_eq!(rt; late.told().len(), 2);
}

// Where nothing was given, nothing is published.
fn nothing_is_published<L: Life, R: Abort + AllocGlobal + Wait>(
    rt: &R,
    publisher: &mut Publisher<MemDisk, L>,
)
    ensures none { publisher.new.unpublished ≡ [] }
    ensures same { publisher.new ≡ publisher.old }
{
    match publisher.publish(rt, rt.alloc()) {
        Ok(None) => {}
        _ => panic!(rt; "something is published"),
    }
}

// Of two tokens the longer is kept.
fn are_prefixes<L: Life, R: Abort>(
    rt: &R,
    start: &Told<MemDisk, L>,
    one: &Told<MemDisk, L>,
    two: &Told<MemDisk, L>,
) {
    assert!(rt; start.begins(two) && one.begins(two) && two.begins(two) && !two.begins(one));
    assert!(rt; two.longer(one).len() == 2 && one.longer(two).len() == 2);
}

// The second batch is published, and the late viewer is told of both.
fn second_batch<L: Life, R: Abort + AllocGlobal + Wait>(
    rt: &R,
    publisher: &mut Publisher<MemDisk, L>,
    late: &mut Viewer<MemDisk, L>,
    start: &Told<MemDisk, L>,
    first: &Told<MemDisk, L>,
) {
    let second = published(rt, publisher, 2);
    assert!(rt; !publisher.holds());
    catches_up(rt, late, first, &second);
    are_prefixes(rt, start, first, &second);
}

// Both are shown.
fn both_batches<L: Life, R: Abort + AllocGlobal + Wait>(
    rt: &R,
    publisher: &mut Publisher<MemDisk, L>,
    viewer: &mut Viewer<MemDisk, L>,
    writing: &mut Writing<L>,
    start: &Told<MemDisk, L>,
)
    requires none { publisher.old.unpublished ≡ [] }
    requires kept { writing.old ≡ fold L.start (commands_of publisher.old.told) }
{
    let first = first_batch(rt, writing, publisher, viewer);
    let mut late = late_viewer(rt, writing, publisher, viewer);
    second_batch(rt, publisher, &mut late, start, &first);
}

// Two batches, with a viewer from the start, one that comes later, and one that is told.
fn two_batches<L: Life, R: Abort + AllocGlobal + Wait>(
    rt: &R,
    store: Store<MemDisk>,
    opened: Opened,
    blank: Blank,
)
    requires book { opened ≡ L.book }
    requires name { blank.name ≡ L.name }
    requires parts { blank.parts ≡ L.parts }
    requires seats { blank.parts ≡ 2 }
    requires start { state_of store ≡ L.start }
{
    let (mut publisher, mut writing, start) = begun::<L, R>(rt, store, opened, blank);
    assert_eq!(rt; start.len(), 0);
    let mut viewer = publisher.viewer().expect(rt, "a place");
    shows(rt, &mut viewer, 0);
    nothing_is_published(rt, &mut publisher);
    both_batches(rt, &mut publisher, &mut viewer, &mut writing, &start);
    publisher.end(rt);
    is_over(rt, &mut viewer);
}

#[test]
fn a_viewer_shows_what_is_published(rt: HostRuntime) {
    let store = new_store(rt.alloc(), SHAPE).expect(&rt, "a store");
    let opened = Opened::new().expect(&rt, "logs");
    two_batches::<Brand, _>(&rt, store, opened, Blank::new(2));
}
