//! Publishing beside a thread that reads.
ghost use Rattle.std.specs.Prelude.{◌≡◌, ◌++◌, []};
ghost use Rattle.revision.specs.State.{fold};
ghost use Rattle.recovery.specs.Found.{commands_of};
ghost use Rattle.recovery.specs.Open.{state_of};

use crate::SHAPE;
use crate::writing::{Writing, begun};
use disk::MemDisk;
use published::{Life, Opened};
use recovery::Store;
use std::marker::Brand;
use std::process::Abort;
use std::sync::Wait;
use std::sync::ledger::Blank;
use std::thread::{Threads, join, yield_now};
use test_fixtures::{new_store, newest};
use view::{Publisher, Viewer};

/// So many batches are published.
const COUNT: u64 = 40;

// publishes a batch of one command
fn publish_one<L: Life, R: Abort + AllocGlobal + Wait>(
    rt: &R,
    writing: &mut Writing<L>,
    publisher: &mut Publisher<MemDisk, L>,
    number: u64,
)
    requires none { publisher.old.unpublished ≡ [] }
    requires kept { writing.old ≡ fold L.start (commands_of publisher.old.told) }
    ensures none { publisher.new.unpublished ≡ [] }
    ensures kept { writing.new ≡ fold L.start (commands_of publisher.new.told) }
{
    writing.give(rt, publisher, number, 1);
    match publisher.publish(rt, rt.alloc()) {
        Ok(Some((_receipt, told))) => assert_eq!(rt; told.len(), number),
        Ok(None) => panic!(rt; "nothing was given"),
        Err(_) => panic!(rt; "it isn't published"),
    }
}

// publishes so many batches
fn publish_all<L: Life, R: Abort + AllocGlobal + Wait>(
    rt: &R,
    writing: &mut Writing<L>,
    publisher: &mut Publisher<MemDisk, L>,
)
    requires none { publisher.old.unpublished ≡ [] }
    requires kept { writing.old ≡ fold L.start (commands_of publisher.old.told) }
{
    for number in 1..COUNT + 1 {
        publish_one(rt, writing, publisher, number);
    }
}

// Reads until the last revision is shown, and gives the last one that it saw. No revision is below the one before.
fn read_on<L: Life, R: Abort>(rt: &R, viewer: &mut Viewer<MemDisk, L>) -> u64 {
    let mut last = 0;
    for _ in 0..100_000_000u64 {
        let revision = viewer.read(newest).expect(rt, "the view goes on");
        assert!(rt; last <= revision && revision <= COUNT);
        last = revision;
        if last == COUNT {
            return last;
        }
        yield_now();
    }
    last
}

fn beside<L: Life + Send + Sync, R: Threads + Wait + Abort + AllocGlobal + Sync>(
    rt: &R,
    store: Store<MemDisk>,
    opened: Opened,
    blank: Blank,
)
    requires book { opened ≡ L.book }
    requires name { blank.name ≡ L.name }
    requires parts { blank.parts ≡ L.parts }
    requires seats { blank.parts ≡ 2 }
    requires start { state_of store ≡ L.start }
{
    let (mut publisher, mut writing, _start) = begun::<L, R>(rt, store, opened, blank);
    let mut viewer = publisher.viewer().expect(rt, "a place");
    let mut other = publisher.viewer().expect(rt, "a place");
    // the reader goes to another thread, and not what publishes
    let (last, _) = join(
        rt,
        || read_on(rt, &mut viewer),
        || publish_all(rt, &mut writing, &mut publisher),
    );
    assert_eq!(rt; last, COUNT);
    other.learn(publisher.told());
    assert!(rt; other.read(newest) == Ok(COUNT));
    publisher.end(rt);
}

#[test]
fn a_reader_goes_on_beside_the_publisher(rt: HostRuntime) {
    let store = new_store(rt.alloc(), SHAPE).expect(&rt, "a store");
    let opened = Opened::new().expect(&rt, "logs");
    beside::<Brand, _>(&rt, store, opened, Blank::new(2));
}
