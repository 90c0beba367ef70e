//! What a turn has to do before it takes a batch: it puts what composers have done, hands out each job that is due, and retires what it may.
ghost use Rattle.std.specs.Prelude.{◌≡◌, ◌≤◌};
ghost use Rattle.turns.specs.Counting.{IsAt};
ghost use Rattle.recovery.specs.Open.{state_of};

use crate::composing::{ROOMY, TURNS};
use crate::rows::SHAPE;
use crate::seats::{started, submitted};
use disk::{Disk, MemDisk};
use flusher::{Flusher, OpenGate};
use hub::{Hub, Seat, Writer};
use published::{Life, Opened};
use recovery::{Pick, Shape, Store};
use refusal::Refusal;
use revision::{Action, Command, Name, Plan};
use std::marker::Brand;
use std::process::Abort;
use std::sync::Wait;
use std::sync::atomic::{AtomicBool, Ordering};
use std::sync::ledger::Blank;
use std::thread::{Threads, join, sleep};
use std::time::{Clock, Duration};
use test_fixtures::{command, commit_taken, new_store, open_store, wide_command, write};
use turns::{Composers, HalfGate, Upkeep, channels, compose_workers, flush_turn};

/// What turns are given: a store that has so many documents, each at revision 3, and then so many commands of one source on its first
/// document, where each above a number fills a slot of 256 bytes. A milestone is due at each multiple of `every` revisions. Of all that are
/// due the last one is at the revision before the last.
#[derive(Clone, Copy)]
struct Work {
    shape: Shape,
    documents: u32,
    commands: u64,
    letters: u64,
    every: u32,
    last: u64,
}

/// Holds each half until the gate is opened.
#[derive(Drop)]
struct UntilOpened<'a, R> {
    rt: &'a R,
    is_open: AtomicBool,
}

impl<'a, R: Clock> HalfGate for UntilOpened<'a, R> {
    fn pass(&self, _half: u8) {
        for _ in 0..TURNS {
            if self.is_open.load(Ordering::SeqCst) {
                return;
            }
            sleep(self.rt, Duration::from_millis(1));
        }
    }
}

// The command of this number to a document: the first one creates it, and each puts a letter in front.
fn command_to(rt: &(impl Abort + AllocGlobal), document: u32, number: u64) -> Command {
    let alloc = rt.alloc();
    let like = command(alloc, number, 1).expect(rt, "a command");
    let text = format!(in alloc; "d{document}").expect(rt, "memory");
    let name = Name::doc(alloc, text.as_str()).expect(rt, "a document");
    let source = Name::source(alloc, "a").expect(rt, "a source");
    let made = match like.action() {
        Action::Create(delta) => {
            let delta = delta.copy(alloc).expect(rt, "memory");
            Command::create(name, source, like.number(), delta)
        }
        Action::Edit { base, delta } => {
            let delta = delta.copy(alloc).expect(rt, "memory");
            Command::edit(name, source, like.number(), *base, delta)
        }
        Action::Undo => panic!(rt; "an undo"),
        Action::Delete => panic!(rt; "a deletion"),
    };
    made.expect(rt, "a command")
}

fn is_written(rt: &(impl Abort + AllocGlobal), store: &mut Store<MemDisk>, next: &Command) {
    match store.state().plan(rt.alloc(), next) {
        Ok(Plan::Taken(taken)) => assert!(rt; commit_taken(rt.alloc(), store, taken).is_ok()),
        _ => panic!(rt; "{}", next.number()),
    }
}

// A store of so many documents, each at revision 3.
fn store_with(rt: &(impl Abort + AllocGlobal), shape: Shape, documents: u32) -> Store<MemDisk> {
    let mut store = new_store(rt.alloc(), shape).expect(rt, "a store");
    for document in 0..documents {
        for number in 1..4 {
            is_written(rt, &mut store, &command_to(rt, document, number));
        }
    }
    store
}

// Makes a turn.
fn turn<L: Life, R: Wait + Abort + AllocGlobal>(
    rt: &R,
    flusher: &mut Flusher<MemDisk, L>,
    hub: &Hub<MemDisk, L>,
    writer: &mut Writer<L>,
    upkeep: &mut Upkeep,
)
    requires at { IsAt writer.old flusher.old }
    ensures at { IsAt writer.new flusher.new }
{
    let turned = flush_turn(rt, rt.alloc(), flusher, hub, writer, upkeep, &mut OpenGate);
    assert!(rt; turned.is_ok());
}

// Makes a turn in which nothing is to be written. No segment is left after it that could be retired, and no job of the first document is due
// that isn't out.
fn idle_turn<L: Life, R: Wait + Abort + AllocGlobal>(
    rt: &R,
    flusher: &mut Flusher<MemDisk, L>,
    hub: &Hub<MemDisk, L>,
    writer: &mut Writer<L>,
    upkeep: &mut Upkeep,
    every: u32,
)
    requires every { 1 ≤ every }
    requires at { IsAt writer.old flusher.old }
    ensures at { IsAt writer.new flusher.new }
{
    turn(rt, flusher, hub, writer, upkeep);
    assert!(rt; flusher.retire() == Err(Refusal::StillNeeded));
    assert!(rt; flusher.job_due(0, u64::from(every)) == None);
}

// Makes a turn for each command.
fn write_commands<L: Life, R: Wait + Abort + AllocGlobal>(
    rt: &R,
    flusher: &mut Flusher<MemDisk, L>,
    hub: &Hub<MemDisk, L>,
    writer: &mut Writer<L>,
    seat: &mut Seat<L>,
    upkeep: &mut Upkeep,
    work: &Work,
)
    requires at { IsAt writer.old flusher.old }
    ensures at { IsAt writer.new flusher.new }
{
    for place in 0..work.commands {
        let number = place.saturating_add(1);
        let next = if number <= work.letters {
            command(rt.alloc(), number, 1)
        } else {
            wide_command(rt.alloc(), number)
        };
        let _ticket = submitted(rt, hub, seat, &next.expect(rt, "a command"));
        turn(rt, flusher, hub, writer, upkeep);
    }
}

// Each document has its milestone at the revision before its last one: a job to the last one would be due, and none to that one.
fn are_put<L: Life>(flusher: &Flusher<MemDisk, L>, last: u64) -> bool
    requires { 2 ≤ last }
{
    let mut document = 0;
    for _ in flusher.state().documents() {
        if flusher.job_due(document, last) != Some(last)
            || flusher.job_due(document, last - 1).is_some()
        {
            return false;
        }
        document = document.saturating_add(1);
    }
    true
}

// Makes turns for all commands, and two more, while the composers hold what they have taken. Then these may go on, and turns are made until
// all milestones are put.
fn turned<L: Life, R: Wait + Clock + Abort + AllocGlobal>(
    rt: &R,
    store: Store<MemDisk>,
    opened: Opened,
    blank: Blank,
    ends: Composers,
    is_open: &AtomicBool,
    work: &Work,
) -> MemDisk
    requires book { opened ≡ L.book }
    requires name { blank.name ≡ L.name }
    requires parts { blank.parts ≡ L.parts }
    requires seats { blank.parts ≡ 2 }
    requires begin { state_of store ≡ L.start }
{
    let every = work.every;
    let last = work.last;
    assert!(rt; 1 <= every && 2 <= last);
    let (mut flusher, hub, mut writer, mut closer) = started::<L>(rt, store, opened, blank, 1);
    let mut seat = hub.seat(rt, &mut closer).expect(rt, "a seat");
    let mut upkeep = Upkeep::new(rt.alloc(), every, Some(ends), flusher.state());
    write_commands(
        rt,
        &mut flusher,
        &hub,
        &mut writer,
        &mut seat,
        &mut upkeep,
        work,
    );
    for _ in 0..2u8 {
        idle_turn(rt, &mut flusher, &hub, &mut writer, &mut upkeep, every);
    }
    is_open.store(true, Ordering::SeqCst);
    for _ in 0..TURNS {
        if are_put(&flusher, last) {
            return flusher.end(rt).close();
        }
        sleep(rt, Duration::from_millis(1));
        idle_turn(rt, &mut flusher, &hub, &mut writer, &mut upkeep, every);
    }
    panic!(rt; "a milestone isn't put")
}

// The bytes that these turns leave.
fn left_by<R: Wait + Clock + Abort + AllocGlobal>(
    rt: &R,
    ends: Composers,
    is_open: &AtomicBool,
    work: &Work,
) -> Vec<u8> {
    let store = store_with(rt, work.shape, work.documents);
    let opened = Opened::new().expect(rt, "logs");
    let disk = turned::<Brand, _>(rt, store, opened, Blank::new(2), ends, is_open, work);
    disk.bytes().to_vec(rt.alloc()).expect(rt, "memory")
}

// The same beside composers.
fn left_beside<R: Threads + Wait + Clock + Abort + AllocGlobal + Sync>(
    rt: &R,
    work: Work,
) -> Vec<u8> {
    let (ends, first, second) = channels(rt.alloc()).expect(rt, "memory");
    let gate = UntilOpened {
        rt,
        is_open: AtomicBool::new(false),
    };
    let (_ended, bytes) = join(
        rt,
        || compose_workers(rt, rt.alloc(), first, second, &gate),
        || left_by(rt, ends, &gate.is_open, &work),
    );
    bytes
}

/// A device of 68,672 bytes.
const WIDE: Shape = Shape {
    slots: 2,
    slot: 16_384,
    docs: 70,
    cell: 256,
    sources: 4,
    keep: 64,
};

// There are more documents than places in the channel and with the composers. Each gets its milestone, at the multiple 2.
#[test]
fn each_of_many_documents_gets_a_milestone(rt: HostRuntime) {
    let work = Work {
        shape: WIDE,
        documents: 70,
        commands: 0,
        letters: 0,
        every: 2,
        last: 3,
    };
    let bytes = left_beside(&rt, work);
    let disk = MemDisk::holding(rt.alloc(), bytes);
    let store = open_store(rt.alloc(), disk, Pick::Newer).expect(&rt, "a store");
    assert_eq!(&rt; store.state().documents().len(), 70);
    for document in store.state().documents() {
        assert_eq!(&rt; document.floor(), 2);
    }
}

// The edits pass the multiple 4. There is no document when the turns begin.
#[test]
fn a_batch_leads_to_a_milestone(rt: HostRuntime) {
    let work = Work {
        shape: ROOMY,
        documents: 0,
        commands: 5,
        letters: 5,
        every: 4,
        last: 5,
    };
    let _ = left_beside(&rt, work);
}

// The job to 4 is out while the edits pass 8, and then none comes any more. The turn that puts the first milestone hands out the second job.
#[test]
fn a_multiple_that_is_passed_meanwhile_gets_its_milestone(rt: HostRuntime) {
    let work = Work {
        shape: ROOMY,
        documents: 0,
        commands: 9,
        letters: 9,
        every: 4,
        last: 9,
    };
    let _ = left_beside(&rt, work);
}

// Each of three slots holds a command. The first two are retired in the turn that puts the milestone at revision 2.
#[test]
fn the_turn_that_puts_a_milestone_retires_what_waits_for_it(rt: HostRuntime) {
    let work = Work {
        shape: Shape { slots: 4, ..SHAPE },
        documents: 0,
        commands: 3,
        letters: 1,
        every: 2,
        last: 3,
    };
    let bytes = left_beside(&rt, work);
    for (slot, gate) in [(1_088, 0), (1_344, 0), (1_600, 0xa5), (1_856, 0)] {
        assert!(&rt; bytes.get(slot).copied() == Some(gate));
    }
}

// Makes turns while nobody takes from the channel, and more once the composers' ends are gone.
fn alone<L: Life, R: Wait + Abort + AllocGlobal>(
    rt: &R,
    store: Store<MemDisk>,
    opened: Opened,
    blank: Blank,
) -> MemDisk
    requires book { opened ≡ L.book }
    requires name { blank.name ≡ L.name }
    requires parts { blank.parts ≡ L.parts }
    requires seats { blank.parts ≡ 2 }
    requires begin { state_of store ≡ L.start }
{
    let (mut flusher, hub, mut writer, _closer) = started::<L>(rt, store, opened, blank, 1);
    let (ends, first, second) = channels(rt.alloc()).expect(rt, "memory");
    let mut upkeep = Upkeep::new(rt.alloc(), 4, Some(ends), flusher.state());
    for _ in 0..3u8 {
        idle_turn(rt, &mut flusher, &hub, &mut writer, &mut upkeep, 4);
    }
    drop(first);
    drop(second);
    for _ in 0..3u8 {
        idle_turn(rt, &mut flusher, &hub, &mut writer, &mut upkeep, 4);
    }
    flusher.end(rt).close()
}

// A document at revision 9 has a job at the multiple 8. Turns compose no milestone themselves, so not a byte changes.
#[test]
fn turns_alone_put_no_milestone(rt: HostRuntime) {
    let mut store = new_store(rt.alloc(), ROOMY).expect(&rt, "a store");
    for number in 1..10 {
        assert!(&rt; write(rt.alloc(), &mut store, number, 1).is_ok());
    }
    let device = store.close();
    let bytes = device.bytes().to_vec(rt.alloc()).expect(&rt, "memory");
    let store = open_store(rt.alloc(), device, Pick::Newer).expect(&rt, "a store");
    let opened = Opened::new().expect(&rt, "logs");
    let disk = alone::<Brand, _>(&rt, store, opened, Blank::new(2));
    assert!(&rt; disk.bytes() == bytes.as_slice());
}
