//! Jobs of a store in memory.
ghost use Rattle.std.specs.Prelude.{◌≤◌, ◌<◌, ◌^◌, length};
ghost use Rattle.recovery.specs.Open.{FitsSlot, state_of};

use attributes::Attrs;
use delta::{Builder, Delta, Op};
use disk::MemDisk;
use milestone::Job;
use recovery::{Pick, Shape, Store, format_device};
use revision::{Batch, Command, Name, Plan, Taken};
use std::process::Abort;

/// A device of 16,448 bytes, whose documents keep 64 revisions.
const ROOMY: Shape = Shape {
    slots: 2,
    slot: 4_096,
    docs: 2,
    cell: 2_048,
    sources: 4,
    keep: 64,
};

// a letter in front
fn letter(rt: &(impl Abort + AllocGlobal)) -> Delta {
    let mut text = String::new(rt.alloc());
    assert!(rt; text.push('x').is_ok());
    let mut builder = Builder::new(rt.alloc());
    assert!(rt; builder.push(Op::text(text, Attrs::new(rt.alloc()))).is_ok());
    builder.finish()
}

// Source a's command of a number to document z: the first creates it with a letter, each other adds one.
fn command(rt: &(impl Abort + AllocGlobal), number: u64) -> Command {
    assert!(rt; 1 <= number && number < 1 << 53);
    let name = Name::doc(rt.alloc(), "z").expect(rt, "a document");
    let source = Name::source(rt.alloc(), "a").expect(rt, "a source");
    let made = match number {
        1 => Command::create(name, source, number, letter(rt)),
        _ => Command::edit(name, source, number, number - 1, letter(rt)),
    };
    made.expect(rt, "a command")
}

// Commits a batch. No clause is kept of what comes of it, so callers are checked faster.
fn is_committed(rt: &(impl Abort + AllocGlobal), store: &mut Store<MemDisk>, batch: &Batch) -> bool
    requires some { 1 ≤ length batch.now }
    requires short { length batch.now < 2 ^ 32 }
    requires fits { FitsSlot (state_of store.old) batch.now }
{
    store.commit(rt.alloc(), batch, &[]).is_ok()
}

fn batch_of(rt: &(impl Abort + AllocGlobal), commands: Vec<Taken>) -> Batch {
    match Batch::of(rt.alloc(), commands) {
        Ok(batch) => batch,
        Err(refusal) => panic!(rt; "{refusal}"),
    }
}

fn committed(rt: &(impl Abort + AllocGlobal), store: &mut Store<MemDisk>, taken: Taken) {
    let commands = vec![in rt.alloc(); taken].expect(rt, "memory");
    let batch = batch_of(rt, commands);
    assert!(rt; batch.as_slice().len() == 1 && store.fits(batch.as_slice()));
    assert!(rt; is_committed(rt, store, &batch));
}

fn taken(rt: &(impl Abort + AllocGlobal), store: &mut Store<MemDisk>, number: u64) {
    let command = command(rt, number);
    match store.state().plan(rt.alloc(), &command) {
        Ok(Plan::Taken(taken)) => committed(rt, store, taken),
        _ => panic!(rt; "{number}"),
    }
}

/// A store whose only document has eight revisions.
pub fn edited(rt: &(impl Abort + AllocGlobal)) -> Store<MemDisk> {
    let mut disk = MemDisk::new(rt.alloc(), 16_448).expect(rt, "memory");
    assert!(rt; format_device(rt.alloc(), &mut disk, ROOMY) == Ok(()));
    let mut store = match Store::open(rt.alloc(), disk, Pick::Newer) {
        Ok(store) => store,
        Err(fault) => panic!(rt; "{}", fault.refusal),
    };
    for number in 1..9 {
        taken(rt, &mut store, number);
    }
    store
}

/// The job of its document to a revision.
pub fn job(rt: &(impl Abort + AllocGlobal), store: &mut Store<MemDisk>, revision: u64) -> Job {
    match store.milestone_job(rt.alloc(), 0, revision) {
        Ok(job) => job,
        Err(refusal) => panic!(rt; "{refusal} to {revision}"),
    }
}
