//! A batch that is committed before it is published, and one that finds the journal full then.
ghost use Rattle.std.specs.Prelude.{◌≡◌, []};
ghost use Rattle.turns.specs.Counting.{IsAt};
ghost use Rattle.recovery.specs.Open.{state_of};
ghost use Rattle.flusher.specs.Holding.{committed_of, waiting_of};

use crate::rows::SHAPE;
use crate::seats::{started, submitted};
use crate::shows::hold_next;
use disk::MemDisk;
use flusher::{Flusher, OpenGate};
use hub::{Hub, Seat, Writer};
use published::{Life, Opened};
use recovery::Store;
use refusal::Refusal;
use revision::Command;
use std::marker::Brand;
use std::process::Abort;
use std::sync::Wait;
use std::sync::ledger::Blank;
use test_fixtures::{command, new_store, wide_command};

// Submits a command and holds it as a batch, whose commit alone is answered as it is wanted. Then it is written and settled.
fn is_committed<L: Life, R: Wait + Abort + AllocGlobal>(
    rt: &R,
    flusher: &mut Flusher<MemDisk, L>,
    hub: &Hub<MemDisk, L>,
    writer: &mut Writer<L>,
    seat: &mut Seat<L>,
    next: &Command,
    wanted: Result<(), Refusal>,
)
    requires nothing { (committed_of flusher.old ≡ []) × (waiting_of flusher.old ≡ []) }
    requires at { IsAt writer.old flusher.old }
    ensures nothing { (committed_of flusher.new ≡ []) × (waiting_of flusher.new ≡ []) }
    ensures at { IsAt writer.new flusher.new }
{
    let _ticket = submitted(rt, hub, seat, next);
    hold_next(rt, flusher, hub, writer);
    let committed = flusher.commit_held(rt.alloc());
    assert!(rt; committed == wanted);
    let written = flusher
        .write(rt, rt.alloc(), &mut OpenGate)
        .expect(rt, "written");
    let batch = written.expect(rt, "a batch");
    let _settled = batch.settle(rt, hub, writer);
}

fn three_batches<L: Life, R: Wait + Abort + AllocGlobal>(
    rt: &R,
    store: Store<MemDisk>,
    opened: Opened,
    blank: Blank,
)
    requires book { opened ≡ L.book }
    requires name { blank.name ≡ L.name }
    requires parts { blank.parts ≡ L.parts }
    requires seats { blank.parts ≡ 2 }
    requires begin { state_of store ≡ L.start }
{
    let alloc = rt.alloc();
    let (mut flusher, hub, mut writer, mut closer) = started::<L>(rt, store, opened, blank, 1);
    let mut seat = hub.seat(rt, &mut closer).expect(rt, "a seat");
    let first = command(alloc, 1, 1).expect(rt, "a command");
    is_committed(
        rt,
        &mut flusher,
        &hub,
        &mut writer,
        &mut seat,
        &first,
        Ok(()),
    );
    let second = wide_command(alloc, 2).expect(rt, "a command");
    is_committed(
        rt,
        &mut flusher,
        &hub,
        &mut writer,
        &mut seat,
        &second,
        Ok(()),
    );
    let third = wide_command(alloc, 3).expect(rt, "a command");
    let full = Err(Refusal::JournalFull);
    is_committed(rt, &mut flusher, &hub, &mut writer, &mut seat, &third, full);
    let _store = flusher.end(rt);
}

// Both slots are taken by the first two batches: the commit of the third one frees none, and the write does.
#[test]
fn a_commit_alone_frees_no_slot(rt: HostRuntime) {
    let store = new_store(rt.alloc(), SHAPE).expect(&rt, "a store");
    let opened = Opened::new().expect(&rt, "logs");
    three_batches::<Brand, _>(&rt, store, opened, Blank::new(2));
}
