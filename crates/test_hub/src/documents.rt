//! The documents that a board hands out beside the commands of its runs.
ghost use Rattle.std.specs.Prelude.{◌≡◌};
ghost use Rattle.recovery.specs.Open.{state_of};

use crate::publishing::Publishing;
use crate::rows::SHAPE;
use crate::stores::{NEVER, store_by};
use attributes::Attrs;
use delta::{Builder, Delta, Op, OpRef};
use disk::FaultDisk;
use document::Document;
use hub::{Board, Seat};
use published::{Life, Opened};
use recovery::Store;
use refusal::Refusal;
use revision::{Command, Name};
use std::alloc::Global;
use std::marker::Brand;
use std::process::Abort;
use std::sync::ledger::Blank;

/// Each makes its document, or puts a text in front of it. The entries have 43, 40 and 43 bytes, and a batch has 4 more.
const COMMANDS: [(&str, u64, &str); 3] = [("y", 1, "one"), ("y", 2, "six"), ("z", 1, "two")];

/// Two of them fit in one batch, and three don't.
const CAP: u32 = 90;

/// What the commands of each run leave in their documents.
const RUNS: [&[&str]; 2] = [&["one", "sixone"], &["two"]];

// Puts a text in front.
fn front(alloc: Global, text: &str) -> Result<Delta, Refusal> {
    let mut builder = Builder::new(alloc);
    builder.push(Op::text(String::from_str(alloc, text)?, Attrs::new(alloc)))?;
    Ok(builder.finish())
}

// The command of the source "a" of this number, which puts a text in front of the document of this name.
fn command(alloc: Global, name: &str, number: u64, text: &str) -> Result<Command, Refusal> {
    if number < 1 || number >= 1 << 53 {
        return Err(Refusal::OldNumber);
    }
    let delta = front(alloc, text)?;
    let name = Name::doc(alloc, name)?;
    let source = Name::source(alloc, "a")?;
    match number {
        1 => Command::create(name, source, number, delta),
        _ => Command::edit(name, source, number, number - 1, delta),
    }
}

fn ordered<L: Life>(
    rt: &(impl Abort + AllocGlobal),
    board: &mut Board<FaultDisk, L>,
    seat: &mut Seat<L>,
    asked: &(&str, u64, &str),
) {
    let command = command(rt.alloc(), asked.0, asked.1, asked.2).expect(rt, "a command");
    assert!(rt; board.submit(rt.alloc(), seat, &command).is_ok());
}

// Whether a delta inserts this text, and nothing else.
fn inserts(delta: &Delta, wanted: &str) -> bool {
    match delta.ops() {
        [op] => match op.get() {
            OpRef::Text(text, attrs) => text == wanted && attrs.entries().is_empty(),
            _ => false,
        },
        _ => false,
    }
}

fn are_texts(rt: &(impl Abort + AllocGlobal), documents: &[Document], wanted: &[&str]) {
    assert_eq!(rt; documents.len(), wanted.len());
    for (document, text) in documents.iter().zip(wanted) {
        let delta = document.as_delta(rt.alloc()).expect(rt, "memory");
        assert!(rt; inserts(&delta, *text), "{text}");
    }
}

// The next run has the documents of these texts, and gives them out once it is committed.
fn hands_out<L: Life>(
    rt: &(impl Abort + AllocGlobal),
    board: &mut Board<FaultDisk, L>,
    publishing: &mut Publishing<L>,
    wanted: &[&str],
) {
    let run = board.take(rt.alloc(), CAP).expect(rt, "memory");
    if run.len() == 0 || run.place() as u64 != publishing.told().len() {
        panic!(rt; "it isn't the next part of the order");
    }
    are_texts(rt, run.made(publishing.told()), wanted);
    let (_receipt, made) = publishing.write(rt, run);
    are_texts(rt, made.as_slice(), wanted);
}

fn handed_out<L: Life, R: Abort + AllocGlobal>(
    rt: &R,
    store: Store<FaultDisk>,
    opened: Opened,
    blank: Blank,
)
    requires book { opened ≡ L.book }
    requires name { blank.name ≡ L.name }
    requires parts { blank.parts ≡ L.parts }
    requires seats { blank.parts ≡ 2 }
    requires start { state_of store ≡ L.start }
{
    let alloc = rt.alloc();
    let state = store.state().copy(alloc).expect(rt, "memory");
    let (log, told, order) = opened.named::<FaultDisk, L>();
    let mut board = Board::new(alloc, &store, state, told.copy(), order, blank, 1);
    let mut seat = board.seat().expect(rt, "a seat");
    let mut publishing = Publishing::new(store, log, told);
    for asked in &COMMANDS {
        ordered(rt, &mut board, &mut seat, asked);
    }
    for wanted in &RUNS {
        hands_out(rt, &mut board, &mut publishing, *wanted);
    }
}

#[test]
fn each_run_has_the_documents_that_its_commands_leave(rt: HostRuntime) {
    let store = store_by(&rt, SHAPE, NEVER);
    let opened = Opened::new().expect(&rt, "logs");
    handed_out::<Brand, _>(&rt, store, opened, Blank::new(2));
}
