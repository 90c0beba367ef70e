//! What writes in these tests, in the flusher's place.
ghost use Rattle.std.specs.Prelude.{◌≡◌, ◌++◌, []};
ghost use Rattle.revision.specs.State.{fold};
ghost use Rattle.recovery.specs.Found.{commands_of};
ghost use Rattle.recovery.specs.Open.{state_of};

use crate::CAP;
use disk::MemDisk;
use hub::{Board, Seat};
use published::{Life, Opened, Told};
use recovery::Store;
use std::marker::Model;
use std::process::Abort;
use std::sync::ledger::Blank;
use test_fixtures::{command, commit};
use view::Publisher;

/// A store, and the board of its order with the one seat that it gives. Contracts see it as the state that the store holds.
#[derive(Drop)]
pub struct Writing<L: Life> {
    store: Store<MemDisk>,
    board: Board<MemDisk, L>,
    seat: Seat<L>,
}

impl<L: Life> Model for Writing<L> {
    ghost use Rattle.revision.specs.State as spec;
    ghost use Rattle.recovery.specs.Open.{state_of};

    ghost Value = { spec.State };

    ghost view = { λ w. state_of w.store };
}

/// A publisher of nothing yet for the run of a store, what writes there, and the token of the start.
pub fn begun<L: Life, R: Abort + AllocGlobal>(
    rt: &R,
    store: Store<MemDisk>,
    opened: Opened,
    blank: Blank,
) -> (Publisher<MemDisk, L>, Writing<L>, Told<MemDisk, L>)
    requires book { opened ≡ L.book }
    requires name { blank.name ≡ L.name }
    requires parts { blank.parts ≡ L.parts }
    requires seats { blank.parts ≡ 2 }
    requires start { state_of store ≡ L.start }
    ensures none { (result.0.told ≡ []) × (result.0.unpublished ≡ []) }
    ensures start { result.1 ≡ L.start }
{
    let alloc = rt.alloc();
    let state = store.state().copy(alloc).expect(rt, "memory");
    let made = Publisher::<MemDisk, L>::new(alloc, opened, store.state());
    let (publisher, start, order) = made.expect(rt, "memory");
    let mut board = Board::new(alloc, &store, state, start.copy(), order, blank, 1);
    let seat = board.seat().expect(rt, "a seat");
    let writing = Writing { store, board, seat };
    (publisher, writing, start)
}

impl<L: Life> Writing<L> {
    /// The command of this number, with so many letters, is ordered, committed, and given to be published, with the document that it leaves.
    pub fn give<R: Abort + AllocGlobal>(
        &mut self,
        rt: &R,
        publisher: &mut Publisher<MemDisk, L>,
        number: u64,
        count: u32,
    )
        requires none { publisher.old.unpublished ≡ [] }
        requires kept { self.old ≡ fold L.start (commands_of publisher.old.told) }
        ensures kept { self.new ≡ fold L.start (commands_of (publisher.new.told ++ publisher.new.unpublished)) }
    {
        self.order(rt, number, count);
        self.hand_on(rt, publisher, true);
    }

    /// The command of this number, with so many letters, is ordered.
    pub fn order<R: Abort + AllocGlobal>(&mut self, rt: &R, number: u64, count: u32)
        ensures { self.new ≡ self.old }
    {
        let command = command(rt.alloc(), number, count).expect(rt, "a command");
        if let Err(refusal) = self.board.submit(rt.alloc(), &mut self.seat, &command) {
            panic!(rt; "{refusal}");
        }
    }

    /// The commands that were ordered are committed as one batch, and given to be published, with the documents that they leave or without.
    #[tactic(auto, using(published::proofs::CallerLemmas::committed_moment, published::proofs::CallerLemmas::committed_state))]
    pub fn hand_on<R: Abort + AllocGlobal>(
        &mut self,
        rt: &R,
        publisher: &mut Publisher<MemDisk, L>,
        with_documents: bool,
    )
        requires none { publisher.old.unpublished ≡ [] }
        requires kept { self.old ≡ fold L.start (commands_of publisher.old.told) }
        ensures kept { self.new ≡ fold L.start (commands_of (publisher.new.told ++ publisher.new.unpublished)) }
    {
        let alloc = rt.alloc();
        let run = self.board.take(alloc, CAP).expect(rt, "memory");
        if run.len() == 0 || run.place() as u64 != publisher.told().len() {
            panic!(rt; "it isn't the next part of the order");
        }
        let ordered = run.goes_on(publisher.told());
        match commit(alloc, &mut self.store, run.batch()) {
            Ok(receipt) => {
                let made = run.committed(&receipt, publisher.told());
                if with_documents {
                    publisher.accept(receipt, ordered, made);
                } else {
                    publisher.accept(receipt, ordered, Vec::new(alloc));
                }
            }
            Err(refusal) => panic!(rt; "{refusal}"),
        }
    }
}
