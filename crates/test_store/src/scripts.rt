//! Scripts of what is asked of a store, drawn from a seed: changes of three documents by two sources, milestones and retirements.
ghost use Rattle.std.specs.Prelude.{◌<◌};
ghost use Rattle.recovery.specs.Open.{state_of};
ghost use Rattle.recovery.specs.Run.{CanTake};

use crate::running::{run_steps, step};
use crate::stores::{device_of, extend, formatted_device, open_store};
use disk::{Disk, MemDisk};
use recovery::{Shape, Store, StoreStep};
use refusal::Refusal;
use std::process::Abort;

/// A shape of 4,672 bytes: three slots, where each takes two to five batches.
const SHAPE: Shape = Shape {
    slots: 3,
    slot: 256,
    docs: 3,
    cell: 640,
    sources: 2,
    keep: 2,
};

/// A change that a source makes of a document: it puts a letter in front, or in the place of the first one.
#[derive(Clone, Copy)]
pub struct Change {
    /// The place of its move among the moves.
    pub at: usize,
    pub document: u8,
    pub revision: u8,
    pub source: u8,
    pub number: u8,
    pub letter: u8,
    pub replaces: bool,
}

/// A move of a script.
#[derive(Clone, Copy)]
pub enum Move {
    /// Commits its changes, which are so many, in one batch.
    Commit(u8),
    /// Puts a milestone of a document at a revision.
    Milestone(u8, u8),
    Retire,
}

/// Moves that a store takes one after another, with the changes that they commit.
#[derive(Drop)]
pub struct Script {
    pub changes: Vec<Change>,
    pub moves: Vec<Move>,
}

/// Pseudo-random numbers: a linear congruential generator with Knuth's constants for 64 bits, where the highest byte is
/// taken.
#[derive(Drop)]
pub struct Numbers {
    pub state: u64,
}

impl Numbers {
    // The next number, below a bound.
    fn below(&mut self, bound: u8) -> u8
        requires { 0 < bound }
        ensures { result < bound }
    {
        self.state = self
            .state
            .wrapping_mul(6_364_136_223_846_793_005)
            .wrapping_add(1_442_695_040_888_963_407);
        self.state.to_be_bytes()[0] % bound
    }
}

/// A formatted device for scripts, with no call made yet.
pub fn script_device(rt: &(impl Abort + AllocGlobal)) -> MemDisk {
    device_of(rt, formatted_device(rt, 4_672, SHAPE).bytes())
}

// A change's entry in its batch, byte for byte.
fn push_entry(rt: &(impl Abort + AllocGlobal), bytes: &mut Vec<u8>, change: &Change) {
    let creates = change.revision == 1;
    let tag = if creates { 1 } else { 2 };
    extend(rt, bytes, &[tag, change.document, 0, 0, 0, change.revision]);
    extend(rt, bytes, &[0, 0, 0, 0, 0, 0, 0, 1, 0, change.source]);
    extend(rt, bytes, &[change.number, 0, 0, 0, 0, 0, 0, 0]);
    if creates {
        extend(rt, bytes, &[1, 0, b'd'.saturating_add(change.document)]);
    }
    push_delta(rt, bytes, change);
}

// And the delta in it: the insert of a letter, and where it replaces one a delete behind it.
fn push_delta(rt: &(impl Abort + AllocGlobal), bytes: &mut Vec<u8>, change: &Change) {
    let count = if change.replaces { 2 } else { 1 };
    extend(rt, bytes, &[count, 0, 0, 0, 1, 1, 0, 0, 0, change.letter]);
    extend(rt, bytes, &[0, 0, 0, 0]);
    if change.replaces {
        extend(rt, bytes, &[4, 1, 0, 0, 0, 0, 0, 0, 0]);
    }
}

/// The batch of the changes of the move at a place.
pub fn batch(rt: &(impl Abort + AllocGlobal), script: &Script, at: usize, count: u8) -> Vec<u8> {
    let mut bytes = [count, 0, 0, 0].to_vec(rt.alloc()).expect(rt, "memory");
    for change in &script.changes {
        if change.at == at {
            push_entry(rt, &mut bytes, change);
        }
    }
    bytes
}

// A store takes one step.
fn take_step<D: Disk>(
    rt: &(impl Abort + AllocGlobal),
    store: &mut Store<D>,
    next: StoreStep,
) -> Result<(), Refusal>
    requires { CanTake (state_of store.old) next }
{
    match run_steps(rt, store, &[next]) {
        Ok(()) => Ok(()),
        Err(stop) => Err(stop.refusal),
    }
}

/// A store takes the move of a script at a place.
pub fn take_move<D: Disk>(
    rt: &(impl Abort + AllocGlobal),
    store: &mut Store<D>,
    script: &Script,
    at: usize,
    next: Move,
) -> Result<(), Refusal> {
    match next {
        Move::Commit(count) => {
            let next = step(rt, store, &batch(rt, script, at, count));
            take_step(rt, store, next)
        }
        Move::Milestone(document, revision) => {
            let next = StoreStep::Milestone(u32::from(document), u64::from(revision));
            take_step(rt, store, next)
        }
        Move::Retire => take_step(rt, store, StoreStep::Retire),
    }
}

// The newest revision of a document, 0 where there is none.
fn newest(script: &Script, document: u8) -> u8 {
    let mut revision = 0;
    for change in &script.changes {
        if change.document == document {
            revision = change.revision;
        }
    }
    revision
}

/// Draws a change of a document for the next move. A document gets twelve letters at most.
pub fn push_change(
    rt: &(impl Abort + AllocGlobal),
    numbers: &mut Numbers,
    script: &mut Script,
    document: u8,
) {
    let source = b'a'.saturating_add(numbers.below(2));
    let before = newest(script, document);
    let is_drawn = numbers.below(2) == 0;
    let mut number = 1;
    for change in &script.changes {
        if change.document == document && change.source == source {
            number = change.number.saturating_add(1);
        }
    }
    let change = Change {
        at: script.moves.len(),
        document,
        revision: before.saturating_add(1),
        source,
        number,
        letter: b'a'.saturating_add(numbers.below(26)),
        replaces: before > 0 && (is_drawn || before >= 12),
    };
    script.changes.push(change).expect(rt, "memory");
}

/// Draws a document, which is made only once those before it are.
pub fn drawn_document(numbers: &mut Numbers, script: &Script) -> u8 {
    let mut count = 0;
    for change in &script.changes {
        count = change.document.saturating_add(1).max(count);
    }
    numbers.below(3).min(count)
}

// Draws a move. A milestone is put at the newest revision or at the one before.
fn draw(rt: &(impl Abort + AllocGlobal), numbers: &mut Numbers, script: &mut Script) -> Move {
    let kind = numbers.below(8);
    if kind == 0 {
        return Move::Retire;
    }
    let count = numbers.below(3);
    if kind < 3 {
        let revision = newest(script, count).saturating_sub(numbers.below(2));
        return Move::Milestone(count, revision);
    }
    for _ in 0..=count {
        let document = drawn_document(numbers, script);
        push_change(rt, numbers, script, document);
    }
    Move::Commit(count.saturating_add(1))
}

// Tries a move that was drawn: it is kept where the store takes it. The answer is whether the journal was full.
fn is_full<D: Disk>(
    rt: &(impl Abort + AllocGlobal),
    store: &mut Store<D>,
    script: &mut Script,
    next: Move,
) -> bool {
    let at = script.moves.len();
    match take_move(rt, store, script, at, next) {
        Ok(()) => {
            script.moves.push(next).expect(rt, "memory");
            false
        }
        Err(refusal) => {
            if let Move::Commit(count) = next {
                let kept = script.changes.len().saturating_sub(usize::from(count));
                script.changes.truncate(kept);
            }
            refusal == Refusal::JournalFull
        }
    }
}

// Puts both milestones of each document at its newest revision, and retires the oldest segment.
fn make_room<D: Disk>(rt: &(impl Abort + AllocGlobal), store: &mut Store<D>, script: &mut Script) {
    for document in [0, 0, 1, 1, 2, 2] {
        let revision = newest(script, document);
        is_full(rt, store, script, Move::Milestone(document, revision));
    }
    is_full(rt, store, script, Move::Retire);
}

/// A script of nothing.
pub fn no_moves(rt: &(impl Abort + AllocGlobal)) -> Script {
    Script {
        changes: Vec::new(rt.alloc()),
        moves: Vec::new(rt.alloc()),
    }
}

/// The script of a seed.
pub fn script_of(rt: &(impl Abort + AllocGlobal), seed: u64) -> Script {
    let mut store = open_store(rt, script_device(rt));
    let mut numbers = Numbers { state: seed };
    let mut script = no_moves(rt);
    for _ in 0..16 {
        let next = draw(rt, &mut numbers, &mut script);
        if is_full(rt, &mut store, &mut script, next) {
            make_room(rt, &mut store, &mut script);
        }
    }
    script
}
