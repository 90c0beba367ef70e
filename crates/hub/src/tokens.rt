//! What a hub gives alone: tokens that show that it was called.
ghost use Rattle.std.specs.Prelude.{◌≡◌, ◌≢◌, [], true};
ghost use Rattle.hub.specs.Runs.{untaken};

use crate::board::Board;
use crate::locked::Locked;
use published::{Life, Told};
use refusal::Refusal;
use std::marker::{Model, PhantomData};
use std::snapshot::Snapshot;

/// That a board had no command to take off whose batch has at most so many bytes. Only a run that was taken off empty gives one, by
/// `Run::nothing`. Contracts see it as how many bytes that run's batch could have.
#[derive(Drop)]
pub struct Nothing<L: Life> {
    cap: u32,
    of: PhantomData<L>,
}

impl<L: Life> Model for Nothing<L> {
    ghost use Rattle.std.specs.Prelude.{ℕ};

    ghost Value = { ℕ };

    ghost view = { λ n. n.cap };
}

impl<L: Life> Nothing<L> {
    // A run for so many bytes was taken off empty.
    pub(crate) fn by_run(cap: u32) -> Nothing<L>
        ensures { result ≡ cap }
    {
        Nothing {
            cap,
            of: PhantomData,
        }
    }
}

/// That a batch was settled. Only `Hub::settle` makes one, of the board as it then is. Contracts see it as the batches that were published
/// up to what that board has settled; it takes no memory.
#[derive(Drop)]
pub struct Settled<D, L: Life> {
    told: Snapshot<Told<D, L>>,
}

impl<D, L: Life> Model for Settled<D, L> {
    ghost use Rattle.std.specs.Prelude.{List};
    ghost use Rattle.revision.specs.Command.{Taken};

    ghost Value = { List (List Taken) };

    ghost view = { λ s. s.told.value };
}

impl<D, L: Life> Settled<D, L> {
    // What this board has settled.
    pub(crate) fn by_board(board: &Board<D, L, ()>) -> Settled<D, L>
        ensures { result ≡ board.now.told }
    {
        Settled {
            told: Snapshot::of(board.told()),
        }
    }
}

/// That the hub was told that the store has failed, and why. Only `Hub::fail` makes one, which uses a `Cause` up, of a board that knows it.
/// Contracts see it as the refusal.
#[derive(Drop)]
pub struct Failed<L: Life> {
    refusal: Refusal,
    of: PhantomData<L>,
}

impl<L: Life> Model for Failed<L> {
    ghost use Rattle.refusal.specs.declared.Refusal.{Refusal as Why};

    ghost Value = { Why };

    ghost view = { λ f. f.refusal };
}

impl<L: Life> Failed<L> {
    // Of a board that has failed, for this reason.
    pub(crate) fn by_board<D>(board: &Board<D, L, ()>, refusal: Refusal) -> Failed<L>
        requires { board.now.failed ≡ true }
        ensures { result ≡ refusal }
    {
        let _ = board;
        Failed {
            refusal,
            of: PhantomData,
        }
    }

    /// The refusal that failed the store.
    pub fn refusal(&self) -> Refusal
        ensures { result ≡ self.now }
    {
        self.refusal
    }
}

/// That the hub's end was called and all that was ordered had been taken off. Only `Hub::wait_work` makes one, of what lies under the
/// hub's lock then.
#[derive(Drop)]
pub struct Idle<L: Life> {
    of: PhantomData<L>,
}

impl<L: Life> Idle<L> {
    // Of what lies under the hub's lock: the end was called, and nothing is left to take off.
    pub(crate) fn by_locked<D>(kept: &Locked<D, L>) -> Idle<L>
        requires ended { kept.now.ended ≡ true }
        requires idle { untaken kept.now.board.progress ≡ [] }
    {
        let _ = kept;
        Idle { of: PhantomData }
    }
}

/// That a hub's board had a command that wasn't taken off. Only `Hub::wait_work` makes one, of what lies under the hub's lock then.
#[derive(Drop)]
pub struct Work<L: Life> {
    of: PhantomData<L>,
}

impl<L: Life> Work<L> {
    // Of a board that has one.
    pub(crate) fn by_board<D>(board: &Board<D, L, ()>) -> Work<L>
        requires { untaken board.now.progress ≢ [] }
    {
        let _ = board;
        Work { of: PhantomData }
    }
}

/// That a hub's end was called. Only `Hub::end` makes one.
#[derive(Drop)]
pub struct Ended<L: Life> {
    of: PhantomData<L>,
}

impl<L: Life> Ended<L> {
    // Of what lies under the hub's lock: the end was called.
    pub(crate) fn by_locked<D>(kept: &Locked<D, L>) -> Ended<L>
        requires { kept.now.ended ≡ true }
    {
        let _ = kept;
        Ended { of: PhantomData }
    }
}

/// That a board of the run had failed, for a cause, or that its hub had ended: nothing is submitted from then on. Only a hub makes one, of
/// what lies under its lock. It takes no memory.
#[derive(Drop)]
pub struct Stopped<L: Life> {
    of: PhantomData<L>,
}

impl<L: Life> Stopped<L> {
    // Of a board that has failed.
    pub(crate) fn by_board<D>(board: &Board<D, L, ()>) -> Stopped<L>
        requires { board.now.failed ≡ true }
    {
        let _ = board;
        Stopped { of: PhantomData }
    }

    // Of what lies under the hub's lock: the end was called.
    pub(crate) fn by_locked<D>(kept: &Locked<D, L>) -> Stopped<L>
        requires { kept.now.ended ≡ true }
    {
        let _ = kept;
        Stopped { of: PhantomData }
    }

    // Of a hub that was told that the store has failed.
    pub(crate) fn by_failed(failed: &Failed<L>) -> Stopped<L> {
        let _ = failed;
        Stopped { of: PhantomData }
    }

    /// A copy.
    pub fn copy(&self) -> Stopped<L> {
        Stopped { of: PhantomData }
    }

    /// The refusal that a session gets.
    pub fn refusal(&self) -> Refusal
        ensures { result ≡ Refusal.StoreFailed }
    {
        Refusal::StoreFailed
    }
}
