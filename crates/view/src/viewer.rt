//! A reader of the view.
ghost use Rattle.std.specs.Prelude.{◌≡◌, ◌⊎◌, IfOk, IfErr, IsOk, OnOk, OnErr};
ghost use Rattle.std.specs.Fn.{FnOnceReturnsAt};
ghost use mathlib.Core.List.{IsPrefix};
ghost use Rattle.revision.specs.State as state;
ghost use Rattle.revision.specs.Readings.{document_at, taken_since, read_as};
ghost use Rattle.recovery.specs.Found.{commands_of};
ghost use Rattle.published.specs.Batches.{IsTheLonger};
ghost use Rattle.view.specs.Publishing.{IsLent};

use crate::shown::{InLog, Sees, Shown};
use delta::Delta;
use document::Document;
use left_right::reader::Reader;
use published::{Life, Told};
use refusal::Refusal;
use revision::{Name, State};
use std::alloc::Global;
use std::marker::Model;

/// A reader of the view, which never waits. Contracts see it as the published batches that it has seen or was told of.
#[derive(Drop)]
pub struct Viewer<D, L: Life> {
    reader: Option<Reader<Shown<L>, (), InLog<L>>>,
    told: Told<D, L>,
}

impl<D, L: Life> Model for Viewer<D, L> {
    ghost use Rattle.std.specs.Prelude.{List};
    ghost use Rattle.revision.specs.Command.{Taken};

    ghost Value = { List (List Taken) };

    ghost view = { λ v. v.told };
}

impl<D, L: Life> Viewer<D, L> {
    pub(crate) fn new(reader: Reader<Shown<L>, (), InLog<L>>, told: Told<D, L>) -> Viewer<D, L>
        ensures { result ≡ told }
    {
        Viewer {
            reader: Some(reader),
            told,
        }
    }

    /// The token of what it has seen or was told of. It takes no memory.
    pub fn told(&self) -> Told<D, L>
        ensures { result ≡ self.now }
    {
        self.told.copy()
    }

    /// Takes in what was published by a token: from now on no less is read. It takes no memory.
    pub fn learn(&mut self, told: &Told<D, L>)
        ensures { IsTheLonger self.old told.now self.new }
    {
        self.told.learn(told);
    }

    /// Lends the state that is published to a function, and gives its answer. The state is what some list of published batches makes of
    /// the start of the run, and the list begins with all that this viewer has seen before or was told of; each of their commands continued what those
    /// before had made. Refused with `StoreFailed`
    /// alone, where the view has ended; nothing is lent then, and the viewer is unchanged. It waits for nobody, and takes no memory.
    pub fn read<A, F: FnOnce(&State) -> A + Drop>(&mut self, f: F) -> Result<A, Refusal>
        requires { F.IsAlwaysCallable f }
        ensures lent { IsLent L.start self.old result (λ _. self.new) (λ s a. FnOnceReturnsAt F.FnOnce f s a) }
        ensures unchanged { OnErr result (self.new ≡ self.old) }
    {
        let (answer, seen) = self.peek(f)?;
        self.told = seen;
        Ok(answer)
    }

    /// Lends the state that is published to a function, as `read` does, and gives the token of the batches that make it beside the answer.
    /// What the viewer has seen stays as it is.
    pub fn peek<A, F: FnOnce(&State) -> A + Drop>(
        &mut self,
        f: F,
    ) -> Result<(A, Told<D, L>), Refusal>
        requires { F.IsAlwaysCallable f }
        ensures lent { IsLent L.start self.old result (λ r. r.1) (λ s r. FnOnceReturnsAt F.FnOnce f s r.0) }
        ensures unchanged { self.new ≡ self.old }
    {
        let reader = match self.reader.take() {
            Some(reader) => reader,
            None => return Err(Refusal::StoreFailed),
        };
        let reading = match reader.enter_as::<Sees<L>>() {
            Ok(reading) => reading,
            Err(reader) => {
                self.reader = Some(reader);
                return Err(Refusal::StoreFailed);
            }
        };
        let seen = Told::of(reading.get().published.copy());
        if !self.told.begins(&seen) {
            self.reader = Some(reading.leave());
            return Err(Refusal::StoreFailed);
        }
        let answer = f(&reading.get().state);
        self.reader = Some(reading.leave());
        Ok((answer, seen))
    }

    /// What stood in a document at a revision, by the state that `read` lends. Refused as `State::at` refuses it on that state, which is
    /// `NoDocument`, `Deleted` where it is deleted now, `Future` where the revision is above the newest one, `TooOld` where it is below
    /// the floor, or out of memory; or with `StoreFailed`, as `read` is.
    pub fn at(&mut self, alloc: Global, name: &Name, revision: u64) -> Result<Document, Refusal>
        ensures kept { IsPrefix self.old self.new }
        ensures answer { (result ≡ document_at (state.fold L.start (commands_of self.new)) name.now revision)
            ⊎ ((result ≡ Err Refusal.NoMemory)
            × IsOk (document_at (state.fold L.start (commands_of self.new)) name.now revision))
            ⊎ ((result ≡ Err Refusal.StoreFailed) × (self.new ≡ self.old)) }
    {
        let read = self.read(
            |state: &State| -> Result<Document, Refusal>
                ensures { (result ≡ document_at state.now name.entry.now revision)
                    ⊎ ((result ≡ Err Refusal.NoMemory) × IsOk (document_at state.now name.entry.now revision)) }
            { state.at(alloc, name, revision) },
        );
        match read {
            Ok(answer) => answer,
            Err(_) => Err(Refusal::StoreFailed),
        }
    }

    /// Copies of the deltas that were taken since a revision of a document, in order, by the state that `read` lends. Refused as `at` is.
    pub fn since(
        &mut self,
        alloc: Global,
        name: &Name,
        revision: u64,
    ) -> Result<Vec<Delta>, Refusal>
        ensures kept { IsPrefix self.old self.new }
        ensures answer { (read_as (λ deltas. deltas.items) result
            ≡ taken_since (state.fold L.start (commands_of self.new)) name.now revision)
            ⊎ ((result ≡ Err Refusal.NoMemory)
            × IsOk (taken_since (state.fold L.start (commands_of self.new)) name.now revision))
            ⊎ ((result ≡ Err Refusal.StoreFailed) × (self.new ≡ self.old)) }
    {
        let read = self.read(
            |state: &State| -> Result<Vec<Delta>, Refusal>
                ensures { (read_as (λ deltas. deltas.items) result ≡ taken_since state.now name.entry.now revision)
                    ⊎ ((result ≡ Err Refusal.NoMemory) × IsOk (taken_since state.now name.entry.now revision)) }
            { since_of(alloc, state, name, revision) },
        );
        match read {
            Ok(answer) => answer,
            Err(_) => Err(Refusal::StoreFailed),
        }
    }
}

// copies of the deltas that were taken since a revision
fn since_of(alloc: Global, state: &State, name: &Name, revision: u64) -> Result<Vec<Delta>, Refusal>
    ensures { (read_as (λ deltas. deltas.items) result ≡ taken_since state.now name.now revision)
        ⊎ ((result ≡ Err Refusal.NoMemory) × IsOk (taken_since state.now name.now revision)) }
{
    match state.since(name, revision) {
        Ok(deltas) => copied(alloc, deltas),
        Err(refusal) => Err(refusal),
    }
}

// equal deltas in the same order, or `NoMemory`
fn copied(alloc: Global, deltas: &[Delta]) -> Result<Vec<Delta>, Refusal>
    ensures { (read_as (λ copies. copies.items) result ≡ Ok deltas.now) ⊎ (result ≡ Err Refusal.NoMemory) }
{
    let mut copies = Vec::new(alloc);
    for delta in deltas {
        copies.push(delta.copy(alloc)?)?;
    }
    Ok(copies)
}
