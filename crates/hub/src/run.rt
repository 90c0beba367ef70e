//! Runs of the order: which make a batch, a copy of one, and whether a batch is one.
ghost use Rattle.std.specs.Prelude.{◌≡◌, ◌↔◌, ◌<◌, ◌+◌, ◌^◌, ◌++◌, length, take, IfOk, IsTrue};
ghost use mathlib.Core.List.{IsPrefix};
ghost use Rattle.recovery.specs.Found.{commands_of};
ghost use Rattle.world.specs.Progress.{next_run};
ghost use Rattle.revision.specs.Made.{AreMade};
ghost use Rattle.revision.specs.State.{fold};
ghost use Rattle.world.specs.World.{takens};
ghost use Rattle.hub.specs.Runs.{IsLongest, untaken, AreMadeThere};

use crate::board::Board;
use crate::tokens::Nothing;
use disk::Disk;
use document::Document;
use published::{Life, Ordered, Told};
use recovery::{Receipt, Store};
use revision::{Batch, Taken};
use std::alloc::{AllocError, Global};
use std::marker::{Model, PhantomData};
use world::Entry;

/// A run that was taken off a board to be written, with how many bytes its batch could have. Only a board's `take` makes one, of the
/// longest run that fits, and it can't be changed: so what is written is what the board took off. It isn't `Drop`: it ends with the receipt
/// of its commit, or where it has no command, or with the store that would have written it. It has a token of the order, and knows its place there. Beside the first of its commands it has the documents as
/// they leave them, so that nobody makes these again.
pub struct Run<D, L: Life> {
    batch: Batch,
    made: Vec<Document>,
    cap: u32,
    place: usize,
    order: Ordered<L>,
    of: PhantomData<(D, L)>,
}

impl<D, L: Life> Model for Run<D, L> {
    ghost use Rattle.hub.specs.Runs as spec;

    ghost Value = { spec.Run };

    ghost view = { λ r. record { commands = r.batch; cap = r.cap; place = r.place } };

    ghost invariant = { λ r. spec.IsPart r.batch r.place r.order
        × spec.AreMadeThere L.start r.order r.place r.batch r.made.items };
}

impl<D, L: Life> Run<D, L> {
    // The run that a board has to take off next, for a batch of so many bytes, with the documents beside its first commands.
    pub(crate) fn by_board<C>(
        board: &Board<D, L, C>,
        batch: Batch,
        made: Vec<Document>,
        cap: u32,
    ) -> Run<D, L>
        requires longest { IsLongest cap (untaken board.now.progress) (length batch) }
        requires run { batch ≡ takens (next_run board.now.progress (length batch)) }
        requires made { AreMadeThere L.start board.now.progress.order board.now.progress.taken batch made.items }
        ensures { result ≡ record { commands = batch; cap = cap; place = board.now.progress.taken } }
    {
        // its order has a length that fits
        board.facts();
        Run {
            batch,
            made,
            cap,
            place: board.taken(),
            order: board.order(),
            of: PhantomData,
        }
    }

    /// How many commands the order has before its own.
    pub fn place(&self) -> usize
        ensures { result ≡ self.now.place }
    {
        self.place
    }

    /// The order with its commands, where it continues what a token names: as many commands as the order has before its own.
    pub fn goes_on(&self, told: &Told<D, L>) -> Ordered<L>
        requires { self.now.place ≡ length (commands_of told.now) }
        ensures next { IsPrefix (commands_of told.now ++ self.now.commands) (takens result) }
        ensures few { length (commands_of told.now) + length self.now.commands < 2 ^ 64 }
    {
        told.begins_order(&self.order);
        self.order.copy()
    }

    /// How many commands it has.
    pub fn len(&self) -> usize
        ensures { result ≡ length self.now.commands }
    {
        self.batch.as_slice().len()
    }

    /// Its commands, in order.
    pub fn batch(&self) -> &Batch
        ensures { result.now ≡ self.now.commands }
    {
        &self.batch
    }

    /// Element i is the document that command i leaves, where the run continues what a token names. Its last commands may have none.
    pub fn made(&self, told: &Told<D, L>) -> &[Document]
        requires { self.now.place ≡ length (commands_of told.now) }
        ensures { AreMade (fold L.start (commands_of told.now)) self.now.commands result.now }
    {
        told.begins_order(&self.order);
        self.made.as_slice()
    }

    /// Ends a run that was committed, by the receipt of its commit, where it continues what a token names, and gives the documents as its
    /// first commands leave them, as `made` does.
    pub fn committed(self, receipt: &Receipt<D>, told: &Told<D, L>) -> Vec<Document>
        requires batch { receipt.now.batch ≡ self.commands }
        requires place { self.place ≡ length (commands_of told.now) }
        ensures { AreMade (fold L.start (commands_of told.now)) self.commands result.items }
    {
        let Run {
            batch: _batch,
            made,
            cap: _,
            place: _,
            order,
            of: _,
        } = self;
        told.begins_order(&order);
        let _ = receipt;
        made
    }

    /// Ends a run that has no command, and gives the token that there was none to take off for so many bytes.
    pub fn nothing(self) -> Nothing<L>
        requires { length self.commands ≡ 0 }
        ensures { result ≡ self.cap }
    {
        let Run {
            batch: _batch,
            made: _made,
            cap,
            place: _,
            order: _order,
            of: _,
        } = self;
        Nothing::by_run(cap)
    }

    /// Gives a run up, which isn't written any more: by whoever has the store itself, and gets it back.
    pub fn unwritten(self, store: Store<D>) -> Store<D>
    where
        D: Disk,
        ensures { result ≡ store }
    {
        let Run {
            batch: _batch,
            made: _made,
            cap: _,
            place: _,
            order: _order,
            of: _,
        } = self;
        store
    }
}

/// How many of the first commands the journal spells in so many bytes as one batch.
pub(crate) fn longest(entries: &[Entry], cap: u32) -> usize
    ensures { IsLongest cap (takens entries.now) result }
{
    let mut used: u64 = 4;
    for i in 0..entries.len() {
        let more = used.saturating_add(entries[i].taken().width());
        if more > u64::from(cap) {
            return i;
        }
        used = more;
    }
    entries.len()
}

/// What was taken of these commands, copied. Refused as out of memory alone.
pub(crate) fn copied(alloc: Global, entries: &[Entry]) -> Result<Vec<Taken>, AllocError>
    ensures run { IfOk result (λ run. run.items ≡ takens entries.now) }
{
    let mut run = Vec::new(alloc);
    for entry in entries {
        run.push(entry.taken().copy(alloc)?)?;
    }
    Ok(run)
}

/// Whether these commands are the first of the entries.
pub(crate) fn is_beginning(batch: &[Taken], entries: &[Entry]) -> bool
    ensures { IsTrue result ↔ (batch.now ≡ takens (take (length batch.now) entries.now)) }
{
    if batch.len() > entries.len() {
        return false;
    }
    for i in 0..batch.len() {
        if !batch[i].is_same(entries[i].taken()) {
            return false;
        }
    }
    true
}
