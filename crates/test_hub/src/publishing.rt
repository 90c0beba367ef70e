//! What commits and publishes in these tests, in the place of the flusher and the view.
ghost use Rattle.std.specs.Prelude.{◌≡◌, ◌≤◌, ◌++◌, ◌∷◌, [], length, IfOk};
ghost use Rattle.recovery.specs.Found.{commands_of};
ghost use Rattle.recovery.specs.Open.{state_of};

use core::mem::replace_with;
use disk::FaultDisk;
use document::Document;
use hub::{Cause, Run};
use published::{Life, Log, Told};
use recovery::{Receipt, Store};
use std::alloc::Global;
use std::marker::Model;
use std::process::Abort;
use test_fixtures::commit;

/// A store, the log of what is published of it, which is all that was committed, and a token of all of that. Contracts see it as its batches.
#[derive(Drop)]
pub struct Publishing<L: Life> {
    store: Store<FaultDisk>,
    log: Log<FaultDisk, L>,
    told: Told<FaultDisk, L>,
}

impl<L: Life> Model for Publishing<L> {
    ghost use Rattle.std.specs.Prelude.{◌≡◌, List};
    ghost use Rattle.revision.specs.Command.{Taken};
    ghost use Rattle.revision.specs.State.{fold};
    ghost use Rattle.recovery.specs.Found.{commands_of};
    ghost use Rattle.recovery.specs.Open.{state_of};

    ghost Value = { List (List Taken) };

    ghost view = { λ p. p.told };

    ghost invariant = { λ p. (p.log.batches ≡ p.told) × (state_of p.store ≡ fold L.start (commands_of p.told)) };
}

impl<L: Life> Publishing<L> {
    /// A store without a published batch.
    pub fn new(
        store: Store<FaultDisk>,
        log: Log<FaultDisk, L>,
        told: Told<FaultDisk, L>,
    ) -> Publishing<L>
        requires none { (log.batches ≡ []) × (told ≡ []) }
        requires start { state_of store ≡ L.start }
        ensures { result ≡ [] }
    {
        Publishing { store, log, told }
    }

    /// The token of all that is published.
    pub fn told(&self) -> &Told<FaultDisk, L>
        ensures { result.now ≡ self.now }
    {
        &self.told
    }

    /// Gives the store back.
    pub fn into_store(self) -> Store<FaultDisk> {
        let Publishing {
            store,
            log: _,
            told: _,
        } = self;
        store
    }

    /// Commits a run that follows what is published, and publishes it. Gives its receipt, and the documents that its first commands leave.
    #[tactic(auto, using(published::proofs::CallerLemmas::committed_moment, published::proofs::CallerLemmas::committed_state))]
    pub fn write(
        &mut self,
        rt: &(impl Abort + AllocGlobal),
        run: Run<FaultDisk, L>,
    ) -> (Receipt<FaultDisk>, Vec<Document>)
        requires place { run.place ≡ length (commands_of self.old) }
        requires some { 1 ≤ length run.commands }
    {
        let ordered = run.goes_on(&self.told);
        match commit(rt.alloc(), &mut self.store, run.batch()) {
            Ok(receipt) => {
                let made = run.committed(&receipt, &self.told);
                self.told = self.told.add(&mut self.log, &receipt, &ordered);
                (receipt, made)
            }
            Err(refusal) => panic!(rt; "{refusal}"),
        }
    }

    /// Gives a run up, which isn't written.
    pub fn give_up(&mut self, run: Run<FaultDisk, L>)
        ensures { self.new ≡ self.old }
    {
        replace_with(self, run, given_up::<L>)
    }

    /// Why the store takes no batch any more, where its device has failed.
    pub fn cause(&self) -> Option<Cause<L>> {
        cause_of(&self.log, &self.store)
    }

    /// Commits a run on a device that fails, and gives the run up. It gives what `cause` does.
    pub fn fail(
        &mut self,
        rt: &(impl Abort + AllocGlobal),
        run: Run<FaultDisk, L>,
    ) -> Option<Cause<L>>
        ensures { self.new ≡ self.old }
    {
        match commit(rt.alloc(), &mut self.store, run.batch()) {
            Ok(_receipt) => panic!(rt; "it is committed"),
            Err(_refusal) => {
                self.give_up(run);
                self.cause()
            }
        }
    }

    /// Commits a run as `write` does, by one that gives up where the commit is refused, with what `cause` gives then.
    #[tactic(auto, using(published::proofs::CallerLemmas::committed_moment, published::proofs::CallerLemmas::committed_state))]
    pub fn write_or_end(
        self,
        alloc: Global,
        run: Run<FaultDisk, L>,
    ) -> Result<(Publishing<L>, Receipt<FaultDisk>), Option<Cause<L>>>
        requires place { run.place ≡ length (commands_of self) }
        requires some { 1 ≤ length run.commands }
        ensures told { IfOk result (λ both. both.0 ≡ self ++ both.1.batch ∷ []) }
        ensures batch { IfOk result (λ both. both.1.batch ≡ run.commands) }
    {
        let Publishing {
            mut store,
            mut log,
            told,
        } = self;
        let ordered = run.goes_on(&told);
        match commit(alloc, &mut store, run.batch()) {
            Ok(receipt) => {
                let _made = run.committed(&receipt, &told);
                let told = told.add(&mut log, &receipt, &ordered);
                Ok((Publishing { store, log, told }, receipt))
            }
            Err(_refusal) => {
                let cause = cause_of(&log, &store);
                let _ = run.unwritten(store);
                Err(cause)
            }
        }
    }
}

// why a store takes no batch any more, where its device has failed
fn cause_of<L: Life>(log: &Log<FaultDisk, L>, store: &Store<FaultDisk>) -> Option<Cause<L>> {
    if !store.has_failed() {
        return None;
    }
    Some(Cause::failed(log, store))
}

// gives a run up, by whoever has the store
fn given_up<L: Life>(publishing: Publishing<L>, run: Run<FaultDisk, L>) -> (Publishing<L>, ())
    ensures { result.0 ≡ publishing }
{
    let Publishing { store, log, told } = publishing;
    let store = run.unwritten(store);
    (Publishing { store, log, told }, ())
}
