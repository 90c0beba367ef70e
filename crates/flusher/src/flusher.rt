//! The flusher.
ghost use Rattle.std.specs.Prelude.{◌≡◌, ◌<◌, ◌≤◌, ◌^◌, [], ◌∷◌, ◌++◌, true, false, Some, None, length, OnOk, IfOk, IfErr, IfSome, IsErrOf};
ghost use Rattle.std.specs.Option.{ForSome};
ghost use mathlib.Core.List.{IsPrefix};
ghost use Rattle.revision.specs.State.{fold};
ghost use Rattle.recovery.specs.Found.{commands_of};
ghost use Rattle.recovery.specs.Open.{FitsSlot, device_of, state_of};
ghost use Rattle.world.specs.World.{takens};
ghost use Rattle.published.specs.Order.{IsLegal};
ghost use Rattle.flusher.specs.Flushers.{IsOneAtMost, MayCommit};
ghost use Rattle.flusher.specs.Lasting.{Lasts, Surely};

use crate::begun::Begun;
use crate::gate::{Gate, Moment};
use crate::written::{Written, to_settle};
use disk::Disk;
use hub::{Cause, Run};
use published::{Life, Moments, Ordered, Told};
use recovery::Store;
use refusal::Refusal;
use revision::State;
use std::alloc::Global;
use std::snapshot::Snapshot;
use std::sync::Wait;
use view::{Publisher, Viewer};

/// The store, what publishes its batches to readers, and at most one run that is to be written as a batch, which follows what is published.
/// Of the store that it began with it has what contracts see, which takes no memory: between any two calls its type keeps, of each batch that is
/// published or committed, the moment from which on no crash takes it back.
pub struct Flusher<D: Disk, L: Life> {
    pub(crate) store: Store<D>,
    publisher: Publisher<D, L>,
    waiting: Option<Run<D, L>>,
    begun: Begun<L>,
    opened: Snapshot<Store<D>>,
    ghost kept: { state_of store ≡ fold begun (commands_of (publisher.told ++ publisher.unpublished)) },
    ghost few: { IsOneAtMost publisher.unpublished },
    ghost fits: { ForSome waiting (λ run. MayCommit (state_of store) run.commands publisher.unpublished) },
    ghost placed: { ForSome waiting (λ run. run.place ≡ length (commands_of publisher.told)) },
    ghost lasts: { Surely (Lasts begun opened.value publisher waiting store) },
}

impl<D: Disk, L: Life> Flusher<D, L> {
    ghost use Rattle.recovery.specs.Open.{IsWithOrWithout, has_failed};
    ghost use Rattle.flusher.specs.Flushers.{cap_of};
    ghost use Rattle.recovery.specs.Goes.{Goes};
    ghost use Rattle.flusher.specs.Holding.{KeepsBatches, HasNoRoom, LastsSince, store_of, told_of, committed_of, waiting_of, moments_of, opened_of};
    ghost use Rattle.flusher.specs.Writing.{HoldsNow, HasCommitted, HasPublished, LeavesHeld, IsUnpublished, IsFullForGood, IsHeldBack, TellsFaults, WritesHeld};

    // A flusher that has published nothing yet.
    #[tactic(auto, using(crate::proofs::Lasting::surely_begun))]
    pub(crate) fn of(store: Store<D>, publisher: Publisher<D, L>, begun: Begun<L>) -> Flusher<D, L>
        requires nothing { publisher ≡ record { told = []; unpublished = []; moments = [] } }
        requires begin { state_of store ≡ begun }
        ensures store { store_of result ≡ store }
        ensures opened { opened_of result ≡ store_of result }
        ensures nothing { (told_of result ≡ []) × (committed_of result ≡ []) × (waiting_of result ≡ []) }
    {
        let opened = Snapshot::of(&store);
        Flusher {
            store,
            publisher,
            waiting: None,
            begun,
            opened,
        }
    }

    /// What the store holds is what the batches make of the start that are published, or committed and not published yet.
    pub fn kept(&self)
        ensures { state_of (store_of self.now)
            ≡ fold L.start (commands_of (told_of self.now ++ committed_of self.now)) }
    {
        self.begun.facts();
    }

    /// Of each batch that is published, or committed and not published yet, there is the moment at which its commit had ended: the store held
    /// exactly what the batches up to it make then, and a crash from there on takes none of them back.
    pub fn lasts(&self)
        ensures { Surely (LastsSince L.start (opened_of self.now) self.now) }
    {
        self.begun.facts();
        self.publisher.facts();
    }

    /// The order, a legal history from the start, with what is published first, then what is committed, and then what is held. It takes no
    /// memory.
    pub fn ordered(&self) -> Ordered<L>
        ensures legal { IsLegal L.start result }
        ensures begins { IsPrefix (commands_of (told_of self.now ++ (committed_of self.now ++ waiting_of self.now)))
            (takens result) }
    {
        match &self.waiting {
            Some(run) => {
                let ordered = run.goes_on(self.publisher.told());
                ordered.facts();
                ordered
            }
            None => {
                let ordered = self.publisher.ordered();
                ordered.facts();
                ordered
            }
        }
    }

    /// Each token of what is published names a prefix of what is published and committed here. It takes no memory.
    pub fn covers(&mut self, told: &Told<D, L>)
        ensures begins { IsPrefix told.now (told_of self.old ++ committed_of self.old) }
        ensures store { store_of self.new ≡ store_of self.old }
        ensures batches { KeepsBatches self.old self.new }
        ensures moments { moments_of self.new ≡ moments_of self.old }
    {
        self.publisher.covers(told);
    }

    /// The moments of each token of what is published are a prefix of those of what is published and committed here. It takes no memory.
    pub fn covers_moments(&mut self, moments: &Moments<L>)
        ensures begins { IsPrefix moments.now (moments_of self.old) }
        ensures store { store_of self.new ≡ store_of self.old }
        ensures batches { KeepsBatches self.old self.new }
        ensures moments { moments_of self.new ≡ moments_of self.old }
    {
        self.publisher.covers_moments(moments);
    }

    /// One batch at most is committed and not published yet, and one at most is held.
    pub fn few(&self)
        ensures committed { length (committed_of self.now) ≤ 1 }
        ensures waiting { length (waiting_of self.now) ≤ 1 }
    {
        let _ = &self.waiting;
    }

    /// Holds a run as the batch that the next `commit_held` or `write` commits. It has to be one that a board took off for this flusher's
    /// `cap`, which follows what is published, and nothing else may be held or unpublished. It takes no memory.
    pub fn hold(&mut self, run: Run<D, L>)
        requires none { (committed_of self.old ≡ []) × (waiting_of self.old ≡ []) }
        requires some { 1 ≤ length run.commands }
        requires short { length run.commands < 2 ^ 32 }
        requires fits { FitsSlot (state_of (store_of self.old)) run.commands }
        requires cap { run.cap ≡ cap_of (state_of (store_of self.old)) }
        requires next { run.place ≡ length (commands_of (told_of self.old)) }
        ensures { HoldsNow run.commands self.old self.new }
    {
        fill(&mut self.waiting, run);
    }

    /// Commits the batch that is held, if it isn't yet, and keeps the receipt. Refused as `Store::commit` refuses it, but never with
    /// `Stranger`, since the batch is the next part of the order; the batch is held still then. The readers are shown nothing new. No program
    /// calls it: `write` commits by itself.
    pub fn commit_held(&mut self, alloc: Global) -> Result<(), Refusal>
        // A crash at any moment leaves the state before it, or the one with the batch.
        ensures goes { Goes (IsWithOrWithout (state_of (store_of self.old)) (commands_of (waiting_of self.old)))
            (store_of self.old) (store_of self.new) }

        // What each answer leaves, and when each refusal comes.
        ensures committed { OnOk result (HasCommitted self.old self.new) }
        ensures refused { IfErr result (λ e. IsHeldBack e self.old self.new) }
        ensures full { has_failed (store_of self.old) ≡ false → HasNoRoom self.old
            → IsErrOf result Refusal.JournalFull }
        ensures faults { TellsFaults result self.old self.new }
    {
        match self.waiting.take() {
            None => Ok(()),
            Some(held) => {
                self.begun.facts();
                let ordered = held.goes_on(self.publisher.told());
                ordered.facts();
                let made = held.made(self.publisher.told());
                match self.store.commit(alloc, held.batch(), made) {
                    Ok(receipt) => {
                        let made = held.committed(&receipt, self.publisher.told());
                        self.publisher.accept(receipt, ordered, made);
                        Ok(())
                    }
                    Err(refusal) => {
                        fill(&mut self.waiting, held);
                        Err(refusal)
                    }
                }
            }
        }
    }

    /// Commits the batch that is held, if it isn't yet, and publishes it, between the gate's moments: gives the receipt of the commit
    /// and the token that ends with the batch, to be settled by, or `None` where no batch is held. On a refusal the next call continues where this
    /// one stopped: the same batch is committed, or published, by then. Where the journal is full, the oldest segment is freed by milestones of
    /// its documents, and the batch committed after that. Refused as `commit_held`, but with `JournalFull` or `StillNeeded` only where the
    /// journal can't be freed, and then as the publish, with `NoMemory` alone. The batch is on the disk then.
    pub fn write<R: Wait, G: Gate>(
        &mut self,
        rt: &R,
        alloc: Global,
        gate: &mut G,
    ) -> Result<Option<Written<D, L>>, Refusal>
        // What a crash leaves, how many syncs it makes, and when each refusal comes.
        ensures writes { WritesHeld result self.old self.new }
        // What each answer leaves.
        ensures published { IfOk result (λ given. HasPublished given self.old self.new) }
        ensures refused { IfErr result (λ e. IsUnpublished e self.old self.new) }
    {
        gate.pass(Moment::BeforeCommit);
        if let Err(refusal) = self.commit_freeing(alloc) {
            return Err(refusal);
        }
        gate.pass(Moment::AfterCommit);
        match self.publisher.publish(rt, alloc) {
            Ok(published) => Ok(to_settle(published)),
            Err(no_memory) => Err(no_memory.into()),
        }
    }

    /// Whether a batch is held that isn't committed yet, or one is committed that isn't published yet.
    pub fn holds(&self) -> bool
        ensures held { result ≡ false → (committed_of self.now ≡ []) × (waiting_of self.now ≡ []) }
        ensures none { committed_of self.now ++ waiting_of self.now ≡ [] → result ≡ false }
    {
        self.publisher.holds() || self.waiting.is_some()
    }

    /// Whether the device of the store has failed.
    pub fn has_failed(&self) -> bool
        ensures { result ≡ has_failed (store_of self.now) }
    {
        self.store.has_failed()
    }

    /// Why its store takes no batch any more: the device has failed.
    pub fn failed(&self) -> Cause<L>
        requires { has_failed (store_of self.now) ≡ true }
        ensures { result ≡ Refusal.Fault }
    {
        Cause::failed(self.publisher.log(), &self.store)
    }

    /// The store as it is now, for clauses. It takes no memory.
    pub fn snapshot(&self) -> Snapshot<Store<D>>
        ensures { result.value ≡ store_of self.now }
    {
        Snapshot::of(&self.store)
    }

    /// Why its store takes no batch any more: then the batch that is held had no room in it, and the last segment that there can be was
    /// opened.
    pub fn full(&self, then: &Snapshot<Store<D>>, refusal: Refusal) -> Cause<L>
        requires { IsFullForGood refusal then.now.value self.now }
        ensures { result ≡ refusal }
    {
        Cause::full(self.publisher.log(), then, refusal)
    }

    /// How many bytes a batch may have: what fits a slot in which nothing stands yet.
    pub fn cap(&self) -> u32
        ensures { result ≡ cap_of (state_of (store_of self.now)) }
    {
        self.store.state().limits().width().saturating_add(4)
    }

    /// The state that the store holds.
    pub fn state(&self) -> &State
        ensures { result.now ≡ state_of (store_of self.now) }
    {
        self.store.state()
    }

    /// The device of the store.
    pub fn device(&self) -> &D
        ensures { result.now ≡ device_of (store_of self.now) }
    {
        self.store.device()
    }

    /// The token of what is published.
    pub fn told(&self) -> &Told<D, L>
        ensures { result.now ≡ told_of self.now }
    {
        self.publisher.told()
    }

    /// A reader of what is published, if there is a place for one more. It takes no memory.
    pub fn viewer(&self) -> Option<Viewer<D, L>>
        ensures { IfSome result (λ viewer. viewer ≡ told_of self.now) }
    {
        self.publisher.viewer()
    }

    /// Ends the publishing, and gives the store back. A run that is held is given up.
    pub fn end<R: Wait>(self, rt: &R) -> Store<D>
        ensures { result ≡ store_of self }
    {
        let Flusher {
            store,
            publisher,
            waiting,
            begun: _,
            opened: _,
        } = self;
        publisher.end(rt);
        match waiting {
            None => store,
            Some(run) => run.unwritten(store),
        }
    }

    // Commits the batch that is held, if it isn't yet, and keeps the receipt. Where the journal is full the oldest segment is freed
    // first, by milestones of its documents. Refused as `Store::commit_freeing` refuses it, but never with `Stranger`, since the batch is the
    // next part of the order; the batch is held still then. So in an open store neither `JournalFull` nor `StillNeeded` comes before the
    // numbers of its segments are used up. The readers are shown nothing new.
    fn commit_freeing(&mut self, alloc: Global) -> Result<(), Refusal>
        ensures writes { WritesHeld result self.old self.new }
        ensures committed { OnOk result (HasCommitted self.old self.new) }
        ensures refused { IfErr result (λ e. LeavesHeld e self.old self.new) }
    {
        match self.waiting.take() {
            None => Ok(()),
            Some(batch) => {
                self.begun.facts();
                let ordered = batch.goes_on(self.publisher.told());
                ordered.facts();
                let made = batch.made(self.publisher.told());
                match self.store.commit_freeing(alloc, batch.batch(), made) {
                    Ok(receipt) => {
                        let made = batch.committed(&receipt, self.publisher.told());
                        self.publisher.accept(receipt, ordered, made);
                        Ok(())
                    }
                    Err(refusal) => {
                        fill(&mut self.waiting, batch);
                        Err(refusal)
                    }
                }
            }
        }
    }
}

// Holds a run where none was held.
fn fill<D, L: Life>(waiting: &mut Option<Run<D, L>>, run: Run<D, L>)
    requires none { waiting.old ≡ None }
    ensures some { waiting.new ≡ Some run }
{
    match waiting.replace(run) {
        None => {}
        Some(_other) => unreachable!(),
    }
}
