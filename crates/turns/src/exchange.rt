//! The composers, as the thread that writes has them.
ghost use Rattle.std.specs.Prelude.{◌≡◌, ◌≤◌, ◌<◌, ◌+◌, ◌++◌, ◌∷◌, ℕ, [], false, Some, None, length, drop, All, Contains, OnOk, OnErr, IfOk, IfErr, IfSome, IfNone};
ghost use Rattle.std.specs.Vec.{vec_len, vec_capacity};
ghost use Rattle.recovery.specs.Jobs.{with_job, without_job};
ghost use Rattle.recovery.specs.Open.{kept_jobs};
ghost use Rattle.flusher.specs.Holding.{store_of};
ghost use Rattle.turns.specs.Exchanging.{document_of, due_in, ArePutFirst, IsFirstLookedAt};
ghost use Rattle.turns.specs.Waiting.{StaysIn, behind_first};
ghost use Rattle.turns.specs.Writing.{IsUpkeep, IsUnrefused};

use crate::queue::Queue;
use composers::{Composers, Done};
use disk::Disk;
use flusher::Flusher;
use milestone::{Composed, Job};
use published::Life;
use refusal::Refusal;
use revision::{State, Taken};
use std::alloc::Global;
use std::sync::Wait;

/// So many of the jobs that come back are taken in a turn at most, and so many milestones wait to be put.
const MOST_PUT: usize = 64;

/// How often a milestone is due, the ends of the channels to the composers, the documents that are looked at next, one job at most that found
/// no place in the channel, and those that are done and are still to be put, for which there is room.
#[derive(Drop)]
pub(crate) struct Exchange {
    every: u32,
    composers: Composers,
    queue: Queue,
    unsent: Option<Job>,
    unput: Vec<Composed>,
    ghost some: { 1 ≤ every },
    ghost place: { 64 ≤ vec_capacity unput },
}

/// The composers, where there are some and there is memory, with all documents of a state to be looked at. `None` where `every` is 0.
pub(crate) fn exchange_with(
    alloc: Global,
    every: u32,
    composers: Option<Composers>,
    state: &State,
) -> Option<Exchange>
    ensures room { IfSome result (λ exchange. exchange.queue.room ≡ state.now.limits.docs) }
    ensures all { IfSome result (λ exchange. (document : ℕ) → document < length state.now.documents
        → document < state.now.limits.docs → Contains exchange.queue.numbers document) }
{
    let composers = composers?;
    if every == 0 {
        return None;
    }
    let Ok(mut queue) = Queue::new(alloc, state.limits().docs()) else {
        return None;
    };
    let Ok(unput) = Vec::with_capacity(alloc, MOST_PUT) else {
        return None;
    };
    for document in 0..state.limits().docs() {
        if (document as usize) < state.documents().len() {
            queue.add(document);
        }
    }
    Some(Exchange {
        every,
        composers,
        queue,
        unsent: None,
        unput,
    })
}

impl Exchange {
    /// Looks at the documents of a batch in the next turn.
    pub(crate) fn note(&mut self, batch: &[Taken])
        ensures waits { All (λ taken. taken.document < self.old.queue.room
            → Contains self.new.queue.numbers taken.document) batch.now }
        ensures stays { StaysIn self.old.queue self.new.queue }
    {
        for taken in batch {
            self.queue.add(taken.document_number());
        }
    }

    /// Puts what the composers have done, and hands out the jobs that are due. Refused with `Fault` alone.
    pub(crate) fn compose_on<D: Disk, L: Life, R: Wait>(
        &mut self,
        rt: &R,
        alloc: Global,
        flusher: &mut Flusher<D, L>,
    ) -> Result<(), Refusal>
        ensures { IsUpkeep result flusher.old flusher.new }
    {
        if let Err(refusal) = self.put_done(rt, alloc, flusher) {
            return Err(refusal);
        }
        self.hand_out(rt, alloc, flusher);
        Ok(())
    }

    // Takes in what the composers have done, and puts it. Refused with `Fault` alone.
    fn put_done<D: Disk, L: Life, R: Wait>(
        &mut self,
        rt: &R,
        alloc: Global,
        flusher: &mut Flusher<D, L>,
    ) -> Result<(), Refusal>
        ensures { IsUpkeep result flusher.old flusher.new }
    {
        self.take_back(rt, flusher);
        for _ in 0..MOST_PUT {
            let more = match self.put_first(alloc, flusher) {
                Ok(more) => more,
                Err(refusal) => return Err(refusal),
            };
            if !more {
                return Ok(());
            }
        }
        Ok(())
    }

    // Takes in what the composers have done, as far as there is a place for it among what is to be put.
    fn take_back<D: Disk, L: Life, R: Wait>(&mut self, rt: &R, flusher: &mut Flusher<D, L>)
        ensures { IsUnrefused flusher.old flusher.new }
    {
        for _ in 0..MOST_PUT {
            if self.unput.len() >= MOST_PUT {
                return;
            }
            let Some(done) = self.composers.take_back(rt) else {
                return;
            };
            self.take_in(flusher, done);
        }
    }

    // Takes in what was done: what comes of a job is to be put, and a job that came back undone is given up. The document is looked at again.
    #[tactic(auto, using(crate::proofs::Writing::upkeep_none, crate::proofs::Writing::upkeep_as))]
    fn take_in<D: Disk, L: Life>(&mut self, flusher: &mut Flusher<D, L>, done: Done)
        requires place { vec_len self.old.unput < 64 }

        ensures upkeep { IsUnrefused flusher.old flusher.new }
        ensures given_up { IfErr done (λ back. Contains (kept_jobs (store_of flusher.old)) back.job
            → kept_jobs (store_of flusher.new) ≡ without_job back.job.document (kept_jobs (store_of flusher.old))) }
        ensures kept { IfOk done (λ composed. self.new.unput.items ≡ self.old.unput.items ++ composed ∷ []) }
        ensures waits { document_of done < self.old.queue.room → Contains self.new.queue.numbers (document_of done) }
        ensures stays { StaysIn self.old.queue self.new.queue }
    {
        match done {
            Ok(composed) => {
                self.queue.add(composed.job().document_number());
                push_in_room(&mut self.unput, composed);
            }
            Err(back) => {
                self.give_up(flusher, &back.job);
            }
        }
    }

    // Gives a job up that came back undone, so that another one may be due. The document is looked at again.
    fn give_up<D: Disk, L: Life>(&mut self, flusher: &mut Flusher<D, L>, job: &Job)
        ensures upkeep { IsUnrefused flusher.old flusher.new }
        ensures given_up { Contains (kept_jobs (store_of flusher.old)) job.now
            → kept_jobs (store_of flusher.new) ≡ without_job job.now.document (kept_jobs (store_of flusher.old)) }
        ensures waits { job.now.document < self.old.queue.room → Contains self.new.queue.numbers job.now.document }
        ensures stays { StaysIn self.old.queue self.new.queue }
    {
        flusher.give_up_job(job);
        self.queue.add(job.document_number());
    }

    // Puts a prefix of the milestones that are to be put as one step, and tells whether there are more and there was memory. It passes those whose
    // job isn't the one that is kept of its document any more. What found no memory is still to be put. The documents are looked at again. Refused with
    // `Fault` alone.
    #[tactic(auto, using(crate::proofs::Writing::upkeep_fault, crate::proofs::Writing::upkeep_but))]
    fn put_first<D: Disk, L: Life>(
        &mut self,
        alloc: Global,
        flusher: &mut Flusher<D, L>,
    ) -> Result<bool, Refusal>
        ensures upkeep { IsUpkeep result flusher.old flusher.new }
        ensures kept { OnOk result (ArePutFirst self.old.unput.items self.new.unput.items (store_of flusher.old)
            (store_of flusher.new)) }
        ensures waits { All (λ job. job.document < self.old.queue.room
            → Contains self.new.queue.numbers job.document) self.old.unput.items }
        ensures stays { StaysIn self.old.queue self.new.queue }
    {
        look_at(&mut self.queue, &self.unput);
        match flusher.put_milestones(alloc, &self.unput) {
            Ok(count) => {
                drop_first(&mut self.unput, count);
                Ok(!self.unput.is_empty())
            }
            Err(refusal) => {
                if refusal == Refusal::Fault {
                    return Err(refusal);
                }
                Ok(false)
            }
        }
    }

    // Hands out the jobs that are due of the documents that are to be looked at, as far as there are places and memory.
    fn hand_out<D: Disk, L: Life, R: Wait>(
        &mut self,
        rt: &R,
        alloc: Global,
        flusher: &mut Flusher<D, L>,
    )
        ensures { IsUnrefused flusher.old flusher.new }
    {
        if !self.send_again(rt) {
            return;
        }
        for _ in 0..self.queue.len() {
            if !self.hand_next(rt, alloc, flusher) {
                return;
            }
        }
    }

    // Looks at the next document, and hands out its job where one is due. It tells whether there was a place, and memory: where there was no
    // memory for the job, the document is looked at again.
    fn hand_next<D: Disk, L: Life, R: Wait>(
        &mut self,
        rt: &R,
        alloc: Global,
        flusher: &mut Flusher<D, L>,
    ) -> bool
        ensures upkeep { IsUnrefused flusher.old flusher.new }
        ensures looked_at { IsFirstLookedAt self.old.every (store_of flusher.old) self.old.queue.numbers
            (store_of flusher.new) self.new.queue.numbers }
        ensures stays { StaysIn (behind_first self.old.queue) self.new.queue }
    {
        let Some(document) = self.queue.next() else {
            return false;
        };
        match self.job_of(alloc, flusher, document) {
            Ok(None) => true,
            Ok(Some(job)) => self.send(rt, job),
            Err(_) => false,
        }
    }

    // The job of a document, where one is due. Where it is refused, the document is looked at again.
    fn job_of<D: Disk, L: Life>(
        &mut self,
        alloc: Global,
        flusher: &mut Flusher<D, L>,
        document: u32,
    ) -> Result<Option<Job>, Refusal>
        ensures upkeep { IsUnrefused flusher.old flusher.new }
        ensures none { IfOk result (λ job. IfNone job
            (due_in self.old.every document (store_of flusher.old) ≡ None)) }
        ensures some { IfOk result (λ job. IfSome job (λ handed. (handed.document ≡ document)
            × (kept_jobs (store_of flusher.new) ≡ with_job handed (kept_jobs (store_of flusher.old))))) }
        ensures again { OnErr result (document < self.old.queue.room → Contains self.new.queue.numbers document) }
        ensures stays { StaysIn self.old.queue self.new.queue }
    {
        match due_job(alloc, flusher, document, self.every) {
            Ok(job) => Ok(job),
            Err(refusal) => {
                self.queue.add(document);
                Err(refusal)
            }
        }
    }

    // Sends the job again that found no place before, and tells whether none is left.
    fn send_again<R: Wait>(&mut self, rt: &R) -> bool {
        match self.unsent.take() {
            None => true,
            Some(job) => self.send(rt, job),
        }
    }

    // Sends a job to the composers, and tells whether there was a place. Else it is kept.
    fn send<R: Wait>(&mut self, rt: &R, job: Job) -> bool
        ensures kept { result ≡ false → self.new.unsent ≡ Some job }
        ensures queue { self.new.queue ≡ self.old.queue }
    {
        match self.composers.hand_out(rt, job) {
            Ok(()) => true,
            Err(back) => {
                self.unsent = Some(back);
                false
            }
        }
    }
}

// The job of a document, where one is due.
fn due_job<D: Disk, L: Life>(
    alloc: Global,
    flusher: &mut Flusher<D, L>,
    document: u32,
    every: u32,
) -> Result<Option<Job>, Refusal>
    requires { 1 ≤ every }
    ensures upkeep { IsUnrefused flusher.old flusher.new }
    ensures none { IfOk result (λ job. IfNone job (due_in every document (store_of flusher.old) ≡ None)) }
    ensures some { IfOk result (λ job. IfSome job (λ handed. (handed.document ≡ document)
        × (kept_jobs (store_of flusher.new) ≡ with_job handed (kept_jobs (store_of flusher.old))))) }
{
    match flusher.job_due(document, u64::from(every)) {
        None => Ok(None),
        Some(revision) => match flusher.milestone_job(alloc, document, revision) {
            Ok(job) => Ok(Some(job)),
            Err(refusal) => Err(refusal),
        },
    }
}

// The documents of what is to be put are looked at again.
fn look_at(queue: &mut Queue, composed: &[Composed])
    ensures waits { All (λ job. job.document < queue.old.room → Contains queue.new.numbers job.document) composed.now }
    ensures stays { StaysIn queue.old queue.new }
{
    for one in composed {
        queue.add(one.job().document_number());
    }
}

// Puts what was done behind the others, for which there is room.
fn push_in_room(unput: &mut Vec<Composed>, composed: Composed)
    requires { vec_len unput.old < vec_capacity unput.old }
    ensures items { unput.new.items ≡ unput.old.items ++ composed ∷ [] }
    ensures len { vec_len unput.new ≡ vec_len unput.old + 1 }
    ensures room { vec_capacity unput.old ≤ vec_capacity unput.new }
{
    if let Err(_) = unput.push(composed) {
        unreachable!()
    }
}

// Drops so many of what was to be put, from the first on.
fn drop_first(unput: &mut Vec<Composed>, count: usize)
    requires { count ≤ length unput.old.items }
    ensures items { unput.new.items ≡ drop count unput.old.items }
    ensures room { vec_capacity unput.old ≤ vec_capacity unput.new }
{
    drop(unput.drain(..count));
}
