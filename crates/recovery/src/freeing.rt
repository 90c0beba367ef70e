//! Making room in a journal that is full.
ghost use Rattle.std.specs.Prelude.{◌≡◌, ◌≢◌, ◌⊎◌, ◌<◌, ◌≤◌, ◌+◌, ◌-◌, ◌*◌, ◌^◌, ℕ, true, false, [], None, max, length, get_or, OnOk, IfOk, IfErr, IfSome, IsErrOf, ◌∷◌};
ghost use Rattle.refusal.specs.Refusal.{IsOneOf};
ghost use Rattle.segments.specs.Numbers.{IsOldest};
ghost use Rattle.segments.specs.Ring.{known_numbers};
ghost use Rattle.recovery.specs.Commit.{MayBeCommitted, IsReceiptOf};
ghost use Rattle.recovery.specs.Faults.{FailsAtFaults};
ghost use Rattle.recovery.specs.Found.{FoundAs};
ghost use Rattle.recovery.specs.Freed.{HasFew, ChangesOnly, IsFreed, IsUnfreed, IsPlain, IsCommittedFreeing, IsUncommitted, KeepsOthers, CostsAtMost, SyncsAtMost, CostsFreeing, MustBeRefusedFreeing, bytes_for, most_bytes};
ghost use Rattle.recovery.specs.Goes.{Goes};
ghost use Rattle.recovery.specs.Jobs.{jobs_for};
ghost use Rattle.recovery.specs.Marks.{within_segment, greatest_marked};
ghost use Rattle.recovery.specs.Open.{IsOpen, IsUnchanged, IsHalfFreed, IsWithOrWithout, KeepsJobs, device_of, ring_of, state_of, known_cells, known_marks, kept_jobs, has_failed, has_room};
ghost use Rattle.recovery.specs.steps.Freeing.{reached_in, count_marked, bytes_to, AreReached, SyncsBy, KeepsSegments, AreCovered, AreCoveredTo, IsHalfCovered, ChangesCells};

use crate::marks::Mark;
use crate::receipt::Receipt;
use crate::store::Store;
use disk::Disk;
use document::Document;
use refusal::Refusal;
use revision::Batch;
use std::alloc::{AllocError, Global};

impl<D: Disk> Store<D> {
    /// Makes room in a journal that is full: of each document that has an entry in the oldest segment it puts milestones at its newest
    /// revision, until both its cells stand there, and retires the segment. `StillNeeded` comes exactly when fewer than two slots are
    /// open, and then makes no call of the device. After `NoMemory` each of those documents has both its milestones, or its cells
    /// unchanged. After a `Fault` the store has failed. The documents stay. The jobs of those documents are dropped.
    pub fn free_oldest(&mut self, alloc: Global) -> Result<(), Refusal>
        // When each refusal comes.
        ensures faults { FailsAtFaults result self.old self.new }
        ensures few { has_failed self.old ≡ false → HasFew self.old
            → (IsErrOf result Refusal.StillNeeded) × IsUnchanged self.old self.new }

        // What each answer leaves, and what it costs.
        ensures freed { OnOk result (IsFreed self.old self.new) }
        ensures refused { IfErr result (λ e. IsUnfreed e self.old self.new) }
        ensures state { state_of self.new ≡ state_of self.old }
        ensures no_more_marks { length (known_marks self.new) ≤ length (known_marks self.old) }
        ensures others { KeepsOthers self.old self.new }
        ensures outside { ChangesOnly self.old self.new }
        ensures costs { CostsAtMost 2 self.old self.new }
        ensures syncs { SyncsAtMost 2 self.old self.new }

        // A crash at any moment leaves the state.
        ensures goes { Goes (λ content. FoundAs content (state_of self.old)) self.old self.new }
    {
        if self.failed {
            return Err(Refusal::Fault);
        }
        let Some(oldest) = self.ring.oldest_number() else {
            return Err(Refusal::StillNeeded);
        };
        if let Err(refusal) = self.cover_segment(alloc, oldest) {
            return Err(refusal);
        }
        self.retire()
    }

    /// Commits a batch as `commit` does; where it finds no room for it, it frees the oldest segment first, as `free_oldest` does. So
    /// in an open store neither `JournalFull` nor `StillNeeded` comes before the segments' numbers are used up; 2^64 - 1 is
    /// the last one. Whatever was freed for it, no refusal changes the documents.
    pub fn commit_freeing(
        &mut self,
        alloc: Global,
        batch: &Batch,
        made: &[Document],
    ) -> Result<Receipt<D>, Refusal>
        requires { MayBeCommitted (state_of self.old) batch.now made.now }

        // What an Ok hands out names just this batch, and the store as the commit leaves it, over a device that is synced.
        ensures receipt { IfOk result (λ receipt. IsReceiptOf receipt batch.now self.new) }

        // When each refusal comes. The end of memory may be told in place of `Stranger`.
        ensures faults { FailsAtFaults result self.old self.new }
        ensures must { MustBeRefusedFreeing result batch.now self.old }

        // What each answer leaves, and what it costs.
        ensures committed { OnOk result (IsCommittedFreeing batch.now self.old self.new) }
        ensures refused { IfErr result (λ e. IsUncommitted e batch.now self.old self.new) }
        ensures plain { has_room self.old batch.now ≡ true → IsPlain batch.now self.old self.new }
        ensures others { KeepsOthers self.old self.new }
        ensures costs { CostsFreeing 10 6 self.old self.new }

        // A crash at any moment of the call leaves the state before it, or the one with the batch.
        ensures goes { Goes (IsWithOrWithout (state_of self.old) batch.now) self.old self.new }
    {
        if self.has_room(batch) {
            return self.commit(alloc, batch, made);
        }
        if let Err(refusal) = self.free_oldest(alloc) {
            return Err(refusal);
        }
        self.commit(alloc, batch, made)
    }

    // Puts the milestones of each document that has an entry in the oldest segment. `StillNeeded` comes where a document can't be given
    // its own, which no open store has.
    fn cover_segment(&mut self, alloc: Global, segment: u64) -> Result<(), Refusal>
        requires working { has_failed self.old ≡ false }
        requires oldest { (slot : ℕ) × IsOldest (known_numbers (ring_of self.old)) slot segment }

        ensures only { IfErr result (λ e. IsOneOf e (Refusal.StillNeeded ∷ Refusal.NoMemory ∷ Refusal.Fault ∷ [])) }
        ensures needed { IsErrOf result Refusal.StillNeeded → ¬ IsOpen self.old }
        ensures covered { OnOk result ((is_open : IsOpen self.old)
            → AreCovered segment (known_marks self.old) self.old is_open self.new) }
        ensures half { IfErr result (λ e. e ≢ Refusal.Fault → (is_open : IsOpen self.old)
            → IsHalfFreed self.old is_open self.new) }
        ensures calls { length (D.past (device_of self.new)) ≤ length (D.past (device_of self.old))
            + 12 * length (within_segment segment (known_marks self.old)) }
        ensures calls_by_marks { length (D.past (device_of self.new))
            ≤ length (D.past (device_of self.old)) + 12 * length (known_marks self.old) }
        ensures syncs { (groups : ℕ) × (most_bytes * (groups - 1) ≤ bytes_for segment self.old)
            × SyncsBy groups self.old self.new }
        ensures keeps { KeepsSegments self.old self.new }
        ensures outside { ChangesCells self.old self.new }
        ensures jobs { IsOpen self.old → KeepsJobs segment self.old self.new }
        ensures no_more_jobs { length (kept_jobs self.new) ≤ length (kept_jobs self.old) }
        ensures faults { FailsAtFaults result self.old self.new }
        ensures goes { Goes (λ content. FoundAs content (state_of self.old)) self.old self.new }
    {
        let Some(first) = self.first_marked(segment) else {
            return Ok(());
        };
        match self.marked_revisions(alloc, segment) {
            Ok(marked) => self.cover_documents(alloc, &marked),
            Err(no_memory) => {
                // what is promised where freeing is given up (`IsHalfFreed`) names one document without a job
                self.drop_job(first);
                Err(no_memory.into())
            }
        }
    }

    // A document that is marked in a segment.
    fn first_marked(&self, segment: u64) -> Option<u32>
        ensures some { IfSome result (λ document. 1 ≤ greatest_marked segment document (known_marks self.now)) }
        ensures none { result ≡ None → (document : ℕ) → greatest_marked segment document (known_marks self.now) ≡ 0 }
    {
        first_of(self.marks.all(), segment)
    }

    // The greatest revision that is marked of each document in a segment, 0 where none is. Refused as out of memory alone.
    fn marked_revisions(&self, alloc: Global, segment: u64) -> Result<Vec<u64>, AllocError>
        ensures count { IfOk result (λ marked. length marked.items ≡ length (known_cells self.now)) }
        ensures small { IfOk result (λ marked. length marked.items < 2 ^ 32) }
        ensures marked { IfOk result (λ marked. (document : ℕ) → document < length (known_cells self.now)
            → get_or marked.items document 0 ≡ greatest_marked segment document (known_marks self.now)) }
        ensures few { IfOk result (λ marked. count_marked marked.items
            ≤ length (within_segment segment (known_marks self.now))) }
    {
        greatest_revisions(alloc, self.marks.all(), segment, self.cells.len())
    }

    // Puts milestones of all documents that are marked in a table, by groups. `NoMemory` leaves groups that are whole.
    fn cover_documents(&mut self, alloc: Global, marked: &[u64]) -> Result<(), Refusal>
        requires working { has_failed self.old ≡ false }
        requires few { length marked.now < 2 ^ 32 }

        ensures only { IfErr result (λ e. IsOneOf e (Refusal.StillNeeded ∷ Refusal.NoMemory ∷ Refusal.Fault ∷ [])) }
        ensures needed { IsErrOf result Refusal.StillNeeded → IsOpen self.old
            → ¬ AreReached marked.now (state_of self.old) }
        ensures covered { OnOk result ((is_open : IsOpen self.old)
            → AreCoveredTo (length marked.now) (λ document. get_or marked.now document 0) self.old is_open
            self.new) }
        ensures half { IfErr result (λ e. e ≢ Refusal.Fault → (is_open : IsOpen self.old)
            → IsHalfCovered (λ document. get_or marked.now document 0) self.old is_open self.new) }
        ensures calls { length (D.past (device_of self.new)) ≤ length (D.past (device_of self.old))
            + 12 * count_marked marked.now }
        ensures syncs { (groups : ℕ)
            × (most_bytes * (groups - 1) ≤ bytes_to marked.now (state_of self.old) (length marked.now))
            × SyncsBy groups self.old self.new }
        ensures keeps { KeepsSegments self.old self.new }
        ensures outside { ChangesCells self.old self.new }
        ensures jobs { (document : ℕ) → get_or marked.now document 0 ≡ 0
            → jobs_for document (kept_jobs self.new) ≡ jobs_for document (kept_jobs self.old) }
        ensures no_more_jobs { length (kept_jobs self.new) ≤ length (kept_jobs self.old) }
        ensures faults { FailsAtFaults result self.old self.new }
        ensures goes { Goes (λ content. FoundAs content (state_of self.old)) self.old self.new }
    {
        let mut from = 0;
        while from < marked.len() {
            let group = match self.gather(alloc, marked, from) {
                Ok(group) => group,
                Err(back) => {
                    self.drop_job(back.document);
                    return Err(back.refusal);
                }
            };
            from = group.end;
            if let Err(refusal) = self.put_group(alloc, &group.members) {
                return Err(refusal);
            }
        }
        Ok(())
    }

    // The newest revision of a document, 0 where there is none of this number.
    pub(crate) fn newest_of(&self, document: u32) -> u64
        ensures { result ≡ reached_in (state_of self.now) document }
    {
        match self.state.documents().get(document as usize) {
            Some(found) => found.revision(),
            None => 0,
        }
    }
}

// The document of the first mark of a segment that is of a revision.
fn first_of(marks: &[Mark], segment: u64) -> Option<u32>
    ensures some { IfSome result (λ document. 1 ≤ greatest_marked segment document marks.now) }
    ensures none { result ≡ None → (document : ℕ) → greatest_marked segment document marks.now ≡ 0 }
{
    for mark in marks {
        if mark.segment == segment && mark.revision > 0 {
            return Some(mark.document);
        }
    }
    None
}

// The table of the greatest revision that is marked of each document in a segment, 0 where none is. Refused as out of memory alone.
fn greatest_revisions(
    alloc: Global,
    marks: &[Mark],
    segment: u64,
    count: usize,
) -> Result<Vec<u64>, AllocError>
    ensures count { IfOk result (λ marked. length marked.items ≡ count) }
    ensures marked { IfOk result (λ marked. (document : ℕ) → document < count
        → get_or marked.items document 0 ≡ greatest_marked segment document marks.now) }
    ensures few { IfOk result (λ marked. count_marked marked.items ≤ length (within_segment segment marks.now)) }
{
    let mut marked = vec![in alloc; 0; count]?;
    for mark in marks {
        if mark.segment == segment {
            raise_at(&mut marked, mark.document as usize, mark.revision);
        }
    }
    Ok(marked)
}

// Raises the number of a document to a revision where it is lower and the table has a place for it.
fn raise_at(marked: &mut [u64], document: usize, revision: u64)
    ensures same { length marked.new ≡ length marked.old }
    ensures own { document < length marked.old → get_or marked.new document 0 ≡ max (get_or marked.old document 0) revision }
    ensures others { (other : ℕ) → other ≢ document → get_or marked.new other 0 ≡ get_or marked.old other 0 }
    ensures few { count_marked marked.new ≤ count_marked marked.old + 1 }
{
    if document < marked.len() {
        marked[document] = marked[document].max(revision);
    }
}
