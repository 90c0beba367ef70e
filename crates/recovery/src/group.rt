//! Groups of milestones, which are put together with six syncs for all.
ghost use Rattle.std.specs.Prelude.{◌≡◌, ◌≢◌, ◌⊎◌, ◌+◌, ◌*◌, ◌≤◌, ◌<◌, ◌^◌, [], ◌∷◌, ◌++◌, false, length, get_or, OnOk, IfOk, IfErr, IsErrOf};
ghost use Rattle.recovery.specs.declared.group.Member.{Member as Newest};
ghost use Rattle.recovery.specs.Faults.{FailsAtFaults};
ghost use Rattle.recovery.specs.Found.{FoundAs};
ghost use Rattle.recovery.specs.Freed.{most_bytes};
ghost use Rattle.recovery.specs.Goes.{Goes};
ghost use Rattle.recovery.specs.Jobs.{jobs_of};
ghost use Rattle.recovery.specs.Open.{IsOpen, device_of, state_of, has_failed, kept_jobs};
ghost use Rattle.recovery.specs.steps.Freeing.{reached_in, bytes_of, AreBounded, AreReached, SyncsBy, KeepsSegments, ChangesCells, IsGathered};
ghost use Rattle.recovery.specs.steps.Group.{outside_jobs, IsNewestOf, IsGroup, IsGroupPut};

use crate::jobs::Jobs;
use crate::rounds::put_both;
use crate::store::Store;
use disk::Disk;
use milestone::compose_job;
use refusal::Refusal;
use revision::State;
use std::alloc::Global;

/// A group is full from so many bytes on, so that the last of its milestones may pass them.
pub(crate) const MOST_BYTES: usize = 4_194_304;

/// The newest milestone of a document, as its cells spell it behind their gates.
#[derive(Drop)]
pub struct Member {
    pub document: u32,
    pub revision: u64,
    pub bytes: Vec<u8>,
}

/// Milestones that are put together, and the number behind the last document that was looked at for them.
#[derive(Drop)]
pub struct Group {
    pub members: Vec<Member>,
    pub end: usize,
}

/// A document whose milestone wasn't made, and why.
#[derive(Debug, Drop)]
pub struct SpellError {
    pub document: u32,
    pub refusal: Refusal,
}

impl<D: Disk> Store<D> {
    // Makes the newest milestones of the documents that are marked from a number on, until they have enough bytes for a group. All memory that putting
    // them needs is taken here.
    pub(crate) fn gather(
        &self,
        alloc: Global,
        marked: &[u64],
        from: usize,
    ) -> Result<Group, SpellError>
        requires inside { from < length marked.now }
        requires few { length marked.now < 2 ^ 32 }

        ensures goes_on { IfOk result (λ group. (from < group.end) × (group.end ≤ length marked.now)) }
        ensures gathered { IfOk result (λ group. IsGathered marked.now from group.end group.members.items self.now) }
        ensures full { IfOk result (λ group. group.end < length marked.now → most_bytes ≤ bytes_of group.members.items) }
        ensures bounded { IfOk result (λ group. AreBounded group.members.items) }
        ensures needs { IfErr result (λ back. (from ≤ back.document) × (1 ≤ get_or marked.now back.document 0)) }
        ensures only { IfErr result (λ back. (back.refusal ≡ Refusal.StillNeeded) ⊎ (back.refusal ≡ Refusal.NoMemory)) }
        ensures needed { IfErr result (λ back. back.refusal ≡ Refusal.StillNeeded → IsOpen self.now
            → ¬ AreReached marked.now (state_of self.now)) }
    {
        let mut members = Vec::new(alloc);
        let mut bytes: usize = 0;
        for document in from..marked.len() {
            if marked[document] > 0 {
                let number = document as u32;
                let len = match self.add_newest(alloc, &mut members, number, marked[document]) {
                    Ok(len) => len,
                    Err(refusal) => {
                        return Err(SpellError {
                            document: number,
                            refusal,
                        });
                    }
                };
                bytes = bytes.saturating_add(len);
                if bytes >= MOST_BYTES {
                    return Ok(Group {
                        members,
                        end: document + 1,
                    });
                }
            }
        }
        Ok(Group {
            members,
            end: marked.len(),
        })
    }

    // Adds the milestone of a document at its newest revision, which is no lower than this one, and returns how many bytes it has.
    fn add_newest(
        &self,
        alloc: Global,
        members: &mut Vec<Member>,
        document: u32,
        revision: u64,
    ) -> Result<usize, Refusal>
        requires some { 1 ≤ revision }

        ensures added { IfOk result (λ len. (member : Newest) × (members.new.items ≡ members.old.items ++ member ∷ [])
            × IsNewestOf self.now member × (member.document ≡ document) × (len ≡ length member.bytes.items)) }
        ensures only { IfErr result (λ e. (e ≡ Refusal.StillNeeded) ⊎ (e ≡ Refusal.NoMemory)) }
        ensures needed { IsErrOf result Refusal.StillNeeded → IsOpen self.now
            → reached_in (state_of self.now) document < revision }
    {
        let member = match self.spell_newest(alloc, document, revision) {
            Ok(member) => member,
            Err(refusal) => return Err(refusal),
        };
        let len = member.bytes.len();
        members.push(member)?;
        Ok(len)
    }

    // The milestone of a document at its newest revision, which is no lower than this one.
    fn spell_newest(&self, alloc: Global, document: u32, revision: u64) -> Result<Member, Refusal>
        requires some { 1 ≤ revision }

        ensures newest { IfOk result (λ member. IsNewestOf self.now member) }
        ensures document { IfOk result (λ member. member.document ≡ document) }
        ensures only { IfErr result (λ e. (e ≡ Refusal.StillNeeded) ⊎ (e ≡ Refusal.NoMemory)) }
        ensures needed { IsErrOf result Refusal.StillNeeded → IsOpen self.now
            → reached_in (state_of self.now) document < revision }
    {
        let newest = self.newest_of(document);
        if newest < revision {
            return Err(Refusal::StillNeeded);
        }
        let job = match self.job_to(alloc, document, newest) {
            Ok(job) => job,
            Err(refusal) => return Err(or_needed(refusal)),
        };
        let Ok(composed) = compose_job(alloc, job) else {
            return Err(Refusal::NoMemory);
        };
        let milestone = composed.milestone();
        let Ok(_) = milestone.content(alloc) else {
            return Err(Refusal::NoMemory);
        };
        let Ok(bytes) = self.cells[document as usize].spelled(alloc, milestone) else {
            return Err(Refusal::NoMemory);
        };
        Ok(Member {
            document,
            revision: newest,
            bytes,
        })
    }

    // Puts the milestones of a group: both cells of each document then stand at its newest revision. The jobs of these documents are dropped, whatever
    // comes of it.
    pub(crate) fn put_group(&mut self, alloc: Global, members: &[Member]) -> Result<(), Refusal>
        requires working { has_failed self.old ≡ false }
        requires group { IsGroup members.now self.old }

        ensures only { IfErr result (λ e. e ≡ Refusal.Fault) }
        ensures put { OnOk result ((is_open : IsOpen self.old) → IsGroupPut members.now self.old is_open self.new) }
        ensures dropped { kept_jobs self.new ≡ outside_jobs members.now (kept_jobs self.old) }
        ensures calls { length (D.past (device_of self.new))
            ≤ length (D.past (device_of self.old)) + 12 * length members.now }
        ensures syncs { SyncsBy 1 self.old self.new }
        ensures keeps { KeepsSegments self.old self.new }
        ensures outside { ChangesCells self.old self.new }
        ensures faults { FailsAtFaults result self.old self.new }
        ensures goes { Goes (λ content. FoundAs content (state_of self.old)) self.old self.new }
    {
        if members.is_empty() {
            return Ok(());
        }
        drop_jobs(&mut self.jobs, members);
        match put_both(&mut self.device, &mut self.cells, members) {
            Ok(()) => {
                prune_each(alloc, &mut self.state, members);
                Ok(())
            }
            Err(_) => {
                self.failed = true;
                Err(Refusal::Fault)
            }
        }
    }
}

// A refusal of a job as freeing tells it: where a document can't be given a milestone, the oldest segment is needed.
fn or_needed(refusal: Refusal) -> Refusal
    ensures memory { refusal ≡ Refusal.NoMemory → result ≡ Refusal.NoMemory }
    ensures other { refusal ≢ Refusal.NoMemory → result ≡ Refusal.StillNeeded }
{
    if refusal == Refusal::NoMemory {
        refusal
    } else {
        Refusal::StillNeeded
    }
}

// Drops the job of each member's document.
pub(crate) fn drop_jobs(jobs: &mut Jobs, members: &[Member])
    ensures { jobs_of jobs.new ≡ outside_jobs members.now (jobs_of jobs.old) }
{
    for member in members {
        jobs.forget(member.document);
    }
}

// Lets go of what each member's document holds from below its floor.
pub(crate) fn prune_each(alloc: Global, state: &mut State, members: &[Member])
    ensures { state.new ≡ state.old }
{
    for member in members {
        state.prune_one(alloc, member.document);
    }
}
