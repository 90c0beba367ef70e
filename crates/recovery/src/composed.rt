//! Putting the milestones of many composed jobs as one step.
ghost use Rattle.std.specs.Prelude.{◌≡◌, ◌≢◌, ◌⊎◌, ◌+◌, ◌≤◌, List, [], ◌∷◌, ◌++◌, true, false, length, take, Contains, OnOk, OnErr, IfOk, IfErr, IsErrOf};
ghost use Rattle.milestone.specs.Job.{Job as JobValue};
ghost use Rattle.recovery.specs.declared.group.Member.{Member as One};
ghost use Rattle.recovery.specs.Faults.{FailsAtFaults};
ghost use Rattle.recovery.specs.Found.{FoundAs};
ghost use Rattle.recovery.specs.Goes.{Goes};
ghost use Rattle.recovery.specs.Open.{IsUnchanged, state_of, has_failed, kept_jobs};
ghost use Rattle.recovery.specs.PutJobs.{AreNotKept, ArePut, CostsTogether};
ghost use Rattle.recovery.specs.steps.Freeing.{bytes_of, AreBounded, KeepsSegments};
ghost use Rattle.recovery.specs.steps.Group.{is_in, IsMadeOfKept, AreKept};

use crate::group::{Group, MOST_BYTES, Member, drop_jobs, prune_each};
use crate::rounds::put_each;
use crate::store::Store;
use disk::Disk;
use milestone::Composed;
use refusal::Refusal;
use std::alloc::{AllocError, Global};

impl<D: Disk> Store<D> {
    /// Puts the milestones of composed jobs as one step: of each job that is still the one that the store keeps of its document, as
    /// `put_milestone` puts one, and passes the others. It takes a prefix, as many as there is memory for and as four megabytes hold,
    /// and returns how many it took; at least one, where there is one. The answer doesn't tell which of the two made it stop, and
    /// memory may end after any of them, so no clause says how many these are: a call with the rest continues. Where it passes all of
    /// these, it makes no call of the device, and all is unchanged. All memory is taken before the first call of the device: `NoMemory`
    /// comes where there was none for the first of them, and leaves all unchanged. After a `Fault` the store has failed. The documents
    /// stay.
    pub fn put_milestones(&mut self, alloc: Global, composed: &[Composed]) -> Result<usize, Refusal>
        // When each refusal comes.
        ensures faults { FailsAtFaults result self.old self.new }
        ensures only { IfErr result (λ e. (e ≡ Refusal.NoMemory) ⊎ (e ≡ Refusal.Fault)) }

        // What each answer leaves, and what it costs.
        ensures count { IfOk result (λ count. (count ≤ length composed.now) × (composed.now ≢ [] → 1 ≤ count)) }
        ensures put { IfOk result (λ count. ArePut (take count composed.now) self.old self.new) }
        ensures passed { IfOk result (λ count. AreNotKept (take count composed.now) self.old
            → IsUnchanged self.old self.new) }
        ensures untouched { IsErrOf result Refusal.NoMemory → IsUnchanged self.old self.new }
        ensures jobs { OnErr result (kept_jobs self.new ≡ kept_jobs self.old) }
        ensures keeps { KeepsSegments self.old self.new }
        ensures costs { CostsTogether composed.now self.old self.new }

        // A crash at any moment leaves the state.
        ensures goes { Goes (λ content. FoundAs content (state_of self.old)) self.old self.new }
    {
        if self.failed {
            return Err(Refusal::Fault);
        }
        let group = self.spell_kept(alloc, composed)?;
        match self.put_once(alloc, &group.members) {
            Ok(()) => Ok(group.end),
            Err(refusal) => Err(refusal),
        }
    }

    // The milestones of those of the first composed jobs that are kept, each document once: as many as there is memory for, and no more once they have
    // enough bytes for a group. All memory that putting them needs is taken here.
    fn spell_kept(&self, alloc: Global, composed: &[Composed]) -> Result<Group, AllocError>
        ensures count { IfOk result (λ group. (group.end ≤ length composed.now) × (composed.now ≢ [] → 1 ≤ group.end)) }
        ensures kept { IfOk result (λ group. AreKept (take group.end composed.now) group.members.items self.now) }
        ensures few { IfOk result (λ group. length group.members.items ≤ group.end) }
        ensures bounded { IfOk result (λ group. AreBounded group.members.items) }
    {
        let mut members = Vec::new(alloc);
        let mut bytes: usize = 0;
        for place in 0..composed.len() {
            if bytes >= MOST_BYTES {
                return Ok(Group {
                    members,
                    end: place,
                });
            }
            match self.add_kept(alloc, &mut members, &composed[place]) {
                Ok(len) => {
                    bytes = bytes.saturating_add(len);
                }
                Err(no_memory) => {
                    if place == 0 {
                        return Err(no_memory);
                    }
                    return Ok(Group {
                        members,
                        end: place,
                    });
                }
            }
        }
        Ok(Group {
            members,
            end: composed.len(),
        })
    }

    // Adds what comes of a composed job, where it is kept and no member is of its document, and returns how many bytes that has, 0 where it isn't
    // added. Refused as out of memory alone.
    fn add_kept(
        &self,
        alloc: Global,
        members: &mut Vec<Member>,
        composed: &Composed,
    ) -> Result<usize, AllocError>
        ensures added { OnOk result (((members.new.items ≡ members.old.items)
            × (Contains (kept_jobs self.now) composed.now → is_in members.old.items composed.now.document ≡ true))
            ⊎ ((member : One) × (members.new.items ≡ members.old.items ++ member ∷ [])
            × (is_in members.old.items member.document ≡ false) × (member.document ≡ composed.now.document)
            × IsMadeOfKept (composed.now ∷ []) self.now member)) }
        ensures counted { IfOk result (λ len. bytes_of members.new.items ≡ bytes_of members.old.items + len) }
        ensures refused { OnErr result (members.new.items ≡ members.old.items) }
    {
        let job = composed.job();
        if !self.jobs.is_kept(job) {
            return Ok(0);
        }
        if has_member(members, job.document_number()) {
            return Ok(0);
        }
        members.reserve(1)?;
        let member = match self.spell_composed(alloc, composed) {
            Ok(member) => member,
            Err(no_memory) => return Err(no_memory),
        };
        let len = member.bytes.len();
        members.push(member).unwrap();
        Ok(len)
    }

    // What comes of a composed job that is kept, as its document's cells spell it. Refused as out of memory alone.
    fn spell_composed(&self, alloc: Global, composed: &Composed) -> Result<Member, AllocError>
        requires kept { Contains (kept_jobs self.now) composed.now }

        ensures made { IfOk result (λ member. IsMadeOfKept (composed.now ∷ []) self.now member) }
        ensures document { IfOk result (λ member. member.document ≡ composed.now.document) }
    {
        let job = composed.job();
        let document = job.document_number();
        let milestone = composed.milestone();
        let Ok(_) = milestone.content(alloc) else {
            return Err(AllocError);
        };
        let Ok(bytes) = self.cells[document as usize].spelled(alloc, milestone) else {
            return Err(AllocError);
        };
        Ok(Member {
            document,
            revision: milestone.revision(),
            bytes,
        })
    }

    // Puts members once, each in place of the older one of two open cells, and drops the jobs of their documents.
    fn put_once(&mut self, alloc: Global, members: &[Member]) -> Result<(), Refusal>
        requires working { has_failed self.old ≡ false }
        requires kept { (composed : List JobValue) × AreKept composed members.now self.old }

        ensures only { IfErr result (λ e. e ≡ Refusal.Fault) }
        ensures none { members.now ≡ [] → IsUnchanged self.old self.new }
        ensures put { OnOk result ((composed : List JobValue) → AreKept composed members.now self.old
            → ArePut composed self.old self.new) }
        ensures jobs { OnErr result (kept_jobs self.new ≡ kept_jobs self.old) }
        ensures keeps { KeepsSegments self.old self.new }
        ensures costs { (composed : List JobValue) → AreKept composed members.now self.old
            → length members.now ≤ length composed → CostsTogether composed self.old self.new }
        ensures faults { FailsAtFaults result self.old self.new }
        ensures goes { Goes (λ content. FoundAs content (state_of self.old)) self.old self.new }
    {
        if members.is_empty() {
            return Ok(());
        }
        match put_each(&mut self.device, &mut self.cells, members) {
            Ok(()) => {
                drop_jobs(&mut self.jobs, members);
                prune_each(alloc, &mut self.state, members);
                Ok(())
            }
            Err(_) => {
                self.failed = true;
                Err(Refusal::Fault)
            }
        }
    }
}

// Whether one of some members is of this document.
fn has_member(members: &[Member], document: u32) -> bool
    ensures { result ≡ is_in members.now document }
{
    for member in members {
        if member.document == document {
            return true;
        }
    }
    false
}
