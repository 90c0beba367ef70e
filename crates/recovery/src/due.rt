//! Where a milestone of a document is due.
ghost use Rattle.std.specs.Prelude.{◌≡◌, ◌≤◌, None, slice_get, IfSome};
ghost use Rattle.revision.specs.Pending.{record_of};
ghost use Rattle.recovery.specs.Cells.{highest_known};
ghost use Rattle.recovery.specs.Due.{job_due_of, job_due_for};
ghost use Rattle.recovery.specs.Jobs.{last_job, no_job_of, no_job_for};
ghost use Rattle.recovery.specs.Open.{state_of, known_cells, kept_jobs};

use crate::milestone_jobs::highest_of;
use crate::store::Store;
use disk::Disk;
use revision::DocState;

impl<D: Disk> Store<D> {
    /// The revision to which a job of a document is due, so that a milestone stands at each multiple of `every` revisions at which there
    /// is time for one: the greatest such multiple up to the document's revision, or its floor where that is greater. `None` comes where
    /// an open cell or the job that is kept reaches the multiple, where the job that is kept isn't below the floor, and where there is no
    /// document of this number. `milestone_job` gives the job.
    pub fn job_due(&self, document: u32, every: u64) -> Option<u64>
        requires some { 1 ≤ every }
        ensures due { result
            ≡ job_due_for every (slice_get (state_of self.now).documents document)
            (highest_known (known_cells self.now) document) (last_job document (kept_jobs self.now)) }
        ensures can { IfSome result
            (λ revision. no_job_for (slice_get (state_of self.now).documents document)
            (highest_known (known_cells self.now) document) revision ≡ None) }
    {
        match self.state.documents().get(document as usize) {
            Some(found) => job_due_at(
                found,
                every,
                highest_of(&self.cells, document),
                self.jobs.last(document),
            ),
            None => None,
        }
    }
}

// The revision to which a job of a document is due, given the highest revision of its open cells and that of its last job, 0 without one.
fn job_due_at(found: &DocState, every: u64, highest: u64, last: u64) -> Option<u64>
    requires some { 1 ≤ every }
    ensures due { result ≡ job_due_of every (record_of found.now) highest last }
    ensures can { IfSome result (λ revision. no_job_of (record_of found.now) highest revision ≡ None) }
{
    let multiple = found.revision() / every * every;
    let is_out = 0 < last && found.floor() <= last;
    if highest.max(last) < multiple && !is_out {
        Some(multiple.max(found.floor()))
    } else {
        None
    }
}
