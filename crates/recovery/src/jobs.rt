//! The jobs of milestones that a store has handed out.
ghost use Rattle.std.specs.Prelude.{◌≡◌, ◌↔◌, [], not, ◌==◌, Contains, IsTrue, OnOk, OnErr};
ghost use Rattle.recovery.specs.Jobs.{jobs_of, last_job, without_job, with_job};

use milestone::Job;
use std::alloc::{AllocError, Global};

/// Copies of the jobs that were handed out and not put yet, of each document the last one.
#[derive(Drop)]
pub struct Jobs {
    list: Vec<Job>,
}

impl Jobs {
    /// No jobs. It takes no memory.
    pub fn new(alloc: Global) -> Jobs
        ensures { jobs_of result ≡ [] }
    {
        Jobs {
            list: Vec::new(alloc),
        }
    }

    /// Whether this very job is kept. It takes no memory.
    pub fn is_kept(&self, job: &Job) -> bool
        ensures { IsTrue result ↔ Contains (jobs_of self.now) job.now }
    {
        for kept in &self.list {
            if kept.is_same(job) {
                return true;
            }
        }
        false
    }

    /// The revision of the job that is kept of a document, 0 where none is. It takes no memory.
    pub fn last(&self, document: u32) -> u64
        ensures { result ≡ last_job document (jobs_of self.now) }
    {
        for kept in &self.list {
            if kept.document_number() == document {
                return kept.revision();
            }
        }
        0
    }

    /// Keeps a job, in place of the one that was kept of its document. Refused as out of memory alone.
    pub fn keep(&mut self, job: Job) -> Result<(), AllocError>
        ensures ok { OnOk result (jobs_of self.new ≡ with_job job (jobs_of self.old)) }
        ensures err { OnErr result (jobs_of self.new ≡ jobs_of self.old) }
    {
        self.list.reserve(1)?;
        let document = job.document_number();
        self.list.retain(|kept| kept.document_number() != document);
        self.list.push(job).unwrap();
        Ok(())
    }

    /// Drops the job of a document, where one is kept. It takes no memory.
    pub fn forget(&mut self, document: u32)
        ensures { jobs_of self.new ≡ without_job document (jobs_of self.old) }
    {
        self.list.retain(|job| job.document_number() != document);
    }
}
