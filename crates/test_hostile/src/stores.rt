//! Steps that a store alone takes.
use crate::scripts::{Step, command_of};
use disk::FaultDisk;
use milestone::compose_job;
use recovery::Store;
use refusal::Refusal;
use revision::{Command, Plan, Reply};
use std::alloc::Global;
use test_fixtures::commit_taken;

/// A command is planned, and committed where it is taken.
pub fn write(
    alloc: Global,
    store: &mut Store<FaultDisk>,
    command: &Command,
) -> Result<Reply, Refusal> {
    match store.state().plan(alloc, command)? {
        Plan::Taken(taken) => {
            let rev = taken.revision();
            commit_taken(alloc, store, taken)?;
            Ok(Reply::Taken { rev })
        }
        Plan::Again { rev } => Ok(Reply::Again { rev }),
    }
}

// A milestone is put, from its job on.
fn put(alloc: Global, store: &mut Store<FaultDisk>, revision: u64) -> Result<(), Refusal> {
    let job = store.milestone_job(alloc, 0, revision)?;
    match compose_job(alloc, job) {
        Ok(composed) => store.put_milestone(alloc, &composed),
        Err(back) => Err(back.refusal),
    }
}

/// A store takes a step. Where it is a command, the reply; it has this number.
pub fn take(
    alloc: Global,
    store: &mut Store<FaultDisk>,
    number: u64,
    step: &Step,
) -> Result<Option<Reply>, Refusal> {
    match *step {
        Step::Put(revision) => {
            put(alloc, store, revision)?;
            Ok(None)
        }
        Step::Retire => {
            store.retire()?;
            Ok(None)
        }
        _ => {
            let command = command_of(alloc, number, step)?;
            Ok(Some(write(alloc, store, &command)?))
        }
    }
}
