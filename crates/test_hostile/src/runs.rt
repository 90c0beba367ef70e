//! Runs of a script, from its beginning or from a step on, over a device that may stop or fail.
ghost use Rattle.std.specs.Prelude.{◌≤◌};

use crate::scripts::{SHAPE, Script, Step};
use crate::stores::take;
use crate::turning::serve;
use disk::{FaultDisk, FaultPlan, Left, MemDisk};
use recovery::{OpenFault, Pick, Store, format_device};
use refusal::Refusal;
use revision::Reply;
use std::alloc::Global;
use std::process::Abort;
use std::sync::Wait;

/// How far a run came.
#[derive(Drop)]
pub struct Ended {
    /// How many steps were answered.
    pub done: usize,
    /// What stopped it before its end: the refusal's name, or that a reply was another one.
    pub stopped: Option<&'static str>,
    pub disk: FaultDisk,
}

/// Where a run begins: at the first step, or at one that was asked before and is asked again.
#[derive(Clone, Copy)]
pub struct Begin {
    pub from: usize,
    pub is_again: bool,
}

impl Begin {
    /// Whether a step may have been done before: the command that is sent again, and what isn't a command.
    pub fn may_be_done(&self, at: usize, step: &Step) -> bool {
        self.is_again && (at == self.from || commands_in(step) == 0)
    }
}

pub const FIRST: Begin = Begin {
    from: 0,
    is_again: false,
};

/// Nothing goes wrong.
pub const NEVER: FaultPlan = FaultPlan {
    call: u64::MAX,
    stops: false,
    left: Left::Nothing,
};

/// A copy of bytes. It is asked for once more where memory was wanted, so that a script can be run with a request for memory refused.
pub fn copied(rt: &(impl Abort + AllocGlobal), bytes: &[u8]) -> Vec<u8> {
    match bytes.to_vec(rt.alloc()) {
        Ok(copy) => copy,
        Err(_) => bytes.to_vec(rt.alloc()).expect(rt, "memory"),
    }
}

/// A device of these bytes that goes wrong by a plan.
pub fn device_of(rt: &(impl Abort + AllocGlobal), bytes: &[u8], plan: FaultPlan) -> FaultDisk {
    FaultDisk::new(MemDisk::holding(rt.alloc(), copied(rt, bytes)), plan)
}

// The bytes of a device that was formatted where this byte stood everywhere, but for the gate at 0.
fn format(alloc: Global, fill: u8) -> Result<Vec<u8>, Refusal> {
    let mut bytes = vec![in alloc; 0; 1]?;
    bytes.resize(1_600, fill)?;
    let mut disk = MemDisk::holding(alloc, bytes);
    format_device(alloc, &mut disk, SHAPE)?;
    Ok(disk.bytes().to_vec(alloc)?)
}

/// The same, asked once more where memory was wanted.
pub fn formatted(rt: &(impl Abort + AllocGlobal), fill: u8) -> Vec<u8> {
    match format(rt.alloc(), fill) {
        Ok(bytes) => bytes,
        Err(_) => format(rt.alloc(), fill).expect(rt, "a formatted device"),
    }
}

// Opens a device. No clause is kept of what comes of it, so callers are checked faster.
fn open(
    alloc: Global,
    disk: FaultDisk,
    pick: Pick,
) -> Result<Store<FaultDisk>, OpenFault<FaultDisk>> {
    Store::open(alloc, disk, pick)
}

/// Opens a device, and once more where memory was wanted. A refusal leaves each byte of it unchanged.
pub fn opened(
    rt: &(impl Abort + AllocGlobal),
    disk: FaultDisk,
    pick: Pick,
) -> Result<Store<FaultDisk>, OpenFault<FaultDisk>> {
    let before = copied(rt, disk.disk().bytes());
    match open(rt.alloc(), disk, pick) {
        Ok(store) => Ok(store),
        Err(fault) => {
            assert!(rt; fault.disk.disk().bytes() == before.as_slice());
            match fault.refusal {
                Refusal::NoMemory => open(rt.alloc(), fault.disk, pick),
                _ => Err(fault),
            }
        }
    }
}

/// What stops a run at an answer to the command of a number, or to another step; none where it is the one that is due. A command that is sent
/// again may have been taken before, and a segment retired.
pub fn stop_of(
    found: Result<Option<Reply>, Refusal>,
    number: u64,
    is_again: bool,
) -> Option<&'static str> {
    match found {
        Ok(None) => None,
        Ok(Some(Reply::Taken { rev })) if rev == number => None,
        Ok(Some(Reply::Again { rev })) if is_again && rev == number => None,
        Ok(Some(_)) => Some("another reply"),
        Err(Refusal::StillNeeded) if is_again => None,
        Err(refusal) => Some(refusal.name()),
    }
}

/// How many commands a step is.
pub fn commands_in(step: &Step) -> u64
    ensures { result ≤ 1 }
{
    match step {
        Step::Put(_) => 0,
        Step::Retire => 0,
        _ => 1,
    }
}

// The answer to a step. It is asked once more where memory was wanted.
fn asked(
    alloc: Global,
    store: &mut Store<FaultDisk>,
    number: u64,
    step: &Step,
    is_again: bool,
) -> Option<&'static str> {
    let found = take(alloc, store, number, step);
    if matches!(found, Err(Refusal::NoMemory)) {
        return stop_of(take(alloc, store, number, step), number, true);
    }
    stop_of(found, number, is_again)
}

// A store takes the steps of a script, up to one that stops it.
fn take_steps(
    alloc: Global,
    store: &mut Store<FaultDisk>,
    script: &Script,
    begin: Begin,
) -> (usize, Option<&'static str>) {
    let mut number = 0_u64;
    for (at, step) in script.steps.iter().enumerate() {
        number = number.saturating_add(commands_in(step));
        if at >= begin.from {
            let is_again = begin.may_be_done(at, step);
            let stopped = asked(alloc, store, number, step, is_again);
            if stopped.is_some() {
                return (at, stopped);
            }
        }
    }
    (script.steps.len(), None)
}

/// Runs a script over a device that is opened by a pick.
pub fn run(
    rt: &(impl Wait + Abort + AllocGlobal),
    script: &Script,
    disk: FaultDisk,
    pick: Pick,
    begin: Begin,
) -> Ended {
    let mut store = match opened(rt, disk, pick) {
        Ok(store) => store,
        Err(fault) => {
            return Ended {
                done: begin.from,
                stopped: Some(fault.refusal.name()),
                disk: fault.disk,
            };
        }
    };
    if let Some(every) = script.every {
        return serve(rt, store, script, every.max(1), begin);
    }
    let (done, stopped) = take_steps(rt.alloc(), &mut store, script, begin);
    Ended {
        done,
        stopped,
        disk: store.close(),
    }
}
