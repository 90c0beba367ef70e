//! A device in memory that fails or stops where it is told to, for tests: no program uses it.
ghost use Rattle.std.specs.Prelude.{◌≡◌, ◌+◌, ◌≤◌, true, false, min, [], length, slice_range, IsTrue, IfOk, OnOk, ◌↔◌, ◌&&◌, ◌||◌};
ghost use Rattle.disk.specs.Device.{overwritten, most_faults, IsWrite, IsAtMostOneStep};
ghost use Rattle.disk.specs.Crash.{MayLeaveNow, history_of};
ghost use Rattle.disk.specs.Left.{left_bytes};

use crate::memory::overwrite;
use crate::{Call, Disk, Fault, MemDisk};
use std::alloc::{AllocError, Global};

/// What stands in the range of a write that failed, or that a stop found unsynced.
#[derive(Clone, Copy, Debug, PartialEq, Eq)]
pub enum Left {
    /// What stood there before.
    Nothing,
    /// All of the write.
    All,
    /// The first half of the write, and then what stood there before.
    FirstHalf,
    /// This byte everywhere.
    Byte(u8),
}

/// Where a device goes wrong.
#[derive(Clone, Copy, Debug, PartialEq, Eq)]
pub struct FaultPlan {
    /// The number of the call, from 0, over all calls that the device is asked for.
    pub call: u64,
    /// Each later call fails too, as if the machine had gone.
    pub stops: bool,
    pub left: Left,
}

impl FaultPlan {
    /// One call fails.
    pub fn fail(call: u64, left: Left) -> FaultPlan
        ensures { result ≡ record { call = call; stops = false; left = left } }
    {
        FaultPlan {
            call,
            stops: false,
            left,
        }
    }

    /// From one call on each call fails.
    pub fn stop(call: u64, left: Left) -> FaultPlan
        ensures { result ≡ record { call = call; stops = true; left = left } }
    {
        FaultPlan {
            call,
            stops: true,
            left,
        }
    }
}

/// A device in memory that fails or stops at a chosen call, leaving chosen bytes.
#[derive(Drop)]
pub struct FaultDisk {
    disk: MemDisk,
    plan: FaultPlan,
    asked: u64,
    has_stopped: bool,
}

impl FaultDisk {
    ghost use Rattle.std.specs.Prelude.{reverse};
    ghost use Rattle.disk.specs.Memory.{bytes_of, calls_of, failures_of};
    ghost use Rattle.disk.specs.Stopped.{disk_of, fault_plan_of, asked_of, has_stopped, bytes_left};

    /// The device continues from where `disk` is.
    pub fn new(disk: MemDisk, plan: FaultPlan) -> FaultDisk
        ensures disk { disk_of result ≡ disk }
        ensures plan { fault_plan_of result ≡ plan }
        ensures start { (asked_of result ≡ 0) × (has_stopped result ≡ false) }
    {
        FaultDisk {
            disk,
            plan,
            asked: 0,
            has_stopped: false,
        }
    }

    /// The device below, with the calls that it made.
    pub fn disk(&self) -> &MemDisk
        ensures { result.now ≡ disk_of self.now }
    {
        &self.disk
    }

    /// Whether the stop has come.
    pub fn has_stopped(&self) -> bool
        ensures { result ≡ has_stopped self.now }
    {
        self.has_stopped
    }

    /// What is there after a crash now, as a fresh device, all of it synced: each write since the last good sync
    /// left what the plan chose.
    pub fn after_crash(&self, alloc: Global) -> Result<MemDisk, AllocError>
        ensures chosen { IfOk result (λ disk. bytes_of disk ≡ bytes_left self.now) }
        ensures possible { IfOk result (λ disk. MayLeaveNow ⟦<FaultDisk as Disk>⟧ self.now (bytes_of disk)) }
        ensures fresh { IfOk result (λ disk. (calls_of disk ≡ []) × (failures_of disk ≡ 0)) }
    {
        Ok(MemDisk::holding(alloc, self.left(alloc)?))
    }

    // What is left after a crash now: the writes since the last sync are gone through from the newest on.
    fn left(&self, alloc: Global) -> Result<Vec<u8>, AllocError>
        ensures { IfOk result (λ bytes. bytes.items ≡ bytes_left self.now) }
    {
        let mut bytes = self.disk.bytes().to_vec(alloc)?;
        let mut rest = self.disk.calls();
        while let Some((call, earlier)) = rest.split_last() {
            match call {
                Call::Read { .. } => {}
                Call::Write { at, replaced } => {
                    leave(alloc, &mut bytes, *at, replaced, self.plan.left)?;
                }
                Call::Sync => break,
            }
            rest = earlier;
        }
        Ok(bytes)
    }

    // Counts a call that is asked for, and says whether it is to fail.
    fn is_due(&mut self) -> bool
        ensures disk { disk_of self.new ≡ disk_of self.old }
        ensures due { IsTrue result ↔ (asked_of self.old ≡ (fault_plan_of self.old).call) }
        ensures stops { has_stopped self.new ≡ (has_stopped self.old || (result && (fault_plan_of self.old).stops)) }
    {
        let is_due = self.asked == self.plan.call;
        self.asked = self.asked.saturating_add(1);
        if is_due && self.plan.stops {
            self.has_stopped = true;
        }
        is_due
    }

    // A write that fails, and leaves this in its range.
    fn tear(&mut self, at: u64, bytes: &[u8], left: Left) -> Fault
        requires { at + length bytes.now ≤ length (bytes_of (disk_of self.old)) }
        ensures length { length (bytes_of (disk_of self.new)) ≡ length (bytes_of (disk_of self.old)) }
        ensures time { IsAtMostOneStep (IsWrite at (length bytes.now))
            (history_of ⟦<FaultDisk as Disk>⟧ self.old) (history_of ⟦<FaultDisk as Disk>⟧ self.new) }
        ensures failed { failures_of (disk_of self.new) ≡ min (failures_of (disk_of self.old) + 1) most_faults }
    {
        let start = at as usize;
        let old = &self.disk.bytes()[start..start + bytes.len()];
        let Ok(left) = torn_bytes(self.disk.alloc(), old, bytes, left) else {
            return self.disk.fail();
        };
        if self.disk.write_at(at, &left).is_ok() {
            return self.disk.fail();
        }
        Fault
    }
}

// What stands in a range where `new` was to replace `old`.
fn torn_bytes(alloc: Global, old: &[u8], new: &[u8], left: Left) -> Result<Vec<u8>, AllocError>
    requires { length old.now ≡ length new.now }
    ensures bytes { IfOk result (λ bytes. bytes.items ≡ left_bytes left old.now new.now) }
    ensures length { IfOk result (λ bytes. length bytes.items ≡ length new.now) }
{
    match left {
        Left::Nothing => old.to_vec(alloc),
        Left::All => new.to_vec(alloc),
        Left::FirstHalf => {
            let half = new.len() / 2;
            let mut bytes = new[..half].to_vec(alloc)?;
            bytes.extend_from_slice(&old[half..])?;
            Ok(bytes)
        }
        Left::Byte(byte) => vec![in alloc; byte; new.len()],
    }
}

// Puts into a range that these bytes were to be replaced in what is left there.
fn leave(
    alloc: Global,
    bytes: &mut Vec<u8>,
    at: u64,
    replaced: &[u8],
    left: Left,
) -> Result<(), AllocError>
    requires { at + length replaced.now ≤ length bytes.old.items }
    ensures left { OnOk result (bytes.new.items ≡ overwritten bytes.old.items at
        (left_bytes left replaced.now (slice_range bytes.old.items at (at + length replaced.now)))) }
    ensures length { length bytes.new.items ≡ length bytes.old.items }
{
    let start = at as usize;
    let left = torn_bytes(alloc, replaced, &bytes[start..start + replaced.len()], left)?;
    overwrite(bytes, start, &left);
    Ok(())
}

impl Disk for FaultDisk {
    ghost use Rattle.std.specs.Prelude.{reverse};
    ghost use Rattle.disk.specs.Memory.{bytes_of, calls_of, failures_of};
    ghost use Rattle.disk.specs.Rewound.{unsynced_ranges, states_before};
    ghost use Rattle.disk.specs.Stopped.{disk_of};

    ghost seen = { λ faulty. bytes_of (disk_of faulty) };

    ghost unsynced = { λ faulty. unsynced_ranges (reverse (calls_of (disk_of faulty))) };

    ghost past = { λ faulty. states_before (bytes_of (disk_of faulty)) (reverse (calls_of (disk_of faulty))) };

    ghost faults = { λ faulty. failures_of (disk_of faulty) };

    ghost honest = { λ _. Unit {0} };

    fn len(&self) -> u64 {
        self.disk.len()
    }

    fn read(&mut self, at: u64, out: &mut [u8]) -> Result<(), Fault> {
        if self.has_stopped || self.is_due() {
            return Err(self.disk.fail());
        }
        self.disk.read(at, out)
    }

    fn write_at(&mut self, at: u64, bytes: &[u8]) -> Result<(), Fault> {
        if self.has_stopped {
            return Err(self.disk.fail());
        }
        if !self.is_due() {
            return self.disk.write_at(at, bytes);
        }
        // What a stop leaves is chosen only once one asks for it.
        let left = if self.plan.stops {
            Left::All
        } else {
            self.plan.left
        };
        Err(self.tear(at, bytes, left))
    }

    fn sync(&mut self) -> Result<(), Fault> {
        if self.has_stopped || self.is_due() {
            return Err(self.disk.fail());
        }
        self.disk.sync()
    }

    fn failures(&self) -> u64 {
        self.disk.failures()
    }
}
