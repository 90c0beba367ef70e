//! A device in memory, for tests: no program uses it. It keeps a record of its calls, from which its past is read off.
ghost use Rattle.std.specs.Prelude.{◌≡◌, ◌+◌, ◌<◌, ◌≤◌, min, [], ◌∷◌, ◌++◌, length, replicate, IsTrue, IfOk, OnOk, OnErr};
ghost use Rattle.std.specs.List.{list_all};
ghost use Rattle.disk.specs.Device.{overwritten, most_faults};
ghost use Rattle.disk.specs.Rewound.{is_within};

use crate::device::count_failure;
use crate::{Disk, Fault};
use std::alloc::{AllocError, Global};

/// A call that a device in memory has made.
#[derive(Debug, PartialEq, Eq, Drop)]
pub enum Call {
    /// `len` bytes were read from offset `at` on.
    Read { at: u64, len: u64 },
    /// Bytes were put at offset `at`, in the place of these.
    Write { at: u64, replaced: Vec<u8> },
    Sync,
}

/// A device in memory, which keeps its word. A call fails only when out of memory for its record, or
/// where 2^64 - 1 calls have failed already, and then it changes nothing.
#[derive(Drop)]
pub struct MemDisk {
    alloc: Global,
    bytes: Vec<u8>,
    calls: Vec<Call>,
    failures: u64,
    ghost within: { IsTrue (list_all (is_within (length bytes.items)) calls.items) },
}

impl MemDisk {
    ghost use Rattle.disk.specs.Memory.{bytes_of, calls_of, failures_of};

    /// A device of `len` zeros, all of them synced.
    pub fn new(alloc: Global, len: usize) -> Result<MemDisk, AllocError>
        ensures zeros { IfOk result (λ disk. bytes_of disk ≡ replicate len 0) }
        ensures fresh { IfOk result (λ disk. (calls_of disk ≡ []) × (failures_of disk ≡ 0)) }
    {
        let mut bytes = Vec::new(alloc);
        bytes.resize(len, 0)?;
        Ok(MemDisk::holding(alloc, bytes))
    }

    /// A device that holds these bytes, all of them synced.
    pub fn holding(alloc: Global, bytes: Vec<u8>) -> MemDisk
        ensures bytes { bytes_of result ≡ bytes.items }
        ensures fresh { (calls_of result ≡ []) × (failures_of result ≡ 0) }
    {
        MemDisk {
            alloc,
            bytes,
            calls: Vec::new(alloc),
            failures: 0,
        }
    }

    /// What a read of the whole device would give.
    pub fn bytes(&self) -> &[u8]
        ensures { result.now ≡ bytes_of self.now }
    {
        &self.bytes
    }

    /// The calls that succeeded so far, oldest first.
    pub fn calls(&self) -> &[Call]
        ensures { result.now ≡ calls_of self.now }
    {
        &self.calls
    }

    /// The allocator that its record takes memory from.
    pub(crate) fn alloc(&self) -> Global {
        self.alloc
    }

    /// Counts a failed call.
    pub(crate) fn fail(&mut self) -> Fault
        ensures bytes { bytes_of self.new ≡ bytes_of self.old }
        ensures calls { calls_of self.new ≡ calls_of self.old }
        ensures failed { failures_of self.new ≡ min (failures_of self.old + 1) most_faults }
    {
        count_failure(&mut self.failures)
    }

    // Keeps a call in the record.
    fn note(&mut self, call: Call) -> Result<(), Fault>
        requires { IsTrue (is_within (length (bytes_of self.old)) call) }
        ensures kept { OnOk result (calls_of self.new ≡ calls_of self.old ++ call ∷ []) }
        ensures lost { OnErr result (calls_of self.new ≡ calls_of self.old) }
        ensures bytes { bytes_of self.new ≡ bytes_of self.old }
        ensures good { OnOk result ((failures_of self.new ≡ failures_of self.old)
            × (failures_of self.old < most_faults)) }
        ensures failed { OnErr result (failures_of self.new ≡ min (failures_of self.old + 1) most_faults) }
    {
        if self.failures == u64::MAX || self.calls.push(call).is_err() {
            return Err(self.fail());
        }
        Ok(())
    }
}

// Puts bytes at a place.
pub(crate) fn overwrite(bytes: &mut [u8], at: usize, new: &[u8])
    requires { at + length new.now ≤ length bytes.old }
    ensures { bytes.new ≡ overwritten bytes.old at new.now }
{
    bytes[at..at + new.len()].copy_from_slice(new);
}

impl Disk for MemDisk {
    ghost use Rattle.std.specs.Prelude.{reverse};
    ghost use Rattle.disk.specs.Memory.{bytes_of, calls_of, failures_of};
    ghost use Rattle.disk.specs.Rewound.{unsynced_ranges, states_before};

    ghost seen = { bytes_of };

    ghost unsynced = { λ disk. unsynced_ranges (reverse (calls_of disk)) };

    ghost past = { λ disk. states_before (bytes_of disk) (reverse (calls_of disk)) };

    ghost faults = { failures_of };

    ghost honest = { λ _. Unit {0} };

    fn len(&self) -> u64 {
        self.bytes.len() as u64
    }

    fn read(&mut self, at: u64, out: &mut [u8]) -> Result<(), Fault> {
        let len = out.len() as u64;
        self.note(Call::Read { at, len })?;
        let start = at as usize;
        out.copy_from_slice(&self.bytes[start..start + out.len()]);
        Ok(())
    }

    fn write_at(&mut self, at: u64, bytes: &[u8]) -> Result<(), Fault> {
        let start = at as usize;
        let end = start + bytes.len();
        let Ok(replaced) = self.bytes[start..end].to_vec(self.alloc) else {
            return Err(self.fail());
        };
        self.note(Call::Write { at, replaced })?;
        overwrite(&mut self.bytes, start, bytes);
        Ok(())
    }

    fn sync(&mut self) -> Result<(), Fault> {
        self.note(Call::Sync)
    }

    fn failures(&self) -> u64 {
        self.failures
    }
}
