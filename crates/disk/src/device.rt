//! The device that everything above is written over.
ghost use Rattle.std.specs.Prelude.{◌≡◌, ◌↔◌, ◌+◌, ◌≤◌, ◌<◌, min, [], ◌∷◌, List, ℕ, length, slice_range, OnOk, OnErr};
ghost use Rattle.disk.specs.Device.{State, history, overwritten, IsWrite, IsSync, IsAtMostOneStep, most_faults};
ghost use Rattle.refusal.specs.declared.Refusal.TheVariants as refusals;

use refusal::Refusal;
use std::alloc::AllocError;
use std::io;
use thiserror::Error;

/// A call of a device failed.
#[derive(Clone, Copy, Debug, PartialEq, Eq, Error)]
#[error("a call of the device failed")]
pub struct Fault;

impl From<io::Error> for Fault {
    fn from(_: io::Error) -> Fault {
        Fault
    }
}

impl From<AllocError> for Fault {
    fn from(_: AllocError) -> Fault {
        Fault
    }
}

impl From<Fault> for Refusal {
    ghost from_gives = { λ _ refusal. refusal ≡ refusals.Fault };

    fn from(_: Fault) -> Self {
        Refusal::Fault
    }
}

/// A device of a fixed number of bytes. Calls stay within it.
///
/// Between two syncs that succeed each written range may hold any bytes after a crash, and bytes outside stay.
/// A crash may fall before, within or between any calls.
pub trait Disk {
    /// The bytes that a read gives.
    ghost seen: { Self → List ℕ };

    /// The ranges (offset, length) written since the last sync that succeeded, newest first.
    ghost unsynced: { Self → List (ℕ × ℕ) };

    /// The states before this one, newest first. The moment is how many there are.
    ghost past: { Self → List State };

    /// How many calls have failed, at most 2^64 - 1.
    ghost faults: { Self → ℕ };

    /// Each read so far gave what the calls before it left.
    ghost honest: { Self → Type 0 };

    /// How many bytes the device has.
    fn len(&self) -> u64
        ensures { result ≡ length (seen self.now) };

    /// Fills `out` with the bytes from offset `at` on. After an `Err` it may hold any bytes.
    fn read(&mut self, at: u64, out: &mut [u8]) -> Result<(), Fault>
        requires { at + length out.old ≤ length (seen self.old) }

        ensures given { OnOk result (honest self.new → out.new ≡ slice_range (seen self.old) at (at + length out.old)) }
        ensures honest { honest self.new → honest self.old }

        // Nothing moves on.
        ensures seen { seen self.new ≡ seen self.old }
        ensures unsynced { unsynced self.new ≡ unsynced self.old }
        ensures past { past self.new ≡ past self.old }

        ensures good { OnOk result ((faults self.new ≡ faults self.old) × (faults self.old < most_faults)) }
        ensures failed { OnErr result (faults self.new ≡ min (faults self.old + 1) most_faults) };

    /// Puts `bytes` at offset `at`. Until a sync succeeds, a crash may leave any bytes in their range.
    /// After an `Err` a read too may give any bytes there.
    fn write_at(&mut self, at: u64, bytes: &[u8]) -> Result<(), Fault>
        requires { at + length bytes.now ≤ length (seen self.old) }

        ensures written { OnOk result (seen self.new ≡ overwritten (seen self.old) at bytes.now) }
        ensures opened { OnOk result (unsynced self.new ≡ (at, length bytes.now) ∷ unsynced self.old) }
        ensures length { length (seen self.new) ≡ length (seen self.old) }

        // Good or not: nothing changed, or the range holds some bytes and is unsynced.
        ensures time { IsAtMostOneStep (IsWrite at (length bytes.now))
            (history seen unsynced past self.old) (history seen unsynced past self.new) }
        ensures honest { honest self.new ↔ honest self.old }

        ensures good { OnOk result ((faults self.new ≡ faults self.old) × (faults self.old < most_faults)) }
        ensures failed { OnErr result (faults self.new ≡ min (faults self.old + 1) most_faults) };

    /// After an `Ok` a crash leaves what a read gives. An `Err` closes no range.
    fn sync(&mut self) -> Result<(), Fault>
        ensures seen { seen self.new ≡ seen self.old }
        ensures closed { OnOk result (unsynced self.new ≡ []) }
        ensures open { OnErr result (unsynced self.new ≡ unsynced self.old) }

        ensures time { IsAtMostOneStep IsSync
            (history seen unsynced past self.old) (history seen unsynced past self.new) }
        ensures honest { honest self.new ↔ honest self.old }

        ensures good { OnOk result ((faults self.new ≡ faults self.old) × (faults self.old < most_faults)) }
        ensures failed { OnErr result (faults self.new ≡ min (faults self.old + 1) most_faults) };

    /// How many calls have failed so far. At 2^64 - 1 it stays, and each call fails.
    fn failures(&self) -> u64
        ensures { result ≡ faults self.now };
}

/// Counts a failed call.
pub(crate) fn count_failure(failures: &mut u64) -> Fault
    ensures { failures.new ≡ min (failures.old + 1) most_faults }
{
    *failures = failures.saturating_add(1);
    Fault
}
