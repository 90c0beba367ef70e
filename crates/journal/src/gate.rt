//! Writes behind a gate: a byte that stands open where it is 0xA5.
ghost use Rattle.std.specs.Prelude.{◌≡◌, ◌+◌, ◌^◌, ◌<◌, ◌≤◌, [], ◌∷◌, length, OnOk};
ghost use Rattle.disk.specs.Device.{overwritten};
ghost use Rattle.disk.specs.Crash.{LeavesOnly};
ghost use Rattle.disk.specs.Calls.{HasOnlyWritten, CountsFaults};
ghost use Rattle.disk.specs.Counted.{calls_of, syncs_of};
ghost use Rattle.journal.specs.Area.{open_gate, IsGated};

use disk::{Disk, Fault};

/// The value of an open gate. Every other value is a closed one.
pub const OPEN: u8 = 0xA5;

/// The value that a gate is closed with.
pub const CLOSED: u8 = 0x00;

/// Writes `bytes` behind the gate at this offset, syncs, opens the gate, and syncs: four calls of the device.
/// Until the gate is opened in a write of its own, it stays unchanged, whatever a crash leaves behind it.
pub fn write_gated<D: Disk>(disk: &mut D, gate: u64, bytes: &[u8]) -> Result<(), Fault>
    requires fits { gate + 1 + length bytes.now ≤ length (D.seen disk.old) }
    requires bound { gate + 1 < 2 ^ 64 }

    // From a synced device on, a crash at any moment leaves the gate unchanged, or the bytes behind it.
    ensures any_moment { D.unsynced disk.old ≡ []
        → LeavesOnly ⟦<D as Disk>⟧ (IsGated gate bytes.now (D.seen disk.old)) disk.old disk.new }
    ensures seen { OnOk result (D.seen disk.new
        ≡ overwritten (overwritten (D.seen disk.old) (gate + 1) bytes.now) gate (open_gate ∷ [])) }
    ensures synced { OnOk result (D.unsynced disk.new ≡ []) }
    ensures only_written { HasOnlyWritten ⟦<D as Disk>⟧ disk.old disk.new }

    // Four calls of the device at most, good or not, and of these two syncs.
    ensures calls { length (D.past disk.new) ≤ length (D.past disk.old) + 4 }
    ensures every_call { calls_of ⟦<D as Disk>⟧ disk.new ≤ calls_of ⟦<D as Disk>⟧ disk.old + 4 }
    ensures syncs { syncs_of ⟦<D as Disk>⟧ disk.new ≤ syncs_of ⟦<D as Disk>⟧ disk.old + 2 }
    ensures faults { CountsFaults ⟦<D as Disk>⟧ result disk.old disk.new }
{
    disk.write_at(gate + 1, bytes)?;
    disk.sync()?;
    disk.write_at(gate, &[OPEN])?;
    disk.sync()
}
