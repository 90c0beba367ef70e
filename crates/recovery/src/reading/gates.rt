//! Reading gates.
ghost use Rattle.std.specs.Prelude.{◌≡◌, ◌↔◌, ◌+◌, ◌≤◌, length, take, drop, slice_index, IsTrue, OnOk, IfOk, IfErr};
ghost use Rattle.disk.specs.Calls.{HasOnlyRead, CountsFaults};
ghost use Rattle.journal.specs.Area.{open_gate};

use disk::Disk;
use journal::OPEN;
use refusal::Refusal;

/// Fills `out` with the bytes from this place on.
pub(super) fn read_at<D: Disk>(disk: &mut D, at: u64, out: &mut [u8]) -> Result<(), Refusal>
    requires { at + length out.old ≤ length (D.seen disk.old) }
    ensures bytes { OnOk result (D.honest disk.new → out.new ≡ take (length out.old) (drop at (D.seen disk.old))) }
    ensures only { IfErr result (λ e. e ≡ Refusal.Fault) }
    ensures only_read { HasOnlyRead ⟦<D as Disk>⟧ disk.old disk.new }
    ensures faults { CountsFaults ⟦<D as Disk>⟧ result disk.old disk.new }
{
    disk.read(at, out)?;
    Ok(())
}

/// Whether the gate at this place is open.
pub(super) fn is_open<D: Disk>(disk: &mut D, at: u64) -> Result<bool, Refusal>
    requires { at + 1 ≤ length (D.seen disk.old) }
    ensures gate { IfOk result (λ b. D.honest disk.new → (IsTrue b ↔ (slice_index (D.seen disk.old) at ≡ open_gate))) }
    ensures only { IfErr result (λ e. e ≡ Refusal.Fault) }
    ensures only_read { HasOnlyRead ⟦<D as Disk>⟧ disk.old disk.new }
    ensures faults { CountsFaults ⟦<D as Disk>⟧ result disk.old disk.new }
{
    let mut gate = [0u8];
    read_at(disk, at, &mut gate)?;
    Ok(gate[0] == OPEN)
}
