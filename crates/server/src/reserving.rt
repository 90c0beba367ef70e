//! Room on the disk for a new file.
ghost use Rattle.std.specs.Prelude.{◌≡◌, [], length, OnOk};

use disk::{Disk, Fault};

/// How many zeros are written at once.
const PIECE: u64 = 16_384;

/// Writes zeros over all of a device, and syncs it: then the disk has room for each byte of it. A `Fault` comes where it hasn't.
pub(crate) fn write_zeros<D: Disk>(disk: &mut D) -> Result<(), Fault>
    ensures length { length (D.seen disk.new) ≡ length (D.seen disk.old) }
    ensures synced { OnOk result (D.unsynced disk.new ≡ []) }
{
    let zeros = [0; PIECE as usize];
    let len = disk.len();
    for piece in 0..len / PIECE {
        disk.write_at(piece * PIECE, &zeros)?;
    }
    let rest = len % PIECE;
    disk.write_at(len - rest, &zeros[..rest as usize])?;
    disk.sync()
}
