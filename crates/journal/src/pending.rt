//! Bytes that were read and are not parted into records yet.
ghost use Rattle.std.specs.Prelude.{◌≡◌, ◌≢◌, ◌+◌, ◌^◌, ◌<◌, ◌≤◌, [], ◌++◌, length, take, drop, OnOk, IfErr};
ghost use Rattle.disk.specs.Calls.{HasOnlyRead, CountsFaultsAs};

use crate::scan::ScanError;
use disk::Disk;
use std::alloc::Global;
use std::marker::Model;

/// Bytes that were read and are not parted yet, in order.
#[derive(Drop)]
pub(crate) struct Pending {
    bytes: Vec<u8>,
    // Those before this place were parted.
    start: usize,
}

impl Model for Pending {
    ghost use Rattle.std.specs.Prelude.{◌≤◌, ℕ, List, drop, length};

    ghost Value = { List ℕ };

    ghost view = { λ p. drop p.start p.bytes.items };

    ghost invariant = { λ p. p.start ≤ length p.bytes.items };
}

impl Pending {
    pub(crate) fn new(alloc: Global) -> Pending
        ensures { result ≡ [] }
    {
        Pending {
            bytes: Vec::new(alloc),
            start: 0,
        }
    }

    pub(crate) fn bytes(&self) -> &[u8]
        ensures { result.now ≡ self.now }
    {
        &self.bytes[self.start..]
    }

    /// Passes the first `count` bytes, which were parted.
    pub(crate) fn pass(&mut self, count: usize)
        requires { count ≤ length self.old }
        ensures { self.new ≡ drop count self.old }
    {
        self.start += count;
    }

    /// Reads `count` bytes from this place of the device on, and puts them behind the others.
    pub(crate) fn read_on<D: Disk>(
        &mut self,
        disk: &mut D,
        at: u64,
        count: u64,
    ) -> Result<(), ScanError>
        requires within { at + count ≤ length (D.seen disk.old) }
        requires short { length self.old + count < 2 ^ 32 }
        ensures bytes { OnOk result (D.honest disk.new
            → self.new ≡ self.old ++ take count (drop at (D.seen disk.old))) }
        ensures length { OnOk result (length self.new ≡ length self.old + count) }
        ensures not_damaged { IfErr result (λ e. e ≢ ScanError.Damaged) }
        ensures only_read { HasOnlyRead ⟦<D as Disk>⟧ disk.old disk.new }
        ensures faults { CountsFaultsAs ⟦<D as Disk>⟧ ScanError.Fault result disk.old disk.new }
    {
        drop_front(&mut self.bytes, self.start);
        self.start = 0;
        let len = self.bytes.len();
        self.bytes.resize(len + count as usize, 0)?;
        disk.read(at, &mut self.bytes[len..])?;
        Ok(())
    }
}

// Lets the first `count` bytes go: the others move to the front, once for each piece that is read.
fn drop_front(bytes: &mut Vec<u8>, count: usize)
    requires { count ≤ length bytes.old.items }
    ensures { bytes.new.items ≡ drop count bytes.old.items }
{
    if count > 0 {
        let left = bytes.len() - count;
        bytes.copy_within(count.., 0);
        bytes.truncate(left);
    }
}
