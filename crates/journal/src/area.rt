//! An area of a device that holds records, one behind another.
ghost use Rattle.std.specs.Prelude.{◌≡◌, ◌↔◌, ◌+◌, ◌^◌, ◌<◌, ◌≤◌, ℕ, List, [], length, OnOk, OnErr, IsErrOf, IsTrue};
ghost use Rattle.disk.specs.Crash.{LeavesOnly};
ghost use Rattle.disk.specs.Calls.{HasOnlyWritten, CountsFaultsAs};
ghost use Rattle.disk.specs.Counted.{calls_of, syncs_of};
ghost use Rattle.journal.specs.Area.{Stands, IsLeftByAppend, IsAppended};
ghost use Rattle.journal.specs.declared.area.AppendError.TheVariants.{Fault};

use crate::gate::write_gated;
use crate::record::Record;
use disk::Disk;
use refusal::Refusal;
use std::marker::Model;
use thiserror::Error;

/// Why a record was not appended.
#[derive(Clone, Copy, Debug, PartialEq, Eq, Error)]
pub enum AppendError {
    /// The record and the closed gate behind it don't fit into the area.
    #[error("the area has no room")]
    NoRoom,
    /// A call of the device failed.
    #[error("a call of the device failed")]
    Fault,
}

impl From<disk::Fault> for AppendError {
    ghost from_gives = { λ _ e. e ≡ Fault };

    fn from(_: disk::Fault) -> Self {
        AppendError::Fault
    }
}

impl From<AppendError> for Refusal {
    ghost use Rattle.journal.specs.Refusals.{refusal_of_append};

    ghost from_gives = { λ e refusal. refusal ≡ refusal_of_append e };

    fn from(error: AppendError) -> Self {
        match error {
            AppendError::NoRoom => Refusal::JournalFull,
            AppendError::Fault => Refusal::Fault,
        }
    }
}

/// An area of a device: `size` bytes from `at` on, in which the next record's gate stands at `next`.
#[derive(Clone, Copy, Debug)]
pub struct Area {
    at: u64,
    size: u64,
    next: u64,
}

impl Model for Area {
    ghost use Rattle.std.specs.Prelude.{◌+◌, ◌^◌, ◌<◌};
    ghost use Rattle.journal.specs.Area.{Place};

    ghost Value = { Place };

    ghost view = { λ a. record { at = a.at; size = a.size; next = a.next } };

    ghost invariant = { λ a. (a.at < 2 ^ 62) × (a.size < 2 ^ 32) × (a.next < a.size) };

    ghost inverse = { λ p. record { at = p.at; size = p.size; next = p.next } };
}

impl Area {
    /// An area whose next record's gate is its first byte, as in one that was just made.
    pub fn empty(at: u64, size: u64) -> Area
        requires at { at < 2 ^ 62 }
        requires some { 0 < size }
        requires size { size < 2 ^ 32 }
        ensures { result ≡ record { at = at; size = size; next = 0 } }
    {
        Area { at, size, next: 0 }
    }

    // An area whose next record's gate stands at `next`.
    pub(crate) fn at_record(at: u64, size: u64, next: u64) -> Area
        requires at { at < 2 ^ 62 }
        requires inside { next < size }
        requires size { size < 2 ^ 32 }
        ensures { result ≡ record { at = at; size = size; next = next } }
    {
        Area { at, size, next }
    }

    /// Whether a body of so many bytes fits behind the records that are there.
    pub fn has_room(&self, len: u64) -> bool
        requires { len < 2 ^ 63 }
        ensures { IsTrue result ↔ (self.now.next + 6 + len ≤ self.now.size) }
    {
        self.next + 6 + len <= self.size
    }

    /// How many bytes the records take that are there.
    pub fn used(&self) -> u64
        ensures used { result ≡ self.now.next }
        ensures bound { result < 2 ^ 32 }
    {
        self.next
    }

    /// Appends a record: two writes and two syncs. `NoRoom` comes exactly when it doesn't fit, with the closed gate behind it, and makes
    /// no call of the device; after a `Fault` the record may be there or not. It takes no memory.
    pub fn append<D: Disk>(&mut self, disk: &mut D, added: &Record) -> Result<(), AppendError>
        requires within { self.old.at + self.old.size ≤ length (D.seen disk.old) }

        ensures no_room { IsErrOf result AppendError.NoRoom ↔ (self.old.size < self.old.next + 6 + length added.now) }
        ensures untouched { IsErrOf result AppendError.NoRoom → disk.new ≡ disk.old }
        ensures err { OnErr result (self.new ≡ self.old) }
        ensures place { OnOk result (self.new ≡ record self.old { next = self.old.next + 5 + length added.now }) }

        // Whatever bodies the area stood for: a crash at any moment leaves them with the new one or without.
        ensures any_moment { (bodies : List (List ℕ)) → D.unsynced disk.old ≡ []
            → Stands (D.seen disk.old) self.old bodies
            → LeavesOnly ⟦<D as Disk>⟧ (IsLeftByAppend (D.seen disk.old) self.old bodies added.now) disk.old disk.new }
        ensures done { OnOk result ((bodies : List (List ℕ)) → Stands (D.seen disk.old) self.old bodies
            → IsAppended (D.seen disk.old) self.old bodies added.now (D.seen disk.new) self.new) }
        ensures synced { OnOk result (D.unsynced disk.new ≡ []) }

        // Four calls of the device at most, good or not, and of these two syncs.
        ensures calls { length (D.past disk.new) ≤ length (D.past disk.old) + 4 }
        ensures every_call { calls_of ⟦<D as Disk>⟧ disk.new ≤ calls_of ⟦<D as Disk>⟧ disk.old + 4 }
        ensures syncs { syncs_of ⟦<D as Disk>⟧ disk.new ≤ syncs_of ⟦<D as Disk>⟧ disk.old + 2 }
        ensures only_written { HasOnlyWritten ⟦<D as Disk>⟧ disk.old disk.new }
        ensures faults { CountsFaultsAs ⟦<D as Disk>⟧ AppendError.Fault result disk.old disk.new }
    {
        let len = added.body_len();
        if !self.has_room(len) {
            return Err(AppendError::NoRoom);
        }
        write_gated(disk, self.at + self.next, added.behind_gate())?;
        self.next += 5 + len;
        Ok(())
    }
}
