//! Reading a store of the first format, and putting it on a new device.
ghost use Rattle.std.specs.Prelude.{◌≡◌, ◌⊎◌, ◌<◌, ◌^◌, [], length, Err, OnOk, IfOk, IfErr, ◌∷◌};
ghost use Rattle.refusal.specs.Refusal.{IsOneOf};
ghost use Rattle.disk.specs.Calls.{CountsFaultsAs};
ghost use Rattle.disk.specs.Crash.{history_of};
ghost use Rattle.milestone.specs.declared.format.Format.TheVariants.{One, Two};
ghost use Rattle.recovery.specs.Shape.{layout_length};
ghost use Rattle.recovery.specs.Layout.{IsFormatted};
ghost use Rattle.recovery.specs.Formatting.{Fits, IsBegunStore, IsOnlySynced};
ghost use Rattle.migration.specs.Brought.{OfStore, IsOldRead, IsMigratedFrom, ReadingIsRefused, IsMadeStore, MakesOrSpares, MakingIsRefused, IsBrought, BringingIsRefused};

use crate::cutting::cut_all;
use disk::Disk;
use milestone::Milestone;
use recovery::{OldStore, Shape, format_with, read_old};
use refusal::Refusal;
use std::alloc::Global;
use std::marker::Model;

/// What was read of a store of the first format: its shape, and its documents as the new store begins with them.
#[derive(Drop)]
pub struct Old {
    shape: Shape,
    start: Vec<Milestone>,
}

impl Model for Old {
    ghost use Rattle.std.specs.Prelude.{◌≡◌, true};
    ghost use Rattle.recovery.specs.Shape.{is_in_range};
    ghost use Rattle.recovery.specs.Formatting.{MayBegin};
    ghost use Rattle.migration.specs.Old as spec;

    ghost Value = { spec.Old };

    ghost view = { λ o. record { shape = o.shape; start = o.start.items } };

    ghost invariant = { λ o. (is_in_range o.shape ≡ true) × MayBegin o.shape o.start.items };
}

/// Brings the store of the first format on `old` over to `new`, whose superblock's gate has to be closed. The old device is synced and
/// read, and never written. In this order and before any write come `NotFormatted`, `NotOld` and `Damaged` of the old device, and
/// `BadShape` and `AlreadyFormatted` of the new one; `NoMemory` may come until the superblock's gate is opened, and leaves that gate closed.
pub fn migrate<A: Disk, B: Disk>(alloc: Global, old: &mut A, new: &mut B) -> Result<(), Refusal>
    // The old device is read alone.
    ensures old { IsOnlySynced (history_of ⟦<A as Disk>⟧ old.old) (history_of ⟦<A as Disk>⟧ old.new) }
    ensures synced_old { OnOk result (A.unsynced old.new ≡ []) }

    // The new one is a store of the old shape, which is found as the documents of the old one with their windows cut, and can be opened.
    ensures brought { OnOk result (IsBrought ⟦<A as Disk>⟧ ⟦<B as Disk>⟧ One
        (IsMigratedFrom ⟦<A as Disk>⟧ old.old old.new) old.old old.new new.old new.new) }
    // A crash at any moment leaves a device without a store without one, or with that one. A device with a store is left as it is.
    ensures any_moment { MakesOrSpares ⟦<B as Disk>⟧ (IsMigratedFrom ⟦<A as Disk>⟧ old.old old.new) new.old new.new }
    // Why nothing is brought over, and what is left: a device that is too short is refused.
    ensures refused { IfErr result (λ e. BringingIsRefused ⟦<A as Disk>⟧ ⟦<B as Disk>⟧ One Two Refusal.NotOld
        (OfStore ⟦<A as Disk>⟧ One (λ found _. ¬ Fits found (length (B.seen new.old))) old.old old.new)
        e old.old old.new new.old new.new) }
{
    let read = Old::read(alloc, old)?;
    read.put_on(alloc, new)
}

impl Old {
    /// Reads a device of the first format, and writes nothing.
    pub fn read<A: Disk>(alloc: Global, disk: &mut A) -> Result<Old, Refusal>
        ensures read { IfOk result (λ old. IsOldRead ⟦<A as Disk>⟧ old disk.old disk.new) }
        ensures refused { IfErr result (λ e. ReadingIsRefused ⟦<A as Disk>⟧ One Two Refusal.NotOld e disk.old disk.new) }
        ensures only { IfErr result (λ e. IsOneOf e
            (Refusal.NotFormatted ∷ Refusal.NotOld ∷ Refusal.Damaged ∷ Refusal.NoMemory ∷ Refusal.Fault ∷ [])) }
        ensures only_synced { IsOnlySynced (history_of ⟦<A as Disk>⟧ disk.old) (history_of ⟦<A as Disk>⟧ disk.new) }
        ensures honest { A.honest disk.new → A.honest disk.old }
        ensures faults { CountsFaultsAs ⟦<A as Disk>⟧ Refusal.Fault result disk.old disk.new }
    {
        let OldStore { shape, state } = read_old(alloc, disk)?;
        let start = cut_all(alloc, &state)?;
        Ok(Old { shape, start })
    }

    /// How many bytes the layout of the store has.
    pub fn device_len(&self) -> u64
        ensures len { result ≡ layout_length self.now.shape }
        ensures bound { result < 2 ^ 44 }
    {
        self.shape.device_len()
    }

    // Makes a device a store that begins with the documents.
    fn put_on<B: Disk>(&self, alloc: Global, disk: &mut B) -> Result<(), Refusal>
        ensures made { OnOk result (IsMadeStore ⟦<B as Disk>⟧ (IsBegunStore self.now.shape self.now.start) disk.old disk.new) }
        ensures formatted { B.honest disk.new → IsFormatted (B.seen disk.old)
            → (result ≡ Err Refusal.AlreadyFormatted) ⊎ (result ≡ Err Refusal.Fault) }
        ensures any_moment { MakesOrSpares ⟦<B as Disk>⟧ (IsBegunStore self.now.shape self.now.start) disk.old disk.new }
        ensures refused { IfErr result (λ e. MakingIsRefused ⟦<B as Disk>⟧
            (¬ Fits self.now.shape (length (B.seen disk.old))) e disk.old disk.new) }
        ensures only { IfErr result (λ e. IsOneOf e (Refusal.BadShape ∷ Refusal.AlreadyFormatted ∷ Refusal.NoMemory ∷ Refusal.Fault ∷ [])) }
        ensures honest { B.honest disk.new → B.honest disk.old }
        ensures faults { CountsFaultsAs ⟦<B as Disk>⟧ Refusal.Fault result disk.old disk.new }
    {
        format_with(alloc, disk, self.shape, self.start.as_slice())
    }
}
