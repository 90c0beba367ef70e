//! Reading a store, and putting it on a new device with other numbers.
ghost use Rattle.std.specs.Prelude.{◌≡◌, ◌↔◌, ◌<◌, ◌^◌, [], true, length, IsTrue, OnOk, IfErr, ◌∷◌};
ghost use Rattle.refusal.specs.Refusal.{IsOneOf};
ghost use Rattle.disk.specs.Calls.{CountsFaultsAs};
ghost use Rattle.disk.specs.Crash.{history_of};
ghost use Rattle.milestone.specs.declared.format.Format.TheVariants.{One, Two};
ghost use Rattle.recovery.specs.declared.shape.Shape.{Shape as ShapeValue};
ghost use Rattle.recovery.specs.Shape.{is_in_range};
ghost use Rattle.recovery.specs.Found.{limits_of};
ghost use Rattle.recovery.specs.Formatting.{Fits, IsOnlySynced};
ghost use Rattle.migration.specs.Brought.{OfStore, IsCopiedFrom, IsMadeStore, MakesOrSpares, MakingIsRefused, IsBrought, BringingIsRefused};
ghost use Rattle.migration.specs.Copied.{HasRoom, Suits, IsCopied};

use crate::whole::copy_all;
use disk::Disk;
use recovery::{OpenFault, Pick, Shape, Store, format_with};
use refusal::Refusal;
use revision::{Limits, State};
use std::alloc::Global;

/// What became of a copy: the old device comes back, and beside it stands whether the new store is made.
#[derive(Debug, Drop)]
pub struct CopyOutcome<A> {
    pub old: A,
    pub made: Result<(), Refusal>,
}

/// Numbers that no store has. A device is refused with them before it is written: as formatted already, or for its numbers.
const NO_SHAPE: Shape = Shape {
    slots: 0,
    slot: 0,
    docs: 0,
    cell: 0,
    sources: 0,
    keep: 0,
};

/// Makes `new` a store of this shape with the documents of the store on `old`, each with its number, its name, and its newest revision, live or
/// deleted, and with the whole windows of its sources. The old device is synced and read, and never written; it comes back. In this order and
/// before any write come the refusals of `Store::open` for the old device, and `AlreadyFormatted` and `BadShape` for the new one, the latter
/// also where the shape has fewer documents, bytes of a cell or sources than the old one. `NoMemory` may come until the superblock's gate is
/// opened, and leaves that gate closed.
pub fn copy<A: Disk, B: Disk>(alloc: Global, old: A, new: &mut B, shape: Shape) -> CopyOutcome<A>
    // The old device is read alone.
    ensures old { IsOnlySynced (history_of ⟦<A as Disk>⟧ old) (history_of ⟦<A as Disk>⟧ result.old) }

    // The new one is a store of this shape, which is found as the documents of the old one, and can be opened.
    ensures brought { OnOk result.made (IsBrought ⟦<A as Disk>⟧ ⟦<B as Disk>⟧ Two
        (IsCopiedFrom ⟦<A as Disk>⟧ shape old result.old) old result.old new.old new.new) }
    ensures suits { OnOk result.made (OfStore ⟦<A as Disk>⟧ Two
        (λ found _. Suits found shape (length (B.seen new.old))) old result.old) }
    // A crash at any moment leaves a device without a store without one, or with that one. A device with a store is left as it is.
    ensures any_moment { MakesOrSpares ⟦<B as Disk>⟧ (IsCopiedFrom ⟦<A as Disk>⟧ shape old result.old) new.old new.new }
    // Why nothing is copied, and what is left: a device that is too short is refused, and a shape that is too small.
    ensures refused { IfErr result.made (λ e. BringingIsRefused ⟦<A as Disk>⟧ ⟦<B as Disk>⟧ Two One Refusal.OldFormat
        (OfStore ⟦<A as Disk>⟧ Two (λ found _. ¬ Suits found shape (length (B.seen new.old))) old result.old)
        e old result.old new.old new.new) }
{
    match Store::open(alloc, old, Pick::Newer) {
        Ok(store) => {
            let made = begin_with(alloc, store.state(), new, shape);
            CopyOutcome {
                old: store.close(),
                made,
            }
        }
        Err(OpenFault { disk, refusal }) => CopyOutcome {
            old: disk,
            made: Err(refusal),
        },
    }
}

// Makes a device a store of this shape that begins with the documents of a state.
fn begin_with<B: Disk>(
    alloc: Global,
    state: &State,
    disk: &mut B,
    shape: Shape,
) -> Result<(), Refusal>
    requires { (old : ShapeValue) × (is_in_range old ≡ true) × (state.now.limits ≡ limits_of old) }
    ensures made { OnOk result (IsMadeStore ⟦<B as Disk>⟧ (IsCopied shape state.now) disk.old disk.new) }
    ensures suits { OnOk result (Fits shape (length (B.seen disk.old)) × HasRoom state.now.limits shape) }
    ensures any_moment { MakesOrSpares ⟦<B as Disk>⟧ (IsCopied shape state.now) disk.old disk.new }
    ensures refused { IfErr result (λ e. MakingIsRefused ⟦<B as Disk>⟧
        (Fits shape (length (B.seen disk.old)) → ¬ HasRoom state.now.limits shape) e disk.old disk.new) }
    ensures only { IfErr result (λ e. IsOneOf e (Refusal.BadShape ∷ Refusal.AlreadyFormatted ∷ Refusal.NoMemory ∷ Refusal.Fault ∷ [])) }
    ensures faults { CountsFaultsAs ⟦<B as Disk>⟧ Refusal.Fault result disk.old disk.new }
{
    let documents = copy_all(alloc, state)?;
    if has_room(state.limits(), &shape) {
        format_with(alloc, disk, shape, documents.as_slice())
    } else {
        format_with(alloc, disk, NO_SHAPE, documents.as_slice())
    }
}

fn has_room(limits: Limits, shape: &Shape) -> bool
    requires { limits.weight < 2 ^ 30 }
    ensures { IsTrue result ↔ HasRoom limits shape.now }
{
    limits.docs() <= shape.docs
        && limits.weight() + 128 <= shape.cell
        && limits.sources() <= shape.sources
}
