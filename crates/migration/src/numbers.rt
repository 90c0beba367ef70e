//! The numbers of a store that is there.
ghost use Rattle.std.specs.Prelude.{◌≡◌, ◌↔◌, ◌+◌, ◌≤◌, true, IsTrue, length, take, drop, IfOk, IfErr, IsErrOf, [], ◌∷◌};
ghost use Rattle.refusal.specs.Refusal.{IsOneOf};
ghost use Rattle.std.specs.Int.{w32, from_le_bytes};
ghost use Rattle.disk.specs.Crash.{history_of};
ghost use Rattle.disk.specs.Device.{Rose};
ghost use Rattle.history.specs.declared.pick.Pick.TheVariants.{Newer};
ghost use Rattle.revision.specs.State.{State as StateValue};
ghost use Rattle.recovery.specs.declared.shape.Shape.{Shape as ShapeValue};
ghost use Rattle.recovery.specs.Shape.{is_in_range, superblock};
ghost use Rattle.recovery.specs.Layout.{IsFormatted, IsOldFormat};
ghost use Rattle.recovery.specs.Found.{Found};
ghost use Rattle.recovery.specs.Formatting.{IsOnlySynced};
ghost use Rattle.migration.specs.Copied.{HasRoomFor};

use disk::Disk;
use recovery::{OpenFault, Pick, Shape, Store};
use refusal::Refusal;
use std::alloc::Global;

/// How many bytes stand behind the superblock's gate: the letters, and the six numbers.
const BODY_LEN: usize = 32;

/// A device that comes back, and beside it the numbers of the store on it.
#[derive(Debug, Drop)]
pub struct Numbered<A> {
    pub device: A,
    pub shape: Result<Shape, Refusal>,
}

/// The numbers of the store on a device, which is synced and read, and never written. The refusals are those of `Store::open`.
pub fn shape_of<A: Disk>(alloc: Global, device: A) -> Numbered<A>
    ensures shape { IfOk result.shape (λ shape. A.honest result.device → (state : StateValue)
        → (is : Found (A.seen device) Newer state) → is.shape ≡ shape) }
    ensures only_synced { IsOnlySynced (history_of ⟦<A as Disk>⟧ device) (history_of ⟦<A as Disk>⟧ result.device) }
    ensures not_formatted { IsErrOf result.shape Refusal.NotFormatted → A.honest result.device → ¬ IsFormatted (A.seen device) }
    ensures old_format { IsErrOf result.shape Refusal.OldFormat → A.honest result.device → IsOldFormat (A.seen device) }
    ensures damaged { IsErrOf result.shape Refusal.Damaged → A.honest result.device → IsFormatted (A.seen device)
        × ¬ IsOldFormat (A.seen device) × ((found : StateValue) → ¬ Found (A.seen device) Newer found) }
    ensures failed { IsErrOf result.shape Refusal.Fault → Rose (A.faults device) (A.faults result.device) }
    ensures only { IfErr result.shape (λ e. IsOneOf e
        (Refusal.NotFormatted ∷ Refusal.OldFormat ∷ Refusal.Damaged ∷ Refusal.NoMemory ∷ Refusal.Fault ∷ [])) }
{
    match Store::open(alloc, device, Pick::Newer) {
        Ok(store) => read_numbers(store),
        Err(OpenFault { disk, refusal }) => Numbered {
            device: disk,
            shape: Err(refusal),
        },
    }
}

// Closes a store, and reads the numbers that stand behind the gate of its superblock.
fn read_numbers<A: Disk>(store: Store<A>) -> Numbered<A>
    ensures shape { IfOk result.shape (λ shape. A.honest result.device → (other : ShapeValue) → is_in_range other ≡ true
        → take 32 (drop 1 (A.seen store.device)) ≡ superblock other → shape ≡ other) }
    ensures seen { A.seen result.device ≡ A.seen store.device }
    ensures unsynced { A.unsynced result.device ≡ A.unsynced store.device }
    ensures past { A.past result.device ≡ A.past store.device }
    ensures honest { A.honest result.device → A.honest store.device }
    ensures failed { IsErrOf result.shape Refusal.Fault → Rose (A.faults store.device) (A.faults result.device) }
    ensures only { IfErr result.shape (λ e. e ≡ Refusal.Fault) }
{
    let mut device = store.close();
    let mut body = [0u8; BODY_LEN];
    let shape = match device.read(1, &mut body) {
        Ok(()) => Ok(numbers_in(&body)),
        Err(fault) => Err(Refusal::from(fault)),
    };
    Numbered { device, shape }
}

// The numbers that stand behind the gate of a superblock.
fn numbers_in(bytes: &[u8]) -> Shape
    requires { length bytes.now ≡ 32 }
    ensures { (other : ShapeValue) → is_in_range other ≡ true → bytes.now ≡ superblock other → result ≡ other }
{
    Shape {
        slots: number_at(bytes, 8),
        slot: number_at(bytes, 12),
        docs: number_at(bytes, 16),
        cell: number_at(bytes, 20),
        sources: number_at(bytes, 24),
        keep: number_at(bytes, 28),
    }
}

fn number_at(bytes: &[u8], at: usize) -> u32
    requires { at + 4 ≤ length bytes.now }
    ensures { result ≡ from_le_bytes w32 (take 4 (drop at bytes.now)) }
{
    u32::from_le_bytes([bytes[at], bytes[at + 1], bytes[at + 2], bytes[at + 3]])
}

/// Whether a store of these numbers may hold whatever one of the old numbers holds: it has no fewer documents, bytes of a cell and sources.
pub fn has_room_for(old: &Shape, shape: &Shape) -> bool
    ensures { IsTrue result ↔ HasRoomFor old.now shape.now }
{
    old.docs <= shape.docs && old.cell <= shape.cell && old.sources <= shape.sources
}
