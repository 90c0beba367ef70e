//! Laws of what a content represents, for the layers above. Each is a function that does nothing: its contract is the law,
//! and the proofs of the layers above cite it as proofs/CallerLemmas.antt has it.
ghost use Rattle.std.specs.Prelude.{◌≡◌, ℕ, true, List, [], ◌∷◌};
ghost use Rattle.revision.specs.Command.{Taken};
ghost use Rattle.revision.specs.State.{State, grows};
ghost use Rattle.revision.specs.Agree.{Agree};
ghost use Rattle.history.specs.declared.pick.Pick.{Pick};
ghost use Rattle.recovery.specs.Found.{Found, FoundAs, RunsWith};
ghost use Rattle.recovery.specs.Open.{FitsSlot, IsOpen, device_of, state_of};
ghost use Rattle.recovery.specs.declared.store.Store.{Store};
ghost use Rattle.recovery.specs.Laws as law;

use disk::Disk;
use disk::laws::Property;

/// By each pick a content is found as one state at most.
pub fn found_once()
    ensures { (content : List ℕ) (pick : Pick) (a b : State) → Found content pick a → Found content pick b → a ≡ b }
{}

/// The device under an open store is that of a store which runs with the state that is held.
pub fn found_open<D: Disk>()
    ensures { (store : Store D ⟦<D as Disk>⟧) → IsOpen store → RunsWith (D.seen (device_of store)) (state_of store) }
{}

/// The content of a store that runs with a state is found, by either pick, as one that agrees with that.
pub fn found_as()
    ensures { (content : List ℕ) (state : State) → RunsWith content state → FoundAs content state }
{}

/// Whichever state such a content is found as, it agrees with that one, and the store runs on with it.
pub fn found_again()
    ensures { (content : List ℕ) (state : State) (pick : Pick) (found : State) → FoundAs content state
        → Found content pick found
        → Agree found state × RunsWith content found }
{}

/// A command that continues a state fits a slot alone.
pub fn one_fits()
    ensures { (state : State) (taken : Taken) → grows state taken ≡ true → FitsSlot state (taken ∷ []) }
{}

/// A store that a call left unchanged is open still, and whatever a crash leaves under an open store is found as its state.
pub fn open_now<D: Disk>()
    ensures unchanged { law.OpenUnchanged ⟦<D as Disk>⟧ }
    ensures found { law.FoundNow ⟦<D as Disk>⟧ }
{}

/// What one call of a store keeps of contents, by the clauses that each of its calls has.
pub fn one_call_goes<D: Disk, A, P: Property>()
    ensures { law.OneCallGoes ⟦<D as Disk>⟧ A P.holds }
{}

/// What calls keep of contents, of none to many.
pub fn calls_go_on<D: Disk, P: Property>()
    ensures none { law.NoCallGoes ⟦<D as Disk>⟧ P.holds }
    ensures in_memory { law.CallInMemoryGoes ⟦<D as Disk>⟧ P.holds }
    ensures run { law.CallsGoOn ⟦<D as Disk>⟧ P.holds }
{}

/// Calls that keep a property of contents keep each property that follows from it.
pub fn going_implies<D: Disk, P: Property, Q: Property>()
    ensures { law.GoesMap ⟦<D as Disk>⟧ P.holds Q.holds }
{}
