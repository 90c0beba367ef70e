//! What holds of published batches and of the order. Each function does nothing: its contract is the law.
ghost use Rattle.std.specs.Prelude.{◌≡◌, ◌≤◌, ◌++◌, ◌∷◌, [], List, length, true};
ghost use mathlib.Core.List.{IsPrefix};
ghost use Rattle.revision.specs.Command.{Taken};
ghost use Rattle.revision.specs.State.{State, fold, all_grow};
ghost use Rattle.recovery.specs.Found.{commands_of};
ghost use Rattle.world.specs.World.{Entry, takens};
ghost use Rattle.recovery.specs.Moment.{IsMomentOf, Moment};
ghost use Rattle.published.specs.Moments.{AreMoments};
ghost use Rattle.published.specs.Order.{IsLegal, WasTaken};

/// The commands of batches and of further ones are those of the first, and then those of the others.
pub fn commands_join()
    ensures join { (first others : List (List Taken))
        → commands_of (first ++ others) ≡ commands_of first ++ commands_of others }
    ensures one { (first : List (List Taken)) (batch : List Taken)
        → commands_of (first ++ batch ∷ []) ≡ commands_of first ++ batch }
{}

/// A list is a prefix of itself, and a prefix of its prefix is a prefix of it. Of two prefixes of one list the shorter begins the longer, and
/// one that is no shorter than the list is all of it.
pub fn beginnings()
    ensures itself { (batches : List (List Taken)) → IsPrefix batches batches }
    ensures through { (first more all : List (List Taken)) → IsPrefix first more → IsPrefix more all
        → IsPrefix first all }
    ensures shorter { (first more all : List (List Taken)) → IsPrefix first all → IsPrefix more all
        → length first ≤ length more → IsPrefix first more }
    ensures whole { (first all : List (List Taken)) → IsPrefix first all → length all ≤ length first → first ≡ all }
{}

/// A legal history stays one with a command more that the rule of acceptance takes, and commands that are a prefix of it continue its start.
pub fn histories()
    ensures more { (state : State) (entries : List Entry) (entry : Entry) → IsLegal state entries
        → WasTaken (fold state (takens entries)) entry → IsLegal state (entries ++ entry ∷ []) }
    ensures grow { (state : State) (commands : List Taken) (entries : List Entry) → IsLegal state entries
        → IsPrefix commands (takens entries) → all_grow state commands ≡ true }
{}

/// There are as many moments as batches. Those of the first batches are the first of them, and the last is of what all the batches make.
pub fn moments_of_batches()
    ensures long { (start : State) (batches : List (List Taken)) (moments : List Moment)
        → AreMoments start batches moments → length moments ≡ length batches }
    ensures first { (start : State) (first more : List (List Taken)) (moments : List Moment)
        → AreMoments start (first ++ more) moments
        → (here : List Moment) × (others : List Moment) × (here ++ others ≡ moments) × AreMoments start first here }
    ensures last { (start : State) (batches : List (List Taken)) (batch : List Taken) (moments : List Moment)
        → AreMoments start (batches ++ batch ∷ []) moments
        → (earlier : List Moment) × (moment : Moment) × (moments ≡ earlier ++ moment ∷ [])
        × IsMomentOf (fold start (commands_of (batches ++ batch ∷ []))) moment }
{}
