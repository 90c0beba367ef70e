//! What follows where a command stands in a state. Each is a function that does nothing: its contract is the law.
ghost use Rattle.hub_desk.specs.Laws.{IsNotTakenAgain, PlacedStands, StandsLater, StandsAlike, WasTakenAmong, ToldKept, FoundKept, RefusedByBoard, AcknowledgedStand};

/// A command that stands in a state and is sent again isn't taken: it is a retry with its revision, or its number is old.
pub fn sent_again()
    ensures { IsNotTakenAgain }
{}

/// Where the order of its ticket is published, a command stands in what is published.
pub fn placed_stands()
    ensures { PlacedStands }
{}

/// It stands in each later state, and in each that agrees: so also in what a crash leaves of the batches that made the state and of
/// further ones.
pub fn stands_on()
    ensures later { StandsLater }
    ensures alike { StandsAlike }
{}

/// Where it stands after commands, and the state before them hadn't its number, one of them is this command.
pub fn taken_among()
    ensures { WasTakenAmong }
{}

/// A desk forgets nothing of what its commands found of the order. What it refuses by that a board of the run refused.
pub fn found_kept()
    ensures kept { FoundKept }
    ensures refused { RefusedByBoard }
{}

/// A desk forgets nothing that it was told of. All that it acknowledged stands in what those batches make, and in what further ones make
/// of that.
pub fn acknowledged_stand()
    ensures told { ToldKept }
    ensures stand { AcknowledgedStand }
{}
