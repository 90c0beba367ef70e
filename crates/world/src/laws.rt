//! What holds of every schedule, as contracts of functions that do nothing.
ghost use Rattle.world.specs.Alike.{SameProgress, BatchGoesOn};
ghost use Rattle.world.specs.Following.{Follows};
ghost use Rattle.world.specs.Laws as law;
ghost use Rattle.world.specs.Law.{OverAll, OverAllFurther, AcksStay, AcksAreShown, TakenOnce, OneRevision, NothingTakenBack, TakenIsAgain, ShownStays, NothingRewritten, StateIsFold, StateAgrees};

/// Over every list of events, with crashes and commands sent again, from every state that a store may begin with: no
/// acknowledged edit is missing, none is taken twice, and none changes its revision. What was shown and acknowledged after some
/// events is a prefix of what is shown and acknowledged after any events more.
pub fn every_schedule()
    ensures acks_stay { OverAll AcksStay }
    ensures acks_are_shown { OverAll AcksAreShown }
    ensures taken_once { OverAll TakenOnce }
    ensures one_revision { OverAll OneRevision }
    ensures nothing_taken_back { OverAll NothingTakenBack }
    ensures taken_is_again { OverAll TakenIsAgain }
    ensures shown_stays { OverAll ShownStays }
    ensures nothing_rewritten { OverAllFurther NothingRewritten }
    ensures state_is_fold { OverAll StateIsFold }
    ensures state_agrees { OverAll StateAgrees }
{}

/// What a `Follower` comes to is what is followed of a world: of each schedule of one source's commands to one document, of a
/// store that begins without documents, it shows the order, the tickets, the acknowledgements and the lengths.
pub fn follower_follows()
    ensures { Follows }
{}

/// Progress that keeps of each command only what was taken of it moves as that of a world does.
pub fn same_progress()
    ensures { SameProgress }
{}

/// Folding a batch onto the state before it gives the state of the order with the batch. The law says nothing of crashes.
pub fn batch_goes_on()
    ensures { BatchGoesOn }
{}

/// What is kept from life to life (`specs/steps/Holding.antt`): it holds of a world that begins, and every event keeps it.
pub fn every_event_keeps()
    ensures begun { law.BegunHolds }
    ensures run { law.RunHolds }
{}

/// What follows for a world where that holds.
pub fn what_is_kept()
    ensures acks_stay { law.HoldsSo AcksStay }
    ensures taken_once { law.HoldsSo TakenOnce }
    ensures one_revision { law.HoldsSo OneRevision }
    ensures nothing_taken_back { law.HoldsSo NothingTakenBack }
    ensures taken_is_again { law.HoldsSo TakenIsAgain }
    ensures state_is_fold { law.HoldsSo StateIsFold }
{}

/// What commands in order show, and what a prefix of an order keeps of it.
pub fn order_shown()
    ensures fold { law.ShownFold }
    ensures joined { law.FoldJoined }
    ensures placed { law.FirstPlaced }
    ensures stands { law.FirstStand }
{}
