//! What follows from the definitions of a table, as contracts of functions that do nothing. The laws stand in
//! specs/Laws.antt, and the proofs of the layers above cite them as proofs/CallerLemmas.antt has them.
ghost use Rattle.segments.specs.Laws as law;

/// A content holds one table at most.
pub fn one_table()
    ensures { law.OneTable }
{}

/// What the calls of a ring do to the list of all bodies: opening a slot keeps it, an append adds one at its end, and
/// retiring a segment takes a prefix of it away.
pub fn bodies_in_order()
    ensures opened { law.OpenedBodies }
    ensures appended { law.AppendedBodies }
    ensures retired { law.RetiredBodies }
{}

/// Open slots have different numbers where one more is opened.
pub fn opened_differs()
    ensures { law.OpenedDiffers }
{}

/// A body finds no room exactly when it doesn't fit the newest segment and no slot is free.
pub fn full_ring()
    ensures { law.FullRing }
{}
