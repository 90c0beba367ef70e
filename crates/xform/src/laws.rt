//! What holds of two deltas of one document, as contracts to cite: each function does nothing and promises one law.
ghost use Rattle.xform.specs.Laws.{BothWays, DefinedAfter, UnitsBeside, BothAtEachPlace, PlaceBetween};

/// One delta and then the other after it, in either order, is both at once.
pub fn both_ways()
    ensures { BothWays }
{}

/// What stands after a delta is long enough for another delta after it.
pub fn defined_after()
    ensures { DefinedAfter }
{}

/// How many units what is put beside at one place speaks of.
pub fn units_beside()
    ensures { UnitsBeside }
{}

/// Both deltas at once, place by place.
pub fn both_at_each_place()
    ensures { BothAtEachPlace }
{}

/// Where a place goes, told by the document.
pub fn place_between()
    ensures { PlaceBetween }
{}
