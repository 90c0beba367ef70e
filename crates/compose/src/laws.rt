//! What holds of one delta for two and of the way back, as contracts to cite: each function does nothing and promises one law.
ghost use Rattle.compose.specs.Laws.{EffectOfComposed, ComposesByNormal, DefinedComposed, ComposesOnce, Undone, CutsOfUnits, CutsOfInserted};

/// One gap form for two has their effect.
pub fn effect_of_composed()
    ensures { EffectOfComposed }
{}

/// Its normal form composes the two.
pub fn composes_by_normal()
    ensures { ComposesByNormal }
{}

/// It is defined where the first, and then the second, is.
pub fn defined_composed()
    ensures { DefinedComposed }
{}

/// Nothing else composes them.
pub fn composes_once()
    ensures { ComposesOnce }
{}

/// A delta and its inverse leave a document unchanged.
pub fn undone()
    ensures { Undone }
{}

/// The test of units tells where a pair of a document is cut.
pub fn cuts_of_units()
    ensures { CutsOfUnits }
{}

/// The test of two gap forms tells where a pair that the first inserts is cut.
pub fn cuts_of_inserted()
    ensures { CutsOfInserted }
{}
