//! What holds of code units, as contracts to cite: each function does nothing and promises one law.
ghost use Rattle.utf16.specs.Laws.{UnitsOfAppend, UnitsOfSplit, TextOfUnits, SameUnits, PairOfCharacter};

/// Code units of an append.
pub fn units_of_append()
    ensures { UnitsOfAppend }
{}

/// Code units of the two halves of a text.
pub fn units_of_split()
    ensures { UnitsOfSplit }
{}

/// The text of its own code units.
pub fn text_of_units()
    ensures { TextOfUnits }
{}

/// Texts of the same code units.
pub fn same_units()
    ensures { SameUnits }
{}

/// The two units of a character above U+FFFF.
pub fn pair_of_character()
    ensures { PairOfCharacter }
{}
