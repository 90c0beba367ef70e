//! What holds of operations, counted out and in normal form, as contracts to cite: each function does nothing and promises one law.
ghost use Rattle.delta.specs.Laws.{CountedOfAppend, JoinedThrice, UnitsCounted, BuiltIsKept, NormalIsKept, CountedOfSpelled, SpelledIsBuilt, NormalIsNormal, BuiltInPieces, BuiltFromPieces, NormalOfBuilt, EffectOfParts, EffectOfNothing, EffectPastEnd, EffectOfText, EffectOfEmbed, EffectOfRetain, EffectOfDelete, EffectOfSettled, EffectOfTrimmed, EffectOfBuilt, EffectOfNormal, SameForm, SameEffect, SameEffectFrom, NormalOfSameEffect, LengthsOfBuilt, LengthsOfNormal, BaseOfNormal, BoundOfBuilt, BoundOfNormal, LengthOfEffect};
ghost use Rattle.delta.specs.GapLaws.{FrontOfNothing, FrontTwice, RunInParts, JoinedToFront, JoinedToRun, JoinedToNothing, EffectOfFront, ChangedByNothing, SettledTwice, SettledOfFront, PastOfFront, SettledInPieces, SettledFromPieces, TrimmedOfKept, NormalOfPlain, UnitsOfFront, UnitsOfRun, UnitsOfSettled, MadeByCounted, MadeBySettled, BaseOfAppend, OutOfAppend, BaseOfSpelled, OutOfSpelled};
ghost use Rattle.delta.specs.PartLaws.{LeftWithin, LeftBeyond, LeftOfWhole, LeftBeforeMore, FirstOfWhole, CountedInParts, LengthOfFirst, LengthOfLast, BaseInParts, CountOfLeft, CountOfWhole, NormalOfLeft, LeftIsFilled, NormalOfRest, NormalIsFilled, NormalInParts, BuiltInParts, LeadOfText, LeadOfRetain};

/// Counting out of an append.
pub fn counted_of_append()
    ensures { CountedOfAppend }
{}

/// Three gap forms one after another, in either grouping.
pub fn joined_thrice()
    ensures { JoinedThrice }
{}

/// The base length, counted out.
pub fn units_counted()
    ensures { UnitsCounted }
{}

/// A merged and ordered list is its own built form.
pub fn built_is_kept()
    ensures { BuiltIsKept }
{}

/// A list in normal form is the normal form of its own counting out.
pub fn normal_is_kept()
    ensures { NormalIsKept }
{}

/// The spelling of a gap form, counted out.
pub fn counted_of_spelled()
    ensures { CountedOfSpelled }
{}

/// The spelling of a settled gap form is merged and in order.
pub fn spelled_is_built()
    ensures { SpelledIsBuilt }
{}

/// The normal form of a gap form is in normal form.
pub fn normal_is_normal()
    ensures { NormalIsNormal }
{}

/// What is kept of the first operations represents them, whatever comes after.
pub fn built_in_pieces()
    ensures { BuiltInPieces }
{}

/// What is kept of the last operations represents them, whatever came before.
pub fn built_from_pieces()
    ensures { BuiltFromPieces }
{}

/// The normal form of what is kept is that of all that was given.
pub fn normal_of_built()
    ensures { NormalOfBuilt }
{}

/// The effect of operations one after another, on the parts of a document.
pub fn effect_of_parts()
    ensures { EffectOfParts }
{}

/// No operation does nothing.
pub fn effect_of_nothing()
    ensures { EffectOfNothing }
{}

/// What stands after the base length stays.
pub fn effect_past_end()
    ensures { EffectPastEnd }
{}

/// An inserted text stands before the rest.
pub fn effect_of_text()
    ensures { EffectOfText }
{}

/// An inserted embed stands before the rest.
pub fn effect_of_embed()
    ensures { EffectOfEmbed }
{}

/// Retained units are kept, with the change of their attributes.
pub fn effect_of_retain()
    ensures { EffectOfRetain }
{}

/// Deleted units are left out.
pub fn effect_of_delete()
    ensures { EffectOfDelete }
{}

/// Settling leaves the effect on any document.
pub fn effect_of_settled()
    ensures { EffectOfSettled }
{}

/// Trimming leaves the effect on any document.
pub fn effect_of_trimmed()
    ensures { EffectOfTrimmed }
{}

/// The built form has the effect of the operations.
pub fn effect_of_built()
    ensures { EffectOfBuilt }
{}

/// The normal form has the effect of its gap form.
pub fn effect_of_normal()
    ensures { EffectOfNormal }
{}

/// Lists in normal form of one settled and trimmed gap form are equal.
pub fn same_form()
    ensures { SameForm }
{}

/// Lists in normal form with the same effect on each document that is long enough are equal.
pub fn same_effect()
    ensures { SameEffect }
{}

/// Lists in normal form with the same effect on each document of some length or more are equal.
pub fn same_effect_from()
    ensures { SameEffectFrom }
{}

/// Lists have the same effect exactly where they have one normal form.
pub fn normal_of_same_effect()
    ensures { NormalOfSameEffect }
{}

/// The lengths of the built form.
pub fn lengths_of_built()
    ensures { LengthsOfBuilt }
{}

/// The lengths of the normal form.
pub fn lengths_of_normal()
    ensures { LengthsOfNormal }
{}

/// The base length of the normal form of a gap form.
pub fn base_of_normal()
    ensures { BaseOfNormal }
{}

/// The built form stays within the bound of 2^48 units.
pub fn bound_of_built()
    ensures { BoundOfBuilt }
{}

/// The normal form stays within the bound of 2^48 units.
pub fn bound_of_normal()
    ensures { BoundOfNormal }
{}

/// The length of a document after operations.
pub fn length_of_effect()
    ensures { LengthOfEffect }
{}

/// What stands before a gap form, and gap forms that are joined.
pub fn gap_forms()
    ensures front_of_nothing { FrontOfNothing }
    ensures front_twice { FrontTwice }
    ensures run_in_parts { RunInParts }
    ensures joined_to_front { JoinedToFront }
    ensures joined_to_run { JoinedToRun }
    ensures joined_to_nothing { JoinedToNothing }
    ensures effect_of_front { EffectOfFront }
    ensures changed_by_nothing { ChangedByNothing }
{}

/// What settles and what is trimmed.
pub fn settling()
    ensures settled_twice { SettledTwice }
    ensures settled_of_front { SettledOfFront }
    ensures past_of_front { PastOfFront }
    ensures settled_in_pieces { SettledInPieces }
    ensures settled_from_pieces { SettledFromPieces }
    ensures trimmed_of_kept { TrimmedOfKept }
    ensures normal_of_plain { NormalOfPlain }
{}

/// How many units gap forms and operations speak of and make.
pub fn lengths()
    ensures units_of_front { UnitsOfFront }
    ensures units_of_run { UnitsOfRun }
    ensures units_of_settled { UnitsOfSettled }
    ensures made_by_counted { MadeByCounted }
    ensures made_by_settled { MadeBySettled }
    ensures base_of_append { BaseOfAppend }
    ensures out_of_append { OutOfAppend }
    ensures base_of_spelled { BaseOfSpelled }
    ensures out_of_spelled { OutOfSpelled }
{}

/// An operation in two parts, and what is left of the operations behind the first.
pub fn operations_in_parts()
    ensures left_within { LeftWithin }
    ensures left_beyond { LeftBeyond }
    ensures left_of_whole { LeftOfWhole }
    ensures left_before_more { LeftBeforeMore }
    ensures first_of_whole { FirstOfWhole }
    ensures counted_in_parts { CountedInParts }
    ensures length_of_first { LengthOfFirst }
    ensures length_of_last { LengthOfLast }
    ensures base_in_parts { BaseInParts }
    ensures count_of_left { CountOfLeft }
    ensures count_of_whole { CountOfWhole }
    ensures normal_of_left { NormalOfLeft }
    ensures left_is_filled { LeftIsFilled }
{}

/// The first of operations in normal form, and the others.
pub fn normal_lists()
    ensures normal_of_rest { NormalOfRest }
    ensures normal_is_filled { NormalIsFilled }
    ensures normal_in_parts { NormalInParts }
    ensures built_in_parts { BuiltInParts }
    ensures lead_of_text { LeadOfText }
    ensures lead_of_retain { LeadOfRetain }
{}
