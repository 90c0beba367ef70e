//! What holds of documents and deltas, as contracts to cite: each function does nothing and promises one law.
ghost use Rattle.document.specs.Laws.{StaysWellFormed, EffectAlone, LengthAfter};

/// A document stays well formed where no pair is cut and each insertion is well formed.
pub fn stays_well_formed()
    ensures { StaysWellFormed }
{}

/// A document after a delta depends on the delta's effect alone.
pub fn effect_alone()
    ensures { EffectAlone }
{}

/// The length of a document after a delta.
pub fn length_after()
    ensures { LengthAfter }
{}
