//! What holds of cells, as contracts of functions that do nothing.
ghost use Rattle.milestone.specs.Law.{FitsItsCell, LightContent, OnePair, AgreeWithin, PastsKeepLengths};
ghost use Rattle.milestone.specs.Together.{ReadyWithin};

/// What has a spelling as a cell and keeps the limits fits a cell that has 128 bytes more than a document may weigh.
pub fn fits()
    ensures { FitsItsCell }
{}

/// The spelling of a document's content has at most twice as many bytes as it weighs, and four.
pub fn light_content()
    ensures { LightContent }
{}

/// A content holds one pair of cells at most at a place.
pub fn one_pair()
    ensures { OnePair }
{}

/// Contents that agree within the range of two cells hold the same pair there.
pub fn agree_within()
    ensures { AgreeWithin }
{}

/// Where contents agree within the range of two cells the same stands behind the closed gate.
pub fn ready_within()
    ensures { ReadyWithin }
{}

/// What a revision of a past that keeps the limits is made of has lengths that sum to at most 2^48.
pub fn job_lengths()
    ensures { PastsKeepLengths }
{}
