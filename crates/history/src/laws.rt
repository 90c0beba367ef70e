//! What holds of what the parts of a store stand for, as contracts of functions that do nothing.
ghost use Rattle.history.specs.Law.{AtMostOne, StandIsState, ShowingAgree, GrowsByDocuments, Recovers, Reopens, Begins, BeginsWith, ChangesCells, Frees, Puts, Commits, CoveredByGreatest, Retires, HeldIsCell, CellsStay, DocumentsReach, CellsReach, OneCellAt};
ghost use Rattle.history.specs.Reading.{ReadingBegins, ReadingGoesOn, ReadingEnds, ReadingFinds};

/// The parts of a store stand for one state at most, which is as all that grew from the empty one are.
pub fn stand()
    ensures one { AtMostOne }
    ensures state { StandIsState }
{}

/// States that show one history agree.
pub fn showing_agree()
    ensures { ShowingAgree }
{}

/// By either pick the parts of a running store stand for a state that agrees with the one in memory, and runs on over the same
/// history.
pub fn recovers()
    ensures found { Recovers }
    ensures again { Reopens }
{}

/// Commands that a state grows by continue each document, and what the state then has of it comes of the document's commands alone.
pub fn grows_by_documents()
    ensures { GrowsByDocuments }
{}

/// A store that is empty runs, and one whose documents stand each in its first cell; and a store runs on as a batch is committed, as a cell is closed or put, and as the oldest entries are
/// retired.
pub fn runs_on()
    ensures begin { Begins }
    ensures begin_with { BeginsWith }
    ensures commit { Commits }
    ensures cells { ChangesCells }
    ensures free { Frees }
    ensures put { Puts }
    ensures retire { Retires }
    ensures greatest { CoveredByGreatest }
{}

/// What a document has at a revision that it holds is a cell of it, and a cell of it stays one as the history continues. It reaches no
/// further than the document, which has one cell at a revision.
pub fn cells()
    ensures held { HeldIsCell }
    ensures stay { CellsStay }
    ensures reach { CellsReach }
    ensures one { OneCellAt }
{}

/// A document has reached the revision that it began with and one more for each of its commands.
pub fn documents()
    ensures { DocumentsReach }
{}

/// What the parts stand for is found document by document, and where a test fails on the way, or something is left behind the last
/// document, they stand for no state.
pub fn reading()
    ensures begin { ReadingBegins }
    ensures next { ReadingGoesOn }
    ensures end { ReadingEnds }
    ensures all { ReadingFinds }
{}
