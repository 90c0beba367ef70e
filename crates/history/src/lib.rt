//! What the parts of a store stand for, as values: no device and no bytes.
//!
//! A store keeps entries of commands in the order in which they were taken, and for each document two cells, where each may hold
//! the document at a revision with its sources. Entries of documents stand mixed in that order, so nothing is said of the whole list:
//! what is said of a store is said number by number, of the one document's cells and entries (specs/Entries.antt, specs/Cell.antt).
//! A document is read from a cell on: entries up to its revision are passed over, and each other one continues what those before it
//! leave. What comes of all documents so is the state that the parts stand for, by a pick of the newer or the older cell
//! (specs/Found.antt).
//!
//! A store's history is what it began with, documents each at a revision, and the commands since in order. A document shows what its
//! history makes of it where it has that name and that past, from its floor on; how far back that is may differ (specs/Shown.antt). A
//! store runs while all its parts are of one history: the entries are its end, what went before them is covered by the open cells,
//! each cell is its document at a revision, and the state in memory shows it all (specs/Running.antt).
//!
//! `laws` promises of these: the parts stand for one state at most; a running store's parts stand by either pick for a state that
//! agrees with the one in memory, and runs on over the same history; and a store runs on as a batch is committed, a cell is closed or
//! put, and the oldest entries are retired. The crate stands on the rule of acceptance, `revision`.
//!
//! A caller, with its contract, which `test_revision` proves:
//!
//! ```text
//! ghost use Rattle.std.specs.Prelude.{List};
//! ghost use Rattle.revision.specs.Command.{Taken};
//! ghost use Rattle.revision.specs.State as spec;
//! ghost use Rattle.revision.specs.Agree.{Agree};
//! ghost use Rattle.history.specs.Cell.{Pair};
//! ghost use Rattle.history.specs.declared.pick.Pick as pick;
//! ghost use Rattle.history.specs.Found.{StandFor};
//! ghost use Rattle.history.specs.Shown.{Order};
//! ghost use Rattle.history.specs.Running.{Runs};
//!
//! use history::laws;
//!
//! /// Whichever cells the documents of a running store are read from, what is found agrees.
//! pub fn either_cell()
//!     ensures { (order : Order) (cells : List Pair) (entries : List Taken)
//!         (state one other : spec.State) (a b : pick.Pick)
//!         → Runs order cells entries state → StandFor state.limits cells entries a one
//!         → StandFor state.limits cells entries b other → Agree one other }
//! {
//!     laws::recovers();
//!     laws::showing_agree();
//! }
//! ```
#![tactic(auto)]

pub mod laws;
mod pick;

pub use pick::Pick;
