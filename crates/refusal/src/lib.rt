//! The refusals of richd: one number and one name for each reason why a request or a call is turned away.
//!
//! The numbers and the names are part of the messages that clients read, so they never change their
//! meaning. The crate stands on nothing; every layer that refuses something names it by this type.
//!
//! A caller, with its contract, which is proved as it stands:
//!
//! ```text
//! ghost use Rattle.std.specs.Prelude.{◌≡◌, ◌≤◌, ◌<◌, ◌⊎◌, ◌++◌, ◌∷◌, [], Err, length, IfOk, IfErr};
//! ghost use Rattle.std.specs.String.{string_bytes};
//!
//! use refusal::Refusal;
//! use std::alloc::Global;
//!
//! /// The text with a line end, refused where it is too long for a line.
//! pub fn line_of(alloc: Global, text: &str) -> Result<String, Refusal>
//!     ensures ok { IfOk result (λ line. string_bytes line ≡ text.now ++ 10 ∷ []) }
//!     ensures short { IfOk result (λ _. length text.now ≤ 65536) }
//!     ensures too_long { result ≡ Err Refusal.LineTooLong → 65536 < length text.now }
//!     ensures only { IfErr result (λ e. (e ≡ Refusal.LineTooLong) ⊎ (e ≡ Refusal.NoMemory)) }
//! {
//!     if text.len() > 65_536 {
//!         return Err(Refusal::LineTooLong);
//!     }
//!     let mut line = String::from_str(alloc, text)?;
//!     line.push('\n')?;
//!     Ok(line)
//! }
//! ```
#![tactic(auto)]

ghost use Rattle.std.specs.Prelude.{◌≡◌};
ghost use Rattle.refusal.specs.Refusal.{number_of, name_of};
ghost use Rattle.refusal.specs.declared.Refusal.TheVariants.{NoMemory};

use std::alloc::{AllocError, AllocFailed};
use std::fmt::{self, Display, Formatter};
use thiserror::Error;

/// Why a request or a call was turned away. It prints as `error 7 Exists`.
#[derive(Clone, Copy, Debug, PartialEq, Eq, Error)]
pub enum Refusal {
    /// The line is not one JSON text.
    BadLine = 1,
    /// Not an object with a known `do` and just its members.
    BadMessage = 2,
    /// An operation is none, or a delta would pass its bound.
    BadOps = 3,
    /// More than 1,024 operations.
    TooManyOps = 4,
    /// A message came before hello.
    NoHello = 5,
    /// There is no such document.
    NoDocument = 6,
    /// The document is there already.
    Exists = 7,
    /// A name of a document or a source is none.
    BadName = 8,
    /// The number is not the next one.
    Gap = 9,
    /// The number is below those of the source's window.
    OldNumber = 10,
    /// The document has as many sources as it may have.
    TooManySources = 11,
    /// The revision has not been reached.
    Future = 12,
    /// The revision lies below the floor.
    TooOld = 13,
    /// The delta reaches past the document's end.
    PastEnd = 14,
    /// The delta parts a surrogate pair.
    CutsPair = 15,
    /// The document would weigh more than it may.
    TooHeavy = 16,
    /// The journal's entry would be wider than it may be.
    TooWide = 17,
    /// The document has its last revision.
    RevisionsSpent = 18,
    /// The source has taken nothing that could be undone.
    NothingToUndo = 19,
    /// The store has as many documents as it may have.
    TooManyDocuments = 20,
    /// The store has failed; it has to be opened again.
    StoreFailed = 21,
    /// Memory ran out.
    NoMemory = 22,
    /// The line has more than 65,536 bytes.
    LineTooLong = 23,
    /// There is no seat left for a session.
    NoSeat = 24,
    /// The device holds no store.
    NotFormatted = 30,
    /// The device holds a store already.
    AlreadyFormatted = 31,
    /// The device's bytes represent no state.
    Damaged = 32,
    /// A number of the shape is out of range, or the device is too short.
    BadShape = 33,
    /// A call of the device failed.
    Fault = 34,
    /// The oldest segment is still needed.
    StillNeeded = 35,
    /// What was given does not continue what is there.
    Stranger = 36,
    /// The journal has no room.
    JournalFull = 37,
    /// The device has the first format, which has to be migrated.
    OldFormat = 38,
    /// The device has the second format already.
    NotOld = 39,
    /// The document is deleted.
    Deleted = 40,
}

impl Refusal {
    /// The number, 1 to 40.
    pub fn number(self) -> u8
        ensures { result ≡ number_of self }
    {
        self as u8
    }

    /// The refusal of one who knows that memory alone was wanting, as the error of just that.
    pub fn as_alloc_error(self) -> AllocError
        requires { self ≡ NoMemory }
    {
        AllocError
    }

    /// The name, as it is printed.
    pub fn name(self) -> &'static str
        ensures { result.now ≡ name_of self }
    {
        match self {
            Refusal::BadLine => "BadLine",
            Refusal::BadMessage => "BadMessage",
            Refusal::BadOps => "BadOps",
            Refusal::TooManyOps => "TooManyOps",
            Refusal::NoHello => "NoHello",
            Refusal::NoDocument => "NoDocument",
            Refusal::Exists => "Exists",
            Refusal::BadName => "BadName",
            Refusal::Gap => "Gap",
            Refusal::OldNumber => "OldNumber",
            Refusal::TooManySources => "TooManySources",
            Refusal::Future => "Future",
            Refusal::TooOld => "TooOld",
            Refusal::PastEnd => "PastEnd",
            Refusal::CutsPair => "CutsPair",
            Refusal::TooHeavy => "TooHeavy",
            Refusal::TooWide => "TooWide",
            Refusal::RevisionsSpent => "RevisionsSpent",
            Refusal::NothingToUndo => "NothingToUndo",
            Refusal::TooManyDocuments => "TooManyDocuments",
            Refusal::StoreFailed => "StoreFailed",
            Refusal::NoMemory => "NoMemory",
            Refusal::LineTooLong => "LineTooLong",
            Refusal::NoSeat => "NoSeat",
            Refusal::NotFormatted => "NotFormatted",
            Refusal::AlreadyFormatted => "AlreadyFormatted",
            Refusal::Damaged => "Damaged",
            Refusal::BadShape => "BadShape",
            Refusal::Fault => "Fault",
            Refusal::StillNeeded => "StillNeeded",
            Refusal::Stranger => "Stranger",
            Refusal::JournalFull => "JournalFull",
            Refusal::OldFormat => "OldFormat",
            Refusal::NotOld => "NotOld",
            Refusal::Deleted => "Deleted",
        }
    }
}

impl Display for Refusal {
    ghost use Rattle.std.specs.Prelude.{Some};
    ghost use Rattle.refusal.specs.Refusal.{text_of};

    ghost output = { λ refusal. Some (text_of refusal) };

    fn fmt<W: fmt::Write>(&self, f: &mut Formatter<W>) -> fmt::Result {
        let number = self.number();
        let name = self.name();
        write!(f, "error {number} {name}")
    }
}

impl From<AllocError> for Refusal {
    ghost from_gives = { λ _ e. e ≡ NoMemory };

    fn from(_: AllocError) -> Self {
        Refusal::NoMemory
    }
}

impl<T: Drop> From<AllocFailed<T>> for Refusal {
    ghost from_gives = { λ _ e. e ≡ NoMemory };

    fn from(_: AllocFailed<T>) -> Self {
        Refusal::NoMemory
    }
}
