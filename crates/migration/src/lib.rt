//! Bringing a store of the first format over to the second, and copying a store to one with other numbers.
//!
//! The old device is read, and never written. Each of its documents becomes a milestone at its newest revision, and the new device is
//! formatted with these. A store of the first format has the last number of each source alone (specs/Migrated.antt); of one of the second
//! format the whole windows are kept, and the mark of each document (specs/Copied.antt). To the program the crate promises when each refusal
//! comes, and that from the first sync of the new device on a stop at any moment leaves that device without a store, or with one that has
//! the documents of the old one and can be opened (specs/Brought.antt). It stands on `recovery`.
#![tactic(auto)]

mod copying;
mod cutting;
mod migrating;
mod numbers;
mod whole;

pub use copying::{CopyOutcome, copy};
pub use migrating::{Old, migrate};
pub use numbers::{Numbered, has_room_for, shape_of};
