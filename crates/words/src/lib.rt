//! The command line of richd: what the words that the program is called with ask for.
//!
//! `Invocation::parse` reads them, and answers what they ask for or the text for a user whose words can't be used, who
//! asked for help, or who asked for the version. `given` takes the words from the system, or answers the text for a user one
//! of whose words isn't UTF-8. `Lines` are two words that stand on lines of standard input in place of the command line. Which words mean what is tested, and not proved. It stands on `clap`, and on `algebra` for the
//! tasks on deltas.
//!
//! A caller, which is proved to be safe as it stands. It has no other contract:
//!
//! ```text
//! use std::alloc::Global;
//! use words::Invocation;
//!
//! /// The file that the words name. A command on deltas has none.
//! pub fn file_in<'a>(alloc: Global, words: &'a [&'a str]) -> Result<Option<&'a str>, clap::Error> {
//!     Ok(match Invocation::parse(alloc, words)? {
//!         Invocation::Format { path, .. } => Some(path),
//!         Invocation::Serve { path, .. } | Invocation::Dump { path, older: _ } => Some(path),
//!         Invocation::Info { path, documents: _ } | Invocation::Check { path } => Some(path),
//!         Invocation::Migrate { old, .. } | Invocation::Copy { old, .. } => Some(old),
//!         Invocation::Delta(_) => None,
//!     })
//! }
//! ```
#![tactic(auto)]

mod arguments;
mod deltas;
mod invocation;
mod lines;
mod store;

pub use deltas::{DeltaCommand, Making};
pub use invocation::{Invocation, VERSION, given};
pub use lines::{Lines, LinesError};
pub use store::{DEFAULT_EVERY, Listening, ShapeOptions};
