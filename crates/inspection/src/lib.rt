//! What an operator asks of a store at rest: how full it is, and whether both readings of it agree.
//!
//! `info` writes a line for each fact of an open store, `documents` one for each of its documents (specs/Filled.antt), and `check` reads
//! a device by the newer and by the older cell of each document, and compares the states that it finds (specs/Matching.antt,
//! specs/Checking.antt). Nothing is written to the device. It stands on `recovery` and `revision`, and on `session` for where lines go.
#![tactic(auto)]

mod checking;
mod facts;
mod failure;
mod lines;
mod matching;
mod weighing;

pub use checking::{Checked, check};
pub use facts::info;
pub use failure::InspectionError;
pub use lines::documents;
pub use matching::changes_in;
