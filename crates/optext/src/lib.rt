//! Operations of a delta as JSON.
//!
//! A message or a command's word spells a delta as an array of operations: `{"insert":"Hi"}`, `{"retain":6}`,
//! `{"delete":5}`, and `attributes` beside an insert or a retain. `read_ops` gives the delta that such an array
//! describes, or says why it describes none, and `write_ops` gives the array that prints a delta. Which operation a
//! value describes stands in specs/Described.antt, and how one is printed in specs/Printed.antt. What is printed is
//! read as what it was: `laws` says it of operations, and `write_ops` of each delta that a message can spell.
//! `read_json` and `member_count` are there for all who read messages and words: the value of a text
//! (specs/Json.antt), and how many members it has.
//! It stands on `delta`, whose builder merges and bounds the operations, and on `serde_json`'s values.
//!
//! A caller, with its contract, which is proved as it stands:
//!
//! ```text
//! ghost use Rattle.std.specs.Prelude.{◌≡◌, IfOk, List, Ok};
//! ghost use Rattle.delta.specs.Operation.{Operation};
//! ghost use Rattle.optext.specs.Described.{delta_of};
//! ghost use Rattle.optext.specs.Printed.{printed};
//! ghost use Rattle.serde_json.specs.Data.{array};
//! ghost use Rattle.serde_json.specs.View.{view, items_view};
//!
//! use optext::{read_ops, write_ops};
//! use refusal::Refusal;
//! use serde_json::Value as Json;
//! use std::alloc::Global;
//!
//! /// The operations of an array as they are printed in normal form.
//! pub fn print_normal(alloc: Global, operations: &[Json]) -> Result<Json, Refusal>
//!     ensures { IfOk result (λ value. (delta : List Operation)
//!         × (delta_of (items_view operations.now) ≡ Ok delta) × (view value ≡ array (printed delta))) }
//! {
//!     let delta = read_ops(alloc, operations)?;
//!     Ok(write_ops(alloc, &delta)?)
//! }
//! ```
#![tactic(auto)]

pub mod laws;
mod reading;
mod text;
mod writing;

pub use reading::{MAX_OPERATIONS, read_ops};
pub use text::{member_count, read_json};
pub use writing::write_ops;
