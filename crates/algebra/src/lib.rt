//! What the commands `richd delta ..` come to: deltas as texts, what is made of them, and the text that is printed.
//!
//! A `Task` is to compose two deltas, to transform one past another, to invert one on a document, or to apply one.
//! `Task::answer` gives the text `{"ops":[..]}` of the result, without a line end, or the refusal, and `Task::line` the line.
//! They promise both exactly: what a command comes to stands in specs/Tasks.antt, over the deltas that its texts describe
//! (specs/Words.antt) and what comes of two deltas (specs/Outcomes.antt); how a delta is printed stands in
//! specs/Text.antt; and that a command comes to one thing only, and what the results do to documents, is in `laws`. The
//! calling program reads the words of a command line, writes the line or the refusal, and gives the status.
//!
//! It stands on `compose`, `xform` and `document` for the results, and on `optext` for operations as JSON.
//!
//! A caller, with its contract, which is proved as it stands:
//!
//! ```text
//! ghost use Rattle.std.specs.Prelude.{◌≡◌, IfOk, List, Ok};
//! ghost use Rattle.std.specs.String.{string_bytes};
//! ghost use Rattle.delta.specs.Operation.{Operation};
//! ghost use Rattle.algebra.specs.Outcomes.{Following, Composing};
//! ghost use Rattle.algebra.specs.Text.{text_of};
//! ghost use Rattle.algebra.specs.Words.{deltas_in};
//!
//! use algebra::Task;
//! use refusal::Refusal;
//! use std::alloc::Global;
//!
//! /// The text of the one delta for the two that these texts describe.
//! pub fn compose_texts(alloc: Global, first: &str, second: &str) -> Result<String, Refusal>
//!     ensures { IfOk result (λ text. (one : List Operation)
//!         × Following (deltas_in first.now second.now) (λ deltas. Composing deltas.0 deltas.1) (Ok one)
//!         × (string_bytes text ≡ text_of one)) }
//! {
//!     let task = Task::Compose { first, second };
//!     task.answer(alloc)
//! }
//! ```
#![tactic(auto)]

pub mod laws;
mod making;
mod reading;
mod task;
mod writing;

pub use task::Task;
pub use writing::write_delta;
