//! Deltas of rich text in normal form.
//!
//! A delta is a list of operations: insert a text or an embed, retain units, delete units. Lengths count UTF-16 code
//! units. The crate promises that what a builder was given, counted out unit by unit and brought to normal form, is what
//! it makes: `Builder::push` keeps the operations merged and in order, `Builder::finish` takes off a last retain without
//! attributes, and `laws` has what makes these two say it of whole runs. A `Delta` is in normal form by its type, and its
//! base length and output length are each at most 2^48. An operation is refused for passing that bound or when out of
//! memory, and the builder is then unchanged; a `TrimmingBuilder` refuses none for the length of a last retain without
//! attributes, which is no part of the delta. A `Cursor` walks over operations and may stop within one, and a `Part` of it
//! is then left; no text is counted again or copied for that. The definitions stand in specs/Operation.antt,
//! specs/Gaps.antt, specs/Normal.antt and specs/Parts.antt. It stands on `utf16` and `attributes`.
//!
//! A caller, with its contract, which is proved as it stands:
//!
//! ```text
//! ghost use Rattle.std.specs.Prelude.{◌≡◌, [], ◌∷◌, string_bytes, IfOk};
//! ghost use Rattle.utf16.specs.Units.{units_of};
//! ghost use Rattle.attributes.specs.Map.{empty};
//! ghost use Rattle.delta.specs.Operation.{retain, insert_text};
//! ghost use Rattle.delta.specs.Gaps.{counted};
//! ghost use Rattle.delta.specs.Normal.{nf};
//!
//! use attributes::{Attrs, Change};
//! use delta::{Builder, Delta, Op, laws};
//! use refusal::Refusal;
//! use std::alloc::Global;
//!
//! /// The delta that inserts a text behind so many code units.
//! pub fn insert_behind(alloc: Global, kept: u64, text: String) -> Result<Delta, Refusal>
//!     ensures { IfOk result (λ delta. delta
//!         ≡ nf (counted (retain kept empty ∷ insert_text (units_of (string_bytes text)) empty ∷ []))) }
//! {
//!     laws::built_in_pieces();
//!     laws::normal_of_built();
//!     let mut builder = Builder::new(alloc);
//!     builder.push(Op::retain(kept, Change::new(alloc)))?;
//!     builder.push(Op::text(text, Attrs::new(alloc)))?;
//!     Ok(builder.finish())
//! }
//! ```
#![tactic(auto)]

mod builder;
mod cursor;
mod delta;
pub mod laws;
mod op;
mod ops;
mod part;
mod trimming;

pub use builder::{Builder, MAX_LEN};
pub use cursor::Cursor;
pub use delta::Delta;
pub use op::{Op, OpRef};
pub use part::Part;
pub use trimming::TrimmingBuilder;
