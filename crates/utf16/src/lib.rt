//! Lengths, cuts and appends of texts, counted in UTF-16 code units.
//!
//! Rich text counts its lengths in code units: one for a character below U+10000, two (a high one and
//! a low one) for every other. The crate promises the length and the two halves of a text by code
//! units, without a copy and without memory, and a text at the end of another; nothing is ever cut
//! between the two units of a pair. They are counted by blocks of bytes, for any script alike. The definitions
//! stand in specs/Units.antt, those of counting over bytes in specs/Begun.antt, and `laws` has what follows from them.
//! It stands on nothing but `std`.
//!
//! A caller, with its contract, which is proved as it stands:
//!
//! ```text
//! ghost use Rattle.std.specs.Prelude.{◌≡◌, take, IfOk};
//! ghost use Rattle.utf16.specs.Units.{units_of};
//!
//! use utf16::{Cut, split_at16};
//!
//! /// The first code units of a text; refused where the text is shorter, or where a pair would be parted.
//! pub fn first_units(text: &str, count: u64) -> Result<&str, Cut>
//!     ensures { IfOk result (λ front. units_of front.now ≡ take count (units_of text.now)) }
//! {
//!     let (front, _) = split_at16(text, count)?;
//!     Ok(front)
//! }
//! ```
#![tactic(auto)]

mod appending;
mod cut;
pub mod laws;
mod len;

pub use appending::append;
pub use cut::{Cut, split_at16, split_counted};
pub use len::len16;
