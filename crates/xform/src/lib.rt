//! One delta after another delta of the same document, and places in a document after a delta.
//!
//! Where two deltas were made of one document, the crate says what the second is after the first: `transform` promises
//! the normal form of `after`, exactly, and refuses it only where it would pass the bound of 2^48 UTF-16 code units or
//! when out of memory. `transform_position` promises where a place goes, and needs no memory. `laws::both_ways` says
//! what this is for: the first and then the second after it, and the second and then the first after it, leave one
//! document, the one that both at once leave. The definitions stand in specs/Both.antt, specs/After.antt,
//! specs/Outcome.antt and specs/Place.antt. It stands on `delta`, whose cursor and builder it walks with, and on
//! `attributes`.
//!
//! A caller, with its contract, which is proved as it stands:
//!
//! ```text
//! ghost use Rattle.std.specs.Prelude.{◌≡◌, ◌≤◌, IfOk, List, length};
//! ghost use Rattle.delta.specs.Element.{Element};
//! ghost use Rattle.delta.specs.Operation.{base_of};
//! ghost use Rattle.delta.specs.Gaps.{counted, apply};
//!
//! use delta::Delta;
//! use delta::laws::{effect_of_normal, units_counted};
//! use refusal::Refusal;
//! use std::alloc::Global;
//! use xform::laws::both_ways;
//! use xform::transform;
//!
//! /// Each of two deltas of one document as it is after the other: in either order they lead to the same document.
//! pub fn transform_both(alloc: Global, one: &Delta, other: &Delta) -> Result<(Delta, Delta), Refusal>
//!     ensures { IfOk result (λ moved. (document : List Element)
//!         → base_of one.now ≤ length document → base_of other.now ≤ length document
//!         → apply (apply document (counted one.now)) (counted moved.1)
//!             ≡ apply (apply document (counted other.now)) (counted moved.0)) }
//! {
//!     both_ways();
//!     effect_of_normal();
//!     units_counted();
//!     let one_moved = transform(alloc, other, one, false)?;
//!     let other_moved = transform(alloc, one, other, true)?;
//!     Ok((one_moved, other_moved))
//! }
//! ```
#![tactic(auto)]

pub mod laws;
mod moving;
mod position;
mod stepping;
mod transforming;

pub use moving::{move_past, move_past_all};
pub use position::transform_position;
pub use transforming::transform;
