//! Attributes of rich text, and changes of them.
//!
//! Attributes are a finite map from names to values; a change is a finite map from names to a new value
//! or to a removal. The types keep what every delta may hold: names of 1 to 64 bytes, in the order of
//! their bytes, and values that are text, a whole number that JSON keeps exactly, true or false. The
//! crate promises quill-delta's four operations on attributes, exactly, and refuses them only as out
//! of memory. The definitions stand in specs/Attributes.antt; `laws` has what follows from them.
//! It stands on `refusal`.
//!
//! A caller, with its contract, which is proved as it stands:
//!
//! ```text
//! ghost use Rattle.std.specs.Prelude.{◌≡◌, IfOk};
//! ghost use Rattle.attributes.specs.Attributes.{changed};
//!
//! use attributes::{Attrs, Change, apply, invert, laws};
//! use refusal::Refusal;
//! use std::alloc::Global;
//!
//! /// The attributes after a change, and the change that takes it back.
//! pub fn change_attributes(alloc: Global, attrs: &Attrs, change: &Change) -> Result<(Attrs, Change), Refusal>
//!     ensures after { IfOk result (λ done. done.0 ≡ changed attrs.now change.now) }
//!     ensures back { IfOk result (λ done. changed done.0 done.1 ≡ attrs.now) }
//! {
//!     laws::changed_back();
//!     let after = apply(alloc, attrs, change)?;
//!     let back = invert(alloc, change, attrs)?;
//!     Ok((after, back))
//! }
//! ```
#![tactic(auto)]

mod attrs;
mod change;
mod changing;
mod key;
mod known;
pub mod laws;
mod map;
mod shared;
mod value;

pub use attrs::Attrs;
pub use change::Change;
pub use changing::{apply, compose, invert, transform};
pub use key::Key;
pub use known::Known;
pub use value::{Value, ValueRef};
