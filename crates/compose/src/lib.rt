//! One delta for several, and the delta that undoes one.
//!
//! `compose` gives the one delta in normal form with the effect of two in turn, `compose_many` that of any number, and
//! `invert` the delta that takes back another on a document. The crate promises the results exactly, by what they do to
//! the units of any document, and each refusal where it belongs: CutsPair where a surrogate pair would be parted, BadOps
//! where a length would pass 2^48, PastEnd where a delta reaches past a document's end. Each walks the operations of both
//! sides once, cutting them where they meet; what `compose_many` copies stands with it. The definitions stand in specs/
//! (Composes, Inverse and Many are read first, then Composed and Cuts); `laws` has the law of undoing and that nothing else
//! composes two deltas. It stands on `delta`, `document` and `attributes`.
//!
//! A caller, with its contract, which is proved as it stands:
//!
//! ```text
//! ghost use Rattle.std.specs.Prelude.{◌≡◌, OnErr, OnOk};
//! ghost use Rattle.delta.specs.Gaps.{counted, apply};
//! ghost use Rattle.delta.specs.Places.{IsDefined};
//!
//! use compose::compose;
//! use compose::laws::effect_of_composed;
//! use delta::Delta;
//! use delta::laws::effect_of_normal;
//! use document::Document;
//! use refusal::Refusal;
//! use std::alloc::Global;
//!
//! /// Applies two deltas in turn as one. If refused, the document is unchanged.
//! pub fn apply_both(
//!     alloc: Global,
//!     document: &mut Document,
//!     first: &Delta,
//!     second: &Delta,
//! ) -> Result<(), Refusal>
//!     ensures both { OnOk result (IsDefined document.old (counted first.now)
//!         → document.new ≡ apply (apply document.old (counted first.now)) (counted second.now)) }
//!     ensures err { OnErr result (document.new ≡ document.old) }
//! {
//!     effect_of_composed();
//!     effect_of_normal();
//!     let one = compose(alloc, first, second)?;
//!     document.apply(alloc, &one)
//! }
//! ```
#![tactic(auto)]

mod composing;
mod inverting;
pub mod laws;
mod laying;
mod stepping;
mod undoing;

pub use composing::{compose, compose_many};
pub use inverting::invert;
