//! The view: what was published, shown to readers that never wait.
//!
//! A `Publisher` takes committed batches, puts each into the run's log once, and shows it, over two copies of the state, and readers
//! have one (`left_right`). Documents that a batch leaves may be given with it: both copies take these over. Where memory runs out in
//! between, the next call continues with the same batch from where it stopped. A `Viewer` reads: it is lent the state that some list of
//! published batches makes of the run's start, and that list begins with all that this viewer has seen and was told of. Both hold by the
//! type of what is shown, and by the rule of the view, which binds every copy. Only `publish` and `end` may wait, for readers that are inside. The crate stands on
//! `published` and `revision`, on `document`, and on `recovery` for the receipt of a batch.
//!
//! That a call succeeds is no clause: tests show that `viewer` gives one, that `read` works until the publisher's end, and that a
//! viewer shows what was published. `left_right` makes two kinds of step on the view, publish and enter; the run's log stands in the proofs
//! alone.
//!
//! A caller, with its contract, which `test_view` proves as it stands:
//!
//! ```text
//! ghost use mathlib.Core.List.{IsPrefix};
//!
//! use published::{Life, Told};
//! use refusal::Refusal;
//! use view::Viewer;
//!
//! /// How many documents there are, as far as a token goes at least.
//! pub fn count_documents<D, L: Life>(
//!     viewer: &mut Viewer<D, L>,
//!     told: &Told<D, L>,
//! ) -> Result<usize, Refusal>
//!     ensures kept { IsPrefix viewer.old viewer.new }
//!     ensures told { IsPrefix told.now viewer.new }
//! {
//!     viewer.learn(told);
//!     viewer.read(|state| state.documents().len())
//! }
//! ```
#![tactic(auto)]

mod publisher;
mod shown;
mod viewer;

pub use publisher::Publisher;
pub use shown::{Basis, News, Shown};
pub use viewer::Viewer;
