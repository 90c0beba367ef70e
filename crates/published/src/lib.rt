//! The logs of a run, and the tokens that name a prefix of one.
//!
//! All threads of a run share one order of the commands that were taken, and one log of the batches that are published, and both only grow.
//! They stand in the proofs alone (`ownlog`): each has one owner, to whom appending never fails, and who knows that each token names a prefix
//! of it. An `Order` is the owner of the order, and keeps that it is a legal history; an `Ordered` is a token of it. A `Log` is the owner of
//! the other log, and a `Told` a token of that: it can be copied, and of two tokens one begins the other. The commands of a `Told` are a
//! prefix of the order. Inside it is a `PublishedPrefix`, which has all but the device's type: what stands over any device keeps that. Only
//! `Told::add` makes a longer one, and it wants the log, a receipt, and a token of the order that continues with the batch: so each published
//! batch was committed by a store, and is the next part of the order. Beside each batch the log keeps the moment at which its commit had
//! ended, which the receipt has from the store; `Told::moments` gives those of a token's batches. So who has a `Told` of a batch has a moment
//! at which the store held it, over a device that was synced. All types carry one parameter, a `Life`, which names the run: its logs, its
//! ledger of seats, and the state that its store was opened with. The crate stands on `revision`, on `world` for the order's entries, on
//! `recovery` for the receipt, on `disk` for what a device has been through, and on `ownlog`.
//!
//! A caller, with its contract, which `test_view` proves as it stands:
//!
//! ```text
//! ghost use Rattle.std.specs.Prelude.{◌≡◌, ◌≤◌, ◌<◌, ◌^◌, [], ◌∷◌, length};
//! ghost use mathlib.Core.List.{IsPrefix};
//! ghost use Rattle.revision.specs.State.{fold};
//! ghost use Rattle.recovery.specs.Found.{commands_of};
//! ghost use Rattle.recovery.specs.Moment.{IsMomentOf, moment_of};
//! ghost use Rattle.world.specs.World.{takens};
//!
//! use disk::Disk;
//! use published::{Log, Ordered, Life, Told};
//! use recovery::Receipt;
//!
//! /// Publishes the first batch of a run, by the token of its start.
//! pub fn publish_first<D: Disk, L: Life>(
//!     log: &mut Log<D, L>,
//!     start: &Told<D, L>,
//!     receipt: &Receipt<D>,
//!     ordered: &Ordered<L>,
//! ) -> Told<D, L>
//!     requires begins { (log.old.batches ≡ []) × (start.now ≡ []) }
//!     requires some { 1 ≤ length receipt.now.batch }
//!     requires few { length receipt.now.batch < 2 ^ 64 }
//!     requires next { IsPrefix receipt.now.batch (takens ordered.now) }
//!     requires moment { IsMomentOf (fold L.start (commands_of (receipt.now.batch ∷ []))) (moment_of ⟦<D as Disk>⟧ receipt.now.at) }
//!     ensures { result ≡ receipt.now.batch ∷ [] }
//! {
//!     start.add(log, receipt, ordered)
//! }
//! ```
#![tactic(auto)]

mod batch;
pub mod laws;
mod ledgers;
mod life;
mod log;
mod moments;
mod order;
mod prefix;
mod told;

pub use ledgers::{LedgerBooks, LedgerShares, Ledgers, OfEnds, OfSettled, OfTaken};
pub use life::Life;
pub use log::{Log, Opened};
pub use moments::Moments;
pub use order::{Order, Ordered};
pub use prefix::PublishedPrefix;
pub use told::Told;
