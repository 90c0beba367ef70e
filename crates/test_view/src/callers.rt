//! The callers that the crates' first pages show.
ghost use Rattle.std.specs.Prelude.{◌≡◌, ◌≤◌, ◌<◌, ◌^◌, [], ◌∷◌, length};
ghost use mathlib.Core.List.{IsPrefix};
ghost use Rattle.revision.specs.State.{fold};
ghost use Rattle.recovery.specs.Found.{commands_of};
ghost use Rattle.recovery.specs.Moment.{IsMomentOf, moment_of};
ghost use Rattle.world.specs.World.{takens};

use disk::Disk;
use published::{Life, Log, Ordered, Told};
use recovery::Receipt;
use refusal::Refusal;
use view::Viewer;

/// Publishes the first batch of a run, by the token of its start.
pub fn publish_first<D: Disk, L: Life>(
    log: &mut Log<D, L>,
    start: &Told<D, L>,
    receipt: &Receipt<D>,
    ordered: &Ordered<L>,
) -> Told<D, L>
    requires begins { (log.old.batches ≡ []) × (start.now ≡ []) }
    requires some { 1 ≤ length receipt.now.batch }
    requires few { length receipt.now.batch < 2 ^ 64 }
    requires next { IsPrefix receipt.now.batch (takens ordered.now) }
    requires moment { IsMomentOf (fold L.start (commands_of (receipt.now.batch ∷ []))) (moment_of ⟦<D as Disk>⟧ receipt.now.at) }
    ensures { result ≡ receipt.now.batch ∷ [] }
{
    start.add(log, receipt, ordered)
}

/// How many documents there are, as far as a token goes at least.
pub fn count_documents<D, L: Life>(
    viewer: &mut Viewer<D, L>,
    told: &Told<D, L>,
) -> Result<usize, Refusal>
    ensures kept { IsPrefix viewer.old viewer.new }
    ensures told { IsPrefix told.now viewer.new }
{
    viewer.learn(told);
    viewer.read(|state| state.documents().len())
}
