//! What a document weighs.
ghost use Rattle.std.specs.Prelude.{◌≡◌, ◌-◌, ◌^◌, ◌≤◌, ◌<◌, min};
ghost use Rattle.revision.specs.Invariants.{IsPast};
ghost use Rattle.revision.specs.Pending.{record_of};
ghost use Rattle.revision.specs.Sources.{total_of};
ghost use Rattle.revision.specs.State.{window_weight};
ghost use Rattle.inspection.specs.Filled.{weight_in};

use revision::{DocState, Limits, Name, Window};

/// What a document weighs at its newest revision: its units and its sources, no more than the limit.
#[tactic(auto, using(crate::proofs::Weights::weight_held))]
pub(crate) fn weight_in(document: &DocState, limits: Limits) -> u64
    requires past { IsPast limits (record_of document.now).past }
    requires light { limits.weight < 2 ^ 32 }
    ensures weight { result ≡ weight_in limits (record_of document.now) }
    ensures bound { result ≤ limits.weight }
{
    let units = document.document().weight();
    let sources = weight_of_all(limits, document.sources().entries());
    units.saturating_add(sources)
}

// What sources weigh; 2^64 - 1 where it is more.
fn weight_of_all(limits: Limits, entries: &[(Name, Window)]) -> u64
    ensures { result ≡ min (total_of (window_weight limits) entries.now) (2 ^ 64 - 1) }
{
    let mut weight = 0u64;
    for (_, window) in entries {
        weight = weight.saturating_add(weight_of_window(limits, window));
    }
    weight
}

// What a source with this window weighs.
fn weight_of_window(limits: Limits, window: &Window) -> u64
    ensures { result ≡ window_weight limits window.now }
{
    let each = u64::from(limits.retry());
    64 - each + each * window.revisions().len() as u64
}
