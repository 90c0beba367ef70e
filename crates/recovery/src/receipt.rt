//! What a store gives for a batch that it has committed.
ghost use Rattle.std.specs.Prelude.{◌≡◌};

use revision::{Batch, State};
use std::marker::Model;
use std::snapshot::Snapshot;

/// A batch that a store has committed, and the store at the end of the commit: `Store::commit` alone makes one. It shares the batch
/// with whoever gave it. Of the store it has what contracts see, which takes no memory: the state that it held, and its device.
#[derive(Drop)]
pub struct Receipt<D> {
    batch: Batch,
    state: Snapshot<State>,
    device: Snapshot<D>,
}

impl<D> Model for Receipt<D> {
    ghost use Rattle.recovery.specs.Moment as spec;

    ghost Value = { spec.Receipt D };

    ghost view = { λ r. record { batch = r.batch; at = record { state = r.state.value; device = r.device.value } } };
}

impl<D> Receipt<D> {
    // The receipt of this batch, by a store that has just committed it. It takes no memory.
    pub(crate) fn of(batch: Batch, state: &State, device: &D) -> Receipt<D>
        ensures { result ≡ record { batch = batch; at = record { state = state.now; device = device.now } } }
    {
        Receipt {
            batch,
            state: Snapshot::of(state),
            device: Snapshot::of(device),
        }
    }

    /// The batch.
    pub fn batch(&self) -> &Batch
        ensures { result.now ≡ self.now.batch }
    {
        &self.batch
    }
}
