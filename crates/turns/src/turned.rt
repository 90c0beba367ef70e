//! What a turn comes to.
use hub::{Nothing, Settled};
use published::Life;

/// What a turn comes to where nothing stops it.
#[derive(Drop)]
pub enum Turned<D, L: Life> {
    /// A batch was written, and the hub settled it.
    Settled(Settled<D, L>),
    /// Nothing was to be taken off the hub's board for a slot.
    Nothing(Nothing<L>),
}
