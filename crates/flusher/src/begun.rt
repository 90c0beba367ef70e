//! The state that a run began with.
ghost use Rattle.std.specs.Prelude.{◌≡◌};

use published::Life;
use revision::State;
use std::marker::{Model, PhantomData};
use std::snapshot::Snapshot;

/// The state that a store was opened with, for contracts alone: it takes no memory.
#[derive(Drop)]
pub(crate) struct Begun<L: Life> {
    state: Snapshot<State>,
    of: PhantomData<L>,
}

impl<L: Life> Model for Begun<L> {
    ghost use Rattle.std.specs.Prelude.{◌≡◌};
    ghost use Rattle.revision.specs.State.{State as StateValue};

    ghost Value = { StateValue };

    ghost view = { λ b. b.state.value };

    ghost invariant = { λ b. b.state.value ≡ L.start };
}

impl<L: Life> Begun<L> {
    /// The run's start.
    pub(crate) fn of(state: &State) -> Begun<L>
        requires { state.now ≡ L.start }
        ensures { result ≡ L.start }
    {
        Begun {
            state: Snapshot::of(state),
            of: PhantomData,
        }
    }

    /// What each of these keeps, for the prover: it is the run's start. It does nothing.
    pub(crate) fn facts(&self)
        ensures { self.now ≡ L.start }
    {
        let _ = &self.state;
    }
}
