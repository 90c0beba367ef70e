//! What a store holds: documents in order of creation, under limits.
ghost use Rattle.std.specs.Prelude.{◌≡◌, ◌≤◌, [], length, map, option_map};
ghost use Rattle.revision.specs.Invariants.{IsState};
ghost use Rattle.revision.specs.Pending.{record_of};
ghost use Rattle.revision.specs.State.{find};

use super::doc_state::DocState;
use super::documents::Documents;
use crate::rule::{Limits, Name};
use refusal::Refusal;
use std::alloc::Global;
use std::marker::Model;

/// The documents in order of creation, with nothing prepared.
#[derive(Drop)]
pub struct State {
    pub(crate) documents: Documents,
}

impl Model for State {
    ghost use Rattle.std.specs.Prelude.{◌≡◌};
    ghost use Rattle.revision.specs.Invariants.{IsState};
    ghost use Rattle.revision.specs.State as spec;

    ghost Value = { spec.State };

    ghost use Rattle.revision.specs.Documents.{state_code};

    ghost coded = { state_code };

    ghost view = { λ s. s.documents.before };

    ghost invariant = { λ s. (s.documents.after ≡ s.documents.before) × IsState s.documents.before };
}

impl State {
    /// No documents, under these limits. Doesn't allocate.
    pub fn new(alloc: Global, limits: Limits) -> State
        ensures { result ≡ record { limits = limits; documents = [] } }
    {
        State {
            documents: Documents::new(alloc, limits),
        }
    }

    /// The limits.
    pub fn limits(&self) -> Limits
        ensures limits { result ≡ self.now.limits }
        ensures state { IsState self.now }
    {
        self.documents.limits()
    }

    /// What each state keeps, for the prover. It does nothing.
    pub fn facts(&self)
        ensures state { IsState self.now }
    {
        let _ = &self.documents;
    }

    /// The documents in order of creation, at most 65,536.
    pub fn documents(&self) -> &[DocState]
        ensures documents { map record_of result.now ≡ self.now.documents }
        ensures bound { length result.now ≤ 65536 }
    {
        self.documents.documents()
    }

    /// The document of this name with its number. It doesn't go through all documents.
    pub fn find(&self, name: &Name) -> Option<(u32, &DocState)>
        ensures { option_map (λ p. (p.0, record_of p.1.now)) result ≡ find name.now 0 self.now.documents }
    {
        self.documents.find(name)
    }
}

/// A state with commands that are prepared to follow it: `before` is what is held, `after` what it becomes with them.
#[derive(Drop)]
pub struct PreparedState {
    pub(crate) documents: Documents,
}

impl Model for PreparedState {
    ghost use Rattle.revision.specs.Documents as spec;

    ghost Value = { spec.PreparedState };

    ghost coded = { spec.prepared_state_code };

    ghost view = { λ p. p.documents };

    ghost use Rattle.revision.specs.Invariants.{IsState};

    ghost invariant = { λ p. IsState p.documents.before × IsState p.documents.after };
}

impl PreparedState {
    /// The state with the commands. It takes no memory, and isn't refused.
    pub fn accept(self) -> State
        ensures { result ≡ self.after }
    {
        let mut documents = self.documents;
        documents.accept();
        State { documents }
    }

    /// The state without them. It takes no memory, and isn't refused.
    pub fn forget(self) -> State
        ensures { result ≡ self.before }
    {
        let mut documents = self.documents;
        documents.forget();
        State { documents }
    }
}

/// Why commands weren't prepared, with the unchanged state.
#[derive(Drop)]
pub struct PrepareError {
    pub state: State,
    pub refusal: Refusal,
}
