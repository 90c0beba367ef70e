//! The callers that open `lib.rt` of revision and of history.
ghost use Rattle.std.specs.Prelude.{◌≡◌, ◌⊎◌, List, IfOk, IfErr};
ghost use Rattle.revision.specs.Command.{Taken};
ghost use Rattle.revision.specs.State as spec;
ghost use Rattle.revision.specs.Acceptance.{TakenAt, AgainAt, Refused, decide};
ghost use Rattle.revision.specs.Agree.{Agree};
ghost use Rattle.history.specs.Cell.{Pair};
ghost use Rattle.history.specs.declared.pick.Pick as pick;
ghost use Rattle.history.specs.Found.{StandFor};
ghost use Rattle.history.specs.Shown.{Order};
ghost use Rattle.history.specs.Running.{Runs};

use history::laws;
use refusal::Refusal;
use revision::{Command, Reply, State};
use std::alloc::Global;

/// The revision that a command made: now, or when it was sent first, and then the state stays as it is.
pub fn revision_for(alloc: Global, state: &mut State, command: &Command) -> Result<u64, Refusal>
    ensures made { IfOk result (λ rev. (decide state.old command.now ≡ (TakenAt rev, state.new))
        ⊎ (decide state.old command.now ≡ (AgainAt rev, state.new))) }
    ensures refused { IfErr result (λ e. (decide state.old command.now ≡ (Refused e, state.new))
        ⊎ ((e ≡ Refusal.NoMemory) × (state.new ≡ state.old))) }
{
    match state.decide(alloc, command)? {
        Reply::Taken { rev } => Ok(rev),
        Reply::Again { rev } => Ok(rev),
    }
}

/// Whichever cells the documents of a running store are read from, what is found agrees.
pub fn either_cell()
    ensures { (order : Order) (cells : List Pair) (entries : List Taken)
        (state one other : spec.State) (a b : pick.Pick)
        → Runs order cells entries state → StandFor state.limits cells entries a one
        → StandFor state.limits cells entries b other → Agree one other }
{
    laws::recovers();
    laws::showing_agree();
}
