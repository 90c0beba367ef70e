//! What stops a turn.
ghost use Rattle.std.specs.Prelude.{◌≡◌, ◌≢◌, IfSome, IfNone};
ghost use Rattle.refusal.specs.declared.Refusal.TheVariants.{NoMemory};

use hub::{Cause, Failed, Hub, Writer};
use published::Life;
use std::marker::Model;
use std::sync::Wait;

/// What stopped a turn: that memory ran out, or a failure, which the hub was told. Contracts see it as its refusal.
#[derive(Drop)]
pub struct TurnError<L: Life> {
    failed: Option<Failed<L>>,
}

impl<L: Life> Model for TurnError<L> {
    ghost use Rattle.std.specs.Prelude.{◌≢◌, Some};
    ghost use Rattle.refusal.specs.declared.Refusal.{Refusal as Why};
    ghost use Rattle.refusal.specs.declared.Refusal.TheVariants.{NoMemory};
    ghost use Rattle.turns.specs.Stops.{refusal_of};

    ghost Value = { Why };

    ghost view = { λ s. refusal_of s.failed };

    ghost invariant = { λ s. s.failed ≢ Some NoMemory };
}

impl<L: Life> TurnError<L> {
    /// The hub's token of the failure; `None` where memory ran out.
    pub fn into_failed(self) -> Option<Failed<L>>
        ensures some { IfSome result (λ failed. (failed ≡ self) × (failed ≢ NoMemory)) }
        ensures none { IfNone result (self ≡ NoMemory) }
    {
        self.failed
    }
}

// What stops a turn before the hub is told: that memory ran out, or the cause of a failure. Contracts see it as its refusal.
pub(crate) struct Stop<L: Life> {
    cause: Option<Cause<L>>,
}

impl<L: Life> Model for Stop<L> {
    ghost use Rattle.std.specs.Prelude.{◌≢◌, Some};
    ghost use Rattle.refusal.specs.declared.Refusal.{Refusal as Why};
    ghost use Rattle.refusal.specs.declared.Refusal.TheVariants.{NoMemory};
    ghost use Rattle.turns.specs.Stops.{refusal_of};

    ghost Value = { Why };

    ghost view = { λ s. refusal_of s.cause };

    ghost invariant = { λ s. s.cause ≢ Some NoMemory };
}

impl<L: Life> Stop<L> {
    // memory ran out
    pub(crate) fn no_memory() -> Stop<L>
        ensures { result ≡ NoMemory }
    {
        Stop { cause: None }
    }

    // there is a cause
    pub(crate) fn by_cause(cause: Cause<L>) -> Stop<L>
        requires { cause ≢ NoMemory }
        ensures { result ≡ cause }
    {
        Stop { cause: Some(cause) }
    }
}

// Stops. Where there is a cause the board fails.
pub(crate) fn stopped<D, L: Life, R: Wait>(
    rt: &R,
    hub: &Hub<D, L>,
    writer: &mut Writer<L>,
    stop: Stop<L>,
) -> TurnError<L>
    ensures why { result ≡ stop }
    ensures writer { writer.new ≡ writer.old }
{
    let Stop { cause } = stop;
    match cause {
        None => TurnError { failed: None },
        Some(cause) => TurnError {
            failed: Some(hub.fail(rt, writer, cause)),
        },
    }
}
