//! Why a program ends before its end.
ghost use Rattle.std.specs.Prelude.{◌≡◌};
ghost use Rattle.serving.specs.declared.failure.ServingError.TheVariants.{Refused, Stream};
ghost use Rattle.refusal.specs.declared.Refusal.TheVariants as refusal;

use refusal::Refusal;
use session::WriteError;
use std::alloc::AllocError;

/// Why a program ends with status 1.
#[derive(Debug, Drop)]
pub enum ServingError {
    /// It was refused, which is printed on standard error.
    Refused(Refusal),
    /// A standard stream failed, which is not printed.
    Stream,
}

impl From<Refusal> for ServingError {
    ghost from_gives = { λ refusal failure. failure ≡ Refused refusal };

    fn from(refusal: Refusal) -> ServingError {
        ServingError::Refused(refusal)
    }
}

impl From<AllocError> for ServingError {
    ghost from_gives = { λ _ failure. failure ≡ Refused refusal.NoMemory };

    fn from(_error: AllocError) -> ServingError {
        ServingError::Refused(Refusal::NoMemory)
    }
}

impl From<WriteError> for ServingError {
    ghost from_gives = { λ _ failure. failure ≡ Stream };

    fn from(_failed: WriteError) -> ServingError {
        ServingError::Stream
    }
}
