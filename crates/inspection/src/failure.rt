//! Why lines about a store end before their end.
ghost use Rattle.std.specs.Prelude.{◌≡◌};
ghost use Rattle.inspection.specs.declared.failure.InspectionError.TheVariants.{Refused, Stream};
ghost use Rattle.refusal.specs.declared.Refusal.TheVariants as refusal;

use refusal::Refusal;
use session::WriteError;
use std::alloc::AllocError;

/// Why lines about a store end before their end.
#[derive(Debug, Drop)]
pub enum InspectionError {
    /// Memory ran out.
    Refused(Refusal),
    /// A write failed.
    Stream,
}

impl From<AllocError> for InspectionError {
    ghost from_gives = { λ _ failure. failure ≡ Refused refusal.NoMemory };

    fn from(_error: AllocError) -> InspectionError {
        InspectionError::Refused(Refusal::NoMemory)
    }
}

impl From<WriteError> for InspectionError {
    ghost from_gives = { λ _ failure. failure ≡ Stream };

    fn from(_failed: WriteError) -> InspectionError {
        InspectionError::Stream
    }
}
