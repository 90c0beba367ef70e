//! Reading of deltas.
ghost use Rattle.std.specs.Prelude.{◌≡◌, ◌++◌, ℕ, List, IfOk, IfSome, IfNone, IsOkUnless};
ghost use Rattle.delta.specs.Operation.{Operation};
ghost use Rattle.journal.specs.DeltaSpelling as spelling;
ghost use Rattle.revision.specs.Spellable.{IsSpellable};
ghost use Rattle.journal.specs.steps.Reading.{Gives};
ghost use Rattle.journal.specs.steps.DeltaReading.{delta_at};

use super::normal_form::delta_of_ops;
use super::number32;
use super::operations::operations;
use crate::batch::read_error::ReadError;
use delta::Delta;
use std::alloc::{AllocError, Global};

/// The delta whose spelling begins the bytes, with the bytes behind it, or none.
pub fn read_delta(alloc: Global, bytes: &[u8]) -> Result<Option<(Delta, &[u8])>, AllocError>
    ensures found { IfOk result (λ found. IfSome found
        (λ x. IsSpellable x.0 × (bytes.now ≡ spelling.delta x.0 ++ x.1.now))) }
    ensures none { IfOk result (λ found. IfNone found
        ((operations : List Operation) (rest : List ℕ) → IsSpellable operations
        → bytes.now ≡ spelling.delta operations ++ rest → ⊥)) }
{
    match delta_in(alloc, bytes) {
        Ok((delta, rest)) => Ok(Some((delta, rest))),
        Err(ReadError::Malformed) => Ok(None),
        Err(ReadError::NoMemory) => Err(AllocError),
    }
}

/// The delta, which has a spelling, with the bytes behind it.
pub(super) fn delta(alloc: Global, bytes: &[u8]) -> Result<(Delta, &[u8]), ReadError>
    ensures read { Gives (λ x. (x.0, x.1.now)) result (delta_at bytes.now) }
    ensures spellable { IfOk result (λ x. IsSpellable x.0) }
{
    let (delta, rest) = delta_in(alloc, bytes)?;
    Ok((delta, rest))
}

#[tactic(auto, unfolding(crate::specs::steps::DeltaReading::delta_at))]
fn delta_in(alloc: Global, bytes: &[u8]) -> Result<(Delta, &[u8]), ReadError>
    ensures { Gives (λ x. (x.0, x.1.now)) result (delta_at bytes.now) }
{
    let (count, rest) = number32(bytes)?;
    let (ops, rest) = operations(alloc, count, rest)?;
    let delta = shared(alloc, delta_of_ops(ops)?)?;
    Ok((delta, rest))
}

// An equal delta, whose copies share its operations: a state that is opened is copied for those who order and who read.
fn shared(alloc: Global, delta: Delta) -> Result<Delta, ReadError>
    ensures same { IfOk result (λ shared. shared ≡ delta) }
    ensures only { IsOkUnless result ReadError.NoMemory }
{
    match delta.share(alloc) {
        Ok(shared) => Ok(shared),
        Err(_) => Err(ReadError::NoMemory),
    }
}
