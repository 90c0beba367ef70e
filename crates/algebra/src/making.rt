//! What comes of two deltas.
ghost use Rattle.optext.specs.Answer.{IsAnswerOf};
ghost use Rattle.algebra.specs.Outcomes.{Composing, Transforming, Inverting, Applying, InvertingOn, ApplyingOn};

use compose::{compose, invert};
use delta::Delta;
use document::Document;
use refusal::Refusal;
use std::alloc::Global;
use xform::transform;

/// The one delta for two in turn.
pub(crate) fn composed(alloc: Global, first: &Delta, second: &Delta) -> Result<Delta, Refusal>
    ensures { IsAnswerOf (Composing first.now second.now) result }
{
    compose(alloc, first, second)
}

/// The second delta as it is after the first.
pub(crate) fn transformed(
    alloc: Global,
    first: &Delta,
    second: &Delta,
    priority: bool,
) -> Result<Delta, Refusal>
    ensures { IsAnswerOf (Transforming first.now second.now priority) result }
{
    transform(alloc, first, second, priority)
}

/// The delta that takes back another on the document that the base makes.
pub(crate) fn inverted(alloc: Global, delta: &Delta, base: &Delta) -> Result<Delta, Refusal>
    ensures { IsAnswerOf (Inverting delta.now base.now) result }
{
    let document = Document::from_delta(alloc, base)?;
    inverted_on(alloc, delta, &document)
}

/// The delta that makes the document of the first after the second.
pub(crate) fn applied(alloc: Global, document: &Delta, delta: &Delta) -> Result<Delta, Refusal>
    ensures { IsAnswerOf (Applying document.now delta.now) result }
{
    let document = Document::from_delta(alloc, document)?;
    applied_to(alloc, delta, document)
}

fn inverted_on(alloc: Global, delta: &Delta, document: &Document) -> Result<Delta, Refusal>
    ensures { IsAnswerOf (InvertingOn delta.now document.now) result }
{
    invert(alloc, delta, document)
}

fn applied_to(alloc: Global, delta: &Delta, mut document: Document) -> Result<Delta, Refusal>
    ensures { IsAnswerOf (ApplyingOn delta.now document) result }
{
    document.apply(alloc, delta)?;
    let made = document.as_delta(alloc)?;
    Ok(made)
}
