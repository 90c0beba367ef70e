//! The delta that undoes one.
ghost use Rattle.std.specs.Prelude.{◌≡◌, ◌↔◌, IfOk, OnOk, IfErr};
ghost use Rattle.delta.specs.Gaps.{counted, apply};
ghost use Rattle.delta.specs.Normal.{nf};
ghost use Rattle.delta.specs.Places.{IsDefined};
ghost use Rattle.compose.specs.Inverse.{inverse};
ghost use Rattle.compose.specs.Outcome.{CanInvert, IsInvertRefused};

use crate::undoing::undo;
use delta::Delta;
use document::Document;
use refusal::Refusal;
use std::alloc::Global;

/// The delta that takes back another on a document: after both the document is unchanged. Refused as PastEnd where the delta
/// reaches past the end of the document, else as CutsPair where it parts a surrogate pair of it; and as NoMemory. (That the
/// document would have more than 2^48 units after the delta is refused by `Document::apply` alone.) It looks only at what the delta
/// deletes or changes, copies the text that it deletes once, and steps over the rest chunk by chunk: linear in the operations, the
/// chunks, and the runs of those in which an operation begins or ends or which it deletes or changes.
pub fn invert(alloc: Global, delta: &Delta, document: &Document) -> Result<Delta, Refusal>
    ensures one { IfOk result (λ back. back ≡ nf (inverse (counted delta.now) document.now)) }
    ensures undoes { IfOk result (λ back. apply (apply document.now (counted delta.now)) (counted back)
        ≡ document.now) }
    ensures past_end { (result ≡ Err Refusal.PastEnd) ↔ ¬ (IsDefined document.now (counted delta.now)) }
    ensures accepted { OnOk result (CanInvert document.now (counted delta.now)) }
    ensures only { IfErr result (IsInvertRefused document.now (counted delta.now)) }
{
    match document.fits(delta) {
        Ok(_) => Ok(undo(alloc, document, delta)?),
        Err(refusal) => Err(refusal),
    }
}
