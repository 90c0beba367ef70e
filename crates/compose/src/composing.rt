//! One delta for several.
ghost use Rattle.std.specs.Prelude.{◌≡◌, ◌<◌, ◌≤◌, ◌^◌, List, [], ◌∷◌, IfOk, OnOk, IfErr};
ghost use Rattle.delta.specs.Element.{Element};
ghost use Rattle.compose.specs.Composes.{Composes};
ghost use Rattle.compose.specs.Composed.{one_for};
ghost use Rattle.compose.specs.Many.{many, AreDefined, ComposesAll, lengths_of};
ghost use Rattle.compose.specs.Whole.{PartNone, IsWhole};
ghost use Rattle.compose.specs.Outcome.{CanCompose, CanComposeAll, IsComposeRefused, IsComposeAllRefused};

use crate::laying::{end, lay, lay_over};
use delta::{Builder, Cursor, Delta};
use refusal::Refusal;
use std::alloc::Global;

/// The delta with the effect of the first, and then the second. Refused as CutsPair where the second cuts a surrogate
/// pair of the text that the first inserts, else as BadOps where the base length or the output length of the delta would
/// pass 2^48, and as NoMemory. Its time is linear in the operations of both and in the text that it copies.
pub fn compose(alloc: Global, first: &Delta, second: &Delta) -> Result<Delta, Refusal>
    ensures one { IfOk result (λ one. one ≡ one_for first.now second.now) }
    ensures composes { IfOk result (λ one. Composes one first.now second.now) }
    ensures accepted { OnOk result (CanCompose first.now second.now) }
    ensures only { IfErr result (IsComposeRefused first.now second.now) }
    ensures long { result ≡ Err Refusal.BadOps → 2 ^ 48 < lengths_of (first.now ∷ second.now ∷ []) }
{
    let mut out = Builder::new(alloc);
    let rest = lay(
        alloc,
        Cursor::new(first.ops()),
        Cursor::new(second.ops()),
        &mut out,
    )?;
    end(alloc, rest, out)
}

/// The delta with the effect of all in turn, from the left; of none, the empty delta. Refused as `compose` refuses the
/// first delta that can't be composed with those before it; where all are defined in turn on some document and part no pair of it, and
/// their lengths sum to at most 2^48, as out of memory alone. Each step takes the operations that are there apart and moves
/// those that the next delta leaves whole, with their texts: after its insertion a text is copied only in a step that parts
/// it, or that merges it with the text before it. A step's time is linear in the operations that are there, those of the
/// next delta, and the text that is copied.
pub fn compose_many(alloc: Global, deltas: &[Delta]) -> Result<Delta, Refusal>
    ensures one { IfOk result (λ one. one ≡ many deltas.now) }
    ensures composes { IfOk result (λ one. ComposesAll one deltas.now) }
    ensures whole { IfOk result (λ one. IsWhole one deltas.now) }
    ensures accepted { OnOk result (CanComposeAll [] deltas.now) }
    ensures only { IfErr result (IsComposeAllRefused [] deltas.now) }
    ensures long { result ≡ Err Refusal.BadOps → 2 ^ 48 < lengths_of deltas.now }
    ensures memory { IfErr result (λ e. (d : List Element) → AreDefined d deltas.now → PartNone d deltas.now
        → lengths_of deltas.now ≤ 2 ^ 48 → e ≡ Refusal.NoMemory) }
{
    let mut one = Builder::new(alloc).finish();
    for delta in deltas {
        one = compose_onto(alloc, one, delta)?;
    }
    Ok(one)
}

// the same as `compose` of both, where the first is used up: what the second leaves whole of it is moved
fn compose_onto(alloc: Global, first: Delta, second: &Delta) -> Result<Delta, Refusal>
    ensures one { IfOk result (λ one. one ≡ one_for first second.now) }
    ensures accepted { OnOk result (CanCompose first second.now) }
    ensures only { IfErr result (IsComposeRefused first second.now) }
{
    let mut out = Builder::new(alloc);
    let mut rest = Cursor::new(second.ops());
    for op in first.into_ops(alloc)? {
        rest = lay_over(alloc, op, rest, &mut out)?;
    }
    end(alloc, rest, out)
}
