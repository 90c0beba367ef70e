//! A caller of each crate's main call.
ghost use Rattle.std.specs.Prelude.{◌≡◌, ◌≤◌, [], ◌∷◌, List, Ok, take, length, string_bytes, IfOk, OnOk, OnErr};
ghost use Rattle.utf16.specs.Units.{units_of};
ghost use Rattle.attributes.specs.Map.{empty};
ghost use Rattle.attributes.specs.Attributes.{changed};
ghost use Rattle.delta.specs.Element.{Element};
ghost use Rattle.delta.specs.Operation.{Operation, retain, insert_text, base_of};
ghost use Rattle.delta.specs.Gaps.{counted, apply};
ghost use Rattle.delta.specs.Normal.{nf};
ghost use Rattle.delta.specs.Places.{IsDefined};
ghost use Rattle.optext.specs.Described.{delta_of};
ghost use Rattle.optext.specs.Printed.{printed};
ghost use Rattle.algebra.specs.Outcomes.{Following, Composing};
ghost use Rattle.algebra.specs.Text.{text_of};
ghost use Rattle.algebra.specs.Words.{deltas_in};
ghost use Rattle.serde_json.specs.Data.{array};
ghost use Rattle.serde_json.specs.View.{view, items_view};

use algebra::Task;
use attributes::{Attrs, Change};
use compose::compose;
use delta::{Builder, Delta, Op};
use document::Document;
use optext::{read_ops, write_ops};
use refusal::Refusal;
use serde_json::Value as Json;
use std::alloc::Global;
use utf16::{Cut, split_at16};
use xform::transform;

/// The first code units of a text; refused where the text is shorter, or where a pair would be parted.
pub fn first_units(text: &str, count: u64) -> Result<&str, Cut>
    ensures { IfOk result (λ front. units_of front.now ≡ take count (units_of text.now)) }
{
    let (front, _) = split_at16(text, count)?;
    Ok(front)
}

/// The attributes after a change, and the change that takes it back.
pub fn change_attributes(
    alloc: Global,
    attrs: &Attrs,
    change: &Change,
) -> Result<(Attrs, Change), Refusal>
    ensures after { IfOk result (λ done. done.0 ≡ changed attrs.now change.now) }
    ensures back { IfOk result (λ done. changed done.0 done.1 ≡ attrs.now) }
{
    attributes::laws::changed_back();
    let after = attributes::apply(alloc, attrs, change)?;
    let back = attributes::invert(alloc, change, attrs)?;
    Ok((after, back))
}

/// The delta that inserts a text behind so many code units.
pub fn insert_behind(alloc: Global, kept: u64, text: String) -> Result<Delta, Refusal>
    ensures { IfOk result (λ delta. delta
        ≡ nf (counted (retain kept empty ∷ insert_text (units_of (string_bytes text)) empty ∷ []))) }
{
    delta::laws::built_in_pieces();
    delta::laws::normal_of_built();
    let mut builder = Builder::new(alloc);
    builder.push(Op::retain(kept, Change::new(alloc)))?;
    builder.push(Op::text(text, Attrs::new(alloc)))?;
    Ok(builder.finish())
}

/// Applies a delta, and gives the document's new length. If refused, the document is unchanged.
pub fn edit(alloc: Global, document: &mut Document, delta: &Delta) -> Result<u64, Refusal>
    ensures document { OnOk result (document.new ≡ apply document.old (counted delta.now)) }
    ensures len { IfOk result (λ len. len ≡ length (apply document.old (counted delta.now))) }
    ensures err { OnErr result (document.new ≡ document.old) }
{
    document.apply(alloc, delta)?;
    Ok(document.len16())
}

/// Applies two deltas in turn as one. If refused, the document is unchanged.
pub fn apply_both(
    alloc: Global,
    document: &mut Document,
    first: &Delta,
    second: &Delta,
) -> Result<(), Refusal>
    ensures both { OnOk result (IsDefined document.old (counted first.now)
        → document.new ≡ apply (apply document.old (counted first.now)) (counted second.now)) }
    ensures err { OnErr result (document.new ≡ document.old) }
{
    compose::laws::effect_of_composed();
    delta::laws::effect_of_normal();
    let one = compose(alloc, first, second)?;
    document.apply(alloc, &one)
}

/// Each of two deltas of one document as it is after the other: in either order they lead to the same document.
pub fn transform_both(alloc: Global, one: &Delta, other: &Delta) -> Result<(Delta, Delta), Refusal>
    ensures { IfOk result (λ moved. (document : List Element)
        → base_of one.now ≤ length document → base_of other.now ≤ length document
        → apply (apply document (counted one.now)) (counted moved.1)
        ≡ apply (apply document (counted other.now)) (counted moved.0)) }
{
    xform::laws::both_ways();
    delta::laws::effect_of_normal();
    delta::laws::units_counted();
    let one_moved = transform(alloc, other, one, false)?;
    let other_moved = transform(alloc, one, other, true)?;
    Ok((one_moved, other_moved))
}

/// The operations of an array as they are printed in normal form.
pub fn print_normal(alloc: Global, operations: &[Json]) -> Result<Json, Refusal>
    ensures { IfOk result (λ value.
        (delta : List Operation) × (delta_of (items_view operations.now) ≡ Ok delta) × (view value ≡ array (printed delta))) }
{
    let delta = read_ops(alloc, operations)?;
    Ok(write_ops(alloc, &delta)?)
}

/// The text of the one delta for the two that these texts describe.
pub fn compose_texts(alloc: Global, first: &str, second: &str) -> Result<String, Refusal>
    ensures { IfOk result (λ text. (one : List Operation)
        × Following (deltas_in first.now second.now) (λ deltas. Composing deltas.0 deltas.1) (Ok one)
        × (string_bytes text ≡ text_of one)) }
{
    let task = Task::Compose { first, second };
    task.answer(alloc)
}
