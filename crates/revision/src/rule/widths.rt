//! Widths: how many bytes a spelling has. They take no memory.
ghost use Rattle.std.specs.Prelude.{◌≡◌, ◌+◌, ◌-◌, ◌<◌, ◌^◌, min, length};
ghost use Rattle.utf16.specs.Units.{units_of};
ghost use Rattle.attributes.specs.Scalar.{text_scalar};
ghost use Rattle.delta.specs.Operation.{insert_text};
ghost use Rattle.revision.specs.Spellable.{IsValue, IsNewValue, IsName, IsPair, IsPairs, IsOperation, IsSpellable};
ghost use Rattle.revision.specs.Width as wide;

use attributes::{Attrs, Change, Key, Value, ValueRef};
use delta::{Delta, Op, OpRef};

/// How many bytes the spelling of a delta has; 2^64 - 1 where it would have more.
pub fn delta_width(delta: &Delta) -> u64
    ensures width { result ≡ min (wide.delta_width delta.now) (2 ^ 64 - 1) }
    ensures short { result < 2 ^ 32 → IsSpellable delta.now }
{
    let ops = delta.ops();
    let mut width: u64 = 4;
    for op in ops {
        width = width.saturating_add(operation_width(op));
    }
    width
}

fn operation_width(op: &Op) -> u64
    ensures width { result ≡ min (wide.operation_width op.now) (2 ^ 64 - 1) }
    ensures short { result < 2 ^ 32 → IsOperation op.now }
{
    match op.get() {
        OpRef::Text(text, attrs) => text_insert_width(text, attrs),
        OpRef::Embed(name, value, attrs) => embed_insert_width(name, value, attrs),
        OpRef::Retain(_, change) => change_width(change).saturating_add(9),
        OpRef::Delete(_) => 9,
    }
}

fn text_insert_width(text: &str, attrs: &Attrs) -> u64
    ensures width { result ≡ min (wide.operation_width (insert_text (units_of text.now) attrs.now)) (2 ^ 64 - 1) }
    ensures short { result < 2 ^ 32 → IsOperation (insert_text (units_of text.now) attrs.now) }
{
    attributes_width(attrs).saturating_add(5 + text.len() as u64)
}

fn embed_insert_width(name: &Key, value: &Value, attrs: &Attrs) -> u64
    ensures width { result
        ≡ min (3 + length name.now + wide.value_width value.now + wide.pairs_width wide.value_width attrs.now.entries)
        (2 ^ 64 - 1) }
    ensures name { IsName name.now }
    ensures value { result < 2 ^ 32 → IsValue value.now }
    ensures attributes { result < 2 ^ 32 → IsPairs IsValue attrs.now.entries }
{
    let width = 1 + name_width(name) + value_width(value);
    attributes_width(attrs).saturating_add(width)
}

fn attributes_width(attrs: &Attrs) -> u64
    ensures width { result ≡ min (wide.pairs_width wide.value_width attrs.now.entries) (2 ^ 64 - 1) }
    ensures short { result < 2 ^ 32 → IsPairs IsValue attrs.now.entries }
{
    let entries = attrs.entries();
    let mut width: u64 = 4;
    for entry in entries {
        width = width.saturating_add(attribute_width(entry));
    }
    width
}

fn change_width(change: &Change) -> u64
    ensures width { result ≡ min (wide.pairs_width wide.new_value_width change.now.entries) (2 ^ 64 - 1) }
    ensures short { result < 2 ^ 32 → IsPairs IsNewValue change.now.entries }
{
    let entries = change.entries();
    let mut width: u64 = 4;
    for entry in entries {
        width = width.saturating_add(changed_width(entry));
    }
    width
}

fn attribute_width(entry: &(Key, Value)) -> u64
    ensures width { result ≡ wide.pair_width wide.value_width entry.now }
    ensures short { result < 2 ^ 32 → IsPair IsValue entry.now }
{
    let name = name_width(&entry.0);
    name + value_width(&entry.1)
}

fn changed_width(entry: &(Key, Option<Value>)) -> u64
    ensures width { result ≡ wide.pair_width wide.new_value_width entry.now }
    ensures short { result < 2 ^ 32 → IsPair IsNewValue entry.now }
{
    let name = name_width(&entry.0);
    name + new_value_width(&entry.1)
}

fn name_width(name: &Key) -> u64
    ensures width { result ≡ 2 + length name.now }
    ensures bound { result < 67 }
    ensures name { IsName name.now }
{
    2 + name.as_str().len() as u64
}

fn new_value_width(value: &Option<Value>) -> u64
    ensures width { result ≡ wide.new_value_width value.now }
    ensures bound { result < 2 ^ 63 + 5 }
    ensures short { result < 2 ^ 32 → IsNewValue value.now }
{
    match value {
        Some(value) => value_width(value),
        None => 1,
    }
}

fn value_width(value: &Value) -> u64
    ensures width { result ≡ wide.value_width value.now }
    ensures bound { result < 2 ^ 63 + 5 }
    ensures short { result < 2 ^ 32 → IsValue value.now }
{
    match value.get() {
        ValueRef::Flag(_) => 1,
        ValueRef::Whole(_) => 9,
        ValueRef::Text(text) => text_value_width(text),
    }
}

fn text_value_width(text: &str) -> u64
    ensures width { result ≡ 5 + length text.now }
    ensures bound { result < 2 ^ 63 + 5 }
    ensures short { result < 2 ^ 32 → IsValue (text_scalar text.now) }
{
    5 + text.len() as u64
}
