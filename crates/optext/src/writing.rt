//! The array of operations that prints a delta.
ghost use Rattle.std.specs.Prelude.{◌≡◌, All, IfOk, IfSome, OnOk};
ghost use Rattle.attributes.specs.Attributes.{IsKey};
ghost use Rattle.attributes.specs.Scalar.{IsExactScalar};
ghost use Rattle.serde_json.specs.Data.{array, string};
ghost use Rattle.serde_json.specs.View.{view, members_view};
ghost use Rattle.utf16.specs.Units.{units_of, utf8_of};
ghost use Rattle.optext.specs.Laws.{AreTextUnits, IsAttribute, IsAttributeChange, HasSpellableContent, IsReadBack};
ghost use Rattle.optext.specs.Printed.{printed, printed_operation, printed_insert, printed_retain, printed_attributes, printed_changes, printed_embed, printed_scalar, printed_change, attributes_member};

use crate::laws::delta_reads_back;
use attributes::laws::first_entries_ascend;
use attributes::{Attrs, Change, Key, Value, ValueRef};
use delta::{Delta, Op, OpRef};
use serde_json::{Map, Value as Json, json, put};
use std::alloc::{AllocError, Global};
use utf16::laws::text_of_units;

/// The array of a delta's operations, as they are printed. Read again, it is the delta, where that has at most 1,024
/// operations and no length of 2^32 or more. Refused as out of memory alone.
pub fn write_ops(alloc: Global, delta: &Delta) -> Result<Json, AllocError>
    ensures printed { IfOk result (λ value. view value ≡ array (printed delta.now)) }
    ensures reads_back { OnOk result (IsReadBack delta.now) }
{
    delta_reads_back();
    let ops = delta.ops();
    let mut items = Vec::with_capacity(alloc, ops.len())?;
    for op in ops {
        let item = write_op(alloc, op)?;
        items.push(item)?;
    }
    Ok(Json::Array(items))
}

fn write_op(alloc: Global, op: &Op) -> Result<Json, AllocError>
    ensures printed { IfOk result (λ value. view value ≡ printed_operation op.now) }
    ensures kept { OnOk result (HasSpellableContent op.now) }
{
    match op.get() {
        OpRef::Text(text, attrs) => {
            let what = write_text(alloc, text)?;
            write_insert(alloc, what, attrs)
        }
        OpRef::Embed(name, value, attrs) => {
            let what = write_embed(alloc, name, value)?;
            write_insert(alloc, what, attrs)
        }
        OpRef::Retain(len, change) => write_retain(alloc, len, change),
        OpRef::Delete(len) => Ok(json!(in alloc; {"delete": len})?),
    }
}

fn write_text(alloc: Global, text: &str) -> Result<Json, AllocError>
    ensures text { IfOk result (λ value. view value ≡ string (utf8_of (units_of text.now))) }
    ensures kept { OnOk result (AreTextUnits (units_of text.now)) }
{
    text_of_units();
    Ok(Json::try_from_str(alloc, text)?)
}

fn write_embed(alloc: Global, name: &Key, value: &Value) -> Result<Json, AllocError>
    ensures embed { IfOk result (λ embed. view embed ≡ printed_embed name.now value.now) }
    ensures kept { OnOk result (IsKey name.now × IsExactScalar value.now) }
{
    let mut members = Map::new(alloc);
    let value = write_value(alloc, value)?;
    put(&mut members, alloc, name.as_str(), value)?;
    Ok(Json::Object(members))
}

fn write_insert(alloc: Global, what: Json, attrs: &Attrs) -> Result<Json, AllocError>
    ensures printed { IfOk result (λ value. view value ≡ printed_insert attrs.now (view what)) }
    ensures kept { OnOk result (All IsAttribute attrs.now.entries) }
{
    let attributes = write_attributes(alloc, attrs)?;
    let mut members = begin(alloc, attributes)?;
    put(&mut members, alloc, "insert", what)?;
    Ok(Json::Object(members))
}

fn write_retain(alloc: Global, len: u64, change: &Change) -> Result<Json, AllocError>
    ensures printed { IfOk result (λ value. view value ≡ printed_retain change.now len) }
    ensures kept { OnOk result (All IsAttributeChange change.now.entries) }
{
    let attributes = write_change(alloc, change)?;
    let mut members = begin(alloc, attributes)?;
    put(&mut members, alloc, "retain", Json::from(len))?;
    Ok(Json::Object(members))
}

// an object's members with the attributes, where there are any
fn begin(alloc: Global, attributes: Map<String, Json>) -> Result<Map<String, Json>, AllocError>
    ensures begun { IfOk result (λ members.
        members_view members.entries ≡ attributes_member (members_view attributes.entries)) }
{
    let mut members = Map::new(alloc);
    if attributes.is_empty() {
        return Ok(members);
    }
    put(&mut members, alloc, "attributes", Json::Object(attributes))?;
    Ok(members)
}

fn write_attributes(alloc: Global, attrs: &Attrs) -> Result<Map<String, Json>, AllocError>
    ensures printed { IfOk result (λ members. members_view members.entries ≡ printed_attributes attrs.now) }
    ensures kept { OnOk result (All IsAttribute attrs.now.entries) }
{
    first_entries_ascend();
    let mut members = Map::new(alloc);
    for (name, value) in attrs.entries() {
        let value = write_value(alloc, value)?;
        put(&mut members, alloc, name.as_str(), value)?;
    }
    Ok(members)
}

fn write_change(alloc: Global, change: &Change) -> Result<Map<String, Json>, AllocError>
    ensures printed { IfOk result (λ members. members_view members.entries ≡ printed_changes change.now) }
    ensures kept { OnOk result (All IsAttributeChange change.now.entries) }
{
    first_entries_ascend();
    let mut members = Map::new(alloc);
    for (name, value) in change.entries() {
        let value = write_change_value(alloc, value)?;
        put(&mut members, alloc, name.as_str(), value)?;
    }
    Ok(members)
}

fn write_value(alloc: Global, value: &Value) -> Result<Json, AllocError>
    ensures printed { IfOk result (λ json. view json ≡ printed_scalar value.now) }
    ensures kept { OnOk result (IsExactScalar value.now) }
{
    match value.get() {
        ValueRef::Text(text) => Ok(Json::try_from_str(alloc, text)?),
        ValueRef::Whole(number) => Ok(Json::from(number)),
        ValueRef::Flag(flag) => Ok(Json::from(flag)),
    }
}

fn write_change_value(alloc: Global, value: &Option<Value>) -> Result<Json, AllocError>
    ensures printed { IfOk result (λ json. view json ≡ printed_change value.now) }
    ensures kept { OnOk result (IfSome value.now IsExactScalar) }
{
    match value {
        Some(value) => write_value(alloc, value),
        None => Ok(Json::Null),
    }
}
