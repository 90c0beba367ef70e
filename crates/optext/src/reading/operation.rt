//! One operation.
ghost use Rattle.serde_json.specs.View.{view, members_view};
ghost use Rattle.optext.specs.Answer.{IsRead};
ghost use Rattle.optext.specs.Described.{data_of, operation_of, operation_by, insert_of, embed_of, retain_of, delete_of, length_of};

use crate::reading::maps::{read_attributes, read_changes};
use crate::reading::values::read_value;
use crate::text::member_count;
use attributes::Attrs;
use delta::Op;
use refusal::Refusal;
use serde_json::{Map, Value as Json};
use std::alloc::Global;

/// The greatest length that a message may give: 2^32 - 1 code units.
const MAX_LENGTH: u64 = 4_294_967_295;

/// The operation that a value describes; refused as BadOps where it describes none, or as NoMemory.
pub(crate) fn read_op(alloc: Global, operation: &Json) -> Result<Op, Refusal>
    ensures { IsRead (operation_of (view operation.now)) result }
{
    let attributes = operation.get("attributes");
    let beside = if attributes.is_some() { 1 } else { 0 };
    if member_count(operation) != 1 + beside {
        return Err(Refusal::BadOps);
    }
    let insert = operation.get("insert");
    let retain = operation.get("retain");
    let delete = operation.get("delete");
    read_one_of(alloc, insert, retain, delete, attributes)
}

// exactly one of the first three, and attributes or not on the first two
fn read_one_of(
    alloc: Global,
    insert: Option<&Json>,
    retain: Option<&Json>,
    delete: Option<&Json>,
    attributes: Option<&Json>,
) -> Result<Op, Refusal>
    ensures { IsRead
        (operation_by (data_of insert.entry) (data_of retain.entry) (data_of delete.entry) (data_of attributes.entry))
        result }
{
    match (insert, retain, delete, attributes) {
        (Some(what), None, None, attributes) => read_insert(alloc, what, attributes),
        (None, Some(len), None, attributes) => read_retain(alloc, len, attributes),
        (None, None, Some(len), None) => read_delete(len),
        _ => Err(Refusal::BadOps),
    }
}

fn read_insert(alloc: Global, what: &Json, attributes: Option<&Json>) -> Result<Op, Refusal>
    ensures { IsRead (insert_of (view what.now) (data_of attributes.entry)) result }
{
    let attrs = read_attributes(alloc, attributes)?;
    match what {
        Json::String(text) => Ok(Op::text(String::from_str(alloc, text.as_str())?, attrs)),
        Json::Object(members) => read_embed(alloc, members, attrs),
        _ => Err(Refusal::BadOps),
    }
}

fn read_embed(alloc: Global, members: &Map<String, Json>, attrs: Attrs) -> Result<Op, Refusal>
    ensures { IsRead (embed_of (members_view members.now.entries) attrs) result }
{
    if members.len() > 1 {
        return Err(Refusal::BadOps);
    }
    match members.first_key_value() {
        Some((name, value)) => {
            let value = read_value(alloc, value)?;
            Op::embed(alloc, name.as_str(), value, attrs)
        }
        None => Err(Refusal::BadOps),
    }
}

fn read_retain(alloc: Global, len: &Json, attributes: Option<&Json>) -> Result<Op, Refusal>
    ensures { IsRead (retain_of (view len.now) (data_of attributes.entry)) result }
{
    let len = read_len(len)?;
    let change = read_changes(alloc, attributes)?;
    Ok(Op::retain(len, change))
}

fn read_delete(len: &Json) -> Result<Op, Refusal>
    ensures { IsRead (delete_of (view len.now)) result }
{
    let len = read_len(len)?;
    Ok(Op::delete(len))
}

fn read_len(len: &Json) -> Result<u64, Refusal>
    ensures { IsRead (length_of (view len.now)) result }
{
    match len.as_u64() {
        Some(len) if len <= MAX_LENGTH => Ok(len),
        _ => Err(Refusal::BadOps),
    }
}
