//! Attributes, and changes of attributes.
ghost use Rattle.serde_json.specs.View.{members_view};
ghost use Rattle.attributes.specs.Map.{empty};
ghost use Rattle.optext.specs.Answer.{IsRead};
ghost use Rattle.optext.specs.Described.{data_of, attributes_of, changes_of, with_members, scalar_of, change_of};

use crate::reading::values::{read_change_value, read_key, read_value};
use attributes::{Attrs, Change};
use refusal::Refusal;
use serde_json::{Map, Value as Json};
use std::alloc::Global;

/// The attributes of an insert; none where they are left out.
pub(crate) fn read_attributes(alloc: Global, attributes: Option<&Json>) -> Result<Attrs, Refusal>
    ensures { IsRead (attributes_of (data_of attributes.entry)) result }
{
    match attributes {
        None => Ok(Attrs::new(alloc)),
        Some(Json::Object(members)) => read_attrs(alloc, members),
        Some(_) => Err(Refusal::BadOps),
    }
}

fn read_attrs(alloc: Global, members: &Map<String, Json>) -> Result<Attrs, Refusal>
    ensures { IsRead (with_members scalar_of empty (members_view members.now.entries)) result }
{
    let mut attrs = Attrs::new(alloc);
    for (name, value) in members {
        let key = read_key(alloc, name.as_str())?;
        let value = read_value(alloc, value)?;
        attrs.set(key, value)?;
    }
    Ok(attrs)
}

/// The change of attributes of a retain; none where it is left out.
pub(crate) fn read_changes(alloc: Global, attributes: Option<&Json>) -> Result<Change, Refusal>
    ensures { IsRead (changes_of (data_of attributes.entry)) result }
{
    match attributes {
        None => Ok(Change::new(alloc)),
        Some(Json::Object(members)) => read_change(alloc, members),
        Some(_) => Err(Refusal::BadOps),
    }
}

fn read_change(alloc: Global, members: &Map<String, Json>) -> Result<Change, Refusal>
    ensures { IsRead (with_members change_of empty (members_view members.now.entries)) result }
{
    let mut change = Change::new(alloc);
    for (name, value) in members {
        let key = read_key(alloc, name.as_str())?;
        let value = read_change_value(alloc, value)?;
        change.set(key, value)?;
    }
    Ok(change)
}
