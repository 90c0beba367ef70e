//! Values and names of attributes and embeds.
ghost use Rattle.serde_json.specs.View.{view, number_view};
ghost use Rattle.optext.specs.Answer.{IsRead};
ghost use Rattle.optext.specs.Described.{key_of, scalar_of, change_of, scalar_of_number};

use attributes::{Key, Value};
use refusal::Refusal;
use serde_json::{Number, Value as Json};
use std::alloc::Global;

/// The name of an attribute or an embed.
pub(crate) fn read_key(alloc: Global, name: &str) -> Result<Key, Refusal>
    ensures { IsRead (key_of name.now) result }
{
    Key::new(alloc, name)
}

/// The value of an attribute or an embed.
pub(crate) fn read_value(alloc: Global, value: &Json) -> Result<Value, Refusal>
    ensures { IsRead (scalar_of (view value.now)) result }
{
    match value {
        Json::String(text) => Ok(Value::text(alloc, text.as_str())?),
        Json::Number(number) => read_whole(number),
        Json::Bool(flag) => Ok(Value::flag(*flag)),
        Json::Null | Json::Array(_) | Json::Object(_) => Err(Refusal::BadOps),
    }
}

fn read_whole(number: &Number) -> Result<Value, Refusal>
    ensures { IsRead (scalar_of_number (number_view number.now)) result }
{
    match number.as_i64() {
        Some(whole) => Value::whole(whole),
        None => Err(Refusal::BadOps),
    }
}

/// What a change makes of a name: a value, or null, which removes the name.
pub(crate) fn read_change_value(alloc: Global, value: &Json) -> Result<Option<Value>, Refusal>
    ensures { IsRead (change_of (view value.now)) result }
{
    if value.is_null() {
        return Ok(None);
    }
    let value = read_value(alloc, value)?;
    Ok(Some(value))
}
