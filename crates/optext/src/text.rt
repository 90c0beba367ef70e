//! A JSON text as a value, and how many members a value has.
ghost use Rattle.std.specs.Prelude.{◌≡◌, ◌⊎◌, IfOk, IfErr, Some, None};
ghost use Rattle.serde_json.specs.View.{view};
ghost use Rattle.optext.specs.Described as described;
ghost use Rattle.optext.specs.Json.{value_of};

use refusal::Refusal;
use serde_json::Value as Json;
use std::alloc::Global;

/// The value of a JSON text, for whose texts, arrays and objects it takes memory. Refused as BadLine where the bytes are
/// no UTF-8, aren't one JSON text, or nest more than 127 levels deep, and as NoMemory.
pub fn read_json(alloc: Global, text: &[u8]) -> Result<Json, Refusal>
    ensures ok { IfOk result (λ value. value_of text.now ≡ Some (view value)) }
    ensures err { IfErr result
        (λ e. (e ≡ Refusal.NoMemory) ⊎ ((e ≡ Refusal.BadLine) × (value_of text.now ≡ None))) }
{
    match Json::from_slice(alloc, text) {
        Ok(value) => Ok(value),
        Err(fault) => Err(if fault.is_memory() {
            Refusal::NoMemory
        } else {
            Refusal::BadLine
        }),
    }
}

/// How many members an object has, 0 for any other value. It takes no memory.
pub fn member_count(value: &Json) -> usize
    ensures { result ≡ described.member_count (view value.now) }
{
    match value.as_object() {
        Some(members) => members.len(),
        None => 0,
    }
}
