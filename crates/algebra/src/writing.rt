//! The text of a delta.
ghost use Rattle.std.specs.Prelude.{◌≡◌, IfOk};
ghost use Rattle.std.specs.String.{string_bytes};
ghost use Rattle.algebra.specs.Text.{text_of};

use delta::Delta;
use optext::laws::printed_without_floats;
use optext::write_ops;
use serde_json::json;
use std::alloc::{AllocError, Global};

/// The text `{"ops":[..]}` of a delta, without blanks. Refused as out of memory alone.
pub fn write_delta(alloc: Global, delta: &Delta) -> Result<String, AllocError>
    ensures printed { IfOk result (λ text. string_bytes text ≡ text_of delta.now) }
{
    printed_without_floats();
    let operations = write_ops(alloc, delta)?;
    let value = json!(in alloc; {"ops": operations})?;
    Ok(value.to_string(alloc)?)
}
