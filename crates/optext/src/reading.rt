//! The delta that an array of operations describes.
ghost use Rattle.serde_json.specs.View.{items_view};
ghost use Rattle.optext.specs.Answer.{IsAnswer};
ghost use Rattle.optext.specs.Described.{delta_of};

mod maps;
mod operation;
mod values;

use crate::reading::operation::read_op;
use delta::{Builder, Delta, laws};
use refusal::Refusal;
use serde_json::Value as Json;
use std::alloc::Global;

/// The most operations of an array.
pub const MAX_OPERATIONS: usize = 1024;

/// The delta of an array's operations, in normal form. Refused as TooManyOps above 1,024 operations, else as BadOps
/// where one of the values describes no operation or the delta's base length or output length would pass 2^48 code
/// units, and as NoMemory.
pub fn read_ops(alloc: Global, operations: &[Json]) -> Result<Delta, Refusal>
    ensures { IsAnswer (delta_of (items_view operations.now)) result }
{
    if operations.len() > MAX_OPERATIONS {
        return Err(Refusal::TooManyOps);
    }
    laws::built_in_pieces();
    laws::normal_of_built();
    laws::lengths_of_built();
    laws::bound_of_built();
    let mut builder = Builder::new(alloc);
    for operation in operations {
        let op = read_op(alloc, operation)?;
        builder.push(op)?;
    }
    Ok(builder.finish())
}
