//! Writing of values, and of what a change makes of a name.
ghost use Rattle.std.specs.Prelude.{◌≡◌, ◌++◌, OnOk};
ghost use Rattle.journal.specs.DeltaSpelling as spelling;
ghost use Rattle.revision.specs.Spellable.{IsValue, IsNewValue};

use super::{put_number64, put_text32};
use attributes::{Value, ValueRef};
use std::alloc::AllocError;

/// Writes a value.
#[tactic(auto, unfolding(crate::specs::DeltaSpelling::value))]
pub(super) fn put_value(out: &mut Vec<u8>, value: &Value) -> Result<(), AllocError>
    requires { IsValue value.now }
    ensures { OnOk result (out.new.items ≡ out.old.items ++ spelling.value value.now) }
{
    match value.get() {
        ValueRef::Flag(false) => out.push(1)?,
        ValueRef::Flag(true) => out.push(2)?,
        ValueRef::Whole(number) => {
            out.push(3)?;
            put_number64(out, number.cast_unsigned())?;
        }
        ValueRef::Text(text) => {
            out.push(4)?;
            put_text32(out, text)?;
        }
    }
    Ok(())
}

/// Writes a new value, or that a name is removed.
#[tactic(auto, unfolding(crate::specs::DeltaSpelling::new_value))]
pub(super) fn put_new_value(out: &mut Vec<u8>, value: &Option<Value>) -> Result<(), AllocError>
    requires { IsNewValue value.now }
    ensures { OnOk result (out.new.items ≡ out.old.items ++ spelling.new_value value.now) }
{
    match value {
        Some(value) => put_value(out, value)?,
        None => out.push(0)?,
    }
    Ok(())
}
