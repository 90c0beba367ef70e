//! Writing of operations.
ghost use Rattle.std.specs.Prelude.{◌≡◌, ◌++◌, OnOk};
ghost use Rattle.utf16.specs.Units.{units_of};
ghost use Rattle.delta.specs.Operation.{insert_text};
ghost use Rattle.journal.specs.DeltaSpelling as spelling;
ghost use Rattle.revision.specs.Spellable.{IsOperation, IsSpellable};

use super::pairs::{put_attributes, put_change, put_text16};
use super::values::put_value;
use super::{put_number32, put_number64, put_text32};
use attributes::Attrs;
use delta::{Delta, Op, OpRef};
use std::alloc::AllocError;

/// Appends the spelling of a delta.
#[tactic(auto, unfolding(crate::specs::DeltaSpelling::delta))]
pub fn write_delta(out: &mut Vec<u8>, delta: &Delta) -> Result<(), AllocError>
    requires { IsSpellable delta.now }
    ensures { OnOk result (out.new.items ≡ out.old.items ++ spelling.delta delta.now) }
{
    let ops = delta.ops();
    put_number32(out, ops.len() as u32)?;
    for op in ops {
        put_operation(out, op)?;
    }
    Ok(())
}

#[tactic(auto, unfolding(crate::specs::DeltaSpelling::operation))]
fn put_operation(out: &mut Vec<u8>, op: &Op) -> Result<(), AllocError>
    requires { IsOperation op.now }
    ensures { OnOk result (out.new.items ≡ out.old.items ++ spelling.operation op.now) }
{
    match op.get() {
        OpRef::Text(text, attrs) => put_text_insert(out, text, attrs)?,
        OpRef::Embed(name, value, attrs) => {
            out.push(2)?;
            put_text16(out, name.as_str())?;
            put_value(out, value)?;
            put_attributes(out, attrs)?;
        }
        OpRef::Retain(len, change) => {
            out.push(3)?;
            put_number64(out, len)?;
            put_change(out, change)?;
        }
        OpRef::Delete(len) => {
            out.push(4)?;
            put_number64(out, len)?;
        }
    }
    Ok(())
}

#[tactic(auto, unfolding(crate::specs::DeltaSpelling::operation))]
fn put_text_insert(out: &mut Vec<u8>, text: &str, attrs: &Attrs) -> Result<(), AllocError>
    requires { IsOperation (insert_text (units_of text.now) attrs.now) }
    ensures { OnOk result (out.new.items ≡ out.old.items
        ++ spelling.operation (insert_text (units_of text.now) attrs.now)) }
{
    out.push(1)?;
    put_text32(out, text)?;
    put_attributes(out, attrs)?;
    Ok(())
}
