//! Writing of names with what stands at each: of attributes, and of changes.
ghost use Rattle.std.specs.Prelude.{◌≡◌, ◌<◌, ◌^◌, ◌++◌, length, OnOk};
ghost use Rattle.journal.specs.Spelling.{text16};
ghost use Rattle.journal.specs.DeltaSpelling as spelling;
ghost use Rattle.revision.specs.Spellable.{IsValue, IsNewValue, IsPair, IsPairs};

use super::values::{put_new_value, put_value};
use super::{put_number16, put_number32};
use attributes::{Attrs, Change, Key, Value};
use std::alloc::AllocError;

/// Writes attributes.
#[tactic(auto, unfolding(crate::specs::DeltaSpelling::pairs))]
pub(super) fn put_attributes(out: &mut Vec<u8>, attrs: &Attrs) -> Result<(), AllocError>
    requires { IsPairs IsValue attrs.now.entries }
    ensures { OnOk result (out.new.items ≡ out.old.items ++ spelling.pairs spelling.value attrs.now.entries) }
{
    let entries = attrs.entries();
    put_number32(out, entries.len() as u32)?;
    for entry in entries {
        put_attribute_pair(out, entry)?;
    }
    Ok(())
}

/// Writes a change.
#[tactic(auto, unfolding(crate::specs::DeltaSpelling::pairs))]
pub(super) fn put_change(out: &mut Vec<u8>, change: &Change) -> Result<(), AllocError>
    requires { IsPairs IsNewValue change.now.entries }
    ensures { OnOk result (out.new.items ≡ out.old.items ++ spelling.pairs spelling.new_value change.now.entries) }
{
    let entries = change.entries();
    put_number32(out, entries.len() as u32)?;
    for entry in entries {
        put_change_pair(out, entry)?;
    }
    Ok(())
}

#[tactic(auto, unfolding(crate::specs::DeltaSpelling::pair))]
fn put_attribute_pair(out: &mut Vec<u8>, entry: &(Key, Value)) -> Result<(), AllocError>
    requires { IsPair IsValue entry.now }
    ensures { OnOk result (out.new.items ≡ out.old.items ++ spelling.pair spelling.value entry.now) }
{
    put_text16(out, entry.0.as_str())?;
    put_value(out, &entry.1)?;
    Ok(())
}

#[tactic(auto, unfolding(crate::specs::DeltaSpelling::pair))]
fn put_change_pair(out: &mut Vec<u8>, entry: &(Key, Option<Value>)) -> Result<(), AllocError>
    requires { IsPair IsNewValue entry.now }
    ensures { OnOk result (out.new.items ≡ out.old.items ++ spelling.pair spelling.new_value entry.now) }
{
    put_text16(out, entry.0.as_str())?;
    put_new_value(out, &entry.1)?;
    Ok(())
}

/// Writes a text of less than 2^16 bytes behind its length.
#[tactic(auto, unfolding(crate::specs::Spelling::text16))]
pub(in crate::batch) fn put_text16(out: &mut Vec<u8>, text: &str) -> Result<(), AllocError>
    requires { length text.now < 2 ^ 16 }
    ensures { OnOk result (out.new.items ≡ out.old.items ++ text16 text.now) }
{
    put_number16(out, text.len() as u16)?;
    out.extend_from_slice(text.as_bytes())?;
    Ok(())
}
