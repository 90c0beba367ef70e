//! Numbers and texts by themselves, for layers above that spell other things than batches.
ghost use Rattle.std.specs.Prelude.{◌≡◌, ◌↔◌, ◌<◌, ◌^◌, ◌++◌, ℕ, List, None, true, length, OnOk, IfSome, IfNone};
ghost use Rattle.std.specs.Int.{w32, w64};
ghost use Rattle.std.specs.Str.{is_utf8};
ghost use Rattle.journal.specs.Spelling as spelling;

use super::reading::{number32, number64, text16};
use super::writing::{put_number32, put_number64, put_text16};
use std::alloc::AllocError;

/// The number that the first four bytes spell, with the bytes behind them. None where there are fewer.
pub fn read_number32(bytes: &[u8]) -> Option<(u32, &[u8])>
    ensures found { IfSome result (λ x. bytes.now ≡ spelling.number w32 x.0 ++ x.1.now) }
    ensures none { result ≡ None ↔ (length bytes.now < 4) }
{
    match number32(bytes) {
        Ok((number, rest)) => Some((number, rest)),
        Err(_) => None,
    }
}

/// The number that the first eight bytes spell, with the bytes behind them. None where there are fewer.
pub fn read_number64(bytes: &[u8]) -> Option<(u64, &[u8])>
    ensures found { IfSome result (λ x. bytes.now ≡ spelling.number w64 x.0 ++ x.1.now) }
    ensures none { result ≡ None ↔ (length bytes.now < 8) }
{
    match number64(bytes) {
        Ok((number, rest)) => Some((number, rest)),
        Err(_) => None,
    }
}

/// The text of less than 2^16 bytes whose spelling begins the bytes, with the bytes behind it, or none.
pub fn read_text16(bytes: &[u8]) -> Option<(&str, &[u8])>
    ensures found { IfSome result (λ x. (length x.0.now < 2 ^ 16) × (bytes.now ≡ spelling.text16 x.0.now ++ x.1.now)) }
    ensures none { IfNone result ((text rest : List ℕ) → length text < 2 ^ 16 → is_utf8 text ≡ true
        → bytes.now ≡ spelling.text16 text ++ rest → ⊥) }
{
    match text16(bytes) {
        Ok((text, rest)) => Some((text, rest)),
        Err(_) => None,
    }
}

/// Appends the spelling of a number in four bytes.
pub fn write_number32(out: &mut Vec<u8>, number: u32) -> Result<(), AllocError>
    ensures { OnOk result (out.new.items ≡ out.old.items ++ spelling.number w32 number) }
{
    put_number32(out, number)?;
    Ok(())
}

/// Appends the spelling of a number in eight bytes.
pub fn write_number64(out: &mut Vec<u8>, number: u64) -> Result<(), AllocError>
    ensures { OnOk result (out.new.items ≡ out.old.items ++ spelling.number w64 number) }
{
    put_number64(out, number)?;
    Ok(())
}

/// Appends the spelling of a text of less than 2^16 bytes.
pub fn write_text16(out: &mut Vec<u8>, text: &str) -> Result<(), AllocError>
    requires { length text.now < 2 ^ 16 }
    ensures { OnOk result (out.new.items ≡ out.old.items ++ spelling.text16 text.now) }
{
    put_text16(out, text)?;
    Ok(())
}
