//! A text at the end of another.
ghost use Rattle.std.specs.Prelude.{◌≡◌, ◌++◌, OnOk, OnErr, string_bytes};
ghost use Rattle.utf16.specs.Units.{units_of};

use std::alloc::AllocError;

/// Puts a text at the end of another; where there is no memory, that is left unchanged.
pub fn append(text: &mut String, more: &str) -> Result<(), AllocError>
    ensures ok { OnOk result (units_of (string_bytes text.new)
        ≡ units_of (string_bytes text.old) ++ units_of more.now) }
    ensures err { OnErr result (string_bytes text.new ≡ string_bytes text.old) }
{
    // that it's UTF-8
    let _ = text.as_str();
    text.push_str(more)?;
    Ok(())
}
