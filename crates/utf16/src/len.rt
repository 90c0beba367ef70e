//! The length in code units.
ghost use Rattle.std.specs.Prelude.{◌≡◌, ◌≤◌, length};
ghost use Rattle.utf16.specs.Begun.{begun, begun_in, continues};
ghost use Rattle.utf16.specs.Units.{units_of};

/// How many UTF-16 code units the text has. Takes no memory.
pub fn len16(text: &str) -> u64
    ensures { result ≡ length (units_of text.now) }
{
    let mut rest = text.as_bytes();
    let mut units: u64 = 0;
    while rest.len() >= BLOCK {
        let (block, after) = rest.split_at(BLOCK);
        units += u64::from(units_in_block(block));
        rest = after;
    }
    units + u64::from(units_in_block(rest))
}

// How many bytes are counted at once: a sum over so many fits a byte.
pub(crate) const BLOCK: usize = 64;

// How many code units the characters have that begin among the bytes of a block.
pub(crate) fn units_in_block(bytes: &[u8]) -> u8
    requires { length bytes.now ≤ 64 }
    ensures { result ≡ begun_in bytes.now }
{
    let mut units: u8 = 0;
    let mut at = 0;
    while at < bytes.len() {
        // It never wraps, and a loop with nothing to check becomes vector instructions.
        units = units.wrapping_add(units_begun(bytes[at]));
        at += 1;
    }
    units
}

// How many code units the character has that begins with a byte; none where the byte continues one.
pub(crate) fn units_begun(byte: u8) -> u8
    ensures { result ≡ begun byte }
{
    let begins: u8 = if is_continuation(byte) { 0 } else { 1 };
    let second: u8 = if byte >= 0xf0 { 1 } else { 0 };
    begins.wrapping_add(second)
}

// Whether a byte continues a character.
pub(crate) fn is_continuation(byte: u8) -> bool
    ensures { result ≡ continues byte }
{
    byte >= 0x80 && byte < 0xc0
}
