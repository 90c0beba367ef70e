//! Texts as JSON strings, on a page.
ghost use Rattle.std.specs.Prelude.{◌≡◌, ◌≤◌, ◌<◌, ◌++◌, ◌∷◌, [], ℕ, List, length, take, false};
ghost use Rattle.std.specs.Char.{digit_char};
ghost use Rattle.json.specs.Print.{escape, escape_byte, escape_letter, quoted};
ghost use Rattle.session.specs.Page.{Spells};

use crate::output::Output;
use crate::page::Page;

/// Puts a text in quotes, with the shortest escapes. It takes no memory.
pub fn push_quoted<O: Output>(page: &mut Page, out: &mut O, text: &str)
    ensures { Spells O.contents O.has_failed out.old page.old out.new page.new (quoted text.now) }
{
    page.push_str(out, "\"");
    push_escaped(page, out, text.as_bytes());
    page.push_str(out, "\"");
}

// Puts a text with its escapes.
fn push_escaped<O: Output>(page: &mut Page, out: &mut O, text: &[u8])
    ensures { Spells O.contents O.has_failed out.old page.old out.new page.new (escape text.now) }
{
    let mut rest = text;
    while !rest.is_empty() {
        rest = push_some(page, out, rest);
    }
}

// Puts the bytes before the first that is escaped, and that one, and gives what is left.
fn push_some<'a, O: Output>(page: &mut Page, out: &mut O, text: &'a [u8]) -> &'a [u8]
    requires { 0 < length text.now }
    ensures spelled { (front : List ℕ) × (text.now ≡ front ++ result.now)
        × Spells O.contents O.has_failed out.old page.old out.new page.new (escape front) }
    ensures less { length result.now < length text.now }
{
    let (plain, rest) = text.split_at(plain_length(text));
    page.push(out, plain);
    match rest.split_first() {
        Some((byte, others)) => {
            push_escape(page, out, *byte);
            others
        }
        None => rest,
    }
}

// How many bytes stand before the first that is escaped.
fn plain_length(text: &[u8]) -> usize
    ensures within { result ≤ length text.now }
    ensures plain { escape (take result text.now) ≡ take result text.now }
{
    let mut length = 0;
    while length < text.len() {
        if is_escaped(text[length]) {
            return length;
        }
        length += 1;
    }
    length
}

// Whether a byte of a text has to be escaped.
fn is_escaped(byte: u8) -> bool
    ensures { result ≡ false → escape_byte byte ≡ byte ∷ [] }
{
    if byte == b'"' {
        return true;
    }
    if byte == b'\\' {
        return true;
    }
    byte < 0x20
}

// Puts the escape of a byte.
fn push_escape<O: Output>(page: &mut Page, out: &mut O, byte: u8)
    ensures { Spells O.contents O.has_failed out.old page.old out.new page.new (escape_byte byte) }
{
    let letter = short_escape(byte);
    if letter > 0 {
        page.push(out, &[b'\\', letter]);
        return;
    }
    if byte < 0x20 {
        page.push(
            out,
            &[b'\\', b'u', b'0', b'0', hex(byte / 16), hex(byte % 16)],
        );
        return;
    }
    page.push(out, &[byte]);
}

// The letter of a byte's short escape, or 0 where it has none.
fn short_escape(byte: u8) -> u8
    ensures { result ≡ escape_letter byte }
{
    match byte {
        b'"' | b'\\' => byte,
        8 => b'b',
        12 => b'f',
        b'\n' => b'n',
        b'\r' => b'r',
        b'\t' => b't',
        _ => 0,
    }
}

fn hex(digit: u8) -> u8
    requires { digit < 16 }
    ensures { result ≡ digit_char digit }
{
    if digit < 10 {
        b'0' + digit
    } else {
        b'a' - 10 + digit
    }
}
