//! How a reply is spelled, member after member. Names and words are written without a look for escapes, since they need none.
ghost use Rattle.std.specs.Prelude.{◌≡◌, ◌++◌, true, codes, decimal, IfOk, OnOk};
ghost use Rattle.std.specs.String.{string_bytes};
ghost use Rattle.revision.specs.Name.{is_document_name};

use itoa::Buffer;
use revision::Name;
use std::alloc::{AllocError, Global};

/// Bytes that suffice for an acknowledgement: at most 64 are its name, and at most 16 each of its two numbers.
const USUAL_LINE: usize = 160;

/// A line up to its first member, the document's name: `{"doc":"d"`.
pub fn begin_line(alloc: Global, doc: &Name) -> Result<String, AllocError>
    ensures begun { IfOk result (λ text. string_bytes text ≡ codes "{\"doc\":\"" ++ (doc.now ++ codes "\"")) }
    ensures named { is_document_name doc.now ≡ true }
{
    let doc = doc.as_str();
    let mut text = String::with_capacity(alloc, USUAL_LINE)?;
    push_word(&mut text, "{\"doc\":\"", doc)?;
    Ok(text)
}

/// Adds a number after a text, mostly a comma and the key: `,"n":1`.
pub fn push_number(text: &mut String, before: &str, number: u64) -> Result<(), AllocError>
    ensures { OnOk result (string_bytes text.new ≡ string_bytes text.old ++ (before.now ++ decimal number)) }
{
    text.push_str(before)?;
    let mut digits = Buffer::new();
    text.push_str(digits.format(number))
}

/// Adds a word and its closing quote after a text, which ends in the opening one: `,"ok":"taken"`.
pub fn push_word(text: &mut String, before: &str, word: &str) -> Result<(), AllocError>
    ensures { OnOk result (string_bytes text.new
        ≡ string_bytes text.old ++ (before.now ++ (word.now ++ codes "\""))) }
{
    text.push_str(before)?;
    text.push_str(word)?;
    text.push_str("\"")
}

/// Adds a number after a text, and ends the object and its line.
pub fn end_with_number(text: &mut String, before: &str, number: u64) -> Result<(), AllocError>
    ensures { OnOk result (string_bytes text.new
        ≡ string_bytes text.old ++ (before.now ++ (decimal number ++ codes "}\n"))) }
{
    push_number(text, before, number)?;
    text.push_str("}\n")
}
