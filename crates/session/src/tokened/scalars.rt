//! One token, or a value of one token.
ghost use Rattle.std.specs.Prelude.{◌≡◌, ◌∷◌, IfSome, OnSome, Some, option_map};
ghost use Rattle.json.specs.Json.{read_key};
ghost use Rattle.json.specs.Token.{begin_object as opens, end_object as closes, key};
ghost use Rattle.serde_json.specs.Data.{unsigned, string, number};
ghost use Rattle.serde_json.specs.Read.{number_of};
ghost use Rattle.session.specs.steps.Tokened.{Reads};

use fast_float::Numeral;
use json::{Reader, Token};

/// Takes the brace that opens an object.
pub(crate) fn begin_object(reader: &mut Reader<'_>) -> Option<()>
    ensures { OnSome result (reader.old ≡ opens ∷ reader.new) }
{
    match reader.next()? {
        Token::BeginObject => Some(()),
        _ => None,
    }
}

/// Takes the brace that closes an object.
pub(crate) fn end_object(reader: &mut Reader<'_>) -> Option<()>
    ensures { OnSome result (reader.old ≡ closes ∷ reader.new) }
{
    match reader.next()? {
        Token::EndObject => Some(()),
        _ => None,
    }
}

/// Takes the name of the object's next member, or the brace that closes the object.
pub(crate) fn next_name<'a>(reader: &mut Reader<'a>) -> Option<Option<&'a str>>
    ensures { IfSome result (λ name. read_key reader.old ≡ Some (option_map (λ text. text.now) name, reader.new)) }
{
    reader.next_key().ok()
}

/// Takes the brace that opens an object and the name of its first member.
pub(crate) fn first_name<'a>(reader: &mut Reader<'a>) -> Option<&'a str>
    ensures { IfSome result (λ name. reader.old ≡ opens ∷ key name.now ∷ reader.new) }
{
    begin_object(reader)?;
    next_name(reader)?
}

/// Takes a text.
pub(crate) fn text<'a>(reader: &mut Reader<'a>) -> Option<&'a str>
    ensures { IfSome result (λ text. Reads 0 reader.old (string text.now) reader.new) }
{
    match reader.next()? {
        Token::String(text) => Some(text),
        _ => None,
    }
}

/// Takes a whole number from 0 to 2^64 - 1 without a sign.
pub(crate) fn whole(reader: &mut Reader<'_>) -> Option<u64>
    ensures { IfSome result (λ n. Reads 0 reader.old (number (unsigned n)) reader.new) }
{
    match reader.next()? {
        Token::Number(text) => digits(text),
        _ => None,
    }
}

/// The whole number that a number's text writes without a sign.
pub(crate) fn digits(text: &str) -> Option<u64>
    ensures { IfSome result (λ n. number_of text.now ≡ Some (unsigned n)) }
{
    let bytes = text.as_bytes();
    if bytes.is_empty() || bytes[0] == b'-' {
        return None;
    }
    Numeral::scan(bytes).to_u64()
}
