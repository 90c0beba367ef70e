//! Attributes, and changes of attributes.
ghost use Rattle.std.specs.Prelude.{◌≡◌, IfSome, Some};
ghost use Rattle.optext.specs.Described.{scalar_of, change_of, attributes_of, changes_of};
ghost use Rattle.json.specs.Reads.{token_of};
ghost use Rattle.session.specs.steps.Tokened.{Spells, Ends, IsScalarToken};

use crate::tokened::scalars::{begin_object, digits, end_object, next_name};
use attributes::{Attrs, Change, Key, Value};
use json::{Reader, Token};
use std::alloc::Global;

/// One attribute more than are read of an operation.
const MAX_ATTRIBUTES: usize = 64;

/// Takes the attributes of an insert that come last in it, or none, and the brace that closes it.
pub(crate) fn last_attributes(alloc: Global, reader: &mut Reader<'_>) -> Option<Attrs>
    ensures { IfSome result (Ends attributes_of reader.old reader.new) }
{
    match next_name(reader)? {
        None => Some(Attrs::new(alloc)),
        Some("attributes") => {
            let attrs = attributes(alloc, reader)?;
            end_object(reader)?;
            Some(attrs)
        }
        Some(_) => None,
    }
}

/// Takes the change of a retain that comes last in it, or none, and the brace that closes it.
pub(crate) fn last_changes(alloc: Global, reader: &mut Reader<'_>) -> Option<Change>
    ensures { IfSome result (Ends changes_of reader.old reader.new) }
{
    match next_name(reader)? {
        None => Some(Change::new(alloc)),
        Some("attributes") => {
            let change = changes(alloc, reader)?;
            end_object(reader)?;
            Some(change)
        }
        Some(_) => None,
    }
}

fn attributes(alloc: Global, reader: &mut Reader<'_>) -> Option<Attrs>
    ensures { IfSome result (λ attrs. Spells (λ value. attributes_of (Some value) ≡ Some attrs) 1 reader.old reader.new) }
{
    begin_object(reader)?;
    let mut attrs = Attrs::new(alloc);
    for _ in 0..MAX_ATTRIBUTES {
        let Some(name) = next_name(reader)? else {
            return Some(attrs);
        };
        let value = scalar(alloc, reader)?;
        let key = Key::new(alloc, name).ok()?;
        attrs.set(key, value).ok()?;
    }
    None
}

fn changes(alloc: Global, reader: &mut Reader<'_>) -> Option<Change>
    ensures { IfSome result (λ change. Spells (λ value. changes_of (Some value) ≡ Some change) 1 reader.old reader.new) }
{
    begin_object(reader)?;
    let mut change = Change::new(alloc);
    for _ in 0..MAX_ATTRIBUTES {
        let Some(name) = next_name(reader)? else {
            return Some(change);
        };
        let value = new_value(alloc, reader)?;
        let key = Key::new(alloc, name).ok()?;
        change.set(key, value).ok()?;
    }
    None
}

// A value of an attribute.
fn scalar(alloc: Global, reader: &mut Reader<'_>) -> Option<Value>
    ensures { IfSome result (λ x. Spells (λ value. scalar_of value ≡ Some x) 0 reader.old reader.new) }
{
    let token = reader.next()?;
    value_of(alloc, &token)
}

// What a change makes of a name: a value, or null, which removes it.
fn new_value(alloc: Global, reader: &mut Reader<'_>) -> Option<Option<Value>>
    ensures { IfSome result (λ x. Spells (λ value. change_of value ≡ Some x) 0 reader.old reader.new) }
{
    match reader.next()? {
        Token::Null => Some(None),
        token => Some(Some(value_of(alloc, &token)?)),
    }
}

// The value that a token is.
fn value_of(alloc: Global, token: &Token<'_>) -> Option<Value>
    ensures { IfSome result (λ x. IsScalarToken (token_of token.now) x) }
{
    match token {
        Token::String(text) => Value::text(alloc, text).ok(),
        Token::Number(text) => Value::whole(i64::try_from(digits(text)?).ok()?).ok(),
        Token::Bool(flag) => Some(Value::flag(*flag)),
        _ => None,
    }
}
