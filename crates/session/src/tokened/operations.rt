//! Operations, and the delta that an array of them describes.
ghost use Rattle.std.specs.Prelude.{◌≡◌, ◌∷◌, ◌<◌, ◌^◌, codes, IfSome, OnSome, Some};
ghost use Rattle.json.specs.Token.{begin_object as opens, begin_array as begins, key};
ghost use Rattle.serde_json.specs.Data.{unsigned, number};
ghost use Rattle.optext.specs.Described.{operation_of};
ghost use Rattle.session.specs.steps.Tokened.{Reads, Spells, DescribesDelta};

use crate::tokened::attribute_maps::{last_attributes, last_changes};
use crate::tokened::scalars::{end_object, first_name, text, whole};
use delta::{Builder, Delta, Op, laws};
use json::{Reader, Token};
use optext::MAX_OPERATIONS;
use std::alloc::Global;

/// The greatest length of an operation of a message: 2^32 - 1 code units.
const MAX_LENGTH: u64 = 4_294_967_295;

/// Takes an array of fewer than 1,024 operations. The delta of them, in normal form, whose copies share its operations.
pub(crate) fn delta(alloc: Global, reader: &mut Reader<'_>) -> Option<Delta>
    ensures { IfSome result (λ delta. Spells (DescribesDelta delta) 3 reader.old reader.new) }
{
    laws::built_in_pieces();
    laws::normal_of_built();
    laws::lengths_of_built();
    laws::bound_of_built();
    begin_array(reader)?;
    let mut builder = Builder::new(alloc);
    for _ in 0..MAX_OPERATIONS {
        if reader.take_end_array() {
            return builder.finish().share(alloc).ok();
        }
        let op = operation(alloc, reader)?;
        builder.push(op).ok()?;
    }
    None
}

fn begin_array(reader: &mut Reader<'_>) -> Option<()>
    ensures { OnSome result (reader.old ≡ begins ∷ reader.new) }
{
    match reader.next()? {
        Token::BeginArray => Some(()),
        _ => None,
    }
}

fn operation(alloc: Global, reader: &mut Reader<'_>) -> Option<Op>
    ensures { IfSome result (λ op. Spells (λ value. operation_of value ≡ Some op) 2 reader.old reader.new) }
{
    match first_name(reader)? {
        "insert" => insertion(alloc, reader),
        "retain" => retention(alloc, reader),
        "delete" => deletion(reader),
        _ => None,
    }
}

// Takes an insert of a text from its text on.
fn insertion(alloc: Global, reader: &mut Reader<'_>) -> Option<Op>
    ensures { IfSome result (λ op. Spells (λ value. operation_of value ≡ Some op) 2
        (opens ∷ key (codes "insert") ∷ reader.old) reader.new) }
{
    let read = text(reader)?;
    let text = String::from_str(alloc, read).ok()?;
    let attrs = last_attributes(alloc, reader)?;
    Some(Op::text(text, attrs))
}

// Takes a retain from its length on.
fn retention(alloc: Global, reader: &mut Reader<'_>) -> Option<Op>
    ensures { IfSome result (λ op. Spells (λ value. operation_of value ≡ Some op) 2
        (opens ∷ key (codes "retain") ∷ reader.old) reader.new) }
{
    let len = length(reader)?;
    let change = last_changes(alloc, reader)?;
    Some(Op::retain(len, change))
}

// Takes a delete from its length on.
fn deletion(reader: &mut Reader<'_>) -> Option<Op>
    ensures { IfSome result (λ op. Spells (λ value. operation_of value ≡ Some op) 2
        (opens ∷ key (codes "delete") ∷ reader.old) reader.new) }
{
    let len = length(reader)?;
    end_object(reader)?;
    Some(Op::delete(len))
}

fn length(reader: &mut Reader<'_>) -> Option<u64>
    ensures read { IfSome result (λ n. Reads 0 reader.old (number (unsigned n)) reader.new) }
    ensures range { IfSome result (λ n. n < 2 ^ 32) }
{
    let len = whole(reader)?;
    if len > MAX_LENGTH {
        return None;
    }
    Some(len)
}
