//! Edits read from the tokens of their line, without a tree of values.
//!
//! `edit_of` takes the lines that clients send most: an edit whose operations insert texts, retain and delete, with
//! attributes after an insert or a retain. It leaves every other line to `Request::read`'s tree: other messages, embeds,
//! attributes before an insert or a retain, negative numbers, a member of the edit or of an operation twice, 1,024 operations,
//! 64 attributes of one operation, and whatever is refused, also for lack of a source or of memory.
ghost use Rattle.std.specs.Prelude.{◌≡◌, IfSome, Some, Ok, true};
ghost use Rattle.revision.specs.Name.{is_source_name};
ghost use Rattle.session.specs.Request.{request_of};
ghost use Rattle.session.specs.declared.request.Request.TheVariants.{Ask};

mod attribute_maps;
mod fields;
mod operations;
mod scalars;

use crate::tokened::fields::Fields;
use json::{Reader, Scratch};
use revision::{Command, Name};
use std::alloc::Global;
use std::str::from_utf8;

/// The command of a line that is an edit, in the session of this source. `None` says nothing of the line.
pub(crate) fn edit_of(
    alloc: Global,
    source: &Name,
    line: &[u8],
    scratch: &mut Scratch,
) -> Option<Command>
    requires { is_source_name source.now ≡ true }
    ensures { IfSome result (λ command. request_of (Some source.now) line.now ≡ Ok (Ask command)) }
{
    let text = from_utf8(line).ok()?;
    let mut reader = Reader::new(text, scratch).ok()?;
    let fields = Fields::read(alloc, &mut reader)?;
    if reader.next().is_some() {
        return None;
    }
    fields.command(alloc, source)
}
