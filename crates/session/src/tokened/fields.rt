//! The members of an edit.
ghost use Rattle.std.specs.Prelude.{◌≡◌, ◌≤◌, ◌<◌, ◌^◌, codes, IfSome, OnSome, Some, Ok, true};
ghost use Rattle.serde_json.specs.Data.{Data};
ghost use Rattle.revision.specs.Name.{is_source_name};
ghost use Rattle.revision.specs.Command.{Edit};
ghost use Rattle.session.specs.Request.{of_value, with_delta};
ghost use Rattle.session.specs.declared.request.Request.TheVariants.{Ask};
ghost use Rattle.session.specs.steps.Tokened.{Spells, IsEdit, AddsField};

use crate::message::MAX_NUMBER;
use crate::tokened::operations::delta;
use crate::tokened::scalars::{begin_object, end_object, next_name, text, whole};
use delta::Delta;
use json::Reader;
use revision::{Command, Name};
use std::alloc::Global;

/// How many members an edit has.
const MEMBERS: usize = 5;

/// What was read of an edit's members.
#[derive(Drop)]
pub(crate) struct Fields<'a> {
    /// Whether the member `do` was read, and is `edit`.
    edits: bool,
    doc: Option<&'a str>,
    number: Option<u64>,
    base: Option<u64>,
    delta: Option<Delta>,
}

impl<'a> Fields<'a> {
    /// Takes an object with the five members of an edit, in any order.
    pub(crate) fn read(alloc: Global, reader: &mut Reader<'a>) -> Option<Fields<'a>>
        ensures { IfSome result (λ fields. Spells (IsEdit fields) 4 reader.old reader.new) }
    {
        begin_object(reader)?;
        let mut fields = Fields {
            edits: false,
            doc: None,
            number: None,
            base: None,
            delta: None,
        };
        for _ in 0..MEMBERS {
            let Some(name) = next_name(reader)? else {
                return None;
            };
            fields.take(alloc, name, reader)?;
        }
        end_object(reader)?;
        Some(fields)
    }

    // Takes the value of a member that has not been read before.
    fn take(&mut self, alloc: Global, name: &str, reader: &mut Reader<'a>) -> Option<()>
        ensures { OnSome result (AddsField self.old name.now self.new reader.old reader.new) }
    {
        match name {
            "base" => self.take_base(reader),
            "do" => self.take_kind(reader),
            "doc" => self.take_doc(reader),
            "n" => self.take_number(reader),
            "ops" => self.take_operations(alloc, reader),
            _ => None,
        }
    }

    fn take_base(&mut self, reader: &mut Reader<'a>) -> Option<()>
        ensures { OnSome result (AddsField self.old (codes "base") self.new reader.old reader.new) }
    {
        if self.base.is_some() {
            return None;
        }
        let base = whole(reader)?;
        self.base = Some(base);
        Some(())
    }

    fn take_kind(&mut self, reader: &mut Reader<'a>) -> Option<()>
        ensures { OnSome result (AddsField self.old (codes "do") self.new reader.old reader.new) }
    {
        if self.edits {
            return None;
        }
        let kind = text(reader)?;
        match kind {
            "edit" => {
                self.edits = true;
                Some(())
            }
            _ => None,
        }
    }

    fn take_doc(&mut self, reader: &mut Reader<'a>) -> Option<()>
        ensures { OnSome result (AddsField self.old (codes "doc") self.new reader.old reader.new) }
    {
        if self.doc.is_some() {
            return None;
        }
        let doc = text(reader)?;
        self.doc = Some(doc);
        Some(())
    }

    fn take_number(&mut self, reader: &mut Reader<'a>) -> Option<()>
        ensures { OnSome result (AddsField self.old (codes "n") self.new reader.old reader.new) }
    {
        if self.number.is_some() {
            return None;
        }
        let number = whole(reader)?;
        self.number = Some(number);
        Some(())
    }

    fn take_operations(&mut self, alloc: Global, reader: &mut Reader<'a>) -> Option<()>
        ensures { OnSome result (AddsField self.old (codes "ops") self.new reader.old reader.new) }
    {
        if self.delta.is_some() {
            return None;
        }
        let found = delta(alloc, reader)?;
        self.delta = Some(found);
        Some(())
    }

    /// The command of the edit that has these members.
    pub(crate) fn command(self, alloc: Global, source: &Name) -> Option<Command>
        requires { is_source_name source.now ≡ true }
        ensures { IfSome result (λ command. (value : Data) → IsEdit self.entry value
            → of_value (Some source.now) (Some value) ≡ Ok (Ask command)) }
    {
        if !self.edits {
            return None;
        }
        let doc = self.doc?;
        let number = self.number?;
        let base = self.base?;
        let delta = self.delta?;
        if number == 0 || number > MAX_NUMBER || base > MAX_NUMBER {
            return None;
        }
        let name = Name::doc(alloc, doc).ok()?;
        let source = source.copy(alloc).ok()?;
        edit(name, source, number, base, delta)
    }
}

fn edit(name: Name, source: Name, number: u64, base: u64, delta: Delta) -> Option<Command>
    requires source { is_source_name source ≡ true }
    requires first { 1 ≤ number }
    requires last { number < 2 ^ 53 }
    ensures { IfSome result (λ command. with_delta source name number (Edit base) (Ok delta) ≡ Ok (Ask command)) }
{
    Command::edit(name, source, number, base, delta).ok()
}
