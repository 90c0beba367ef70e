//! What a session does upon a line.
ghost use Rattle.std.specs.Prelude.{◌≡◌, ◌≤◌, ◌<◌, ◌^◌, IfOk, IfSome, Some, Ok, true, option_copied};
ghost use Rattle.std.specs.Option.{ForSome};
ghost use Rattle.serde_json.specs.View.{items_view};
ghost use Rattle.revision.specs.Name.{is_source_name};
ghost use Rattle.optext.specs.Answer.{IsAnswer};
ghost use Rattle.session.specs.Message.{Create, Edit, Undo, Delete, IsNumbered};
ghost use Rattle.session.specs.steps.MessageView.{message_view};
ghost use Rattle.session.specs.Request as spec;

use crate::message::Message;
use crate::question::Question;
use crate::tokened::edit_of;
use json::Scratch;
use optext::{read_json, read_ops};
use refusal::Refusal;
use revision::{Command, Name};
use serde_json::Value;
use std::alloc::Global;

/// What a line asks of a session.
#[derive(Drop)]
pub enum Request {
    /// To greet the source of this name.
    Greet(Name),
    /// To ask the desk.
    Ask(Command),
    /// To tell what is asked of the document of this name.
    Read(Name, Question),
    /// To follow the document of this name from this revision on.
    Subscribe(Name, u64),
    /// To follow the document of this name no longer.
    Unsubscribe(Name),
}

impl Request {
    /// The request that a line is, in the session of a source that has presented itself, or of none. The first
    /// refusal that holds decides; `NoMemory` may come instead of any other answer. The scratch is for the reading alone.
    pub fn read(
        alloc: Global,
        source: Option<&Name>,
        line: &[u8],
        scratch: &mut Scratch,
    ) -> Result<Request, Refusal>
        requires { ForSome (option_copied source) (λ name. is_source_name name ≡ true) }
        ensures due { IsAnswer (spec.request_of (option_copied source.entry) line.now) result }
        ensures greets { IfOk result spec.GreetsSource }
    {
        match Request::read_edit(alloc, source, line, scratch) {
            Some(edit) => Ok(edit),
            None => Request::read_any(alloc, source, line),
        }
    }

    // An edit whose tokens are read one after another.
    fn read_edit(
        alloc: Global,
        source: Option<&Name>,
        line: &[u8],
        scratch: &mut Scratch,
    ) -> Option<Request>
        requires { ForSome (option_copied source) (λ name. is_source_name name ≡ true) }
        ensures due { IfSome result (λ edit. spec.request_of (option_copied source.entry) line.now ≡ Ok edit) }
        ensures greets { IfSome result spec.GreetsSource }
    {
        let command = edit_of(alloc, source?, line, scratch)?;
        Some(Request::Ask(command))
    }

    // Any request, from the value of its line.
    fn read_any(alloc: Global, source: Option<&Name>, line: &[u8]) -> Result<Request, Refusal>
        requires { ForSome (option_copied source) (λ name. is_source_name name ≡ true) }
        ensures due { IsAnswer (spec.request_of (option_copied source.entry) line.now) result }
        ensures greets { IfOk result spec.GreetsSource }
    {
        let value = read_json(alloc, line)?;
        match Message::read(&value) {
            Some(message) => Request::of(alloc, source, message),
            None => Err(Refusal::BadMessage),
        }
    }

    fn of(alloc: Global, source: Option<&Name>, message: Message<'_>) -> Result<Request, Refusal>
        requires source { ForSome (option_copied source) (λ name. is_source_name name ≡ true) }
        requires numbered { IsNumbered (message_view message) }
        ensures due { IsAnswer (spec.request_in (option_copied source.entry) (message_view message.entry)) result }
        ensures greets { IfOk result spec.GreetsSource }
    {
        match source {
            None => Request::before_hello(alloc, message),
            Some(source) => Request::after_hello(alloc, source, message),
        }
    }

    fn before_hello(alloc: Global, message: Message<'_>) -> Result<Request, Refusal>
        ensures due { IsAnswer (spec.before_hello (message_view message.entry)) result }
        ensures greets { IfOk result spec.GreetsSource }
    {
        match message {
            Message::Hello { source } => Ok(Request::Greet(Name::source(alloc, source)?)),
            _ => Err(Refusal::NoHello),
        }
    }

    fn after_hello(alloc: Global, source: &Name, message: Message<'_>) -> Result<Request, Refusal>
        requires source { is_source_name source.now ≡ true }
        requires numbered { IsNumbered (message_view message) }
        ensures due { IsAnswer (spec.after_hello source.now (message_view message.entry)) result }
        ensures greets { IfOk result spec.GreetsSource }
    {
        match message {
            Message::Hello { .. } => Err(Refusal::BadMessage),
            Message::Create {
                doc,
                number,
                operations,
            } => creation(alloc, source, doc, number, operations),
            Message::Edit {
                doc,
                number,
                base,
                operations,
            } => edit(alloc, source, doc, number, base, operations),
            Message::Undo { doc, number } => undo(alloc, source, doc, number),
            Message::Delete { doc, number } => deletion(alloc, source, doc, number),
            Message::Read { doc, question } => Ok(Request::Read(Name::doc(alloc, doc)?, question)),
            Message::Subscribe { doc, rev } => Ok(Request::Subscribe(Name::doc(alloc, doc)?, rev)),
            Message::Unsubscribe { doc } => Ok(Request::Unsubscribe(Name::doc(alloc, doc)?)),
        }
    }
}

fn creation(
    alloc: Global,
    source: &Name,
    doc: &str,
    number: u64,
    operations: &[Value],
) -> Result<Request, Refusal>
    requires source { is_source_name source.now ≡ true }
    requires first { 1 ≤ number }
    requires last { number < 2 ^ 53 }
    ensures due { IsAnswer (spec.after_hello source.now (Create doc.now number (items_view operations.now))) result }
    ensures greets { IfOk result spec.GreetsSource }
{
    let name = Name::doc(alloc, doc)?;
    let delta = read_ops(alloc, operations)?;
    let source = source.copy(alloc)?;
    Ok(Request::Ask(Command::create(name, source, number, delta)?))
}

fn edit(
    alloc: Global,
    source: &Name,
    doc: &str,
    number: u64,
    base: u64,
    operations: &[Value],
) -> Result<Request, Refusal>
    requires source { is_source_name source.now ≡ true }
    requires first { 1 ≤ number }
    requires last { number < 2 ^ 53 }
    ensures due { IsAnswer (spec.after_hello source.now (Edit doc.now number base (items_view operations.now))) result }
    ensures greets { IfOk result spec.GreetsSource }
{
    let name = Name::doc(alloc, doc)?;
    let delta = read_ops(alloc, operations)?;
    let source = source.copy(alloc)?;
    Ok(Request::Ask(Command::edit(name, source, number, base, delta)?))
}

fn undo(alloc: Global, source: &Name, doc: &str, number: u64) -> Result<Request, Refusal>
    requires source { is_source_name source.now ≡ true }
    requires first { 1 ≤ number }
    requires last { number < 2 ^ 53 }
    ensures due { IsAnswer (spec.after_hello source.now (Undo doc.now number)) result }
    ensures greets { IfOk result spec.GreetsSource }
{
    let name = Name::doc(alloc, doc)?;
    let source = source.copy(alloc)?;
    Ok(Request::Ask(Command::undo(name, source, number)))
}

fn deletion(alloc: Global, source: &Name, doc: &str, number: u64) -> Result<Request, Refusal>
    requires source { is_source_name source.now ≡ true }
    requires first { 1 ≤ number }
    requires last { number < 2 ^ 53 }
    ensures due { IsAnswer (spec.after_hello source.now (Delete doc.now number)) result }
    ensures greets { IfOk result spec.GreetsSource }
{
    let name = Name::doc(alloc, doc)?;
    let source = source.copy(alloc)?;
    Ok(Request::Ask(Command::delete(name, source, number)))
}
