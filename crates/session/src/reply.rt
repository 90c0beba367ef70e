//! What a line is replied.
ghost use Rattle.std.specs.Prelude.{◌≡◌, ◌+◌, ◌<◌, ◌^◌, length, IfOk, false};
ghost use Rattle.serde_json.specs.Written.{has_float};
ghost use Rattle.serde_json.specs.View.{view};
ghost use Rattle.session.specs.News.{lines_of};
ghost use Rattle.session.specs.Reply as spec;
ghost use Rattle.session.specs.steps.DueText.{due_text};

use crate::due::{Changes, Due, copies_of};
use crate::spelling::{begin_line, end_with_number, push_number, push_word};
use delta::Delta;
use document::Document;
use refusal::Refusal;
use revision::{Command, Name};
use serde_json::{Value, json};
use std::alloc::{AllocError, Global};

/// What a command has become.
#[derive(Clone, Copy, Debug, PartialEq, Eq)]
pub enum Reply {
    /// It was taken, and made this revision.
    Taken { rev: u64 },
    /// It was taken before, and made this revision.
    Again { rev: u64 },
}

impl Reply {
    fn kind(self) -> &'static str
        ensures { result.now ≡ spec.kind_of self }
    {
        match self {
            Reply::Taken { .. } => "taken",
            Reply::Again { .. } => "again",
        }
    }

    fn rev(self) -> u64
        ensures { result ≡ spec.rev_of self }
    {
        match self {
            Reply::Taken { rev } | Reply::Again { rev } => rev,
        }
    }
}

/// The reply to hello.
pub fn greeting(alloc: Global) -> Result<Due, AllocError>
    ensures { IfOk result (λ due. due_text due ≡ spec.line_of spec.greeting) }
{
    let text = String::from_str(alloc, "{\"ok\":\"hello\"}\n")?;
    Ok(Due::Line(text))
}

/// The reply to a command that isn't refused.
pub fn acknowledgement(alloc: Global, command: &Command, reply: Reply) -> Result<Due, AllocError>
    ensures { IfOk result (λ due. due_text due ≡
        spec.line_of (spec.acknowledgement command.now.name command.now.number reply)) }
{
    let mut text = begin_line(alloc, command.name())?;
    push_number(&mut text, ",\"n\":", command.number())?;
    push_word(&mut text, ",\"ok\":\"", reply.kind())?;
    end_with_number(&mut text, ",\"rev\":", reply.rev())?;
    Ok(Due::Line(text))
}

/// The reply to fetch: what stands in a document at a revision. The document is held, and nothing of its content is copied.
pub fn document_reply(
    alloc: Global,
    name: &Name,
    document: &Document,
    rev: u64,
) -> Result<Due, AllocError>
    ensures { IfOk result (λ due. due_text due ≡ spec.line_of (spec.document_reply name.now document.now rev)) }
{
    let name = copy_of(alloc, name)?;
    let Ok(document) = document.copy(alloc) else {
        return Err(AllocError);
    };
    Ok(Due::Fetched(name, document, rev))
}

/// The reply to since: the deltas up to a revision. Shared ones are held, and nothing of their content is copied.
pub fn since_reply(
    alloc: Global,
    name: &Name,
    deltas: &[Delta],
    rev: u64,
) -> Result<Due, AllocError>
    ensures { IfOk result (λ due. due_text due ≡ spec.line_of (spec.since_reply name.now deltas.now rev)) }
{
    let name = copy_of(alloc, name)?;
    let deltas = copies_of(alloc, deltas)?;
    Ok(Due::Since(name, deltas, rev))
}

/// What is told of the deltas after a revision, a line for each.
pub fn news_lines(
    alloc: Global,
    name: &Name,
    last: u64,
    deltas: &[Delta],
) -> Result<Due, AllocError>
    requires { last + length deltas.now < 2 ^ 53 }
    ensures { IfOk result (λ due. due_text due ≡ lines_of name.now last deltas.now) }
{
    let name = copy_of(alloc, name)?;
    let deltas = copies_of(alloc, deltas)?;
    Ok(Due::News(Changes::new(name, last, deltas)))
}

fn copy_of(alloc: Global, name: &Name) -> Result<Name, AllocError>
    ensures { IfOk result (λ copy. copy ≡ name.now) }
{
    match name.copy(alloc) {
        Ok(copy) => Ok(copy),
        Err(_) => Err(AllocError),
    }
}

/// The reply to subscribe: the revision that was asked for.
pub fn subscribed_reply(alloc: Global, name: &Name, rev: u64) -> Result<Due, AllocError>
    ensures { IfOk result (λ due. due_text due ≡ spec.line_of (spec.subscribed_reply name.now rev)) }
{
    let mut text = begin_line(alloc, name)?;
    end_with_number(&mut text, ",\"ok\":\"subscribed\",\"rev\":", rev)?;
    Ok(Due::Line(text))
}

/// The reply to unsubscribe.
pub fn unsubscribed_reply(alloc: Global, name: &Name) -> Result<Due, AllocError>
    ensures { IfOk result (λ due. due_text due ≡ spec.line_of (spec.unsubscribed_reply name.now)) }
{
    let mut text = begin_line(alloc, name)?;
    text.push_str(",\"ok\":\"unsubscribed\"}\n")?;
    Ok(Due::Line(text))
}

/// What is told where a subscription ends, since the next revision isn't held any longer.
pub fn ended_line(alloc: Global, name: &Name) -> Result<Due, AllocError>
    ensures { IfOk result (λ due. due_text due ≡ spec.ended_line name.now) }
{
    let mut text = begin_line(alloc, name)?;
    end_with_number(
        &mut text,
        ",\"ended\":",
        u64::from(Refusal::TooOld.number()),
    )?;
    Ok(Due::Line(text))
}

/// The reply to a line that is refused.
pub fn refusal_reply(alloc: Global, refusal: Refusal) -> Result<Due, AllocError>
    ensures { IfOk result (λ due. due_text due ≡ spec.refusal_line refusal) }
{
    let value = json!(in alloc; {"code": refusal.number(), "error": refusal.name()})?;
    line_of(alloc, &value)
}

fn line_of(alloc: Global, value: &Value) -> Result<Due, AllocError>
    ensures { IfOk result (λ due. has_float (view value.now) ≡ false → due_text due ≡ spec.line_of (view value.now)) }
{
    let mut text = value.to_string(alloc)?;
    text.push('\n')?;
    Ok(Due::Line(text))
}
