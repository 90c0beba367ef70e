//! Messages: what a line's JSON value asks for.
ghost use Rattle.std.specs.Prelude.{◌≡◌, ◌≤◌, ◌<◌, ◌^◌, IfSome, option_map};
ghost use Rattle.serde_json.specs.View.{view, items_view};
ghost use Rattle.session.specs.Message.{message_of, hello_of, create_of, edit_of, undo_of, delete_of, fetch_newest_of, read_at, fetch_of, since_of, subscribe_of, unsubscribe_of, text_at, number_at, revision_at, array_at, IsNumbered};
ghost use Rattle.session.specs.steps.MessageView.{message_view};
ghost use Rattle.session.specs.declared.question.Question.TheVariants.{At};

use crate::question::Question;
use optext::member_count;
use serde_json::Value;

/// The last number of a command, and the last revision: 2^53 - 1.
pub(crate) const MAX_NUMBER: u64 = (1 << 53) - 1;

/// A message, with its parts as they stand in the line.
#[derive(Clone, Copy)]
pub enum Message<'a> {
    /// The source presents itself.
    Hello {
        source: &'a str,
    },
    /// A document is to be made, under the source's number for it.
    Create {
        doc: &'a str,
        number: u64,
        operations: &'a [Value],
    },
    /// A document is to be changed, under the source's number for it, by operations that were made on its revision
    /// `base`.
    Edit {
        doc: &'a str,
        number: u64,
        base: u64,
        operations: &'a [Value],
    },
    /// The source's last change of a document is to be taken back, under the source's number for it.
    Undo {
        doc: &'a str,
        number: u64,
    },
    /// A document is to be deleted, under the source's number for it.
    Delete {
        doc: &'a str,
        number: u64,
    },
    /// Something is asked of a document.
    Read {
        doc: &'a str,
        question: Question,
    },
    /// A document is to be followed from a revision on.
    Subscribe {
        doc: &'a str,
        rev: u64,
    },
    /// A document is not to be followed any longer.
    Unsubscribe {
        doc: &'a str,
    },
}

impl<'a> Message<'a> {
    /// The message that the value is, if it is one.
    pub fn read(value: &'a Value) -> Option<Message<'a>>
        ensures message { option_map message_view result ≡ message_of (view value.now) }
        ensures numbered { IfSome result (λ message. IsNumbered (message_view message)) }
    {
        match text_in(value, "do")? {
            "hello" => Message::read_hello(value),
            "create" => Message::read_create(value),
            "edit" => Message::read_edit(value),
            "undo" => Message::read_undo(value),
            "delete" => Message::read_delete(value),
            "fetch" => Message::read_fetch(value),
            "since" => Message::read_since(value),
            "subscribe" => Message::read_subscribe(value),
            "unsubscribe" => Message::read_unsubscribe(value),
            _ => None,
        }
    }

    fn read_hello(value: &'a Value) -> Option<Message<'a>>
        ensures message { option_map message_view result ≡ hello_of (view value.now) }
        ensures numbered { IfSome result (λ message. IsNumbered (message_view message)) }
    {
        if member_count(value) != 2 {
            return None;
        }
        let source = text_in(value, "source")?;
        Some(Message::Hello { source })
    }

    fn read_create(value: &'a Value) -> Option<Message<'a>>
        ensures message { option_map message_view result ≡ create_of (view value.now) }
        ensures numbered { IfSome result (λ message. IsNumbered (message_view message)) }
    {
        if member_count(value) != 4 {
            return None;
        }
        let doc = text_in(value, "doc")?;
        let number = number_in(value, "n")?;
        let operations = array_in(value, "ops")?;
        Some(Message::Create {
            doc,
            number,
            operations,
        })
    }

    fn read_edit(value: &'a Value) -> Option<Message<'a>>
        ensures message { option_map message_view result ≡ edit_of (view value.now) }
        ensures numbered { IfSome result (λ message. IsNumbered (message_view message)) }
    {
        if member_count(value) != 5 {
            return None;
        }
        let doc = text_in(value, "doc")?;
        let number = number_in(value, "n")?;
        let base = revision_in(value, "base")?;
        let operations = array_in(value, "ops")?;
        Some(Message::Edit {
            doc,
            number,
            base,
            operations,
        })
    }

    fn read_undo(value: &'a Value) -> Option<Message<'a>>
        ensures message { option_map message_view result ≡ undo_of (view value.now) }
        ensures numbered { IfSome result (λ message. IsNumbered (message_view message)) }
    {
        if member_count(value) != 3 {
            return None;
        }
        let doc = text_in(value, "doc")?;
        let number = number_in(value, "n")?;
        Some(Message::Undo { doc, number })
    }

    fn read_delete(value: &'a Value) -> Option<Message<'a>>
        ensures message { option_map message_view result ≡ delete_of (view value.now) }
        ensures numbered { IfSome result (λ message. IsNumbered (message_view message)) }
    {
        if member_count(value) != 3 {
            return None;
        }
        let doc = text_in(value, "doc")?;
        let number = number_in(value, "n")?;
        Some(Message::Delete { doc, number })
    }

    fn read_fetch(value: &'a Value) -> Option<Message<'a>>
        ensures message { option_map message_view result ≡ fetch_of (view value.now) }
        ensures numbered { IfSome result (λ message. IsNumbered (message_view message)) }
    {
        match member_count(value) {
            2 => Message::read_newest(value),
            3 => Message::read_at(value),
            _ => None,
        }
    }

    fn read_newest(value: &'a Value) -> Option<Message<'a>>
        ensures message { option_map message_view result ≡ fetch_newest_of (view value.now) }
        ensures numbered { IfSome result (λ message. IsNumbered (message_view message)) }
    {
        let doc = text_in(value, "doc")?;
        let question = Question::Newest;
        Some(Message::Read { doc, question })
    }

    fn read_at(value: &'a Value) -> Option<Message<'a>>
        ensures message { option_map message_view result ≡ read_at At (view value.now) }
        ensures numbered { IfSome result (λ message. IsNumbered (message_view message)) }
    {
        let doc = text_in(value, "doc")?;
        let rev = revision_in(value, "rev")?;
        let question = Question::At { rev };
        Some(Message::Read { doc, question })
    }

    fn read_since(value: &'a Value) -> Option<Message<'a>>
        ensures message { option_map message_view result ≡ since_of (view value.now) }
        ensures numbered { IfSome result (λ message. IsNumbered (message_view message)) }
    {
        if member_count(value) != 3 {
            return None;
        }
        let doc = text_in(value, "doc")?;
        let rev = revision_in(value, "rev")?;
        let question = Question::Since { rev };
        Some(Message::Read { doc, question })
    }

    fn read_subscribe(value: &'a Value) -> Option<Message<'a>>
        ensures message { option_map message_view result ≡ subscribe_of (view value.now) }
        ensures numbered { IfSome result (λ message. IsNumbered (message_view message)) }
    {
        if member_count(value) != 3 {
            return None;
        }
        let doc = text_in(value, "doc")?;
        let rev = revision_in(value, "rev")?;
        Some(Message::Subscribe { doc, rev })
    }

    fn read_unsubscribe(value: &'a Value) -> Option<Message<'a>>
        ensures message { option_map message_view result ≡ unsubscribe_of (view value.now) }
        ensures numbered { IfSome result (λ message. IsNumbered (message_view message)) }
    {
        if member_count(value) != 2 {
            return None;
        }
        let doc = text_in(value, "doc")?;
        Some(Message::Unsubscribe { doc })
    }
}

fn text_in<'a>(value: &'a Value, name: &str) -> Option<&'a str>
    ensures { option_map (λ text. text.now) result ≡ text_at name.now (view value.now) }
{
    value.get(name)?.as_str()
}

fn number_in(value: &Value, name: &str) -> Option<u64>
    ensures number { result ≡ number_at name.now (view value.now) }
    ensures range { IfSome result (λ n. (1 ≤ n) × (n < 2 ^ 53)) }
{
    let number = value.get(name)?.as_u64()?;
    if number == 0 || number > MAX_NUMBER {
        return None;
    }
    Some(number)
}

fn revision_in(value: &Value, name: &str) -> Option<u64>
    ensures revision { result ≡ revision_at name.now (view value.now) }
    ensures range { IfSome result (λ n. n < 2 ^ 53) }
{
    let revision = value.get(name)?.as_u64()?;
    if revision > MAX_NUMBER {
        return None;
    }
    Some(revision)
}

fn array_in<'a>(value: &'a Value, name: &str) -> Option<&'a [Value]>
    ensures { option_map (λ items. items_view items.now) result ≡ array_at name.now (view value.now) }
{
    let items = value.get(name)?.as_array()?;
    Some(items.as_slice())
}
