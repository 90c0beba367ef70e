//! Operations of a delta.
ghost use Rattle.std.specs.Prelude.{◌≡◌, ◌+◌, ◌<◌, ◌^◌, ◌↔◌, ◌⊎◌, ◌++◌, length, IfOk, OnOk, OnErr, IfErr, MatchOption, MatchBool, false};
ghost use Rattle.std.specs.String.{string_bytes};
ghost use Rattle.std.specs.Str.{bytes_eq};
ghost use Rattle.utf16.specs.Units.{units_of};
ghost use Rattle.attributes.specs.Attributes.{IsKey};
ghost use Rattle.attributes.specs.Map.{empty};
ghost use Rattle.delta.specs.Lead.{IsLengthened, IsLeft};
ghost use Rattle.delta.specs.Operation.{insert_text, insert_embed, retain, delete, then_changed, op_len, op_base, op_out, is_insert, is_delete, is_plain, merged};

use crate::part::Part;
use attributes::{Attrs, Change, Key, Value};
use refusal::Refusal;
use std::alloc::{AllocError, Global};
use std::marker::Model;
use utf16::{append, len16};

/// One operation: insert a text or an embed, retain units, or delete units. Lengths count UTF-16 code units; an embed
/// has length 1.
#[derive(Drop)]
pub struct Op {
    kind: Kind,
    len: u64,
}

#[derive(Drop)]
enum Kind {
    Text(String, Attrs),
    Embed(Box<Embed>, Attrs),
    Retain(Change),
    Delete,
}

// an embed, which stands apart, so that every operation is as short as a text is
#[derive(Drop)]
struct Embed {
    name: Key,
    value: Value,
}

/// An operation as it is, to match on.
#[derive(Clone, Copy)]
pub enum OpRef<'a> {
    /// Insert a text with attributes.
    Text(&'a str, &'a Attrs),
    /// Insert an embed, by its name and value, with attributes.
    Embed(&'a Key, &'a Value, &'a Attrs),
    /// Keep so many code units, with a change of their attributes.
    Retain(u64, &'a Change),
    /// Delete so many code units.
    Delete(u64),
}

impl Model for Op {
    ghost use Rattle.delta.specs.Operation.{Operation, operation_code};

    ghost Value = { Operation };

    ghost coded = { operation_code };

    ghost use Rattle.delta.specs.Kind.{operation_of_kind};
    ghost use Rattle.delta.specs.Kind.{HasLength};

    ghost view = { λ op. operation_of_kind op.len op.kind };

    ghost invariant = { λ op. HasLength op.len op.kind };
}

impl Op {
    ghost use Rattle.delta.specs.Kind.{operation_of};

    /// Inserts a text.
    pub fn text(text: String, attrs: Attrs) -> Self
        ensures { result ≡ insert_text (units_of (string_bytes text)) attrs }
    {
        let len = len16(text.as_str());
        Op {
            kind: Kind::Text(text, attrs),
            len,
        }
    }

    /// Inserts a text whose number of UTF-16 code units the caller knows: it isn't counted again. Constant time.
    pub fn text_of_len(text: String, len: u64, attrs: Attrs) -> Self
        requires { len ≡ length (units_of (string_bytes text)) }
        ensures { result ≡ insert_text (units_of (string_bytes text)) attrs }
    {
        Op {
            kind: Kind::Text(text, attrs),
            len,
        }
    }

    /// Inserts an embed; refused as BadOps where its name has no byte or more than 64.
    pub fn embed(alloc: Global, name: &str, value: Value, attrs: Attrs) -> Result<Self, Refusal>
        ensures embed { IfOk result (λ op. op ≡ insert_embed name.now value attrs) }
        ensures kept { OnOk result (IsKey name.now) }
        ensures bad { (result ≡ Err Refusal.BadOps) ↔ ¬ (IsKey name.now) }
        ensures only { IfErr result (λ e. (e ≡ Refusal.BadOps) ⊎ (e ≡ Refusal.NoMemory)) }
    {
        match Key::new(alloc, name) {
            Ok(name) => Ok(Op {
                kind: Kind::Embed(boxed(alloc, name, value)?, attrs),
                len: 1,
            }),
            Err(refusal) => Err(refusal),
        }
    }

    /// Keeps so many code units, with a change of their attributes.
    pub fn retain(len: u64, change: Change) -> Self
        ensures { result ≡ retain len change }
    {
        Op {
            kind: Kind::Retain(change),
            len,
        }
    }

    /// Deletes so many code units.
    pub fn delete(len: u64) -> Self
        ensures { result ≡ delete len }
    {
        Op {
            kind: Kind::Delete,
            len,
        }
    }

    /// The operation as it is.
    pub fn get(&self) -> OpRef<'_>
        ensures { operation_of result ≡ self.now }
    {
        match &self.kind {
            Kind::Text(text, attrs) => OpRef::Text(text.as_str(), attrs),
            Kind::Embed(embed, attrs) => OpRef::Embed(&embed.name, &embed.value, attrs),
            Kind::Retain(change) => OpRef::Retain(self.len, change),
            Kind::Delete => OpRef::Delete(self.len),
        }
    }

    /// How many code units it inserts, keeps or deletes. Constant time.
    pub fn len16(&self) -> u64
        ensures { result ≡ op_len self.now }
    {
        self.len
    }

    /// The operation, and then a change of the units that it inserts or keeps; a delete stays as it is. Its text is moved.
    pub fn then(self, alloc: Global, change: &Change) -> Result<Self, AllocError>
        ensures changed { IfOk result (λ op. op ≡ then_changed self change.now) }
    {
        let Op { kind, len } = self;
        let kind = match kind {
            Kind::Text(text, attrs) => {
                Kind::Text(text, attributes::apply(alloc, &attrs, change)?)
            }
            Kind::Embed(embed, attrs) => {
                Kind::Embed(embed, attributes::apply(alloc, &attrs, change)?)
            }
            Kind::Retain(first) => Kind::Retain(attributes::compose(alloc, &first, change)?),
            Kind::Delete => Kind::Delete,
        };
        Ok(Op { kind, len })
    }

    /// How many code units of the document before it the operation stands on: what it retains or deletes.
    pub fn base_len(&self) -> u64
        ensures { result ≡ op_base self.now }
    {
        Part::whole(self).base_len()
    }

    /// How many code units of the document after it the operation makes up: what it inserts or retains.
    pub fn out_len(&self) -> u64
        ensures { result ≡ op_out self.now }
    {
        Part::whole(self).out_len()
    }

    /// Whether it inserts.
    pub fn is_insert(&self) -> bool
        ensures { result ≡ is_insert self.now }
    {
        Part::whole(self).is_insert()
    }

    /// Whether it deletes.
    pub fn is_delete(&self) -> bool
        ensures { result ≡ is_delete self.now }
    {
        Part::whole(self).is_delete()
    }

    /// The length of a retain without attributes.
    pub fn plain_len(&self) -> Option<u64>
        ensures { MatchOption result (is_plain self.now ≡ false) (λ len. self.now ≡ retain len empty) }
    {
        Part::whole(self).plain_len()
    }

    // gives a retain another length, and says which it had; any other operation stays
    pub(crate) fn lengthen(&mut self, len: u64) -> Option<u64>
        ensures { MatchOption result (IsLeft self.old self.new) (IsLengthened len self.old self.new) }
    {
        match &self.kind {
            Kind::Retain(_) => {
                let old = self.len;
                self.len = len;
                Some(old)
            }
            Kind::Text(_, _) | Kind::Embed(_, _) | Kind::Delete => None,
        }
    }

    // takes the next operation in, where they merge, and says whether they do
    pub(crate) fn merge(&mut self, next: &Op) -> Result<bool, AllocError>
        requires { op_len self.old + op_len next.now < 2 ^ 64 }
        ensures ok { IfOk result (λ yes. MatchBool yes (merged self.old next.now ≡ Some self.new)
            ((merged self.old next.now ≡ None) × (self.new ≡ self.old))) }
        ensures err { OnErr result (self.new ≡ self.old) }
    {
        let merged = match (&mut self.kind, &next.kind) {
            (Kind::Text(text, attrs), Kind::Text(more, others)) => {
                let same = *attrs == *others;
                if same {
                    append(text, more.as_str())?;
                }
                same
            }
            (Kind::Retain(change), Kind::Retain(other)) => *change == *other,
            (Kind::Delete, Kind::Delete) => true,
            _ => false,
        };
        if merged {
            self.len += next.len;
        }
        Ok(merged)
    }

    /// An equal operation.
    pub fn copy(&self, alloc: Global) -> Result<Self, AllocError>
        ensures same { IfOk result (λ op. op ≡ self.now) }
    {
        Op::of(alloc, self.get(), self.len)
    }

    // an operation of its own, whose length is known
    pub(crate) fn of(alloc: Global, op: OpRef<'_>, len: u64) -> Result<Self, AllocError>
        requires { len ≡ op_len (operation_of op) }
        ensures same { IfOk result (λ copy. copy ≡ operation_of op.entry) }
    {
        let kind = match op {
            OpRef::Text(text, attrs) => Kind::Text(copy_text(alloc, text)?, attrs.copy(alloc)?),
            OpRef::Embed(name, value, attrs) => {
                let embed = boxed(alloc, name.copy(alloc)?, value.copy(alloc)?)?;
                Kind::Embed(embed, attrs.copy(alloc)?)
            }
            OpRef::Retain(_, change) => Kind::Retain(change.copy(alloc)?),
            OpRef::Delete(_) => Kind::Delete,
        };
        Ok(Op { kind, len })
    }
}

fn boxed(alloc: Global, name: Key, value: Value) -> Result<Box<Embed>, AllocError>
    ensures name { IfOk result (λ embed. embed.value.name ≡ name) }
    ensures value { IfOk result (λ embed. embed.value.value ≡ value) }
{
    match Box::new(alloc, Embed { name, value }) {
        Ok(embed) => Ok(embed),
        Err(_) => Err(AllocError),
    }
}

fn copy_text(alloc: Global, text: &str) -> Result<String, AllocError>
    ensures same { IfOk result (λ copy. string_bytes copy ≡ text.now) }
{
    Ok(String::from_str(alloc, text)?)
}

impl PartialEq for Op {
    ghost use Rattle.std.specs.Cmp.{decided, partial_equiv_from_equiv};
    ghost use Rattle.delta.specs.Equality.{same_operation, same_operation-Decides};

    ghost eq = { same_operation };

    ghost laws = { partial_equiv_from_equiv (decided same_operation same_operation-Decides) };

    fn eq(&self, other: &Self) -> bool {
        match (&self.kind, &other.kind) {
            (Kind::Text(text, attrs), Kind::Text(words, others)) => {
                same_text(text.as_str(), words.as_str()) && attrs == others
            }
            (Kind::Embed(embed, attrs), Kind::Embed(other, others)) => {
                embed.name == other.name && embed.value == other.value && attrs == others
            }
            (Kind::Retain(change), Kind::Retain(changes)) => {
                self.len == other.len && change == changes
            }
            (Kind::Delete, Kind::Delete) => self.len == other.len,
            _ => false,
        }
    }
}

// texts are the same where their code units are
fn same_text(text: &str, other: &str) -> bool
    ensures { result ≡ bytes_eq (units_of text.now) (units_of other.now) }
{
    text == other
}
