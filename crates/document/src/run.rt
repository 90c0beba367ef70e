//! Runs of a document.
ghost use Rattle.std.specs.Prelude.{◌≡◌, ◌≢◌, ◌+◌, ◌-◌, ◌*◌, min, ◌<◌, ◌↔◌, ◌^◌, ◌++◌, [], ◌∷◌, length, IfOk, IfSome, OnOk, OnErr, IsTrue, Some, None, string_bytes};
ghost use Rattle.utf16.specs.Units.{units_of};
ghost use Rattle.delta.specs.Element.{letters, embedded};
ghost use Rattle.delta.specs.Gaps.{counted, End};
ghost use Rattle.delta.specs.Operation.{op_base, op_out};
ghost use Rattle.document.specs.Runs.{text_attributes};
ghost use Rattle.document.specs.Weight.{weight_of, attributes_weight, named_weight, scalar_weight};

use attributes::{Attrs, Key, Value, ValueRef};
use delta::Op;
use std::alloc::{AllocError, Global};
use std::marker::Model;
use utf16::append;

/// So many bytes of room a run's text is made with.
const SPARE: usize = 16;

/// A text or an embed with attributes, seen as its units. Its number of code units is kept beside it.
#[derive(Drop)]
pub struct Run {
    content: Content,
    attrs: Attrs,
    units: u64,
}

#[derive(Drop)]
enum Content {
    Text(String),
    Embed(Key, Value),
}

/// A run or a part of one: a text with its number of code units, or an embed, and the attributes.
#[derive(Clone, Copy)]
pub enum Piece<'a> {
    Text(&'a str, u64, &'a Attrs),
    Embed(&'a Key, &'a Value, &'a Attrs),
}

impl Content {
    ghost use Rattle.document.specs.Pieces.{content_weight, IsSameContent};

    // an equal content, whose text has room for so many bytes more
    fn copy(&self, alloc: Global, more: usize) -> Result<Self, AllocError>
        ensures same { IfOk result (λ content. IsSameContent content self.now) }
    {
        match self {
            Content::Text(text) => Ok(Content::Text(with_room(alloc, text.as_str(), more)?)),
            Content::Embed(key, value) => {
                let key = key.copy(alloc)?;
                Ok(Content::Embed(key, value.copy(alloc)?))
            }
        }
    }

    // the weight of an embed's value; a text has none
    fn weight(&self) -> u64
        ensures weight { result ≡ content_weight self.now }
        ensures small { result < 2 ^ 63 + 76 }
    {
        match self {
            Content::Text(_) => 0,
            Content::Embed(key, value) => named_weight(key, value),
        }
    }
}

impl<'a> Piece<'a> {
    ghost use Rattle.document.specs.Pieces.{piece_units, piece_attributes, IsCounted};
    ghost use Rattle.document.specs.steps.Weighing.{piece_weight};

    /// How many code units it has.
    pub fn units(&self) -> u64
        requires { IsCounted self.now }
        ensures units { result ≡ length (piece_units self.now) }
        ensures some { 0 < result }
    {
        match self {
            Piece::Text(_, units, _) => *units,
            Piece::Embed(_, _, _) => 1,
        }
    }

    /// Its attributes.
    pub fn attrs(&self) -> &'a Attrs
        ensures { result.now ≡ piece_attributes self.now }
    {
        match self {
            Piece::Text(_, _, attrs) => attrs,
            Piece::Embed(_, _, attrs) => attrs,
        }
    }

    /// The operation that inserts it, whose text is copied and not counted. Refused as out of memory alone.
    pub fn inserted(&self, alloc: Global) -> Result<Op, AllocError>
        requires { IsCounted self.now }
        ensures units { IfOk result (λ op. counted (op ∷ []) ≡ End (piece_units self.now)) }
        ensures out { IfOk result (λ op. op_out op ≡ length (piece_units self.now)) }
        ensures base { IfOk result (λ op. op_base op ≡ 0) }
    {
        match self {
            Piece::Text(text, units, attrs) => {
                let text = String::from_str(alloc, text)?;
                Ok(Op::text_of_len(text, *units, attrs.copy(alloc)?))
            }
            Piece::Embed(key, value, attrs) => {
                match Op::embed(alloc, key.as_str(), value.copy(alloc)?, attrs.copy(alloc)?) {
                    Ok(op) => Ok(op),
                    Err(refusal) => Err(refusal.as_alloc_error()),
                }
            }
        }
    }

    /// Its weight, and 2^64 - 1 where that is more.
    pub(crate) fn weight(&self) -> u64
        requires { IsCounted self.now }
        ensures { result ≡ min (weight_of (piece_units self.now)) (2 ^ 64 - 1) }
    {
        self.weight_with(attributes_weight(self.attrs()))
    }

    /// Its weight with other attributes, by their weight.
    pub(crate) fn weight_with(&self, attributes: u64) -> u64
        requires { IsCounted self.now }
        ensures { result
            ≡ min (min (attributes + (12 + piece_weight self.now)) (2 ^ 64 - 1) * length (piece_units self.now))
            (2 ^ 64 - 1) }
    {
        let each = attributes.saturating_add(12 + self.embed_weight());
        each.saturating_mul(self.units())
    }

    // the weight of an embed's value; a text has none
    fn embed_weight(&self) -> u64
        ensures weight { result ≡ piece_weight self.now }
        ensures small { result < 2 ^ 63 + 76 }
    {
        match self {
            Piece::Text(_, _, _) => 0,
            Piece::Embed(key, value, _) => named_weight(key, value),
        }
    }
}

impl Model for Run {
    ghost use Rattle.std.specs.Prelude.{◌≡◌, ◌<◌, List, length};
    ghost use Rattle.std.specs.Coded.{coded_list};
    ghost use Rattle.delta.specs.Element.{Element};
    ghost use Rattle.delta.specs.ElementCode.{element_code};

    ghost Value = { List Element };

    ghost coded = { coded_list element_code };

    ghost use Rattle.document.specs.Pieces.{content_units};

    ghost view = { λ r. content_units r.content r.attrs };

    ghost invariant = { λ r. (r.units ≡ length (content_units r.content r.attrs)) × (0 < r.units) };
}

impl Run {
    ghost use Rattle.document.specs.Pieces.{piece_units, IsCounted};

    /// A run of a text with so many code units, which has room for so many bytes more.
    pub fn text(
        alloc: Global,
        text: &str,
        units: u64,
        attrs: Attrs,
        more: usize,
    ) -> Result<Self, AllocError>
        requires counted { units ≡ length (units_of text.now) }
        requires some { 0 < units }
        ensures run { IfOk result (λ run. run ≡ letters (units_of text.now) attrs) }
    {
        Ok(Run {
            content: Content::Text(with_room(alloc, text, more)?),
            attrs,
            units,
        })
    }

    /// A run of an embed.
    pub fn embed(key: Key, value: Value, attrs: Attrs) -> Self
        ensures { result ≡ embedded key value attrs ∷ [] }
    {
        Run {
            content: Content::Embed(key, value),
            attrs,
            units: 1,
        }
    }

    /// How many code units it has.
    pub fn units(&self) -> u64
        ensures units { result ≡ length self.now }
        ensures some { 0 < result }
    {
        self.units
    }

    /// The whole run as a piece.
    pub fn piece(&self) -> Piece<'_>
        ensures units { piece_units result ≡ self.now }
        ensures counted { IsCounted result }
    {
        match &self.content {
            Content::Text(text) => Piece::Text(text.as_str(), self.units, &self.attrs),
            Content::Embed(key, value) => Piece::Embed(key, value, &self.attrs),
        }
    }

    /// Its weight, and 2^64 - 1 where that is more.
    pub fn weight(&self) -> u64
        ensures { result ≡ min (weight_of self.now) (2 ^ 64 - 1) }
    {
        let each = attributes_weight(&self.attrs).saturating_add(12 + self.content.weight());
        each.saturating_mul(self.units)
    }

    /// An equal run, whose text has room for so many bytes more.
    pub fn copy(&self, alloc: Global, more: usize) -> Result<Self, AllocError>
        ensures same { IfOk result (λ run. run ≡ self.now) }
    {
        let content = self.content.copy(alloc, more)?;
        let attrs = self.attrs.copy(alloc)?;
        Ok(Run {
            content,
            attrs,
            units: self.units,
        })
    }

    /// Whether it is a text with these attributes, which alone takes a text with them in.
    pub fn takes(&self, attrs: &Attrs) -> bool
        ensures { IsTrue result ↔ (text_attributes self.now ≡ Some attrs.now) }
    {
        match &self.content {
            Content::Text(_) => self.attrs == *attrs,
            Content::Embed(_, _) => false,
        }
    }

    /// Takes a text in at the end of a text, with its attributes.
    pub fn append(&mut self, text: &str, units: u64) -> Result<(), AllocError>
        requires counted { units ≡ length (units_of text.now) }
        requires text { text_attributes self.old ≢ None }
        requires bound { length self.old + units < 2 ^ 64 }
        ensures ok { OnOk result (IfSome (text_attributes self.old) (λ a. self.new ≡ self.old
            ++ letters (units_of text.now) a)) }
        ensures err { OnErr result (self.new ≡ self.old) }
    {
        match &mut self.content {
            Content::Text(mine) => {
                append(mine, text)?;
                self.units += units;
                Ok(())
            }
            Content::Embed(_, _) => unreachable!(),
        }
    }
}

// a text with room for so many bytes more, and a few besides, since what is put behind a run is mostly short: so its text
// isn't moved for it
fn with_room(alloc: Global, text: &str, more: usize) -> Result<String, AllocError>
    ensures same { IfOk result (λ made. string_bytes made ≡ text.now) }
{
    let room = text.len().saturating_add(more).saturating_add(SPARE);
    let mut made = String::with_capacity(alloc, room)?;
    made.push_str(text)?;
    Ok(made)
}

// the weight of attributes, and 2^64 - 1 where that is more
fn attributes_weight(attrs: &Attrs) -> u64
    ensures { result ≡ min (attributes_weight attrs.now) (2 ^ 64 - 1) }
{
    let mut weight: u64 = 0;
    for (key, value) in attrs.entries() {
        weight = weight.saturating_add(named_weight(key, value));
    }
    weight
}

/// The weight of a name with its value.
pub fn named_weight(key: &Key, value: &Value) -> u64
    ensures weight { result ≡ named_weight key.now value.now }
    ensures small { result < 2 ^ 63 + 76 }
{
    12 + (key.as_str().len() as u64 + scalar_weight(value))
}

// the bytes of a text; a whole number or a flag has none
fn scalar_weight(value: &Value) -> u64
    ensures weight { result ≡ scalar_weight value.now }
    ensures small { result < 2 ^ 63 }
{
    match value.get() {
        ValueRef::Text(text) => text.len() as u64,
        ValueRef::Whole(_) => 0,
        ValueRef::Flag(_) => 0,
    }
}
