//! Operations, and parts of them, borrowed.
ghost use Rattle.std.specs.Prelude.{◌≡◌};
ghost use Rattle.delta.specs.Operation.{op_len};
ghost use Rattle.delta.specs.Kind.{operation_of};

use crate::op::{Op, OpRef};
use attributes::Change;
use refusal::Refusal;
use std::alloc::{AllocError, Global};
use utf16::split_at16;

/// An operation, or the part of one that is left at some place, borrowed. Its length is kept beside it, so that a text is
/// never counted again. Contracts see it by `operation_of_part`.
#[derive(Clone, Copy)]
pub struct Part<'a> {
    op: OpRef<'a>,
    len: u64,
    ghost counted: { len ≡ op_len (operation_of op) },
}

impl<'a> Part<'a> {
    ghost use Rattle.std.specs.Prelude.{◌≡◌, ◌↔◌, ◌<◌, IfOk, IsOkUnless, MatchOption, false};
    ghost use Rattle.attributes.specs.Map.{empty};
    ghost use Rattle.delta.specs.Operation.{op_base, op_out, is_insert, is_delete, is_plain, retain, then_changed};
    ghost use Rattle.delta.specs.Parts.{first_units, last_units, EndsInPair};
    ghost use Rattle.delta.specs.Cursor.{operation_of_part};

    /// A whole operation.
    pub fn whole(op: &'a Op) -> Self
        ensures { operation_of_part result ≡ op.now }
    {
        Part {
            op: op.get(),
            len: op.len16(),
        }
    }

    /// The operation as it is.
    pub fn get(self) -> OpRef<'a>
        ensures { operation_of result ≡ operation_of_part self.entry }
    {
        self.op
    }

    /// How many code units it inserts, keeps or deletes. Constant time.
    pub fn len16(self) -> u64
        ensures { result ≡ op_len (operation_of_part self.entry) }
    {
        self.len
    }

    /// How many code units of the document before it the operation stands on: what it retains or deletes.
    pub fn base_len(self) -> u64
        ensures { result ≡ op_base (operation_of_part self.entry) }
    {
        match self.op {
            OpRef::Text(_, _) | OpRef::Embed(_, _, _) => 0,
            OpRef::Retain(_, _) | OpRef::Delete(_) => self.len,
        }
    }

    /// How many code units of the document after it the operation makes up: what it inserts or retains.
    pub fn out_len(self) -> u64
        ensures { result ≡ op_out (operation_of_part self.entry) }
    {
        match self.op {
            OpRef::Text(_, _) | OpRef::Embed(_, _, _) | OpRef::Retain(_, _) => self.len,
            OpRef::Delete(_) => 0,
        }
    }

    /// Whether it inserts.
    pub fn is_insert(self) -> bool
        ensures { result ≡ is_insert (operation_of_part self.entry) }
    {
        match self.op {
            OpRef::Text(_, _) | OpRef::Embed(_, _, _) => true,
            OpRef::Retain(_, _) | OpRef::Delete(_) => false,
        }
    }

    /// Whether it deletes.
    pub fn is_delete(self) -> bool
        ensures { result ≡ is_delete (operation_of_part self.entry) }
    {
        match self.op {
            OpRef::Delete(_) => true,
            OpRef::Text(_, _) | OpRef::Embed(_, _, _) | OpRef::Retain(_, _) => false,
        }
    }

    /// The length of a retain without attributes.
    pub fn plain_len(self) -> Option<u64>
        ensures { MatchOption result (is_plain (operation_of_part self.entry) ≡ false)
            (λ len. operation_of_part self.entry ≡ retain len empty) }
    {
        match self.op {
            OpRef::Retain(len, change) => { if change.is_empty() { Some(len) } else { None } }
            OpRef::Text(_, _) | OpRef::Embed(_, _, _) | OpRef::Delete(_) => None,
        }
    }

    /// An equal operation of its own.
    pub fn to_op(self, alloc: Global) -> Result<Op, AllocError>
        ensures same { IfOk result (λ op. op ≡ operation_of_part self.entry) }
    {
        Op::of(alloc, self.op, self.len)
    }

    /// An operation of its own: the same, and then a change of the units that it inserts or keeps; a delete stays as it is.
    pub fn then(self, alloc: Global, change: &Change) -> Result<Op, AllocError>
        ensures changed { IfOk result (λ op. op ≡ then_changed (operation_of_part self.entry) change.now) }
    {
        let op = self.to_op(alloc)?;
        op.then(alloc, change)
    }

    // its first units and the others; refused as CutsPair where that parts a pair of a text; no more of a text is walked over
    // than the first units
    pub(crate) fn cut(self, n: u64) -> Result<(Part<'a>, Part<'a>), Refusal>
        requires some { 0 < n }
        requires within { n < op_len (operation_of_part self) }
        ensures first { IfOk result (λ parts. operation_of_part parts.0
            ≡ first_units n (operation_of_part self.entry)) }
        ensures last { IfOk result (λ parts. operation_of_part parts.1 ≡ last_units n (operation_of_part self.entry)) }
        ensures cut { (result ≡ Err Refusal.CutsPair) ↔ EndsInPair n (operation_of_part self.entry) }
        ensures only { IsOkUnless result Refusal.CutsPair }
    {
        let left = self.len - n;
        let (first, last) = match self.op {
            OpRef::Text(text, attrs) => match split_at16(text, n) {
                Ok((front, back)) => (OpRef::Text(front, attrs), OpRef::Text(back, attrs)),
                Err(_) => return Err(Refusal::CutsPair),
            },
            OpRef::Embed(_, _, _) => unreachable!(),
            OpRef::Retain(_, change) => (OpRef::Retain(n, change), OpRef::Retain(left, change)),
            OpRef::Delete(_) => (OpRef::Delete(n), OpRef::Delete(left)),
        };
        Ok((
            Part { op: first, len: n },
            Part {
                op: last,
                len: left,
            },
        ))
    }

    // a retain or a delete without its first units
    pub(crate) fn without(self, n: u64) -> Part<'a>
        requires stands { is_insert (operation_of_part self) ≡ false }
        requires within { n < op_len (operation_of_part self) }
        ensures { operation_of_part result ≡ last_units n (operation_of_part self.entry) }
    {
        let left = self.len - n;
        let op = match self.op {
            OpRef::Retain(_, change) => OpRef::Retain(left, change),
            OpRef::Delete(_) => OpRef::Delete(left),
            OpRef::Text(_, _) | OpRef::Embed(_, _, _) => unreachable!(),
        };
        Part { op, len: left }
    }
}
