//! A walk over operations that may stop within one.
ghost use Rattle.std.specs.Prelude.{◌≡◌, ◌↔◌, ◌<◌, ◌≤◌, [], ◌∷◌, false, IfOk, IsOkUnless, MatchOption};
ghost use Rattle.delta.specs.Operation.{op_len, is_insert};
ghost use Rattle.delta.specs.Parts.{first_units, left_after, EndsInPair};
ghost use Rattle.delta.specs.Cursor.{operation_of_part, operations_left};

use crate::op::Op;
use crate::part::Part;
use refusal::Refusal;

/// A place in a list of operations, which may lie within one of them. Contracts see it by `operations_left`: what is left
/// of that one, and the operations behind it. A copy of it stays where it is.
#[derive(Clone, Copy)]
pub struct Cursor<'a> {
    begun: Option<Part<'a>>,
    rest: &'a [Op],
}

impl<'a> Cursor<'a> {
    /// The beginning of a list.
    pub fn new(ops: &'a [Op]) -> Self
        ensures { operations_left result ≡ ops.now }
    {
        Cursor {
            begun: None,
            rest: ops,
        }
    }

    /// Before a part of an operation, which stands before other operations.
    pub fn before(part: Part<'a>, ops: &'a [Op]) -> Self
        ensures { operations_left result ≡ operation_of_part part.entry ∷ ops.entry.now }
    {
        Cursor {
            begun: Some(part),
            rest: ops,
        }
    }

    /// What stands first, and the operations behind it; None at the end.
    pub fn split_first(self) -> Option<(Part<'a>, &'a [Op])>
        ensures { MatchOption result (operations_left self.entry ≡ [])
            (λ first. operations_left self.entry ≡ operation_of_part first.0 ∷ first.1.now) }
    {
        match self.begun {
            Some(part) => Some((part, self.rest)),
            None => match self.rest.split_first() {
                Some((op, rest)) => Some((Part::whole(op), rest)),
                None => None,
            },
        }
    }
}

impl<'a> Part<'a> {
    /// Its first n units, and the place behind them where it stands before these operations. Refused as CutsPair exactly where
    /// that parts a surrogate pair of a text. Of a text, no more is walked over than those units.
    pub fn take(self, n: u64, ops: &'a [Op]) -> Result<(Part<'a>, Cursor<'a>), Refusal>
        requires some { 0 < n }
        requires within { n ≤ op_len (operation_of_part self) }
        ensures first { IfOk result (λ parts. operation_of_part parts.0
            ≡ first_units n (operation_of_part self.entry)) }
        ensures left { IfOk result (λ parts. operations_left parts.1
            ≡ left_after n (operation_of_part self.entry) ops.entry.now) }
        ensures cut { (result ≡ Err Refusal.CutsPair) ↔ EndsInPair n (operation_of_part self.entry) }
        ensures only { IsOkUnless result Refusal.CutsPair }
    {
        if n == self.len16() {
            return Ok((self, Cursor::new(ops)));
        }
        let (first, last) = self.cut(n)?;
        Ok((first, Cursor::before(last, ops)))
    }

    /// The place n units behind the beginning of a retain or a delete that stands before these operations.
    pub fn past(self, n: u64, ops: &'a [Op]) -> Cursor<'a>
        requires stands { is_insert (operation_of_part self) ≡ false }
        ensures { operations_left result ≡ left_after n (operation_of_part self.entry) ops.entry.now }
    {
        if n >= self.len16() {
            return Cursor::new(ops);
        }
        Cursor::before(self.without(n), ops)
    }
}
