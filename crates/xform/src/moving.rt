//! A delta past others of the same document, in place where the two lie apart.
ghost use Rattle.std.specs.Prelude.{◌≡◌, ◌+◌, ◌<◌, ◌^◌, true, Some, IfOk, IfErr, OnOk, MatchBool};
ghost use Rattle.delta.specs.Lead.{lead_of, with_lead};
ghost use Rattle.delta.specs.Normal.{IsNormal};
ghost use Rattle.delta.specs.Operation.{base_of, out_of, IsBounded};
ghost use Rattle.xform.specs.After.{second_past, second_past_all};
ghost use Rattle.xform.specs.Outcome.{CanTransform, CanPassAll, IsTransformRefused, IsPassRefused};

use crate::transforming::transform;
use delta::{Delta, MAX_LEN};
use refusal::Refusal;
use std::alloc::{AllocError, Global};
use std::marker::Model;

/// The second delta as it is after the first, which has priority: what `transform` makes of them, by moving the second.
/// Where the second ends before the first does anything, it stays as it is. Where it begins with a retain of all units
/// that the first speaks of, that retain gets another length. Both take constant time and no memory, but that operations
/// which the second shares are copied where it moves; else the second is transformed. Refused as `transform` does.
pub fn move_past(alloc: Global, first: &Delta, second: Delta) -> Result<Delta, Refusal>
    ensures delta { IfOk result (λ delta. delta ≡ second_past first.now second true) }
    ensures accepted { OnOk result (CanTransform first.now second true) }
    ensures only { IfErr result (IsTransformRefused first.now second true) }
    // so no two deltas are refused whose lengths sum up to no more than that
    ensures long { result ≡ Err Refusal.BadOps
        → 2 ^ 48 < base_of first.now + out_of first.now + base_of second + out_of second }
{
    let mut moving = Moving::of(second);
    let is_past = moving.passes(first);
    let second = moving.into_delta(alloc)?;
    if is_past {
        Ok(second)
    } else {
        transform(alloc, first, &second, true)
    }
}

/// The second delta past all of these in turn, each with priority: what `move_past` makes of it past one after
/// another. Past those that it lies apart from, as `move_past` says, two lengths and that of its first retain are
/// counted on, in constant time and without memory; they are written where it is transformed past one, and at the end.
/// Refused as BadOps where the base length or the output length would pass 2^48 UTF-16 code units past one of them, and
/// as NoMemory.
pub fn move_past_all(alloc: Global, firsts: &[Delta], second: Delta) -> Result<Delta, Refusal>
    ensures delta { IfOk result (λ delta. delta ≡ second_past_all firsts.now second) }
    ensures accepted { OnOk result (CanPassAll firsts.now second) }
    ensures only { IfErr result (IsPassRefused firsts.now second) }
{
    let mut moving = Moving::of(second);
    for first in firsts {
        if !moving.passes(first) {
            moving = moving.transformed(alloc, first)?;
        }
    }
    Ok(moving.into_delta(alloc)?)
}

/// A delta on its way past others, seen as its operations by now. Its two lengths are those by now.
#[derive(Drop)]
struct Moving {
    delta: Delta,
    // the length by now of the retain that the delta begins with, where that isn't written yet
    lead: Option<u64>,
    base: u64,
    out: u64,
}

impl Model for Moving {
    ghost use Rattle.std.specs.Prelude.{List};
    ghost use Rattle.std.specs.Coded.{coded_list};
    ghost use Rattle.delta.specs.Operation.{Operation, operation_code};
    ghost use Rattle.xform.specs.steps.Moving.{led, IsMoving};

    ghost Value = { List Operation };

    ghost coded = { coded_list operation_code };

    ghost view = { λ m. led m.lead m.delta };

    ghost invariant = { λ m. IsMoving m.delta m.lead m.base m.out };
}

impl Moving {
    // a delta that has passed none yet
    fn of(delta: Delta) -> Self
        ensures { result ≡ delta }
    {
        let (base, out) = lengths(&delta);
        Moving {
            delta,
            lead: None,
            base,
            out,
        }
    }

    // goes past one that it lies apart from, and says whether it does
    fn passes(&mut self, first: &Delta) -> bool
        ensures { MatchBool result
            ((self.new ≡ second_past first.now self.old true) × IsBounded self.new)
            (self.new ≡ self.old) }
    {
        self.ends_before(first) || self.moves_behind(first)
    }

    // whether it ends before the first does anything; what the first inserts at its very end would go before
    fn ends_before(&self, first: &Delta) -> bool
        ensures same { result ≡ true → second_past first.now self.now true ≡ self.now }
        ensures bounded { IsBounded self.now }
    {
        match first.lead() {
            Some(kept) => self.base < kept,
            None => first.ops().is_empty(),
        }
    }

    // Where it keeps all units that the first speaks of, the retain that it begins with gets longer by so many units as the
    // first makes the document longer, or shorter. It stays where nothing would be left of that retain, and near the bound.
    fn moves_behind(&mut self, first: &Delta) -> bool
        ensures { MatchBool result
            ((self.new ≡ second_past first.now self.old true) × IsBounded self.new)
            (self.new ≡ self.old) }
    {
        let Some(kept) = self.lead() else {
            return false;
        };
        let (gone, made) = lengths(first);
        if kept < gone || self.base.max(self.out) + made > MAX_LEN {
            return false;
        }
        let len = kept - gone + made;
        if len == 0 {
            return false;
        }
        self.set_lead(kept, len);
        true
    }

    // the length of the retain without attributes that it begins with
    fn lead(&self) -> Option<u64>
        ensures { result ≡ lead_of self.now }
    {
        match self.lead {
            Some(len) => Some(len),
            None => self.delta.lead(),
        }
    }

    // gives the retain that it begins with another length, which isn't written yet
    fn set_lead(&mut self, kept: u64, len: u64)
        requires kept { lead_of self.old ≡ Some kept }
        requires some { 0 < len }
        requires bounded { IsBounded (with_lead len self.old) }
        ensures lead { self.new ≡ with_lead len self.old }
        ensures normal { IsNormal self.new }
    {
        self.base = self.base - kept + len;
        self.out = self.out - kept + len;
        self.lead = Some(len);
    }

    // past one that it doesn't lie apart from
    fn transformed(self, alloc: Global, first: &Delta) -> Result<Self, Refusal>
        ensures past { IfOk result (λ moved. moved ≡ second_past first.now self true) }
        ensures accepted { OnOk result (CanTransform first.now self true) }
        ensures only { IfErr result (IsTransformRefused first.now self true) }
    {
        let second = self.into_delta(alloc)?;
        Ok(Moving::of(transform(alloc, first, &second, true)?))
    }

    // the delta, with the length of its first retain written
    fn into_delta(self, alloc: Global) -> Result<Delta, AllocError>
        ensures same { IfOk result (λ delta. delta ≡ self) }
    {
        let Moving {
            mut delta,
            lead,
            base: _,
            out: _,
        } = self;
        if let Some(len) = lead {
            delta.set_lead(alloc, len)?;
        }
        Ok(delta)
    }
}

// the base length and the output length
fn lengths(delta: &Delta) -> (u64, u64)
    ensures base { result.0 ≡ base_of delta.now }
    ensures out { result.1 ≡ out_of delta.now }
    ensures normal { IsNormal delta.now }
    ensures bounded { IsBounded delta.now }
{
    delta.facts();
    (delta.base_len(), delta.out_len())
}
