//! Deltas.
ghost use Rattle.std.specs.Prelude.{◌≡◌, ◌<◌, ◌↔◌, IfOk, IfErr, IfSome, IfNone, OnOk, OnErr};
ghost use Rattle.delta.specs.Lead.{lead_of, lead_units, with_lead};
ghost use Rattle.delta.specs.Operation.{base_of, out_of, IsBounded};
ghost use Rattle.delta.specs.Normal.{IsNormal};
ghost use Rattle.delta.specs.steps.Building.{IsDelta};

use crate::builder::MAX_LEN;
use crate::op::Op;
use crate::ops::Ops;
use refusal::Refusal;
use std::alloc::{AllocError, Global};
use std::marker::Model;

/// A delta: operations in normal form. Its base length and its output length are each at most 2^48 UTF-16 code units.
/// These and the length of the plain retain that it begins with stand beside the operations, so that who asks for one
/// doesn't look into them.
#[derive(Drop)]
pub struct Delta {
    ops: Ops,
    base: u64,
    out: u64,
    // 0 where it begins with something else
    lead: u64,
}

impl Model for Delta {
    ghost use Rattle.std.specs.Prelude.{◌≡◌, List};
    ghost use Rattle.std.specs.Coded.{coded_list};
    ghost use Rattle.delta.specs.Lead.{lead_units};
    ghost use Rattle.delta.specs.Operation.{Operation, operation_code};
    ghost use Rattle.delta.specs.steps.Building.{IsDelta};

    ghost Value = { List Operation };

    ghost coded = { coded_list operation_code };

    ghost view = { λ d. d.ops };

    ghost invariant = { λ d. IsDelta d.ops d.base d.out × (d.lead ≡ lead_units d.ops) };
}

impl Delta {
    // the delta of operations in normal form, with their two lengths
    pub(crate) fn of(ops: Vec<Op>, base: u64, out: u64) -> Self
        requires { IsDelta ops.items base out }
        ensures { result ≡ ops.items }
    {
        let lead = lead_in(ops.as_slice());
        Delta {
            ops: Ops::own(ops),
            base,
            out,
            lead,
        }
    }

    /// The delta of operations that are in normal form already. Nothing is copied, and it takes no memory. Refused with
    /// `BadOps` exactly where the base length or the output length is above 2^48.
    pub fn from_normal(ops: Vec<Op>) -> Result<Self, Refusal>
        requires normal { IsNormal ops.items }
        ensures ok { IfOk result (λ delta. delta ≡ ops.items) }
        ensures bad { (result ≡ Err Refusal.BadOps) ↔ ¬ (IsBounded ops.items) }
        ensures only { IfErr result (λ e. e ≡ Refusal.BadOps) }
    {
        match bounded_lengths(ops.as_slice()) {
            Some((base, out)) => Ok(Delta::of(ops, base, out)),
            None => Err(Refusal::BadOps),
        }
    }

    /// The operations.
    pub fn ops(&self) -> &[Op]
        ensures ops { result.now ≡ self.now }
        ensures normal { IsNormal self.now }
        ensures bounded { IsBounded self.now }
    {
        self.ops.as_slice()
    }

    /// What each delta keeps, for the prover. It does nothing.
    pub fn facts(&self)
        ensures normal { IsNormal self.now }
        ensures bounded { IsBounded self.now }
    {
        let _ = &self.ops;
    }

    /// The operations, by value. Nothing is copied where the delta has them alone; shared ones (`share`) are copied, and only
    /// that can be refused.
    pub fn into_ops(self, alloc: Global) -> Result<Vec<Op>, AllocError>
        ensures ok { IfOk result (λ ops. ops.items ≡ self) }
        ensures normal { IsNormal self }
        ensures bounded { IsBounded self }
    {
        let Delta {
            ops,
            base: _,
            out: _,
            lead: _,
        } = self;
        ops.into_vec(alloc)
    }

    /// The base length: how many code units are retained and deleted. Constant time.
    pub fn base_len(&self) -> u64
        ensures { result ≡ base_of self.now }
    {
        self.base
    }

    /// The output length: how many code units are inserted and retained. Constant time.
    pub fn out_len(&self) -> u64
        ensures { result ≡ out_of self.now }
    {
        self.out
    }

    /// The length in code units of the retain without attributes that it begins with; None where it begins with something else
    /// or is empty. Constant time, without a look at the operations.
    pub fn lead(&self) -> Option<u64>
        ensures lead { result ≡ lead_of self.now }
        ensures normal { IsNormal self.now }
        ensures bounded { IsBounded self.now }
    {
        if self.lead == 0 {
            None
        } else {
            Some(self.lead)
        }
    }

    /// Gives the retain that is first another length in code units; without one the delta stays. Constant time, in place, where
    /// the delta has its operations alone; shared ones (`share`) are copied before, and only that can be refused. The delta
    /// is then unchanged.
    pub fn set_lead(&mut self, alloc: Global, len: u64) -> Result<(), AllocError>
        requires some { 0 < len }
        requires bounded { IsBounded (with_lead len self.old) }
        ensures lead { OnOk result (self.new ≡ with_lead len self.old) }
        ensures normal { IsNormal self.new }
        ensures err { OnErr result (self.new ≡ self.old) }
    {
        if let Some(old) = self.ops.lengthen_first(alloc, len)? {
            if self.lead != 0 {
                self.lead = len;
            }
            self.base = self.base - old + len;
            self.out = self.out - old + len;
        }
        Ok(())
    }

    /// An equal delta, whose copies share its operations.
    pub fn share(self, alloc: Global) -> Result<Self, AllocError>
        ensures same { IfOk result (λ delta. delta ≡ self) }
    {
        let Delta {
            ops,
            base,
            out,
            lead,
        } = self;
        Ok(Delta {
            ops: ops.share(alloc)?,
            base,
            out,
            lead,
        })
    }

    /// An equal delta. One of a shared delta (`share`) takes no memory: it is refused only where the operations can have no more
    /// owners.
    pub fn copy(&self, alloc: Global) -> Result<Self, AllocError>
        ensures same { IfOk result (λ delta. delta ≡ self.now) }
    {
        let ops = self.ops.copy(alloc)?;
        Ok(Delta {
            ops,
            base: self.base,
            out: self.out,
            lead: self.lead,
        })
    }
}

// the base length and the output length, where neither is above 2^48
fn bounded_lengths(ops: &[Op]) -> Option<(u64, u64)>
    ensures some { IfSome result (λ lengths. (lengths.0 ≡ base_of ops.now) × (lengths.1 ≡ out_of ops.now)
        × IsBounded ops.now) }
    ensures none { IfNone result (¬ (IsBounded ops.now)) }
{
    let mut base = 0;
    let mut out = 0;
    let mut rest = ops;
    while let Some((op, behind)) = rest.split_first() {
        if op.base_len() > MAX_LEN - base || op.out_len() > MAX_LEN - out {
            return None;
        }
        base += op.base_len();
        out += op.out_len();
        rest = behind;
    }
    Some((base, out))
}

// the length of the plain retain that is first, and 0 without one
fn lead_in(ops: &[Op]) -> u64
    ensures { result ≡ lead_units ops.now }
{
    match ops.split_first() {
        Some((op, _)) => op.plain_len().unwrap_or(0),
        None => 0,
    }
}

impl PartialEq for Delta {
    ghost use Rattle.std.specs.Cmp.{decided, partial_equiv_from_equiv};
    ghost use Rattle.delta.specs.Equality.{same_operations, same_operations-Decides};

    ghost eq = { same_operations };

    ghost laws = { partial_equiv_from_equiv (decided same_operations same_operations-Decides) };

    fn eq(&self, other: &Self) -> bool {
        self.ops() == other.ops()
    }
}
