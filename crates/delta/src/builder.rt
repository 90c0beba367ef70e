//! The builder of deltas.
ghost use Rattle.std.specs.Prelude.{◌≡◌, ◌+◌, ◌≤◌, ◌<◌, ◌^◌, ◌↔◌, ◌⊎◌, ◌++◌, [], ◌∷◌, IfErr, IfOk, OnOk, OnErr, MatchBool, vec_len};
ghost use Rattle.delta.specs.Operation.{base_of, out_of, op_base, op_out, IsBounded};
ghost use Rattle.delta.specs.Gaps.{counted};
ghost use Rattle.delta.specs.Normal.{built, nf};
ghost use Rattle.delta.specs.steps.Building.{added_at, place_of, without_plain, IsAddedApart};

use crate::delta::Delta;
use crate::op::Op;
use refusal::Refusal;
use std::alloc::{AllocError, Global};
use std::marker::Model;

/// 2^48: the greatest base length and the greatest output length, in UTF-16 code units.
pub const MAX_LEN: u64 = 1 << 48;

/// A builder of a delta, seen as the operations that it keeps: those that it was given, merged and in order.
#[derive(Drop)]
pub struct Builder {
    ops: Vec<Op>,
    base: u64,
    out: u64,
}

impl Model for Builder {
    ghost use Rattle.std.specs.Prelude.{List};
    ghost use Rattle.std.specs.Coded.{coded_list};
    ghost use Rattle.delta.specs.Operation.{Operation, operation_code};
    ghost use Rattle.delta.specs.steps.Building.{IsBuilding};

    ghost Value = { List Operation };

    ghost coded = { coded_list operation_code };

    ghost view = { λ b. b.ops.items };

    ghost invariant = { λ b. IsBuilding b.ops.items b.base b.out };
}

impl Builder {
    /// A builder without an operation. It takes no memory.
    pub fn new(alloc: Global) -> Self
        ensures { result ≡ [] }
    {
        Builder {
            ops: Vec::new(alloc),
            base: 0,
            out: 0,
        }
    }

    /// Adds an operation at the end. One of length 0 is ignored, neighbouring deletes, and neighbouring text inserts or
    /// retains of equal attributes, are merged, and an insert after a delete is put before it. Refused as BadOps where
    /// the base length or the output length would pass 2^48, and as NoMemory; the builder is then unchanged.
    pub fn push(&mut self, op: Op) -> Result<(), Refusal>
        ensures ok { OnOk result (self.new ≡ built (self.old ++ op ∷ [])) }
        ensures err { OnErr result (self.new ≡ self.old) }
        ensures bad { (result ≡ Err Refusal.BadOps) ↔ ¬ (IsBounded (self.old ++ op ∷ [])) }
        ensures only { IfErr result (λ e. (e ≡ Refusal.BadOps) ⊎ (e ≡ Refusal.NoMemory)) }
    {
        let base = op.base_len();
        let out = op.out_len();
        if base > MAX_LEN - self.base || out > MAX_LEN - self.out {
            return Err(Refusal::BadOps);
        }
        let len = base.max(out);
        if len == 0 {
            return Ok(());
        }
        put(&mut self.ops, op)?;
        self.base += base;
        self.out += out;
        Ok(())
    }

    /// The delta of the operations. It takes no memory and copies nothing: a last retain without attributes is taken
    /// off.
    pub fn finish(self) -> Delta
        ensures { result ≡ nf (counted self) }
    {
        let Builder { mut ops, base, out } = self;
        let plain = take_plain(&mut ops);
        Delta::of(ops, base - plain, out - plain)
    }
}

// adds an operation at its place
fn put(ops: &mut Vec<Op>, op: Op) -> Result<(), AllocError>
    requires base { base_of ops.old.items + op_base op ≤ 2 ^ 48 }
    requires out { out_of ops.old.items + op_out op ≤ 2 ^ 48 }
    ensures ok { OnOk result (ops.new.items ≡ added_at ops.old.items (place_of ops.old.items op) op) }
    ensures err { OnErr result (ops.new.items ≡ ops.old.items) }
{
    let at = place(ops.as_slice(), &op);
    if merge_before(ops, at, &op)? {
        return Ok(());
    }
    ops.insert(at, op)?;
    Ok(())
}

// takes an operation into the one before its place, where they merge, and says whether they do
fn merge_before(ops: &mut Vec<Op>, at: usize, op: &Op) -> Result<bool, AllocError>
    requires place { at ≤ vec_len ops.old }
    requires base { base_of ops.old.items + op_base op.now ≤ 2 ^ 48 }
    requires out { out_of ops.old.items + op_out op.now ≤ 2 ^ 48 }
    ensures ok { IfOk result (λ yes.
        MatchBool yes (ops.new.items ≡ added_at ops.old.items at op.now)
        (IsAddedApart ops.old.items ops.new.items at op.now)) }
    ensures err { OnErr result (ops.new.items ≡ ops.old.items) }
    ensures len { vec_len ops.new ≡ vec_len ops.old }
{
    if at == 0 {
        return Ok(false);
    }
    let merged = ops[at - 1].merge(op)?;
    Ok(merged)
}

// where an operation is to be added: at the end, and an insert before a delete that is last
fn place(ops: &[Op], op: &Op) -> usize
    ensures { result ≡ place_of ops.now op.now }
{
    let len = ops.len();
    if len > 0 && ops[len - 1].is_delete() && op.is_insert() {
        return len - 1;
    }
    len
}

// takes off a last retain without attributes, and gives its length
fn take_plain(ops: &mut Vec<Op>) -> u64
    ensures rest { ops.new.items ≡ without_plain ops.old.items }
    ensures base { base_of ops.new.items + result ≡ base_of ops.old.items }
    ensures out { out_of ops.new.items + result ≡ out_of ops.old.items }
{
    let len = ops.len();
    if len == 0 {
        return 0;
    }
    match ops[len - 1].plain_len() {
        Some(plain) => {
            let _ = ops.pop();
            plain
        }
        None => 0,
    }
}
