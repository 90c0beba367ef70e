//! A builder of deltas for lists that may end with a retain without attributes, which counts for nothing there.
ghost use Rattle.std.specs.Prelude.{◌≡◌, ◌+◌, ◌<◌, ◌^◌, ◌⊎◌, ◌++◌, [], ◌∷◌, IfErr, OnOk, OnErr};
ghost use Rattle.delta.specs.Operation.{op_base, base_of, IsBounded};
ghost use Rattle.delta.specs.Gaps.{Gaps, counted, joined};
ghost use Rattle.delta.specs.Normal.{built, nf};

use crate::builder::Builder;
use crate::delta::Delta;
use crate::op::Op;
use attributes::Change;
use refusal::Refusal;
use std::alloc::Global;
use std::marker::Model;

/// A builder of a delta that holds retains without attributes back until something else follows them, since as the last
/// they are no part of the delta and count for no bound. Seen as the operations that it was given, merged and in order.
#[derive(Drop)]
pub struct TrimmingBuilder {
    builder: Builder,
    plain: u64,
}

impl Model for TrimmingBuilder {
    ghost use Rattle.std.specs.Prelude.{List};
    ghost use Rattle.std.specs.Coded.{coded_list};
    ghost use Rattle.delta.specs.Operation.{Operation, operation_code};
    ghost use Rattle.delta.specs.steps.Building.{with_plain};
    ghost use Rattle.delta.specs.Normal.{built};

    ghost Value = { List Operation };

    ghost coded = { coded_list operation_code };

    ghost view = { λ b. built (with_plain b.builder b.plain) };
}

impl TrimmingBuilder {
    /// A builder without an operation. It takes no memory.
    pub fn new(alloc: Global) -> Self
        ensures { result ≡ [] }
    {
        TrimmingBuilder {
            builder: Builder::new(alloc),
            plain: 0,
        }
    }

    /// Adds an operation at the end, as `Builder::push` does. Refused as BadOps only where the base length or the output
    /// length of the delta would pass 2^48 whatever is pushed after it, and as NoMemory; the builder is then unchanged.
    pub fn push(&mut self, alloc: Global, op: Op) -> Result<(), Refusal>
        requires room { base_of self.old + op_base op < 2 ^ 64 }
        ensures ok { OnOk result (self.new ≡ built (self.old ++ op ∷ [])) }
        ensures err { OnErr result (self.new ≡ self.old) }
        ensures bad { result ≡ Err Refusal.BadOps → (rest : Gaps)
            → ¬ (IsBounded (nf (joined (counted (self.old ++ op ∷ [])) rest))) }
        ensures only { IfErr result (λ e. (e ≡ Refusal.BadOps) ⊎ (e ≡ Refusal.NoMemory)) }
    {
        let plain = self.plain;
        if op.len16() == 0 {
            return Ok(());
        }
        if let Some(len) = op.plain_len() {
            self.plain = plain + len;
            return Ok(());
        }
        self.builder.push(Op::retain(plain, Change::new(alloc)))?;
        self.plain = 0;
        self.builder.push(op)
    }

    /// The delta of the operations. It takes no memory.
    pub fn finish(self) -> Delta
        ensures delta { result ≡ nf (counted self) }
        ensures bounded { IsBounded result }
    {
        let TrimmingBuilder { builder, plain: _ } = self;
        let delta = builder.finish();
        // its operations keep the bound
        delta.facts();
        delta
    }
}
