//! Operations that one delta has alone, or that several have together.
ghost use Rattle.std.specs.Prelude.{◌≡◌, IfOk, OnOk, OnErr, MatchOption};
ghost use Rattle.delta.specs.Lead.{with_lead, RetainsFirst};

use crate::op::Op;
use std::alloc::{AllocError, Global};
use std::marker::Model;
use std::sync::Arc;

/// Operations, seen as their list. Shared ones are never changed in place.
#[derive(Drop)]
pub(crate) struct Ops {
    held: Held,
}

#[derive(Drop)]
enum Held {
    Own(Vec<Op>),
    Shared(Arc<Vec<Op>>),
}

impl Model for Ops {
    ghost use Rattle.std.specs.Prelude.{List};
    ghost use Rattle.std.specs.Coded.{coded_list};
    ghost use Rattle.delta.specs.Operation.{Operation, operation_code};
    ghost use Rattle.delta.specs.steps.Held.{operations_held};

    ghost Value = { List Operation };

    ghost coded = { coded_list operation_code };

    ghost view = { λ ops. operations_held ops.held };
}

impl Ops {
    // operations with one owner
    pub(crate) fn own(ops: Vec<Op>) -> Self
        ensures { result ≡ ops.items }
    {
        Ops {
            held: Held::Own(ops),
        }
    }

    pub(crate) fn as_slice(&self) -> &[Op]
        ensures { result.now ≡ self.now }
    {
        match &self.held {
            Held::Own(ops) => ops.as_slice(),
            Held::Shared(ops) => ops.as_slice(),
        }
    }

    // the operations, whose copies take no memory, without room for more
    pub(crate) fn share(self, alloc: Global) -> Result<Self, AllocError>
        ensures same { IfOk result (λ shared. shared ≡ self) }
    {
        let Ops { held } = self;
        match held {
            Held::Own(mut ops) => {
                ops.shrink_to_fit();
                match Arc::new(alloc, ops) {
                    Ok(ops) => Ok(Ops {
                        held: Held::Shared(ops),
                    }),
                    Err(_) => Err(AllocError),
                }
            }
            Held::Shared(ops) => Ok(Ops {
                held: Held::Shared(ops),
            }),
        }
    }

    // one more owner where they are shared, which takes no memory and is refused only where they can have no more; else a
    // copy of each
    pub(crate) fn copy(&self, alloc: Global) -> Result<Self, AllocError>
        ensures same { IfOk result (λ copy. copy ≡ self.now) }
    {
        let held = match &self.held {
            Held::Own(ops) => Held::Own(copy_ops(alloc, ops.as_slice())?),
            Held::Shared(ops) => Held::Shared(Arc::try_clone(ops)?),
        };
        Ok(Ops { held })
    }

    // the operations by value, copied only where they are shared
    pub(crate) fn into_vec(self, alloc: Global) -> Result<Vec<Op>, AllocError>
        ensures same { IfOk result (λ ops. ops.items ≡ self) }
    {
        let Ops { held } = self;
        match held {
            Held::Own(ops) => Ok(ops),
            Held::Shared(ops) => copy_ops(alloc, ops.as_slice()),
        }
    }

    // gives the retain that is first another length, and says which it had; shared ones are copied before that
    pub(crate) fn lengthen_first(
        &mut self,
        alloc: Global,
        len: u64,
    ) -> Result<Option<u64>, AllocError>
        ensures lead { OnOk result (self.new ≡ with_lead len self.old) }
        ensures old { IfOk result (λ old. MatchOption old (self.new ≡ self.old) (RetainsFirst self.old)) }
        ensures err { OnErr result (self.new ≡ self.old) }
    {
        match &mut self.held {
            Held::Own(ops) => Ok(lengthen_first(ops, len)),
            Held::Shared(ops) => {
                let mut own = copy_ops(alloc, ops.as_slice())?;
                let old = lengthen_first(&mut own, len);
                self.held = Held::Own(own);
                Ok(old)
            }
        }
    }
}

fn lengthen_first(ops: &mut Vec<Op>, len: u64) -> Option<u64>
    ensures lead { ops.new.items ≡ with_lead len ops.old.items }
    ensures old { MatchOption result (ops.new.items ≡ ops.old.items) (RetainsFirst ops.old.items) }
{
    if ops.is_empty() {
        return None;
    }
    ops[0].lengthen(len)
}

fn copy_ops(alloc: Global, ops: &[Op]) -> Result<Vec<Op>, AllocError>
    ensures same { IfOk result (λ copy. copy.items ≡ ops.now) }
{
    let mut copy = Vec::with_capacity(alloc, ops.len())?;
    for op in ops {
        copy.push(op.copy(alloc)?)?;
    }
    Ok(copy)
}
