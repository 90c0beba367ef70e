//! Commands that are written together.
ghost use Rattle.std.specs.Prelude.{◌≡◌, IfOk};

use super::taken::Taken;
use std::alloc::{AllocError, Global};
use std::marker::Model;
use std::sync::Arc;

/// Commands in their order, which any number of owners have together. Contracts see the list of them.
#[derive(Drop)]
pub struct Batch {
    commands: Arc<Vec<Taken>>,
}

impl Model for Batch {
    ghost use Rattle.std.specs.Prelude.{List};
    ghost use Rattle.std.specs.Arc.{arc_value};
    ghost use Rattle.revision.specs.Command as spec;

    ghost Value = { List spec.Taken };

    ghost view = { λ b. (arc_value b.commands).items };
}

impl Batch {
    /// These commands, with one owner. Refused as out of memory alone.
    pub fn of(alloc: Global, commands: Vec<Taken>) -> Result<Batch, AllocError>
        ensures same { IfOk result (λ batch. batch ≡ commands.items) }
    {
        match Arc::new(alloc, commands) {
            Ok(commands) => Ok(Batch { commands }),
            Err(_) => Err(AllocError),
        }
    }

    /// One more owner of them. Refused with `NoMemory`, where they can have no more owners.
    pub fn share(&self) -> Result<Batch, AllocError>
        ensures same { IfOk result (λ batch. batch ≡ self.now) }
    {
        let commands = Arc::try_clone(&self.commands)?;
        Ok(Batch { commands })
    }

    /// The commands, in order.
    pub fn as_slice(&self) -> &[Taken]
        ensures { result.now ≡ self.now }
    {
        self.commands.as_slice()
    }
}
