//! What the order keeps of a command.
ghost use Rattle.std.specs.Prelude.{◌≡◌};
ghost use Rattle.world.specs.World.{entry_of};

use revision::{Command, Taken};
use std::marker::Model;
use std::snapshot::Snapshot;

/// A command of the order: what was taken of it. The command itself is there for contracts alone, and takes no memory.
#[derive(Drop)]
pub struct Entry {
    command: Snapshot<Command>,
    taken: Taken,
}

impl Model for Entry {
    ghost use Rattle.world.specs.World as spec;

    ghost Value = { spec.Entry };

    ghost view = { λ e. record { command = e.command.value; taken = e.taken } };
}

impl Entry {
    /// A command, and what was taken of it. It takes no memory.
    pub(crate) fn new(command: &Command, taken: Taken) -> Entry
        ensures { result ≡ entry_of command.now taken }
    {
        Entry {
            command: Snapshot::of(command),
            taken,
        }
    }

    /// What was taken of the command.
    pub fn taken(&self) -> &Taken
        ensures { result.now ≡ self.now.taken }
    {
        &self.taken
    }
}

/// An entry that is there for contracts alone. It takes no memory, in a list neither.
#[derive(Drop)]
pub(crate) struct Noted(Snapshot<Entry>);

impl Model for Noted {
    ghost use Rattle.world.specs.World as spec;

    ghost Value = { spec.Entry };

    ghost view = { λ n. n.0.value };
}

impl Noted {
    pub(crate) fn of(entry: &Entry) -> Noted
        ensures { result ≡ entry.now }
    {
        Noted(Snapshot::of(entry))
    }
}
