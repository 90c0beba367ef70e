//! Which commands were sent.
ghost use Rattle.std.specs.Prelude.{◌≡◌, IfOk};
ghost use Rattle.world.specs.World.{is_of as spec_is_of, last_sent};
ghost use Rattle.world.specs.Step.{is_among_last as spec_is_among_last};

use revision::{Command, Name};
use std::alloc::{AllocError, Global};
use std::marker::Model;
use std::snapshot::Snapshot;

/// How many numbers a source's window has at most.
pub(crate) const LONGEST: u64 = 16;

/// A command that was sent: whose it is, and its number. What it asks for is there for contracts alone, and takes no memory.
#[derive(Drop)]
pub(crate) struct Sent {
    command: Snapshot<Command>,
    name: Name,
    source: Name,
    number: u64,
}

impl Model for Sent {
    ghost use Rattle.std.specs.Prelude.{◌≡◌};
    ghost use Rattle.revision.specs.Command as spec;

    ghost Value = { spec.Command };

    ghost view = { λ s. s.command.value };

    ghost invariant = { λ s. (s.name ≡ s.command.value.name) × (s.source ≡ s.command.value.source)
        × (s.number ≡ s.command.value.number) };
}

impl Sent {
    /// Notes a command. Refused as out of memory alone.
    pub(crate) fn of(alloc: Global, command: &Command) -> Result<Sent, AllocError>
        ensures ok { IfOk result (λ sent. sent ≡ command.now) }
    {
        Ok(Sent {
            command: Snapshot::of(command),
            name: command.name().copy(alloc)?,
            source: command.source().copy(alloc)?,
            number: command.number(),
        })
    }

    // whether it is of this source to the document of this name
    fn is_of(&self, name: &Name, source: &Name) -> bool
        ensures { result ≡ spec_is_of name.now source.now self.now }
    {
        self.name.as_str() == name.as_str() && self.source.as_str() == source.as_str()
    }

    fn number(&self) -> u64
        ensures { result ≡ self.now.number }
    {
        self.number
    }
}

/// Whether a number is one of the last ones that were sent, as many as a window has at most.
pub(crate) fn is_among_last(number: u64, sent: u64) -> bool
    ensures { result ≡ spec_is_among_last number sent }
{
    number <= sent && sent - number < LONGEST
}

/// The greatest number that a source sent to a document, 0 where it sent none.
pub(crate) fn last_number(name: &Name, source: &Name, sent: &[Sent]) -> u64
    ensures { result ≡ last_sent name.now source.now sent.now }
{
    let mut last = 0;
    for one in sent {
        if one.is_of(name, source) {
            last = one.number().max(last);
        }
    }
    last
}
