//! What a source asks for.
ghost use Rattle.std.specs.Prelude.{◌≡◌, ◌<◌, ◌≤◌, ◌^◌, ◌↔◌, true, IsErrOf, IfErr, IfOk};
ghost use Rattle.revision.specs.Name.{is_source_name};
ghost use Rattle.revision.specs.Command.{Create, Edit, Undo, Delete, IsShort, IsShortDelta};
ghost use Rattle.revision.specs.steps.Actions.{action_of};

use super::name::Name;
use delta::Delta;
use refusal::Refusal;
use std::alloc::{AllocError, Global};
use std::marker::Model;

/// The longest base and output of a command's delta: 2^44 UTF-16 code units.
const MAX_LEN: u64 = 1 << 44;

/// What is to be done to a document. In a command the delta's base and its output are each at most 2^44 UTF-16 code units
/// long.
#[derive(Drop)]
pub enum Action {
    /// Make it, by a delta on the empty document.
    Create(Delta),
    /// Change it, by a delta that was made on this revision.
    Edit { base: u64, delta: Delta },
    /// Take the source's last change back.
    Undo,
    /// Delete it.
    Delete,
}

impl Action {
    /// An equal action, or `NoMemory`.
    pub fn copy(&self, alloc: Global) -> Result<Action, AllocError>
        ensures same { IfOk result (λ copy. action_of copy ≡ action_of self.now) }
    {
        match self {
            Action::Create(delta) => Ok(Action::Create(delta.copy(alloc)?)),
            Action::Edit { base, delta } => Ok(Action::Edit {
                base: *base,
                delta: delta.copy(alloc)?,
            }),
            Action::Undo => Ok(Action::Undo),
            Action::Delete => Ok(Action::Delete),
        }
    }
}

/// A source's command to a document, with the source's number for it, 1 to 2^53 - 1.
#[derive(Drop)]
pub struct Command {
    name: Name,
    source: Name,
    number: u64,
    action: Action,
}

impl Model for Command {
    ghost use Rattle.std.specs.Prelude.{◌≡◌, ◌≤◌, ◌<◌, ◌^◌, true};
    ghost use Rattle.revision.specs.Name.{is_source_name};
    ghost use Rattle.revision.specs.Command as spec;
    ghost use Rattle.revision.specs.Command.{IsShort};

    ghost Value = { spec.Command };

    ghost use Rattle.revision.specs.steps.Actions.{action_of};

    ghost view = { λ c. record { name = c.name; source = c.source; number = c.number; action = action_of c.action } };

    ghost invariant = { λ c. (is_source_name c.source ≡ true) × (1 ≤ c.number) × (c.number < 2 ^ 53)
        × IsShort (action_of c.action) };
}

impl Command {
    /// Asks that the document of this name be made, or be made again where it is deleted, by a delta on the empty document. The source's
    /// name has 1 to 32 characters, and its number for the command is 1 to 2^53 - 1. Refused with `BadOps` where the delta stands on more
    /// than 2^44 UTF-16 code units, or its output has more; the names and the delta are then gone. It takes no memory. Whether the
    /// command is taken, `State::plan` says.
    pub fn create(name: Name, source: Name, number: u64, delta: Delta) -> Result<Command, Refusal>
        requires source { is_source_name source ≡ true }
        requires first { 1 ≤ number }
        requires last { number < 2 ^ 53 }
        ensures ok { IfOk result (λ c. c
            ≡ record { name = name; source = source; number = number; action = Create delta }) }
        ensures bad { IsErrOf result Refusal.BadOps ↔ (¬ IsShortDelta delta) }
        ensures only { IfErr result (λ e. e ≡ Refusal.BadOps) }
    {
        if !is_short(&delta) {
            return Err(Refusal::BadOps);
        }
        Ok(Command {
            name,
            source,
            number,
            action: Action::Create(delta),
        })
    }

    /// Asks that the document of this name be changed by a delta that was made on its revision `base`. The names, the
    /// number and the delta are as those of `create`, and so is the refusal.
    pub fn edit(
        name: Name,
        source: Name,
        number: u64,
        base: u64,
        delta: Delta,
    ) -> Result<Command, Refusal>
        requires source { is_source_name source ≡ true }
        requires first { 1 ≤ number }
        requires last { number < 2 ^ 53 }
        ensures ok { IfOk result (λ c. c
            ≡ record { name = name; source = source; number = number; action = Edit base delta }) }
        ensures bad { IsErrOf result Refusal.BadOps ↔ (¬ IsShortDelta delta) }
        ensures only { IfErr result (λ e. e ≡ Refusal.BadOps) }
    {
        if !is_short(&delta) {
            return Err(Refusal::BadOps);
        }
        Ok(Command {
            name,
            source,
            number,
            action: Action::Edit { base, delta },
        })
    }

    /// Asks that the source's last change of the document of this name be taken back. The source's name and its number are
    /// as those of `create`. It is never refused.
    pub fn undo(name: Name, source: Name, number: u64) -> Command
        requires source { is_source_name source ≡ true }
        requires first { 1 ≤ number }
        requires last { number < 2 ^ 53 }
        ensures { result ≡ record { name = name; source = source; number = number; action = Undo } }
    {
        Command {
            name,
            source,
            number,
            action: Action::Undo,
        }
    }

    /// Asks that the document of this name be deleted. The source's name and its number are as those of `create`. It is never
    /// refused.
    pub fn delete(name: Name, source: Name, number: u64) -> Command
        requires source { is_source_name source ≡ true }
        requires first { 1 ≤ number }
        requires last { number < 2 ^ 53 }
        ensures { result ≡ record { name = name; source = source; number = number; action = Delete } }
    {
        Command {
            name,
            source,
            number,
            action: Action::Delete,
        }
    }

    /// The document's name, of 1 to 64 characters.
    pub fn name(&self) -> &Name
        ensures { result.now ≡ self.now.name }
    {
        &self.name
    }

    /// The source's name, of 1 to 32 characters.
    pub fn source(&self) -> &Name
        ensures source { result.now ≡ self.now.source }
        ensures valid { is_source_name self.now.source ≡ true }
    {
        &self.source
    }

    /// The source's number, 1 to 2^53 - 1.
    pub fn number(&self) -> u64
        ensures number { result ≡ self.now.number }
        ensures first { 1 ≤ result }
        ensures last { result < 2 ^ 53 }
    {
        self.number
    }

    /// What each command keeps, for the prover. It does nothing.
    pub fn facts(&self)
        ensures first { 1 ≤ self.now.number }
        ensures last { self.now.number < 2 ^ 53 }
    {
        let _ = &self.action;
    }

    /// What is to be done.
    pub fn action(&self) -> &Action
        ensures action { action_of result.now ≡ self.now.action }
        ensures short { IsShort self.now.action }
    {
        &self.action
    }

    /// An equal command, or `NoMemory`.
    pub fn copy(&self, alloc: Global) -> Result<Command, AllocError>
        ensures same { IfOk result (λ copy. copy ≡ self.now) }
    {
        let name = self.name.copy(alloc)?;
        let source = self.source.copy(alloc)?;
        let action = self.action.copy(alloc)?;
        Ok(Command {
            name,
            source,
            number: self.number,
            action,
        })
    }
}

// the delta stands on at most 2^44 code units, and its output has at most 2^44
fn is_short(delta: &Delta) -> bool
    ensures { (result ≡ true) ↔ IsShortDelta delta.now }
{
    delta.base_len() <= MAX_LEN && delta.out_len() <= MAX_LEN
}
