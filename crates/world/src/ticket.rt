//! Tickets, and the acknowledgements that they are good for.
ghost use Rattle.std.specs.Prelude.{◌≡◌, Ok};
ghost use Rattle.revision.specs.Planned.{reply_of};

use revision::{Command, Reply};
use std::marker::Model;
use std::snapshot::Snapshot;

/// A command's reply, and the length of the order that has to be settled before the reply may be given. The command itself is
/// there for contracts alone, and takes no memory.
#[derive(Drop)]
pub struct Ticket {
    command: Snapshot<Command>,
    reply: Reply,
    length: usize,
}

impl Model for Ticket {
    ghost use Rattle.std.specs.Prelude.{Ok};
    ghost use Rattle.revision.specs.Planned.{reply_of};
    ghost use Rattle.world.specs.Progress as spec;

    ghost Value = { spec.Ticket };

    ghost view = { λ t. record { command = t.command.value; reply = reply_of (Ok t.reply); length = t.length } };
}

impl Ticket {
    // A ticket for a command. It takes no memory.
    pub(crate) fn new(command: &Command, reply: Reply, length: usize) -> Ticket
        ensures { result ≡ record { command = command.now; reply = reply_of (Ok reply); length = length } }
    {
        Ticket {
            command: Snapshot::of(command),
            reply,
            length,
        }
    }

    /// The reply.
    pub fn reply(&self) -> Reply
        ensures { reply_of (Ok result) ≡ self.now.reply }
    {
        self.reply
    }

    /// The length of the order that has to be settled before the reply may be given.
    pub fn length(&self) -> usize
        ensures { result ≡ self.now.length }
    {
        self.length
    }
}

/// An acknowledgement: the reply of a ticket whose length was settled. The ticket itself is there for contracts alone.
#[derive(Drop)]
pub struct Ack {
    ticket: Snapshot<Ticket>,
    reply: Reply,
    length: usize,
}

impl Model for Ack {
    ghost use Rattle.std.specs.Prelude.{◌≡◌, Ok};
    ghost use Rattle.revision.specs.Planned.{reply_of};
    ghost use Rattle.world.specs.Progress as spec;

    ghost Value = { spec.Ticket };

    ghost view = { λ a. a.ticket.value };

    ghost invariant = { λ a. (reply_of (Ok a.reply) ≡ a.ticket.value.reply) × (a.length ≡ a.ticket.value.length) };
}

impl Ack {
    // The acknowledgement of a ticket. It takes no memory.
    pub(crate) fn of(ticket: &Ticket) -> Ack
        ensures { result ≡ ticket.now }
    {
        Ack {
            ticket: Snapshot::of(ticket),
            reply: ticket.reply(),
            length: ticket.length(),
        }
    }

    /// The reply.
    pub fn reply(&self) -> Reply
        ensures { reply_of (Ok result) ≡ self.now.reply }
    {
        self.reply
    }

    /// The length of the order that was settled before the reply was given.
    pub fn length(&self) -> usize
        ensures { result ≡ self.now.length }
    {
        self.length
    }
}
