//! A desk of a state alone, for tests: no program uses it.
ghost use Rattle.std.specs.Prelude.{◌≡◌, true, false, IfOk, IsErr, OnErr, OnOk};
ghost use Rattle.revision.specs.State.{State, grows, grown};
ghost use Rattle.session.specs.declared.reply.Reply.TheVariants as reply;
ghost use Rattle.session.specs.Alone.{Alone, FedAlone, HearsAlone, of_session};
ghost use Rattle.session.specs.Calls.{StopsNews};
ghost use Rattle.session.specs.Replies.{Feeds, Stops};
ghost use Rattle.session.specs.Shelf.{Fits, IsLater};

use crate::desk::Desk;
use crate::laws::{news_of_a_state, replies_of_a_state};
use crate::output::Output;
use crate::reply::Reply;
use crate::session::{Session, SessionEnded};
use crate::shelf::Shelf;
use refusal::Refusal;
use revision::{Command, Plan, State, Taken, laws};
use std::alloc::{AllocError, Global};
use std::marker::Model;

/// Answers each command by the rule of acceptance, and shows the state that comes of all of them. It keeps nothing on a
/// device.
#[derive(Drop)]
pub struct StateDesk {
    state: State,
}

impl Model for StateDesk {
    ghost use Rattle.revision.specs.State as spec;

    ghost Value = { spec.State };

    ghost view = { λ d. d.state };
}

impl StateDesk {
    /// A desk of this state.
    pub fn new(state: State) -> StateDesk
        ensures { result ≡ state }
    {
        StateDesk { state }
    }

    /// Feeds a piece of the input to a session over this desk: where memory is found, the replies to its lines are written, each
    /// over what the lines before it did, and nothing else. A write that fails ends the session.
    pub fn feed<O: Output>(
        &mut self,
        alloc: Global,
        session: &mut Session,
        piece: &[u8],
        out: &mut O,
        shelf: &mut Shelf,
    ) -> Result<(), SessionEnded>
        requires fits { Fits self.old shelf.old }
        ensures fits { Fits self.new shelf.new }
        // Once a write has failed, nothing is written or asked.
        ensures ended { session.old.ended ≡ true → IsErr result }
        ensures silent { session.old.ended ≡ true → out.new ≡ out.old }
        ensures idle { session.old.ended ≡ true → self.new ≡ self.old }
        ensures fed { OnOk result
            (FedAlone (of_session session.old self.old) piece.now (of_session session.new self.new)
            (O.contents out.old) (O.contents out.new)) }
        // The same of each line, where some find no memory.
        ensures feeds { OnOk result (Feeds Alone session.old piece.now session.new self.old self.new
            (O.contents out.old) (O.contents out.new)) }
        // A write that fails ends the session, and nothing else does. A prefix of the replies was written.
        ensures stopped { OnErr result (session.old.ended ≡ false
            → Stops Alone session.old piece.now session.new self.old self.new (O.contents out.old)
            (O.contents out.new)) }
        ensures cause { OnErr result (session.old.ended ≡ false → O.has_failed out.new ≡ true) }
        ensures ok { OnOk result (session.new.ended ≡ false) }
        ensures err { OnErr result (session.new.ended ≡ true) }
    {
        replies_of_a_state();
        session.feed(alloc, piece, out, self, shelf)
    }

    /// Tells the news of a session over this desk, and answers whether it did: then the news of the state are written. Where there
    /// are news and memory for them is wanted it writes nothing, and the next call tells all of them.
    pub fn on_news<O: Output>(
        &mut self,
        alloc: Global,
        session: &mut Session,
        out: &mut O,
    ) -> Result<bool, SessionEnded>
        ensures later { IsLater self.old self.new }
        // Once a write has failed, nothing is written or asked.
        ensures ended { session.old.ended ≡ true → IsErr result }
        ensures silent { session.old.ended ≡ true → out.new ≡ out.old }
        ensures idle { session.old.ended ≡ true → self.new ≡ self.old }
        ensures heard { IfOk result
            (λ told. HearsAlone told (of_session session.old self.old) (of_session session.new self.new)
            (O.contents out.old) (O.contents out.new)) }
        // A write that fails ends the session, and nothing else does. A prefix of the news was written.
        ensures stopped { OnErr result (session.old.ended ≡ false
            → StopsNews Alone session.old session.new self.old self.new (O.contents out.old) (O.contents out.new)) }
        ensures cause { OnErr result (session.old.ended ≡ false → O.has_failed out.new ≡ true) }
        ensures ok { OnOk result (session.new.ended ≡ false) }
        ensures err { OnErr result (session.new.ended ≡ true) }
    {
        news_of_a_state();
        session.on_news(alloc, out, self)
    }

    // Adds what is taken of a command, which continues the state. Refused as out of memory alone.
    fn add(&mut self, alloc: Global, taken: Taken) -> Result<Reply, AllocError>
        requires { grows self.old taken ≡ true }
        ensures told { IfOk result (λ told. told ≡ reply.Taken taken.revision) }
        ensures added { OnOk result (self.new ≡ grown self.old taken) }
        ensures unchanged { OnErr result (self.new ≡ self.old) }
    {
        let rev = taken.revision();
        self.state.add(alloc, &taken)?;
        Ok(Reply::Taken { rev })
    }
}

impl Desk for StateDesk {
    ghost use Rattle.session.specs.Alone.{Alone};

    ghost does = { λ old exchange new. Alone old exchange new };

    ghost reached = { λ desk. desk };

    fn ask(&mut self, alloc: Global, command: &Command) -> Result<Reply, Refusal> {
        laws::taken_grows();
        command.facts();
        match self.state.plan(alloc, command)? {
            Plan::Taken(taken) => Ok(self.add(alloc, taken)?),
            Plan::Again { rev } => Ok(Reply::Again { rev }),
        }
    }

    fn view<R, F: Drop + FnOnce(&State) -> R>(&mut self, read: F) -> Result<R, Refusal> {
        Ok(read(&self.state))
    }
}
