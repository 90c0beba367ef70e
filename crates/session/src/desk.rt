//! What answers a session.
use crate::reply::Reply;
use crate::sent::Sent;
use refusal::Refusal;
use revision::{Command, State};
use std::alloc::Global;

/// What answers the commands of a session, and shows it the documents.
pub trait Desk {
    ghost use Rattle.std.specs.Prelude.{◌≡◌, Option};
    ghost use Rattle.std.specs.Fn.{FnOnceReturnsAt};
    ghost use Rattle.std.specs.Option.{ForSome};
    ghost use Rattle.revision.specs.State as state;
    ghost use Rattle.session.specs.Exchange.{Exchange, Answered, Shown, IsReadOf};
    ghost use Rattle.session.specs.Replies.{Asks};
    ghost use Rattle.session.specs.Ahead.{commands_of, exchanges_of};
    ghost use Rattle.session.specs.Shelf.{IsLater};

    /// In the first of two states of the desk this passes between it and the session, and leads it to the second.
    ghost does: { Self → Exchange → Self → Type 0 };

    /// The state that the desk has reached. No call takes it back: each call leaves it unchanged, or with
    /// further commands that continue it.
    ghost reached: { Self → state.State };

    /// The answer to a command.
    fn ask(&mut self, alloc: Global, command: &Command) -> Result<Reply, Refusal>
        ensures answered { does self.old (Answered command.now result) self.new }
        ensures later { IsLater (reached self.old) (reached self.new) };

    /// The answers to commands that were sent ahead: what comes of them is what comes of asking each alone, one after another.
    fn ask_all(&mut self, alloc: Global, sent: &mut Vec<Sent>)
        ensures commands { commands_of sent.new.items ≡ commands_of sent.old.items }
        ensures answered { Asks does self.old (exchanges_of sent.new.items) self.new }
        ensures later { IsLater (reached self.old) (reached self.new) }
    {
        for i in 0..sent.len() {
            let answer = self.ask(alloc, &sent[i].command);
            sent[i].answer = answer;
        }
    }

    /// What is read of the state that the desk shows, which is the one that it has reached then. Refused with `StoreFailed` where it
    /// can show none, and then nothing is read.
    fn view<R, F: Drop + FnOnce(&State) -> R>(&mut self, read: F) -> Result<R, Refusal>
        requires { F.IsAlwaysCallable read }
        ensures shown { (shown : Option state.State) × does self.old (Shown shown) self.new
            × IsReadOf (λ state answer. FnOnceReturnsAt F.FnOnce read state answer) shown result
            × ForSome shown (λ state. state ≡ reached self.new) }
        ensures later { IsLater (reached self.old) (reached self.new) };
}
