mod ahead;
mod forms;
mod pieces;
mod reads;
mod shelf;
mod subscriptions;
mod writes;

ghost use Rattle.std.specs.Prelude.{◌≤◌};

use revision::{Limits, State};
use session::laws::kept_documents_stay;
use session::{Output, Session, SessionEnded, Shelf, StateDesk, Stream};
use std::alloc::Global;
use std::marker::Model;
use std::process::Abort;

/// A session over a state in memory, with the shelf that fits it.
#[derive(Drop)]
struct Conversation {
    session: Session,
    desk: StateDesk,
    shelf: Shelf,
}

impl Model for Conversation {
    ghost use Rattle.revision.specs.State.{State};
    ghost use Rattle.session.specs.Shelf.{Fits};

    ghost Value = { State };

    ghost view = { λ c. c.desk };

    ghost invariant = { λ c. Fits c.desk c.shelf };
}

impl Conversation {
    /// A session over a state without documents, which keeps so many revisions.
    fn new(rt: &(impl Abort + AllocGlobal), keep: u32) -> Conversation
        requires first { 1 ≤ keep }
        requires last { keep ≤ 65536 }
    {
        let limits = Limits::new(4, 4, 65536, 65536, keep);
        Conversation {
            session: Session::new(rt.alloc()).expect(rt, "memory"),
            desk: StateDesk::new(State::new(rt.alloc(), limits)),
            shelf: Shelf::new(rt.alloc()).expect(rt, "memory"),
        }
    }

    /// The same of documents of at most 2^24 units' weight and of long changes, with 16 revisions.
    fn roomy(rt: &(impl Abort + AllocGlobal)) -> Conversation {
        let limits = Limits::new(4, 4, 1 << 24, 1 << 20, 16);
        Conversation {
            session: Session::new(rt.alloc()).expect(rt, "memory"),
            desk: StateDesk::new(State::new(rt.alloc(), limits)),
            shelf: Shelf::new(rt.alloc()).expect(rt, "memory"),
        }
    }

    fn feed<O: Output>(
        &mut self,
        alloc: Global,
        piece: &[u8],
        out: &mut O,
    ) -> Result<(), SessionEnded> {
        self.desk
            .feed(alloc, &mut self.session, piece, out, &mut self.shelf)
    }

    fn on_news<O: Output>(&mut self, alloc: Global, out: &mut O) -> Result<bool, SessionEnded> {
        kept_documents_stay();
        self.desk.on_news(alloc, &mut self.session, out)
    }
}

/// What is written upon a line that is fed in pieces of so many bytes.
fn said(rt: &(impl Abort + AllocGlobal), talk: &mut Conversation, line: &str, size: usize) -> String
    requires { 1 ≤ size }
{
    let input = format!(in rt.alloc(); "{line}\n").expect(rt, "memory");
    let mut out = Stream::new(Vec::new(rt.alloc()));
    for piece in input.as_bytes().chunks(size) {
        talk.feed(rt.alloc(), piece, &mut out)
            .expect(rt, "no write fails");
    }
    String::from_utf8(out.into_writer()).expect(rt, "a text")
}

/// Upon a line this line is written.
fn is_replied(
    rt: &(impl Abort + AllocGlobal),
    talk: &mut Conversation,
    line: &str,
    reply: &str,
    size: usize,
)
    requires { 1 ≤ size }
{
    let wanted = format!(in rt.alloc(); "{reply}\n").expect(rt, "memory");
    assert_eq!(rt; said(rt, talk, line, size).as_str(), wanted.as_str());
}
