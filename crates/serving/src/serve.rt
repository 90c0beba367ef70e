//! One session, whatever its input is.
ghost use Rattle.std.specs.Prelude.{◌≡◌, true, false, [], ◌∷◌, IfOk, OnOk, OnErr};
ghost use Rattle.session.specs.Replies.{Feeds, Stops};
ghost use Rattle.session.specs.Calls.{StopsNews};
ghost use Rattle.session.specs.Shelf.{Fits, IsLater};
ghost use Rattle.serving.specs.Turns.{Answers, AnswersTaken, EndsBehind, GivesAll, StopsAfter, StopsIn, TellsWhere};

use crate::pieces::Pieces;
use session::{Desk, Output, Session, SessionEnded, Shelf};
use std::alloc::Global;
use std::sync::Wait;

/// Serves a session by a desk until its input ends, and answers why it did: each piece is fed, the news are told where the input is cut
/// behind it, and then all that was written is sent on. A write that fails ends it before that.
pub fn serve_pieces<R: Wait, K: Desk, I, P: Pieces<I>, O: Output>(
    rt: &R,
    alloc: Global,
    session: &mut Session,
    desk: &mut K,
    shelf: &mut Shelf,
    pieces: &mut P,
    input: &mut I,
    output: &mut O,
) -> Result<P::End, SessionEnded>
    requires fits { Fits (K.reached desk.old) shelf.old }
    requires works { session.old.ended ≡ false }
    ensures fits { Fits (K.reached desk.new) shelf.new }
    // What was written is the replies to the pieces that were given, in order, and the news where the input was cut.
    ensures answered { IfOk result (λ why. AnswersTaken K.does (EndsBehind P.gives P.ends why pieces.old input.old pieces.new input.new)
        session.old session.new desk.old desk.new (O.contents output.old) (O.contents output.new)) }
    // What was due before the write that failed was written, and a prefix of what that write was to write.
    ensures stopped { OnErr result (StopsAfter K.does (λ given. GivesAll P.gives pieces.old input.old given pieces.new input.new)
        session.old desk.old desk.new (O.contents output.old) (O.contents output.new)) }
    ensures cause { OnErr result (O.has_failed output.new ≡ true) }
    ensures sent { O.has_failed output.old ≡ false → OnOk result (O.has_failed output.new ≡ false) }
{
    'pieces: for _ in rt.forever() {
        match pieces.next(input, session) {
            Ok(is_cut) => answer(alloc, session, desk, shelf, pieces.piece(), is_cut, output)?,
            Err(why) => return Ok(why),
        }
    }
    unreachable!()
}

// Answers a piece, tells the news where the input is cut behind it, and sends on all that was written.
fn answer<K: Desk, O: Output>(
    alloc: Global,
    session: &mut Session,
    desk: &mut K,
    shelf: &mut Shelf,
    piece: &[u8],
    is_cut: bool,
    output: &mut O,
) -> Result<(), SessionEnded>
    requires fits { Fits (K.reached desk.old) shelf.old }
    requires works { session.old.ended ≡ false }
    ensures fits { Fits (K.reached desk.new) shelf.new }
    ensures answered { OnOk result (Answers K.does session.old (record { bytes = piece.now; is_cut = is_cut } ∷ []) session.new
        desk.old desk.new (O.contents output.old) (O.contents output.new)) }
    ensures stopped { OnErr result (StopsIn K.does session.old desk.old (O.contents output.old)
        (record { bytes = piece.now; is_cut = is_cut }) desk.new (O.contents output.new)) }
    ensures cause { OnErr result (O.has_failed output.new ≡ true) }
    ensures works { OnOk result (session.new.ended ≡ false) }
    ensures sent { OnOk result (O.has_failed output.new ≡ false) }
{
    reply(alloc, session, desk, shelf, piece, output)?;
    tell(alloc, session, desk, is_cut, output)?;
    output.flush()?;
    Ok(())
}

// Feeds what came, if anything did.
fn reply<K: Desk, O: Output>(
    alloc: Global,
    session: &mut Session,
    desk: &mut K,
    shelf: &mut Shelf,
    piece: &[u8],
    output: &mut O,
) -> Result<(), SessionEnded>
    requires fits { Fits (K.reached desk.old) shelf.old }
    requires works { session.old.ended ≡ false }
    ensures fits { Fits (K.reached desk.new) shelf.new }
    ensures fed { OnOk result (Feeds K.does session.old piece.now session.new desk.old desk.new
        (O.contents output.old) (O.contents output.new)) }
    ensures stopped { OnErr result (Stops K.does session.old piece.now session.new desk.old desk.new
        (O.contents output.old) (O.contents output.new)) }
    ensures cause { OnErr result (O.has_failed output.new ≡ true) }
    ensures works { OnOk result (session.new.ended ≡ false) }
{
    if piece.is_empty() {
        return Ok(());
    }
    session.feed(alloc, piece, output, desk, shelf)
}

// Tells the news where the input is cut.
fn tell<K: Desk, O: Output>(
    alloc: Global,
    session: &mut Session,
    desk: &mut K,
    is_cut: bool,
    output: &mut O,
) -> Result<(), SessionEnded>
    requires works { session.old.ended ≡ false }
    ensures later { IsLater (K.reached desk.old) (K.reached desk.new) }
    ensures told { OnOk result (TellsWhere K.does is_cut session.old session.new desk.old desk.new (O.contents output.old) (O.contents output.new)) }
    ensures cut { OnErr result (is_cut ≡ true) }
    ensures stopped { OnErr result (StopsNews K.does session.old session.new desk.old desk.new (O.contents output.old) (O.contents output.new)) }
    ensures cause { OnErr result (O.has_failed output.new ≡ true) }
    ensures works { OnOk result (session.new.ended ≡ false) }
{
    if is_cut {
        session.on_news(alloc, output, desk)?;
    }
    Ok(())
}
