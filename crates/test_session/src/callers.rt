//! The caller that opens `lib.rt` of session.
ghost use Rattle.std.specs.Prelude.{OnOk};
ghost use Rattle.session.specs.Alone.{FedAlone, of_session};
ghost use Rattle.session.specs.Shelf.{Fits};

use session::{Output, Session, SessionEnded, Shelf, StateDesk};
use std::alloc::Global;

/// Takes a piece of the input over a state in memory.
pub fn reply<O: Output>(
    alloc: Global,
    session: &mut Session,
    desk: &mut StateDesk,
    piece: &[u8],
    out: &mut O,
    shelf: &mut Shelf,
) -> Result<(), SessionEnded>
    requires fits { Fits desk.old shelf.old }
    ensures fits { Fits desk.new shelf.new }
    ensures fed { OnOk result (FedAlone (of_session session.old desk.old) piece.now (of_session session.new desk.new)
        (O.contents out.old) (O.contents out.new)) }
{
    desk.feed(alloc, session, piece, out, shelf)
}
