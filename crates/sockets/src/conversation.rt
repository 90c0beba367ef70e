//! A conversation: a session over a connection.
ghost use Rattle.std.specs.Prelude.{◌≡◌, false, [], true, IfOk, OnOk, OnErr};
ghost use Rattle.serving.specs.Turns.{beginning};
ghost use Rattle.sockets.specs.Host.{number_read, reads_of};
ghost use Rattle.sockets.specs.Ends.{EndsBetween};
ghost use Rattle.sockets.specs.Conversation.{IsAnswered, StopsConversing};

use crate::hall::Hall;
use crate::parting::Parting;
use crate::raw::HostReader;
use crate::reads::ReadPieces;
use serving::serve_pieces;
use session::{Desk, Output, Session, SessionEnded, Shelf};
use std::alloc::Global;
use std::sync::Wait;

/// Has a conversation by a desk, from a session's beginning until the input ends or fails, a write fails, the peer is idle for as long as it may
/// be, or the hall ends. Where the session is out of memory nothing is read or written.
pub fn converse<'h, K: Desk, O: Output, R: Wait>(
    rt: &R,
    alloc: Global,
    hall: &'h Hall,
    desk: &mut K,
    reader: &mut HostReader,
    output: &mut O,
) -> Result<Parting<'h>, SessionEnded>
    requires new { reads_of reader.old ≡ [] }
    // What was written is the replies to what was read, in order, and the news after each read and each wait.
    ensures answered { OnOk result (IsAnswered K.does desk.old desk.new (reads_of reader.old) (reads_of reader.new) (O.contents output.old) (O.contents output.new)) }
    ensures ends { IfOk result (λ why. EndsBetween hall.now.ended.id why (reads_of reader.new)) }
    // A write that fails ends it. What was due before was written, and a prefix of what that write was to write.
    ensures stopped { OnErr result (StopsConversing K.does beginning desk.old desk.new
        (reads_of reader.old) (reads_of reader.new) (O.contents output.old) (O.contents output.new)) }
    ensures cause { OnErr result (O.has_failed output.new ≡ true) }
    ensures sent { O.has_failed output.old ≡ false → OnOk result (O.has_failed output.new ≡ false) }
    ensures same { number_read reader.new ≡ number_read reader.old }
{
    let Ok(mut session) = Session::new(alloc) else {
        return Ok(Parting::NoMemory);
    };
    let Ok(mut shelf) = Shelf::new(alloc) else {
        return Ok(Parting::NoMemory);
    };
    let mut pieces = ReadPieces::new(hall);
    serve_pieces(
        rt,
        alloc,
        &mut session,
        desk,
        &mut shelf,
        &mut pieces,
        reader,
        output,
    )
}
