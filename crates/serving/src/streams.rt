//! One session over a pair of streams.
ghost use Rattle.std.specs.Prelude.{◌≡◌, ◌⊎◌, true, false, IfErr, OnOk, OnErr};
ghost use Rattle.std.specs.Io.KnownBytes.{IsAtEnd, Keeps};
ghost use Rattle.session.specs.Shelf.{Fits};
ghost use Rattle.serving.specs.Serving.{Serves, StopsServing};

use crate::failure::ServingError;
use crate::input::Input;
use crate::lines::LinePieces;
use crate::serve::serve_pieces;
use session::{Desk, Output, Session, Shelf};
use std::alloc::Global;
use std::sync::Wait;

/// Serves a session by a desk, up to the end of the input, with the news after each line. It ends before that where a stream fails, and
/// then at once (`Stream`): the output, or else the input, and then all that is due of what was taken is written.
pub fn serve_session<R: Wait, K: Desk, I: Input, O: Output>(
    rt: &R,
    alloc: Global,
    session: &mut Session,
    desk: &mut K,
    shelf: &mut Shelf,
    input: &mut I,
    output: &mut O,
) -> Result<(), ServingError>
    requires fits { Fits (K.reached desk.old) shelf.old }
    requires works { session.old.ended ≡ false }
    ensures fits { Fits (K.reached desk.new) shelf.new }
    ensures served { OnOk result (Serves K.does session.old session.new desk.old desk.new
        (I.remaining input.old) (I.remaining input.new) (O.contents output.old) (O.contents output.new)) }
    ensures at_end { OnOk result (IsAtEnd (I.remaining input.new)) }
    ensures stopped { OnErr result (StopsServing K.does session.old desk.old desk.new
        (I.remaining input.old) (I.remaining input.new) (O.contents output.old) (O.contents output.new)) }
    ensures cause { OnErr result ((O.has_failed output.new ≡ true) ⊎ ((I.has_failed input.new ≡ true)
        × Serves K.does session.old session.new desk.old desk.new
        (I.remaining input.old) (I.remaining input.new) (O.contents output.old) (O.contents output.new))) }
    ensures sent { OnOk result (O.has_failed output.new ≡ false) }
    ensures read { OnOk result (I.has_failed input.new ≡ false) }
    ensures only { IfErr result (λ e. e ≡ ServingError.Stream) }
{
    let mut lines = LinePieces::new();
    match serve_pieces(rt, alloc, session, desk, shelf, &mut lines, input, output) {
        Ok(Ok(())) => flush(output),
        Ok(Err(_)) => Err(ServingError::Stream),
        Err(_) => Err(ServingError::Stream),
    }
}

fn flush<O: Output>(output: &mut O) -> Result<(), ServingError>
    ensures kept { Keeps (O.contents output.old) (O.contents output.new) }
    ensures works { OnOk result (O.has_failed output.new ≡ false) }
    ensures failed { OnErr result (O.has_failed output.new ≡ true) }
    ensures only { IfErr result (λ e. e ≡ ServingError.Stream) }
{
    let Ok(()) = output.flush() else {
        return Err(ServingError::Stream);
    };
    Ok(())
}
