//! How a hub is called.
ghost use Rattle.std.specs.Prelude.{◌≡◌, IfOk};
ghost use Rattle.recovery.specs.Found.{commands_of};
ghost use Rattle.hub.specs.Placed.{StandsFirst};

use hub::{Hub, Seat, Ticket};
use published::{Life, Told};
use refusal::Refusal;
use revision::Command;
use std::alloc::Global;
use std::sync::Wait;

/// Submits a command, and waits until its reply may be given: the token that comes with it has the ticket's order first.
pub fn submit_and_wait<D, L: Life, R: Wait>(
    rt: &R,
    alloc: Global,
    hub: &Hub<D, L>,
    seat: &mut Seat<L>,
    command: &Command,
) -> Result<(Ticket<L>, Told<D, L>), Refusal>
    ensures command { IfOk result (λ done. done.0.command ≡ command.now) }
    ensures stands { IfOk result (λ done. StandsFirst L.start done.0 (commands_of done.1)) }
{
    let ticket = match hub.submit(rt, alloc, seat, command) {
        Ok(ticket) => ticket,
        Err(why) => return Err(why.refusal()),
    };
    match hub.wait_ack(rt, &ticket) {
        Ok(told) => Ok((ticket, told)),
        Err(stopped) => Err(stopped.refusal()),
    }
}
