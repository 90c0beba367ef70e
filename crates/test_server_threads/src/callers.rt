//! The callers that open `lib.rt` of hub_desk, sockets and server_threads.
ghost use Rattle.std.specs.Prelude.{◌≡◌, ◌∷◌, [], true, IfErr, IfOk, is_ok};
ghost use Rattle.recovery.specs.Open.{state_of};
ghost use Rattle.hub_desk.specs.AtHub.{Acknowledges, Refuses};
ghost use Rattle.server_threads.specs.Connections.{EachHasServed};
ghost use Rattle.server_threads.specs.Served.{WasServed};
ghost use Rattle.server_threads.specs.Streams.{ByOne, EndsAtHub};
ghost use Rattle.sockets.specs.Attendance.{visits_of};
ghost use Rattle.sockets.specs.Desks.{HaveServedInHall};

use disk::Disk;
use hub_desk::HubDesk;
use published::Life;
use recovery::Store;
use refusal::Refusal;
use revision::Command;
use server_threads::{Attendance, Connected, Streamed, Watch, serve_on, serve_streams};
use serving::Input;
use session::{Desk, Output, Reply};
use sockets::{Attended, Listen, ListenerWatch, serve_desks};
use std::alloc::{AllocError, Global};
use std::sync::Wait;
use std::thread::Threads;
use std::time::Clock;

/// Answers a command at a hub once it is settled: what the desk shows from then on has it.
pub fn answer<D, L: Life, R: Wait>(
    alloc: Global,
    desk: &mut HubDesk<'_, D, L, R>,
    command: &Command,
) -> Result<Reply, Refusal>
    ensures ok { IfOk result (λ reply. Acknowledges L.start desk.old command.now reply desk.new) }
    ensures err { IfErr result (λ e. Refuses L.start desk.old command.now e desk.new) }
{
    desk.ask(alloc, command)
}

/// Serves one connection after another by a single desk, until the listener fails. What it exchanged is what the conversations of its visits
/// ask.
pub fn serve_in_turn<
    K: Desk + Send + Drop,
    R: Threads + Wait + Clock + Sync,
    N: Listen,
    W: ListenerWatch,
>(rt: &R, alloc: Global, desk: K, listener: N, watch: &W) -> Result<Attended<K, N>, AllocError>
    ensures { IfOk result (λ after. HaveServedInHall K.does (desk ∷ []) (visits_of after.attendance) after.desks.items) }
{
    let mut desks = Vec::new(alloc);
    desks.push(desk)?;
    Ok(serve_desks(rt, alloc, desks, listener, 0, watch)?)
}

/// Serves a store until the listener fails, with milestones at about every 256 revisions, and gives it back where all that was
/// ordered is written, with those who came: all of them, by the listener's calls.
pub fn serve_store<R: Threads + Wait + Clock + Sync, N: Listen, D: Disk + Send + Drop, W: Watch<D>>(
    rt: &R,
    alloc: Global,
    store: Store<D>,
    listener: N,
    watch: &W,
) -> Result<(Store<D>, Attendance), Refusal>
    ensures served { IfOk result (λ after. WasServed (EachHasServed (state_of store) (visits_of after.1)) true store after.0) }
    ensures complete { IfOk result (λ after. after.1.is_complete ≡ true) }
{
    let Connected {
        store,
        listener: _,
        attendance,
        served,
    } = serve_on(rt, alloc, store, listener, 256, 0, watch);
    served?;
    Ok((store, attendance))
}

/// Serves one session over a pair of streams: its output is the replies to its input, and the store holds all that its desk acknowledged.
pub fn serve_session<
    R: Threads + Wait + Sync,
    I: Input + Drop,
    O: Output + Drop,
    D: Disk + Send + Drop,
    W: Watch<D>,
>(rt: &R, alloc: Global, store: Store<D>, input: I, output: O, watch: &W) -> Streamed<I, O, D>
    ensures { WasServed (ByOne (EndsAtHub result.served (state_of store)
        (I.remaining input) (I.remaining result.input) (O.contents output) (O.contents result.output)
        (I.has_failed result.input) (O.has_failed result.output))) (is_ok result.served) store result.store }
{
    serve_streams(rt, alloc, store, input, output, 256, watch)
}
