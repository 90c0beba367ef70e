//! A store over a pair of streams.
ghost use Rattle.std.specs.Prelude.{◌≡◌, ◌+◌, false, [], All, IfOk, OnOk, IfErr, IsErrOf, is_ok, length};
ghost use Rattle.recovery.specs.Open.{state_of, has_failed};
ghost use Rattle.serving.specs.Serving.{beginning};
ghost use Rattle.flusher.specs.Holding.{store_of};
ghost use Rattle.turns.specs.Writing.{told_count};
ghost use Rattle.server_threads.specs.Answers.{first_desk};
ghost use Rattle.server_threads.specs.Held.{AreSeated, HasHeld, HaveEnded, IsNamed, IsNewServer};
ghost use Rattle.server_threads.specs.Served.{WasServed};
ghost use Rattle.server_threads.specs.Streams.{ByOne, EndsAtHub, first_of};

use crate::beside::hold_beside;
use crate::desks::{Closing, Desks};
use crate::life::{Ending, Named, Server, begin, end, ending_of, make_ready};
use crate::watch::Watch;
use crate::writing::CommonParts;
use disk::Disk;
use flusher::Flusher;
use hub_desk::HubDesk;
use published::Life;
use recovery::Store;
use refusal::Refusal;
use serving::{Input, ServingError, serve_session};
use session::{Output, Session, Shelf};
use std::alloc::Global;
use std::marker::Brand;
use std::sync::Wait;
use std::thread::Threads;

/// How many sessions run at once.
const SEATS: u32 = 1;

/// What serving over a pair of streams gives back: the store, the streams, and how it ended.
#[derive(Drop)]
pub struct Streamed<I, O, D: Disk> {
    pub store: Store<D>,
    pub input: I,
    pub output: O,
    pub served: Result<(), ServingError>,
}

/// Serves one session to the end of the input, with the news after each line, while a thread of its own writes: a reply is out once its
/// command is on the disk. Then what was ordered is written, the thread has ended, and the store and the streams are given back.
/// Milestones of a document are made at multiples of `every` revisions, as composers come to it; 0 makes none.
///
/// It ends at once where a stream fails (`Stream`, which comes of nothing else), else with `StoreFailed` where the store has failed by then;
/// and with `NoMemory` before it takes any of the input, also where the system gives no thread to write in. The watch is told of a store
/// that fails, when it does.
pub fn serve_streams<
    R: Threads + Wait + Sync,
    I: Input + Drop,
    O: Output + Drop,
    D: Disk + Send + Drop,
    W: Watch<D>,
>(
    rt: &R,
    alloc: Global,
    store: Store<D>,
    input: I,
    output: O,
    every: u32,
    watch: &W,
) -> Streamed<I, O, D>
    // What is written to the output is the replies to the input, by the answers of one desk, and the news after each line; what that desk
    // answered is kept, and the order is as long as what its seat counted. After an `Ok` the store holds all of the order.
    ensures served { WasServed (ByOne (EndsAtHub result.served (state_of store)
        (I.remaining input) (I.remaining result.input) (O.contents output) (O.contents result.output)
        (I.has_failed result.input) (O.has_failed result.output))) (is_ok result.served) store result.store }
    ensures no_memory { IsErrOf result.served (ServingError.Refused Refusal.NoMemory) → (result.store ≡ store)
        × (result.input ≡ input) × (result.output ≡ output) }
    // A store that fails is told of.
    ensures works { OnOk result.served (has_failed store ≡ false → has_failed result.store ≡ false) }
{
    let streams = OverStreams { input, output };
    let Some(named) = Named::new(SEATS) else {
        return streams.back(store, Err(ServingError::Refused(Refusal::NoMemory)));
    };
    serve_run::<Brand, R, I, O, D, W>(rt, alloc, store, named, streams, every, watch)
}

// Serves the run that its ledger, its logs and its store's state name.
fn serve_run<
    L: Life + Sync + Send,
    R: Threads + Wait + Sync,
    I: Input + Drop,
    O: Output + Drop,
    D: Disk + Send + Drop,
    W: Watch<D>,
>(
    rt: &R,
    alloc: Global,
    store: Store<D>,
    named: Named,
    streams: OverStreams<I, O>,
    every: u32,
    watch: &W,
) -> Streamed<I, O, D>
    requires named { IsNamed L.book L.name L.parts L.start named.opened named.blank.name named.blank.parts store }
    requires seats { L.parts ≡ 2 }
    ensures served { WasServed (ByOne (EndsAtHub result.served (state_of store)
        (I.remaining streams.input) (I.remaining result.input) (O.contents streams.output) (O.contents result.output)
        (I.has_failed result.input) (O.has_failed result.output))) (is_ok result.served) store result.store }
    ensures no_memory { IsErrOf result.served (ServingError.Refused Refusal.NoMemory) → (result.store ≡ store)
        × (result.input ≡ streams.input) × (result.output ≡ streams.output) }
    ensures works { OnOk result.served (has_failed store ≡ false → has_failed result.store ≡ false) }
{
    let refused = Err(ServingError::Refused(Refusal::NoMemory));
    let (hub, server) = match begin::<L, R, D>(rt, alloc, store, named, SEATS) {
        Ok(begun) => begun,
        Err(store) => return streams.back(store, refused),
    };
    let shared = CommonParts {
        rt,
        alloc,
        hub: &hub,
        every,
        watch,
    };
    match hold_at(&shared, server, streams) {
        Ok((past, held)) => {
            let written = past.written;
            let store = end(rt, hub, past);
            let (streams, answer) = held;
            streams.back(store, first_failure(answer, written))
        }
        Err((flusher, streams)) => streams.back(flusher.end(rt), refused),
    }
}

// Holds the session over the streams at the one desk of a hub, while a thread of its own writes. Refused where there is no memory or no
// thread; the flusher and the streams are unchanged then.
fn hold_at<
    L: Life + Sync + Send,
    R: Threads + Wait + Sync,
    I: Input + Drop,
    O: Output + Drop,
    D: Disk + Send + Drop,
    W: Watch<D>,
>(
    shared: &CommonParts<'_, D, L, R, W>,
    server: Server<D, L>,
    streams: OverStreams<I, O>,
) -> Result<
    (Ending<D, L>, (OverStreams<I, O>, Result<(), ServingError>)),
    (Flusher<D, L>, OverStreams<I, O>),
>
    requires ready { IsNewServer L.parts server.held.value server.flusher server.seats.items server.tally }
    requires one { L.parts ≡ 2 }
    ensures held { IfOk result (λ all. HasHeld (ByOne (EndsAtHub all.1.1 L.start
        (I.remaining streams.input) (I.remaining all.1.0.input) (O.contents streams.output) (O.contents all.1.0.output)
        (I.has_failed all.1.0.input) (O.has_failed all.1.0.output))) L.start server.flusher all.0.ordered (told_count all.0.flusher)
        all.0.tally.counted all.0.written (store_of all.0.flusher)) }
    ensures seats { IfOk result (λ all. all.0.tally.seats + 1 ≡ L.parts) }
    ensures only { IfOk result (λ all. IfErr all.1.1 (λ e. e ≡ ServingError.Stream)) }
    ensures refused { IfErr result (λ back. (back.0 ≡ server.flusher) × (back.1 ≡ streams)) }
{
    let rt = shared.rt;
    let alloc = shared.alloc;
    let Ok(session) = Session::new(alloc) else {
        return Err((server.into_flusher(), streams));
    };
    let Ok(shelf) = Shelf::new(alloc) else {
        return Err((server.into_flusher(), streams));
    };
    let (ready, seated) = match make_ready(shared, server) {
        Ok(both) => both,
        Err(flusher) => return Err((flusher, streams)),
    };
    match hold_beside(
        shared,
        ready,
        streams,
        seated,
        |streams, seated| -> ((OverStreams<I, O>, Result<(), ServingError>), Closing<D, L>)
            requires { (session ≡ beginning) × (shelf ≡ []) × (length seated.desks.items ≡ 1)
                × AreSeated L.parts seated.desks.items seated.closing.tally }
            ensures ended { HaveEnded (ByOne (EndsAtHub result.0.1 L.start
                (I.remaining streams.input) (I.remaining result.0.0.input) (O.contents streams.output) (O.contents result.0.0.output)
                (I.has_failed result.0.0.input) (O.has_failed result.0.0.output))) result.1.told result.1.ordered result.1.tally.counted }
            ensures seats { result.1.tally.seats + 1 ≡ L.parts }
            ensures only { IfErr result.0.1 (λ e. e ≡ ServingError.Stream) }
        { hold_one(rt, alloc, session, shelf, streams, seated) },
    ) {
        Ok(both) => Ok(ending_of(shared, both)),
        Err(back) => Err(back),
    }
}

// Serves the session, and ends the hub once it has ended.
fn hold_one<L: Life, R: Wait, I: Input + Drop, O: Output + Drop, D>(
    rt: &R,
    alloc: Global,
    session: Session,
    shelf: Shelf,
    streams: OverStreams<I, O>,
    seated: Desks<'_, D, L, R>,
) -> ((OverStreams<I, O>, Result<(), ServingError>), Closing<D, L>)
    requires session { session ≡ beginning }
    requires shelf { shelf ≡ [] }
    requires one { length seated.desks.items ≡ 1 }
    requires seated { AreSeated L.parts seated.desks.items seated.closing.tally }
    ensures ended { HaveEnded (ByOne (EndsAtHub result.0.1 L.start
        (I.remaining streams.input) (I.remaining result.0.0.input) (O.contents streams.output) (O.contents result.0.0.output)
        (I.has_failed result.0.0.input) (O.has_failed result.0.0.output))) result.1.told result.1.ordered result.1.tally.counted }
    ensures seats { result.1.tally.seats + 1 ≡ L.parts }
    ensures only { IfErr result.0.1 (λ e. e ≡ ServingError.Stream) }
{
    let Desks {
        hub,
        desks,
        mut closing,
    } = seated;
    let (after, desks) = serve_one(rt, alloc, session, shelf, streams, desks);
    closing.close(rt, hub, desks);
    (after, closing)
}

// What ended the session, or else that the store failed.
fn first_failure(
    answer: Result<(), ServingError>,
    written: Result<(), Refusal>,
) -> Result<(), ServingError>
    ensures { result ≡ first_of answer written }
{
    answer?;
    if written.is_err() {
        return Err(ServingError::Refused(Refusal::StoreFailed));
    }
    Ok(())
}

// The streams of a session.
#[derive(Drop)]
struct OverStreams<I, O> {
    input: I,
    output: O,
}

impl<I, O> OverStreams<I, O> {
    // They are given back, with the store and how serving ended.
    fn back<D: Disk>(self, store: Store<D>, served: Result<(), ServingError>) -> Streamed<I, O, D>
        ensures { result ≡ record { store = store; input = self.input; output = self.output; served = served } }
    {
        let OverStreams { input, output } = self;
        Streamed {
            store,
            input,
            output,
            served,
        }
    }
}

// Serves the session at the one desk there is.
fn serve_one<'a, L: Life, R: Wait, I: Input + Drop, O: Output + Drop, D>(
    rt: &R,
    alloc: Global,
    session: Session,
    shelf: Shelf,
    streams: OverStreams<I, O>,
    desks: Vec<HubDesk<'a, D, L, R>>,
) -> (
    (OverStreams<I, O>, Result<(), ServingError>),
    Vec<HubDesk<'a, D, L, R>>,
)
    requires session { session ≡ beginning }
    requires shelf { shelf ≡ [] }
    requires one { length desks.items ≡ 1 }
    requires first { All (λ desk. desk ≡ first_desk) desks.items }
    ensures ends { ByOne (EndsAtHub result.0.1 L.start
        (I.remaining streams.input) (I.remaining result.0.0.input) (O.contents streams.output) (O.contents result.0.0.output)
        (I.has_failed result.0.0.input) (O.has_failed result.0.0.output)) result.1.items }
    ensures only { IfErr result.0.1 (λ e. e ≡ ServingError.Stream) }
{
    let OverStreams {
        mut input,
        mut output,
    } = streams;
    let mut session = session;
    let mut shelf = shelf;
    let mut desks = desks;
    let answer = serve_first(
        rt,
        alloc,
        &mut session,
        &mut desks,
        &mut shelf,
        &mut input,
        &mut output,
    );
    ((OverStreams { input, output }, answer), desks)
}

// Serves the session by the first desk, which is the only one.
fn serve_first<L: Life, R: Wait, I: Input, O: Output, D>(
    rt: &R,
    alloc: Global,
    session: &mut Session,
    desks: &mut Vec<HubDesk<'_, D, L, R>>,
    shelf: &mut Shelf,
    input: &mut I,
    output: &mut O,
) -> Result<(), ServingError>
    requires session { session.old ≡ beginning }
    requires shelf { shelf.old ≡ [] }
    requires one { length desks.old.items ≡ 1 }
    requires first { All (λ desk. desk ≡ first_desk) desks.old.items }
    ensures ends { ByOne (EndsAtHub result L.start
        (I.remaining input.old) (I.remaining input.new) (O.contents output.old) (O.contents output.new)
        (I.has_failed input.new) (O.has_failed output.new)) desks.new.items }
    ensures only { IfErr result (λ e. e ≡ ServingError.Stream) }
{
    serve_session(rt, alloc, session, &mut desks[0], shelf, input, output)
}
