//! A store over connections.
ghost use Rattle.std.specs.Prelude.{◌≡◌, ◌≢◌, ◌⊎◌, ◌↔◌, ◌+◌, ◌∷◌, [], true, false, Ok, Err, All, IfOk, IfErr, OnOk, IsErrOf, is_ok, length};
ghost use Rattle.refusal.specs.Refusal.{IsOneOf};
ghost use Rattle.sockets.specs.Attendance.{visits_of, IsAttended, IsOfNobody};
ghost use Rattle.recovery.specs.Open.{state_of, has_failed};
ghost use Rattle.flusher.specs.Holding.{store_of};
ghost use Rattle.turns.specs.Writing.{told_count};
ghost use Rattle.server_threads.specs.Answers.{first_desk};
ghost use Rattle.server_threads.specs.Connections.{EachHasServed};
ghost use Rattle.server_threads.specs.Held.{AreSeated, HasHeld, HaveEnded, IsNamed, IsNewServer};
ghost use Rattle.server_threads.specs.Served.{WasServed};

use crate::beside::hold_beside;
use crate::desks::{Closing, Desks};
use crate::life::{Ending, Named, Server, begin, end, ending_of, make_ready};
use crate::seated::Seated;
use crate::watch::Watch;
use crate::writing::CommonParts;
use disk::Disk;
use flusher::Flusher;
use hub_desk::HubDesk;
use published::Life;
use recovery::Store;
use refusal::Refusal;
use sockets::{Attendance, Attended, Listen, serve_desks};
use std::alloc::{AllocError, Global};
use std::marker::Brand;
use std::sync::Wait;
use std::thread::Threads;
use std::time::Clock;

/// How many sessions run at once.
const SEATS: u32 = 64;

/// What serving those who connect gives back: the store, the listener, who came, and how it ended.
#[derive(Drop)]
pub struct Connected<N, D: Disk> {
    pub store: Store<D>,
    pub listener: N,
    pub attendance: Attendance,
    pub served: Result<(), Refusal>,
}

/// Serves a store to those who connect, 64 at once, until the listener can't work any more or the watch ends it; where there are fewer
/// places for readers than 64, or threads for sessions, as many at once as have one. Then each session ends within 100 milliseconds, what was
/// ordered is written, and the store is given back, with the refusal that kept it from serving or that ended the writing: `NoMemory`, also
/// where the system gives no thread to write in or none for a session, or what failed the board. Milestones of a document are made at
/// multiples of `every` revisions, as composers come to it; 0 makes none. A peer that says no `hello`, or sends no line and follows no
/// document, for `idle` seconds, is closed, and its place is free; 0 lets each be.
///
/// The watch is told when somebody can be served, what becomes of the connections, why the listener ended, and of a store that fails, when
/// it does.
pub fn serve_on<R: Threads + Wait + Clock + Sync, N: Listen, D: Disk + Send + Drop, W: Watch<D>>(
    rt: &R,
    alloc: Global,
    store: Store<D>,
    listener: N,
    every: u32,
    idle: u32,
    watch: &W,
) -> Connected<N, D>
    // There is one order. The store holds what of it is written, and all of it after an `Ok`. Each desk was asked just what the conversations
    // of its visits ask, one after another; what it answered is kept, and nothing else was ordered but what its seat counted.
    ensures served { WasServed (EachHasServed (state_of store) (visits_of result.attendance)) (is_ok result.served) store result.store }
    // Who was turned away was asked nothing. After an `Ok` all who came by the listener's calls are there, and the newest of these failed.
    ensures attended { IsAttended (N.arrivals listener) (N.arrivals result.listener) result.attendance }
    ensures complete { OnOk result.served (result.attendance.is_complete ≡ true) }
    // It fails exactly with the device, and is refused otherwise only out of memory or by a full journal.
    ensures fails { has_failed store ≡ false → (has_failed result.store ≡ true ↔ IsErrOf result.served Refusal.Fault) }
    ensures causes { IfErr result.served (λ e. e ≢ Refusal.Fault → IsOneOf e (Refusal.NoMemory ∷ Refusal.JournalFull ∷ Refusal.StillNeeded ∷ [])) }
{
    let Some(named) = Named::new(SEATS) else {
        return unserved(alloc, store, listener);
    };
    serve_run::<Brand, R, N, D, W>(rt, alloc, store, named, listener, every, idle, watch)
}

// Nobody was served, out of memory.
fn unserved<N, D: Disk>(alloc: Global, store: Store<D>, listener: N) -> Connected<N, D>
    ensures back { (result.store ≡ store) × (result.listener ≡ listener) × (result.served ≡ Err Refusal.NoMemory) }
    ensures nobody { IsOfNobody result.attendance }
{
    Connected {
        store,
        listener,
        attendance: Attendance::of_nobody(alloc),
        served: Err(Refusal::NoMemory),
    }
}

// Serves the run that its ledger, its logs and its store's state name.
fn serve_run<
    L: Life + Sync + Send,
    R: Threads + Wait + Clock + Sync,
    N: Listen,
    D: Disk + Send + Drop,
    W: Watch<D>,
>(
    rt: &R,
    alloc: Global,
    store: Store<D>,
    named: Named,
    listener: N,
    every: u32,
    idle: u32,
    watch: &W,
) -> Connected<N, D>
    requires named { IsNamed L.book L.name L.parts L.start named.opened named.blank.name named.blank.parts store }
    requires seats { L.parts ≡ 65 }
    ensures served { WasServed (EachHasServed (state_of store) (visits_of result.attendance)) (is_ok result.served) store result.store }
    ensures attended { IsAttended (N.arrivals listener) (N.arrivals result.listener) result.attendance }
    ensures complete { OnOk result.served (result.attendance.is_complete ≡ true) }
    ensures fails { has_failed store ≡ false → (has_failed result.store ≡ true ↔ IsErrOf result.served Refusal.Fault) }
    ensures causes { IfErr result.served (λ e. e ≢ Refusal.Fault → IsOneOf e (Refusal.NoMemory ∷ Refusal.JournalFull ∷ Refusal.StillNeeded ∷ [])) }
{
    let (hub, server) = match begin::<L, R, D>(rt, alloc, store, named, SEATS) {
        Ok(begun) => begun,
        Err(store) => return unserved(alloc, store, listener),
    };
    let shared = CommonParts {
        rt,
        alloc,
        hub: &hub,
        every,
        watch,
    };
    match hold_at(&shared, server, listener, idle) {
        Ok((past, heard)) => {
            let written = past.written;
            let store = end(rt, hub, past);
            let Heard {
                listener,
                attendance,
                answer,
            } = heard;
            Connected {
                store,
                listener,
                attendance,
                served: first_failure(written, answer),
            }
        }
        Err((flusher, listener)) => unserved(alloc, flusher.end(rt), listener),
    }
}

// What is left of a listener whose sessions have ended: who came, and whether all did, whom it took.
#[derive(Drop)]
struct Heard<N> {
    listener: N,
    attendance: Attendance,
    answer: Result<(), AllocError>,
}

// Holds sessions over the connections at the desks of a hub, while a thread of its own writes. Refused where there is no memory or no
// thread; the flusher and the listener are unchanged then.
fn hold_at<
    L: Life + Sync + Send,
    R: Threads + Wait + Clock + Sync,
    N: Listen,
    D: Disk + Send + Drop,
    W: Watch<D>,
>(
    shared: &CommonParts<'_, D, L, R, W>,
    server: Server<D, L>,
    listener: N,
    idle: u32,
) -> Result<(Ending<D, L>, Heard<N>), (Flusher<D, L>, N)>
    requires ready { IsNewServer L.parts server.held.value server.flusher server.seats.items server.tally }
    ensures held { IfOk result (λ both. HasHeld (EachHasServed L.start (visits_of both.1.attendance)) L.start server.flusher both.0.ordered
        (told_count both.0.flusher) both.0.tally.counted both.0.written (store_of both.0.flusher)) }
    ensures attended { IfOk result (λ both. IsAttended (N.arrivals listener) (N.arrivals both.1.listener) both.1.attendance) }
    ensures complete { IfOk result (λ both. OnOk both.1.answer (both.1.attendance.is_complete ≡ true)) }
    ensures seats { IfOk result (λ both. both.0.tally.seats + 1 ≡ L.parts) }
    ensures refused { IfErr result (λ back. (back.0 ≡ server.flusher) × (back.1 ≡ listener)) }
{
    let (ready, seated) = match make_ready(shared, server) {
        Ok(both) => both,
        Err(flusher) => return Err((flusher, listener)),
    };
    let rt = shared.rt;
    let alloc = shared.alloc;
    let watch = shared.watch;
    match hold_beside(
        shared,
        ready,
        listener,
        seated,
        |listener, seated| -> (Heard<N>, Closing<D, L>)
            requires { AreSeated L.parts seated.desks.items seated.closing.tally }
            ensures ended { HaveEnded (EachHasServed L.start (visits_of result.0.attendance)) result.1.told result.1.ordered
                result.1.tally.counted }
            ensures seats { result.1.tally.seats + 1 ≡ L.parts }
            ensures attended { IsAttended (N.arrivals listener) (N.arrivals result.0.listener) result.0.attendance }
            ensures complete { OnOk result.0.answer (result.0.attendance.is_complete ≡ true) }
        { hold_all(rt, alloc, listener, seated, idle, watch) },
    ) {
        Ok(both) => Ok(ending_of(shared, both)),
        Err(back) => Err(back),
    }
}

// Serves until the listener ends, and ends the hub once each session has ended.
fn hold_all<
    L: Life + Sync + Send,
    R: Threads + Wait + Clock + Sync,
    N: Listen,
    D: Send + Drop,
    W: Watch<D>,
>(
    rt: &R,
    alloc: Global,
    listener: N,
    seated: Desks<'_, D, L, R>,
    idle: u32,
    watch: &W,
) -> (Heard<N>, Closing<D, L>)
    requires seated { AreSeated L.parts seated.desks.items seated.closing.tally }
    ensures ended { HaveEnded (EachHasServed L.start (visits_of result.0.attendance)) result.1.told result.1.ordered result.1.tally.counted }
    ensures seats { result.1.tally.seats + 1 ≡ L.parts }
    ensures attended { IsAttended (N.arrivals listener) (N.arrivals result.0.listener) result.0.attendance }
    ensures complete { OnOk result.0.answer (result.0.attendance.is_complete ≡ true) }
{
    let Desks {
        hub,
        desks,
        mut closing,
    } = seated;
    let (heard, desks) = serve_all(rt, alloc, desks, listener, idle, watch);
    closing.close(rt, hub, desks);
    (heard, closing)
}

// What ended the writing, or else what kept it from serving.
fn first_failure(
    written: Result<(), Refusal>,
    served: Result<(), AllocError>,
) -> Result<(), Refusal>
    ensures ok { OnOk result ((written ≡ Ok tt) × (served ≡ Ok tt)) }
    ensures fault { IsErrOf result Refusal.Fault ↔ IsErrOf written Refusal.Fault }
    ensures which { IfErr result (λ e. (e ≡ Refusal.NoMemory) ⊎ IsErrOf written e) }
{
    written?;
    Ok(served?)
}

// Takes connections until the listener ends, and gives the desks back once each session has ended. Refused where none got a thread, or where
// not all are accounted for who came: no clause says that all are; by the code they are.
fn serve_all<
    'a,
    L: Life + Sync + Send,
    R: Threads + Wait + Clock + Sync,
    N: Listen,
    D: Send + Drop,
    W: Watch<D>,
>(
    rt: &R,
    alloc: Global,
    desks: Vec<HubDesk<'a, D, L, R>>,
    listener: N,
    idle: u32,
    watch: &W,
) -> (Heard<N>, Vec<HubDesk<'a, D, L, R>>)
    requires first { All (λ desk. desk ≡ first_desk) desks.items }
    ensures served { EachHasServed L.start (visits_of result.0.attendance) result.1.items }
    ensures attended { IsAttended (N.arrivals listener) (N.arrivals result.0.listener) result.0.attendance }
    ensures complete { OnOk result.0.answer (result.0.attendance.is_complete ≡ true) }
    ensures as_many { length result.1.items ≡ length desks.entry.items }
{
    let seated: Seated<'_, D, W> = Seated::new(watch, SEATS as usize);
    match serve_desks(rt, alloc, desks, listener, idle, &seated) {
        Ok(attended) => heard_of(attended, seated.served()),
        Err(failed) => {
            let (desks, listener) = failed.value;
            (
                Heard {
                    listener,
                    attendance: Attendance::of_nobody(alloc),
                    answer: Err(AllocError),
                },
                desks,
            )
        }
    }
}

// The desks apart from who came to them. Refused where none got a thread, or not all are accounted for.
fn heard_of<K: Drop, N: Drop>(
    attended: Attended<K, N>,
    served: Result<(), AllocError>,
) -> (Heard<N>, Vec<K>)
    ensures desks { result.1 ≡ attended.desks }
    ensures listener { result.0.listener ≡ attended.listener }
    ensures attendance { result.0.attendance ≡ attended.attendance }
    ensures complete { OnOk result.0.answer (result.0.attendance.is_complete ≡ true) }
{
    let Attended {
        desks,
        listener,
        attendance,
    } = attended;
    let answer = all_accounted_for(served, &attendance);
    (
        Heard {
            listener,
            attendance,
            answer,
        },
        desks,
    )
}

// Well only where all are accounted for who came.
fn all_accounted_for(
    served: Result<(), AllocError>,
    attendance: &Attendance,
) -> Result<(), AllocError>
    ensures { OnOk result (attendance.now.is_complete ≡ true) }
{
    served?;
    if !attendance.is_complete() {
        return Err(AllocError);
    }
    Ok(())
}
