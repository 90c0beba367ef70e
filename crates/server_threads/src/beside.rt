//! Writing in a thread of its own, beside the sessions in this thread.
ghost use Rattle.std.proofs.Props.{props};
ghost use Rattle.std.specs.Prelude.{◌≡◌, IfOk, IfErr, OnOk};
ghost use Rattle.flusher.specs.Holding.{store_of};
ghost use Rattle.server_threads.specs.Served.{IsStarted};
ghost use Rattle.turns.specs.Counting.{IsAllPublished};
ghost use Rattle.turns.specs.Turning.{HasWritten};

use crate::life::Ready;
use crate::watch::Watch;
use crate::writing::{CommonParts, Writing};
use crate::written::{Written, WrittenBy};
use disk::Disk;
use flusher::Flusher;
use hub::Writer;
use published::Life;
use refusal::Refusal;
use std::marker::PhantomData;
use std::sync::Wait;
use std::sync::atomic::{AtomicBool, Ordering};
use std::thread::{self, Scope, Threads};

/// What came of both: the flusher, how its writing ended, its right to write, and what the sessions left.
pub(crate) struct Both<A, C, D: Disk, L: Life> {
    pub(crate) flusher: Flusher<D, L>,
    pub(crate) written: Result<(), Refusal>,
    pub(crate) writer: Writer<L>,
    pub(crate) left: (A, C),
    ghost all: { OnOk written (IsAllPublished writer flusher) } by { Prim.hlevel props },
}

/// Holds sessions in this thread, as `hold` does, while another thread writes until the hub is ended, which `hold` is to do once they have
/// ended. Where the system gives no thread nobody is held, and the flusher and the sessions are given back unchanged.
pub(crate) fn hold_beside<
    S: Drop,
    K: Drop,
    A: Drop,
    C: Drop,
    F: FnOnce(S, K) -> (A, C),
    L: Life + Sync + Send,
    R: Threads + Wait + Sync,
    D: Disk + Send + Drop,
    W: Watch<D>,
>(
    shared: &CommonParts<'_, D, L, R, W>,
    ready: Ready<D, L>,
    sessions: S,
    desks: K,
    hold: F,
) -> Result<Both<A, C, D, L>, (Flusher<D, L>, S)>
    requires held { ready.held.value ≡ store_of ready.flusher }
    requires started { IsStarted ready.flusher }
    requires callable { F.pre hold sessions desks }
    ensures written { IfOk result (λ both. HasWritten L.start ready.flusher both.flusher both.written) }
    ensures held { IfOk result (λ both. F.post hold sessions desks both.left) }
    ensures refused { IfErr result (λ back. (back.0 ≡ ready.flusher) × (back.1 ≡ sessions)) }
{
    let Ready {
        held,
        flusher,
        writer,
    } = ready;
    let written_by = WrittenBy {
        store: held,
        of: PhantomData,
    };
    let has_thread = AtomicBool::new(true);
    let lowered = &has_thread;
    let writing = Writing {
        shared: &*shared,
        has_thread: lowered,
        flusher,
        writer,
    };
    thread::scope(
        thread::scope_env(),
        shared.rt,
        |scope| -> Result<Both<A, C, D, L>, (Flusher<D, L>, S)>
            requires { (written_by.store.value ≡ store_of writing.flusher) × IsStarted writing.flusher × F.pre hold sessions desks }
            ensures written { IfOk result (λ both. HasWritten L.start writing.entry.flusher both.flusher both.written) }
            ensures held { IfOk result (λ both. F.post hold sessions desks both.left) }
            ensures refused { IfErr result (λ back. (back.0 ≡ writing.entry.flusher) × (back.1 ≡ sessions)) }
        { hold_in(scope, written_by, writing, sessions, desks, hold) },
    )
}

// Begins the thread that writes, and holds the sessions.
fn hold_in<
    's,
    E,
    S: Drop,
    K: Drop,
    A: Drop,
    C: Drop,
    F: FnOnce(S, K) -> (A, C),
    L: Life + Sync + Send,
    R: Threads + Wait + Sync,
    D: Disk + Send + Drop,
    W: Watch<D>,
>(
    scope: &Scope<'s, E>,
    written_by: WrittenBy<D, L>,
    writing: Writing<'s, D, L, R, W>,
    sessions: S,
    desks: K,
    hold: F,
) -> Result<Both<A, C, D, L>, (Flusher<D, L>, S)>
    requires held { written_by.store.value ≡ store_of writing.flusher }
    requires started { IsStarted writing.flusher }
    requires callable { F.pre hold sessions desks }
    ensures written { IfOk result (λ both. HasWritten L.start writing.entry.flusher both.flusher both.written) }
    ensures held { IfOk result (λ both. F.post hold sessions desks both.left) }
    ensures refused { IfErr result (λ back. (back.0 ≡ writing.entry.flusher) × (back.1 ≡ sessions)) }
{
    let rt = writing.shared.rt;
    let has_thread = writing.has_thread;
    let spawned = scope.spawn_with(
        written_by,
        move || -> Result<Written<'_, D, L, R>, Writing<'_, D, L, R, W>>
            requires { IsStarted writing.flusher }
            ensures written { IfOk result (λ written. HasWritten L.start writing.entry.flusher written.flusher written.answer) }
            ensures unbegun { IfErr result (λ back. back.flusher ≡ writing.entry.flusher) }
        { writing.run() },
    );
    match spawned {
        Ok(thread) => {
            let left = hold(sessions, desks);
            match thread.join(rt) {
                Ok(written) => Ok(both_of(written, left)),
                // Never reached, as no clause says of an atomic: the thread has begun. What it didn't write is written here.
                Err(writing) => Ok(both_of(writing.write(None), left)),
            }
        }
        Err(refused) => {
            has_thread.store(false, Ordering::SeqCst);
            match (refused.value)() {
                Err(writing) => Err((writing.into_flusher(), sessions)),
                // Never reached either: without a thread nothing was written. The sessions are held here too.
                Ok(written) => {
                    let left = hold(sessions, desks);
                    Ok(both_of(written, left))
                }
            }
        }
    }
}

// What came of both.
fn both_of<A, C, L: Life, R: Wait, D: Disk + Drop>(
    written: Written<'_, D, L, R>,
    left: (A, C),
) -> Both<A, C, D, L>
    ensures flusher { result.flusher ≡ written.entry.flusher }
    ensures written { result.written ≡ written.entry.answer }
    ensures left { result.left ≡ left }
{
    let (flusher, answer, writer) = written.into_parts();
    Both {
        flusher,
        written: answer,
        writer,
        left,
    }
}
