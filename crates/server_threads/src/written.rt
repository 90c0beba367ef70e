//! What comes of the thread that writes.
ghost use Rattle.std.proofs.Props.{props};
ghost use Rattle.std.specs.Prelude.{OnOk};
ghost use Rattle.turns.specs.Counting.{IsAllPublished};

use crate::writing::Writing;
use disk::Disk;
use flusher::Flusher;
use hub::Writer;
use published::Life;
use recovery::Store;
use refusal::Refusal;
use std::marker::PhantomData;
use std::snapshot::Snapshot;
use std::sync::Wait;
use std::thread::Promise;

/// The flusher that wrote, with its right to, and how it ended: well only where all of the order is published.
pub(crate) struct Written<'a, D: Disk + Drop, L: Life, R: Wait> {
    pub(crate) rt: &'a R,
    pub(crate) flusher: Flusher<D, L>,
    pub(crate) writer: Writer<L>,
    pub(crate) answer: Result<(), Refusal>,
    ghost all: { OnOk answer (IsAllPublished writer flusher) } by { Prim.hlevel props },
}

impl<D: Disk + Drop, L: Life, R: Wait> Drop for Written<'_, D, L, R> {
    fn drop(self) {
        let Written {
            rt,
            flusher,
            writer: _writer,
            answer: _,
        } = self;
        drop(flusher.end(rt));
    }
}

impl<D: Disk + Drop, L: Life, R: Wait> Written<'_, D, L, R> {
    ghost use Rattle.std.specs.Prelude.{◌≡◌, OnOk};
    ghost use Rattle.turns.specs.Counting.{IsAllPublished};

    /// Gives the flusher back, how it ended, and its right to write.
    pub(crate) fn into_parts(self) -> (Flusher<D, L>, Result<(), Refusal>, Writer<L>)
        ensures flusher { result.0 ≡ self.entry.flusher }
        ensures answer { result.1 ≡ self.entry.answer }
        ensures all { OnOk result.1 (IsAllPublished result.2 result.0) }
    {
        let Written {
            rt: _,
            flusher,
            writer,
            answer,
        } = self;
        (flusher, answer, writer)
    }
}

/// Promises what comes of a flusher that was just started over this store: it wrote, or has no thread to write in.
#[derive(Drop)]
pub(crate) struct WrittenBy<D: Disk, L: Life> {
    pub(crate) store: Snapshot<Store<D>>,
    pub(crate) of: PhantomData<L>,
}

impl<'a, D: Disk + Drop, L: Life, R: Wait, W> Promise<
    Result<Written<'a, D, L, R>, Writing<'a, D, L, R, W>>,
> for WrittenBy<D, L> {
    ghost use Rattle.std.specs.Prelude.{IfOk, IfErr};
    ghost use Rattle.server_threads.specs.Written.{IsStartedOver, StartedOverWrites};

    ghost kept_by = { λ by run. IfOk run (λ written. StartedOverWrites L.start by.store.value written.flusher written.answer)
        × IfErr run (λ back. IsStartedOver by.store.value back.flusher) };
}
