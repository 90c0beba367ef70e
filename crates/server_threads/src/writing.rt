//! The thread that writes.
ghost use Rattle.std.specs.Prelude.{IfOk, IfErr, OnOk};
ghost use Rattle.turns.specs.Counting.{IsAt, IsAllPublished};
ghost use Rattle.turns.specs.Turning.{HasWritten};

use crate::moments::Moments;
use crate::watch::Watch;
use crate::written::Written;
use disk::Disk;
use flusher::Flusher;
use hub::{Hub, Writer};
use published::Life;
use refusal::Refusal;
use std::alloc::Global;
use std::sync::Wait;
use std::sync::atomic::{AtomicBool, Ordering};
use std::thread::{Threads, join};
use turns::{Composers, OpenHalves, channels, compose_workers, flush_all};

/// What the thread that writes and those of the sessions share.
#[derive(Drop)]
pub(crate) struct CommonParts<'a, D, L: Life, R, W> {
    pub(crate) rt: &'a R,
    pub(crate) alloc: Global,
    pub(crate) hub: &'a Hub<D, L>,
    pub(crate) every: u32,
    pub(crate) watch: &'a W,
}

/// What the thread that writes has, from its beginning on.
pub(crate) struct Writing<'a, D: Disk + Drop, L: Life, R: Wait, W> {
    pub(crate) shared: &'a CommonParts<'a, D, L, R, W>,
    /// Whether there is a thread for it.
    pub(crate) has_thread: &'a AtomicBool,
    pub(crate) flusher: Flusher<D, L>,
    pub(crate) writer: Writer<L>,
    ghost at: { IsAt writer flusher },
}

impl<D: Disk + Drop, L: Life, R: Wait, W> Drop for Writing<'_, D, L, R, W> {
    fn drop(self) {
        let Writing {
            shared,
            has_thread: _,
            flusher,
            writer: _writer,
        } = self;
        drop(flusher.end(shared.rt));
    }
}

impl<'a, D: Disk + Drop, L: Life, R: Threads + Wait + Sync, W: Watch<D>> Writing<'a, D, L, R, W> {
    ghost use Rattle.std.specs.Prelude.{◌≡◌};

    /// Makes turns until the hub is ended, beside composers. Where there is no thread for it, it is given back unchanged.
    pub(crate) fn run(self) -> Result<Written<'a, D, L, R>, Writing<'a, D, L, R, W>>
        ensures written { IfOk result (λ written. HasWritten L.start self.entry.flusher written.flusher written.answer) }
        ensures unbegun { IfErr result (λ back. back.flusher ≡ self.entry.flusher) }
    {
        if !self.has_thread.load(Ordering::SeqCst) {
            return Err(self);
        }
        Ok(write_beside(self))
    }

    /// Makes turns until the hub is ended.
    pub(crate) fn write(self, composers: Option<Composers>) -> Written<'a, D, L, R>
        ensures { HasWritten L.start self.entry.flusher result.flusher result.answer }
    {
        let Writing {
            shared,
            has_thread: _,
            flusher,
            writer,
        } = self;
        let mut flusher = flusher;
        let mut writer = writer;
        let answer = write_all(shared, &mut flusher, &mut writer, composers);
        Written {
            rt: shared.rt,
            flusher,
            writer,
            answer,
        }
    }

    /// The flusher, where it wrote nothing.
    pub(crate) fn into_flusher(self) -> Flusher<D, L>
        ensures { result ≡ self.entry.flusher }
    {
        let Writing {
            shared: _,
            has_thread: _,
            flusher,
            writer: _writer,
        } = self;
        flusher
    }
}

// Makes turns until the hub is ended, beside composers in a thread of their own. Where there is no memory for the channels to them, or no
// such thread, it makes the turns without them.
fn write_beside<'a, D: Disk + Drop, L: Life, R: Threads + Wait + Sync, W: Watch<D>>(
    writing: Writing<'a, D, L, R, W>,
) -> Written<'a, D, L, R>
    ensures { HasWritten L.start writing.entry.flusher result.flusher result.answer }
{
    let rt = writing.shared.rt;
    let alloc = writing.shared.alloc;
    match channels(alloc) {
        Ok((composers, first, second)) => {
            let (_ended, written) = join(
                rt,
                move || compose_workers(rt, alloc, first, second, &OpenHalves),
                move || -> Written<'_, D, L, R>
                    ensures { HasWritten L.start writing.entry.flusher result.flusher result.answer }
                { writing.write(Some(composers)) },
            );
            written
        }
        Err(_) => writing.write(None),
    }
}

// Makes turns until the hub is ended. Where the store fails the watch is told.
#[tactic(auto, using(crate::proofs::Served::written_well))]
fn write_all<L: Life, R: Wait, D: Disk, W: Watch<D>>(
    shared: &CommonParts<'_, D, L, R, W>,
    flusher: &mut Flusher<D, L>,
    writer: &mut Writer<L>,
    composers: Option<Composers>,
) -> Result<(), Refusal>
    requires at { IsAt writer.old flusher.old }
    ensures written { HasWritten L.start flusher.old flusher.new result }
    ensures all { OnOk result (IsAllPublished writer.new flusher.new) }
{
    let mut moments: Moments<'_, D, W> = Moments::new(shared.watch);
    match flush_all(
        shared.rt,
        shared.alloc,
        flusher,
        shared.hub,
        writer,
        shared.every,
        composers,
        &mut moments,
    ) {
        Ok(_idle) => Ok(()),
        Err(failed) => {
            let refusal = failed.refusal();
            shared.watch.store_failed(refusal, flusher.device());
            Err(refusal)
        }
    }
}
