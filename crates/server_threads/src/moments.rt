//! What the watch of a server is told of the writing.
use crate::watch::Watch;
use flusher::{Gate, Moment};
use std::marker::PhantomData;

/// Tells a server's watch of the moments of each write, and lets it pass.
#[derive(Drop)]
pub(crate) struct Moments<'a, D, W> {
    watch: &'a W,
    of: PhantomData<D>,
}

impl<'a, D, W> Moments<'a, D, W> {
    /// Of the writing that this watch is told of.
    pub(crate) fn new(watch: &'a W) -> Moments<'a, D, W> {
        Moments {
            watch,
            of: PhantomData,
        }
    }
}

impl<D, W: Watch<D>> Gate for Moments<'_, D, W> {
    fn pass(&mut self, at: Moment) {
        self.watch.writes(at);
    }
}
