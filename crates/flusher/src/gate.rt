//! Where a test may hold the flusher's thread.

/// A moment of a write.
#[derive(Clone, Copy, Debug, PartialEq, Eq)]
pub enum Moment {
    /// Nothing of the batch is written.
    BeforeCommit,
    /// The batch is on the disk, and no reader is shown it.
    AfterCommit,
}

/// What a write passes at each of the two moments. The program's own gate lets it pass at once.
pub trait Gate {
    fn pass(&mut self, at: Moment);
}

/// The gate that lets each write pass at once.
#[derive(Clone, Copy, Debug)]
pub struct OpenGate;

impl Gate for OpenGate {
    fn pass(&mut self, _at: Moment) {}
}
