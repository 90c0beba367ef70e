//! Why a call on a file failed.
use crate::Fault;
use std::io;

/// What was tried with a file.
#[derive(Clone, Copy, Debug, PartialEq, Eq)]
pub enum Tried {
    Opening,
    Locking,
    Making,
    Reading,
    Writing,
    Syncing,
}

impl Tried {
    /// Its name: `opening`, `writing`.
    pub fn name(self) -> &'static str {
        match self {
            Tried::Opening => "opening",
            Tried::Locking => "locking",
            Tried::Making => "making",
            Tried::Reading => "reading",
            Tried::Writing => "writing",
            Tried::Syncing => "syncing",
        }
    }
}

/// A call on a file that failed: what was tried, and the system's reason.
#[derive(Clone, Copy, Debug)]
pub struct FileError {
    pub tried: Tried,
    pub reason: io::Error,
}

impl From<FileError> for Fault {
    fn from(_: FileError) -> Fault {
        Fault
    }
}
