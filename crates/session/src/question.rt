//! What may be asked of a document.

/// What is asked of a document. Revisions are 0 to 2^53 - 1.
#[derive(Clone, Copy, Debug, PartialEq, Eq)]
pub enum Question {
    /// What stands in it at its newest revision.
    Newest,
    /// What stood in it at this revision.
    At { rev: u64 },
    /// The deltas that were taken since this revision.
    Since { rev: u64 },
}
