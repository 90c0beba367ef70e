//! Which cell of a document is read.

/// Which one of two open cells of a document is read: the one of the higher revision, or the other. Of two of one revision the
/// first is the older. Where one alone is open, it is read by either pick.
#[derive(Clone, Copy, Debug, PartialEq, Eq)]
pub enum Pick {
    /// The cell of the higher revision.
    Newer,
    /// The cell of the lower revision.
    Older,
}
