//! What a command that was taken does to a document.

/// How a command that was taken changes a document.
#[derive(Clone, Copy, Debug, PartialEq, Eq)]
pub enum Step {
    /// It makes the document, edits it, or undoes an edit, by a delta on what stands there.
    Edits,
    /// It deletes the document, and all that stands there.
    Deletes,
    /// It creates the deleted document again, by a delta on the empty document.
    Revives,
}
