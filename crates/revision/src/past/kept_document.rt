//! Documents that a past keeps.

use super::sources::Sources;
use document::Document;

/// A document as it stood at a revision, with its sources there, where they are kept beside it.
#[derive(Drop)]
pub struct Kept {
    pub(crate) revision: u64,
    pub(crate) document: Document,
    pub(crate) sources: Option<Sources>,
}
