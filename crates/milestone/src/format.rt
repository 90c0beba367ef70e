//! The formats of a device.

/// How a device spells what it holds. They differ in the letters of the superblock and in the bodies of cells.
#[derive(Clone, Copy, Debug, PartialEq, Eq)]
pub enum Format {
    /// The first format. Of each source a cell has the last number alone, with its revision.
    One,
    /// The second format, which is written. Of each source a cell has the window, and it says that there is a document.
    Two,
}
