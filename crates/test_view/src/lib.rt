//! Tests of `published` and `view`, by their public calls alone.
#![tactic(auto)]

#[cfg(test)]
pub mod callers;
#[cfg(test)]
mod documents;
#[cfg(test)]
mod shows;
#[cfg(test)]
mod threads;
#[cfg(test)]
mod writing;

/// Slots of 4,096 bytes, and small cells.
#[cfg(test)]
const SHAPE: recovery::Shape = recovery::Shape {
    slots: 2,
    slot: 4_096,
    docs: 2,
    cell: 4_096,
    sources: 4,
    keep: 64,
};

/// Bytes of a batch at most.
#[cfg(test)]
const CAP: u32 = 4_081;
