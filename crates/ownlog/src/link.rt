//! The entries of the log.
use std::collections::LinkedList;

/// What one step puts behind the log: items, and the key of the word whose coming home makes the log longer the next time. No value of
/// it is made.
pub struct Link<T> {
    pub items: LinkedList<T>,
    pub next: u64,
}
