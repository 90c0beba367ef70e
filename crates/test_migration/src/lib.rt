//! Stores of the first format, byte for byte, brought over to the second, and copies of stores, over devices in memory that stop or fail at
//! each of their calls.
//!
//! `old` has the old devices, `rows` what comes of them, and `stops` goes through the calls of the new device. `stores` has a store with each
//! kind of document, and `copies` what it is copied to.
#![tactic(auto)]

#[cfg(test)]
mod copies;
#[cfg(test)]
mod old;
#[cfg(test)]
mod rows;
#[cfg(test)]
mod stops;
#[cfg(test)]
mod stores;
