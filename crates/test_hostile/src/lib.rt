//! Scripts of what is asked of a store, run over a device in memory that stops or fails at each of its calls, and devices that were damaged.
//!
//! `scripts` has the scripts as data: what is asked, the documents after each command, and how many calls of the device that takes. A run
//! (`runs`) asks a store alone (`stores`), or a hub whose turns write (`turning`). `stops` and `faults` go through the calls and what is left of
//! what was being written; `going_on` says what a device then has to hold by each pick, and sends the last command again. `memory` runs each
//! script where a request for memory may be refused. `devices` has devices that were changed byte for byte, and `damages` draws such changes.
//! Tests alone stand here, and call public functions.
#![tactic(auto)]

#[cfg(test)]
mod damages;
#[cfg(test)]
mod devices;
#[cfg(test)]
mod faults;
#[cfg(test)]
mod going_on;
#[cfg(test)]
mod memory;
#[cfg(test)]
mod runs;
#[cfg(test)]
mod scripts;
#[cfg(test)]
mod stops;
#[cfg(test)]
mod stores;
#[cfg(test)]
mod turning;
