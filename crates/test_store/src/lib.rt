//! Tests of `disk`, `journal` and `recovery`, by their public calls alone. They stand apart from those crates so that
//! each of them is proved once. `callers` has the call that each crate's page opens with, proved as its users write it.
#![tactic(auto)]

#[cfg(test)]
mod bases;
#[cfg(test)]
mod batches;
#[cfg(test)]
pub mod callers;
#[cfg(test)]
mod cells;
#[cfg(test)]
mod crashes;
#[cfg(test)]
mod creating;
#[cfg(test)]
mod damage;
#[cfg(test)]
mod deleting;
#[cfg(test)]
mod deltas;
#[cfg(test)]
mod devices;
#[cfg(test)]
mod filling;
#[cfg(test)]
mod freeing;
#[cfg(test)]
mod halves;
#[cfg(test)]
mod heaviest;
#[cfg(test)]
mod jobs;
#[cfg(test)]
mod large;
#[cfg(test)]
mod milestones;
#[cfg(test)]
mod opening;
#[cfg(test)]
mod picks;
#[cfg(test)]
mod pieces;
#[cfg(test)]
mod plans;
#[cfg(test)]
mod retiring;
#[cfg(test)]
mod rings;
#[cfg(test)]
mod running;
#[cfg(test)]
mod scripts;
#[cfg(test)]
mod stopping;
#[cfg(test)]
mod stores;
#[cfg(test)]
mod third_batch;
#[cfg(test)]
mod together;
#[cfg(test)]
mod upkeep;
