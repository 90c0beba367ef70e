//! The program `richd`, as a call over its words and its standard streams.
//!
//! `run` reads the words and makes, serves or prints the store of a file, by `run_on` over the calls of the system; `run_with_args` takes the words
//! from the system. `dump` writes a line for each document of a state (`specs/Dump.antt`), and `print_answer` the line of what a task on deltas
//! comes to (`specs/Deltas.antt`). Sessions are served by `serve_streams` and `serve_on` of `server_threads`.
//!
//! `info`, `documents` and `check` of `inspection` tell how full a store is, and whether both its readings match; `specs/Checked.antt` has the
//! line of a store that is sound. While a store is served to those who connect, lines for an operator go to standard error where they are asked
//! for (`events.rt`); no clause speaks of them. `Patient` is a stream that is written where it has room, so that nobody waits for them.
//!
//! Files and addresses are asked for by the calls of `calls.rt` alone, which are noted: `specs/Calls.antt` says which ones a command makes.
//! What only reads a store closes its file with a note of all that its device went through, so that these clauses say too that nothing was
//! written to it: `dump`, `info` and `check`, and `copy` and `migrate` for the store that they read. `dump_store` gives the device back unchanged.
//!
//! It stands on `words` for what the words ask for, on `server_threads` for the sessions, on `sockets` for the listener, on `algebra` for the
//! tasks on deltas and for how a delta is printed, on `recovery` and `disk` for the store in a file, and on `mio` for whether a stream has room.
//!
//! A caller, with its contract, which `test_server` proves as it stands:
//!
//! ```text
//! ghost use Rattle.std.specs.Prelude.{◌≤◌};
//!
//! use server::{Addresses, run};
//! use std::fs::File;
//! use std::io::Write;
//! use std::rt::Files;
//! use std::sync::Wait;
//! use std::thread::Threads;
//! use std::time::Clock;
//!
//! /// Makes a store of the default shape in a file, as `richd format FILE` does. The status is 0 where it did.
//! pub fn format_file<
//!     R: Files<File = File> + AllocGlobal + Addresses + Threads + Wait + Clock + Sync,
//!     O: Write + Send,
//!     E: Write + Send,
//! >(rt: &R, path: &str, output: &mut O, errors: &mut E) -> u8
//!     ensures { result ≤ 2 }
//! {
//!     let mut input: &[u8] = &[];
//!     run(rt, &["richd", "format", path], &mut input, output, errors)
//! }
//! ```
#![tactic(auto)]

mod calls;
mod deltas;
mod documents;
mod ended;
mod events;
mod files;
mod inspected;
pub mod laws;
mod notes;
mod patient;
mod program;
mod reserving;
mod standard;
mod watching;

pub use deltas::print_answer;
pub use documents::{dump, dump_store};
pub use inspected::Printed;
pub use patient::{EndingInput, Patient, PatientInput};
pub use program::{run, run_with_args};
pub use server_threads::serve_on;
pub use sockets::Addresses;
