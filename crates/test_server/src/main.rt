//! Rows on the program `richd` as a call: what its words, its input and its files make of it.
//!
//! The file `stdin` has the rows, whose kinds stand at its head, and `stdout` each row with what comes of it behind it, two blanks further in.
//! So `grep -v '^  ' stdout` gives `stdin`.
//!
//! `callers` has the callers that open `lib.rt` of refusal, words and serving, proved, and `running` the one of server.
#![tactic(auto)]

pub mod callers;
mod drawn;
mod edits;
mod files;
mod given_words;
mod patient;
mod rows;
mod running;
mod runs;
mod sessions;
mod shown;
mod stops;
mod unwatched;

use rows::print_answers;
use std::io::{self, BufReader};

fn main(rt: HostRuntime) -> io::Result<()> {
    let input = BufReader::new(rt.alloc(), rt.stdin())?;
    print_answers(&rt, input)
}
