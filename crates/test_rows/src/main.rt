//! Reads rows of deltas on standard input, and prints for each what the crates make of it.
//!
//! The files `stdin` and `stdout` are the tables: what quill-delta publishes of its deltas, and further worked rows. What
//! a row is stands at the head of `stdin`. A blank line and one that begins with `#` are printed as they are, so that each
//! line of `stdout` belongs to the line of `stdin` that has its number.
#![tactic(auto)]

mod answers;
mod cases;
mod generated;
mod plain;

use answers::answer;
use std::io;
use std::io::{BufRead, BufReader};

fn main(rt: HostRuntime) -> io::Result<()> {
    for line in BufReader::new(rt.alloc(), rt.stdin())?.lines(rt.alloc()) {
        let line = line?;
        let row = line.as_str();
        if row.is_empty() || row.starts_with('#') {
            println!(rt; "{row}")?;
            continue;
        }
        match answer(rt.alloc(), row) {
            Ok(text) => println!(rt; "{text}")?,
            Err(refusal) => println!(rt; "{refusal}")?,
        }
    }
    Ok(())
}
