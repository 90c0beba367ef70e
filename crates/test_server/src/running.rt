//! The caller that opens `lib.rt` of server.
ghost use Rattle.std.specs.Prelude.{◌≤◌};

use server::{Addresses, run};
use std::fs::File;
use std::io::Write;
use std::rt::Files;
use std::sync::Wait;
use std::thread::Threads;
use std::time::Clock;

/// Makes a store of the default shape in a file, as `richd format FILE` does. The status is 0 where it did.
pub fn format_file<
    R: Files<File = File> + AllocGlobal + Addresses + Threads + Wait + Clock + Sync,
    O: Write + Send,
    E: Write + Send,
>(rt: &R, path: &str, output: &mut O, errors: &mut E) -> u8
    ensures { result ≤ 2 }
{
    let mut input: &[u8] = &[];
    run(rt, &["richd", "format", path], &mut input, output, errors)
}
