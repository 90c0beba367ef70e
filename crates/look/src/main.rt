//! A store's life in one run, which the gate compares by two compilers: makes a store in a temporary file, serves the lines of its standard
//! input from it, prints its documents, and removes it, as `richd format`, `richd serve` and `richd dump` do.
#![tactic(auto)]

use server::PatientInput;
use std::alloc::{AllocError, Global};
use std::process::ExitCode;
use std::{env, fs, io, process};

// The path of a store that no other look uses.
fn path_in(alloc: Global, folder: &str, number: u32) -> Result<String, AllocError> {
    format!(in alloc; "{folder}/richd-look-{number}")
}

// The words of a command on a store.
fn words_of<'a>(command: &'a str, path: &'a str) -> [&'a str; 3] {
    ["richd", command, path]
}

fn main(rt: HostRuntime) -> io::Result<ExitCode> {
    let folder = env::temp_dir(&rt)?;
    let number = process::id(rt.process());
    let path = path_in(rt.alloc(), folder.as_str(), number)?;
    let mut input = PatientInput::new(&rt, rt.stdin());
    let (mut output, mut errors) = (rt.stdout(), rt.stderr());
    let mut status = 0;
    for command in &["format", "serve", "dump"] {
        if status == 0 {
            println!(rt; "$ richd {command} STORE")?;
            let words = words_of(command, path.as_str());
            status = server::run(&rt, &words, &mut input, &mut output, &mut errors);
        }
    }
    fs::remove_file(&rt, path.as_str())?;
    Ok(ExitCode::from(status))
}
