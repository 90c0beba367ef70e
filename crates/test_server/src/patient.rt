//! A stream that is written where it has room, and one that tells whether it has ended.
use server::{EndingInput, Patient, PatientInput};
use std::io::{self, Read, Write};
use std::net::Net;
use std::os::fd::AsRawFd;
use std::rt::Files;

// Writes to a stream until it takes no more, which comes within so many pieces.
fn is_filled<W: Write>(stream: &mut W, pieces: usize) -> bool {
    for _ in 0..pieces {
        if stream.write_all(&[b'x'; 4096]).is_err() {
            return true;
        }
    }
    false
}

// Whether the stream takes a byte.
fn takes<W: Write>(stream: &mut W) -> bool {
    stream.write_all(b"y").is_ok()
}

fn word(is_taken: bool) -> &'static str {
    if is_taken { "taken" } else { "refused" }
}

/// What is written over a pipe while it has no room, once it has some, and once nobody reads it. And whether one is told to have ended.
pub fn tried<R: Files + Net + AllocGlobal>(rt: &R) -> io::Result<String> {
    let (reader, writer) = io::pipe(rt)?;
    let written = over(rt, reader, writer)?;
    let (reader, writer) = io::pipe(rt)?;
    let ended = ends(rt, reader, writer)?;
    Ok(format!(in rt.alloc(); "{written}{ended}")?)
}

// Whether the end of a stream is told while nothing comes, once something came, and once nobody writes to it.
fn ends<R: Net + AllocGlobal, I: Drop + Read + AsRawFd, W: Drop + Write>(
    rt: &R,
    reader: I,
    mut writer: W,
) -> io::Result<String> {
    let mut stream = PatientInput::new(rt, reader);
    let is_silent = stream.has_ended();
    writer.write_all(b"z")?;
    let has_come = stream.has_ended();
    drop(writer);
    let is_closed = stream.has_ended();
    Ok(format!(in rt.alloc(); "ended: {is_silent} {has_come} {is_closed}\n")?)
}

fn over<R: Net + AllocGlobal, I: Drop + Read, W: Drop + Write + AsRawFd>(
    rt: &R,
    mut reader: I,
    writer: W,
) -> io::Result<String> {
    let mut stream = Patient::new(rt, writer);
    let is_filled = is_filled(&mut stream, 1_000);
    let is_taken_full = takes(&mut stream);
    let mut taken = [0; 8192];
    let has_some = reader.read(&mut taken)? > 0;
    let is_taken_then = takes(&mut stream);
    drop(reader);
    let is_taken_closed = takes(&mut stream);
    let full = word(is_taken_full);
    let emptied = word(is_taken_then);
    let closed = word(is_taken_closed);
    Ok(format!(in rt.alloc();
        "filled: {is_filled}\nfull: {full}\nread: {has_some}\nthen: {emptied}\nclosed: {closed}\n"
    )?)
}
