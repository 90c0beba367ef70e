//! Rows on files.
use crate::runs::call_plainly;
use crate::shown::{Shown, show};
use std::alloc::{AllocError, Global};
use std::fs::{self, File};
use std::io;
use std::net::{Net, TcpListener, TcpStream};
use std::rt::Files;
use std::sync::Wait;
use std::thread::Threads;
use std::time::Clock;

/// The file has so many bytes of this value.
pub fn fill<R: Files<File = File> + AllocGlobal>(
    rt: &R,
    path: &str,
    count: usize,
    byte: u8,
) -> io::Result<()> {
    let mut bytes = Vec::new(rt.alloc());
    for _ in 0..count {
        bytes.push(byte)?;
    }
    fs::write(rt, path, bytes.as_slice())
}

/// Bytes of the file, from one on, have these values, as far as it has so many.
pub fn set<R: Files<File = File> + AllocGlobal>(
    rt: &R,
    path: &str,
    at: usize,
    values: &[&str],
) -> io::Result<()> {
    let mut bytes = fs::read(rt, path)?;
    for (place, value) in bytes.iter_mut().skip(at).zip(values) {
        *place = (*value).parse().unwrap_or(0);
    }
    fs::write(rt, path, bytes.as_slice())
}

/// So many bytes of the file, from one on.
pub fn bytes<R: Files<File = File> + AllocGlobal>(
    rt: &R,
    path: &str,
    at: usize,
    count: usize,
) -> io::Result<String> {
    let bytes = fs::read(rt, path)?;
    Ok(numbers(rt.alloc(), &bytes, at, count)?)
}

fn numbers(alloc: Global, bytes: &[u8], at: usize, count: usize) -> Result<String, AllocError> {
    let mut text = String::new(alloc);
    for byte in bytes.iter().skip(at).take(count) {
        write!(text, "{byte} ")?;
    }
    drop(text.pop());
    Ok(text)
}

/// How long the file is.
pub fn length<R: Files<File = File> + AllocGlobal>(
    rt: &R,
    path: &str,
) -> Result<String, AllocError> {
    match fs::metadata(rt, path) {
        Ok(about) => format!(in rt.alloc(); "{} bytes", about.len()),
        Err(_) => String::from_str(rt.alloc(), "no file"),
    }
}

/// Whether the file has these bytes.
pub fn same<R: Files<File = File> + AllocGlobal>(
    rt: &R,
    path: &str,
    kept: &[u8],
) -> io::Result<String> {
    let bytes = fs::read(rt, path)?;
    let told = if bytes.as_slice() == kept {
        "the same"
    } else {
        "changed"
    };
    Ok(String::from_str(rt.alloc(), told)?)
}

/// What is told of an address at which somebody else listens, under another name for it.
pub fn taken_address<
    R: Files<File = File>
        + AllocGlobal
        + Net<Listener = TcpListener, Stream = TcpStream>
        + Threads
        + Wait
        + Clock
        + Sync,
>(rt: &R, path: &str) -> io::Result<String> {
    let listener = TcpListener::bind(rt, "127.0.0.1:0")?;
    let bound = listener.local_addr()?;
    let bound = format!(in rt.alloc(); "{bound}")?;
    Ok(told_of(rt, path, bound.as_str())?)
}

fn told_of<
    R: Files<File = File>
        + AllocGlobal
        + Net<Listener = TcpListener, Stream = TcpStream>
        + Threads
        + Wait
        + Clock
        + Sync,
>(rt: &R, path: &str, bound: &str) -> Result<String, AllocError> {
    let words = ["richd", "serve", path, "--listen", bound];
    let mut ended = call_plainly(rt, &words, "")?;
    ended.errors = named_address(rt.alloc(), ended.errors.as_str(), bound)?;
    show(rt.alloc(), &Shown::Whole, &ended, "")
}

// A text with another name in the place of an address.
fn named_address(alloc: Global, text: &str, bound: &str) -> Result<String, AllocError> {
    let mut named = String::new(alloc);
    for (place, piece) in text.split(bound).enumerate() {
        named.push_str(if place == 0 { "" } else { "ADDRESS" })?;
        named.push_str(piece)?;
    }
    Ok(named)
}
