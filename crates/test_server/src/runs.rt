//! One run of the program over streams in memory.
use server::{EndingInput, run};
use std::alloc::{AllocError, Global};
use std::fs::File;
use std::io::{self, ErrorKind, Read, Write};
use std::net::{Net, TcpListener, TcpStream};
use std::rt::Files;
use std::sync::Wait;
use std::thread::Threads;
use std::time::Clock;

/// The standard stream that fails.
#[derive(Clone, Copy, PartialEq, Eq)]
pub enum Broken {
    Nothing,
    Input,
    Output,
    Errors,
}

/// What a run is given: its input, in pieces of so many bytes, and what is put behind what a stream sends on.
#[derive(Clone, Copy)]
pub struct Given<'a> {
    pub input: &'a [u8],
    pub size: usize,
    pub broken: Broken,
    pub mark: &'static str,
}

/// What a run answered and wrote.
#[derive(Drop)]
pub struct Ended {
    pub status: u8,
    pub output: String,
    pub errors: String,
}

/// An input that is read in pieces of one size, or fails.
#[derive(Drop)]
struct Pieces<'a> {
    rest: &'a [u8],
    size: usize,
    is_broken: bool,
}

impl Read for Pieces<'_> {
    fn read(&mut self, buf: &mut [u8]) -> io::Result<usize> {
        if self.is_broken {
            return Err(io::Error::from(ErrorKind::BrokenPipe));
        }
        let count = self.size.min(self.rest.len()).min(buf.len());
        buf[..count].copy_from_slice(&self.rest[..count]);
        self.rest = &self.rest[count..];
        Ok(count)
    }
}

impl EndingInput for Pieces<'_> {
    fn has_ended(&mut self) -> bool {
        self.rest = &[];
        true
    }
}

/// An output that holds back what it is given, and sends it on where it is flushed, with a mark behind it. A broken one takes nothing.
#[derive(Drop)]
struct Held {
    held: Vec<u8>,
    sent: Vec<u8>,
    mark: &'static str,
    is_broken: bool,
}

impl Held {
    fn new(alloc: Global, mark: &'static str, is_broken: bool) -> Held {
        Held {
            held: Vec::new(alloc),
            sent: Vec::new(alloc),
            mark,
            is_broken,
        }
    }

    // All that was sent on, and behind it what was not, with a word about that.
    fn text(&self, alloc: Global) -> Result<String, AllocError> {
        let mut text = String::from_utf8_lossy(alloc, &self.sent)?;
        if !self.held.is_empty() {
            text.push_str("not sent on: ")?;
            let held = String::from_utf8_lossy(alloc, &self.held)?;
            text.push_str(held.as_str())?;
        }
        Ok(text)
    }
}

impl Write for Held {
    fn write(&mut self, buf: &[u8]) -> io::Result<usize> {
        if self.is_broken {
            return Err(io::Error::from(ErrorKind::BrokenPipe));
        }
        self.held.extend_from_slice(buf)?;
        Ok(buf.len())
    }

    fn flush(&mut self) -> io::Result<()> {
        if !self.held.is_empty() {
            self.sent.extend_from_slice(self.held.as_slice())?;
            self.sent.extend_from_slice(self.mark.as_bytes())?;
            self.held.clear();
        }
        Ok(())
    }
}

/// A run of the program over these words.
pub fn call<
    R: Files<File = File>
        + AllocGlobal
        + Net<Listener = TcpListener, Stream = TcpStream>
        + Threads
        + Wait
        + Clock
        + Sync,
>(rt: &R, words: &[&str], given: Given<'_>) -> Result<Ended, AllocError> {
    let mut input = Pieces {
        rest: given.input,
        size: given.size,
        is_broken: given.broken == Broken::Input,
    };
    let mut output = Held::new(rt.alloc(), given.mark, given.broken == Broken::Output);
    let mut errors = Held::new(rt.alloc(), given.mark, given.broken == Broken::Errors);
    let status = run(rt, words, &mut input, &mut output, &mut errors);
    end_of(rt.alloc(), status, &output, &errors)
}

fn end_of(alloc: Global, status: u8, output: &Held, errors: &Held) -> Result<Ended, AllocError> {
    let output = output.text(alloc)?;
    let errors = errors.text(alloc)?;
    Ok(Ended {
        status,
        output,
        errors,
    })
}

/// A run over these words and this input, with nothing else about it.
pub fn call_plainly<
    R: Files<File = File>
        + AllocGlobal
        + Net<Listener = TcpListener, Stream = TcpStream>
        + Threads
        + Wait
        + Clock
        + Sync,
>(rt: &R, words: &[&str], input: &str) -> Result<Ended, AllocError> {
    let given = Given {
        input: input.as_bytes(),
        size: usize::MAX,
        broken: Broken::Nothing,
        mark: "",
    };
    call(rt, words, given)
}
