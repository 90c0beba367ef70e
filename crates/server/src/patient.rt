//! Standard streams that hold up nobody.
use mio::unix::SourceFd;
use mio::{Events, Interest, Poll, Token};
use std::io::{self, ErrorKind, Read, Write};
use std::net::Net;
use std::os::fd::{AsRawFd, RawFd};
use std::time::Duration;

/// How long a stream is waited for that had room the last time, in milliseconds.
const PATIENCE: u64 = 100;

/// The most bytes that are written at once: a pipe that has room takes so many without a wait.
const PIECE: usize = 4096;

/// A stream that is written only where it has room, as the system tells. Where it has none for 100 milliseconds a write fails, and until
/// it has room again each further one fails at once. A write waits all the same where another program fills the stream in between.
#[derive(Drop)]
pub struct Patient<'a, R, W> {
    rt: &'a R,
    stream: W,
    has_room: bool,
}

impl<'a, R, W> Patient<'a, R, W> {
    /// Over this stream, which is thought to have room.
    pub fn new(rt: &'a R, stream: W) -> Patient<'a, R, W> {
        Patient {
            rt,
            stream,
            has_room: true,
        }
    }
}

impl<R: Net + AllocGlobal, W: AsRawFd> Patient<'_, R, W> {
    // Asks the system for room. A stream has some where it can't be asked.
    fn look(&mut self) -> bool {
        let wait = if self.has_room { PATIENCE } else { 0 };
        let ready = is_ready(self.rt, self.stream.as_raw_fd(), Interest::WRITABLE, wait);
        self.has_room = ready.unwrap_or(true);
        self.has_room
    }
}

// Whether a read, or a write of a few bytes, needs no wait within so many milliseconds; also one that fails since the other end is closed.
// Refused for a regular file, since the system tells nothing about those.
fn is_ready<R: Net + AllocGlobal>(
    rt: &R,
    stream: RawFd,
    interest: Interest,
    wait: u64,
) -> io::Result<bool> {
    let mut poll = Poll::new(rt)?;
    let mut events = Events::with_capacity(rt.alloc(), 1)?;
    poll.registry()
        .register(&mut SourceFd(&stream), Token(0), interest)?;
    poll.poll(&mut events, Some(Duration::from_millis(wait)))?;
    Ok(!events.is_empty())
}

impl<R: Net + AllocGlobal, W: Write + AsRawFd> Write for Patient<'_, R, W> {
    fn write(&mut self, buf: &[u8]) -> io::Result<usize> {
        if !self.look() {
            return Err(io::Error::from(ErrorKind::WouldBlock));
        }
        self.stream.write(&buf[..buf.len().min(PIECE)])
    }

    fn flush(&mut self) -> io::Result<()> {
        self.stream.flush()
    }
}

/// A stream that can be asked whether it has ended.
pub trait EndingInput {
    /// Whether it has ended, or failed. It waits for nobody, and what stands before the end is dropped.
    fn has_ended(&mut self) -> bool;
}

impl<I: EndingInput> EndingInput for &mut I {
    fn has_ended(&mut self) -> bool {
        (**self).has_ended()
    }
}

impl EndingInput for &[u8] {
    fn has_ended(&mut self) -> bool {
        *self = &[];
        true
    }
}

/// A stream that is read as it is, and that can be asked whether it has ended.
#[derive(Drop)]
pub struct PatientInput<'a, R, I> {
    rt: &'a R,
    stream: I,
}

impl<'a, R, I> PatientInput<'a, R, I> {
    /// Over this stream.
    pub fn new(rt: &'a R, stream: I) -> PatientInput<'a, R, I> {
        PatientInput { rt, stream }
    }
}

impl<R, I: Read> Read for PatientInput<'_, R, I> {
    fn read(&mut self, buf: &mut [u8]) -> io::Result<usize> {
        self.stream.read(buf)
    }
}

impl<R: Net + AllocGlobal, I: Read + AsRawFd> EndingInput for PatientInput<'_, R, I> {
    // One piece at most is read at a time. A stream about which the system tells nothing is read at once.
    fn has_ended(&mut self) -> bool {
        if !is_ready(self.rt, self.stream.as_raw_fd(), Interest::READABLE, 0).unwrap_or(true) {
            return false;
        }
        let mut piece = [0u8; PIECE];
        match self.stream.read(&mut piece) {
            Ok(count) => count == 0,
            Err(reason) => reason.kind() != ErrorKind::Interrupted,
        }
    }
}
