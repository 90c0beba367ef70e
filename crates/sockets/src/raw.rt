//! The calls of a listener and of its connections, one of the system each, noted with what came of it.
//!
//! **What is not proved**: that each method here makes the call that it notes, that what it notes is what the system answered, and that the
//! system brings the bytes that a peer sent, in their order, and takes to it those that are written. So these few lines are to be read. No
//! other file of the program names the system's listeners and streams, so none reads or writes a connection. The listener is bound here too, by
//! `Addresses`: who asks for the address notes that.
ghost use Rattle.std.specs.Prelude.{◌≡◌, ◌≤◌, List, [], ◌∷◌, length, IfOk, IfErr, OnOk, OnErr};
ghost use Rattle.sockets.specs.Socket.{Event, Came, AcceptFailed, Closed, event_of_read, event_of_write};
ghost use Rattle.sockets.specs.Host.{arrivals_of, number_read, number_written, reads_of, writes_of, reads_in, writes_in};
ghost use Rattle.sockets.specs.Within.{IsWithin, IsTaken};

mod notes;
mod visits;

use crate::pause::is_pause;
pub use notes::SocketNotes;
use std::alloc::Global;
use std::io::{self, ErrorKind, Read, Write};
use std::net::{Net, OpenListener, Shutdown, SocketAddr, TcpListener, TcpStream};
use std::os::fd::OwnedFd;
use std::sync::Arc;
use std::time::Duration;
pub use visits::Visits;

/// How long a read or a write of a connection waits, in milliseconds.
const WAIT: u64 = 100;

/// How long a listener waits for a connection before it is asked whether to go on, in milliseconds.
const BEAT: u64 = 100;

/// The addresses of a host, which are listened on.
pub trait Addresses {
    /// A listener on an address, and the address that it has. It has taken nobody yet, and waits no longer than a beat for the next connection.
    fn listen(&self, address: &str) -> io::Result<(HostListener, SocketAddr)>
        ensures { IfOk result (λ bound. arrivals_of bound.0 ≡ []) };
}

impl<R: Net<Listener = TcpListener, Stream = TcpStream>> Addresses for R {
    fn listen(&self, address: &str) -> io::Result<(HostListener, SocketAddr)> {
        let listener = with_beat(TcpListener::bind(self, address)?)?;
        let bound = listener.local_addr()?;
        Ok((HostListener::new(listener), bound))
    }
}

// A listener that waits no longer than a beat for the next connection, so that it is asked then whether to go on. The system keeps the wait with the
// descriptor, for which a stream has the call.
fn with_beat(listener: TcpListener) -> io::Result<TcpListener> {
    let stream = TcpStream::from(OwnedFd::from(listener));
    stream.set_read_timeout(Some(Duration::from_millis(BEAT)))?;
    Ok(TcpListener::from(OwnedFd::from(stream)))
}

/// A listener whose calls are kept, with what came of them.
#[derive(Drop)]
pub struct HostListener<N = TcpListener> {
    listener: N,
    /// So many connections came.
    count: u64,
    notes: SocketNotes,
}

impl<N: OpenListener<Stream = TcpStream>> HostListener<N> {
    /// A listener that has taken nobody yet.
    pub fn new(listener: N) -> HostListener<N>
        ensures { arrivals_of result ≡ [] }
    {
        HostListener {
            listener,
            count: 0,
            notes: SocketNotes::new(),
        }
    }
}

impl<N: OpenListener<Stream = TcpStream> + Drop> Listen for HostListener<N> {
    ghost arrivals = { arrivals_of };

    fn accept(&mut self) -> io::Result<HostPeer> {
        match self.listener.accept() {
            Ok((stream, _address)) => {
                if has_options(&stream) {
                    self.notes.note_came();
                    let number = self.count;
                    self.count = number.saturating_add(1);
                    Ok(HostPeer { stream, number })
                } else {
                    self.notes.note_accept_failed();
                    Err(io::Error::from(ErrorKind::ConnectionAborted))
                }
            }
            Err(reason) => {
                self.notes.note_accept_failed();
                Err(reason)
            }
        }
    }

    fn stop_waiting(&mut self) {
        let _ = self.listener.set_nonblocking(true);
    }
}

// Sets how long the connection waits. Small replies leave at once.
fn has_options(stream: &TcpStream) -> bool {
    let wait = Duration::from_millis(WAIT);
    stream.set_nodelay(true).is_ok()
        && stream.set_read_timeout(Some(wait)).is_ok()
        && stream.set_write_timeout(Some(wait)).is_ok()
}

/// Takes connections, and keeps what came of that.
pub trait Listen: Drop {
    /// The calls, with what came of them, newest first.
    ghost arrivals: { Self → List Event };

    /// Takes a connection, whose reads and writes wait for 100 milliseconds at most, and from which nothing was read yet. One for which the
    /// system refuses that is closed, as an error that concerns it alone.
    fn accept(&mut self) -> io::Result<HostPeer>
        ensures came { OnOk result (arrivals self.new ≡ Came ∷ arrivals self.old) }
        ensures failed { OnErr result (arrivals self.new ≡ AcceptFailed ∷ arrivals self.old) };

    /// Waits for no further connection: where none has come by then, taking one fails at once, if the system has that.
    fn stop_waiting(&mut self)
        ensures { arrivals self.new ≡ arrivals self.old };
}

/// A connection from which nothing was read and to which nothing was written. Dropped, it is closed.
#[derive(Drop)]
pub struct HostPeer {
    stream: TcpStream,
    /// So many connections of its listener had come before it.
    number: u64,
}

impl HostPeer {
    /// The half that reads and the half that writes. Out of memory the connection is closed.
    pub(crate) fn split(self, alloc: Global) -> Result<(HostReader, HostWriter), Visit>
        ensures new { IfOk result (λ halves. (reads_of halves.0 ≡ []) × (writes_of halves.1 ≡ [])) }
        ensures one { IfOk result (λ halves. number_written halves.1 ≡ number_read halves.0) }
        ensures refused { IfErr result (λ visit. (reads_in visit ≡ []) × (writes_in visit ≡ [])) }
    {
        let HostPeer { stream, number } = self;
        let Ok(stream) = Arc::new(alloc, stream) else {
            return Err(Visit::without_calls());
        };
        let Ok(other) = stream.clone() else {
            return Err(Visit::without_calls());
        };
        let reader = HostReader {
            stream: other,
            number,
            notes: SocketNotes::new(),
        };
        let writer = HostWriter {
            stream,
            number,
            notes: SocketNotes::new(),
        };
        Ok((reader, writer))
    }

    /// Closes the connection, which was asked nothing.
    pub(crate) fn turn_away(self) -> Visit
        ensures { (reads_in result ≡ []) × (writes_in result ≡ []) }
    {
        drop(self);
        Visit::without_calls()
    }
}

/// What a read brought.
#[derive(Clone, Copy, Debug, PartialEq, Eq)]
pub enum Got {
    /// So many bytes.
    Bytes(usize),
    /// None in its time.
    Nothing,
    /// None, and none comes any more.
    End,
    /// The read failed.
    Failed,
}

/// What a write took.
#[derive(Clone, Copy, Debug, PartialEq, Eq)]
pub enum Put {
    /// So many bytes.
    Bytes(usize),
    /// None in its time.
    Nothing,
    /// The write failed.
    Failed,
}

/// The half of a connection that is read.
#[derive(Drop)]
pub struct HostReader {
    stream: Arc<TcpStream>,
    number: u64,
    notes: SocketNotes,
}

impl HostReader {
    /// Reads what has come, or what comes in its time.
    pub(crate) fn read(&mut self, piece: &mut [u8]) -> Got
        requires { 1 ≤ length piece.old }
        ensures within { IsWithin result (length piece.new) }
        ensures noted { reads_of self.new ≡ event_of_read result piece.new ∷ reads_of self.old }
        ensures same { number_read self.new ≡ number_read self.old }
    {
        let mut stream = &*self.stream;
        match stream.read(piece) {
            Ok(0) => {
                self.notes.note_input_ended();
                Got::End
            }
            Ok(count) => {
                self.notes.note_read(&piece[..count]);
                Got::Bytes(count)
            }
            Err(error) if is_pause(error.kind()) => {
                self.notes.note_read_waited();
                Got::Nothing
            }
            Err(_) => {
                self.notes.note_read_failed();
                Got::Failed
            }
        }
    }
}

/// What a connection was asked that is closed: the reads, and the writes. It is made of a connection alone, in this file.
#[derive(Drop)]
pub struct Visit {
    reads: SocketNotes,
    writes: SocketNotes,
}

impl Visit {
    // Of a connection that was asked nothing.
    fn without_calls() -> Visit
        ensures { (reads_in result ≡ []) × (writes_in result ≡ []) }
    {
        Visit {
            reads: SocketNotes::new(),
            writes: SocketNotes::new(),
        }
    }

    /// What both halves of one connection were asked, which is closed.
    pub(crate) fn of(reader: HostReader, writer: HostWriter) -> Visit
        requires { number_written writer ≡ number_read reader }
        ensures reads { reads_in result ≡ reads_of reader }
        ensures writes { writes_in result ≡ writes_of writer }
    {
        Visit {
            reads: reader.notes,
            writes: writer.notes,
        }
    }
}

/// The half of a connection that is written.
#[derive(Drop)]
pub struct HostWriter {
    stream: Arc<TcpStream>,
    number: u64,
    notes: SocketNotes,
}

impl HostWriter {
    /// Writes what the system takes, now or in its time. A write that takes no byte of some has failed.
    pub(crate) fn write(&mut self, bytes: &[u8]) -> Put
        requires { 1 ≤ length bytes.now }
        ensures within { IsTaken result (length bytes.now) }
        ensures noted { writes_of self.new ≡ event_of_write result bytes.now ∷ writes_of self.old }
        ensures same { number_written self.new ≡ number_written self.old }
    {
        let mut stream = &*self.stream;
        match stream.write(bytes) {
            Ok(count) if count > 0 => {
                self.notes.note_wrote(&bytes[..count]);
                Put::Bytes(count)
            }
            Err(error) if is_pause(error.kind()) => {
                self.notes.note_write_waited();
                Put::Nothing
            }
            _ => {
                self.notes.note_write_failed();
                Put::Failed
            }
        }
    }

    /// Shuts the connection down for both halves.
    pub(crate) fn close(&mut self)
        ensures noted { writes_of self.new ≡ Closed ∷ writes_of self.old }
        ensures same { number_written self.new ≡ number_written self.old }
    {
        let _ = self.stream.shutdown(Shutdown::Both);
        self.notes.note_closed();
    }
}
