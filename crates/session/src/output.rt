//! Where a session writes.
ghost use Rattle.std.specs.Prelude.{◌≡◌, ◌≤◌, ℕ, List, Option, Bool, true, false, length, take, IfOk, OnOk, OnErr};
ghost use Rattle.std.specs.Io.KnownBytes.{Appends, Keeps};
ghost use Rattle.session.specs.Output.{AppendsFront};

use std::io::{ErrorKind, Write};
use thiserror::Error;

/// A write failed.
#[derive(Clone, Copy, Debug, PartialEq, Eq, Error)]
#[error("a write failed")]
pub struct WriteError;

/// What a session writes to. Once a write has failed it takes nothing more.
pub trait Output {
    /// The bytes that it holds, where they are known.
    ghost contents: { Self → Option (List ℕ) };

    /// Whether a write has failed.
    ghost has_failed: { Self → Bool };

    /// Writes all the bytes, or fails, and then a prefix of them is written.
    fn put(&mut self, bytes: &[u8]) -> Result<(), WriteError>
        ensures written { OnOk result (Appends (contents self.old) (contents self.new) bytes.now) }
        ensures front { OnErr result (AppendsFront (contents self.old) (contents self.new) bytes.now) }
        ensures works { OnOk result ((has_failed self.old ≡ false) × (has_failed self.new ≡ false)) }
        ensures failed { OnErr result (has_failed self.new ≡ true) }
        ensures closed { has_failed self.old ≡ true → Keeps (contents self.old) (contents self.new) };

    /// Sends on what was written and is held back, or fails.
    fn flush(&mut self) -> Result<(), WriteError>
        ensures kept { Keeps (contents self.old) (contents self.new) }
        ensures works { OnOk result ((has_failed self.old ≡ false) × (has_failed self.new ≡ false)) }
        ensures failed { OnErr result (has_failed self.new ≡ true) };
}

/// A writer, and whether a write to it has failed.
#[derive(Drop)]
pub struct Stream<W> {
    writer: W,
    failed: bool,
}

impl<W: Write> Stream<W> {
    ghost use Rattle.session.specs.OutputView.{writer_of, failed_of};

    /// A stream over a writer, to which no write has failed.
    pub fn new(writer: W) -> Stream<W>
        ensures writer { writer_of result ≡ writer }
        ensures works { failed_of result ≡ false }
    {
        Stream {
            writer,
            failed: false,
        }
    }

    /// Gives the writer back.
    pub fn into_writer(self) -> W
        ensures { result ≡ writer_of self }
    {
        let Stream { writer, failed: _ } = self;
        writer
    }
}

impl<W: Write> Output for Stream<W> {
    ghost use Rattle.session.specs.OutputView.{writer_of, failed_of};

    ghost contents = { λ s. W.contents (writer_of s) };

    ghost has_failed = { λ s. failed_of s };

    fn put(&mut self, bytes: &[u8]) -> Result<(), WriteError> {
        if self.failed {
            return Err(WriteError);
        }
        if write_whole(&mut self.writer, bytes).is_err() {
            self.failed = true;
            return Err(WriteError);
        }
        Ok(())
    }

    fn flush(&mut self) -> Result<(), WriteError> {
        if self.failed {
            return Err(WriteError);
        }
        if self.writer.flush().is_err() {
            self.failed = true;
            return Err(WriteError);
        }
        Ok(())
    }
}

// Writes all the bytes, or fails, and then a prefix of them is written.
fn write_whole<W: Write>(writer: &mut W, bytes: &[u8]) -> Result<(), WriteError>
    ensures written { OnOk result (Appends (W.contents writer.old) (W.contents writer.new) bytes.now) }
    ensures front { OnErr result (AppendsFront (W.contents writer.old) (W.contents writer.new) bytes.now) }
{
    let mut rest = bytes;
    'tries: for _ in 0..u64::MAX {
        if rest.is_empty() {
            return Ok(());
        }
        let count = write_some(writer, rest)?;
        rest = &rest[count..];
    }
    Err(WriteError)
}

// Writes some of the bytes: none where a signal cut the write short. A write that takes no byte has failed.
fn write_some<W: Write>(writer: &mut W, bytes: &[u8]) -> Result<usize, WriteError>
    ensures within { IfOk result (λ count. count ≤ length bytes.now) }
    ensures written { IfOk result
        (λ count. Appends (W.contents writer.old) (W.contents writer.new) (take count bytes.now)) }
    ensures kept { OnErr result (Keeps (W.contents writer.old) (W.contents writer.new)) }
{
    match writer.write(bytes) {
        Ok(0) => Err(WriteError),
        Ok(count) => Ok(count),
        Err(error) if error.kind() == ErrorKind::Interrupted => Ok(0),
        Err(_) => Err(WriteError),
    }
}
