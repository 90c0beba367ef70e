//! Where a session is read from.
ghost use Rattle.std.specs.Prelude.{◌≡◌, ◌<◌, ◌≤◌, List, ℕ, Option, Bool, true, false, length, take, IfOk, IfSome, IfNone, OnOk, OnErr};
ghost use Rattle.std.specs.Io.KnownBytes.{Consumes, IsAtEnd, Keeps};

use std::io::{ErrorKind, Read};

/// A read failed.
#[derive(Clone, Copy, Debug, PartialEq, Eq)]
pub struct InputError;

/// What a session is read from. Once a read has failed it gives nothing more.
pub trait Input {
    /// The bytes that are left, where they are known.
    ghost remaining: { Self → Option (List ℕ) };

    /// Whether a read has failed.
    ghost has_failed: { Self → Bool };

    /// Reads bytes to the front of a buffer, and answers how many: where the buffer has room, none at the end alone. `None` is answered where
    /// a signal cut the read short. Then nothing is taken, nor where the read fails.
    fn read(&mut self, buf: &mut [u8]) -> Result<Option<usize>, InputError>
        ensures within { IfOk result (λ read. IfSome read (λ count. count ≤ length buf.new)) }
        ensures given { IfOk result (λ read. IfSome read (λ count.
            Consumes (remaining self.old) (remaining self.new) (take count buf.new))) }
        ensures at_end { IfOk result (λ read. IfSome read (λ count.
            count ≡ 0 → 0 < length buf.new → IsAtEnd (remaining self.new))) }
        ensures cut_short { IfOk result (λ read. IfNone read (Keeps (remaining self.old) (remaining self.new))) }
        ensures kept { OnErr result (Keeps (remaining self.old) (remaining self.new)) }
        ensures works { OnOk result ((has_failed self.old ≡ false) × (has_failed self.new ≡ false)) }
        ensures failed { OnErr result (has_failed self.new ≡ true) };
}

/// A reader, and whether a read of it has failed.
#[derive(Drop)]
pub struct InputStream<I> {
    reader: I,
    failed: bool,
}

impl<I: Read> InputStream<I> {
    ghost use Rattle.serving.specs.InputView.{reader_of, failed_of};

    /// An input over a reader that hasn't failed.
    pub fn new(reader: I) -> InputStream<I>
        ensures reader { reader_of result ≡ reader }
        ensures works { failed_of result ≡ false }
    {
        InputStream {
            reader,
            failed: false,
        }
    }

    /// Gives the reader back.
    pub fn into_reader(self) -> I
        ensures { result ≡ reader_of self }
    {
        let InputStream { reader, failed: _ } = self;
        reader
    }
}

impl<I: Read> Input for InputStream<I> {
    ghost use Rattle.serving.specs.InputView.{reader_of, failed_of};

    ghost remaining = { λ s. I.remaining (reader_of s) };

    ghost has_failed = { λ s. failed_of s };

    fn read(&mut self, buf: &mut [u8]) -> Result<Option<usize>, InputError> {
        if self.failed {
            return Err(InputError);
        }
        match self.reader.read(buf) {
            Ok(count) => Ok(Some(count)),
            Err(error) if error.kind() == ErrorKind::Interrupted => Ok(None),
            Err(_) => {
                self.failed = true;
                Err(InputError)
            }
        }
    }
}
