//! The line that is being read.
ghost use Rattle.std.specs.Prelude.{◌≡◌, ◌≢◌, ◌≤◌, ◌<◌, ℕ, IfOk, IfSome, Some, [], length, slice_index};
ghost use Rattle.session.specs.Line.{with_byte, TakesText};

use bytes::BytesMut;
use std::alloc::{AllocError, Global};
use std::marker::Model;

/// The longest line, in bytes without its end.
const MAX_LINE: usize = 65_536;

/// What a byte makes of a line.
#[derive(Clone, Copy, Debug, PartialEq, Eq)]
pub enum Event {
    /// The line continues, or the rest of one that is too long is dropped.
    More,
    /// This is the line's 65,537th byte: what follows of the line is dropped.
    TooLong,
    /// The line has ended.
    Complete,
}

/// The bytes of a line so far, at most 65,536.
#[derive(Drop)]
pub struct Line {
    bytes: BytesMut,
    is_dropped: bool,
}

impl Model for Line {
    ghost use Rattle.std.specs.Prelude.{◌≤◌, ◌+◌, if◌then◌else◌, Some, None, length};
    ghost use Rattle.session.specs.Line.{Partial};

    ghost Value = { Partial };

    ghost view = { λ l. if l.is_dropped then None else Some l.bytes.items };

    ghost invariant = { λ l. (length l.bytes.items ≤ 65536) × (65536 ≤ length l.bytes.items + l.bytes.spare) };
}

impl Line {
    /// An empty line, with room for the longest.
    pub fn new(alloc: Global) -> Result<Line, AllocError>
        ensures { IfOk result (λ line. line ≡ Some []) }
    {
        Ok(Line {
            bytes: BytesMut::with_capacity(alloc, MAX_LINE)?,
            is_dropped: false,
        })
    }

    /// Takes the next byte of the input. It needs no memory.
    pub fn take(&mut self, byte: u8) -> Event
        ensures { (result, self.new) ≡ with_byte self.old byte }
    {
        if byte == b'\n' {
            return self.end();
        }
        if self.is_dropped {
            return Event::More;
        }
        if self.bytes.len() == MAX_LINE {
            self.is_dropped = true;
            return Event::TooLong;
        }
        self.bytes.extend_from_slice(&[byte]).unwrap();
        Event::More
    }

    /// Takes the text in front of a piece at once: up to a line end, or as much as there is room for. It gives what is left of the
    /// piece, and needs no memory.
    pub fn take_text<'a>(&mut self, piece: &'a [u8]) -> &'a [u8]
        ensures { TakesText self.old piece.now self.new result.now }
    {
        let length = text_length(piece);
        if self.is_dropped {
            return piece.split_at(length).1;
        }
        let (text, rest) = piece.split_at(length.min(MAX_LINE - self.bytes.len()));
        self.bytes.extend_from_slice(text).unwrap();
        rest
    }

    fn end(&mut self) -> Event
        ensures { (result, self.new) ≡ with_byte self.old 10 }
    {
        if !self.is_dropped {
            return Event::Complete;
        }
        self.clear();
        Event::More
    }

    /// The bytes of a line that is not dropped.
    pub fn bytes(&self) -> &[u8]
        ensures { IfSome self.now (λ bytes. result.now ≡ bytes) }
    {
        self.bytes.as_slice()
    }

    /// Begins the next line.
    pub fn clear(&mut self)
        ensures { self.new ≡ Some [] }
    {
        self.bytes.clear();
        self.is_dropped = false;
    }
}

/// How many bytes of a piece of the input stand in front of its first line end, all of them where none is there.
pub fn text_length(piece: &[u8]) -> usize
    ensures within { result ≤ length piece.now }
    ensures inner { (i : ℕ) → i < result → slice_index piece.now i ≢ 10 }
    ensures end { result < length piece.now → slice_index piece.now result ≡ 10 }
{
    match piece.iter().position(|byte| *byte == b'\n') {
        Some(end) => end,
        None => piece.len(),
    }
}
