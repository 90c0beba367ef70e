//! The page on which a session spells what it writes.
ghost use Rattle.std.specs.Prelude.{◌≡◌, ◌<◌, ◌++◌, ℕ, List, [], length, false, IfOk};
ghost use Rattle.session.specs.Page.{Spells, Ends};

use crate::output::{Output, WriteError};
use bytes::BytesMut;
use std::alloc::{AllocError, Global};
use std::marker::Model;

/// How many bytes a page has room for: 16 KiB. A session has one page, and writes it when it is full and at the end of a reply, so
/// the text of a reply takes no more memory than that, however long it is.
pub const PAGE: usize = 16_384;

/// The bytes that wait to be written, at most 16,384, and whether a write failed. Then nothing more is written.
#[derive(Drop)]
pub struct Page {
    bytes: BytesMut,
    failed: bool,
}

impl Model for Page {
    ghost use Rattle.std.specs.Prelude.{◌≤◌, ◌+◌, length};
    ghost use Rattle.session.specs.Page as spec;

    ghost Value = { spec.Page };

    ghost view = { λ p. record { waiting = p.bytes.items; failed = p.failed } };

    ghost invariant = { λ p. (length p.bytes.items ≤ 16384) × (16384 ≤ length p.bytes.items + p.bytes.spare) };
}

impl Page {
    /// An empty page, with room for all that it ever holds.
    pub fn new(alloc: Global) -> Result<Page, AllocError>
        ensures { IfOk result (λ page. page ≡ record { waiting = []; failed = false }) }
    {
        Ok(Page {
            bytes: BytesMut::with_capacity(alloc, PAGE)?,
            failed: false,
        })
    }

    /// Begins anew.
    pub fn begin(&mut self)
        ensures { self.new ≡ record { waiting = []; failed = false } }
    {
        self.bytes.clear();
        self.failed = false;
    }

    /// Whether a write failed.
    pub fn has_failed(&self) -> bool
        ensures { result ≡ self.now.failed }
    {
        self.failed
    }

    /// Puts a text on the page, and writes the page whenever it is full. It takes no memory.
    pub fn push_str<O: Output>(&mut self, out: &mut O, text: &str)
        ensures { Spells O.contents O.has_failed out.old self.old out.new self.new text.now }
    {
        self.push(out, text.as_bytes());
    }

    /// Puts bytes on the page, and writes the page whenever it is full. It takes no memory.
    pub fn push<O: Output>(&mut self, out: &mut O, bytes: &[u8])
        ensures { Spells O.contents O.has_failed out.old self.old out.new self.new bytes.now }
    {
        let mut rest = bytes;
        while !rest.is_empty() {
            self.make_room(out);
            rest = self.take(rest);
        }
    }

    /// Writes what waits. Refused where a write failed since the page began.
    pub fn finish<O: Output>(&mut self, out: &mut O) -> Result<(), WriteError>
        ensures { Ends O.contents O.has_failed out.old self.old out.new result }
    {
        self.write(out);
        if self.failed {
            return Err(WriteError);
        }
        Ok(())
    }

    // Has room for one more byte at least.
    fn make_room<O: Output>(&mut self, out: &mut O)
        ensures spelled { Spells O.contents O.has_failed out.old self.old out.new self.new [] }
        ensures room { length self.new.waiting < 16384 }
    {
        if self.bytes.len() < PAGE {
            return;
        }
        self.write(out);
    }

    // Takes as many bytes as there is room for, and gives what is left.
    fn take<'a>(&mut self, bytes: &'a [u8]) -> &'a [u8]
        requires room { length self.old.waiting < 16384 }
        requires some { 0 < length bytes.now }
        ensures taken { (front : List ℕ) × (bytes.now ≡ front ++ result.now)
            × (self.new ≡ record self.old { waiting = self.old.waiting ++ front }) }
        ensures less { length result.now < length bytes.now }
    {
        let (front, rest) = bytes.split_at(bytes.len().min(PAGE - self.bytes.len()));
        self.bytes.extend_from_slice(front).unwrap();
        rest
    }

    // Writes what waits, unless a write failed before.
    fn write<O: Output>(&mut self, out: &mut O)
        ensures spelled { Spells O.contents O.has_failed out.old self.old out.new self.new [] }
        ensures empty { self.new.waiting ≡ [] }
    {
        if self.bytes.is_empty() {
            return;
        }
        if self.failed {
            self.bytes.clear();
            return;
        }
        match out.put(self.bytes.as_slice()) {
            Ok(()) => self.bytes.clear(),
            Err(_) => {
                self.failed = true;
                self.bytes.clear();
            }
        }
    }
}
