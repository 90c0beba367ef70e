//! What a peer is sent.
ghost use Rattle.std.specs.Prelude.{◌≡◌, ◌≤◌, ◌<◌, ◌++◌, ℕ, List, [], true, false, Some, None, length, take, is_some, vec_len, vec_capacity, OnOk, OnErr, IfOk, IfErr, IsErr};
ghost use Rattle.std.specs.Option.{ForSome};
ghost use Rattle.sockets.specs.Socket.{bytes_of};
ghost use Rattle.sockets.specs.Ends.{ends_in_write, was_closed};
ghost use Rattle.sockets.specs.Host.{number_written, writes_of};

use crate::hall::Hall;
use crate::parting::Parting;
use crate::raw::{HostWriter, Put};
use crate::talk::Talk;
use session::{Output, WriteError};
use std::alloc::Global;
use std::marker::PhantomData;

/// So many bytes are held back at most.
const HELD: usize = 8192;

/// So many writes wait for a peer that doesn't read. It fails where none of them took a byte.
const WRITE_WAITS: u32 = 50;

/// What the peer of a conversation is sent: it is held back until it fills a piece or is sent on. A write waits for a peer that doesn't read, until the hall ends
/// or its waits are over.
#[derive(Drop)]
pub struct Outgoing<'h, T: Talk> {
    writer: HostWriter,
    hall: &'h Hall,
    held: Vec<u8>,
    /// So many of the bytes that are held back are written.
    sent: usize,
    /// Why a write failed, where one did.
    cut: Option<Parting<'h>>,
    of: PhantomData<T>,
    ghost connection: { number_written writer ≡ T.connection },
    ghost name: { hall.now.ended.id ≡ T.hall },
    ghost unshut: { was_closed (writes_of writer) ≡ false },
    ghost within: { sent ≤ length held.items },
    ghost few: { length held.items ≤ 8192 },
    ghost room: { 8192 ≤ vec_capacity held },
    ghost why: { ForSome cut (λ why. ends_in_write T.hall why (writes_of writer) ≡ true) },
}

impl<'h, T: Talk> Outgoing<'h, T> {
    ghost use Rattle.sockets.specs.Outgoing.{contents_of};

    /// Nothing is sent yet. Refused out of memory alone, with the writer.
    pub fn new(
        alloc: Global,
        writer: HostWriter,
        hall: &'h Hall,
    ) -> Result<Outgoing<'h, T>, HostWriter>
        requires connection { number_written writer ≡ T.connection }
        requires name { hall.now.ended.id ≡ T.hall }
        requires unshut { was_closed (writes_of writer) ≡ false }
        ensures contents { IfOk result (λ output. contents_of output ≡ bytes_of (writes_of writer)) }
        ensures works { IfOk result (λ output. output.cut ≡ None) }
        ensures refused { IfErr result (λ back. back ≡ writer) }
    {
        let Ok(held) = Vec::with_capacity(alloc, HELD) else {
            return Err(writer);
        };
        Ok(Outgoing {
            writer,
            hall,
            held,
            sent: 0,
            cut: None,
            of: PhantomData,
        })
    }

    /// Sends on what is held back, and gives the writer back; with why, where a write failed.
    pub fn finish(self) -> Result<HostWriter, (HostWriter, Parting<'h>)>
        ensures whole { IfOk result (λ writer. bytes_of (writes_of writer) ≡ contents_of self.entry) }
        ensures works { OnOk result (self.entry.cut ≡ None) }
        ensures part { IfErr result (λ cut. (rest : List ℕ) × (contents_of self.entry ≡ bytes_of (writes_of cut.0) ++ rest)) }
        ensures why { IfErr result (λ cut. ends_in_write T.hall cut.1 (writes_of cut.0) ≡ true) }
        ensures connection { IfOk result (λ writer. number_written writer ≡ T.connection) }
        ensures cut_off { IfErr result (λ cut. number_written cut.0 ≡ T.connection) }
        ensures unshut { IfOk result (λ writer. was_closed (writes_of writer) ≡ false) }
        ensures cut_unshut { IfErr result (λ cut. was_closed (writes_of cut.0) ≡ false) }
    {
        let mut output = self;
        let _ = output.send();
        let Outgoing {
            writer,
            hall: _,
            held: _,
            sent: _,
            cut,
            of: _,
        } = output;
        match cut {
            None => Ok(writer),
            Some(why) => Err((writer, why)),
        }
    }

    // Writes all that is held back, where no write has failed.
    fn send(&mut self) -> Result<(), WriteError>
        ensures kept { contents_of self.new ≡ contents_of self.old }
        ensures sent { OnOk result ((self.new.held.items ≡ []) × (self.new.cut ≡ None)) }
        ensures works { OnOk result (self.old.cut ≡ None) }
        ensures failed { OnErr result (is_some self.new.cut ≡ true) }
    {
        if self.cut.is_some() {
            return Err(WriteError);
        }
        while self.sent < self.held.len() {
            match write_some(&mut self.writer, self.hall, &self.held[self.sent..]) {
                Ok(count) => self.sent += count,
                Err(why) => {
                    self.cut = Some(why);
                    return Err(WriteError);
                }
            }
        }
        self.held.clear();
        self.sent = 0;
        Ok(())
    }

    // Holds back as many of the bytes as there is room for. Where there is none, what was held is written before.
    fn hold_some(&mut self, bytes: &[u8]) -> Result<usize, WriteError>
        requires works { self.old.cut ≡ None }
        requires some { 1 ≤ length bytes.now }
        ensures within { IfOk result (λ count. (1 ≤ count) × (count ≤ length bytes.now)) }
        ensures held { IfOk result (λ count. contents_of self.new ≡ contents_of self.old ++ take count bytes.now) }
        ensures works { OnOk result (self.new.cut ≡ None) }
        ensures kept { OnErr result (contents_of self.new ≡ contents_of self.old) }
        ensures failed { OnErr result (is_some self.new.cut ≡ true) }
    {
        if self.held.len() == HELD {
            self.send()?;
        }
        let count = fitting(bytes.len(), HELD - self.held.len());
        let Ok(()) = self.held.extend_from_slice(&bytes[..count]) else {
            unreachable!()
        };
        Ok(count)
    }
}

impl<T: Talk> Output for Outgoing<'_, T> {
    ghost use Rattle.sockets.specs.Outgoing.{contents_of};

    ghost contents = { λ output. Some (contents_of output) };

    ghost has_failed = { λ output. is_some output.cut };

    fn put(&mut self, bytes: &[u8]) -> Result<(), WriteError> {
        if self.cut.is_some() {
            return Err(WriteError);
        }
        let mut rest = bytes;
        while !rest.is_empty() {
            let count = self.hold_some(rest)?;
            rest = &rest[count..];
        }
        Ok(())
    }

    fn flush(&mut self) -> Result<(), WriteError> {
        self.send()
    }
}

// The smaller of both.
fn fitting(count: usize, room: usize) -> usize
    ensures within { (result ≤ count) × (result ≤ room) }
    ensures some { 1 ≤ count → 1 ≤ room → 1 ≤ result }
{
    if count < room { count } else { room }
}

// Makes a write that takes some of the bytes, after as many as wait for the peer in vain.
fn write_some<'h>(
    writer: &mut HostWriter,
    hall: &'h Hall,
    bytes: &[u8],
) -> Result<usize, Parting<'h>>
    requires { 1 ≤ length bytes.now }
    ensures within { IfOk result (λ count. (1 ≤ count) × (count ≤ length bytes.now)) }
    ensures written { IfOk result (λ count. bytes_of (writes_of writer.new) ≡ bytes_of (writes_of writer.old) ++ take count bytes.now) }
    ensures why { IfErr result (λ why. ends_in_write hall.now.ended.id why (writes_of writer.new) ≡ true) }
    ensures same { number_written writer.new ≡ number_written writer.old }
    ensures unshut { was_closed (writes_of writer.new) ≡ was_closed (writes_of writer.old) }
    ensures none { OnErr result (bytes_of (writes_of writer.new) ≡ bytes_of (writes_of writer.old)) }
{
    for _ in 0..WRITE_WAITS {
        match writer.write(bytes) {
            Put::Bytes(count) => return Ok(count),
            Put::Failed => return Err(Parting::WriteFailed),
            Put::Nothing => {
                if let Some(token) = hall.ended() {
                    return Err(Parting::Over(token));
                }
            }
        }
    }
    Err(Parting::Slow)
}
