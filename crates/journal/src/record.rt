//! A record that is still to be appended.
ghost use Rattle.std.specs.Prelude.{◌≡◌, ◌<◌, ◌≤◌, ◌^◌, [], ◌∷◌, ◌++◌, length, OnOk, IfOk};
ghost use Rattle.journal.specs.Area.{frame, IsBody};
ghost use Rattle.journal.specs.BatchSpelling.{batch as spelled, batch_width, IsBatch};

use crate::batch::{batch_len, put_batch};
use crate::gate::CLOSED;
use revision::Taken;
use std::alloc::{AllocError, Global};
use std::marker::Model;

/// A body of 1 to 2^32 - 1 bytes, as it is written behind a gate: with its length in front, and a closed gate behind. Its value in
/// contracts is the body.
#[derive(Debug, Drop)]
pub struct Record {
    bytes: Vec<u8>,
}

impl Model for Record {
    ghost use Rattle.std.specs.Prelude.{ℕ, List};
    ghost use Rattle.journal.specs.Record.{body_of, IsRecord};

    ghost Value = { List ℕ };

    ghost view = { λ r. body_of r.bytes.items };

    ghost invariant = { λ r. IsRecord r.bytes.items };
}

impl Record {
    /// The record of a batch, spelled where it is written from: its bytes are copied once.
    pub fn of_batch(alloc: Global, batch: &[Taken]) -> Result<Record, AllocError>
        requires some { 1 ≤ length batch.now }
        requires short { length batch.now < 2 ^ 32 }
        requires body { batch_width batch.now < 2 ^ 32 }
        ensures spelled { IfOk result (λ r. r ≡ spelled batch.now) }
        ensures width { IfOk result (λ r. length r ≡ batch_width batch.now) }
        ensures batch { OnOk result (IsBatch batch.now) }
    {
        let len = batch_len(batch) as u32;
        let mut bytes = Vec::with_capacity(alloc, len as usize + 5)?;
        bytes.extend_from_slice(&len.to_le_bytes())?;
        put_batch(&mut bytes, batch)?;
        bytes.push(CLOSED)?;
        Ok(Record { bytes })
    }

    /// The record of a body, which is copied.
    pub fn of_body(alloc: Global, body: &[u8]) -> Result<Record, AllocError>
        requires some { 0 < length body.now }
        requires short { length body.now < 2 ^ 32 }
        ensures body { IfOk result (λ r. r ≡ body.now) }
    {
        let mut bytes = Vec::with_capacity(alloc, body.len() + 5)?;
        bytes.extend_from_slice(&(body.len() as u32).to_le_bytes())?;
        bytes.extend_from_slice(body)?;
        bytes.push(CLOSED)?;
        Ok(Record { bytes })
    }

    /// How many bytes the body has.
    pub fn body_len(&self) -> u64
        ensures len { result ≡ length self.now }
        ensures body { IsBody self.now }
    {
        self.bytes.len() as u64 - 5
    }

    // What stands behind the record's gate: the length, the body, and the closed gate of the next record.
    pub(crate) fn behind_gate(&self) -> &[u8]
        ensures { result.now ≡ frame self.now ++ 0 ∷ [] }
    {
        self.bytes.as_slice()
    }
}
