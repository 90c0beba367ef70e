//! Writing: each part of the spelling has one function.
ghost use Rattle.std.specs.Prelude.{◌≡◌, ◌-◌, ◌≤◌, ◌<◌, ◌^◌, ◌++◌, length, min, option_map, All, OnOk, IfOk};
ghost use Rattle.std.specs.Int.{w16, w32, w64};
ghost use Rattle.revision.specs.Command.{IsTaken, IsDeltaOf};
ghost use Rattle.journal.specs.Spelling as spelling;
ghost use Rattle.journal.specs.BatchSpelling as batches;

mod operations;
mod pairs;
mod values;

use delta::Delta;
pub use operations::write_delta;
pub(super) use pairs::put_text16;
use revision::{Name, Step, Taken};
use std::alloc::{AllocError, Global};

/// How many bytes a batch takes in the journal, 2^64 - 1 where it would be more. It takes no memory.
pub fn batch_len(batch: &[Taken]) -> u64
    ensures len { result ≡ min (batches.batch_width batch.now) (2 ^ 64 - 1) }
    ensures taken { All IsTaken batch.now }
{
    let mut len: u64 = 4;
    for taken in batch {
        len = len.saturating_add(taken.width());
    }
    len
}

/// The spelling of a batch of 1 to 2^32 - 1 commands.
pub fn encode_batch(alloc: Global, batch: &[Taken]) -> Result<Vec<u8>, AllocError>
    requires some { 1 ≤ length batch.now }
    requires short { length batch.now < 2 ^ 32 }
    ensures spelled { IfOk result (λ v. v.items ≡ batches.batch batch.now) }
    ensures width { IfOk result (λ v. length v.items ≡ batches.batch_width batch.now) }
    ensures batch { OnOk result (batches.IsBatch batch.now) }
{
    let mut out = Vec::new(alloc);
    put_batch(&mut out, batch)?;
    Ok(out)
}

// Puts the spelling of a batch behind what is there.
pub(crate) fn put_batch(out: &mut Vec<u8>, batch: &[Taken]) -> Result<(), AllocError>
    requires some { 1 ≤ length batch.now }
    requires short { length batch.now < 2 ^ 32 }
    ensures spelled { OnOk result (out.new.items ≡ out.old.items ++ batches.batch batch.now) }
    ensures batch { OnOk result (batches.IsBatch batch.now) }
{
    put_number32(out, batch.len() as u32)?;
    for taken in batch {
        put_entry(out, taken)?;
    }
    Ok(())
}

#[tactic(auto, unfolding(crate::specs::BatchSpelling::entry))]
fn put_entry(out: &mut Vec<u8>, taken: &Taken) -> Result<(), AllocError>
    ensures spelled { OnOk result (out.new.items ≡ out.old.items ++ batches.entry taken.now) }
    ensures taken { OnOk result (IsTaken taken.now) }
{
    out.push(tag(taken.name(), taken.step()))?;
    put_number32(out, taken.document_number())?;
    put_number64(out, taken.revision())?;
    put_name(out, taken.source())?;
    put_number64(out, taken.number())?;
    put_created_name(out, taken.name())?;
    put_step_delta(out, taken.step(), taken.delta())?;
    Ok(())
}

fn tag(name: Option<&Name>, step: Step) -> u8
    ensures { result ≡ batches.entry_tag (option_map (λ n. n.now) name.entry) step }
{
    match name {
        Some(_) => 1,
        None => match step {
            Step::Edits => 2,
            Step::Deletes => 3,
            Step::Revives => 4,
        },
    }
}

// the delta, which a deletion doesn't have
#[tactic(auto, unfolding(crate::specs::BatchSpelling::step_delta))]
fn put_step_delta(out: &mut Vec<u8>, step: Step, delta: &Delta) -> Result<(), AllocError>
    requires { IsDeltaOf step delta.now }
    ensures { OnOk result (out.new.items ≡ out.old.items ++ batches.step_delta step delta.now) }
{
    match step {
        Step::Edits => write_delta(out, delta),
        Step::Deletes => Ok(()),
        Step::Revives => write_delta(out, delta),
    }
}

#[tactic(auto, unfolding(crate::specs::BatchSpelling::created_name))]
fn put_created_name(out: &mut Vec<u8>, name: Option<&Name>) -> Result<(), AllocError>
    ensures { OnOk result
        (out.new.items ≡ out.old.items ++ batches.created_name (option_map (λ n. n.now) name.entry)) }
{
    match name {
        Some(name) => put_name(out, name),
        None => Ok(()),
    }
}

#[tactic(auto, unfolding(crate::specs::Spelling::text16))]
fn put_name(out: &mut Vec<u8>, name: &Name) -> Result<(), AllocError>
    ensures { OnOk result (out.new.items ≡ out.old.items ++ spelling.text16 name.now) }
{
    put_number16(out, name.len() as u16)?;
    out.extend_from_slice(name.as_str().as_bytes())?;
    Ok(())
}

#[tactic(auto, unfolding(crate::specs::Spelling::text32))]
fn put_text32(out: &mut Vec<u8>, text: &str) -> Result<(), AllocError>
    requires { length text.now < 2 ^ 32 }
    ensures { OnOk result (out.new.items ≡ out.old.items ++ spelling.text32 text.now) }
{
    put_number32(out, text.len() as u32)?;
    out.extend_from_slice(text.as_bytes())?;
    Ok(())
}

#[tactic(auto, unfolding(crate::specs::Spelling::number))]
fn put_number16(out: &mut Vec<u8>, n: u16) -> Result<(), AllocError>
    ensures { OnOk result (out.new.items ≡ out.old.items ++ spelling.number w16 n) }
{
    out.extend_from_slice(&n.to_le_bytes())
}

#[tactic(auto, unfolding(crate::specs::Spelling::number))]
pub(crate) fn put_number32(out: &mut Vec<u8>, n: u32) -> Result<(), AllocError>
    ensures { OnOk result (out.new.items ≡ out.old.items ++ spelling.number w32 n) }
{
    out.extend_from_slice(&n.to_le_bytes())
}

#[tactic(auto, unfolding(crate::specs::Spelling::number))]
pub(super) fn put_number64(out: &mut Vec<u8>, n: u64) -> Result<(), AllocError>
    ensures { OnOk result (out.new.items ≡ out.old.items ++ spelling.number w64 n) }
{
    out.extend_from_slice(&n.to_le_bytes())
}
