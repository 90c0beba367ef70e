//! Writing the body of a cell: each part of the spelling has one function.
ghost use Rattle.std.specs.Prelude.{◌≡◌, ◌++◌, ◌<◌, ◌^◌, length, OnOk, IfOk};
ghost use Rattle.std.specs.List.{flat_map};
ghost use Rattle.std.specs.Int.{w64};
ghost use Rattle.revision.specs.Sources.{count_of};
ghost use Rattle.journal.specs.Area.{frame};
ghost use Rattle.journal.specs.Spelling as fields;
ghost use Rattle.milestone.specs.CellSpelling as spelling;
ghost use Rattle.milestone.specs.CellSpelling.{IsCell, cell_body};
ghost use Rattle.milestone.specs.declared.format.Format.TheVariants.{Two};

use crate::milestone::Milestone;
use journal::{write_delta, write_number32, write_number64, write_text16};
use revision::{Name, Sources, Window};
use std::alloc::{AllocError, Global};

/// The byte behind a cell's revision where the document is deleted, and where it is live.
pub(crate) const DELETED: u8 = 0;

pub(crate) const LIVE: u8 = 1;

/// What stands behind the gate of a cell of the document of this number: the body's length in four bytes, and the body.
pub(crate) fn framed(
    alloc: Global,
    number: u32,
    milestone: &Milestone,
) -> Result<Vec<u8>, AllocError>
    requires is { IsCell number milestone.now }
    requires short { length (cell_body number milestone.now) < 2 ^ 32 }
    ensures bytes { IfOk result (λ v. v.items ≡ frame (cell_body number milestone.now)) }
{
    let body = body_of(alloc, number, milestone)?;
    let mut bytes = Vec::with_capacity(alloc, body.len() + 4)?;
    bytes.extend_from_slice(&(body.len() as u32).to_le_bytes())?;
    bytes.extend_from_slice(&body)?;
    Ok(bytes)
}

/// The body of a cell of the document of this number.
#[tactic(auto, unfolding(crate::specs::CellSpelling::cell_body_in))]
fn body_of(alloc: Global, number: u32, milestone: &Milestone) -> Result<Vec<u8>, AllocError>
    requires { IsCell number milestone.now }
    ensures bytes { IfOk result (λ v. v.items ≡ cell_body number milestone.now) }
{
    let mut out = Vec::new(alloc);
    let content = milestone.document().as_delta(alloc)?;
    write_number32(&mut out, number)?;
    write_name(&mut out, milestone.name())?;
    write_number64(&mut out, milestone.revision())?;
    out.push(mark(milestone.is_live()))?;
    write_delta(&mut out, &content)?;
    write_sources(&mut out, milestone.sources())?;
    Ok(out)
}

fn mark(live: bool) -> u8
    ensures { result ≡ spelling.mark_byte live }
{
    if live { LIVE } else { DELETED }
}

fn write_name(out: &mut Vec<u8>, name: &Name) -> Result<(), AllocError>
    ensures { OnOk result (out.new.items ≡ out.old.items ++ fields.text16 name.now) }
{
    // a name has at most 64 bytes
    name.facts();
    write_text16(out, name.as_str())?;
    Ok(())
}

#[tactic(auto, unfolding(crate::specs::CellSpelling::sources))]
fn write_sources(out: &mut Vec<u8>, sources: &Sources) -> Result<(), AllocError>
    requires { count_of sources.now < 2 ^ 32 }
    ensures { OnOk result (out.new.items ≡ out.old.items ++ spelling.sources Two sources.now.entries) }
{
    let entries = sources.entries();
    write_number32(out, entries.len() as u32)?;
    for entry in entries {
        write_source(out, entry)?;
    }
    Ok(())
}

#[tactic(auto, unfolding(crate::specs::CellSpelling::source))]
fn write_source(out: &mut Vec<u8>, entry: &(Name, Window)) -> Result<(), AllocError>
    ensures { OnOk result (out.new.items ≡ out.old.items ++ spelling.source Two entry.now) }
{
    write_name(out, &entry.0)?;
    write_window(out, &entry.1)
}

#[tactic(auto, unfolding(crate::specs::CellSpelling::window))]
fn write_window(out: &mut Vec<u8>, window: &Window) -> Result<(), AllocError>
    ensures { OnOk result (out.new.items ≡ out.old.items ++ spelling.window Two window.now) }
{
    write_number64(out, window.number())?;
    let revisions = window.revisions();
    out.push(revisions.len() as u8)?;
    write_numbers(out, revisions)
}

fn write_numbers(out: &mut Vec<u8>, numbers: &[u64]) -> Result<(), AllocError>
    ensures { OnOk result (out.new.items ≡ out.old.items ++ flat_map (fields.number w64) numbers.now) }
{
    for number in numbers {
        write_number64(out, *number)?;
    }
    Ok(())
}
