//! The superblock: the gate, the letters of the format, and the six numbers of the shape.
ghost use Rattle.std.specs.Prelude.{◌≡◌, ◌≢◌, ◌↔◌, ◌+◌, ◌≤◌, IsTrue, true, length, take, drop, IfOk, IfSome, IfNone};
ghost use Rattle.std.specs.Int.{w32, from_le_bytes};
ghost use Rattle.recovery.specs.Shape.{is_in_range, letters, superblock, superblock_in};
ghost use Rattle.recovery.specs.declared.shape.Shape.{Shape as ShapeValue};

use crate::shape::Shape;
use milestone::Format;
use std::alloc::{AllocError, Global};

/// How many letters stand behind the superblock's gate, for the format.
pub const LETTERS_LEN: usize = 8;

/// The letters of a format.
fn letters_of(format: Format) -> &'static [u8]
    ensures { result.now ≡ letters format }
{
    match format {
        Format::One => b"QDSTORE1",
        Format::Two => b"QDSTORE2",
    }
}

/// How many bytes the superblock has.
pub const SUPERBLOCK_LEN: u64 = 64;

/// How many bytes stand behind the superblock's gate.
pub const BODY_LEN: usize = 32;

/// The 32 bytes behind the superblock's gate, in the second format.
pub fn write_superblock(alloc: Global, shape: &Shape) -> Result<Vec<u8>, AllocError>
    ensures { IfOk result (λ v. v.items ≡ superblock shape.now) }
{
    let mut bytes = Vec::with_capacity(alloc, BODY_LEN)?;
    bytes.extend_from_slice(letters_of(Format::Two))?;
    bytes.extend_from_slice(&shape.slots.to_le_bytes())?;
    bytes.extend_from_slice(&shape.slot.to_le_bytes())?;
    bytes.extend_from_slice(&shape.docs.to_le_bytes())?;
    bytes.extend_from_slice(&shape.cell.to_le_bytes())?;
    bytes.extend_from_slice(&shape.sources.to_le_bytes())?;
    bytes.extend_from_slice(&shape.keep.to_le_bytes())?;
    Ok(bytes)
}

/// The shape that the 32 bytes behind the superblock's gate name in a format, where it is in range.
pub fn read_superblock(format: Format, bytes: &[u8]) -> Option<Shape>
    requires { length bytes.now ≡ 32 }
    ensures found { IfSome result (λ shape. (bytes.now ≡ superblock_in format shape) × (is_in_range shape ≡ true)) }
    ensures none { IfNone result ((shape : ShapeValue) → is_in_range shape ≡ true
        → bytes.now ≢ superblock_in format shape) }
{
    if !has_letters(format, bytes) {
        return None;
    }
    let shape = Shape {
        slots: number_at(bytes, 8),
        slot: number_at(bytes, 12),
        docs: number_at(bytes, 16),
        cell: number_at(bytes, 20),
        sources: number_at(bytes, 24),
        keep: number_at(bytes, 28),
    };
    if shape.is_in_range() {
        Some(shape)
    } else {
        None
    }
}

fn number_at(bytes: &[u8], at: usize) -> u32
    requires { at + 4 ≤ length bytes.now }
    ensures { result ≡ from_le_bytes w32 (take 4 (drop at bytes.now)) }
{
    u32::from_le_bytes([bytes[at], bytes[at + 1], bytes[at + 2], bytes[at + 3]])
}

/// Whether the bytes behind the superblock's gate begin with the letters of a format.
pub fn has_letters(format: Format, bytes: &[u8]) -> bool
    requires { 8 ≤ length bytes.now }
    ensures { IsTrue result ↔ (take 8 bytes.now ≡ letters format) }
{
    &bytes[..LETTERS_LEN] == letters_of(format)
}
