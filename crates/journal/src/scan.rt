//! Reading back the records of an area.
ghost use Rattle.std.specs.Prelude.{◌≡◌, ◌+◌, ◌^◌, ◌<◌, ◌≤◌, ℕ, List, [], ◌∷◌, ◌++◌, length, take, drop, OnOk, IfOk, IfErr};
ghost use Rattle.disk.specs.Calls.{HasOnlyRead, CountsFaultsAs};
ghost use Rattle.journal.specs.Area.{HoldsBodies, Stands};
ghost use Rattle.journal.specs.Scan.{items_of};
ghost use Rattle.journal.specs.steps.Scanning.{IsFront, IsNoFront};
ghost use Rattle.journal.specs.declared.scan.ScanError.TheVariants.{NoMemory, Fault};

use crate::area::Area;
use crate::gate::OPEN;
use crate::pending::Pending;
use disk::Disk;
use refusal::Refusal;
use std::alloc::{AllocError, AllocFailed, Global};
use thiserror::Error;

// How many bytes of an area are read at once.
const PIECE: u64 = 1 << 16;

/// Why an area could not be read back.
#[derive(Clone, Copy, Debug, PartialEq, Eq, Error)]
pub enum ScanError {
    /// Its bytes hold no list of records: a record's length is 0 or passes the area's end.
    #[error("the area is damaged")]
    Damaged,
    /// Memory ran out.
    #[error("out of memory")]
    NoMemory,
    /// A call of the device failed.
    #[error("a call of the device failed")]
    Fault,
}

impl From<AllocError> for ScanError {
    ghost from_gives = { λ _ e. e ≡ NoMemory };

    fn from(_: AllocError) -> Self {
        ScanError::NoMemory
    }
}

impl<T: Drop> From<AllocFailed<T>> for ScanError {
    ghost from_gives = { λ _ e. e ≡ NoMemory };

    fn from(_: AllocFailed<T>) -> Self {
        ScanError::NoMemory
    }
}

impl From<disk::Fault> for ScanError {
    ghost from_gives = { λ _ e. e ≡ Fault };

    fn from(_: disk::Fault) -> Self {
        ScanError::Fault
    }
}

impl From<ScanError> for Refusal {
    ghost use Rattle.journal.specs.Refusals.{refusal_of_scan};

    ghost from_gives = { λ e refusal. refusal ≡ refusal_of_scan e };

    fn from(error: ScanError) -> Self {
        match error {
            ScanError::Damaged => Refusal::Damaged,
            ScanError::NoMemory => Refusal::NoMemory,
            ScanError::Fault => Refusal::Fault,
        }
    }
}

/// What stands at the front of what was read of an area.
enum Front<'a> {
    /// An open record with this body.
    Record(&'a [u8]),
    /// A closed gate.
    Closed,
    /// Less than a whole record: more bytes have to be read.
    Short,
}

// What stands at the front of these bytes. They are the next ones of an area that has `left` bytes from there on.
fn front_of(bytes: &[u8], left: u64) -> Result<Front<'_>, ScanError>
    requires some { 0 < left }
    requires within { length bytes.now ≤ left }
    ensures front { IfOk result (IsFront bytes.now left) }
    ensures damaged { IfErr result (λ e. (e ≡ ScanError.Damaged) × IsNoFront bytes.now left) }
{
    match bytes {
        [] => Ok(Front::Short),
        [gate, ..] if *gate != OPEN => Ok(Front::Closed),
        [_, a, b, c, d, rest @ ..] => {
            let len = u32::from_le_bytes([*a, *b, *c, *d]);
            if len == 0 || left < 6 + u64::from(len) {
                return Err(ScanError::Damaged);
            }
            match rest.get(..len as usize) {
                Some(body) => Ok(Front::Record(body)),
                None => Ok(Front::Short),
            }
        }
        [_, ..] => {
            if left < 5 {
                return Err(ScanError::Damaged);
            }
            Ok(Front::Short)
        }
    }
}

// How many bytes the next piece has, where so many of the area are left.
fn piece_of(left: u64) -> u64
    ensures within { result ≤ left }
    ensures short { result ≤ 65536 }
    ensures some { 0 < left → 0 < result }
{
    left.min(PIECE)
}

// Keeps a body behind the others.
fn push_body(alloc: Global, bodies: &mut Vec<Vec<u8>>, body: &[u8]) -> Result<(), ScanError>
    ensures pushed { OnOk result (items_of bodies.new.items ≡ items_of bodies.old.items ++ body.now ∷ []) }
    ensures only { IfErr result (λ e. e ≡ ScanError.NoMemory) }
{
    bodies.push(Vec::from_slice(alloc, body)?)?;
    Ok(())
}

/// What was found in an area: the bodies of its open records in order.
#[derive(Drop)]
pub struct Scan {
    /// The area, at the place where its next record's gate stands.
    pub area: Area,
    /// The bodies, in the order of their places.
    pub bodies: Vec<Vec<u8>>,
}

impl Area {
    /// Reads an area of `size` bytes from `at` on: the bodies of the open records in order, and the place of the next
    /// gate. `Damaged` comes exactly when the bytes hold no list of records. The device stays as it is.
    ///
    /// Each byte is read once at most, in pieces of at most 65,536 bytes, up to the one with the first closed gate.
    /// Beside the bodies no more is held at a time than a piece and what was read before it of one record.
    pub fn scan<D: Disk>(alloc: Global, disk: &mut D, at: u64, size: u64) -> Result<Scan, ScanError>
        requires at { at < 2 ^ 62 }
        requires some { 0 < size }
        requires size { size < 2 ^ 32 }
        requires within { at + size ≤ length (D.seen disk.old) }

        ensures found { IfOk result (λ s. D.honest disk.new
            → Stands (D.seen disk.old) s.area (items_of s.bodies.items)) }
        ensures place { IfOk result (λ s. (s.area.at ≡ at) × (s.area.size ≡ size)) }
        ensures damaged { IfErr result (λ e. e ≡ ScanError.Damaged → D.honest disk.new
            → (bodies : List (List ℕ)) → ¬ HoldsBodies bodies (take size (drop at (D.seen disk.old)))) }

        ensures only_read { HasOnlyRead ⟦<D as Disk>⟧ disk.old disk.new }
        ensures faults { CountsFaultsAs ⟦<D as Disk>⟧ ScanError.Fault result disk.old disk.new }
    {
        let mut pending = Pending::new(alloc);
        let mut bodies = Vec::new(alloc);
        let mut next = 0;
        loop {
            match front_of(pending.bytes(), size - next)? {
                Front::Record(body) => {
                    let len = 5 + body.len();
                    push_body(alloc, &mut bodies, body)?;
                    pending.pass(len);
                    next += len as u64;
                }
                Front::Closed => {
                    let area = Area::at_record(at, size, next);
                    return Ok(Scan { area, bodies });
                }
                Front::Short => {
                    let read = next + pending.bytes().len() as u64;
                    pending.read_on(disk, at + read, piece_of(size - read))?;
                }
            }
        }
    }
}
