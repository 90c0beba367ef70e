//! The files of stores: one is opened, or made, or the program ends with what kept it from that.
ghost use Rattle.std.specs.Prelude.{◌≡◌, ◌⊎◌, [], ◌∷◌, true, false, Ok, OnOk, OnErr, IfOk, IfSome, IfNone};
ghost use Rattle.server.specs.Calls.{Found, Missed, Unseen, Opened, FailedOpening, Made, FailedMaking, Removed, IsUnmade, IsMissed, IsClosed, IsUnwritten, IsRead, IsKept};
ghost use Rattle.server.specs.Devices.{IsOpenedAnew};

use crate::calls::Calls;
use crate::ended::ProgramEnd;
use crate::reserving::write_zeros;
use disk::{Disk, Fault, FileDisk, FileError, Tried};
use recovery::{OpenFault, Pick, Shape, Store};
use refusal::Refusal;
use std::alloc::Global;
use std::io;

/// A device for a store of this shape. A file that is there is used as it is, a missing one is made, and written whole where room is to be
/// reserved.
pub(crate) fn disk_for<'a, C: Calls>(
    calls: &mut C,
    path: &'a str,
    shape: Shape,
    reserve: bool,
) -> Result<FileDisk, ProgramEnd<'a>>
    ensures kept { OnOk result (IsKept path.now (C.made calls.old) (C.made calls.new)) }
    ensures missed { OnErr result (IsMissed path.now (C.made calls.old) (C.made calls.new)) }
    // A store that is there isn't written to here.
    ensures untouched { IfOk result (λ disk. C.made calls.new ≡ Opened path.now ∷ Found path.now ∷ C.made calls.old
        → ⟦<FileDisk as Disk>⟧.past disk ≡ []) }
{
    match file_there(calls, path)? {
        Some(disk) => Ok(disk),
        None => make_for(calls, path, shape, reserve),
    }
}

/// A device over a file, where that is there.
pub(crate) fn file_there<'a, C: Calls>(
    calls: &mut C,
    path: &'a str,
) -> Result<Option<FileDisk>, ProgramEnd<'a>>
    ensures there { IfOk result (λ found. IfSome found (λ _. C.made calls.new ≡ Opened path.now ∷ Found path.now ∷ C.made calls.old)) }
    ensures missing { IfOk result (λ found. IfNone found (C.made calls.new ≡ Missed path.now ∷ C.made calls.old)) }
    ensures untouched { IfOk result (λ found. IfSome found (λ disk. ⟦<FileDisk as Disk>⟧.past disk ≡ [])) }
    ensures failed { OnErr result ((C.made calls.new ≡ Unseen path.now ∷ C.made calls.old)
        ⊎ (C.made calls.new ≡ FailedOpening path.now ∷ Found path.now ∷ C.made calls.old)) }
{
    if is_there(calls, path)? {
        Ok(Some(open_file(calls, path)?))
    } else {
        Ok(None)
    }
}

/// A device of zeros over a new file, as long as the layout of a store of this shape. Where room is to be reserved for it, the file is written
/// whole.
pub(crate) fn make_for<'a, C: Calls>(
    calls: &mut C,
    path: &'a str,
    shape: Shape,
    reserve: bool,
) -> Result<FileDisk, ProgramEnd<'a>>
    ensures kept { OnOk result (C.made calls.new ≡ Made path.now ∷ C.made calls.old) }
    ensures unmade { OnErr result (IsUnmade path.now (C.made calls.old) (C.made calls.new)) }
{
    if !shape.is_in_range() {
        return Err(ProgramEnd::Refused(Refusal::BadShape, None));
    }
    let disk = make_file(calls, path, shape.device_len())?;
    if reserve {
        reserved(calls, path, disk)
    } else {
        Ok(disk)
    }
}

// A device over a new file, once the disk has room for all of it. Where that fails no file is left.
fn reserved<'a, C: Calls>(
    calls: &mut C,
    path: &'a str,
    disk: FileDisk,
) -> Result<FileDisk, ProgramEnd<'a>>
    ensures good { OnOk result (C.made calls.new ≡ C.made calls.old) }
    ensures failed { OnErr result (C.made calls.new ≡ Removed path.now ∷ C.made calls.old) }
{
    let mut disk = disk;
    match write_zeros(&mut disk) {
        Ok(()) => Ok(disk),
        Err(Fault) => {
            calls.remove(path);
            Err(ProgramEnd::over(path, &disk, Refusal::Fault))
        }
    }
}

// Whether a file is there.
fn is_there<'a, C: Calls>(calls: &mut C, path: &'a str) -> Result<bool, ProgramEnd<'a>>
    ensures there { result ≡ Ok true → C.made calls.new ≡ Found path.now ∷ C.made calls.old }
    ensures missing { result ≡ Ok false → C.made calls.new ≡ Missed path.now ∷ C.made calls.old }
    ensures failed { OnErr result (C.made calls.new ≡ Unseen path.now ∷ C.made calls.old) }
{
    match calls.is_there(path) {
        Ok(is_there) => Ok(is_there),
        Err(reason) => Err(without(Tried::Opening, path, reason)),
    }
}

/// A device over a file that is there.
pub(crate) fn open_file<'a, C: Calls>(
    calls: &mut C,
    path: &'a str,
) -> Result<FileDisk, ProgramEnd<'a>>
    ensures good { OnOk result (C.made calls.new ≡ Opened path.now ∷ C.made calls.old) }
    ensures untouched { IfOk result (λ disk. ⟦<FileDisk as Disk>⟧.past disk ≡ []) }
    ensures failed { OnErr result (C.made calls.new ≡ FailedOpening path.now ∷ C.made calls.old) }
{
    match calls.open(path) {
        Ok(disk) => Ok(disk),
        Err(fault) => Err(failed(path, fault)),
    }
}

/// A device of so many zeros over a new file.
pub(crate) fn make_file<'a, C: Calls>(
    calls: &mut C,
    path: &'a str,
    len: u64,
) -> Result<FileDisk, ProgramEnd<'a>>
    ensures good { OnOk result (C.made calls.new ≡ Made path.now ∷ C.made calls.old) }
    ensures failed { OnErr result (C.made calls.new ≡ FailedMaking path.now ∷ C.made calls.old) }
{
    match calls.make(path, len) {
        Ok(disk) => Ok(disk),
        Err(fault) => Err(failed(path, fault)),
    }
}

// A file can't be had, for this fault.
fn failed(path: &str, fault: FileError) -> ProgramEnd<'_> {
    without(fault.tried, path, fault.reason)
}

/// A file can't be had.
pub(crate) fn without(tried: Tried, path: &str, reason: io::Error) -> ProgramEnd<'_> {
    ProgramEnd::fault(tried.name(), path, reason)
}

/// The store in a file. Where there is none the file is closed, and nothing was written to it.
pub(crate) fn open_store<'a, C: Calls>(
    alloc: Global,
    calls: &mut C,
    path: &'a str,
    pick: Pick,
) -> Result<Store<FileDisk>, ProgramEnd<'a>>
    ensures good { OnOk result (C.made calls.new ≡ Opened path.now ∷ C.made calls.old) }
    ensures from { IfOk result (λ store. IsOpenedAnew ⟦<FileDisk as Disk>⟧ pick store) }
    ensures refused { OnErr result (IsRead IsUnwritten path.now (C.made calls.old) (C.made calls.new)) }
{
    let disk = open_file(calls, path)?;
    match Store::open(alloc, disk, pick) {
        Ok(store) => Ok(store),
        Err(OpenFault { disk, refusal }) => {
            let ended = ProgramEnd::over(path, &disk, refusal);
            calls.close(path, disk);
            Err(ended)
        }
    }
}
