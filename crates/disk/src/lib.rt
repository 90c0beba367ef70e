//! Devices of bytes whose unsynced ranges may hold anything after a crash.
//!
//! The crate promises to the layers above what each call of a device leaves, and which contents a crash at any moment may
//! leave: `Disk` is the trait, `MemDisk` a device in memory, `FaultDisk` one that fails or stops by plan, `FileDisk` one
//! over a file. The definitions stand in specs/Device.antt and specs/Crash.antt; `laws` has what follows from them. It
//! stands on `refusal`.
//!
//! A caller, with its contract, which is proved as it stands:
//!
//! ```text
//! ghost use Rattle.std.specs.Prelude.{◌≡◌, ◌+◌, ◌≤◌, [], length, OnOk};
//! ghost use Rattle.disk.specs.Device.{overwritten};
//!
//! use disk::{Disk, Fault};
//!
//! /// Puts bytes onto a device so that they last.
//! pub fn put<D: Disk>(disk: &mut D, at: u64, bytes: &[u8]) -> Result<(), Fault>
//!     requires { at + length bytes.now ≤ length (D.seen disk.old) }
//!     ensures seen { OnOk result (D.seen disk.new ≡ overwritten (D.seen disk.old) at bytes.now) }
//!     ensures synced { OnOk result (D.unsynced disk.new ≡ []) }
//! {
//!     disk.write_at(at, bytes)?;
//!     disk.sync()
//! }
//! ```
#![tactic(auto)]

mod device;
mod faults;
mod file;
pub mod laws;
mod memory;
mod raw;
mod record;
mod tried;

pub use device::{Disk, Fault};
pub use faults::{FaultDisk, FaultPlan, Left};
pub use file::FileDisk;
pub use memory::{Call, MemDisk};
pub use tried::{FileError, Tried};
