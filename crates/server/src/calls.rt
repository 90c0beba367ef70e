//! The calls of the system by which the files of stores are had, and by which an address is, noted with their answers.
//!
//! **What is not proved**: that each method of `HostCalls` makes the calls of the system that its note describes. So the few lines of
//! `HostCalls` are to be read, and those that it calls for this in other crates: `FileDisk::open` and `create` of disk, `Addresses::listen` of
//! sockets. No other function of the program names a file or an address, but `Standard` the null device.
//!
//! A file is closed by `close`, whose note has the device's past since it was opened: a command's clauses say of that past what was done, so a
//! device in another's place meets them only where it went through the same. `leave` closes a listener likewise, with who came. That a device is
//! closed under the name by which it was opened is not in its clauses: a command's other file could be meant.
ghost use Rattle.std.specs.Prelude.{◌≡◌, ◌∷◌, [], List, Ok, true, false, IfOk, OnOk, OnErr};
ghost use Rattle.disk.specs.Crash.{history_of};
ghost use Rattle.server.specs.Calls.{Call, Found, Missed, Unseen, Opened, FailedOpening, Made, FailedMaking, Closed, Removed, Listened, FailedListening, Left};
ghost use Rattle.sockets.specs.Host.{arrivals_of};

use crate::notes::Notes;
use crate::standard::Standard;
use disk::{Disk, FileDisk, FileError};
use sockets::{Addresses, HostListener};
use std::fs::{self, File, Permissions};
use std::io;
use std::net::SocketAddr;
use std::os::unix::fs::PermissionsExt;
use std::rt::Files;

/// What the owner of a file may do, who reads and writes it, and nobody else may.
const OWNER_ALONE: u32 = 0o600;

const FOUND: u64 = 0;

const MISSED: u64 = 1;

const UNSEEN: u64 = 2;

const OPENED: u64 = 3;

const FAILED_OPENING: u64 = 4;

const MADE: u64 = 5;

const FAILED_MAKING: u64 = 6;

const REMOVED: u64 = 7;

const LISTENED: u64 = 8;

const FAILED_LISTENING: u64 = 9;

/// The system, as it is asked for files and addresses.
pub(crate) trait Calls {
    /// The calls that were made, newest first.
    ghost made: { Self → List Call };

    /// The null device in the place of each standard stream that is closed. No file of a store is asked for.
    fn complete(&mut self) -> io::Result<Standard>
        ensures { made self.new ≡ made self.old };

    /// Whether a file is there.
    fn is_there(&mut self, path: &str) -> io::Result<bool>
        ensures there { result ≡ Ok true → made self.new ≡ Found path.now ∷ made self.old }
        ensures missing { result ≡ Ok false → made self.new ≡ Missed path.now ∷ made self.old }
        ensures failed { OnErr result (made self.new ≡ Unseen path.now ∷ made self.old) };

    /// A device over a file that is there, which is locked. A missing one isn't made.
    fn open(&mut self, path: &str) -> Result<FileDisk, FileError>
        ensures good { OnOk result (made self.new ≡ Opened path.now ∷ made self.old) }
        ensures untouched { IfOk result (λ disk. ⟦<FileDisk as Disk>⟧.past disk ≡ []) }
        ensures failed { OnErr result (made self.new ≡ FailedOpening path.now ∷ made self.old) };

    /// A device of so many zeros over a new file, which is locked, and its owner's alone where the file system has rights. One that is there
    /// isn't touched, and the call fails.
    fn make(&mut self, path: &str, len: u64) -> Result<FileDisk, FileError>
        ensures good { OnOk result (made self.new ≡ Made path.now ∷ made self.old) }
        ensures failed { OnErr result (made self.new ≡ FailedMaking path.now ∷ made self.old) };

    /// Closes a file, and notes what its device tells: each state since it was opened or made.
    fn close(&mut self, path: &str, disk: FileDisk)
        ensures { made self.new ≡ Closed path.now (history_of ⟦<FileDisk as Disk>⟧ disk) ∷ made self.old };

    /// Removes a file, where that can be done.
    fn remove(&mut self, path: &str)
        ensures { made self.new ≡ Removed path.now ∷ made self.old };

    /// A listener on an address, and the address that it has. It waits no longer than a beat for the next connection.
    fn listen(&mut self, address: &str) -> io::Result<(HostListener, SocketAddr)>
        ensures good { OnOk result (made self.new ≡ Listened address.now ∷ made self.old) }
        ensures nobody { IfOk result (λ bound. arrivals_of bound.0 ≡ []) }
        ensures failed { OnErr result (made self.new ≡ FailedListening address.now ∷ made self.old) };

    /// Closes a listener, and notes who came by it.
    fn leave(&mut self, address: &str, listener: HostListener)
        ensures { made self.new ≡ Left address.now (arrivals_of listener) ∷ made self.old };
}

/// The operating system.
#[derive(Drop)]
pub(crate) struct HostCalls<'a, R> {
    rt: &'a R,
    notes: Notes,
}

impl<'a, R> HostCalls<'a, R> {
    /// Nothing was asked yet.
    pub(crate) fn new(rt: &'a R) -> HostCalls<'a, R> {
        HostCalls {
            rt,
            notes: Notes::new(),
        }
    }
}

impl<R: Files<File = File> + Addresses> Calls for HostCalls<'_, R> {
    ghost made = { λ calls. calls.notes.calls };

    fn complete(&mut self) -> io::Result<Standard> {
        Standard::complete(self.rt)
    }

    fn is_there(&mut self, path: &str) -> io::Result<bool> {
        match fs::exists(self.rt, path) {
            Ok(true) => {
                self.notes.note(&[FOUND], path.as_bytes());
                Ok(true)
            }
            Ok(false) => {
                self.notes.note(&[MISSED], path.as_bytes());
                Ok(false)
            }
            Err(reason) => {
                self.notes.note(&[UNSEEN], path.as_bytes());
                Err(reason)
            }
        }
    }

    fn open(&mut self, path: &str) -> Result<FileDisk, FileError> {
        match FileDisk::open(self.rt, path) {
            Ok(disk) => {
                self.notes.note(&[OPENED], path.as_bytes());
                Ok(disk)
            }
            Err(fault) => {
                self.notes.note(&[FAILED_OPENING], path.as_bytes());
                Err(fault)
            }
        }
    }

    fn make(&mut self, path: &str, len: u64) -> Result<FileDisk, FileError> {
        match FileDisk::create(self.rt, path, len) {
            Ok(disk) => {
                let _ = fs::set_permissions(self.rt, path, Permissions::from_mode(OWNER_ALONE));
                self.notes.note(&[MADE], path.as_bytes());
                Ok(disk)
            }
            Err(fault) => {
                self.notes.note(&[FAILED_MAKING], path.as_bytes());
                Err(fault)
            }
        }
    }

    fn close(&mut self, path: &str, disk: FileDisk) {
        self.notes.note_closed(path.as_bytes(), &disk);
        drop(disk);
    }

    fn remove(&mut self, path: &str) {
        let _ = fs::remove_file(self.rt, path);
        self.notes.note(&[REMOVED], path.as_bytes());
    }

    fn listen(&mut self, address: &str) -> io::Result<(HostListener, SocketAddr)> {
        match self.rt.listen(address) {
            Ok(bound) => {
                self.notes.note(&[LISTENED], address.as_bytes());
                Ok(bound)
            }
            Err(reason) => {
                self.notes.note(&[FAILED_LISTENING], address.as_bytes());
                Err(reason)
            }
        }
    }

    fn leave(&mut self, address: &str, listener: HostListener) {
        self.notes.note_left(address.as_bytes(), &listener);
        drop(listener);
    }
}
