//! The standard streams that the program was started without.
use std::fs::{File, OpenFile, OpenOptions};
use std::io::{self, Error};
use std::os::fd::AsRawFd;
use std::rt::Files;

/// The device that has no bytes and takes all.
pub(crate) const NULL_DEVICE: &str = "/dev/null";

/// The last of the numbers that the standard streams have.
const LAST: i32 = 2;

/// The null device in the place of each standard stream that was closed, for as long as this is there. The system gives a file the lowest
/// number that is free, so without it a store would get the number of a standard stream.
#[derive(Drop)]
pub(crate) struct Standard {
    _first: Option<File>,
    _second: Option<File>,
    _third: Option<File>,
}

impl Standard {
    /// Opens the null device for each of the three that is closed. Fails where one is and the device can't be opened.
    pub(crate) fn complete<R: Files<File = File>>(rt: &R) -> io::Result<Standard> {
        Ok(Standard {
            _first: missing(rt)?,
            _second: missing(rt)?,
            _third: missing(rt)?,
        })
    }
}

// The null device, where it took the number of a standard stream.
fn missing<R: Files<File = File>>(rt: &R) -> io::Result<Option<File>> {
    let mut options = OpenOptions::new();
    options.read(true).write(true);
    match options.open(rt, NULL_DEVICE) {
        Ok(device) if device.as_raw_fd() <= LAST => Ok(Some(device)),
        Ok(_) => Ok(None),
        Err(reason) => without_device(rt, reason),
    }
}

// Whether the device was needed is told by the numbers of a pipe: the system gives the lowest ones.
fn without_device<R: Files<File = File>>(rt: &R, reason: Error) -> io::Result<Option<File>> {
    match io::pipe(rt) {
        Ok((reader, _writer)) if reader.as_raw_fd() > LAST => Ok(None),
        _ => Err(reason),
    }
}
