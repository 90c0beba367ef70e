//! Devices in memory and over files.
use crate::stores::are_bytes;
use disk::{Call, Disk, FileDisk, MemDisk};
use std::fs::{self, File, Files};
use std::process::{self, Abort};
use std::{env, io};

/// Writes, syncs and reads a device of eight zeros.
pub fn try_out<D: Disk>(rt: &impl Abort, disk: &mut D) {
    assert_eq!(rt; disk.len(), 8);
    disk.write_at(2, b"abc").expect(rt, "a write");
    disk.write_at(7, b"z").expect(rt, "a write");
    disk.sync().expect(rt, "a sync");
    disk.write_at(8, b"").expect(rt, "a write of nothing");
    let mut bytes = [0; 6];
    disk.read(2, &mut bytes).expect(rt, "a read");
    are_bytes(rt, &bytes, b"abc\0\0z");
    assert_eq!(rt; disk.failures(), 0);
}

/// The call of a write, which replaced so many zeros.
fn write_over_zeros(rt: &(impl Abort + AllocGlobal), at: u64, count: usize) -> Call {
    let replaced = vec![in rt.alloc(); 0; count].expect(rt, "memory");
    Call::Write { at, replaced }
}

#[test]
fn memory_keeps_its_calls(rt: HostRuntime) {
    let mut disk = MemDisk::new(rt.alloc(), 8).expect(&rt, "memory");
    try_out(&rt, &mut disk);
    are_bytes(&rt, disk.bytes(), b"\0\0abc\0\0z");
    let calls = [
        write_over_zeros(&rt, 2, 3),
        write_over_zeros(&rt, 7, 1),
        Call::Sync,
        write_over_zeros(&rt, 8, 0),
        Call::Read { at: 2, len: 6 },
    ];
    assert!(rt; disk.calls() == calls.as_slice());
}

/// A file of its own for a test.
fn name_of(rt: &HostRuntime, name: &str) -> io::Result<String> {
    let number = process::id(rt.process());
    Ok(format!(in rt.alloc(); "richd-disk-{number}-{name}")?)
}

/// And its path in the folder of temporary files.
fn path(rt: &HostRuntime, name: &str) -> io::Result<String> {
    let folder = env::temp_dir(rt)?;
    let number = process::id(rt.process());
    Ok(format!(in rt.alloc(); "{}/richd-disk-{number}-{name}", folder.as_str())?)
}

/// A device over a file that a test has made is opened again, with what was written.
fn holds_what_was_written(rt: &impl Abort, disk: &mut FileDisk) {
    assert_eq!(rt; disk.len(), 8);
    let mut bytes = [1; 8];
    disk.read(0, &mut bytes).expect(rt, "a read");
    are_bytes(rt, &bytes, b"\0\0abc\0\0z");
}

/// A device over a new file.
fn made<R: Files<File = File> + AllocGlobal + Abort>(rt: &R, path: &str, len: u64) -> FileDisk {
    FileDisk::create(rt, path, len).expect(rt, "a new file")
}

/// No file is there yet, and then one that is opened but not made again.
fn is_made_and_opened_again<R: Files<File = File> + AllocGlobal + Abort>(rt: &R, path: &str) {
    assert!(rt; FileDisk::open(rt, path).is_err());
    try_out(rt, &mut made(rt, path, 8));
    assert!(rt; FileDisk::create(rt, path, 8).is_err());
    let mut disk = FileDisk::open(rt, path).expect(rt, "the file");
    holds_what_was_written(rt, &mut disk);
    fs::remove_file(rt, path).expect(rt, "the file goes");
}

#[test]
fn a_file_is_made_and_opened_again(rt: HostRuntime) {
    let path = path(&rt, "made").expect(&rt, "a path");
    is_made_and_opened_again(&rt, path.as_str());
}

#[test]
fn a_file_is_made_in_the_working_folder(rt: HostRuntime) {
    let name = name_of(&rt, "bare").expect(&rt, "a name");
    is_made_and_opened_again(&rt, name.as_str());
}

/// While a device over a file is there no other one is made over it, and afterwards one is.
fn is_open_once<R: Files<File = File> + AllocGlobal + Abort>(rt: &R, path: &str) {
    let mut disk = made(rt, path, 8);
    assert!(rt; FileDisk::open(rt, path).is_err());
    try_out(rt, &mut disk);
    assert!(rt; FileDisk::open(rt, path).is_err());
    assert!(rt; FileDisk::create(rt, path, 8).is_err());
    drop(disk);
    let mut again = FileDisk::open(rt, path).expect(rt, "the file");
    holds_what_was_written(rt, &mut again);
    assert!(rt; FileDisk::open(rt, path).is_err());
    fs::remove_file(rt, path).expect(rt, "the file goes");
}

#[test]
fn one_device_at_a_time_is_over_a_file(rt: HostRuntime) {
    let path = path(&rt, "locked").expect(&rt, "a path");
    is_open_once(&rt, path.as_str());
}

/// Writes and reads at the end of a longer device.
fn try_out_longer(rt: &impl Abort, disk: &mut FileDisk) {
    assert_eq!(rt; disk.len(), 2_500_000);
    disk.write_at(2_499_998, b"yz").expect(rt, "a write");
    disk.sync().expect(rt, "a sync");
    let mut bytes = [1; 4];
    disk.read(2_499_996, &mut bytes).expect(rt, "a read");
    are_bytes(rt, &bytes, b"\0\0yz");
}

#[test]
fn a_long_file_is_a_device(rt: HostRuntime) {
    let path = path(&rt, "long").expect(&rt, "a path");
    try_out_longer(&rt, &mut made(&rt, path.as_str(), 2_500_000));
    fs::remove_file(&rt, path.as_str()).expect(&rt, "the file goes");
}
