//! Milestones of two documents that are put in one round of three syncs: which bytes their cells then have, and what a stop within leaves.
ghost use Rattle.std.specs.Prelude.{◌≡◌, ◌+◌, ◌*◌, ◌≤◌, length};
ghost use Rattle.milestone.specs.Cells.{place_of, size_of};
ghost use Rattle.milestone.specs.ReadCells.{IsReadAs};

use crate::picks::{FIRST, SECOND};
use crate::stopping::LEFT;
use crate::stores::{are_bytes, device_of, part, small_device, with_bytes_at};
use disk::{Disk, Fault, FaultDisk, FaultPlan, Left, MemDisk};
use milestone::{Cells, Format, Milestone, ReadCells};
use std::process::Abort;

// A cell of document 1 at revision 1.
fn other_cell(rt: &(impl Abort + AllocGlobal)) -> Vec<u8> {
    with_bytes_at(rt, &FIRST, 5, &[1])
}

// Document 0 has both cells open, and document 1 the first one.
fn before(rt: &(impl Abort + AllocGlobal)) -> Vec<u8> {
    let bytes = with_bytes_at(rt, small_device(rt).bytes(), 64, &FIRST);
    let bytes = with_bytes_at(rt, &bytes, 320, &SECOND);
    with_bytes_at(rt, &bytes, 576, &other_cell(rt))
}

// Reads the two cells of a document.
fn read(rt: &(impl Abort + AllocGlobal), disk: &mut MemDisk, place: u64, number: u32) -> ReadCells
    requires { place ≤ 576 }
    ensures { IsReadAs place 256 number result }
{
    assert!(rt; 1_088 <= disk.len());
    match Cells::read_both(rt.alloc(), disk, Format::Two, place, 256, number) {
        Ok(read) => read,
        Err(refusal) => panic!(rt; "{refusal}"),
    }
}

// The round: each step for both documents, and then a sync.
fn put_both<D: Disk>(
    disk: &mut D,
    one: &mut Cells,
    bytes: &[u8],
    other: &mut Cells,
    other_bytes: &[u8],
) -> Result<(), Fault>
    requires one { place_of one.old + 2 * size_of one.old ≤ 1088 }
    requires other { place_of other.old + 2 * size_of other.old ≤ 1088 }
    requires short { 1 + length bytes.now ≤ size_of one.old }
    requires other_short { 1 + length other_bytes.now ≤ size_of other.old }
{
    if disk.len() < 1_088 {
        return Err(Fault);
    }
    one.write_closed(disk)?;
    other.write_closed(disk)?;
    disk.sync()?;
    one.write_body(disk, bytes)?;
    other.write_body(disk, other_bytes)?;
    disk.sync()?;
    one.write_opened(disk, 2)?;
    other.write_opened(disk, 1)?;
    disk.sync()
}

// The round over such a device, which stops at a call of it, counted from 0.
fn device_of_round(
    rt: &(impl Abort + AllocGlobal),
    call: u64,
    left: Left,
    wanted: Result<(), Fault>,
) -> FaultDisk {
    let mut disk = device_of(rt, &before(rt));
    let mut one = read(rt, &mut disk, 64, 0).cells;
    let mut other = read(rt, &mut disk, 576, 1).cells;
    let mut disk = FaultDisk::new(disk, FaultPlan::stop(call, left));
    let bytes = other_cell(rt);
    let bytes = part(rt, &bytes, 1, 58);
    assert!(rt; bytes.len() == 58);
    let answer = put_both(&mut disk, &mut one, part_of_second(), &mut other, bytes);
    assert_eq!(rt; answer, wanted);
    disk
}

fn part_of_second() -> &'static [u8]
    ensures { length result.now ≡ 67 }
{
    &SECOND[1..]
}

// The revision of a cell, 0 where it is closed.
fn revision_of(cell: &Option<Milestone>) -> u64 {
    match cell {
        Some(milestone) => milestone.revision(),
        None => 0,
    }
}

// The first cell of document 0 and the second one of document 1 are as they were, closed, or as they are put. The other two stay.
fn has_its_revisions(rt: &(impl Abort + AllocGlobal), disk: &mut MemDisk) {
    let one = read(rt, disk, 64, 0);
    assert!(rt; revision_of(&one.first) <= 2);
    assert_eq!(rt; revision_of(&one.second), 2);
    let other = read(rt, disk, 576, 1);
    assert_eq!(rt; revision_of(&other.first), 1);
    assert!(rt; revision_of(&other.second) <= 1);
}

// The calls of the round are, in order:
// 0 and 1: the older cell of document 0 is closed at 64, and synced;
// 2 to 4: what stands behind the gates at 64 and at 832 is written, and synced;
// 5 to 7: these gates are opened, and synced.
// Whichever of them stops, and whatever it leaves, each document has a cell of its newest revision.
#[test]
fn a_stop_in_a_round(rt: HostRuntime) {
    for call in 0..8 {
        for (left, _) in &LEFT {
            let disk = device_of_round(&rt, call, *left, Err(Fault));
            let mut after = disk.after_crash(rt.alloc()).expect(&rt, "memory");
            has_its_revisions(&rt, &mut after);
        }
    }
}

#[test]
fn both_are_put_in_a_round(rt: HostRuntime) {
    let disk = device_of_round(&rt, 8, Left::Nothing, Ok(()));
    let bytes = with_bytes_at(&rt, &before(&rt), 64, &SECOND);
    let wanted = with_bytes_at(&rt, &bytes, 832, &other_cell(&rt));
    are_bytes(&rt, disk.disk().bytes(), &wanted);
}
