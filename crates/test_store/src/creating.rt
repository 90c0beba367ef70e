//! What creations write.
use crate::stores::{Row, SLOT, differ_by, part, session, small_device};

const SECOND_RUN: [Row; 5] = [
    ("a", "d", "z", "again 1"),
    ("b", "d", "z", "error 7 Exists"),
    ("a", "e", "y", "taken 1"),
    ("a", "f", "x", "error 20 TooManyDocuments"),
    ("a", "e", "", "again 1"),
];

#[test]
fn what_is_created_is_found_again(rt: HostRuntime) {
    let empty = small_device(&rt);
    let one = session(&rt, empty.bytes(), &[("a", "d", "z", "taken 1")], "d 1 z\n");
    // The first record, and a closed gate behind it, which was 0 before. All else is unchanged.
    differ_by(
        &rt,
        one.bytes(),
        empty.bytes(),
        1_088,
        part(&rt, &SLOT, 0, 59),
    );
    let two = session(&rt, one.bytes(), &SECOND_RUN, "d 1 z\ne 1 y\n");
    differ_by(&rt, two.bytes(), empty.bytes(), 1_088, &SLOT);
}
