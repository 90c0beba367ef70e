//! Scripts as data. The source "a" writes the document "d", and its command of number n makes revision n, from the one before.
use optext::{read_json, read_ops};
use recovery::Shape;
use refusal::Refusal;
use revision::{Command, Name};
use std::alloc::Global;

/// A device of 1,600 bytes: cells at 64, 320, 576 and 832, slots at 1,088 and 1,344.
pub const SHAPE: Shape = Shape {
    slots: 2,
    slot: 256,
    docs: 2,
    cell: 256,
    sources: 4,
    keep: 2,
};

/// What is asked.
#[derive(Clone, Copy)]
pub enum Step {
    /// The next command, with these operations: the first one creates the document.
    Write(&'static str),
    /// The next command deletes the document.
    Delete,
    /// The next command creates the deleted document again, with these operations.
    Create(&'static str),
    /// A milestone at a revision is put.
    Put(u64),
    /// The oldest segment is retired.
    Retire,
}

/// What is asked of a store that was just formatted, one step after another.
#[derive(Clone, Copy)]
pub struct Script {
    pub name: &'static str,
    /// None for a store alone. Else a hub's turns write, and before each of them a milestone is put where one is due at a multiple of this; in
    /// the end there is a turn more.
    pub every: Option<u32>,
    pub steps: &'static [Step],
    /// The document before the first command and after each: its name, revision and operations, and its source's window: the last number,
    /// and the revisions.
    pub documents: &'static [&'static str],
    /// How many calls of the device the steps make, as docs/FORMATS.md orders them.
    pub calls: u64,
    /// Gates, and whether each stands open in the end, after a stop or a fault too.
    pub gates: &'static [(usize, bool)],
}

/// The first command, which creates the document with a letter, and one that deletes a letter.
pub const CREATE: &str = r#"[{"insert":"z"}]"#;

pub const DELETE: &str = r#"[{"delete":1}]"#;

/// Fifteen names of ten bytes are removed from a letter that has none: an entry of 236 bytes, which fills a slot.
pub const WIDE: &str =
    r#"[{"retain":1,"attributes":{"aaaaaaaaaa":null,"bbbbbbbbbb":null,"cccccccccc":null,"dddddddddd":null,"eeeeeeeeee":null,"ffffffffff":null,"gggggggggg":null,"hhhhhhhhhh":null,"iiiiiiiiii":null,"jjjjjjjjjj":null,"kkkkkkkkkk":null,"llllllllll":null,"mmmmmmmmmm":null,"nnnnnnnnnn":null,"oooooooooo":null}}]"#;

/// The same with five names: a batch of 110 bytes, which doesn't fit behind the first three.
const FIVE_NAMES: &str =
    r#"[{"retain":1,"attributes":{"aaaaaaaaaa":null,"bbbbbbbbbb":null,"cccccccccc":null,"dddddddddd":null,"eeeeeeeeee":null}}]"#;

/// Two batches, and a third one that deletes. The first opens slot 0, which takes four calls, and each of the three four more.
pub const THIRD_BATCH: Script = Script {
    name: "the third batch",
    every: None,
    steps: &[
        Step::Write(CREATE),
        Step::Write(r#"[{"retain":1},{"insert":"x"}]"#),
        Step::Write(DELETE),
    ],
    documents: &[
        "",
        r#"d 1 {"ops":[{"insert":"z"}]} 1 1"#,
        r#"d 2 {"ops":[{"insert":"zx"}]} 2 1 2"#,
        r#"d 3 {"ops":[{"insert":"x"}]} 3 1 2 3"#,
    ],
    calls: 16,
    gates: &[(64, false), (1_088, true), (1_344, false)],
};

/// Three milestones, where the last is put over the first one, and the segment that no cell needs any more is retired: five batches and two
/// slots of four calls each, two milestones of four and one of six, and two for the retirement.
pub const MILESTONES: Script = Script {
    name: "milestones and retirement",
    every: None,
    steps: &[
        Step::Write(CREATE),
        Step::Write(r#"[{"retain":1},{"insert":"x"}]"#),
        Step::Write(DELETE),
        Step::Put(3),
        Step::Write(FIVE_NAMES),
        Step::Put(4),
        Step::Write(r#"[{"insert":"q"}]"#),
        Step::Put(5),
        Step::Retire,
    ],
    documents: &[
        "",
        r#"d 1 {"ops":[{"insert":"z"}]} 1 1"#,
        r#"d 2 {"ops":[{"insert":"zx"}]} 2 1 2"#,
        r#"d 3 {"ops":[{"insert":"x"}]} 3 1 2 3"#,
        r#"d 4 {"ops":[{"insert":"x"}]} 4 1 2 3 4"#,
        r#"d 5 {"ops":[{"insert":"qx"}]} 5 1 2 3 4 5"#,
    ],
    calls: 44,
    gates: &[(64, true), (320, true), (1_088, false), (1_344, true)],
};

/// A deletion and a creation again, with a milestone of the deleted document, one of that which is created again, and one over the first: a
/// slot and five batches of four calls each, two milestones of four and one of six.
pub const DELETED: Script = Script {
    name: "a deletion and a creation again",
    every: None,
    steps: &[
        Step::Write(CREATE),
        Step::Write(r#"[{"retain":1},{"insert":"x"}]"#),
        Step::Delete,
        Step::Put(3),
        Step::Create(r#"[{"insert":"n"}]"#),
        Step::Put(4),
        Step::Write(r#"[{"insert":"q"}]"#),
        Step::Put(5),
    ],
    documents: &[
        "",
        r#"d 1 {"ops":[{"insert":"z"}]} 1 1"#,
        r#"d 2 {"ops":[{"insert":"zx"}]} 2 1 2"#,
        "d 3 deleted 3 1 2 3",
        r#"d 4 {"ops":[{"insert":"n"}]} 4 1 2 3 4"#,
        r#"d 5 {"ops":[{"insert":"qn"}]} 5 1 2 3 4 5"#,
    ],
    calls: 38,
    gates: &[(64, true), (320, true), (1_088, true), (1_344, false)],
};

/// The same by the turns of a hub, with a milestone of each revision before the next one is written: a slot, three batches and two milestones.
pub const DELETED_BY_TURNS: Script = Script {
    name: "a deletion and a creation again by turns",
    every: Some(1),
    steps: &[
        Step::Write(CREATE),
        Step::Delete,
        Step::Create(r#"[{"insert":"n"}]"#),
    ],
    documents: &[
        "",
        r#"d 1 {"ops":[{"insert":"z"}]} 1 1"#,
        "d 2 deleted 2 1 2",
        r#"d 3 {"ops":[{"insert":"n"}]} 3 1 2 3"#,
    ],
    calls: 24,
    gates: &[(64, true), (320, true), (1_088, true), (1_344, false)],
};

/// Rich text by the turns of a hub, with a milestone of the first revision before the second is written: a slot, two batches and a milestone.
pub const RICH_TEXT: Script = Script {
    name: "rich text",
    every: Some(1),
    steps: &[
        Step::Write(r#"[{"insert":"Hi"}]"#),
        Step::Write(r#"[{"retain":2},{"insert":"!","attributes":{"bold":true}}]"#),
    ],
    documents: &[
        "",
        r#"d 1 {"ops":[{"insert":"Hi"}]} 1 1"#,
        r#"d 2 {"ops":[{"insert":"Hi"},{"attributes":{"bold":true},"insert":"!"}]} 2 1 2"#,
    ],
    calls: 16,
    gates: &[(1_088, true), (1_344, false)],
};

/// A full journal: the third command finds both slots taken. A slot and a batch, twice; then a milestone in each cell, the retirement of slot 0,
/// the slot again and the batch. The last turn retires slot 1, whose only entry both cells cover.
pub const FULL_JOURNAL: Script = Script {
    name: "a full journal",
    every: Some(256),
    steps: &[Step::Write(CREATE), Step::Write(WIDE), Step::Write(WIDE)],
    documents: &[
        "",
        r#"d 1 {"ops":[{"insert":"z"}]} 1 1"#,
        r#"d 2 {"ops":[{"insert":"z"}]} 2 1 2"#,
        r#"d 3 {"ops":[{"insert":"z"}]} 3 1 2 3"#,
    ],
    calls: 36,
    gates: &[(64, true), (1_088, true), (1_344, false)],
};

/// The command of a number on "d" by "a": the first one creates the document, and each other one is made on this revision.
pub fn command(
    alloc: Global,
    number: u64,
    base: u64,
    operations: &str,
) -> Result<Command, Refusal> {
    if number < 1 || number >= 1 << 53 {
        return Err(Refusal::OldNumber);
    }
    let value = read_json(alloc, operations.as_bytes())?;
    let Some(items) = value.as_array() else {
        return Err(Refusal::BadOps);
    };
    let delta = read_ops(alloc, items.as_slice())?;
    let name = Name::doc(alloc, "d")?;
    let source = Name::source(alloc, "a")?;
    match number {
        1 => Command::create(name, source, 1, delta),
        _ => Command::edit(name, source, number, base, delta),
    }
}

/// The command of a number that a step asks for.
pub fn command_of(alloc: Global, number: u64, step: &Step) -> Result<Command, Refusal> {
    if number < 1 || number >= 1 << 53 {
        return Err(Refusal::OldNumber);
    }
    match *step {
        Step::Write(operations) => command(alloc, number, number - 1, operations),
        Step::Delete => Ok(Command::delete(
            Name::doc(alloc, "d")?,
            Name::source(alloc, "a")?,
            number,
        )),
        Step::Create(operations) => creation_again(alloc, number, operations),
        _ => Err(Refusal::BadMessage),
    }
}

// The creation of a deleted document, by a number of 1 to 2^53 - 1.
fn creation_again(alloc: Global, number: u64, operations: &str) -> Result<Command, Refusal> {
    if number < 1 || number >= 1 << 53 {
        return Err(Refusal::OldNumber);
    }
    let value = read_json(alloc, operations.as_bytes())?;
    let Some(items) = value.as_array() else {
        return Err(Refusal::BadOps);
    };
    let delta = read_ops(alloc, items.as_slice())?;
    Command::create(
        Name::doc(alloc, "d")?,
        Name::source(alloc, "a")?,
        number,
        delta,
    )
}
