//! Edits of one kind, as many as are asked for, and their replies.
use std::alloc::{AllocError, Global};

/// The letter that the edit of a revision puts in front of the other ones. The last of these goes.
pub fn letter(revision: u64) -> char {
    char::from(b'a'.saturating_add((revision % 26) as u8))
}

/// The edits of `d` that make the revisions above the first number up to the second one.
pub fn edits(alloc: Global, above: u64, last: u64) -> Result<String, AllocError> {
    let mut lines = String::new(alloc);
    for base in above..last {
        let line = edit(alloc, base)?;
        lines.push_str(line.as_str())?;
    }
    Ok(lines)
}

fn edit(alloc: Global, base: u64) -> Result<String, AllocError> {
    let revision = base.saturating_add(1);
    let letter = letter(revision);
    format!(in alloc;
        "{{\"base\":{base},\"do\":\"edit\",\"doc\":\"d\",\"n\":{revision},\"ops\":[{{\"insert\":\"{letter}\"}},{{\"retain\":3}},{{\"delete\":1}}]}}\n"
    )
}

/// The replies to these edits, where each is taken.
pub fn taken(alloc: Global, above: u64, last: u64) -> Result<String, AllocError> {
    let mut lines = String::new(alloc);
    for base in above..last {
        let line = reply(alloc, base.saturating_add(1))?;
        lines.push_str(line.as_str())?;
    }
    Ok(lines)
}

fn reply(alloc: Global, revision: u64) -> Result<String, AllocError> {
    format!(in alloc; "{{\"doc\":\"d\",\"n\":{revision},\"ok\":\"taken\",\"rev\":{revision}}}\n")
}
