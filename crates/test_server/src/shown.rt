//! How what a run wrote is shown.
use crate::edits::taken;
use crate::runs::Ended;
use std::alloc::{AllocError, Global};

/// What of a run is shown.
#[derive(Drop)]
pub enum Shown {
    /// All that it wrote.
    Whole,
    /// Of a text that has these words, no more than them.
    Named(String),
    /// Of a document's line the floors that it may have, where it has one of them: for each line, parted by blanks, those parted by commas.
    Floors(String),
    /// Of the replies at the end, which say that the edits above a revision up to another one are taken, no more than that.
    Edits(u64, u64),
    /// Of an output that the run before had too, no more than that.
    AsBefore,
}

/// What is shown of a run, where the one before had this output: its output, its errors, each behind `! `, and its status, where that isn't 0.
pub fn show(alloc: Global, how: &Shown, ended: &Ended, before: &str) -> Result<String, AllocError> {
    let mut text = show_output(alloc, how, ended.output.as_str(), before)?;
    let errors = show_errors(alloc, how, ended.errors.as_str())?;
    push_lines(&mut text, "! ", errors.as_str())?;
    push_status(&mut text, ended.status)?;
    Ok(text)
}

fn push_status(text: &mut String, status: u8) -> Result<(), AllocError> {
    if status != 0 {
        writeln!(text, "status {status}")?;
    }
    Ok(())
}

// Puts each line behind others, with this in front of it. A last one without an end has a line below it that says so.
fn push_lines(text: &mut String, front: &str, lines: &str) -> Result<(), AllocError> {
    for line in lines.split_inclusive('\n') {
        text.push_str(front)?;
        text.push_str(line)?;
    }
    if !lines.is_empty() && !lines.ends_with('\n') {
        text.push_str("\nwithout a line's end\n")?;
    }
    Ok(())
}

fn whole(alloc: Global, lines: &str) -> Result<String, AllocError> {
    let mut text = String::new(alloc);
    push_lines(&mut text, "", lines)?;
    Ok(text)
}

fn show_errors(alloc: Global, how: &Shown, errors: &str) -> Result<String, AllocError> {
    match how {
        Shown::Named(words) => named(alloc, words.as_str(), errors),
        _ => String::from_str(alloc, errors),
    }
}

fn show_output(
    alloc: Global,
    how: &Shown,
    output: &str,
    before: &str,
) -> Result<String, AllocError> {
    match how {
        Shown::Whole => whole(alloc, output),
        Shown::Named(words) => named(alloc, words.as_str(), output),
        Shown::Floors(floors) => with_floors(alloc, output, floors.as_str()),
        Shown::Edits(above, last) => without_edits(alloc, output, *above, *last),
        Shown::AsBefore => as_before(alloc, output, before),
    }
}

fn named(alloc: Global, words: &str, text: &str) -> Result<String, AllocError> {
    if text.contains(words) {
        return format!(in alloc; ".. {words} ..\n");
    }
    whole(alloc, text)
}

fn as_before(alloc: Global, output: &str, before: &str) -> Result<String, AllocError> {
    if output == before {
        return String::from_str(alloc, "as before\n");
    }
    whole(alloc, output)
}

fn without_edits(alloc: Global, output: &str, above: u64, last: u64) -> Result<String, AllocError> {
    let replies = taken(alloc, above, last)?;
    match output.strip_suffix(replies.as_str()) {
        Some(front) => format!(in alloc; "{front}taken above {above} up to {last}\n"),
        None => whole(alloc, output),
    }
}

fn with_floors(alloc: Global, output: &str, floors: &str) -> Result<String, AllocError> {
    let mut text = String::new(alloc);
    for (line, may) in output.split_inclusive('\n').zip(floors.split(' ')) {
        push_floor(&mut text, line, may)?;
    }
    for line in output.split_inclusive('\n').skip(floors.split(' ').count()) {
        text.push_str(line)?;
    }
    Ok(text)
}

// Puts a document's line behind others, with the floors that it may have in the place of its own, where that is one of them.
fn push_floor(text: &mut String, line: &str, may: &str) -> Result<(), AllocError> {
    let mut words = line.splitn(4, ' ');
    let (doc, rev) = (words.next().unwrap_or(""), words.next().unwrap_or(""));
    let (floor, rest) = (words.next().unwrap_or(""), words.next().unwrap_or(""));
    if may.split(',').any(|it| it == floor) {
        write!(text, "{doc} {rev} {may} {rest}")
    } else {
        text.push_str(line)
    }
}
