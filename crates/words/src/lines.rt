//! Words that stand on lines of standard input.
use crate::deltas::not_lines;
use clap::Error;
use std::alloc::{AllocError, Global};
use std::io::Read;

/// The most bytes that a line can have: as many as Linux lets a word of a command line have.
const MAX_WORD: usize = 131_071;

/// The most bytes that two lines can have with their ends.
const MAX_LINES: u64 = 2 * (MAX_WORD as u64 + 1);

/// Why lines can't be the words of a command.
#[derive(Debug, Drop)]
pub enum LinesError {
    /// They can't be used, which the text for the user says; or out of memory.
    Usage(Error),
    /// Standard input failed.
    Stream,
}

impl From<AllocError> for LinesError {
    fn from(error: AllocError) -> LinesError {
        LinesError::Usage(Error::from(error))
    }
}

/// The two lines of a text, each of at most 131,071 bytes.
#[derive(Debug, Drop)]
pub struct Lines(String);

impl Lines {
    /// Reads both lines, up to the end of the input; the second may have no line end.
    pub fn read<I: Read>(alloc: Global, input: &mut I) -> Result<Lines, LinesError> {
        let bytes = bytes_of(alloc, input)?;
        match String::from_utf8(bytes) {
            Ok(text) => checked(alloc, text),
            Err(_) => Err(refused(alloc, "a line isn't UTF-8")),
        }
    }

    /// Both lines, without their ends.
    pub fn both(&self) -> (&str, &str) {
        parted(self.0.as_str()).unwrap_or(("", ""))
    }
}

// All bytes of the input, or one more than two lines can have.
fn bytes_of<I: Read>(alloc: Global, input: &mut I) -> Result<Vec<u8>, LinesError> {
    let mut bytes = Vec::new(alloc);
    match input.take(MAX_LINES + 1).read_to_end(&mut bytes) {
        Ok(_) => Ok(bytes),
        Err(_) => Err(LinesError::Stream),
    }
}

// A text of two lines that aren't too long.
fn checked(alloc: Global, text: String) -> Result<Lines, LinesError> {
    match parted(text.as_str()) {
        Some((first, second)) if first.len() <= MAX_WORD && second.len() <= MAX_WORD => {
            Ok(Lines(text))
        }
        Some(_) => Err(refused(alloc, "a line is longer than 131071 bytes")),
        None => Err(refused(alloc, "standard input has to have two lines")),
    }
}

// The two lines that a text has, if it has two.
fn parted(text: &str) -> Option<(&str, &str)> {
    let (first, rest) = text.split_once('\n')?;
    let second = rest.strip_suffix('\n').unwrap_or(rest);
    if second.contains('\n') {
        return None;
    }
    Some((first, second))
}

fn refused(alloc: Global, why: &str) -> LinesError {
    match not_lines(alloc, why) {
        Ok(error) => LinesError::Usage(error),
        Err(error) => LinesError::from(error),
    }
}
