//! What a row is, and what comes of it.
use crate::drawn::{behind_milestones, fresh};
use crate::edits::edits;
use crate::files::{bytes, fill, length, same, set, taken_address};
use crate::runs::{Broken, Ended, Given, call};
use crate::sessions::{Ending, beside};
use crate::shown::{Shown, show};
use crate::stops::{at_each_call, at_the_gate};
use crate::{given_words, patient};
use disk::FileDisk;
use refusal::Refusal;
use std::alloc::{AllocError, Global};
use std::fs::{self, File};
use std::io::{self, BufRead, ErrorKind};
use std::net::{Net, TcpListener, TcpStream};
use std::rt::Files;
use std::sync::Wait;
use std::thread::Threads;
use std::time::Clock;

/// The refusals that are printed.
const PRINTED: [Refusal; 7] = [
    Refusal::BadLine,
    Refusal::NoSeat,
    Refusal::NotFormatted,
    Refusal::JournalFull,
    Refusal::OldFormat,
    Refusal::NotOld,
    Refusal::Deleted,
];

/// What the next run is given, and how it is shown.
#[derive(Drop)]
struct Next {
    input: Vec<u8>,
    size: usize,
    broken: Broken,
    mark: &'static str,
    shown: Shown,
}

impl Next {
    fn new(alloc: Global) -> Next {
        Next {
            input: Vec::new(alloc),
            size: usize::MAX,
            broken: Broken::Nothing,
            mark: "",
            shown: Shown::Whole,
        }
    }

    fn given(&self) -> Given<'_> {
        Given {
            input: &self.input,
            size: self.size,
            broken: self.broken,
            mark: self.mark,
        }
    }

    // Whether the row is one that says something of the next run.
    fn takes(&mut self, alloc: Global, row: &str) -> Result<bool, AllocError> {
        let (kind, rest) = row.split_once(' ').unwrap_or((row, ""));
        match kind {
            "<" => self.push_line(rest)?,
            "<+" => self.input.extend_from_slice(rest.as_bytes())?,
            "<*" => self.push_often(rest)?,
            "<bytes" => self.push_bytes(rest)?,
            "<edits" => self.push_edits(alloc, rest)?,
            "pieces" => self.size = rest.parse().unwrap_or(usize::MAX),
            "broken" => self.broken = broken(rest),
            "marked" => self.mark = "|\n",
            "named" => self.shown = Shown::Named(String::from_str(alloc, rest)?),
            "floors" => self.shown = Shown::Floors(String::from_str(alloc, rest)?),
            "again" => self.shown = Shown::AsBefore,
            _ => return Ok(false),
        }
        Ok(true)
    }

    fn push_line(&mut self, line: &str) -> Result<(), AllocError> {
        self.input.extend_from_slice(line.as_bytes())?;
        Ok(self.input.push(b'\n')?)
    }

    // So many times a text.
    fn push_often(&mut self, rest: &str) -> Result<(), AllocError> {
        let (count, text) = rest.split_once(' ').unwrap_or((rest, ""));
        for _ in 0..number(count) {
            self.input.extend_from_slice(text.as_bytes())?;
        }
        Ok(())
    }

    // So many times a byte.
    fn push_bytes(&mut self, rest: &str) -> Result<(), AllocError> {
        let (count, byte) = rest.split_once(' ').unwrap_or((rest, ""));
        let byte = byte.parse().unwrap_or(0);
        for _ in 0..number(count) {
            self.input.push(byte)?;
        }
        Ok(())
    }

    // The edits that make the revisions above one up to another. Each is to be taken.
    fn push_edits(&mut self, alloc: Global, rest: &str) -> Result<(), AllocError> {
        let (above, last) = rest.split_once(' ').unwrap_or((rest, ""));
        let (above, last) = (number(above), number(last));
        let lines = edits(alloc, above, last)?;
        self.input.extend_from_slice(lines.as_bytes())?;
        self.shown = Shown::Edits(above, last);
        Ok(())
    }
}

fn number(word: &str) -> u64 {
    word.parse().unwrap_or(0)
}

fn place(word: &str) -> usize {
    word.parse().unwrap_or(0)
}

fn broken(stream: &str) -> Broken {
    match stream {
        "input" => Broken::Input,
        "output" => Broken::Output,
        "errors" => Broken::Errors,
        _ => Broken::Nothing,
    }
}

/// Prints each row, and behind it what comes of it, two blanks further in.
pub fn print_answers<
    R: Files<File = File>
        + AllocGlobal
        + Net<Listener = TcpListener, Stream = TcpStream>
        + Threads
        + Wait
        + Clock
        + Sync
        + Print,
    I: BufRead + Drop,
>(rt: &R, input: I) -> io::Result<()> {
    let mut table = Table::new(rt.alloc());
    for row in input.lines(rt.alloc()) {
        let row = row?;
        println!(rt; "{row}")?;
        let text = table.answer(rt, row.as_str())?;
        print_behind(rt, text.as_str())?;
    }
    Ok(())
}

fn print_behind(rt: &impl Print, text: &str) -> io::Result<()> {
    for line in text.lines() {
        println!(rt; "  {line}")?;
    }
    Ok(())
}

// What rows leave for later ones.
#[derive(Drop)]
struct Table {
    next: Next,
    output: String,
    kept: Vec<u8>,
    locked: Option<FileDisk>,
}

impl Table {
    // No row came yet.
    fn new(alloc: Global) -> Table {
        Table {
            next: Next::new(alloc),
            output: String::new(alloc),
            kept: Vec::new(alloc),
            locked: None,
        }
    }

    // What comes of a row.
    fn answer<
        R: Files<File = File>
            + AllocGlobal
            + Net<Listener = TcpListener, Stream = TcpStream>
            + Threads
            + Wait
            + Clock
            + Sync,
    >(&mut self, rt: &R, row: &str) -> io::Result<String> {
        if row.is_empty() || row.starts_with('#') || self.next.takes(rt.alloc(), row)? {
            return Ok(String::new(rt.alloc()));
        }
        let words: Vec<&str> = row.split(' ').collect(rt.alloc())?;
        if let ["richd", ..] = words.as_slice() {
            return Ok(self.call(rt, &words)?);
        }
        self.answer_words(rt, &words)
    }

    fn answer_words<
        R: Files<File = File>
            + AllocGlobal
            + Net<Listener = TcpListener, Stream = TcpStream>
            + Threads
            + Wait
            + Clock
            + Sync,
    >(&mut self, rt: &R, words: &[&str]) -> io::Result<String> {
        match words {
            ["store", path, size, sources] => Ok(self.format(rt, path, size, sources)?),
            ["sessions", path] => self.sessions(rt, path, Ending::Failure),
            ["sessions", path, "until-closed"] => self.sessions(rt, path, Ending::Closed),
            ["keep", path] => self.keep(rt, path),
            ["same", path] => same(rt, path, &self.kept),
            ["lock", path] => self.lock(rt, path),
            ["unlock"] => {
                self.locked = None;
                Ok(String::new(rt.alloc()))
            }
            _ => answer_alone(rt, words),
        }
    }

    // A run of the program.
    fn call<
        R: Files<File = File>
            + AllocGlobal
            + Net<Listener = TcpListener, Stream = TcpStream>
            + Threads
            + Wait
            + Clock
            + Sync,
    >(&mut self, rt: &R, words: &[&str]) -> Result<String, AllocError> {
        let ended = call(rt, words, self.next.given())?;
        let text = show(rt.alloc(), &self.next.shown, &ended, self.output.as_str())?;
        self.next = Next::new(rt.alloc());
        let Ended {
            status: _,
            output,
            errors: _,
        } = ended;
        self.output = output;
        Ok(text)
    }

    // Makes a store of two slots, two documents and two revisions, with slots and cells of so many bytes, and so many sources.
    fn format<
        R: Files<File = File>
            + AllocGlobal
            + Net<Listener = TcpListener, Stream = TcpStream>
            + Threads
            + Wait
            + Clock
            + Sync,
    >(&mut self, rt: &R, path: &str, size: &str, sources: &str) -> Result<String, AllocError> {
        let words = [
            "richd",
            "format",
            path,
            "--slots",
            "2",
            "--slot",
            size,
            "--docs",
            "2",
            "--cell",
            size,
            "--sources",
            sources,
            "--keep",
            "2",
        ];
        self.call(rt, &words)
    }

    // Two sessions, whose lines the input has.
    fn sessions<
        R: Files<File = File>
            + AllocGlobal
            + Net<Listener = TcpListener, Stream = TcpStream>
            + Threads
            + Wait
            + Clock
            + Sync,
    >(&mut self, rt: &R, path: &str, ending: Ending) -> io::Result<String> {
        let lines = String::from_utf8_lossy(rt.alloc(), &self.next.input)?;
        self.next = Next::new(rt.alloc());
        beside(rt, path, lines.as_str(), ending)
    }

    // Keeps the bytes of a file.
    fn keep<R: Files<File = File> + AllocGlobal>(
        &mut self,
        rt: &R,
        path: &str,
    ) -> io::Result<String> {
        self.kept = fs::read(rt, path)?;
        Ok(String::new(rt.alloc()))
    }

    // A device over a file, as another program has one.
    fn lock<R: Files<File = File> + AllocGlobal>(
        &mut self,
        rt: &R,
        path: &str,
    ) -> io::Result<String> {
        match FileDisk::open(rt, path) {
            Ok(disk) => self.locked = Some(disk),
            Err(_) => return Err(io::Error::from(ErrorKind::Other)),
        }
        Ok(String::new(rt.alloc()))
    }
}

// What comes of a row that neither needs nor leaves anything.
fn answer_alone<
    R: Files<File = File>
        + AllocGlobal
        + Net<Listener = TcpListener, Stream = TcpStream>
        + Threads
        + Wait
        + Clock
        + Sync,
>(rt: &R, words: &[&str]) -> io::Result<String> {
    match words {
        ["remove", path] => {
            fs::remove_file(rt, *path)?;
            Ok(String::new(rt.alloc()))
        }
        ["fill", path, count, byte] => {
            fill(rt, path, place(count), byte.parse().unwrap_or(0))?;
            Ok(String::new(rt.alloc()))
        }
        ["set", path, at, values @ ..] => {
            set(rt, path, place(at), values)?;
            Ok(String::new(rt.alloc()))
        }
        ["bytes", path, at, count] => bytes(rt, path, place(at), place(count)),
        ["length", path] => Ok(length(rt, path)?),
        ["address", path] => taken_address(rt, path),
        ["patient"] => patient::tried(rt),
        _ => answer_cases(rt, words),
    }
}

// What comes of a row that is many cases.
fn answer_cases<
    R: Files<File = File>
        + AllocGlobal
        + Net<Listener = TcpListener, Stream = TcpStream>
        + Threads
        + Wait
        + Clock
        + Sync,
>(rt: &R, words: &[&str]) -> io::Result<String> {
    match words {
        ["drawn", path] => told(rt.alloc(), fresh(rt, path)),
        ["drawn", path, "behind"] => told(rt.alloc(), behind_milestones(rt, path)),
        ["stops", "gate"] => told(rt.alloc(), at_the_gate(rt)),
        ["stops", "calls"] => told(rt.alloc(), at_each_call(rt)),
        ["refusals"] => Ok(refusals(rt.alloc())?),
        ["latin"] => Ok(given_words::told(rt.alloc())?),
        _ => Ok(String::from_str(rt.alloc(), "no row")?),
    }
}

fn told(alloc: Global, text: Result<String, Refusal>) -> io::Result<String> {
    match text {
        Ok(text) => Ok(text),
        Err(refusal) => Ok(format!(in alloc; "{refusal}\n")?),
    }
}

fn refusals(alloc: Global) -> Result<String, AllocError> {
    let mut text = String::new(alloc);
    for refusal in &PRINTED {
        writeln!(text, "{refusal}")?;
    }
    Ok(text)
}
