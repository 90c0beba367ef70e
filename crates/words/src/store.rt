//! The words of the commands on a store: `format`, `serve`, `dump`, `info`, `check`, `migrate` and `copy`.
use crate::arguments::{
    with_choice, with_count, with_flag, with_flag_beside, with_number, with_seconds_beside,
    with_text, with_word,
};
use clap::{ArgMatches, Command};
use std::alloc::{AllocError, Global};

/// The numbers of a new store that the words give. The others are left to their defaults, which are those of the old store where one is
/// copied.
#[derive(Clone, Copy, Debug, PartialEq, Eq)]
pub struct ShapeOptions {
    pub slots: Option<u32>,
    pub slot: Option<u32>,
    pub docs: Option<u32>,
    pub cell: Option<u32>,
    pub sources: Option<u32>,
    pub keep: Option<u32>,
}

/// How those are served who connect to an address.
#[derive(Clone, Copy, Debug, PartialEq, Eq)]
pub struct Listening<'a> {
    pub address: &'a str,
    /// After how many seconds a connection is closed that said no hello, or sent no line and follows nothing; 0 for never.
    pub idle: u32,
    /// Whether the program ends where the store has failed.
    pub exit_on_failure: bool,
    /// Whether the program ends, and well, where its standard input ends.
    pub until_closed: bool,
    /// Whether a line is written on standard error for each event.
    pub log: bool,
    /// How many seconds pass from one line of counters to the next; 0 for none.
    pub stats: u32,
}

/// The options for the numbers of a new store, each with its help.
const NUMBERS: [(&str, &str); 6] = [
    ("slots", "Slots of the journal, 2 to 1024 [default: 8]"),
    ("slot", "Bytes of a slot, 256 to 16777216 [default: 262144]"),
    ("docs", "Documents, 1 to 65536 [default: 64]"),
    ("cell", "Bytes of a cell, 256 to 16777216 [default: 262144]"),
    ("sources", "Sources of a document, 1 to 4096 [default: 256]"),
    (
        "keep",
        "Revisions held below the newest, 1 to 65536 [default: 4096]",
    ),
];

/// The same options where a store is copied.
const NUMBERS_OF_COPY: [(&str, &str); 6] = [
    ("slots", "Slots of the journal, 2 to 1024 [default: OLD's]"),
    ("slot", "Bytes of a slot, 256 to 16777216 [default: OLD's]"),
    (
        "docs",
        "Documents, 1 to 65536, no fewer than OLD's [default: OLD's]",
    ),
    (
        "cell",
        "Bytes of a cell, 256 to 16777216, no fewer than OLD's [default: OLD's]",
    ),
    (
        "sources",
        "Sources of a document, 1 to 4096, no fewer than OLD's [default: OLD's]",
    ),
    (
        "keep",
        "Revisions held below the newest, 1 to 65536 [default: OLD's]",
    ),
];

/// The milestones of a document that `dump` and `serve` can begin with.
const PICKS: [&str; 2] = ["newer", "older"];

/// The option that takes the address to serve at.
const LISTEN: &str = "listen";

/// How many revisions of a document a milestone represents, where the words don't say.
pub const DEFAULT_EVERY: u32 = 256;

/// The most revisions that a milestone can be asked to stand for.
const MAX_EVERY: u32 = 65_536;

/// Makes a store.
pub fn format<'a>(alloc: Global) -> Result<Command<'a>, AllocError> {
    let format = Command::new(alloc, "format").about(
        "Makes a store in a file, and the file where it is missing",
    );
    let format = with_path(alloc, format)?;
    with_numbers(alloc, with_reserve(alloc, format)?, &NUMBERS)
}

/// Serves a store.
pub fn serve<'a>(alloc: Global) -> Result<Command<'a>, AllocError> {
    let serve = Command::new(alloc, "serve").about(
        "Serves a session over standard input and output, or many over TCP",
    );
    let serve = with_path(alloc, serve)?;
    let serve = with_listening(alloc, serve)?;
    let serve = with_every(alloc, serve)?;
    with_pick(alloc, serve)
}

/// Prints a store.
pub fn dump<'a>(alloc: Global) -> Result<Command<'a>, AllocError> {
    let dump = Command::new(alloc, "dump").about("Prints the documents, one a line");
    let dump = with_path(alloc, dump)?;
    with_pick(alloc, dump)
}

/// Prints how full a store is.
pub fn info<'a>(alloc: Global) -> Result<Command<'a>, AllocError> {
    let info = Command::new(alloc, "info").about(
        "Prints how full a store is, a fact a line, or its documents",
    );
    let info = with_path(alloc, info)?;
    let help = "Prints for each document what it weighs, how many sources it has, and what is left";
    with_flag(alloc, info, "documents", help)
}

/// Reads a store by both milestones of each document.
pub fn check<'a>(alloc: Global) -> Result<Command<'a>, AllocError> {
    let check = Command::new(alloc, "check").about(
        "Reads a store by both milestones of each document, and compares what it finds",
    );
    with_path(alloc, check)
}

/// Brings a store of the first format over.
pub fn migrate<'a>(alloc: Global) -> Result<Command<'a>, AllocError> {
    let migrate = Command::new(alloc, "migrate").about(
        "Brings a store of the first format over to a file, and makes that where it is missing",
    );
    let help = "The file that holds the store of the first format";
    with_files(alloc, migrate, help)
}

/// Copies a store to one of other numbers.
pub fn copy<'a>(alloc: Global) -> Result<Command<'a>, AllocError> {
    let copy = Command::new(alloc, "copy").about(
        "Copies a store to a file with other numbers, and makes that where it is missing",
    );
    let copy = with_files(alloc, copy, "The file that holds the store")?;
    with_numbers(alloc, copy, &NUMBERS_OF_COPY)
}

/// The files that were given to `migrate` or `copy`, the old one and the new one.
pub fn files_in<'a>(given: &ArgMatches<'a>) -> (&'a str, &'a str) {
    (
        given.get_str("OLD").unwrap_or(""),
        given.get_str("NEW").unwrap_or(""),
    )
}

/// The file that was given.
pub fn path_in<'a>(given: &ArgMatches<'a>) -> &'a str {
    given.get_str("PATH").unwrap_or("")
}

/// The address that was given to `serve`, and how those are served who connect to it.
pub fn listening_in<'a>(given: &ArgMatches<'a>) -> Option<Listening<'a>> {
    let address = given.get_str(LISTEN)?;
    Some(Listening {
        address,
        idle: given.get_one("idle").unwrap_or(0),
        exit_on_failure: given.get_flag("exit-on-failure"),
        until_closed: given.get_flag("until-closed"),
        log: given.get_flag("log"),
        stats: given.get_one("stats").unwrap_or(0),
    })
}

/// The number of revisions for a milestone that was given to `serve`, or the default.
pub fn every_in(given: &ArgMatches<'_>) -> u32 {
    given.get_one("every").unwrap_or(DEFAULT_EVERY)
}

/// Whether the documents were asked for.
pub fn has_documents(given: &ArgMatches<'_>) -> bool {
    given.get_flag("documents")
}

/// Whether a new file is to be written whole.
pub fn is_reserved(given: &ArgMatches<'_>) -> bool {
    given.get_flag("reserve")
}

/// Whether the older milestones were asked for.
pub fn is_older(given: &ArgMatches<'_>) -> bool {
    given.get_str("pick") == Some("older")
}

/// The numbers that were given to `format` or `copy`.
pub fn shape_in(given: &ArgMatches<'_>) -> ShapeOptions {
    ShapeOptions {
        slots: given.get_one("slots"),
        slot: given.get_one("slot"),
        docs: given.get_one("docs"),
        cell: given.get_one("cell"),
        sources: given.get_one("sources"),
        keep: given.get_one("keep"),
    }
}

fn with_numbers<'a>(
    alloc: Global,
    mut command: Command<'a>,
    numbers: &'static [(&'static str, &'static str)],
) -> Result<Command<'a>, AllocError> {
    for (name, help) in numbers {
        command = with_number(alloc, command, name, help)?;
    }
    Ok(command)
}

fn with_reserve<'a>(alloc: Global, command: Command<'a>) -> Result<Command<'a>, AllocError> {
    let help = "Writes a file that it makes whole, so that the disk has room for all of it";
    with_flag(alloc, command, "reserve", help)
}

// The address, and how those are served who connect to it.
fn with_listening<'a>(alloc: Global, command: Command<'a>) -> Result<Command<'a>, AllocError> {
    let command = with_listen(alloc, command)?;
    let command = with_ends(alloc, command)?;
    with_lines(alloc, with_until_closed(alloc, command)?)
}

// That the end of standard input ends the program.
fn with_until_closed<'a>(alloc: Global, command: Command<'a>) -> Result<Command<'a>, AllocError> {
    let help = "Ends the program, with status 0, where its standard input ends";
    with_flag_beside(alloc, command, LISTEN, "until-closed", help)
}

// When a connection ends, and when all do.
fn with_ends<'a>(alloc: Global, command: Command<'a>) -> Result<Command<'a>, AllocError> {
    let help =
        "Closes a connection that is silent and follows nothing for so long; 0 never does [default: 0]";
    let command = with_seconds_beside(alloc, command, LISTEN, "idle", help)?;
    let help = "Ends the program, with status 1, where the store has failed";
    with_flag_beside(alloc, command, LISTEN, "exit-on-failure", help)
}

// What is told on standard error.
fn with_lines<'a>(alloc: Global, command: Command<'a>) -> Result<Command<'a>, AllocError> {
    let help = "Writes a line for each event on standard error";
    let command = with_flag_beside(alloc, command, LISTEN, "log", help)?;
    let help = "Writes a line of counters each so many seconds; 0 writes none [default: 0]";
    with_seconds_beside(alloc, command, "log", "stats", help)
}

fn with_listen<'a>(alloc: Global, command: Command<'a>) -> Result<Command<'a>, AllocError> {
    let help = "The address to serve at, as 127.0.0.1:7000; port 0 takes a free one";
    with_text(alloc, command, LISTEN, "ADDR", help)
}

fn with_every<'a>(alloc: Global, command: Command<'a>) -> Result<Command<'a>, AllocError> {
    let help = "Revisions of a document for a milestone, 1 to 65536 [default: 256]";
    with_count(alloc, command, "every", MAX_EVERY, help)
}

fn with_files<'a>(
    alloc: Global,
    command: Command<'a>,
    old: &'a str,
) -> Result<Command<'a>, AllocError> {
    let command = with_word(alloc, command, "OLD", old)?;
    with_word(alloc, command, "NEW", "The file for the new store")
}

fn with_pick<'a>(alloc: Global, command: Command<'a>) -> Result<Command<'a>, AllocError> {
    let help = "Of two milestones of a document, the one to begin with [default: newer]";
    with_choice(alloc, command, "pick", &PICKS, help)
}

fn with_path<'a>(alloc: Global, command: Command<'a>) -> Result<Command<'a>, AllocError> {
    with_word(alloc, command, "PATH", "The file that holds the store")
}
