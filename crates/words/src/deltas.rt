//! The words of the commands on deltas: `compose`, `transform`, `invert` and `apply`.
use crate::arguments::{with_flag, with_word_unless};
use algebra::Task;
use clap::error::ErrorKind;
use clap::{ArgMatches, Command, Error};
use std::alloc::{AllocError, Global};
use std::convert::AsStr;

/// The option by which the deltas of a command stand on lines of standard input.
const LINES: &str = "stdin";

/// The help for a word that represents a document.
const DOCUMENT: &str = "The document, as the delta that makes it";

/// What a command makes of two deltas.
#[derive(Clone, Copy, Debug, PartialEq, Eq)]
pub enum Making {
    /// The delta with the effect of the first, and then the second.
    Compose,
    /// The second delta as it is after the first. With priority the first goes first.
    Transform { priority: bool },
    /// The delta that takes back the first on the document that the second makes.
    Invert,
    /// The document that the first makes, after the second.
    Apply,
}

impl Making {
    /// The task on these two deltas.
    pub fn task<'a>(self, first: &'a str, second: &'a str) -> Task<'a> {
        match self {
            Making::Compose => Task::Compose { first, second },
            Making::Transform { priority } => Task::Transform {
                first,
                second,
                priority,
            },
            Making::Invert => Task::Invert {
                delta: first,
                base: second,
            },
            Making::Apply => Task::Apply {
                document: first,
                delta: second,
            },
        }
    }
}

/// A command on two deltas.
#[derive(Clone, Copy, Debug, PartialEq, Eq)]
pub struct DeltaCommand<'a> {
    pub making: Making,
    /// The deltas, where they don't stand on lines of standard input.
    pub deltas: Option<(&'a str, &'a str)>,
}

/// What the words ask for, where the first represents the program. An `Err` has the text for the user, which names
/// the program `richd delta`.
pub fn command_in<'a, S: AsStr>(alloc: Global, words: &'a [S]) -> Result<DeltaCommand<'a>, Error> {
    let matches = richd_delta(alloc)?.try_get_matches_from(words)?;
    Ok(match matches.subcommand() {
        Some(("compose", given)) => asked(given, Making::Compose, "A", "B"),
        Some(("transform", given)) => {
            let priority = given.get_flag("first");
            asked(given, Making::Transform { priority }, "A", "B")
        }
        Some(("invert", given)) => asked(given, Making::Invert, "DELTA", "BASE"),
        Some((_, given)) => asked(given, Making::Apply, "DOC", "DELTA"),
        None => DeltaCommand {
            making: Making::Apply,
            deltas: None,
        },
    })
}

// A command whose deltas have these names.
fn asked<'a>(
    given: &ArgMatches<'a>,
    making: Making,
    first: &str,
    second: &str,
) -> DeltaCommand<'a> {
    let deltas = if given.get_flag(LINES) {
        None
    } else {
        Some((word_in(given, first), word_in(given, second)))
    };
    DeltaCommand { making, deltas }
}

fn word_in<'a>(given: &ArgMatches<'a>, name: &str) -> &'a str {
    given.get_str(name).unwrap_or("")
}

/// The text for a user whose lines of standard input can't be the words of a command.
pub fn not_lines(alloc: Global, why: &str) -> Result<Error, AllocError> {
    let mut delta = richd_delta(alloc)?;
    delta.error(ErrorKind::InvalidValue, why)
}

fn richd_delta<'a>(alloc: Global) -> Result<Command<'a>, AllocError> {
    let delta = Command::new(alloc, "delta")
        .bin_name("richd delta")?
        .about("Composes, transforms, inverts and applies deltas, each a text {\"ops\":[..]}")
        .subcommand_required(true);
    with_subcommands(alloc, delta)
}

fn with_subcommands<'a>(alloc: Global, delta: Command<'a>) -> Result<Command<'a>, AllocError> {
    let delta = delta.subcommand(compose(alloc)?)?;
    let delta = delta.subcommand(transform(alloc)?)?;
    let delta = delta.subcommand(invert(alloc)?)?;
    delta.subcommand(apply(alloc)?)
}

fn compose<'a>(alloc: Global) -> Result<Command<'a>, AllocError> {
    let compose = Command::new(alloc, "compose").about("Prints the one delta for two in turn");
    with_two(alloc, compose)
}

fn transform<'a>(alloc: Global) -> Result<Command<'a>, AllocError> {
    let transform = Command::new(alloc, "transform").about(
        "Prints the second delta as it is after the first",
    );
    let transform = with_two(alloc, transform)?;
    with_priority(alloc, transform)
}

// The two deltas, as words or lines.
fn with_deltas<'a>(
    alloc: Global,
    command: Command<'a>,
    first: (&'a str, &'a str),
    second: (&'a str, &'a str),
) -> Result<Command<'a>, AllocError> {
    let command = with_word_unless(alloc, command, LINES, first.0, first.1)?;
    let command = with_word_unless(alloc, command, LINES, second.0, second.1)?;
    with_lines(alloc, command)
}

fn with_lines<'a>(alloc: Global, command: Command<'a>) -> Result<Command<'a>, AllocError> {
    let help = "Reads the two from standard input, each on a line of its own";
    with_flag(alloc, command, LINES, help)
}

fn with_two<'a>(alloc: Global, command: Command<'a>) -> Result<Command<'a>, AllocError> {
    with_deltas(
        alloc,
        command,
        ("A", "The first delta"),
        ("B", "The second delta"),
    )
}

fn with_priority<'a>(alloc: Global, command: Command<'a>) -> Result<Command<'a>, AllocError> {
    let help = "The first delta goes first: its insert at one place, and its value of one name";
    with_flag(alloc, command, "first", help)
}

fn invert<'a>(alloc: Global) -> Result<Command<'a>, AllocError> {
    let invert = Command::new(alloc, "invert").about(
        "Prints the delta that takes back another on a document",
    );
    with_deltas(
        alloc,
        invert,
        ("DELTA", "The delta to take back"),
        ("BASE", DOCUMENT),
    )
}

fn apply<'a>(alloc: Global) -> Result<Command<'a>, AllocError> {
    let apply = Command::new(alloc, "apply").about(
        "Prints a document after a delta, as the delta that makes it",
    );
    with_deltas(
        alloc,
        apply,
        ("DOC", DOCUMENT),
        ("DELTA", "The delta to apply"),
    )
}
