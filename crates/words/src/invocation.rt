//! What the words ask for.
use crate::deltas::{DeltaCommand, command_in};
use crate::store::{self, Listening, ShapeOptions};
use clap::error::ErrorKind;
use clap::{Command, Error};
use std::alloc::{AllocError, Global};
use std::convert::AsStr;
use std::env::{self, Env};
use std::io;

/// The version of the program, which `richd --version` prints behind its name.
pub const VERSION: &str = "0.2.0";

/// What the words ask for.
#[derive(Clone, Copy, Debug, PartialEq, Eq)]
pub enum Invocation<'a> {
    /// To make a store in this file. Where the file is made and `reserve` is given, it is first written whole.
    Format {
        path: &'a str,
        shape: ShapeOptions,
        reserve: bool,
    },
    /// To serve the store in this file: to those who connect to an address where one is given, else to one session over
    /// standard input and output. A milestone of a document is put where it passes a multiple of `every` revisions, which is 1 to
    /// 65,536. The store is read as for `Dump`.
    Serve {
        path: &'a str,
        listening: Option<Listening<'a>>,
        every: u32,
        older: bool,
    },
    /// To print the documents of the store in this file. Where a document has two milestones, its reading begins with the newer
    /// one, or with the older one where that is asked for.
    Dump {
        path: &'a str,
        older: bool,
    },
    /// To print how full the store in this file is, or what each of its documents holds and has left.
    Info {
        path: &'a str,
        documents: bool,
    },
    /// To read the store in this file by both milestones of each document, and to tell whether the two readings match.
    Check {
        path: &'a str,
    },
    /// To bring the store of the first format in one file over to another file.
    Migrate {
        old: &'a str,
        new: &'a str,
    },
    /// To copy the store in one file to another file, with the numbers that the words give and those of the old store.
    Copy {
        old: &'a str,
        new: &'a str,
        shape: ShapeOptions,
    },
    /// To print what comes of two deltas.
    Delta(DeltaCommand<'a>),
}

impl<'a> Invocation<'a> {
    /// What the words ask for, where the first is the program's path. An `Err` has the text for the user: a usage
    /// fault, or the help or the version that was asked for.
    pub fn parse<S: AsStr>(alloc: Global, words: &'a [S]) -> Result<Invocation<'a>, Error> {
        match words {
            [_, first, ..] if first.as_str() == "delta" => {
                Ok(Invocation::Delta(command_in(alloc, &words[1..])?))
            }
            _ => Invocation::of_store(alloc, words),
        }
    }

    fn of_store<S: AsStr>(alloc: Global, words: &'a [S]) -> Result<Invocation<'a>, Error> {
        let matches = richd(alloc)?.try_get_matches_from(words)?;
        Ok(match matches.subcommand() {
            Some(("format", given)) => Invocation::Format {
                path: store::path_in(given),
                shape: store::shape_in(given),
                reserve: store::is_reserved(given),
            },
            Some(("serve", given)) => Invocation::Serve {
                path: store::path_in(given),
                listening: store::listening_in(given),
                every: store::every_in(given),
                older: store::is_older(given),
            },
            Some(("info", given)) => Invocation::Info {
                path: store::path_in(given),
                documents: store::has_documents(given),
            },
            Some(("check", given)) => Invocation::Check {
                path: store::path_in(given),
            },
            Some(("migrate", given)) => {
                let (old, new) = store::files_in(given);
                Invocation::Migrate { old, new }
            }
            Some(("copy", given)) => {
                let (old, new) = store::files_in(given);
                let shape = store::shape_in(given);
                Invocation::Copy { old, new, shape }
            }
            Some((_, given)) => Invocation::Dump {
                path: store::path_in(given),
                older: store::is_older(given),
            },
            None => Invocation::Dump {
                path: "",
                older: false,
            },
        })
    }
}

/// The words that the system gives the program, where the first is its path. An `Err` has the text for a user whose words can't be
/// had, since one of them isn't UTF-8, or is out of memory.
pub fn given<R: Env + AllocGlobal>(rt: &R) -> Result<Vec<String>, Error> {
    match env::args(rt) {
        Ok(words) => Ok(words.collect(rt.alloc())?),
        Err(error) if error.kind() == io::ErrorKind::OutOfMemory => Err(Error::from(AllocError)),
        Err(_) => Err(not_texts(rt.alloc())?),
    }
}

fn not_texts(alloc: Global) -> Result<Error, AllocError> {
    let mut richd = richd(alloc)?;
    richd.error(ErrorKind::InvalidValue, "an argument isn't UTF-8")
}

fn richd<'a>(alloc: Global) -> Result<Command<'a>, AllocError> {
    let richd = Command::new(alloc, "richd")
        .version(VERSION)
        .about("A durable server for rich text")
        .subcommand_required(true);
    with_subcommands(alloc, richd)
}

fn with_subcommands<'a>(alloc: Global, richd: Command<'a>) -> Result<Command<'a>, AllocError> {
    let richd = richd.subcommand(store::format(alloc)?)?;
    let richd = richd.subcommand(store::serve(alloc)?)?;
    let richd = with_readers(alloc, richd)?;
    with_movers(alloc, richd)?.subcommand(delta(alloc))
}

// The commands that only read a store.
fn with_readers<'a>(alloc: Global, richd: Command<'a>) -> Result<Command<'a>, AllocError> {
    let richd = richd.subcommand(store::dump(alloc)?)?;
    let richd = richd.subcommand(store::info(alloc)?)?;
    richd.subcommand(store::check(alloc)?)
}

// The commands that read one store and make another.
fn with_movers<'a>(alloc: Global, richd: Command<'a>) -> Result<Command<'a>, AllocError> {
    let richd = richd.subcommand(store::migrate(alloc)?)?;
    richd.subcommand(store::copy(alloc)?)
}

// For the help alone: its words are read by `command_in`.
fn delta<'a>(alloc: Global) -> Command<'a> {
    Command::new(alloc, "delta").about(
        "Composes, transforms, inverts or applies deltas: 'richd delta --help' tells more",
    )
}
