//! The arguments of the commands. A chain of several `?` with a command at hand is dear to prove, so each function of
//! this crate has one or two.
use clap::{Arg, ArgAction, Command, value_parser};
use std::alloc::{AllocError, Global};

/// The most seconds that an option can be given: a day.
const MAX_SECONDS: u32 = 86_400;

/// The command with a word that has to be given.
pub fn with_word<'a>(
    alloc: Global,
    command: Command<'a>,
    name: &'a str,
    help: &'a str,
) -> Result<Command<'a>, AllocError> {
    command.arg(Arg::new(alloc, name).required(true).help(help))
}

/// The command with a word that has to be given where an option isn't, and that can't be where it is.
pub fn with_word_unless<'a>(
    alloc: Global,
    command: Command<'a>,
    option: &'a str,
    name: &'a str,
    help: &'a str,
) -> Result<Command<'a>, AllocError> {
    command.arg(word_unless(alloc, option, name, help)?)
}

fn word_unless<'a>(
    alloc: Global,
    option: &'a str,
    name: &'a str,
    help: &'a str,
) -> Result<Arg<'a>, AllocError> {
    let word = Arg::new(alloc, name).help(help);
    word.required_unless_present(option)?.conflicts_with(option)
}

/// The command with an option that takes a number.
pub fn with_number<'a>(
    alloc: Global,
    command: Command<'a>,
    name: &'a str,
    help: &'a str,
) -> Result<Command<'a>, AllocError> {
    let number = Arg::new(alloc, name)
        .long(name)
        .value_name("N")
        .value_parser(value_parser!(u32))
        .help(help);
    command.arg(number)
}

/// The command with an option that takes a number from 1 up to `most`.
pub fn with_count<'a>(
    alloc: Global,
    command: Command<'a>,
    name: &'a str,
    most: u32,
    help: &'a str,
) -> Result<Command<'a>, AllocError> {
    let count = Arg::new(alloc, name)
        .long(name)
        .value_name("N")
        .value_parser(value_parser!(u32).range(1..=most as i64))
        .help(help);
    command.arg(count)
}

/// The command with an option that takes a text.
pub fn with_text<'a>(
    alloc: Global,
    command: Command<'a>,
    name: &'a str,
    value_name: &'a str,
    help: &'a str,
) -> Result<Command<'a>, AllocError> {
    let text = Arg::new(alloc, name)
        .long(name)
        .value_name(value_name)
        .help(help);
    command.arg(text)
}

/// The command with an option that takes nothing.
pub fn with_flag<'a>(
    alloc: Global,
    command: Command<'a>,
    name: &'a str,
    help: &'a str,
) -> Result<Command<'a>, AllocError> {
    let flag = Arg::new(alloc, name)
        .long(name)
        .action(ArgAction::SetTrue)
        .help(help);
    command.arg(flag)
}

/// The command with an option that takes nothing, and that can't be given without another one.
pub fn with_flag_beside<'a>(
    alloc: Global,
    command: Command<'a>,
    other: &'a str,
    name: &'a str,
    help: &'a str,
) -> Result<Command<'a>, AllocError> {
    let flag = Arg::new(alloc, name)
        .long(name)
        .action(ArgAction::SetTrue)
        .help(help);
    command.arg(flag.requires_arg(other)?)
}

/// The command with an option that takes a number of seconds, from 0 up to a day, and that can't be given without another one.
pub fn with_seconds_beside<'a>(
    alloc: Global,
    command: Command<'a>,
    other: &'a str,
    name: &'a str,
    help: &'a str,
) -> Result<Command<'a>, AllocError> {
    let seconds = Arg::new(alloc, name)
        .long(name)
        .value_name("SECONDS")
        .value_parser(value_parser!(u32).range(0..=MAX_SECONDS as i64))
        .help(help);
    command.arg(seconds.requires_arg(other)?)
}

/// The command with an option that takes one of a few words.
pub fn with_choice<'a>(
    alloc: Global,
    command: Command<'a>,
    name: &'a str,
    choices: &'a [&'a str],
    help: &'a str,
) -> Result<Command<'a>, AllocError> {
    let choice = Arg::new(alloc, name)
        .long(name)
        .value_parser(choices)
        .help(help);
    command.arg(choice)
}
