//! The commands, as the command line and its help show them.
use crate::auditor_forms::auditor_forms;
use crate::command_form::{Choice, Form, Word};
use crate::remote_forms::remote_forms;
use crate::serving_forms::serving_forms;
use crate::store_forms::store_forms;
use audit_log::VERSION as FORMAT_VERSION;
use clap::{Arg, ArgAction, Command};
use std::alloc::{AllocError, Global};

/// An option of every command.
pub const EXPLAIN: &str = "explain";

/// An option of `daemon` that may be given more than once.
pub const WRITER: &str = "writer";

/// An option of `salvage` that may be given more than once.
pub const PROOF: &str = "proof";

/// An option of `rotate`, which then makes no store.
pub const PREPARED: &str = "prepared";

/// The word for the link by which a witness goes on from another log.
pub const LINK: &str = "LINK";

/// An option of the commands that open a store to append to it.
pub const EXTENDS: &str = "extends";

/// An option of `verify`, which then needs no key of the log.
pub const DISCLOSED: &str = "disclosed";

/// An option of `disclose`, which needs this one or `--kind`.
pub const EVENTS: &str = "events";

/// Another option of every command.
pub const NO_PROGRESS: &str = "no-progress";

/// What `--version` prints after the name: the program's version, the formats that it reads, and the logic in which it
/// is proved, which is the last word of `rt version`.
const VERSION: &str = "2.1.0, formats 1 and 2, logic dac8208d650f15bf";

// The help of that option.
const EXPLAINS: &str =
    "Prints the cause of a fault and warnings in lines of their own, as on a terminal";

// The help of the other one.
const NO_PROGRESSES: &str = "Shows no progress on a terminal";

// The number of the newest format is that of the code.
const _: () = prove!(FORMAT_VERSION == 2);

/// The program's command line.
pub fn command_line<'a>(alloc: Global) -> Result<Command<'a>, AllocError> {
    let command = Command::new(alloc, "audit")
        .about("A tamper-evident audit store")
        .version(VERSION);
    let command = with_commands(alloc, command, &store_forms())?;
    let command = with_commands(alloc, command, &auditor_forms())?;
    let command = with_commands(alloc, command, &serving_forms())?;
    with_commands(alloc, command, &remote_forms())
}

fn with_commands<'a>(
    alloc: Global,
    mut command: Command<'a>,
    forms: &[&'static Form],
) -> Result<Command<'a>, AllocError> {
    for form in forms {
        command = with_command(alloc, command, form)?;
    }
    Ok(command)
}

// Adds one command. This isn't part of the loop, like `with_option` below, because a proof carries both commands
// through each way out of a function that holds them.
fn with_command<'a>(
    alloc: Global,
    command: Command<'a>,
    form: &'static Form,
) -> Result<Command<'a>, AllocError> {
    command.subcommand(subcommand(alloc, form)?)
}

fn subcommand<'a>(alloc: Global, form: &'static Form) -> Result<Command<'a>, AllocError> {
    let command = with_words(alloc, described(alloc, form), form)?;
    let command = with_options(alloc, command, form.options)?;
    with_flags(alloc, command)
}

// The command with its help alone.
fn described<'a>(alloc: Global, form: &'static Form) -> Command<'a> {
    let command = Command::new(alloc, form.name).about(form.about);
    match form.after {
        Some(text) => command.after_help(text),
        None => command,
    }
}

fn with_words<'a>(
    alloc: Global,
    mut command: Command<'a>,
    form: &'static Form,
) -> Result<Command<'a>, AllocError> {
    for word in form.words {
        command = with_word(alloc, command, form, word)?;
    }
    Ok(command)
}

fn with_word<'a>(
    alloc: Global,
    command: Command<'a>,
    form: &'static Form,
    word: &'static Word,
) -> Result<Command<'a>, AllocError> {
    command.arg(word_in(alloc, form, word)?)
}

// A word of a command. Those about a store that is made are left out if it was prepared, and a witness takes a link only
// with the file that it comes from.
fn word_in<'a>(
    alloc: Global,
    form: &'static Form,
    word: &'static Word,
) -> Result<Arg<'a>, AllocError> {
    let arg = word_of(alloc, word);
    if form.name == "rotate" && (word.name == "SECTORS" || word.name == "KEYFILE") {
        return arg.required(false).required_unless_present(PREPARED);
    }
    if word.name == LINK {
        return arg.requires_arg("after");
    }
    Ok(arg)
}

fn word_of<'a>(alloc: Global, word: &'static Word) -> Arg<'a> {
    Arg::new(alloc, word.name)
        .required(word.is_required)
        .action(ArgAction::Set)
        .help(word.help)
}

fn with_options<'a>(
    alloc: Global,
    mut command: Command<'a>,
    options: &'static [Choice],
) -> Result<Command<'a>, AllocError> {
    for option in options {
        command = with_option(alloc, command, option)?;
    }
    Ok(command)
}

fn with_option<'a>(
    alloc: Global,
    command: Command<'a>,
    option: &'static Choice,
) -> Result<Command<'a>, AllocError> {
    command.arg(option_of(alloc, option)?)
}

// The options of every command.
fn with_flags<'a>(alloc: Global, command: Command<'a>) -> Result<Command<'a>, AllocError> {
    let command = command.arg(flag(alloc, EXPLAIN, EXPLAINS))?;
    command.arg(flag(alloc, NO_PROGRESS, NO_PROGRESSES))
}

fn option_of<'a>(alloc: Global, option: &'static Choice) -> Result<Arg<'a>, AllocError> {
    let arg = with_value(alloc, option);
    let arg = if option.name == EVENTS {
        arg.required_unless_present("kind")?
    } else {
        arg
    };
    let arg = match option.needs {
        Some(other) => arg.requires_arg(other)?,
        None => arg,
    };
    match option.excludes {
        Some(other) => arg.conflicts_with(other),
        None => Ok(arg),
    }
}

// The option with its value, if it has one, but not what it needs and excludes.
fn with_value<'a>(alloc: Global, option: &'static Choice) -> Arg<'a> {
    match option.value {
        Some(value) => Arg::new(alloc, option.name)
            .long(option.name)
            .value_name(value)
            .action(if option.name == WRITER || option.name == PROOF {
                ArgAction::Append
            } else {
                ArgAction::Set
            })
            .help(option.help),
        None => flag(alloc, option.name, option.help),
    }
}

fn flag<'a>(alloc: Global, name: &'a str, help: &'a str) -> Arg<'a> {
    Arg::new(alloc, name)
        .long(name)
        .action(ArgAction::SetTrue)
        .help(help)
}
