//! A command to which parts are added one by one.
use crate::words::wrong_word::WrongWord;
use clap::error::ErrorKind;
use clap::{Arg, ArgAction, Command};
use std::alloc::{AllocError, Global};

/// A command to which parts are added one by one. Where memory was wanting for one, it takes no more.
///
/// Nothing has to be known of a command but that it is one, so these calls promise nothing. What `clap` promises of each
/// part, and a way out behind each, would make a command of many parts dear to prove.
#[derive(Drop)]
pub(crate) struct CommandParts<'a>(Result<Command<'a>, AllocError>);

impl<'a> CommandParts<'a> {
    /// A command of this name, with what help says of it, before and behind its words.
    pub(crate) fn new(alloc: Global, name: &'a str, about: &'a str, examples: &'a str) -> Self {
        CommandParts::of(Command::new(alloc, name).about(about).after_help(examples))
    }

    /// The command as it is.
    pub(crate) fn of(command: Command<'a>) -> Self {
        CommandParts(Ok(command))
    }

    /// A flag, an option or a place for a word more.
    pub(crate) fn word(self, word: Arg<'a>) -> Self {
        match self.0 {
            Ok(command) => CommandParts(command.arg(word)),
            Err(lack) => CommandParts(Err(lack)),
        }
    }

    /// The same of one for which memory may have been wanting.
    pub(crate) fn made_word(self, word: Result<Arg<'a>, AllocError>) -> Self {
        match word {
            Ok(word) => self.word(word),
            Err(lack) => CommandParts(Err(lack)),
        }
    }

    /// A command below it more.
    pub(crate) fn below(self, below: CommandParts<'a>) -> Self {
        match self.0 {
            Ok(command) => match below.0 {
                Ok(below) => CommandParts(command.subcommand(below)),
                Err(lack) => CommandParts(Err(lack)),
            },
            Err(lack) => CommandParts(Err(lack)),
        }
    }

    /// The command with all its parts.
    ///
    /// # Errors
    ///
    /// `AllocError` where memory was wanting for a part.
    pub(crate) fn finish(self) -> Result<Command<'a>, AllocError> {
        self.0
    }
}

/// A flag, which is given or not.
pub(crate) fn flag<'a>(alloc: Global, name: &'a str, help: &'a str) -> Arg<'a> {
    Arg::new(alloc, name)
        .long(name)
        .help(help)
        .action(ArgAction::SetTrue)
}

/// A place for a word, which may be left out unless it is required.
pub(crate) fn place<'a>(alloc: Global, name: &'a str, help: &'a str, is_required: bool) -> Arg<'a> {
    Arg::new(alloc, name)
        .help(help)
        .required(is_required)
        .action(ArgAction::Set)
}

/// An option with a value.
pub(crate) fn option<'a>(alloc: Global, name: &'a str, value: &'a str, help: &'a str) -> Arg<'a> {
    Arg::new(alloc, name)
        .long(name)
        .value_name(value)
        .help(help)
        .action(ArgAction::Set)
}

/// The fault of a word that a command of this whole name can't take, with its usage. It is of the kind `OutOfMemory` where
/// a growth was refused, else `InvalidValue`.
pub(crate) fn fault(
    alloc: Global,
    command: CommandParts<'_>,
    name: &str,
    wrong: WrongWord<'_>,
) -> clap::Error {
    match made_fault(alloc, command, name, wrong) {
        Ok(fault) => fault,
        Err(lack) => lack.into(),
    }
}

fn made_fault(
    alloc: Global,
    command: CommandParts<'_>,
    name: &str,
    wrong: WrongWord<'_>,
) -> Result<clap::Error, AllocError> {
    let why = wrong.told(alloc)?;
    let mut command = command.finish()?.bin_name(name)?;
    command.error(ErrorKind::InvalidValue, why.as_str())
}
