//! The commands that print a table.
use crate::tables::{Table, reason_numbered};
use crate::words::command_parts::{CommandParts, fault, place};
use crate::words::wrong_word::WrongWord;
use clap::ArgMatches;
use std::alloc::Global;

const REASONS_EXAMPLES: &str = "\
It prints a line for each reason, by its number and name as check prints them,
with what was wrong:
  33 Roll: rolling of the screen isn't part of the profile

1 to 4 are of Telnet, 10 to 16 of a record's header, 20 to 45 of its body, 50 to
55 of the screen, 60 to 63 of a session.

Examples:
  t5250 reasons
  t5250 reasons 33";

const KEYS_EXAMPLES: &str = "\
It prints a line for each key, by its name after `key` in a script of play and
connect. After it stands the byte (AID) by which an answer tells the key, where
it sends one:
  FieldExit
  F3 33
Reset is a key of connect alone, and not with --strict. Characters are typed by
`type TEXT`.

Examples:
  t5250 keys
  t5250 keys | grep F1";

const REASON_HELP: &str = "The number of a reason, of which alone the line is printed";

/// The commands that print a table.
pub(crate) fn reasons_command<'a>(alloc: Global) -> CommandParts<'a> {
    let about = "Prints the reasons for which bytes are refused";
    let number = place(alloc, "K", REASON_HELP, false);
    CommandParts::new(alloc, "reasons", about, REASONS_EXAMPLES).word(number)
}

pub(crate) fn keys_command<'a>(alloc: Global) -> CommandParts<'a> {
    let about = "Prints the keys by their names in scripts";
    CommandParts::new(alloc, "keys", about, KEYS_EXAMPLES)
}

/// The table that these words of `reasons` ask for.
///
/// # Errors
///
/// Of the kind `InvalidValue` where no reason has the number; `OutOfMemory` where a growth for it was refused.
pub(crate) fn reasons_asked(alloc: Global, words: &ArgMatches<'_>) -> Result<Table, clap::Error> {
    let Some(word) = words.get_str("K") else {
        return Ok(Table::Reasons);
    };
    if let Ok(number) = word.parse::<u8>() {
        if let Some(reason) = reason_numbered(number) {
            return Ok(Table::Reason(reason));
        }
    }
    Err(fault(
        alloc,
        reasons_command(alloc),
        "t5250 reasons",
        WrongWord::Reason(word),
    ))
}
