//! The words of `connect` and `serve`.
use crate::words::command_parts::{CommandParts, fault, flag, option, place};
use crate::words::host_words::{address_to_listen, host_and_script};
use crate::words::identity_words::{identity_asked, with_identity};
use crate::words::wrong_word::WrongWord;
use clap::{Arg, ArgMatches, value_parser};
use std::alloc::{AllocError, Global};
use ws_live::{AfterUnwell, ConnectAsked, LineSettings, ServeAsked};
use ws_nego::TerminalType;
use ws_network::{CONNECT_HELP, SERVE_HELP};
use ws_printing::Paint;

// What help says of the words of a command.
/// Of the flag for screens in colour.
pub(crate) const COLOR_HELP: &str =
    "Prints the rows of a screen in colour, by sequences of ECMA-48";

const STRICT_HELP: &str =
    "Keeps to the profile, and refuses what live hosts send in addition to it";

const EXTENDED_HELP: &str = "Without effect: what it asked for is taken without --strict";

const TERMINAL_HELP: &str =
    "The terminal's type: IBM-3179-2 by default, IBM-5251-11, IBM-5291-1, IBM-5292-2 or IBM-3196-A1";

const ANY_HELP: &str = "Takes any terminal name and any record, for tests of emulators";

const HOST_HELP: &str =
    "A name or an address; one of IPv6 in brackets before a port, its zone as in fe80::1%eth0; port 23 by default";

const PORT_HELP: &str =
    "The port in a word of its own, of digits; where HOST has one, or in other words, the SCRIPT";

const ADDRESS_HELP: &str =
    "Where it listens: HOST:PORT, with an address of IPv6 in brackets; port 0 takes a free one";

const READY_HELP: &str =
    "Prints `ok` after each line's output, for a program that drives the session";

const STOP_HELP: &str =
    "Ends the session after the first line that is late, ended, refused or bad; the default with a SCRIPT";

const GO_ON_HELP: &str = "Carries out the lines after such a line; the default without a SCRIPT";

const SESSIONS_HELP: &str =
    "Serves N stations one after another by the script, N from 1 to 1000000";

const RECORD_HELP: &str =
    "Records what both ends send; FILE-1, FILE-2 .. where FILE is there already";

const WAIT_HELP: &str =
    "The time of a whole await, of connecting and of a write, from 1 to 86400; 30 by default";

const SCRIPT_HELP: &str = "A script; by default standard input, a line at a time";

/// The commands of live sessions.
pub(crate) fn connect_command<'a>(alloc: Global) -> CommandParts<'a> {
    let about = "Is a station at a host, by a script or line by line";
    let connect = CommandParts::new(alloc, "connect", about, CONNECT_HELP)
        .word(flag(alloc, "color", COLOR_HELP))
        .word(flag(alloc, "strict", STRICT_HELP))
        .word(flag(alloc, "extended", EXTENDED_HELP))
        .word(option(alloc, "terminal", "NAME", TERMINAL_HELP));
    let connect = with_identity(alloc, connect)
        .word(place(alloc, "HOST[:PORT]", HOST_HELP, true))
        .word(place(alloc, "PORT", PORT_HELP, false));
    with_script(alloc, connect)
}

pub(crate) fn serve_command<'a>(alloc: Global) -> CommandParts<'a> {
    let about = "Is a host for one station, by a script or line by line";
    let serve = CommandParts::new(alloc, "serve", about, SERVE_HELP)
        .word(flag(alloc, "any", ANY_HELP))
        .made_word(sessions(alloc))
        .word(place(alloc, "ADDRESS", ADDRESS_HELP, true));
    with_script(alloc, serve)
}

/// The paint of screens that these words ask for.
pub(crate) fn paint_asked(words: &ArgMatches<'_>) -> Paint {
    if words.get_flag("color") {
        Paint::Color
    } else {
        Paint::Plain
    }
}

// What both sessions take: the time of a wait, whether `ok` is told, what follows a line that doesn't go well, a
// recording, and a script.
fn with_script<'a>(alloc: Global, command: CommandParts<'a>) -> CommandParts<'a> {
    command
        .word(wait(alloc))
        .word(flag(alloc, "ready", READY_HELP))
        .made_word(flag(alloc, "stop", STOP_HELP).conflicts_with("go-on"))
        .word(flag(alloc, "go-on", GO_ON_HELP))
        .word(option(alloc, "record", "FILE", RECORD_HELP))
        .word(place(alloc, "SCRIPT", SCRIPT_HELP, false))
}

fn sessions<'a>(alloc: Global) -> Result<Arg<'a>, AllocError> {
    option(alloc, "sessions", "N", SESSIONS_HELP)
        .value_parser(value_parser!(u32).range(1..=1_000_000))
        .requires_arg("SCRIPT")
}

fn wait<'a>(alloc: Global) -> Arg<'a> {
    option(alloc, "wait", "SECONDS", WAIT_HELP).value_parser(value_parser!(u32).range(1..=86400))
}

/// The session that these words of `connect` ask for.
///
/// # Errors
///
/// Of the kind `InvalidValue` where no host is named so, or no device, keyboard, code page or terminal; `OutOfMemory`
/// where a growth for it was refused.
pub(crate) fn connect_asked<'a>(
    alloc: Global,
    words: &ArgMatches<'a>,
) -> Result<ConnectAsked<'a>, clap::Error> {
    match connect_named(words) {
        Ok(asked) => Ok(asked),
        Err(wrong) => Err(fault(alloc, connect_command(alloc), "t5250 connect", wrong)),
    }
}

fn connect_named<'a>(words: &ArgMatches<'a>) -> Result<ConnectAsked<'a>, WrongWord<'a>> {
    let first = words.get_str("HOST[:PORT]").unwrap_or("");
    let (second, third) = (words.get_str("PORT"), words.get_str("SCRIPT"));
    let (host, script) = host_and_script(first, second, third)?;
    let identity = identity_asked(words)?;
    Ok(ConnectAsked {
        host,
        terminal: terminal_asked(words)?,
        wait: seconds(words),
        settings: settings_asked(words, paint_asked(words), script),
        extended: !words.get_flag("strict"),
        identity,
        record: words.get_str("record"),
        script,
    })
}

fn terminal_asked<'a>(words: &ArgMatches<'a>) -> Result<TerminalType, WrongWord<'a>> {
    match words.get_str("terminal") {
        Some(name) => { TerminalType::from_name(name.as_bytes()).ok_or(WrongWord::Terminal(name)) }
        None => Ok(TerminalType::default()),
    }
}

/// The session that these words of `serve` ask for.
///
/// # Errors
///
/// Of the kind `InvalidValue` where no address to listen at is named so; `OutOfMemory` where a growth for it was
/// refused.
pub(crate) fn serve_asked<'a>(
    alloc: Global,
    words: &ArgMatches<'a>,
) -> Result<ServeAsked<'a>, clap::Error> {
    let address = match address_to_listen(words.get_str("ADDRESS").unwrap_or("")) {
        Ok(address) => address,
        Err(wrong) => return Err(fault(alloc, serve_command(alloc), "t5250 serve", wrong)),
    };
    let script = words.get_str("SCRIPT");
    Ok(ServeAsked {
        address,
        wait: seconds(words),
        settings: settings_asked(words, Paint::Plain, script),
        any: words.get_flag("any"),
        sessions: words.get_one::<u32>("sessions"),
        record: words.get_str("record"),
        script,
    })
}

// How the lines are carried out: where no word says it, a line that doesn't go well stops the lines of a script alone.
fn settings_asked(words: &ArgMatches<'_>, paint: Paint, script: Option<&str>) -> LineSettings {
    let is_to_stop = words.get_flag("stop") || (script.is_some() && !words.get_flag("go-on"));
    LineSettings {
        ready: words.get_flag("ready"),
        paint,
        after: if is_to_stop {
            AfterUnwell::Stop
        } else {
            AfterUnwell::GoOn
        },
    }
}

// The time of a wait. No 0 comes through.
fn seconds(words: &ArgMatches<'_>) -> u32 {
    words.get_one::<u32>("wait").unwrap_or(30).max(1)
}
