//! The words of `trace`.
use crate::stream_trace::StreamTrace;
use crate::words::command_line::{InputAsked, Task};
use crate::words::command_parts::{CommandParts, fault, flag, option, place};
use crate::words::input_help::{
    HOST_STREAM_HELP, JSON_HELP, RAW_HELP, RECORDING_HELP, STATION_STREAM_HELP, TRACE_EXAMPLES,
};
use crate::words::wrong_word::WrongWord;
use clap::{Arg, ArgMatches};
use std::alloc::{AllocError, Global};
use ws_trace::{Heads, TraceForm};

/// The command that prints what both ends sent.
pub(crate) fn trace_command<'a>(alloc: Global) -> CommandParts<'a> {
    let about =
        "Prints what both ends sent: of a recording in the order of time, or of two streams";
    CommandParts::new(alloc, "trace", about, TRACE_EXAMPLES)
        .made_word(stream(alloc, "host", HOST_STREAM_HELP))
        .made_word(stream(alloc, "station", STATION_STREAM_HELP))
        .word(flag(alloc, "raw", RAW_HELP))
        .word(flag(alloc, "json", JSON_HELP))
        .word(place(alloc, "FILE", RECORDING_HELP, false))
}

// What an end sent, in place of a recording.
fn stream<'a>(alloc: Global, end: &'a str, help: &'a str) -> Result<Arg<'a>, AllocError> {
    option(alloc, end, "FILE", help).conflicts_with("FILE")
}

/// What the words of `trace` ask for: the dialogue of two streams where one is named, else of a recording.
///
/// # Errors
///
/// Of the kind `InvalidValue` for raw bytes of a recording; `OutOfMemory` where a growth for it was refused.
pub(crate) fn trace_asked<'a>(
    alloc: Global,
    words: &ArgMatches<'a>,
) -> Result<Task<'a>, clap::Error> {
    let (host, station) = (words.get_str("host"), words.get_str("station"));
    let raw = words.get_flag("raw");
    if host.is_some() || station.is_some() {
        let form = form_asked(words, Heads::Untimed);
        return Ok(Task::Streams(StreamTrace {
            host,
            station,
            raw,
            form,
        }));
    }
    if raw {
        let why = "a recording isn't raw: `--raw` stands with `--host` or `--station`";
        return Err(fault(
            alloc,
            trace_command(alloc),
            "t5250 trace",
            WrongWord::Because(why),
        ));
    }
    let file = words.get_str("FILE");
    let form = form_asked(words, Heads::Timed);
    Ok(Task::Input(InputAsked::Trace { file, form }))
}

// The form of a dialogue's text that the words ask for, with or without times.
fn form_asked(words: &ArgMatches<'_>, heads: Heads) -> TraceForm {
    if words.get_flag("json") {
        TraceForm::Objects(heads)
    } else {
        TraceForm::Lines(heads)
    }
}
