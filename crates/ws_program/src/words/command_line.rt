//! What a command line asks for.
use crate::file_checks::FileChecks;
use crate::stream_trace::StreamTrace;
use crate::tables::Table;
use crate::words::command_parts::{CommandParts, fault, flag, option, place};
use crate::words::input_help::{
    ALL_HELP, ANSWERS_HELP, CHECK_EXAMPLES, CUT_HELP, EXTENDED_HELP, FILES_HELP, HEX_AND_STATUS,
    ITEMS_HELP, MAKE_EXAMPLES, OF_HELP, PLAY_EXAMPLES, RAW_HELP, RAW_OUT_HELP, SCREEN_HELP,
    SCRIPT_HELP, TCP_HELP,
};
use crate::words::live_command::{
    COLOR_HELP, connect_asked, connect_command, paint_asked, serve_asked, serve_command,
};
use crate::words::show_words::{ShowForm, show_asked, show_command};
use crate::words::table_command::{keys_command, reasons_asked, reasons_command};
use crate::words::trace_words::{trace_asked, trace_command};
use crate::words::wrong_word::WrongWord;
use clap::{Arg, ArgAction, ArgMatches, Command, value_parser};
use std::alloc::{AllocError, Global};
use std::convert::AsStr;
use std::num::NonZeroU16;
use ws_live::SessionAsked;
use ws_printing::{Look, Paint};
use ws_script::Sender;
use ws_trace::TraceForm;

/// What a command line asks for.
#[derive(Debug, Drop)]
pub enum Task<'a> {
    /// Something of an input that is read first.
    Input(InputAsked<'a>),
    /// Checks of several files.
    Files(FileChecks<'a>),
    /// The same, which go on after refusals.
    AllFiles(FileChecks<'a>),
    /// The dialogue of two streams.
    Streams(StreamTrace<'a>),
    /// To print a table.
    Print(Table),
    /// A live session.
    Live(SessionAsked<'a>),
}

/// Whose lines of a recording are read.
#[derive(Clone, Copy, Debug, PartialEq, Eq)]
pub enum RecordedEnd {
    Host,
    Station,
}

/// How an input tells the bytes of a stream.
#[derive(Clone, Copy, Debug, PartialEq, Eq)]
pub enum StreamForm {
    /// As hex text.
    Hex,
    /// As a recording, a line a piece, of which one end's pieces are the stream.
    Recorded(RecordedEnd),
    /// It is the bytes.
    Raw,
}

/// What is asked for of an input.
#[derive(Clone, Copy, Debug, PartialEq, Eq)]
pub enum InputAsked<'a> {
    /// To check the bytes that an input tells, in pieces of `cut`: as a host's commands, or as a station's answers.
    Check {
        file: Option<&'a str>,
        form: StreamForm,
        cut: NonZeroU16,
        from: Sender,
    },
    /// The same, and the next record is read after a refused one; with `named` each line stands after the file's name.
    CheckAll {
        file: Option<&'a str>,
        form: StreamForm,
        from: Sender,
        named: bool,
    },
    /// To show the items of such bytes: as a host's commands, with the screen that they make in a paint and on a page,
    /// or as a station's answers.
    Show {
        file: Option<&'a str>,
        form: StreamForm,
        from: Sender,
        look: Look,
    },
    /// The same of bytes of which records may be refused, after which the next is read.
    ShowAll {
        file: Option<&'a str>,
        form: StreamForm,
        from: Sender,
        shown: ShowForm,
    },
    /// To tell what both ends sent by a recording, in the order of time.
    Trace {
        file: Option<&'a str>,
        form: TraceForm,
    },
    /// To play a script with both ends, and to tell what happens; with `screen` also the station's screen at the end,
    /// in a paint. With `tcp` their bytes go over a connection.
    Play {
        file: Option<&'a str>,
        screen: bool,
        tcp: bool,
        paint: Paint,
    },
    /// To write the stream whose items a text spells: as a host's commands, or as a station's answers; with `raw` its
    /// bytes, else as hex text.
    Make {
        file: Option<&'a str>,
        from: Sender,
        raw: bool,
    },
}

impl<'a> InputAsked<'a> {
    /// The file that is to be read; without it, standard input is.
    pub fn file(self) -> Option<&'a str> {
        match self {
            InputAsked::Check { file, .. }
            | InputAsked::CheckAll { file, .. }
            | InputAsked::Show { file, .. }
            | InputAsked::ShowAll { file, .. }
            | InputAsked::Trace { file, .. }
            | InputAsked::Play { file, .. }
            | InputAsked::Make { file, .. } => file,
        }
    }
}

// The commands that the program knows.
fn program<'a>(alloc: Global) -> Result<Command<'a>, AllocError> {
    CommandParts::of(bare_program(alloc))
        .below(check_command(alloc))
        .below(show_command(alloc))
        .below(trace_command(alloc))
        .below(play_command(alloc))
        .below(make_command(alloc))
        .below(reasons_command(alloc))
        .below(keys_command(alloc))
        .below(connect_command(alloc))
        .below(serve_command(alloc))
        .finish()
}

fn bare_program<'a>(alloc: Global) -> Command<'a> {
    Command::new(alloc, "t5250")
        .version("4.0.0")
        .about("Checks, shows and makes IBM 5250 streams, and is a station or a host (RFC 1205)")
        .after_help(HEX_AND_STATUS)
        .subcommand_required(true)
}

fn check_command<'a>(alloc: Global) -> CommandParts<'a> {
    let about = "Tells whether a stream is accepted, refused or truncated";
    CommandParts::new(alloc, "check", about, CHECK_EXAMPLES)
        .word(flag(alloc, "answers", ANSWERS_HELP))
        .word(flag(alloc, "extended", EXTENDED_HELP))
        .word(flag(alloc, "all", ALL_HELP))
        .word(cut(alloc))
        .word(of(alloc))
        .made_word(raw(alloc))
        .word(files(alloc))
}

fn play_command<'a>(alloc: Global) -> CommandParts<'a> {
    let about = "Plays a script of sends, keys and deliveries with both ends";
    CommandParts::new(alloc, "play", about, PLAY_EXAMPLES)
        .word(flag(alloc, "screen", SCREEN_HELP))
        .word(flag(alloc, "color", COLOR_HELP))
        .word(flag(alloc, "tcp", TCP_HELP))
        .word(place(alloc, "SCRIPT", SCRIPT_HELP, false))
}

fn make_command<'a>(alloc: Global) -> CommandParts<'a> {
    let about = "Prints a stream as hex text, from the lines that show prints";
    CommandParts::new(alloc, "make", about, MAKE_EXAMPLES)
        .word(flag(alloc, "answers", ANSWERS_HELP))
        .word(flag(alloc, "extended", EXTENDED_HELP))
        .word(flag(alloc, "raw", RAW_OUT_HELP))
        .word(place(alloc, "FILE", ITEMS_HELP, false))
}

fn files<'a>(alloc: Global) -> Arg<'a> {
    Arg::new(alloc, "FILE")
        .help(FILES_HELP)
        .num_args(0..)
        .action(ArgAction::Append)
}

fn cut<'a>(alloc: Global) -> Arg<'a> {
    option(alloc, "cut", "N", CUT_HELP).value_parser(value_parser!(u16).range(1..=65535))
}

// The ends by name, the host first.
const ENDS: [&str; 2] = ["host", "station"];

/// The option that names an end of a recording.
pub(crate) fn of<'a>(alloc: Global) -> Arg<'a> {
    option(alloc, "of", "END", OF_HELP).value_parser(ENDS.as_slice())
}

/// The flag of raw bytes. An input is no recording and raw bytes at once.
pub(crate) fn raw<'a>(alloc: Global) -> Result<Arg<'a>, AllocError> {
    flag(alloc, "raw", RAW_HELP).conflicts_with("of")
}

/// The fault of words that the program can't even take as text.
///
/// # Errors
///
/// Of the kind `OutOfMemory` where a growth was refused.
pub(crate) fn no_text(alloc: Global) -> Result<clap::Error, clap::Error> {
    program_fault(alloc, "a word isn't UTF-8")
}

fn program_fault(alloc: Global, why: &str) -> Result<clap::Error, clap::Error> {
    let program = CommandParts::of(program(alloc)?);
    Ok(fault(alloc, program, "t5250", WrongWord::Because(why)))
}

/// What the words ask for, of which the first is the program's name.
///
/// Without `--cut` the bytes are read in the largest pieces.
///
/// # Errors
///
/// What `clap` tells where they ask for nothing that the program knows, or for help or its version; of the kind
/// `OutOfMemory` where a growth was refused.
pub(crate) fn read_words<'a, S: AsStr>(
    alloc: Global,
    words: &'a [S],
) -> Result<Task<'a>, clap::Error> {
    let matches = program(alloc)?.try_get_matches_from(words)?;
    let (name, words) = matches.subcommand().unwrap_or(("", &matches));
    match name {
        "check" => check_asked(alloc, words),
        "show" => Ok(Task::Input(show_asked(alloc, words)?)),
        "trace" => trace_asked(alloc, words),
        "play" => Ok(Task::Input(play_asked(words))),
        "make" => Ok(Task::Input(make_asked(words))),
        "reasons" => Ok(Task::Print(reasons_asked(alloc, words)?)),
        "keys" => Ok(Task::Print(Table::Keys)),
        "connect" => Ok(Task::Live(SessionAsked::Connect(connect_asked(alloc, words)?))),
        "serve" => Ok(Task::Live(SessionAsked::Serve(serve_asked(alloc, words)?))),
        _ => Err(program_fault(alloc, "no subcommand")?),
    }
}

// A check of one file or of standard input, or checks of several files. Where it goes on after refusals, the size of the
// pieces says nothing.
fn check_asked<'a>(alloc: Global, words: &ArgMatches<'a>) -> Result<Task<'a>, clap::Error> {
    // The parser of `--cut` lets no 0 through.
    let cut = words.get_one::<u16>("cut").unwrap_or(u16::MAX);
    let cut = NonZeroU16::new(cut).unwrap_or(NonZeroU16::MAX);
    let (form, from) = (form_asked(words), sender_asked(words));
    let named = words.get_strs("FILE").unwrap_or(&[]);
    let all = words.get_flag("all");
    if named.len() > 1 {
        let mut files = Vec::new(alloc);
        files.extend_from_slice(named)?;
        let checks = FileChecks {
            files,
            form,
            cut,
            from,
        };
        return Ok(if all {
            Task::AllFiles(checks)
        } else {
            Task::Files(checks)
        });
    }
    let file = named.first().copied();
    Ok(Task::Input(if all {
        InputAsked::CheckAll {
            file,
            form,
            from,
            named: false,
        }
    } else {
        InputAsked::Check {
            file,
            form,
            cut,
            from,
        }
    }))
}

/// How the input tells the bytes. The parser of `--of` lets no other name through, and none beside `--raw`.
pub(crate) fn form_asked(words: &ArgMatches<'_>) -> StreamForm {
    if words.get_flag("raw") {
        return StreamForm::Raw;
    }
    match words.get_str("of") {
        None => StreamForm::Hex,
        Some("host") => StreamForm::Recorded(RecordedEnd::Host),
        Some(_) => StreamForm::Recorded(RecordedEnd::Station),
    }
}

/// Whose stream is read.
pub(crate) fn sender_asked(words: &ArgMatches<'_>) -> Sender {
    match (words.get_flag("answers"), words.get_flag("extended")) {
        (false, false) => Sender::Host,
        (false, true) => Sender::ExtendedHost,
        (true, false) => Sender::Station,
        (true, true) => Sender::ExtendedStation,
    }
}

fn play_asked<'a>(words: &ArgMatches<'a>) -> InputAsked<'a> {
    InputAsked::Play {
        file: words.get_str("SCRIPT"),
        screen: words.get_flag("screen"),
        tcp: words.get_flag("tcp"),
        paint: paint_asked(words),
    }
}

fn make_asked<'a>(words: &ArgMatches<'a>) -> InputAsked<'a> {
    InputAsked::Make {
        file: words.get_str("FILE"),
        from: sender_asked(words),
        raw: words.get_flag("raw"),
    }
}
