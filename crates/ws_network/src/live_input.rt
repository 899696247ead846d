//! The lines of a live session: those of a script, or of standard input one by one.
ghost use Rattle.std.specs.Prelude.{◌≡◌, ◌⊎◌, [], List, Some, false, true, IfOk, IfErr, IfSome};
ghost use Rattle.std.specs.Option.{is_some};
ghost use Rattle.ws_live.specs.live.Watches.{InTime};
ghost use Rattle.ws_network.specs.InputLines.{IsInputFault, IsNextLine};
ghost use Rattle.ws_network.specs.SessionPrinting.{AreInput, AreScripted, session_lines, session_printing};
ghost use Rattle.ws_script.specs.declared.lines.live_line.NumberedLine.{NumberedLine as ANumbered};
ghost use Rattle.ws_text.specs.Printed.{IsPrinted};

use crate::connecting::host_text;
use crate::input_lines::{InputLines, Next, TypedWord, next_line};
use crate::line_help::put_line_help;
use crate::live_runtime::LiveRuntime;
use crate::lookout::comes_before_line;
use crate::timed_sink::TimedSink;
use crate::timed_source::TimedSource;
use crate::timer::TimedWatch;
use std::io::{BufRead, BufReader};
use std::os::fd::{AsRawFd, RawFd};
use ws_code::{Sink, Source};
use ws_live::{
    AfterUnwell, Closing, ConnectAsked, LineSettings, LiveMove, LiveSession, Ran, Watch,
    carry_line, carry_lines,
};
use ws_printing::BufferedSink;
use ws_script::{LiveLine, NumberedLine, RunFault, ToldFault, Vocabulary};
use ws_session::End;

/// A live session over a connection.
pub(crate) type TimedSession<'a, E, R> = LiveSession<
    E,
    TimedSource<'a, R>,
    TimedSink<'a, R>,
    TimedWatch<'a, R>,
>;

/// Carries out the lines of a script, or without one those of standard input.
///
/// # Errors
///
/// As `carry_line`. Without a script also `Read` where standard input can't be read, `Line` where a line of it is bad,
/// unless the session tells when it is ready, and `Memory` where a growth was refused in reading it.
pub(crate) fn carry_session<R, E, S, K, L, W, O>(
    rt: &R,
    session: &mut LiveSession<E, S, K, W>,
    script: Option<&[NumberedLine<L>]>,
    vocabulary: Vocabulary,
    settings: LineSettings,
    out: &mut BufferedSink<O>,
) -> Result<Ran, ToldFault>
where
    R: LiveRuntime,
    E: End,
    S: Source + AsRawFd,
    K: Sink,
    L: LiveMove<E, S, K>,
    W: Watch<S>,
    O: Sink,
    // At an end that works, with nothing held back.
    requires works { session.old.attached.broken ≡ false }
    requires empty { out.old.held ≡ [] }
    // What was printed, and how it ended.
    ensures printed { (lines : List (ANumbered L))
        × AreScripted L.language settings.ready script.entry lines
        × IsPrinted O.writer out.old.sink out.new.sink (session_printing
        (session_lines (λ telling. InTime (L.runs W.tells telling) L.waits W.times) settings
        session.old lines session.new)
        (is_some script.entry) (λ ran told. told ≡ ran)) result }
    // The end works on unless the session is over, and nothing is held back.
    ensures works { IfOk result (λ ran.
        ran.is_over ≡ false → session.new.attached.broken ≡ false) }
    ensures held { out.new.held ≡ [] }
{
    match script {
        Some(lines) => Ok(carry_lines(session, lines, settings, out)?),
        None => { carry_input::<R, E, S, K, L, W, O>(rt, session, vocabulary, settings, out) },
    }
}

// Carries out each line of standard input, with those that belong to it, before it reads the next, but for the line
// that ends these. It tells no number: who writes them reads what each tells before the next.
fn carry_input<R, E, S, K, L, W, O>(
    rt: &R,
    session: &mut LiveSession<E, S, K, W>,
    vocabulary: Vocabulary,
    settings: LineSettings,
    out: &mut BufferedSink<O>,
) -> Result<Ran, ToldFault>
where
    R: LiveRuntime,
    E: End,
    S: Source + AsRawFd,
    K: Sink,
    L: LiveMove<E, S, K>,
    W: Watch<S>,
    O: Sink,
    // At an end that works, with nothing held back.
    requires works { session.old.attached.broken ≡ false }
    requires empty { out.old.held ≡ [] }
    // What was printed, and how it ended.
    ensures printed { (lines : List (ANumbered L)) × AreInput L.language settings.ready lines
        × IsPrinted O.writer out.old.sink out.new.sink (session_printing
        (session_lines (λ telling. InTime (L.runs W.tells telling) L.waits W.times) settings
        session.old lines session.new)
        false (λ ran told. told ≡ ran)) result }
    // The end works on unless the session is over, and nothing is held back.
    ensures works { IfOk result (λ ran.
        ran.is_over ≡ false → session.new.attached.broken ≡ false) }
    ensures held { out.new.held ≡ [] }
{
    let mut ran = Ran::none();
    // A reader by itself reads a byte a call, so that it takes nothing of the lines that it isn't asked for.
    let Ok(reader) = BufReader::new(rt.alloc(), rt.reader()) else {
        return Err(ToldFault::Run(RunFault::Memory));
    };
    let mut input = InputLines::new(rt.alloc(), reader, is_typed(rt, settings));
    let mut connection = Some(session.attached.source().as_raw_fd());
    for _ in 0..u64::MAX {
        let next = line_to_do::<R, BufReader<R::Reader>, L>(
            rt, &mut input, connection, vocabulary, settings,
        )?;
        let Some(line) = next else {
            return Ok(ran);
        };
        let line = NumberedLine { number: None, line };
        let closing = carry_line(session, &line, settings, out)?;
        if matches!(closing, Closing::Ended) {
            connection = None;
        }
        input.ask_again_after(closing);
        ran = ran.and(closing.ran(settings.after));
        if ran.is_over {
            return Ok(ran);
        }
    }
    Ok(ran)
}

/// Whether the lines are typed by someone who reads what each tells: standard input is a terminal, no program drives the
/// session, and it isn't to stop after a bad line.
pub(crate) fn is_typed<R: LiveRuntime>(rt: &R, settings: LineSettings) -> bool
    ensures { result ≡ true → settings.ready ≡ false }
{
    let goes_on = matches!(settings.after, AfterUnwell::GoOn);
    !settings.ready && goes_on && rt.is_at_terminal()
}

/// Tells on standard error to whom there is a connection, where lines are typed at it.
pub(crate) fn tell_connected<R: LiveRuntime>(rt: &R, asked: &ConnectAsked<'_>) {
    if asked.script.is_some() || !is_typed(rt, asked.settings) {
        return;
    }
    if let Ok(host) = host_text(rt.alloc(), asked.host) {
        let _ = eprintln!(rt; "connected to {host}");
    }
}

// The next line of standard input that is to be carried out; `None` where there is none more. Lines that are typed are
// asked for, and of a bad one the cause is told, both on standard error; then the next is read. Where something comes
// over the connection before one is typed, the line that takes it comes first.
fn line_to_do<R: LiveRuntime, B: BufRead + Drop, L: LiveLine>(
    rt: &R,
    input: &mut InputLines<B>,
    connection: Option<RawFd>,
    vocabulary: Vocabulary,
    settings: LineSettings,
) -> Result<Option<L>, ToldFault>
    ensures line { IfOk result (λ next. IfSome next (λ line.
        IsNextLine L.language vocabulary settings.ready line
        ⊎ ((input.old.is_typed ≡ true) × (L.language.meanwhile ≡ Some line)))) }
    ensures kept { input.new.is_typed ≡ input.old.is_typed }
    ensures fault { IfErr result (IsInputFault settings.ready) }
{
    for _ in 0..u64::MAX {
        if input.is_asking() {
            if input.asks_anew() {
                let _ = eprint!(rt; "t5250> ");
            }
            if let Some(line) = come_before_line::<R, L>(rt, connection) {
                return Ok(Some(line));
            }
        }
        match next_line::<B, L>(input, vocabulary, settings.ready)? {
            Next::Line(line) => return Ok(Some(line)),
            Next::Bad { number: _, cause } => {
                let _ = eprintln!(rt; "bad line: {cause}");
            }
            Next::Word(TypedWord::Help) => put_line_help(rt, vocabulary),
            Next::Word(TypedWord::Quit) => return Ok(None),
            Next::End => {
                end_asking(rt, input);
                return Ok(None);
            }
        }
    }
    Ok(None)
}

// The line that takes what has come over the connection before one was typed, where there is one and something has.
fn come_before_line<R: LiveRuntime, L: LiveLine>(rt: &R, connection: Option<RawFd>) -> Option<L>
    ensures { IfSome result (λ line. L.language.meanwhile ≡ Some line) }
{
    let line = L::meanwhile()?;
    comes_before_line(rt, connection?).then_some(line)
}

// Ends the row on which the end of what is typed came.
fn end_asking<R: LiveRuntime, B: BufRead + Drop>(rt: &R, input: &InputLines<B>) {
    if input.is_typed_out() {
        let _ = eprintln!(rt);
    }
}
