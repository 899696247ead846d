//! A live session: its lines, carried out one after another at an end, and what they came to.
ghost use Rattle.std.specs.Prelude.{◌≡◌, [], false, List, ℕ, Option, IfOk};
ghost use Rattle.ws_end.specs.attached.Attachments.{AttachedParts};
ghost use Rattle.ws_printing.specs.Buffering.{Buffering, buffered_writer};
ghost use Rattle.ws_text.specs.Printed.{IsPrinted};
ghost use Rattle.ws_text.specs.Printing.{IsOut, Prints};
ghost use Rattle.ws_live.specs.live.LiveText as Spec;
ghost use Rattle.ws_live.specs.live.Watches.{HasBegunIf, InTime, WatchTells};
ghost use Rattle.ws_live.specs.declared.live.Telling.{Telling as ATelling};
ghost use Rattle.ws_live.specs.declared.live.watch.WaitSpan.{WaitSpan as ASpan};

pub(crate) mod carried_wire;
pub(crate) mod connect;
pub(crate) mod host_closing;
pub(crate) mod live_station;
pub(crate) mod pressing;
pub(crate) mod repeated;
pub(crate) mod sentences;
pub(crate) mod serve;
pub(crate) mod waiting;
pub(crate) mod watch;

use crate::live::watch::Watch;
use ws_code::{Fault, Sink};
use ws_printing::{BufferedSink, Paint};
use ws_script::{LiveLine, NumberedLine};
use ws_session::Attached;
use ws_text::{Number, Output, Text, put_text, texts};

/// How a line of a live session closed.
#[derive(Clone, Copy, PartialEq, Eq)]
pub enum Closing {
    /// It was an empty line or a comment.
    Nothing,
    /// It was carried out.
    Done,
    /// It was carried out, and a key or a send of it was refused.
    Declined,
    /// Its time was over.
    Late,
    /// The other side closed the connection.
    Ended,
    /// The end refused a byte. No line is carried out behind it.
    Stopped,
    /// It was carried out, and closes the connection. No line is carried out behind it.
    Closed,
}

/// What follows a line that didn't go well: it closed late or ended, or something of it was refused.
#[derive(Clone, Copy, Debug, PartialEq, Eq)]
pub enum AfterUnwell {
    /// The next line is carried out.
    GoOn,
    /// The session is over.
    Stop,
}

/// How the lines of a live session are carried out.
#[derive(Clone, Copy, Debug, PartialEq, Eq)]
pub struct LineSettings {
    /// Whether `ok` stands after each line's output.
    pub ready: bool,
    /// Of the screens that are printed.
    pub paint: Paint,
    pub after: AfterUnwell,
}

/// How what a line tells is printed.
#[derive(Clone, Copy, Debug, PartialEq, Eq)]
pub struct Telling {
    /// Of the screens that are printed.
    pub paint: Paint,
    /// The line's number in its script, counted from 1, which stands after what it tells; none is told without it.
    pub line: Option<u64>,
}

/// What the lines of a live session came to.
#[derive(Clone, Copy)]
pub struct Ran {
    /// None closed late or ended, and nothing was refused.
    pub all_well: bool,
    /// The last has ended the session: the end refused a byte, the line closed the connection, or it didn't go well and
    /// such a line was to stop the session.
    pub is_over: bool,
}

impl Ran {
    /// No line was carried out.
    pub fn none() -> Self
        ensures { result ≡ Spec.ran_none }
    {
        Ran {
            all_well: true,
            is_over: false,
        }
    }

    /// What these lines came to, and those behind them.
    pub fn and(self, behind: Ran) -> Self
        ensures { result ≡ Spec.ran_and self behind }
    {
        Ran {
            all_well: self.all_well && behind.all_well,
            is_over: behind.is_over,
        }
    }
}

impl Closing {
    /// What a line came to that closed so, where this follows one that didn't go well.
    pub fn ran(self, after: AfterUnwell) -> Ran
        ensures { result ≡ Spec.ran_by after self }
    {
        Ran {
            all_well: matches!(self, Closing::Nothing | Closing::Done | Closing::Closed),
            is_over: match after {
                AfterUnwell::GoOn => matches!(self, Closing::Stopped | Closing::Closed),
                AfterUnwell::Stop => !matches!(self, Closing::Nothing | Closing::Done),
            },
        }
    }
}

/// What was made of a line: whether all of its text so far went out, and how it closed.
#[derive(Clone, Copy)]
pub struct Carried {
    pub output: Output,
    pub outcome: Result<Closing, Fault>,
}

impl Carried {
    /// This much went out, and so it closed.
    pub fn new(output: Output, outcome: Result<Closing, Fault>) -> Self
        ensures { (result.output ≡ output) × (result.outcome ≡ outcome) }
    {
        Carried { output, outcome }
    }
}

/// A live session: an end at its devices, and what its lines share.
#[derive(Drop)]
pub struct LiveSession<E, S, K, W> {
    pub attached: Attached<E, S, K>,
    /// How many records are ahead: that lines which show something have taken.
    pub ahead: u64,
    /// What tells the time of its waits.
    pub watch: W,
}

impl<E, S, K, W> LiveSession<E, S, K, W> {
    ghost use Rattle.ws_live.specs.live.Watches.{begun_session};

    /// One that has carried out nothing yet.
    pub fn new(attached: Attached<E, S, K>, watch: W) -> Self
        ensures { result ≡ begun_session attached watch }
    {
        LiveSession {
            attached,
            ahead: 0,
            watch,
        }
    }
}

/// A line that is carried out at an end with these devices.
pub trait LiveMove<E, S, K>: LiveLine {
    // At a watch that may tell this of its waits, where what it tells is printed so, the line came to this at the one
    // state, printed this text, and left the other. A state is that of the end, and how many records are ahead: that
    // lines which show something have taken.
    ghost runs: { WatchTells S → ATelling → Spec.LinesDo Self (AttachedParts E S K × ℕ) };

    // How long the wait lasts that it begins, if it begins one.
    ghost waits: { Self → Option ASpan };

    /// Carries the line out, and prints what it tells. A line that waits begins a wait before it reads.
    fn carry_out<W: Watch<S>, O: Sink>(
        &self,
        session: &mut LiveSession<E, S, K, W>,
        telling: Telling,
        out: &mut O,
        output: Output,
    ) -> Carried
        requires works { session.old.attached.broken ≡ false }
        ensures runs { (text : List ℕ)
            × runs W.tells telling self.now (session.old.attached, session.old.ahead)
            (Spec.line_result result.outcome text) (session.new.attached, session.new.ahead)
            × Prints O.writer out.old out.new output result.output text }
        ensures begun { HasBegunIf W.times (waits self.now)
            session.old.attached.source session.old.watch session.new.watch }
        ensures works { IfOk result.outcome (λ closing.
            Spec.stops closing ≡ false → session.new.attached.broken ≡ false) };
}

/// Carries lines out one after another, up to the first that ends the session: at which the end refuses a byte, that
/// closes the connection, or that doesn't go well where `settings` say that such a line stops the session. What each
/// prints is out before the next; after it comes a line `late` or `ended` where it closed so, with the number of the
/// line where it has one, and `ok` with `ready`.
///
/// # Errors
///
/// The first fault of a line, or `Write` where the sink failed at a line that has none; no line is carried out behind
/// it. A line's fault is `Write` where the connection failed; `Read` where a read failed, though not for want of time,
/// or a wait took 4,294,967,296 reads or things told; `Memory` where a growth was refused; `Failed` where the end was
/// shut before.
pub fn carry_lines<E, S, K, L: LiveMove<E, S, K>, W: Watch<S>, O: Sink>(
    session: &mut LiveSession<E, S, K, W>,
    lines: &[NumberedLine<L>],
    settings: LineSettings,
    out: &mut BufferedSink<O>,
) -> Result<Ran, Fault>
    // At an end that works, with nothing held back.
    requires works { session.old.attached.broken ≡ false }
    requires empty { out.old.held ≡ [] }
    // What was printed, and how it ended.
    ensures printed { IsPrinted O.writer out.old.sink out.new.sink (Spec.lines_printing
        settings.after
        (Spec.WithClosing (λ telling. InTime (L.runs W.tells telling) L.waits W.times) settings)
        session.old lines.now session.new) result }
    // The end works on unless the session is over, and nothing is held back.
    ensures works { IfOk result (λ ran.
        ran.is_over ≡ false → session.new.attached.broken ≡ false) }
    ensures held { out.new.held ≡ [] }
{
    let mut ran = Ran::none();
    for line in lines {
        let closing = match carry_line(session, line, settings, out) {
            Ok(closing) => closing,
            Err(fault) => return Err(fault),
        };
        ran = ran.and(closing.ran(settings.after));
        if ran.is_over {
            return Ok(ran);
        }
    }
    Ok(ran)
}

/// Carries a line out, as `carry_lines` does. The waits of those before are over.
///
/// # Errors
///
/// The fault of the line, as at `carry_lines`; where it has none, `Write` where the sink failed.
pub fn carry_line<E, S, K, L: LiveMove<E, S, K>, W: Watch<S>, O: Sink>(
    session: &mut LiveSession<E, S, K, W>,
    line: &NumberedLine<L>,
    settings: LineSettings,
    out: &mut BufferedSink<O>,
) -> Result<Closing, Fault>
    // At an end that works, with nothing held back.
    requires works { session.old.attached.broken ≡ false }
    requires empty { out.old.held ≡ [] }
    // What was printed, and how it ended.
    ensures printed { IsPrinted O.writer out.old.sink out.new.sink (Spec.line_printing
        (Spec.WithClosing (λ telling. InTime (L.runs W.tells telling) L.waits W.times) settings)
        session.old line.now session.new) result }
    // The end works on unless the session is over, and nothing is held back.
    ensures works { IfOk result (λ closing.
        Spec.stops closing ≡ false → session.new.attached.broken ≡ false) }
    ensures held { out.new.held ≡ [] }
{
    session.watch.end_waits();
    let telling = Telling {
        paint: settings.paint,
        line: line.number,
    };
    let carried = line.line.carry_out(session, telling, out, Output::Open);
    match carried.outcome {
        Ok(closing) => {
            let output = put_closing(out, carried.output, settings.ready, line.number, closing);
            match hand_on(out, output) {
                Output::Open => Ok(closing),
                Output::Failed => Err(Fault::Write),
            }
        }
        Err(fault) => {
            hand_on(out, carried.output);
            Err(fault)
        }
    }
}

/// Hands on what the buffer holds of a text.
pub fn hand_on<O: Sink>(out: &mut BufferedSink<O>, output: Output) -> Output
    ensures out { (from : Buffering O) (text : List ℕ) → from.held ≡ []
        → IsOut (buffered_writer O.writer) from out.old output text
        → IsOut O.writer from.sink out.new.sink result text }
    ensures held { out.new.held ≡ [] }
{
    match out.flush() {
        Ok(()) => output,
        Err(_) => Output::Failed,
    }
}

// Writes what stands behind the text of a line of this number.
fn put_closing<O: Sink>(
    out: &mut O,
    output: Output,
    ready: bool,
    line: Option<u64>,
    closing: Closing,
) -> Output
    ensures { Prints O.writer out.old out.new output result
        (Spec.closing_text ready line closing) }
{
    let output = put_closing_word(out, output, line, closing);
    put_text(out, output, ready_word(ready, closing))
}

fn put_closing_word<O: Sink>(
    out: &mut O,
    output: Output,
    line: Option<u64>,
    closing: Closing,
) -> Output
    ensures { Prints O.writer out.old out.new output result
        (Spec.closing_word line closing) }
{
    let word = match closing {
        Closing::Late => "late",
        Closing::Ended => "ended",
        _ => return output,
    };
    texts!(word, ByLine(line), "\n").put_to(out, output)
}

fn ready_word(ready: bool, closing: Closing) -> &'static str
    ensures { result.now ≡ Spec.ready_word ready closing }
{
    if !ready {
        return "";
    }
    match closing {
        Closing::Nothing | Closing::Stopped => "",
        _ => "ok\n",
    }
}

/// The number of a script's line, after a blank and in parentheses, where one is told.
#[derive(Clone, Copy)]
pub(crate) struct ByLine(pub(crate) Option<u64>);

impl Text for ByLine {
    ghost text = { λ by. Spec.line_behind by.0 };

    fn put_to<S: Sink>(&self, sink: &mut S, output: Output) -> Output {
        match self.0 {
            None => output,
            Some(number) => texts!(" (line ", Number(number), ")").put_to(sink, output),
        }
    }
}

/// Prints why a line is bad that can't be carried out.
pub fn put_bad<O: Sink>(out: &mut O, output: Output, cause: &str) -> Carried
    ensures outcome { result.outcome ≡ Spec.bad_outcome }
    ensures text { Prints O.writer out.old out.new output result.output
        (Spec.bad_text cause.now) }
{
    let output = texts!("bad line: ", cause, "\n").put_to(out, output);
    Carried::new(output, Ok(Closing::Declined))
}
