//! What the lines of a station's session do and print.
ghost use Rattle.std.specs.Prelude.{◌≡◌, [], List, ℕ, false, IfOk};
ghost use Rattle.ws_live.specs.live.ConnectText as Spec;
ghost use Rattle.ws_live.specs.live.LiveText.{line_result, stops};
ghost use Rattle.ws_live.specs.live.Operating.{live_station};
ghost use Rattle.ws_live.specs.live.Watches.{HasBegunIf, watched_devices};
ghost use Rattle.ws_text.specs.Printing.{Prints};
ghost use Rattle.ws_code.specs.Device.{on_devices};

use crate::live::live_station::LiveStation;
use crate::live::pressing::{press_key, press_stroke, put_pressed};
use crate::live::waiting::{Wait, put_waited, take_what_came, wait_for};
use crate::live::watch::Watch;
use crate::live::{Carried, Closing, LiveMove, LiveSession, Telling, put_bad};
use ws_code::{Sink, Source};
use ws_printing::{Look, StationReport, put_display, put_field_lines, put_note, put_report};
use ws_script::{NamedKey, StationLine};
use ws_session::{Attached, StationDisplay};
use ws_text::Output;

impl<E: LiveStation, S: Source, K: Sink> LiveMove<E, S, K> for StationLine<E::Named>
where
    E::Named: NamedKey,
{
    ghost runs = { λ tells. Spec.StationRuns
        (live_station E.behaviour E.keyed E.typing E.seen E.Display.does.shown
        E.Display.operated E.Named.words)
        (watched_devices (on_devices K.writer S.reader) tells) };

    ghost waits = { Spec.station_waits };

    fn carry_out<W: Watch<S>, O: Sink>(
        &self,
        session: &mut LiveSession<E, S, K, W>,
        telling: Telling,
        out: &mut O,
        output: Output,
    ) -> Carried {
        let LiveSession {
            attached,
            ahead,
            watch,
        } = session;
        match self {
            StationLine::Nothing => Carried::new(output, Ok(Closing::Nothing)),
            StationLine::Press(keys) => {
                *ahead = 0;
                press_keys(attached, keys.as_slice(), telling.line, out, output)
            }
            StationLine::Stroke(stroke) => {
                *ahead = 0;
                let pressed = press_stroke(attached, stroke);
                put_pressed(out, output, telling.line, pressed)
            }
            StationLine::Await(awaited) => {
                let wait = wait_for(attached, ahead, watch, awaited, out, output);
                *ahead = 0;
                put_waited(out, wait)
            }
            StationLine::Fields => {
                let wait = take_what_came(attached, ahead, watch, out, output);
                let station = session.attached.end();
                let screen = station.display().screen();
                let output = put_field_lines(out, wait.output, station.page(), screen);
                put_waited(out, Wait { output, ..wait })
            }
            StationLine::Show => {
                let wait = take_what_came(attached, ahead, watch, out, output);
                let station = session.attached.end();
                let look = Look {
                    paint: telling.paint,
                    page: station.page(),
                };
                let output = put_display(out, wait.output, look, station.display());
                put_waited(out, Wait { output, ..wait })
            }
            StationLine::Report(report) => put_what(attached, ahead, watch, report, out, output),
            StationLine::Meanwhile => {
                let wait = take_what_came(attached, ahead, watch, out, output);
                put_waited(out, wait)
            }
            StationLine::Bad(cause) => put_bad(out, output, cause.as_str()),
        }
    }
}

// Prints what a line reports.
fn put_what<E: LiveStation, S: Source, K: Sink, W: Watch<S>, O: Sink>(
    attached: &mut Attached<E, S, K>,
    ahead: &mut u64,
    watch: &mut W,
    report: &StationReport,
    out: &mut O,
    output: Output,
) -> Carried
where
    E::Named: NamedKey,
    requires works { attached.old.broken ≡ false }
    ensures runs { (text : List ℕ) × Spec.Reports
        (live_station E.behaviour E.keyed E.typing E.seen E.Display.does.shown
        E.Display.operated E.Named.words)
        (watched_devices (on_devices K.writer S.reader) W.tells)
        report.now (attached.old, ahead.old) (line_result result.outcome text)
        (attached.new, ahead.new)
        × Prints O.writer out.old out.new output result.output text }
    ensures begun { HasBegunIf W.times (Spec.report_waits report.now)
        attached.old.source watch.old watch.new }
    ensures works { IfOk result.outcome (λ closing.
        stops closing ≡ false → attached.new.broken ≡ false) }
{
    match report {
        StationReport::Note(note) => Carried {
            output: put_note(out, output, note.as_slice()),
            outcome: Ok(Closing::Done),
        },
        _ => {
            let wait = take_what_came(attached, ahead, watch, out, output);
            let station = attached.end();
            let output = put_report(out, wait.output, station.page(), station.status(), report);
            put_waited(out, Wait { output, ..wait })
        }
    }
}

// Presses keys one after another, and prints why one is refused.
fn press_keys<E: LiveStation, S: Source, K: Sink, O: Sink>(
    attached: &mut Attached<E, S, K>,
    keys: &[E::Named],
    line: Option<u64>,
    out: &mut O,
    output: Output,
) -> Carried
where
    E::Named: NamedKey,
    requires works { attached.old.broken ≡ false }
    ensures runs { (text : List ℕ) × Spec.KeysRun
        (live_station E.behaviour E.keyed E.typing E.seen E.Display.does.shown
        E.Display.operated E.Named.words)
        (on_devices K.writer S.reader) line Closing.Done []
        keys.now attached.old (line_result result.outcome text) attached.new
        × Prints O.writer out.old out.new output result.output text }
    ensures works { IfOk result.outcome (λ closing. attached.new.broken ≡ false) }
{
    let mut output = output;
    let mut closing = Closing::Done;
    for key in keys {
        let carried = put_pressed(out, output, line, press_key(attached, *key));
        output = carried.output;
        match carried.outcome {
            Ok(next) => closing = closing_of_both(closing, next),
            Err(fault) => return Carried::new(output, Err(fault)),
        }
    }
    Carried::new(output, Ok(closing))
}

// How keys close that close so, and one behind them.
fn closing_of_both(closing: Closing, next: Closing) -> Closing
    ensures { result ≡ Spec.closing_of_both closing next }
{
    match closing {
        Closing::Done => next,
        _ => closing,
    }
}
