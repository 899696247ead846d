//! A line that is carried out again and again.
ghost use Rattle.std.specs.Prelude.{◌≡◌, [], false, IfOk, None};
ghost use Rattle.ws_live.specs.live.CarryingOn as Spec;
ghost use Rattle.ws_live.specs.live.LiveText.{line_printing, stops, telling_by};
ghost use Rattle.ws_live.specs.live.Watches.{InTime};
ghost use Rattle.ws_text.specs.Printed.{IsPrinted};

use crate::live::watch::Watch;
use crate::live::{Closing, LiveMove, LiveSession, Telling, hand_on};
use ws_code::{Fault, Sink};
use ws_printing::{BufferedSink, Paint};
use ws_text::Output;

// Such a line stands in no script.
const PLAINLY: Telling = Telling {
    paint: Paint::Plain,
    line: None,
};

/// Carries a line out again and again, and prints what it tells, for as long as it closes with something that was told:
/// true where it then closes otherwise, and false where a byte is refused. With a line that awaits what is next told it
/// answers a station on, behind a script.
///
/// # Errors
///
/// The first fault of the line, as at `carry_lines`; `Write` where it has none and the sink failed; `Read` where
/// 4,294,967,296 things were told.
pub fn carry_on<E, S, K, L: LiveMove<E, S, K>, W: Watch<S>, O: Sink>(
    session: &mut LiveSession<E, S, K, W>,
    line: &L,
    out: &mut BufferedSink<O>,
) -> Result<bool, Fault>
    // At an end that works, with nothing held back.
    requires works { session.old.attached.broken ≡ false }
    requires empty { out.old.held ≡ [] }
    // What was printed, and how it ended.
    ensures printed { IsPrinted O.writer out.old.sink out.new.sink (Spec.carrying_on
        (InTime (L.runs W.tells (telling_by Paint.Plain None)) L.waits W.times) line.now
        session.old session.new) result }
    ensures held { out.new.held ≡ [] }
{
    for _ in 0..4_294_967_296u64 {
        match carry_once(session, line, out) {
            Ok(closing) => {
                if !is_told(closing) {
                    return Ok(goes_well(closing));
                }
            }
            Err(fault) => return Err(fault),
        }
    }
    Err(Fault::Read)
}

// Carries a line out, and prints what it tells: how it closed.
fn carry_once<E, S, K, L: LiveMove<E, S, K>, W: Watch<S>, O: Sink>(
    session: &mut LiveSession<E, S, K, W>,
    line: &L,
    out: &mut BufferedSink<O>,
) -> Result<Closing, Fault>
    // At an end that works, with nothing held back.
    requires works { session.old.attached.broken ≡ false }
    requires empty { out.old.held ≡ [] }
    // What was printed, and how it ended.
    ensures printed { IsPrinted O.writer out.old.sink out.new.sink (line_printing
        (InTime (L.runs W.tells (telling_by Paint.Plain None)) L.waits W.times)
        session.old line.now session.new) result }
    // The end works on unless the session is over, and nothing is held back.
    ensures works { IfOk result (λ closing.
        stops closing ≡ false → session.new.attached.broken ≡ false) }
    ensures held { out.new.held ≡ [] }
{
    session.watch.end_waits();
    let carried = line.carry_out(session, PLAINLY, out, Output::Open);
    let output = hand_on(out, carried.output);
    match carried.outcome {
        Ok(closing) => match output {
            Output::Open => Ok(closing),
            Output::Failed => Err(Fault::Write),
        },
        Err(fault) => Err(fault),
    }
}

// Whether a line closed with something that was told.
fn is_told(closing: Closing) -> bool
    ensures { result ≡ Spec.is_told closing }
{
    matches!(closing, Closing::Done)
}

// Whether all is well at the end of a line that was carried on.
fn goes_well(closing: Closing) -> bool
    ensures { result ≡ Spec.goes_well closing }
{
    !matches!(closing, Closing::Stopped)
}
