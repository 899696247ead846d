//! The waits of a station's session. Of a record that is refused in one it is told at once, and the wait goes on.
ghost use Rattle.std.specs.Prelude.{◌≡◌, ◌&&◌, List, ℕ, Bool, Option, false, true, IfErr, IfOk, OnOk};
ghost use Rattle.std.specs.List.{flat_map};
ghost use Rattle.std.specs.Option.{is_none};
ghost use Rattle.ws_code.specs.Device.{on_devices};
ghost use Rattle.ws_live.specs.live.ConnectText as Spec;
ghost use Rattle.ws_live.specs.live.Operating.{live_station};
ghost use Rattle.ws_live.specs.live.Watches.{HasBegun, watched_devices};
ghost use Rattle.ws_live.specs.declared.live.watch.WaitSpan.TheVariants.{AtOnce};
ghost use Rattle.ws_text.specs.Printing.{Prints};

use crate::live::live_station::LiveStation;
use crate::live::sentences::{SentenceLine, StationSentences};
use crate::live::watch::{WaitSpan, Watch};
use crate::live::{Carried, Closing};
use ws_code::{Fault, Sink, Source};
use ws_printing::{OperatedDisplay, PlaceAndReason, begins_at, put_event, shows};
use ws_script::{Awaited, NamedKey};
use ws_session::{Attached, Event, StationDisplay};
use ws_text::{Output, Text, texts};

// What becomes of a wait.
#[derive(Clone, Copy)]
pub(crate) enum Waited {
    Met,
    Late,
    Ended,
    Failed(Fault),
}

// A wait that is over: what has become of it, whether no record was refused in it, and whether all that it told went out.
#[derive(Clone, Copy)]
pub(crate) struct Wait {
    pub(crate) waited: Waited,
    pub(crate) well: bool,
    pub(crate) output: Output,
}

// Takes what the host sends, until what is awaited holds, where so many records are ahead.
pub(crate) fn wait_for<E: LiveStation, S: Source, K: Sink, W: Watch<S>, O: Sink>(
    attached: &mut Attached<E, S, K>,
    ahead: &mut u64,
    watch: &mut W,
    awaited: &Awaited,
    out: &mut O,
    output: Output,
) -> Wait
where
    E::Named: NamedKey,
    requires works { attached.old.broken ≡ false }
    ensures waited { (records : List (Option PlaceAndReason)) × Spec.IsWaited
        (live_station E.behaviour E.keyed E.typing E.seen E.Display.does.shown
        E.Display.operated E.Named.words)
        (watched_devices (on_devices K.writer S.reader) W.tells) awaited.now
        (attached.old, ahead.old) records result.waited (attached.new, ahead.new)
        × (result.well ≡ Spec.none_refused records)
        × Prints O.writer out.old out.new output result.output (flat_map Spec.record_text records) }
    ensures begun { HasBegun W.times attached.old.source (Spec.span_of awaited.now)
        watch.old watch.new }
    ensures works { Spec.IsWorking result.waited attached.new.broken }
{
    watch.begin(attached.source(), span_of(awaited));
    let wait = take_until(attached, ahead, watch, awaited, out, output);
    let rests = may_rest(awaited, watch, attached.source());
    Wait {
        waited: rested(rests, wait.waited),
        ..wait
    }
}

// How long a wait for this lasts.
fn span_of(awaited: &Awaited) -> WaitSpan
    ensures { result ≡ Spec.span_of awaited.now }
{
    match awaited {
        Awaited::Quiet(milliseconds) => WaitSpan::Quiet(*milliseconds),
        _ => WaitSpan::Whole,
    }
}

// Whether a wait for this that is over is met since nothing came.
fn may_rest<S, W: Watch<S>>(awaited: &Awaited, watch: &W, source: &S) -> bool
    ensures { Spec.Rests W.tells awaited.now source.now result }
{
    match awaited {
        Awaited::Quiet(_) => watch.is_quiet(source),
        _ => false,
    }
}

// Takes the records that have come. They are ahead then. It is met where no more has come.
pub(crate) fn take_what_came<E: LiveStation, S: Source, K: Sink, W: Watch<S>, O: Sink>(
    attached: &mut Attached<E, S, K>,
    ahead: &mut u64,
    watch: &mut W,
    out: &mut O,
    output: Output,
) -> Wait
where
    E::Named: NamedKey,
    requires works { attached.old.broken ≡ false }
    ensures taken { (records : List (Option PlaceAndReason)) × (ended : Waited) × Spec.WaitsFor
        (live_station E.behaviour E.keyed E.typing E.seen E.Display.does.shown
        E.Display.operated E.Named.words)
        (watched_devices (on_devices K.writer S.reader) W.tells) (λ station ahead. ⊥)
        (attached.old, ahead.old) records ended (attached.new, ahead.new)
        × (result.waited ≡ Spec.rested true ended) × (result.well ≡ Spec.none_refused records)
        × Prints O.writer out.old out.new output result.output (flat_map Spec.record_text records) }
    ensures begun { HasBegun W.times attached.old.source AtOnce watch.old watch.new }
    ensures works { Spec.IsWorking result.waited attached.new.broken }
{
    watch.begin(attached.source(), WaitSpan::AtOnce);
    let wait = take_until(attached, ahead, watch, &Awaited::Quiet(0), out, output);
    Wait {
        waited: rested(true, wait.waited),
        ..wait
    }
}

// What a wait comes to that may be met since nothing came, or may not.
fn rested(rests: bool, ended: Waited) -> Waited
    ensures { result ≡ Spec.rested rests ended }
{
    match ended {
        Waited::Late => {
            if rests {
                return Waited::Met;
            }
            Waited::Late
        }
        other => other,
    }
}

// Takes records until what is awaited holds, and counts those as ahead that are carried out.
fn take_until<E: LiveStation, S: Source, K: Sink, W: Watch<S>, O: Sink>(
    attached: &mut Attached<E, S, K>,
    ahead: &mut u64,
    watch: &W,
    awaited: &Awaited,
    out: &mut O,
    output: Output,
) -> Wait
where
    E::Named: NamedKey,
    requires works { attached.old.broken ≡ false }
    ensures waited { (records : List (Option PlaceAndReason)) × Spec.WaitsFor
        (live_station E.behaviour E.keyed E.typing E.seen E.Display.does.shown
        E.Display.operated E.Named.words)
        (watched_devices (on_devices K.writer S.reader) W.tells)
        (Spec.IsMet (live_station E.behaviour E.keyed E.typing E.seen E.Display.does.shown
        E.Display.operated E.Named.words)
        awaited.now) (attached.old, ahead.old) records result.waited (attached.new, ahead.new)
        × (result.well ≡ Spec.none_refused records)
        × Prints O.writer out.old out.new output result.output (flat_map Spec.record_text records) }
    ensures works { Spec.IsWorking result.waited attached.new.broken }
{
    let mut output = output;
    let mut well = true;
    for _ in 0..4_294_967_296u64 {
        if is_met(attached.end(), *ahead, awaited) {
            return Wait {
                waited: Waited::Met,
                well,
                output,
            };
        }
        let refused = match hear_record(attached, watch) {
            Ok(refused) => refused,
            Err(waited) => return Wait {
                waited,
                well,
                output,
            },
        };
        *ahead = ahead_after(*ahead, refused);
        well = well_after(well, refused);
        output = put_record(out, output, refused);
    }
    Wait {
        waited: Waited::Failed(Fault::Read),
        well,
        output,
    }
}

// Whether what is awaited holds of a station, where so many records are ahead.
fn is_met<E: LiveStation>(station: &E, ahead: u64, awaited: &Awaited) -> bool
where
    E::Named: NamedKey,
    ensures met { result ≡ true → Spec.IsMet
        (live_station E.behaviour E.keyed E.typing E.seen E.Display.does.shown
        E.Display.operated E.Named.words)
        awaited.now station.now ahead }
    ensures unmet { result ≡ false → Spec.IsMet
        (live_station E.behaviour E.keyed E.typing E.seen E.Display.does.shown
        E.Display.operated E.Named.words)
        awaited.now station.now ahead → ⊥ }
{
    let page = station.page();
    let display = station.display();
    match awaited {
        Awaited::Turn => display.is_turn(),
        Awaited::Text(text) => shows(page, display.screen(), text.as_str()),
        Awaited::At(cell, text) => begins_at(page, display.screen(), *cell, text.as_str()),
        Awaited::Record => ahead > 0,
        Awaited::Quiet(_) => false,
    }
}

// How many records are ahead after one.
fn ahead_after(ahead: u64, refused: Option<PlaceAndReason>) -> u64
    ensures { result ≡ Spec.ahead_after ahead refused }
{
    match refused {
        None => ahead.saturating_add(1),
        Some(_) => ahead,
    }
}

// Whether no record was refused, after one.
fn well_after(well: bool, refused: Option<PlaceAndReason>) -> bool
    ensures { result ≡ (well && is_none refused) }
{
    well && refused.is_none()
}

// Tells of a record that it was refused, if it was, and what the reason says.
fn put_record<O: Sink>(out: &mut O, output: Output, refused: Option<PlaceAndReason>) -> Output
    ensures { Prints O.writer out.old out.new output result (Spec.record_text refused) }
{
    match refused {
        None => output,
        Some(why) => texts!("record refused at ", why, SentenceLine(why.1)).put_to(out, output),
    }
}

// Takes one record more: where and why it was refused, if it was; or what ended the wait.
fn hear_record<E: LiveStation, S: Source, K: Sink, W: Watch<S>>(
    attached: &mut Attached<E, S, K>,
    watch: &W,
) -> Result<Option<PlaceAndReason>, Waited>
where
    E::Named: NamedKey,
    requires works { attached.old.broken ≡ false }
    ensures heard { IfOk result (λ refused. Spec.HearsRecord
        (live_station E.behaviour E.keyed E.typing E.seen E.Display.does.shown
        E.Display.operated E.Named.words)
        (on_devices K.writer S.reader) attached.old refused attached.new) }
    ensures unheard { IfErr result (λ waited. Spec.HearsNone
        (live_station E.behaviour E.keyed E.typing E.seen E.Display.does.shown
        E.Display.operated E.Named.words)
        (watched_devices (on_devices K.writer S.reader) W.tells) attached.old waited attached.new) }
    ensures goes_on { OnOk result (attached.new.broken ≡ false) }
    ensures works { IfErr result (λ waited. Spec.IsWorking waited attached.new.broken) }
{
    match attached.hear() {
        Ok(Some(told)) => Ok(attached.end().refused(&told)),
        Ok(None) => Err(Waited::Ended),
        Err(Fault::Read) => Err(unread(watch, attached.source())),
        Err(fault) => Err(Waited::Failed(fault)),
    }
}

// What becomes of a wait at which a read failed.
fn unread<S, W: Watch<S>>(watch: &W, source: &S) -> Waited
    ensures { (late : Bool) × W.tells.is_late source.now late × (result ≡ Spec.unread_by late) }
{
    if watch.is_late(source) {
        Waited::Late
    } else {
        Waited::Failed(Fault::Read)
    }
}

// Prints the byte that the station refused, if that ended the wait; and how a line closes that waited so.
pub(crate) fn put_waited<O: Sink>(out: &mut O, wait: Wait) -> Carried
    ensures outcome { result.outcome ≡ Spec.waited_outcome wait.well wait.waited }
    ensures text { Prints O.writer out.old out.new wait.output result.output
        (Spec.waited_text wait.waited) }
{
    let output = wait.output;
    match wait.waited {
        Waited::Met => Carried::new(output, Ok(closing_by(wait.well))),
        Waited::Late => Carried::new(output, Ok(Closing::Late)),
        Waited::Ended => Carried::new(output, Ok(Closing::Ended)),
        Waited::Failed(Fault::Refused { place, reason }) => {
            let output = put_event(out, output, &Event::StationRefused { place, reason });
            Carried {
                output: StationSentences(reason).put_to(out, output),
                outcome: Ok(Closing::Stopped),
            }
        }
        Waited::Failed(fault) => Carried::new(output, Err(fault)),
    }
}

// How a line closes of which nothing was refused, or something.
fn closing_by(well: bool) -> Closing
    ensures { result ≡ Spec.closing_by well }
{
    if well {
        Closing::Done
    } else {
        Closing::Declined
    }
}
