//! The lines of a session's report, and of what a live host's end tells.
ghost use Rattle.std.specs.Prelude.{◌≡◌, ◌++◌, List, ℕ, IfOk, IfErr};
ghost use Rattle.ws_code.specs.Device.{WentOut, FailedWithin};
ghost use Rattle.ws_text.specs.Printing.{Prints, text_where};
ghost use Rattle.ws_printing.specs.PlaceAndReason.{place_and_reason};
ghost use Rattle.ws_printing.specs.PlayLines as Spec;
ghost use Rattle.ws_printing.specs.ScreenLines.{screen_text};
ghost use Rattle.ws_printing.specs.ToldLines as Told;

use crate::characters::AfterBlank;
use crate::look::Look;
use crate::paint::Paint;
use crate::place_and_reason::PlaceAndReason;
use crate::screen_lines::ScreenLines;
use ws_code::{Fault, Reason, Sink};
use ws_keys::{HostAnswer, KeyRefusal, ReadField};
use ws_screen::Screen;
use ws_session::{Event, HostEvent, KeyFault, Report, SendFault};
use ws_text::{
    As, Bytes, Cell, EachAs, Hex, HexBehindBlank, Number, Output, Text, TextAs, print, texts,
};

/// Writes what a session tells, an event after another, and with `screen` the station's screen behind them: true
/// where no end has refused a byte.
///
/// It allocates no memory.
///
/// # Errors
///
/// `Write` where the sink failed; then a proper prefix of the text went out.
pub fn play_to<S: Sink>(report: &Report, screen: bool, sink: &mut S) -> Result<bool, Fault>
    ensures printed { IfOk result (λ all_well. (text : List ℕ)
        × Spec.IsPlayText report.now.events report.now.station.reacts.screen.screen screen text
        × WentOut S.writer sink.old sink.new text
        × (all_well ≡ Spec.no_end_refuses report.now.events)) }
    ensures fault { IfErr result (λ fault. (fault ≡ Fault.Write) × ((text : List ℕ)
        × Spec.IsPlayText report.now.events report.now.station.reacts.screen.screen screen text
        × FailedWithin S.writer sink.old sink.new text)) }
{
    play_painted_to(report, Paint::Plain, screen, sink)
}

/// Does the same, with the screen in a paint.
///
/// # Errors
///
/// As `play_to`.
pub fn play_painted_to<S: Sink>(
    report: &Report,
    paint: Paint,
    screen: bool,
    sink: &mut S,
) -> Result<bool, Fault>
    ensures printed { IfOk result (λ all_well. (text : List ℕ)
        × Spec.IsPaintedPlayText paint report.now.events report.now.station.reacts.screen.screen screen
        text
        × WentOut S.writer sink.old sink.new text
        × (all_well ≡ Spec.no_end_refuses report.now.events)) }
    ensures fault { IfErr result (λ fault. (fault ≡ Fault.Write) × ((text : List ℕ)
        × Spec.IsPaintedPlayText paint report.now.events report.now.station.reacts.screen.screen screen
        text
        × FailedWithin S.writer sink.old sink.new text)) }
{
    let events = report.events.as_slice();
    let lines = screen_if(screen, paint, report.station.screen());
    match print(&texts!(EachAs(events, Play), lines), sink) {
        Ok(()) => Ok(none_refuses(events)),
        Err(fault) => Err(fault),
    }
}

// The lines of a screen on page 037, where they are asked for.
fn screen_if(is_asked: bool, paint: Paint, screen: &Screen) -> Option<ScreenLines>
    ensures { text_where (λ l. screen_text l.0 l.1.now) result
        ≡ Spec.screen_lines paint is_asked screen.now }
{
    if is_asked {
        Some(ScreenLines(Look::on_037(paint), screen))
    } else {
        None
    }
}

// Whether no end has refused a byte.
fn none_refuses(events: &[Event]) -> bool
    ensures { result ≡ Spec.no_end_refuses events.now }
{
    events.iter().all(|event| !is_refusal(event))
}

fn is_refusal(event: &Event) -> bool
    ensures { result ≡ Spec.is_end_refusal event.now }
{
    matches!(
        event,
        Event::StationRefused { .. } | Event::HostRefused { .. }
    )
}

/// Writes the lines of an event.
pub fn put_event<S: Sink>(sink: &mut S, output: Output, event: &Event) -> Output
    ensures { Prints S.writer sink.old sink.new output result
        (Spec.event_text event.now) }
{
    As(event, Play).put_to(sink, output)
}

/// The sense of a session's report.
#[derive(Clone, Copy)]
pub struct Play;

impl TextAs<Play> for Event {
    ghost text_as = { λ _. Spec.event_text };

    fn put_as<S: Sink>(&self, _sense: &Play, sink: &mut S, output: Output) -> Output {
        match self {
            Event::Host(event) => As(event, Play).put_to(sink, output),
            Event::KeyRefused(fault) => {
                texts!("key refused ", key_fault_name(*fault), "\n").put_to(sink, output)
            }
            Event::SendRefused(fault) => {
                texts!("send refused ", As(fault, Play), "\n").put_to(sink, output)
            }
            Event::StationRefused { place, reason } => {
                texts!("station", refused(*place, *reason)).put_to(sink, output)
            }
            Event::HostRefused { place, reason } => {
                texts!("host", refused(*place, *reason)).put_to(sink, output)
            }
        }
    }
}

// What a host end tells.
impl TextAs<Play> for HostEvent {
    ghost text_as = { λ _. Spec.host_event_text };

    fn put_as<S: Sink>(&self, _sense: &Play, sink: &mut S, output: Output) -> Output {
        match self {
            HostEvent::Ready(terminal) => {
                texts!("host ready ", Bytes(terminal.name()), "\n").put_to(sink, output)
            }
            HostEvent::Answer(answer) => {
                let fields = EachAs(answer.fields.as_slice(), Play);
                texts!(AnswerLine(answer), fields).put_to(sink, output)
            }
            HostEvent::Attention => "attention\n".put_to(sink, output),
            HostEvent::SystemRequest => "system request\n".put_to(sink, output),
            HostEvent::Cancelled => "cancelled\n".put_to(sink, output),
        }
    }
}

// An answer's cursor and AID.
#[derive(Clone, Copy)]
struct AnswerLine<'a>(&'a HostAnswer);

impl Text for AnswerLine<'_> {
    ghost text = { λ a. Spec.answer_line a.0.now };

    fn put_to<S: Sink>(&self, sink: &mut S, output: Output) -> Output {
        let aid = [self.0.aid.byte()];
        texts!("answer ", Cell(self.0.cursor), " ", Hex(&aid), "\n").put_to(sink, output)
    }
}

impl TextAs<Play> for ReadField {
    ghost text_as = { λ _. Spec.read_field_text };

    fn put_as<S: Sink>(&self, _sense: &Play, sink: &mut S, output: Output) -> Output {
        let content = HexBehindBlank(self.content.as_slice());
        texts!("  field ", Cell(self.address), content, "\n").put_to(sink, output)
    }
}

/// Writes why a key has no effect.
pub fn put_key_fault<S: Sink>(sink: &mut S, output: Output, fault: KeyFault) -> Output
    ensures { Prints S.writer sink.old sink.new output result
        (Spec.key_fault_name fault) }
{
    key_fault_name(fault).put_to(sink, output)
}

// Why a key has no effect.
fn key_fault_name(fault: KeyFault) -> &'static str
    ensures { result.now ≡ Spec.key_fault_name fault }
{
    match fault {
        KeyFault::Failed => "Failed",
        KeyFault::NotReady => "NotReady",
        KeyFault::Key(refusal) => refusal_name(refusal),
    }
}

fn refusal_name(refusal: KeyRefusal) -> &'static str
    ensures { result.now ≡ Spec.refusal_name refusal }
{
    match refusal {
        KeyRefusal::Locked => "Locked",
        KeyRefusal::Protected => "Protected",
        KeyRefusal::WrongCharacter => "WrongCharacter",
        KeyRefusal::DupNotAllowed => "DupNotAllowed",
        KeyRefusal::NoRoom => "NoRoom",
        KeyRefusal::NoReadPending => "NoReadPending",
        KeyRefusal::MandatoryEnter => "MandatoryEnter",
        KeyRefusal::FieldExitRequired => "FieldExitRequired",
        KeyRefusal::MandatoryFill => "MandatoryFill",
    }
}

// Why a host end doesn't send.
impl TextAs<Play> for SendFault {
    ghost text_as = { λ _. Spec.send_fault_name };

    fn put_as<S: Sink>(&self, _sense: &Play, sink: &mut S, output: Output) -> Output {
        match self {
            SendFault::Failed => "Failed".put_to(sink, output),
            SendFault::NotAllowed => "NotAllowed".put_to(sink, output),
            SendFault::ReadOutstanding => "ReadOutstanding".put_to(sink, output),
            SendFault::NoReadToCancel => "NoReadToCancel".put_to(sink, output),
            SendFault::BadSequence => "BadSequence".put_to(sink, output),
            SendFault::Screen(reason) => {
                texts!("Screen ", Number(reason.number() as u64)).put_to(sink, output)
            }
            SendFault::TooBig => "TooBig".put_to(sink, output),
            SendFault::Memory => "Memory".put_to(sink, output),
        }
    }
}

// Where an end refuses a byte, and for what reason.
fn refused(place: u64, reason: Reason) -> (&'static str, PlaceAndReason)
    ensures { result.0.now ++ place_and_reason result.1.0 result.1.1
        ≡ Spec.refused_text place reason }
{
    (" refused at ", PlaceAndReason(place, reason))
}

/// Writes what a host end tells; after each field of an answer stands what its bytes show, where they show anything,
/// without the blanks at its end.
pub fn put_told<S: Sink>(sink: &mut S, output: Output, event: &HostEvent) -> Output
    ensures { Prints S.writer sink.old sink.new output result
        (Told.told_text event.now) }
{
    match event {
        HostEvent::Answer(answer) => {
            let fields = EachAs(answer.fields.as_slice(), ToldField);
            texts!(AnswerLine(answer), fields).put_to(sink, output)
        }
        HostEvent::Ready(_)
        | HostEvent::Attention
        | HostEvent::SystemRequest
        | HostEvent::Cancelled => As(event, Play).put_to(sink, output),
    }
}

// The sense of a field as a live host tells it.
#[derive(Clone, Copy)]
struct ToldField;

impl TextAs<ToldField> for ReadField {
    ghost text_as = { λ _. Told.told_field };

    fn put_as<S: Sink>(&self, _sense: &ToldField, sink: &mut S, output: Output) -> Output {
        let content = self.content.as_slice();
        texts!(
            "  field ",
            Cell(self.address),
            HexBehindBlank(content),
            AfterBlank(content),
            "\n"
        )
        .put_to(sink, output)
    }
}
