//! A record carried out on a screen: as a whole, or not at all.
ghost use Rattle.std.specs.Prelude.{◌≡◌, ◌++◌, None, OnOk, OnErr, IfOk};
ghost use Rattle.ws_code.specs.Code.{IsChain};
ghost use Rattle.ws_stream.specs.declared.element.Element.{Element};
ghost use Rattle.ws_stream.specs.AnswerParts.{answer_rules};
ghost use Rattle.ws_stream.specs.Elements.{element_rules};
ghost use Rattle.ws_record.specs.Encode.{plain_spelling};
ghost use Rattle.ws_screen.specs.Bodies.{after_elements, body_fault};
ghost use Rattle.ws_screen.specs.Events.{History};
ghost use Rattle.ws_screen.specs.Faults.{refusal};
ghost use Rattle.ws_screen.specs.Given.{Gives};
ghost use Rattle.ws_end.specs.station.StationEndState.{OfBody};
ghost use Rattle.ws_end.specs.station.Alarms.{alarm_count, alarms_in};
ghost use Rattle.ws_end.specs.station.StationEndState as spec;
ghost use Rattle.ws_end.specs.station.StationEndState.{opcode_events, after_record, opcode_answer};
ghost use Rattle.ws_end.specs.host_end.HostEndState.{sent_record};

use crate::station::alarm::count_alarm;
use arrayvec::ArrayVec;
use ws_code::{ByteList, Code, End, Reason, Standing};
use ws_nego::Reply;
use ws_record::{Opcode, Record};
use ws_screen::{Screen, apply_elements};
use ws_stream::{Commands, Element};

/// The empty record of Cancel Invite, which either end writes: a header of length 10 and IAC EOR (RFC 1205, sections 3
/// and 4).
pub(crate) const CANCEL: [u8; 12] = [
    0x00, 0x0a, 0x12, 0xa0, 0x00, 0x00, 0x04, 0x00, 0x00, 0x0a, 0xff, 0xef,
];

/// Carries out a record as a station does at its IAC EOR: its elements, the end of the write that they leave open,
/// and what its opcode does (RFC 1205, sections 3 and 4). No write is open before, nor after. The elements are a body.
///
/// # Errors
///
/// The first reason for which the screen refuses an element; the screen is then as it was.
pub fn apply_record(screen: &mut Screen, record_: &Record<Element>) -> Result<(), Reason>
    // A body of the profile, between two writes.
    requires chain { IsChain element_rules element_rules.first record_.now.body }
    requires closed { screen.old.writing ≡ None }
    // Whether it is refused, and the screen behind it.
    ensures fault { (h : History) → Gives h screen.old
        → refusal result ≡ body_fault h record_.now.body }
    ensures after { OnOk result ((h : History) → Gives h screen.old
        → Gives (spec.after_record h record_.now) screen.new) }
    // No write stays open, and a refused record leaves nothing.
    ensures closed { OnOk result (screen.new.writing ≡ None) }
    ensures same { OnErr result (screen.new ≡ screen.old) }
{
    let mut before = Screen::new();
    before.assign(screen);
    if let Err(reason) = apply_elements(screen, record_.body.as_slice()) {
        screen.assign(&before);
        return Err(reason);
    }
    screen.end_write();
    act(screen, record_.opcode);
    Ok(())
}

/// Carries out the elements that the bytes spell, up to the first that the screen refuses, and tells how many of them
/// sound the alarm.
///
/// # Errors
///
/// The reason for which the screen refuses an element, after it has carried out those before.
pub(crate) fn apply_spelled(screen: &mut Screen, bytes: &[u8]) -> Result<u64, Reason>
    requires closed { screen.old.writing ≡ None }
    ensures fault { (h : History) → OfBody bytes.now (λ body. Gives h screen.old
        → refusal result ≡ body_fault h body) }
    ensures after { OnOk result ((h : History) → OfBody bytes.now (λ body. Gives h screen.old
        → Gives (after_elements h body) screen.new)) }
    ensures alarms { IfOk result (λ sounded. OfBody bytes.now (λ body.
        sounded ≡ alarm_count (alarms_in body))) }
{
    let place = Commands::first();
    let mut machine = Commands::start(place);
    let mut at = Standing {
        place,
        is_inside: false,
    };
    let mut used = 0;
    let mut alarms = 0;
    while used < bytes.len() {
        let mut slot: Option<Element> = None;
        let run = machine.run(&mut at, &bytes[used..], &mut slot);
        used += run.used;
        if let Some(element) = slot {
            screen.apply(&element)?;
            alarms = count_alarm(alarms, &element);
        }
        if let End::Bad(reason) = run.end {
            return Err(reason);
        }
    }
    Ok(alarms)
}

/// What an opcode does at its record's end (RFC 1205, section 4).
pub(crate) fn act(screen: &mut Screen, opcode: Opcode)
    ensures after { (h : History) → Gives h screen.old
        → Gives (opcode_events opcode ++ h) screen.new }
    ensures closed { screen.new.writing ≡ screen.old.writing }
{
    match opcode {
        Opcode::CancelInvite => screen.cancel_read(),
        Opcode::MessageLightOn => screen.set_message(true),
        Opcode::MessageLightOff => screen.set_message(false),
        _ => {}
    }
}

// Carries out a record whose body these bytes spell, as `apply_record` does, and tells how many of its elements sound
// the alarm. Where it is refused, the screen comes back from `before`, which is room for that.
pub(crate) fn apply_kept(
    screen: &mut Screen,
    before: &mut Screen,
    opcode: Opcode,
    kept: &[u8],
) -> Result<u64, Reason>
    requires closed { screen.old.writing ≡ None }
    // Of the body that is spelled: whether it is refused, the screen behind it, its alarms.
    ensures fault { (h : History) → OfBody kept.now (λ body. Gives h screen.old
        → refusal result ≡ body_fault h body) }
    ensures after { OnOk result ((h : History) → OfBody kept.now (λ body. Gives h screen.old
        → Gives (after_record h (sent_record opcode body)) screen.new)) }
    ensures alarms { IfOk result (λ sounded. OfBody kept.now (λ body.
        sounded ≡ alarm_count (alarms_in body))) }
    // No write stays open, and a refused record leaves nothing.
    ensures closed { OnOk result (screen.new.writing ≡ None) }
    ensures same { OnErr result (screen.new ≡ screen.old) }
{
    before.assign(screen);
    match apply_spelled(screen, kept) {
        Ok(alarms) => {
            screen.end_write();
            act(screen, opcode);
            Ok(alarms)
        }
        Err(reason) => {
            screen.assign(before);
            Err(reason)
        }
    }
}

// What a station writes at a record's end: Cancel Invite is answered by an empty record of the same opcode.
pub(crate) fn opcode_reply(opcode: Opcode) -> Reply
    ensures { result ≡ plain_spelling answer_rules (opcode_answer opcode) }
{
    let mut bytes = ArrayVec::new();
    if opcode == Opcode::CancelInvite {
        bytes.try_extend_from_slice(&CANCEL).unwrap();
    }
    ByteList::of(bytes)
}
