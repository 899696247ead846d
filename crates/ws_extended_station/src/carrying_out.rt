//! Records carried out on a display.
ghost use Rattle.std.specs.Prelude.{◌≡◌, List, None, Some, IfOk, IfErr, OnErr, is_some};
ghost use Rattle.ws_code.specs.Code.{IsChain, spelling_of};
ghost use Rattle.ws_stream.specs.Elements.{allows_orders};
ghost use Rattle.ws_extended.specs.Asking.{HasAsked, asks_in};
ghost use Rattle.ws_extended.specs.ExtendedElements.{extended_rules};
ghost use Rattle.ws_extended.specs.ExtendedStates.{ExtendedState};
ghost use Rattle.ws_extended.specs.ExtendedViews.{Shows};
ghost use Rattle.ws_extended.specs.declared.extended_element.ExtendedElement.{ExtendedElement as AnElement};
ghost use Rattle.ws_extended.specs.declared.extended_place.ExtendedPlace.TheVariants.{InProfile};
ghost use Rattle.ws_extended_station.specs.CarriedOut.{AreCarriedOut, IsAppliedTo, IsJudged, IsUnderWay};
ghost use Rattle.ws_extended_station.specs.ExtendedRecords.{elements_fault, state_after_opcode};

use crate::heard::Heard;
use crate::unit_reader::UnitReader;
use ws_code::{Code, Reason, Standing};
use ws_extended::{Asked, ExtendedCommands, ExtendedElement, ExtendedPlace, ExtendedScreen};
use ws_record::Opcode;
use ws_stream::{Commands, Element, Place};

// How far a body is carried out: the bytes left, where the next element stands, and what those before it bring.
#[derive(Clone, Copy)]
struct Front<'a> {
    left: &'a [u8],
    place: Place,
    heard: Heard,
}

// Carries out the elements of the profile with which the bytes begin, up to the first that is refused. Most records
// have no others, and the profile's machine reads them fast.
fn apply_prefix<'a>(display: &mut ExtendedScreen, bytes: &'a [u8]) -> Result<Front<'a>, Reason>
    requires closed { display.old.screen.writing ≡ None }
    ensures open_ { IfOk result (λ front.
        is_some display.new.screen.writing ≡ allows_orders front.place) }
    ensures carried { IfOk result (λ front. (state : ExtendedState) (body : List AnElement)
        → IsChain extended_rules extended_rules.first body
        → bytes.now ≡ spelling_of extended_rules body → Shows state display.old
        → IsUnderWay state body display.new front.heard front.left.now (InProfile front.place)) }
    ensures refused { IfErr result (λ reason. (state : ExtendedState) (body : List AnElement)
        → IsChain extended_rules extended_rules.first body
        → bytes.now ≡ spelling_of extended_rules body → Shows state display.old
        → elements_fault state body ≡ Some reason) }
{
    let mut reader = UnitReader::<Commands>::start(Commands::first());
    let mut heard = Heard::new();
    let mut left = bytes;
    loop {
        let mut slot: Option<Element> = None;
        let behind = reader.read_element(left, &mut slot);
        let Some(element) = &slot else {
            let place = reader.place();
            return Ok(Front { left, place, heard });
        };
        display.apply_profile(element)?;
        heard.hear_profile(element);
        left = behind;
    }
}

// Carries out the elements behind a front, up to the first that is refused, and tells what all bring.
fn apply_rest(display: &mut ExtendedScreen, front: Front) -> Result<Heard, Reason>
    requires open_ { is_some display.old.screen.writing ≡ allows_orders front.place }
    ensures { (state : ExtendedState) (body : List AnElement)
        → IsUnderWay state body display.old front.entry.heard front.entry.left.now
        (InProfile front.entry.place)
        → AreCarriedOut state body display.new result }
{
    let place = ExtendedPlace::InProfile(front.place);
    let mut reader = UnitReader::<ExtendedCommands>::start(place);
    let mut heard = front.heard;
    let mut left = front.left;
    loop {
        let mut slot: Option<ExtendedElement> = None;
        let behind = reader.read(left, &mut slot);
        let Some(element) = slot else {
            return Ok(heard);
        };
        display.apply(&element)?;
        heard.hear(element);
        left = behind;
    }
}

// Carries out the elements that the bytes spell, up to the first that is refused, and tells what they bring.
fn apply_spelled(display: &mut ExtendedScreen, bytes: &[u8]) -> Result<Heard, Reason>
    requires closed { display.old.screen.writing ≡ None }
    ensures { (state : ExtendedState) (body : List AnElement)
        → IsChain extended_rules extended_rules.first body
        → bytes.now ≡ spelling_of extended_rules body → Shows state display.old
        → AreCarriedOut state body display.new result }
{
    let front = apply_prefix(display, bytes)?;
    apply_rest(display, front)
}

// What the elements ask that the bytes spell.
fn asked_in(bytes: &[u8]) -> Asked
    ensures { (body : List AnElement) → IsChain extended_rules extended_rules.first body
        → bytes.now ≡ spelling_of extended_rules body
        → HasAsked (asks_in body) result.ask result.refused }
{
    let place = ExtendedCommands::first();
    let mut machine = ExtendedCommands::start(place);
    let mut at = Standing {
        place,
        is_inside: false,
    };
    let mut asked = Asked::new();
    machine.run(&mut at, bytes, &mut asked);
    asked
}

// Carries out the elements that the bytes spell, if the record isn't refused, and tells what they bring.
fn carry_out(display: &mut ExtendedScreen, bytes: &[u8]) -> Result<Heard, Reason>
    requires closed { display.old.screen.writing ≡ None }
    ensures { (state : ExtendedState) (body : List AnElement)
        → IsChain extended_rules extended_rules.first body
        → bytes.now ≡ spelling_of extended_rules body → Shows state display.old
        → IsJudged state body display.new result }
{
    match apply_spelled(display, bytes) {
        Ok(heard) => match heard.asked.refused {
            Some(reason) => Err(reason),
            None => Ok(heard),
        },
        Err(reason) => Err(asked_in(bytes).refused.unwrap_or(reason)),
    }
}

// What an opcode does at its record's end (RFC 1205, section 4). An error stands as before.
fn act(display: &mut ExtendedScreen, opcode: Opcode)
    ensures after { (state : ExtendedState) → Shows state display.old
        → Shows (state_after_opcode opcode state) display.new }
    ensures closed { display.new.screen.writing ≡ display.old.screen.writing }
{
    match opcode {
        Opcode::CancelInvite => display.cancel_read(),
        Opcode::MessageLightOn => display.set_message(true),
        Opcode::MessageLightOff => display.set_message(false),
        _ => {}
    }
}

/// Carries out a record whose body these bytes spell, and tells what it asks at once and how many alarms it sounds.
/// Where it is refused, the display comes back from `before`, which is room for that.
pub(crate) fn apply_kept(
    display: &mut ExtendedScreen,
    before: &mut ExtendedScreen,
    opcode: Opcode,
    kept: &[u8],
) -> Result<Heard, Reason>
    requires closed { display.old.screen.writing ≡ None }
    // What the body comes to that the bytes spell.
    ensures applied { (state : ExtendedState) (body : List AnElement)
        → IsChain extended_rules extended_rules.first body
        → kept.now ≡ spelling_of extended_rules body → Shows state display.old
        → IsAppliedTo state opcode body display.new result }
    // No write stays open; the display before it is kept, and a refused record leaves nothing.
    ensures closed { display.new.screen.writing ≡ None }
    ensures before { before.new ≡ display.old }
    ensures same { OnErr result (display.new ≡ display.old) }
{
    before.assign(display);
    match carry_out(display, kept) {
        Ok(heard) => {
            display.end_write();
            act(display, opcode);
            Ok(heard)
        }
        Err(reason) => {
            display.assign(before);
            Err(reason)
        }
    }
}
