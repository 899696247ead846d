//! Records of live hosts, carried out as a station on their display does.
ghost use Rattle.std.specs.Prelude.{◌≡◌, None, OnOk, OnErr};
ghost use Rattle.ws_code.specs.Code.{IsChain};
ghost use Rattle.ws_extended.specs.Asking.{asks_in, second_reason};
ghost use Rattle.ws_extended.specs.ExtendedElements.{extended_rules};
ghost use Rattle.ws_extended.specs.ExtendedStates.{ExtendedState, state_after_all};
ghost use Rattle.ws_extended.specs.ExtendedViews.{Shows};
ghost use Rattle.ws_extended_station.specs.ExtendedRecords.{elements_fault, record_fault, state_after_opcode, state_after_record};
ghost use Rattle.ws_screen.specs.Faults.{refusal};

use ws_code::Reason;
use ws_extended::{ExtendedElement, ExtendedScreen};
use ws_record::{Opcode, Record};

/// Carries out a record of a live host as a station does at its IAC EOR: its elements, the end of the write that they
/// leave open, and what its opcode does. No write is open before, nor after. The elements are a body.
///
/// # Errors
///
/// The reason of the second command that asks at once, else the first reason for which an element is refused; the
/// display is then as it was.
pub fn apply_extended_record(
    display: &mut ExtendedScreen,
    record_: &Record<ExtendedElement>,
) -> Result<(), Reason>
    // A body of extended commands, between two writes.
    requires chain { IsChain extended_rules extended_rules.first record_.now.body }
    requires closed { display.old.screen.writing ≡ None }
    // Whether it is refused, and the display behind it.
    ensures fault { (state : ExtendedState) → Shows state display.old
        → refusal result ≡ record_fault state record_.now.body }
    ensures after { OnOk result ((state : ExtendedState) → Shows state display.old
        → Shows (state_after_record state record_.now) display.new) }
    // No write stays open, and a refused record leaves nothing.
    ensures closed { OnOk result (display.new.screen.writing ≡ None) }
    ensures same { OnErr result (display.new ≡ display.old) }
{
    if let Some(reason) = second_asked(record_.body.as_slice()) {
        return Err(reason);
    }
    let mut before = ExtendedScreen::new();
    before.assign(display);
    if let Err(reason) = apply_elements(display, record_.body.as_slice()) {
        display.assign(&before);
        return Err(reason);
    }
    display.end_write();
    act(display, record_.opcode);
    Ok(())
}

// The reason of the second command that asks at once, where there is one.
fn second_asked(elements: &[ExtendedElement]) -> Option<Reason>
    ensures { result ≡ second_reason (asks_in elements.now) }
{
    let mut is_asked = false;
    for element in elements {
        if let ExtendedElement::Asks(ask) = element {
            if is_asked {
                return Some(ask.reason());
            }
            is_asked = true;
        }
    }
    None
}

// Carries out elements, up to the first that is refused.
fn apply_elements(display: &mut ExtendedScreen, elements: &[ExtendedElement]) -> Result<(), Reason>
    requires chain { IsChain extended_rules extended_rules.first elements.now }
    requires closed { display.old.screen.writing ≡ None }
    ensures fault { (state : ExtendedState) → Shows state display.old
        → refusal result ≡ elements_fault state elements.now }
    ensures after { OnOk result ((state : ExtendedState) → Shows state display.old
        → Shows (state_after_all state elements.now) display.new) }
{
    for element in elements {
        display.apply(element)?;
    }
    Ok(())
}

// What an opcode does at its record's end (RFC 1205, section 4). An error stands as before.
fn act(display: &mut ExtendedScreen, opcode: Opcode)
    ensures after { (state : ExtendedState) → Shows state display.old
        → Shows (state_after_opcode opcode state) display.new }
    ensures closed { display.new.screen.writing ≡ display.old.screen.writing }
{
    match opcode {
        Opcode::CancelInvite => display.cancel_read(),
        Opcode::MessageLightOn => display.set_message(true),
        Opcode::MessageLightOff => display.set_message(false),
        _ => {}
    }
}
