//! What a live host's elements do to a display.
ghost use Rattle.std.specs.Prelude.{◌≡◌, false, true, None, IsSome, is_some, OnErr, OnOk, unwrap_or};
ghost use Rattle.ws_screen.specs.Events.{did};
ghost use Rattle.ws_stream.specs.Elements.{lets_orders_follow};
ghost use Rattle.ws_screen.specs.Bodies.{after_element};
ghost use Rattle.ws_screen.specs.Faults.{fault, refusal};
ghost use Rattle.ws_extended.specs.ErrorLine.{IsRow, sets_error_row};
ghost use Rattle.ws_extended.specs.ExtendedStates.{ExtendedState, nulls_fields, state_after, state_before, state_fault, uncovers};
ghost use Rattle.ws_extended.specs.ExtendedViews.{NeedsOpenWrite, Shows, leaves_write_open};
ghost use Rattle.ws_extended.specs.declared.extended_element.ExtendedElement.TheVariants.{Profile, RestoreScreen, Roll as RollBy, Text, WriteError};

use super::ExtendedScreen;
use crate::rolling::roll_rows;
use crate::{ExtendedElement, Roll};
use ws_code::{COLUMNS, ROWS, Reason};
use ws_stream::Element;

// The row of the error line after an element of the profile.
fn row_behind(row: u8, element: &Element) -> u8
    requires { IsRow row }
    ensures value { result ≡ unwrap_or (sets_error_row (did element.now)) row }
    ensures on_screen { IsRow result }
{
    match element {
        Element::ClearUnit | Element::ClearFormat => ROWS,
        Element::Soh(header) => {
            let bytes = header.as_slice();
            if bytes.len() > 3 && bytes[3] >= 1 && bytes[3] <= ROWS {
                bytes[3]
            } else {
                ROWS
            }
        }
        _ => row,
    }
}

// Whether a CC1 nulls fields: its code is 4 to 7 (SC30-3533, control character 1).
fn nulls_fields(cc1: u8) -> bool
    ensures { result ≡ nulls_fields cc1 }
{
    cc1 / 32 % 8 >= 4
}

// Whether a row that an error covers comes back before an element of the profile.
fn uncovers(element: &Element) -> bool
    ensures { result ≡ uncovers element.now }
{
    match element {
        Element::ClearUnit | Element::ClearFormat | Element::Write { .. } => true,
        Element::ReadInput { cc1, .. }
        | Element::ReadMdt { cc1, .. }
        | Element::ReadMdtAlternate { cc1, .. } => nulls_fields(*cc1),
        Element::Soh(_)
        | Element::Ra { .. }
        | Element::Ea { .. }
        | Element::Sba(_)
        | Element::Ic(_)
        | Element::Mc(_)
        | Element::Sf(_)
        | Element::Put(_) => false,
    }
}

// Whether an element of the profile leaves the error line, and the row that an error covers, as they are.
#[inline(always)]
fn touches_screen_alone(element: &Element) -> bool
    ensures { result ≡ true
        → (uncovers element.now ≡ false) × (sets_error_row (did element.now) ≡ None) }
{
    match element {
        Element::ClearUnit
        | Element::ClearFormat
        | Element::Write { .. }
        | Element::ReadInput { .. }
        | Element::ReadMdt { .. }
        | Element::ReadMdtAlternate { .. }
        | Element::Soh(_) => false,
        Element::Ra { .. }
        | Element::Ea { .. }
        | Element::Sba(_)
        | Element::Ic(_)
        | Element::Mc(_)
        | Element::Sf(_)
        | Element::Put(_) => true,
    }
}

impl ExtendedScreen {
    // Gives the row back, where an element of the profile asks for that.
    fn make_ready(&mut self, element: &Element)
        ensures ready { (state : ExtendedState) → Shows state self.old
            → Shows (state_before state element.now) self.new }
        ensures untouched { uncovers element.now ≡ false → self.new ≡ self.old }
    {
        if uncovers(element) {
            self.uncover(0);
        }
    }

    // Carries out an element of the profile as the screen does.
    fn carry_out(&mut self, element: &Element) -> Result<(), Reason>
        requires { NeedsOpenWrite (Profile element.now) self.old.screen }
        // Whether it is refused, and what is shown after it.
        ensures fault { refusal result ≡ fault self.old.screen element.now }
        ensures after { OnOk result ((state : ExtendedState) → Shows state self.old
            → Shows (record state { history = after_element state.history element.now }) self.new) }
        // Whether a write is open then; a refusal changes nothing.
        ensures open_ { OnOk result
            (is_some self.new.screen.writing ≡ lets_orders_follow element.now) }
        ensures unchanged { OnErr result (self.new ≡ self.old) }
    {
        self.screen.apply(element)?;
        self.error_row = row_behind(self.error_row, element);
        Ok(())
    }

    /// Carries out an element of the profile, as `apply` does (SC30-3533, display data stream).
    ///
    /// # Errors
    ///
    /// The reason for which the screen refuses it; nothing is changed then.
    #[inline(always)]
    pub fn apply_profile(&mut self, element: &Element) -> Result<(), Reason>
        requires { NeedsOpenWrite (Profile element.now) self.old.screen }
        // Whether it is refused, and what is shown after it.
        ensures fault { (state : ExtendedState) → Shows state self.old
            → refusal result ≡ state_fault state (Profile element.now) }
        ensures after { OnOk result ((state : ExtendedState) → Shows state self.old
            → Shows (state_after state (Profile element.now)) self.new) }
        // Whether a write is open then; a refusal changes nothing.
        ensures open_ { OnOk result
            (is_some self.new.screen.writing ≡ lets_orders_follow element.now) }
        ensures unchanged { OnErr result (self.new ≡ self.old) }
    {
        if touches_screen_alone(element) {
            return self.screen.apply(element);
        }
        self.make_ready(element);
        self.carry_out(element)
    }

    // Carries out an element of an error's text.
    fn show_text(&mut self, element: &Element) -> Result<(), Reason>
        requires { NeedsOpenWrite (Text element.now) self.old.screen }
        // Whether it is refused, and what is shown after it.
        ensures fault { (state : ExtendedState) → Shows state self.old
            → refusal result ≡ state_fault state (Text element.now) }
        ensures after { OnOk result ((state : ExtendedState) → Shows state self.old
            → Shows (state_after state (Text element.now)) self.new) }
        // The write stays open, and a refusal changes nothing.
        ensures open_ { OnOk result (is_some self.new.screen.writing ≡ true) }
        ensures unchanged { OnErr result (self.new ≡ self.old) }
    {
        match element {
            Element::Ic(place) => self.screen.apply(&Element::Mc(*place)),
            Element::Put(byte) => {
                if self.text == COLUMNS {
                    return Err(Reason::PastEnd);
                }
                self.screen.apply(&Element::Put(*byte))?;
                self.text += 1;
                Ok(())
            }
            _ => Ok(()),
        }
    }

    // Restore Screen: what comes back stands after it.
    fn restore(&mut self)
        ensures restored { (state : ExtendedState) → Shows state self.old
            → Shows (state_after state RestoreScreen) self.new }
        ensures closed { self.new.screen.writing ≡ None }
    {
        self.uncover(0);
        self.end_write();
    }

    // Roll.
    fn roll(&mut self, roll: &Roll)
        ensures rolled { (state : ExtendedState) → Shows state self.old
            → Shows (state_after state (RollBy roll.now)) self.new }
        ensures closed { self.new.screen.writing ≡ None }
    {
        self.uncover(0);
        roll_rows(&mut self.screen, roll);
    }

    // Write Error Code.
    fn write_error(&mut self)
        ensures begun { (state : ExtendedState) → Shows state self.old
            → Shows (state_after state WriteError) self.new }
        ensures open_ { IsSome self.new.screen.writing }
    {
        self.uncover(0);
        self.cover();
    }

    /// Carries out an element of a live host's body (SC30-3533, commands). An order or a byte stands in an open write;
    /// a text's are an Insert Cursor or a byte.
    ///
    /// # Errors
    ///
    /// The screen's reason, or `PastEnd` where an error's text has more bytes than a row has cells; nothing is changed
    /// then.
    pub fn apply(&mut self, element: &ExtendedElement) -> Result<(), Reason>
        requires { NeedsOpenWrite element.now self.old.screen }
        // Whether it is refused, and what is shown after it.
        ensures fault { (state : ExtendedState) → Shows state self.old
            → refusal result ≡ state_fault state element.now }
        ensures after { OnOk result ((state : ExtendedState) → Shows state self.old
            → Shows (state_after state element.now) self.new) }
        // Whether a write is open then; a refusal changes nothing.
        ensures open_ { OnOk result
            (is_some self.new.screen.writing ≡ leaves_write_open element.now) }
        ensures unchanged { OnErr result (self.new ≡ self.old) }
    {
        match element {
            ExtendedElement::Profile(element) => self.apply_profile(element),
            ExtendedElement::Text(element) => self.show_text(element),
            ExtendedElement::Roll(roll) => {
                self.roll(roll);
                Ok(())
            }
            ExtendedElement::WriteError => {
                self.write_error();
                Ok(())
            }
            ExtendedElement::RestoreScreen => {
                self.restore();
                Ok(())
            }
            ExtendedElement::Asks(_) => {
                self.end_write();
                Ok(())
            }
        }
    }
}
