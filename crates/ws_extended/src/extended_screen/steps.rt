//! What an error and the key Reset do to a display.
ghost use Rattle.std.specs.Prelude.{◌≡◌, [], None, IsSome, is_some};
ghost use Rattle.ws_screen.specs.Bodies.{after_elements};
ghost use Rattle.ws_screen.specs.Events.{History};
ghost use Rattle.ws_screen.specs.Given.{Gives};
ghost use Rattle.ws_screen.specs.ScreenParts.{IsLegal};
ghost use Rattle.ws_extended.specs.ErrorLine.{IsRow};
ghost use Rattle.ws_extended.specs.ExtendedStates.{ExtendedState, covered, gives_back, reset_history, state_after_end, state_after_reset, told_screen, uncovered};
ghost use Rattle.ws_extended.specs.ExtendedViews.{Shows, kept_of};

use super::ExtendedScreen;
use crate::error_line::{KeptRow, begin_error};
use ws_code::ROWS;
use ws_screen::Screen;

// The CC2 of the key Reset: it unlocks the keyboard, and the cursor stays.
const RESET_CONTROL: u8 = 0x48;

// Gives a row back, where one is kept.
fn give_back(kept: &Option<KeptRow>, screen: &mut Screen, cc2: u8)
    ensures { (h : History) → Gives h screen.old
        → Gives (after_elements h (gives_back cc2 (kept_of kept.now))) screen.new }
{
    if let Some(kept) = kept {
        screen.end_write();
        kept.give_back(screen, cc2);
    }
}

// Carries out the key Reset on a screen.
fn give_back_at_reset(kept: &Option<KeptRow>, screen: &mut Screen)
    ensures closed { screen.old.writing ≡ None → screen.new.writing ≡ None }
    ensures given { (h : History) → Gives h screen.old
        → Gives (reset_history h (kept_of kept.now)) screen.new }
{
    if let Some(kept) = kept {
        screen.end_write();
        kept.give_back(screen, RESET_CONTROL);
        screen.end_write();
    }
}

impl ExtendedScreen {
    /// A new screen, on which no error stands; its error line is the last row.
    pub fn new() -> Self
        ensures { Shows (record { history = []; kept = None; text = 0 }) result }
    {
        ExtendedScreen {
            screen: Screen::new(),
            error_row: ROWS,
            kept: None,
            text: 0,
        }
    }

    /// Makes this display equal to another.
    pub fn assign(&mut self, other: &ExtendedScreen)
        ensures { self.new ≡ other.now }
    {
        self.screen.assign(&other.screen);
        self.error_row = other.error_row;
        self.kept = other.kept;
        self.text = other.text;
    }

    /// The screen as it is seen, with the text of an error that stands.
    pub fn screen(&self) -> &Screen
        ensures { result.now ≡ self.now.screen }
    {
        &self.screen
    }

    /// The row of the error line.
    pub fn error_row(&self) -> u8
        ensures value { result ≡ self.now.error_row }
        ensures on_screen { IsRow result }
    {
        self.error_row
    }

    /// Whether an error stands.
    pub fn error_stands(&self) -> bool
        ensures { result ≡ is_some self.now.kept }
    {
        self.kept.is_some()
    }

    /// The screen that the key Reset would leave: what asks at once is told of it (own choice).
    pub fn told(&self) -> Screen
        ensures told { (state : ExtendedState) → Shows state self.now
            → result ≡ told_screen state }
        ensures given { (state : ExtendedState) → Shows state self.now
            → Gives (state_after_reset state).history result }
        ensures legal { IsLegal result }
        ensures closed { self.now.screen.writing ≡ None → result.writing ≡ None }
    {
        let mut told = Screen::new();
        told.assign(&self.screen);
        give_back_at_reset(&self.kept, &mut told);
        told.known();
        told
    }

    /// Ends the open write, if one is open.
    pub fn end_write(&mut self)
        ensures ended { (state : ExtendedState) → Shows state self.old
            → Shows (state_after_end state) self.new }
        ensures closed { self.new.screen.writing ≡ None }
    {
        self.screen.end_write();
    }

    // Keeps the error line, and blanks it.
    pub(super) fn cover(&mut self)
        ensures covered { (state : ExtendedState) → Shows state self.old
            → Shows (covered state) self.new }
        ensures open_ { IsSome self.new.screen.writing }
    {
        let row = self.error_row;
        self.screen.known();
        let kept = KeptRow::of(&self.screen, row);
        self.screen.end_write();
        begin_error(&mut self.screen, row);
        self.kept = Some(kept);
        self.text = 0;
    }

    // Gives the row back that an error covers, if one stands, with a CC2 for the end of the write.
    pub(super) fn uncover(&mut self, cc2: u8)
        ensures { (state : ExtendedState) → Shows state self.old
            → Shows (uncovered cc2 state) self.new }
    {
        give_back(&self.kept, &mut self.screen, cc2);
        self.kept = None;
    }

    /// The key Reset: where an error stands, the row comes back and the keyboard is unlocked; where none stands, it
    /// does nothing (own choice).
    pub fn reset(&mut self)
        ensures reset { (state : ExtendedState) → Shows state self.old
            → Shows (state_after_reset state) self.new }
        ensures closed { self.old.screen.writing ≡ None → self.new.screen.writing ≡ None }
    {
        give_back_at_reset(&self.kept, &mut self.screen);
        self.kept = None;
    }
}
