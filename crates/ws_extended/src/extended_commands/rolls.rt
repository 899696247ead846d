//! The bytes of a Roll, one by one.

ghost use Rattle.std.specs.Prelude.{◌∷◌, []};
ghost use Rattle.ws_code.specs.Code.{IsUnfinished};
ghost use Rattle.ws_code.specs.Run.{reading};
ghost use Rattle.ws_code.specs.Step.{IsStep};
ghost use Rattle.ws_stream.specs.declared.command_code.TheConstants.{ESCAPE, ROLL};
ghost use Rattle.ws_extended.specs.ExtendedElements.{extended_rules};
ghost use Rattle.ws_extended.specs.ExtendedRuns.{reading_by};

use super::ExtendedCommands;
use super::phase::Phase;
use crate::{ExtendedElement, Roll};
use ws_code::{Push, ROWS, Reason};

impl ExtendedCommands {
    // The control byte.
    pub(super) fn roll_control(&mut self, byte: u8) -> Push<ExtendedElement>
        requires { IsUnfinished extended_rules self.old.place (ESCAPE ∷ ROLL ∷ []) }
        ensures { IsStep extended_rules (reading self.old.place (ESCAPE ∷ ROLL ∷ [])) byte
            (reading_by self.new) result }
    {
        match Roll::new(byte, 1, ROWS) {
            Some(_) => {
                self.phase = Phase::RollsBy(byte);
                Push::More
            }
            None => Push::Bad(Reason::Roll),
        }
    }

    // The first row.
    pub(super) fn roll_top(&mut self, control: u8, byte: u8) -> Push<ExtendedElement>
        requires { IsUnfinished extended_rules self.old.place (ESCAPE ∷ ROLL ∷ control ∷ []) }
        ensures { IsStep extended_rules
            (reading self.old.place (ESCAPE ∷ ROLL ∷ control ∷ [])) byte
            (reading_by self.new) result }
    {
        match Roll::new(control, byte, ROWS) {
            Some(_) => {
                self.phase = Phase::RollsFrom(control, byte);
                Push::More
            }
            None => Push::Bad(Reason::Roll),
        }
    }

    // The last row.
    pub(super) fn roll_bottom(&mut self, control: u8, top: u8, byte: u8) -> Push<ExtendedElement>
        requires { IsUnfinished extended_rules self.old.place
            (ESCAPE ∷ ROLL ∷ control ∷ top ∷ []) }
        ensures { IsStep extended_rules
            (reading self.old.place (ESCAPE ∷ ROLL ∷ control ∷ top ∷ [])) byte
            (reading_by self.new) result }
    {
        match Roll::new(control, top, byte) {
            Some(roll) => Push::Unit(ExtendedElement::Roll(roll)),
            None => Push::Bad(Reason::Roll),
        }
    }
}
