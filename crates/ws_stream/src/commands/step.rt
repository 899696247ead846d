//! One byte of a host's body, and a run of them: what the machine makes of what it waited for.

ghost use Rattle.std.specs.Prelude.{◌≡◌, ◌≤◌, [], true, length, take};
ghost use Rattle.ws_code.specs.Code.{IsUnfinished};
ghost use Rattle.ws_code.specs.Run.{IsRunOfValues, intake, with_keep};
ghost use Rattle.ws_code.specs.declared.run.End.{End as AnEnd};
ghost use Rattle.ws_stream.specs.Elements.{element_rules};
ghost use Rattle.ws_stream.specs.Machine.{is_sound};
ghost use Rattle.ws_stream.specs.Taking.{IsWaiting, IsKept, Takes, reading_of, standing_of};
ghost use Rattle.ws_stream.specs.UnfinishedElement.{unfinished_of};

use super::Commands;
use super::phase::Phase;
use crate::{Element, Place};
use ws_code::{Code, End, Keep, Kept, Run, Standing};

// Hands over an element after which the machine stands.
#[inline(always)]
pub(super) fn hand_over<K: Keep<Element>>(keep: &mut K, element: Element) -> End
    ensures { (machine : Commands)
        → reading_of machine ≡ record { place = element_rules.after element; begun = [] }
        → IsKept K.keeper keep.old element (with_keep machine keep.new) result }
{
    // Straight into the keep, so that no layer hands an element on by value.
    match keep.keep(element) {
        Kept::GoOn => End::More,
        Kept::Enough => End::Enough,
        Kept::NoMemory => End::NoMemory,
    }
}

impl Commands {
    // The byte begins or continues an element.
    #[inline(always)]
    pub(super) fn wait_for(&mut self, phase: Phase) -> End
        requires { is_sound phase self.old.controls ≡ true }
        ensures { IsWaiting self.old phase self.new result }
    {
        self.phase = phase;
        End::More
    }

    // The element is complete, and the machine begins anew after it.
    #[inline(always)]
    pub(super) fn complete<K: Keep<Element>>(&mut self, keep: &mut K, element: Element) -> End
        ensures { IsKept K.keeper keep.old element (with_keep self.new keep.new) result }
    {
        self.phase = Phase::Begin;
        self.place = Commands::after(&element);
        hand_over(keep, element)
    }

    // What the byte makes of what was waited for.
    #[inline(always)]
    pub(super) fn step<K: Keep<Element>>(&mut self, keep: &mut K, byte: u8) -> End
        requires { IsUnfinished element_rules self.old.place (unfinished_of self.old) }
        ensures { Takes K.keeper (with_keep (reading_of self.old) keep.old) byte
            (with_keep self.new keep.new) result }
    {
        let phase = self.phase;
        match phase {
            Phase::Begin => self.begin(keep, byte),
            Phase::Escape => self.command(keep, byte),
            Phase::FirstControl(control) => self.first_control(control, byte),
            Phase::SecondControl(control, cc1) => self.second_control(keep, control, cc1, byte),
            Phase::SohLength => self.soh_length(keep, byte),
            Phase::SohByte(count) => self.soh_byte(keep, count, byte),
            Phase::Row(order) => self.row(order, byte),
            Phase::Column(order, row) => self.column(keep, order, row, byte),
            Phase::RepeatByte(to) => self.repeat_byte(keep, to, byte),
            Phase::EraseLength(to) => self.erase_length(to, byte),
            Phase::EraseKind(to, count) => self.erase_kind(keep, to, count, byte),
            Phase::FieldFirst => self.field_first(byte),
            Phase::FormatLow(high) => self.format_low(high, byte),
            Phase::FieldNext(format) => self.field_next(format, byte),
            Phase::ControlLow(format, high) => self.control_low(format, high, byte),
            Phase::LengthHigh(format, attribute) => self.length_high(format, attribute, byte),
            Phase::LengthLow(format, attribute, high) => {
                self.length_low(keep, format, attribute, high, byte)
            }
        }
    }

    // Most bytes of a long body are data, so a byte between elements is looked at first.
    #[inline(always)]
    fn take<K: Keep<Element>>(&mut self, keep: &mut K, byte: u8) -> End
        requires { IsUnfinished element_rules self.old.place (unfinished_of self.old) }
        ensures { Takes K.keeper (with_keep (reading_of self.old) keep.old) byte
            (with_keep self.new keep.new) result }
    {
        if let Phase::Begin = self.phase {
            return self.begin(keep, byte);
        }
        self.step(keep, byte)
    }

    // Where the element stands that is read, and whether some of it was.
    #[inline(always)]
    pub(super) fn standing(&self) -> Standing<Place>
        ensures { result ≡ standing_of self.now }
    {
        Standing {
            place: self.place,
            is_inside: !matches!(self.phase, Phase::Begin),
        }
    }

    // Takes values up to one with which the machine doesn't go on.
    #[inline(always)]
    pub(super) fn take_all<K: Keep<Element>>(&mut self, values: &[u8], keep: &mut K) -> Run
        requires { IsUnfinished element_rules self.old.place (unfinished_of self.old) }
        ensures used { result.used ≤ length values.now }
        ensures whole { result.end ≡ AnEnd.More → result.used ≡ length values.now }
        ensures run { IsRunOfValues (intake element_rules K.keeper)
            (with_keep (reading_of self.old) keep.old) (take result.used values.now)
            (with_keep (reading_of self.new) keep.new) (standing_of self.new) result.end }
    {
        for (index, value) in values.iter().enumerate() {
            match self.take(keep, *value) {
                End::More => {}
                end => {
                    return Run {
                        used: index + 1,
                        end,
                    };
                }
            }
        }
        Run {
            used: values.len(),
            end: End::More,
        }
    }
}
