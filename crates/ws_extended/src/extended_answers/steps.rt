//! One byte of what a live host's station sends, by what the machine waited for.

ghost use Rattle.std.specs.Prelude.{◌≡◌, ◌++◌, ◌∷◌, [], true, false, take};
ghost use Rattle.ws_code.specs.Code.{IsUnfinished};
ghost use Rattle.ws_code.specs.Run.{reading};
ghost use Rattle.ws_code.specs.Step.{IsStep};
ghost use Rattle.ws_stream.specs.Elements.{row_and_column};
ghost use Rattle.ws_stream.specs.declared.command_code.TheConstants as codes;
ghost use Rattle.ws_stream.specs.declared.order_code.TheConstants as orders;
ghost use Rattle.ws_extended.specs.ExtendedAnswers as Spec;
ghost use Rattle.ws_extended.specs.ExtendedAnswers.{extended_answer_rules};
ghost use Rattle.ws_extended.specs.ExtendedAnswerMachine as Machine;
ghost use Rattle.ws_extended.specs.ExtendedAnswerMachine.{element_begun, is_waiting, part_reading, reply_place, waits_at, waits_behind};
ghost use Rattle.ws_extended.specs.ExtendedElements.{extended_rules};
ghost use Rattle.ws_extended.specs.QueryReply.{reply_head};
ghost use Rattle.ws_extended.specs.declared.extended_answer_place.ExtendedAnswerPlace.TheVariants.{Beginning, Fields, InReply, InSaved};

use super::ExtendedAnswers;
use super::waits::Waits;
use crate::replies::HEAD;
use crate::telling::NO_KEY;
use crate::{ExtendedAnswerPart, ExtendedAnswerPlace, ExtendedCommands, ExtendedPlace};
use ws_code::{Address, Aid, Code, DataByte, Push, ROWS, Reason};
use ws_stream::AnswerPart;
use ws_stream::command_code::{CLEAR_UNIT, ESCAPE};
use ws_stream::order_code::SET_BUFFER_ADDRESS;

// A Restore Screen, read as row and column of a cursor: 4 and 18.
const RESTORE_AS_CURSOR: u16 = 257;

/// The place after a byte of a reply.
pub(super) fn behind_reply(left: u8) -> ExtendedAnswerPlace
    ensures { result ≡ Spec.behind_reply left }
{
    match left {
        0 => ExtendedAnswerPlace::Replied,
        later => ExtendedAnswerPlace::InReply(later - 1),
    }
}

/// Where an element of a saved screen is read.
pub(super) fn element_place(place: ExtendedAnswerPlace) -> ExtendedPlace
    ensures { result ≡ Machine.element_place place }
{
    match place {
        ExtendedAnswerPlace::InSaved(at) => at,
        _ => ExtendedCommands::first(),
    }
}

/// What is waited for where a part begins.
pub(super) fn waiting_at(place: ExtendedAnswerPlace) -> Waits
    ensures waits { is_waiting result ≡ true }
    ensures fresh { waits_behind result [] ≡ [] }
    ensures place { waits_at result (Machine.element_place place) ≡ place }
{
    match place {
        ExtendedAnswerPlace::Beginning => Waits::HeadRow,
        ExtendedAnswerPlace::Fields => Waits::Part,
        ExtendedAnswerPlace::InReply(left) => Waits::ReplyByte(left),
        ExtendedAnswerPlace::Replied => Waits::Front {
            again: true,
            count: 0,
        },
        ExtendedAnswerPlace::InSaved(_) => Waits::InElement,
    }
}

// Whether a body that began with a cursor is a saved screen.
fn begins_saved(cursor: Address, byte: u8) -> bool
    ensures yes { result ≡ true → (byte ≡ codes.ESCAPE) × (cursor ≡ 257) }
    ensures no { result ≡ false → byte ≡ codes.ESCAPE → cursor ≡ 257 → ⊥ }
{
    byte == ESCAPE && cursor.place() == RESTORE_AS_CURSOR
}

impl ExtendedAnswers {
    // The byte begins or continues a part.
    fn wait_for(&mut self, waits: Waits) -> Push<ExtendedAnswerPart>
        requires { is_waiting waits ≡ true }
        ensures more { result ≡ Push.More }
        ensures waits { self.new.waits ≡ waits }
    {
        self.waits = waits;
        Push::More
    }

    // The first byte of a body.
    fn head_row(&mut self, byte: u8) -> Push<ExtendedAnswerPart>
        ensures { IsStep extended_answer_rules (reading Beginning []) byte
            (part_reading self.new.waits self.new.elements) result }
    {
        if byte == 0 {
            return self.wait_for(Waits::Front {
                again: false,
                count: 1,
            });
        }
        if byte > ROWS {
            return Push::Bad(Reason::BadAddress);
        }
        self.wait_for(Waits::HeadColumn(byte))
    }

    fn head_column(&mut self, row: u8, byte: u8) -> Push<ExtendedAnswerPart>
        requires { is_waiting (Waits.HeadColumn row) ≡ true }
        ensures { IsStep extended_answer_rules (reading Beginning (row ∷ [])) byte
            (part_reading self.new.waits self.new.elements) result }
    {
        match Address::new(row, byte) {
            Some(cursor) => self.wait_for(Waits::HeadLast(cursor)),
            None => Push::Bad(Reason::BadAddress),
        }
    }

    // The third byte, which tells an answer to a read from what is told at once.
    fn head_last(&mut self, cursor: Address, byte: u8) -> Push<ExtendedAnswerPart>
        ensures { IsStep extended_answer_rules (reading Beginning (row_and_column cursor)) byte
            (part_reading self.new.waits self.new.elements) result }
    {
        if byte == NO_KEY {
            return Push::Unit(ExtendedAnswerPart::AtOnce(cursor));
        }
        if begins_saved(cursor, byte) {
            return self.wait_for(Waits::SavedCode);
        }
        match Aid::from_byte(byte) {
            Some(aid) => Push::Unit(ExtendedAnswerPart::Profile(AnswerPart::Head { cursor, aid })),
            None => Push::Bad(Reason::BadAid),
        }
    }

    // A byte of a reply's front, after so many.
    fn front(&mut self, again: bool, count: u8, byte: u8) -> Push<ExtendedAnswerPart>
        requires { is_waiting (Waits.Front again count) ≡ true }
        ensures { IsStep extended_answer_rules (reading (reply_place again) (take count reply_head))
            byte (part_reading self.new.waits self.new.elements) result }
    {
        if byte != HEAD[usize::from(count)] {
            return Push::Bad(Reason::StructuredField);
        }
        if count == 7 {
            return Push::Unit(ExtendedAnswerPart::QueryReply);
        }
        self.wait_for(Waits::Front {
            again,
            count: count + 1,
        })
    }

    fn saved_code(&mut self, byte: u8) -> Push<ExtendedAnswerPart>
        ensures { IsStep extended_answer_rules
            (reading Beginning (codes.ESCAPE ∷ codes.RESTORE_SCREEN ∷ codes.ESCAPE ∷ [])) byte
            (part_reading self.new.waits self.new.elements) result }
    {
        if byte == CLEAR_UNIT {
            Push::Unit(ExtendedAnswerPart::Saved)
        } else {
            Push::Bad(Reason::SaveRestore)
        }
    }

    fn part(&mut self, byte: u8) -> Push<ExtendedAnswerPart>
        ensures { IsStep extended_answer_rules (reading Fields []) byte
            (part_reading self.new.waits self.new.elements) result }
    {
        if byte == SET_BUFFER_ADDRESS {
            return self.wait_for(Waits::AtRow);
        }
        match DataByte::new(byte) {
            Some(byte) => Push::Unit(ExtendedAnswerPart::Profile(AnswerPart::Byte(byte))),
            None => Push::Bad(Reason::BadAnswerByte),
        }
    }

    fn at_row(&mut self, byte: u8) -> Push<ExtendedAnswerPart>
        ensures { IsStep extended_answer_rules (reading Fields (orders.SET_BUFFER_ADDRESS ∷ []))
            byte (part_reading self.new.waits self.new.elements) result }
    {
        if byte < 1 || byte > ROWS {
            return Push::Bad(Reason::BadAddress);
        }
        self.wait_for(Waits::AtColumn(byte))
    }

    fn at_column(&mut self, row: u8, byte: u8) -> Push<ExtendedAnswerPart>
        ensures { IsStep extended_answer_rules
            (reading Fields (orders.SET_BUFFER_ADDRESS ∷ row ∷ [])) byte
            (part_reading self.new.waits self.new.elements) result }
    {
        match Address::new(row, byte) {
            Some(place) => Push::Unit(ExtendedAnswerPart::Profile(AnswerPart::At(place))),
            None => Push::Bad(Reason::BadAddress),
        }
    }

    // A byte of a saved screen.
    fn element(&mut self, byte: u8) -> Push<ExtendedAnswerPart>
        requires waits { self.old.waits ≡ Waits.InElement }
        requires more { IsUnfinished extended_rules self.old.elements.place
            (element_begun self.old.elements) }
        ensures { IsStep extended_answer_rules
            (reading (InSaved self.old.elements.place) (element_begun self.old.elements)) byte
            (part_reading self.new.waits self.new.elements) result }
    {
        match self.elements.push(byte) {
            Push::More => Push::More,
            Push::Unit(element) => Push::Unit(ExtendedAnswerPart::Of(element)),
            Push::Bad(reason) => Push::Bad(reason),
        }
    }

    // The answer to a byte, by what was waited for.
    pub(super) fn step(&mut self, byte: u8) -> Push<ExtendedAnswerPart>
        requires { IsUnfinished extended_answer_rules
            (waits_at self.old.waits self.old.elements.place)
            (waits_behind self.old.waits (element_begun self.old.elements)) }
        ensures { IsStep extended_answer_rules (part_reading self.old.waits self.old.elements) byte
            (part_reading self.new.waits self.new.elements) result }
    {
        match std::mem::replace(&mut self.waits, Waits::InElement) {
            Waits::HeadRow => self.head_row(byte),
            Waits::HeadColumn(row) => self.head_column(row, byte),
            Waits::HeadLast(cursor) => self.head_last(cursor, byte),
            Waits::Front { again, count } => self.front(again, count, byte),
            Waits::SavedCode => self.saved_code(byte),
            Waits::Part => self.part(byte),
            Waits::AtRow => self.at_row(byte),
            Waits::AtColumn(row) => self.at_column(row, byte),
            Waits::ReplyByte(left) => Push::Unit(ExtendedAnswerPart::Reply { left, byte }),
            Waits::InElement => self.element(byte),
        }
    }
}
