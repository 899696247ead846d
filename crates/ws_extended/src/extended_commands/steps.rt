//! One byte of a live host's body, by what the machine waited for, and which bytes are the profile's machine's.

ghost use Rattle.std.specs.Prelude.{◌≡◌, ◌≢◌, ◌<◌, ◌++◌, ◌∷◌, [], List, ℕ, true, false, Some, None, length, take, IfSome};
ghost use Rattle.ws_code.specs.Code.{IsPrefix, IsSpelled, IsUnfinished};
ghost use Rattle.ws_code.specs.declared.reason.Reason.{Reason as AReason};
ghost use Rattle.ws_code.specs.declared.code.Push.{Push as APush};
ghost use Rattle.ws_code.specs.Run.{reading};
ghost use Rattle.ws_code.specs.Step.{IsStep};
ghost use Rattle.ws_stream.specs.Elements.{element_rules};
ghost use Rattle.ws_stream.specs.Reasons.{element_reason};
ghost use Rattle.ws_stream.specs.Taking.{reading_of};
ghost use Rattle.ws_stream.specs.UnfinishedElement.{unfinished_of};
ghost use Rattle.ws_stream.specs.declared.command_code.TheConstants.{ESCAPE, ROLL, WRITE_STRUCTURED_FIELD};
ghost use Rattle.ws_stream.specs.declared.place.Place.{Place as APlace};
ghost use Rattle.ws_extended.specs.declared.extended_element.ExtendedElement.{ExtendedElement as AnElement};
ghost use Rattle.ws_extended.specs.declared.extended_place.ExtendedPlace.TheVariants.{InProfile};
ghost use Rattle.ws_extended.specs.ExtendedElements.{extended_rules, query_field};
ghost use Rattle.ws_extended.specs.ExtendedMachine.{element_begun_in, inner_place, lift};
ghost use Rattle.ws_extended.specs.ExtendedRuns.{reading_by};
ghost use Rattle.ws_extended.specs.ExtendedReasons.{begin_reason, extended_reason, is_inner, takes_command, takes_first};

use super::ExtendedCommands;
use super::phase::Phase;
use crate::spell::QUERY_FIELD;
use crate::{Ask, ExtendedElement, ExtendedPlace};
use ws_code::{Code, DataByte, Push, Reason};
use ws_stream::command_code::{self, ESCAPE};
use ws_stream::order_code::INSERT_CURSOR;
use ws_stream::{Commands, Element, Place};

// Where the profile's machine stands.
#[inline(always)]
pub(super) fn place_inside(place: ExtendedPlace) -> Place
    ensures { result ≡ inner_place place }
{
    match place {
        ExtendedPlace::InProfile(place) => place,
        ExtendedPlace::ErrorText | ExtendedPlace::Asked(_) => Place::Anything,
    }
}

// What an element of the profile is at a place.
#[inline(always)]
fn lifted(place: ExtendedPlace, element: Element) -> ExtendedElement
    ensures { result ≡ lift place element }
{
    match place {
        ExtendedPlace::InProfile(_) | ExtendedPlace::Asked(_) => ExtendedElement::Profile(element),
        ExtendedPlace::ErrorText => match element {
            Element::Ic(_) | Element::Put(_) => ExtendedElement::Text(element),
            _ => ExtendedElement::Profile(element),
        },
    }
}

// A byte that is an element by itself where orders and data of the profile may stand.
#[inline(always)]
pub(super) fn data_element(place: ExtendedPlace, byte: u8) -> Option<ExtendedElement>
    ensures spelled { IfSome result (IsSpelled extended_rules place (byte ∷ [])) }
    ensures behind { IfSome result (λ unit. extended_rules.after unit ≡ place) }
{
    match place {
        ExtendedPlace::InProfile(Place::Anything) => {
            let byte = DataByte::new(byte)?;
            Some(ExtendedElement::Profile(Element::Put(byte)))
        }
        _ => None,
    }
}

// Why no element begins with a byte that isn't the profile's machine's.
#[inline(always)]
fn refused_first(place: ExtendedPlace, byte: u8) -> Option<Reason>
    ensures refused { (reason : AReason) → result ≡ Some reason
        → (takes_first place byte ≡ false) × (reason ≡ begin_reason place byte) }
    ensures taken { result ≡ None → takes_first place byte ≡ true }
{
    match place {
        ExtendedPlace::InProfile(_) => None,
        ExtendedPlace::ErrorText if byte == INSERT_CURSOR || DataByte::new(byte).is_some() => None,
        ExtendedPlace::ErrorText => Some(Reason::ErrorCode),
        ExtendedPlace::Asked(ask) => Some(ask.reason()),
    }
}

// Hands a byte to the profile's machine, where only an element of the profile can begin so.
#[inline(always)]
fn hand_down(place: ExtendedPlace, inner: &mut Commands, byte: u8) -> Push<ExtendedElement>
    // The profile's machine stands at the same place, and what it says of the byte holds here.
    requires at { (reading_of inner.old).place ≡ inner_place place }
    requires unfinished { IsUnfinished element_rules (inner_place place) (unfinished_of inner.old) }
    requires inner { is_inner place (unfinished_of inner.old ++ byte ∷ []) ≡ true }
    requires reason { (IsPrefix element_rules (inner_place place)
        (unfinished_of inner.old ++ byte ∷ []) → ⊥)
        → element_reason (inner_place place) (unfinished_of inner.old) byte
        ≡ extended_reason place (unfinished_of inner.old) byte }
    // The step is one of these commands, and where it goes on, it does so inside.
    ensures step { IsStep extended_rules (reading place (unfinished_of inner.old)) byte
        (reading place (unfinished_of inner.new)) result }
    ensures stays { result ≡ Push.More → (reading_of inner.new).place ≡ inner_place place }
    ensures inside { result ≡ Push.More → is_inner place (unfinished_of inner.new) ≡ true }
{
    match inner.push(byte) {
        Push::More => Push::More,
        Push::Unit(element) => Push::Unit(lifted(place, element)),
        Push::Bad(reason) => Push::Bad(reason),
    }
}

// Whether no command beside the profile has the code.
#[inline(always)]
fn is_own_command(code: u8) -> bool
    ensures { result ≡ true → (place : APlace)
        → takes_command (InProfile place) code ≡ true }
{
    match code {
        command_code::WRITE_STRUCTURED_FIELD
        | command_code::SAVE_SCREEN
        | command_code::RESTORE_SCREEN
        | command_code::WRITE_ERROR_CODE
        | command_code::ROLL
        | command_code::READ_SCREEN
        | command_code::READ_IMMEDIATE
        | command_code::READ_MDT_IMMEDIATE_ALTERNATE => false,
        _ => true,
    }
}

// Whether only elements of the profile begin with the values, at its places. Of an escape alone nothing is known.
#[inline(always)]
pub(super) fn begins_profile(values: &[u8]) -> bool
    requires { 0 < length values.now }
    ensures { result ≡ true → (place : APlace)
        → is_inner (InProfile place) values.now ≡ true }
{
    if values[0] != ESCAPE {
        return true;
    }
    if values.len() < 2 {
        return false;
    }
    is_own_command(values[1])
}

// The answer to a byte after an escape, but where the profile's machine is asked, or a query or a Roll begins.
fn behind_escape(place: ExtendedPlace, code: u8) -> Option<Push<ExtendedElement>>
    ensures answered { (push : APush AnElement) → result ≡ Some push → (begun : List ℕ)
        → IsStep extended_rules (reading place (ESCAPE ∷ [])) code (reading place begun) push }
    ensures rolls { result ≡ None → code ≡ ROLL
        → IsUnfinished extended_rules place (ESCAPE ∷ ROLL ∷ []) }
    ensures left { result ≡ None → code ≢ WRITE_STRUCTURED_FIELD → code ≢ ROLL
        → takes_command place code ≡ true }
{
    match code {
        command_code::WRITE_STRUCTURED_FIELD => None,
        command_code::SAVE_SCREEN => Some(Push::Unit(ExtendedElement::Asks(Ask::SaveScreen))),
        command_code::READ_SCREEN => Some(Push::Unit(ExtendedElement::Asks(Ask::ReadScreen))),
        command_code::READ_IMMEDIATE => {
            Some(Push::Unit(ExtendedElement::Asks(Ask::ReadImmediate)))
        }
        command_code::READ_MDT_IMMEDIATE_ALTERNATE => Some(Push::Unit(ExtendedElement::Asks(
            Ask::ReadImmediateAlternate,
        ))),
        _ => match place {
            ExtendedPlace::InProfile(_) | ExtendedPlace::ErrorText => match code {
                command_code::RESTORE_SCREEN => Some(Push::Unit(ExtendedElement::RestoreScreen)),
                command_code::WRITE_ERROR_CODE => Some(Push::Unit(ExtendedElement::WriteError)),
                _ => None,
            },
            ExtendedPlace::Asked(ask) => Some(Push::Bad(ask.reason())),
        },
    }
}

impl ExtendedCommands {
    // The profile's machine takes the byte.
    #[inline(always)]
    fn go_on(&mut self, byte: u8) -> Push<ExtendedElement>
        // The profile's machine stands at the same place, and what it says of the byte holds here.
        requires at { (reading_of self.old.inner).place ≡ inner_place self.old.place }
        requires unfinished { IsUnfinished element_rules (inner_place self.old.place)
            (unfinished_of self.old.inner) }
        requires inner { is_inner self.old.place
            (unfinished_of self.old.inner ++ byte ∷ []) ≡ true }
        requires reason { (IsPrefix element_rules (inner_place self.old.place)
            (unfinished_of self.old.inner ++ byte ∷ []) → ⊥)
            → element_reason (inner_place self.old.place) (unfinished_of self.old.inner) byte
            ≡ extended_reason self.old.place (unfinished_of self.old.inner) byte }
        // The step is one of these commands.
        ensures { IsStep extended_rules (reading self.old.place (unfinished_of self.old.inner)) byte
            (reading_by self.new) result }
    {
        let place = self.place;
        match hand_down(place, &mut self.inner, byte) {
            Push::More => {
                self.phase = Phase::Inside;
                Push::More
            }
            Push::Unit(unit) => {
                self.phase = Phase::Begin;
                self.inner.restart(place_inside(place));
                Push::Unit(unit)
            }
            Push::Bad(reason) => {
                self.phase = Phase::Begin;
                self.inner.restart(place_inside(place));
                Push::Bad(reason)
            }
        }
    }

    // The first byte of an element.
    #[inline(always)]
    fn begin(&mut self, byte: u8) -> Push<ExtendedElement>
        requires { self.old.phase ≡ Phase.Begin }
        ensures { IsStep extended_rules (reading self.old.place []) byte
            (reading_by self.new) result }
    {
        // Most bytes of a long body are data.
        if let Some(unit) = data_element(self.place, byte) {
            return Push::Unit(unit);
        }
        if byte == ESCAPE {
            let _more = self.inner.push(byte);
            self.phase = Phase::Escaped;
            return Push::More;
        }
        match refused_first(self.place, byte) {
            Some(reason) => Push::Bad(reason),
            None => self.go_on(byte),
        }
    }

    // The byte after an escape.
    fn escaped(&mut self, byte: u8) -> Push<ExtendedElement>
        requires { self.old.phase ≡ Phase.Escaped }
        ensures { IsStep extended_rules (reading self.old.place (ESCAPE ∷ [])) byte
            (reading_by self.new) result }
    {
        if byte == command_code::WRITE_STRUCTURED_FIELD {
            self.phase = Phase::InQuery(0);
            return Push::More;
        }
        match behind_escape(self.place, byte) {
            Some(push) => push,
            None if byte == command_code::ROLL => {
                self.phase = Phase::Rolls;
                Push::More
            }
            None => self.go_on(byte),
        }
    }

    // A byte of a query's structured field, after so many.
    fn in_query(&mut self, count: u8, byte: u8) -> Push<ExtendedElement>
        requires { count < 5 }
        ensures { IsStep extended_rules
            (reading self.old.place (ESCAPE ∷ WRITE_STRUCTURED_FIELD ∷ take count query_field)) byte
            (reading_by self.new) result }
    {
        if byte != QUERY_FIELD[usize::from(count)] {
            return Push::Bad(Reason::StructuredField);
        }
        if count == 4 {
            return Push::Unit(ExtendedElement::Asks(Ask::Query));
        }
        self.phase = Phase::InQuery(count + 1);
        Push::More
    }

    // The answer to a byte, by what was waited for.
    #[inline(always)]
    pub(super) fn step(&mut self, byte: u8) -> Push<ExtendedElement>
        requires { IsUnfinished extended_rules self.old.place
            (element_begun_in self.old.phase (unfinished_of self.old.inner)) }
        ensures { IsStep extended_rules (reading_by self.old) byte (reading_by self.new) result }
    {
        match self.phase {
            Phase::Begin => self.begin(byte),
            Phase::Escaped => self.escaped(byte),
            Phase::Inside => self.go_on(byte),
            Phase::InQuery(count) => self.in_query(count, byte),
            Phase::Rolls => self.roll_control(byte),
            Phase::RollsBy(control) => self.roll_top(control, byte),
            Phase::RollsFrom(control, top) => self.roll_bottom(control, top, byte),
        }
    }
}
