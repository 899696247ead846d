//! A run of bytes.
ghost use Rattle.std.specs.Prelude.{◌≡◌, ◌<◌, ◌≤◌, ◌∷◌, [], true, Some, IfSome, length, take};
ghost use Rattle.ws_code.specs.Code.{IsSpelled};
ghost use Rattle.ws_code.specs.Keep.{KeepsOne};
ghost use Rattle.ws_code.specs.Run.{IsAt, IsRunOfValues, intake, with_keep};
ghost use Rattle.ws_code.specs.declared.keep.Kept.{Kept as AKept};
ghost use Rattle.ws_extended.specs.ExtendedElements.{extended_rules};
ghost use Rattle.ws_extended.specs.ExtendedRuns.{GoesInside, kept_end, reading_by};

use super::ExtendedCommands;
use super::phase::Phase;
use super::steps::{begins_profile, data_element, place_inside};
use crate::{ExtendedElement, ExtendedPlace};
use ws_code::{Code, End, Keep, Kept, Push, Run, Standing};
use ws_stream::Element;

// Hands over an element.
#[inline(always)]
fn hand_over<K: Keep<ExtendedElement>>(keep: &mut K, element: ExtendedElement) -> End
    ensures { (answer : AKept) × (result ≡ kept_end answer)
        × KeepsOne K.keeper keep.old keep.new element answer × K.keeper.may_answer answer }
{
    match keep.keep(element) {
        Kept::GoOn => End::More,
        Kept::Enough => End::Enough,
        Kept::NoMemory => End::NoMemory,
    }
}

impl ExtendedCommands {
    // A byte that is an element by itself, where one begins.
    #[inline(always)]
    fn data_here(&self, byte: u8) -> Option<ExtendedElement>
        ensures { IfSome result (λ unit. ((reading_by self.now).begun ≡ [])
            × IsSpelled extended_rules self.now.place (byte ∷ []) unit
            × (extended_rules.after unit ≡ self.now.place)) }
    {
        match self.phase {
            Phase::Begin => data_element(self.place, byte),
            _ => None,
        }
    }

    // Takes a byte.
    #[inline(always)]
    fn take_byte<K: Keep<ExtendedElement>>(
        &mut self,
        at: &mut Standing<ExtendedPlace>,
        keep: &mut K,
        byte: u8,
    ) -> End
        requires { IsAt extended_rules (reading_by self.old) at.old }
        ensures { IsRunOfValues (intake extended_rules K.keeper)
            (with_keep (reading_by self.old) keep.old) (byte ∷ [])
            (with_keep (reading_by self.new) keep.new) at.new result }
    {
        match self.push(byte) {
            Push::More => {
                at.is_inside = true;
                End::More
            }
            Push::Unit(element) => {
                let place = Self::after(&element);
                *at = Standing {
                    place,
                    is_inside: false,
                };
                self.restart(place);
                hand_over(keep, element)
            }
            Push::Bad(reason) => End::Bad(reason),
        }
    }

    // Whether the profile's machine may read on: only elements of the profile begin with the bytes so far and these
    // values, at a place of the profile.
    #[inline(always)]
    fn is_of_profile(&self, values: &[u8]) -> bool
        requires { 0 < length values.now }
        ensures { result ≡ true → GoesInside self.now values.now }
    {
        match self.place {
            ExtendedPlace::InProfile(_) => match self.phase {
                Phase::Begin => begins_profile(values),
                Phase::Inside => true,
                Phase::Escaped
                | Phase::InQuery(_)
                | Phase::Rolls
                | Phase::RollsBy(_)
                | Phase::RollsFrom(..) => false,
            },
            ExtendedPlace::ErrorText | ExtendedPlace::Asked(_) => false,
        }
    }

    // The profile's machine takes values up to one with which an element is whole.
    #[inline(always)]
    fn run_inside<K: Keep<ExtendedElement>>(
        &mut self,
        at: &mut Standing<ExtendedPlace>,
        keep: &mut K,
        values: &[u8],
    ) -> Run
        // Values that go on inside, from where the reading stands.
        requires some { 0 < length values.now }
        requires at { IsAt extended_rules (reading_by self.old) at.old }
        requires inside { GoesInside self.old values.now }
        // How many are used, and the run that they make.
        ensures some { 0 < result.used }
        ensures used { result.used ≤ length values.now }
        ensures run { IsRunOfValues (intake extended_rules K.keeper)
            (with_keep (reading_by self.old) keep.old) (take result.used values.now)
            (with_keep (reading_by self.new) keep.new) at.new result.end }
    {
        let mut standing = Standing {
            place: place_inside(self.place),
            is_inside: at.is_inside,
        };
        let mut slot: Option<Element> = None;
        let Run { used, end } = self.inner.run(&mut standing, values, &mut slot);
        let place = ExtendedPlace::InProfile(standing.place);
        let is_inside = standing.is_inside;
        match slot {
            Some(element) => {
                self.place = place;
                self.phase = Phase::Begin;
                *at = Standing { place, is_inside };
                let end = hand_over(keep, ExtendedElement::Profile(element));
                Run { used, end }
            }
            None => match end {
                End::More => {
                    self.place = place;
                    self.phase = Phase::Inside;
                    *at = Standing { place, is_inside };
                    Run { used, end }
                }
                _ => {
                    self.phase = Phase::Begin;
                    self.inner.restart(place_inside(self.place));
                    Run { used, end }
                }
            },
        }
    }

    // Takes values, at least one: up to one with which an element of the profile is whole, else the first.
    #[inline(always)]
    fn take_some<K: Keep<ExtendedElement>>(
        &mut self,
        at: &mut Standing<ExtendedPlace>,
        keep: &mut K,
        values: &[u8],
    ) -> Run
        // Values, from where the reading stands.
        requires some { 0 < length values.now }
        requires at { IsAt extended_rules (reading_by self.old) at.old }
        // How many are used, and the run that they make.
        ensures some { 0 < result.used }
        ensures used { result.used ≤ length values.now }
        ensures run { IsRunOfValues (intake extended_rules K.keeper)
            (with_keep (reading_by self.old) keep.old) (take result.used values.now)
            (with_keep (reading_by self.new) keep.new) at.new result.end }
    {
        if self.is_of_profile(values) {
            return self.run_inside(at, keep, values);
        }
        let end = self.take_byte(at, keep, values[0]);
        Run { used: 1, end }
    }

    // Takes values, at least one. Most bytes of a long body are data, so that is looked at first.
    #[inline(always)]
    pub(super) fn take<K: Keep<ExtendedElement>>(
        &mut self,
        at: &mut Standing<ExtendedPlace>,
        keep: &mut K,
        values: &[u8],
    ) -> Run
        requires some { 0 < length values.now }
        requires at { IsAt extended_rules (reading_by self.old) at.old }
        ensures some { 0 < result.used }
        ensures used { result.used ≤ length values.now }
        ensures run { IsRunOfValues (intake extended_rules K.keeper)
            (with_keep (reading_by self.old) keep.old) (take result.used values.now)
            (with_keep (reading_by self.new) keep.new) at.new result.end }
    {
        if let Some(element) = self.data_here(values[0]) {
            let end = hand_over(keep, element);
            return Run { used: 1, end };
        }
        self.take_some(at, keep, values)
    }
}
