//! The machine that reads a live host's body element by element.

ghost use Rattle.std.specs.Prelude.{◌≡◌, true};
ghost use Rattle.ws_stream.specs.Elements.{allows_orders};
ghost use Rattle.ws_stream.specs.Taking.{reading_of};
ghost use Rattle.ws_stream.specs.UnfinishedElement.{unfinished_of};
ghost use Rattle.ws_extended.specs.ExtendedElements.{extended_rules};
ghost use Rattle.ws_extended.specs.ExtendedLaws.{extended_nonempty, extended_bytes, extended_prefix_free, extended_begins, extended_can_end};
ghost use Rattle.ws_extended.specs.ExtendedMachine.{element_begun_in, inner_place, fits_phase};

mod phase;
mod rolls;
mod running;
mod steps;

use crate::spell::spell;
use crate::{ExtendedElement, ExtendedPlace};
use arrayvec::ArrayVec;
use phase::Phase;
use steps::place_inside;
use ws_code::{Body, Code, End, Keep, Push, Run, Standing};
use ws_stream::{Commands, Element, Place};

/// Reads a live host's body element by element: what `Commands` reads, and eight commands beside it (SC30-3533,
/// commands: 5250 Query, Save Screen, Restore Screen, Roll, Write Error Code, Read Screen, Read Immediate, Read
/// Modified Immediate Alternate).
///
/// A byte is refused as `Commands` refuses it, and beside that (own choice): in a structured field that isn't the
/// query by `StructuredField`, in a Roll by `Roll`, after Write Error Code and its text where it is an order by
/// `ErrorCode`, and after a command that asks at once, where only others of these may stand, by the reason that
/// `Ask::reason` names.
#[derive(Drop)]
pub struct ExtendedCommands {
    place: ExtendedPlace,
    phase: Phase,
    inner: Commands,
    // It stands where an element of the profile is read, and has the bytes that it is to have.
    ghost beside: { allows_orders (reading_of inner).place ≡ allows_orders (inner_place place) },
    ghost sound: { fits_phase place phase (unfinished_of inner) ≡ true },
}

impl Code for ExtendedCommands {
    type Unit = ExtendedElement;

    type Place = ExtendedPlace;

    ghost rules = { extended_rules };

    ghost place = { λ m. m.place };

    ghost unfinished = { λ m. element_begun_in m.phase (unfinished_of m.inner) };

    ghost nonempty = { extended_nonempty };

    ghost bytes = { extended_bytes };

    ghost prefix_free = { extended_prefix_free };

    ghost begins = { extended_begins };

    fn first() -> ExtendedPlace {
        ExtendedPlace::InProfile(Place::CommandsOnly)
    }

    #[inline(always)]
    fn after(unit: &ExtendedElement) -> ExtendedPlace {
        match unit {
            ExtendedElement::Profile(element) => ExtendedPlace::InProfile(Commands::after(element)),
            ExtendedElement::RestoreScreen | ExtendedElement::Roll(_) => {
                ExtendedPlace::InProfile(Place::CommandsOnly)
            }
            ExtendedElement::Text(_) | ExtendedElement::WriteError => ExtendedPlace::ErrorText,
            ExtendedElement::Asks(ask) => ExtendedPlace::Asked(*ask),
        }
    }

    fn start(at: ExtendedPlace) -> Self {
        ExtendedCommands {
            place: at,
            phase: Phase::Begin,
            inner: Commands::start(place_inside(at)),
        }
    }

    fn restart(&mut self, at: ExtendedPlace) {
        self.inner.restart(place_inside(at));
        self.place = at;
        self.phase = Phase::Begin;
    }

    #[inline(always)]
    fn push(&mut self, byte: u8) -> Push<ExtendedElement> {
        self.step(byte)
    }

    #[inline(always)]
    fn run<K: Keep<ExtendedElement>>(
        &mut self,
        at: &mut Standing<ExtendedPlace>,
        values: &[u8],
        keep: &mut K,
    ) -> Run {
        let mut used = 0;
        while used < values.len() {
            let run = self.take(at, keep, &values[used..]);
            used += run.used;
            match run.end {
                End::More => {}
                end => return Run { used, end },
            }
        }
        Run {
            used,
            end: End::More,
        }
    }

    fn known(unit: &ExtendedElement) {
        match unit {
            ExtendedElement::Profile(element) | ExtendedElement::Text(element) => {
                Commands::known(element);
            }
            ExtendedElement::Roll(roll) => {
                let _read = roll.control();
            }
            ExtendedElement::RestoreScreen
            | ExtendedElement::WriteError
            | ExtendedElement::Asks(_) => {}
        }
    }
}

impl Body for ExtendedCommands {
    ghost can_end = { extended_can_end };

    fn may_follow(place: ExtendedPlace, unit: &ExtendedElement) -> bool {
        match place {
            ExtendedPlace::InProfile(place) => match unit {
                ExtendedElement::Profile(element) => Commands::may_follow(place, element),
                ExtendedElement::Text(_) => false,
                ExtendedElement::RestoreScreen
                | ExtendedElement::Roll(_)
                | ExtendedElement::WriteError
                | ExtendedElement::Asks(_) => true,
            },
            ExtendedPlace::ErrorText => match unit {
                ExtendedElement::Profile(element) => {
                    Commands::may_follow(Place::CommandsOnly, element)
                }
                ExtendedElement::Text(element) => {
                    matches!(element, Element::Ic(_) | Element::Put(_))
                }
                ExtendedElement::RestoreScreen
                | ExtendedElement::Roll(_)
                | ExtendedElement::WriteError
                | ExtendedElement::Asks(_) => true,
            },
            ExtendedPlace::Asked(_) => matches!(unit, ExtendedElement::Asks(_)),
        }
    }

    fn may_end(_place: ExtendedPlace) -> bool {
        true
    }

    fn spell(unit: &ExtendedElement, into: &mut ArrayVec<u8, 32>) {
        spell(unit, into);
    }
}
