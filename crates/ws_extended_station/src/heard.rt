//! What is heard in a body besides its effect: alarms, and what is asked.
ghost use Rattle.std.specs.Prelude.{◌≡◌, ◌+◌, ◌++◌, ◌∷◌, [], List, true, false};
ghost use Rattle.ws_end.specs.station.Alarms.{alarm_count};
ghost use Rattle.ws_extended.specs.declared.extended_element.ExtendedElement.{ExtendedElement as AnElement};
ghost use Rattle.ws_extended.specs.declared.extended_element.ExtendedElement.TheVariants.{Profile};
ghost use Rattle.ws_extended_station.specs.CarriedOut.{AsksAndSounds};
ghost use Rattle.ws_extended_station.specs.ExtendedAlarms.{extended_sounds};

use ws_code::Keep;
use ws_extended::{Asked, ExtendedElement};
use ws_stream::Element;

/// What elements bring that were carried out: what they ask, and how many of them sound the alarm.
#[derive(Clone, Copy)]
pub(crate) struct Heard {
    pub(crate) asked: Asked,
    pub(crate) alarms: u64,
}

// The count of alarms behind an element that was carried out.
fn count_alarm(alarms: u64, element: &ExtendedElement) -> u64
    ensures sounds { extended_sounds element.now ≡ true → result ≡ alarm_count (alarms + 1) }
    ensures silent { extended_sounds element.now ≡ false → result ≡ alarms }
{
    match element {
        ExtendedElement::Profile(element) => ws_session::count_alarm(alarms, element),
        ExtendedElement::Text(element) => ws_session::count_alarm(alarms, element),
        ExtendedElement::RestoreScreen
        | ExtendedElement::Roll(_)
        | ExtendedElement::WriteError
        | ExtendedElement::Asks(_) => alarms,
    }
}

impl Heard {
    // Of no element.
    pub(crate) fn new() -> Self
        ensures { AsksAndSounds [] result }
    {
        Heard {
            asked: Asked::new(),
            alarms: 0,
        }
    }

    // Is told of one more of the profile.
    #[inline(always)]
    pub(crate) fn hear_profile(&mut self, element: &Element)
        ensures { (us : List AnElement) → AsksAndSounds us self.old
            → AsksAndSounds (us ++ Profile element.now ∷ []) self.new }
    {
        self.alarms = ws_session::count_alarm(self.alarms, element);
    }

    // Is told of one more.
    pub(crate) fn hear(&mut self, element: ExtendedElement)
        ensures { (us : List AnElement) → AsksAndSounds us self.old
            → AsksAndSounds (us ++ element ∷ []) self.new }
    {
        self.alarms = count_alarm(self.alarms, &element);
        let _goes_on = self.asked.keep(element);
    }
}
