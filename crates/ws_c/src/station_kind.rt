//! The kinds of stations: each takes keys of the profile.
ghost use Rattle.std.specs.Prelude.{◌≡◌, Option, Result};
ghost use Rattle.ws_keys.specs.declared.key.Key.{Key as AKey};
ghost use Rattle.ws_keys.specs.declared.answer.Answer.{Answer as AnAnswer};
ghost use Rattle.ws_screen.specs.ScreenParts.{ScreenParts};
ghost use Rattle.ws_end.specs.declared.station.key_fault.KeyFault.{KeyFault as AKeyFault};
ghost use Rattle.ws_end.specs.station.Displays.{on_display as on};
ghost use Rattle.ws_extended_station.specs.declared.extended_key.ExtendedKey.{ExtendedKey as AnyKey};
ghost use Rattle.ws_c.specs.LiveStations.{is_live_keyed};
ghost use Rattle.ws_c.specs.Strokes.{keyed_among};

use crate::LiveStation;
use crate::live_keys::press_alone;
use ws_extended_station::{ExtendedDisplay, ExtendedKey};
use ws_keys::{Answer, Key};
use ws_screen::Screen;
use ws_session::{KeyFault, ProfileDisplay, StationDisplay, StationOn};

/// A station of any kind, at which keys of the profile are pressed.
pub(crate) trait PressesKeys: Drop {
    // What a key does at it.
    ghost presses: { Self → Self → AKey → Result (Option AnAnswer) AKeyFault → Type 0 };

    // Its screen.
    ghost shown: { Self → ScreenParts };

    /// Presses a key, and gives what it sends.
    fn press_key(&mut self, key: Key) -> Result<Option<Answer>, KeyFault>
        ensures { presses self.old self.new key result };

    /// The screen.
    fn seen(&self) -> &Screen
        ensures { result.now ≡ shown self.now };
}

impl<D: TakesKeys> PressesKeys for StationOn<D> {
    ghost presses = { keyed_among (on D.Commands.rules D.does) D.among };

    ghost shown = { λ station. D.does.shown station.reacts.screen };

    fn press_key(&mut self, key: Key) -> Result<Option<Answer>, KeyFault> {
        self.key(D::key_of(key))
    }

    fn seen(&self) -> &Screen {
        self.screen()
    }
}

impl PressesKeys for LiveStation {
    ghost presses = { is_live_keyed };

    ghost shown = { λ station. station.station.reacts.screen.display.display.screen };

    fn press_key(&mut self, key: Key) -> Result<Option<Answer>, KeyFault> {
        press_alone(self, key)
    }

    fn seen(&self) -> &Screen {
        self.screen()
    }
}

/// The display of a station that takes keys of the profile.
pub(crate) trait TakesKeys: StationDisplay {
    // One of them as a key of its own.
    ghost among: { AKey → Self.Key };

    /// One of them as a key of its own.
    fn key_of(key: Key) -> Self::Key
        ensures { result ≡ among key };
}

impl TakesKeys for ProfileDisplay {
    ghost among = { λ key. key };

    fn key_of(key: Key) -> Key {
        key
    }
}

impl TakesKeys for ExtendedDisplay {
    ghost among = { AnyKey.Profile };

    fn key_of(key: Key) -> ExtendedKey {
        ExtendedKey::Profile(key)
    }
}
