//! Keys that change the screen, whatever keys they are.
ghost use Rattle.std.specs.Prelude.{◌≡◌, OnErr};
ghost use Rattle.ws_extended_station.specs.ExtendedDisplays.{ExtendedEndState, ExtendedGives};
ghost use Rattle.ws_extended_station.specs.ScreenKeys.{IsChanged, changes};

use super::ExtendedDisplay;
use ws_keys::{Answer, KeyRefusal, ScreenKey};

impl ExtendedDisplay {
    /// Presses a key that changes the screen, whatever key it is. It sends nothing.
    ///
    /// # Errors
    ///
    /// `Locked` where an error stands, elsewhere those of the key; the display is then as it was.
    pub fn press_on<K: ScreenKey>(&mut self, key: &K) -> Result<Option<Answer>, KeyRefusal>
        ensures pressed { (state : ExtendedEndState) → ExtendedGives state.happened self.old
            → IsChanged self.old self.new state
            (changes (K.refusals key.now) (K.edit key.now) state) result }
        ensures same { OnErr result (self.new ≡ self.old) }
    {
        self.screen.screen().known();
        self.screen.press_on(key)
    }
}
