//! Keys that change a display, whatever keys they are.
ghost use Rattle.std.specs.Prelude.{◌≡◌, ◌∷◌, true, false, Some, None, is_some, Err, OnErr, OnOk};
ghost use Rattle.ws_screen.specs.Events.{keyed};
ghost use Rattle.ws_keys.specs.Keys.{Does};
ghost use Rattle.ws_extended.specs.ExtendedStates.{ExtendedState};
ghost use Rattle.ws_extended.specs.ExtendedViews.{Shows};

use super::ExtendedScreen;
use ws_keys::{Answer, KeyRefusal, ScreenKey};

impl ExtendedScreen {
    /// Presses a key that changes the screen, whatever key it is. Only the screen changes.
    ///
    /// # Errors
    ///
    /// `Locked` where an error stands (SC30-3533, operator errors), whether or not the keyboard is locked; elsewhere
    /// those of the key. Nothing is changed then.
    pub fn press_on<K: ScreenKey>(&mut self, key: &K) -> Result<Option<Answer>, KeyRefusal>
        // What it comes to where an error stands, and elsewhere.
        ensures held { is_some self.old.kept ≡ true → result ≡ Err KeyRefusal.Locked }
        ensures pressed { is_some self.old.kept ≡ false
            → Does (K.refusals key.now self.old.screen)
            (Some (K.edit key.now self.old.screen)) None self.old.screen self.new.screen result }
        // The screen alone changes, and nothing where it is refused.
        ensures screen { self.new ≡ record self.old { screen = self.new.screen } }
        ensures unchanged { OnErr result (self.new ≡ self.old) }
        ensures events { OnOk result ((state : ExtendedState) → Shows state self.old
            → Shows (record state
            { history = keyed (K.edit key.now self.old.screen) ∷ state.history }) self.new) }
    {
        if self.kept.is_some() {
            return Err(KeyRefusal::Locked);
        }
        key.press_on(&mut self.screen)
    }
}
