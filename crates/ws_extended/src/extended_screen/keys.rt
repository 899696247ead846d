//! What keys and opcodes do to a display.
ghost use Rattle.std.specs.Prelude.{◌≡◌, ◌++◌, ◌∷◌, ◌&&◌, true, false, None, is_some, Err, OnErr, OnOk};
ghost use Rattle.ws_screen.specs.Events.{cancelled, lit};
ghost use Rattle.ws_keys.specs.Keys.{IsPressed, edit_of, events_by};
ghost use Rattle.ws_extended.specs.ExtendedStates.{ExtendedState};
ghost use Rattle.ws_extended.specs.ExtendedViews.{Shows};
ghost use Rattle.ws_extended.specs.ExtendedKeys.{waits_for_reset};

use super::ExtendedScreen;
use ws_keys::{Answer, Key, KeyRefusal, press};

// Whether a key waits for Reset, where an error stands.
fn waits_for_reset(key: &Key) -> bool
    ensures { result ≡ waits_for_reset key.now }
{
    !matches!(key, Key::Attention | Key::SystemRequest)
}

impl ExtendedScreen {
    /// Presses a key, as `ws_keys::press` does. Only the screen changes.
    ///
    /// # Errors
    ///
    /// Where an error stands, every key but Attention and System Request is refused as `Locked` (SC30-3533, operator
    /// errors), whether or not the keyboard is locked; elsewhere those of `ws_keys::press`. Nothing is changed then.
    pub fn press(&mut self, key: Key) -> Result<Option<Answer>, KeyRefusal>
        // What a key comes to where an error stands that it waits for, and elsewhere.
        ensures held { (is_some self.old.kept && waits_for_reset key) ≡ true
            → result ≡ Err KeyRefusal.Locked }
        ensures pressed { (is_some self.old.kept && waits_for_reset key) ≡ false
            → IsPressed key self.old.screen self.new.screen result }
        // The screen alone changes, and nothing where it is refused.
        ensures screen { self.new ≡ record self.old { screen = self.new.screen } }
        ensures unchanged { OnErr result (self.new ≡ self.old) }
        ensures events { OnOk result ((state : ExtendedState) → Shows state self.old
            → Shows (record state
            { history = events_by (edit_of self.old.screen key) ++ state.history }) self.new) }
    {
        if self.kept.is_some() && waits_for_reset(&key) {
            return Err(KeyRefusal::Locked);
        }
        press(&mut self.screen, key)
    }

    /// Turns the message light on or off, as the opcodes for it do at the end of their record (RFC 1205, section 4).
    pub fn set_message(&mut self, on: bool)
        ensures lit { (state : ExtendedState) → Shows state self.old
            → Shows (record state { history = lit on ∷ state.history }) self.new }
        ensures exact { self.new
            ≡ record self.old { screen = record self.old.screen { message = on } } }
    {
        self.screen.set_message(on);
    }

    /// Forgets the pending read and locks the keyboard, as the opcode Cancel Invite does at the end of its record (RFC
    /// 1205, section 4). An error stands as before.
    pub fn cancel_read(&mut self)
        ensures cancelled { (state : ExtendedState) → Shows state self.old
            → Shows (record state { history = cancelled ∷ state.history }) self.new }
        ensures exact { self.new ≡ record self.old
            { screen = record self.old.screen { pending = None; locked = true } } }
    {
        self.screen.cancel_read();
    }
}
