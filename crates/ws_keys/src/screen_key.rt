//! A key that changes a screen, whatever key it is.
ghost use Rattle.std.specs.Prelude.{List, Bool, Some, None};
ghost use Rattle.ws_screen.specs.Events.{Edit};
ghost use Rattle.ws_screen.specs.ScreenParts.{ScreenParts};
ghost use Rattle.ws_keys.specs.Keys.{Does};
ghost use Rattle.ws_keys.specs.declared.key.KeyRefusal.{KeyRefusal as AKeyRefusal};

use crate::{Answer, KeyRefusal};
use ws_screen::Screen;

// So a display carries out keys that it doesn't know.
/// A key that changes a screen and sends nothing.
pub trait ScreenKey {
    // why it is refused at a screen: each test with its refusal, in the order in which they are tried
    ghost refusals: { Self → ScreenParts → List (Bool × AKeyRefusal) };

    // what it sets there
    ghost edit: { Self → ScreenParts → Edit };

    /// Presses it. It answers `None`.
    ///
    /// # Errors
    ///
    /// The first refusal whose test holds; the screen is then as it was.
    fn press_on(&self, screen: &mut Screen) -> Result<Option<Answer>, KeyRefusal>
        ensures { Does (refusals self.now screen.old) (Some (edit self.now screen.old)) None
            screen.old screen.new result };
}
