//! How a screen is printed.
ghost use Rattle.std.specs.Prelude.{◌≡◌};
ghost use Rattle.ws_printing.specs.ScreenLines as Spec;

use crate::paint::Paint;
use crate::shown_on_page::page_037;
use ws_code::CodePage;

/// How a screen is printed.
#[derive(Clone, Copy, Debug, PartialEq, Eq)]
pub struct Look {
    /// In what paint its rows are.
    pub paint: Paint,
    /// By which code page its cells are characters.
    pub page: CodePage,
}

impl Look {
    /// In a paint on page 037, as the profile is printed.
    pub fn on_037(paint: Paint) -> Self
        ensures { result ≡ Spec.on_037 paint }
    {
        Look {
            paint,
            page: page_037(),
        }
    }
}
