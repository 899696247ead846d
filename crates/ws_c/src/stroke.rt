//! Strokes of a keyboard that are several keys.
ghost use Rattle.std.specs.Prelude.{◌≡◌};
ghost use Rattle.ws_c.specs.Strokes.{stroke_key_runs};

use ws_code::Address;
use ws_keys::{KeyRuns, erase_eof_keys, keys_to, new_line_keys};
use ws_screen::Screen;

/// A stroke that is several keys.
#[derive(Clone, Copy)]
pub(crate) enum Stroke {
    /// The cursor goes to a cell.
    MoveTo(Address),
    /// The cursor goes to the first field that keys enter and that begins in a row below.
    NewLine,
    /// The open field becomes empty from the cursor on.
    EraseEof,
}

impl Stroke {
    /// Its keys at a screen.
    pub(crate) fn keys(self, screen: &Screen) -> KeyRuns
        ensures { result.items ≡ stroke_key_runs self screen.now }
    {
        match self {
            Stroke::MoveTo(cell) => keys_to(screen, cell),
            Stroke::NewLine => new_line_keys(screen),
            Stroke::EraseEof => erase_eof_keys(screen),
        }
    }
}
