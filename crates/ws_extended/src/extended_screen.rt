//! A display as live hosts use it.
mod elements;
mod keys;
mod screen_keys;
mod steps;

use crate::error_line::KeptRow;
use std::marker::Model;
use ws_screen::Screen;

/// A display as live hosts use it: a screen, the row of its error line (SC30-3533, Start of Header order), and the row
/// that an error covers, where one stands (Write Error Code command).
///
/// A contract sees it as the record `ExtendedParts`.
#[derive(Drop)]
pub struct ExtendedScreen {
    screen: Screen,
    error_row: u8,
    kept: Option<KeptRow>,
    /// How many bytes the error's text has.
    text: u8,
}

impl Model for ExtendedScreen {
    ghost use Rattle.std.specs.Prelude.{◌≤◌};
    ghost use Rattle.ws_code.specs.declared.address.TheConstants.{COLUMNS};
    ghost use Rattle.ws_extended.specs.ErrorLine.{IsRow};
    ghost use Rattle.ws_extended.specs.ExtendedViews.{ExtendedParts, kept_of};

    ghost Value = { ExtendedParts };

    ghost view = { λ s. record { screen = s.screen; error_row = s.error_row; kept = kept_of s.kept; text = s.text } };

    ghost invariant = { λ s. IsRow s.error_row × (s.text ≤ COLUMNS) };
}
