//! The cells of a screen of 24 rows by 80 columns, by row and column or by place.
ghost use Rattle.std.specs.Prelude.{◌≡◌, ◌+◌, ◌/◌, ◌%◌, ◌<◌, ◌≤◌, ℕ, SomeIff};
ghost use Rattle.ws_code.specs.Address.{IsRowAndColumn, place_of};

use std::marker::Model;

/// The rows of the screen (SC30-3533, Set Buffer Address order).
pub const ROWS: u8 = 24;

/// The columns of the screen (SC30-3533, Set Buffer Address order).
pub const COLUMNS: u8 = 80;

/// The cells of the screen, row by row.
pub const CELLS: u16 = 1920;

/// A cell of the screen of 24 rows and 80 columns (SC30-3533, Set Buffer Address order).
///
/// A contract sees it as its place: 0 to 1,919, along the rows from the upper left.
#[derive(Clone, Copy, Debug, PartialEq, Eq)]
pub struct Address {
    place: u16,
}

impl Model for Address {
    ghost use Rattle.std.specs.Prelude.{ℕ, ◌<◌};
    ghost use Rattle.ws_code.specs.declared.address.TheConstants.{CELLS};

    ghost Value = { ℕ };

    ghost view = { λ a. a.place };

    ghost invariant = { λ a. a.place < CELLS };

    ghost inverse = { λ p. record { place = p } };
}

impl Address {
    /// The cell in this row and column, both counted from 1; `None` off the screen.
    pub fn new(row: u8, col: u8) -> Option<Self>
        ensures { SomeIff result (IsRowAndColumn row col) (place_of row col) }
    {
        if row >= 1 && row <= ROWS && col >= 1 && col <= COLUMNS {
            Some(Address {
                place: (u16::from(row) - 1) * u16::from(COLUMNS) + u16::from(col) - 1,
            })
        } else {
            None
        }
    }

    /// The cell at this place, counted from 0; `None` off the screen.
    pub fn at(place: u16) -> Option<Self>
        ensures { SomeIff result (place < CELLS) place }
    {
        if place < CELLS {
            Some(Address { place })
        } else {
            None
        }
    }

    /// Its row, 1 to 24.
    pub fn row(self) -> u8
        ensures value { result ≡ self / COLUMNS + 1 }
        ensures low { 1 ≤ result }
        ensures high { result ≤ ROWS }
    {
        (self.place / u16::from(COLUMNS)) as u8 + 1
    }

    /// Its column, 1 to 80.
    pub fn col(self) -> u8
        ensures value { result ≡ self % COLUMNS + 1 }
        ensures low { 1 ≤ result }
        ensures high { result ≤ COLUMNS }
    {
        (self.place % u16::from(COLUMNS)) as u8 + 1
    }

    /// Its place, 0 to 1,919.
    pub fn place(self) -> u16
        ensures value { result ≡ self }
        ensures in_range { result < CELLS }
    {
        self.place
    }
}

impl Default for Address {
    // The first cell.
    fn default() -> Self
        ensures { result ≡ 0 }
    {
        Address { place: 0 }
    }
}
