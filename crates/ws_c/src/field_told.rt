//! A field of a screen, as C sees it.
ghost use Rattle.std.specs.Prelude.{◌≡◌};
ghost use Rattle.ws_c.specs.Calls.{field_told as told_of, no_field};

use ws_screen::Field;

/// A field of a screen.
#[repr(C)]
#[derive(Clone, Copy)]
pub struct FieldTold {
    /// Of its first cell, 1 to 24.
    pub row: u8,
    /// Of its first cell, 1 to 80.
    pub column: u8,
    /// Its number of cells.
    pub length: u16,
    /// Its format word, with its MDT.
    pub format: u16,
}

impl FieldTold {
    /// Nothing of a field.
    pub(crate) fn nothing() -> Self
        ensures { result ≡ no_field }
    {
        FieldTold {
            row: 0,
            column: 0,
            length: 0,
            format: 0,
        }
    }

    /// What is told of a field.
    pub(crate) fn of(field: &Field) -> Self
        ensures { result ≡ told_of field.now }
    {
        FieldTold {
            row: field.start.row(),
            column: field.start.col(),
            length: field.length,
            format: field.format.value(),
        }
    }
}
