//! The fields of cells that are told in screen order: each field is looked at once.
ghost use Rattle.std.specs.Prelude.{◌≡◌, ◌≤◌, length, MatchOption};
ghost use Rattle.ws_screen.specs.ScreenParts.{AreApart};
ghost use Rattle.ws_c.specs.Calls.{index_from};
ghost use Rattle.ws_c.specs.Cells.{AreInOrder, EndsBehind, IsPast, IsPassed};

use crate::NO_FIELD;
use ws_screen::Field;

/// The fields that end behind a place, and the index of the first of them.
pub(crate) fn fields_behind(fields: &[Field], place: u16) -> (u16, &[Field])
    requires apart { AreApart 0 fields.now }
    requires few { length fields.now ≤ 256 }
    ensures past { IsPast fields.now place result.0 result.1.now }
    ensures behind { EndsBehind place result.1.now }
{
    let mut index = 0;
    let mut ahead = fields;
    while let Some(behind) = passed(ahead, place) {
        index += 1;
        ahead = behind;
    }
    (index, ahead)
}

/// The fields behind the first one, where that one ends at the place or before it.
pub(crate) fn passed(fields: &[Field], place: u16) -> Option<&[Field]>
    requires { AreInOrder fields.now }
    ensures { MatchOption result (EndsBehind place fields.now)
        (λ behind. IsPassed place fields.now behind.now) }
{
    match fields {
        [field, behind @ ..] if field.start.place() as u32 + field.length as u32 <= place as u32 =>
            { Some(behind) }
        _ => None,
    }
}

/// The index of the field that holds a cell, of fields that end behind it, the first of which has an index.
pub(crate) fn index_at(index: u16, ahead: &[Field], place: u16) -> u16
    requires in_order { AreInOrder ahead.now }
    requires behind { EndsBehind place ahead.now }
    ensures { result ≡ index_from index ahead.now place }
{
    match ahead {
        [field, ..] if field.start.place() <= place => index,
        _ => NO_FIELD,
    }
}
