//! The keys that a format word changes, in place of the profile's.
ghost use Rattle.std.specs.Prelude.{◌≡◌, ◌≤◌, ◌+◌, ◌-◌, ◌<◌, [], ◌∷◌, None, Some, true, false, not, ◌||◌};
ghost use Rattle.ws_screen.specs.Keyed.{cells_of, open_field};
ghost use Rattle.ws_keys.specs.Contents as Contents;
ghost use Rattle.ws_keys.specs.Keys.{Does};
ghost use Rattle.ws_entry.specs.EntryRules as Spec;
ghost use Rattle.ws_entry.specs.declared.entering.Entering.TheVariants as Pressing;

use crate::leaving::{FullExit, FullMinus, NumericExit, is_signed};
use crate::rules::{fills, has_room, numeric_only};
use ws_code::{Address, CELLS};
use ws_keys::{
    Answer, Change, KeyRefusal, ScreenKey, after_character, byte_for, change_field, entered_field,
    next_field,
};
use ws_screen::{Field, Screen};

/// A key that a format word changes (SC30-3533, field format word).
#[derive(Clone, Copy, Debug, PartialEq, Eq)]
pub enum Entering {
    /// A character, after which the cursor stays where it fills a field that a key has to leave.
    Char(char),
    /// The same, once the cells from the cursor on have moved right by one; a blank at the end is room.
    Insert(char),
    /// Field Minus in a numeric only field.
    Minus,
    /// Field Exit in a full field.
    FullExit,
    /// Field Minus in a full field.
    FullMinus,
}

// Where the cursor goes after a character.
fn after_entry(screen: &Screen, field: &Field) -> Address
    requires open_ { open_field screen.now ≡ Some field.now }
    requires some { 1 ≤ field.now.length }
    requires within { field.now.start + field.now.length ≤ CELLS }
    ensures { result ≡ Spec.after_entry screen.now field.now }
{
    if fills(screen, field) {
        screen.cursor()
    } else {
        after_character(screen, field)
    }
}

fn enter_character(screen: &mut Screen, character: char) -> Result<Option<Answer>, KeyRefusal>
    ensures { Does (Spec.entering_refusals (Pressing.Char character) screen.old)
        (Some (Spec.entering_edit (Pressing.Char character) screen.old)) None
        screen.old screen.new result }
{
    let field = entered_field(screen)?;
    let byte = byte_for(screen, &field, character)?;
    let to = after_entry(screen, &field);
    change_field(screen, &field, Change::Put(byte), to);
    Ok(None)
}

fn insert_character(screen: &mut Screen, character: char) -> Result<Option<Answer>, KeyRefusal>
    ensures { Does (Spec.entering_refusals (Pressing.Insert character) screen.old)
        (Some (Spec.entering_edit (Pressing.Insert character) screen.old)) None
        screen.old screen.new result }
{
    let field = entered_field(screen)?;
    let byte = byte_for(screen, &field, character)?;
    if !has_room(screen, &field) {
        return Err(KeyRefusal::NoRoom);
    }
    let to = after_entry(screen, &field);
    change_field(screen, &field, Change::Insert(byte), to);
    Ok(None)
}

// Whether a numeric only field takes a minus at the last of its first cells.
fn takes_minus(screen: &Screen, field: &Field, end: u16) -> bool
    requires within { field.now.start + field.now.length ≤ CELLS }
    requires inside { end ≤ field.now.length }
    ensures { result ≡ Spec.takes_minus field.now (cells_of screen.now field.now) end }
{
    screen.known();
    numeric_only(field.format)
        && (end == 0 || matches!(screen.field_cells(field)[end as usize - 1], 0xf0..=0xf9))
}

fn leave_numeric(screen: &mut Screen) -> Result<Option<Answer>, KeyRefusal>
    ensures { Does (Spec.entering_refusals Pressing.Minus screen.old)
        (Some (Spec.entering_edit Pressing.Minus screen.old)) None screen.old screen.new result }
{
    let field = entered_field(screen)?;
    let at = screen.cursor().place() - field.start.place();
    if !takes_minus(screen, &field, at) {
        return Err(KeyRefusal::WrongCharacter);
    }
    let to = next_field(screen);
    let format = field.format;
    screen.edit_field(&field, &NumericExit { format, at }, to);
    Ok(None)
}

fn leave_full(screen: &mut Screen) -> Result<Option<Answer>, KeyRefusal>
    ensures { Does (Spec.entering_refusals Pressing.FullExit screen.old)
        (Some (Spec.entering_edit Pressing.FullExit screen.old)) None
        screen.old screen.new result }
{
    let field = entered_field(screen)?;
    let to = next_field(screen);
    let format = field.format;
    screen.edit_field(&field, &FullExit { format }, to);
    Ok(None)
}

// Whether a full field takes a minus: it has a sign cell, or is numeric only and ends in a digit.
fn takes_sign(screen: &Screen, field: &Field) -> bool
    requires within { field.now.start + field.now.length ≤ CELLS }
    ensures { result ≡ (Contents.is_signed field.now
        || Spec.takes_minus field.now (cells_of screen.now field.now) field.now.length) }
{
    is_signed(field.format) || takes_minus(screen, field, field.length)
}

fn leave_full_with_minus(screen: &mut Screen) -> Result<Option<Answer>, KeyRefusal>
    ensures { Does (Spec.entering_refusals Pressing.FullMinus screen.old)
        (Some (Spec.entering_edit Pressing.FullMinus screen.old)) None
        screen.old screen.new result }
{
    let field = entered_field(screen)?;
    if !takes_sign(screen, &field) {
        return Err(KeyRefusal::WrongCharacter);
    }
    let to = next_field(screen);
    let format = field.format;
    screen.edit_field(&field, &FullMinus { format }, to);
    Ok(None)
}

impl ScreenKey for Entering {
    ghost refusals = { Spec.entering_refusals };

    ghost edit = { Spec.entering_edit };

    fn press_on(&self, screen: &mut Screen) -> Result<Option<Answer>, KeyRefusal> {
        match self {
            Entering::Char(character) => enter_character(screen, *character),
            Entering::Insert(character) => insert_character(screen, *character),
            Entering::Minus => leave_numeric(screen),
            Entering::FullExit => leave_full(screen),
            Entering::FullMinus => leave_full_with_minus(screen),
        }
    }
}
