//! Keys that enter a character.
ghost use Rattle.std.specs.Prelude.{◌≡◌, ◌≤◌, ◌<◌, ◌+◌, ◌&&◌, true, false, ◌==◌, slice_index, Some, MatchResult};
ghost use Rattle.ws_code.specs.DataByte.{is_order};
ghost use Rattle.ws_screen.specs.Keyed.{open_field};
ghost use Rattle.ws_keys.specs.Contents as Contents;
ghost use Rattle.ws_keys.specs.Keys as Spec;
ghost use Rattle.ws_keys.specs.declared.key.Key.TheVariants as Pressing;
ghost use Rattle.ws_keys.specs.declared.key.KeyRefusal.TheVariants as Why;

use crate::answer::Answer;
use crate::edit::{Change, is_signed};
use crate::field_keys::{change_field, entered_field};
use crate::key::KeyRefusal;
use crate::movement::{address_after, next_field};
use ws_code::{Address, CELLS, Shift, ebcdic};
use ws_screen::{Field, Screen};

// Whether a shift lets a character in.
fn allows(shift: Shift, character: char) -> bool
    ensures { result ≡ Spec.allows shift character }
{
    match shift {
        Shift::Alphabetic | Shift::Numeric => true,
        Shift::AlphabeticOnly => {
            matches!(character, 'A'..='Z' | 'a'..='z' | ',' | '.' | '-' | ' ')
        }
        Shift::NumericOnly => matches!(character, '0'..='9' | ',' | '.' | '-' | ' ' | '+'),
        Shift::DigitsOnly | Shift::SignedNumeric => matches!(character, '0'..='9'),
    }
}

// A character as a field takes it.
fn as_entered(field: &Field, character: char) -> char
    ensures { result ≡ Spec.as_entered field.now character }
{
    if field.format.monocase() {
        character.to_ascii_uppercase()
    } else {
        character
    }
}

// A field's last cell.
fn last_cell(field: &Field) -> u16
    requires some { 1 ≤ field.now.length }
    requires within { field.now.start + field.now.length ≤ CELLS }
    ensures { result ≡ Spec.last_cell field.now }
{
    field.start.place() + field.length - 1
}

// Whether the cursor stands in the sign cell of a signed numeric field.
fn at_sign(screen: &Screen, field: &Field) -> bool
    requires some { 1 ≤ field.now.length }
    requires within { field.now.start + field.now.length ≤ CELLS }
    ensures { result
        ≡ (Contents.is_signed field.now && (screen.now.cursor == Spec.last_cell field.now)) }
{
    is_signed(field.format) && screen.cursor().place() == last_cell(field)
}

/// The byte of a character that the open field takes at the cursor.
///
/// # Errors
///
/// `WrongCharacter` where it has no byte in code page 037, the field's shift forbids it, or a sign stands there.
pub fn byte_for(screen: &Screen, field: &Field, character: char) -> Result<u8, KeyRefusal>
    requires some { 1 ≤ field.now.length }
    requires within { field.now.start + field.now.length ≤ CELLS }
    ensures { MatchResult result
        (λ byte. (Spec.forbids screen.now character field.now ≡ false)
        × (byte ≡ Spec.byte_entered field.now character) × (is_order byte ≡ false))
        (λ why. (Spec.forbids screen.now character field.now ≡ true) × (why ≡ Why.WrongCharacter)) }
{
    if !allows(field.format.shift(), character) {
        return Err(KeyRefusal::WrongCharacter);
    }
    if at_sign(screen, field) {
        return Err(KeyRefusal::WrongCharacter);
    }
    match ebcdic::from_char(as_entered(field, character)) {
        Some(byte) => Ok(byte),
        None => Err(KeyRefusal::WrongCharacter),
    }
}

/// Where the cursor goes after a character: one cell on, from the field's last cell to the next field.
pub fn after_character(screen: &Screen, field: &Field) -> Address
    requires open_ { open_field screen.now ≡ Some field.now }
    requires some { 1 ≤ field.now.length }
    requires within { field.now.start + field.now.length ≤ CELLS }
    ensures { result ≡ Spec.after_character screen.now field.now }
{
    if screen.cursor().place() == last_cell(field) {
        next_field(screen)
    } else {
        address_after(screen.cursor(), 1)
    }
}

/// Enters a character at the cursor, which goes one cell on, or to the next field (SC30-3533, keyboard functions).
///
/// # Errors
///
/// Those of `entered_field`, and `WrongCharacter` for one that the field doesn't take; the screen then stays.
pub(crate) fn type_character(
    screen: &mut Screen,
    character: char,
) -> Result<Option<Answer>, KeyRefusal>
    ensures { Spec.IsPressed (Pressing.Char character) screen.old screen.new result }
{
    let field = entered_field(screen)?;
    let byte = byte_for(screen, &field, character)?;
    let to = after_character(screen, &field);
    change_field(screen, &field, Change::Put(byte), to);
    Ok(None)
}

/// The last cell that characters are entered in: in a signed numeric field the one before the sign.
pub fn last_entry_cell(field: &Field) -> u16
    requires { field.now.start + field.now.length ≤ CELLS }
    ensures value { result ≡ Spec.last_entry_cell field.now }
    ensures within { 1 ≤ field.now.start + field.now.length → result < CELLS }
{
    let end = field.start.place() + field.length;
    if is_signed(field.format) {
        end.saturating_sub(2)
    } else {
        end.saturating_sub(1)
    }
}

// Whether a byte can be inserted: the last cell that characters are entered in is empty.
fn has_room(screen: &Screen, field: &Field) -> bool
    requires some { 1 ≤ field.now.length }
    requires within { field.now.start + field.now.length ≤ CELLS }
    ensures { result ≡ (slice_index screen.now.cells (Spec.last_entry_cell field.now) == 0) }
{
    let Some(at) = Address::at(last_entry_cell(field)) else {
        unreachable!()
    };
    screen.cell(at) == 0
}

/// Enters a character at the cursor, once the cells from there on have moved right by one (SC30-3533, keyboard
/// functions).
///
/// # Errors
///
/// Those of `type_character`, and `NoRoom` where the last cell that characters are entered in isn't empty; the screen
/// then stays.
pub(crate) fn insert_character(
    screen: &mut Screen,
    character: char,
) -> Result<Option<Answer>, KeyRefusal>
    ensures { Spec.IsPressed (Pressing.Insert character) screen.old screen.new result }
{
    let field = entered_field(screen)?;
    let byte = byte_for(screen, &field, character)?;
    if !has_room(screen, &field) {
        return Err(KeyRefusal::NoRoom);
    }
    let to = after_character(screen, &field);
    change_field(screen, &field, Change::Insert(byte), to);
    Ok(None)
}
