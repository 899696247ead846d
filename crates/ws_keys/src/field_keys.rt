//! Keys that change the open field and enter no character.
ghost use Rattle.std.specs.Prelude.{◌≡◌, ◌≤◌, ◌+◌, ◌-◌, ◌∷◌, [], Some, false, MatchResult};
ghost use Rattle.ws_screen.specs.Keyed.{after_edit, field_edit, cells_of, open_field};
ghost use Rattle.ws_keys.specs.Changes.{after_change, AsksChange};
ghost use Rattle.ws_keys.specs.Keys as Spec;
ghost use Rattle.ws_keys.specs.declared.key.Key.TheVariants as Pressing;

use crate::answer::Answer;
use crate::edit::{Change, FieldEdit, is_signed};
use crate::key::KeyRefusal;
use crate::movement::next_field;
use ws_code::{Address, CELLS};
use ws_screen::{Field, Screen};

/// The open field, at an unlocked keyboard (SC30-3533, operator errors).
///
/// # Errors
///
/// `Locked` where the keyboard is locked, else `Protected` where the cursor is in no field that keys enter.
pub fn entered_field(screen: &Screen) -> Result<Field, KeyRefusal>
    ensures { MatchResult result
        (λ field. (screen.now.locked ≡ false) × (open_field screen.now ≡ Some field)
        × (1 ≤ field.length) × (field.start + field.length ≤ CELLS))
        (λ why. Spec.first_refusal
        (Spec.locked_refusal screen.now ∷ Spec.protected_refusal screen.now ∷ []) ≡ Some why) }
{
    if screen.locked() {
        return Err(KeyRefusal::Locked);
    }
    match screen.open_field() {
        Some(field) => Ok(field),
        None => Err(KeyRefusal::Protected),
    }
}

/// Changes the open field's cells at the cursor, turns its MDT on, and moves the cursor.
pub fn change_field(screen: &mut Screen, field: &Field, change: Change, to: Address)
    requires open_ { open_field screen.old ≡ Some field.now }
    requires asked { AsksChange change field.now.format
        (screen.old.cursor - field.now.start) field.now.length }
    ensures { screen.new ≡ after_edit (field_edit field.now
        (after_change change field.now.format (cells_of screen.old field.now)
        (screen.old.cursor - field.now.start)) to)
        screen.old }
{
    let edit = FieldEdit {
        change,
        format: field.format,
        at: screen.cursor().place() - field.start.place(),
    };
    screen.edit_field(field, &edit, to);
}

/// Presses Delete (SC30-3533, keyboard functions): the cells after the cursor move left by one.
///
/// # Errors
///
/// Those of `entered_field`; the screen then stays.
pub(crate) fn delete(screen: &mut Screen) -> Result<Option<Answer>, KeyRefusal>
    ensures { Spec.IsPressed Pressing.Delete screen.old screen.new result }
{
    let field = entered_field(screen)?;
    let to = screen.cursor();
    change_field(screen, &field, Change::Delete, to);
    Ok(None)
}

/// Presses Field Exit (SC30-3533, keyboard functions): the cells from the cursor on are dropped, those before it
/// adjusted, and the cursor goes to the next field.
///
/// # Errors
///
/// Those of `entered_field`; the screen then stays.
pub(crate) fn exit_field(screen: &mut Screen) -> Result<Option<Answer>, KeyRefusal>
    ensures { Spec.IsPressed Pressing.FieldExit screen.old screen.new result }
{
    let field = entered_field(screen)?;
    let to = next_field(screen);
    change_field(screen, &field, Change::Exit, to);
    Ok(None)
}

/// Presses Field Minus (SC30-3533, keyboard functions): a Field Exit with a minus as the sign.
///
/// # Errors
///
/// Those of `entered_field`, and `WrongCharacter` in a field that isn't signed numeric; the screen then stays.
pub(crate) fn exit_with_minus(screen: &mut Screen) -> Result<Option<Answer>, KeyRefusal>
    ensures { Spec.IsPressed Pressing.FieldMinus screen.old screen.new result }
{
    let field = entered_field(screen)?;
    if !is_signed(field.format) {
        return Err(KeyRefusal::WrongCharacter);
    }
    let to = next_field(screen);
    change_field(screen, &field, Change::Minus, to);
    Ok(None)
}

/// Presses Dup (SC30-3533, keyboard functions): the cells from the cursor on become 1C, and the cursor goes to the
/// next field.
///
/// # Errors
///
/// Those of `entered_field`, and `DupNotAllowed` where the format word doesn't allow it; the screen then stays.
pub(crate) fn dup(screen: &mut Screen) -> Result<Option<Answer>, KeyRefusal>
    ensures { Spec.IsPressed Pressing.Dup screen.old screen.new result }
{
    let field = entered_field(screen)?;
    if !field.format.dup() {
        return Err(KeyRefusal::DupNotAllowed);
    }
    let to = next_field(screen);
    change_field(screen, &field, Change::Dup, to);
    Ok(None)
}

/// Presses Erase Input (SC30-3533, keyboard functions): all fields that keys enter become 00, with their MDTs off, and
/// the cursor goes home.
///
/// # Errors
///
/// `Locked` where the keyboard is locked; the screen then stays.
pub(crate) fn erase_input(screen: &mut Screen) -> Result<Option<Answer>, KeyRefusal>
    ensures { Spec.IsPressed Pressing.EraseInput screen.old screen.new result }
{
    if screen.locked() {
        return Err(KeyRefusal::Locked);
    }
    screen.erase_input();
    Ok(None)
}
