//! Keys that are pressed by the screen.
ghost use Rattle.std.specs.Prelude.{◌≡◌};
ghost use Rattle.std.specs.Option.{option_map};
ghost use Rattle.std.specs.Result.{result_map_both};
ghost use Rattle.ws_keys.specs.Strokes.{numbered_field};
ghost use Rattle.ws_script.specs.lines.Stroking as Spec;

use ws_code::{Address, List};
use ws_keys::{KeyRuns, erase_eof_keys, field_start_keys, keys_to, new_line_keys};
use ws_screen::Screen;

/// Keys that a line of a script presses by the screen at which it stands. Those of a display have this type.
#[derive(Drop)]
pub enum ScriptStroke<Q> {
    /// The cursor goes to this cell.
    Cursor(Address),
    /// New Line: the cursor goes to the first cell of a field in a row below (SC30-3533, keyboard functions).
    NewLine,
    /// The cells of the field become empty from the cursor on, which stays.
    EraseEof,
    /// A field becomes empty, and keys are pressed from its first cell on.
    Fill(FieldFilling<Q>),
}

/// What a field is filled with.
#[derive(Drop)]
pub struct FieldFilling<Q> {
    /// The number of the field, counted from 1 in the order of their starts.
    pub number: u16,
    /// The keys that are pressed in it.
    pub keys: List<Q>,
}

/// Why a field can't be filled.
#[derive(Clone, Copy, Debug, PartialEq, Eq)]
pub enum FieldFault {
    /// The screen has no field of the number.
    NoSuchField,
    /// The field has fewer cells than the text has characters.
    TooLong,
}

impl<Q> ScriptStroke<Q> {
    /// The keys of the profile with which it begins at a screen.
    ///
    /// # Errors
    ///
    /// `NoSuchField` where the screen has no field of the number, `TooLong` where the field has no cell for each of the
    /// keys that are pressed in it.
    pub fn runs(&self, screen: &Screen) -> Result<KeyRuns, FieldFault>
        ensures { result_map_both (λ r. r.items) (λ why. why) result
            ≡ Spec.stroke_runs screen.now self.now }
    {
        match self {
            ScriptStroke::Cursor(cell) => Ok(keys_to(screen, *cell)),
            ScriptStroke::NewLine => Ok(new_line_keys(screen)),
            ScriptStroke::EraseEof => Ok(erase_eof_keys(screen)),
            ScriptStroke::Fill(filling) => {
                filling_keys(screen, filling.number, filling.keys.as_slice().len())
            }
        }
    }
}

// The keys that empty a field which is to be filled with so many characters.
fn filling_keys(screen: &Screen, number: u16, characters: usize) -> Result<KeyRuns, FieldFault>
    ensures { result_map_both (λ r. r.items) (λ why. why) result
        ≡ Spec.filled_runs screen.now.cursor characters (numbered_field screen.now number) }
{
    let (Some(runs), Some(length)) = (
        field_start_keys(screen, number),
        field_length(screen, number),
    ) else {
        return Err(FieldFault::NoSuchField);
    };
    if usize::from(length) < characters {
        return Err(FieldFault::TooLong);
    }
    Ok(runs)
}

// How many cells the field of a number has.
fn field_length(screen: &Screen, number: u16) -> Option<u16>
    ensures { result ≡ option_map (λ field. field.length) (numbered_field screen.now number) }
{
    if number == 0 {
        return None;
    }
    let fields = screen.fields();
    match fields.as_slice().get(number as usize - 1) {
        Some(field) => Some(field.length),
        None => None,
    }
}
