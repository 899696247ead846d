//! The words of a line that presses keys by the screen.
ghost use Rattle.std.specs.Prelude.{◌≡◌, IfOk, IfErr, MatchOption, ℕ, List as Seq};
ghost use Rattle.ws_script.specs.lines.ConnectLines as Spec;
ghost use Rattle.ws_printing.specs.script.KeyWords.{AreKeysOf};
ghost use Rattle.ws_printing.specs.script.ScriptFaults.{IsLineFault};
ghost use Rattle.ws_script.specs.declared.lines.script_stroke.FieldFilling.{FieldFilling as AFilling};
ghost use Rattle.ws_text.specs.Words.{IsCell, IsSmall};

use crate::lines::script_stroke::FieldFilling;
use std::alloc::Global;
use ws_code::{Address, List};
use ws_printing::{NamedKey, ScriptFault, split_word, typed_keys};
use ws_screen::MAX_FIELDS;
use ws_text::read_number;

/// The cell of a row from 1 to 24 and a column from 1 to 80, with a blank between them, each in 1 to 9 decimal digits.
/// `None` of other words.
pub fn read_cell(words: &str) -> Option<Address>
    ensures { MatchOption result ((cell : ℕ) → Spec.IsCellText words.now cell → ⊥)
        (Spec.IsCellText words.now) }
{
    let (row, column) = split_word(words)?;
    read_place(row, column)
}

/// The same of the row and the column.
pub fn read_place(row: &str, column: &str) -> Option<Address>
    ensures { MatchOption result ((cell : ℕ) → IsCell row.now column.now cell → ⊥)
        (IsCell row.now column.now) }
{
    let at_row = read_small(row)?;
    let at_column = read_small(column)?;
    Address::new(at_row, at_column)
}

/// The byte that a word writes as a number from 0 to 255, in 1 to 9 decimal digits. `None` of another word.
pub fn read_small(word: &str) -> Option<u8>
    ensures { MatchOption result ((n : ℕ) → IsSmall word.now n → ⊥) (IsSmall word.now) }
{
    match read_number(word) {
        Some(number) if number < 256 => Some(number as u8),
        _ => None,
    }
}

/// The number of a field, and the keys of the text after it.
///
/// # Errors
///
/// `Line(1)` where the words don't begin with a number from 1 to 256, in 1 to 9 decimal digits, and a blank. `Memory`
/// where they do, and a growth was refused.
pub fn read_filling<Q: NamedKey>(alloc: Global, words: &str) -> Result<FieldFilling<Q>, ScriptFault>
    ensures filling { IfOk result (Spec.IsFilling Q.words words.now) }
    ensures fault { IfErr result (IsLineFault (Spec.IsFilling Q.words words.now)
        ((filling : AFilling Q) × Spec.IsFilling Q.words words.now filling)) }
{
    let Some((word, text)) = split_word(words) else {
        return Err(ScriptFault::Line(1));
    };
    let Some(number) = read_field_number(word) else {
        return Err(ScriptFault::Line(1));
    };
    let keys = read_keys(alloc, text, false)?;
    Ok(FieldFilling { number, keys })
}

/// A key for each character of a text. Any text has them.
///
/// # Errors
///
/// `Memory` where a growth was refused.
pub fn read_keys<Q: NamedKey>(
    alloc: Global,
    text: &str,
    inserts: bool,
) -> Result<List<Q>, ScriptFault>
    ensures keys { IfOk result (AreKeysOf Q.words inserts text.now) }
    ensures fault { IfErr result (λ fault. (fault ≡ ScriptFault.Memory)
        × (keys : Seq Q) × AreKeysOf Q.words inserts text.now keys) }
{
    typed_keys(alloc, text, inserts)
}

// The number of a field that a screen may have.
fn read_field_number(word: &str) -> Option<u16>
    ensures { MatchOption result ((n : ℕ) → Spec.IsFieldNumber word.now n → ⊥)
        (Spec.IsFieldNumber word.now) }
{
    match read_number(word) {
        Some(number) if number >= 1 && number <= MAX_FIELDS as u32 => Some(number as u16),
        _ => None,
    }
}
