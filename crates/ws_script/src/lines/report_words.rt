//! The words of a line that prints what it asks for.
ghost use Rattle.std.specs.Prelude.{◌≡◌, List as Seq, ℕ, IfOk, IfErr, MatchOption};
ghost use Rattle.ws_script.specs.lines.ConnectLines as Spec;
ghost use Rattle.ws_printing.specs.declared.station_report.Span.{Span as ASpan};

use crate::lines::stroke_words::{read_place, read_small};
use std::alloc::Global;
use ws_code::{Address, CELLS, List};
use ws_printing::{ScriptFault, Span, split_word};
use ws_text::read_number;

/// The first cell of the row of this number, from 1 to 24, in 1 to 9 decimal digits. `None` of another word.
pub fn read_row(word: &str) -> Option<Address>
    ensures { MatchOption result ((cell : ℕ) → Spec.IsRowText word.now cell → ⊥)
        (Spec.IsRowText word.now) }
{
    let row = read_small(word)?;
    Address::new(row, 1)
}

/// A cell by its row and column, and how many cells from it on, from 1 to 1,920, with one blank between them and each
/// in 1 to 9 decimal digits. `None` of other words.
pub fn read_span(words: &str) -> Option<Span>
    ensures { MatchOption result ((span : ASpan) → Spec.IsSpanText words.now span → ⊥)
        (Spec.IsSpanText words.now) }
{
    let Some(placed) = read_placed(words) else {
        return None;
    };
    let Some(count) = read_count(placed.1) else {
        return None;
    };
    Some(Span {
        at: placed.0,
        count,
    })
}

// A number of cells.
fn read_count(word: &str) -> Option<u16>
    ensures { MatchOption result ((n : ℕ) → Spec.IsCellCount word.now n → ⊥)
        (Spec.IsCellCount word.now) }
{
    match read_number(word) {
        Some(number) if number >= 1 && number <= u32::from(CELLS) => Some(number as u16),
        _ => None,
    }
}

/// A cell by its row from 1 to 24 and its column from 1 to 80, each in 1 to 9 decimal digits and with one blank after
/// it, and what stands after them. `None` of other words.
pub fn read_placed(words: &str) -> Option<(Address, &str)>
    ensures { MatchOption result ((cell : ℕ) (rest : Seq ℕ) → Spec.IsPlaced words.now cell rest → ⊥)
        (λ placed. Spec.IsPlaced words.now placed.0 placed.1.now) }
{
    let (row, behind) = split_word(words)?;
    let (column, rest) = split_word(behind)?;
    let cell = read_place(row, column)?;
    Some((cell, rest))
}

/// The bytes of a note.
///
/// # Errors
///
/// `Memory` where a growth was refused.
pub fn read_note(alloc: Global, text: &str) -> Result<List<u8>, ScriptFault>
    ensures note { IfOk result (λ note. note ≡ text.now) }
    ensures fault { IfErr result (λ fault. fault ≡ ScriptFault.Memory) }
{
    match Vec::from_slice(alloc, text.as_bytes()) {
        Ok(bytes) => Ok(List::of(bytes)),
        Err(_) => Err(ScriptFault::Memory),
    }
}
