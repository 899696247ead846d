//! Whether a screen shows a text.
ghost use Rattle.std.specs.Prelude.{◌≡◌, ◌≤◌, ◌+◌, ℕ, true, false, length, All, IfSome};
ghost use Rattle.std.specs.List.{Contains};
ghost use Rattle.std.specs.Str.Iter.{HasSubslice};
ghost use Rattle.ws_printing.specs.ShownOnPage.{cells_on_page, row_on_page};
ghost use Rattle.ws_printing.specs.ShownTexts as Spec;

use crate::report_lines::row_bytes;
use crate::shown_on_page::{row_on, show_cells_on};
use arrayvec::{ArrayString, ArrayVec};
use ws_code::{Address, CELLS, COLUMNS, CodePage, ROWS};
use ws_screen::{Screen, Shown};

// Of how many characters of a text the bytes are looked for in a row, before the row's text is made.
const MOST_NEEDED: usize = 8;

// The most bytes of a text of cells: four for each cell of a screen.
const MAX_TEXT: usize = 7680;

/// Whether some row shows the text on a page.
pub fn shows(page: CodePage, screen: &Screen, text: &str) -> bool
    ensures shown { result ≡ true → Spec.ShowsText page screen.now.cells text.now }
    ensures unshown { result ≡ false → Spec.ShowsText page screen.now.cells text.now → ⊥ }
{
    let needed = needed_bytes(page, text);
    for row in 1..=ROWS {
        if row_shows(page, screen, row, text, needed.as_slice()) {
            return true;
        }
    }
    false
}

/// Whether the text begins on a page at a cell, within its row.
pub fn begins_at(page: CodePage, screen: &Screen, cell: Address, text: &str) -> bool
    ensures shown { result ≡ true → Spec.BeginsAt page screen.now.cells cell text.now }
    ensures unshown { result ≡ false → Spec.BeginsAt page screen.now.cells cell text.now → ⊥ }
{
    let columns = u16::from(COLUMNS);
    let behind = columns - cell.place() % columns;
    cells_text(page, screen, cell, behind)
        .as_str()
        .starts_with(text)
}

// What cells show on a page: so many from one on, each looked at once.
fn cells_text(page: CodePage, screen: &Screen, first: Address, count: u16) -> ArrayString<MAX_TEXT>
    requires { first + count ≤ CELLS }
    ensures { result.bytes
        ≡ Spec.text_of_shown (cells_on_page page screen.now.cells first count) }
{
    let mut all = [Shown::default(); CELLS as usize];
    let shown = &mut all[..usize::from(count)];
    show_cells_on(page, screen, first, shown);
    characters(shown)
}

// The text of cells.
fn characters(shown: &[Shown]) -> ArrayString<MAX_TEXT>
    requires { length shown.now ≤ CELLS }
    ensures { result.bytes ≡ Spec.text_of_shown shown.now }
{
    let mut text = ArrayString::new();
    for cell in shown {
        text.push(cell.character);
    }
    text
}

// Whether a row shows the text on a page, of which it needs these bytes. Only a row that has them is made a text.
fn row_shows(page: CodePage, screen: &Screen, row: u8, text: &str, needed: &[u8]) -> bool
    // A row, and what is needed to show the text.
    requires low { 1 ≤ row }
    requires high { row ≤ ROWS }
    requires needed { All (Spec.IsNeededBy page text.now) needed.now }
    // Whether the row shows it.
    ensures shown { result ≡ true
        → HasSubslice (Spec.text_of_shown (row_on_page page screen.now.cells row)) text.now }
    ensures unshown { result ≡ false
        → HasSubslice (Spec.text_of_shown (row_on_page page screen.now.cells row)) text.now → ⊥ }
{
    screen.known();
    if !has_all(row_bytes(screen, row), needed) {
        return false;
    }
    characters(&row_on(page, screen, row))
        .as_str()
        .contains(text)
}

// Whether each of these bytes is among the cells.
fn has_all(cells: &[u8], needed: &[u8]) -> bool
    ensures { result ≡ false
        → (byte : ℕ) × Contains needed.now byte × (Contains cells.now byte → ⊥) }
{
    for byte in needed {
        if !cells.contains(byte) {
            return false;
        }
    }
    true
}

// Bytes without which no row shows the text on a page.
fn needed_bytes(page: CodePage, text: &str) -> ArrayVec<u8, MOST_NEEDED>
    ensures { All (Spec.IsNeededBy page text.now) result.items }
{
    let mut needed = ArrayVec::new();
    for character in text.as_bytes() {
        if needed.is_full() {
            return needed;
        }
        if let Some(byte) = only_byte(page, *character) {
            needed.push(byte);
        }
    }
    needed
}

// The one byte that shows this character of a text on a page, if no other does: blanks, asterisks and full stops stand
// for more.
fn only_byte(page: CodePage, character: u8) -> Option<u8>
    ensures { IfSome result (Spec.IsOnlyFor page character) }
{
    if character > b'.' && character < 0x80 {
        page.from_char(char::from(character))
    } else {
        None
    }
}
