//! What cells show on a code page.
ghost use Rattle.std.specs.Prelude.{◌≡◌, ◌≤◌, ◌<◌, ◌⊎◌, ◌+◌, length, map};
ghost use Rattle.std.specs.List.{range_with_len};
ghost use Rattle.std.specs.Str.{encode_utf8_all};
ghost use Rattle.ws_extended.specs.ErrorLine.{IsRow};
ghost use Rattle.ws_screen.specs.Lines.{attribute_at};
ghost use Rattle.ws_c.specs.Pages.{cell_on, char_at, char_seen, row_chars_on};

use crate::CellTold;
use crate::station_cells::address;
use arrayvec::ArrayString;
use ws_code::{COLUMNS, CodePage};
use ws_screen::{Attribute, Screen, Shown};

/// The character of a page that a byte shows, by what it shows on page 037.
pub(crate) fn seen(page: CodePage, shown: &Shown, byte: u8) -> char
    ensures value { result ≡ char_seen page shown.now byte }
    ensures short { shown.now.character < 256 → (result < 256) ⊎ (result ≡ 0x20AC) }
{
    if shown.attribute.is_hidden() {
        return shown.character;
    }
    match page.to_char(byte) {
        Some(own) => own,
        None => shown.character,
    }
}

// What a cell shows on a page. An attribute that ends in the bits 111 hides it.
fn seen_in(page: CodePage, cell: &CellTold) -> u32
    ensures { result ≡ (cell_on page cell.now).character }
{
    if cell.attribute % 8 == 7 {
        return cell.character;
    }
    match page.to_char(cell.byte) {
        Some(own) => own as u32,
        None => cell.character,
    }
}

// What is told of a cell on a page.
fn cell_seen(page: CodePage, cell: CellTold) -> CellTold
    ensures { result ≡ cell_on page cell }
{
    CellTold {
        character: seen_in(page, &cell),
        field: cell.field,
        byte: cell.byte,
        attribute: cell.attribute,
    }
}

/// Tells what cells show on a page, in place of what they show on 037.
pub(crate) fn to_page(page: CodePage, cells: &mut [CellTold])
    ensures { cells.new ≡ map (cell_on page) cells.old }
{
    for cell in cells.iter_mut() {
        *cell = cell_seen(page, *cell);
    }
}

// The count isn't a constant, so that the check doesn't unfold the eighty cells of a row.
// The characters of at most 80 cells from one on, where this attribute is in force there.
fn text_on(
    page: CodePage,
    cells: &[u8],
    first: usize,
    count: usize,
    start: Attribute,
) -> ArrayString<240>
    requires within { first + count ≤ length cells.now }
    requires short { count ≤ 80 }
    requires begun { start ≡ attribute_at cells.now first }
    ensures { result.bytes
        ≡ encode_utf8_all (map (char_at page cells.now) (range_with_len first count)) }
{
    let mut text = ArrayString::new();
    let mut attribute = start;
    for column in 0..count {
        let byte = cells[first + column];
        let (shown, next) = attribute.show(byte);
        text.push(seen(page, &shown, byte));
        attribute = next;
    }
    text
}

/// The 80 characters of a row from 1 to 24 on a page.
pub(crate) fn row_on(page: CodePage, screen: &Screen, row: u8) -> ArrayString<240>
    requires { IsRow row }
    ensures { result.bytes ≡ encode_utf8_all (row_chars_on page screen.now.cells row) }
{
    screen.known();
    let first = (row as usize - 1) * COLUMNS as usize;
    let start = screen.attribute_at(address(first));
    text_on(page, screen.cells(), first, COLUMNS as usize, start)
}
