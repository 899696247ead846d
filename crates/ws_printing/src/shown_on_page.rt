//! What the cells of a display show on a code page.
ghost use Rattle.std.specs.Prelude.{◌≡◌, ◌≤◌, ◌+◌, ◌-◌, ◌*◌, length};
ghost use Rattle.ws_code.specs.declared.address.TheConstants.{COLUMNS as ALL_COLUMNS};
ghost use Rattle.ws_screen.specs.Lines.{attribute_at};
ghost use Rattle.ws_printing.specs.ShownOnPage as Spec;

use ws_code::{Address, CELLS, COLUMNS, CodePage, Country, ROWS};
use ws_screen::{Attribute, Screen, Shown};

/// Page 037, which the profile is printed on.
pub fn page_037() -> CodePage
    ensures { result ≡ Spec.page_037 }
{
    CodePage {
        country: Country::UnitedStates,
        has_euro: false,
    }
}

/// On page 037 each cell shows what the screen says that it shows (`Screen::row`).
#[tactic(auto, using(crate::proofs::PageChars::shows_as_screen))]
pub fn page_037_shows_as_screen()
    ensures { Spec.ShowsAsScreen }
{}

/// What cells from one on show on a page, each looked at once.
pub fn show_cells_on(page: CodePage, screen: &Screen, first: Address, shown: &mut [Shown])
    requires within { first + length shown.old ≤ CELLS }
    ensures { shown.new
        ≡ Spec.cells_on_page page screen.now.cells first (length shown.old) }
{
    screen.known();
    let start = screen.attribute_at(first);
    show_on(page, screen.cells(), first.place() as usize, start, shown);
}

/// What the 80 cells of a row from 1 to 24 show on a page.
#[tactic(auto, unfolding(crate::specs::ShownOnPage::row_on_page))]
pub fn row_on(page: CodePage, screen: &Screen, row: u8) -> [Shown; COLUMNS as usize]
    requires low { 1 ≤ row }
    requires high { row ≤ ROWS }
    ensures { result ≡ Spec.row_on_page page screen.now.cells row }
{
    let mut shown = [Shown::default(); COLUMNS as usize];
    show_cells_on(page, screen, first_of(row), &mut shown);
    shown
}

// The first cell of a row.
fn first_of(row: u8) -> Address
    requires low { 1 ≤ row }
    requires high { row ≤ ROWS }
    ensures { result ≡ (row - 1) * ALL_COLUMNS }
{
    match Address::at((u16::from(row) - 1) * u16::from(COLUMNS)) {
        Some(first) => first,
        None => Address::default(),
    }
}

// Over slices, so that the check doesn't unfold the eighty cells of a row.
// What cells from one on show on a page, where this attribute is in force at the first.
fn show_on(page: CodePage, cells: &[u8], first: usize, start: Attribute, shown: &mut [Shown])
    requires within { first + length shown.old ≤ length cells.now }
    requires begun { start ≡ attribute_at cells.now first }
    ensures { shown.new ≡ Spec.cells_on_page page cells.now first (length shown.old) }
{
    let mut attribute = start;
    for (index, cell) in shown.iter_mut().enumerate() {
        let byte = cells[first + index];
        let (here, behind) = attribute.show(byte);
        *cell = on_page(page, byte, here);
        attribute = behind;
    }
}

// What a byte shows on a page that shows so on 037.
fn on_page(page: CodePage, byte: u8, shown: Shown) -> Shown
    ensures { result ≡ Spec.on_page page byte shown }
{
    if shown.attribute.is_hidden() {
        return shown;
    }
    match page.to_char(byte) {
        Some(character) => Shown { character, ..shown },
        None => shown,
    }
}
