//! The cells of a station's screen.
ghost use Rattle.std.specs.Prelude.{◌≡◌, ◌≤◌, ◌<◌, ◌+◌, ◌*◌, ◌-◌, ◌++◌, drop, length, map};
ghost use Rattle.std.specs.List.{range_with_len};
ghost use Rattle.ws_code.specs.declared.address.TheConstants.{CELLS as ALL_CELLS};
ghost use Rattle.ws_c.specs.Calls.{HasStatus, status_number};
ghost use Rattle.ws_c.specs.Cells.{AreRowNumbers, cell_told as told_of, cells_in, rows_told};
ghost use Rattle.ws_c.specs.Held.{HoldsNone, OnScreen};
ghost use Rattle.ws_c.specs.Pages.{cells_on};

use crate::cell_fields::{fields_behind, index_at, passed};
use crate::held::{given, on_held, on_screen, on_stations};
use crate::page_text::to_page;
use crate::{Handle, Machine, Status};
use std::alloc::Global;
use ws_code::{Address, COLUMNS, CodePage};
use ws_screen::{Screen, Shown};

/// A cell of a screen.
#[repr(C)]
#[derive(Clone, Copy)]
pub struct CellTold {
    /// What it shows, as a Unicode scalar value.
    pub character: u32,
    /// The index of the field that holds it, or `NO_FIELD`.
    pub field: u16,
    /// What it holds.
    pub byte: u8,
    /// The attribute in force; 20 at an attribute's own cell.
    pub attribute: u8,
}

// Tells a cell that is in the field of this index, or in none.
fn tell_cell(cell: &mut CellTold, field: u16, byte: u8, shown: Shown)
    ensures { cell.new ≡ record {
      character = shown.character;
      field = field;
      byte = byte;
      attribute = shown.attribute;
    } }
{
    cell.character = shown.character as u32;
    cell.field = field;
    cell.byte = byte;
    cell.attribute = shown.attribute.byte();
}

/// The cell at a place of the screen.
pub(crate) fn address(place: usize) -> Address
    requires { place < ALL_CELLS }
    ensures { result ≡ place }
{
    match Address::at(place as u16) {
        Some(at) => at,
        None => Address::default(),
    }
}

// Tells the cells from one on.
fn tell_cells(screen: &Screen, first: usize, cells: &mut [CellTold])
    requires within { first + length cells.old ≤ ALL_CELLS }
    requires begun { first < ALL_CELLS }
    ensures { cells.new
        ≡ map (told_of screen.now) (range_with_len first (length cells.old)) }
{
    screen.known();
    let fields = screen.fields();
    let bytes = screen.cells();
    let (mut field, mut ahead) = fields_behind(fields.as_slice(), first as u16);
    let mut attribute = screen.attribute_at(address(first));
    for (index, cell) in cells.iter_mut().enumerate() {
        let place = first + index;
        let byte = bytes[place];
        let (shown, next) = attribute.show(byte);
        tell_cell(cell, index_at(field, ahead, place as u16), byte, shown);
        attribute = next;
        if let Some(behind) = passed(ahead, place as u16 + 1) {
            field += 1;
            ahead = behind;
        }
    }
}

/// Tells the cells of rows, on a page or as the screen has them.
pub(crate) fn tell_rows_on(
    screen: &Screen,
    page: Option<CodePage>,
    first_row: u8,
    last_row: u8,
    cells: &mut [CellTold],
) -> Status
    requires rows { AreRowNumbers first_row last_row }
    requires room { cells_in first_row last_row ≤ length cells.old }
    ensures status { result ≡ Status.Done }
    ensures cells { cells.new ≡ cells_on page (rows_told screen.now first_row last_row)
        ++ drop (cells_in first_row last_row) cells.old }
{
    let status = tell_rows(screen, first_row, last_row, cells);
    let count = (last_row as usize + 1 - first_row as usize) * COLUMNS as usize;
    if let Some(page) = page {
        to_page(page, &mut cells[..count]);
    }
    status
}

/// Tells the cells of rows.
pub(crate) fn tell_rows(
    screen: &Screen,
    first_row: u8,
    last_row: u8,
    cells: &mut [CellTold],
) -> Status
    requires rows { AreRowNumbers first_row last_row }
    requires room { cells_in first_row last_row ≤ length cells.old }
    ensures status { result ≡ Status.Done }
    ensures cells { cells.new ≡ rows_told screen.now first_row last_row
        ++ drop (cells_in first_row last_row) cells.old }
{
    let count = (last_row as usize + 1 - first_row as usize) * COLUMNS as usize;
    let first = (first_row as usize - 1) * COLUMNS as usize;
    tell_cells(screen, first, &mut cells[..count]);
    Status::Done
}

/// Tells the cells of rows, 80 of each, in screen order: what each shows and holds, the attribute in force, and its
/// field. A station that has an identity shows the characters of its code page, another those of 037.
///
/// `BadArgument` where the rows aren't 1 to 24 in order, `NoRoom` where there are fewer than 80 cells for each row,
/// `NothingHeld` where the handle holds no station; no cell is then set.
#[unsafe(no_mangle)]
pub extern "C" fn ws_c_station_cells(
    alloc: Global,
    handle: &mut Handle,
    first_row: u8,
    last_row: u8,
    cells: &mut [CellTold],
) -> u32
    ensures cells { AreRowNumbers first_row last_row
        → cells_in first_row last_row ≤ length cells.old → HasStatus result (λ status.
        OnScreen handle.old.owned.value handle.new.owned.value
        (λ page screen. (status ≡ Status.Done)
        × (cells.new ≡ cells_on page (rows_told screen first_row last_row)
        ++ drop (cells_in first_row last_row) cells.old))
        (HoldsNone status (cells.new ≡ cells.old))) }
    ensures off { ¬ AreRowNumbers first_row last_row
        → (result ≡ status_number Status.BadArgument)
        × (handle.new ≡ handle.old) × (cells.new ≡ cells.old) }
    ensures room { AreRowNumbers first_row last_row
        → length cells.old < cells_in first_row last_row → (result ≡ status_number Status.NoRoom)
        × (handle.new ≡ handle.old) × (cells.new ≡ cells.old) }
{
    if first_row < 1 || last_row < first_row || last_row > 24 {
        return Status::BadArgument.number();
    }
    if cells.len() < (last_row as usize + 1 - first_row as usize) * COLUMNS as usize {
        return Status::NoRoom.number();
    }
    on_screen!(
        alloc,
        handle,
        |screen, page| tell_rows_on(screen, page, first_row, last_row, cells),
        number
    )
}
