//! The row that an error covers (SC30-3533, Write Error Code command).
ghost use Rattle.std.specs.Prelude.{◌≡◌, ◌∷◌, ◌++◌, [], ℕ, false, map, length, replicate, IsSome};
ghost use Rattle.ws_code.specs.declared.address.TheConstants.{COLUMNS as A_ROW};
ghost use Rattle.ws_code.specs.DataByte.{is_order};
ghost use Rattle.ws_stream.specs.Elements.{is_command};
ghost use Rattle.ws_stream.specs.declared.element.Element.TheVariants.{Put, Write};
ghost use Rattle.ws_screen.specs.Given.{NeedsWrite};
ghost use Rattle.ws_screen.specs.ScreenParts.{IsClean};
ghost use Rattle.ws_extended.specs.Carried.{Carries};
ghost use Rattle.ws_extended.specs.ErrorLine.{IsRow, error_begins, given_back, put_row, row_cells, row_start};

use ws_code::{Address, COLUMNS, DataByte};
use ws_screen::Screen;
use ws_stream::Element;

/// A row that an error covers, as it was.
#[derive(Clone, Copy)]
pub(crate) struct KeptRow {
    row: u8,
    cells: [u8; COLUMNS as usize],
    ghost on_screen: { IsRow row },
    ghost clean: { IsClean cells },
    ghost whole: { length cells ≡ A_ROW },
}

// Carries out an element; one that the screen refuses leaves it as it was.
fn carry(screen: &mut Screen, element: &Element)
    requires { NeedsWrite element.now → IsSome screen.old.writing }
    ensures carried { Carries (element.now ∷ []) screen.old screen.new }
    ensures open_ { IsSome screen.old.writing → is_command element.now ≡ false
        → IsSome screen.new.writing }
    ensures begun { (cc1 cc2 : ℕ) → element.now ≡ Write cc1 cc2
        → IsSome screen.new.writing }
{
    let _refused = screen.apply(element);
}

// The byte of a cell.
fn data_of(byte: u8) -> DataByte
    requires { is_order byte ≡ false }
    ensures { result ≡ byte }
{
    match DataByte::new(byte) {
        Some(byte) => byte,
        None => unreachable!(),
    }
}

fn put_bytes(screen: &mut Screen, bytes: &[u8])
    requires clean { IsClean bytes.now }
    requires open_ { IsSome screen.old.writing }
    ensures carried { Carries (map Put bytes.now) screen.old screen.new }
    ensures open_ { IsSome screen.new.writing }
{
    for byte in bytes {
        carry(screen, &Element::Put(data_of(*byte)));
    }
}

// The first cell of a row.
fn start_of(row: u8) -> Address
    requires { IsRow row }
    ensures { result ≡ row_start row }
{
    match Address::new(row, 1) {
        Some(place) => place,
        None => unreachable!(),
    }
}

fn put_row(screen: &mut Screen, row: u8, bytes: &[u8])
    // Clean cells for a row, in an open write.
    requires row { IsRow row }
    requires clean { IsClean bytes.now }
    requires open_ { IsSome screen.old.writing }
    // The row has them, and the write stays open.
    ensures carried { Carries (put_row row bytes.now) screen.old screen.new }
    ensures open_ { IsSome screen.new.writing }
{
    carry(screen, &Element::Sba(start_of(row)));
    put_bytes(screen, bytes);
}

// The row's cells become 00.
fn blank_row(screen: &mut Screen, row: u8, blank: [u8; COLUMNS as usize])
    // A row, in an open write.
    requires row { IsRow row }
    requires zeros { blank ≡ replicate A_ROW 0 }
    requires open_ { IsSome screen.old.writing }
    // It is empty, and the write stays open.
    ensures carried { Carries (put_row row (replicate A_ROW 0)) screen.old screen.new }
    ensures open_ { IsSome screen.new.writing }
{
    put_row(screen, row, &blank);
}

/// Covers a row by an error, whose text comes next (Write Error Code).
pub(crate) fn begin_error(screen: &mut Screen, row: u8)
    requires { IsRow row }
    ensures carried { Carries (error_begins row) screen.old screen.new }
    ensures open_ { IsSome screen.new.writing }
{
    carry(screen, &Element::Write { cc1: 0x20, cc2: 0 });
    blank_row(screen, row, [0; COLUMNS as usize]);
    carry(screen, &Element::Sba(start_of(row)));
}

/// Writes cells from a row's first on, in a write of its own: those of one list and of another after it.
pub(crate) fn write_cells(screen: &mut Screen, row: u8, first: &[u8], second: &[u8])
    requires row { IsRow row }
    requires clean { IsClean first.now × IsClean second.now }
    ensures { Carries (given_back 0 row (first.now ++ second.now)) screen.old screen.new }
{
    carry(screen, &Element::Write { cc1: 0, cc2: 0 });
    put_row(screen, row, first);
    put_bytes(screen, second);
}

impl KeptRow {
    /// A row, as it is now.
    pub(crate) fn of(screen: &Screen, row: u8) -> KeptRow
        requires { IsRow row }
        ensures row { result.row ≡ row }
        ensures cells { result.cells ≡ row_cells row screen.now.cells }
    {
        screen.known();
        let start = usize::from(start_of(row).place());
        let mut cells = [0; COLUMNS as usize];
        cells.copy_from_slice(&screen.cells()[start..start + 80]);
        KeptRow { row, cells }
    }

    /// Which row it is.
    pub(crate) fn row(&self) -> u8
        ensures value { result ≡ self.now.row }
        ensures on_screen { IsRow result }
    {
        self.row
    }

    /// Gives the row back to a screen, with a CC2 for the end of the write.
    pub(crate) fn give_back(&self, screen: &mut Screen, cc2: u8)
        ensures carried { Carries (given_back cc2 self.now.row self.now.cells)
            screen.old screen.new }
        ensures open_ { IsSome screen.new.writing }
    {
        carry(screen, &Element::Write { cc1: 0, cc2 });
        put_row(screen, self.row, &self.cells);
    }
}
