//! Screens that a host's bytes make, for rows of several files.

use crate::{holds, same};
use std::process::Abort;
use ws_code::{Address, Aid, Body, Code, DataByte, Ffw, Standing};
use ws_keys::Key;
use ws_screen::Screen;
use ws_stream::{Commands, Element, FieldStart, Place};

/// The address of a row and a column.
pub(crate) fn at(rt: &impl Abort, row: u8, col: u8) -> Address {
    Address::new(row, col).expect(rt, "a cell")
}

// The element that bytes begin with, and the number of its bytes.
fn first_element(place: Place, bytes: &[u8]) -> Option<(Element, usize)> {
    let mut machine = Commands::start(place);
    let mut at = Standing {
        place,
        is_inside: false,
    };
    let mut slot = None;
    let run = machine.run(&mut at, bytes, &mut slot);
    Some((slot?, run.used))
}

/// Carries out an element that the screen takes.
pub(crate) fn apply(rt: &impl Abort, screen: &mut Screen, element: &Element) {
    let may_follow = Commands::may_follow(Commands::first(), element) || screen.writing();
    assert!(rt; may_follow);
    holds(rt, screen.apply(element).is_ok());
}

/// A new screen to which a host's body was applied, and its write ended.
pub(crate) fn screen_with(rt: &impl Abort, body: &[u8]) -> Screen {
    let mut screen = Screen::new();
    let mut place = Commands::first();
    let mut rest = body;
    while !rest.is_empty() {
        let (element, count) = first_element(place, rest).expect(rt, "an element");
        assert!(rt; 1 <= count && count <= rest.len());
        apply(rt, &mut screen, &element);
        place = Commands::after(&element);
        rest = &rest[count..];
    }
    screen.end_write();
    screen
}

/// The key of an attention identifier.
pub(crate) fn aid(rt: &impl Abort, byte: u8) -> Key {
    Key::Aid(Aid::from_byte(byte).expect(rt, "a key"))
}

/// A read of modified fields over one field of ten cells at 6, 53.
pub(crate) const ONE_FIELD: [u8; 19] = [
    0x04, 0x40, 0x04, 0x11, 0x00, 0x08, 0x11, 0x06, 0x34, 0x1D, 0x40, 0x00, 0x20, 0x00, 0x0A, 0x04,
    0x52, 0x00, 0x00,
];

/// Two fields, the later one defined first and with C1 00 C2 in it: their format words' first bytes, and the read.
pub(crate) fn two_fields(later: u8, earlier: u8, read: u8) -> [u8; 29] {
    [
        0x04, 0x11, 0x00, 0x08, 0x11, 0x06, 0x34, 0x1D, later, 0x00, 0x20, 0x00, 0x06, 0xC1, 0x00,
        0xC2, 0x11, 0x03, 0x01, 0x1D, earlier, 0x00, 0x20, 0x00, 0x04, 0x04, read, 0x00, 0x00,
    ]
}

/// One field at 6, 53: its format word, its length and the read.
pub(crate) fn one_field(high: u8, low: u8, cells: u8, read: u8) -> [u8; 17] {
    [
        0x04, 0x11, 0x00, 0x08, 0x11, 0x06, 0x34, 0x1D, high, low, 0x20, 0x00, cells, 0x04, read,
        0x00, 0x00,
    ]
}

/// Makes an input field with its attribute at a row and a column.
pub(crate) fn begin_field(
    rt: &impl Abort,
    screen: &mut Screen,
    cell: (u8, u8),
    format: u16,
    length: u16,
) {
    let format = Ffw::new(format).expect(rt, "a format word");
    let field = FieldStart::new(Some(format), &[], 0x20, length).expect(rt, "a field");
    apply(rt, screen, &Element::Sba(at(rt, cell.0, cell.1)));
    apply(rt, screen, &Element::Sf(field));
}

/// Makes an input field whose first cell is in a row's second column, and fills it.
pub(crate) fn put_field(rt: &impl Abort, screen: &mut Screen, row: u8, format: u16, cells: &[u8]) {
    assert!(rt; cells.len() < 80);
    begin_field(rt, screen, (row, 1), format, cells.len() as u16);
    for byte in cells {
        let byte = DataByte::new(*byte).expect(rt, "no order code");
        apply(rt, screen, &Element::Put(byte));
    }
}

/// A field of four cells at 2, 2; one with bypass at 3, 2, modified; one at 4, 2. The keyboard is unlocked.
pub(crate) fn screen_of(rt: &impl Abort, format: u16, cells: &[u8]) -> Screen {
    let mut screen = Screen::new();
    apply(rt, &mut screen, &Element::Write { cc1: 0, cc2: 0x08 });
    put_field(rt, &mut screen, 2, format, cells);
    put_field(rt, &mut screen, 3, 0x6800, &[0xd1, 0xd2]);
    put_field(rt, &mut screen, 4, 0x4800, &[0xe2, 0xe3]);
    screen.end_write();
    screen
}

/// Expects these cells from the beginning of a row on.
pub(crate) fn check_cells(rt: &impl Abort, screen: &Screen, row: u8, cells: &[u8]) {
    for (index, byte) in cells.iter().enumerate() {
        assert!(rt; index < 78);
        same(rt, screen.cell(at(rt, row, index as u8 + 2)), *byte);
    }
}
