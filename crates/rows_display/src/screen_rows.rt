//! What each element does to a screen, and what a screen refuses.

use crate::{holds, same, same_at};
use std::process::Abort;
use ws_code::{Address, Aid, Body, Code, DataByte, Ffw, Reason};
use ws_screen::{CellEdit, ReadKind, Screen, apply_elements};
use ws_stream::{Commands, Element, EraseList, FieldStart, SohBytes, is_body};

fn place(rt: &impl Abort, place: u16) -> Address {
    Address::at(place).expect(rt, "a cell")
}

// A Write to Display that unlocks the keyboard at its end.
fn begin() -> Element {
    Element::Write { cc1: 0, cc2: 0x08 }
}

fn sba(rt: &impl Abort, row: u8, col: u8) -> Element {
    Element::Sba(Address::new(row, col).expect(rt, "a cell"))
}

fn put(rt: &impl Abort, byte: u8) -> Element {
    Element::Put(DataByte::new(byte).expect(rt, "no order code"))
}

fn input(rt: &impl Abort, format: u16, attribute: u8, length: u16) -> Element {
    let format = Ffw::new(format).expect(rt, "a format word");
    Element::Sf(FieldStart::input(format, &[], attribute, length).expect(rt, "a field"))
}

fn output(rt: &impl Abort, attribute: u8, length: u16) -> Element {
    Element::Sf(FieldStart::output(attribute, length).expect(rt, "a field"))
}

// Applies elements in turn, up to the first that is refused.
fn apply_all(rt: &impl Abort, screen: &mut Screen, elements: &[Element]) -> Option<Reason> {
    for element in elements {
        let may_follow = Commands::may_follow(Commands::first(), element) || screen.writing();
        assert!(rt; may_follow);
        if let Err(reason) = screen.apply(element) {
            return Some(reason);
        }
    }
    None
}

// A new screen to which the elements were applied.
fn screen_with(rt: &impl Abort, elements: &[Element]) -> Screen {
    let mut screen = Screen::new();
    let refused = apply_all(rt, &mut screen, elements);
    same(rt, refused, None);
    screen
}

// Applies an element that isn't refused.
fn applies(rt: &impl Abort, screen: &mut Screen, element: Element) {
    same(rt, apply_all(rt, screen, &[element]), None);
}

// The length and the format word of the input field that holds a cell.
fn field_at(rt: &impl Abort, screen: &Screen, at: u16) -> Option<(u16, u16)> {
    let field = screen.field_at(place(rt, at))?;
    Some((field.length, field.format.value()))
}

// 256 fields of one cell, three cells apart.
fn full_table(rt: &impl Abort, descending: bool) -> Screen {
    let mut screen = screen_with(rt, &[begin()]);
    for count in 0..256u16 {
        let number = if descending { 255 - count } else { count };
        applies(rt, &mut screen, Element::Sba(place(rt, 3 * number)));
        applies(rt, &mut screen, input(rt, 0x4000, 0x20, 1));
    }
    screen
}

// A screen with a field at its end, which is defined again.
fn last_field_again(rt: &impl Abort) {
    let first = [begin(), sba(rt, 24, 79), input(rt, 0x4000, 0x20, 1)];
    let mut screen = screen_with(rt, &first);
    same(rt, screen.cell(place(rt, 1918)), 0x20);
    same(rt, screen.cell(place(rt, 1919)), 0x00);
    same(rt, field_at(rt, &screen, 1919), Some((1, 0x4000)));
    applies(rt, &mut screen, sba(rt, 24, 79));
    applies(rt, &mut screen, input(rt, 0x4800, 0x20, 0));
    same(rt, field_at(rt, &screen, 1919), Some((1, 0x4800)));
    same(rt, screen.field_count(), 1);
}

// One field more than there may be, and one that is defined again.
fn one_field_more(rt: &impl Abort) {
    let mut full = full_table(rt, false);
    let one_more = [Element::Sba(place(rt, 768)), input(rt, 0x4000, 0x20, 1)];
    let refused = apply_all(rt, &mut full, &one_more);
    same(rt, refused, Some(Reason::TableFull));
    applies(rt, &mut full, Element::Sba(place(rt, 300)));
    applies(rt, &mut full, input(rt, 0x4800, 0x20, 1));
    same(rt, full.field_count(), 256);
}

// An input field is refused, whose attribute is at this row and column.
fn refuses_field(
    rt: &impl Abort,
    screen: &mut Screen,
    cell: (u8, u8),
    length: u16,
    reason: Reason,
) {
    applies(rt, screen, sba(rt, cell.0, cell.1));
    let field = input(rt, 0x4000, 0x20, length);
    same(rt, apply_all(rt, screen, &[field]), Some(reason));
}

// Fields that a new screen refuses, by the row and column of the attribute and the length, and why.
const REFUSED_FIELDS: [((u8, u8), u16, Reason); 2] = [
    ((24, 79), 2, Reason::FieldPastEnd),
    ((24, 79), 0, Reason::ZeroLength),
];

#[test]
fn field_limits(rt: HostRuntime) {
    last_field_again(&rt);
    for (cell, length, reason) in &REFUSED_FIELDS {
        let mut screen = screen_with(&rt, &[begin()]);
        refuses_field(&rt, &mut screen, *cell, *length, *reason);
        same(&rt, screen.field_count(), 0);
    }
    // after a field of ten cells at 6, 53
    let first = [begin(), sba(&rt, 6, 52), input(&rt, 0x4000, 0x20, 10)];
    let mut screen = screen_with(&rt, &first);
    refuses_field(&rt, &mut screen, (6, 54), 4, Reason::FieldOverlap);
    one_field_more(&rt);
}

#[test]
fn descending_256(rt: HostRuntime) {
    let ascending = full_table(&rt, false).fields();
    let descending = full_table(&rt, true).fields();
    same(&rt, descending.len(), 256);
    same(&rt, descending.as_slice(), ascending.as_slice());
}

#[test]
fn hidden_field_and_dup(rt: HostRuntime) {
    let mut screen = screen_with(
        &rt,
        &[
            begin(),
            input(&rt, 0x4000, 0x27, 2),
            put(&rt, 0xC1),
            put(&rt, 0xC2),
            sba(&rt, 1, 6),
            put(&rt, 0x1C),
            put(&rt, 0x81),
        ],
    );
    screen.end_write();
    let line = screen.line(1);
    same(&rt, line.as_str().len(), 80);
    same(&rt, line.as_str().trim_end(), "     *a");
    same(&rt, screen.cursor().place(), 1);
    holds(&rt, !screen.locked());
}

#[test]
fn modified_nulled_and_locked(rt: HostRuntime) {
    let screen = screen_with(
        &rt,
        &[
            Element::Write { cc1: 0, cc2: 0 },
            input(&rt, 0x4800, 0x20, 2),
            put(&rt, 0xC1),
            put(&rt, 0xC2),
            Element::Write { cc1: 0xC0, cc2: 0 },
        ],
    );
    for (at, byte) in [(0, 0x20), (1, 0x00), (2, 0x00), (3, 0x20)] {
        same_at(&rt, at, screen.cell(place(&rt, at)), byte);
    }
    same(&rt, field_at(&rt, &screen, 1), Some((2, 0x4000)));
    holds(&rt, screen.locked());
}

#[test]
fn backward_address(rt: HostRuntime) {
    let mut screen = screen_with(&rt, &[begin(), sba(&rt, 1, 5)]);
    let to = place(&rt, 3);
    let byte = DataByte::new(0x40).expect(&rt, "a blank");
    let refused = apply_all(&rt, &mut screen, &[Element::Ra { to, byte }]);
    same(&rt, refused, Some(Reason::BackwardAddress));
    for at in 0..6 {
        same_at(&rt, at, screen.cell(place(&rt, at)), 0);
    }
}

// The format words of open fields with MDT off and on, and of bypass fields with MDT off and on, and their places.
const CC1_FIELDS: [(u16, u16); 4] = [(0x4000, 1), (0x4800, 4), (0x6000, 7), (0x6800, 10)];

// The codes of CC1, the bytes of these fields and their format words afterwards, and the lock.
#[rattlefmt::skip]
const CC1_CODES: [(u8, [u8; 4], [u16; 4], bool); 8] = [
    (0, [0xC1, 0xC1, 0xC1, 0xC1], [0x4000, 0x4800, 0x6000, 0x6800], false),
    (1, [0xC1, 0xC1, 0xC1, 0xC1], [0x4000, 0x4800, 0x6000, 0x6800], true),
    (2, [0xC1, 0xC1, 0xC1, 0xC1], [0x4000, 0x4000, 0x6000, 0x6800], true),
    (3, [0xC1, 0xC1, 0xC1, 0xC1], [0x4000, 0x4000, 0x6000, 0x6000], true),
    (4, [0xC1, 0x00, 0xC1, 0xC1], [0x4000, 0x4800, 0x6000, 0x6800], true),
    (5, [0x00, 0x00, 0xC1, 0xC1], [0x4000, 0x4000, 0x6000, 0x6800], true),
    (6, [0xC1, 0x00, 0xC1, 0xC1], [0x4000, 0x4000, 0x6000, 0x6800], true),
    (7, [0x00, 0x00, 0xC1, 0xC1], [0x4000, 0x4000, 0x6000, 0x6000], true),
];

// A screen with those fields, each of one cell with C1, on which the code of CC1 was written.
fn screen_of_code(rt: &impl Abort, code: u8) -> Screen {
    let mut screen = screen_with(rt, &[begin()]);
    for (word, _place) in &CC1_FIELDS {
        applies(rt, &mut screen, input(rt, *word, 0x20, 1));
        applies(rt, &mut screen, put(rt, 0xC1));
        applies(rt, &mut screen, put(rt, 0x40));
    }
    let cc1 = code << 5 | 31;
    applies(rt, &mut screen, Element::Write { cc1, cc2: 0 });
    screen
}

#[test]
fn cc1_codes(rt: HostRuntime) {
    for (code, bytes, words, locked) in &CC1_CODES {
        let screen = screen_of_code(&rt, *code);
        same_at(&rt, *code, screen.locked(), *locked);
        for (index, (_word, at)) in CC1_FIELDS.iter().enumerate() {
            let row = (*code, *at);
            same_at(&rt, row, screen.cell(place(&rt, *at)), bytes[index]);
            let field = field_at(&rt, &screen, *at);
            same_at(&rt, row, field, Some((1, words[index])));
        }
    }
}

// An element, and the home after it.
fn expect_home(rt: &impl Abort, screen: &mut Screen, element: Element, home: u16) {
    applies(rt, screen, element);
    same(rt, screen.home().place(), home);
}

// The home after each element: where an Insert Cursor set it, else at the first cell of the first
// open field, else at row 1 and column 1.
#[test]
fn homes(rt: HostRuntime) {
    let header = SohBytes::new(&[]).expect(&rt, "a header");
    let mut screen = screen_with(&rt, &[begin()]);
    expect_home(&rt, &mut screen, Element::Sba(place(&rt, 100)), 0);
    expect_home(&rt, &mut screen, input(&rt, 0x4000, 0x20, 1), 101);
    expect_home(&rt, &mut screen, Element::Sba(place(&rt, 20)), 101);
    expect_home(&rt, &mut screen, input(&rt, 0x6000, 0x20, 1), 101);
    expect_home(&rt, &mut screen, Element::Sba(place(&rt, 40)), 101);
    expect_home(&rt, &mut screen, input(&rt, 0x4000, 0x20, 1), 41);
    expect_home(&rt, &mut screen, Element::Ic(place(&rt, 5)), 5);
    expect_home(&rt, &mut screen, Element::Soh(header), 0);
}

// The lock, the message light, the blinking cursor, and whether a write goes on.
fn states_are(rt: &impl Abort, screen: &Screen, states: [bool; 4]) {
    same(rt, screen.locked(), states[0]);
    same(rt, screen.message(), states[1]);
    same(rt, screen.blink(), states[2]);
    same(rt, screen.writing(), states[3]);
}

// The read that waits for a key.
fn waits_for(rt: &impl Abort, screen: &Screen, read: Option<ReadKind>) {
    same(rt, screen.pending(), read);
}

// A screen with a field of each kind, on which a write went on and ended.
fn written_screen(rt: &impl Abort) -> Screen {
    let mut screen = Screen::new();
    states_are(rt, &screen, [true, false, false, false]);
    same(rt, screen.cursor().place(), 0);
    screen.begin_write(0, 0x19);
    holds(rt, screen.writing());
    let header = SohBytes::new(&[0, 0, 0, 0, 0x80, 0, 1]).expect(rt, "a header");
    applies(rt, &mut screen, Element::Soh(header));
    applies(rt, &mut screen, output(rt, 0x22, 3));
    applies(rt, &mut screen, sba(rt, 2, 1));
    applies(rt, &mut screen, input(rt, 0x4000, 0x20, 3));
    applies(rt, &mut screen, Element::Ic(place(rt, 5)));
    applies(rt, &mut screen, Element::Mc(place(rt, 7)));
    let to = place(rt, 81);
    let kinds = EraseList::new(&[0xFF]).expect(rt, "a type");
    applies(rt, &mut screen, Element::Ea { to, kinds });
    same(rt, screen.home().place(), 5);
    screen.end_write();
    states_are(rt, &screen, [false, true, true, false]);
    same(rt, screen.cursor().place(), 7);
    screen
}

// Another screen becomes as this one; its read is cancelled, and its message light turned off.
fn assign_and_cancel(rt: &impl Abort, screen: &Screen) {
    let mut other = Screen::new();
    other.assign(screen);
    same(rt, other.fields().as_slice(), screen.fields().as_slice());
    waits_for(rt, &other, Some(ReadKind::Mdt));
    other.cancel_read();
    waits_for(rt, &other, None);
    other.set_message(false);
    holds(rt, other.locked());
    holds(rt, !other.message());
}

// What the other orders, the reads, the opcodes and the end of a write do.
#[test]
fn states(rt: HostRuntime) {
    let mut screen = written_screen(&rt);
    applies(&rt, &mut screen, Element::ReadMdt { cc1: 0x20, cc2: 0 });
    waits_for(&rt, &screen, Some(ReadKind::Mdt));
    assign_and_cancel(&rt, &screen);
    applies(&rt, &mut screen, Element::ReadInput { cc1: 0, cc2: 0 });
    waits_for(&rt, &screen, Some(ReadKind::Input));
    let read = Element::ReadMdtAlternate { cc1: 0x20, cc2: 6 };
    applies(&rt, &mut screen, read);
    waits_for(&rt, &screen, Some(ReadKind::MdtAlternate));
    holds(&rt, screen.locked());
    holds(&rt, !screen.message());
    applies(&rt, &mut screen, Element::ClearFormat);
    waits_for(&rt, &screen, None);
    same(&rt, screen.field_count(), 0);
    same(&rt, screen.cursor().place(), 7);
    applies(&rt, &mut screen, Element::ClearUnit);
    same(&rt, screen.cursor().place(), 0);
    same(&rt, screen.line(1).as_str().trim_end(), "");
}

// An edit that leaves the cells as they are.
struct Unchanged;

impl CellEdit for Unchanged {
    ghost asks = { λ edit n. Unit {0} };

    ghost becomes = { λ edit cells. cells };

    fn carry_out(&self, _cells: &mut [u8]) {}
}

// A screen with a body of a header and one field that is read.
fn screen_with_body(rt: &impl Abort) -> Screen {
    let header = SohBytes::new(&[0, 0, 0, 0, 0, 0, 4]).expect(rt, "a header");
    let body = [
        begin(),
        Element::Soh(header),
        sba(rt, 6, 52),
        input(rt, 0x4000, 0x20, 10),
        Element::ReadMdtAlternate { cc1: 0, cc2: 0 },
    ];
    let mut screen = Screen::new();
    screen.end_write();
    let whole = is_body(&body);
    assert!(rt; whole);
    same(rt, apply_elements(&mut screen, &body), Ok(()));
    screen
}

// The field at the cursor is edited and erased.
fn edit_and_erase(rt: &impl Abort, screen: &mut Screen) {
    let field = screen.open_field().expect(rt, "an open field");
    let on_screen = field.start.place() as u32 + field.length as u32 <= 1920;
    assert!(rt; on_screen);
    same(rt, screen.field_cells(&field), [0; 10].as_slice());
    screen.edit_field(&field, &Unchanged, place(rt, 453));
    same(rt, field_at(rt, screen, 452), Some((10, 0x4800)));
    same(rt, screen.cursor().place(), 453);
    screen.move_cursor(place(rt, 7));
    same(rt, screen.cursor().place(), 7);
    screen.erase_input();
    same(rt, field_at(rt, screen, 452), Some((10, 0x4000)));
    same(rt, screen.cursor().place(), 452);
}

// A body on a screen, and what a key may do to it then.
#[test]
fn a_body_and_what_a_key_may_do(rt: HostRuntime) {
    let mut screen = screen_with_body(&rt);
    screen.known();
    let enter = Aid::from_byte(0xF1).expect(&rt, "Enter");
    holds(&rt, screen.returns_data(enter));
    let third = Aid::function(3).expect(&rt, "F3");
    holds(&rt, !screen.returns_data(third));
    edit_and_erase(&rt, &mut screen);
    screen.answer_read();
    holds(&rt, screen.locked());
    waits_for(&rt, &screen, None);
}
