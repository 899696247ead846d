//! What each key does: cells, MDT, cursor and lock afterwards.

use crate::screens::{aid, apply, at, begin_field, check_cells, put_field, screen_of};
use crate::{holds, same, same_at};
use std::process::Abort;
use ws_keys::{Key, KeyRefusal, press};
use ws_screen::Screen;
use ws_stream::Element;

fn is_modified(rt: &impl Abort, screen: &Screen, row: u8) -> bool {
    let field = screen.field_at(at(rt, row, 2)).expect(rt, "a field");
    field.format.modified()
}

// A key in the field at 2, 2: its format word and cells, the cursor's column, the cells and the cursor afterwards.
type Entry = (u16, [u8; 4], u8, Key, [u8; 4], (u8, u8));

const A_TO_D: [u8; 4] = [0xc1, 0xc2, 0xc3, 0xc4];

const NULLS: [u8; 4] = [0; 4];

// The cells of the bypass field and of the field after it are as they were made.
fn check_other_fields(rt: &impl Abort, screen: &Screen) {
    check_cells(rt, screen, 3, &[0xd1, 0xd2]);
    check_cells(rt, screen, 4, &[0xe2, 0xe3]);
    holds(rt, is_modified(rt, screen, 3));
}

// Presses a key that is taken and answers nothing.
fn press_silent(rt: &impl Abort, screen: &mut Screen, key: Key) {
    holds(rt, matches!(press(screen, key), Ok(None)));
    holds(rt, !screen.locked());
}

fn check_entry(rt: &impl Abort, row: &Entry) {
    let (format, before, column, key, after, cursor) = row;
    let mut screen = screen_of(rt, *format, before);
    screen.move_cursor(at(rt, 2, *column));
    press_silent(rt, &mut screen, *key);
    check_cells(rt, &screen, 2, after);
    check_other_fields(rt, &screen);
    holds(rt, is_modified(rt, &screen, 2));
    same(rt, screen.cursor(), at(rt, cursor.0, cursor.1));
}

#[rattlefmt::skip]
const ENTERED: [Entry; 14] = [
    (0x4000, NULLS, 2, Key::Char('A'), [0xc1, 0, 0, 0], (2, 3)),
    (0x4000, NULLS, 5, Key::Char('A'), [0, 0, 0, 0xc1], (4, 2)),
    // alphabetic only
    (0x4100, NULLS, 3, Key::Char('z'), [0, 0xa9, 0, 0], (2, 4)),
    (0x4100, NULLS, 2, Key::Char('-'), [0x60, 0, 0, 0], (2, 3)),
    // numeric shift
    (0x4200, NULLS, 2, Key::Char('A'), [0xc1, 0, 0, 0], (2, 3)),
    // numeric only
    (0x4300, NULLS, 2, Key::Char('+'), [0x4e, 0, 0, 0], (2, 3)),
    // digits only
    (0x4500, NULLS, 2, Key::Char('7'), [0xf7, 0, 0, 0], (2, 3)),
    // monocase turns small letters into capitals, and nothing else
    (0x4020, NULLS, 2, Key::Char('a'), [0xc1, 0, 0, 0], (2, 3)),
    (0x4020, NULLS, 2, Key::Char('é'), [0x51, 0, 0, 0], (2, 3)),
    (0x4000, [0xc2, 0xc3, 0, 0], 2, Key::Insert('A'), [0xc1, 0xc2, 0xc3, 0], (2, 3)),
    (0x4000, [0xc1, 0xc2, 0xc3, 0], 4, Key::Insert('D'), [0xc1, 0xc2, 0xc4, 0xc3], (2, 5)),
    (0x4000, [0xc1, 0xc2, 0xc3, 0], 5, Key::Insert('D'), A_TO_D, (4, 2)),
    (0x4000, A_TO_D, 3, Key::Delete, [0xc1, 0xc3, 0xc4, 0], (2, 3)),
    (0x4000, A_TO_D, 5, Key::Delete, [0xc1, 0xc2, 0xc3, 0], (2, 5)),
];

// Characters, by the field's shift and monocase; Insert and Delete.
#[test]
fn characters_entered(rt: HostRuntime) {
    for row in &ENTERED {
        check_entry(&rt, row);
    }
}

const SIGNED: [u8; 4] = [0xf1, 0xf2, 0, 0];

#[rattlefmt::skip]
const LEFT: [Entry; 8] = [
    (0x4000, A_TO_D, 4, Key::FieldExit, [0xc1, 0xc2, 0, 0], (4, 2)),
    (0x4005, A_TO_D, 4, Key::FieldExit, [0xf0, 0xf0, 0xc1, 0xc2], (4, 2)),
    (0x4006, A_TO_D, 3, Key::FieldExit, [0x40, 0x40, 0x40, 0xc1], (4, 2)),
    (0x4007, A_TO_D, 4, Key::FieldExit, [0xc1, 0xc2, 0, 0], (4, 2)),
    (0x4700, SIGNED, 4, Key::FieldExit, [0x40, 0xf1, 0xf2, 0x40], (4, 2)),
    (0x4700, SIGNED, 4, Key::FieldMinus, [0x40, 0xf1, 0xf2, 0x60], (4, 2)),
    (0x4705, SIGNED, 4, Key::FieldMinus, [0xf0, 0xf1, 0xf2, 0x60], (4, 2)),
    (0x5000, A_TO_D, 3, Key::Dup, [0xc1, 0x1c, 0x1c, 0x1c], (4, 2)),
];

// Field Exit with each adjust, Field Exit and Field Minus in a signed numeric field, and Dup.
#[test]
fn fields_left(rt: HostRuntime) {
    for row in &LEFT {
        check_entry(&rt, row);
    }
}

const REFUSED: [(u16, Key, KeyRefusal); 12] = [
    (0x4100, Key::Char('1'), KeyRefusal::WrongCharacter),
    (0x4200, Key::Char('€'), KeyRefusal::WrongCharacter),
    (0x4300, Key::Char('A'), KeyRefusal::WrongCharacter),
    (0x4500, Key::Char('-'), KeyRefusal::WrongCharacter),
    (0x4700, Key::Char('A'), KeyRefusal::WrongCharacter),
    (0x4000, Key::FieldMinus, KeyRefusal::WrongCharacter),
    (0x4000, Key::Insert('A'), KeyRefusal::NoRoom),
    (0x4000, Key::Dup, KeyRefusal::DupNotAllowed),
    // a field with bypass
    (0x6000, Key::Char('A'), KeyRefusal::Protected),
    (0x6000, Key::Delete, KeyRefusal::Protected),
    (0x6000, Key::FieldExit, KeyRefusal::Protected),
    (0x7000, Key::Dup, KeyRefusal::Protected),
];

fn check_refused(rt: &impl Abort, format: u16, cells: &[u8], key: Key, refusal: KeyRefusal) {
    let mut screen = screen_of(rt, format, cells);
    screen.move_cursor(at(rt, 2, 3));
    match press(&mut screen, key) {
        Err(found) => same(rt, found, refusal),
        Ok(_) => panic!(rt; "a refusal"),
    }
    check_cells(rt, &screen, 2, cells);
    holds(rt, !is_modified(rt, &screen, 2));
    holds(rt, !screen.locked());
    same(rt, screen.cursor(), at(rt, 2, 3));
}

// A refused key leaves cells, MDT, cursor and lock.
#[test]
fn keys_refused(rt: HostRuntime) {
    for (format, key, refusal) in &REFUSED {
        check_refused(&rt, *format, &A_TO_D, *key, *refusal);
    }
    let enter = aid(&rt, 0xf1);
    check_refused(&rt, 0x4000, &A_TO_D, enter, KeyRefusal::NoReadPending);
    // all digit cells hold one, and the sign cell is empty
    let insert = Key::Insert('4');
    check_refused(
        &rt,
        0x4700,
        &[0xf1, 0xf2, 0xf3, 0],
        insert,
        KeyRefusal::NoRoom,
    );
}

fn check_move(rt: &impl Abort, screen: &mut Screen, from: (u8, u8), key: Key, to: (u8, u8)) {
    screen.move_cursor(at(rt, from.0, from.1));
    press_silent(rt, screen, key);
    same_at(rt, from, screen.cursor(), at(rt, to.0, to.1));
}

const MOVES: [((u8, u8), Key, (u8, u8)); 25] = [
    ((5, 5), Key::Left, (5, 4)),
    ((2, 1), Key::Left, (1, 80)),
    ((1, 1), Key::Left, (24, 80)),
    ((5, 5), Key::Right, (5, 6)),
    ((1, 80), Key::Right, (2, 1)),
    ((24, 80), Key::Right, (1, 1)),
    ((2, 5), Key::Up, (1, 5)),
    ((1, 5), Key::Up, (24, 5)),
    ((1, 5), Key::Down, (2, 5)),
    ((24, 5), Key::Down, (1, 5)),
    ((10, 10), Key::Home, (2, 2)),
    // before all fields, in the first and the last cell, in the bypass field, in the last field, after all of them
    ((1, 1), Key::Tab, (2, 2)),
    ((2, 2), Key::Tab, (4, 2)),
    ((2, 5), Key::Tab, (4, 2)),
    ((3, 2), Key::Tab, (4, 2)),
    ((4, 2), Key::Tab, (2, 2)),
    ((24, 80), Key::Tab, (2, 2)),
    ((1, 1), Key::BackTab, (4, 2)),
    ((2, 2), Key::BackTab, (4, 2)),
    ((2, 5), Key::BackTab, (2, 2)),
    ((3, 2), Key::BackTab, (2, 2)),
    ((3, 3), Key::BackTab, (2, 2)),
    ((4, 2), Key::BackTab, (2, 2)),
    ((4, 3), Key::BackTab, (4, 2)),
    ((24, 80), Key::BackTab, (4, 2)),
];

// Keys that move the cursor alone: the arrows with their wraps, Home, Tab and Back Tab from each kind of place.
#[test]
fn cursor_moved(rt: HostRuntime) {
    let mut screen = screen_of(&rt, 0x4000, &A_TO_D);
    for (from, key, to) in &MOVES {
        check_move(&rt, &mut screen, *from, *key, *to);
    }
    check_cells(&rt, &screen, 2, &A_TO_D);
    holds(&rt, !is_modified(&rt, &screen, 2));
    holds(&rt, is_modified(&rt, &screen, 4));
}

// Without a field that keys enter Tab and Back Tab leave the cursor, and Home is 1, 1, or where the host set it.
#[test]
fn cursor_moved_without_fields(rt: HostRuntime) {
    let mut screen = Screen::new();
    apply(&rt, &mut screen, &Element::Write { cc1: 0, cc2: 0x08 });
    put_field(&rt, &mut screen, 3, 0x6000, &[0xd1]);
    screen.end_write();
    check_move(&rt, &mut screen, (3, 2), Key::Tab, (3, 2));
    check_move(&rt, &mut screen, (3, 2), Key::BackTab, (3, 2));
    check_move(&rt, &mut screen, (3, 2), Key::Home, (1, 1));
    apply(&rt, &mut screen, &Element::Write { cc1: 0, cc2: 0 });
    apply(&rt, &mut screen, &Element::Ic(at(&rt, 5, 5)));
    check_move(&rt, &mut screen, (3, 2), Key::Home, (5, 5));
}

// Erase Input nulls the fields without bypass, turns their MDTs off, and sends the cursor home.
#[test]
fn input_erased(rt: HostRuntime) {
    let mut screen = screen_of(&rt, 0x4800, &A_TO_D);
    check_move(&rt, &mut screen, (10, 10), Key::EraseInput, (2, 2));
    check_cells(&rt, &screen, 2, &NULLS);
    check_cells(&rt, &screen, 3, &[0xd1, 0xd2]);
    check_cells(&rt, &screen, 4, &[0, 0]);
    holds(&rt, !is_modified(&rt, &screen, 2));
    holds(&rt, is_modified(&rt, &screen, 3));
    holds(&rt, !is_modified(&rt, &screen, 4));
}

const LAST: (u8, u8) = (24, 80);

// Keys on the last cell, where the cursor then stands, and what the cell holds.
const ON_THE_LAST_CELL: [(Key, (u8, u8), u8); 6] = [
    (Key::Char('A'), (2, 2), 0xc1),
    (Key::Dup, (2, 2), 0x1c),
    (Key::FieldExit, (2, 2), 0x00),
    (Key::Insert('B'), (2, 2), 0xc2),
    (Key::Delete, LAST, 0x00),
    (Key::Tab, (2, 2), 0x00),
];

// A field on the last cell: after its character comes the first field.
#[test]
fn field_on_the_last_cell(rt: HostRuntime) {
    let mut screen = screen_of(&rt, 0x4000, &A_TO_D);
    apply(&rt, &mut screen, &Element::Write { cc1: 0, cc2: 0 });
    begin_field(&rt, &mut screen, (24, 79), 0x5000, 1);
    screen.end_write();
    for (key, to, byte) in &ON_THE_LAST_CELL {
        check_move(&rt, &mut screen, LAST, *key, *to);
        same(&rt, screen.cell(at(&rt, 24, 80)), *byte);
    }
    check_move(&rt, &mut screen, (2, 2), Key::BackTab, LAST);
}

// An attribute that a key moves is in force where it then stands.
#[test]
fn attribute_moved_by_a_key(rt: HostRuntime) {
    let mut screen = screen_of(&rt, 0x4000, &[0xc1, 0xc2, 0x27, 0xc3]);
    same(&rt, screen.shown(at(&rt, 2, 3)), 'B');
    check_move(&rt, &mut screen, (2, 3), Key::Delete, (2, 3));
    check_cells(&rt, &screen, 2, &[0xc1, 0x27, 0xc3, 0]);
    same(&rt, screen.attribute_at(at(&rt, 2, 4)).byte(), 0x27);
    same(&rt, screen.shown(at(&rt, 2, 4)), ' ');
    same(&rt, screen.shown(at(&rt, 2, 2)), 'A');
}
