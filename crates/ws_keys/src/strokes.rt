//! Strokes of a keyboard that are several keys, one after another. Each tells the keys and presses none.
ghost use Rattle.std.specs.Prelude.{◌≡◌, ◌≤◌, ◌<◌, ◌+◌, ◌-◌, ◌++◌, ◌&&◌, length, nat_lt, find, SomeIff};
ghost use Rattle.std.specs.Option.{option_map_or, option_map};
ghost use Rattle.ws_screen.specs.Keyed.{open_field};
ghost use Rattle.ws_screen.specs.ScreenParts.{is_non_bypass};
ghost use Rattle.ws_keys.specs.Strokes as Spec;

use crate::Key;
use crate::edit::is_signed;
use crate::key_run::{KeyRun, KeyRuns, MAX_KEY_RUNS};
use arrayvec::ArrayVec;
use ws_code::{Address, CELLS, COLUMNS, ROWS};
use ws_screen::{Field, Screen};

// The key that leads from one row or column to another, so often as it takes.
fn run_between(back: Key, on: Key, from: u16, to: u16) -> KeyRun
    ensures { result ≡ Spec.run_between back on from to }
{
    if from < to {
        KeyRun::new(on, to - from)
    } else {
        KeyRun::new(back, from - to)
    }
}

// Adds the keys from one cell to another.
fn push_moves(runs: &mut KeyRuns, from: Address, to: Address)
    requires { length runs.old.items + 2 ≤ MAX_KEY_RUNS }
    ensures { runs.new.items ≡ runs.old.items ++ Spec.runs_to from to }
{
    let columns = u16::from(COLUMNS);
    let (from, to) = (from.place(), to.place());
    runs.push(run_between(Key::Up, Key::Down, from / columns, to / columns));
    runs.push(run_between(Key::Left, Key::Right, from % columns, to % columns));
}

/// The keys that bring the cursor to a cell: Up or Down to its row, then Left or Right.
pub fn keys_to(screen: &Screen, to: Address) -> KeyRuns
    ensures { result.items ≡ Spec.runs_to screen.now.cursor to }
{
    let mut runs = ArrayVec::new();
    push_moves(&mut runs, screen.cursor(), to);
    runs
}

// Whether keys enter a field that begins in a row below that of a cell.
fn opens_below(field: &Field, at: Address) -> bool
    ensures { result ≡ Spec.opens_below at field.now }
{
    !field.format.bypass() && at.row() < field.start.row()
}

// The first of the fields that keys enter and that begin in a row below that of a cell.
fn first_below(fields: &[Field], at: Address) -> Option<Field>
    ensures { result ≡ find (λ f. Spec.opens_below at f) fields.now }
{
    fields.iter().copied().find(|field| opens_below(field, at))
}

// The first cell of the row below that of a cell, from the last row of the first.
fn row_below(at: Address) -> Address
    ensures { result ≡ Spec.row_below at }
{
    let row = (at.place() / u16::from(COLUMNS) + 1) % u16::from(ROWS);
    match Address::at(row * u16::from(COLUMNS)) {
        Some(below) => below,
        None => at,
    }
}

// Where New Line leads.
fn new_line_cell(screen: &Screen) -> Address
    ensures { result ≡ Spec.new_line_cell screen.now }
{
    let fields = screen.fields();
    let cursor = screen.cursor();
    match first_below(fields.as_slice(), cursor).or(screen.first_non_bypass()) {
        Some(field) => field.start,
        None => row_below(cursor),
    }
}

/// The keys of New Line (SC30-3533, keyboard functions): those that bring the cursor to the first cell of the first
/// field that keys enter and that begins in a row below; where none does, of the first such field of all; where keys
/// enter no field, to column 1 of the row below, from the last row of the first.
pub fn new_line_keys(screen: &Screen) -> KeyRuns
    ensures { result.items ≡ Spec.runs_to screen.now.cursor (Spec.new_line_cell screen.now) }
{
    keys_to(screen, new_line_cell(screen))
}

// Adds the keys that make the open field's cells from the cursor on 00, of which there are so many.
fn push_erasing(runs: &mut KeyRuns, field: &Field, cells: u16)
    requires { length runs.old.items + 4 ≤ MAX_KEY_RUNS }
    ensures { runs.new.items ≡ runs.old.items ++ Spec.erasing_runs field.now cells }
{
    if !is_signed(field.format) {
        runs.push(KeyRun::new(Key::Delete, cells));
        return;
    }
    // Delete closes up the digits without the sign, which takes one of its own.
    let digits = cells.saturating_sub(1);
    runs.push(KeyRun::new(Key::Delete, digits));
    runs.push(KeyRun::new(Key::Right, digits));
    runs.push(KeyRun::new(Key::Delete, 1));
    runs.push(KeyRun::new(Key::Left, digits));
}

// How many cells of the open field stand from the cursor on.
fn cells_left(screen: &Screen, field: &Field) -> u16
    requires { open_field screen.now ≡ Some field.now }
    ensures { result ≡ field.now.start + field.now.length - screen.now.cursor }
{
    screen.known();
    let cursor = screen.cursor();
    field.start.place() + field.length - cursor.place()
}

/// The keys of Erase EOF: those that make the open field's cells from the cursor on 00 and leave the cursor. In a
/// signed numeric field they empty the digits from the cursor on, and the sign.
///
/// Where the cursor stands in no field that keys enter it is one Delete, which is refused.
pub fn erase_eof_keys(screen: &Screen) -> KeyRuns
    ensures { result.items ≡ Spec.erase_eof_runs screen.now }
{
    let mut runs = ArrayVec::new();
    match screen.open_field() {
        Some(field) => push_erasing(&mut runs, &field, cells_left(screen, &field)),
        None => runs.push(KeyRun::new(Key::Delete, 1)),
    }
    runs
}

// The field of a number.
fn numbered_field(screen: &Screen, number: u16) -> Option<Field>
    ensures { result ≡ Spec.numbered_field screen.now number }
{
    if number == 0 {
        return None;
    }
    let fields = screen.fields();
    fields.as_slice().get(number as usize - 1).copied()
}

/// The keys that bring the cursor to the first cell of a field and make all its cells 00, by its number: fields count
/// from 1, in the order of their starts. `None` where there is no such field.
///
/// In a field that keys don't enter the first Delete is refused, with the cursor in the field.
pub fn field_start_keys(screen: &Screen, number: u16) -> Option<KeyRuns>
    ensures { option_map (λ r. r.items) result
        ≡ option_map (Spec.emptying_runs screen.now.cursor)
        (Spec.numbered_field screen.now number) }
{
    let field = numbered_field(screen, number)?;
    let mut runs = keys_to(screen, field.start);
    push_erasing(&mut runs, &field, field.length);
    Some(runs)
}
