//! The lines of a screen.
ghost use Rattle.std.specs.Prelude.{◌≡◌, ◌≤◌, List, ℕ};
ghost use Rattle.ws_code.specs.declared.address.TheConstants.{ROWS as ALL_ROWS};
ghost use Rattle.ws_printing.specs.ScreenLines as Spec;
ghost use Rattle.ws_text.specs.Printing.{Prints};

use crate::characters::{Characters, without_last_blanks};
use crate::colored_cells::ColoredCells;
use crate::look::Look;
use crate::operated_display::OperatedDisplay;
use crate::paint::Paint;
use crate::shown_on_page::row_on;
use ws_code::{ROWS, Sink};
use ws_screen::{Screen, Shown};
use ws_text::{Cell, Number, Output, Text, texts};

/// Writes the lines of a screen.
pub fn put_screen<S: Sink>(sink: &mut S, output: Output, look: Look, screen: &Screen) -> Output
    ensures { (lines : List ℕ) × Spec.IsScreenText look screen.now lines
        × Prints S.writer sink.old sink.new output result lines }
{
    ScreenLines(look, screen).put_to(sink, output)
}

/// Writes the lines of a display: those of its screen, and what is printed behind them.
pub fn put_display<D: OperatedDisplay, S: Sink>(
    sink: &mut S,
    output: Output,
    look: Look,
    display: &D,
) -> Output
    ensures { (lines : List ℕ)
        × Spec.IsDisplayText look (D.does.shown display.now) (D.operated.behind display.now) lines
        × Prints S.writer sink.old sink.new output result lines }
{
    let output = ScreenLines(look, display.screen()).put_to(sink, output);
    display.put_behind(sink, output)
}

/// The lines of a screen: each row that isn't all blank, and what there is beside the rows.
///
/// In colour the same rows are written, cut at the same cells.
#[derive(Clone, Copy)]
pub struct ScreenLines<'a>(pub Look, pub &'a Screen);

impl Text for ScreenLines<'_> {
    ghost text = { λ l. Spec.screen_text l.0 l.1.now };

    fn put_to<S: Sink>(&self, sink: &mut S, output: Output) -> Output {
        texts!("screen\n", Rows(self.0, self.1), StateLine(self.1)).put_to(sink, output)
    }
}

// The lines of all rows.
#[derive(Clone, Copy)]
struct Rows<'a>(Look, &'a Screen);

impl Text for Rows<'_> {
    ghost text = { λ r. Spec.rows_text r.0 r.1.now.cells ALL_ROWS };

    fn put_to<S: Sink>(&self, sink: &mut S, output: Output) -> Output {
        let mut output = output;
        for row in 1..=ROWS {
            output = put_row(sink, output, self.0, self.1, row);
        }
        output
    }
}

// Writes a row's line, if it isn't all blank.
fn put_row<S: Sink>(sink: &mut S, output: Output, look: Look, screen: &Screen, row: u8) -> Output
    requires low { 1 ≤ row }
    requires high { row ≤ ROWS }
    ensures { Prints S.writer sink.old sink.new output result
        (Spec.line_of_row look screen.now.cells row) }
{
    let cells = row_on(look.page, screen, row);
    let shown = without_last_blanks(&cells);
    if shown.is_empty() {
        return output;
    }
    texts!(
        indent(row),
        Number(row as u64),
        " ",
        Painted(look.paint, shown),
        "\n"
    )
    .put_to(sink, output)
}

// What stands before a row's number.
fn indent(row: u8) -> &'static str
    ensures { result.now ≡ Spec.indent row }
{
    if row < 10 { " " } else { "" }
}

// What is printed of cells.
#[derive(Clone, Copy)]
struct Painted<'a>(Paint, &'a [Shown]);

impl Text for Painted<'_> {
    ghost text = { λ p. Spec.painted p.0 p.1.now };

    fn put_to<S: Sink>(&self, sink: &mut S, output: Output) -> Output {
        match self.0 {
            Paint::Plain => Characters(self.1).put_to(sink, output),
            Paint::Color => ColoredCells(self.1).put_to(sink, output),
        }
    }
}

// The cursor, the keyboard's lock, message light and blinking cursor, and the number of fields.
#[derive(Clone, Copy)]
struct StateLine<'a>(&'a Screen);

impl Text for StateLine<'_> {
    ghost text = { λ s. Spec.state_line s.0.now };

    fn put_to<S: Sink>(&self, sink: &mut S, output: Output) -> Output {
        let screen = self.0;
        texts!(
            "cursor ",
            Cell(screen.cursor()),
            ", ",
            lock_name(screen.locked()),
            ", message ",
            on_or_off(screen.message()),
            ", blink ",
            on_or_off(screen.blink()),
            ", fields ",
            Number(screen.field_count() as u64),
            "\n"
        )
        .put_to(sink, output)
    }
}

/// How the keyboard is.
pub fn lock_name(is_locked: bool) -> &'static str
    ensures { result.now ≡ Spec.lock_name is_locked }
{
    if is_locked { "locked" } else { "unlocked" }
}

fn on_or_off(is_on: bool) -> &'static str
    ensures { result.now ≡ Spec.on_or_off is_on }
{
    if is_on { "on" } else { "off" }
}
