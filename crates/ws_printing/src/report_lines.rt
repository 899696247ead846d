//! The lines that tell a station's state, its fields and what is on its screen.
ghost use Rattle.std.specs.Prelude.{◌≡◌, ◌≤◌, ◌<◌, ◌∷◌, [], List, ℕ, IfSome, position};
ghost use Rattle.hex.specs.Hex.{encode_upper};
ghost use Rattle.ws_printing.specs.FieldLines as Fields;
ghost use Rattle.ws_printing.specs.ReportLines as Spec;
ghost use Rattle.ws_screen.specs.ScreenParts.{holds};
ghost use Rattle.ws_text.specs.Printing.{Prints};

use crate::characters::{AfterBlank, Characters, without_last_blanks};
use crate::screen_lines::lock_name;
use crate::shown_on_page::show_cells_on;
use crate::station_report::{Span, StationReport, StationStatus};
use ws_code::{Address, CELLS, COLUMNS, CodePage, ROWS, Sink};
use ws_screen::{Field, MAX_FIELDS, Screen, Shown};
use ws_text::{Bytes, Cell, EachAs, Hex, Number, Output, Text, TextAs, texts};

/// Writes what a report tells of a station whose text is on a page.
pub fn put_report<O: Sink>(
    out: &mut O,
    output: Output,
    page: CodePage,
    station: StationStatus<'_>,
    report: &StationReport,
) -> Output
    ensures { (text : List ℕ)
        × Spec.IsReportText page (Spec.reported_by station.entry) report.now text
        × Prints O.writer out.old out.new output result text }
{
    match report {
        StationReport::Status => put_status(out, output, station),
        StationReport::Cells(cell) => put_cells(out, output, station.screen, *cell),
        StationReport::Text(span) => put_span(out, output, page, station.screen, *span),
        StationReport::Note(note) => put_note(out, output, note.as_slice()),
    }
}

fn put_status<O: Sink>(out: &mut O, output: Output, station: StationStatus<'_>) -> Output
    ensures { Prints O.writer out.old out.new output result
        (Spec.status_line (Spec.reported_by station.entry)) }
{
    let screen = station.screen;
    texts!(
        "status ",
        lock_name(screen.locked()),
        ready_name(station.is_ready),
        Cell(screen.cursor()),
        FieldNumber(screen),
        " records ",
        Number(station.records),
        " bytes ",
        Number(station.taken),
        "\n"
    )
    .put_to(out, output)
}

fn ready_name(is_ready: bool) -> &'static str
    ensures { result.now ≡ Spec.ready_name is_ready }
{
    if is_ready { " ready " } else { " negotiating " }
}

// The number of the field that holds the cursor, counted from 1, where one does.
#[derive(Clone, Copy)]
struct FieldNumber<'a>(&'a Screen);

impl Text for FieldNumber<'_> {
    ghost text = { λ s. Spec.field_name (position (λ f. holds f s.0.now.cursor) s.0.now.fields) };

    fn put_to<S: Sink>(&self, sink: &mut S, output: Output) -> Output {
        match field_number(self.0) {
            None => output,
            Some(index) => texts!(" field ", Number(index as u64 + 1)).put_to(sink, output),
        }
    }
}

// The index of the field that holds the cursor.
fn field_number(screen: &Screen) -> Option<usize>
    ensures value { result ≡ position (λ f. holds f screen.now.cursor) screen.now.fields }
    ensures few { IfSome result (λ i. i < MAX_FIELDS) }
{
    let fields = screen.fields();
    let cursor = screen.cursor();
    fields
        .as_slice()
        .iter()
        .position(|field| has_cell(field, cursor))
}

// Whether a cell is one of the field's.
fn has_cell(field: &Field, cell: Address) -> bool
    ensures { result ≡ holds field.now cell }
{
    let (start, place) = (u32::from(field.start.place()), u32::from(cell.place()));
    start <= place && place < start + u32::from(field.length)
}

// Writes what a row's cells hold, and the attributes under which they show: of the row in which a cell stands.
fn put_cells<O: Sink>(out: &mut O, output: Output, screen: &Screen, cell: Address) -> Output
    ensures { Prints O.writer out.old out.new output result
        (Spec.cells_line screen.now.cells cell) }
{
    let number = cell.row();
    let shown = screen.row(number);
    texts!(
        "cells ",
        Number(number as u64),
        " ",
        Hex(row_bytes(screen, number)),
        " ",
        EachAs(&shown, Attributes),
        "\n"
    )
    .put_to(out, output)
}

/// What the cells of a row hold.
pub fn row_bytes(screen: &Screen, row: u8) -> &[u8]
    requires low { 1 ≤ row }
    requires high { row ≤ ROWS }
    ensures { result.now ≡ Spec.row_bytes screen.now.cells row }
{
    screen.known();
    let columns = usize::from(COLUMNS);
    let first = (usize::from(row) - 1) * columns;
    &screen.cells()[first..first + columns]
}

// The sense of a cell as its attribute in hex.
#[derive(Clone, Copy)]
struct Attributes;

impl TextAs<Attributes> for Shown {
    ghost text_as = { λ _ s. encode_upper (s.attribute ∷ []) };

    fn put_as<S: Sink>(&self, _sense: &Attributes, sink: &mut S, output: Output) -> Output {
        Hex(&[self.attribute.byte()]).put_to(sink, output)
    }
}

// Writes what cells show on a page, without the blanks at its end: from one on so many, or up to the last of the screen.
fn put_span<O: Sink>(
    out: &mut O,
    output: Output,
    page: CodePage,
    screen: &Screen,
    span: Span,
) -> Output
    ensures { Prints O.writer out.old out.new output result
        (Spec.span_line page screen.now.cells span) }
{
    let mut all = [Shown::default(); CELLS as usize];
    let shown = show_from(page, screen, span.at, span.count, &mut all);
    texts!(Characters(without_last_blanks(shown)), "\n").put_to(out, output)
}

/// Writes a note.
pub fn put_note<O: Sink>(out: &mut O, output: Output, note: &[u8]) -> Output
    ensures { Prints O.writer out.old out.new output result (Spec.note_line note.now) }
{
    texts!(Bytes(note), "\n").put_to(out, output)
}

/// Writes a line for each field: its first cell, its length and its format word, and the text that it shows on a page,
/// where it shows any, without the blanks at its end.
pub fn put_field_lines<O: Sink>(
    out: &mut O,
    output: Output,
    page: CodePage,
    screen: &Screen,
) -> Output
    ensures { (lines : List ℕ) × Fields.AreFieldLines page screen.now lines
        × Prints O.writer out.old out.new output result lines }
{
    let fields = screen.fields();
    EachAs(fields.as_slice(), OfScreen(page, screen)).put_to(out, output)
}

// The sense of a field as a line, by the page and the screen that it is of.
#[derive(Clone, Copy)]
struct OfScreen<'a>(CodePage, &'a Screen);

impl TextAs<OfScreen<'_>> for Field {
    ghost text_as = { λ on field. Fields.field_line on.0 on.1.now.cells field };

    fn put_as<S: Sink>(&self, on: &OfScreen, sink: &mut S, output: Output) -> Output {
        let mut all = [Shown::default(); CELLS as usize];
        let shown = show_from(on.0, on.1, self.start, self.length, &mut all);
        texts!(
            "field ",
            Cell(self.start),
            " ",
            Number(self.length as u64),
            " ",
            Hex(&self.format.value().to_be_bytes()),
            AfterBlank(shown),
            "\n"
        )
        .put_to(sink, output)
    }
}

// What cells show on a page: from one on so many, or up to the last of the screen.
fn show_from<'a>(
    page: CodePage,
    screen: &Screen,
    first: Address,
    count: u16,
    all: &'a mut [Shown; CELLS as usize],
) -> &'a [Shown]
    ensures { result.now ≡ Fields.shown_from page screen.now.cells first count }
{
    let shown = &mut all[..usize::from(count.min(CELLS - first.place()))];
    show_cells_on(page, screen, first, shown);
    shown
}
