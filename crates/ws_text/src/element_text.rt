//! The lines of a host's elements, and of the parts of a station's answer.
ghost use Rattle.std.specs.Prelude.{◌++◌, codes};
ghost use Rattle.ws_text.specs.AnswerLines as Answer;
ghost use Rattle.ws_text.specs.ItemLines as Shown;
ghost use Rattle.ws_text.specs.Printing.{Prints};

use crate::lined::{Lined, Listed, RunName, put_units};
use crate::output::{
    Output, put_cell, put_hex, put_hex_behind_blank, put_number, put_text, put_words,
};
use ws_code::{Address, Sink};
use ws_stream::{AnswerPart, Element, FieldStart};

impl Lined for Element {
    ghost byte_of = { Shown.put_byte };

    ghost line_of = { Shown.element_line };

    fn byte(&self) -> Option<(RunName, u8)> {
        match self {
            Element::Put(byte) => Some((RunName::Cells, byte.value())),
            _ => None,
        }
    }

    fn put_line<S: Sink>(&self, sink: &mut S, output: Output) -> Output {
        let output = put_text(sink, output, "\n  ");
        put_element(sink, output, self)
    }
}

impl Listed for Element {
    ghost lines_of = { Shown.element_lines };

    fn put_body<S: Sink>(sink: &mut S, output: Output, elements: &[Element]) -> Output {
        put_units(sink, output, elements)
    }
}

// Writes the text of an element, without blanks before it and a line's end.
fn put_element<S: Sink>(sink: &mut S, output: Output, element: &Element) -> Output
    ensures { Prints S.writer sink.old sink.new output result
        (Shown.element_text element.now) }
{
    match element {
        Element::ClearUnit => put_text(sink, output, "CLEAR-UNIT"),
        Element::ClearFormat => put_text(sink, output, "CLEAR-FORMAT"),
        Element::Write { cc1, cc2 } => put_command(sink, output, "WRITE ", *cc1, *cc2),
        Element::ReadInput { cc1, cc2 } => put_command(sink, output, "READ-INPUT ", *cc1, *cc2),
        Element::ReadMdt { cc1, cc2 } => put_command(sink, output, "READ-MDT ", *cc1, *cc2),
        Element::ReadMdtAlternate { cc1, cc2 } => {
            put_command(sink, output, "READ-MDT-ALTERNATE ", *cc1, *cc2)
        }
        Element::Soh(bytes) => {
            let output = put_text(sink, output, "SOH");
            put_hex_behind_blank(sink, output, bytes.as_slice())
        }
        Element::Ra { to, byte } => put_fill(sink, output, "RA ", *to, &[byte.value()]),
        Element::Ea { to, kinds } => put_fill(sink, output, "EA ", *to, kinds.as_slice()),
        Element::Sba(to) => put_place(sink, output, "SBA ", *to),
        Element::Ic(to) => put_place(sink, output, "IC ", *to),
        Element::Mc(to) => put_place(sink, output, "MC ", *to),
        Element::Sf(field) => put_field(sink, output, field),
        Element::Put(byte) => {
            let output = put_text(sink, output, "PUT ");
            put_hex(sink, output, &[byte.value()])
        }
    }
}

// A command's name and its two control characters.
fn put_command<S: Sink>(sink: &mut S, output: Output, name: &str, cc1: u8, cc2: u8) -> Output
    ensures { Prints S.writer sink.old sink.new output result
        (name.now ++ Shown.controls_text cc1 cc2) }
{
    let output = put_text(sink, output, name);
    let output = put_hex(sink, output, &[cc1]);
    let output = put_text(sink, output, " ");
    put_hex(sink, output, &[cc2])
}

/// Writes a name and the cell behind it.
pub(crate) fn put_place<S: Sink>(sink: &mut S, output: Output, name: &str, to: Address) -> Output
    ensures { Prints S.writer sink.old sink.new output result
        (name.now ++ Shown.cell_text to) }
{
    let output = put_text(sink, output, name);
    put_cell(sink, output, to)
}

// Writes a name, the cell behind it, and bytes.
fn put_fill<S: Sink>(sink: &mut S, output: Output, name: &str, to: Address, bytes: &[u8]) -> Output
    ensures { Prints S.writer sink.old sink.new output result
        (name.now ++ Shown.fill_text to bytes.now) }
{
    let output = put_place(sink, output, name, to);
    let output = put_text(sink, output, " ");
    put_hex(sink, output, bytes)
}

// Format and control words where there are any, the attribute, and the length.
fn put_field<S: Sink>(sink: &mut S, output: Output, field: &FieldStart) -> Output
    ensures { Prints S.writer sink.old sink.new output result
        (codes "SF " ++ Shown.field_order_text field.now) }
{
    let output = put_text(sink, output, "SF ");
    let output = put_format(sink, output, field);
    let output = put_words(sink, output, field.controls());
    let output = put_hex(sink, output, &[field.attribute()]);
    let output = put_text(sink, output, " ");
    put_number(sink, output, field.length() as u64)
}

// The format word and a blank, where there is one.
fn put_format<S: Sink>(sink: &mut S, output: Output, field: &FieldStart) -> Output
    ensures { Prints S.writer sink.old sink.new output result
        (Shown.format_text field.now.format) }
{
    match field.format() {
        Some(format) => put_words(sink, output, &[format.value()]),
        None => put_text(sink, output, ""),
    }
}

impl Lined for AnswerPart {
    ghost byte_of = { Answer.part_byte };

    ghost line_of = { Answer.part_line };

    fn byte(&self) -> Option<(RunName, u8)> {
        match self {
            AnswerPart::Byte(byte) => Some((RunName::Fields, byte.value())),
            _ => None,
        }
    }

    fn put_line<S: Sink>(&self, sink: &mut S, output: Output) -> Output {
        let output = put_text(sink, output, "\n  ");
        put_part(sink, output, *self)
    }
}

impl Listed for AnswerPart {
    ghost lines_of = { Answer.part_lines };

    fn put_body<S: Sink>(sink: &mut S, output: Output, parts: &[AnswerPart]) -> Output {
        put_units(sink, output, parts)
    }
}

// Writes the text of a part, without blanks before it and a line's end.
fn put_part<S: Sink>(sink: &mut S, output: Output, part: AnswerPart) -> Output
    ensures { Prints S.writer sink.old sink.new output result (Answer.part_text part) }
{
    match part {
        AnswerPart::Head { cursor, aid } => put_fill(sink, output, "HEAD ", cursor, &[aid.byte()]),
        AnswerPart::At(place) => put_place(sink, output, "AT ", place),
        AnswerPart::Byte(byte) => {
            let output = put_text(sink, output, "BYTES ");
            put_hex(sink, output, &[byte.value()])
        }
    }
}
