//! The lines of a body as an array of strings.
ghost use Rattle.std.specs.Prelude.{◌≡◌};
ghost use Rattle.ws_json.specs.JsonStrings.{json_lines, line_strings};
ghost use Rattle.ws_json.specs.LineStrings as Spec;
ghost use Rattle.ws_text.specs.Printing.{Prints};

use crate::quoted::InString;
use ws_code::{DeviceFailed, Sink};
use ws_text::{Listed, Output, Text, TextAs, put_text};

/// The lines of a body as an array of strings.
#[derive(Clone, Copy)]
pub(crate) struct LineArray<'a, U>(pub(crate) &'a [U]);

impl<U: Listed> Text for LineArray<'_, U> {
    ghost text = { λ array. json_lines (U.lines_of array.0.now) };

    fn put_to<S: Sink>(&self, sink: &mut S, output: Output) -> Output {
        let output = put_text(sink, output, "[");
        let output = put_strings(sink, output, self.0);
        put_text(sink, output, "]")
    }
}

// Writes the lines of a body as strings, with commas between them.
fn put_strings<S: Sink, U: Listed>(sink: &mut S, output: Output, units: &[U]) -> Output
    ensures { Prints S.writer sink.old sink.new output result
        (line_strings (U.lines_of units.now)) }
{
    let mut lines = LineStrings {
        sink,
        output,
        left_out: None,
    };
    let _ = U::put_body(&mut lines, Output::Open, units);
    let LineStrings {
        sink,
        output,
        left_out,
    } = lines;
    put_text(sink, output, string_end(left_out))
}

// A sink for lines, which go on to another sink as strings.
#[derive(Drop)]
struct LineStrings<'a, S> {
    sink: &'a mut S,
    output: Output,
    // How many bytes of the line are still left out; `None` before the first line.
    left_out: Option<u8>,
}

impl<S: Sink> Sink for LineStrings<'_, S> {
    ghost use Rattle.ws_json.specs.LineStrings.{passing_writer};

    ghost writer = { passing_writer S.writer };

    fn write(&mut self, bytes: &[u8]) -> Result<usize, DeviceFailed> {
        let Some(byte) = bytes.first() else {
            return Ok(0);
        };
        let left_out = self.left_out;
        self.output = put_part(self.sink, self.output, left_out, *byte);
        self.left_out = left_after(left_out, *byte);
        Ok(1)
    }
}

// Writes what goes on for a byte of the lines.
fn put_part<S: Sink>(sink: &mut S, output: Output, left_out: Option<u8>, byte: u8) -> Output
    ensures { Prints S.writer sink.old sink.new output result (Spec.string_part left_out byte) }
{
    if byte == b'\n' {
        return put_text(sink, output, string_begin(left_out));
    }
    match left_out {
        Some(0) => byte.put_as(&InString, sink, output),
        _ => output,
    }
}

// What goes on for an LF.
fn string_begin(left_out: Option<u8>) -> &'static str
    ensures { result.now ≡ Spec.string_begin left_out }
{
    match left_out {
        Some(_) => "\",\"",
        None => "\"",
    }
}

// How many bytes are left out after a byte.
fn left_after(left_out: Option<u8>, byte: u8) -> Option<u8>
    ensures { result ≡ Spec.left_after left_out byte }
{
    if byte == b'\n' {
        return Some(2);
    }
    match left_out {
        Some(left) => Some(left.saturating_sub(1)),
        None => None,
    }
}

// What ends the last string, if there is one.
fn string_end(left_out: Option<u8>) -> &'static str
    ensures { result.now ≡ Spec.string_end left_out }
{
    match left_out {
        Some(_) => "\"",
        None => "",
    }
}
