//! A line of a script for a station.
ghost use Rattle.std.specs.Prelude.{◌≢◌, [], string_bytes, IfOk, IfErr};
ghost use Rattle.ws_script.specs.lines.ConnectLines as Spec;
ghost use Rattle.ws_script.specs.lines.ConnectLines.{station_language};
ghost use Rattle.ws_printing.specs.script.ScriptFaults.{IsLineFault};

use crate::lines::live_line::LiveLine;
use crate::lines::report_words::{read_note, read_placed, read_row, read_span};
use crate::lines::script_stroke::ScriptStroke;
use crate::lines::stroke_words::{read_cell, read_filling, read_keys};
use crate::lines::text_line::{TextLine, read_line};
use crate::lines::wire_words::read_milliseconds;
use std::alloc::Global;
use ws_code::{Address, List};
use ws_printing::{NamedKey, ScriptFault, StationReport, named_key, split_word};

/// A line of a script for a station at a host, whose display has keys of this type.
#[derive(Drop)]
pub enum StationLine<Q> {
    /// An empty line or a comment.
    Nothing,
    /// The keys are pressed one after another.
    Press(List<Q>),
    /// Keys are pressed by the screen, up to the first that isn't taken.
    Stroke(ScriptStroke<Q>),
    /// The station takes what the host sends, until this holds.
    Await(Awaited),
    /// The fields are printed.
    Fields,
    /// The screen is printed.
    Show,
    /// What this asks for is printed.
    Report(StationReport),
    /// What has come is taken, and nothing is printed. No line of a script means it: it is carried out while a line is
    /// waited for.
    Meanwhile,
    /// A line that is bad for this cause, which is told.
    Bad(String),
}

/// What a station waits for.
#[derive(Drop)]
pub enum Awaited {
    /// It is the operator's turn: in the profile, the keyboard is unlocked.
    Turn,
    /// One record more was applied.
    Record,
    /// Some row shows this text.
    Text(String),
    /// This text begins at this cell, and ends in its row.
    At(Address, String),
    /// Nothing has come for so many milliseconds.
    Quiet(u32),
}

impl<Q: NamedKey> LiveLine for StationLine<Q> {
    ghost language = { station_language Q.words };

    fn opens(_line: &[u8]) -> bool {
        false
    }

    fn read(alloc: Global, line: &[u8], inside: &[u8]) -> Result<Self, ScriptFault> {
        if !inside.is_empty() {
            return Err(ScriptFault::Line(1));
        }
        read_line(alloc, line)
    }

    fn bad(cause: String) -> Self {
        StationLine::Bad(cause)
    }

    fn meanwhile() -> Option<Self> {
        Some(StationLine::Meanwhile)
    }
}

impl<Q: NamedKey> TextLine for StationLine<Q> {
    ghost means = { Spec.MeansStationLine Q.words };

    ghost begun = { Spec.IsTextWait };

    fn nothing() -> Self {
        StationLine::Nothing
    }

    fn of_word(word: &str) -> Result<Self, ScriptFault> {
        match word {
            "await" => Ok(StationLine::Await(Awaited::Turn)),
            "erase" => Ok(StationLine::Stroke(ScriptStroke::EraseEof)),
            "newline" => Ok(StationLine::Stroke(ScriptStroke::NewLine)),
            "fields" => Ok(StationLine::Fields),
            "show" => Ok(StationLine::Show),
            "status" => Ok(StationLine::Report(StationReport::Status)),
            _ => Err(ScriptFault::Line(1)),
        }
    }

    fn of_command(
        alloc: Global,
        _line: &str,
        command: &str,
        words: &str,
    ) -> Result<Self, ScriptFault> {
        match command {
            "type" => Ok(StationLine::Press(read_keys(alloc, words, false)?)),
            "insert" => Ok(StationLine::Press(read_keys(alloc, words, true)?)),
            "key" => Ok(StationLine::Press(named_key(alloc, words)?)),
            "await" => Ok(StationLine::Await(read_awaited(alloc, words)?)),
            "cursor" => match read_cell(words) {
                Some(cell) => Ok(StationLine::Stroke(ScriptStroke::Cursor(cell))),
                None => Err(ScriptFault::Line(1)),
            },
            "field" => Ok(StationLine::Stroke(ScriptStroke::Fill(read_filling(alloc, words)?))),
            "cells" => match read_row(words) {
                Some(cell) => Ok(StationLine::Report(StationReport::Cells(cell))),
                None => Err(ScriptFault::Line(1)),
            },
            "show" => match read_span(words) {
                Some(span) => Ok(StationLine::Report(StationReport::Text(span))),
                None => Err(ScriptFault::Line(1)),
            },
            "note" => Ok(StationLine::Report(StationReport::Note(read_note(alloc, words)?))),
            _ => Err(ScriptFault::Line(1)),
        }
    }
}

// What is waited for: a record, quiet, or a text of one character at least, anywhere or at a cell.
fn read_awaited(alloc: Global, words: &str) -> Result<Awaited, ScriptFault>
    ensures awaited { IfOk result (Spec.IsAwaited words.now) }
    ensures fault { IfErr result (IsLineFault (Spec.IsAwaited words.now)
        (Spec.IsTextAwaited words.now)) }
{
    let Some((kind, rest)) = split_word(words) else {
        return match words {
            "record" => Ok(Awaited::Record),
            _ => Err(ScriptFault::Line(1)),
        };
    };
    match kind {
        "text" => Ok(Awaited::Text(read_text(alloc, rest)?)),
        "at" => match read_placed(rest) {
            Some(placed) => Ok(Awaited::At(placed.0, read_text(alloc, placed.1)?)),
            None => Err(ScriptFault::Line(1)),
        },
        "quiet" => match read_milliseconds(rest) {
            Some(time) => Ok(Awaited::Quiet(time)),
            None => Err(ScriptFault::Line(1)),
        },
        _ => Err(ScriptFault::Line(1)),
    }
}

// A text of one character at least.
fn read_text(alloc: Global, text: &str) -> Result<String, ScriptFault>
    ensures text { IfOk result (λ read. Spec.IsSomeText text.now (string_bytes read)) }
    ensures fault { IfErr result (IsLineFault (Spec.IsSomeText text.now) (text.now ≢ [])) }
{
    if text.is_empty() {
        return Err(ScriptFault::Line(1));
    }
    match String::from_str(alloc, text) {
        Ok(text) => Ok(text),
        Err(_) => Err(ScriptFault::Memory),
    }
}
