//! The tables that the program prints: the reasons of refusals, and the keys by their names in scripts.
ghost use Rattle.std.specs.Prelude.{◌≡◌, ◌↔◌, ◌==◌, [], Some, find, flat_map, map, IfOk, IfErr};
ghost use Rattle.ws_code.specs.Reason.{number_of};
ghost use Rattle.ws_code.specs.declared.reason.Reason.{Reason as AReason};
ghost use Rattle.ws_printing.specs.Printouts.{printout};
ghost use Rattle.ws_text.specs.Printing.{Prints};
ghost use Rattle.ws_program.specs.Tables.{after_number, all_reasons, HasPrinted, IsUnprinted};
ghost use Rattle.ws_program.specs.Tables.{key_line, reason_line, table_text};

use crate::command_fault::CommandFault;
use crate::recorded::digit_count;
use ws_code::{Reason, Sink};
use ws_live::hand_on;
use ws_printing::BufferedSink;
use ws_script::aid_named;
use ws_text::{Bytes, EachAs, Hex, Number, Output, Text, TextAs, texts};

/// A table, or a line of one.
#[derive(Clone, Copy, Debug, PartialEq, Eq)]
pub enum Table {
    /// Each reason, by its number.
    Reasons,
    /// The line of this one.
    Reason(Reason),
    /// Each key, by its name in scripts.
    Keys,
}

impl Text for Table {
    ghost text = { table_text };

    fn put_to<S: Sink>(&self, sink: &mut S, output: Output) -> Output {
        match self {
            Table::Reasons => EachAs(&REASONS, Line).put_to(sink, output),
            Table::Reason(reason) => reason.put_as(&Line, sink, output),
            Table::Keys => put_keys(&KEY_NAMES, sink, output),
        }
    }
}

// Writes the lines of keys by their names.
fn put_keys<S: Sink>(names: &[&str], sink: &mut S, output: Output) -> Output
    ensures { Prints S.writer sink.old sink.new output result
        (flat_map key_line (map (λ name. name.now) names.now)) }
{
    EachAs(names, Line).put_to(sink, output)
}

/// Writes a table, and hands on what the buffer before the sink holds: true. Standard output may have been closed when
/// the program began.
///
/// # Errors
///
/// `Unwritten` where it was, and then nothing was written, or where the sink failed.
pub(crate) fn print_table<S: Sink>(
    table: Table,
    has_output: bool,
    sink: &mut BufferedSink<S>,
) -> Result<bool, CommandFault>
    requires empty { sink.old.held ≡ [] }
    ensures done { IfOk result (HasPrinted
        (printout S.writer sink.old.sink sink.new.sink) has_output table) }
    ensures fault { IfErr result (IsUnprinted
        (printout S.writer sink.old.sink sink.new.sink) has_output table) }
{
    if !has_output {
        return Err(CommandFault::Unwritten);
    }
    let output = table.put_to(sink, Output::Open);
    match hand_on(sink, output) {
        Output::Open => Ok(true),
        Output::Failed => Err(CommandFault::Unwritten),
    }
}

// The sense of a value as its line of a table.
#[derive(Clone, Copy)]
struct Line;

impl TextAs<Line> for Reason {
    ghost text_as = { λ _ reason. reason_line reason };

    fn put_as<S: Sink>(&self, _sense: &Line, sink: &mut S, output: Output) -> Output {
        let number = Number(u64::from(self.number()));
        let sentence = Bytes(without_number(self.text().as_bytes()));
        texts!(number, " ", self.name(), sentence, "\n").put_to(sink, output)
    }
}

// A key by its name.
impl TextAs<Line> for &str {
    ghost text_as = { λ _ name. key_line name.now };

    fn put_as<S: Sink>(&self, _sense: &Line, sink: &mut S, output: Output) -> Output {
        match aid_named(self) {
            Some(aid) => texts!(*self, " ", Hex(&[aid.byte()]), "\n").put_to(sink, output),
            None => texts!(*self, "\n").put_to(sink, output),
        }
    }
}

// What stands behind the digits with which a text begins.
fn without_number(text: &[u8]) -> &[u8]
    ensures { result.now ≡ after_number text.now }
{
    text.split_at(digit_count(text)).1
}

/// The reason of this number, where one has it.
pub fn reason_numbered(number: u8) -> Option<Reason>
    ensures { (reason : AReason) → (result ≡ Some reason) ↔ (number_of reason ≡ number) }
{
    first_numbered(number)
}

fn first_numbered(number: u8) -> Option<Reason>
    ensures { result ≡ find (λ reason. number_of reason == number) all_reasons }
{
    REASONS
        .iter()
        .copied()
        .find(|reason| reason.number() == number)
}

const REASONS: [Reason; 44] = [
    Reason::BadCommand,
    Reason::StraySe,
    Reason::BadSub,
    Reason::SubTooLong,
    Reason::LengthBelowHeader,
    Reason::BadType,
    Reason::BadReserved,
    Reason::BadVariableLength,
    Reason::UnknownOpcode,
    Reason::TooLong,
    Reason::TooShort,
    Reason::NoEscape,
    Reason::UnknownCommand,
    Reason::BadAddress,
    Reason::BadSohLength,
    Reason::Resequencing,
    Reason::BadEraseList,
    Reason::BadRepeat,
    Reason::BadFormatByte,
    Reason::StructuredField,
    Reason::AlternateSize,
    Reason::SaveRestore,
    Reason::Roll,
    Reason::ErrorCode,
    Reason::ReadScreen,
    Reason::ReadImmediate,
    Reason::ExtendedAttribute,
    Reason::TransparentData,
    Reason::DisplayStructuredField,
    Reason::TooManyFcws,
    Reason::LeftOutShift,
    Reason::BadAid,
    Reason::EndedInside,
    Reason::BadAnswerByte,
    Reason::BackwardAddress,
    Reason::PastEnd,
    Reason::ZeroLength,
    Reason::FieldPastEnd,
    Reason::FieldOverlap,
    Reason::TableFull,
    Reason::RecordBeforeNegotiation,
    Reason::UnsupportedTerminal,
    Reason::UnaskedAnswer,
    Reason::AnswerMismatch,
];

// Reset is a key of the displays that live hosts use.
const KEY_NAMES: [&str; 46] = [
    "Left",
    "Right",
    "Up",
    "Down",
    "Home",
    "Tab",
    "BackTab",
    "FieldExit",
    "FieldMinus",
    "Dup",
    "Delete",
    "EraseInput",
    "Attention",
    "SystemRequest",
    "Enter",
    "Clear",
    "Help",
    "RollDown",
    "RollUp",
    "Print",
    "RecordBackspace",
    "F1",
    "F2",
    "F3",
    "F4",
    "F5",
    "F6",
    "F7",
    "F8",
    "F9",
    "F10",
    "F11",
    "F12",
    "F13",
    "F14",
    "F15",
    "F16",
    "F17",
    "F18",
    "F19",
    "F20",
    "F21",
    "F22",
    "F23",
    "F24",
    "Reset",
];
