//! The items of a stream as lines, and what they make, where records may be refused; or as objects of JSON.
ghost use Rattle.std.specs.Prelude.{◌≡◌};
ghost use Rattle.ws_text.specs.Printed.{IsPrinted};
ghost use Rattle.ws_text.specs.Printing.{Prints};
ghost use Rattle.ws_program.specs.AllTold.{early_line, early_object, show_all_printing};
ghost use Rattle.ws_program.specs.Views.{in_look};

use crate::all_told::{Way, are_accepted, tell_all};
use crate::shown::Shown;
use crate::words::ShowForm;
use std::alloc::Global;
use ws_code::{Fault, Sink};
use ws_json::put_json_truncated;
use ws_printing::{Look, Verdict, VerdictLine};
use ws_text::{Listed, Output, Text};

/// Writes the items of a stream and its refusals as lines, after each of which the next record is read: true where
/// nothing is refused and the stream may end.
///
/// An item is written and then carried out, or after it stands why it can't be. Last stands in a paint and on a page what
/// the records make that were carried out, and that the stream ends too early where it does.
///
/// # Errors
///
/// `Memory` where a growth was refused, `Failed` where no more bytes can be counted, and then what the bytes before tell
/// went out; `Write` where the sink failed.
pub(crate) fn show_lines<B: Shown, S: Sink>(
    alloc: Global,
    look: Look,
    bytes: &[u8],
    sink: &mut S,
) -> Result<bool, Fault>
where
    B::Unit: Listed,
    ensures { IsPrinted S.writer sink.old sink.new (show_all_printing B.rules B.Unit.lines_of
        (in_look B.view B.Ends) (ShowForm.Lines look) bytes.now) result }
{
    let mut made = B::before_any();
    let (counts, is_whole) = tell_all::<B, S>(alloc, Way::Lines, bytes, &mut made, sink)?;
    let output = B::put_end(sink, Output::Open, look, &made);
    match put_early(sink, output, is_whole, bytes.len()) {
        Output::Open => Ok(are_accepted(counts, is_whole)),
        Output::Failed => Err(Fault::Write),
    }
}

/// Writes the same as objects, without what the records make.
///
/// # Errors
///
/// As `show_lines`.
pub(crate) fn show_objects<B: Shown, S: Sink>(
    alloc: Global,
    bytes: &[u8],
    sink: &mut S,
) -> Result<bool, Fault>
where
    B::Unit: Listed,
    ensures { IsPrinted S.writer sink.old sink.new (show_all_printing B.rules B.Unit.lines_of
        (in_look B.view B.Ends) ShowForm.Objects bytes.now) result }
{
    let mut made = B::before_any();
    let (counts, is_whole) = tell_all::<B, S>(alloc, Way::Objects, bytes, &mut made, sink)?;
    let accepted = are_accepted(counts, is_whole);
    match put_early_object(sink, Output::Open, is_whole, bytes.len()) {
        Output::Open => Ok(accepted),
        Output::Failed => Err(Fault::Write),
    }
}

// Writes the line of a stream of so many bytes that ends too early.
fn put_early<S: Sink>(sink: &mut S, output: Output, is_whole: bool, size: usize) -> Output
    ensures { Prints S.writer sink.old sink.new output result (early_line is_whole size) }
{
    if is_whole {
        return output;
    }
    let size = size as u64;
    VerdictLine(Verdict::Truncated { at: size }, size).put_to(sink, output)
}

// The same as an object.
fn put_early_object<S: Sink>(sink: &mut S, output: Output, is_whole: bool, size: usize) -> Output
    ensures { Prints S.writer sink.old sink.new output result (early_object is_whole size) }
{
    if !is_whole {
        return put_json_truncated(sink, output, "", size as u64);
    }
    output
}
