//! What is printed of a sender's bytes: checks of them, and their items.
ghost use Rattle.ws_text.specs.Printed.{IsPrinted};
ghost use Rattle.ws_program.specs.Actions.{IsCarriedOut};
ghost use Rattle.ws_program.specs.AllTold.{show_all_printing};
ghost use Rattle.ws_program.specs.Answering.{of_bytes, sent_printing};
ghost use Rattle.ws_program.specs.Tellings.{told_printing};
ghost use Rattle.ws_program.specs.Views.{in_look};

use crate::all_told::FileHead;
use crate::check_all::check_all_to;
use crate::show::show_body_to;
use crate::show_all::{show_lines, show_objects};
use crate::shown::Shown;
use crate::stream_bytes::bytes_of;
use crate::words::{ShowForm, StreamForm};
use std::alloc::Global;
use std::num::NonZeroU16;
use ws_code::{Fault, Sink};
use ws_extended::{ExtendedAnswers, ExtendedCommands};
use ws_printing::{Look, check_to};
use ws_script::{RunFault, Sender};
use ws_stream::{Answers, Commands};
use ws_text::Listed;

/// What is told of bytes.
#[derive(Clone, Copy)]
pub(crate) enum Telling<'a> {
    /// The line of a check, in pieces of this size.
    Check(NonZeroU16),
    /// A line for each refusal and a last one, each after this name where there is one.
    CheckAll(Option<&'a str>),
    /// Their items, and the screen that they make.
    Show(Look),
    /// The same where records may be refused.
    ShowAll(ShowForm),
}

/// Writes what is told of the bytes that an input tells, as those of a sender.
///
/// # Errors
///
/// As `bytes_of` has it, and then nothing was written; else as `check_to`, `check_all_to`, `show_body_to`, `show_lines`
/// and `show_objects`.
pub(crate) fn tell_input<S: Sink>(
    alloc: Global,
    form: StreamForm,
    input: &[u8],
    telling: Telling<'_>,
    from: Sender,
    sink: &mut S,
) -> Result<bool, RunFault>
    ensures { IsCarriedOut S.writer sink.old sink.new
        (of_bytes form (sent_printing from telling.entry) input.now) result }
{
    let bytes = bytes_of(alloc, form, input)?;
    Ok(tell_sent(alloc, bytes.as_slice(), telling, from, sink)?)
}

// The same of bytes.
fn tell_sent<S: Sink>(
    alloc: Global,
    bytes: &[u8],
    telling: Telling<'_>,
    from: Sender,
    sink: &mut S,
) -> Result<bool, Fault>
    ensures { IsPrinted S.writer sink.old sink.new
        (sent_printing from telling.entry bytes.now) result }
{
    match from {
        Sender::Host => tell::<Commands, S>(alloc, bytes, telling, sink),
        Sender::ExtendedHost => tell::<ExtendedCommands, S>(alloc, bytes, telling, sink),
        Sender::Station => tell::<Answers, S>(alloc, bytes, telling, sink),
        Sender::ExtendedStation => tell::<ExtendedAnswers, S>(alloc, bytes, telling, sink),
    }
}

fn tell<B: Shown, S: Sink>(
    alloc: Global,
    bytes: &[u8],
    telling: Telling<'_>,
    sink: &mut S,
) -> Result<bool, Fault>
where
    B::Unit: Listed,
    ensures { IsPrinted S.writer sink.old sink.new (told_printing B.rules B.Unit.lines_of
        (in_look B.view B.Ends) telling.entry bytes.now) result }
{
    match telling {
        Telling::Check(cut) => check_to::<B, S>(alloc, bytes, cut.get(), sink),
        Telling::CheckAll(name) => check_all_to::<B, S>(alloc, bytes, FileHead(name), sink),
        Telling::Show(look) => show_body_to::<B, S>(alloc, look, bytes, sink),
        Telling::ShowAll(shown) => show_all::<B, S>(alloc, bytes, shown, sink),
    }
}

fn show_all<B: Shown, S: Sink>(
    alloc: Global,
    bytes: &[u8],
    shown: ShowForm,
    sink: &mut S,
) -> Result<bool, Fault>
where
    B::Unit: Listed,
    ensures { IsPrinted S.writer sink.old sink.new (show_all_printing B.rules B.Unit.lines_of
        (in_look B.view B.Ends) shown bytes.now) result }
{
    match shown {
        ShowForm::Lines(look) => show_lines::<B, S>(alloc, look, bytes, sink),
        ShowForm::Objects => show_objects::<B, S>(alloc, bytes, sink),
    }
}
