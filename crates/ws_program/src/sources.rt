//! What is told of what a source gives, through a buffer, where standard output may have been closed.
ghost use Rattle.std.specs.Prelude.{◌≡◌, ◌≢◌, ◌⊎◌, [], List, ℕ, None};
ghost use Rattle.ws_printing.specs.Checking.{check_printing};
ghost use Rattle.ws_printing.specs.Printouts.{printout};
ghost use Rattle.ws_printing.specs.SourceChecks.{GaveEnough, FailedBefore};
ghost use Rattle.ws_program.specs.Actions.{IsCarriedOut};
ghost use Rattle.ws_program.specs.Answering.{HasRefusalBy, of_bytes, sender_parts};
ghost use Rattle.ws_program.specs.ShownSources.{IsSourceShown};
ghost use Rattle.ws_program.specs.StreamText.{showing};
ghost use Rattle.ws_program.specs.Streams.{at_output, openly};
ghost use Rattle.ws_program.specs.declared.words.command_line.InputAsked.TheVariants.{Check};
ghost use Rattle.ws_program.specs.declared.words.command_line.StreamForm.TheVariants.{Raw};
ghost use Rattle.ws_text.specs.Printed.{IsPrinted};

use crate::program::{hand_on_last, of_program};
use crate::show::show_source_to;
use std::alloc::Global;
use std::num::NonZeroU16;
use ws_code::{Fault, Sink, Source};
use ws_extended::{ExtendedAnswers, ExtendedCommands};
use ws_printing::{BufferedSink, Look, check_from};
use ws_script::{OpenStreams, RunFault, Sender};
use ws_stream::{Answers, Commands};

/// Writes the line of a check of what the source gives, as those of a sender, and hands on what the buffer before the
/// sink holds. Standard output may have been closed when the program began.
///
/// # Errors
///
/// `Read` where the source failed, and nothing was written; `Write` where the sink did. Where standard output was
/// closed `Write` comes where no other fault does.
pub fn check_source_openly<R: Source, S: Sink>(
    cut: NonZeroU16,
    from: Sender,
    streams: OpenStreams,
    source: &mut R,
    sink: &mut BufferedSink<S>,
) -> Result<bool, RunFault>
    requires empty { sink.old.held ≡ [] }
    // The source failed; or this is done with the bytes that were read, as with a raw input.
    ensures { ((result ≡ Err RunFault.Read) × (sink.new.sink ≡ sink.old.sink)
        × FailedBefore R.reader source.old source.new (HasRefusalBy from))
        ⊎ ((bytes : List ℕ)
        × GaveEnough R.reader source.old source.new (HasRefusalBy from) bytes
        × IsCarriedOut S.writer sink.old.sink sink.new.sink
        (openly streams.output (Check None Raw cut from) bytes) result) }
{
    let checked = check_sender::<R, BufferedSink<S>>(cut.get(), from, source, sink);
    hand_on_last(of_program(checked), streams.output, sink)
}

// The line of a check of what a source gives, as those of a sender.
fn check_sender<R: Source, S: Sink>(
    cut: u16,
    from: Sender,
    source: &mut R,
    sink: &mut S,
) -> Result<bool, Fault>
    requires { cut ≢ 0 }
    // The source failed; or this is printed of the bytes that were read.
    ensures { ((result ≡ Err Fault.Read) × (sink.new ≡ sink.old)
        × FailedBefore R.reader source.old source.new (HasRefusalBy from))
        ⊎ ((bytes : List ℕ)
        × GaveEnough R.reader source.old source.new (HasRefusalBy from) bytes
        × IsPrinted S.writer sink.old sink.new
        (check_printing (sender_parts from).rules bytes) result) }
{
    match from {
        Sender::Host => check_from::<Commands, R, S>(source, cut, sink),
        Sender::ExtendedHost => check_from::<ExtendedCommands, R, S>(source, cut, sink),
        Sender::Station => check_from::<Answers, R, S>(source, cut, sink),
        Sender::ExtendedStation => check_from::<ExtendedAnswers, R, S>(source, cut, sink),
    }
}

/// Writes what is shown of what the source gives, as that of a sender, while it is read, and at the end hands on what
/// the buffer before the sink holds. Standard output may have been closed when the program began.
///
/// # Errors
///
/// `Read` where the source failed, and then the lines of all items before went out; `Memory` where the growth for a
/// unit of the open record was refused; `Write` where the sink failed. Where standard output was closed `Write` comes
/// where no other fault does.
pub fn show_source_openly<R: Source, S: Sink>(
    alloc: Global,
    look: Look,
    from: Sender,
    streams: OpenStreams,
    source: &mut R,
    sink: &mut BufferedSink<S>,
) -> Result<bool, RunFault>
    requires empty { sink.old.held ≡ [] }
    ensures { IsSourceShown R.reader source.old source.new
        (printout S.writer sink.old.sink sink.new.sink)
        (showing (sender_parts from).rules ((sender_parts from).view look))
        (λ printing bytes. IsCarriedOut S.writer sink.old.sink sink.new.sink
        (at_output streams.output (of_bytes Raw printing bytes)) result) }
{
    let shown = show_sender::<R, BufferedSink<S>>(alloc, look, from, source, sink);
    hand_on_last(of_program(shown), streams.output, sink)
}

// What is shown of what a source gives, as that of a sender.
fn show_sender<R: Source, S: Sink>(
    alloc: Global,
    look: Look,
    from: Sender,
    source: &mut R,
    sink: &mut S,
) -> Result<bool, Fault>
    ensures { IsSourceShown R.reader source.old source.new (printout S.writer sink.old sink.new)
        (showing (sender_parts from).rules ((sender_parts from).view look))
        (λ printing bytes. IsPrinted S.writer sink.old sink.new (printing bytes) result) }
{
    match from {
        Sender::Host => show_source_to::<Commands, R, S>(alloc, look, source, sink),
        Sender::ExtendedHost => show_source_to::<ExtendedCommands, R, S>(alloc, look, source, sink),
        Sender::Station => show_source_to::<Answers, R, S>(alloc, look, source, sink),
        Sender::ExtendedStation => show_source_to::<ExtendedAnswers, R, S>(
            alloc, look, source, sink,
        ),
    }
}
