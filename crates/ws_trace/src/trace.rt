//! The dialogue of pieces that crossed a connection, and its text.
ghost use Rattle.std.specs.Prelude.{◌≡◌, ◌⊎◌, IfOk, IfErr};
ghost use Rattle.ws_code.specs.Device.{FailedWithin, WentOut};
ghost use Rattle.ws_trace.specs.Dialogues.{IsDialogue, IsTooLong};
ghost use Rattle.ws_trace.specs.DialogueText.{dialogue_text};
ghost use Rattle.ws_trace.specs.Reading.{IsCountFault};
ghost use Rattle.ws_trace.specs.TraceText as Spec;
ghost use Rattle.ws_trace.specs.declared.dialogue.Dialogue.{Dialogue as ADialogue};

use crate::piece::{first_time, stream_of};
use crate::trace_text::{Streams, put_dialogue};
use crate::tracer::Tracer;
use crate::{Dialogue, Piece, TraceForm, TracedEnd};
use std::alloc::Global;
use ws_code::{Fault, Sink};
use ws_extended::{ExtendedAnswers, ExtendedCommands};
use ws_text::Output;

/// The dialogue of pieces that crossed a connection: each item and each refusal of either end, in the order in which
/// their last bytes came.
///
/// # Errors
///
/// `Memory` where a growth was refused; `Failed` where an end sent more than 18,446,744,073,709,551,614 bytes.
pub fn dialogue_of(alloc: Global, pieces: &[Piece]) -> Result<Dialogue, Fault>
    ensures dialogue { IfOk result (IsDialogue pieces.now) }
    ensures fault { IfErr result (IsCountFault (IsTooLong pieces.now)) }
{
    let mut host = Tracer::<ExtendedCommands>::new(alloc);
    let mut station = Tracer::<ExtendedAnswers>::new(alloc);
    let mut entries = Vec::new(alloc);
    for piece in pieces {
        let bytes = piece.bytes.as_slice();
        match piece.sender {
            TracedEnd::Host => host.take_all(piece.milliseconds, bytes, &mut entries)?,
            TracedEnd::Station => station.take_all(piece.milliseconds, bytes, &mut entries)?,
        }
    }
    let (host, station) = (host.finish(), station.finish());
    Ok(Dialogue {
        entries,
        host,
        station,
    })
}

/// Writes the dialogue of pieces that crossed a connection in a form, and what there was of each end: true where nothing
/// is refused, and no end's stream ends too early.
///
/// # Errors
///
/// As `dialogue_of`, and then nothing was written; `Write` where the sink failed.
pub fn trace_to<S: Sink>(
    alloc: Global,
    pieces: &[Piece],
    form: TraceForm,
    sink: &mut S,
) -> Result<bool, Fault>
    ensures traced { IfOk result (λ accepted. (dialogue : ADialogue)
        × IsDialogue pieces.now dialogue × (accepted ≡ Spec.is_unrefused dialogue)
        × WentOut S.writer sink.old sink.new (dialogue_text form pieces.now dialogue)) }
    ensures fault { IfErr result (λ fault. ((fault ≡ Fault.Write) × ((dialogue : ADialogue)
        × IsDialogue pieces.now dialogue
        × FailedWithin S.writer sink.old sink.new (dialogue_text form pieces.now dialogue)))
        ⊎ (IsCountFault (IsTooLong pieces.now) fault × (sink.new ≡ sink.old))) }
{
    let dialogue = dialogue_of(alloc, pieces)?;
    let host = stream_of(alloc, pieces, TracedEnd::Host)?;
    let station = stream_of(alloc, pieces, TracedEnd::Station)?;
    let streams = Streams {
        form,
        begun: first_time(pieces),
        host: host.as_slice(),
        station: station.as_slice(),
    };
    match put_dialogue(sink, Output::Open, &dialogue, streams) {
        Output::Open => Ok(dialogue.is_unrefused()),
        Output::Failed => Err(Fault::Write),
    }
}
