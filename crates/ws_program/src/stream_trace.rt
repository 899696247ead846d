//! Two streams without times, a file for each, as one dialogue.
ghost use Rattle.std.specs.Prelude.{◌≡◌, ◌++◌, ◌∷◌, [], List as Seq, IfOk, IfErr, OnOk};
ghost use Rattle.ws_printing.specs.Printouts.{printout};
ghost use Rattle.ws_trace.specs.declared.piece.Piece.{Piece as APiece};
ghost use Rattle.ws_program.specs.FileChecks.{IsUnfound};
ghost use Rattle.ws_program.specs.StreamBytes.{AreBytesOf, IsFormFault};
ghost use Rattle.ws_program.specs.StreamTraces as Spec;

use crate::command_fault::CommandFault;
use crate::file_fault::of_file;
use crate::hex_text::hex_bytes;
use crate::input::read_input;
use crate::program::hand_on_last;
use crate::traced::{add, put_pieces};
use std::alloc::Global;
use std::fs::File;
use std::rt::Files;
use ws_code::Sink;
use ws_printing::BufferedSink;
use ws_script::{OpenStreams, RunFault, ToldFault};
use ws_trace::{Piece, TraceForm, TracedEnd};

/// To tell what both ends sent by a file for each, without times: hex text, or with `raw` the bytes. An end without a
/// file sent nothing. The form has no times.
#[derive(Clone, Copy, Debug, PartialEq, Eq)]
pub struct StreamTrace<'a> {
    pub host: Option<&'a str>,
    pub station: Option<&'a str>,
    pub raw: bool,
    pub form: TraceForm,
}

/// Writes the dialogue of these files' streams: true where nothing in it is refused, and no end's stream ends too
/// early. Standard output may have been closed when the program began.
///
/// # Errors
///
/// The fault of the first file that can't be read or has another form, the host's before the station's, with its name,
/// and then nothing was written. `Unwritten` where the sink failed or standard output was closed, `Told` with `Memory`
/// where a growth was refused.
pub(crate) fn trace_streams<R: AllocGlobal + Files<File = File> + Input, S: Sink>(
    rt: &R,
    asked: StreamTrace<'_>,
    streams: OpenStreams,
    sink: &mut BufferedSink<S>,
) -> Result<bool, CommandFault>
    requires empty { sink.old.held ≡ [] }
    ensures done { IfOk result (Spec.HasTraced
        (printout S.writer sink.old.sink sink.new.sink) streams.output asked.entry) }
    ensures fault { IfErr result (Spec.IsFaultOfTrace
        (printout S.writer sink.old.sink sink.new.sink) streams.output asked.entry) }
{
    let mut pieces = Vec::new(rt.alloc());
    add_end(rt, TracedEnd::Host, asked.host, asked.raw, &mut pieces)?;
    add_end(
        rt,
        TracedEnd::Station,
        asked.station,
        asked.raw,
        &mut pieces,
    )?;
    let outcome = put_pieces(rt.alloc(), pieces.as_slice(), asked.form, sink);
    match hand_on_last(outcome, streams.output, sink) {
        Ok(accepted) => Ok(accepted),
        Err(fault) => Err(told(fault)),
    }
}

// Adds the piece of an end, where a file is named for it.
fn add_end<R: AllocGlobal + Files<File = File> + Input>(
    rt: &R,
    end: TracedEnd,
    file: Option<&str>,
    raw: bool,
    pieces: &mut Vec<Piece>,
) -> Result<(), CommandFault>
    ensures added { OnOk result ((more : Seq APiece) × Spec.ArePiecesOfEnd raw end file.entry more
        × (pieces.new.items ≡ pieces.old.items ++ more)) }
    ensures fault { IfErr result (Spec.IsFaultOfEnd raw file.entry) }
{
    let Some(name) = file else {
        return Ok(());
    };
    match add_file(rt, end, name, raw, pieces) {
        Ok(()) => Ok(()),
        Err(fault) => Err(of_file(rt, name, fault)),
    }
}

// Adds the piece that an end's file has.
fn add_file<R: AllocGlobal + Files<File = File> + Input>(
    rt: &R,
    end: TracedEnd,
    file: &str,
    raw: bool,
    pieces: &mut Vec<Piece>,
) -> Result<(), RunFault>
    ensures added { OnOk result ((piece : APiece) × Spec.IsPieceOfEnd raw end piece
        × (pieces.new.items ≡ pieces.old.items ++ piece ∷ [])) }
    ensures fault { IfErr result (IsUnfound (Spec.form_of raw)) }
{
    let input = read_input(rt, Some(file))?;
    let bytes = bytes_in(rt.alloc(), input, raw)?;
    let piece = Piece {
        milliseconds: 0,
        sender: end,
        bytes,
    };
    Ok(add(pieces, piece)?)
}

// The bytes that an input tells. Raw ones are its own, which aren't copied.
fn bytes_in(alloc: Global, input: Vec<u8>, raw: bool) -> Result<Vec<u8>, RunFault>
    ensures ok { IfOk result (λ bytes. AreBytesOf (Spec.form_of raw) bytes.items input.items) }
    ensures fault { IfErr result (IsFormFault (Spec.form_of raw) input.items) }
{
    if raw {
        return Ok(input);
    }
    Ok(hex_bytes(alloc, input.as_slice())?)
}

// A fault of printing, as it is told.
fn told(fault: RunFault) -> CommandFault
    ensures { result ≡ Spec.told_untimed fault }
{
    match fault {
        RunFault::Write => CommandFault::Unwritten,
        _ => CommandFault::Told(ToldFault::Run(fault)),
    }
}
