//! Recordings of what both ends of a connection sent: their pieces, with their times.
ghost use Rattle.std.specs.Prelude.{◌≡◌, ◌++◌, ◌∷◌, [], IfOk, IfErr, MatchOption, OnOk};
ghost use Rattle.std.specs.Str.Lines.{lines};
ghost use Rattle.ws_program.specs.Actions.{IsCarriedOut};
ghost use Rattle.ws_program.specs.Recorded.{IsOtherLine};
ghost use Rattle.ws_program.specs.Traced.{AreRecorded, IsPieceOf, IsPiecesFault, dialogue_action, number_with, trace_action};
ghost use Rattle.ws_program.specs.Traced.{traced_end as the_end};

use crate::hex_text::hex_bytes;
use crate::recorded::{digit_count, read_piece};
use crate::words::RecordedEnd;
use std::alloc::Global;
use ws_code::Sink;
use ws_script::{RunFault, ScriptFault};
use ws_text::first_line;
use ws_trace::{Piece, TraceForm, TracedEnd, trace_to};

/// Writes the dialogue that a recording has in a form: true where nothing in it is refused, and no end's stream ends too early.
///
/// # Errors
///
/// `Line` where a line is none of a recording, with the number of the first one, `Memory` where a growth was refused, and
/// then nothing was written; `Write` where the sink failed.
pub(crate) fn trace_recording<S: Sink>(
    alloc: Global,
    text: &[u8],
    form: TraceForm,
    sink: &mut S,
) -> Result<bool, RunFault>
    ensures { IsCarriedOut S.writer sink.old sink.new (trace_action form text.now) result }
{
    let pieces = recorded_pieces(alloc, text)?;
    put_pieces(alloc, pieces.as_slice(), form, sink)
}

/// Writes the dialogue of pieces in a form.
///
/// # Errors
///
/// `Memory` where a growth was refused, and then nothing was written; `Write` where the sink failed.
pub(crate) fn put_pieces<S: Sink>(
    alloc: Global,
    pieces: &[Piece],
    form: TraceForm,
    sink: &mut S,
) -> Result<bool, RunFault>
    ensures { IsCarriedOut S.writer sink.old sink.new (dialogue_action form pieces.now) result }
{
    Ok(trace_to(alloc, pieces, form, sink)?)
}

// The pieces that the lines of a recording have.
//
// It answers `Line` where a line has another form, with the number of the first one, and `Memory` where a growth was
// refused.
fn recorded_pieces(alloc: Global, text: &[u8]) -> Result<Vec<Piece>, ScriptFault>
    ensures ok { IfOk result (λ pieces. AreRecorded (lines text.now) pieces.items) }
    ensures fault { IfErr result (IsPiecesFault text.now) }
{
    let mut pieces = Vec::new(alloc);
    let mut rest = text;
    let mut number = 0;
    while !rest.is_empty() {
        let (line, behind) = first_line(rest);
        number += 1;
        match timed_piece(alloc, line)? {
            Some(piece) => add(&mut pieces, piece)?,
            None => return Err(ScriptFault::Line(number)),
        }
        rest = behind;
    }
    Ok(pieces)
}

/// Adds a piece.
///
/// # Errors
///
/// `Memory` where a growth was refused.
pub(crate) fn add(pieces: &mut Vec<Piece>, piece: Piece) -> Result<(), ScriptFault>
    ensures added { OnOk result (pieces.new.items ≡ pieces.old.items ++ piece ∷ []) }
    ensures fault { IfErr result (λ fault. fault ≡ ScriptFault.Memory) }
{
    if pieces.push(piece).is_err() {
        return Err(ScriptFault::Memory);
    }
    Ok(())
}

// The piece that a line has; nothing where it is none of a recording.
fn timed_piece(alloc: Global, line: &[u8]) -> Result<Option<Piece>, ScriptFault>
    ensures piece { IfOk result (λ piece.
        MatchOption piece (IsOtherLine line.now) (IsPieceOf line.now)) }
    ensures fault { IfErr result (λ fault. fault ≡ ScriptFault.Memory) }
{
    let Some(found) = read_piece(line) else {
        return Ok(None);
    };
    let Ok(bytes) = hex_bytes(alloc, found.hex) else {
        return Err(ScriptFault::Memory);
    };
    Ok(Some(Piece {
        milliseconds: number_of(line.split_at(digit_count(line)).0),
        sender: traced_end(found.sender),
        bytes,
    }))
}

fn traced_end(end: RecordedEnd) -> TracedEnd
    ensures { result ≡ the_end end }
{
    match end {
        RecordedEnd::Host => TracedEnd::Host,
        RecordedEnd::Station => TracedEnd::Station,
    }
}

// The number that digits write. It stays at the highest one that it can hold.
fn number_of(digits: &[u8]) -> u64
    ensures { result ≡ number_with 0 digits.now }
{
    let mut number = 0u64;
    for digit in digits {
        let value = u64::from(digit.saturating_sub(b'0'));
        number = number.saturating_mul(10).saturating_add(value);
    }
    number
}
