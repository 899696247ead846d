//! Recordings of what both ends of a connection sent: which bytes one of them sent.
ghost use Rattle.std.specs.Prelude.{◌≡◌, ◌++◌, List, ℕ, true, IfOk, IfErr, MatchOption, not};
ghost use Rattle.std.specs.Char.{is_ascii_digit};
ghost use Rattle.std.specs.List.{position_or_len};
ghost use Rattle.ws_program.specs.HexText.{IsHexOf};
ghost use Rattle.ws_program.specs.Recorded.{IsSentIn, IsRecordingFault, IsOtherLine, IsTime, piece_of, end_word};
ghost use Rattle.ws_program.specs.declared.words.command_line.RecordedEnd.{RecordedEnd as AnEnd};

use crate::hex_text::{hex_bytes, is_hex};
use crate::words::RecordedEnd;
use std::alloc::Global;
use ws_script::ScriptFault;
use ws_text::first_line;

/// What an end sent by the lines of a recording, `MILLISECONDS host|station HEX` for each piece: its pieces, one behind
/// another. Those of the other end are left out.
///
/// # Errors
///
/// `Line` where a line has another form, with the number of the first one. `Memory` where a growth was refused, and no
/// line has: all lines are read all the same.
pub fn recorded_bytes(alloc: Global, text: &[u8], end: RecordedEnd) -> Result<Vec<u8>, ScriptFault>
    ensures ok { IfOk result (λ bytes. IsSentIn end bytes.items text.now) }
    ensures fault { IfErr result (IsRecordingFault end text.now) }
{
    let mut sent = Vec::new(alloc);
    let mut is_whole = true;
    let mut rest = text;
    let mut number = 0;
    while !rest.is_empty() {
        let (line, behind) = first_line(rest);
        number += 1;
        match read_piece(line) {
            Some(piece) => is_whole &= add_piece(alloc, &mut sent, piece, end),
            None => return Err(ScriptFault::Line(number)),
        }
        rest = behind;
    }
    if is_whole {
        Ok(sent)
    } else {
        Err(ScriptFault::Memory)
    }
}

// A piece that crossed the connection.
#[derive(Clone, Copy)]
pub(crate) struct Piece<'a> {
    pub(crate) sender: RecordedEnd,
    // Its bytes as hex text.
    pub(crate) hex: &'a [u8],
}

// Adds a piece to what an end sent, where that sent it: false where a growth was refused.
fn add_piece(alloc: Global, sent: &mut Vec<u8>, piece: Piece<'_>, end: RecordedEnd) -> bool
    ensures { result ≡ true → (bytes : List ℕ) → IsHexOf bytes piece.entry.hex.now
        → sent.new.items ≡ sent.old.items ++ piece_of end piece.entry.sender bytes }
{
    if piece.sender != end {
        return true;
    }
    match hex_bytes(alloc, piece.hex) {
        Ok(bytes) => sent.extend_from_slice(bytes.as_slice()).is_ok(),
        Err(_) => false,
    }
}

// The piece that a line has; nothing where it is none of a recording.
pub(crate) fn read_piece(line: &[u8]) -> Option<Piece<'_>>
    ensures { MatchOption result (IsOtherLine line.now) (λ piece. (milliseconds : List ℕ)
        × IsTime milliseconds
        × (line.now ≡ milliseconds ++ (end_word piece.sender ++ piece.hex.now))
        × ((bytes : List ℕ) × IsHexOf bytes piece.hex.now)) }
{
    let digits = digit_count(line);
    let piece = behind_time(line.split_at(digits).1)?;
    if digits == 0 {
        return None;
    }
    if is_hex(piece.hex) { Some(piece) } else { None }
}

// Who sent a piece, and its bytes as hex text, in what stands behind its time.
fn behind_time(rest: &[u8]) -> Option<Piece<'_>>
    ensures { MatchOption result
        ((sender : AnEnd) (hex : List ℕ) → rest.now ≡ end_word sender ++ hex → ⊥)
        (λ piece. rest.now ≡ end_word piece.sender ++ piece.hex.now) }
{
    if let Some(hex) = rest.strip_prefix(b" host ") {
        return Some(Piece {
            sender: RecordedEnd::Host,
            hex,
        });
    }
    let hex = rest.strip_prefix(b" station ")?;
    Some(Piece {
        sender: RecordedEnd::Station,
        hex,
    })
}

/// How many digits a line begins with.
pub(crate) fn digit_count(line: &[u8]) -> usize
    ensures { result ≡ position_or_len (λ byte. not (is_ascii_digit byte)) line.now }
{
    for (at, byte) in line.iter().enumerate() {
        if !byte.is_ascii_digit() {
            return at;
        }
    }
    line.len()
}
