//! A line that is one move: a send, a key, or bytes that arrive.
ghost use Rattle.std.specs.Prelude.{◌≡◌, ◌++◌, true, codes, ℕ, IfOk, IfErr, MatchOption};
ghost use Rattle.ws_printing.specs.script.Script as Spec;
ghost use Rattle.ws_printing.specs.script.ScriptFaults.{IsLineFault, IsSendBegun, IsSendLine, has_no_blank};

use crate::script::ScriptFault;
use crate::script::key_name::key_named;
use hex::FromHexError;
use std::alloc::Global;
use ws_code::List;
use ws_record::{BodyFault, Opcode, read_body};
use ws_session::Move;
use ws_stream::{Commands, Element};
use ws_text::read_number;

/// The word before the first blank, and what stands behind the blank.
pub fn split_word(text: &str) -> Option<(&str, &str)>
    ensures { MatchOption result (has_no_blank text.now ≡ true)
        (λ parts. (text.now ≡ parts.0.now ++ codes " " ++ parts.1.now)
        × (has_no_blank parts.0.now ≡ true)) }
{
    text.split_once(' ')
}

/// The one move of a command with words behind its blank.
///
/// # Errors
///
/// `Line(1)` where command and words are none of these: `send` and an opcode that `read_opcode` takes, alone or with a
/// blank and the hex of elements behind it (SC30-3533, commands and orders); `down` or `up` and `all` or a number of 1
/// to 9 decimal digits; `key` and the name of a key. `Memory` where a growth was refused: they are a `send` that is
/// good up to the blank before its body.
pub fn read_move(alloc: Global, command: &str, words: &str) -> Result<Move, ScriptFault>
    requires { has_no_blank command.now ≡ true }
    ensures ok { IfOk result (Spec.IsMove (command.now ++ codes " " ++ words.now)) }
    ensures fault { IfErr result
        (IsLineFault (Spec.IsMove (command.now ++ codes " " ++ words.now))
        (IsSendLine (command.now ++ codes " " ++ words.now))) }
{
    match command {
        "send" => read_send(alloc, words),
        "down" => match read_count(words) {
            Some(count) => Ok(Move::ToStation(count)),
            None => Err(ScriptFault::Line(1)),
        },
        "up" => match read_count(words) {
            Some(count) => Ok(Move::ToHost(count)),
            None => Err(ScriptFault::Line(1)),
        },
        "key" => match key_named(words) {
            Some(key) => Ok(Move::Key(key)),
            None => Err(ScriptFault::Line(1)),
        },
        _ => Err(ScriptFault::Line(1)),
    }
}

// A record to be sent: its opcode, and its body in hex where it has one.
fn read_send(alloc: Global, words: &str) -> Result<Move, ScriptFault>
    ensures ok { IfOk result (Spec.IsMove (codes "send " ++ words.now)) }
    ensures fault { IfErr result
        (IsLineFault (Spec.IsMove (codes "send " ++ words.now)) (IsSendBegun words.now)) }
{
    let Some((number, hex)) = split_word(words) else {
        let opcode = read_opcode(words)?;
        return Ok(Move::Send(opcode, List::of(Vec::new(alloc))));
    };
    let opcode = read_opcode(number)?;
    if hex.is_empty() {
        return Err(ScriptFault::Line(1));
    }
    let body = read_body_text(alloc, hex)?;
    Ok(Move::Send(opcode, List::of(body)))
}

/// An opcode in decimal; that of Cancel Invite is none.
///
/// # Errors
///
/// `Line(1)` where the word isn't the number of an opcode in 1 to 9 decimal digits, or is that of Cancel Invite (RFC
/// 1205, section 3).
pub fn read_opcode(word: &str) -> Result<Opcode, ScriptFault>
    ensures ok { IfOk result (Spec.IsSendOpcode word.now) }
    ensures fault { IfErr result (IsLineFault (Spec.IsSendOpcode word.now) ⊥) }
{
    let Some(number) = read_number(word) else {
        return Err(ScriptFault::Line(1));
    };
    if number > 255 {
        return Err(ScriptFault::Line(1));
    }
    match Opcode::from_byte(number as u8) {
        None | Some(Opcode::CancelInvite) => Err(ScriptFault::Line(1)),
        Some(opcode) => Ok(opcode),
    }
}

// A body in hex.
fn read_body_text(alloc: Global, hex: &str) -> Result<Vec<Element>, ScriptFault>
    ensures ok { IfOk result (λ body. Spec.IsBodyText hex.now body.items) }
    ensures fault { IfErr result (IsLineFault (Spec.IsBodyText hex.now) (Unit {0})) }
{
    let bytes = match hex::decode(alloc, hex) {
        Ok(bytes) => bytes,
        Err(FromHexError::OutOfMemory) => return Err(ScriptFault::Memory),
        Err(_) => return Err(ScriptFault::Line(1)),
    };
    read_body::<Commands>(alloc, bytes.as_slice()).map_err(|fault| match fault {
        BodyFault::Bad => ScriptFault::Line(1),
        BodyFault::Memory => ScriptFault::Memory,
    })
}

// How many bytes arrive.
fn read_count(word: &str) -> Option<usize>
    ensures { MatchOption result ((n : ℕ) → Spec.IsCount word.now n → ⊥)
        (Spec.IsCount word.now) }
{
    if word == "all" {
        return Some(usize::MAX);
    }
    match read_number(word) {
        Some(number) => Some(number as usize),
        None => None,
    }
}
