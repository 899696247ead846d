//! A script of both ends, and the moves that it gives.
ghost use Rattle.std.specs.Prelude.{IfOk, IfErr};
ghost use Rattle.ws_printing.specs.script.Script.{IsScript};
ghost use Rattle.ws_printing.specs.script.ScriptFaults.{IsScriptFault};

pub(crate) mod key_line;
pub(crate) mod key_name;
pub(crate) mod named_key;
pub(crate) mod script_line;
pub(crate) mod script_move;

use crate::script::script_line::read_line;
use std::alloc::Global;
use thiserror::Error;
use ws_session::Move;
use ws_text::first_line;

/// Why a script gives no moves.
#[derive(Clone, Copy, Debug, PartialEq, Eq, Error)]
pub enum ScriptFault {
    /// This line, counted from 1, is the first bad one.
    #[error("script line {0}")]
    Line(u64),
    /// A growth was refused.
    #[error("memory")]
    Memory,
}

/// The moves of a script's lines, in order.
///
/// # Errors
///
/// `Line` where a line is bad, with the number of the first one. `Memory` where a growth was refused, and the script is
/// good as far as it was read.
pub fn read_script(alloc: Global, text: &[u8]) -> Result<Vec<Move>, ScriptFault>
    ensures moves { IfOk result (λ moves. IsScript text.now moves.items) }
    ensures fault { IfErr result (λ fault. IsScriptFault text.now fault) }
{
    let mut moves = Vec::new(alloc);
    let mut rest = text;
    let mut number = 0;
    while !rest.is_empty() {
        let (line, behind) = first_line(rest);
        number += 1;
        match read_line(alloc, line, &mut moves) {
            Ok(()) => {}
            Err(ScriptFault::Line(_)) => return Err(ScriptFault::Line(number)),
            Err(ScriptFault::Memory) => return Err(ScriptFault::Memory),
        }
        rest = behind;
    }
    Ok(moves)
}
