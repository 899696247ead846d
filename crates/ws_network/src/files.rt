//! The script of a live session.
ghost use Rattle.std.specs.Prelude.{◌≡◌, ℕ, List, true, IfOk, IfErr, MatchOption};
ghost use Rattle.std.specs.Option.{is_none};
ghost use Rattle.ws_script.specs.lines.LiveScript.{AreLiveLines};
ghost use Rattle.ws_network.specs.ScriptFiles.{IsFileFault};

use crate::input_lines::unread_line;
use std::fs;
use std::rt::Files;
use ws_script::{
    LiveLine, NumberedLine, RunFault, ScriptFault, ToldFault, Vocabulary, bad_line, read_lines,
};

/// The lines of a script, where one is named.
///
/// # Errors
///
/// `Read` where its file can't be read, `Line` where a line is bad, with the number of the first one and its cause;
/// `Memory` where a growth was refused.
pub(crate) fn read_script_file<R: Files + AllocGlobal, L: LiveLine>(
    rt: &R,
    script: Option<&str>,
    vocabulary: Vocabulary,
) -> Result<Option<Vec<NumberedLine<L>>>, ToldFault>
    ensures lines { IfOk result (λ read. MatchOption read (is_none script.entry ≡ true)
        (λ lines. (file : List ℕ) × AreLiveLines L.language file lines.items)) }
    ensures named { IfOk result (λ read. is_none read ≡ is_none script.entry) }
    ensures fault { IfErr result (IsFileFault L.language vocabulary) }
{
    let Some(path) = script else {
        return Ok(None);
    };
    let text = fs::read(rt, path).map_err(|error| unread_line(error.kind()))?;
    match read_lines(rt.alloc(), text.as_slice()) {
        Ok(lines) => Ok(Some(lines)),
        Err(ScriptFault::Line(number)) => {
            Err(bad_line(rt.alloc(), text.as_slice(), number, vocabulary))
        }
        Err(ScriptFault::Memory) => Err(ToldFault::Run(RunFault::Memory)),
    }
}

/// The lines as a slice.
pub(crate) fn lines_of<L>(script: &Option<Vec<L>>) -> Option<&[L]>
    ensures { MatchOption script.now (is_none result ≡ true)
        (λ read. MatchOption result ⊥ (λ lines. lines.now ≡ read.items)) }
{
    match script {
        Some(lines) => Some(lines.as_slice()),
        None => None,
    }
}
