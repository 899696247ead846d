//! A line of a script by its first word.
ghost use Rattle.std.specs.Prelude.{◌≡◌, ◌++◌, ℕ, List as Seq, true, codes, IfOk, IfErr, MatchBool};
ghost use Rattle.std.specs.Str.{IsUtf8};
ghost use Rattle.ws_script.specs.lines.ConnectLines.{IsNothing};
ghost use Rattle.ws_script.specs.lines.LiveScript.{IsLineSoFar};
ghost use Rattle.ws_printing.specs.script.ScriptFaults.{IsLineFault, has_no_blank};

use crate::asked::live_address::behind;
use std::alloc::Global;
use std::str;
use ws_printing::{ScriptFault, split_word};

/// A line of a script that is read by its first word.
pub trait TextLine: Drop {
    // What such a line means, and which are good up to what takes memory.
    ghost means: { Seq ℕ → Self → Type 0 };

    ghost begun: { Seq ℕ → Type 0 };

    /// An empty line, or a comment.
    fn nothing() -> Self
        ensures { (line : Seq ℕ) → IsNothing line → means line result };

    /// A line that is one word.
    fn of_word(word: &str) -> Result<Self, ScriptFault>
        requires no_blank { has_no_blank word.now ≡ true }
        requires some { IsNothing word.now → ⊥ }
        ensures line { IfOk result (means word.now) }
        ensures fault { IfErr result (IsLineFault (means word.now) ⊥) };

    /// A command with words after its blank.
    fn of_command(
        alloc: Global,
        line: &str,
        command: &str,
        words: &str,
    ) -> Result<Self, ScriptFault>
        requires is { line.now ≡ command.now ++ codes " " ++ words.now }
        requires no_blank { has_no_blank command.now ≡ true }
        requires some { IsNothing line.now → ⊥ }
        ensures line { IfOk result (means line.now) }
        ensures fault { IfErr result (IsLineFault (means line.now)
            (IsLineSoFar means begun line.now)) };
}

/// A line without its line end.
pub fn read_line<L: TextLine>(alloc: Global, line: &[u8]) -> Result<L, ScriptFault>
    ensures line { IfOk result (λ read. IsUtf8 line.now × L.means line.now read) }
    ensures fault { IfErr result
        (IsLineFault (λ (read : L). IsUtf8 line.now × L.means line.now read)
        (IsUtf8 line.now × IsLineSoFar L.means L.begun line.now)) }
{
    let Ok(text) = str::from_utf8(line) else {
        return Err(ScriptFault::Line(1));
    };
    if is_nothing(text) {
        return Ok(L::nothing());
    }
    match split_word(text) {
        None => L::of_word(text),
        Some((command, words)) => L::of_command(alloc, text, command, words),
    }
}

// Whether a line is empty or a comment.
fn is_nothing(line: &str) -> bool
    ensures { MatchBool result (IsNothing line.now) (IsNothing line.now → ⊥) }
{
    match behind(line, '#') {
        Some(_) => true,
        None => line.is_empty(),
    }
}
