//! A line of a live script with those that belong to it, and a script of such lines.
ghost use Rattle.std.specs.Prelude.{◌≡◌, true, false, IfOk, IfErr};
ghost use Rattle.std.specs.Str.Lines.{lines};
ghost use Rattle.ws_script.specs.lines.LiveScript as Spec;
ghost use Rattle.ws_script.specs.lines.LiveScript.{AreLiveLines, HasBlock, HasInside, IsBlockFault, IsReadingFault};
ghost use Rattle.ws_script.specs.lines.LiveScript.{LineLanguage, text_cut};

use std::alloc::Global;
use ws_printing::ScriptFault;
use ws_text::first_line;

/// A line of a script for a live session, with the lines that belong to it.
///
/// Those stand directly after it, and begin with two blanks.
pub trait LiveLine: Drop {
    // What such lines mean, how far they are good, which belong to others, and where they are bad.
    ghost language: { LineLanguage Self };

    /// Whether lines may belong to this one.
    fn opens(line: &[u8]) -> bool
        ensures begins { result ≡ true → language.begins line.now }
        ensures opener { result ≡ true → language.opener line.now }
        ensures other { result ≡ false → language.opener line.now → ⊥ };

    /// Reads a line, without its line end, with the text of the lines that belong to it.
    ///
    /// # Errors
    ///
    /// `Line` where they are no such lines of a script, with the number of the bad one, which is 1 for the line itself.
    /// `Memory` where a growth was refused: the line and those that belong to it are good; or none belongs to it, and
    /// what was read of it is good.
    fn read(alloc: Global, line: &[u8], inside: &[u8]) -> Result<Self, ScriptFault>
        ensures line { IfOk result (language.means line.now (lines inside.now)) }
        ensures fault { IfErr result (IsBlockFault language line.now (lines inside.now)) };

    /// What stands for a line that is bad for this cause. No line means it. It is carried out by telling the cause.
    fn bad(cause: String) -> Self
        ensures { result ≡ language.bad_line cause };

    /// The line that takes what has come while one is waited for. None where nothing is taken then.
    fn meanwhile() -> Option<Self>
        ensures { result ≡ language.meanwhile };
}

/// A line of a live session.
#[derive(Drop)]
pub struct NumberedLine<L> {
    /// Which line of its script it is, counted from 1; none where it stands in no file.
    pub number: Option<u64>,
    pub line: L,
}

/// The lines of a script, in order, with their numbers.
///
/// # Errors
///
/// `Line` where a line is bad, with the number of the first one. `Memory` where a growth was refused; what was read of
/// the text is good.
pub fn read_lines<L: LiveLine>(
    alloc: Global,
    text: &[u8],
) -> Result<Vec<NumberedLine<L>>, ScriptFault>
    ensures lines { IfOk result (λ read. AreLiveLines L.language text.now read.items) }
    ensures fault { IfErr result (IsReadingFault L.language text.now) }
{
    let mut read = Vec::new(alloc);
    let mut rest = text;
    let mut number = 0u64;
    while !rest.is_empty() {
        let (line, behind) = first_line(rest);
        let inside = inside_of::<L>(line, behind);
        match L::read(alloc, line, inside.text) {
            Ok(line) => {
                let number = Some(number + 1);
                if read.push(NumberedLine { number, line }).is_err() {
                    return Err(ScriptFault::Memory);
                }
            }
            Err(ScriptFault::Line(at)) => {
                return Err(ScriptFault::Line(number.saturating_add(at)));
            }
            Err(ScriptFault::Memory) => return Err(ScriptFault::Memory),
        }
        number += 1 + inside.count;
        rest = inside.behind;
    }
    Ok(read)
}

// The lines that belong to a line: their text and number, and what stands after them.
#[derive(Clone, Copy)]
struct Inside<'a> {
    text: &'a [u8],
    count: u64,
    behind: &'a [u8],
}

// The lines of a text that belong to the line before it.
fn inside_of<'a, L: LiveLine>(line: &[u8], text: &'a [u8]) -> Inside<'a>
    ensures { HasBlock L.language line.now text.now
        (text_cut result.text.now result.count result.behind.now) }
{
    if L::opens(line) {
        return indented_front(text);
    }
    Inside {
        text: &[],
        count: 0,
        behind: text,
    }
}

// The lines at the beginning of a text that begin with two blanks.
fn indented_front(text: &[u8]) -> Inside<'_>
    ensures { HasInside text.now
        (text_cut result.text.now result.count result.behind.now) }
{
    let mut rest = text;
    let mut count = 0u64;
    while !rest.is_empty() {
        let (line, behind) = first_line(rest);
        if !is_indented(line) {
            return Inside {
                text: &text[..text.len() - rest.len()],
                count,
                behind: rest,
            };
        }
        count += 1;
        rest = behind;
    }
    Inside {
        text,
        count,
        behind: rest,
    }
}

/// Whether a line begins with two blanks, and so belongs to one before it.
pub fn is_indented(line: &[u8]) -> bool
    ensures { result ≡ Spec.is_indented line.now }
{
    matches!(line, [b' ', b' ', ..])
}
