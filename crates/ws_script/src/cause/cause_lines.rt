//! Why a line of a text is bad, by its number.
ghost use Rattle.std.specs.Prelude.{◌≡◌, ◌∷◌, ◌-◌, List, ℕ, drop, IfSome};
ghost use Rattle.std.specs.Str.Lines.{lines};
ghost use Rattle.ws_script.specs.cause.Causes.{IsCauseAt};

use crate::cause::Cause;
use crate::cause::causes::cause_of;
use crate::cause::vocabulary::Vocabulary;
use ws_text::first_line;

/// Why the line of this number, counted from 1, of a text is bad: of a line of this kind, or of a unit of a record.
pub fn cause_at<'a>(text: &'a [u8], number: u64, vocabulary: Vocabulary) -> Cause<'a>
    ensures { IsCauseAt vocabulary (lines text.now) number result }
{
    match line_at(text, number) {
        Some(line) => cause_of(line, vocabulary),
        None => Cause::Other,
    }
}

/// The same where these lines belong to this one, which begins a record or stands alone. Its number is 1.
pub fn cause_in_block<'a>(
    line: &'a [u8],
    inside: &'a [u8],
    number: u64,
    vocabulary: Vocabulary,
) -> Cause<'a>
    ensures { IsCauseAt vocabulary (line.now ∷ lines inside.now) number result }
{
    if number < 2 {
        cause_of(line, vocabulary)
    } else {
        cause_at(inside, number - 1, vocabulary)
    }
}

// The line of this number.
fn line_at(text: &[u8], number: u64) -> Option<&[u8]>
    ensures { IfSome result (λ line. (behind : List (List ℕ))
        × (drop (number - 1) (lines text.now) ≡ line.now ∷ behind)) }
{
    let mut rest = text;
    for _ in 0..number.saturating_sub(1) {
        if rest.is_empty() {
            return None;
        }
        rest = first_line(rest).1;
    }
    if rest.is_empty() {
        None
    } else {
        Some(first_line(rest).0)
    }
}
