//! A bad line with its cause.
ghost use Rattle.std.specs.Str.Lines.{lines};
ghost use Rattle.ws_script.specs.cause.ToldCauses.{IsLineTold};

use crate::asked::fault::{RunFault, ToldFault};
use crate::cause::cause_lines::cause_at;
use crate::cause::cause_text;
use crate::cause::vocabulary::Vocabulary;
use std::alloc::Global;

/// The fault of a text whose line of this number, counted from 1, is bad: of a line of this kind, or of a unit of a
/// record.
///
/// `Memory` where a growth was refused.
pub fn bad_line(alloc: Global, text: &[u8], number: u64, vocabulary: Vocabulary) -> ToldFault
    ensures { IsLineTold vocabulary (lines text.now) number result }
{
    match cause_text(alloc, cause_at(text, number, vocabulary)) {
        Ok(cause) => ToldFault::Line { number, cause },
        Err(_) => ToldFault::Run(RunFault::Memory),
    }
}
