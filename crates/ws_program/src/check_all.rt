//! What a check tells that goes on after a refusal with the next record: a line for each, and a last one.
ghost use Rattle.ws_text.specs.Printed.{IsPrinted};
ghost use Rattle.ws_program.specs.AllTold.{check_all_printing, checked_line, file_head};

use crate::all_told::{AllCounts, FileHead, Way, are_accepted, tell_all};
use crate::shown::Shown;
use std::alloc::Global;
use ws_code::{Fault, Sink};
use ws_printing::{Verdict, VerdictLine};
use ws_text::{Listed, Number, Output, Text, print, texts};

/// Writes a line for each refusal of the bytes, after which the next record is read, and a last one: true where nothing
/// is refused and the stream may end. No record is carried out.
///
/// # Errors
///
/// `Memory` where a growth was refused, `Failed` where no more bytes can be counted, and then the lines of the bytes
/// before went out; `Write` where the sink failed.
pub(crate) fn check_all_to<B: Shown, S: Sink>(
    alloc: Global,
    bytes: &[u8],
    head: FileHead<'_>,
    sink: &mut S,
) -> Result<bool, Fault>
where
    B::Unit: Listed,
    ensures { IsPrinted S.writer sink.old sink.new
        (check_all_printing B.rules (file_head head.entry.0) bytes.now) result }
{
    let mut made = B::before_any();
    let way = Way::Refusals(head);
    let (counts, is_whole) = tell_all::<B, S>(alloc, way, bytes, &mut made, sink)?;
    let size = bytes.len() as u64;
    let line = CheckedLine {
        counts,
        is_whole,
        size,
    };
    print(&texts!(head, line), sink)?;
    Ok(are_accepted(counts, is_whole))
}

// The last line of a check of so many bytes.
#[derive(Clone, Copy)]
struct CheckedLine {
    counts: AllCounts,
    is_whole: bool,
    size: u64,
}

impl Text for CheckedLine {
    ghost text = { λ l. checked_line l.counts l.is_whole l.size };

    fn put_to<S: Sink>(&self, sink: &mut S, output: Output) -> Output {
        if !self.is_whole {
            let verdict = Verdict::Truncated { at: self.size };
            return VerdictLine(verdict, self.size).put_to(sink, output);
        }
        let AllCounts {
            records,
            commands,
            refused,
        } = self.counts;
        if refused == 0 {
            let verdict = Verdict::Accepted { records, commands };
            return VerdictLine(verdict, self.size).put_to(sink, output);
        }
        texts!(
            Number(records),
            " records, ",
            Number(commands),
            " commands, ",
            Number(self.size),
            " bytes, ",
            Number(refused),
            " refused\n"
        )
        .put_to(sink, output)
    }
}
