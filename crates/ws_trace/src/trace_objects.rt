//! A dialogue's entries as objects of JSON (RFC 8259), and an object for each end.
ghost use Rattle.std.specs.Prelude.{◌≡◌};
ghost use Rattle.ws_text.specs.Printing.{Prints};
ghost use Rattle.ws_trace.specs.TraceObjects as Spec;

use crate::dialogue::tally_of;
use crate::trace_text::{Seconds, eight_before, eight_from};
use crate::{EndCount, Entry, Heads, Told, TracedEnd};
use ws_code::Sink;
use ws_json::{put_json_item, put_json_refusal};
use ws_text::{Hex, Listed, Number, Output, Text, texts};

/// Writes the object of what is told at a place of a stream, after these members.
pub(crate) fn put_told_object<S: Sink, U: Listed>(
    sink: &mut S,
    output: Output,
    members: Members,
    place: u64,
    told: &Told<U>,
    stream: &[u8],
) -> Output
    ensures { Prints S.writer sink.old sink.new output result (Spec.told_object
        (Spec.entry_members members.0 members.1 members.2) U.lines_of place told.now stream.now) }
{
    match told {
        Told::Whole(item) => put_json_item(sink, output, members, place, item),
        Told::Refused(reason) => {
            let members = (members, BytesRound(place, stream));
            put_json_refusal(sink, output, members, place, *reason)
        }
    }
}

/// Writes the object of an end.
pub(crate) fn put_end_object<S: Sink>(
    sink: &mut S,
    output: Output,
    end: TracedEnd,
    count: EndCount,
    entries: &[Entry],
) -> Output
    ensures { Prints S.writer sink.old sink.new output result
        (Spec.end_object end count entries.now) }
{
    let tally = tally_of(entries, end);
    texts!(
        "{",
        EndMember(end),
        "\"bytes\":",
        Number(count.bytes),
        ",\"records\":",
        Number(tally.records as u64),
        ",\"refused\":",
        Number(tally.refusals as u64),
        ",\"whole\":",
        truth_word(count.is_whole),
        "}\n"
    )
    .put_to(sink, output)
}

// A truth as JSON has it.
fn truth_word(is_so: bool) -> &'static str
    ensures { result.now ≡ Spec.truth_word is_so }
{
    if is_so { "true" } else { "false" }
}

// The sender as a member.
#[derive(Clone, Copy)]
struct EndMember(TracedEnd);

impl Text for EndMember {
    ghost text = { λ m. Spec.end_member m.0 };

    fn put_to<S: Sink>(&self, sink: &mut S, output: Output) -> Output {
        texts!("\"end\":\"", self.0.name(), "\",").put_to(sink, output)
    }
}

/// The members that stand first: the time in milliseconds, if it is told, and the sender.
#[derive(Clone, Copy)]
pub(crate) struct Members(pub(crate) Heads, pub(crate) u64, pub(crate) TracedEnd);

impl Text for Members {
    ghost text = { λ m. Spec.entry_members m.0 m.1 m.2 };

    fn put_to<S: Sink>(&self, sink: &mut S, output: Output) -> Output {
        match self.0 {
            Heads::Timed => {
                let time = Seconds(self.1);
                texts!("\"time\":", time, ",", EndMember(self.2)).put_to(sink, output)
            }
            Heads::Untimed => EndMember(self.2).put_to(sink, output),
        }
    }
}

// The bytes round a place of a stream, as members.
#[derive(Clone, Copy)]
struct BytesRound<'a>(u64, &'a [u8]);

impl Text for BytesRound<'_> {
    ghost text = { λ b. Spec.bytes_members b.0 b.1.now };

    fn put_to<S: Sink>(&self, sink: &mut S, output: Output) -> Output {
        texts!(
            "\"before\":\"",
            Hex(eight_before(self.0, self.1)),
            "\",\"from\":\"",
            Hex(eight_from(self.0, self.1)),
            "\","
        )
        .put_to(sink, output)
    }
}
