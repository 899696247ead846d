//! A dialogue as text: each item and each refusal with its sender, and with its time or without it, and at the end
//! what there was of each end.
ghost use Rattle.std.specs.Prelude.{◌≡◌, ◌-◌};
ghost use Rattle.ws_text.specs.ItemLines.{item_lines};
ghost use Rattle.ws_text.specs.Printing.{Prints};
ghost use Rattle.ws_trace.specs.DialogueText as Forms;
ghost use Rattle.ws_trace.specs.TraceText as Spec;

use crate::dialogue::tally_of;
use crate::trace_objects::{Members, put_end_object, put_told_object};
use crate::{Dialogue, EndCount, EndTold, Entry, Told, TracedEnd};
use ws_code::Sink;
use ws_printing::PlaceAndReason;
use ws_text::{EachAs, HexBehindBlank, Listed, Number, Output, Text, TextAs, put_item, texts};

/// What stands before each item and each refusal: its time and its sender, or its sender alone.
#[derive(Clone, Copy, Debug, PartialEq, Eq)]
pub enum Heads {
    Timed,
    Untimed,
}

/// The form of a dialogue's text: lines, or objects of JSON (RFC 8259), an object a line.
#[derive(Clone, Copy, Debug, PartialEq, Eq)]
pub enum TraceForm {
    Lines(Heads),
    Objects(Heads),
}

/// The streams of both ends, the time of the first piece, and the form of the text.
#[derive(Clone, Copy)]
pub(crate) struct Streams<'a> {
    pub(crate) form: TraceForm,
    pub(crate) begun: u64,
    pub(crate) host: &'a [u8],
    pub(crate) station: &'a [u8],
}

/// Writes a dialogue of these streams.
pub(crate) fn put_dialogue<S: Sink>(
    sink: &mut S,
    output: Output,
    dialogue: &Dialogue,
    streams: Streams<'_>,
) -> Output
    ensures { Prints S.writer sink.old sink.new output result
        (Forms.dialogue_of_streams streams.entry.form (Forms.sent_in streams.entry) dialogue.now) }
{
    let entries = dialogue.entries.as_slice();
    let output = EachAs(entries, streams).put_to(sink, output);
    let form = streams.form;
    let output = put_end(sink, output, form, TracedEnd::Host, dialogue.host, entries);
    put_end(
        sink,
        output,
        form,
        TracedEnd::Station,
        dialogue.station,
        entries,
    )
}

// Writes what there was of an end.
fn put_end<S: Sink>(
    sink: &mut S,
    output: Output,
    form: TraceForm,
    end: TracedEnd,
    count: EndCount,
    entries: &[Entry],
) -> Output
    ensures { Prints S.writer sink.old sink.new output result
        (Forms.end_in form end count entries.now) }
{
    match form {
        TraceForm::Lines(_) => {
            let tally = tally_of(entries, end);
            texts!(
                end.name(),
                ": ",
                Number(count.bytes),
                " bytes, ",
                Number(tally.records as u64),
                " records, ",
                Number(tally.refusals as u64),
                " refused",
                if count.is_whole {
                    "\n"
                } else {
                    ", truncated\n"
                }
            )
            .put_to(sink, output)
        }
        TraceForm::Objects(_) => put_end_object(sink, output, end, count, entries),
    }
}

impl TextAs<Streams<'_>> for Entry {
    ghost text_as = { λ streams entry. Forms.entry_in streams.form (Forms.sent_in streams) entry };

    fn put_as<S: Sink>(&self, streams: &Streams<'_>, sink: &mut S, output: Output) -> Output {
        match &self.told {
            EndTold::Host(told) => put_told_in(sink, output, streams, self, told, streams.host),
            EndTold::Station(told) => {
                put_told_in(sink, output, streams, self, told, streams.station)
            }
        }
    }
}

// Writes what an entry tells, by a byte of this stream.
fn put_told_in<S: Sink, U: Listed>(
    sink: &mut S,
    output: Output,
    streams: &Streams<'_>,
    entry: &Entry,
    told: &Told<U>,
    stream: &[u8],
) -> Output
    ensures { Prints S.writer sink.old sink.new output result (Forms.in_form streams.now.form
        (entry.now.milliseconds - streams.now.begun) (Spec.sender_of entry.now.told) U.lines_of
        entry.now.place told.now stream.now) }
{
    let time = entry.milliseconds.saturating_sub(streams.begun);
    let end = entry.told.sender();
    match streams.form {
        TraceForm::Lines(heads) => {
            let output = Head(heads, time, end).put_to(sink, output);
            put_told(sink, output, entry.place, told, stream)
        }
        TraceForm::Objects(heads) => {
            let members = Members(heads, time, end);
            put_told_object(sink, output, members, entry.place, told, stream)
        }
    }
}

// What stands before an item that came after so many milliseconds, and who sends it.
#[derive(Clone, Copy)]
struct Head(Heads, u64, TracedEnd);

impl Text for Head {
    ghost text = { λ h. Spec.entry_head h.0 h.1 h.2 };

    fn put_to<S: Sink>(&self, sink: &mut S, output: Output) -> Output {
        match self.0 {
            Heads::Timed => {
                texts!("+", Seconds(self.1), " ", self.2.name(), " ").put_to(sink, output)
            }
            Heads::Untimed => texts!(self.2.name(), " ").put_to(sink, output),
        }
    }
}

/// So many milliseconds as seconds, with three digits after the point.
#[derive(Clone, Copy)]
pub(crate) struct Seconds(pub(crate) u64);

impl Text for Seconds {
    ghost text = { λ s. Spec.seconds_text s.0 };

    fn put_to<S: Sink>(&self, sink: &mut S, output: Output) -> Output {
        texts!(
            Number(self.0 / 1000),
            ".",
            Number(self.0 / 100 % 10),
            Number(self.0 / 10 % 10),
            Number(self.0 % 10)
        )
        .put_to(sink, output)
    }
}

// Writes the lines of an item, or those of a refusal, whose byte is at the place of the stream.
fn put_told<S: Sink, U: Listed>(
    sink: &mut S,
    output: Output,
    place: u64,
    told: &Told<U>,
    stream: &[u8],
) -> Output
    ensures { Prints S.writer sink.old sink.new output result
        (Spec.told_at_text (item_lines U.lines_of) place told.now stream.now) }
{
    match told {
        Told::Whole(item) => put_item(sink, output, place, item),
        Told::Refused(reason) => {
            texts!(
                "refused at ",
                PlaceAndReason(place, *reason),
                "  ",
                reason.text(),
                "\n  bytes",
                HexBehindBlank(eight_before(place, stream)),
                HexBehindBlank(eight_from(place, stream)),
                "\n"
            )
            .put_to(sink, output)
        }
    }
}

/// The eight bytes before a place of a stream, or as many as there are.
pub(crate) fn eight_before(place: u64, stream: &[u8]) -> &[u8]
    ensures { result.now ≡ Spec.eight_before place stream.now }
{
    let front = stream.split_at(stream.len().min(place as usize)).0;
    front.split_at(front.len().saturating_sub(8)).1
}

/// The eight bytes from a place of a stream on, or as many as there are.
pub(crate) fn eight_from(place: u64, stream: &[u8]) -> &[u8]
    ensures { result.now ≡ Spec.eight_from place stream.now }
{
    let rest = stream.split_at(stream.len().min(place as usize)).1;
    rest.split_at(rest.len().min(8)).0
}
