//! Items, refusals and the end of a stream as objects of JSON, each on a line of its own. The members of the caller
//! stand first in it, each with a comma after it.
ghost use Rattle.ws_json.specs.JsonTexts as Spec;
ghost use Rattle.ws_text.specs.Printing.{Prints};

use crate::line_strings::LineArray;
use crate::quoted::Quoted;
use crate::telnet_words::TelnetWords;
use ws_code::{Reason, Sink};
use ws_record::{Item, Record};
use ws_text::{Hex, Listed, Number, Output, Text, texts};

/// Writes an item whose last byte is at the place, after the members of the caller.
pub fn put_json_item<S: Sink, P: Text + Copy, U: Listed>(
    sink: &mut S,
    output: Output,
    members: P,
    place: u64,
    item: &Item<U>,
) -> Output
    ensures { Prints S.writer sink.old sink.new output result
        (Spec.json_item (P.text members) U.lines_of place item.now) }
{
    let place = Place(members, place);
    match item {
        Item::Telnet(telnet) => {
            texts!(place, ",\"telnet\":\"", TelnetWords(telnet), "\"}\n").put_to(sink, output)
        }
        Item::Record(record) => put_record(sink, output, place, record),
    }
}

// Writes a record at a place.
fn put_record<S: Sink, P: Text + Copy, U: Listed>(
    sink: &mut S,
    output: Output,
    place: Place<P>,
    record: &Record<U>,
) -> Output
    ensures { Prints S.writer sink.old sink.new output result
        (Spec.json_record (P.text place.0) U.lines_of place.1 «record».now) }
{
    texts!(
        place,
        ",\"flags\":\"",
        Hex(&record.flags.to_be_bytes()),
        "\",\"opcode\":",
        Number(record.opcode.byte() as u64),
        ",\"body\":",
        LineArray(record.body.as_slice()),
        "}\n"
    )
    .put_to(sink, output)
}

/// Writes a refusal of the byte at the place, after the members of the caller.
pub fn put_json_refusal<S: Sink, P: Text + Copy>(
    sink: &mut S,
    output: Output,
    members: P,
    place: u64,
    reason: Reason,
) -> Output
    ensures { Prints S.writer sink.old sink.new output result
        (Spec.json_refusal (P.text members) place reason) }
{
    texts!(
        Place(members, place),
        ",\"refused\":",
        Number(reason.number() as u64),
        ",\"name\":\"",
        reason.name(),
        "\",\"sentence\":",
        Quoted(reason.text()),
        "}\n"
    )
    .put_to(sink, output)
}

/// Writes that a stream is truncated after so many bytes, after the members of the caller.
pub fn put_json_truncated<S: Sink, P: Text + Copy>(
    sink: &mut S,
    output: Output,
    members: P,
    count: u64,
) -> Output
    ensures { Prints S.writer sink.old sink.new output result
        (Spec.json_truncated (P.text members) count) }
{
    texts!("{", members, "\"truncated\":", Number(count), "}\n").put_to(sink, output)
}

// The members of the caller, and a place.
#[derive(Clone, Copy)]
struct Place<P>(P, u64);

impl<P: Text + Copy> Text for Place<P> {
    ghost text = { λ p. Spec.json_place (P.text p.0) p.1 };

    fn put_to<S: Sink>(&self, sink: &mut S, output: Output) -> Output {
        texts!("{", self.0, "\"at\":", Number(self.1)).put_to(sink, output)
    }
}
