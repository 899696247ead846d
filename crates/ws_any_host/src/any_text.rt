//! The lines that a host that takes any record prints.
ghost use Rattle.std.specs.Prelude.{◌≡◌};
ghost use Rattle.ws_text.specs.Printing.{Prints};
ghost use Rattle.ws_any_host.specs.AnyText as Spec;

use crate::AnyEvent;
use ws_code::Sink;
use ws_text::{EachAs, Hex, HexBehindBlank, Number, Output, Text, TextAs, put, texts};

/// Writes the line of what a host tells that takes any record: `terminal NAME`, where a byte that doesn't print, a blank
/// and `\` are `\` and two hex digits, or `record flags FFFF opcode K HEX`, with no HEX where there is no body.
pub fn put_any_event<S: Sink>(sink: &mut S, output: Output, event: &AnyEvent) -> Output
    ensures { Prints S.writer sink.old sink.new output result
        (Spec.any_event_text event.now) }
{
    match event {
        AnyEvent::Ready(name) => {
            let name = EachAs(name.as_slice(), InName);
            texts!("terminal ", name, "\n").put_to(sink, output)
        }
        AnyEvent::Record(record) => {
            let flags = record.flags.to_be_bytes();
            let opcode = Number(record.opcode.byte() as u64);
            let body = HexBehindBlank(record.body.as_slice());
            texts!("record flags ", Hex(&flags), " opcode ", opcode, body, "\n").put_to(
                sink, output,
            )
        }
    }
}

// The sense of a byte of a terminal's name.
#[derive(Clone, Copy)]
struct InName;

impl TextAs<InName> for u8 {
    ghost text_as = { λ _. Spec.name_byte };

    fn put_as<S: Sink>(&self, _sense: &InName, sink: &mut S, output: Output) -> Output {
        if is_plain(*self) {
            put(sink, output, &[*self])
        } else {
            texts!("\\", Hex(&[*self])).put_to(sink, output)
        }
    }
}

// Whether a byte of a name stands for itself.
fn is_plain(byte: u8) -> bool
    ensures { result ≡ Spec.is_plain byte }
{
    byte > 32 && byte < 127 && byte != b'\\'
}
