//! Where a byte is refused, and why, as a text.
ghost use Rattle.ws_printing.specs.PlaceAndReason.{place_and_reason};

use ws_code::{Reason, Sink};
use ws_text::{Number, Output, Text, texts};

/// The place of a byte, and for what reason it is refused, up to the line's end.
#[derive(Clone, Copy)]
pub struct PlaceAndReason(pub u64, pub Reason);

impl Text for PlaceAndReason {
    ghost text = { λ r. place_and_reason r.0 r.1 };

    fn put_to<S: Sink>(&self, sink: &mut S, output: Output) -> Output {
        let number = Number(self.1.number() as u64);
        texts!(
            Number(self.0),
            ": reason ",
            number,
            " ",
            self.1.name(),
            "\n"
        )
        .put_to(sink, output)
    }
}
