//! What a refusal's reason says, on lines after that of the refusal.
ghost use Rattle.std.specs.Prelude.{◌≡◌};
ghost use Rattle.ws_live.specs.live.Sentences as Spec;

use ws_code::{Reason, Sink};
use ws_text::{Output, Text, texts};

/// What a reason says, after two blanks.
#[derive(Clone, Copy)]
pub(crate) struct SentenceLine(pub(crate) Reason);

impl Text for SentenceLine {
    ghost text = { λ l. Spec.sentence_line l.0 };

    fn put_to<S: Sink>(&self, sink: &mut S, output: Output) -> Output {
        texts!("  ", self.0.text(), "\n").put_to(sink, output)
    }
}

/// The same where it ends a station's session; and that the session goes on without `--strict`, where it would.
#[derive(Clone, Copy)]
pub(crate) struct StationSentences(pub(crate) Reason);

impl Text for StationSentences {
    ghost text = { λ l. Spec.station_sentences l.0 };

    fn put_to<S: Sink>(&self, sink: &mut S, output: Output) -> Output {
        texts!(SentenceLine(self.0), without_strict(self.0)).put_to(sink, output)
    }
}

// What is said of a part of the data stream that live stations take, or answer and pass over.
fn without_strict(reason: Reason) -> &'static str
    ensures { result.now ≡ Spec.without_strict reason }
{
    match reason {
        Reason::StructuredField
        | Reason::AlternateSize
        | Reason::SaveRestore
        | Reason::Roll
        | Reason::ErrorCode
        | Reason::ReadScreen
        | Reason::ReadImmediate => "  without --strict the session goes on\n",
        _ => "",
    }
}
