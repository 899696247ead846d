//! A text as a string of JSON.
ghost use Rattle.ws_json.specs.JsonStrings.{json_byte, json_string};

use ws_code::Sink;
use ws_text::{EachAs, Output, Text, TextAs, put, texts};

/// The sense of a byte as a part of a string.
#[derive(Clone, Copy)]
pub(crate) struct InString;

impl TextAs<InString> for u8 {
    ghost text_as = { λ _ byte. json_byte byte };

    fn put_as<S: Sink>(&self, _in_string: &InString, sink: &mut S, output: Output) -> Output {
        let byte = *self;
        if byte == b'"' || byte == b'\\' {
            put(sink, output, &[b'\\', byte])
        } else {
            put(sink, output, &[byte])
        }
    }
}

/// A text in quotes.
#[derive(Clone, Copy)]
pub(crate) struct Quoted<'a>(pub(crate) &'a str);

impl Text for Quoted<'_> {
    ghost text = { λ q. json_string q.0.now };

    fn put_to<S: Sink>(&self, sink: &mut S, output: Output) -> Output {
        texts!("\"", EachAs(self.0.as_bytes(), InString), "\"").put_to(sink, output)
    }
}
