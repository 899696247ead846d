//! What was printed so far, and whether it all went out.
ghost use Rattle.std.specs.Prelude.{◌≡◌, ◌<◌, slice_index};
ghost use Rattle.std.specs.Fmt.{decimal};
ghost use Rattle.hex.specs.Hex.{encode_upper, upper_digits};
ghost use Rattle.ws_text.specs.ItemLines.{cell_text, hex_behind_blank, words_text};
ghost use Rattle.ws_text.specs.Printing.{Prints};

use ws_code::{Address, Sink, write_whole};

/// Whether all of a text so far went out.
#[derive(Clone, Copy, Debug, PartialEq, Eq)]
pub enum Output {
    Open,
    /// A write failed, and nothing is written any more.
    Failed,
}

/// Writes a text.
pub fn put_text<S: Sink>(sink: &mut S, output: Output, text: &str) -> Output
    ensures { Prints S.writer sink.old sink.new output result text.now }
{
    put(sink, output, text.as_bytes())
}

/// Writes bytes.
pub fn put<S: Sink>(sink: &mut S, output: Output, bytes: &[u8]) -> Output
    ensures { Prints S.writer sink.old sink.new output result bytes.now }
{
    match output {
        Output::Failed => Output::Failed,
        Output::Open => match write_whole(sink, bytes) {
            Ok(()) => Output::Open,
            Err(_) => Output::Failed,
        },
    }
}

/// Writes a number in decimal.
pub fn put_number<S: Sink>(sink: &mut S, output: Output, number: u64) -> Output
    ensures { Prints S.writer sink.old sink.new output result (decimal number) }
{
    if number < 10 {
        return put(sink, output, &[b'0' + number as u8]);
    }
    let output = put_number(sink, output, number / 10);
    put(sink, output, &[b'0' + (number % 10) as u8])
}

/// Writes bytes in upper case hex.
pub fn put_hex<S: Sink>(sink: &mut S, output: Output, bytes: &[u8]) -> Output
    ensures { Prints S.writer sink.old sink.new output result (encode_upper bytes.now) }
{
    let mut output = output;
    for byte in bytes {
        output = put(sink, output, &[digit(*byte / 16), digit(*byte % 16)]);
    }
    output
}

// A digit of upper case hex.
fn digit(value: u8) -> u8
    requires { value < 16 }
    ensures { result ≡ slice_index upper_digits value }
{
    b"0123456789ABCDEF"[value as usize]
}

/// Writes a blank and the bytes in upper case hex, where there are any.
#[tactic(auto, using(crate::proofs::Prints::hex_or_none))]
pub fn put_hex_behind_blank<S: Sink>(sink: &mut S, output: Output, bytes: &[u8]) -> Output
    ensures { Prints S.writer sink.old sink.new output result
        (hex_behind_blank bytes.now) }
{
    if bytes.is_empty() {
        return put_text(sink, output, "");
    }
    let output = put_text(sink, output, " ");
    put_hex(sink, output, bytes)
}

/// Writes a cell's row and column.
pub fn put_cell<S: Sink>(sink: &mut S, output: Output, cell: Address) -> Output
    ensures { Prints S.writer sink.old sink.new output result (cell_text cell) }
{
    let output = put_number(sink, output, cell.row() as u64);
    let output = put_text(sink, output, " ");
    put_number(sink, output, cell.col() as u64)
}

/// Writes words of 16 bits in upper case hex, a blank behind each.
pub(crate) fn put_words<S: Sink>(sink: &mut S, output: Output, words: &[u16]) -> Output
    ensures { Prints S.writer sink.old sink.new output result (words_text words.now) }
{
    let mut output = output;
    for word in words {
        output = put_hex(sink, output, &word.to_be_bytes());
        output = put_text(sink, output, " ");
    }
    output
}
