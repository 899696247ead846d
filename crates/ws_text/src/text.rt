//! A text as a value: what it is in bytes, and how it goes out into a sink; numbers, bytes, cells and characters.
ghost use Rattle.std.specs.Prelude.{◌≡◌, ◌++◌, List, ℕ, OnOk, IfErr, None, Some, encode_utf8};
ghost use Rattle.std.specs.List.{flat_map};
ghost use Rattle.ws_code.specs.Device.{WentOut, FailedWithin};
ghost use Rattle.ws_text.specs.Printing.{Prints, text_where};
ghost use Rattle.std.specs.Fmt.{decimal};
ghost use Rattle.hex.specs.Hex.{encode_upper};
ghost use Rattle.ws_text.specs.ItemLines.{cell_text, hex_behind_blank};

use crate::output::{Output, put, put_cell, put_hex, put_hex_behind_blank, put_number, put_text};
use ws_code::{Address, Fault, Sink};

/// A value that is a text.
pub trait Text {
    // The text, in bytes.
    ghost text: { Self → List ℕ };

    /// Writes the text after what is out.
    fn put_to<S: Sink>(&self, sink: &mut S, output: Output) -> Output
        ensures { Prints S.writer sink.old sink.new output result (text self.now) };
}

/// Writes a text, and nothing before it.
///
/// # Errors
///
/// `Write` where the sink failed within it.
pub fn print<T: Text, S: Sink>(text: &T, sink: &mut S) -> Result<(), Fault>
    ensures ok { OnOk result (WentOut S.writer sink.old sink.new (T.text text.now)) }
    ensures fault { IfErr result (λ fault. (fault ≡ Fault.Write)
        × FailedWithin S.writer sink.old sink.new (T.text text.now)) }
{
    match text.put_to(sink, Output::Open) {
        Output::Open => Ok(()),
        Output::Failed => Err(Fault::Write),
    }
}

impl Text for &str {
    ghost text = { λ s. s.now };

    fn put_to<S: Sink>(&self, sink: &mut S, output: Output) -> Output {
        put_text(sink, output, self)
    }
}

/// One text after another.
impl<A: Text, B: Text> Text for (A, B) {
    ghost text = { λ p. A.text p.0 ++ B.text p.1 };

    fn put_to<S: Sink>(&self, sink: &mut S, output: Output) -> Output {
        let output = self.0.put_to(sink, output);
        self.1.put_to(sink, output)
    }
}

/// A text where there is one.
impl<T: Text> Text for Option<T> {
    ghost text = { text_where T.text };

    fn put_to<S: Sink>(&self, sink: &mut S, output: Output) -> Output {
        match self {
            Some(text) => text.put_to(sink, output),
            None => output,
        }
    }
}

/// A value that is a text in a sense, of type `M`.
///
/// A crate names a sense of its own to give a text to a type of another crate, or a type more than one text. A sense may
/// hold what the text depends on.
pub trait TextAs<M> {
    // The text, in bytes.
    ghost text_as: { M → Self → List ℕ };

    /// Writes the text after what is out.
    fn put_as<S: Sink>(&self, sense: &M, sink: &mut S, output: Output) -> Output
        ensures { Prints S.writer sink.old sink.new output result (text_as sense.now self.now) };
}

/// A value as its text in a sense.
#[derive(Clone, Copy)]
pub struct As<'a, X, M>(pub &'a X, pub M);

impl<X: TextAs<M>, M> Text for As<'_, X, M> {
    ghost text = { λ a. X.text_as a.1 a.0.now };

    fn put_to<S: Sink>(&self, sink: &mut S, output: Output) -> Output {
        self.0.put_as(&self.1, sink, output)
    }
}

/// The texts of values in a sense, one after another.
#[derive(Clone, Copy)]
pub struct EachAs<'a, X, M>(pub &'a [X], pub M);

impl<X: TextAs<M>, M> Text for EachAs<'_, X, M> {
    ghost text = { λ e. flat_map (X.text_as e.1) e.0.now };

    fn put_to<S: Sink>(&self, sink: &mut S, output: Output) -> Output {
        let mut output = output;
        for value in self.0 {
            output = value.put_as(&self.1, sink, output);
        }
        output
    }
}

/// Texts one after another, as one text.
#[macro_export]
macro_rules! texts {
    ($all:expr) => { $all };
    ($first:expr, $second:expr $(, $rest:expr)* $(,)?) => { $crate::texts!(($first, $second) $(, $rest)*) };
}

/// Bytes as they are.
#[derive(Clone, Copy)]
pub struct Bytes<'a>(pub &'a [u8]);

impl Text for Bytes<'_> {
    ghost text = { λ b. b.0.now };

    fn put_to<S: Sink>(&self, sink: &mut S, output: Output) -> Output {
        put(sink, output, self.0)
    }
}

/// A number in decimal.
#[derive(Clone, Copy)]
pub struct Number(pub u64);

impl Text for Number {
    ghost text = { λ n. decimal n.0 };

    fn put_to<S: Sink>(&self, sink: &mut S, output: Output) -> Output {
        put_number(sink, output, self.0)
    }
}

/// Bytes in upper case hex.
#[derive(Clone, Copy)]
pub struct Hex<'a>(pub &'a [u8]);

impl Text for Hex<'_> {
    ghost text = { λ h. encode_upper h.0.now };

    fn put_to<S: Sink>(&self, sink: &mut S, output: Output) -> Output {
        put_hex(sink, output, self.0)
    }
}

/// A blank and bytes in upper case hex, where there are any.
#[derive(Clone, Copy)]
pub struct HexBehindBlank<'a>(pub &'a [u8]);

impl Text for HexBehindBlank<'_> {
    ghost text = { λ h. hex_behind_blank h.0.now };

    fn put_to<S: Sink>(&self, sink: &mut S, output: Output) -> Output {
        put_hex_behind_blank(sink, output, self.0)
    }
}

/// A cell's row and column.
#[derive(Clone, Copy)]
pub struct Cell(pub Address);

impl Text for Cell {
    ghost text = { λ c. cell_text c.0 };

    fn put_to<S: Sink>(&self, sink: &mut S, output: Output) -> Output {
        put_cell(sink, output, self.0)
    }
}

/// A character.
#[derive(Clone, Copy)]
pub struct Character(pub char);

impl Text for Character {
    ghost text = { λ c. encode_utf8 c.0 };

    #[tactic(auto, using(crate::proofs::Prints::prints_same))]
    fn put_to<S: Sink>(&self, sink: &mut S, output: Output) -> Output {
        put_text(sink, output, self.0.encode_utf8(&mut [0; 4]))
    }
}
