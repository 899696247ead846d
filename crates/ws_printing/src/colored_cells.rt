//! Cells in colour: their characters, with sequences that tell a terminal how to show them (ECMA-48, SGR).
ghost use Rattle.std.specs.Prelude.{◌≡◌, ◌++◌, codes, encode_utf8, if◌then◌else◌, []};
ghost use Rattle.ws_printing.specs.ColoredRows as Spec;
ghost use Rattle.ws_text.specs.Printing.{Prints};

use ws_code::Sink;
use ws_screen::{Attribute, Color, Shown, Style};
use ws_text::{Character, Output, Text, texts};

/// The characters of cells, and before each whose attribute isn't that of the cell before it the attribute's sequence;
/// after the last the reset.
#[derive(Clone, Copy)]
pub struct ColoredCells<'a>(pub &'a [Shown]);

impl Text for ColoredCells<'_> {
    ghost text = { λ c. Spec.colored_text c.0.now };

    fn put_to<S: Sink>(&self, sink: &mut S, output: Output) -> Output {
        let mut output = output;
        let mut before = None;
        for cell in self.0 {
            let sequence = AttributeSequence(before, cell.attribute);
            output = texts!(sequence, Character(cell.character)).put_to(sink, output);
            before = Some(cell.attribute);
        }
        "\x1b[0m".put_to(sink, output)
    }
}

// An attribute's sequence, where the one before is another.
#[derive(Clone, Copy)]
struct AttributeSequence(Option<Attribute>, Attribute);

impl Text for AttributeSequence {
    ghost text = { λ c. Spec.sequence_behind c.0 c.1 };

    fn put_to<S: Sink>(&self, sink: &mut S, output: Output) -> Output {
        if is_same(self.0, self.1) {
            return output;
        }
        put_style(sink, output, self.1.color())
    }
}

// Whether the attribute before is this one.
fn is_same(before: Option<Attribute>, attribute: Attribute) -> bool
    ensures { result ≡ Spec.is_same before attribute }
{
    match before {
        Some(before) => before.byte() == attribute.byte(),
        None => false,
    }
}

// Writes a style's sequence: whatever was shown before, and then what the style shows.
fn put_style<S: Sink>(sink: &mut S, output: Output, style: Style) -> Output
    ensures { Prints S.writer sink.old sink.new output result
        (Spec.sequence (codes "0;" ++ Spec.style_codes style)) }
{
    texts!(
        "\x1b[0;",
        color_codes(style.color),
        code_if(style.is_reversed, ";7"),
        code_if(style.is_underscored, ";4"),
        code_if(style.is_blinking, ";5"),
        "m"
    )
    .put_to(sink, output)
}

fn color_codes(color: Color) -> &'static str
    ensures { result.now ≡ Spec.color_codes color }
{
    match color {
        Color::Green => "32",
        Color::White => "37;1",
        Color::Red => "31",
        Color::Turquoise => "36",
        Color::Yellow => "33",
        Color::Pink => "35",
        Color::Blue => "34",
    }
}

fn code_if(is_on: bool, code: &'static str) -> &'static str
    ensures { result.now ≡ (if is_on then code.now else []) }
{
    if is_on { code } else { "" }
}

/// Writes a character.
pub fn put_char<S: Sink>(sink: &mut S, output: Output, character: char) -> Output
    ensures { Prints S.writer sink.old sink.new output result (encode_utf8 character) }
{
    Character(character).put_to(sink, output)
}
