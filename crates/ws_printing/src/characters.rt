//! What cells or bytes show, as a text.
ghost use Rattle.std.specs.Prelude.{◌≡◌, ℕ};
ghost use Rattle.ws_screen.specs.Lines.{shown_char};
ghost use Rattle.ws_printing.specs.Characters as Spec;

use ws_code::Sink;
use ws_screen::{Attribute, Shown};
use ws_text::{Character, Output, Text, texts};

/// What shows a character.
pub trait ShowsCharacter {
    // The character.
    ghost shows: { Self → ℕ };

    /// The character.
    fn character(&self) -> char
        ensures { result ≡ shows self.now };
}

// A cell of a screen.
impl ShowsCharacter for Shown {
    ghost shows = { λ s. s.character };

    fn character(&self) -> char {
        self.character
    }
}

// A byte where nothing hides it.
impl ShowsCharacter for u8 {
    ghost shows = { shown_char };

    fn character(&self) -> char {
        Attribute::default().show(*self).0.character
    }
}

/// Those up to the last that shows no blank.
pub fn without_last_blanks<T: ShowsCharacter>(all: &[T]) -> &[T]
    ensures { result.now ≡ Spec.without_last_blanks T.shows all.now }
{
    let mut rest = all;
    while let Some((last, front)) = rest.split_last() {
        if last.character() != ' ' {
            return rest;
        }
        rest = front;
    }
    rest
}

/// Their characters.
#[derive(Clone, Copy)]
pub struct Characters<'a, T>(pub &'a [T]);

impl<T: ShowsCharacter> Text for Characters<'_, T> {
    ghost text = { λ c. Spec.characters_text T.shows c.0.now };

    fn put_to<S: Sink>(&self, sink: &mut S, output: Output) -> Output {
        let mut output = output;
        for one in self.0 {
            output = Character(one.character()).put_to(sink, output);
        }
        output
    }
}

/// Their characters after a blank, up to the last that shows no blank; nothing where none does.
#[derive(Clone, Copy)]
pub struct AfterBlank<'a, T>(pub &'a [T]);

impl<T: ShowsCharacter> Text for AfterBlank<'_, T> {
    ghost text = { λ a. Spec.after_blank T.shows (Spec.without_last_blanks T.shows a.0.now) };

    fn put_to<S: Sink>(&self, sink: &mut S, output: Output) -> Output {
        let shown = without_last_blanks(self.0);
        if shown.is_empty() {
            return output;
        }
        texts!(" ", Characters(shown)).put_to(sink, output)
    }
}
