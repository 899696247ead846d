//! Why a line of a script, or of items as text, is bad.
ghost use Rattle.std.specs.Prelude.{◌≡◌, List, ℕ, true, false};
ghost use Rattle.ws_script.specs.cause.Causes as Spec;
ghost use Rattle.ws_script.specs.cause.Causes.{HasFirst, IsCause, IsCauseOf, IsTextOf};
ghost use Rattle.ws_script.specs.cause.Causes.{SaysUnits, StandsIn, behind_word};
ghost use Rattle.ws_script.specs.cause.Vocabularies.{is_first};
ghost use Rattle.ws_script.specs.declared.cause.vocabulary.Vocabulary.{Vocabulary as AVocabulary};

use crate::asked::sender::Sender;
use crate::cause::Cause;
use crate::cause::cause_words::{first_word, has_tab, wrong_words};
use crate::cause::vocabulary::{Switch, Vocabulary, kinds_after};
use crate::cause::word_kind::settled;
use std::str;
use ws_extended::{ExtendedAnswers, ExtendedCommands};
use ws_stream::{Answers, Commands};
use ws_text::finds_units;

/// Why a line, which is bad, is bad: one of this kind, or after two blanks a unit of a record.
pub fn cause_of<'a>(line: &'a [u8], vocabulary: Vocabulary) -> Cause<'a>
    ensures { IsCauseOf vocabulary line.now result }
{
    let Ok(text) = str::from_utf8(line) else {
        return Cause::NotUtf8;
    };
    match text.strip_prefix("  ") {
        None => match vocabulary {
            Vocabulary::Elements(..) => Cause::Other,
            _ => cause_in(line, text, vocabulary),
        },
        Some(words) => match units_of(vocabulary) {
            None => Cause::Apart,
            Some(units) => cause_in(line, words, units),
        },
    }
}

// The units of a record in lines of this kind, and the switch with which their command reads more.
fn units_of(vocabulary: Vocabulary) -> Option<Vocabulary>
    ensures { result ≡ Spec.units_of vocabulary }
{
    match vocabulary {
        Vocabulary::Host => Some(Vocabulary::Elements(Sender::Host, Switch::Any)),
        Vocabulary::AnyHost => Some(Vocabulary::Elements(Sender::ExtendedHost, Switch::Any)),
        Vocabulary::Items(sender) => Some(Vocabulary::Elements(sender, Switch::Extended)),
        Vocabulary::Station | Vocabulary::ExtendedStation | Vocabulary::Elements(..) => None,
    }
}

// Why a line with this text is bad.
fn cause_in<'a>(line: &[u8], text: &'a str, vocabulary: Vocabulary) -> Cause<'a>
    requires { IsTextOf vocabulary line.now text.now }
    ensures { IsCause vocabulary line.now result }
{
    match first_word(text) {
        ("", rest) => no_first(rest),
        (first, rest) => match kinds_after(vocabulary, first) {
            None => unknown(first, vocabulary),
            Some(kinds) => match wrong_words(vocabulary, settled(kinds, rest), first, rest) {
                Some(cause) => cause,
                None => well_worded(line, vocabulary, first),
            },
        },
    }
}

// Why a line is bad whose text begins with no word.
fn no_first<'a>(rest: Option<&str>) -> Cause<'a>
    ensures { (vocabulary : AVocabulary) (line : List ℕ)
        → IsTextOf vocabulary line (behind_word rest.entry) → IsCause vocabulary line result }
{
    match rest {
        Some(_) => Cause::BlankInFront,
        None => Cause::Other,
    }
}

// Why a line is bad whose first word no such line has.
fn unknown<'a>(first: &'a str, vocabulary: Vocabulary) -> Cause<'a>
    ensures { (line : List ℕ) → HasFirst vocabulary line first.now → StandsIn line first.now
        → is_first vocabulary first.now ≡ false → IsCause vocabulary line result }
{
    if has_tab(first) {
        Cause::Tab
    } else {
        Cause::UnknownWord(first, vocabulary)
    }
}

// Why a line is bad each of whose words may stand there.
fn well_worded<'a>(line: &[u8], vocabulary: Vocabulary, first: &'a str) -> Cause<'a>
    requires { HasFirst vocabulary line.now first.now }
    ensures { IsCause vocabulary line.now result }
{
    match vocabulary {
        Vocabulary::Elements(sender, _) if says_units(sender, line) => Cause::Misplaced(first),
        _ => Cause::Other,
    }
}

// Whether a line says units of a sender, wherever these can stand.
fn says_units(sender: Sender, line: &[u8]) -> bool
    ensures { result ≡ true → SaysUnits sender line.now }
{
    match sender {
        Sender::Host => finds_units::<Commands>(line),
        Sender::ExtendedHost => finds_units::<ExtendedCommands>(line),
        Sender::Station => finds_units::<Answers>(line),
        Sender::ExtendedStation => finds_units::<ExtendedAnswers>(line),
    }
}
