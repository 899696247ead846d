//! The causes of bad lines.
ghost use Rattle.std.specs.Prelude.{◌≡◌, ◌++◌, IfOk, string_bytes};
ghost use Rattle.ws_script.specs.cause.CauseTexts as Spec;

pub(crate) mod body_refusal;
pub(crate) mod cause_lines;
pub(crate) mod cause_words;
pub(crate) mod causes;
pub(crate) mod nearest;
pub(crate) mod told_line;
pub(crate) mod vocabulary;
pub(crate) mod word_kind;

use crate::cause::body_refusal::body_refusal;
use crate::cause::nearest::known_of;
use crate::cause::vocabulary::{Switch, Vocabulary};
use std::alloc::{AllocError, Global};

// How many characters of a word are told.
const SHOWN: usize = 60;

/// What a byte in hex is to be.
#[derive(Clone, Copy, Debug, PartialEq, Eq)]
pub enum AskedByte {
    /// It stands for itself in a cell.
    CellByte,
    /// An attribute.
    Attribute,
    /// That of a key which answers a read.
    Key,
}

/// What is known of a word that no such line begins with.
#[derive(Clone, Copy)]
pub enum Known {
    /// The nearest word that one begins with.
    Near(&'static str),
    /// With this switch one begins with it.
    With(Switch),
}

/// Why a line is no line of a script, with the word at fault.
#[derive(Clone, Copy)]
pub enum Cause<'a> {
    NotUtf8,
    Tab,
    TwoBlanks,
    BlankInFront,
    BlankAtEnd,
    /// No line of this kind begins with it.
    UnknownWord(&'a str, Vocabulary),
    /// It is another word than may stand there.
    Unexpected(&'a str),
    UnknownKey(&'a str),
    NoNumber(&'a str),
    OutOfRange {
        word: &'a str,
        least: u32,
        most: u32,
    },
    /// It isn't bytes of two hex digits each.
    NoHex(&'a str),
    /// It has more hex digits or less.
    OtherLength {
        word: &'a str,
        digits: u32,
    },
    /// The byte that it writes isn't what is asked there.
    Illegal {
        word: &'a str,
        asked: AskedByte,
    },
    /// Code page 037 has no byte for it.
    NoByte(char),
    /// These bytes in hex are no body of a record.
    NoBody(&'a str),
    /// Behind this one.
    Missing(&'a str),
    TooMany(&'a str),
    /// It says a unit, which can't stand there.
    Misplaced(&'a str),
    /// It has two blanks in front, and no such line has.
    Apart,
    /// Nothing more is known.
    Other,
}

/// A cause in words. Of the word at fault the first 60 characters stand in it; a control character and `\` as `\HH`.
/// After an unknown word comes what is known of it.
///
/// # Errors
///
/// `AllocError` where a growth was refused.
pub fn cause_text(alloc: Global, cause: Cause<'_>) -> Result<String, AllocError>
    ensures { IfOk result (λ text. Spec.IsCauseText cause.entry (string_bytes text)) }
{
    let shown = shown(alloc, cause)?;
    let known = told(alloc, known_word(alloc, cause)?)?;
    let mut text = String::from_str(alloc, saying(cause))?;
    text.push_str(shown.as_str())?;
    text.push_str(known.as_str())?;
    Ok(text)
}

// What is known of an unknown word.
fn known_word(alloc: Global, cause: Cause<'_>) -> Result<Option<Known>, AllocError>
    ensures { IfOk result (Spec.IsKnownOf cause.entry) }
{
    match cause {
        Cause::UnknownWord(word, vocabulary) => known_of(alloc, vocabulary, word),
        _ => Ok(None),
    }
}

// What is said of what is known.
fn told(alloc: Global, known: Option<Known>) -> Result<String, AllocError>
    ensures { IfOk result (λ text. string_bytes text ≡ Spec.saying_known known) }
{
    match known {
        None => String::from_str(alloc, ""),
        Some(Known::Near(word)) => format!(in alloc; ", did you mean `{word}`?"),
        Some(Known::With(Switch::Extended)) => {
            String::from_str(alloc, ", it is read with --extended")
        }
        Some(Known::With(Switch::Any)) => String::from_str(alloc, ", it is read with --any"),
    }
}

// The first characters of the word at fault, with what it should be before them.
fn shown(alloc: Global, cause: Cause<'_>) -> Result<String, AllocError>
    ensures { IfOk result (λ text. Spec.IsWordShown cause.entry (string_bytes text)) }
{
    match cause {
        Cause::UnknownWord(word, _)
        | Cause::Unexpected(word)
        | Cause::UnknownKey(word)
        | Cause::NoNumber(word)
        | Cause::NoHex(word)
        | Cause::Missing(word)
        | Cause::TooMany(word)
        | Cause::Illegal { word, .. }
        | Cause::Misplaced(word) => quoted(alloc, word),
        Cause::OutOfRange { word, least, most } => {
            let word = quoted(alloc, word)?;
            format!(in alloc; "{least} to {most}:{word}")
        }
        Cause::OtherLength { word, digits } => {
            let word = quoted(alloc, word)?;
            format!(in alloc; "{digits} hex digits:{word}")
        }
        Cause::NoByte(character) => {
            let mut word = String::new(alloc);
            word.push(character)?;
            quoted(alloc, word.as_str())
        }
        Cause::NoBody(hex) => refused(alloc, hex),
        _ => String::from_str(alloc, ""),
    }
}

// Where bytes in hex are no body, the byte at which they are refused, and the reason's sentence.
fn refused(alloc: Global, hex: &str) -> Result<String, AllocError>
    ensures { IfOk result (λ text. Spec.IsRefusalShown hex.now (string_bytes text)) }
{
    match body_refusal(alloc, hex)? {
        Some((place, reason)) => refusal_text(alloc, place, reason.text()),
        None => String::from_str(alloc, ""),
    }
}

// A refusal at this byte with this sentence.
fn refusal_text(alloc: Global, place: usize, sentence: &str) -> Result<String, AllocError>
    ensures { IfOk result (λ text. string_bytes text ≡ Spec.refusal_text place sentence.now) }
{
    format!(in alloc; ", refused at {place}, {sentence}")
}

// The first characters of a word, in quotes after a blank.
fn quoted(alloc: Global, word: &str) -> Result<String, AllocError>
    ensures { IfOk result (λ text. string_bytes text ≡ Spec.quoted word.now) }
{
    let mut shown = String::from_str(alloc, " `")?;
    for character in word.chars().take(SHOWN) {
        push_shown(alloc, &mut shown, character)?;
    }
    shown.push_str("`")?;
    Ok(shown)
}

// Adds a character; a control character and `\` by two hex digits after a `\`.
fn push_shown(alloc: Global, shown: &mut String, character: char) -> Result<(), AllocError>
    ensures { IfOk result (λ _. string_bytes shown.new
        ≡ string_bytes shown.old ++ Spec.shown_character character) }
{
    if !character.is_control() && character != '\\' {
        return shown.push(character);
    }
    shown.push('\\')?;
    let code = hex::encode_upper(alloc, [character as u8])?;
    shown.push_str(code.as_str())
}

// What is said, before the word at fault and numbers.
fn saying(cause: Cause<'_>) -> &'static str
    ensures { result.now ≡ Spec.saying cause.entry }
{
    match cause {
        Cause::NotUtf8 => "not UTF-8",
        Cause::Tab => "a tab",
        Cause::TwoBlanks => "two blanks between words",
        Cause::BlankInFront => "a blank in front",
        Cause::BlankAtEnd => "a blank at the end",
        Cause::UnknownWord(..) => "unknown word",
        Cause::Unexpected(_) => "unexpected word",
        Cause::UnknownKey(_) => "unknown key",
        Cause::NoNumber(_) => "no number:",
        Cause::NoHex(_) => "no hex:",
        Cause::Illegal {
            asked: AskedByte::CellByte,
            ..
        } => "an order's code:",
        Cause::Illegal {
            asked: AskedByte::Attribute,
            ..
        } => "no attribute, 20 to 3F:",
        Cause::Illegal {
            asked: AskedByte::Key,
            ..
        } => "no key:",
        Cause::NoByte(_) => "no byte in code page 037 for",
        Cause::NoBody(_) => "no body",
        Cause::Missing(_) => "a word is missing after",
        Cause::TooMany(_) => "one word too many:",
        Cause::Misplaced(_) => "it can't stand there:",
        Cause::Apart => "two blanks in front",
        Cause::OutOfRange { .. } => "not from ",
        Cause::OtherLength { .. } => "not ",
        Cause::Other => "it isn't a line of this script",
    }
}
