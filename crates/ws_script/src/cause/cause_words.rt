//! What is wrong with the words of a line.
ghost use Rattle.std.specs.Prelude.{◌≡◌, ◌++◌, ◌∷◌, [], List, ℕ, true, false, None};
ghost use Rattle.std.specs.Prelude.{IfSome, MatchResult};
ghost use Rattle.std.specs.List.{list_all};
ghost use Rattle.std.specs.Char.{is_ascii_hexdigit};
ghost use Rattle.ws_code.specs.Ebcdic.{byte_of};
ghost use Rattle.ws_printing.specs.script.ScriptFaults.{has_no_blank};
ghost use Rattle.ws_script.specs.cause.Causes.{EndsWith, IsAsked, IsLeft, IsTrueOf, StandsIn, behind_word, has_key, is_hex_text};
ghost use Rattle.ws_script.specs.declared.cause.vocabulary.Vocabulary.{Vocabulary as AVocabulary};

use crate::asked::live_address::cut;
use crate::cause::vocabulary::Vocabulary;
use crate::cause::word_kind::WordKind;
use crate::cause::{AskedByte, Cause};
use ws_code::{Aid, DataByte, ebcdic};
use ws_extended_station::ExtendedKey;
use ws_keys::Key;
use ws_printing::{NamedKey, aid_named, split_word};
use ws_record::Opcode;
use ws_text::{read_byte, read_number};

/// The word before the first blank, and what stands after it, where there is one.
pub fn first_word(text: &str) -> (&str, Option<&str>)
    ensures no_blank { has_no_blank result.0.now ≡ true }
    ensures split { text.now ≡ result.0.now ++ behind_word result.1 }
{
    match split_word(text) {
        Some((word, behind)) => (word, Some(behind)),
        None => (text, None),
    }
}

/// What is wrong with the words after this one, where something is: they are to be of these kinds.
pub fn wrong_words<'a>(
    vocabulary: Vocabulary,
    kinds: &[WordKind],
    first: &'a str,
    behind: Option<&'a str>,
) -> Option<Cause<'a>>
    ensures { (line : List ℕ) → IsLeft line first.now behind.entry
        → IfSome result (IsTrueOf vocabulary line) }
{
    let mut last = first;
    let mut rest = behind;
    for kind in kinds {
        match wrong_next(vocabulary, *kind, last, rest) {
            Ok((word, more)) => {
                last = word;
                rest = more;
            }
            Err(found) => return found,
        }
    }
    left_over(rest)
}

// The next word where it is of this kind, and what stands after it; otherwise what is wrong with it, or nothing where
// no more words are to be looked at.
fn wrong_next<'a>(
    vocabulary: Vocabulary,
    kind: WordKind,
    last: &'a str,
    rest: Option<&'a str>,
) -> Result<(&'a str, Option<&'a str>), Option<Cause<'a>>>
    ensures { (line : List ℕ) → IsLeft line last.now rest.entry
        → MatchResult result (λ next. IsLeft line next.0.now next.1)
        (λ found. IfSome found (IsTrueOf vocabulary line)) }
{
    let Some(words) = rest else {
        return Err(at_end(kind, last));
    };
    match kind {
        WordKind::End => Ok((last, rest)),
        WordKind::AnyText => Err(None),
        WordKind::SomeText | WordKind::Coded => Err(wrong_text(kind, words)),
        WordKind::Body if !words.is_empty() && is_hex(words) => { Err(Some(Cause::NoBody(words))) }
        _ => word_at(vocabulary, kind, words),
    }
}

// What is wrong where the line ends after this word.
fn at_end<'a>(kind: WordKind, last: &'a str) -> Option<Cause<'a>>
    ensures { IfSome result (λ cause. cause ≡ Cause.Missing last.entry) }
{
    match kind {
        WordKind::End => None,
        _ => Some(Cause::Missing(last)),
    }
}

// What is wrong with a text.
fn wrong_text<'a>(kind: WordKind, text: &str) -> Option<Cause<'a>>
    ensures { (vocabulary : AVocabulary) (line : List ℕ) → EndsWith line (32 ∷ text.now)
        → IfSome result (IsTrueOf vocabulary line) }
{
    match kind {
        WordKind::Coded => match uncoded(text) {
            Some(character) => Some(Cause::NoByte(character)),
            None => None,
        },
        _ if text.is_empty() => Some(Cause::BlankAtEnd),
        _ => None,
    }
}

// The first character that code page 037 has no byte for.
fn uncoded(text: &str) -> Option<char>
    ensures { IfSome result (λ character. byte_of character ≡ None) }
{
    for character in text.chars() {
        if ebcdic::from_char(character).is_none() {
            return Some(character);
        }
    }
    None
}

// The first word of these.
fn word_at<'a>(
    vocabulary: Vocabulary,
    kind: WordKind,
    words: &'a str,
) -> Result<(&'a str, Option<&'a str>), Option<Cause<'a>>>
    ensures { (line : List ℕ) → EndsWith line (32 ∷ words.now)
        → MatchResult result (λ next. IsLeft line next.0.now next.1)
        (λ found. IfSome found (IsTrueOf vocabulary line)) }
{
    match first_word(words) {
        ("", behind) => Err(Some(no_word(behind))),
        (word, behind) => match wrong_word(vocabulary, kind, word) {
            Some(cause) => Err(Some(or_tab(word, cause))),
            None => Ok((word, behind)),
        },
    }
}

// A tab in a word, or otherwise this cause.
fn or_tab<'a>(word: &str, cause: Cause<'a>) -> Cause<'a>
    ensures { (vocabulary : AVocabulary) (line : List ℕ) → StandsIn line word.now
        → IsTrueOf vocabulary line cause.entry → IsTrueOf vocabulary line result }
{
    if has_tab(word) { Cause::Tab } else { cause }
}

/// Whether a tab stands in a word.
pub fn has_tab(word: &str) -> bool
    ensures { result ≡ true → StandsIn word.now (9 ∷ []) }
{
    match cut(word, '\t') {
        Some(_) => true,
        None => false,
    }
}

// What is wrong where no word stands before this.
fn no_word<'a>(behind: Option<&str>) -> Cause<'a>
    ensures { (vocabulary : AVocabulary) (line : List ℕ)
        → EndsWith line (32 ∷ behind_word behind.entry) → IsTrueOf vocabulary line result }
{
    match behind {
        Some(_) => Cause::TwoBlanks,
        None => Cause::BlankAtEnd,
    }
}

// What is wrong where words are left.
fn left_over<'a>(rest: Option<&'a str>) -> Option<Cause<'a>>
    ensures { (vocabulary : AVocabulary) (line last : List ℕ) → IsLeft line last rest.entry
        → IfSome result (IsTrueOf vocabulary line) }
{
    match first_word(rest?) {
        ("", behind) => Some(no_word(behind)),
        (word, _) => Some(Cause::TooMany(word)),
    }
}

// What is wrong with a word that is to be of this kind.
fn wrong_word<'a>(vocabulary: Vocabulary, kind: WordKind, word: &'a str) -> Option<Cause<'a>>
    ensures { (line : List ℕ) → StandsIn line word.now → IfSome result (IsTrueOf vocabulary line) }
{
    match kind {
        WordKind::Number(least, most) => wrong_number(word, least, most),
        WordKind::Opcode => wrong_opcode(word, true),
        WordKind::AnyOpcode => wrong_opcode(word, false),
        WordKind::Digits(digits) => wrong_digits(word, digits),
        WordKind::Value(asked) => wrong_value(word, asked),
        WordKind::Hex | WordKind::Body => wrong_hex(word),
        WordKind::Cells => wrong_cells(word),
        WordKind::Key if !is_key(vocabulary, word) => Some(Cause::UnknownKey(word)),
        WordKind::Unknown => Some(Cause::Unexpected(word)),
        WordKind::OpcodeWord if word != "opcode" => Some(Cause::Unexpected(word)),
        _ => None,
    }
}

fn wrong_number<'a>(word: &'a str, least: u32, most: u32) -> Option<Cause<'a>>
    ensures { (vocabulary : AVocabulary) (line : List ℕ) → StandsIn line word.now
        → IfSome result (IsTrueOf vocabulary line) }
{
    let Some(number) = read_number(word) else {
        return Some(Cause::NoNumber(word));
    };
    if least <= number && number <= most {
        return None;
    }
    Some(Cause::OutOfRange { word, least, most })
}

fn wrong_opcode<'a>(word: &'a str, is_sent: bool) -> Option<Cause<'a>>
    ensures { (vocabulary : AVocabulary) (line : List ℕ) → StandsIn line word.now
        → IfSome result (IsTrueOf vocabulary line) }
{
    match wrong_number(word, 0, 255) {
        Some(cause) => Some(cause),
        None => match opcode_of(word) {
            None => Some(Cause::Unexpected(word)),
            Some(Opcode::CancelInvite) if is_sent => Some(Cause::Unexpected(word)),
            Some(_) => None,
        },
    }
}

fn opcode_of(word: &str) -> Option<Opcode> {
    match u8::try_from(read_number(word)?) {
        Ok(byte) => Opcode::from_byte(byte),
        Err(_) => None,
    }
}

fn wrong_digits<'a>(word: &'a str, digits: u32) -> Option<Cause<'a>>
    ensures { (vocabulary : AVocabulary) (line : List ℕ) → StandsIn line word.now
        → IfSome result (IsTrueOf vocabulary line) }
{
    if !has_digits_alone(word) {
        return wrong_hex(word);
    }
    if word.len() != digits as usize {
        return Some(Cause::OtherLength { word, digits });
    }
    None
}

// The same of a byte in hex.
fn wrong_value<'a>(word: &'a str, asked: AskedByte) -> Option<Cause<'a>>
    ensures { (vocabulary : AVocabulary) (line : List ℕ) → StandsIn line word.now
        → IfSome result (IsTrueOf vocabulary line) }
{
    match read_byte(word) {
        None => wrong_digits(word, 2),
        Some(byte) if is_asked(asked, byte) => None,
        Some(_) => Some(Cause::Illegal { word, asked }),
    }
}

// Whether a byte is what is asked.
fn is_asked(asked: AskedByte, byte: u8) -> bool
    ensures { result ≡ false → IsAsked asked byte → ⊥ }
{
    match asked {
        AskedByte::CellByte => DataByte::new(byte).is_some(),
        AskedByte::Attribute => byte >= 0x20 && byte < 0x40,
        AskedByte::Key => Aid::from_byte(byte).is_some(),
    }
}

// The same of bytes in hex, each of which stands for itself in a cell.
fn wrong_cells<'a>(word: &'a str) -> Option<Cause<'a>>
    ensures { (vocabulary : AVocabulary) (line : List ℕ) → StandsIn line word.now
        → IfSome result (IsTrueOf vocabulary line) }
{
    let mut rest = word;
    while let Some((pair, behind)) = rest.split_at_checked(2) {
        if let Some(cause) = wrong_value(pair, AskedByte::CellByte) {
            return Some(cause);
        }
        rest = behind;
    }
    wrong_hex(word)
}

fn wrong_hex<'a>(word: &'a str) -> Option<Cause<'a>>
    ensures { (vocabulary : AVocabulary) (line : List ℕ) → StandsIn line word.now
        → IfSome result (IsTrueOf vocabulary line) }
{
    if is_hex(word) {
        None
    } else {
        Some(Cause::NoHex(word))
    }
}

fn is_hex(word: &str) -> bool
    ensures { result ≡ is_hex_text word.now }
{
    has_digits_alone(word) && word.len() % 2 == 0
}

fn has_digits_alone(word: &str) -> bool
    ensures { result ≡ list_all is_ascii_hexdigit word.now }
{
    word.as_bytes().iter().all(|byte| byte.is_ascii_hexdigit())
}

// Whether a key has this name where such a line names one.
fn is_key(vocabulary: Vocabulary, name: &str) -> bool
    ensures { result ≡ has_key vocabulary name.now }
{
    match vocabulary {
        Vocabulary::Station => <Key as NamedKey>::named(name).is_some(),
        Vocabulary::ExtendedStation => <ExtendedKey as NamedKey>::named(name).is_some(),
        _ => aid_named(name).is_some(),
    }
}
