//! The words that lines of a script begin with, and those that may stand after each.
ghost use Rattle.std.specs.Prelude.{◌≡◌, map};
ghost use Rattle.std.specs.Option.{option_map};
ghost use Rattle.ws_script.specs.cause.Vocabularies as Spec;
ghost use Rattle.ws_script.specs.cause.Vocabularies.{vocabulary_words};
ghost use Rattle.ws_text.specs.Names.{look_up};

use crate::asked::sender::Sender;
use crate::cause::AskedByte;
use crate::cause::word_kind::{BYTE, COLUMN, HOUR, ROW, WordKind};

/// The kinds of lines of which some are bad.
#[derive(Clone, Copy, Debug, PartialEq, Eq)]
pub enum Vocabulary {
    /// Of a script of `connect --strict`.
    Station,
    /// Of one of `connect` without it.
    ExtendedStation,
    /// Of a script of `serve`.
    Host,
    /// Of one with `--any`.
    AnyHost,
    /// Items of a sender as text.
    Items(Sender),
    /// Units of a record of that sender, after two blanks each, and the switch with which there are more.
    Elements(Sender, Switch),
}

/// A switch with which a command reads what live hosts and their stations send.
#[derive(Clone, Copy, Debug, PartialEq, Eq)]
pub enum Switch {
    /// `--extended`.
    Extended,
    /// `--any`.
    Any,
}

// A word that lines begin with, and the words that may stand after it.
type Word = (&'static str, &'static [WordKind]);

static STATION: [Word; 13] = [
    ("type", &[WordKind::AnyText]),
    ("insert", &[WordKind::AnyText]),
    ("key", &[WordKind::Key]),
    ("cursor", &[ROW, COLUMN]),
    ("field", &[WordKind::Number(1, 256), WordKind::AnyText]),
    ("erase", &[]),
    ("newline", &[]),
    ("await", &[WordKind::Awaited]),
    (
        "show",
        &[WordKind::End, ROW, COLUMN, WordKind::Number(1, 1_920)],
    ),
    ("fields", &[]),
    ("cells", &[ROW]),
    ("status", &[]),
    ("note", &[WordKind::AnyText]),
];

// Those of a host, then those of both, then those of a host that takes any record.
static HOSTS: [Word; 11] = [
    ("send", &[WordKind::Opcode, WordKind::End, WordKind::Body]),
    ("cancel", &[]),
    ("await", &[WordKind::AnswerAwaited]),
    ("show", &[]),
    ("raw", &[WordKind::Hex]),
    ("telnet", &[WordKind::Command]),
    ("pause", &[HOUR]),
    ("close", &[]),
    ("end", &[]),
    ("send", &[WordKind::AnyOpcode, WordKind::End, WordKind::Hex]),
    ("await", &[WordKind::End, WordKind::Key]),
];

static ITEMS: [Word; 3] = [
    ("record", &[WordKind::Head]),
    ("telnet", &[WordKind::Command]),
    ("at", &[WordKind::Any, WordKind::AnyText]),
];

// The parts of an answer, the elements of the profile, from TEXT on, which is both, the commands that live hosts send
// beside it, and what is told at once.
static UNITS: [Word; 30] = [
    ("HEAD", &[ROW, COLUMN, WordKind::Value(AskedByte::Key)]),
    ("AT", &[ROW, COLUMN]),
    ("BYTES", &[WordKind::Cells]),
    ("TEXT", &[WordKind::Coded]),
    ("CLEAR-UNIT", &[]),
    ("CLEAR-FORMAT", &[]),
    ("WRITE", &[BYTE, BYTE]),
    ("READ-INPUT", &[BYTE, BYTE]),
    ("READ-MDT", &[BYTE, BYTE]),
    ("READ-MDT-ALTERNATE", &[BYTE, BYTE]),
    ("SOH", &[WordKind::End, WordKind::Hex]),
    ("RA", &[ROW, COLUMN, WordKind::Value(AskedByte::CellByte)]),
    ("EA", &[ROW, COLUMN, WordKind::Hex]),
    ("SBA", &[ROW, COLUMN]),
    ("IC", &[ROW, COLUMN]),
    ("MC", &[ROW, COLUMN]),
    ("SF", &[WordKind::Field]),
    ("PUT", &[WordKind::Cells]),
    ("QUERY", &[]),
    ("SAVE-SCREEN", &[]),
    ("RESTORE-SCREEN", &[]),
    ("WRITE-ERROR", &[]),
    ("READ-SCREEN", &[]),
    ("READ-IMMEDIATE", &[]),
    ("READ-IMMEDIATE-ALTERNATE", &[]),
    ("ROLL", &[BYTE, ROW, ROW]),
    ("SAVED", &[]),
    ("SCREEN", &[ROW, COLUMN]),
    ("IMMEDIATE", &[ROW, COLUMN]),
    ("QUERY-REPLY", &[WordKind::Hex]),
];

/// The words that may stand after this first word; `None` where no such line begins with it.
pub fn kinds_after(vocabulary: Vocabulary, word: &str) -> Option<&'static [WordKind]>
    ensures { option_map (λ kinds. kinds.now) result
        ≡ look_up word.now (vocabulary_words vocabulary) }
{
    for known in words_of(vocabulary) {
        if word == known.0 {
            return Some(known.1);
        }
    }
    None
}

// The words that such a line begins with.
pub(crate) fn words_of(vocabulary: Vocabulary) -> &'static [Word]
    ensures { map (λ known. (known.0.now, known.1.now)) result.now ≡ vocabulary_words vocabulary }
{
    match vocabulary {
        Vocabulary::Station | Vocabulary::ExtendedStation => &STATION,
        Vocabulary::Host => &HOSTS[..9],
        Vocabulary::AnyHost => &HOSTS[4..],
        Vocabulary::Items(_) => &ITEMS,
        Vocabulary::Elements(Sender::Host, _) => &UNITS[3..18],
        Vocabulary::Elements(Sender::ExtendedHost, _) => &UNITS[3..26],
        Vocabulary::Elements(Sender::Station, _) => &UNITS[..4],
        Vocabulary::Elements(Sender::ExtendedStation, _) => &UNITS,
    }
}

// Units with those that the switch adds; the same lines where it adds none.
pub(crate) fn wider(vocabulary: Vocabulary) -> Vocabulary
    ensures { result ≡ Spec.wider vocabulary }
{
    match vocabulary {
        Vocabulary::Elements(Sender::Host, switch) => {
            Vocabulary::Elements(Sender::ExtendedHost, switch)
        }
        Vocabulary::Elements(Sender::Station, switch) => {
            Vocabulary::Elements(Sender::ExtendedStation, switch)
        }
        _ => vocabulary,
    }
}
