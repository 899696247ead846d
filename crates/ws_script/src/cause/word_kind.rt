//! Which words may stand after a line's first.
use crate::cause::AskedByte;
use crate::cause::cause_words::first_word;

/// The words that may stand at a place of a line.
#[derive(Clone, Copy)]
pub enum WordKind {
    /// Any one.
    Any,
    /// None.
    Unknown,
    /// A number, from the one to the other.
    Number(u32, u32),
    /// So many hex digits.
    Digits(u32),
    /// A byte in hex which is this.
    Value(AskedByte),
    /// Bytes in hex.
    Hex,
    /// The same, each of which stands for itself in a cell.
    Cells,
    /// The same, which are the last word, and a record's body.
    Body,
    /// The name of a key.
    Key,
    /// An opcode, not that of Cancel Invite.
    Opcode,
    /// Any opcode.
    AnyOpcode,
    /// The word `opcode`.
    OpcodeWord,
    /// The line may end here.
    End,
    /// All that stands there.
    AnyText,
    /// The same, but not nothing.
    SomeText,
    /// The same, of characters that code page 037 has.
    Coded,
    /// What a station waits for. Of this one and those after it the words that stand there settle which may.
    Awaited,
    /// What a host waits for.
    AnswerAwaited,
    /// A Telnet command.
    Command,
    /// A record's flags and opcode.
    Head,
    /// Format words, an attribute and a length.
    Field,
}

pub const ROW: WordKind = WordKind::Number(1, 24);

pub const COLUMN: WordKind = WordKind::Number(1, 80);

pub const BYTE: WordKind = WordKind::Digits(2);

const PAIR: WordKind = WordKind::Digits(4);

const SMALL: WordKind = WordKind::Number(0, 255);

pub const HOUR: WordKind = WordKind::Number(1, 3_600_000);

// The words of a Start of Field that has most.
static FIELD: [WordKind; 11] = [
    PAIR,
    PAIR,
    PAIR,
    PAIR,
    PAIR,
    PAIR,
    PAIR,
    PAIR,
    PAIR,
    WordKind::Value(AskedByte::Attribute),
    WordKind::Number(0, 65_535),
];

/// The words that may stand after the first, where some of them settle what may.
pub fn settled(kinds: &'static [WordKind], rest: Option<&str>) -> &'static [WordKind] {
    match (kinds, rest.map(|words| first_word(words).0)) {
        ([WordKind::Field], _) => field(rest),
        ([WordKind::Awaited | WordKind::AnswerAwaited], None) => &[],
        ([WordKind::Awaited], Some("record")) | ([WordKind::AnswerAwaited], Some("answer")) => {
            &[WordKind::Any]
        }
        ([WordKind::Awaited], Some("text")) => &[WordKind::Any, WordKind::SomeText],
        ([WordKind::Awaited], Some("at")) => &[WordKind::Any, ROW, COLUMN, WordKind::SomeText],
        ([WordKind::Awaited], Some("quiet")) => &[WordKind::Any, HOUR],
        ([WordKind::AnswerAwaited], Some(_)) => &[WordKind::Key],
        ([WordKind::Command], Some("WILL" | "WONT" | "DO" | "DONT")) => &[WordKind::Any, SMALL],
        ([WordKind::Command], Some("SB")) => &[WordKind::Any, SMALL, WordKind::End, WordKind::Hex],
        (
            [WordKind::Command],
            Some("NOP" | "DM" | "BRK" | "IP" | "AO" | "AYT" | "EC" | "EL" | "GA") | None,
        ) => &[WordKind::Any],
        ([WordKind::Head], Some("opcode") | None) => &[WordKind::Any, WordKind::AnyOpcode],
        ([WordKind::Head], Some("flags")) => {
            &[
                WordKind::Any,
                PAIR,
                WordKind::OpcodeWord,
                WordKind::AnyOpcode,
            ]
        }
        ([WordKind::Awaited | WordKind::Command | WordKind::Head], Some(_)) => &[WordKind::Unknown],
        _ => kinds,
    }
}

// A field has as many format words as its line has words beside two.
fn field(rest: Option<&str>) -> &'static [WordKind] {
    let words = rest.map_or(0, |words| words.split(' ').count());
    &FIELD[FIELD.len() - words.max(2).min(FIELD.len())..]
}
