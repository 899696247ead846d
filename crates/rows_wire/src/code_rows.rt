//! Reasons, faults, lists, code page 037, addresses and attention keys: their numbers, names and texts.

use crate::{holds, same, same_at, same_bytes};
use arrayvec::ArrayVec;
use std::alloc::Global;
use std::fmt::Display;
use std::process::Abort;
use ws_code::{
    Address, Adjust, Aid, ByteList, CodePage, DataByte, Fault, Ffw, List, Reason, Shift, ShortList,
    code_pages_are_one_to_one, ebcdic, word,
};

// The reasons with their numbers and names, as they are printed.
const REASONS: [(Reason, u8, &str); 44] = [
    (Reason::BadCommand, 1, "BadCommand"),
    (Reason::StraySe, 2, "StraySe"),
    (Reason::BadSub, 3, "BadSub"),
    (Reason::SubTooLong, 4, "SubTooLong"),
    (Reason::LengthBelowHeader, 10, "LengthBelowHeader"),
    (Reason::BadType, 11, "BadType"),
    (Reason::BadReserved, 12, "BadReserved"),
    (Reason::BadVariableLength, 13, "BadVariableLength"),
    (Reason::UnknownOpcode, 14, "UnknownOpcode"),
    (Reason::TooLong, 15, "TooLong"),
    (Reason::TooShort, 16, "TooShort"),
    (Reason::NoEscape, 20, "NoEscape"),
    (Reason::UnknownCommand, 21, "UnknownCommand"),
    (Reason::BadAddress, 24, "BadAddress"),
    (Reason::BadSohLength, 25, "BadSohLength"),
    (Reason::Resequencing, 26, "Resequencing"),
    (Reason::BadEraseList, 27, "BadEraseList"),
    (Reason::BadRepeat, 28, "BadRepeat"),
    (Reason::BadFormatByte, 29, "BadFormatByte"),
    (Reason::StructuredField, 30, "StructuredField"),
    (Reason::AlternateSize, 31, "AlternateSize"),
    (Reason::SaveRestore, 32, "SaveRestore"),
    (Reason::Roll, 33, "Roll"),
    (Reason::ErrorCode, 34, "ErrorCode"),
    (Reason::ReadScreen, 35, "ReadScreen"),
    (Reason::ReadImmediate, 36, "ReadImmediate"),
    (Reason::ExtendedAttribute, 38, "ExtendedAttribute"),
    (Reason::TransparentData, 39, "TransparentData"),
    (Reason::DisplayStructuredField, 40, "DisplayStructuredField"),
    (Reason::TooManyFcws, 41, "TooManyFcws"),
    (Reason::LeftOutShift, 42, "LeftOutShift"),
    (Reason::BadAid, 43, "BadAid"),
    (Reason::EndedInside, 44, "EndedInside"),
    (Reason::BadAnswerByte, 45, "BadAnswerByte"),
    (Reason::BackwardAddress, 50, "BackwardAddress"),
    (Reason::PastEnd, 51, "PastEnd"),
    (Reason::ZeroLength, 52, "ZeroLength"),
    (Reason::FieldPastEnd, 53, "FieldPastEnd"),
    (Reason::FieldOverlap, 54, "FieldOverlap"),
    (Reason::TableFull, 55, "TableFull"),
    (
        Reason::RecordBeforeNegotiation,
        60,
        "RecordBeforeNegotiation",
    ),
    (Reason::UnsupportedTerminal, 61, "UnsupportedTerminal"),
    (Reason::UnaskedAnswer, 62, "UnaskedAnswer"),
    (Reason::AnswerMismatch, 63, "AnswerMismatch"),
];

#[test]
fn reasons_have_their_numbers_and_names(rt: HostRuntime) {
    for (reason, number, name) in &REASONS {
        same(&rt, reason.number(), *number);
        same(&rt, reason.name(), *name);
    }
}

// What is told has this text.
fn says<T: Display + Drop>(rt: &impl Abort, alloc: Global, told: T, text: &str) {
    let found = told.to_string(alloc).expect(rt, "memory");
    same(rt, found.as_str(), text);
}

const FAULTS: [(Fault, &str); 6] = [
    (
        Fault::Refused {
            place: 7,
            reason: Reason::BadVariableLength,
        },
        "refused at 7: reason 13 BadVariableLength",
    ),
    (Fault::Truncated { at: 12 }, "truncated at 12"),
    (Fault::Memory, "memory"),
    (Fault::Read, "cannot read"),
    (Fault::Write, "cannot write"),
    (Fault::Failed, "failed"),
];

#[test]
fn faults_have_their_texts(rt: HostRuntime) {
    for (fault, text) in &FAULTS {
        says(&rt, rt.alloc(), *fault, text);
    }
    says(&rt, rt.alloc(), Reason::Roll, "reason 33 Roll");
}

fn list_to(rt: &impl Abort, alloc: Global, last: u16) -> List<u16> {
    List::of([1, 2, last].to_vec(alloc).expect(rt, "memory"))
}

#[test]
fn lists_are_compared_by_what_they_hold(rt: HostRuntime) {
    let list = list_to(&rt, rt.alloc(), 3);
    same(&rt, list == list_to(&rt, rt.alloc(), 3), true);
    same(&rt, list == list_to(&rt, rt.alloc(), 4), false);
    short_lists_are_compared(&rt);
}

fn short_lists_are_compared(rt: &impl Abort) {
    let mut first = ShortList::<u8, 4>::new();
    first.push(0x41);
    let mut cleared = ShortList::new();
    cleared.push(0x42);
    cleared.push(0x43);
    same(rt, first == cleared, false);
    cleared.clear();
    cleared.push(0x41);
    same(rt, first == cleared, true);
}

#[test]
fn lists_keep_what_they_hold(rt: HostRuntime) {
    let list = list_to(&rt, rt.alloc(), 3);
    same(&rt, list.as_slice(), [1, 2, 3].as_slice());
    same(&rt, list.into_inner().as_slice(), [1, 2, 3].as_slice());
    let mut bytes = ArrayVec::new();
    bytes.push(0x41);
    let bytes = ByteList::<4>::of(bytes);
    same_bytes(&rt, bytes.as_slice(), &[0x41]);
    same_bytes(&rt, bytes.into_inner().as_slice(), &[0x41]);
}

// The code points of bytes 40 to FE, sixteen to a line.
#[rattlefmt::skip]
static LATIN_1: [u8; 191] = [
    0x20, 0xA0, 0xE2, 0xE4, 0xE0, 0xE1, 0xE3, 0xE5, 0xE7, 0xF1, 0xA2, 0x2E, 0x3C, 0x28, 0x2B, 0x7C,
    0x26, 0xE9, 0xEA, 0xEB, 0xE8, 0xED, 0xEE, 0xEF, 0xEC, 0xDF, 0x21, 0x24, 0x2A, 0x29, 0x3B, 0xAC,
    0x2D, 0x2F, 0xC2, 0xC4, 0xC0, 0xC1, 0xC3, 0xC5, 0xC7, 0xD1, 0xA6, 0x2C, 0x25, 0x5F, 0x3E, 0x3F,
    0xF8, 0xC9, 0xCA, 0xCB, 0xC8, 0xCD, 0xCE, 0xCF, 0xCC, 0x60, 0x3A, 0x23, 0x40, 0x27, 0x3D, 0x22,
    0xD8, 0x61, 0x62, 0x63, 0x64, 0x65, 0x66, 0x67, 0x68, 0x69, 0xAB, 0xBB, 0xF0, 0xFD, 0xFE, 0xB1,
    0xB0, 0x6A, 0x6B, 0x6C, 0x6D, 0x6E, 0x6F, 0x70, 0x71, 0x72, 0xAA, 0xBA, 0xE6, 0xB8, 0xC6, 0xA4,
    0xB5, 0x7E, 0x73, 0x74, 0x75, 0x76, 0x77, 0x78, 0x79, 0x7A, 0xA1, 0xBF, 0xD0, 0xDD, 0xDE, 0xAE,
    0x5E, 0xA3, 0xA5, 0xB7, 0xA9, 0xA7, 0xB6, 0xBC, 0xBD, 0xBE, 0x5B, 0x5D, 0xAF, 0xA8, 0xB4, 0xD7,
    0x7B, 0x41, 0x42, 0x43, 0x44, 0x45, 0x46, 0x47, 0x48, 0x49, 0xAD, 0xF4, 0xF6, 0xF2, 0xF3, 0xF5,
    0x7D, 0x4A, 0x4B, 0x4C, 0x4D, 0x4E, 0x4F, 0x50, 0x51, 0x52, 0xB9, 0xFB, 0xFC, 0xF9, 0xFA, 0xFF,
    0x5C, 0xF7, 0x53, 0x54, 0x55, 0x56, 0x57, 0x58, 0x59, 0x5A, 0xB2, 0xD4, 0xD6, 0xD2, 0xD3, 0xD5,
    0x30, 0x31, 0x32, 0x33, 0x34, 0x35, 0x36, 0x37, 0x38, 0x39, 0xB3, 0xDB, 0xDC, 0xD9, 0xDA,
];

#[test]
fn code_page(rt: HostRuntime) {
    for (place, point) in LATIN_1.iter().enumerate() {
        let byte = place as u8 + 0x40;
        let character = char::from(*point);
        same_at(&rt, byte, ebcdic::to_char(byte), Some(character));
        same_at(&rt, byte, ebcdic::from_char(character), Some(byte));
    }
    same(&rt, ebcdic::to_char(0x3F), None);
    same(&rt, ebcdic::to_char(0xFF), None);
    same(&rt, ebcdic::from_char('\u{9F}'), None);
    same(&rt, ebcdic::from_char('€'), None);
}

const PAGES: [u16; 20] = [
    37, 273, 277, 278, 280, 284, 285, 297, 500, 871, 1140, 1141, 1142, 1143, 1144, 1145, 1146,
    1147, 1148, 1149,
];

// What no script asks of the pages. Their tables are in python/tests.
#[test]
fn numbers_of_pages(rt: HostRuntime) {
    for number in &PAGES {
        let page = CodePage::from_number(*number).expect(&rt, "a page");
        same(&rt, page.number(), *number);
    }
    same(&rt, CodePage::default().number(), 37);
    code_pages_are_one_to_one();
}

// Rows and columns, and the places of their cells.
const CELLS: [(u8, u8, u16); 5] = [
    (1, 1, 0),
    (1, 80, 79),
    (2, 1, 80),
    (6, 53, 452),
    (24, 80, 1919),
];

const NO_CELLS: [(u8, u8); 4] = [(0, 1), (25, 1), (1, 0), (1, 81)];

fn expect_cell(rt: &impl Abort, row: u8, col: u8, place: u16) {
    let address = Address::new(row, col).expect(rt, "row and column");
    same(rt, address.place(), place);
    let found = Address::at(place).expect(rt, "place");
    same(rt, found, address);
    same(rt, (found.row(), found.col()), (row, col));
}

#[test]
fn addresses(rt: HostRuntime) {
    for (row, col, place) in &CELLS {
        expect_cell(&rt, *row, *col, *place);
    }
    for (row, col) in &NO_CELLS {
        same(&rt, Address::new(*row, *col), None);
    }
    same(&rt, Address::at(1920), None);
    same(&rt, Address::default().place(), 0);
}

// The bytes of the attention keys that aren't function keys, and whether field data come with them:
// Clear, Enter, Help, Roll Down, Roll Up, Print, Record Backspace.
const OTHER_KEYS: [(u8, bool); 7] = [
    (0xbd, false),
    (0xf1, true),
    (0xf3, false),
    (0xf4, true),
    (0xf5, true),
    (0xf6, false),
    (0xf8, false),
];

// The bytes of function keys 1 to 24, twelve to a line.
#[rattlefmt::skip]
const FUNCTION_KEYS: [u8; 24] = [
    0x31, 0x32, 0x33, 0x34, 0x35, 0x36, 0x37, 0x38, 0x39, 0x3a, 0x3b, 0x3c,
    0xb1, 0xb2, 0xb3, 0xb4, 0xb5, 0xb6, 0xb7, 0xb8, 0xb9, 0xba, 0xbb, 0xbc,
];

// Whether field data come with the key of a byte, where there is one.
fn carries_data(byte: u8) -> Option<bool> {
    for (key, data_follow) in &OTHER_KEYS {
        if *key == byte {
            return Some(*data_follow);
        }
    }
    FUNCTION_KEYS.contains(&byte).then_some(true)
}

// A byte that is a key's has it back, and tells whether field data come with it.
fn expect_key(rt: &impl Abort, byte: u8) {
    let found = match Aid::from_byte(byte) {
        Some(key) => {
            same(rt, key.byte(), byte);
            Some(key.carries_data())
        }
        None => None,
    };
    same_at(rt, byte, found, carries_data(byte));
}

#[test]
fn attention_keys(rt: HostRuntime) {
    for byte in 0..=255u8 {
        expect_key(&rt, byte);
    }
    function_keys(&rt);
}

fn expect_function_key(rt: &impl Abort, number: u8, byte: u8) {
    let key = Aid::function(number).expect(rt, "function key");
    same_at(rt, number, key.byte(), byte);
    same(rt, key.function_number(), Some(number));
}

// Each function key has its byte and its number, and no other key has one.
fn function_keys(rt: &impl Abort) {
    for (at, byte) in FUNCTION_KEYS.iter().enumerate() {
        expect_function_key(rt, at as u8 + 1, *byte);
    }
    for (byte, _) in &OTHER_KEYS {
        let key = Aid::from_byte(*byte).expect(rt, "key");
        same(rt, key.function_number(), None);
    }
    same(rt, Aid::function(0), None);
    same(rt, Aid::function(25), None);
}

const ORDERS: [u8; 11] = [
    0x01, 0x02, 0x03, 0x04, 0x10, 0x11, 0x12, 0x13, 0x14, 0x15, 0x1d,
];

// A byte is data, and has its value, unless it begins an order.
#[test]
fn data_bytes(rt: HostRuntime) {
    for byte in 0..=255u8 {
        match DataByte::new(byte) {
            Some(data) => {
                same(&rt, data.value(), byte);
                same_at(&rt, byte, ORDERS.contains(&byte), false);
            }
            None => same_at(&rt, byte, ORDERS.contains(&byte), true),
        }
    }
}

// A format word and what it says.
struct FormatRow {
    value: u16,
    // Whether it has bypass, dup, modified, monocase and mandatory enter: all or none.
    has_all: bool,
    shift: Shift,
    adjust: Option<Adjust>,
    // The word with its modified bit turned.
    turned: u16,
}

const FORMAT_WORDS: [FormatRow; 2] = [
    FormatRow {
        value: 0x4000,
        has_all: false,
        shift: Shift::Alphabetic,
        adjust: None,
        turned: 0x4800,
    },
    FormatRow {
        value: 0x7d2e,
        has_all: true,
        shift: Shift::DigitsOnly,
        adjust: Some(Adjust::RightBlank),
        turned: 0x752e,
    },
];

fn word_of(rt: &impl Abort, value: u16) -> Ffw {
    Ffw::new(value).expect(rt, "format word")
}

fn expect_format(rt: &impl Abort, row: &FormatRow) {
    let word = word_of(rt, row.value);
    same(rt, word.bypass(), row.has_all);
    same(rt, word.dup(), row.has_all);
    same(rt, word.modified(), row.has_all);
    same(rt, word.monocase(), row.has_all);
    same(rt, word.mandatory_enter(), row.has_all);
    same(rt, word.shift(), row.shift);
    same(rt, word.adjust(), row.adjust);
    let turned = word.with_modified(!row.has_all);
    same(rt, turned.value(), row.turned);
}

const SHIFTS: [(u16, Shift); 4] = [
    (0x4100, Shift::AlphabeticOnly),
    (0x4200, Shift::Numeric),
    (0x4300, Shift::NumericOnly),
    (0x4700, Shift::SignedNumeric),
];

const ADJUSTS: [(u16, Adjust); 2] = [(0x4005, Adjust::RightZero), (0x4007, Adjust::MandatoryFill)];

const NO_FORMAT_WORDS: [u16; 4] = [0x3fff, 0x4400, 0x4600, 0x8000];

#[test]
fn format_words(rt: HostRuntime) {
    for row in &FORMAT_WORDS {
        expect_format(&rt, row);
    }
    for (value, shift) in &SHIFTS {
        same(&rt, word_of(&rt, *value).shift(), *shift);
    }
    for (value, adjust) in &ADJUSTS {
        same(&rt, word_of(&rt, *value).adjust(), Some(*adjust));
    }
    for value in &NO_FORMAT_WORDS {
        same(&rt, Ffw::new(*value), None);
    }
    same(&rt, Ffw::new(0x4000), Some(Ffw::default()));
    same(&rt, Ffw::new(word(0x41, 0x02)), Ffw::new(0x4102));
}
