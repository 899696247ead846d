//! Parts of answers: what spells them, what is refused, and where.

use crate::{holds, same, same_bytes};
use arrayvec::ArrayVec;
use std::process::Abort;
use ws_code::{Address, Aid, Body, Code, DataByte, Push};
use ws_stream::{AnswerPart, AnswerPlace, Answers};

// The part that the bytes bring, or the reason for which the last one is refused. `None` where the part goes on.
type Answer = Option<(usize, Result<AnswerPart, u8>)>;

fn answer_to(place: AnswerPlace, bytes: &[u8]) -> Answer {
    let mut machine = Answers::start(place);
    for (at, byte) in bytes.iter().enumerate() {
        match machine.push(*byte) {
            Push::More => {}
            Push::Unit(part) => return Some((at, Ok(part))),
            Push::Bad(reason) => return Some((at, Err(reason.number()))),
        }
    }
    None
}

// The reason for which the last byte is refused, 0 where it ends a part, `None` where the part goes on.
fn outcome(place: AnswerPlace, bytes: &[u8]) -> Option<u8> {
    match answer_to(place, bytes) {
        Some((_, Ok(_))) => Some(0),
        Some((_, Err(reason))) => Some(reason),
        None => None,
    }
}

fn head(rt: &impl Abort, row: u8, col: u8, key: Option<Aid>) -> AnswerPart {
    AnswerPart::Head {
        cursor: Address::new(row, col).expect(rt, "address"),
        aid: key.expect(rt, "key"),
    }
}

// The bytes are the head of an answer with the cursor at 17, 5 and a function key.
fn expect_head(rt: &impl Abort, bytes: &[u8], number: u8) {
    let part = head(rt, 17, 5, Aid::function(number));
    same(rt, answer_to(Answers::first(), bytes), Some((2, Ok(part))));
    holds(rt, Answers::may_end(Answers::after(&part)));
}

#[test]
fn answer_keys(rt: HostRuntime) {
    expect_head(&rt, &[0x11, 0x05, 0x31], 1);
    expect_head(&rt, &[0x11, 0x05, 0x32], 2);
}

// Where the last row or column is this one: what one that there is comes to, else the reason.
fn up_to(last: u8, byte: u8, outcome: Option<u8>) -> Option<u8> {
    if byte >= 1 && byte <= last {
        outcome
    } else {
        Some(24)
    }
}

fn for_aid(byte: u8) -> Option<u8> {
    match byte {
        0xf1 | 0x31..=0x3c | 0xb1..=0xbc | 0xbd | 0xf3..=0xf6 | 0xf8 => Some(0),
        _ => Some(43),
    }
}

fn for_part(byte: u8) -> Option<u8> {
    match byte {
        0x11 => None,
        0x01..=0x04 | 0x10 | 0x12..=0x15 | 0x1d => Some(45),
        _ => Some(0),
    }
}

// Each byte where a row, a column, a key, a byte or an address of a field may stand.
#[test]
fn every_byte_of_an_answer(rt: HostRuntime) {
    let beginning = AnswerPlace::Beginning;
    let fields = AnswerPlace::Fields;
    for byte in 0..=255u8 {
        let row = up_to(24, byte, None);
        let column = up_to(80, byte, None);
        let last_column = up_to(80, byte, Some(0));
        same(&rt, outcome(beginning, &[byte]), row);
        same(&rt, outcome(beginning, &[0x01, byte]), column);
        same(&rt, outcome(beginning, &[0x18, 0x50, byte]), for_aid(byte));
        same(&rt, outcome(fields, &[byte]), for_part(byte));
        same(&rt, outcome(fields, &[0x11, byte]), row);
        same(&rt, outcome(fields, &[0x11, 0x18, byte]), last_column);
    }
}

// The part is spelled so, and begins an answer, or else goes on with one.
fn expect_spelled(rt: &impl Abort, part: &AnswerPart, bytes: &[u8], begins: bool) {
    let mut spelled = ArrayVec::new();
    Answers::spell(part, &mut spelled);
    same_bytes(rt, spelled.as_slice(), bytes);
    let may_begin = Answers::may_follow(AnswerPlace::Beginning, part);
    same(rt, may_begin, begins);
    let may_go_on = Answers::may_follow(AnswerPlace::Fields, part);
    same(rt, may_go_on, !begins);
}

#[test]
fn parts_spelled(rt: HostRuntime) {
    let head = head(&rt, 6, 53, Aid::from_byte(0xf1));
    let at = AnswerPart::At(Address::new(6, 53).expect(&rt, "address"));
    let byte = AnswerPart::Byte(DataByte::new(0xff).expect(&rt, "byte"));
    Answers::known(&head);
    expect_spelled(&rt, &head, &[0x06, 0x35, 0xf1], true);
    expect_spelled(&rt, &at, &[0x11, 0x06, 0x35], false);
    expect_spelled(&rt, &byte, &[0xff], false);
    holds(&rt, Answers::may_follow(Answers::first(), &head));
}
