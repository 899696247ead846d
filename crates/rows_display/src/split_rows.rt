//! What a host reads from answers, and from the contents of signed numeric fields.

use crate::screens::{ONE_FIELD, apply, one_field, screen_with, two_fields};
use crate::{holds, same, same_at, same_bytes};
use std::alloc::Global;
use std::process::Abort;
use ws_code::{Address, Aid, Code, DataByte, Ffw, Push, Reason};
use ws_keys::{HostAnswer, HostFault, decode_signed, split_answer};
use ws_screen::{ReadKind, Screen};
use ws_stream::{AnswerPart, AnswerPlace, Answers, Element, FieldStart};

// The part that bytes begin with, and the number of its bytes.
fn first_part(place: AnswerPlace, bytes: &[u8]) -> Option<(AnswerPart, usize)> {
    let mut machine = Answers::start(place);
    for (at, byte) in bytes.iter().enumerate() {
        match machine.push(*byte) {
            Push::More => {}
            Push::Unit(part) => return Some((part, at + 1)),
            Push::Bad(_) => return None,
        }
    }
    None
}

fn put(rt: &impl Abort, parts: &mut Vec<AnswerPart>, part: AnswerPart) {
    parts.push(part).expect(rt, "memory");
}

// The parts of an answer's body.
fn parts_of(rt: &impl Abort, alloc: Global, body: &[u8]) -> Vec<AnswerPart> {
    let mut parts = Vec::new(alloc);
    let mut place = Answers::first();
    let mut rest = body;
    while !rest.is_empty() {
        let (part, count) = first_part(place, rest).expect(rt, "a part");
        assert!(rt; 1 <= count && count <= rest.len());
        place = Answers::after(&part);
        put(rt, &mut parts, part);
        rest = &rest[count..];
    }
    parts
}

fn put_byte(rt: &impl Abort, bytes: &mut Vec<u8>, byte: u8) {
    bytes.push(byte).expect(rt, "memory");
}

fn put_place(rt: &impl Abort, bytes: &mut Vec<u8>, place: Address) {
    put_byte(rt, bytes, place.row());
    put_byte(rt, bytes, place.col());
}

// What was read in one list: the cursor, the key, and of each field its place, the number of its bytes, and these.
fn listing(rt: &impl Abort, alloc: Global, answer: &HostAnswer) -> Vec<u8> {
    let mut bytes = Vec::new(alloc);
    put_place(rt, &mut bytes, answer.cursor);
    put_byte(rt, &mut bytes, answer.aid.byte());
    for field in answer.fields.as_slice() {
        put_place(rt, &mut bytes, field.address);
        let content = field.content.as_slice();
        assert!(rt; content.len() < 256);
        put_byte(rt, &mut bytes, content.len() as u8);
        bytes.extend_from_slice(content).expect(rt, "memory");
    }
    bytes
}

// A host that sent a body reads this from the body of an answer.
fn expect_read(rt: &impl Abort, alloc: Global, host: &[u8], answer: &[u8], read: &[u8]) {
    let screen = screen_with(rt, host);
    let kind = screen.pending().expect(rt, "a read");
    let parts = parts_of(rt, alloc, answer);
    let fields = split_answer(alloc, &screen, kind, parts.as_slice()).expect(rt, "an answer");
    same_bytes(rt, listing(rt, alloc, &fields).as_slice(), read);
}

#[test]
fn split_bob(rt: HostRuntime) {
    let alloc = rt.alloc();
    let answer = [0x06, 0x38, 0xF1, 0x11, 0x06, 0x35, 0xC2, 0xD6, 0xC2];
    let read = [0x06, 0x38, 0xF1, 0x06, 0x35, 3, 0xC2, 0xD6, 0xC2];
    expect_read(&rt, alloc, &ONE_FIELD, &answer, &read);
    let screen = screen_with(&rt, &ONE_FIELD);
    expect_mismatch(&rt, alloc, &screen, ReadKind::Mdt, b"HB");
}

#[test]
fn split_descending_fields(rt: HostRuntime) {
    let alloc = rt.alloc();
    let answer = [
        0x03, 0x02, 0xF1, 0x11, 0x03, 0x02, 0x11, 0x06, 0x35, 0xC1, 0x40, 0xC2,
    ];
    let read = [
        0x03, 0x02, 0xF1, 0x03, 0x02, 0, 0x06, 0x35, 3, 0xC1, 0x40, 0xC2,
    ];
    expect_read(&rt, alloc, &two_fields(0x48, 0x48, 0x52), &answer, &read);
}

#[test]
fn split_alternate_descending(rt: HostRuntime) {
    let alloc = rt.alloc();
    let answer = [
        0x03, 0x02, 0xF1, 0x11, 0x03, 0x02, 0x11, 0x06, 0x35, 0xC1, 0x00, 0xC2,
    ];
    let read = [
        0x03, 0x02, 0xF1, 0x03, 0x02, 0, 0x06, 0x35, 3, 0xC1, 0x00, 0xC2,
    ];
    expect_read(&rt, alloc, &two_fields(0x48, 0x48, 0x82), &answer, &read);
}

#[test]
fn split_all_input(rt: HostRuntime) {
    let alloc = rt.alloc();
    let answer = [
        0x03, 0x02, 0xF1, 0x40, 0x40, 0x40, 0x40, 0xC1, 0x40, 0xC2, 0x40, 0x40, 0x40,
    ];
    let read = [
        0x03, 0x02, 0xF1, 0x03, 0x02, 4, 0x40, 0x40, 0x40, 0x40, 0x06, 0x35, 6, 0xC1, 0x40, 0xC2,
        0x40, 0x40, 0x40,
    ];
    let host = two_fields(0x48, 0x40, 0x42);
    expect_read(&rt, alloc, &host, &answer, &read);
    let none = [0x03, 0x02, 0xF1];
    expect_read(&rt, alloc, &host, &none, &none);
}

fn byte(rt: &impl Abort) -> AnswerPart {
    AnswerPart::Byte(DataByte::new(0xC1).expect(rt, "data"))
}

fn head(rt: &impl Abort) -> AnswerPart {
    AnswerPart::Head {
        cursor: Address::new(6, 56).expect(rt, "a cell"),
        aid: Aid::from_byte(0xF1).expect(rt, "a key"),
    }
}

// A part by its letter: a head, a byte, the address of the earlier or the later field, or one where no field starts.
fn part(rt: &impl Abort, letter: u8) -> AnswerPart {
    let (row, col) = match letter {
        b'H' => return head(rt),
        b'B' => return byte(rt),
        b'E' => (3, 2),
        b'L' => (6, 53),
        _ => (3, 3),
    };
    AnswerPart::At(Address::new(row, col).expect(rt, "a cell"))
}

// Parts, by their letters, from which a host reads nothing.
fn expect_mismatch(
    rt: &impl Abort,
    alloc: Global,
    screen: &Screen,
    kind: ReadKind,
    letters: &[u8],
) {
    let mut parts = Vec::new(alloc);
    for letter in letters {
        put(rt, &mut parts, part(rt, *letter));
    }
    let read = split_answer(alloc, screen, kind, parts.as_slice());
    let refused = matches!(read, Err(HostFault::Reason(Reason::AnswerMismatch)));
    same_at(rt, letters, refused, true);
}

const MISMATCHES_OF_MODIFIED_FIELDS: [&[u8]; 11] = [
    // no head, or not first
    b"", b"EB", b"BH",
    // a second head
    b"HH", b"HEBH",
    // a byte before the first address
    b"HB", b"HBE",
    // no field starts there
    b"HXB",
    // addresses that don't ascend
    b"HLE", b"HEE",
    // more than the field's cells
    b"HEBBBBB",
];

#[test]
fn mismatches_of_modified_fields(rt: HostRuntime) {
    let alloc = rt.alloc();
    let screen = screen_with(&rt, &two_fields(0x48, 0x48, 0x52));
    for letters in &MISMATCHES_OF_MODIFIED_FIELDS {
        expect_mismatch(&rt, alloc, &screen, ReadKind::Mdt, letters);
    }
    let alternate = ReadKind::MdtAlternate;
    expect_mismatch(&rt, alloc, &screen, alternate, b"HEBBBBB");
    // more than the field's digit cells
    let signed = screen_with(&rt, &one_field(0x47, 0x00, 2, 0x52));
    expect_mismatch(&rt, alloc, &signed, ReadKind::Mdt, b"HLBB");
}

const MISMATCHES_OF_ALL_INPUT: [&[u8]; 5] = [
    // a byte too few, a byte too many
    b"HB", b"HBBB",
    // an address, a second head, no head
    b"HLBB", b"HBBH", b"BB",
];

#[test]
fn mismatches_of_all_input(rt: HostRuntime) {
    let screen = screen_with(&rt, &one_field(0x48, 0x00, 2, 0x42));
    for letters in &MISMATCHES_OF_ALL_INPUT {
        expect_mismatch(&rt, rt.alloc(), &screen, ReadKind::Input, letters);
    }
}

// A new screen with fields of the same length, so many places apart, all of them modified.
fn fields(rt: &impl Abort, count: u16, cells: u16, apart: u16) -> Screen {
    let mut screen = Screen::new();
    apply(rt, &mut screen, &Element::Write { cc1: 0, cc2: 0x08 });
    let format = Ffw::new(0x4800).expect(rt, "a format word");
    for index in 0..count {
        assert!(rt; apart < 1920 && index < 1920);
        let place = Address::at((index as u32 * apart as u32 % 1920) as u16).expect(rt, "a cell");
        apply(rt, &mut screen, &Element::Sba(place));
        let start = FieldStart::new(Some(format), &[], 0x20, cells).expect(rt, "a field");
        apply(rt, &mut screen, &Element::Sf(start));
    }
    screen
}

// Each field of a screen with so many bytes of content is read, where memory is ample.
fn expect_all_read(rt: &impl Abort, alloc: Global, screen: &Screen, kind: ReadKind, count: u16) {
    let mut parts = Vec::new(alloc);
    put(rt, &mut parts, head(rt));
    for field in screen.fields().as_slice() {
        if kind != ReadKind::Input {
            put(rt, &mut parts, AnswerPart::At(field.start));
        }
        for _ in 0..count {
            put(rt, &mut parts, byte(rt));
        }
    }
    let read = split_answer(alloc, screen, kind, parts.as_slice()).expect(rt, "memory");
    same(rt, read.fields.as_slice().len(), screen.fields().len());
    for field in read.fields.as_slice() {
        same(rt, field.content.as_slice().len(), count as usize);
    }
}

#[test]
fn fields_of_each_number(rt: HostRuntime) {
    let alloc = rt.alloc();
    for count in 0..257 {
        let screen = fields(&rt, count, 1, 3);
        expect_all_read(&rt, alloc, &screen, ReadKind::Mdt, 1);
        if count > 0 {
            expect_all_read(&rt, alloc, &screen, ReadKind::Input, 1);
        }
    }
}

// The most fields with all their cells: an answer of 2,307 bytes.
#[test]
fn the_most_fields(rt: HostRuntime) {
    let screen = fields(&rt, 256, 6, 7);
    same(&rt, screen.fields().len(), 256);
    for kind in [ReadKind::Input, ReadKind::Mdt, ReadKind::MdtAlternate] {
        expect_all_read(&rt, rt.alloc(), &screen, kind, 6);
    }
}

#[test]
fn contents_of_each_length(rt: HostRuntime) {
    let alloc = rt.alloc();
    let widest = fields(&rt, 1, 1919, 0);
    for count in 0..301 {
        expect_all_read(&rt, alloc, &widest, ReadKind::MdtAlternate, count);
    }
    expect_all_read(&rt, alloc, &widest, ReadKind::Mdt, 1918);
    expect_all_read(&rt, alloc, &widest, ReadKind::Mdt, 1919);
    expect_all_read(&rt, alloc, &widest, ReadKind::Input, 1919);
}

fn expect_number(rt: &impl Abort, bytes: &[u8], negative: bool, digits: &[u8]) {
    let number = decode_signed(bytes).expect(rt, "a number");
    same(rt, number.negative, negative);
    same(rt, number.digits.as_slice(), digits);
}

#[test]
fn signed_contents(rt: HostRuntime) {
    expect_number(&rt, &[0x40, 0x40, 0xF1, 0xD2], true, &[1, 2]);
    expect_number(&rt, &[0x40, 0x40, 0xF1, 0xF2], false, &[1, 2]);
    expect_number(&rt, &[0xF0, 0xF0, 0xF1, 0xD2], true, &[0, 0, 1, 2]);
    expect_number(&rt, &[], false, &[]);
    expect_number(&rt, &[0x40; 1918], false, &[]);
    holds(&rt, decode_signed(&[0x40; 1919]).is_none());
}

#[test]
fn blank_after_digit(rt: HostRuntime) {
    holds(&rt, decode_signed(&[0xF1, 0x40]).is_none());
    holds(&rt, decode_signed(&[0xD1, 0xF2]).is_none());
    holds(&rt, decode_signed(&[0x00, 0xF2]).is_none());
}
