//! Elements of a host's body: what spells them, what is refused, and where.

use crate::{holds, same, same_bytes};
use arrayvec::ArrayVec;
use std::process::Abort;
use ws_code::{Address, Body, Code, DataByte, Ffw, Push};
use ws_stream::{Commands, Element, EraseList, FieldStart, Place, SohBytes, is_body};

// What the bytes of an element lead to: the place of its last byte, or of the one that is refused and the reason.
type Answer = Option<(usize, Result<(), u8>)>;

const MORE: Answer = None;

fn unit(at: usize) -> Answer {
    Some((at, Ok(())))
}

fn bad(at: usize, reason: u8) -> Answer {
    Some((at, Err(reason)))
}

fn answer_to(place: Place, bytes: &[u8]) -> Answer {
    let mut machine = Commands::start(place);
    for (at, byte) in bytes.iter().enumerate() {
        match machine.push(*byte) {
            Push::More => {}
            Push::Unit(_) => return unit(at),
            Push::Bad(reason) => return bad(at, reason.number()),
        }
    }
    MORE
}

// The element that the last byte ends, spelled again.
fn spelled_again(bytes: &[u8]) -> Option<ArrayVec<u8, 32>> {
    let mut machine = Commands::start(Place::Anything);
    for byte in bytes {
        match machine.push(*byte) {
            Push::More => {}
            Push::Unit(unit) => {
                Commands::known(&unit);
                let mut again = ArrayVec::new();
                Commands::spell(&unit, &mut again);
                return Some(again);
            }
            Push::Bad(_) => return None,
        }
    }
    None
}

// The bytes stand in a body after a Write to Display, and are refused at the place in the body.
fn expect_refused(rt: &impl Abort, bytes: &[u8], place: usize, reason: u8) {
    let write = answer_to(Commands::first(), &[0x04, 0x11, 0x00, 0x00]);
    same(rt, write, unit(3));
    let found = answer_to(Place::Anything, bytes);
    same(rt, found, bad(place.saturating_sub(4), reason));
}

// Read MDT Fields Alternate is taken.
#[test]
fn alternate_refused(rt: HostRuntime) {
    let found = answer_to(Commands::first(), &[0x04, 0x82, 0x00, 0x00]);
    same(&rt, found, unit(3));
}

#[test]
fn immediate_still_refused(rt: HostRuntime) {
    let found = answer_to(Commands::first(), &[0x04, 0x72, 0x00, 0x00]);
    same(&rt, found, bad(1, 36));
}

// A length above 7.
#[test]
fn soh_length(rt: HostRuntime) {
    expect_refused(&rt, &[0x01, 0x08], 5, 25);
}

#[test]
fn resequencing(rt: HostRuntime) {
    expect_refused(&rt, &[0x01, 0x03, 0x00, 0x00, 0x01], 8, 26);
}

// A length below 2, and a type that is neither 00 nor FF.
#[test]
fn erase_list(rt: HostRuntime) {
    expect_refused(&rt, &[0x03, 0x01, 0x01, 0x01], 7, 27);
    expect_refused(&rt, &[0x03, 0x01, 0x01, 0x02, 0x01], 8, 27);
}

// At the first byte, after the format word and after a control word.
#[test]
fn format_byte(rt: HostRuntime) {
    expect_refused(&rt, &[0x1d, 0x1f], 5, 29);
    expect_refused(&rt, &[0x1d, 0x40, 0x00, 0x40], 7, 29);
    expect_refused(&rt, &[0x1d, 0x40, 0x00, 0x80, 0x01, 0x40], 9, 29);
}

#[test]
fn left_out_shift(rt: HostRuntime) {
    expect_refused(&rt, &[0x1d, 0x44], 5, 42);
    expect_refused(&rt, &[0x1d, 0x46], 5, 42);
    let signed_numeric = [0x1d, 0x47, 0x00, 0x20, 0x00, 0x05];
    same(&rt, answer_to(Place::Anything, &signed_numeric), unit(5));
}

#[test]
fn repeat_of_an_order(rt: HostRuntime) {
    expect_refused(&rt, &[0x02, 0x01, 0x05, 0x11], 7, 28);
}

#[test]
fn no_escape(rt: HostRuntime) {
    same(&rt, answer_to(Commands::first(), &[0x40]), bad(0, 20));
}

#[test]
fn bad_address(rt: HostRuntime) {
    expect_refused(&rt, &[0x11, 0x18, 0x51], 6, 24);
    expect_refused(&rt, &[0x11, 0x00], 5, 24);
    expect_refused(&rt, &[0x11, 0x01, 0x00], 6, 24);
}

// A ninth control word.
#[test]
fn field_cut_short(rt: HostRuntime) {
    let field = [
        0x1d, 0x40, 0x00, 0x80, 0x01, 0x80, 0x02, 0x80, 0x03, 0x80, 0x04, 0x80, 0x05, 0x80, 0x06,
        0x80, 0x07, 0x80, 0x08, 0x80,
    ];
    expect_refused(&rt, &field, 23, 41);
}

fn after_escape(byte: u8) -> Answer {
    match byte {
        0x40 | 0x50 => unit(1),
        0x11 | 0x42 | 0x52 | 0x82 => MORE,
        0xf3 => bad(1, 30),
        0x20 => bad(1, 31),
        0x02 | 0x03 | 0x12 | 0x13 => bad(1, 32),
        0x23 => bad(1, 33),
        0x21 | 0x22 => bad(1, 34),
        0x62 | 0x64 | 0x66 | 0x68 | 0x6a | 0x6c => bad(1, 35),
        0x72 | 0x83 => bad(1, 36),
        _ => bad(1, 21),
    }
}

fn after_field(byte: u8) -> Answer {
    match byte {
        0x00..=0x1f | 0x80..=0xff => bad(1, 29),
        0x20..=0x3f => MORE,
        _ if matches!(byte & 0x07, 4 | 6) => bad(1, 42),
        _ => MORE,
    }
}

fn for_commands(byte: u8) -> Answer {
    match byte {
        0x04 => MORE,
        _ => bad(0, 20),
    }
}

fn for_orders(byte: u8) -> Answer {
    match byte {
        0x01..=0x04 | 0x11 | 0x13 | 0x14 | 0x1d => MORE,
        0x10 => bad(0, 39),
        0x12 => bad(0, 38),
        0x15 => bad(0, 40),
        _ => unit(0),
    }
}

// Each byte after 04, after 1D, and as the first of an element.
#[test]
fn every_byte(rt: HostRuntime) {
    let commands = Place::CommandsOnly;
    let anything = Place::Anything;
    for byte in 0..=255u8 {
        let escaped = after_escape(byte);
        same(&rt, answer_to(commands, &[0x04, byte]), escaped);
        same(&rt, answer_to(anything, &[0x04, byte]), escaped);
        let field = answer_to(anything, &[0x1d, byte]);
        same(&rt, field, after_field(byte));
        same(&rt, answer_to(commands, &[byte]), for_commands(byte));
        same(&rt, answer_to(anything, &[byte]), for_orders(byte));
    }
}

const ELEMENTS: [&[u8]; 17] = [
    &[0x04, 0x40],
    &[0x04, 0x50],
    &[0x04, 0x11, 0x00, 0x08],
    &[0x04, 0x42, 0x00, 0x00],
    &[0x04, 0x52, 0x20, 0x10],
    &[0x04, 0x82, 0xe0, 0x3b],
    &[0x01, 0x00],
    &[0x01, 0x07, 0x00, 0x00, 0x00, 0x18, 0xff, 0x00, 0x04],
    &[0x02, 0x18, 0x50, 0x40],
    &[0x03, 0x01, 0x01, 0x02, 0xff],
    &[0x03, 0x01, 0x05, 0x05, 0x00, 0xff, 0x00, 0xff],
    &[0x11, 0x06, 0x34],
    &[0x13, 0x01, 0x01],
    &[0x14, 0x18, 0x50],
    &[0x1d, 0x20, 0x00, 0x0a],
    &[0x1d, 0x48, 0x00, 0x80, 0x01, 0x20, 0x01, 0x0a],
    &[0xc1],
];

#[test]
fn elements_again(rt: HostRuntime) {
    for bytes in &ELEMENTS {
        let again = spelled_again(bytes).expect(&rt, "not read");
        same_bytes(&rt, again.as_slice(), bytes);
    }
}

#[test]
fn constructors(rt: HostRuntime) {
    let soh = SohBytes::new(&[0x00, 0x00, 0x00, 0x18]).expect(&rt, "SOH");
    same_bytes(&rt, soh.as_slice(), &[0x00, 0x00, 0x00, 0x18]);
    holds(&rt, SohBytes::new(&[0x00, 0x00, 0x01]).is_none());
    holds(&rt, SohBytes::new(&[0x00; 8]).is_none());
    let kinds = EraseList::new(&[0xff, 0x00]).expect(&rt, "EA");
    same_bytes(&rt, kinds.as_slice(), &[0xff, 0x00]);
    holds(&rt, EraseList::new(&[]).is_none());
    holds(&rt, EraseList::new(&[0x00; 5]).is_none());
    holds(&rt, EraseList::new(&[0x01]).is_none());
    expect_field(&rt);
    fields_are_compared(&rt);
    bad_fields(&rt);
}

fn expect_field(rt: &impl Abort) {
    let field = FieldStart::new(Ffw::new(0x4800), &[0x8001], 0x20, 10).expect(rt, "SF");
    same(rt, field.format(), Ffw::new(0x4800));
    same(rt, field.controls(), [0x8001].as_slice());
    same(rt, field.attribute(), 0x20);
    same(rt, field.length(), 10);
}

fn fields_are_compared(rt: &impl Abort) {
    let input = FieldStart::input(Ffw::default(), &[0x8001], 0x20, 10);
    let other = FieldStart::input(Ffw::default(), &[0x8002], 0x20, 10);
    holds(rt, input != other);
    let made = FieldStart::new(Some(Ffw::default()), &[0x8001], 0x20, 10);
    same(rt, input, made);
    let output = FieldStart::output(0x20, 10);
    same(rt, output, FieldStart::new(None, &[], 0x20, 10));
}

// Control words and an attribute: a word below 8000, nine words, and bytes that are no attribute.
const BAD_FIELDS: [(&[u16], u8); 4] = [
    (&[0x7fff], 0x20),
    (&[0x8000; 9], 0x20),
    (&[], 0x1f),
    (&[], 0x40),
];

fn bad_fields(rt: &impl Abort) {
    let input = FieldStart::input(Ffw::default(), &[0x7fff], 0x20, 10);
    holds(rt, input.is_none());
    holds(rt, FieldStart::output(0x40, 10).is_none());
    holds(rt, FieldStart::new(None, &[0x8001], 0x20, 10).is_none());
    for (words, attribute) in &BAD_FIELDS {
        let field = FieldStart::new(Ffw::new(0x4800), words, *attribute, 10);
        holds(rt, field.is_none());
    }
}

const COMMANDS: [(Element, Place); 6] = [
    (Element::ClearUnit, Place::CommandsOnly),
    (Element::ClearFormat, Place::CommandsOnly),
    (Element::ReadInput { cc1: 0, cc2: 0 }, Place::CommandsOnly),
    (Element::ReadMdt { cc1: 0, cc2: 0 }, Place::CommandsOnly),
    (
        Element::ReadMdtAlternate { cc1: 0, cc2: 0 },
        Place::CommandsOnly,
    ),
    (Element::Write { cc1: 0, cc2: 8 }, Place::Anything),
];

fn expect_command(rt: &impl Abort, element: &Element, next: Place) {
    holds(rt, Commands::may_follow(Commands::first(), element));
    same(rt, Commands::after(element), next);
    holds(rt, Commands::may_end(next));
}

fn expect_order(rt: &impl Abort, element: &Element) {
    holds(rt, !Commands::may_follow(Place::CommandsOnly, element));
    holds(rt, Commands::may_follow(Place::Anything, element));
    same(rt, Commands::after(element), Place::Anything);
}

#[test]
fn may_follow(rt: HostRuntime) {
    for (element, next) in &COMMANDS {
        expect_command(&rt, element, *next);
    }
    let to = Address::new(6, 53).expect(&rt, "address");
    let byte = DataByte::new(0x40).expect(&rt, "byte");
    expect_order(&rt, &Element::Sba(to));
    expect_order(&rt, &Element::Ra { to, byte });
    expect_order(&rt, &Element::Put(byte));
}

#[test]
fn bodies(rt: HostRuntime) {
    let byte = DataByte::new(0xc1).expect(&rt, "byte");
    let put = Element::Put(byte);
    let write = Element::Write { cc1: 0, cc2: 8 };
    let read = Element::ReadMdt { cc1: 0, cc2: 0 };
    holds(&rt, is_body(&[]));
    holds(&rt, is_body(&[Element::ClearUnit, write, put, read]));
    let put = Element::Put(byte);
    let read = Element::ReadMdt { cc1: 0, cc2: 0 };
    holds(&rt, !is_body(&[read, put]));
    holds(&rt, !is_body(&[Element::Put(byte)]));
}
