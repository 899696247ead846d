//! Streams decoded at once: their items, or where and why they are refused.
use crate::encoder_rows::record;
use crate::escaped::Escaped;
use crate::feed_rows::{Wants, expect_each_way, steps_of};
use crate::vectors::LENGTH_255;
use crate::{same, same_at};
use std::alloc::Global;
use std::process::Abort;
use ws_code::{Body, Fault, Reason};
use ws_record::{
    Head, Item, Opcode, RawBody, Step, decode_all, fronts_hold_items, one_fault, one_reading,
    one_refusal, one_truncation,
};
use ws_telnet::{CommandCode, Sub, Telnet};

/// An item that a row asks for. The flags of a record are all 0.
#[derive(Clone, Copy)]
pub(crate) enum Wanted<'a> {
    Record(Opcode, &'a [u8]),
    Command(CommandCode),
    Sub(u8, &'a [u8]),
}

// Bytes by name, the items that they give, and the places of the items' last bytes.
type Accepted<'a> = (&'a str, &'a [u8], &'a [Wanted<'a>], &'a [u64]);

// Bytes by name, the place of the one that is refused, and why.
type Refused<'a> = (&'a str, &'a [u8], u64, Reason);

// A record without a body, and one of a Write to Display and the byte FF.
pub(crate) const INVITE: Wanted = Wanted::Record(Opcode::Invite, b"");

pub(crate) const PUT_FF: Wanted = Wanted::Record(Opcode::PutGet, b"\x04\x11\x00\x08\xff");

pub(crate) fn made(rt: &impl Abort, alloc: Global, wanted: Wanted) -> Item<u8> {
    match wanted {
        Wanted::Record(opcode, body) => record(opcode, body.to_vec(alloc).expect(rt, "memory")),
        Wanted::Command(code) => Item::Telnet(Telnet::Command(code)),
        Wanted::Sub(option, data) => Item::Telnet(sub(rt, option, data)),
    }
}

fn sub(rt: &impl Abort, option: u8, data: &[u8]) -> Telnet {
    Telnet::Sub(Sub::new(option, data).expect(rt, "not too much data"))
}

pub(crate) fn all_made(rt: &impl Abort, alloc: Global, wanted: &[Wanted]) -> Vec<Item<u8>> {
    let mut items = Vec::new(alloc);
    for item in wanted {
        items.push(made(rt, alloc, *item)).expect(rt, "memory");
    }
    items
}

const DATA_64: &[u8] = b"AAAAAAAAAAAAAAAAAAAAAAAAAAAAAAAAAAAAAAAAAAAAAAAAAAAAAAAAAAAAAAAA";

// Subnegotiations with as many bytes as there may be, and with one too many.
const SUB_64: &[u8] =
    b"\xff\xfa\x18AAAAAAAAAAAAAAAAAAAAAAAAAAAAAAAAAAAAAAAAAAAAAAAAAAAAAAAAAAAAAAAA\xff\xf0";

const SUB_65: &[u8] =
    b"\xff\xfa\x18AAAAAAAAAAAAAAAAAAAAAAAAAAAAAAAAAAAAAAAAAAAAAAAAAAAAAAAAAAAAAAAAA";

const SUB_64_AND_FF: &[u8] =
    b"\xff\xfa\x18AAAAAAAAAAAAAAAAAAAAAAAAAAAAAAAAAAAAAAAAAAAAAAAAAAAAAAAAAAAAAAAA\xff\xff";

const ACCEPTED: [Accepted; 8] = [
    ("empty-stream", b"", &[], &[]),
    (
        "empty-stream, a command",
        b"\xff\xf1",
        &[Wanted::Command(CommandCode::Nop)],
        &[1],
    ),
    (
        "invite",
        b"\x00\x0a\x12\xa0\x00\x00\x04\x00\x00\x01\xff\xef",
        &[INVITE],
        &[11],
    ),
    (
        "put-ff",
        b"\x00\x0f\x12\xa0\x00\x00\x04\x00\x00\x03\x04\x11\x00\x08\xff\xff\xff\xef",
        &[PUT_FF],
        &[17],
    ),
    (
        "nop-inside-a-header",
        b"\x00\x0a\xff\xf1\x12\xa0\x00\x00\x04\x00\x00\x01\xff\xef",
        &[Wanted::Command(CommandCode::Nop), INVITE],
        &[3, 13],
    ),
    (
        "invite-twice",
        b"\x00\x0a\x12\xa0\x00\x00\x04\x00\x00\x01\xff\xef\x00\x0a\x12\xa0\x00\x00\x04\x00\x00\x01\xff\xef",
        &[INVITE, INVITE],
        &[11, 23],
    ),
    (
        "sub-inside-a-record",
        b"\x00\x0b\x12\xa0\x00\x00\x04\x00\x00\x03\xff\xfa\x18\x01\xff\xf0\x41\xff\xef",
        &[
            Wanted::Sub(0x18, b"\x01"),
            Wanted::Record(Opcode::PutGet, b"\x41"),
        ],
        &[15, 18],
    ),
    (
        "bad-tokens, as many bytes as there may be",
        SUB_64,
        &[Wanted::Sub(0x18, DATA_64)],
        &[68],
    ),
];

const REFUSED: [Refused; 15] = [
    (
        "header-too-early, length",
        b"\x00\x09",
        1,
        Reason::LengthBelowHeader,
    ),
    ("header-too-early, end", b"\xff\xef", 1, Reason::TooShort),
    (
        "one-byte-short",
        b"\x00\x0b\x12\xa0\x00\x00\x04\x00\x00\x03\xff\xef",
        11,
        Reason::TooShort,
    ),
    (
        "one-byte-long",
        b"\x00\x0a\x12\xa0\x00\x00\x04\x00\x00\x00\xff\xff",
        11,
        Reason::TooLong,
    ),
    ("bad-tokens, command", b"\xff\x00", 1, Reason::BadCommand),
    ("bad-tokens, stray end", b"\xff\xf0", 1, Reason::StraySe),
    (
        "bad-tokens, subnegotiation",
        b"\xff\xfa\x18\xff\x01",
        4,
        Reason::BadSub,
    ),
    ("bad-tokens, 65 bytes", SUB_65, 67, Reason::SubTooLong),
    (
        "bad-tokens, 64 bytes and FF",
        SUB_64_AND_FF,
        68,
        Reason::SubTooLong,
    ),
    (
        "data-past-the-length",
        b"\x00\x0a\x12\xa0\x00\x00\x04\x00\x00\x00\x41",
        10,
        Reason::TooLong,
    ),
    ("a wrong type", b"\x00\x0a\x13", 2, Reason::BadType),
    (
        "a wrong type's second byte",
        b"\x00\x0a\x12\xa1",
        3,
        Reason::BadType,
    ),
    (
        "reserved bytes",
        b"\x00\x0a\x12\xa0\x00\x01",
        5,
        Reason::BadReserved,
    ),
    (
        "a variable header",
        b"\x00\x0a\x12\xa0\x00\x00\x05",
        6,
        Reason::BadVariableLength,
    ),
    (
        "no opcode",
        b"\x00\x0a\x12\xa0\x00\x00\x04\x00\x00\x07",
        9,
        Reason::UnknownOpcode,
    ),
];

// All decoders give of each row's bytes what the row says.
fn expect_rows<B: Body<Unit = u8>>(
    rt: &impl Abort,
    alloc: Global,
    accepted: &[Accepted],
    refused: &[Refused],
) {
    for (row, bytes, items, places) in accepted {
        let items = all_made(rt, alloc, items);
        let wants = Wants {
            items: items.as_slice(),
            places,
            end: Ok(bytes.len() as u64),
        };
        expect_each_way::<B, u8>(rt, alloc, row, bytes, &wants);
    }
    for (row, bytes, place, reason) in refused {
        let (place, reason) = (*place, *reason);
        let fault = Fault::Refused { place, reason };
        expect_each_way::<B, u8>(rt, alloc, row, bytes, &nothing(fault));
    }
}

// No item, and the fault.
fn nothing<'a>(fault: Fault) -> Wants<'a, u8> {
    Wants {
        items: &[],
        places: &[],
        end: Err(fault),
    }
}

#[test]
fn raw_lists(rt: HostRuntime) {
    expect_rows::<RawBody>(&rt, rt.alloc(), &ACCEPTED, &REFUSED);
    one_reading::<RawBody>();
    one_fault::<RawBody>();
    fronts_hold_items::<RawBody>();
    one_refusal::<RawBody>();
    one_truncation::<RawBody>();
}

const TOO_EARLY: [&[u8]; 2] = [b"\x00\x0a\x12", b"\xff"];

// `header-too-early`: bytes that end too early, and a record before bytes that are refused.
#[test]
fn header_too_early(rt: HostRuntime) {
    let row = "header-too-early";
    for bytes in &TOO_EARLY {
        let at = bytes.len() as u64;
        let wants = nothing(Fault::Truncated { at });
        expect_each_way::<RawBody, u8>(&rt, rt.alloc(), row, bytes, &wants);
    }
    let (place, reason) = (13, Reason::LengthBelowHeader);
    let bytes = b"\x00\x0a\x12\xa0\x00\x00\x04\x00\x00\x01\xff\xef\x00\x09";
    let items = [made(&rt, rt.alloc(), INVITE)];
    let wants = Wants {
        items: &items,
        places: &[11],
        end: Err(Fault::Refused { place, reason }),
    };
    expect_each_way::<RawBody, u8>(&rt, rt.alloc(), row, bytes, &wants);
}

// `length-255`: the length's FF is doubled too.
#[test]
fn length_255(rt: HostRuntime) {
    let items = decode_all::<RawBody>(rt.alloc(), LENGTH_255).expect(&rt, "a stream");
    same(&rt, LENGTH_255.len(), 258);
    match items.as_slice() {
        [Item::Record(record)] => same(&rt, record.body.as_slice().len(), 245),
        _ => panic!(rt; "a record"),
    }
}

const ACCEPTED_ESCAPED: [Accepted; 2] = [
    (
        "no unit",
        b"\x00\x0a\x12\xa0\x00\x00\x04\x00\x00\x01\xff\xef",
        &[INVITE],
        &[11],
    ),
    (
        "04 first",
        b"\x00\x0c\x12\xa0\x00\x00\x04\x00\x00\x03\x04\xc1\xff\xef",
        &[Wanted::Record(Opcode::PutGet, b"\x04\xc1")],
        &[13],
    ),
];

const REFUSED_ESCAPED: [Refused; 2] = [
    (
        "another first",
        b"\x00\x0b\x12\xa0\x00\x00\x04\x00\x00\x03\xc1",
        10,
        Reason::NoEscape,
    ),
    (
        "an end behind 04",
        b"\x00\x0b\x12\xa0\x00\x00\x04\x00\x00\x03\x04\xff\xef",
        12,
        Reason::EndedInside,
    ),
];

// A body whose first byte must be 04, after which it may not end.
#[test]
fn another_body(rt: HostRuntime) {
    expect_rows::<Escaped>(&rt, rt.alloc(), &ACCEPTED_ESCAPED, &REFUSED_ESCAPED);
}

// The bytes give these steps, each at its place.
fn expect_steps(rt: &impl Abort, alloc: Global, bytes: &[u8], wanted: &[(usize, Step<u8>)]) {
    let found = steps_of::<RawBody>(rt, alloc, bytes);
    same_at(rt, bytes, found.as_slice(), wanted);
}

fn open(opcode: Opcode, length: u16) -> Step<u8> {
    Step::Open(Head {
        flags: 0,
        opcode,
        length,
    })
}

fn expect_invite_steps(rt: &impl Abort, alloc: Global) {
    let invite = b"\x00\x0a\x12\xa0\x00\x00\x04\x00\x00\x01\xff\xef";
    let wanted = [(9, open(Opcode::Invite, 10)), (11, Step::Close)];
    expect_steps(rt, alloc, invite, &wanted);
    let with_nop = b"\x00\x0a\xff\xf1\x12\xa0\x00\x00\x04\x00\x00\x01\xff\xef";
    let wanted = [
        (3, Step::Telnet(Telnet::Command(CommandCode::Nop))),
        (11, open(Opcode::Invite, 10)),
        (13, Step::Close),
    ];
    expect_steps(rt, alloc, with_nop, &wanted);
}

fn expect_put_steps(rt: &impl Abort, alloc: Global) {
    let put_ff = b"\x00\x0f\x12\xa0\x00\x00\x04\x00\x00\x03\x04\x11\x00\x08\xff\xff\xff\xef";
    let wanted = [
        (9, open(Opcode::PutGet, 15)),
        (10, Step::Unit(0x04)),
        (11, Step::Unit(0x11)),
        (12, Step::Unit(0x00)),
        (13, Step::Unit(0x08)),
        (15, Step::Unit(0xff)),
        (17, Step::Close),
    ];
    expect_steps(rt, alloc, put_ff, &wanted);
}

#[test]
fn live_steps(rt: HostRuntime) {
    expect_invite_steps(&rt, rt.alloc());
    expect_put_steps(&rt, rt.alloc());
    let with_sub = b"\x00\x0b\x12\xa0\x00\x00\x04\x00\x00\x03\xff\xfa\x18\x01\xff\xf0\x41\xff\xef";
    let wanted = [
        (9, open(Opcode::PutGet, 11)),
        (15, Step::Telnet(sub(&rt, 0x18, b"\x01"))),
        (16, Step::Unit(0x41)),
        (18, Step::Close),
    ];
    expect_steps(&rt, rt.alloc(), with_sub, &wanted);
}

// `bad-tokens`: a subnegotiation with as many bytes as there may be, and with one too many.
#[test]
fn bad_tokens(rt: HostRuntime) {
    let wanted = [(68, Step::Telnet(sub(&rt, 0x18, DATA_64)))];
    expect_steps(&rt, rt.alloc(), SUB_64, &wanted);
    let reason = Reason::SubTooLong;
    let wanted = [(67, Step::Refused { place: 67, reason })];
    expect_steps(&rt, rt.alloc(), SUB_65, &wanted);
    let wanted = [(68, Step::Refused { place: 68, reason })];
    expect_steps(&rt, rt.alloc(), SUB_64_AND_FF, &wanted);
}

const REFUSED_BEFORE_A_HEADER: [(&[u8], Reason); 3] = [
    (b"\x00\x09\x00", Reason::LengthBelowHeader),
    (b"\xff\xef\x00", Reason::TooShort),
    (b"\xff\x00\x00", Reason::BadCommand),
];

// One byte less than the header declares, and one more: the bytes, the opcode and the length.
const REFUSED_BEHIND_A_HEADER: [(&[u8], Opcode, u16, Reason); 2] = [
    (
        b"\x00\x0b\x12\xa0\x00\x00\x04\x00\x00\x03\xff\xef\x00",
        Opcode::PutGet,
        11,
        Reason::TooShort,
    ),
    (
        b"\x00\x0a\x12\xa0\x00\x00\x04\x00\x00\x00\xff\xff\x00",
        Opcode::NoOperation,
        10,
        Reason::TooLong,
    ),
];

// `live-refusals`: a byte is refused once, and a further one fails.
#[test]
fn live_refusals(rt: HostRuntime) {
    for (bytes, reason) in &REFUSED_BEFORE_A_HEADER {
        let (place, reason) = (1, *reason);
        let refusal = Step::Refused { place, reason };
        let wanted = [(1, refusal), (2, Step::Failed)];
        expect_steps(&rt, rt.alloc(), bytes, &wanted);
    }
    for (bytes, opcode, length, reason) in &REFUSED_BEHIND_A_HEADER {
        let (place, reason) = (11, *reason);
        let opened = open(*opcode, *length);
        let refusal = Step::Refused { place, reason };
        let wanted = [(9, opened), (11, refusal), (12, Step::Failed)];
        expect_steps(&rt, rt.alloc(), bytes, &wanted);
    }
}
