//! Items that are encoded and read back, and those that can't be.

use crate::decoder_rows::{INVITE, PUT_FF, Wanted, all_made, made};
use crate::escaped::Escaped;
use crate::{holds, same, same_at, same_bytes, says, vectors};
use std::alloc::Global;
use std::fmt::Debug;
use std::process::Abort;
use ws_code::{Body, FailingSink, FailingSource, Fault, List, StuckSink, VecSink};
use ws_record::{
    EncodeFault, Item, Opcode, RawBody, Record, decode_from, encode, encode_and_decode, encode_to,
    encoding_spells_its_items, write_record,
};
use ws_telnet::{CommandCode, Sub, Telnet, Verb};

/// A record whose flags are all 0.
pub(crate) fn record<U: Drop>(opcode: Opcode, body: Vec<U>) -> Item<U> {
    Item::Record(Record {
        flags: 0,
        opcode,
        body: List::of(body),
    })
}

/// A record whose body is so many times the byte.
pub(crate) fn repeated(rt: &impl Abort, alloc: Global, byte: u8, count: usize) -> Item<u8> {
    let body = vec![in alloc; byte; count].expect(rt, "memory");
    record(Opcode::PutGet, body)
}

/// The fault of the items, into memory and into a sink that stays empty.
pub(crate) fn expect_fault<B: Body<Unit = U>, U: Drop>(
    rt: &impl Abort,
    alloc: Global,
    items: &[Item<U>],
    fault: EncodeFault,
) {
    let mut sink = VecSink::new(alloc);
    let written = encode_to::<B, VecSink>(items, &mut sink);
    same(rt, written, Err(fault));
    holds(rt, sink.as_slice().is_empty());
    same(rt, encode::<B>(alloc, items).err(), Some(fault));
}

/// The items are encoded to these bytes, into memory and into a sink, and come back.
pub(crate) fn expect_encoded<B: Body<Unit = U>, U: PartialEq + Debug + Drop>(
    rt: &impl Abort,
    alloc: Global,
    items: &[Item<U>],
    bytes: &[u8],
) {
    let encoded = encode::<B>(alloc, items).expect(rt, "encoded");
    same_bytes(rt, encoded.as_slice(), bytes);
    let mut sink = VecSink::new(alloc);
    let written = encode_to::<B, VecSink>(items, &mut sink);
    same(rt, written, Ok(()));
    same_bytes(rt, sink.as_slice(), bytes);
    let back = encode_and_decode::<B>(alloc, items).expect(rt, "items");
    same(rt, back.as_slice(), items);
}

/// A source of the bytes fails after so many reads: a fault, but for the last, which says that there is no more.
pub(crate) fn expect_reads<B: Body<Unit = U>, U: PartialEq + Debug + Drop>(
    rt: &impl Abort,
    alloc: Global,
    bytes: &[u8],
    items: &[Item<U>],
) {
    for reads in 0..=bytes.len().saturating_add(1) {
        let mut source = FailingSource::new(bytes, reads as u64);
        let found = decode_from::<B, FailingSource>(alloc, &mut source);
        let fails = reads <= bytes.len();
        same_at(rt, reads, source.failures(), u64::from(fails));
        match found {
            Ok(found) if !fails => same_at(rt, reads, found.as_slice(), items),
            found => same_at(rt, reads, found.err(), Some(Fault::Read)),
        }
    }
}

/// The items, which the bytes spell, are written to a sink that fails after so many bytes.
pub(crate) fn expect_writes<B: Body<Unit = U>, U: Drop>(
    rt: &impl Abort,
    alloc: Global,
    items: &[Item<U>],
    bytes: &[u8],
) {
    for calls in 0..=bytes.len() {
        let mut sink = FailingSink::new(alloc, calls as u64);
        let written = encode_to::<B, FailingSink>(items, &mut sink).err();
        let fails = calls < bytes.len();
        same_at(rt, calls, written, fails.then_some(EncodeFault::Write));
        same_at(rt, calls, sink.as_slice(), &bytes[..calls]);
        same_at(rt, calls, sink.failures(), u64::from(fails));
    }
}

#[test]
fn put_ff(rt: HostRuntime) {
    let items = [made(&rt, rt.alloc(), PUT_FF)];
    expect_encoded::<RawBody, u8>(&rt, rt.alloc(), &items, vectors::PUT_FF);
    encoding_spells_its_items::<RawBody>();
}

const PUT_FF_BODY: &[u8] = b"\x04\x11\x00\x08\xff";

// `decode-source-fails`: a read that fails is a fault, wherever it comes.
#[test]
fn decode_source_fails(rt: HostRuntime) {
    let items = [made(&rt, rt.alloc(), INVITE)];
    expect_reads::<RawBody, u8>(&rt, rt.alloc(), vectors::INVITE, &items);
}

// `encode-sink-fails`, also where the record is written by itself.
#[test]
fn encode_sink_fails(rt: HostRuntime) {
    let items = [made(&rt, rt.alloc(), PUT_FF)];
    expect_writes::<RawBody, u8>(&rt, rt.alloc(), &items, vectors::PUT_FF);
    for calls in 0..=vectors::PUT_FF.len() {
        let mut sink = FailingSink::new(rt.alloc(), calls as u64);
        let written = write_record(&mut sink, 0, Opcode::PutGet, PUT_FF_BODY);
        same_at(&rt, calls, written.is_ok(), calls == 18);
        same_at(&rt, calls, sink.as_slice(), &vectors::PUT_FF[..calls]);
    }
}

#[test]
fn largest_raw_record(rt: HostRuntime) {
    let alloc = rt.alloc();
    let items = [repeated(&rt, alloc, 0x40, 65_525)];
    let encoded = encode::<RawBody>(alloc, &items).expect(&rt, "encoded");
    same(&rt, encoded.len(), 65_539);
    holds(&rt, encoded.starts_with(b"\xff\xff\xff\xff\x12\xa0"));
    holds(&rt, encoded.ends_with(b"\x40\x40\xff\xef"));
    let items = [repeated(&rt, alloc, 0x40, 65_526)];
    let fault = EncodeFault::TooBig { index: 0 };
    expect_fault::<RawBody, u8>(&rt, alloc, &items, fault);
}

const ESCAPED_BYTES: Wanted = Wanted::Record(Opcode::PutGet, b"\x04\x41\x41");

const ESCAPE_ALONE: Wanted = Wanted::Record(Opcode::PutGet, b"\x04");

const NO_ESCAPE: Wanted = Wanted::Record(Opcode::PutGet, b"\xc1");

// Records that begin with no escape, or end after one: the place of the first.
const BAD_SEQUENCES: [(&[Wanted], usize); 3] = [
    (&[NO_ESCAPE], 0),
    (&[ESCAPED_BYTES, NO_ESCAPE, NO_ESCAPE], 1),
    (&[ESCAPED_BYTES, ESCAPE_ALONE], 1),
];

#[test]
fn bad_sequence_first(rt: HostRuntime) {
    let alloc = rt.alloc();
    for (wanted, index) in &BAD_SEQUENCES {
        let items = all_made(&rt, alloc, wanted);
        let fault = EncodeFault::BadSequence { index: *index };
        expect_fault::<Escaped, u8>(&rt, alloc, items.as_slice(), fault);
    }
    let too_big_too = [repeated(&rt, alloc, 0xc1, 65_526)];
    let fault = EncodeFault::BadSequence { index: 0 };
    expect_fault::<Escaped, u8>(&rt, alloc, &too_big_too, fault);
    first_too_big(&rt, alloc);
    let items = [made(&rt, alloc, Wanted::Record(Opcode::PutGet, b"\x04\x41"))];
    let bytes = b"\x00\x0c\x12\xa0\x00\x00\x04\x00\x00\x03\x04\x41\xff\xef";
    expect_encoded::<Escaped, u8>(&rt, alloc, &items, bytes);
}

// Two records, of which the first, an escape and 65,525 bytes, is too big, and one that begins with no escape.
fn first_too_big(rt: &impl Abort, alloc: Global) {
    let mut body = vec![in alloc; 0x41; 65_526].expect(rt, "memory");
    if let Some(first) = body.get_mut(0) {
        *first = 0x04;
    }
    let items = [record(Opcode::PutGet, body), made(rt, alloc, NO_ESCAPE)];
    let fault = EncodeFault::TooBig { index: 0 };
    expect_fault::<Escaped, u8>(rt, alloc, &items, fault);
}

// Commands stand between records, and a subnegotiation's FF is doubled.
#[test]
fn commands_between_records(rt: HostRuntime) {
    expect_encoded::<RawBody, u8>(&rt, rt.alloc(), &[], b"");
    let sub = Sub::new(0x18, &[0x01, 0xff]).expect(&rt, "two bytes");
    let items = [
        Item::Telnet(Telnet::Command(CommandCode::Nop)),
        made(&rt, rt.alloc(), Wanted::Record(Opcode::Invite, b"\x41")),
        Item::Telnet(Telnet::Option(Verb::Will, 0x19)),
        Item::Telnet(Telnet::Sub(sub)),
    ];
    let bytes =
        b"\xff\xf1\x00\x0b\x12\xa0\x00\x00\x04\x00\x00\x01\x41\xff\xef\xff\xfb\x19\xff\xfa\x18\x01\xff\xff\xff\xf0";
    expect_encoded::<RawBody, u8>(&rt, rt.alloc(), &items, bytes);
}

// What a record's writer writes of a head and a body.
#[test]
fn records_are_written(rt: HostRuntime) {
    let mut sink = VecSink::new(rt.alloc());
    let written = write_record(&mut sink, 0, Opcode::PutGet, PUT_FF_BODY);
    same(&rt, written, Ok(()));
    same_bytes(&rt, sink.as_slice(), vectors::PUT_FF);
    let mut sink = VecSink::new(rt.alloc());
    let written = write_record(&mut sink, 0x80ff, Opcode::CancelInvite, &[]);
    let bytes = b"\x00\x0a\x12\xa0\x00\x00\x04\x80\xff\xff\x0a\xff\xef";
    same(&rt, written, Ok(()));
    same_bytes(&rt, sink.as_slice(), bytes);
    let written = write_record(&mut StuckSink, 0, Opcode::Invite, &[]);
    same(&rt, written, Err(Fault::Write));
}

const TEXTS: [(EncodeFault, &str); 4] = [
    (
        EncodeFault::TooBig { index: 2 },
        "item 2 is a record of more than 65,535 bytes",
    ),
    (
        EncodeFault::BadSequence { index: 0 },
        "item 0 is a record whose units are no body",
    ),
    (EncodeFault::Memory, "memory"),
    (EncodeFault::Write, "cannot write"),
];

#[test]
fn faults_have_their_texts(rt: HostRuntime) {
    for (fault, text) in &TEXTS {
        says(&rt, rt.alloc(), *fault, text);
    }
}
