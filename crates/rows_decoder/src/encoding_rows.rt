//! Items that are encoded: at the limits of a record, by each way to bytes and back, with an FF in a length.

use crate::command_rows::{PUT_FF_SHOWN, expect_shown};
use crate::encoder_rows::{expect_encoded, expect_fault, expect_reads, expect_writes, record};
use crate::vectors::{LENGTH_255, PUT_FF};
use crate::{holds, same};
use std::alloc::Global;
use std::process::Abort;
use ws_code::DataByte;
use ws_record::{
    EncodeFault, Item, Opcode, decode_all, encode, encoding_spells_its_items, one_reading,
    one_refusal, one_truncation,
};
use ws_stream::{Commands, Element};

// A record of a Write to Display and the byte so many times.
fn puts(rt: &impl Abort, alloc: Global, cc2: u8, byte: u8, count: usize) -> Item<Element> {
    let byte = DataByte::new(byte).expect(rt, "no order code");
    let mut body = Vec::new(alloc);
    let write = Element::Write { cc1: 0, cc2 };
    body.push(write).expect(rt, "memory");
    for _ in 0..count {
        body.push(Element::Put(byte)).expect(rt, "memory");
    }
    record(Opcode::PutGet, body)
}

#[test]
fn encode_limits(rt: HostRuntime) {
    let alloc = rt.alloc();
    let byte = DataByte::new(0xc1).expect(&rt, "no order code");
    let alone = vec![in alloc; Element::Put(byte)].expect(&rt, "memory");
    let bad = EncodeFault::BadSequence { index: 0 };
    let items = [record(Opcode::PutGet, alone)];
    expect_fault::<Commands, Element>(&rt, alloc, &items, bad);
    let items = [puts(&rt, alloc, 8, 0x40, 65_521)];
    let encoded = encode::<Commands>(alloc, &items).expect(&rt, "encoded");
    holds(&rt, encoded.starts_with(b"\xff\xff\xff\xff\x12\xa0"));
    same(&rt, encoded.len(), 65_539);
    let items = [puts(&rt, alloc, 8, 0x40, 65_522)];
    let fault = EncodeFault::TooBig { index: 0 };
    expect_fault::<Commands, Element>(&rt, alloc, &items, fault);
}

// `put-ff` by each way to bytes and back, over devices that fail wherever they may, and the laws at commands.
#[test]
fn encoded_and_read_back(rt: HostRuntime) {
    let items = [puts(&rt, rt.alloc(), 8, 0xff, 1)];
    expect_shown(&rt, rt.alloc(), "put-ff", &items, &[17], PUT_FF_SHOWN);
    expect_encoded::<Commands, Element>(&rt, rt.alloc(), &items, PUT_FF);
    expect_reads::<Commands, Element>(&rt, rt.alloc(), PUT_FF, &items);
    expect_writes::<Commands, Element>(&rt, rt.alloc(), &items, PUT_FF);
    one_reading::<Commands>();
    one_refusal::<Commands>();
    one_truncation::<Commands>();
    encoding_spells_its_items::<Commands>();
}

// `length-255`: the length's FF is doubled too.
#[test]
fn length_255(rt: HostRuntime) {
    let items = decode_all::<Commands>(rt.alloc(), LENGTH_255).expect(&rt, "a stream");
    let wanted = [puts(&rt, rt.alloc(), 0, 0x40, 241)];
    same(&rt, items.as_slice(), wanted.as_slice());
}
