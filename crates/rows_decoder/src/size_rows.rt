//! Want of memory is answered only where a growth was refused. No clause says when one was, so these tests, in
//! which none is, go through the sizes at which lists grow and counters turn.

use crate::decoder_rows::{Wanted, made};
use crate::encoder_rows::repeated;
use crate::feed_rows::{Cut, heard};
use crate::vectors::INVITE;
use crate::{holds, same_at};
use std::alloc::Global;
use std::process::Abort;
use ws_code::{Fault, SliceSource};
use ws_record::{
    Item, Opcode, RawBody, Receiver, decode_all, decode_both_ways, decode_from, encode,
    encode_and_decode,
};
use ws_telnet::CommandCode;

const LARGE_BODIES: [usize; 8] = [4083, 4084, 4085, 4095, 4096, 4097, 65_524, 65_525];

const LARGE_STREAMS: [usize; 10] = [
    510, 512, 514, 4095, 4096, 4097, 65_525, 65_534, 65_535, 65_536,
];

const PIECES: [usize; 4] = [1, 256, 4096, 65_535];

// How many items the bytes give to a receiver that takes them one by one.
fn taken(alloc: Global, bytes: &[u8]) -> Result<usize, Fault> {
    let mut receiver = Receiver::<RawBody>::new(alloc);
    let mut count = 0usize;
    for byte in bytes {
        match receiver.take(*byte) {
            Ok(Some(_)) => count = count.saturating_add(1),
            Ok(None) => {}
            Err(fault) => return Err(fault),
        }
    }
    match receiver.finish() {
        Ok(()) => Ok(count),
        Err(fault) => Err(fault),
    }
}

// How many items were found, or the fault.
fn count_of(found: &Result<Vec<Item<u8>>, Fault>) -> Result<usize, Fault> {
    match found {
        Ok(items) => Ok(items.len()),
        Err(fault) => Err(*fault),
    }
}

// Each decoder gives this answer of the bytes: how many items they are, or the fault.
fn expect_answer(
    rt: &impl Abort,
    alloc: Global,
    row: usize,
    bytes: &[u8],
    wanted: Result<usize, Fault>,
) {
    let at_once = decode_all::<RawBody>(alloc, bytes);
    same_at(rt, row, count_of(&at_once), wanted);
    let mut source = SliceSource::new(bytes);
    let from_source = decode_from::<RawBody, SliceSource>(alloc, &mut source);
    same_at(rt, row, count_of(&from_source), wanted);
    same_at(rt, row, taken(alloc, bytes), wanted);
    for size in &PIECES {
        let found = heard::<RawBody>(rt, alloc, bytes, Cut::Pieces(*size));
        let count = match found.end {
            Ok(_) => Ok(found.items.len()),
            Err(fault) => Err(fault),
        };
        same_at(rt, (row, *size), count, wanted);
    }
}

// A record with a body of a size is encoded, and decoded again however it is cut.
fn expect_body(rt: &impl Abort, alloc: Global, count: usize) {
    let items = [repeated(rt, alloc, 0x40, count)];
    let bytes = encode::<RawBody>(alloc, &items).expect(rt, "bytes");
    expect_answer(rt, alloc, count, bytes.as_slice(), Ok(1));
    let again = encode_and_decode::<RawBody>(alloc, &items).expect(rt, "items");
    same_at(rt, count, again.as_slice(), items.as_slice());
}

#[test]
fn bodies_of_each_size(rt: HostRuntime) {
    for count in 0..=300 {
        expect_body(&rt, rt.alloc(), count);
    }
    for count in &LARGE_BODIES {
        expect_body(&rt, rt.alloc(), *count);
    }
}

// Commands, cut after a number of bytes: whole ones are items, half a command is truncated.
fn expect_front(rt: &impl Abort, alloc: Global, bytes: &[u8], length: usize) {
    let wanted = if length % 2 == 0 {
        Ok(length / 2)
    } else {
        Err(Fault::Truncated { at: length as u64 })
    };
    let front = bytes.get(..length).expect(rt, "a front");
    expect_answer(rt, alloc, length, front, wanted);
}

#[test]
fn streams_of_each_length(rt: HostRuntime) {
    let mut bytes = Vec::new(rt.alloc());
    for _ in 0..32_769 {
        bytes.extend_from_slice(b"\xff\xf1").expect(&rt, "memory");
    }
    for length in 0..=300 {
        expect_front(&rt, rt.alloc(), bytes.as_slice(), length);
    }
    for length in &LARGE_STREAMS {
        expect_front(&rt, rt.alloc(), bytes.as_slice(), *length);
    }
}

// So many of an item are encoded with a size each, and come back.
fn expect_list(rt: &impl Abort, alloc: Global, item: Wanted, length: usize, size: usize) {
    let mut items = Vec::new(alloc);
    for _ in 0..length {
        items.push(made(rt, alloc, item)).expect(rt, "memory");
    }
    let bytes = encode::<RawBody>(alloc, items.as_slice()).expect(rt, "bytes");
    same_at(rt, length, bytes.len(), length.saturating_mul(size));
    expect_answer(rt, alloc, length, bytes.as_slice(), Ok(length));
}

// Lists of items of each length, past those at which lists grow, are encoded and come back.
#[test]
fn lists_of_each_length(rt: HostRuntime) {
    let record = Wanted::Record(Opcode::PutGet, b"\x40");
    let command = Wanted::Command(CommandCode::Nop);
    for length in 0..=300 {
        expect_list(&rt, rt.alloc(), record, length, 13);
        expect_list(&rt, rt.alloc(), command, length, 2);
    }
    expect_list(&rt, rt.alloc(), command, 32_769, 2);
}

#[test]
fn both_ways_are_answered(rt: HostRuntime) {
    let (at_once, from_source) = decode_both_ways::<RawBody>(rt.alloc(), INVITE);
    holds(&rt, at_once.is_ok() && from_source.is_ok());
}
