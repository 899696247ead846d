//! Streams fed in pieces, cut in every way: the same items come, and the same fault.

use crate::decoder_rows::{Wanted, made};
use crate::{holds, same, same_at};
use std::alloc::Global;
use std::fmt::Debug;
use std::process::Abort;
use ws_code::{Body, Fault, Reason, SliceSource};
use ws_record::{
    Fed, Head, Item, Live, Opcode, RawBody, Receiver, Step, Stepped, decode_all, decode_from,
};
use ws_telnet::{CommandCode, Telnet};

/// Where a list of bytes is cut.
#[derive(Clone, Copy, Debug)]
pub(crate) enum Cut {
    // Into pieces of a size, which isn't 0.
    Pieces(usize),
    // In two, after so many bytes.
    Two(usize),
    // After the bytes whose bits are set, the first byte's the lowest.
    Bits(u32),
}

impl Cut {
    // The piece that begins with the byte at a place; at the end an empty one.
    fn piece(self, bytes: &[u8], from: usize) -> &[u8] {
        let rest = &bytes[from.min(bytes.len())..];
        let size = match self {
            Cut::Pieces(size) => size,
            Cut::Two(first) if from < first => first,
            Cut::Two(_) => rest.len(),
            Cut::Bits(bits) => {
                let mut size = 1usize;
                for at in from..31 {
                    if bits.wrapping_shr(at.min(31) as u32) & 1 == 1 {
                        break;
                    }
                    size = size.saturating_add(1);
                }
                size
            }
        };
        &rest[..size.min(rest.len())]
    }
}

/// What a receiver gives: items, the place of each item's last byte, and how many bytes it took or the fault.
#[derive(Drop)]
pub(crate) struct Given<U: Drop> {
    pub(crate) items: Vec<Item<U>>,
    pub(crate) places: Vec<u64>,
    pub(crate) end: Result<u64, Fault>,
}

/// What a receiver gives of the bytes, cut so. After an item the rest of its piece is fed, though it be empty, and an
/// empty piece is the last.
pub(crate) fn heard<B: Body>(
    rt: &impl Abort,
    alloc: Global,
    bytes: &[u8],
    cut: Cut,
) -> Given<B::Unit> {
    let mut receiver = Receiver::<B>::new(alloc);
    let mut heard = Given {
        items: Vec::new(alloc),
        places: Vec::new(alloc),
        end: Ok(0),
    };
    let mut taken = 0usize;
    // in two after no byte: the first piece is empty
    let mut rest: &[u8] = match cut {
        Cut::Two(0) => b"",
        _ => cut.piece(bytes, 0),
    };
    for _ in 0..=bytes.len().saturating_mul(2) {
        match receiver.feed(rest) {
            Ok(Fed { used, item }) => {
                taken = taken.saturating_add(used);
                rest = &rest[used..];
                match item {
                    Some(item) => {
                        heard.items.push(item).expect(rt, "memory");
                        let place = taken.saturating_sub(1) as u64;
                        heard.places.push(place).expect(rt, "memory");
                    }
                    None if used == 0 && taken == bytes.len() => break,
                    None => rest = cut.piece(bytes, taken),
                }
            }
            Err(fault) => {
                heard.end = Err(fault);
                return heard;
            }
        }
    }
    heard.end = match receiver.finish() {
        Ok(()) => Ok(taken as u64),
        Err(fault) => Err(fault),
    };
    heard
}

/// The steps that the bytes give one by one with their places, but for those with which nothing is complete.
pub(crate) fn steps_of<B: Body>(
    rt: &impl Abort,
    alloc: Global,
    bytes: &[u8],
) -> Vec<(usize, Step<B::Unit>)> {
    let mut live = Live::<B>::new();
    let mut steps = Vec::new(alloc);
    for (at, byte) in bytes.iter().enumerate() {
        let step = live.push(*byte);
        if !matches!(step, Step::More) {
            steps.push((at, step)).expect(rt, "memory");
        }
    }
    steps
}

// The same of bytes that are cut so, each step after the place of its last byte.
fn watched<B: Body>(
    rt: &impl Abort,
    alloc: Global,
    bytes: &[u8],
    cut: Cut,
) -> Vec<(usize, Step<B::Unit>)> {
    let mut live = Live::<B>::new();
    let mut steps = Vec::new(alloc);
    let mut taken = 0usize;
    let mut rest = cut.piece(bytes, 0);
    for _ in bytes {
        let Stepped { used, step } = live.feed(rest);
        taken = taken.saturating_add(used);
        rest = &rest[used..];
        if !matches!(step, Step::More) {
            steps
                .push((taken.saturating_sub(1), step))
                .expect(rt, "memory");
        }
        if rest.is_empty() {
            rest = cut.piece(bytes, taken);
        }
        if rest.is_empty() {
            break;
        }
    }
    steps
}

/// What a row's bytes are to give.
#[derive(Drop)]
pub(crate) struct Wants<'a, U> {
    pub(crate) items: &'a [Item<U>],
    pub(crate) places: &'a [u64],
    pub(crate) end: Result<u64, Fault>,
}

// What is found of the bytes at once is what the row wants.
fn expect_found<U: PartialEq + Debug + Drop>(
    rt: &impl Abort,
    row: &str,
    found: Result<Vec<Item<U>>, Fault>,
    wants: &Wants<U>,
) {
    match found {
        Ok(items) => {
            holds(rt, wants.end.is_ok());
            same_at(rt, row, items.as_slice(), wants.items);
        }
        Err(fault) => same_at(rt, row, Err(fault), wants.end),
    }
}

// A receiver gives the items at their places and the end, where the bytes are cut so.
fn expect_cut<B: Body<Unit = U>, U: PartialEq + Debug + Drop>(
    rt: &impl Abort,
    alloc: Global,
    bytes: &[u8],
    cut: Cut,
    wants: &Wants<U>,
) {
    let found = heard::<B>(rt, alloc, bytes, cut);
    same_at(rt, (bytes, cut), found.items.as_slice(), wants.items);
    same_at(rt, (bytes, cut), found.places.as_slice(), wants.places);
    same_at(rt, (bytes, cut), found.end, wants.end);
}

/// All decoders find what the row wants: at once, from a source, and by a receiver, however the bytes are cut in two or
/// into pieces of a size. So cut they give the steps of single bytes at the same places.
pub(crate) fn expect_each_way<B: Body<Unit = U>, U: PartialEq + Debug + Drop>(
    rt: &impl Abort,
    alloc: Global,
    row: &str,
    bytes: &[u8],
    wants: &Wants<U>,
) {
    expect_found(rt, row, decode_all::<B>(alloc, bytes), wants);
    let mut source = SliceSource::new(bytes);
    let found = decode_from::<B, SliceSource>(alloc, &mut source);
    expect_found(rt, row, found, wants);
    let steps = steps_of::<B>(rt, alloc, bytes);
    for size in 1..=24 {
        for cut in [Cut::Pieces(size), Cut::Two(size)] {
            expect_cut::<B, U>(rt, alloc, bytes, cut, wants);
            let found = watched::<B>(rt, alloc, bytes, cut);
            same_at(rt, (bytes, cut), found.as_slice(), steps.as_slice());
        }
    }
}

// `ff-in-every-cut`: after any of its bytes but the last.
#[test]
fn ff_in_every_cut(rt: HostRuntime) {
    let alloc = rt.alloc();
    let bytes = b"\x00\x0b\x12\xa0\x00\x00\x04\x00\x00\x03\xff\xff\xff\xef";
    let items = [made(&rt, alloc, Wanted::Record(Opcode::PutGet, b"\xff"))];
    let wants = Wants {
        items: &items,
        places: &[13],
        end: Ok(14),
    };
    expect_each_way::<RawBody, u8>(&rt, alloc, "ff-in-every-cut", bytes, &wants);
    for bits in 0..0x2000 {
        expect_cut::<RawBody, u8>(&rt, alloc, bytes, Cut::Bits(bits), &wants);
    }
}

#[test]
fn failed_after_refusal(rt: HostRuntime) {
    let mut receiver = Receiver::<RawBody>::new(rt.alloc());
    let (place, reason) = (1, Reason::LengthBelowHeader);
    let pieces: [(&[u8], Fault); 3] = [
        (b"\x00\x09", Fault::Refused { place, reason }),
        (b"", Fault::Failed),
        (b"\x00", Fault::Failed),
    ];
    for (piece, fault) in &pieces {
        same(&rt, receiver.feed(piece).err(), Some(*fault));
    }
    same(&rt, receiver.finish(), Err(Fault::Failed));
}

#[test]
fn failed_after_an_end(rt: HostRuntime) {
    let mut live = Live::<RawBody>::new();
    same(&rt, live.push(0xff), Step::More);
    same(&rt, live.finish(), Err(Fault::Truncated { at: 1 }));
    same(&rt, live.push(0xef), Step::Failed);
}

#[test]
fn bytes_behind_a_step_are_left(rt: HostRuntime) {
    let mut live = Live::<RawBody>::new();
    let fed = live.feed(b"\xff\xf1\x00\x09");
    same(&rt, fed.used, 2);
    let nop = Telnet::Command(CommandCode::Nop);
    same(&rt, fed.step, Step::Telnet(nop));
    let fed = live.feed(b"\x00\x09");
    same(&rt, fed.used, 2);
    let reason = Reason::LengthBelowHeader;
    same(&rt, fed.step, Step::Refused { place: 3, reason });
    same(&rt, live.feed(b"").step, Step::Failed);
}

// The high byte of the flags comes first.
#[test]
fn flags_as_they_come(rt: HostRuntime) {
    let bytes = b"\x00\x0a\x12\xa0\x00\x00\x04\x40\x01\x00\xff\xef";
    let items = decode_all::<RawBody>(rt.alloc(), bytes).expect(&rt, "a stream");
    match items.as_slice() {
        [Item::Record(record)] => same(&rt, record.flags, 0x4001),
        _ => panic!(rt; "a record"),
    }
    let head = Head {
        flags: 0x4001,
        opcode: Opcode::NoOperation,
        length: 10,
    };
    let mut live = Live::<RawBody>::new();
    same(&rt, live.feed(bytes).step, Step::Open(head));
}
