//! Streams that are cut short, and streams in which a byte is another: all decoders say the same of them, and
//! what is accepted comes back from its encoding.

use crate::feed_rows::{Cut, heard};
use crate::same_at;
use crate::vectors::{LENGTH_255, REFUSED_BODIES, Side, VECTORS, Vector};
use std::alloc::Global;
use std::process::Abort;
use ws_code::{Body, Fault, List, Reason};
use ws_record::{Head, Item, Live, Record, Step, decode_all, encode};
use ws_stream::{AnswerPart, Answers, Commands, Element};

// What the steps of a live decoder make up: items, and the head and the units of a record that isn't whole.
#[derive(Drop)]
struct Made<U: Drop> {
    items: Vec<Item<U>>,
    head: Option<Head>,
    units: Vec<U>,
}

impl<U: Drop> Made<U> {
    fn new(alloc: Global) -> Self {
        Made {
            items: Vec::new(alloc),
            head: None,
            units: Vec::new(alloc),
        }
    }

    fn add(&mut self, rt: &impl Abort, item: Item<U>) {
        self.items.push(item).expect(rt, "memory");
    }

    // The record is whole.
    fn close(&mut self, rt: &impl Abort, alloc: Global) {
        let head = self.head.take().expect(rt, "a head");
        let units = std::mem::replace(&mut self.units, Vec::new(alloc));
        let record = Record {
            flags: head.flags,
            opcode: head.opcode,
            body: List::of(units),
        };
        self.add(rt, Item::Record(record));
    }

    // Takes a step, and gives the fault where it is one.
    fn take(&mut self, rt: &impl Abort, alloc: Global, step: Step<U>) -> Option<Fault> {
        match step {
            Step::More => {}
            Step::Open(head) => self.head = Some(head),
            Step::Unit(unit) => self.units.push(unit).expect(rt, "memory"),
            Step::Telnet(telnet) => self.add(rt, Item::Telnet(telnet)),
            Step::Close => self.close(rt, alloc),
            Step::Refused { place, reason } => return Some(Fault::Refused { place, reason }),
            Step::Failed => return Some(Fault::Failed),
        }
        None
    }
}

// What the steps give up to a fault, and the fault where there is one.
#[derive(Drop)]
struct GivenInSteps<U: Drop> {
    items: Vec<Item<U>>,
    end: Result<(), Fault>,
}

fn watched<B: Body>(rt: &impl Abort, alloc: Global, bytes: &[u8]) -> GivenInSteps<B::Unit> {
    let mut live = Live::<B>::new();
    let mut made = Made::new(alloc);
    for byte in bytes {
        if let Some(fault) = made.take(rt, alloc, live.push(*byte)) {
            return GivenInSteps {
                items: made.items,
                end: Err(fault),
            };
        }
    }
    GivenInSteps {
        items: made.items,
        end: live.finish(),
    }
}

// Whether items come back from their encoding.
fn come_back<B: Body<Unit = U>, U: PartialEq + Drop>(
    rt: &impl Abort,
    alloc: Global,
    items: &[Item<U>],
) -> bool {
    let spelling = encode::<B>(alloc, items).expect(rt, "a spelling");
    let back = decode_all::<B>(alloc, spelling.as_slice()).expect(rt, "items");
    back.as_slice() == items
}

// What all decoders say of the bytes: how many items they are, or the fault. None where two differ, also in the items
// before a fault, or where the items don't come back from their encoding.
fn answer<B: Body<Unit = U>, U: PartialEq + Drop>(
    rt: &impl Abort,
    alloc: Global,
    bytes: &[u8],
) -> Option<Result<usize, Fault>> {
    let in_bytes = heard::<B>(rt, alloc, bytes, Cut::Pieces(1));
    let in_steps = watched::<B>(rt, alloc, bytes);
    let items = in_bytes.items.as_slice();
    let fault = in_bytes.end.err();
    if in_steps.items.as_slice() != items || in_steps.end.err() != fault {
        return None;
    }
    match decode_all::<B>(alloc, bytes) {
        Ok(found) => {
            let same = fault.is_none() && found.as_slice() == items;
            (same && come_back::<B, U>(rt, alloc, items)).then_some(Ok(items.len()))
        }
        Err(found) => (fault == Some(found)).then_some(Err(found)),
    }
}

fn answer_from(
    rt: &impl Abort,
    side: Side,
    alloc: Global,
    bytes: &[u8],
) -> Option<Result<usize, Fault>> {
    match side {
        Side::FromHost => answer::<Commands, Element>(rt, alloc, bytes),
        Side::FromStation => answer::<Answers, AnswerPart>(rt, alloc, bytes),
    }
}

// What the first so many bytes of a stream come to, where they aren't the whole of it.
fn outcome_of_front(vector: &Vector, count: usize) -> Result<usize, Fault> {
    let at = count as u64;
    match vector.outcome {
        _ if count == 0 => Ok(0),
        Err(Fault::Refused { place, reason }) if place < at => Err(Fault::Refused {
            place,
            reason,
        }),
        _ => Err(Fault::Truncated { at }),
    }
}

// Each stream, and each front of it: cut inside a token or a record it is truncated where it ends, unless a byte of it
// is refused.
#[test]
fn truncation(rt: HostRuntime) {
    for vector in &VECTORS {
        expect_fronts(&rt, rt.alloc(), vector);
    }
    for vector in &REFUSED_BODIES {
        expect_fronts(&rt, rt.alloc(), vector);
    }
}

// The fault of a stream that is pushed byte by byte. A refusal comes with the byte that it names, and is the last
// step that says anything.
fn live_fault(bytes: &[u8]) -> Option<Fault> {
    let mut live = Live::<Commands>::new();
    for (at, byte) in bytes.iter().enumerate() {
        if let Step::Refused { place, reason } = live.push(*byte) {
            if place != at as u64 || !matches!(live.push(0), Step::Failed) {
                return Some(Fault::Failed);
            }
            return Some(Fault::Refused { place, reason });
        }
    }
    live.finish().err()
}

fn expect_fronts(rt: &impl Abort, alloc: Global, vector: &Vector) {
    let name = vector.name;
    for count in 0..vector.bytes.len() {
        let found = answer_from(rt, vector.side, alloc, &vector.bytes[..count]);
        let wanted = Some(outcome_of_front(vector, count));
        same_at(rt, (count, name), found, wanted);
    }
    let found = answer_from(rt, vector.side, alloc, vector.bytes);
    same_at(rt, name, found, Some(vector.outcome));
    if matches!(vector.side, Side::FromHost) {
        let found = live_fault(vector.bytes);
        same_at(rt, name, found, vector.outcome.err());
    }
}

// The decoders say the same for each value of the byte at a place.
fn expect_each_value(rt: &impl Abort, alloc: Global, vector: &Vector, at: usize) {
    let mut bytes = vector.bytes.to_vec(alloc).expect(rt, "memory");
    for value in 0..=255u8 {
        if let Some(byte) = bytes.get_mut(at) {
            *byte = value;
        }
        let found = answer_from(rt, vector.side, alloc, bytes.as_slice());
        same_at(rt, bytes.as_slice(), found.is_some(), true);
    }
}

// The same for each place of a stream.
fn expect_each_place(rt: &impl Abort, alloc: Global, vector: &Vector) {
    for at in 0..vector.bytes.len() {
        expect_each_value(rt, alloc, vector, at);
    }
}

// Each byte of each stream with each value. `length-255` has a test of its own, since it takes longest: with `rt try`
// minutes, for which `--seconds` has to be raised.
#[test]
fn change(rt: HostRuntime) {
    for vector in &VECTORS {
        if vector.bytes != LENGTH_255 {
            expect_each_place(&rt, rt.alloc(), vector);
        }
    }
}

#[test]
fn change_of_length_255(rt: HostRuntime) {
    for vector in &VECTORS {
        if vector.bytes == LENGTH_255 {
            expect_each_place(&rt, rt.alloc(), vector);
        }
    }
}

// `invite` with another value for one byte, the place that is then refused, and why.
const CHANGED_INVITES: [(&[u8], u64, Reason); 10] = [
    (
        b"\x01\x0a\x12\xa0\x00\x00\x04\x00\x00\x01\xff\xef",
        11,
        Reason::TooShort,
    ),
    (
        b"\x00\x0b\x12\xa0\x00\x00\x04\x00\x00\x01\xff\xef",
        11,
        Reason::TooShort,
    ),
    (
        b"\x00\x0a\x13\xa0\x00\x00\x04\x00\x00\x01\xff\xef",
        2,
        Reason::BadType,
    ),
    (
        b"\x00\x0a\x12\xa0\x01\x00\x04\x00\x00\x01\xff\xef",
        4,
        Reason::BadReserved,
    ),
    (
        b"\x00\x0a\x12\xa0\x00\x00\x05\x00\x00\x01\xff\xef",
        6,
        Reason::BadVariableLength,
    ),
    (
        b"\x00\x0a\x12\xa0\x00\x00\x04\x00\x00\x07\xff\xef",
        9,
        Reason::UnknownOpcode,
    ),
    (
        b"\x00\x0a\x12\xa0\x00\x00\x04\x00\x00\xff\xff\xef",
        10,
        Reason::UnknownOpcode,
    ),
    (
        b"\x00\x0a\x12\xa0\x00\x00\x04\x00\x00\x01\x41\xef",
        10,
        Reason::TooLong,
    ),
    (
        b"\x00\x0a\x12\xa0\x00\x00\x04\x00\x00\x01\xff\xff",
        11,
        Reason::TooLong,
    ),
    (
        b"\x00\x0a\x12\xa0\x00\x00\x04\x00\x00\x01\xff\xf0",
        11,
        Reason::StraySe,
    ),
];

#[test]
fn changed_invites(rt: HostRuntime) {
    for (bytes, place, reason) in &CHANGED_INVITES {
        let (place, reason) = (*place, *reason);
        let found = answer::<Commands, Element>(&rt, rt.alloc(), bytes);
        let wanted = Some(Err(Fault::Refused { place, reason }));
        same_at(&rt, bytes, found, wanted);
    }
}
