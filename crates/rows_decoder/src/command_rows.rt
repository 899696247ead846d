//! Telnet commands at each place of a stream, and the lines that are printed of them.

use crate::feed_rows::{Cut, Wants, expect_each_way, heard};
use crate::vectors::{INVITE, PUT_FF};
use crate::{holds, same, same_at, same_bytes};
use std::alloc::Global;
use std::process::Abort;
use ws_code::{Fault, Reason, VecSink};
use ws_record::{Head, Item, Live, Opcode, Step, decode_all};
use ws_stream::{Answers, Commands, Element};
use ws_text::{Output, put_item};

// A row, its bytes, and its items as they are shown, with the places of their last bytes.
type Accepted<'a> = (&'a str, &'a [u8], &'a str);

/// The lines of `put-ff`, whose one data byte is FF.
pub(crate) const PUT_FF_SHOWN: &str = "at 17 record flags 0000 opcode 3\n  WRITE 00 08\n  PUT FF\n";

const ACCEPTED: [Accepted; 9] = [
    ("empty-stream", b"", ""),
    ("empty-stream, a command", b"\xff\xf1", "at 1 telnet NOP\n"),
    ("invite", INVITE, "at 11 record flags 0000 opcode 1\n"),
    ("put-ff", PUT_FF, PUT_FF_SHOWN),
    (
        "nop-inside-a-header",
        b"\x00\x0a\xff\xf1\x12\xa0\x00\x00\x04\x00\x00\x01\xff\xef",
        "at 3 telnet NOP\nat 13 record flags 0000 opcode 1\n",
    ),
    (
        "a clear",
        b"\x00\x0c\x12\xa0\x00\x00\x04\x00\x00\x03\x04\x40\xff\xef",
        "at 13 record flags 0000 opcode 3\n  CLEAR-UNIT\n",
    ),
    (
        "alternate-refused",
        b"\x00\x0e\x12\xa0\x00\x00\x04\x00\x00\x03\x04\x82\x00\x00\xff\xef",
        "at 15 record flags 0000 opcode 3\n  READ-MDT-ALTERNATE 00 00\n",
    ),
    (
        "past-end",
        b"\x00\x13\x12\xa0\x00\x00\x04\x00\x00\x03\x04\x11\x00\x00\x11\x18\x50\xc1\xc2\xff\xef",
        "at 20 record flags 0000 opcode 3\n  WRITE 00 00\n  SBA 24 80\n  PUT C1C2\n",
    ),
    (
        "invite-twice",
        b"\x00\x0a\x12\xa0\x00\x00\x04\x00\x00\x01\xff\xef\x00\x0a\x12\xa0\x00\x00\x04\x00\x00\x01\xff\xef",
        "at 11 record flags 0000 opcode 1\nat 23 record flags 0000 opcode 1\n",
    ),
];

/// The lines of the items whose last bytes are at these places.
pub(crate) fn expect_shown(
    rt: &impl Abort,
    alloc: Global,
    row: &str,
    items: &[Item<Element>],
    places: &[u64],
    wanted: &str,
) {
    let mut sink = VecSink::new(alloc);
    same_at(rt, row, items.len(), places.len());
    for (at, item) in items.iter().enumerate() {
        let place = *places.get(at).expect(rt, "a place");
        let output = put_item(&mut sink, Output::Open, place, item);
        same_at(rt, row, output, Output::Open);
    }
    let text = str::from_utf8(sink.as_slice()).expect(rt, "a text");
    same_at(rt, row, text, wanted);
}

// The bytes give items that are shown so, and this end, to all decoders and however they are cut.
fn expect_told(
    rt: &impl Abort,
    alloc: Global,
    row: &str,
    bytes: &[u8],
    wanted: &str,
    end: Result<u64, Fault>,
) {
    let found = heard::<Commands>(rt, alloc, bytes, Cut::Two(0));
    let wants = Wants {
        items: found.items.as_slice(),
        places: found.places.as_slice(),
        end,
    };
    expect_shown(rt, alloc, row, wants.items, wants.places, wanted);
    expect_each_way::<Commands, Element>(rt, alloc, row, bytes, &wants);
}

#[test]
fn commands_decode(rt: HostRuntime) {
    for (row, bytes, wanted) in &ACCEPTED {
        let end = Ok(bytes.len() as u64);
        expect_told(&rt, rt.alloc(), row, bytes, wanted, end);
    }
    let query = b"\x00\x11\x12\xa0\x00\x00\x04\x00\x00\x03\x04\xf3";
    let (place, reason) = (11, Reason::StructuredField);
    let end = Err(Fault::Refused { place, reason });
    expect_told(&rt, rt.alloc(), "feed-query", query, "", end);
    // `invite` with F1 for its last byte: a command is told, and the record is still open
    let with_nop = b"\x00\x0a\x12\xa0\x00\x00\x04\x00\x00\x01\xff\xf1";
    let row = "a command in an open record";
    let end = Err(Fault::Truncated { at: 12 });
    expect_told(&rt, rt.alloc(), row, with_nop, "at 11 telnet NOP\n", end);
}

// `alternate-refused`, which is accepted: the record ends with its last byte, and its header with the tenth.
#[test]
fn alternate_by_live(rt: HostRuntime) {
    let mut live = Live::<Commands>::new();
    let bytes = b"\x00\x0e\x12\xa0\x00\x00\x04\x00\x00\x03\x04\x82\x00\x00\xff\xef";
    for (at, byte) in bytes.iter().enumerate() {
        let wanted = match at {
            9 => Step::Open(Head {
                flags: 0,
                opcode: Opcode::PutGet,
                length: 14,
            }),
            13 => Step::Unit(Element::ReadMdtAlternate { cc1: 0, cc2: 0 }),
            15 => Step::Close,
            _ => Step::More,
        };
        same_at(&rt, at, live.push(*byte), wanted);
    }
    holds(&rt, live.finish().is_ok());
}

fn expect_answer(rt: &impl Abort, alloc: Global, bytes: &[u8], wanted: &str) {
    let items = decode_all::<Answers>(alloc, bytes).expect(rt, wanted);
    let mut sink = VecSink::new(alloc);
    for item in items.iter() {
        let output = put_item(&mut sink, Output::Open, 14, item);
        same(rt, output, Output::Open);
    }
    same_bytes(rt, sink.as_slice(), wanted.as_bytes());
}

// `answer-keys`: two answers with the cursor at 17, 5, which differ in the key alone.
#[test]
fn answer_keys(rt: HostRuntime) {
    expect_answer(
        &rt,
        rt.alloc(),
        b"\x00\x0d\x12\xa0\x00\x00\x04\x00\x00\x03\x11\x05\x31\xff\xef",
        "at 14 record flags 0000 opcode 3\n  HEAD 17 5 31\n",
    );
    expect_answer(
        &rt,
        rt.alloc(),
        b"\x00\x0d\x12\xa0\x00\x00\x04\x00\x00\x03\x11\x05\x32\xff\xef",
        "at 14 record flags 0000 opcode 3\n  HEAD 17 5 32\n",
    );
}
