//! Streams with what they come to, for every test that goes through them: the fault, or how many items they are.

use ws_code::{Fault, Reason};

/// What the bodies of a stream's records are.
#[derive(Clone, Copy)]
pub(crate) enum Side {
    FromHost,
    FromStation,
}

/// A stream by its name, who sends it, and what it comes to: how many items, or the fault.
#[derive(Clone, Copy)]
pub(crate) struct Vector<'a> {
    pub(crate) name: &'a str,
    pub(crate) side: Side,
    pub(crate) bytes: &'a [u8],
    pub(crate) outcome: Result<usize, Fault>,
}

/// A record without a body.
pub(crate) const INVITE: &[u8] = b"\x00\x0a\x12\xa0\x00\x00\x04\x00\x00\x01\xff\xef";

/// A record of a Write to Display and the byte FF, which is doubled.
pub(crate) const PUT_FF: &[u8] =
    b"\x00\x0f\x12\xa0\x00\x00\x04\x00\x00\x03\x04\x11\x00\x08\xff\xff\xff\xef";

/// A record of 255 bytes: the FF of its length is doubled. After a Write to Display stand 241 bytes 40.
pub(crate) const LENGTH_255: &[u8] =
    b"\x00\xff\xff\x12\xa0\x00\x00\x04\x00\x00\x03\x04\x11\x00\x00@@@@@@@@@@@@@@@@@@@@@@@@@@@@@@@@@@@@@@@@@@@@@@@@@@@@@@@@@@@@@@@@@@@@@@@@@@@@@@@@@@@@@@@@@@@@@@@@@@@@@@@@@@@@@@@@@@@@@@@@@@@@@@@@@@@@@@@@@@@@@@@@@@@@@@@@@@@@@@@@@@@@@@@@@@@@@@@@@@@@@@@@@@@@@@@@@@@@@@@@@@@@@@@@@@@@@@@@@@@@@@@@@@@@@@@@@@@@@@@@@\xff\xef";

// A form of one field at 6, 53, and the answer to it.
const BOB: &[u8] =
    b"\x00\x1d\x12\xa0\x00\x00\x04\x00\x00\x03\x04\x40\x04\x11\x00\x08\x11\x06\x34\x1d\x40\x00\x20\x00\x0a\x04\x52\x00\x00\xff\xef";

const BOB_ANSWER: &[u8] =
    b"\x00\x13\x12\xa0\x00\x00\x04\x00\x00\x03\x06\x38\xf1\x11\x06\x35\xc2\xd6\xc2\xff\xef";

/// The streams, as the worked rows name them.
pub(crate) const VECTORS: [Vector; 29] = [
    Vector {
        name: "empty-stream",
        side: Side::FromHost,
        bytes: b"",
        outcome: Ok(0),
    },
    Vector {
        name: "empty-stream: a command",
        side: Side::FromHost,
        bytes: b"\xff\xf1",
        outcome: Ok(1),
    },
    Vector {
        name: "invite",
        side: Side::FromHost,
        bytes: INVITE,
        outcome: Ok(1),
    },
    Vector {
        name: "put-ff",
        side: Side::FromHost,
        bytes: PUT_FF,
        outcome: Ok(1),
    },
    Vector {
        name: "length-255",
        side: Side::FromHost,
        bytes: LENGTH_255,
        outcome: Ok(1),
    },
    Vector {
        name: "query",
        side: Side::FromHost,
        bytes: b"\x00\x11\x12\xa0\x00\x00\x04\x00\x00\x03\x04\xf3\x00\x05\xd9\x70\x00\xff\xef",
        outcome: Err(Fault::Refused {
            place: 11,
            reason: Reason::StructuredField,
        }),
    },
    Vector {
        name: "header-too-early: length",
        side: Side::FromHost,
        bytes: b"\x00\x09",
        outcome: Err(Fault::Refused {
            place: 1,
            reason: Reason::LengthBelowHeader,
        }),
    },
    Vector {
        name: "header-too-early: end",
        side: Side::FromHost,
        bytes: b"\xff\xef",
        outcome: Err(Fault::Refused {
            place: 1,
            reason: Reason::TooShort,
        }),
    },
    Vector {
        name: "header-too-early: three bytes",
        side: Side::FromHost,
        bytes: b"\x00\x0a\x12",
        outcome: Err(Fault::Truncated { at: 3 }),
    },
    Vector {
        name: "header-too-early: half a pair",
        side: Side::FromHost,
        bytes: b"\xff",
        outcome: Err(Fault::Truncated { at: 1 }),
    },
    Vector {
        name: "one-byte-short",
        side: Side::FromHost,
        bytes: b"\x00\x0b\x12\xa0\x00\x00\x04\x00\x00\x03\xff\xef",
        outcome: Err(Fault::Refused {
            place: 11,
            reason: Reason::TooShort,
        }),
    },
    Vector {
        name: "one-byte-long",
        side: Side::FromHost,
        bytes: b"\x00\x0a\x12\xa0\x00\x00\x04\x00\x00\x00\xff\xff",
        outcome: Err(Fault::Refused {
            place: 11,
            reason: Reason::TooLong,
        }),
    },
    Vector {
        name: "nop-inside-a-header",
        side: Side::FromHost,
        bytes: b"\x00\x0a\xff\xf1\x12\xa0\x00\x00\x04\x00\x00\x01\xff\xef",
        outcome: Ok(2),
    },
    Vector {
        name: "bad-tokens: command",
        side: Side::FromHost,
        bytes: b"\xff\x00",
        outcome: Err(Fault::Refused {
            place: 1,
            reason: Reason::BadCommand,
        }),
    },
    Vector {
        name: "bad-tokens: stray end",
        side: Side::FromHost,
        bytes: b"\xff\xf0",
        outcome: Err(Fault::Refused {
            place: 1,
            reason: Reason::StraySe,
        }),
    },
    Vector {
        name: "bad-tokens: subnegotiation",
        side: Side::FromHost,
        bytes: b"\xff\xfa\x18\xff\x01",
        outcome: Err(Fault::Refused {
            place: 4,
            reason: Reason::BadSub,
        }),
    },
    Vector {
        name: "bad-tokens: 65 bytes",
        side: Side::FromHost,
        bytes: b"\xff\xfa\x18AAAAAAAAAAAAAAAAAAAAAAAAAAAAAAAAAAAAAAAAAAAAAAAAAAAAAAAAAAAAAAAAA",
        outcome: Err(Fault::Refused {
            place: 67,
            reason: Reason::SubTooLong,
        }),
    },
    Vector {
        name: "bad-tokens: 64 bytes and FF",
        side: Side::FromHost,
        bytes: b"\xff\xfa\x18AAAAAAAAAAAAAAAAAAAAAAAAAAAAAAAAAAAAAAAAAAAAAAAAAAAAAAAAAAAAAAAA\xff\xff",
        outcome: Err(Fault::Refused {
            place: 68,
            reason: Reason::SubTooLong,
        }),
    },
    Vector {
        name: "bad-tokens: 64 bytes",
        side: Side::FromHost,
        bytes: b"\xff\xfa\x18AAAAAAAAAAAAAAAAAAAAAAAAAAAAAAAAAAAAAAAAAAAAAAAAAAAAAAAAAAAAAAAA\xff\xf0",
        outcome: Ok(1),
    },
    Vector {
        name: "bad-address: column 81",
        side: Side::FromHost,
        bytes: b"\x00\x11\x12\xa0\x00\x00\x04\x00\x00\x03\x04\x11\x00\x00\x11\x18\x51\xff\xef",
        outcome: Err(Fault::Refused {
            place: 16,
            reason: Reason::BadAddress,
        }),
    },
    Vector {
        name: "bad-address: row 0",
        side: Side::FromHost,
        bytes: b"\x00\x11\x12\xa0\x00\x00\x04\x00\x00\x03\x04\x11\x00\x00\x11\x00",
        outcome: Err(Fault::Refused {
            place: 15,
            reason: Reason::BadAddress,
        }),
    },
    Vector {
        name: "past-end",
        side: Side::FromHost,
        bytes: b"\x00\x13\x12\xa0\x00\x00\x04\x00\x00\x03\x04\x11\x00\x00\x11\x18\x50\xc1\xc2\xff\xef",
        outcome: Ok(1),
    },
    Vector {
        name: "field-cut-short: end",
        side: Side::FromHost,
        bytes: b"\x00\x16\x12\xa0\x00\x00\x04\x00\x00\x03\x04\x11\x00\x00\x1d\x40\x00\x80\x01\x80\x02\xff\xef",
        outcome: Err(Fault::Refused {
            place: 22,
            reason: Reason::TooShort,
        }),
    },
    Vector {
        name: "field-cut-short: length",
        side: Side::FromHost,
        bytes: b"\x00\x15\x12\xa0\x00\x00\x04\x00\x00\x03\x04\x11\x00\x00\x1d\x40\x00\x80\x01\x80\x02\xff\xef",
        outcome: Err(Fault::Refused {
            place: 22,
            reason: Reason::EndedInside,
        }),
    },
    Vector {
        name: "field-cut-short: control word",
        side: Side::FromHost,
        bytes: b"\x00\x30\x12\xa0\x00\x00\x04\x00\x00\x03\x04\x11\x00\x00\x1d\x40\x00\x80\x01\x80\x02\x80\x03\x80\x04\x80\x05\x80\x06\x80\x07\x80\x08\x80",
        outcome: Err(Fault::Refused {
            place: 33,
            reason: Reason::TooManyFcws,
        }),
    },
    Vector {
        name: "answer-keys: F1",
        side: Side::FromStation,
        bytes: b"\x00\x0d\x12\xa0\x00\x00\x04\x00\x00\x03\x11\x05\x31\xff\xef",
        outcome: Ok(1),
    },
    Vector {
        name: "answer-keys: F2",
        side: Side::FromStation,
        bytes: b"\x00\x0d\x12\xa0\x00\x00\x04\x00\x00\x03\x11\x05\x32\xff\xef",
        outcome: Ok(1),
    },
    Vector {
        name: "bob",
        side: Side::FromHost,
        bytes: BOB,
        outcome: Ok(1),
    },
    Vector {
        name: "bob: the answer",
        side: Side::FromStation,
        bytes: BOB_ANSWER,
        outcome: Ok(1),
    },
];

/// Bodies that the code of commands refuses, each for a reason of its own, and the beginning of one.
pub(crate) const REFUSED_BODIES: [Vector; 8] = [
    Vector {
        name: "immediate-still-refused",
        side: Side::FromHost,
        bytes: b"\x00\x0e\x12\xa0\x00\x00\x04\x00\x00\x03\x04\x72\x00\x00\xff\xef",
        outcome: Err(Fault::Refused {
            place: 11,
            reason: Reason::ReadImmediate,
        }),
    },
    Vector {
        name: "resequencing",
        side: Side::FromHost,
        bytes: b"\x00\x20\x12\xa0\x00\x00\x04\x00\x00\x03\x04\x11\x00\x00\x01\x03\x00\x00\x01",
        outcome: Err(Fault::Refused {
            place: 18,
            reason: Reason::Resequencing,
        }),
    },
    Vector {
        name: "erase-list",
        side: Side::FromHost,
        bytes: b"\x00\x20\x12\xa0\x00\x00\x04\x00\x00\x03\x04\x11\x00\x00\x03\x01\x01\x01",
        outcome: Err(Fault::Refused {
            place: 17,
            reason: Reason::BadEraseList,
        }),
    },
    Vector {
        name: "left-out-shift: 7",
        side: Side::FromHost,
        bytes: b"\x00\x20\x12\xa0\x00\x00\x04\x00\x00\x03\x04\x11\x00\x00\x1d\x47",
        outcome: Err(Fault::Truncated { at: 16 }),
    },
    Vector {
        name: "left-out-shift: 4",
        side: Side::FromHost,
        bytes: b"\x00\x20\x12\xa0\x00\x00\x04\x00\x00\x03\x04\x11\x00\x00\x1d\x44",
        outcome: Err(Fault::Refused {
            place: 15,
            reason: Reason::LeftOutShift,
        }),
    },
    Vector {
        name: "left-out-shift: 6",
        side: Side::FromHost,
        bytes: b"\x00\x20\x12\xa0\x00\x00\x04\x00\x00\x03\x04\x11\x00\x00\x1d\x46",
        outcome: Err(Fault::Refused {
            place: 15,
            reason: Reason::LeftOutShift,
        }),
    },
    Vector {
        name: "repeat-of-an-order",
        side: Side::FromHost,
        bytes: b"\x00\x20\x12\xa0\x00\x00\x04\x00\x00\x03\x04\x11\x00\x00\x02\x01\x05\x11",
        outcome: Err(Fault::Refused {
            place: 17,
            reason: Reason::BadRepeat,
        }),
    },
    Vector {
        name: "no-escape",
        side: Side::FromHost,
        bytes: b"\x00\x0b\x12\xa0\x00\x00\x04\x00\x00\x03\x40\xff\xef",
        outcome: Err(Fault::Refused {
            place: 10,
            reason: Reason::NoEscape,
        }),
    },
];
