//! Runs of a station over devices.

use crate::end_rows::{BOB_ANSWER, OPENED, OPENING_AND_BOB, enter, new_station};
use crate::{holds, same};
use arrayvec::ArrayVec;
use std::process::Abort;
use ws_code::{
    FailingSink, FailingSource, Fault, Reason, Sink, SliceSource, Source, StuckSink, VecSink,
    WriteSink,
};
use ws_keys::{Answer, Key};
use ws_nego::TerminalType;
use ws_session::{Station, run_station};

// What a station writes at the opening, the form and its keys: `OPENED` and `BOB_ANSWER`.
const TEXT: &[u8; 52] =
    b"\xff\xfb\x18\xff\xfa\x18\x00IBM-3179-2\xff\xf0\xff\xfb\x19\xff\xfd\x19\xff\xfb\x00\xff\xfd\x00\
\x00\x13\x12\xa0\x00\x00\x04\x00\x00\x03\x06\x38\xf1\x11\x06\x35\xc2\xd6\xc2\xff\xef";

// Tab before the first record, and B, O, B, Enter after it.
fn keys_due(rt: &impl Abort) -> [(u32, Key); 5] {
    [
        (0, Key::Tab),
        (1, Key::Char('B')),
        (1, Key::Char('O')),
        (1, Key::Char('B')),
        (1, enter(rt)),
    ]
}

// How many keys a run of a station refuses, or why it stops.
fn run<S: Source, K: Sink>(
    source: &mut S,
    sink: &mut K,
    keys: &[(u32, Key)],
) -> Result<u32, Fault> {
    // `new_station` doesn't promise that the station is new, which a run requires.
    let station = Station::new(TerminalType::Ibm3179Model2);
    match run_station(station, source, sink, keys) {
        Ok(played) => Ok(played.keys_refused),
        Err(fault) => Err(fault),
    }
}

#[test]
fn a_run_stops_where_a_write_fails(rt: HostRuntime) {
    let alloc = rt.alloc();
    let keys = keys_due(&rt);
    for calls in 0..=52usize {
        let mut source = SliceSource::new(OPENING_AND_BOB);
        let mut sink = FailingSink::new(alloc, calls as u64);
        let refused = run(&mut source, &mut sink, &keys);
        let wanted = if calls < 52 { Err(Fault::Write) } else { Ok(1) };
        same(&rt, refused, wanted);
        same(&rt, Some(sink.as_slice()), TEXT.get(..calls));
    }
}

// How many bytes a station has written that has read so many, where it had written so many before: its replies to what
// ends there, and the answer.
fn written_behind(read: u64, before: usize) -> usize {
    match read {
        3 => 3,
        9 => 19,
        12 => 22,
        15 => 25,
        18 => 28,
        21 => 31,
        52 => 52,
        _ => before,
    }
}

#[test]
fn a_run_stops_where_a_read_fails(rt: HostRuntime) {
    let alloc = rt.alloc();
    let keys = keys_due(&rt);
    let mut written = 0usize;
    for read in 0..=52u64 {
        written = written_behind(read, written);
        let mut source = FailingSource::new(OPENING_AND_BOB, read);
        let mut sink = VecSink::new(alloc);
        let refused = run(&mut source, &mut sink, &keys);
        same(&rt, refused, Err(Fault::Read));
        same(&rt, Some(sink.as_slice()), TEXT.get(..written));
    }
}

// What a station reads whose run ends inside a token or a record, or at a byte that is refused.
const STOPPED: [(&[u8], Fault); 4] = [
    (b"\xff\xfd", Fault::Truncated { at: 2 }),
    (b"\xff\xf1\x00", Fault::Truncated { at: 3 }),
    (
        b"\x00\x09",
        Fault::Refused {
            place: 1,
            reason: Reason::LengthBelowHeader,
        },
    ),
    (
        b"\x00\x0a\x12\xa0\x00\x00\x04\x00\x00\x01\xff\xef",
        Fault::Refused {
            place: 11,
            reason: Reason::RecordBeforeNegotiation,
        },
    ),
];

#[test]
fn a_run_tells_where_it_stops(rt: HostRuntime) {
    for (bytes, fault) in &STOPPED {
        let mut source = SliceSource::new(bytes);
        let stopped = run(&mut source, &mut StuckSink, &[]);
        same(&rt, stopped, Err(*fault));
    }
}

// The same by bytes and keys, the last of which answers; the others tell nothing.
fn takes_and_answers(rt: &impl Abort, keys: &[(u32, Key)]) {
    let mut station = new_station();
    let mut replies: ArrayVec<u8, 31> = ArrayVec::new();
    for byte in OPENING_AND_BOB {
        let reply = station.push(*byte).expect(rt, "a byte");
        holds(rt, replies.try_extend_from_slice(reply.as_slice()).is_ok());
    }
    same(rt, replies.as_slice(), OPENED);
    let mut last = None;
    for (_, key) in keys {
        holds(rt, last.is_none());
        last = station.key(*key).expect(rt, "a key that is taken");
    }
    match last {
        Some(Answer::Read(body)) => same(rt, Some(body.as_slice()), BOB_ANSWER.get(10..19)),
        _ => panic!(rt; "an answer"),
    }
}

// Nothing here takes memory, so that all is the same where every growth is refused.
#[test]
fn bob_without_memory(rt: HostRuntime) {
    let due = keys_due(&rt);
    let keys = due.get(1..).expect(&rt, "the keys behind the form");
    let mut source = SliceSource::new(OPENING_AND_BOB);
    let mut sink = WriteSink::new(ArrayVec::<u8, 52>::new());
    same(&rt, run(&mut source, &mut sink, keys), Ok(0));
    same(&rt, sink.into_inner().as_slice(), TEXT.as_slice());
    takes_and_answers(&rt, keys);
}
