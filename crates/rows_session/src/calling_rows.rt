//! The callers of `calling.rt`, at work.

use crate::calling::{
    Ended, HostHeard, ask, await_event, feed_piece, hear, screen_of, see, strike,
};
use crate::end_rows::{
    ATTENTION, BOB, BOB_ANSWER, BOB_RECORD, BOB_TOLD, OPENED, OPENING, PAST_END, enter, is_told,
    joined, new_station,
};
use crate::{holds, same};
use std::alloc::Global;
use std::process::Abort;
use ws_code::{Fault, Reason, Sink, StuckSink, VecSink};
use ws_keys::{Key, KeyRefusal};
use ws_nego::TerminalType;
use ws_record::{Item, Receiver, decode_all, read_body};
use ws_session::{HostEnd, HostEvent, KeyFault, Refusal, Station};
use ws_stream::{Commands, Element};

#[test]
fn elements_are_seen_before_a_refusal(rt: HostRuntime) {
    // Write to Display, then a Set Buffer Address to column 81.
    let bytes = b"\x00\x11\x12\xa0\x00\x00\x04\x00\x00\x03\x04\x11\x00\x00\x11\x18\x51\xff\xef";
    let seen = see(rt.alloc(), bytes).expect(&rt, "memory");
    let wanted = [Element::Write { cc1: 0, cc2: 0 }];
    same(&rt, seen.elements.as_slice(), wanted.as_slice());
    same(&rt, seen.refused, Some((16, Reason::BadAddress)));
}

// The items of a stream that comes in pieces of this length.
fn items_of(rt: &impl Abort, alloc: Global, bytes: &[u8], size: usize) -> Vec<Item<Element>> {
    let mut receiver = Receiver::<Commands>::new(alloc);
    let mut items = Vec::new(alloc);
    assert!(rt; size > 0);
    for piece in bytes.chunks(size) {
        let fed = feed_piece(&mut receiver, piece, &mut items);
        same(rt, fed, Ok(()));
    }
    holds(rt, receiver.finish().is_ok());
    items
}

#[test]
fn pieces_give_items_and_a_screen(rt: HostRuntime) {
    let alloc = rt.alloc();
    for size in [1usize, 2, 7, 40] {
        let items = items_of(&rt, alloc, BOB_RECORD, size);
        let screen = screen_of(items.as_slice()).expect(&rt, "a screen");
        same(&rt, screen.fields().len(), 1);
    }
    let items = decode_all::<Commands>(alloc, PAST_END).expect(&rt, "a stream");
    let refused = screen_of(items.as_slice()).err();
    same(&rt, refused, Some(Reason::PastEnd));
}

fn hears(
    rt: &impl Abort,
    station: &mut Station,
    bytes: &[u8],
    up: &mut VecSink,
    wanted: Result<(), Ended>,
) {
    same(rt, hear(station, bytes, up), wanted);
}

fn strikes<S: Sink>(
    rt: &impl Abort,
    station: &mut Station,
    key: Key,
    up: &mut S,
    wanted: Result<Option<KeyFault>, Fault>,
) {
    same(rt, strike(station, key, up), wanted);
}

#[test]
fn an_emulator(rt: HostRuntime) {
    let alloc = rt.alloc();
    let mut station = new_station();
    let mut up = VecSink::new(alloc);
    hears(&rt, &mut station, OPENING, &mut up, Ok(()));
    same(&rt, up.as_slice(), OPENED);
    hears(&rt, &mut station, BOB_RECORD, &mut up, Ok(()));
    for letter in ['B', 'O', 'B'] {
        let key = Key::Char(letter);
        strikes(&rt, &mut station, key, &mut up, Ok(None));
    }
    let unwritten = Err(Fault::Write);
    strikes(&rt, &mut station, enter(&rt), &mut StuckSink, unwritten);
    let locked = KeyFault::Key(KeyRefusal::Locked);
    strikes(&rt, &mut station, enter(&rt), &mut up, Ok(Some(locked)));

    let (place, reason) = (53, Reason::StraySe);
    let refused = Ended::Refused(Refusal::At { place, reason });
    hears(&rt, &mut station, b"\xff\xf0", &mut up, Err(refused));
}

// The host end hears so many of the bytes, and tells this.
fn tells(rt: &impl Abort, alloc: Global, host: &mut HostEnd, bytes: &[u8], heard: HostHeard) {
    let mut down = VecSink::new(alloc);
    let told = await_event(host, bytes, &mut down).expect(rt, "told");
    same(rt, (told.used, told.event), (heard.used, heard.event));
}

// A host end that has sent a form by its elements, and asked for its fields.
fn asking_host(rt: &impl Abort, alloc: Global) -> HostEnd {
    let mut host = HostEnd::new(alloc);
    host.open();
    let event = Some(HostEvent::Ready(TerminalType::Ibm3179Model2));
    let used = OPENED.len();
    tells(rt, alloc, &mut host, OPENED, HostHeard { used, event });
    let form = read_body::<Commands>(alloc, BOB).expect(rt, "a body");
    let mut down = VecSink::new(alloc);
    same(rt, ask(&mut host, form.as_slice(), &mut down), Ok(()));
    same(rt, down.as_slice(), BOB_RECORD);
    host
}

// The host end hears the bytes of B, O, B from the eleventh on, and tells them.
fn tells_bob(rt: &impl Abort, alloc: Global, host: &mut HostEnd, bytes: &[u8]) {
    let mut down = VecSink::new(alloc);
    let told = await_event(host, bytes, &mut down).expect(rt, "told");
    same(rt, told.used.checked_add(10), Some(BOB_ANSWER.len()));
    match &told.event {
        Some(HostEvent::Answer(answer)) => is_told(rt, alloc, answer, BOB_TOLD),
        _ => panic!(rt; "an answer"),
    }
}

// Two events in what came, and a record that ends with a later piece.
#[test]
fn a_harness(rt: HostRuntime) {
    let alloc = rt.alloc();
    let mut host = asking_host(&rt, alloc);
    let came = joined(&rt, alloc, &[BOB_ANSWER, ATTENTION]);
    let (first, rest) = came
        .as_slice()
        .split_at_checked(10)
        .expect(&rt, "ten bytes");
    let nothing = HostHeard {
        used: 10,
        event: None,
    };
    tells(&rt, alloc, &mut host, first, nothing);
    tells_bob(&rt, alloc, &mut host, rest);
    let attention = HostHeard {
        used: 12,
        event: Some(HostEvent::Attention),
    };
    tells(&rt, alloc, &mut host, ATTENTION, attention);
}
