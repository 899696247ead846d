//! A station by itself, by worked examples.

use crate::end_rows::{
    ATTENTION, BOB, OPENING, PAST_END, keys_of, last_event, new_station, push_all, ready_host,
    ready_station, replies,
};
use crate::{same, same_at};
use std::alloc::Global;
use std::process::Abort;
use ws_code::{Address, Fault, Reason, StuckSink, VecSink};
use ws_keys::{Key, KeyRefusal};
use ws_screen::Screen;
use ws_session::{HostEvent, KeyFault, Refusal, Station, write_answer};

// What a key does: whether it answers, or why it is refused.
type Outcome = Result<bool, KeyFault>;

const SILENT: Outcome = Ok(false);

const ANSWERS: Outcome = Ok(true);

const LOCKED: Outcome = Err(KeyFault::Key(KeyRefusal::Locked));

const WRONG_CHARACTER: Outcome = Err(KeyFault::Key(KeyRefusal::WrongCharacter));

const NO_DUP: Outcome = Err(KeyFault::Key(KeyRefusal::DupNotAllowed));

const PROTECTED: Outcome = Err(KeyFault::Key(KeyRefusal::Protected));

const NO_ROOM: Outcome = Err(KeyFault::Key(KeyRefusal::NoRoom));

const NO_READ_PENDING: Outcome = Err(KeyFault::Key(KeyRefusal::NoReadPending));

const MANDATORY_ENTER: Outcome = Err(KeyFault::Key(KeyRefusal::MandatoryEnter));

// Presses the keys of a script, and each does this.
fn presses(rt: &impl Abort, alloc: Global, station: &mut Station, script: &str, wanted: Outcome) {
    for (_, key) in keys_of(rt, alloc, script).as_slice() {
        let outcome = match station.key(*key) {
            Ok(answer) => Ok(answer.is_some()),
            Err(fault) => Err(fault),
        };
        same_at(rt, script, outcome, wanted);
    }
}

// Why a station refuses the first of these bytes that it doesn't take.
fn refusal_of(station: &mut Station, bytes: &[u8]) -> Option<Refusal> {
    for byte in bytes {
        if let Err(refusal) = station.push(*byte) {
            return Some(refusal);
        }
    }
    None
}

const NAMED: &[u8] = b"\xff\xfa\x18\x00IBM-3179-2\xff\xf0";

// What a station takes and what it writes by that, one after another.
const OPENED_BY: [(&[u8], &[u8]); 6] = [
    (b"\xff\xfd\x18", b"\xff\xfb\x18"),
    (b"\xff\xfa\x18\x01\xff\xf0", NAMED),
    (b"\xff\xfa\x18\x01\xff\xf0", NAMED),
    (b"\xff\xfd\x18", b""),
    (b"\xff\xfd\x27", b"\xff\xfc\x27"),
    (
        b"\xff\xfd\x19\xff\xfb\x19\xff\xfd\x00\xff\xfb\x00",
        b"\xff\xfb\x19\xff\xfd\x19\xff\xfb\x00\xff\xfd\x00",
    ),
];

#[test]
fn station_opening(rt: HostRuntime) {
    let alloc = rt.alloc();
    let mut station = new_station();
    for (taken, written) in &OPENED_BY {
        replies(&rt, alloc, &mut station, taken, written);
    }
}

// What a new station takes, and what it writes by that the first time and each later time.
struct Flood {
    taken: &'static [u8],
    first: &'static [u8],
    later: &'static [u8],
}

const FLOODS: [Flood; 3] = [
    Flood {
        taken: b"\xff\xfd\x27",
        first: b"\xff\xfc\x27",
        later: b"\xff\xfc\x27",
    },
    Flood {
        taken: b"\xff\xfd\x00",
        first: b"\xff\xfb\x00",
        later: b"",
    },
    Flood {
        taken: b"\xff\xfd\x00\xff\xfe\x00",
        first: b"\xff\xfb\x00\xff\xfc\x00",
        later: b"\xff\xfb\x00\xff\xfc\x00",
    },
];

// Option commands over and over: what is refused is refused each time, what is in effect isn't acknowledged again, and
// what changes each time is answered each time (RFC 854, "GENERAL CONSIDERATIONS").
#[test]
fn floods_are_answered(rt: HostRuntime) {
    let alloc = rt.alloc();
    for flood in &FLOODS {
        let mut station = new_station();
        replies(&rt, alloc, &mut station, flood.taken, flood.first);
        for _ in 1..10_000u16 {
            replies(&rt, alloc, &mut station, flood.taken, flood.later);
        }
    }
}

// All cells, fields, cursor, lock and lights of two screens are the same.
fn same_screen(rt: &impl Abort, one: &Screen, other: &Screen) {
    same(rt, one.cells(), other.cells());
    same(rt, one.fields().as_slice(), other.fields().as_slice());
    same(
        rt,
        (one.cursor(), one.home(), one.pending()),
        (other.cursor(), other.home(), other.pending()),
    );
    same(
        rt,
        (one.message(), one.blink(), one.locked()),
        (other.message(), other.blink(), other.locked()),
    );
}

// A record before negotiation.
#[test]
fn stations_refuse_early_records(rt: HostRuntime) {
    let mut early = new_station();
    let invite = b"\x00\x0a\x12\xa0\x00\x00\x04\x00\x00\x01\xff\xef";
    let reason = Reason::RecordBeforeNegotiation;
    same(
        &rt,
        refusal_of(&mut early, invite),
        Some(Refusal::At { place: 11, reason }),
    );
    presses(&rt, rt.alloc(), &mut early, "type A", Err(KeyFault::Failed));
}

// A data byte past the screen's end, after the opening's 21 bytes, the form's 31 and 20 of its record. What was on the
// screen stays, with a letter that is typed inside the record, and the station takes no byte more.
#[test]
fn stations_refuse_records_past_the_end(rt: HostRuntime) {
    let alloc = rt.alloc();
    let (head, body) = PAST_END.split_at_checked(10).expect(&rt, "a header");
    let mut station = ready_station(&rt, alloc, BOB);
    push_all(&rt, alloc, &mut station, head);
    presses(&rt, alloc, &mut station, "type B", SILENT);
    let mut before = Screen::new();
    before.assign(station.screen());
    let (place, reason) = (72, Reason::PastEnd);
    let refused = Some(Refusal::At { place, reason });
    same(&rt, refusal_of(&mut station, body), refused);
    same_screen(&rt, &before, station.screen());
    same(&rt, station.push(0).err(), Some(Refusal::Failed));
    let first = Address::new(6, 53).expect(&rt, "a cell");
    same(&rt, station.screen().cell(first), 0xc2);
}

// After a refused byte a station tells what it told before, and has taken that byte too.
#[test]
fn a_refusal_changes_nothing_else_of_a_station(rt: HostRuntime) {
    let alloc = rt.alloc();
    let mut station = ready_station(&rt, alloc, BOB);
    same(
        &rt,
        (station.records(), station.is_ready(), station.taken()),
        (1, true, 52),
    );
    let refused = Some(Refusal::At {
        place: 53,
        reason: Reason::BadCommand,
    });
    same(&rt, refusal_of(&mut station, b"\xff\x00"), refused);
    same(
        &rt,
        (station.records(), station.is_ready(), station.taken()),
        (1, true, 54),
    );
}

const NO_READ: &[u8] = b"\x04\x40\x04\x11\x00\x08\x11\x06\x34\x1d\x40\x00\x20\x00\x0a";

const MANDATORY: &[u8] =
    b"\x04\x40\x04\x11\x00\x08\x11\x06\x34\x1d\x40\x08\x20\x00\x0a\x04\x52\x00\x00";

// What a station is sent, the keys that it is pressed, and what each of them does.
struct Pressed {
    body: &'static [u8],
    keys: &'static [(&'static str, Outcome)],
}

const PRESSED: [Pressed; 4] = [
    Pressed {
        body: b"",
        keys: &[("key Tab", LOCKED)],
    },
    Pressed {
        body: BOB,
        keys: &[
            ("type \u{20ac}", WRONG_CHARACTER),
            ("key Dup", NO_DUP),
            ("key Left", SILENT),
            ("type A", PROTECTED),
            ("key Right", SILENT),
            ("type ABCDEFGHIJ", SILENT),
            ("insert A", NO_ROOM),
            ("key Enter", ANSWERS),
            ("key Enter", LOCKED),
        ],
    },
    Pressed {
        body: NO_READ,
        keys: &[("key Enter", NO_READ_PENDING)],
    },
    Pressed {
        body: MANDATORY,
        keys: &[("key Enter", MANDATORY_ENTER), ("key Clear", ANSWERS)],
    },
];

#[test]
fn keys_are_refused(rt: HostRuntime) {
    let alloc = rt.alloc();
    let mut station = new_station();
    let unready = "key Enter\nkey Attention\nkey SystemRequest";
    presses(&rt, alloc, &mut station, unready, Err(KeyFault::NotReady));
    presses(&rt, alloc, &mut station, "key Tab", LOCKED);
    for row in &PRESSED {
        let mut station = ready_station(&rt, alloc, row.body);
        for (script, outcome) in row.keys {
            presses(&rt, alloc, &mut station, script, *outcome);
        }
    }
}

// No allocator is passed to the station, nor to its keys.
#[test]
fn the_largest_record_is_kept_without_memory(rt: HostRuntime) {
    let mut station = new_station();
    same(&rt, refusal_of(&mut station, OPENING), None);
    let head = b"\xff\xff\xff\xff\x12\xa0\x00\x00\x04\x00\x00\x03";
    same(&rt, refusal_of(&mut station, head), None);
    for _ in 0..32_760u16 {
        same(&rt, refusal_of(&mut station, b"\x04\x40"), None);
    }
    let write = b"\x04\x11\x00\x08\xc1\xff\xef";
    same(&rt, refusal_of(&mut station, write), None);
    // 65,535 bytes, the length's two FF once more, and IAC EOR
    let taken = (OPENING.len() as u64).saturating_add(65_539);
    same(&rt, station.taken(), taken);
    same(&rt, station.screen().cell(Address::default()), 0xc1);
}

// A key sends this record, which isn't written by a sink that takes none.
fn sends(rt: &impl Abort, alloc: Global, station: &mut Station, key: Key, written: &[u8]) {
    let Ok(Some(answer)) = station.key(key) else {
        panic!(rt; "a record")
    };
    let mut sink = VecSink::new(alloc);
    same(rt, write_answer(&mut sink, &answer), Ok(()));
    same(rt, sink.as_slice(), written);
    same(rt, write_answer(&mut StuckSink, &answer), Err(Fault::Write));
}

fn tells(rt: &impl Abort, alloc: Global, bytes: &[u8], event: HostEvent) {
    let mut host = ready_host(rt, alloc);
    same(rt, last_event(rt, &mut host, bytes), Some(event));
}

#[test]
fn attention_records(rt: HostRuntime) {
    let alloc = rt.alloc();
    let mut station = ready_station(&rt, alloc, b"");
    let request = b"\x00\x0a\x12\xa0\x00\x00\x04\x04\x00\x00\xff\xef";
    sends(&rt, alloc, &mut station, Key::Attention, ATTENTION);
    sends(&rt, alloc, &mut station, Key::SystemRequest, request);
    tells(&rt, alloc, ATTENTION, HostEvent::Attention);
    tells(&rt, alloc, request, HostEvent::SystemRequest);
}
