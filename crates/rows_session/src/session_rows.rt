//! Whole sessions by scripts, as `t5250 play` reads them: what the text that it writes of them doesn't show. The text is
//! compared by the rows of `rows_program`, which also have these scripts.

use crate::end_rows::{BOB_TOLD, is_told};
use crate::same;
use std::alloc::Global;
use std::process::Abort;
use ws_code::Address;
use ws_nego::TerminalType;
use ws_script::read_script;
use ws_session::{Event, HostEvent, Move, Report, World};

// `play-bob`: a form with a field of ten cells at 6, 53 and a read. B, O, B and Enter answer it.
const BOB: &str = "settle
send 3 0440041100081106341d400020000a04520000
settle
type BOB
key Enter
settle";

// `typed-while-arriving`: a record that turns the message light on arrives in two parts, O between them.
const TYPED_WHILE_ARRIVING: &str = "settle
send 3 0440041100081106341d400020000a04520000
settle
type B
send 11
down 5
type O
down all
key Enter
settle";

// `byte-by-byte`: a byte goes down and a byte up 200 times in place of each settling of `BOB`.
fn byte_by_byte(rt: &impl Abort, alloc: Global) -> String {
    let mut script = String::new(alloc);
    for line in BOB.lines() {
        if line == "settle" {
            for _ in 0..200u8 {
                script.push_str("down 1\nup 1\n").expect(rt, "memory");
            }
        } else {
            script.push_str(line).expect(rt, "memory");
            script.push('\n').expect(rt, "memory");
        }
    }
    script
}

fn run(rt: &impl Abort, alloc: Global, moves: &[Move]) -> Report {
    World::run(alloc, TerminalType::Ibm3179Model2, moves).expect(rt, "a session")
}

fn play(rt: &impl Abort, alloc: Global, script: &str) -> Report {
    let moves = read_script(alloc, script.as_bytes()).expect(rt, "a script");
    run(rt, alloc, moves.as_slice())
}

// The session got ready and had one answer, which says this. No read is asked then, nothing is in flight, and the
// station's screen shows the B that was typed first.
fn is_answered(rt: &impl Abort, alloc: Global, report: &Report, told: &[u8]) {
    match report.events.as_slice() {
        [
            Event::Host(HostEvent::Ready(TerminalType::Ibm3179Model2)),
            Event::Host(HostEvent::Answer(answer)),
        ] => is_told(rt, alloc, answer, told),
        _ => panic!(rt; "an answer"),
    }
    let in_flight = (report.to_station.as_slice(), report.to_host.as_slice());
    same(rt, in_flight, (b"".as_slice(), b"".as_slice()));
    same(rt, report.host.asked(), None);
    let typed = Address::at(452).expect(rt, "a cell");
    same(rt, report.station.screen().cell(typed), 0xc2);
}

#[test]
fn answers_hold_what_was_typed(rt: HostRuntime) {
    let alloc = rt.alloc();
    let slowly = byte_by_byte(&rt, alloc);
    let two_letters = b"\x06\x37\xf1\x06\x35\xc2\xd6".as_slice();
    for (script, told) in [
        (BOB, BOB_TOLD),
        (slowly.as_str(), BOB_TOLD),
        (TYPED_WHILE_ARRIVING, two_letters),
    ] {
        is_answered(&rt, alloc, &play(&rt, alloc, script), told);
    }
}

// What is in flight to the station and to the host end after so many full deliveries of an opening,
// first one to the station (RFC 4777).
struct InFlight {
    deliveries: usize,
    to_station: &'static [u8],
    to_host: &'static [u8],
}

const OPENING: [InFlight; 7] = [
    InFlight {
        deliveries: 0,
        to_station: b"\xff\xfd\x18",
        to_host: b"",
    },
    InFlight {
        deliveries: 1,
        to_station: b"",
        to_host: b"\xff\xfb\x18",
    },
    InFlight {
        deliveries: 2,
        to_station: b"\xff\xfa\x18\x01\xff\xf0",
        to_host: b"",
    },
    InFlight {
        deliveries: 3,
        to_station: b"",
        to_host: b"\xff\xfa\x18\x00IBM-3179-2\xff\xf0",
    },
    InFlight {
        deliveries: 4,
        to_station: b"\xff\xfd\x19\xff\xfb\x19\xff\xfd\x00\xff\xfb\x00",
        to_host: b"",
    },
    InFlight {
        deliveries: 5,
        to_station: b"",
        to_host: b"\xff\xfb\x19\xff\xfd\x19\xff\xfb\x00\xff\xfd\x00",
    },
    InFlight {
        deliveries: 6,
        to_station: b"",
        to_host: b"",
    },
];

const DELIVERIES: [Move; 6] = [
    Move::ToStation(usize::MAX),
    Move::ToHost(usize::MAX),
    Move::ToStation(usize::MAX),
    Move::ToHost(usize::MAX),
    Move::ToStation(usize::MAX),
    Move::ToHost(usize::MAX),
];

// The session is opened by the last delivery, and tells it.
fn is_opening(rt: &impl Abort, report: &Report, row: &InFlight) {
    let in_flight = (report.to_station.as_slice(), report.to_host.as_slice());
    same(rt, in_flight, (row.to_station, row.to_host));
    let opened = row.deliveries == 6;
    same(rt, report.events.as_slice().len(), usize::from(opened));
}

#[test]
fn opening_in_full_deliveries(rt: HostRuntime) {
    let deliveries = &DELIVERIES;
    for row in &OPENING {
        let moves = deliveries.get(..row.deliveries).expect(&rt, "so many");
        is_opening(&rt, &run(&rt, rt.alloc(), moves), row);
    }
}
