//! Sessions over lines that fail, or bring something else than what was written.

use crate::same;
use std::alloc::Global;
use std::process::Abort;
use ws_code::{
    FailingSink, FailingSource, Fault, Reason, Sink, SliceSource, Source, StuckSink, VecSink,
};
use ws_nego::TerminalType;
use ws_session::{Event, Line, Move, Report, World};

// The first two messages of an opening, one each way.
const OPENING: [Move; 2] = [Move::ToStation(usize::MAX), Move::ToHost(usize::MAX)];

const DO_TERMINAL: &[u8] = b"\xff\xfd\x18";

const WILL_TERMINAL: &[u8] = b"\xff\xfb\x18";

// The opening, where the line down is given, and the station's bytes arrive as `read`; and what went into the line up.
fn opening<S: Sink, R: Source>(
    alloc: Global,
    down: &mut Line<S, R>,
    read: &[u8],
) -> (Result<Report, Fault>, VecSink) {
    let mut up = Line {
        sink: VecSink::new(alloc),
        source: SliceSource::new(read),
    };
    let report = World::run_carried(alloc, TerminalType::Ibm3179Model2, &OPENING, down, &mut up);
    (report, up.sink)
}

fn nothing_is_in_flight(rt: &impl Abort, report: &Report) {
    let in_flight = (report.to_station.as_slice(), report.to_host.as_slice());
    same(rt, in_flight, (b"".as_slice(), b"".as_slice()));
}

// Who refused a byte in a session that tells nothing else, which byte, and why.
fn refusal_of(rt: &impl Abort, report: &Report) -> (&'static str, u64, Reason) {
    match report.events.as_slice() {
        [Event::StationRefused { place, reason }] => ("station", *place, *reason),
        [Event::HostRefused { place, reason }] => ("host", *place, *reason),
        _ => panic!(rt; "a refusal"),
    }
}

// What the lines bring in place of what was written, who refuses it, and what the host end has refused then.
struct Brought {
    to_station: &'static [u8],
    to_host: &'static [u8],
    by: &'static str,
    host: Option<(u64, Reason)>,
}

const OTHER_BYTES: [Brought; 2] = [
    Brought {
        to_station: b"\xff\x00\xff",
        to_host: b"",
        by: "station",
        host: None,
    },
    Brought {
        to_station: DO_TERMINAL,
        to_host: b"\xff\x00\xff",
        by: "host",
        host: Some((1, Reason::BadCommand)),
    },
];

// What was read arrives, whatever was written: an end refuses FF 00, and takes nothing after it.
#[test]
fn lines_that_bring_other_bytes(rt: HostRuntime) {
    for brought in &OTHER_BYTES {
        let mut down = Line {
            sink: VecSink::new(rt.alloc()),
            source: SliceSource::new(brought.to_station),
        };
        let (report, _) = opening(rt.alloc(), &mut down, brought.to_host);
        let report = report.expect(&rt, "an opening");
        same(&rt, down.sink.as_slice(), DO_TERMINAL);
        nothing_is_in_flight(&rt, &report);
        same(
            &rt,
            refusal_of(&rt, &report),
            (brought.by, 1, Reason::BadCommand),
        );
        same(&rt, report.host.refused(), brought.host);
    }
}

// The line down takes so many bytes before a write fails, and gives so many before a read fails. The opening ends with
// this fault, where the station's bytes arrive as `read`, and `up` had gone into its line.
fn stops(
    rt: &impl Abort,
    alloc: Global,
    (taken, given): (usize, usize),
    (read, up): (&[u8], &[u8]),
    fault: Fault,
) {
    let mut down = Line {
        sink: FailingSink::new(alloc, taken as u64),
        source: FailingSource::new(DO_TERMINAL, given as u64),
    };
    let (report, went_up) = opening(alloc, &mut down, read);
    same(rt, report.err(), Some(fault));
    same(rt, Some(down.sink.as_slice()), DO_TERMINAL.get(..taken));
    same(rt, went_up.as_slice(), up);
}

// A write fails, a read fails, or the station's bytes end early; and what had crossed each line.
#[test]
fn lines_that_fail(rt: HostRuntime) {
    let alloc = rt.alloc();
    for at in 0..3usize {
        stops(&rt, alloc, (at, 3), (WILL_TERMINAL, b""), Fault::Write);
        stops(&rt, alloc, (3, at), (WILL_TERMINAL, b""), Fault::Read);
        let front = WILL_TERMINAL.get(..at).expect(&rt, "a front");
        let ends = Fault::Truncated { at: at as u64 };
        stops(&rt, alloc, (3, 3), (front, WILL_TERMINAL), ends);
    }
    let mut down = Line {
        sink: StuckSink,
        source: SliceSource::new(DO_TERMINAL),
    };
    let (report, went_up) = opening(alloc, &mut down, WILL_TERMINAL);
    same(&rt, report.err(), Some(Fault::Write));
    same(&rt, went_up.as_slice(), b"".as_slice());
}
