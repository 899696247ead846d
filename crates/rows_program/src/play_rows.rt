//! Scripts that are played: what is printed, and what ends a play.

use crate::{same, same_at, same_bytes};
use std::alloc::Global;
use std::process::Abort;
use ws_code::{FailingSink, Fault, List, Reason, VecSink};
use ws_keys::KeyRefusal;
use ws_nego::TerminalType;
use ws_printing::{Paint, play_to};
use ws_program::{InputAsked, answer, status};
use ws_session::{Event, HostEnd, KeyFault, Report, SendFault, Station};

/// A script, whether the screen is asked for, and what is written.
pub(crate) type Row<'a> = (&'a str, &'a str, bool, &'a str);

/// `play-bob`: one field is filled in and sent.
pub(crate) const PLAY_BOB: Row = (
    "play-bob",
    "settle\nsend 3 0440041100081106341D400020000A04520000\nsettle\ntype BOB\nkey Enter\nsettle\n",
    false,
    "host ready IBM-3179-2\nanswer 6 56 F1\n  field 6 53 C2D6C2\n",
);

/// The other rows.
pub(crate) const PLAYED: [Row; 13] = [
    PLAY_BOB,
    (
        "play-cancel",
        "settle\nsend 3 0440041100081106341D400020000A04520000\ncancel\nsettle\nkey Enter\n",
        false,
        "host ready IBM-3179-2\ncancelled\nkey refused Locked\n",
    ),
    (
        "typed-while-arriving",
        "settle
send 3 0440041100081106341D400020000A04520000
settle
type B
send 11
down 5
type O
down all
key Enter
settle
",
        true,
        "host ready IBM-3179-2
answer 6 55 F1
  field 6 53 C2D6
screen
 6                                                     BO
cursor 6 55, locked, message on, blink off, fields 1
",
    ),
    (
        "typed-too-early",
        "settle\nsend 3 0440041100081106341D400020000A04520000\ndown 10\ntype A\n",
        false,
        "host ready IBM-3179-2\nkey refused Locked\n",
    ),
    (
        "descending-fields: a field without content",
        "settle
send 3 041100081106341D4800200006C100C21103011D480020000404520000
settle
key Enter
settle",
        false,
        "host ready IBM-3179-2\nanswer 3 2 F1\n  field 3 2\n  field 6 53 C140C2\n",
    ),
    (
        "attention-records",
        "settle\nkey Attention\nkey SystemRequest\nsettle\n",
        false,
        "host ready IBM-3179-2\nattention\nsystem request\n",
    ),
    (
        "not-ready",
        "key Enter\nkey Tab\nsend 3 0440\ncancel\n",
        false,
        "key refused NotReady
key refused Locked
send refused NotAllowed
send refused NotAllowed
",
    ),
    (
        "key-refusals",
        "settle
key Tab
send 3 0440041100081106341D400020000A04520000
settle
type \u{20ac}
key Dup
key Left
type A
key Right
type ABCDEFGHIJ
insert A
key Enter
key Enter
settle
",
        false,
        "host ready IBM-3179-2
key refused Locked
key refused WrongCharacter
key refused DupNotAllowed
key refused Protected
key refused NoRoom
key refused Locked
answer 6 53 F1
  field 6 53 C1C2C3C4C5C6C7C8C9D1
",
    ),
    (
        "key-refusals: no read, and a field that has to be entered",
        "settle
send 3 0440041100081106341D400020000A
settle
key Enter
send 3 0440041100081106341D400820000A04520000
settle
key Enter
key Clear
settle
",
        false,
        "host ready IBM-3179-2
key refused NoReadPending
key refused MandatoryEnter
answer 6 53 BD
",
    ),
    (
        "host-refusals",
        "settle
cancel
send 3 04110000111850C1C2
send 3 0440041100081106341D400020000A04520000
send 2 0440
cancel
cancel
settle
",
        false,
        "host ready IBM-3179-2
send refused NoReadToCancel
send refused Screen 51
send refused ReadOutstanding
send refused NoReadToCancel
cancelled
",
    ),
    (
        "three deliveries each way open the session",
        "down all\nup all\ndown all\nup all\ndown all\nsend 1\nup all\nsend 1\n",
        false,
        "send refused NotAllowed\nhost ready IBM-3179-2\n",
    ),
    (
        "nothing",
        "",
        true,
        "screen\ncursor 1 1, locked, message off, blink off, fields 0\n",
    ),
    (
        "blanks, a comment and CR LF",
        "# a session\r\n\r\nsettle\r\nkey Attention\nup 12\r\n",
        false,
        "host ready IBM-3179-2\nattention\n",
    ),
];

// What is asked of a play without a file.
fn asked(screen: bool, tcp: bool) -> InputAsked<'static> {
    InputAsked::Play {
        file: None,
        screen,
        tcp,
        paint: Paint::Plain,
    }
}

#[test]
fn played(rt: HostRuntime) {
    for (name, script, screen, wanted) in &PLAYED {
        for tcp in [false, true] {
            let mut sink = VecSink::new(rt.alloc());
            let play = asked(*screen, tcp);
            let outcome = answer(&rt, rt.alloc(), play, script.as_bytes(), &mut sink);
            same_at(&rt, name, status(&outcome), 0);
            same_at(&rt, name, sink.as_slice(), wanted.as_bytes());
        }
    }
}

// What is done, and 200 deliveries of a byte each way.
fn add_settled(rt: &impl Abort, script: &mut String, part: &str) {
    script.push_str(part).expect(rt, "memory");
    for _ in 0..200 {
        script.push_str("down 1\nup 1\n").expect(rt, "memory");
    }
}

// `play-bob`, each settling in 200 deliveries of a byte each way.
fn bob_in_bytes(rt: &impl Abort, alloc: Global) -> String {
    let send = "send 3 0440041100081106341D400020000A04520000\n";
    let mut script = String::new(alloc);
    add_settled(rt, &mut script, "");
    add_settled(rt, &mut script, send);
    add_settled(rt, &mut script, "type BOB\nkey Enter\n");
    script
}

// `byte-by-byte`.
#[test]
fn byte_by_byte(rt: HostRuntime) {
    let script = bob_in_bytes(&rt, rt.alloc());
    let mut sink = VecSink::new(rt.alloc());
    let play = asked(false, false);
    let outcome = answer(&rt, rt.alloc(), play, script.as_bytes(), &mut sink);
    same(&rt, outcome, Ok(true));
    same_bytes(&rt, sink.as_slice(), PLAY_BOB.3.as_bytes());
}

// Events that no script brings out, and their lines: ends that refuse, and names of faults that no session of these two
// ends has.
fn refusals() -> [Event; 8] {
    let station = Event::StationRefused {
        place: 20,
        reason: Reason::PastEnd,
    };
    let host = Event::HostRefused {
        place: u64::MAX,
        reason: Reason::UnaskedAnswer,
    };
    [
        Event::KeyRefused(KeyFault::Failed),
        Event::KeyRefused(KeyFault::Key(KeyRefusal::Locked)),
        Event::SendRefused(SendFault::Failed),
        Event::SendRefused(SendFault::BadSequence),
        Event::SendRefused(SendFault::TooBig),
        Event::SendRefused(SendFault::Memory),
        station,
        host,
    ]
}

const REFUSED: &str = "key refused Failed
key refused Locked
send refused Failed
send refused BadSequence
send refused TooBig
send refused Memory
station refused at 20: reason 51 PastEnd
host refused at 18446744073709551615: reason 62 UnaskedAnswer
";

// A report of these events, of ends that are new.
fn report_of(alloc: Global, events: Vec<Event>) -> Report {
    Report {
        events: List::of(events),
        station: Station::new(TerminalType::default()),
        host: HostEnd::new(alloc),
        to_station: List::of(Vec::new(alloc)),
        to_host: List::of(Vec::new(alloc)),
    }
}

#[test]
fn reported(rt: HostRuntime) {
    let events = Vec::from_array(rt.alloc(), refusals()).expect(&rt, "memory");
    let report = report_of(rt.alloc(), events);
    let mut sink = VecSink::new(rt.alloc());
    same(&rt, play_to(&report, false, &mut sink), Ok(false));
    same_bytes(&rt, sink.as_slice(), REFUSED.as_bytes());
    let mut sink = FailingSink::new(rt.alloc(), 5);
    same(&rt, play_to(&report, false, &mut sink), Err(Fault::Write));
}
