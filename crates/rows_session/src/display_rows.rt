//! A station on another display than the profile's.

use crate::end_rows::{ATTENTION, CANCEL, OPENED, OPENING};
use crate::second_display::SecondDisplay;
use crate::{holds, same};
use std::alloc::Global;
use std::process::Abort;
use ws_code::{SliceSource, VecSink};
use ws_keys::{Answer, Key, KeyRefusal};
use ws_nego::TerminalType;
use ws_session::{Acted, Applied, Attached, End, EndFed, KeyFault, StationOn};

type SecondStation = StationOn<SecondDisplay>;

// A record of two bytes that begin no command.
const LETTERS: &[u8] = b"\x00\x0c\x12\xa0\x00\x00\x04\x00\x00\x03\xc1\xc2\xff\xef";

fn second_station() -> SecondStation {
    SecondStation::new(TerminalType::Ibm3179Model2)
}

// What it writes at these bytes, in pieces of this size.
fn written(
    rt: &impl Abort,
    alloc: Global,
    station: &mut SecondStation,
    bytes: &[u8],
    size: usize,
) -> Vec<u8> {
    let mut written = Vec::new(alloc);
    assert!(rt; size > 0);
    for piece in bytes.chunks(size) {
        let mut rest = piece;
        for _ in 0..20u8 {
            let EndFed { used, step } = station.feed(rest);
            let step = step.expect(rt, "a piece");
            written
                .extend_from_slice(station.bytes(&step.reply))
                .expect(rt, "memory");
            rest = &rest[used..];
        }
    }
    written
}

// It negotiates as every station, a record is answered by what the display keeps, and its keys are its own.
#[test]
fn stations_stand_on_any_display(rt: HostRuntime) {
    let alloc = rt.alloc();
    for size in [1usize, 3, 4096] {
        let mut station = second_station();
        let opened = written(&rt, alloc, &mut station, OPENING, size);
        same(&rt, opened.as_slice(), OPENED);
        let answer = written(&rt, alloc, &mut station, LETTERS, size);
        same(&rt, answer.as_slice(), CANCEL);
        same(
            &rt,
            (station.records(), station.display().rings()),
            (1, true),
        );
        same(&rt, station.alarms(), 0);
        same(&rt, station.key(None), Ok(None));
        holds(&rt, !station.display().rings());
        same(
            &rt,
            station.key(Some(Key::Attention)),
            Ok(Some(Answer::Attention)),
        );
        let locked = Err(KeyFault::Key(KeyRefusal::Locked));
        same(&rt, station.key(Some(Key::Char('A'))), locked);
    }
}

// The same on a source and a sink.
#[test]
fn any_display_is_attached(rt: HostRuntime) {
    let alloc = rt.alloc();
    let mut bytes = OPENING.to_vec(alloc).expect(&rt, "memory");
    bytes.extend_from_slice(LETTERS).expect(&rt, "memory");
    let source = SliceSource::new(bytes.as_slice());
    let mut attached = Attached::new(second_station(), source, VecSink::new(alloc));
    same(&rt, attached.hear(), Ok(Some(Applied)));
    same(&rt, attached.press(None), Ok(Acted::Done));
    same(&rt, attached.press(Some(Key::Attention)), Ok(Acted::Done));
    holds(&rt, !attached.end().display().rings());
    let mut wanted = OPENED.to_vec(alloc).expect(&rt, "memory");
    wanted.extend_from_slice(CANCEL).expect(&rt, "memory");
    wanted.extend_from_slice(ATTENTION).expect(&rt, "memory");
    same(&rt, attached.sink().as_slice(), wanted.as_slice());
}
