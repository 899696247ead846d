//! Live stations, by worked examples: the calls that neither the C interface nor the program makes. All else of them is
//! tested in python/tests and tests/live.

use crate::end_rows::{OPENING, enter};
use crate::{holds, same};
use std::process::Abort;
use ws_code::Fault;
use ws_entry::{EntryStation, TypedKey, press_key};
use ws_extended_station::ExtendedKey;
use ws_keys::{Answer, Key};
use ws_lasting::LastingStation;
use ws_nego::TerminalType;
use ws_session::ProfileDisplay;

// A record of another type up to its FF EF, and the negative response to it.
const BAD_TYPE: &[u8] = b"\x00\x0f\x13\x00\x00";

const REFUSED: &[u8] = b"\x00\x0e\x12\xa0\x00\x00\x04\x80\x00\x00\x10\x05\x01\x21\xff\xef";

// It is one on the profile's own display.
#[test]
fn a_stream_that_ends_inside_a_refused_record_is_truncated(rt: HostRuntime) {
    let mut station = LastingStation::<ProfileDisplay>::new(TerminalType::Ibm3179Model2);
    for byte in OPENING {
        holds(&rt, station.push(*byte).is_ok());
    }
    same(&rt, station.finish(), Ok(()));
    for byte in BAD_TYPE {
        holds(&rt, station.push(*byte).is_ok());
    }
    same(&rt, station.finish(), Err(Fault::Truncated { at: 26 }));
    holds(&rt, station.push(0xff).is_ok());
    let reply = station.push(0xef).expect(&rt, "an end of record");
    same(&rt, station.bytes(&reply), REFUSED);
    same(&rt, station.finish(), Ok(()));
}

// A form with a field of three cells at row 6, column 53, that the last of its characters enters, and another field.
const AUTO_ENTER: &[u8] = b"\x00\x26\x12\xa0\x00\x00\x04\x00\x00\x03\
\x04\x40\x04\x11\x00\x08\x11\x06\x34\x1d\x40\x80\x20\x00\x03\
\x11\x06\x48\x1d\x40\x00\x20\x00\x04\x04\x52\x00\x00\xff\xef";

fn press(rt: &impl Abort, station: &mut EntryStation, key: Key) -> Option<Answer> {
    let pressed = press_key(station, ExtendedKey::Profile(key).into());
    pressed.expect(rt, "a key")
}

#[test]
fn auto_enter_sends(rt: HostRuntime) {
    let mut station = EntryStation::new(TerminalType::Ibm3179Model2);
    for bytes in [OPENING, AUTO_ENTER] {
        for byte in bytes {
            holds(&rt, station.push(*byte).is_ok());
        }
    }
    same(&rt, press(&rt, &mut station, Key::Char('A')), None);
    same(&rt, press(&rt, &mut station, Key::Char('B')), None);
    match press(&rt, &mut station, Key::Char('C')) {
        Some(Answer::Read(body)) => same(
            &rt,
            body.as_slice(),
            b"\x06\x49\xf1\x11\x06\x35\xc1\xc2\xc3",
        ),
        _ => holds(&rt, false),
    }
}
