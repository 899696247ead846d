//! What the rows of both ends share: the opening of a session, one form with its answer, and ends that are ready.

use crate::{holds, same};
use std::alloc::Global;
use std::process::Abort;
use ws_code::{Aid, VecSink};
use ws_keys::{HostAnswer, Key};
use ws_nego::TerminalType;
use ws_record::{Opcode, read_body, write_record};
use ws_script::read_script;
use ws_session::{HostEnd, HostEvent, Move, Refusal, Station};
use ws_stream::Commands;

/// A host end's opening: DO 18, SEND, and the four requests.
pub(crate) const OPENING: &[u8] =
    b"\xff\xfd\x18\xff\xfa\x18\x01\xff\xf0\xff\xfd\x19\xff\xfb\x19\xff\xfd\x00\xff\xfb\x00";

/// What a station writes at the opening.
pub(crate) const OPENED: &[u8] =
    b"\xff\xfb\x18\xff\xfa\x18\x00IBM-3179-2\xff\xf0\xff\xfb\x19\xff\xfd\x19\xff\xfb\x00\xff\xfd\x00";

/// The body of a form: Clear Unit, Write to Display, a field of ten cells at 6, 53, Read MDT Fields.
pub(crate) const BOB: &[u8] =
    b"\x04\x40\x04\x11\x00\x08\x11\x06\x34\x1d\x40\x00\x20\x00\x0a\x04\x52\x00\x00";

/// The record of that form.
pub(crate) const BOB_RECORD: &[u8] = b"\x00\x1d\x12\xa0\x00\x00\x04\x00\x00\x03\
\x04\x40\x04\x11\x00\x08\x11\x06\x34\x1d\x40\x00\x20\x00\x0a\x04\x52\x00\x00\xff\xef";

/// The opening, and the record of that form.
pub(crate) const OPENING_AND_BOB: &[u8; 52] =
    b"\xff\xfd\x18\xff\xfa\x18\x01\xff\xf0\xff\xfd\x19\xff\xfb\x19\xff\xfd\x00\xff\xfb\x00\
\x00\x1d\x12\xa0\x00\x00\x04\x00\x00\x03\
\x04\x40\x04\x11\x00\x08\x11\x06\x34\x1d\x40\x00\x20\x00\x0a\x04\x52\x00\x00\xff\xef";

/// The record of the answer of B, O, B, Enter.
pub(crate) const BOB_ANSWER: &[u8] =
    b"\x00\x13\x12\xa0\x00\x00\x04\x00\x00\x03\x06\x38\xf1\x11\x06\x35\xc2\xd6\xc2\xff\xef";

/// What that answer says, as `is_told` has it.
pub(crate) const BOB_TOLD: &[u8] = b"\x06\x38\xf1\x06\x35\xc2\xd6\xc2";

/// A record that cancels the invite.
pub(crate) const CANCEL: &[u8] = b"\x00\x0a\x12\xa0\x00\x00\x04\x00\x00\x0a\xff\xef";

/// A record that a screen refuses at its end.
pub(crate) const PAST_END: &[u8] =
    b"\x00\x13\x12\xa0\x00\x00\x04\x00\x00\x03\x04\x11\x00\x00\x11\x18\x50\xc1\xc2\xff\xef";

/// The record of the Attention key.
pub(crate) const ATTENTION: &[u8] = b"\x00\x0a\x12\xa0\x00\x00\x04\x40\x00\x00\xff\xef";

/// The key Enter.
pub(crate) fn enter(rt: &impl Abort) -> Key {
    Key::Aid(Aid::from_byte(0xf1).expect(rt, "a key"))
}

/// Pieces, one after another. A test ends where memory is wanting, here and below, so that its callers have no error to
/// hand on.
pub(crate) fn joined(rt: &impl Abort, alloc: Global, pieces: &[&[u8]]) -> Vec<u8> {
    let mut bytes = Vec::new(alloc);
    for piece in pieces {
        bytes.extend_from_slice(piece).expect(rt, "memory");
    }
    bytes
}

/// The keys of a script, each of which is due after one record.
pub(crate) fn keys_of(rt: &impl Abort, alloc: Global, script: &str) -> Vec<(u32, Key)> {
    let moves = read_script(alloc, script.as_bytes()).expect(rt, "a script");
    let mut keys = Vec::new(alloc);
    for step in moves.as_slice() {
        match step {
            Move::Key(key) => keys.push((1, *key)).expect(rt, "memory"),
            _ => panic!(rt; "a key"),
        }
    }
    keys
}

/// A record of opcode 3 with this body.
pub(crate) fn record(rt: &impl Abort, alloc: Global, body: &[u8]) -> Vec<u8> {
    let mut sink = VecSink::new(alloc);
    assert!(rt; body.len() <= 65525);
    let written = write_record(&mut sink, 0, Opcode::PutGet, body);
    holds(rt, written.is_ok());
    sink.into_inner()
}

/// What a station takes and writes by bytes that it doesn't refuse.
pub(crate) fn push_all(
    rt: &impl Abort,
    alloc: Global,
    station: &mut Station,
    bytes: &[u8],
) -> Vec<u8> {
    let mut written = Vec::new(alloc);
    for byte in bytes {
        let reply = station.push(*byte).expect(rt, "a byte");
        written
            .extend_from_slice(reply.as_slice())
            .expect(rt, "memory");
    }
    written
}

/// A station writes this by these bytes.
pub(crate) fn replies(
    rt: &impl Abort,
    alloc: Global,
    station: &mut Station,
    bytes: &[u8],
    wanted: &[u8],
) {
    let written = push_all(rt, alloc, station, bytes);
    same(rt, written.as_slice(), wanted);
}

/// A station that has taken nothing.
pub(crate) fn new_station() -> Station {
    Station::new(TerminalType::Ibm3179Model2)
}

/// A station that shows the form of this body.
pub(crate) fn ready_station(rt: &impl Abort, alloc: Global, body: &[u8]) -> Station {
    let mut station = new_station();
    replies(rt, alloc, &mut station, OPENING, OPENED);
    if !body.is_empty() {
        let form = record(rt, alloc, body);
        push_all(rt, alloc, &mut station, form.as_slice());
    }
    station
}

/// A host end to which a station has answered.
pub(crate) fn ready_host(rt: &impl Abort, alloc: Global) -> HostEnd {
    let mut host = HostEnd::new(alloc);
    same(rt, host.open().as_slice(), b"\xff\xfd\x18".as_slice());
    match last_event(rt, &mut host, OPENED) {
        Some(HostEvent::Ready(TerminalType::Ibm3179Model2)) => host,
        _ => panic!(rt; "ready"),
    }
}

/// What the last of the bytes tells; the others tell nothing.
pub(crate) fn last_event(rt: &impl Abort, host: &mut HostEnd, bytes: &[u8]) -> Option<HostEvent> {
    let mut told = None;
    for byte in bytes {
        holds(rt, told.is_none());
        told = host.push(*byte).expect(rt, "a byte that is taken").event;
    }
    told
}

/// The host end sends a record of this body.
pub(crate) fn send(rt: &impl Abort, alloc: Global, host: &mut HostEnd, body: &[u8]) {
    let elements = read_body::<Commands>(alloc, body).expect(rt, "a body");
    let sent = host.send(Opcode::PutGet, elements.as_slice());
    let sent = sent.expect(rt, "sent");
    same(rt, sent.as_slice(), record(rt, alloc, body).as_slice());
}

/// A host end that has sent a form and waits for its answer.
pub(crate) fn waiting_host(rt: &impl Abort, alloc: Global) -> HostEnd {
    let mut host = ready_host(rt, alloc);
    send(rt, alloc, &mut host, BOB);
    host
}

/// Why a host end refuses the first of these bytes that it doesn't take.
pub(crate) fn refusal_of(host: &mut HostEnd, bytes: &[u8]) -> Option<Refusal> {
    for byte in bytes {
        if let Err(refusal) = host.push(*byte) {
            return Some(refusal);
        }
    }
    None
}

/// An answer says this: the cursor and the AID, and of each field the address and the content.
pub(crate) fn is_told(rt: &impl Abort, alloc: Global, answer: &HostAnswer, wanted: &[u8]) {
    let head = [answer.cursor.row(), answer.cursor.col(), answer.aid.byte()];
    let mut bytes = joined(rt, alloc, &[&head]);
    for field in answer.fields.as_slice() {
        let place = [field.address.row(), field.address.col()];
        for part in [place.as_slice(), field.content.as_slice()] {
            bytes.extend_from_slice(part).expect(rt, "memory");
        }
    }
    same(rt, bytes.as_slice(), wanted);
}
