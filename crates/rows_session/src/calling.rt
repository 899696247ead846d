//! Callers of the crates, each as a program of one's own would write it. docs/CALLING.md shows them.

use std::alloc::{AllocError, Global};
use ws_code::{Fault, Reason, Sink, write_whole};
use ws_keys::Key;
use ws_record::{Item, Live, Opcode, Receiver, Step};
use ws_screen::Screen;
use ws_session::{
    HostEnd, HostEvent, HostStep, KeyFault, Refusal, SendFault, Station, apply_record, write_answer,
};
use ws_stream::{Commands, Element, is_body};

/// What of a stream came whole before its end or its refusal.
#[derive(Debug, Drop)]
pub(crate) struct Seen {
    pub(crate) elements: Vec<Element>,
    pub(crate) refused: Option<(u64, Reason)>,
}

/// Reads a stream live: the elements come as they are whole, also those of a record that is refused later.
pub(crate) fn see(alloc: Global, bytes: &[u8]) -> Result<Seen, AllocError> {
    let mut live = Live::<Commands>::new();
    let mut elements = Vec::new(alloc);
    let mut refused = None;
    for byte in bytes {
        match live.push(*byte) {
            Step::Unit(element) => elements.push(element)?,
            Step::Refused { place, reason } => refused = Some((place, reason)),
            Step::More | Step::Open(_) | Step::Close | Step::Telnet(_) | Step::Failed => {}
        }
    }
    Ok(Seen { elements, refused })
}

/// Feeds a piece of any length, and keeps the items that are complete with its bytes.
pub(crate) fn feed_piece(
    receiver: &mut Receiver<Commands>,
    piece: &[u8],
    items: &mut Vec<Item<Element>>,
) -> Result<(), Fault> {
    let mut rest = piece;
    while !rest.is_empty() {
        let fed = receiver.feed(rest)?;
        rest = &rest[fed.used..];
        if let Some(item) = fed.item {
            if items.push(item).is_err() {
                return Err(Fault::Memory);
            }
        }
    }
    Ok(())
}

/// Carries out the records of a stream on a new screen, up to the first that it refuses.
pub(crate) fn screen_of(items: &[Item<Element>]) -> Result<Screen, Reason> {
    let mut screen = Screen::new();
    for item in items {
        if let Item::Record(record) = item {
            if is_body(record.body.as_slice()) && !screen.writing() {
                apply_record(&mut screen, record)?;
            }
        }
    }
    Ok(screen)
}

/// What ends an emulator's loop: a byte of the host is refused, or the line to the host takes no more.
#[derive(Debug, Drop, PartialEq, Eq)]
pub(crate) enum Ended {
    Refused(Refusal),
    Line(Fault),
}

/// An emulator: what has come from the host is taken, and the replies are written.
pub(crate) fn hear<S: Sink>(
    station: &mut Station,
    bytes: &[u8],
    line: &mut S,
) -> Result<(), Ended> {
    for byte in bytes {
        let reply = match station.push(*byte) {
            Ok(reply) => reply,
            Err(refusal) => return Err(Ended::Refused(refusal)),
        };
        if let Err(fault) = write_whole(line, reply.as_slice()) {
            return Err(Ended::Line(fault));
        }
    }
    Ok(())
}

/// An emulator: a key is pressed, and what it sends is written. A refused key tells why, for the status line.
pub(crate) fn strike<S: Sink>(
    station: &mut Station,
    key: Key,
    line: &mut S,
) -> Result<Option<KeyFault>, Fault> {
    match station.key(key) {
        Ok(Some(answer)) => write_answer(line, &answer)?,
        Ok(None) => {}
        Err(fault) => return Ok(Some(fault)),
    }
    Ok(None)
}

/// A test harness: a screen is sent to a station that is ready.
pub(crate) fn ask<S: Sink>(
    host: &mut HostEnd,
    body: &[Element],
    line: &mut S,
) -> Result<(), SendFault> {
    let record = host.send(Opcode::PutGet, body)?;
    match write_whole(line, record.as_slice()) {
        Ok(()) => Ok(()),
        Err(_) => Err(SendFault::Failed),
    }
}

/// What a harness has heard: how many bytes it took, and what the last of them told.
#[derive(Debug, Drop)]
pub(crate) struct HostHeard {
    pub(crate) used: usize,
    pub(crate) event: Option<HostEvent>,
}

/// A test harness: what has come from the station is taken, up to the first thing that it tells; the replies are
/// written. The bytes after those that were used come again with the next call.
pub(crate) fn await_event<S: Sink>(
    host: &mut HostEnd,
    bytes: &[u8],
    line: &mut S,
) -> Result<HostHeard, Ended> {
    for (at, byte) in bytes.iter().enumerate() {
        let HostStep { reply, event } = match host.push(*byte) {
            Ok(step) => step,
            Err(refusal) => return Err(Ended::Refused(refusal)),
        };
        if let Err(fault) = write_whole(line, reply.as_slice()) {
            return Err(Ended::Line(fault));
        }
        if event.is_some() {
            let used = at + 1;
            return Ok(HostHeard { used, event });
        }
    }
    Ok(HostHeard {
        used: bytes.len(),
        event: None,
    })
}
