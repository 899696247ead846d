//! Bodies and answers of all lengths: with memory enough none is refused for want of it.

use crate::end_rows::{joined, last_event, ready_host, record, refusal_of, send};
use crate::{holds, same, same_at};
use std::alloc::Global;
use std::process::Abort;
use ws_code::{Address, List, Reason};
use ws_keys::HostFault;
use ws_nego::TerminalType;
use ws_record::{Item, Opcode, decode_all, read_body};
use ws_script::read_script;
use ws_session::{Event, HostEnd, HostEvent, Move, Refusal, Report, World};
use ws_stream::{Answers, Commands};

const LARGER: [usize; 6] = [4095, 4096, 4097, 32767, 32768, 65525];

// A body of so many bytes, four at least: Write to Display, and letters over the whole screen, again and again. The
// largest has more than 65,000 elements.
fn body_of(rt: &impl Abort, alloc: Global, size: usize) -> Vec<u8> {
    let mut body = joined(rt, alloc, &[b"\x04\x11\x00\x00"]);
    for at in 0..size.saturating_sub(4) {
        let byte = match at % 1923 {
            1920 => 0x11,
            1921 | 1922 => 0x01,
            _ => 0xc1,
        };
        body.push(byte).expect(rt, "memory");
    }
    body
}

// Sent by a host end, and pushed into one, where these bytes are no answer.
fn is_sent(rt: &impl Abort, alloc: Global, host: &mut HostEnd, size: usize) {
    let body = body_of(rt, alloc, size);
    same(rt, body.len(), size);
    send(rt, alloc, host, body.as_slice());
    let sent = record(rt, alloc, body.as_slice());
    let refused = refusal_of(&mut ready_host(rt, alloc), sent.as_slice());
    same_at(rt, size, matches!(refused, Some(Refusal::At { .. })), true);
}

#[test]
fn bodies_of_all_lengths(rt: HostRuntime) {
    let alloc = rt.alloc();
    let mut host = ready_host(&rt, alloc);
    holds(&rt, host.send(Opcode::OutputOnly, &[]).is_ok());
    send(&rt, alloc, &mut host, b"\x04\x40");
    for size in 4..=300usize {
        is_sent(&rt, alloc, &mut host, size);
    }
    for size in LARGER {
        is_sent(&rt, alloc, &mut host, size);
    }
}

// A field of 1,919 cells, and a read.
const LARGEST_FIELD: &[u8] =
    b"\x04\x40\x04\x11\x00\x08\x11\x01\x01\x1d\x40\x00\x20\x07\x7f\x04\x52\x00\x00";

// An answer with so many bytes in that field.
fn answer_of(rt: &impl Abort, alloc: Global, size: usize) -> Vec<u8> {
    let mut body = joined(rt, alloc, &[b"\x01\x02\xf1\x11\x01\x02"]);
    for _ in 0..size {
        body.push(0xc1).expect(rt, "memory");
    }
    record(rt, alloc, body.as_slice())
}

// How many bytes of an answer the one field holds; more than its cells don't fit.
fn is_read(rt: &impl Abort, alloc: Global, host: &HostEnd, size: usize) {
    let answer = answer_of(rt, alloc, size);
    let items = decode_all::<Answers>(alloc, answer.as_slice()).expect(rt, "an answer");
    let [Item::Record(whole)] = items.as_slice() else {
        panic!(rt; "a record")
    };
    assert!(rt; host.asked().is_some());
    match host.read_fields(whole.body.as_slice()) {
        Ok(told) => match told.fields.as_slice() {
            [field] => same(
                rt,
                (field.content.as_slice().len(), size <= 1919),
                (size, true),
            ),
            _ => panic!(rt; "a field"),
        },
        Err(fault) => {
            let wanted = HostFault::Reason(Reason::AnswerMismatch);
            same(rt, (fault, size > 1919), (wanted, true));
        }
    }
}

// The bytes of an answer come to a host end that asked; it tells the answer with the last of them, or refuses that one.
fn is_told(rt: &impl Abort, alloc: Global, size: usize) {
    let mut host = ready_host(rt, alloc);
    send(rt, alloc, &mut host, LARGEST_FIELD);
    let answer = answer_of(rt, alloc, size);
    let (last, front) = answer.as_slice().split_last().expect(rt, "a byte");
    same_at(rt, size, refusal_of(&mut host, front), None);
    let told = match host.push(*last) {
        Ok(step) => matches!(step.event, Some(HostEvent::Answer(_))),
        Err(refusal) => {
            let reason = Reason::AnswerMismatch;
            let place = host.taken().saturating_sub(1);
            same_at(rt, size, refusal, Refusal::At { place, reason });
            false
        }
    };
    same_at(rt, size, told, size <= 1919);
}

// The content of a field of 1,919 cells, read from an answer by its parts and by its bytes; more than that doesn't fit.
#[test]
fn answers_of_all_lengths(rt: HostRuntime) {
    let alloc = rt.alloc();
    let mut host = ready_host(&rt, alloc);
    send(&rt, alloc, &mut host, LARGEST_FIELD);
    for size in 0..=300usize {
        is_read(&rt, alloc, &host, size);
        is_told(&rt, alloc, size);
    }
    for size in [1919usize, 1920, 4095, 4096, 4097, 32767, 32768, 65519] {
        is_read(&rt, alloc, &host, size);
        is_told(&rt, alloc, size);
    }
}

// 256 fields of six cells with nothing between them, all modified, and a read; and the answer that tells them all.
fn most_fields(rt: &impl Abort, alloc: Global) -> (Vec<u8>, Vec<u8>) {
    let mut form = joined(rt, alloc, &[b"\x04\x40\x04\x11\x00\x08"]);
    let mut body = joined(rt, alloc, &[b"\x01\x02\xf1"]);
    for number in 0..256u16 {
        let attribute = Address::at(number.saturating_mul(7)).expect(rt, "a cell");
        let first = Address::at(number.saturating_mul(7).saturating_add(1)).expect(rt, "a cell");
        let address = [0x11, attribute.row(), attribute.col()];
        for part in [address.as_slice(), b"\x1d\x48\x00\x20\x00\x06"] {
            form.extend_from_slice(part).expect(rt, "memory");
        }
        let field = [
            0x11,
            first.row(),
            first.col(),
            0xc1,
            0xc2,
            0xc3,
            0xc4,
            0xc5,
            0xc6,
        ];
        body.extend_from_slice(&field).expect(rt, "memory");
    }
    form.extend_from_slice(b"\x04\x52\x00\x00")
        .expect(rt, "memory");
    (form, record(rt, alloc, body.as_slice()))
}

// So many fields of an answer are read by its parts.
fn reads(rt: &impl Abort, alloc: Global, host: &HostEnd, answer: &[u8], fields: usize) {
    let items = decode_all::<Answers>(alloc, answer).expect(rt, "an answer");
    let [Item::Record(whole)] = items.as_slice() else {
        panic!(rt; "a record")
    };
    assert!(rt; host.asked().is_some());
    let told = host.read_fields(whole.body.as_slice()).expect(rt, "fields");
    same(rt, told.fields.as_slice().len(), fields);
}

// The answer of most fields is read by its parts, and told with its last byte.
#[test]
fn the_most_fields(rt: HostRuntime) {
    let alloc = rt.alloc();
    let (form, answer) = most_fields(&rt, alloc);
    let mut host = ready_host(&rt, alloc);
    send(&rt, alloc, &mut host, form.as_slice());
    reads(&rt, alloc, &host, answer.as_slice(), 256);
    match last_event(&rt, &mut host, answer.as_slice()) {
        Some(HostEvent::Answer(told)) => same(&rt, told.fields.as_slice().len(), 256),
        _ => panic!(rt; "an answer"),
    }
}

// A body of this length is sent and arrives.
fn moves_of(rt: &impl Abort, alloc: Global, size: usize) -> Vec<Move> {
    let body = body_of(rt, alloc, size);
    let elements = read_body::<Commands>(alloc, body.as_slice()).expect(rt, "a body");
    let sent = Move::Send(Opcode::OutputOnly, List::of(elements));
    let mut moves = read_script(alloc, b"settle\nsettle").expect(rt, "moves");
    assert!(rt; moves.len() == 16);
    moves.insert(8, sent).expect(rt, "memory");
    moves
}

fn has_arrived(rt: &impl Abort, size: usize, report: &Report) {
    let ready = matches!(report.events.as_slice(), [Event::Host(HostEvent::Ready(_))]);
    let arrived = report.to_station.as_slice().is_empty();
    let found = (ready, arrived, report.station.records());
    same_at(rt, size, found, (true, true, 1));
}

fn arrives(rt: &impl Abort, alloc: Global, size: usize) {
    let moves = moves_of(rt, alloc, size);
    let report = World::run(alloc, TerminalType::Ibm3179Model2, moves.as_slice());
    has_arrived(rt, size, &report.expect(rt, "memory"));
}

#[test]
fn sessions_of_all_lengths(rt: HostRuntime) {
    for size in 4..=300usize {
        arrives(&rt, rt.alloc(), size);
    }
    for size in LARGER {
        arrives(&rt, rt.alloc(), size);
    }
}
