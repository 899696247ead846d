//! Each call that takes memory, where a growth may be refused: it answers want of memory or what it answers with
//! memory, and what it stands on goes on as it says. Here no growth is refused; tests/run_without_memory.py runs these
//! tests with each one refused in turn, so nothing here rests on memory, but what a call under test gave.

use crate::{holds, same, same_bytes};
use arrayvec::ArrayVec;
use std::alloc::Global;
use std::process::Abort;
use ws_code::{Address, Aid, DataByte, Fault, Ffw, List, SliceSource, VecSink, WriteSink};
use ws_keys::{HostAnswer, HostFault, Key};
use ws_nego::TerminalType;
use ws_program::{TextFault, check_to, hex_bytes, show_to};
use ws_record::{
    EncodeFault, Item, Live, Opcode, Receiver, Record, Step, decode_all, decode_from, encode,
    encode_to,
};
use ws_script::{ScriptFault, read_script};
use ws_session::{
    Event, HostEnd, HostEvent, Move, Refusal, SendFault, Station, World, run_station, write_answer,
};
use ws_stream::{AnswerPart, Answers, Commands, Element, FieldStart};
use ws_telnet::{CommandCode, Telnet};

// A host end's opening.
const OPENING: &[u8] =
    b"\xff\xfd\x18\xff\xfa\x18\x01\xff\xf0\xff\xfd\x19\xff\xfb\x19\xff\xfd\x00\xff\xfb\x00";

/// What a station answers to the opening.
pub(crate) const OPENED: &[u8] =
    b"\xff\xfb\x18\xff\xfa\x18\x00IBM-3179-2\xff\xf0\xff\xfb\x19\xff\xfd\x19\xff\xfb\x00\xff\xfd\x00";

const INVITE: &[u8] = b"\x00\x0a\x12\xa0\x00\x00\x04\x00\x00\x01\xff\xef";

// A form of one field at 6, 53.
const BOB: &[u8] =
    b"\x00\x1d\x12\xa0\x00\x00\x04\x00\x00\x03\x04\x40\x04\x11\x00\x08\x11\x06\x34\x1d\x40\x00\x20\x00\x0a\x04\x52\x00\x00\xff\xef";

/// The record of the answer to it.
pub(crate) const BOB_ANSWER: &[u8] =
    b"\x00\x13\x12\xa0\x00\x00\x04\x00\x00\x03\x06\x38\xf1\x11\x06\x35\xc2\xd6\xc2\xff\xef";

const BOB_HEX: &[u8] = b"001D12A0000004000003 0440041100081106341D400020000A04520000 FFEF";

const BOB_LINE: &[u8] = b"accepted: 1 records, 0 commands, 31 bytes\n";

const BOB_SHOWN: &[u8] =
    b"at 30 record flags 0000 opcode 3\n  CLEAR-UNIT\n  WRITE 00 08\n  SBA 6 52\n  SF 4000 20 10\n  READ-MDT 00 00\nscreen\ncursor 6 53, unlocked, message off, blink off, fields 1\n";

// What the elements of `bob` are.
fn form(rt: &impl Abort) -> [Element; 5] {
    let before = Address::new(6, 52).expect(rt, "an address");
    let field = FieldStart::new(Ffw::new(0x4000), &[], 0x20, 10).expect(rt, "a field");
    [
        Element::ClearUnit,
        Element::Write { cc1: 0, cc2: 8 },
        Element::Sba(before),
        Element::Sf(field),
        Element::ReadMdt { cc1: 0, cc2: 0 },
    ]
}

/// The parts of `bob`'s answer.
pub(crate) fn parts(rt: &impl Abort) -> [AnswerPart; 5] {
    let letter_b = DataByte::new(0xc2).expect(rt, "a byte");
    let letter_o = DataByte::new(0xd6).expect(rt, "a byte");
    [
        AnswerPart::Head {
            cursor: Address::new(6, 56).expect(rt, "an address"),
            aid: Aid::from_byte(0xf1).expect(rt, "a key"),
        },
        AnswerPart::At(Address::new(6, 53).expect(rt, "an address")),
        AnswerPart::Byte(letter_b),
        AnswerPart::Byte(letter_o),
        AnswerPart::Byte(letter_b),
    ]
}

// A receiver that has failed for want of memory answers `Failed` from then on.
fn feed_within(rt: &impl Abort, alloc: Global) {
    let mut receiver = Receiver::<Commands>::new(alloc);
    let mut given = 0u8;
    for byte in BOB {
        match receiver.feed(&[*byte]) {
            Ok(fed) => given = given.saturating_add(u8::from(fed.item.is_some())),
            Err(fault) => {
                same(rt, fault, Fault::Memory);
                holds(rt, matches!(receiver.feed(&[]), Err(Fault::Failed)));
                holds(rt, matches!(receiver.feed(b"\x04"), Err(Fault::Failed)));
                same(rt, receiver.finish(), Err(Fault::Failed));
                return;
            }
        }
    }
    same(rt, given, 1);
    same(rt, receiver.finish(), Ok(()));
}

fn encode_within(rt: &impl Abort, alloc: Global, items: &[Item<Element>]) {
    match encode::<Commands>(alloc, items) {
        Ok(bytes) => same_bytes(rt, bytes.as_slice(), BOB),
        Err(fault) => same(rt, fault, EncodeFault::Memory),
    }
}

#[test]
fn streams_within_memory(rt: HostRuntime) {
    let alloc = rt.alloc();
    match decode_all::<Commands>(alloc, BOB) {
        Ok(items) => encode_within(&rt, alloc, items.as_slice()),
        Err(fault) => same(&rt, fault, Fault::Memory),
    }
    let mut source = SliceSource::new(BOB_ANSWER);
    match decode_from::<Answers, SliceSource>(alloc, &mut source) {
        Ok(items) => same(&rt, items.len(), 1),
        Err(fault) => same(&rt, fault, Fault::Memory),
    }
    feed_within(&rt, alloc);
}

// A host end to which a station has answered. None of this takes memory.
fn ready_host(rt: &impl Abort, alloc: Global) -> HostEnd {
    let mut host = HostEnd::new(alloc);
    same(rt, host.open().as_slice().len(), 3);
    for byte in OPENED {
        holds(rt, host.push(*byte).is_ok());
    }
    host
}

// Sends `bob`'s record. Where memory was wanted nothing has changed, and it is sent at the second time.
fn send_within(rt: &impl Abort, host: &mut HostEnd) {
    let body = form(rt);
    let sent = match host.send(Opcode::PutGet, &body) {
        Ok(sent) => sent,
        Err(fault) => {
            same(rt, fault, SendFault::Memory);
            holds(rt, host.asked().is_none());
            holds(rt, host.fields().is_empty());
            host.send(Opcode::PutGet, &body)
                .expect(rt, "sent at the second time")
        }
    };
    same_bytes(rt, sent.as_slice(), BOB);
    holds(rt, host.asked().is_some());
    same(rt, host.fields().len(), 1);
}

/// Whether `bob` was read from an answer.
pub(crate) fn is_bob(answer: &HostAnswer) -> bool {
    match answer.fields.as_slice() {
        [field] => field.content.as_slice() == b"\xc2\xd6\xc2".as_slice(),
        _ => false,
    }
}

// Reads the parts of `bob`'s answer, at the second time where memory was wanted.
fn read_fields_within(rt: &impl Abort, host: &HostEnd) {
    if host.asked().is_none() {
        panic!(rt; "a read");
    }
    let parts = parts(rt);
    let answer = match host.read_fields(&parts) {
        Ok(answer) => answer,
        Err(fault) => {
            holds(rt, matches!(fault, HostFault::Memory));
            host.read_fields(&parts)
                .expect(rt, "read at the second time")
        }
    };
    holds(rt, is_bob(&answer));
}

// Takes `bob`'s answer. A host end that has failed for want of memory answers `Failed` from then on.
fn push_within(rt: &impl Abort, host: &mut HostEnd) {
    let mut event = None;
    for byte in BOB_ANSWER {
        match host.push(*byte) {
            Ok(step) => event = step.event,
            Err(refusal) => {
                same(rt, refusal, Refusal::Memory);
                same(rt, host.push(0).err(), Some(Refusal::Failed));
                same(
                    rt,
                    host.send(Opcode::Invite, &[]).err(),
                    Some(SendFault::Failed),
                );
                same(rt, host.cancel().err(), Some(SendFault::Failed));
                return;
            }
        }
    }
    match event {
        Some(HostEvent::Answer(answer)) => holds(rt, is_bob(&answer)),
        _ => panic!(rt; "an answer"),
    }
}

#[test]
fn host_end_within_memory(rt: HostRuntime) {
    let mut host = ready_host(&rt, rt.alloc());
    send_within(&rt, &mut host);
    read_fields_within(&rt, &host);
    push_within(&rt, &mut host);
}

/// A station that shows `bob`'s form. None of this takes memory.
pub(crate) fn station_with_bob(rt: &impl Abort) -> Station {
    let mut station = Station::new(TerminalType::default());
    for byte in OPENING.iter().chain(BOB.iter()) {
        holds(rt, station.push(*byte).is_ok());
    }
    station
}

// The elements of `bob` in a list, where there is memory for it.
fn form_list(rt: &impl Abort, alloc: Global) -> Option<List<Element>> {
    match Vec::from_array(alloc, form(rt)) {
        Ok(elements) => Some(List::of(elements)),
        Err(_) => None,
    }
}

// An opening, `bob`'s form and Enter.
fn moves(rt: &impl Abort, form: List<Element>) -> [Move; 10] {
    let enter = Aid::from_byte(0xf1).expect(rt, "a key");
    [
        Move::ToStation(usize::MAX),
        Move::ToHost(usize::MAX),
        Move::ToStation(usize::MAX),
        Move::ToHost(usize::MAX),
        Move::ToStation(usize::MAX),
        Move::ToHost(usize::MAX),
        Move::Send(Opcode::PutGet, form),
        Move::ToStation(usize::MAX),
        Move::Key(Key::Aid(enter)),
        Move::ToHost(usize::MAX),
    ]
}

// The host end was ready, and was then answered without any field.
fn are_answered(events: &[Event]) -> bool {
    match events {
        [
            Event::Host(HostEvent::Ready(_)),
            Event::Host(HostEvent::Answer(answer)),
        ] => { answer.fields.as_slice().is_empty() }
        _ => false,
    }
}

// To make the list of elements is none of the calls under test.
#[test]
fn world_within_memory(rt: HostRuntime) {
    let Some(form) = form_list(&rt, rt.alloc()) else {
        return;
    };
    let moves = moves(&rt, form);
    match World::run(rt.alloc(), TerminalType::default(), &moves) {
        Ok(report) => holds(&rt, are_answered(report.events.as_slice())),
        Err(fault) => same(&rt, fault, Fault::Memory),
    }
}

// Whether the answer and what the sink holds are those of a text that is whole, or of one that ends early for want of
// memory, which is the sink's own where it has failed.
fn is_printed_within(found: Result<bool, Fault>, sink: &VecSink, text: &[u8]) -> bool {
    match found {
        Ok(accepted) => accepted && sink.as_slice() == text,
        Err(fault) => {
            let wanted = if sink.failures() == 0 {
                Fault::Memory
            } else {
                Fault::Write
            };
            fault == wanted && text.starts_with(sink.as_slice())
        }
    }
}

#[test]
fn program_within_memory(rt: HostRuntime) {
    let alloc = rt.alloc();
    match hex_bytes(alloc, BOB_HEX) {
        Ok(bytes) => same_bytes(&rt, bytes.as_slice(), BOB),
        Err(fault) => same(&rt, fault, TextFault::Memory),
    }
    let mut sink = VecSink::new(alloc);
    let found = check_to::<Commands, VecSink>(alloc, BOB, 7, &mut sink);
    holds(&rt, is_printed_within(found, &sink, BOB_LINE));
    let mut sink = VecSink::new(alloc);
    let found = show_to(alloc, BOB, &mut sink);
    holds(&rt, is_printed_within(found, &sink, BOB_SHOWN));
    let script = b"settle\nsend 3 0440041100081106341D400020000A04520000\ntype BOB\nkey Enter\n";
    match read_script(alloc, script) {
        Ok(moves) => same(&rt, moves.len(), 13),
        Err(fault) => same(&rt, fault, ScriptFault::Memory),
    }
}

// What these calls are asked for takes no memory: each of these tests passes with every growth refused.

type FixedSink = WriteSink<ArrayVec<u8, 64>>;

fn fixed_sink() -> FixedSink {
    WriteSink::new(ArrayVec::new())
}

const KEYS: [Key; 3] = [Key::Char('B'), Key::Char('O'), Key::Char('B')];

#[test]
fn bob_without_memory(rt: HostRuntime) {
    let mut station = station_with_bob(&rt);
    for key in KEYS {
        holds(&rt, matches!(station.key(key), Ok(None)));
    }
    let enter = Key::Aid(Aid::from_byte(0xf1).expect(&rt, "a key"));
    let mut sink = fixed_sink();
    match station.key(enter) {
        Ok(Some(answer)) => same(&rt, write_answer(&mut sink, &answer), Ok(())),
        _ => panic!(rt; "an answer"),
    }
    same_bytes(&rt, sink.into_inner().as_slice(), BOB_ANSWER);
}

#[test]
fn run_station_without_memory(rt: HostRuntime) {
    let enter = Key::Aid(Aid::from_byte(0xf1).expect(&rt, "a key"));
    let keys = [(1, KEYS[0]), (1, KEYS[1]), (1, KEYS[2]), (1, enter)];
    let mut bytes: ArrayVec<u8, 64> = ArrayVec::new();
    for byte in OPENING.iter().chain(BOB.iter()) {
        holds(&rt, bytes.try_push(*byte).is_ok());
    }
    let station = Station::new(TerminalType::default());
    let mut source = SliceSource::new(bytes.as_slice());
    let mut sink = fixed_sink();
    match run_station(station, &mut source, &mut sink, &keys) {
        Ok(played) => same(&rt, played.keys_refused, 0),
        Err(fault) => panic!(rt; "{fault:?}"),
    }
    let written = sink.into_inner();
    holds(&rt, written.as_slice().starts_with(OPENED));
    holds(&rt, written.as_slice().ends_with(BOB_ANSWER));
    same(&rt, written.len(), 52);
}

#[test]
fn records_without_memory(rt: HostRuntime) {
    let mut live = Live::<Commands>::new();
    let mut units = 0u8;
    for byte in BOB {
        match live.push(*byte) {
            Step::Unit(_) => units = units.saturating_add(1),
            Step::Refused { .. } | Step::Failed => panic!(rt; "a byte that is taken"),
            _ => {}
        }
    }
    same(&rt, units, 5);
    same(&rt, live.finish(), Ok(()));
    let invite: Record<Element> = Record {
        flags: 0,
        opcode: Opcode::Invite,
        body: List::of(Vec::new(rt.alloc())),
    };
    let items = [
        Item::Telnet(Telnet::Command(CommandCode::Nop)),
        Item::Record(invite),
    ];
    let mut sink = fixed_sink();
    let written = encode_to::<Commands, FixedSink>(&items, &mut sink);
    same(&rt, written, Ok(()));
    let written = sink.into_inner();
    holds(&rt, written.as_slice().starts_with(b"\xff\xf1"));
    holds(&rt, written.as_slice().ends_with(INVITE));
    same(&rt, written.len(), 14);
}

// A cancel is sent wherever a read was asked, with no memory after that.
#[test]
fn cancel_without_memory(rt: HostRuntime) {
    let mut host = ready_host(&rt, rt.alloc());
    match host.send(Opcode::PutGet, &form(&rt)) {
        Ok(_) => {
            let cancel = host.cancel().expect(&rt, "a cancel");
            same(&rt, cancel.len(), 12);
        }
        Err(fault) => same(&rt, fault, SendFault::Memory),
    }
}
