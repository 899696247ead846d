//! A host end by itself, and what it reads from a station's answers.

use crate::end_rows::{
    BOB, BOB_ANSWER, BOB_TOLD, CANCEL, OPENING, is_told, joined, keys_of, last_event, push_all,
    ready_host, ready_station, record, refusal_of, send, waiting_host,
};
use crate::{holds, same};
use std::alloc::Global;
use std::process::Abort;
use ws_code::{Reason, SliceSource, VecSink};
use ws_nego::TerminalType;
use ws_record::{Item, Opcode, decode_all};
use ws_session::{HostEnd, HostEvent, ReadKind, Refusal, SendFault, Station, run_station};
use ws_stream::{Answers, Element};

// The host end refuses one of the bytes, at this place of all that it took, and takes those before it.
fn host_refuses(rt: &impl Abort, host: &mut HostEnd, bytes: &[u8], place: u64, reason: Reason) {
    let refused = Some(Refusal::At { place, reason });
    same(rt, refusal_of(host, bytes), refused);
}

fn sends_not(rt: &impl Abort, host: &mut HostEnd, body: &[Element], why: SendFault) {
    same(rt, host.send(Opcode::PutGet, body).err(), Some(why));
}

#[test]
fn sends_are_refused(rt: HostRuntime) {
    let alloc = rt.alloc();
    sends_not(&rt, &mut HostEnd::new(alloc), &[], SendFault::NotAllowed);
    let mut host = ready_host(&rt, alloc);
    same(&rt, host.cancel().err(), Some(SendFault::NoReadToCancel));
    send(&rt, alloc, &mut host, BOB);
    same(&rt, host.fields().as_slice().len(), 1);
    let clear = [Element::ClearUnit];
    sends_not(&rt, &mut host, &clear, SendFault::ReadOutstanding);
}

// What a host end tells of itself that waits for an answer, and has taken so many bytes.
fn waits(rt: &impl Abort, host: &HostEnd, taken: u64) {
    let terminal = Some(TerminalType::Ibm3179Model2);
    same(
        rt,
        (host.is_ready(), host.terminal(), host.taken()),
        (true, terminal, taken),
    );
    same(rt, host.asked(), Some(ReadKind::Mdt));
    same(rt, host.fields().as_slice().len(), 1);
}

// After a refused byte a host end tells what it told before, and has taken that byte too.
#[test]
fn a_refusal_changes_nothing_else_of_a_host_end(rt: HostRuntime) {
    let mut host = waiting_host(&rt, rt.alloc());
    waits(&rt, &host, 31);
    host_refuses(&rt, &mut host, b"\xff\x00", 32, Reason::BadCommand);
    waits(&rt, &host, 33);
}

// The answer's place counts the opening's 31 bytes, the cancel's 12, and 20 of its own.
#[test]
fn an_answer_behind_its_cancel(rt: HostRuntime) {
    let alloc = rt.alloc();
    let mut station = ready_station(&rt, alloc, BOB);
    let answered = push_all(&rt, alloc, &mut station, CANCEL);
    same(&rt, answered.as_slice(), CANCEL);
    let mut host = waiting_host(&rt, alloc);
    let cancelled = host.cancel().expect(&rt, "a cancel");
    same(&rt, cancelled.as_slice(), CANCEL);
    same(
        &rt,
        last_event(&rt, &mut host, answered.as_slice()),
        Some(HostEvent::Cancelled),
    );
    holds(&rt, host.asked().is_none());
    host_refuses(&rt, &mut host, BOB_ANSWER, 63, Reason::UnaskedAnswer);
    same(&rt, host.cancel().err(), Some(SendFault::Failed));
}

// An answer with a byte before its first field, after the 31 bytes of the opening.
#[test]
fn an_answer_that_fits_no_read(rt: HostRuntime) {
    let alloc = rt.alloc();
    let mut host = waiting_host(&rt, alloc);
    let mismatched = b"\x00\x0e\x12\xa0\x00\x00\x04\x00\x00\x03\x06\x38\xf1\xc1\xff\xef";
    host_refuses(&rt, &mut host, mismatched, 46, Reason::AnswerMismatch);
}

// A host end that has asked for the terminal type.
fn opened_host(alloc: Global) -> HostEnd {
    let mut host = HostEnd::new(alloc);
    host.open();
    host
}

// A terminal that isn't supported; one that is, in small letters.
#[test]
fn terminals_are_named(rt: HostRuntime) {
    let alloc = rt.alloc();
    let wide = b"\xff\xfb\x18\xff\xfa\x18\x00IBM-3477-FC\xff\xf0";
    let reason = Reason::UnsupportedTerminal;
    host_refuses(&rt, &mut opened_host(alloc), wide, 19, reason);
    let small = b"\xff\xfb\x18\xff\xfa\x18\x00ibm-3179-2\xff\xf0";
    same(&rt, refusal_of(&mut opened_host(alloc), small), None);
}

const SWITCHED: &[u8] =
    b"\x04\x40\x04\x11\x00\x08\x01\x07\x00\x00\x00\x00\x00\x00\x04\x11\x06\x34\x1d\x40\x00\x20\x00\x0a\x04\x52\x00\x00";

const DESCENDING: &[u8] =
    b"\x04\x11\x00\x08\x11\x06\x34\x1d\x48\x00\x20\x00\x06\xc1\x00\xc2\x11\x03\x01\x1d\x48\x00\x20\x00\x04\x04\x52\x00\x00";

const ALTERNATE: &[u8] =
    b"\x04\x11\x00\x08\x11\x06\x34\x1d\x48\x00\x20\x00\x06\xc1\x00\xc2\x11\x03\x01\x1d\x48\x00\x20\x00\x04\x04\x82\x00\x00";

const UNMODIFIED: &[u8] =
    b"\x04\x11\x00\x08\x11\x06\x34\x1d\x40\x00\x20\x00\x06\xc1\x00\xc2\x11\x03\x01\x1d\x40\x00\x20\x00\x04\x04\x42\x00\x00";

const ALL_INPUT: &[u8] =
    b"\x04\x11\x00\x08\x11\x06\x34\x1d\x48\x00\x20\x00\x06\xc1\x00\xc2\x11\x03\x01\x1d\x40\x00\x20\x00\x04\x04\x42\x00\x00";

const OF_FF: &[u8] = b"\x04\x11\x00\x08\x11\x06\x34\x1d\x48\x00\x20\x00\x02\xff\x04\x52\x00\x00";

const SIGNED: &[u8] = b"\x04\x11\x00\x08\x11\x06\x34\x1d\x47\x00\x20\x00\x05\x04\x52\x00\x00";

const SIGNED_INPUT: &[u8] = b"\x04\x11\x00\x08\x11\x06\x34\x1d\x47\x00\x20\x00\x05\x04\x42\x00\x00";

const ZERO_FILLED: &[u8] = b"\x04\x11\x00\x08\x11\x06\x34\x1d\x47\x05\x20\x00\x05\x04\x52\x00\x00";

// A form, the keys that answer it, how many of them are refused, the answer as a station writes it,
// and what a host end reads from it, as `is_told` has it.
struct AnsweredForm {
    body: &'static [u8],
    keys: &'static str,
    refused: u32,
    answer: &'static [u8],
    read: &'static [u8],
}

const ANSWERED_FORMS: [AnsweredForm; 15] = [
    AnsweredForm {
        body: BOB,
        keys: "type BOB\nkey Enter",
        refused: 0,
        answer: BOB_ANSWER,
        read: BOB_TOLD,
    },
    AnsweredForm {
        body: SWITCHED,
        keys: "type BOB\nkey F3",
        refused: 0,
        answer: b"\x00\x0d\x12\xa0\x00\x00\x04\x00\x00\x03\x06\x38\x33\xff\xef",
        read: b"\x06\x38\x33",
    },
    AnsweredForm {
        body: SWITCHED,
        keys: "type BOB\nkey F2",
        refused: 0,
        answer: b"\x00\x13\x12\xa0\x00\x00\x04\x00\x00\x03\x06\x38\x32\x11\x06\x35\xc2\xd6\xc2\xff\xef",
        read: b"\x06\x38\x32\x06\x35\xc2\xd6\xc2",
    },
    AnsweredForm {
        body: SWITCHED,
        keys: "type BOB\nkey Help",
        refused: 0,
        answer: b"\x00\x0d\x12\xa0\x00\x00\x04\x00\x00\x03\x06\x38\xf3\xff\xef",
        read: b"\x06\x38\xf3",
    },
    AnsweredForm {
        body: DESCENDING,
        keys: "key Enter",
        refused: 0,
        answer: b"\x00\x16\x12\xa0\x00\x00\x04\x00\x00\x03\x03\x02\xf1\x11\x03\x02\x11\x06\x35\xc1\x40\xc2\xff\xef",
        read: b"\x03\x02\xf1\x03\x02\x06\x35\xc1\x40\xc2",
    },
    AnsweredForm {
        body: ALTERNATE,
        keys: "key Enter",
        refused: 0,
        answer: b"\x00\x16\x12\xa0\x00\x00\x04\x00\x00\x03\x03\x02\xf1\x11\x03\x02\x11\x06\x35\xc1\x00\xc2\xff\xef",
        read: b"\x03\x02\xf1\x03\x02\x06\x35\xc1\x00\xc2",
    },
    AnsweredForm {
        body: UNMODIFIED,
        keys: "key Enter",
        refused: 0,
        answer: b"\x00\x0d\x12\xa0\x00\x00\x04\x00\x00\x03\x03\x02\xf1\xff\xef",
        read: b"\x03\x02\xf1",
    },
    AnsweredForm {
        body: ALL_INPUT,
        keys: "key Enter",
        refused: 0,
        answer: b"\x00\x17\x12\xa0\x00\x00\x04\x00\x00\x03\x03\x02\xf1\x40\x40\x40\x40\xc1\x40\xc2\x40\x40\x40\xff\xef",
        read: b"\x03\x02\xf1\x03\x02\x40\x40\x40\x40\x06\x35\xc1\x40\xc2\x40\x40\x40",
    },
    AnsweredForm {
        body: OF_FF,
        keys: "key Enter",
        refused: 0,
        answer: b"\x00\x11\x12\xa0\x00\x00\x04\x00\x00\x03\x06\x35\xf1\x11\x06\x35\xff\xff\xff\xef",
        read: b"\x06\x35\xf1\x06\x35\xff",
    },
    AnsweredForm {
        body: SIGNED,
        keys: "type 12\nkey FieldMinus\nkey Enter",
        refused: 0,
        answer: b"\x00\x14\x12\xa0\x00\x00\x04\x00\x00\x03\x06\x35\xf1\x11\x06\x35\x40\x40\xf1\xd2\xff\xef",
        read: b"\x06\x35\xf1\x06\x35\x40\x40\xf1\xd2",
    },
    AnsweredForm {
        body: SIGNED,
        keys: "type 12\nkey FieldExit\nkey Enter",
        refused: 0,
        answer: b"\x00\x14\x12\xa0\x00\x00\x04\x00\x00\x03\x06\x35\xf1\x11\x06\x35\x40\x40\xf1\xf2\xff\xef",
        read: b"\x06\x35\xf1\x06\x35\x40\x40\xf1\xf2",
    },
    AnsweredForm {
        body: SIGNED,
        keys: "type 12\nkey Enter",
        refused: 0,
        answer: b"\x00\x12\x12\xa0\x00\x00\x04\x00\x00\x03\x06\x37\xf1\x11\x06\x35\xf1\xf2\xff\xef",
        read: b"\x06\x37\xf1\x06\x35\xf1\xf2",
    },
    AnsweredForm {
        body: SIGNED_INPUT,
        keys: "type 12\nkey FieldMinus\nkey Enter",
        refused: 0,
        answer: b"\x00\x11\x12\xa0\x00\x00\x04\x00\x00\x03\x06\x35\xf1\x40\x40\xf1\xd2\xff\xef",
        read: b"\x06\x35\xf1\x06\x35\x40\x40\xf1\xd2",
    },
    AnsweredForm {
        body: SIGNED,
        keys: "type 12345\nkey FieldMinus\nkey Enter",
        refused: 1,
        answer: b"\x00\x14\x12\xa0\x00\x00\x04\x00\x00\x03\x06\x35\xf1\x11\x06\x35\xf1\xf2\xf3\xd4\xff\xef",
        read: b"\x06\x35\xf1\x06\x35\xf1\xf2\xf3\xd4",
    },
    AnsweredForm {
        body: ZERO_FILLED,
        keys: "type 12\nkey FieldMinus\nkey Enter",
        refused: 0,
        answer: b"\x00\x14\x12\xa0\x00\x00\x04\x00\x00\x03\x06\x35\xf1\x11\x06\x35\xf0\xf0\xf1\xd2\xff\xef",
        read: b"\x06\x35\xf1\x06\x35\xf0\xf0\xf1\xd2",
    },
];

// What a station writes after the opening that takes a record and the keys.
fn is_answered(rt: &impl Abort, alloc: Global, form: &AnsweredForm) {
    let sent = record(rt, alloc, form.body);
    let stream = joined(rt, alloc, &[OPENING, sent.as_slice()]);
    let keys = keys_of(rt, alloc, form.keys);
    let mut source = SliceSource::new(stream.as_slice());
    let mut sink = VecSink::new(alloc);
    // Made here, since a run requires a station that is seen to be new.
    let station = Station::new(TerminalType::Ibm3179Model2);
    let played = run_station(station, &mut source, &mut sink, keys.as_slice());
    same(rt, played.expect(rt, "played").keys_refused, form.refused);
    same(rt, sink.as_slice().get(31..), Some(form.answer));
}

// The host end that asked reads the answer by its parts and by its bytes.
fn is_read(rt: &impl Abort, alloc: Global, host: &mut HostEnd, form: &AnsweredForm) {
    let parts = decode_all::<Answers>(alloc, form.answer).expect(rt, "an answer");
    let [Item::Record(whole)] = parts.as_slice() else {
        panic!(rt; "a record")
    };
    assert!(rt; host.asked().is_some());
    let told = host.read_fields(whole.body.as_slice());
    is_told(rt, alloc, &told.expect(rt, "fields"), form.read);
    match last_event(rt, host, form.answer) {
        Some(HostEvent::Answer(told)) => is_told(rt, alloc, &told, form.read),
        _ => panic!(rt; "an answer"),
    }
}

#[test]
fn answers_are_written_and_read(rt: HostRuntime) {
    let alloc = rt.alloc();
    for form in &ANSWERED_FORMS {
        is_answered(&rt, alloc, form);
        let mut host = ready_host(&rt, alloc);
        send(&rt, alloc, &mut host, form.body);
        is_read(&rt, alloc, &mut host, form);
    }
}
