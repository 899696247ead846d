//! Calls that take memory, where a growth may be refused, as those of memory_rows.rt: an answer that is split, items as
//! text, and a host that takes any record.
use crate::memory_rows::{BOB_ANSWER, OPENED, is_bob, parts, station_with_bob};
use crate::{holds, same, same_bytes};
use std::alloc::Global;
use std::process::Abort;
use ws_any_host::{AnyEvent, AnyHost};
use ws_code::{List, Reason, VecSink};
use ws_keys::{HostFault, split_answer};
use ws_program::{InputAsked, answer};
use ws_record::{Opcode, Record};
use ws_script::{RunFault, Sender};
use ws_session::{Refusal, SendFault};

// Splits `bob`'s answer, at the second time where memory was wanted. Want of memory hides no answer that doesn't fit.
#[test]
fn split_within_memory(rt: HostRuntime) {
    let station = station_with_bob(&rt);
    let screen = station.screen();
    let kind = screen.pending().expect(&rt, "a read");
    let parts = parts(&rt);
    let answer = match split_answer(rt.alloc(), screen, kind, &parts) {
        Ok(answer) => answer,
        Err(fault) => {
            holds(&rt, matches!(fault, HostFault::Memory));
            split_answer(rt.alloc(), screen, kind, &parts).expect(&rt, "split at the second time")
        }
    };
    holds(&rt, is_bob(&answer));
    let [head, at, first, second, third] = parts;
    let twice = [head, at, first, second, third, at];
    let found = split_answer(rt.alloc(), screen, kind, &twice);
    let mismatch = matches!(found, Err(HostFault::Reason(Reason::AnswerMismatch)));
    holds(&rt, mismatch);
}

// Nothing is written before all items are read.
#[test]
fn made_within_memory(rt: HostRuntime) {
    let mut sink = VecSink::new(rt.alloc());
    let asked = InputAsked::Make {
        file: None,
        from: Sender::Host,
        raw: false,
    };
    let text = b"telnet NOP\nrecord opcode 1".as_slice();
    match answer(&rt, rt.alloc(), asked, text, &mut sink) {
        Ok(_) => {
            let wanted = b"FFF1\n000A12A0000004000001FFEF\n";
            same_bytes(&rt, sink.as_slice(), wanted.as_slice());
        }
        Err(RunFault::Memory) => holds(&rt, sink.as_slice().is_empty()),
        Err(fault) => same(&rt, fault, RunFault::Write),
    }
}

// A host that takes any record, to which a station has answered. None of this takes memory.
fn any_host(rt: &impl Abort, alloc: Global) -> AnyHost {
    let mut host = AnyHost::new(alloc);
    same(rt, host.open().as_slice().len(), 3);
    for byte in OPENED {
        holds(rt, host.push(*byte).is_ok());
    }
    host
}

// Takes `bob`'s answer. A host that has failed for want of memory answers `Failed` from then on.
fn any_push_within(rt: &impl Abort, host: &mut AnyHost) {
    let mut event = None;
    for byte in BOB_ANSWER {
        match host.push(*byte) {
            Ok(step) => event = step.event,
            Err(refusal) => {
                same(rt, refusal, Refusal::Memory);
                same(rt, host.push(0).err(), Some(Refusal::Failed));
                same(rt, host.refused(), None);
                return;
            }
        }
    }
    match event {
        Some(AnyEvent::Record(came)) => same(
            rt,
            Some(came.body.as_slice()),
            BOB_ANSWER.get(10..19),
        ),
        _ => panic!(rt; "a record"),
    }
}

// A record is sent, or there is no memory for it, and nothing has changed.
fn any_send_within(rt: &impl Abort, alloc: Global, host: &AnyHost) {
    let record = Record {
        flags: 0,
        opcode: Opcode::CancelInvite,
        body: List::of(Vec::new(alloc)),
    };
    match host.send(&record) {
        Ok(sent) => same_bytes(
            rt,
            sent.as_slice(),
            b"\x00\x0a\x12\xa0\x00\x00\x04\x00\x00\x0a\xff\xef",
        ),
        Err(fault) => {
            same(rt, fault, SendFault::Memory);
            holds(rt, host.is_ready());
        }
    }
}

#[test]
fn any_host_within_memory(rt: HostRuntime) {
    let mut host = any_host(&rt, rt.alloc());
    any_send_within(&rt, rt.alloc(), &host);
    any_push_within(&rt, &mut host);
}
