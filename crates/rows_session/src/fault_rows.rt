//! The texts of the faults of a session.

use crate::says;
use ws_session::{KeyFault, KeyRefusal, Reason, Refusal, SendFault};

const SENDING_FAULTS: [(SendFault, &str); 8] = [
    (SendFault::Failed, "failed"),
    (SendFault::NotAllowed, "records aren't allowed yet"),
    (
        SendFault::ReadOutstanding,
        "a read or a cancel is unanswered",
    ),
    (SendFault::NoReadToCancel, "no read can be cancelled"),
    (SendFault::BadSequence, "the elements are no body"),
    (
        SendFault::Screen(Reason::FieldOverlap),
        "the screen refuses an element: reason 54 FieldOverlap",
    ),
    (SendFault::TooBig, "the record is of more than 65,535 bytes"),
    (SendFault::Memory, "memory"),
];

#[test]
fn sending_faults_have_their_texts(rt: HostRuntime) {
    for (fault, text) in &SENDING_FAULTS {
        says(&rt, rt.alloc(), *fault, text);
    }
}

const REFUSALS: [(Refusal, &str); 3] = [
    (
        Refusal::At {
            place: 20,
            reason: Reason::PastEnd,
        },
        "refused at 20: reason 51 PastEnd",
    ),
    (Refusal::Failed, "failed"),
    (Refusal::Memory, "memory"),
];

const KEY_FAULTS: [(KeyFault, &str); 3] = [
    (KeyFault::Failed, "failed"),
    (KeyFault::NotReady, "records aren't allowed yet"),
    (KeyFault::Key(KeyRefusal::Locked), "the keyboard is locked"),
];

#[test]
fn refusals_have_their_texts(rt: HostRuntime) {
    for (refusal, text) in &REFUSALS {
        says(&rt, rt.alloc(), *refusal, text);
    }
    for (fault, text) in &KEY_FAULTS {
        says(&rt, rt.alloc(), *fault, text);
    }
}
