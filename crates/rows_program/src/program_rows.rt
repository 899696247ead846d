//! What a check prints of a stream, whole and in pieces, also of a source that fails; and the texts of faults.
use crate::{same, same_at, same_bytes, says};
use ws_code::{FailingSink, FailingSource, Fault, Reason, SliceSource, VecSink};
use ws_program::{check_from, check_to};
use ws_record::RawBody;
use ws_script::RunFault;
use ws_stream::{Answers, Commands};

const FAULTS: [(Fault, &str); 6] = [
    (
        Fault::Refused {
            place: 7,
            reason: Reason::BadSub,
        },
        "refused at 7: reason 3 BadSub",
    ),
    (Fault::Truncated { at: 9 }, "truncated at 9"),
    (Fault::Memory, "memory"),
    (Fault::Read, "cannot read"),
    (Fault::Write, "cannot write"),
    (Fault::Failed, "failed"),
];

// A fault that ends the program has its text; no command ends with the first two or the last.
#[test]
fn fault_lines(rt: HostRuntime) {
    for (fault, line) in &FAULTS {
        says(&rt, rt.alloc(), RunFault::from(*fault), line);
    }
}

const CHECKED: [(&[u8], &str, bool); 10] = [
    (b"", "accepted: 0 records, 0 commands, 0 bytes\n", true),
    (
        b"\xff\xf1",
        "accepted: 0 records, 1 commands, 2 bytes\n",
        true,
    ),
    (
        b"\x00\x0a\x12\xa0\x00\x00\x04\x00\x00\x01\xff\xef",
        "accepted: 1 records, 0 commands, 12 bytes\n",
        true,
    ),
    (
        b"\x00\x0a\x12\xa0\x00\x00\x04\x00\x00\x01\xff\xef\x00\x0a\x12\xa0\x00\x00\x04\x00\x00\x01\xff\xef",
        "accepted: 2 records, 0 commands, 24 bytes\n",
        true,
    ),
    (
        b"\x00\x09",
        "refused at 1: reason 10 LengthBelowHeader\n",
        false,
    ),
    (b"\xff\x00", "refused at 1: reason 1 BadCommand\n", false),
    (b"\xff\xef", "refused at 1: reason 16 TooShort\n", false),
    (
        b"\x00\x0b\x12\xa0\x00\x00\x04\x00\x00\x03\xff\xef",
        "refused at 11: reason 16 TooShort\n",
        false,
    ),
    (b"\x00\x0a\x12", "truncated at 3\n", false),
    (b"\xff", "truncated at 1\n", false),
];

// The line that is written of a stream, in pieces of every size up to its own, and the status.
#[test]
fn check_lines(rt: HostRuntime) {
    for (bytes, wanted, accepted) in &CHECKED {
        for cut in 1..26u16 {
            let mut sink = VecSink::new(rt.alloc());
            let found = check_to::<RawBody, _>(rt.alloc(), bytes, cut, &mut sink);
            same_at(&rt, wanted, found, Ok(*accepted));
            same_bytes(&rt, sink.as_slice(), wanted.as_bytes());
        }
    }
}

// `bob`: its answer is one record of a station.
#[test]
fn check_answers(rt: HostRuntime) {
    let answer =
        b"\x00\x13\x12\xa0\x00\x00\x04\x00\x00\x03\x06\x38\xf1\x11\x06\x35\xc2\xd6\xc2\xff\xef";
    let mut sink = VecSink::new(rt.alloc());
    let found = check_to::<Answers, _>(rt.alloc(), answer, 65_535, &mut sink);
    same(&rt, found, Ok(true));
    let line = b"accepted: 1 records, 0 commands, 21 bytes\n";
    same_bytes(&rt, sink.as_slice(), line);
}

// A source that fails is told before its end is known, but not where a byte was refused before; what was read is no more
// than the piece of that.
#[test]
fn failing_sources_checked(rt: HostRuntime) {
    let bytes = b"\xff\xf1\x00\x09\x12";
    for reads in 0..=5u64 {
        let mut source = FailingSource::new(bytes, reads);
        let mut sink = VecSink::new(rt.alloc());
        let found = check_from::<Commands, FailingSource, VecSink>(&mut source, 7, &mut sink);
        let wanted = if reads < 4 {
            Err(Fault::Read)
        } else {
            Ok(false)
        };
        same_at(&rt, reads, found, wanted);
        same_at(&rt, reads, sink.as_slice().is_empty(), reads < 4);
        same_at(&rt, reads, source.failures(), u64::from(reads < 4));
    }
    let mut source = SliceSource::new(bytes);
    let mut sink = FailingSink::new(rt.alloc(), 3);
    let found = check_from::<Commands, SliceSource, FailingSink>(&mut source, 4, &mut sink);
    same_at(&rt, "refused", found, Err(Fault::Write));
    same_at(&rt, "refused", source.rest(), b"\x12".as_slice());
}
