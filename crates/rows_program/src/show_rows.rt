//! What is shown of a stream: screens, fields and lines.

use crate::{same, same_at, same_bytes};
use ws_code::{FailingSource, VecSink};
use ws_printing::{BufferedSink, Look, Paint};
use ws_program::{check_to, show_source_openly, show_to};
use ws_script::{OpenStreams, RunFault, Sender};
use ws_stream::Commands;

type Row<'a> = (&'a str, &'a [u8], &'a str, bool);

const SHOWN: [Row; 9] = [
    (
        "show-hi",
        b"\x00\x15\x12\xa0\x00\x00\x04\x00\x00\x02\x04\x40\x04\x11\x00\x08\x11\x01\x02\xc8\xc9\xff\xef",
        "at 22 record flags 0000 opcode 2
  CLEAR-UNIT
  WRITE 00 08
  SBA 1 2
  PUT C8C9
screen
 1  HI
cursor 1 1, unlocked, message off, blink off, fields 0
",
        true,
    ),
    (
        "show-soh-and-field",
        b"\x00\x18\x12\xa0\x00\x00\x04\x00\x00\x03\x04\x11\x00\x08\x01\x00\x1d\x48\x00\x80\x01\x20\x00\x0a\xff\xef",
        "at 25 record flags 0000 opcode 3
  WRITE 00 08
  SOH
  SF 4800 8001 20 10
screen
cursor 1 2, unlocked, message off, blink off, fields 1
",
        true,
    ),
    (
        "show-past-end",
        b"\x00\x13\x12\xa0\x00\x00\x04\x00\x00\x03\x04\x11\x00\x00\x11\x18\x50\xc1\xc2\xff\xef",
        "at 20 record flags 0000 opcode 3
  WRITE 00 00
  SBA 24 80
  PUT C1C2
refused at 20: reason 51 PastEnd
",
        false,
    ),
    (
        "query",
        b"\x00\x11\x12\xa0\x00\x00\x04\x00\x00\x03\x04\xf3\x00\x05\xd9\x70\x00\xff\xef",
        "refused at 11: reason 30 StructuredField\n",
        false,
    ),
    (
        "header-too-early",
        b"\x00\x0a\x12",
        "truncated at 3\n",
        false,
    ),
    (
        "each element",
        b"\x00\x3a\x12\xa0\x00\x00\x04\x00\x00\x02\x04\x50\x04\x11\x20\x1d\x01\x04\x00\x00\x00\x18\x1d\x22\x00\x03\x02\x01\x05\x5c\x03\x01\x07\x03\x00\xff\xff\x13\x0c\x02\x14\x0c\x03\x11\x0c\x01\xc1\x04\x42\x00\x00\x04\x52\x00\x00\x04\x82\x01\x80\xff\xef",
        "at 60 record flags 0000 opcode 2
  CLEAR-FORMAT
  WRITE 20 1D
  SOH 00000018
  SF 22 3
  RA 1 5 5C
  EA 1 7 00FF
  IC 12 2
  MC 12 3
  SBA 12 1
  PUT C1
  READ-INPUT 00 00
  READ-MDT 00 00
  READ-MDT-ALTERNATE 01 80
screen
 1  ****
12 A
cursor 12 3, unlocked, message on, blink on, fields 0
",
        true,
    ),
    (
        "each Telnet command",
        b"\xff\xf1\xff\xf2\xff\xf3\xff\xf4\xff\xf5\xff\xf6\xff\xf7\xff\xf8\xff\xf9\xff\xfb\x00\xff\xfc\x19\xff\xfd\x18\xff\xfe\xff\xff\xfa\x18\xff\xf0\xff\xfa\x18\x01\xff\xff\xff\xf0",
        "at 1 telnet NOP
at 3 telnet DM
at 5 telnet BRK
at 7 telnet IP
at 9 telnet AO
at 11 telnet AYT
at 13 telnet EC
at 15 telnet EL
at 17 telnet GA
at 20 telnet WILL 0
at 23 telnet WONT 25
at 26 telnet DO 24
at 29 telnet DONT 255
at 34 telnet SB 24
at 42 telnet SB 24 01FF
screen
cursor 1 1, locked, message off, blink off, fields 0
",
        true,
    ),
    (
        "flags, two runs and the message light on",
        b"\x00\x14\x12\xa0\x00\x00\x04\x00\x00\x03\x04\x11\x00\x08\xc1\x11\x01\x02\xc2\xc3\xff\xef\x00\x0a\x12\xa0\x00\x00\x04\x40\x04\x0b\xff\xef",
        "at 21 record flags 0000 opcode 3
  WRITE 00 08
  PUT C1
  SBA 1 2
  PUT C2C3
at 33 record flags 4004 opcode 11
screen
 1 ABC
cursor 1 1, unlocked, message on, blink off, fields 0
",
        true,
    ),
    (
        "the message light off and an invite cancelled",
        b"\x00\x0e\x12\xa0\x00\x00\x04\x00\x00\x02\x04\x11\x00\x09\xff\xef\x00\x0a\x12\xa0\x00\x00\x04\x00\x00\x0c\xff\xef\x00\x0a\x12\xa0\x00\x00\x04\x00\x00\x0a\xff\xef",
        "at 15 record flags 0000 opcode 2
  WRITE 00 09
at 27 record flags 0000 opcode 12
at 39 record flags 0000 opcode 10
screen
cursor 1 1, locked, message off, blink off, fields 0
",
        true,
    ),
];

// Streams as they are shown, and the status.
#[test]
fn show_lines(rt: HostRuntime) {
    for (row, bytes, wanted, accepted) in &SHOWN {
        let mut sink = VecSink::new(rt.alloc());
        let found = show_to(rt.alloc(), bytes, &mut sink);
        same_at(&rt, row, found, Ok(*accepted));
        let text = String::from_utf8(sink.into_inner()).expect(&rt, "a text");
        same_at(&rt, row, text.as_str(), *wanted);
    }
}

// The same of a source that gives a byte a read; where it fails at its end, after the lines of all items.
#[test]
fn shown_while_read(rt: HostRuntime) {
    let look = Look::on_037(Paint::Plain);
    let streams = OpenStreams {
        input: true,
        output: true,
    };
    for (row, bytes, wanted, accepted) in &SHOWN {
        let ending = if *accepted { "screen" } else { "truncated" };
        for reads in [bytes.len(), bytes.len() + 1] {
            let mut source = FailingSource::new(bytes, reads as u64);
            let mut sink = BufferedSink::new(VecSink::new(rt.alloc()));
            let found = show_source_openly(
                rt.alloc(),
                look,
                Sender::Host,
                streams,
                &mut source,
                &mut sink,
            );
            let (lines, outcome) = match wanted.split_once(ending) {
                Some((lines, _)) if reads == bytes.len() => (lines, Err(RunFault::Read)),
                _ => (*wanted, Ok(*accepted)),
            };
            same_at(&rt, row, found, outcome);
            let text = String::from_utf8(sink.into_inner().into_inner()).expect(&rt, "a text");
            same_at(&rt, row, text.as_str(), lines);
        }
    }
}

// `show-past-end`: the grammar accepts what the screen refuses.
#[test]
fn check_past_end(rt: HostRuntime) {
    let bytes =
        b"\x00\x13\x12\xa0\x00\x00\x04\x00\x00\x03\x04\x11\x00\x00\x11\x18\x50\xc1\xc2\xff\xef";
    let mut sink = VecSink::new(rt.alloc());
    let found = check_to::<Commands, _>(rt.alloc(), bytes, 7, &mut sink);
    same(&rt, found, Ok(true));
    let line = b"accepted: 1 records, 0 commands, 21 bytes\n";
    same_bytes(&rt, sink.as_slice(), line);
}
