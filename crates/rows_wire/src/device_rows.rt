//! Sources and sinks in memory, and what comes of those that fail.

ghost use Rattle.std.specs.Prelude.{◌≡◌, List, ℕ, length, IfOk};
ghost use Rattle.ws_code.specs.Device.{GaveAll};

use crate::{holds, same, same_at, same_bytes};
use std::alloc::Global;
use std::io;
use std::io::{ErrorKind, Read, Write};
use std::process::Abort;
use ws_code::{
    DeviceFailed, FailingSink, FailingSource, Fault, ReadSource, Sink, SliceSource, Source,
    StuckSink, VecSink, WriteSink, write_whole,
};

// Counts the bytes of a source by small reads.
fn count_all<S: Source>(source: &mut S) -> Result<u64, Fault>
    ensures ok { IfOk result (λ n. (bytes : List ℕ) × (n ≡ length bytes)
        × GaveAll S.reader source.old source.new bytes) }
{
    let mut into = [0u8; 4];
    let mut count = 0;
    for _ in 0..4_294_967_296u64 {
        match source.read(&mut into) {
            Ok(0) => return Ok(count),
            Ok(given) => count += given as u64,
            Err(DeviceFailed) => return Err(Fault::Read),
        }
    }
    Err(Fault::Read)
}

// The bytes by way of a sink.
fn kept(alloc: Global, bytes: &[u8]) -> Result<Vec<u8>, Fault>
    ensures ok { IfOk result (λ kept. kept.items ≡ bytes.now) }
{
    let mut sink = VecSink::new(alloc);
    write_whole(&mut sink, bytes)?;
    Ok(sink.into_inner())
}

// Reads once, and tells how many bytes came, and the room with them at its front.
fn read_once<S: Source>(
    source: &mut S,
    mut into: [u8; 3],
) -> (Result<usize, DeviceFailed>, [u8; 3]) {
    let given = source.read(&mut into);
    (given, into)
}

#[test]
fn a_slice_source_gives_its_bytes(rt: HostRuntime) {
    let mut source = SliceSource::new(b"hello");
    same(&rt, read_once(&mut source, [0; 3]), (Ok(3), *b"hel"));
    same_bytes(&rt, source.rest(), b"lo");
    same(&rt, read_once(&mut source, [0; 3]), (Ok(2), *b"lo\0"));
    same(&rt, read_once(&mut source, [0; 3]), (Ok(0), [0; 3]));
}

#[test]
fn sources_give_all_bytes(rt: HostRuntime) {
    same(&rt, count_all(&mut SliceSource::new(b"some bytes")), Ok(10));
    let mut reader = ReadSource::new(b"some bytes".as_slice());
    same(&rt, count_all(&mut reader), Ok(10));
    same(&rt, reader.failures(), 0);
    holds(&rt, reader.into_inner().is_empty());
}

// What is counted of a source that fails after so many reads, and how many failures it tells.
fn counts_behind(rt: &impl Abort, reads: u64, counted: Result<u64, Fault>, failures: u64) {
    let mut source = FailingSource::new(b"bytes", reads);
    same_at(rt, reads, count_all(&mut source), counted);
    same(rt, source.failures(), failures);
}

#[test]
fn a_source_fails_at_each_read(rt: HostRuntime) {
    for reads in 0..6 {
        counts_behind(&rt, reads, Err(Fault::Read), 1);
    }
    counts_behind(&rt, 6, Ok(5), 0);
}

// What writing these bytes to the sink comes to.
fn writes<S: Sink>(rt: &impl Abort, sink: &mut S, bytes: &[u8], written: Result<(), Fault>) {
    same_at(rt, bytes.len(), write_whole(sink, bytes), written);
}

#[test]
fn sinks_keep_their_bytes(rt: HostRuntime) {
    let mut sink = VecSink::new(rt.alloc());
    writes(&rt, &mut sink, b"one ", Ok(()));
    writes(&rt, &mut sink, b"", Ok(()));
    writes(&rt, &mut sink, b"two", Ok(()));
    same_bytes(&rt, sink.as_slice(), b"one two");
    same(&rt, sink.failures(), 0);
    let three = kept(rt.alloc(), b"three").expect(&rt, "memory");
    same_bytes(&rt, three.as_slice(), b"three");
    let mut writer = WriteSink::new(Vec::new(rt.alloc()));
    writes(&rt, &mut writer, b"four", Ok(()));
    same(&rt, writer.failures(), 0);
    same_bytes(&rt, writer.into_inner().as_slice(), b"four");
}

// What writing comes to in a sink that fails after so many writes, and how many failures it tells.
fn writes_behind(
    rt: &impl Abort,
    alloc: Global,
    calls: u8,
    written: Result<(), Fault>,
    failures: u64,
) {
    let mut sink = FailingSink::new(alloc, u64::from(calls));
    same_at(rt, calls, write_whole(&mut sink, b"bytes"), written);
    let front = b"bytes".as_slice().get(..usize::from(calls));
    same_at(rt, calls, Some(sink.as_slice()), front);
    same_at(rt, calls, sink.failures(), failures);
}

#[test]
fn a_sink_fails_at_each_write(rt: HostRuntime) {
    for calls in 0..5u8 {
        writes_behind(&rt, rt.alloc(), calls, Err(Fault::Write), 1);
    }
    writes_behind(&rt, rt.alloc(), 5, Ok(()), 0);
    writes(&rt, &mut StuckSink, b"bytes", Err(Fault::Write));
    writes(&rt, &mut StuckSink, b"", Ok(()));
}

// A reader that gives one byte a read. The read after `before_failure` ones fails, and no other.
#[derive(Drop)]
struct FailsOnceReader {
    rest: &'static [u8],
    before_failure: Option<usize>,
}

impl Read for FailsOnceReader {
    fn read(&mut self, into: &mut [u8]) -> io::Result<usize> {
        if let Some(left) = self.before_failure {
            self.before_failure = left.checked_sub(1);
            if left == 0 {
                return Err(io::Error::from(ErrorKind::ConnectionReset));
            }
        }
        let given = self.rest.len().min(into.len()).min(1);
        into[..given].copy_from_slice(&self.rest[..given]);
        self.rest = &self.rest[given..];
        Ok(given)
    }
}

#[test]
fn a_reader_fails_once(rt: HostRuntime) {
    for reads in 0..6usize {
        let mut source = ReadSource::new(FailsOnceReader {
            rest: b"bytes",
            before_failure: Some(reads),
        });
        same_at(&rt, reads, count_all(&mut source), Err(Fault::Read));
        same(&rt, source.failures(), 1);
        same_at(&rt, reads, count_all(&mut source), Ok(5 - reads as u64));
        same(&rt, source.failures(), 1);
    }
}

// A writer that takes one byte a write. The write after `before_failure` ones fails, and no other.
#[derive(Drop)]
struct FailsOnceWriter {
    held: Vec<u8>,
    before_failure: Option<usize>,
}

impl Write for FailsOnceWriter {
    fn write(&mut self, bytes: &[u8]) -> io::Result<usize> {
        if let Some(left) = self.before_failure {
            self.before_failure = left.checked_sub(1);
            if left == 0 {
                return Err(io::Error::from(ErrorKind::ConnectionReset));
            }
        }
        let taken = bytes.len().min(1);
        if self.held.extend_from_slice(&bytes[..taken]).is_err() {
            return Err(io::Error::from(ErrorKind::OutOfMemory));
        }
        Ok(taken)
    }

    fn flush(&mut self) -> io::Result<()> {
        Ok(())
    }
}

#[test]
fn a_writer_fails_once(rt: HostRuntime) {
    let text = b"bytes".as_slice();
    for calls in 0..5usize {
        let mut sink = WriteSink::new(FailsOnceWriter {
            held: Vec::new(rt.alloc()),
            before_failure: Some(calls),
        });
        writes(&rt, &mut sink, text, Err(Fault::Write));
        same(&rt, sink.failures(), 1);
        writes(&rt, &mut sink, &text[calls..], Ok(()));
        same(&rt, sink.failures(), 1);
        same_bytes(&rt, sink.into_inner().held.as_slice(), text);
    }
}

// A sink keeps a text of this length.
fn keeps(rt: &impl Abort, alloc: Global, length: usize) {
    let text = vec![in alloc; 0x40u8; length].expect(rt, "memory");
    let held = kept(alloc, text.as_slice()).expect(rt, "memory");
    same_at(rt, length, held.as_slice() == text.as_slice(), true);
}

// With ample memory no growth is refused.
#[test]
fn a_sink_with_memory_never_fails(rt: HostRuntime) {
    for length in 0..=300usize {
        keeps(&rt, rt.alloc(), length);
    }
    for length in [4_095, 4_096, 4_097, 65_525, 65_535] {
        keeps(&rt, rt.alloc(), length);
    }
    let mut bytewise = VecSink::new(rt.alloc());
    for _ in 0..65_535u32 {
        writes(&rt, &mut bytewise, &[0x40], Ok(()));
    }
    same(&rt, bytewise.as_slice().len(), 65_535);
    same(&rt, bytewise.failures(), 0);
}
