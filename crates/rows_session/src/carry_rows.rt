//! A piece over a connection, whole and where a device stops it.

use crate::{same, same_at};
use std::alloc::Global;
use std::process::Abort;
use ws_code::{FailingSink, FailingSource, Fault, Sink, SliceSource, Source, StuckSink, VecSink};
use ws_session::carry;

// Carries a piece, and so many bytes back.
fn carries<S: Sink, R: Source>(
    rt: &impl Abort,
    piece: &[u8],
    sink: &mut S,
    source: &mut R,
    taken: &mut [u8],
    wanted: Result<(), Fault>,
) {
    assert!(rt; taken.len() == piece.len());
    assert!(rt; piece.len() <= 4096);
    same_at(rt, piece.len(), carry(piece, sink, source, taken), wanted);
}

// The largest piece, a byte a read.
fn carries_the_largest(rt: &impl Abort, alloc: Global) {
    let piece = [0x40u8; 4096];
    let mut held = [0u8; 4096];
    let mut sink = VecSink::new(alloc);
    let mut bytewise = FailingSource::new(&piece, 4096);
    carries(rt, &piece, &mut sink, &mut bytewise, &mut held, Ok(()));
    same(rt, held.as_slice(), piece.as_slice());
    same(rt, sink.as_slice(), piece.as_slice());
}

#[test]
fn a_piece_is_carried(rt: HostRuntime) {
    let mut sink = VecSink::new(rt.alloc());
    let mut source = SliceSource::new(b"xyz!");
    let mut taken = [0u8; 3];
    carries(&rt, b"abc", &mut sink, &mut source, &mut taken, Ok(()));
    same(&rt, taken.as_slice(), b"xyz".as_slice());
    carries(&rt, b"", &mut sink, &mut source, &mut [], Ok(()));
    same(&rt, sink.as_slice(), b"abc".as_slice());
    same(&rt, source.rest(), b"!".as_slice());
    carries_the_largest(&rt, rt.alloc());
}

#[test]
fn carry_cut_short(rt: HostRuntime) {
    for given in [b"".as_slice(), b"x", b"xy"] {
        let mut sink = VecSink::new(rt.alloc());
        let mut source = SliceSource::new(given);
        let mut taken = [0u8; 3];
        let at = given.len() as u64;
        let cut = Err(Fault::Truncated { at });
        carries(&rt, b"abc", &mut sink, &mut source, &mut taken, cut);
        same(&rt, sink.as_slice(), b"abc".as_slice());
        same(&rt, taken.get(..given.len()), Some(given));
    }
}

// A source of three bytes that fails after so many.
fn reads_behind(rt: &impl Abort, alloc: Global, calls: usize) {
    let mut taken = [0u8; 3];
    let mut sink = VecSink::new(alloc);
    let mut source = FailingSource::new(b"xyz", calls as u64);
    let read = if calls < 3 { Err(Fault::Read) } else { Ok(()) };
    carries(rt, b"abc", &mut sink, &mut source, &mut taken, read);
    same(rt, sink.as_slice(), b"abc".as_slice());
    same(rt, taken.get(..calls), b"xyz".get(..calls));
}

// A sink that fails after so many bytes.
fn writes_behind(rt: &impl Abort, alloc: Global, calls: usize) {
    let mut taken = [0u8; 3];
    let mut sink = FailingSink::new(alloc, calls as u64);
    let mut source = SliceSource::new(b"xyz");
    let (written, rest) = if calls < 3 {
        (Err(Fault::Write), b"xyz".as_slice())
    } else {
        (Ok(()), b"".as_slice())
    };
    carries(rt, b"abc", &mut sink, &mut source, &mut taken, written);
    same(rt, Some(sink.as_slice()), b"abc".get(..calls));
    same(rt, source.rest(), rest);
}

#[test]
fn a_piece_stops_where_a_device_fails(rt: HostRuntime) {
    for calls in 0..=3usize {
        reads_behind(&rt, rt.alloc(), calls);
        writes_behind(&rt, rt.alloc(), calls);
    }
    let mut taken = [0u8; 3];
    let mut source = SliceSource::new(b"xyz");
    let fault = Err(Fault::Write);
    carries(&rt, b"abc", &mut StuckSink, &mut source, &mut taken, fault);
    same(&rt, source.rest(), b"xyz".as_slice());
}
