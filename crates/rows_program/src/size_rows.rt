//! Streams of the largest sizes, with memory enough: none is refused for want of it.

use crate::{same, same_at, same_bytes};
use std::alloc::Global;
use std::net::{Net, TcpListener, TcpStream};
use std::process::Abort;
use ws_code::VecSink;
use ws_nego::TerminalType;
use ws_network::play_tcp;
use ws_program::{TextFault, check_to, hex_bytes, show_to};
use ws_record::{Opcode, write_record};
use ws_script::read_script;
use ws_stream::Commands;

// Where there is memory enough, no call answers want of it: at each size up to 300, and about those at which
// a list or a record is full.
const SIZES: [(usize, usize); 3] = [(0, 301), (4_095, 4_098), (65_524, 65_537)];

fn expect_read(rt: &impl Abort, alloc: Global, size: usize) {
    let text = vec![in alloc; b'0'; size].expect(rt, "memory");
    match hex_bytes(alloc, text.as_slice()) {
        Ok(bytes) => {
            same_at(rt, size, size % 2, 0);
            same_at(rt, size, bytes.len(), size / 2);
        }
        Err(fault) => {
            same_at(rt, size, size % 2, 1);
            same(rt, fault, TextFault::NotHex);
        }
    }
}

#[test]
fn hex_texts_of_each_size(rt: HostRuntime) {
    for (first, end) in &SIZES {
        for size in *first..*end {
            expect_read(&rt, rt.alloc(), size);
        }
    }
}

// NOP after NOP, and half of one where the size is odd.
fn nops(rt: &impl Abort, alloc: Global, size: usize) -> Vec<u8> {
    let mut bytes = Vec::new(alloc);
    for at in 0..size {
        let byte = if at % 2 == 0 { 0xff } else { 0xf1 };
        bytes.push(byte).expect(rt, "memory");
    }
    bytes
}

// What is written of so many bytes of NOPs.
fn nops_checked(rt: &impl Abort, alloc: Global, size: usize) -> String {
    let commands = size / 2;
    let line = if size % 2 == 0 {
        format!(in alloc; "accepted: 0 records, {commands} commands, {size} bytes\n")
    } else {
        format!(in alloc; "truncated at {size}\n")
    };
    line.expect(rt, "memory")
}

fn expect_checked(rt: &impl Abort, alloc: Global, size: usize, bytes: &[u8]) {
    let wanted = nops_checked(rt, alloc, size);
    let mut sink = VecSink::new(alloc);
    let found = check_to::<Commands, _>(alloc, bytes, 7, &mut sink);
    same_at(rt, size, found, Ok(size % 2 == 0));
    same_at(rt, size, sink.as_slice(), wanted.as_bytes());
}

fn lines_in(text: &[u8]) -> usize {
    let mut count = 0usize;
    for byte in text {
        if *byte == b'\n' {
            count = count.wrapping_add(1);
        }
    }
    count
}

// A line for each command, and two after them of a whole stream's screen, or one of what is cut off.
fn expect_shown(rt: &impl Abort, alloc: Global, size: usize, bytes: &[u8]) {
    let mut sink = VecSink::new(alloc);
    let found = show_to(alloc, bytes, &mut sink);
    let whole = size % 2 == 0;
    same_at(rt, size, found, Ok(whole));
    let behind = if whole { 2 } else { 1 };
    let lines = lines_in(sink.as_slice());
    same_at(rt, size, lines, (size / 2).wrapping_add(behind));
}

#[test]
fn streams_of_each_size(rt: HostRuntime) {
    for (first, end) in &SIZES {
        for size in *first..*end {
            let bytes = nops(&rt, rt.alloc(), size);
            expect_checked(&rt, rt.alloc(), size, bytes.as_slice());
            expect_shown(&rt, rt.alloc(), size, bytes.as_slice());
        }
    }
}

// The largest body in hex: a Write to Display, and letters over the whole screen, again and again.
fn largest_body(rt: &impl Abort, alloc: Global) -> String {
    let mut hex = String::new(alloc);
    hex.push_str("04110000").expect(rt, "memory");
    for at in 0..65_521u32 {
        let byte = match at % 1923 {
            1920 => "11",
            1921 | 1922 => "01",
            _ => "C1",
        };
        hex.push_str(byte).expect(rt, "memory");
    }
    hex
}

// The record of this body is checked and shown.
fn expect_accepted(rt: &impl Abort, alloc: Global, hex: &str) {
    let body = hex_bytes(alloc, hex.as_bytes()).expect(rt, "bytes");
    let mut stream = VecSink::new(alloc);
    assert!(rt; body.len() <= 65525);
    let written = write_record(&mut stream, 0, Opcode::PutGet, body.as_slice());
    same(rt, written, Ok(()));
    let mut sink = VecSink::new(alloc);
    let found = check_to::<Commands, _>(alloc, stream.as_slice(), 4096, &mut sink);
    same(rt, found, Ok(true));
    let line = b"accepted: 1 records, 0 commands, 65539 bytes\n";
    same_bytes(rt, sink.as_slice(), line);
    let mut sink = VecSink::new(alloc);
    let found = show_to(alloc, stream.as_slice(), &mut sink);
    same(rt, found, Ok(true));
}

// It is sent by a script, and crosses a connection.
fn expect_played<R: Net<Listener = TcpListener, Stream = TcpStream> + Abort + AllocGlobal>(
    rt: &R,
    hex: &str,
) {
    let mut script = String::new(rt.alloc());
    for part in ["settle\nsend 2 ", hex, "\nsettle\n"] {
        script.push_str(part).expect(rt, "memory");
    }
    let moves = read_script(rt.alloc(), script.as_bytes()).expect(rt, "a script");
    let terminal = TerminalType::default();
    let report = play_tcp(rt, rt.alloc(), terminal, moves.as_slice()).expect(rt, "a session");
    same(rt, report.station.records(), 1);
}

#[test]
fn the_largest_record(rt: HostRuntime) {
    let hex = largest_body(&rt, rt.alloc());
    expect_accepted(&rt, rt.alloc(), hex.as_str());
    expect_played(&rt, hex.as_str());
}
