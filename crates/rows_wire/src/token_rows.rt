//! Tokens: what spells them, what is refused, and writing them to a sink that fails.

use crate::{holds, same, same_at, same_bytes};
use arrayvec::ArrayVec;
use std::alloc::Global;
use std::process::Abort;
use ws_code::{Code, FailingSink, Fault, Push, Reason, VecSink};
use ws_telnet::{CommandCode, Sub, Telnet, Token, Tokens, Verb, spell, write_telnet, write_token};

// The token that the bytes bring with the one at a place, or the reason for which that one is refused. `None` where the
// token goes on.
type Answer = Option<(usize, Result<Token, Reason>)>;

fn answer_to(bytes: &[u8]) -> Answer {
    let mut machine = Tokens::start(Tokens::first());
    for (at, byte) in bytes.iter().enumerate() {
        match machine.push(*byte) {
            Push::More => {}
            Push::Unit(token) => return Some((at, Ok(token))),
            Push::Bad(reason) => return Some((at, Err(reason))),
        }
    }
    None
}

// The place at which the bytes are refused, and the reason.
fn refusal(bytes: &[u8]) -> Option<(usize, Reason)> {
    match answer_to(bytes) {
        Some((at, Err(reason))) => Some((at, reason)),
        _ => None,
    }
}

// IAC SB, the option 18 (hexadecimal), so many bytes 41, and what follows.
fn begun_sub(rt: &impl Abort, alloc: Global, count: usize, end: &[u8]) -> Vec<u8> {
    let mut bytes = [0xff, 0xfa, 0x18].to_vec(alloc).expect(rt, "memory");
    for _ in 0..count {
        bytes.push(0x41).expect(rt, "memory");
    }
    bytes.extend_from_slice(end).expect(rt, "memory");
    bytes
}

// The token has the spelling, is read from it, and is written so.
fn check_spelling(rt: &impl Abort, alloc: Global, token: &Token, wanted: &[u8]) {
    check_spelled(rt, token, wanted);
    match answer_to(wanted) {
        Some((at, Ok(read))) => check_read(rt, &read, at, wanted),
        _ => panic!(rt; "{token:?} isn't read"),
    }
    let mut sink = VecSink::new(alloc);
    same(rt, write_token(&mut sink, token), Ok(()));
    same_bytes(rt, sink.as_slice(), wanted);
    if let Token::Telnet(telnet) = token {
        check_written(rt, alloc, telnet, wanted);
    }
}

// The token is read with the last of its bytes, and spelled so.
fn check_read(rt: &impl Abort, token: &Token, at: usize, wanted: &[u8]) {
    same(rt, at.checked_add(1), Some(wanted.len()));
    Tokens::known(token);
    same(rt, Tokens::after(token), Tokens::first());
    check_spelled(rt, token, wanted);
}

// The token is spelled so, whatever stood there.
fn check_spelled(rt: &impl Abort, token: &Token, wanted: &[u8]) {
    let mut spelling = ArrayVec::new();
    spelling.push(0x55);
    spell(token, &mut spelling);
    same_at(rt, token, spelling.as_slice(), wanted);
}

fn check_written(rt: &impl Abort, alloc: Global, telnet: &Telnet, wanted: &[u8]) {
    let mut sink = VecSink::new(alloc);
    same(rt, write_telnet(&mut sink, telnet), Ok(()));
    same_bytes(rt, sink.as_slice(), wanted);
}

const REFUSED: [(&[u8], usize, Reason); 3] = [
    (b"\xff\x00", 1, Reason::BadCommand),
    (b"\xff\xf0", 1, Reason::StraySe),
    (b"\xff\xfa\x18\xff\x01", 4, Reason::BadSub),
];

// How many bytes a subnegotiation has, what follows, and the place at which it is too long.
const TOO_LONG: [(usize, &[u8], usize); 2] = [(65, b"", 67), (64, b"\xff\xff", 68)];

#[test]
fn bad_tokens(rt: HostRuntime) {
    for (bytes, at, reason) in &REFUSED {
        same(&rt, refusal(bytes), Some((*at, *reason)));
    }
    for (count, end, at) in &TOO_LONG {
        let bytes = begun_sub(&rt, rt.alloc(), *count, end);
        let wanted = Some((*at, Reason::SubTooLong));
        same(&rt, refusal(bytes.as_slice()), wanted);
    }
    let longest = begun_sub(&rt, rt.alloc(), 64, &[0xff, 0xf0]);
    match answer_to(longest.as_slice()) {
        Some((68, Ok(Token::Telnet(Telnet::Sub(sub))))) => {
            same(&rt, sub.option, 0x18);
            same_bytes(&rt, sub.data_.as_slice(), &[0x41; 64]);
        }
        _ => panic!(rt; "no subnegotiation"),
    }
}

#[test]
fn spell_ff(rt: HostRuntime) {
    let mut spelling = ArrayVec::new();
    spell(&Token::Data(0xff), &mut spelling);
    same_bytes(&rt, spelling.as_slice(), &[0xff, 0xff]);
}

const COMMANDS: [(CommandCode, u8); 9] = [
    (CommandCode::Nop, 0xf1),
    (CommandCode::DataMark, 0xf2),
    (CommandCode::Break, 0xf3),
    (CommandCode::InterruptProcess, 0xf4),
    (CommandCode::AbortOutput, 0xf5),
    (CommandCode::AreYouThere, 0xf6),
    (CommandCode::EraseCharacter, 0xf7),
    (CommandCode::EraseLine, 0xf8),
    (CommandCode::GoAhead, 0xf9),
];

#[test]
fn each_command_has_its_spelling(rt: HostRuntime) {
    for (code, byte) in &COMMANDS {
        same(&rt, code.byte(), *byte);
        let token = Token::Telnet(Telnet::Command(*code));
        check_spelling(&rt, rt.alloc(), &token, &[0xff, *byte]);
    }
}

const VERBS: [(Verb, u8); 4] = [
    (Verb::Will, 0xfb),
    (Verb::Wont, 0xfc),
    (Verb::Do, 0xfd),
    (Verb::Dont, 0xfe),
];

#[test]
fn each_token_has_its_spelling(rt: HostRuntime) {
    for (verb, byte) in &VERBS {
        same(&rt, verb.byte(), *byte);
        let token = Token::Telnet(Telnet::Option(*verb, 0xff));
        check_spelling(&rt, rt.alloc(), &token, &[0xff, *byte, 0xff]);
    }
    check_spelling(&rt, rt.alloc(), &Token::Data(0x41), &[0x41]);
    check_spelling(&rt, rt.alloc(), &Token::Data(0xff), &[0xff, 0xff]);
    check_spelling(&rt, rt.alloc(), &Token::Eor, &[0xff, 0xef]);
    let sub = Sub::new(0x18, &[0x00, 0xff, 0x41]).expect(&rt, "short");
    let token = Token::Telnet(Telnet::Sub(sub));
    let wanted = [0xff, 0xfa, 0x18, 0x00, 0xff, 0xff, 0x41, 0xff, 0xf0];
    check_spelling(&rt, rt.alloc(), &token, &wanted);
}

// A token is written to a sink that fails after so many bytes.
fn cut_behind(rt: &impl Abort, alloc: Global, calls: u8, wanted: Result<(), Fault>) {
    let telnet = Telnet::Option(Verb::Do, 0x19);
    let front = b"\xff\xfd\x19".as_slice().get(..usize::from(calls));
    let mut sink = FailingSink::new(alloc, u64::from(calls));
    same_at(rt, calls, write_telnet(&mut sink, &telnet), wanted);
    same_at(rt, calls, Some(sink.as_slice()), front);
    let mut sink = FailingSink::new(alloc, u64::from(calls));
    let written = write_token(&mut sink, &Token::Telnet(telnet));
    same_at(rt, calls, written, wanted);
    same_at(rt, calls, Some(sink.as_slice()), front);
}

#[test]
fn a_spelling_is_cut_where_the_sink_fails(rt: HostRuntime) {
    for calls in 0..3 {
        cut_behind(&rt, rt.alloc(), calls, Err(Fault::Write));
    }
    cut_behind(&rt, rt.alloc(), 3, Ok(()));
}

fn check_sub(rt: &impl Abort, data: &[u8]) {
    let sub = Sub::new(0x18, data).expect(rt, "at most 64 bytes");
    same(rt, sub.option, 0x18);
    same_bytes(rt, sub.data_.as_slice(), data);
}

#[test]
fn subnegotiation_limit(rt: HostRuntime) {
    check_sub(&rt, &[]);
    check_sub(&rt, &[0xff]);
    check_sub(&rt, &[0xff; 64]);
    holds(&rt, Sub::new(0x18, &[0xff; 65]).is_none());
}
