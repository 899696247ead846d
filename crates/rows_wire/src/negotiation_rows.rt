//! What each end answers to each token, in tables and in whole exchanges.

use crate::{holds, same, same_at, same_bytes};
use std::process::Abort;
use std::test::*;
use ws_code::Reason;
use ws_nego::{
    HostOptions, StationOptions, TerminalType, dialogues_agree, exchanges_agree, once_allowed,
    three_deliveries_suffice,
};
use ws_telnet::{CommandCode, Sub, Telnet, Verb};

const NOTHING: &[u8] = b"";

// What the host end writes at WILL TERMINAL-TYPE, and at a name that it accepts.
const SEND: &[u8] = b"\xff\xfa\x18\x01\xff\xf0";

const REQUESTS: &[u8] = b"\xff\xfd\x19\xff\xfb\x19\xff\xfd\x00\xff\xfb\x00";

// A subnegotiation of TERMINAL-TYPE: 01 is SEND, 00 and a name is IS.
fn terminal_type(rt: &impl Abort, bytes: &[u8]) -> Telnet {
    Telnet::Sub(Sub::new(0x18, bytes).expect(rt, "at most 64 bytes"))
}

// The station's end replies so to a token.
fn station_replies(rt: &impl Abort, station: &mut StationOptions, token: &Telnet, reply: &[u8]) {
    same_at(rt, token, station.answer(token).as_slice(), reply);
}

// The host's end takes a token, and replies so.
fn host_replies(rt: &impl Abort, host: &mut HostOptions, token: &Telnet, reply: &[u8]) {
    let written = host.answer(token).expect(rt, "no refusal");
    same_at(rt, token, written.as_slice(), reply);
}

fn host_refuses(rt: &impl Abort, host: &mut HostOptions, token: &Telnet) {
    let refusal = host.answer(token).err();
    same(rt, refusal, Some(Reason::UnsupportedTerminal));
}

#[test]
fn station_opening(rt: HostRuntime) {
    let mut station = StationOptions::new(TerminalType::default());
    let name = b"\xff\xfa\x18\x00IBM-3179-2\xff\xf0".as_slice();
    let asks = [
        (Telnet::Option(Verb::Do, 0x18), b"\xff\xfb\x18".as_slice()),
        (terminal_type(&rt, &[1]), name),
        (terminal_type(&rt, &[1]), name),
        (Telnet::Option(Verb::Do, 0x18), NOTHING),
        (Telnet::Option(Verb::Do, 0x27), b"\xff\xfc\x27".as_slice()),
        (Telnet::Option(Verb::Do, 0x19), b"\xff\xfb\x19".as_slice()),
        (Telnet::Option(Verb::Will, 0x19), b"\xff\xfd\x19".as_slice()),
        (Telnet::Option(Verb::Do, 0x00), b"\xff\xfb\x00".as_slice()),
        (Telnet::Option(Verb::Will, 0x00), b"\xff\xfd\x00".as_slice()),
    ];
    for (token, reply) in &asks {
        holds(&rt, !station.records_allowed());
        station_replies(&rt, &mut station, token, reply);
    }
    holds(&rt, station.records_allowed());
}

#[test]
fn binary_off(rt: HostRuntime) {
    let mut station = StationOptions::new(TerminalType::Ibm5251Model11);
    for (verb, option) in [
        (Verb::Do, 0x19),
        (Verb::Will, 0x19),
        (Verb::Do, 0x00),
        (Verb::Will, 0x00),
    ] {
        let _reply = station.answer(&Telnet::Option(verb, option));
    }
    holds(&rt, station.records_allowed());
    for reply in [b"\xff\xfc\x00".as_slice(), NOTHING] {
        let dont = Telnet::Option(Verb::Dont, 0x00);
        station_replies(&rt, &mut station, &dont, reply);
        holds(&rt, !station.records_allowed());
    }
}

// What a host end answers after `open`, token by token.
fn check_host(rt: &impl Abort, rows: &[(Telnet, &[u8])]) -> HostOptions {
    let mut host = HostOptions::new();
    same_bytes(rt, host.open().as_slice(), b"\xff\xfd\x18");
    for (token, reply) in rows {
        host_replies(rt, &mut host, token, reply);
    }
    host
}

#[test]
fn host_opening(rt: HostRuntime) {
    let name = b"\x00IBM-3179-2";
    let mut host = check_host(
        &rt,
        &[
            (Telnet::Option(Verb::Will, 0x18), SEND),
            (terminal_type(&rt, name), REQUESTS),
            (terminal_type(&rt, name), NOTHING),
            (Telnet::Option(Verb::Will, 0x19), NOTHING),
            (Telnet::Option(Verb::Do, 0x19), NOTHING),
            (Telnet::Option(Verb::Will, 0x00), NOTHING),
        ],
    );
    holds(&rt, !host.records_allowed());
    let last = Telnet::Option(Verb::Do, 0x00);
    host_replies(&rt, &mut host, &last, NOTHING);
    holds(&rt, host.records_allowed());
    same(&rt, host.terminal(), Some(TerminalType::Ibm3179Model2));
}

#[test]
fn lower_case_name(rt: HostRuntime) {
    for (name, terminal) in [
        (b"\x00ibm-3179-2".as_slice(), TerminalType::Ibm3179Model2),
        (b"\x00Ibm-3196-a1".as_slice(), TerminalType::Ibm3196ModelA1),
    ] {
        let host = check_host(
            &rt,
            &[
                (Telnet::Option(Verb::Will, 0x18), SEND),
                (terminal_type(&rt, name), REQUESTS),
            ],
        );
        same(&rt, host.terminal(), Some(terminal));
    }
}

#[test]
fn eor_first(rt: HostRuntime) {
    let _host = check_host(
        &rt,
        &[
            (Telnet::Option(Verb::Will, 0x19), b"\xff\xfd\x19".as_slice()),
            (Telnet::Option(Verb::Will, 0x18), SEND),
            (
                terminal_type(&rt, b"\x00IBM-3179-2"),
                b"\xff\xfb\x19\xff\xfd\x00\xff\xfb\x00".as_slice(),
            ),
        ],
    );
}

#[test]
fn no_terminal_type(rt: HostRuntime) {
    let mut host = check_host(&rt, &[]);
    let wont = Telnet::Option(Verb::Wont, 0x18);
    host_refuses(&rt, &mut host, &wont);
    let will = Telnet::Option(Verb::Will, 0x18);
    host_replies(&rt, &mut host, &will, SEND);
    let other = terminal_type(&rt, b"\x00IBM-3477-FC");
    host_refuses(&rt, &mut host, &other);
    same(&rt, host.terminal(), None);
    let known = terminal_type(&rt, b"\x00IBM-5291-1");
    host_replies(&rt, &mut host, &known, REQUESTS);
    same(&rt, host.terminal(), Some(TerminalType::Ibm5291Model1));
}

// An option that isn't in a table, a subnegotiation of another option and a command.
#[test]
fn unnamed_option(rt: HostRuntime) {
    let mut station = StationOptions::new(TerminalType::default());
    let mut host = HostOptions::new();
    let sub = Sub::new(0x27, &[1]).expect(&rt, "short");
    let options = [
        (Telnet::Option(Verb::Do, 0x27), b"\xff\xfc\x27".as_slice()),
        (Telnet::Option(Verb::Will, 0x27), b"\xff\xfe\x27".as_slice()),
        (Telnet::Option(Verb::Dont, 0x27), NOTHING),
        (Telnet::Option(Verb::Wont, 0x27), NOTHING),
    ];
    for (token, reply) in &options {
        station_replies(&rt, &mut station, token, reply);
        host_replies(&rt, &mut host, token, reply);
    }
    // Neither does the station let the host end send a name, nor does the host end send one.
    let will = Telnet::Option(Verb::Will, 0x18);
    station_replies(&rt, &mut station, &will, b"\xff\xfe\x18");
    let ask = Telnet::Option(Verb::Do, 0x18);
    host_replies(&rt, &mut host, &ask, b"\xff\xfc\x18");
    for token in &[Telnet::Sub(sub), Telnet::Command(CommandCode::Nop)] {
        station_replies(&rt, &mut station, token, NOTHING);
        host_replies(&rt, &mut host, token, NOTHING);
    }
}

#[test]
fn terminal_names(rt: HostRuntime) {
    for (terminal, name) in [
        (TerminalType::Ibm5251Model11, b"IBM-5251-11".as_slice()),
        (TerminalType::Ibm5291Model1, b"IBM-5291-1".as_slice()),
        (TerminalType::Ibm5292Model2, b"IBM-5292-2".as_slice()),
        (TerminalType::Ibm3196ModelA1, b"IBM-3196-A1".as_slice()),
        (TerminalType::Ibm3179Model2, b"IBM-3179-2".as_slice()),
    ] {
        same(&rt, terminal.name(), name);
        same(&rt, TerminalType::from_name(name), Some(terminal));
    }
    for name in [
        NOTHING,
        b"IBM-3179-".as_slice(),
        b"IBM-3179-2 ".as_slice(),
        b"IBM-3477-FC".as_slice(),
    ] {
        same(&rt, TerminalType::from_name(name), None);
    }
}

#[test]
fn laws_can_be_called() {
    exchanges_agree();
    three_deliveries_suffice();
    once_allowed();
    dialogues_agree();
}
