//! Lines of scripts: the keys and texts that they are, and why a line is none.

use crate::{same, same_at, says};
use std::alloc::Global;
use std::process::Abort;
use ws_code::Aid;
use ws_keys::Key;
use ws_script::{ScriptFault, read_script};
use ws_session::Move;

// Scripts, and their first bad line.
const BAD: [(&[u8], u64); 58] = [
    (
        b"# a comment, \xc3\xa4\n\ncancel\r\ndown 000000007\nup all\nsend 03 0440c1\n",
        6,
    ),
    (b"hello", 1),
    (b"# \xff", 1),
    (b"\n\xc3\n", 2),
    (b"\xef\xbb\xbfsettle\n", 1),
    (b"settle\r\n\r\nbad\n\xff", 3),
    (b"settle\nsettle\r", 2),
    (b"settle\r\r\n", 1),
    (b"#\n\nsettle\n settle\n", 4),
    (b"settle \n", 1),
    (b"settle 1", 1),
    (b"Settle", 1),
    (b"cancel ", 1),
    (b"cancel 1", 1),
    (b"type", 1),
    (b"insert", 1),
    (b"send", 1),
    (b"send ", 1),
    (b"send 3 ", 1),
    (b"send  3", 1),
    (b"send 10", 1),
    (b"send 010 0440", 1),
    (b"send 7", 1),
    (b"send 9", 1),
    (b"send 13", 1),
    (b"send 256", 1),
    (b"send 259", 1),
    (b"send +3", 1),
    (b"send -3", 1),
    (b"send 0x3", 1),
    (b"send 0000000003", 1),
    (b"send 4294967299", 1),
    (b"send 3 044", 1),
    (b"send 3 044g", 1),
    (b"send 3 0440 0440", 1),
    (b"send 3 0440 ", 1),
    (b"send 3 04", 1),
    (b"send 3 C1", 1),
    (b"send 3 04F30005D97000", 1),
    (b"send 3 041100001118", 1),
    (b"down", 1),
    (b"down ", 1),
    (b"down  1", 1),
    (b"down 1 ", 1),
    (b"down ALL", 1),
    (b"down +1", 1),
    (b"down 1234567890", 1),
    (b"up", 1),
    (b"up all ", 1),
    (b"up -1", 1),
    (b"key", 1),
    (b"key ", 1),
    (b"key enter", 1),
    (b"key F0", 1),
    (b"key F01", 1),
    (b"key F25", 1),
    (b"key Char", 1),
    (b"key Enter ", 1),
];

#[test]
fn bad_lines(rt: HostRuntime) {
    for (text, number) in &BAD {
        let fault = read_script(rt.alloc(), text).err();
        same_at(&rt, *text, fault, Some(ScriptFault::Line(*number)));
    }
    says(&rt, rt.alloc(), ScriptFault::Line(12), "script line 12");
}

fn moves_of(rt: &impl Abort, alloc: Global, text: &[u8]) -> Vec<Move> {
    read_script(alloc, text).expect(rt, "moves")
}

// A script whose lines are good.
const GOOD: &[u8] =
    b"cancel\r\ndown 000000007\nup all\nsend 03 04400411AbfFc1\nsend 12\ntype \ninsert \xc3\xa4 \n#\nsettle";

// Its moves, as they are shown.
const GOOD_MOVES: [&str; 15] = [
    "Cancel",
    "ToStation(7)",
    "ToHost(18446744073709551615)",
    "Send(PutGet, List { items: [ClearUnit, Write { cc1: 171, cc2: 255 }, Put(DataByte { value: 193 })] })",
    "Send(MessageLightOff, List { items: [] })",
    "Key(Insert('\u{e4}'))",
    "Key(Insert(' '))",
    "ToStation(18446744073709551615)",
    "ToHost(18446744073709551615)",
    "ToStation(18446744073709551615)",
    "ToHost(18446744073709551615)",
    "ToStation(18446744073709551615)",
    "ToHost(18446744073709551615)",
    "ToStation(18446744073709551615)",
    "ToHost(18446744073709551615)",
];

// Scripts, and their moves.
const MOVES: [(&[u8], &[&str]); 4] = [
    (GOOD, &GOOD_MOVES),
    (b"", &[]),
    (b"\n\r\n", &[]),
    (b"#", &[]),
];

#[test]
fn good_lines(rt: HostRuntime) {
    let alloc = rt.alloc();
    for (script, wanted) in &MOVES {
        let moves = moves_of(&rt, alloc, script);
        same(&rt, moves.len(), wanted.len());
        for (at, step) in moves.as_slice().iter().enumerate() {
            let shown = format!(in alloc; "{step:?}").expect(&rt, "memory");
            same(&rt, Some(&shown.as_str()), wanted.get(at));
        }
    }
}

// A script's line presses this key.
fn is_named(rt: &impl Abort, alloc: Global, line: &str, wanted: Key) {
    match moves_of(rt, alloc, line.as_bytes()).as_slice() {
        [Move::Key(key)] => same_at(rt, line, *key, wanted),
        _ => panic!(rt; "a key"),
    }
}

const KEYS: [(&str, Key); 14] = [
    ("key Left", Key::Left),
    ("key Right", Key::Right),
    ("key Up", Key::Up),
    ("key Down", Key::Down),
    ("key Home", Key::Home),
    ("key Tab", Key::Tab),
    ("key BackTab", Key::BackTab),
    ("key FieldExit", Key::FieldExit),
    ("key FieldMinus", Key::FieldMinus),
    ("key Dup", Key::Dup),
    ("key Delete", Key::Delete),
    ("key EraseInput", Key::EraseInput),
    ("key Attention", Key::Attention),
    ("key SystemRequest", Key::SystemRequest),
];

// Keys that answer, by their attention identifiers.
const ANSWERING: [(&str, u8); 31] = [
    ("key Enter", 0xf1),
    ("key Clear", 0xbd),
    ("key Help", 0xf3),
    ("key RollDown", 0xf4),
    ("key RollUp", 0xf5),
    ("key Print", 0xf6),
    ("key RecordBackspace", 0xf8),
    ("key F1", 0x31),
    ("key F2", 0x32),
    ("key F3", 0x33),
    ("key F4", 0x34),
    ("key F5", 0x35),
    ("key F6", 0x36),
    ("key F7", 0x37),
    ("key F8", 0x38),
    ("key F9", 0x39),
    ("key F10", 0x3a),
    ("key F11", 0x3b),
    ("key F12", 0x3c),
    ("key F13", 0xb1),
    ("key F14", 0xb2),
    ("key F15", 0xb3),
    ("key F16", 0xb4),
    ("key F17", 0xb5),
    ("key F18", 0xb6),
    ("key F19", 0xb7),
    ("key F20", 0xb8),
    ("key F21", 0xb9),
    ("key F22", 0xba),
    ("key F23", 0xbb),
    ("key F24", 0xbc),
];

#[test]
fn key_names(rt: HostRuntime) {
    let alloc = rt.alloc();
    for (name, key) in &KEYS {
        is_named(&rt, alloc, name, *key);
    }
    for (name, byte) in &ANSWERING {
        let aid = Aid::from_byte(*byte).expect(&rt, "a key");
        is_named(&rt, alloc, name, Key::Aid(aid));
    }
}
