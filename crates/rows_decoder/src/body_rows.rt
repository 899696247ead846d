//! Bodies by themselves, of plain bytes, and the bytes of a header.

use crate::{same_bytes, says};
use std::alloc::Global;
use std::process::Abort;
use ws_record::{BodyFault, Opcode, RawBody, header_bytes, read_body};

fn expect_body(rt: &impl Abort, alloc: Global, bytes: &[u8]) {
    let body = read_body::<RawBody>(alloc, bytes).expect(rt, "a body");
    same_bytes(rt, body.as_slice(), bytes);
}

// Bytes as bodies by themselves, of plain bytes each list is one, and the header of a record of 18 bytes.
#[test]
fn bodies_and_a_header(rt: HostRuntime) {
    expect_body(&rt, rt.alloc(), b"");
    expect_body(&rt, rt.alloc(), b"\xff");
    expect_body(&rt, rt.alloc(), b"\x04\x40\x00");
    says(&rt, rt.alloc(), BodyFault::Bad, "no body");
    says(&rt, rt.alloc(), BodyFault::Memory, "memory");
    let header = header_bytes(18, 0x4004, Opcode::PutGet);
    same_bytes(&rt, &header, b"\x00\x12\x12\xa0\x00\x00\x04\x40\x04\x03");
}
