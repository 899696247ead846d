//! A record whose body is bytes already, written with its header and its end (RFC 1205, section 3).

ghost use Rattle.std.specs.Prelude.{◌≡◌, ◌++◌, ◌+◌, ◌≤◌, length, IfErr, OnOk};
ghost use Rattle.std.specs.List.{flat_map};
ghost use Rattle.ws_code.specs.Device.{WentOut, FailedWithin};
ghost use Rattle.ws_telnet.specs.Token.{doubled};
ghost use Rattle.ws_record.specs.Grammar.{header};
ghost use Rattle.ws_record.specs.Encode.{record_spelling};

use crate::Opcode;
use ws_code::{Fault, Sink, write_whole};
use ws_telnet::{EOR, IAC};

/// Writes a whole record with its IAC EOR, each FF of it doubled (RFC 1205, section 3).
///
/// The body is at most 65,525 bytes, and may be empty.
///
/// # Errors
///
/// `Write` alone: a write failed, or took no byte. Then only bytes before it went out.
pub fn write_record<S: Sink>(
    sink: &mut S,
    flags: u16,
    opcode: Opcode,
    body: &[u8],
) -> Result<(), Fault>
    requires { length body.now ≤ 65525 }
    ensures ok { OnOk result (WentOut S.writer sink.old sink.new
        (record_spelling (header (10 + length body.now) flags opcode ++ body.now))) }
    ensures err { IfErr result (λ fault. (fault ≡ Fault.Write)
        × FailedWithin S.writer sink.old sink.new
        (record_spelling (header (10 + length body.now) flags opcode ++ body.now))) }
{
    let length = 10 + body.len() as u16;
    write_doubled(sink, &header_bytes(length, flags, opcode))?;
    write_doubled(sink, body)?;
    write_whole(sink, &[IAC, EOR])
}

/// The ten bytes that a record of this length, from 10 to 65,535, begins with (RFC 1205, section 3).
pub fn header_bytes(length: u16, flags: u16, opcode: Opcode) -> [u8; 10]
    ensures { result ≡ header length flags opcode }
{
    let [length_high, length_low] = length.to_be_bytes();
    let [flags_high, flags_low] = flags.to_be_bytes();
    [
        length_high,
        length_low,
        0x12,
        0xa0,
        0,
        0,
        4,
        flags_high,
        flags_low,
        opcode.byte(),
    ]
}

/// Writes the bytes, each FF twice (RFC 854).
///
/// # Errors
///
/// `Write` alone: a write failed, or took no byte.
pub(crate) fn write_doubled<S: Sink>(sink: &mut S, bytes: &[u8]) -> Result<(), Fault>
    ensures ok { OnOk result (WentOut S.writer sink.old sink.new
        (flat_map doubled bytes.now)) }
    ensures err { IfErr result (λ fault. (fault ≡ Fault.Write)
        × FailedWithin S.writer sink.old sink.new (flat_map doubled bytes.now)) }
{
    // A run ends with an FF, with which the next one begins.
    let mut start = 0;
    for (at, byte) in bytes.iter().enumerate() {
        if *byte == IAC {
            write_whole(sink, &bytes[start..=at])?;
            start = at;
        }
    }
    write_whole(sink, &bytes[start..])
}
