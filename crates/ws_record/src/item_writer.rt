//! Items that can be encoded, written one after another without memory.

ghost use Rattle.std.specs.Prelude.{◌≡◌, ◌+◌, ◌<◌, ◌≤◌, ◌^◌, length, IfSome, IfNone, IfErr, OnOk};
ghost use Rattle.std.specs.List.{flat_map};
ghost use Rattle.ws_code.specs.Code.{spelling_of};
ghost use Rattle.ws_code.specs.Device.{WentOut, FailedWithin};
ghost use Rattle.ws_telnet.specs.Token.{doubled};
ghost use Rattle.ws_record.specs.Grammar.{record_bytes};
ghost use Rattle.ws_record.specs.Encode.{CanAllBeEncoded, record_spelling, plain_spelling};

use crate::record_writer::{header_bytes, write_doubled};
use crate::{Item, Record};
use arrayvec::ArrayVec;
use ws_code::{Body, Fault, Sink, write_whole};
use ws_telnet::{EOR, IAC, write_telnet};

/// Writes the plain spelling of items that can be encoded (RFC 1205, section 3; RFC 854; RFC 885).
///
/// # Errors
///
/// `Write` alone: a write failed, or took no byte.
pub(crate) fn write_items<B: Body, S: Sink>(
    sink: &mut S,
    items: &[Item<B::Unit>],
) -> Result<(), Fault>
    requires { CanAllBeEncoded B.rules items.now }
    ensures ok { OnOk result (WentOut S.writer sink.old sink.new
        (plain_spelling B.rules items.now)) }
    ensures err { IfErr result (λ fault. (fault ≡ Fault.Write)
        × FailedWithin S.writer sink.old sink.new (plain_spelling B.rules items.now)) }
{
    for item in items {
        match item {
            Item::Record(record) => write_encoded::<B, S>(sink, record)?,
            Item::Telnet(telnet) => write_telnet(sink, telnet)?,
        }
    }
    Ok(())
}

// Writes a record that can be encoded. Its units are spelled when they are checked, counted and
// written: a length that is kept in between would ask for memory.
fn write_encoded<B: Body, S: Sink>(sink: &mut S, encoded: &Record<B::Unit>) -> Result<(), Fault>
    requires { length (record_bytes B.rules encoded.now) < 2 ^ 16 }
    ensures ok { OnOk result (WentOut S.writer sink.old sink.new
        (record_spelling (record_bytes B.rules encoded.now))) }
    ensures err { IfErr result (λ fault. (fault ≡ Fault.Write)
        × FailedWithin S.writer sink.old sink.new
        (record_spelling (record_bytes B.rules encoded.now))) }
{
    let units = encoded.body.as_slice();
    let length = 10 + body_length::<B>(units).unwrap_or(0);
    write_doubled(sink, &header_bytes(length, encoded.flags, encoded.opcode))?;
    write_units::<B, S>(sink, units)?;
    write_whole(sink, &[IAC, EOR])
}

/// How many bytes the units are spelled with; none for more than a record has room for, 65,525.
pub(crate) fn body_length<B: Body>(units: &[B::Unit]) -> Option<u16>
    ensures some { IfSome result (λ n.
        (n ≡ length (spelling_of B.rules units.now)) × (n ≤ 65525)) }
    ensures none { IfNone result (65525 < length (spelling_of B.rules units.now)) }
{
    let mut spelling = ArrayVec::new();
    let mut length = 0;
    for unit in units {
        B::spell(unit, &mut spelling);
        length += spelling.len();
        if length > 65525 {
            return None;
        }
    }
    Some(length as u16)
}

// Writes the spelling of the units, each FF twice.
fn write_units<B: Body, S: Sink>(sink: &mut S, units: &[B::Unit]) -> Result<(), Fault>
    ensures ok { OnOk result (WentOut S.writer sink.old sink.new
        (flat_map doubled (spelling_of B.rules units.now))) }
    ensures err { IfErr result (λ fault. (fault ≡ Fault.Write)
        × FailedWithin S.writer sink.old sink.new
        (flat_map doubled (spelling_of B.rules units.now))) }
{
    let mut spelling = ArrayVec::new();
    for unit in units {
        B::spell(unit, &mut spelling);
        write_doubled(sink, spelling.as_slice())?;
    }
    Ok(())
}
