//! Records by their bytes.
ghost use Rattle.std.specs.Prelude.{◌≡◌, ◌≤◌, ◌+◌, ◌*◌, ◌++◌, length};
ghost use Rattle.std.specs.List.{flat_map};
ghost use Rattle.ws_telnet.specs.Token.{doubled};
ghost use Rattle.ws_record.specs.Grammar.{header};
ghost use Rattle.ws_record.specs.Encode.{record_spelling};

use arrayvec::ArrayVec;
use ws_record::{Opcode, header_bytes};
use ws_telnet::{EOR, IAC};

/// The most bytes of a record with the longest body that is told, each of its bytes an FF; and of an empty record.
pub(crate) const MOST_RECORD_BYTES: usize = 8530;

pub(crate) const EMPTY_RECORD_BYTES: usize = 22;

/// Room for one and an empty one behind it.
pub(crate) const MOST_WRITTEN_BYTES: usize = 8552;

// A byte, doubled if it is FF (RFC 854).
fn push_doubled(into: &mut ArrayVec<u8, MOST_WRITTEN_BYTES>, byte: u8)
    requires { length into.old.items + 2 ≤ MOST_WRITTEN_BYTES }
    ensures items { into.new.items ≡ into.old.items ++ doubled byte }
    ensures size { length into.new.items ≤ length into.old.items + 2 }
{
    into.push(byte);
    if byte == IAC {
        into.push(IAC);
    }
}

// Bytes, each FF doubled.
fn push_all_doubled(into: &mut ArrayVec<u8, MOST_WRITTEN_BYTES>, bytes: &[u8])
    requires { length into.old.items + 2 * length bytes.now ≤ MOST_WRITTEN_BYTES }
    ensures items { into.new.items ≡ into.old.items ++ flat_map doubled bytes.now }
    ensures size { length into.new.items ≤ length into.old.items + 2 * length bytes.now }
{
    for byte in bytes {
        push_doubled(into, *byte);
    }
}

/// Puts a record with its IAC EOR behind what is there, with flags 0 (RFC 1205, section 3).
pub(crate) fn put_record(into: &mut ArrayVec<u8, MOST_WRITTEN_BYTES>, opcode: Opcode, body: &[u8])
    requires { length into.old.items + 2 * length body.now + 22 ≤ MOST_WRITTEN_BYTES }
    ensures items { into.new.items ≡ into.old.items
        ++ record_spelling (header (10 + length body.now) 0 opcode ++ body.now) }
    ensures size { length into.new.items
        ≤ length into.old.items + 2 * length body.now + 22 }
{
    push_all_doubled(into, &header_bytes(10 + body.len() as u16, 0, opcode));
    push_all_doubled(into, body);
    into.push(IAC);
    into.push(EOR);
}
