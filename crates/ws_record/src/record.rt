//! What a stream holds: records with their headers, and Telnet commands (RFC 1205, section 3; RFC 854).

use crate::Opcode;
use ws_code::List;
use ws_telnet::Telnet;

/// What the ten header bytes of a record say (RFC 1205, section 3).
#[derive(Clone, Copy, Debug, PartialEq, Eq)]
pub struct Head {
    /// All 16 bits, as they come: ERR 8000, ATN 4000, SRQ 0400, TRQ 0200, HLP 0100.
    pub flags: u16,
    pub opcode: Opcode,
    /// The length of header and body, before any FF is doubled, in bytes.
    pub length: u16,
}

/// A record: what its header says but for the length, and the units of its body.
#[derive(Debug, Drop, PartialEq, Eq)]
pub struct Record<U> {
    pub flags: u16,
    pub opcode: Opcode,
    pub body: List<U>,
}

/// What a stream is made of: records, and Telnet commands between and inside them.
#[derive(Debug, Drop, PartialEq, Eq)]
pub enum Item<U> {
    Record(Record<U>),
    Telnet(Telnet),
}
