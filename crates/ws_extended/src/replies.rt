//! What a station answers to a 5250 Query.
ghost use Rattle.std.specs.Prelude.{◌≡◌, ◌++◌, length};
ghost use Rattle.ws_extended.specs.QueryReply as Spec;

use arrayvec::ArrayVec;
use ws_nego::TerminalType;

/// How many bytes the body of a reply to a 5250 Query has.
pub const QUERY_REPLY_BYTES: usize = 61;

/// The first bytes of such a reply: no cursor, its AID, and the front of a structured field.
pub(crate) const HEAD: [u8; 8] = [0x00, 0x00, 0x88, 0x00, 0x3a, 0xd9, 0x70, 0x80];

const CONTROLLER: [u8; 21] = [
    0x06, 0x00, 0x01, 0x01, 0x00, 0x00, 0x00, 0x00, 0x00, 0x00, 0x00, 0x00, 0x00, 0x00, 0x00, 0x00,
    0x00, 0x00, 0x00, 0x00, 0x00,
];

const EQUIPMENT: [u8; 12] = [
    0x02, 0x00, 0x00, 0x00, 0x61, 0x50, 0x00, 0x01, 0x00, 0x00, 0x00, 0x00,
];

const MONOCHROME: [u8; 12] = [
    0x23, 0x10, 0x00, 0x00, 0x00, 0x00, 0x00, 0x00, 0x00, 0x00, 0x00, 0x00,
];

const COLORS: [u8; 12] = [
    0x23, 0x11, 0x00, 0x00, 0x00, 0x00, 0x00, 0x00, 0x00, 0x00, 0x00, 0x00,
];

// A display, its type and model in code page 037.
const IBM_5251_11: [u8; 8] = [0x01, 0xf5, 0xf2, 0xf5, 0xf1, 0xf0, 0xf1, 0xf1];

const IBM_5291_1: [u8; 8] = [0x01, 0xf5, 0xf2, 0xf9, 0xf1, 0xf0, 0xf0, 0xf1];

const IBM_5292_2: [u8; 8] = [0x01, 0xf5, 0xf2, 0xf9, 0xf2, 0xf0, 0xf0, 0xf2];

const IBM_3196_A1: [u8; 8] = [0x01, 0xf3, 0xf1, 0xf9, 0xf6, 0xf0, 0xc1, 0xf1];

const IBM_3179_2: [u8; 8] = [0x01, 0xf3, 0xf1, 0xf7, 0xf9, 0xf0, 0xf0, 0xf2];

fn device(terminal: TerminalType) -> &'static [u8]
    ensures { result.now ≡ Spec.device terminal }
{
    match terminal {
        TerminalType::Ibm5251Model11 => &IBM_5251_11,
        TerminalType::Ibm5291Model1 => &IBM_5291_1,
        TerminalType::Ibm5292Model2 => &IBM_5292_2,
        TerminalType::Ibm3196ModelA1 => &IBM_3196_A1,
        TerminalType::Ibm3179Model2 => &IBM_3179_2,
    }
}

fn capabilities(terminal: TerminalType) -> &'static [u8]
    ensures { result.now ≡ Spec.capabilities terminal }
{
    match terminal {
        TerminalType::Ibm5292Model2 | TerminalType::Ibm3179Model2 => &COLORS,
        TerminalType::Ibm5251Model11 | TerminalType::Ibm5291Model1 | TerminalType::Ibm3196ModelA1 =>
            &MONOCHROME,
    }
}

/// The body of the reply to a 5250 Query, by which a host learns what it may send (SC30-3533, 5250 Query command).
pub fn query_reply(terminal: TerminalType) -> ArrayVec<u8, QUERY_REPLY_BYTES>
    ensures bytes { result.items ≡ Spec.query_reply terminal }
    ensures size { length result.items ≡ QUERY_REPLY_BYTES }
{
    let mut reply = ArrayVec::new();
    reply.try_extend_from_slice(&HEAD).unwrap();
    reply.try_extend_from_slice(&CONTROLLER).unwrap();
    reply.try_extend_from_slice(device(terminal)).unwrap();
    reply.try_extend_from_slice(&EQUIPMENT).unwrap();
    reply.try_extend_from_slice(capabilities(terminal)).unwrap();
    reply
}
