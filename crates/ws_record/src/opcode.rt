//! The operation that a record's header names (RFC 1205, section 3).

ghost use Rattle.std.specs.Prelude.{◌≡◌, IfSome, IfNone};
ghost use Rattle.ws_record.specs.declared.opcode.Opcode.{Opcode};
ghost use Rattle.ws_record.specs.Grammar.{opcode_byte};

/// What a record asks of its receiver (RFC 1205, section 3).
#[derive(Clone, Copy, Debug, PartialEq, Eq)]
pub enum Opcode {
    NoOperation,
    Invite,
    OutputOnly,
    PutGet,
    SaveScreen,
    RestoreScreen,
    ReadImmediate,
    ReadScreen,
    CancelInvite,
    MessageLightOn,
    MessageLightOff,
}

impl Opcode {
    /// Its byte in the header.
    pub fn byte(self) -> u8
        ensures { result ≡ opcode_byte self }
    {
        match self {
            Opcode::NoOperation => 0x00,
            Opcode::Invite => 0x01,
            Opcode::OutputOnly => 0x02,
            Opcode::PutGet => 0x03,
            Opcode::SaveScreen => 0x04,
            Opcode::RestoreScreen => 0x05,
            Opcode::ReadImmediate => 0x06,
            Opcode::ReadScreen => 0x08,
            Opcode::CancelInvite => 0x0a,
            Opcode::MessageLightOn => 0x0b,
            Opcode::MessageLightOff => 0x0c,
        }
    }

    /// The opcode of this byte, where there is one.
    pub fn from_byte(byte: u8) -> Option<Opcode>
        ensures some { IfSome result (λ opcode. opcode_byte opcode ≡ byte) }
        ensures none { IfNone result ((opcode : Opcode) → opcode_byte opcode ≡ byte → ⊥) }
    {
        match byte {
            0x00 => Some(Opcode::NoOperation),
            0x01 => Some(Opcode::Invite),
            0x02 => Some(Opcode::OutputOnly),
            0x03 => Some(Opcode::PutGet),
            0x04 => Some(Opcode::SaveScreen),
            0x05 => Some(Opcode::RestoreScreen),
            0x06 => Some(Opcode::ReadImmediate),
            0x08 => Some(Opcode::ReadScreen),
            0x0a => Some(Opcode::CancelInvite),
            0x0b => Some(Opcode::MessageLightOn),
            0x0c => Some(Opcode::MessageLightOff),
            _ => None,
        }
    }
}
