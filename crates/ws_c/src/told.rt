//! What calls tell beside their status.
ghost use Rattle.std.specs.Prelude.{◌≡◌};
ghost use Rattle.ws_c.specs.Calls.{told_length};
ghost use Rattle.ws_c.specs.Pushes.{nothing_pushed};

/// What a call tells beside its status.
#[repr(C)]
#[derive(Clone, Copy)]
pub struct Told {
    /// How many bytes of the buffer were set.
    pub length: usize,
    /// Where a byte is refused; places count from 0.
    pub place: u64,
    /// The number of the reason, or of the key's refusal; 0 where there is none.
    pub reason: u8,
}

impl Told {
    /// That so many bytes were set, and nothing else.
    pub(crate) fn length(length: usize) -> Self
        ensures { result ≡ told_length length }
    {
        Told {
            length,
            place: 0,
            reason: 0,
        }
    }
}

/// How many bytes a byte brings at most in answer: the terminal's name at a SEND (RFC 1091).
pub(crate) const REPLY_ROOM: usize = 17;

/// What a push of bytes tells beside its status.
#[repr(C)]
#[derive(Clone, Copy)]
pub struct PushedTold {
    /// How many bytes were taken.
    pub taken: usize,
    /// How many bytes of the buffer were set.
    pub replied: usize,
    /// Where a byte is refused; places count from the first byte that was pushed, 0.
    pub place: u64,
    /// The number of the reason; 0 where there is none.
    pub reason: u8,
}

impl PushedTold {
    /// That nothing was done.
    pub(crate) fn nothing() -> Self
        ensures { result ≡ nothing_pushed }
    {
        PushedTold {
            taken: 0,
            replied: 0,
            place: 0,
            reason: 0,
        }
    }
}
