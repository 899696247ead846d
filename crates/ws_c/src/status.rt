//! What a call comes to.
ghost use Rattle.std.specs.Prelude.{◌≡◌};
ghost use Rattle.ws_c.specs.Calls.{status_number};

/// What a call comes to.
#[derive(Clone, Copy)]
pub(crate) enum Status {
    /// The call did what it says.
    Done,
    /// The byte is refused, or the item that it ends.
    Refused,
    /// An earlier byte was refused.
    Failed,
    /// Memory is wanting.
    NoMemory,
    /// The handle holds nothing, or another thing than the call works on.
    NothingHeld,
    /// The handle holds something already.
    InUse,
    /// A buffer is shorter than the call asks for.
    NoRoom,
    /// An argument is out of its range.
    BadArgument,
    /// Records aren't allowed yet, and the key sends one.
    NotReady,
    /// The keyboard or the field refuses the key.
    KeyRefused,
    /// The stream ends inside a token or a record.
    Truncated,
    /// A read is asked or a cancel is unanswered, and the body isn't empty.
    ReadOutstanding,
    /// No read is asked, or a cancel is unanswered.
    NoReadToCancel,
    /// The record would be of more than 65,535 bytes.
    TooBig,
    /// No answer has come yet.
    NoAnswer,
}

impl Status {
    /// Its number in C.
    pub(crate) fn number(self) -> u32
        ensures { result ≡ status_number self }
    {
        match self {
            Status::Done => 0,
            Status::Refused => 1,
            Status::Failed => 2,
            Status::NoMemory => 3,
            Status::NothingHeld => 4,
            Status::InUse => 5,
            Status::NoRoom => 6,
            Status::BadArgument => 7,
            Status::NotReady => 8,
            Status::KeyRefused => 9,
            Status::Truncated => 10,
            Status::ReadOutstanding => 11,
            Status::NoReadToCancel => 12,
            Status::TooBig => 13,
            Status::NoAnswer => 14,
        }
    }
}
