//! What a decoder tells with the last byte of a front.

ghost use Rattle.std.specs.Prelude.{true, false, ◌≡◌};
ghost use Rattle.ws_record.specs.Advance.{OnLastNews, awaits_more};

use crate::Head;
use ws_code::Reason;
use ws_telnet::TelnetWord;

/// What is complete with the last byte that a decoder took. It is small: a unit is in the keep, and a subnegotiation
/// is fetched by a call of its own.
#[derive(Clone, Copy)]
pub enum News {
    /// Nothing, but for units with which the keep goes on.
    More,
    /// A unit with which the keep has enough.
    Unit,
    /// The header of a record.
    Open(Head),
    /// The open record, whose header said this.
    Close(Head),
    /// A Telnet command, which `Live::telnet` gives.
    Telnet(TelnetWord),
    /// Nothing, and nothing will be: the byte is refused.
    Refused(Reason),
    /// A unit, for which a growth was refused. Nothing will follow.
    NoMemory,
    /// Nothing: the decoder had failed, and no byte was taken.
    Failed,
}

impl News {
    /// Whether no item is complete, and more may follow.
    #[inline(always)]
    pub fn goes_on(self) -> bool
        ensures { result ≡ awaits_more self }
    {
        matches!(self, News::More | News::Unit | News::Open(_))
    }

    /// Whether nothing follows: every later call answers `Failed`.
    #[inline(always)]
    pub(crate) fn is_last(self) -> bool
        ensures { OnLastNews self (result ≡ true) × (OnLastNews self ⊥ → result ≡ false) }
    {
        matches!(self, News::Refused(_) | News::NoMemory | News::Failed)
    }
}

/// How many bytes were taken, and what is complete with the last of them.
#[derive(Clone, Copy)]
pub struct Advance {
    pub used: usize,
    pub news: News,
}
