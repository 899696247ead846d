//! What the byte after an FF, or a later one of its token, brings: nothing yet, a value, an end, a command, a refusal.

use crate::{CommandCode, Verb};
use ws_code::Reason;

/// Which Telnet command is complete (RFC 854). It is small: a subnegotiation stays where it was read until it is
/// fetched.
#[derive(Clone, Copy, Debug, PartialEq, Eq)]
pub enum TelnetWord {
    /// A command that stands alone.
    Command(CommandCode),
    /// What an end says of an option.
    Option(Verb, u8),
    /// A subnegotiation.
    Sub,
}

/// What a byte makes of a token that begins with FF (RFC 854; EOR: RFC 885).
#[derive(Clone, Copy, Debug, PartialEq, Eq)]
pub enum Word {
    /// The token isn't whole.
    More,
    /// A doubled FF, which is the data byte FF.
    Data,
    /// The end of a record.
    Eor,
    /// A Telnet command, which `Tokens::telnet` gives.
    Telnet(TelnetWord),
    /// The bytes so far begin no token.
    Bad(Reason),
}
