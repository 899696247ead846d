//! What a host end tells its caller.
use crate::end_step::EndStep;
use ws_keys::HostAnswer;
use ws_nego::TerminalType;

/// What a host end tells its caller.
#[derive(Debug, Drop, PartialEq, Eq)]
pub enum HostEvent {
    /// Records are allowed, and this is the terminal.
    Ready(TerminalType),
    /// The asked read is answered, and over.
    Answer(HostAnswer),
    /// The Attention key was pressed (RFC 1205, section 3, ATN).
    Attention,
    /// The System Request key was pressed (RFC 1205, section 3, SRQ).
    SystemRequest,
    /// The cancel has arrived, and the asked read is over.
    Cancelled,
}

/// What a byte gives a host end.
pub type HostStep = EndStep<HostEvent>;
