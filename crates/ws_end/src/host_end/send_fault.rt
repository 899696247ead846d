//! Why a host end sends nothing.
use std::error::Error;
use std::fmt;
use ws_code::Reason;

/// Why a host end doesn't send or cancel: the first that applies. Nothing is changed by one.
#[derive(Clone, Copy, Debug, PartialEq, Eq)]
pub enum SendFault {
    /// The host end has refused a byte, or has taken 18,446,744,073,709,551,615.
    Failed,
    /// Records aren't allowed yet.
    NotAllowed,
    /// A read is asked or a cancel is unanswered, and the body isn't empty.
    ReadOutstanding,
    /// No read is asked, or a cancel is unanswered.
    NoReadToCancel,
    /// The elements are no body.
    BadSequence,
    /// The screen refuses an element, by one of the reasons 50 to 55.
    Screen(Reason),
    /// The record would be of more than 65,535 bytes.
    TooBig,
    /// A growth was refused.
    Memory,
}

impl fmt::Display for SendFault {
    fn fmt<W: fmt::Write>(&self, f: &mut fmt::Formatter<W>) -> fmt::Result {
        match self {
            SendFault::Failed => f.write_str("failed"),
            SendFault::NotAllowed => f.write_str("records aren't allowed yet"),
            SendFault::ReadOutstanding => f.write_str("a read or a cancel is unanswered"),
            SendFault::NoReadToCancel => f.write_str("no read can be cancelled"),
            SendFault::BadSequence => f.write_str("the elements are no body"),
            SendFault::Screen(reason) => write!(f, "the screen refuses an element: {reason}"),
            SendFault::TooBig => f.write_str("the record is of more than 65,535 bytes"),
            SendFault::Memory => f.write_str("memory"),
        }
    }
}

impl Error for SendFault {}
