//! What ends a reading or a writing.
use crate::Reason;
use std::error::Error;
use std::fmt;

/// What ends a reading or a writing.
#[derive(Clone, Copy, Debug, PartialEq, Eq)]
pub enum Fault {
    /// The byte at this place, counted from 0, is refused.
    Refused { place: u64, reason: Reason },
    /// The bytes end inside a token or a record, after this many.
    Truncated { at: u64 },
    /// A growth was refused.
    Memory,
    /// The source failed, or 4,294,967,296 reads were made before its end came.
    Read,
    /// The sink failed, or took none of the bytes that it was given.
    Write,
    /// An earlier call has failed, or 18,446,744,073,709,551,615 bytes were taken.
    Failed,
}

impl fmt::Display for Fault {
    fn fmt<W: fmt::Write>(&self, f: &mut fmt::Formatter<W>) -> fmt::Result {
        match self {
            Fault::Refused { place, reason } => write!(f, "refused at {place}: {reason}"),
            Fault::Truncated { at } => write!(f, "truncated at {at}"),
            Fault::Memory => f.write_str("memory"),
            Fault::Read => f.write_str("cannot read"),
            Fault::Write => f.write_str("cannot write"),
            Fault::Failed => f.write_str("failed"),
        }
    }
}

impl Error for Fault {}
