//! Why an end takes no more bytes.
use std::error::Error;
use std::fmt;
use ws_code::Reason;

/// Why an end takes no more bytes. Each later byte, key, send or cancel is answered by `Failed`.
#[derive(Clone, Copy, Debug, PartialEq, Eq)]
pub enum Refusal {
    /// This byte is refused, or the item that it ends. The place counts bytes from 0.
    At { place: u64, reason: Reason },
    /// An earlier byte was refused, or 18,446,744,073,709,551,615 bytes were taken.
    Failed,
    /// A growth was refused. A station allocates no memory and never answers so.
    Memory,
}

impl fmt::Display for Refusal {
    fn fmt<W: fmt::Write>(&self, f: &mut fmt::Formatter<W>) -> fmt::Result {
        match self {
            Refusal::At { place, reason } => write!(f, "refused at {place}: {reason}"),
            Refusal::Failed => f.write_str("failed"),
            Refusal::Memory => f.write_str("memory"),
        }
    }
}

impl Error for Refusal {}
