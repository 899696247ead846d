//! Why a key has no effect at a station.
use std::error::Error;
use std::fmt;
use ws_keys::KeyRefusal;

/// Why a key has no effect: the first that applies. The station is unchanged.
#[derive(Clone, Copy, Debug, PartialEq, Eq)]
pub enum KeyFault {
    /// The station has refused a byte, or has taken 18,446,744,073,709,551,615.
    Failed,
    /// Records aren't allowed yet, and the key sends one.
    NotReady,
    /// The keyboard or the field refuses it.
    Key(KeyRefusal),
}

impl fmt::Display for KeyFault {
    fn fmt<W: fmt::Write>(&self, f: &mut fmt::Formatter<W>) -> fmt::Result {
        match self {
            KeyFault::Failed => f.write_str("failed"),
            KeyFault::NotReady => f.write_str("records aren't allowed yet"),
            KeyFault::Key(refusal) => refusal.fmt(f),
        }
    }
}

impl Error for KeyFault {}
