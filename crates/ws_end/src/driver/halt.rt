//! Why a byte or an item is not taken.
use ws_code::Reason;

/// Why what reacts doesn't go on at an item, or a decoder at a byte.
#[derive(Clone, Copy, Debug, PartialEq, Eq)]
pub enum Halt {
    /// It is refused.
    Refused(Reason),
    /// A growth was refused.
    Memory,
    /// No byte is taken any more.
    Failed,
}
