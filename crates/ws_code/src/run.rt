//! How a run of bytes ended, and where it left the machine that read it.
use crate::Reason;

/// How a run of values ended.
#[derive(Clone, Copy, Debug, PartialEq, Eq)]
pub enum End {
    /// All were taken, and more may come.
    More,
    /// The last one taken completes a unit, with which the keep has enough.
    Enough,
    /// The last one taken completes a unit, for which a growth was refused.
    NoMemory,
    /// The last one taken is refused.
    Bad(Reason),
}

/// How many values were taken, and how the run ended.
#[derive(Clone, Copy)]
pub struct Run {
    pub used: usize,
    pub end: End,
}

// Kept beside a machine, since no default body could ask the machine for it. A fast run writes it
// once, at its end.
/// Where the unit stands that is read, and whether it is unfinished.
#[derive(Clone, Copy)]
pub struct Standing<P> {
    pub place: P,
    pub is_inside: bool,
}
