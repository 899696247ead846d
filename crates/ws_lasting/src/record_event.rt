//! What is told of a record.
use ws_code::Reason;

/// Why a record is refused, and where in it.
#[derive(Clone, Copy, Debug, PartialEq, Eq)]
pub struct RefusedRecord {
    /// Why.
    pub reason: Reason,
    /// Which of the record's own bytes is refused, counted from 0, a doubled FF as one; their number where the record
    /// is refused as a whole, at its IAC EOR.
    pub place: u64,
}

/// What came of a record. It is told at the record's IAC EOR.
#[derive(Clone, Copy, Debug, PartialEq, Eq)]
pub enum RecordEvent {
    /// It was carried out.
    CarriedOut,
    /// It was refused, and answered by a negative response.
    Refused(RefusedRecord),
}
