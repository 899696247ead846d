//! What a host that takes any record tells.
use crate::ToldName;
use ws_record::Record;

/// What a host that takes any record tells its caller.
#[derive(Debug, Drop, PartialEq, Eq)]
pub enum AnyEvent {
    /// Records are allowed, and this is the terminal's name as it came.
    Ready(ToldName),
    /// The station has sent this record, whose body is the bytes as they were before an FF was doubled.
    Record(Record<u8>),
}
