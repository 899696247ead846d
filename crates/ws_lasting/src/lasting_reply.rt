//! What a station that no record ends writes, and gives.
use crate::RecordEvent;
use ws_session::EndStep;

/// What it writes. [`crate::LastingStation::bytes`] has the bytes, up to the next call.
#[derive(Drop)]
pub enum LastingReply<R> {
    /// What a station on its display writes.
    Station(R),
    /// What NEW-ENVIRON answers. The station keeps the bytes.
    Environ,
}

/// What the last byte taken gives it.
pub type LastingStep<R> = EndStep<RecordEvent, LastingReply<R>>;
