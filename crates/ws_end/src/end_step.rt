//! What an end gives for bytes, and what is asked of a host end.
ghost use Rattle.std.specs.Prelude.{◌≡◌};
ghost use Rattle.ws_end.specs.host_end.HostReached.{sent_bytes};

use crate::Refusal;
use arrayvec::ArrayVec;
use ws_code::List;
use ws_nego::Reply;
use ws_record::Opcode;
use ws_stream::Element;

/// What the last byte taken gives an end.
#[derive(Debug, Drop, PartialEq, Eq)]
pub struct EndStep<T, R = Reply> {
    /// What it writes.
    pub reply: R,
    /// What it tells its caller.
    pub event: Option<T>,
}

/// What a piece gives an end.
#[derive(Drop)]
pub struct EndFed<T, R = Reply> {
    /// How many bytes of the piece were taken, one that is refused among them.
    pub used: usize,
    /// What the last of them gave, or why it is refused.
    pub step: Result<EndStep<T, R>, Refusal>,
}

/// What a station tells: it has applied a record.
#[derive(Clone, Copy, Debug, PartialEq, Eq)]
pub struct Applied;

/// What is done at a host end.
#[derive(Drop)]
pub enum HostRequest {
    /// It sends a record; with Cancel Invite this is a `Cancel`.
    Send(Opcode, List<Element>),
    /// It cancels the read that it has asked.
    Cancel,
}

/// The bytes of a record that is sent. Those of a cancel take no memory.
#[derive(Drop)]
pub enum Sent {
    Record(Vec<u8>),
    Cancel(ArrayVec<u8, 12>),
}

impl Sent {
    /// The bytes.
    pub fn as_slice(&self) -> &[u8]
        ensures { result.now ≡ sent_bytes self.now }
    {
        match self {
            Sent::Record(bytes) => bytes.as_slice(),
            Sent::Cancel(bytes) => bytes.as_slice(),
        }
    }
}
