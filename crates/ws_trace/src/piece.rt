//! Pieces that crossed a connection.
ghost use Rattle.std.specs.Prelude.{◌≡◌, IfOk, IfErr};
ghost use Rattle.ws_trace.specs.TraceText as Spec;

use std::alloc::Global;
use ws_code::Fault;

/// Who sent a piece.
#[derive(Clone, Copy, Debug, PartialEq, Eq)]
pub enum TracedEnd {
    Host,
    Station,
}

impl TracedEnd {
    /// Its name.
    pub(crate) fn name(self) -> &'static str
        ensures { result.now ≡ Spec.end_name self }
    {
        match self {
            TracedEnd::Host => "host",
            TracedEnd::Station => "station",
        }
    }
}

/// A piece that crossed a connection: when it came, who sent it, and its bytes.
#[derive(Debug, Drop)]
pub struct Piece {
    pub milliseconds: u64,
    pub sender: TracedEnd,
    pub bytes: Vec<u8>,
}

impl Piece {
    // Its bytes where the end sent it, else none.
    fn bytes_of(&self, end: TracedEnd) -> &[u8]
        ensures { result.now ≡ Spec.bytes_of_end end self.now }
    {
        match (self.sender, end) {
            (TracedEnd::Host, TracedEnd::Host) | (TracedEnd::Station, TracedEnd::Station) => {
                self.bytes.as_slice()
            }
            _ => &[],
        }
    }
}

/// What an end sent: its pieces, one after another. `Memory` comes where a growth was refused.
pub(crate) fn stream_of(alloc: Global, pieces: &[Piece], end: TracedEnd) -> Result<Vec<u8>, Fault>
    ensures ok { IfOk result (λ stream. stream.items ≡ Spec.sent_by_end end pieces.now) }
    ensures fault { IfErr result (λ fault. fault ≡ Fault.Memory) }
{
    let mut stream = Vec::new(alloc);
    for piece in pieces {
        match stream.extend_from_slice(piece.bytes_of(end)) {
            Ok(()) => {}
            Err(_) => return Err(Fault::Memory),
        }
    }
    Ok(stream)
}

/// When the first piece came.
pub(crate) fn first_time(pieces: &[Piece]) -> u64
    ensures { result ≡ Spec.first_time pieces.now }
{
    match pieces {
        [first, ..] => first.milliseconds,
        [] => 0,
    }
}
