//! One direction of a connection.
ghost use Rattle.std.specs.Prelude.{◌≡◌, ◌≤◌, List as Seq, length, IfErr, OnOk};
ghost use Rattle.ws_code.specs.Device.{on_devices};
ghost use Rattle.ws_session.specs.world.Carrying.{IsCarried, IsCarryFault, passage};
ghost use Rattle.ws_session.specs.world.Crossings.{Crossing, HaveCrossed, IsStopped, all_read, all_sent};

use crate::carry;
use ws_code::{Fault, Sink, Source};

// The most bytes that are written to a line before they are read.
const PIECE: usize = 4096;

/// One direction of a connection: a sink, and a source at which what the sink takes is to be read.
#[derive(Drop)]
pub struct Line<S, R> {
    pub sink: S,
    pub source: R,
}

impl<S: Sink, R: Source> Line<S, R> {
    // Bytes go over the line, in pieces of at most 4,096, each of which is written and read before the next. What is
    // read takes their place.
    pub(crate) fn cross(&mut self, bytes: &mut [u8]) -> Result<(), Fault>
        ensures crossed { OnOk result ((crossings : Seq Crossing)
            × HaveCrossed (on_devices S.writer R.reader) self.old crossings self.new
            × (all_sent crossings ≡ bytes.old) × (all_read crossings ≡ bytes.new)) }
        ensures fault { IfErr result (IsStopped (on_devices S.writer R.reader) self.old self.new) }
    {
        let mut at = 0;
        while at < bytes.len() {
            let count = (bytes.len() - at).min(PIECE);
            self.cross_piece(&mut bytes[at..at + count])?;
            at += count;
        }
        Ok(())
    }

    fn cross_piece(&mut self, piece: &mut [u8]) -> Result<(), Fault>
        requires small { length piece.old ≤ 4096 }
        ensures crossed { OnOk result (IsCarried
            (passage (on_devices S.writer R.reader) self.old self.new) piece.old piece.new) }
        ensures fault { IfErr result (IsCarryFault
            (passage (on_devices S.writer R.reader) self.old self.new) piece.old piece.new) }
    {
        let mut buffer = [0u8; PIECE];
        let sent = &mut buffer[..piece.len()];
        sent.copy_from_slice(piece);
        carry(sent, &mut self.sink, &mut self.source, piece)
    }
}
