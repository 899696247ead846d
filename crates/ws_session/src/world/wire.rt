//! What one end has written, and how much of it has arrived.
ghost use Rattle.std.specs.Prelude.{[], ◌^◌, ◌≡◌, ◌<◌, ◌≤◌, ◌+◌, ◌++◌, List as Seq, length, take, drop, OnOk, IfErr};
ghost use Rattle.ws_code.specs.Device.{on_devices};
ghost use Rattle.ws_session.specs.world.Crossings.{Crossing, HaveCrossed, IsStopped, all_read, all_sent, with_piece_at};

use crate::Line;
use std::alloc::Global;
use std::marker::Model;
use ws_code::{Fault, Sink, Source};

/// What one end of a session writes for the other, and how much of it has arrived.
#[derive(Drop)]
pub(crate) struct Wire {
    bytes: Vec<u8>,
    at: usize,
}

impl Model for Wire {
    ghost use Rattle.std.specs.Prelude.{◌≤◌, ◌<◌, ◌+◌, ◌^◌, length};
    ghost use Rattle.ws_session.specs.world.Wires.{WireParts};

    ghost Value = { WireParts };

    ghost view = { λ w. record { bytes = w.bytes.items; at = w.at } };

    // No more has arrived than was written, and an end can count all of it.
    ghost invariant = { λ w. (w.at ≤ length w.bytes.items) × (length w.bytes.items + 1 < 2 ^ 64) };
}

impl Wire {
    pub(crate) fn new(alloc: Global) -> Self
        ensures { result ≡ record { bytes = []; at = 0 } }
    {
        Wire {
            bytes: Vec::new(alloc),
            at: 0,
        }
    }

    // Puts bytes on their way. Want of memory is the only fault.
    pub(crate) fn write(&mut self, bytes: &[u8]) -> Result<(), Fault>
        ensures written { OnOk result (self.new ≡ record self.old {
          bytes = self.old.bytes ++ bytes.now;
        }) }
        ensures fault { IfErr result (λ fault. fault ≡ Fault.Memory) }
    {
        if bytes.len() >= usize::MAX - self.bytes.len() {
            return Err(Fault::Memory);
        }
        if self.bytes.extend_from_slice(bytes).is_err() {
            return Err(Fault::Memory);
        }
        Ok(())
    }

    // Has no effect, and tells what is so of every wire.
    pub(crate) fn known(&self)
        ensures few { length self.now.bytes + 1 < 2 ^ 64 }
    {
        let _at = self.at;
    }

    // How many bytes are in flight.
    pub(crate) fn in_flight(&self) -> usize
        ensures left { self.now.at + result ≡ length self.now.bytes }
        ensures few { length self.now.bytes + 1 < 2 ^ 64 }
    {
        self.bytes.len() - self.at
    }

    // The bytes in flight.
    pub(crate) fn waiting(&self) -> &[u8]
        ensures bytes { result.now ≡ drop self.now.at self.now.bytes }
        ensures few { length self.now.bytes + 1 < 2 ^ 64 }
    {
        &self.bytes[self.at..]
    }

    // So many of them have arrived.
    pub(crate) fn skip(&mut self, count: usize)
        requires some { self.old.at + count ≤ length self.old.bytes }
        ensures { self.new ≡ record self.old { at = self.old.at + count } }
    {
        self.at += count;
    }

    // So many of the bytes in flight, or all where there are fewer, go over a line. What is read takes their place.
    pub(crate) fn cross<S: Sink, R: Source>(
        &mut self,
        line: &mut Line<S, R>,
        count: usize,
    ) -> Result<(), Fault>
        ensures crossed { OnOk result ((crossings : Seq Crossing)
            × HaveCrossed (on_devices S.writer R.reader) line.old crossings line.new
            × (all_sent crossings ≡ take count (drop self.old.at self.old.bytes))
            × (self.new ≡ record self.old {
              bytes = with_piece_at self.old.bytes self.old.at (all_read crossings);
            })) }
        ensures fault { IfErr result (IsStopped (on_devices S.writer R.reader) line.old line.new) }
    {
        let at = self.at;
        let end = at + count.min(self.in_flight());
        line.cross(&mut self.bytes[at..end])
    }
}
