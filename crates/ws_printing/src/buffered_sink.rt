//! A buffer before a sink.
ghost use Rattle.std.specs.Prelude.{◌≡◌, ◌≢◌, [], List, ℕ, OnOk, OnErr};
ghost use Rattle.ws_code.specs.Device.{one_more, WentOut, FailedWithin};
ghost use Rattle.ws_printing.specs.Buffering.{Buffering, buffered_writer};

use arrayvec::ArrayVec;
use std::marker::Model;
use ws_code::{DeviceFailed, Sink, write_whole};

/// So many bytes a buffer holds at most.
pub const BUFFER_SIZE: usize = 8192;

/// Holds bytes back, and hands them on to a sink when it is full or is flushed. It counts its failures.
///
/// It takes no memory. A failed write of the sink comes as the failure of the call that would have handed the bytes on,
/// and what was held is dropped then, so that no byte goes out twice.
#[derive(Drop)]
pub struct BufferedSink<S> {
    sink: S,
    held: ArrayVec<u8, BUFFER_SIZE>,
    failures: u64,
}

impl<S> Model for BufferedSink<S> {
    ghost use Rattle.ws_printing.specs.Buffering.{Buffering};

    ghost Value = { Buffering S };

    ghost view = { λ b. record { sink = b.sink; held = b.held.items; failures = b.failures } };
}

impl<S> BufferedSink<S> {
    /// A buffer before the sink, which holds no byte and has not failed.
    pub fn new(sink: S) -> Self
        ensures sink { result.sink ≡ sink }
        ensures held { result.held ≡ [] }
        ensures failures { result.failures ≡ 0 }
    {
        BufferedSink {
            sink,
            held: ArrayVec::new(),
            failures: 0,
        }
    }

    /// The sink. What is still held back is dropped.
    pub fn into_inner(self) -> S
        ensures { result ≡ self.sink }
    {
        self.sink
    }
}

impl<S: Sink> BufferedSink<S> {
    /// Hands on all that is held. Where nothing is, it writes nothing.
    ///
    /// # Errors
    ///
    /// Where a write of the sink failed: what was held is dropped then.
    pub fn flush(&mut self) -> Result<(), DeviceFailed>
        ensures held { self.new.held ≡ [] }
        ensures none { self.old.held ≡ [] → self.new ≡ self.old }
        ensures ok { OnOk result
            (WentOut S.writer self.old.sink self.new.sink self.old.held
            × (self.new.failures ≡ self.old.failures)) }
        ensures err { OnErr result
            (FailedWithin S.writer self.old.sink self.new.sink self.old.held
            × (self.new.failures ≡ one_more self.old.failures)) }
    {
        if self.held.is_empty() {
            return Ok(());
        }
        let outcome = write_whole(&mut self.sink, self.held.as_slice());
        self.held.clear();
        match outcome {
            Ok(()) => Ok(()),
            Err(_) => {
                self.failures = self.failures.saturating_add(1);
                Err(DeviceFailed)
            }
        }
    }
}

impl<S: Sink> Sink for BufferedSink<S> {
    ghost writer = { buffered_writer S.writer };

    fn write(&mut self, bytes: &[u8]) -> Result<usize, DeviceFailed> {
        if self.held.is_full() {
            self.flush()?;
        }
        let taken = bytes.len().min(self.held.remaining_capacity());
        let _fits = self.held.try_extend_from_slice(&bytes[..taken]);
        Ok(taken)
    }
}
