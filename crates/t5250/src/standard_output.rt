//! Standard output, which knows whether its reader is gone.
ghost use Rattle.std.specs.Prelude.{◌≡◌};
ghost use Rattle.ws_code.specs.Device.{Counted, device_writer};

use crate::progress::Progress;
use std::io::{ErrorKind, Write};
use std::marker::Model;
use ws_code::{DeviceFailed, Sink};

/// Hands bytes to a writer of the standard library, counts its failures, and has told how much was written. It keeps
/// whether a failure came because nobody reads what is written, as of a pipe whose other side was closed.
#[derive(Drop)]
pub(crate) struct StandardOutput<'a, W> {
    writer: W,
    failures: u64,
    is_unread: bool,
    progress: Progress<'a>,
}

impl<'a, W> Model for StandardOutput<'a, W> {
    ghost use Rattle.ws_code.specs.Device.{Counted};

    ghost Value = { Counted W };

    ghost view = { λ s. record { device = s.writer; failures = s.failures } };
}

impl<'a, W> StandardOutput<'a, W> {
    /// One that has not failed.
    pub(crate) fn new(writer: W, progress: Progress<'a>) -> Self
        ensures device { result.device ≡ writer }
        ensures failures { result.failures ≡ 0 }
    {
        StandardOutput {
            writer,
            failures: 0,
            is_unread: false,
            progress,
        }
    }

    /// No more is written. Whether nobody reads what is written any more.
    pub(crate) fn end(&self) -> bool {
        self.progress.end();
        self.is_unread
    }
}

impl<W: Write> Sink for StandardOutput<'_, W> {
    ghost writer = { device_writer W.contents };

    fn write(&mut self, bytes: &[u8]) -> Result<usize, DeviceFailed> {
        match self.writer.write(bytes) {
            Ok(taken) => {
                self.progress.add(taken);
                Ok(taken)
            }
            Err(error) => {
                self.failures = self.failures.saturating_add(1);
                self.is_unread = error.kind() == ErrorKind::BrokenPipe;
                Err(DeviceFailed)
            }
        }
    }
}
