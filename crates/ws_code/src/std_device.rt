//! Devices over readers and writers of the standard library.
ghost use Rattle.std.specs.Prelude.{◌≡◌, ℕ};
ghost use Rattle.ws_code.specs.Device.{Counted, device_reader, device_writer};

use crate::{DeviceFailed, Sink, Source};
use std::io::{Read, Write};
use std::marker::Model;

/// Gives what a reader of the standard library gives, as a file or a socket. Each error of it is a failure.
#[derive(Drop)]
pub struct ReadSource<R> {
    reader: R,
    failures: u64,
}

impl<R> Model for ReadSource<R> {
    ghost use Rattle.ws_code.specs.Device.{Counted};

    ghost Value = { Counted R };

    ghost view = { λ s. record { device = s.reader; failures = s.failures } };
}

impl<R> ReadSource<R> {
    /// A source over the reader that has not failed.
    pub fn new(reader: R) -> Self
        ensures device { result.device ≡ reader }
        ensures failures { result.failures ≡ 0 }
    {
        ReadSource {
            reader,
            failures: 0,
        }
    }

    /// How often a read failed.
    pub fn failures(&self) -> u64
        ensures { result ≡ self.now.failures }
    {
        self.failures
    }

    /// The reader.
    pub fn into_inner(self) -> R
        ensures { result ≡ self.device }
    {
        self.reader
    }
}

impl<R: Read> Source for ReadSource<R> {
    ghost reader = { device_reader R.remaining };

    fn read(&mut self, into: &mut [u8]) -> Result<usize, DeviceFailed> {
        match self.reader.read(into) {
            Ok(given) => Ok(given),
            Err(_) => {
                self.failures = self.failures.saturating_add(1);
                Err(DeviceFailed)
            }
        }
    }
}

/// Hands bytes to a writer of the standard library, as a file or a socket. Each error of it is a failure.
#[derive(Drop)]
pub struct WriteSink<W> {
    writer: W,
    failures: u64,
}

impl<W> Model for WriteSink<W> {
    ghost use Rattle.ws_code.specs.Device.{Counted};

    ghost Value = { Counted W };

    ghost view = { λ s. record { device = s.writer; failures = s.failures } };
}

impl<W> WriteSink<W> {
    /// A sink over the writer that has not failed.
    pub fn new(writer: W) -> Self
        ensures device { result.device ≡ writer }
        ensures failures { result.failures ≡ 0 }
    {
        WriteSink {
            writer,
            failures: 0,
        }
    }

    /// How often a write failed.
    pub fn failures(&self) -> u64
        ensures { result ≡ self.now.failures }
    {
        self.failures
    }

    /// The writer. What it holds back of the bytes is its own to hand on.
    pub fn into_inner(self) -> W
        ensures { result ≡ self.device }
    {
        self.writer
    }
}

impl<W: Write> Sink for WriteSink<W> {
    ghost writer = { device_writer W.contents };

    fn write(&mut self, bytes: &[u8]) -> Result<usize, DeviceFailed> {
        match self.writer.write(bytes) {
            Ok(taken) => Ok(taken),
            Err(_) => {
                self.failures = self.failures.saturating_add(1);
                Err(DeviceFailed)
            }
        }
    }
}
