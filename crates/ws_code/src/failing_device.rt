//! Devices for tests, which fail after so many calls or take nothing.
ghost use Rattle.std.specs.Prelude.{◌≡◌, [], List, ℕ};
ghost use Rattle.ws_code.specs.Device.{Limited, limited_reader, limited_writer, idle_writer};

use crate::{DeviceFailed, Sink, Source};
use std::alloc::Global;
use std::marker::Model;

/// Gives the bytes of a slice one by one, for so many reads. Each read after these fails. It is for tests.
#[derive(Drop)]
pub struct FailingSource<'a> {
    rest: &'a [u8],
    calls: u64,
    failures: u64,
}

impl<'a> Model for FailingSource<'a> {
    ghost use Rattle.ws_code.specs.Device.{Limited};

    ghost Value = { Limited };

    ghost view = { λ s. record { bytes = s.rest.now; calls = s.calls; failures = s.failures } };
}

impl<'a> FailingSource<'a> {
    /// A source of these bytes that fails after `calls` reads.
    pub fn new(bytes: &'a [u8], calls: u64) -> Self
        ensures { result ≡ record { bytes = bytes.now; calls = calls; failures = 0 } }
    {
        FailingSource {
            rest: bytes,
            calls,
            failures: 0,
        }
    }

    /// How often a read failed.
    pub fn failures(&self) -> u64
        ensures { result ≡ self.now.failures }
    {
        self.failures
    }
}

impl Source for FailingSource<'_> {
    ghost reader = { limited_reader };

    fn read(&mut self, into: &mut [u8]) -> Result<usize, DeviceFailed> {
        if self.calls == 0 {
            self.failures = self.failures.saturating_add(1);
            return Err(DeviceFailed);
        }
        self.calls -= 1;
        let given = self.rest.len().min(into.len().min(1));
        into[..given].copy_from_slice(&self.rest[..given]);
        self.rest = &self.rest[given..];
        Ok(given)
    }
}

/// Keeps what is written, one byte for each of so many writes. Each write after these fails. It is for tests.
#[derive(Drop)]
pub struct FailingSink {
    bytes: Vec<u8>,
    calls: u64,
    failures: u64,
}

impl Model for FailingSink {
    ghost use Rattle.ws_code.specs.Device.{Limited};

    ghost Value = { Limited };

    ghost view = { λ s. record { bytes = s.bytes.items; calls = s.calls; failures = s.failures } };
}

impl FailingSink {
    /// A sink that holds no bytes and fails after `calls` writes. It grows in `alloc`.
    pub fn new(alloc: Global, calls: u64) -> Self
        ensures { result ≡ record { bytes = []; calls = calls; failures = 0 } }
    {
        FailingSink {
            bytes: Vec::new(alloc),
            calls,
            failures: 0,
        }
    }

    /// What was written.
    pub fn as_slice(&self) -> &[u8]
        ensures { result.now ≡ self.now.bytes }
    {
        self.bytes.as_slice()
    }

    /// How often a write failed.
    pub fn failures(&self) -> u64
        ensures { result ≡ self.now.failures }
    {
        self.failures
    }
}

impl Sink for FailingSink {
    ghost writer = { limited_writer };

    fn write(&mut self, bytes: &[u8]) -> Result<usize, DeviceFailed> {
        let taken = bytes.len().min(1);
        if self.calls == 0 || self.bytes.extend_from_slice(&bytes[..taken]).is_err() {
            self.failures = self.failures.saturating_add(1);
            return Err(DeviceFailed);
        }
        self.calls -= 1;
        Ok(taken)
    }
}

/// Takes no byte, and never fails otherwise. It is for tests.
#[derive(Clone, Copy)]
pub struct StuckSink;

impl Sink for StuckSink {
    ghost writer = { idle_writer };

    fn write(&mut self, _bytes: &[u8]) -> Result<usize, DeviceFailed> {
        Ok(0)
    }
}
